//! The steps of a large run: files that are made, and read in part.
ghost use Rattle.std.specs.Prelude.{◌≡◌, ◌++◌, ◌∷◌, [], IfOk, OnOk};
ghost use Rattle.xet_demo.specs.Making.{made_chunks, made_terms, made_name, file_steps, made_steps};

use std::alloc::Global;
use xet_service::{Act, PlanVersion, Step};
use xet_types::{ClientError, FileRange, Items, MerkleHash, OutOfMemory, file_hash_with_salt};
use xet_xorb::RandomXorb;

/// How many bytes a chunk of a made file has.
const CHUNK_SIZE: u32 = 256;

/// How many chunks the xorb of a made file has.
const NUM_CHUNKS: u32 = 5;

/// The xorb of the file of this number.
fn made_xorb(alloc: Global, number: u64) -> Result<RandomXorb, OutOfMemory>
    ensures { IfOk result (λ xorb. xorb ≡ made_chunks number) }
{
    match RandomXorb::from_seed(alloc, number, NUM_CHUNKS, CHUNK_SIZE) {
        Ok(xorb) => Ok(xorb),
        Err(ClientError::InvalidArguments) => unreachable!(),
        Err(_) => Err(OutOfMemory),
    }
}

/// The name of the file of this number.
fn made_name(alloc: Global, number: u64) -> Result<MerkleHash, OutOfMemory>
    ensures { IfOk result (λ name. name ≡ made_name number) }
{
    let xorb = made_xorb(alloc, number)?;
    let mut chunks = xorb.chunk_hash_sizes(alloc, 0, 2)?;
    let rest = xorb.chunk_hash_sizes(alloc, 3, 5)?;
    chunks.extend_from_slice(rest.as_slice())?;
    Ok(file_hash_with_salt(&chunks, &[0; 32]))
}

/// The terms of the file of this number: two chunks of its xorb, and the two behind the next one.
fn made_terms(alloc: Global, number: u64) -> Result<Items<(u64, (u64, u64))>, OutOfMemory>
    ensures { IfOk result (λ terms. terms ≡ made_terms number) }
{
    let terms = Vec::from_array(alloc, [(number, (0, 2)), (number, (3, 5))])?;
    Ok(Items::from_vec(terms))
}

/// Adds a step at a moment.
fn put_step(steps: &mut Vec<Step>, at: u64, act: Act) -> Result<(), OutOfMemory>
    ensures { OnOk result (steps.new.items ≡ steps.old.items ++ record { at = at; act = act } ∷ []) }
{
    steps.push(Step { at, act })?;
    Ok(())
}

/// Adds the steps of the file of this number.
fn put_file_steps(alloc: Global, steps: &mut Vec<Step>, number: u64) -> Result<(), OutOfMemory>
    ensures { OnOk result (steps.new.items ≡ steps.old.items ++ file_steps number) }
{
    let file = made_name(alloc, number)?;
    let terms = made_terms(alloc, number)?;
    put_step(
        steps,
        number,
        Act::InsertLazyFile {
            terms,
            chunk_size: u64::from(CHUNK_SIZE),
        },
    )?;
    put_step(
        steps,
        number,
        Act::Plan {
            version: PlanVersion::V2,
            file,
            range: Some(FileRange::new(100, 900)),
        },
    )?;
    put_step(
        steps,
        number,
        Act::Fetch {
            read: number,
            link: 0,
        },
    )?;
    Ok(())
}

/// The steps of a large run of so many files. The file of number k is generated from the seed k and stored at the moment k; then its
/// bytes from 100 up to 900 are planned, and the one link of this read, which is read k, is fetched.
pub fn made_steps(alloc: Global, count: u32) -> Result<Vec<Step>, OutOfMemory>
    ensures { IfOk result (λ steps. steps.items ≡ made_steps count) }
{
    let mut steps = Vec::with_capacity(alloc, 3 * count as usize)?;
    for number in 0..count {
        put_file_steps(alloc, &mut steps, u64::from(number))?;
    }
    Ok(steps)
}
