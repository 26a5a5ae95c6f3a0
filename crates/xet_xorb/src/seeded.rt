//! The bytes of a xorb that is generated from one seed, made in one pass.
ghost use Rattle.std.specs.Prelude.{◌≡◌, ◌+◌, ◌*◌, ◌^◌, ◌<◌, ◌++◌, map, replicate, OnOk, IfOk};
ghost use Rattle.xet_types.specs.Names.{chunk_hash};
ghost use Rattle.xet_xorb.specs.Lengths.{AreLengths};
ghost use Rattle.xet_xorb.specs.ChunkLists.{object_of};
ghost use Rattle.xet_xorb.specs.XorbBytes.{chunk_bytes, xorb_text, xorb_bytes};
ghost use Rattle.xet_xorb.specs.Generated.{generated, seeded_chunks, GeneratesBytes, PutsHashed, PutsAllHashed, IsSerialized};

use crate::generate::{are_equal_lengths, put_generated};
use crate::object::XorbObject;
use crate::write::{put_footer, put_header};
use bytes::Bytes;
use rand_core::{Rng, SeedableRng};
use rand_xoshiro::Xoshiro256PlusPlus;
use std::alloc::Global;
use xet_types::{ClientError, MerkleHash, OutOfMemory, compute_data_hash};

/// Adds a generated chunk behind its header, and gives the chunk's hash, taken over the bytes in their place.
fn put_hashed(out: &mut Vec<u8>, seed: u64, size: u32) -> Result<MerkleHash, OutOfMemory>
    requires { size < 2 ^ 24 }
    ensures { IfOk result (λ hash. PutsHashed out.old.items (generated seed size) out.new.items hash) }
{
    put_header(out, size)?;
    let start = out.len();
    put_generated(out, seed, size)?;
    Ok(compute_data_hash(&out.as_slice()[start..]))
}

/// Adds so many chunks of the length in bytes, of the seeds that the one seed gives, each behind its header, and their hashes.
fn put_all_hashed(
    out: &mut Vec<u8>,
    hashes: &mut Vec<MerkleHash>,
    seed: u64,
    count: u32,
    size: u32,
) -> Result<(), OutOfMemory>
    requires { size < 2 ^ 24 }
    ensures { OnOk result (PutsAllHashed out.old.items hashes.old.items (seeded_chunks seed count size) out.new.items hashes.new.items) }
{
    let mut rng = Xoshiro256PlusPlus::seed_from_u64(seed);
    for _i in 0..count {
        let hash = put_hashed(out, rng.next_u64(), size)?;
        hashes.push(hash)?;
    }
    Ok(())
}

/// How long a xorb of so many chunks of one length is in bytes with its footer.
fn equal_serialized_length(count: u32, size: u32) -> usize
    requires { size < 2 ^ 24 }
    ensures { result ≡ 48 + count * (48 + size) }
{
    48 + count as usize * (48 + size as usize)
}

/// The xorb of so many chunks of one length.
fn serialized_of(
    alloc: Global,
    seed: u64,
    count: u32,
    size: u32,
) -> Result<(XorbObject, Bytes), OutOfMemory>
    requires { AreLengths (replicate count size) }
    ensures { IfOk result (λ made. IsSerialized (seeded_chunks seed count size) made) }
{
    let mut out = Vec::with_capacity(alloc, equal_serialized_length(count, size))?;
    let mut hashes = Vec::with_capacity(alloc, count as usize)?;
    put_all_hashed(&mut out, &mut hashes, seed, count, size)?;
    let sizes = vec![in alloc; size; count as usize]?;
    let object = XorbObject::new(alloc, hashes, sizes.as_slice())?;
    put_footer(&mut out, &object)?;
    Ok((object, Bytes::from_vec(out)?))
}

/// The object and the bytes, with the footer, of the xorb that `RandomXorb::from_seed` gives for these. Each chunk is generated once,
/// in its place in the bytes, and hashed once there; room is taken once for all bytes.
///
/// `InvalidArguments` exactly as for `from_seed`, before anything is generated.
pub fn generate_serialized(
    alloc: Global,
    seed: u64,
    num_chunks: u32,
    chunk_size: u32,
) -> Result<(XorbObject, Bytes), ClientError>
    ensures { GeneratesBytes (seeded_chunks seed num_chunks chunk_size) result }
{
    if !are_equal_lengths(num_chunks, chunk_size) {
        return Err(ClientError::InvalidArguments);
    }
    Ok(serialized_of(alloc, seed, num_chunks, chunk_size)?)
}
