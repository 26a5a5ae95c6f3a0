//! Chunks that are generated from seeds.
ghost use Rattle.std.specs.Prelude.{◌≡◌, ◌↔◌, ℕ, ◌+◌, ◌*◌, ◌^◌, ◌≤◌, ◌<◌, ◌++◌, length, map, slice_range, replicate, All, IsTrue, IfOk, OnOk};
ghost use Rattle.std.specs.List.{flat_map};
ghost use Rattle.xet_xorb.specs.Lengths.{AreLengths};
ghost use Rattle.xet_xorb.specs.Generated.{generated, chunk_seeds, seeded_specs, chunk_of_info, packed_of_info, info_of, infos_of, hash_and_size_of};

use crate::write::{is_chunk_length, put_header};
use rand_core::{Rng, SeedableRng};
use rand_xoshiro::Xoshiro256PlusPlus;
use std::alloc::Global;
use xet_types::{MerkleHash, OutOfMemory, compute_data_hash};

/// A generated chunk: its seed, its length in bytes, and its hash.
#[derive(Clone, Copy, Debug)]
pub struct RandomChunkInfo {
    /// The seed of its bytes.
    pub seed: u64,
    /// Its length in bytes.
    pub size: u32,
    /// Its hash.
    pub hash: MerkleHash,
}

/// Whether so many chunks of these lengths are those of a xorb.
pub(crate) fn are_lengths(chunk_specs: &[(u64, u32)]) -> bool
    ensures { IsTrue result ↔ AreLengths (map (λ s. s.1) chunk_specs.now) }
{
    let mut serialized_length = 48u64;
    for (_, size) in chunk_specs {
        if !is_chunk_length(*size as usize) {
            return false;
        }
        serialized_length += 48 + u64::from(*size);
        if serialized_length >= 1 << 32 {
            return false;
        }
    }
    !chunk_specs.is_empty()
}

/// Writes the bytes of a seed over those that are there.
fn generate(seed: u64, bytes: &mut [u8])
    ensures { bytes.new ≡ generated seed (length bytes.old) }
{
    let mut rng = Xoshiro256PlusPlus::seed_from_u64(seed);
    rng.fill_bytes(bytes);
}

/// Adds a generated chunk.
pub(crate) fn put_generated(out: &mut Vec<u8>, seed: u64, size: u32) -> Result<(), OutOfMemory>
    ensures { OnOk result (out.new.items ≡ out.old.items ++ generated seed size) }
{
    let start = out.len();
    out.resize(start + size as usize, 0)?;
    generate(seed, &mut out.as_mut_slice()[start..]);
    Ok(())
}

/// A chunk, whose bytes are made in the buffer to know its hash.
fn info_of(buffer: &mut Vec<u8>, seed: u64, size: u32) -> Result<RandomChunkInfo, OutOfMemory>
    ensures { IfOk result (λ info. info ≡ info_of seed size) }
{
    buffer.clear();
    put_generated(buffer, seed, size)?;
    Ok(RandomChunkInfo {
        seed,
        size,
        hash: compute_data_hash(buffer.as_slice()),
    })
}

/// What is known of chunks of these seeds and lengths. Each is generated once and hashed once.
pub(crate) fn infos_of(
    alloc: Global,
    chunk_specs: &[(u64, u32)],
) -> Result<Vec<RandomChunkInfo>, OutOfMemory>
    ensures { IfOk result (λ infos. infos.items ≡ infos_of chunk_specs.now) }
{
    let mut infos = Vec::with_capacity(alloc, chunk_specs.len())?;
    let mut buffer = Vec::new(alloc);
    for (seed, size) in chunk_specs {
        infos.push(info_of(&mut buffer, *seed, *size)?)?;
    }
    Ok(infos)
}

/// The hashes of chunks.
pub(crate) fn hashes_of(
    alloc: Global,
    chunks: &[RandomChunkInfo],
) -> Result<Vec<MerkleHash>, OutOfMemory>
    ensures { IfOk result (λ hashes. hashes.items ≡ map (λ info. info.hash) chunks.now) }
{
    let hashes = chunks.iter().map(|chunk| chunk.hash).collect(alloc)?;
    Ok(hashes)
}

/// The hash and the length in bytes of each chunk.
pub(crate) fn hash_sizes_of(
    alloc: Global,
    chunks: &[RandomChunkInfo],
) -> Result<Vec<(MerkleHash, u64)>, OutOfMemory>
    ensures { IfOk result (λ pairs. pairs.items ≡ map hash_and_size_of chunks.now) }
{
    let pairs = chunks
        .iter()
        .map(|chunk| (chunk.hash, u64::from(chunk.size)))
        .collect(alloc)?;
    Ok(pairs)
}

/// The lengths of chunks in bytes.
pub(crate) fn sizes_of(alloc: Global, chunks: &[RandomChunkInfo]) -> Result<Vec<u32>, OutOfMemory>
    ensures { IfOk result (λ sizes. sizes.items ≡ map (λ info. info.size) chunks.now) }
{
    let sizes = chunks.iter().map(|chunk| chunk.size).collect(alloc)?;
    Ok(sizes)
}

/// Whether so many chunks of one length are those of a xorb.
pub(crate) fn are_equal_lengths(count: u32, size: u32) -> bool
    ensures { IsTrue result ↔ AreLengths (replicate count size) }
{
    if count == 0 || !is_chunk_length(size as usize) {
        return false;
    }
    48 + u64::from(count) * (48 + u64::from(size)) < 1 << 32
}

/// So many seeds that the one seed gives, each with the length.
pub(crate) fn seeded_specs(
    alloc: Global,
    seed: u64,
    count: u32,
    size: u32,
) -> Result<Vec<(u64, u32)>, OutOfMemory>
    ensures { IfOk result (λ chunk_specs. chunk_specs.items ≡ seeded_specs size (chunk_seeds seed count)) }
{
    let mut chunk_specs = Vec::with_capacity(alloc, count as usize)?;
    let mut rng = Xoshiro256PlusPlus::seed_from_u64(seed);
    for _i in 0..count {
        chunk_specs.push((rng.next_u64(), size))?;
    }
    Ok(chunk_specs)
}

/// The chunks of a range that are there.
pub(crate) fn part(chunks: &[RandomChunkInfo], start: usize, end: usize) -> &[RandomChunkInfo]
    ensures { result.now ≡ slice_range chunks.now start end }
{
    let end = end.min(chunks.len());
    let start = start.min(end);
    &chunks[start..end]
}

/// Adds chunks, one behind the other.
pub(crate) fn put_all_generated(
    out: &mut Vec<u8>,
    chunks: &[RandomChunkInfo],
) -> Result<(), OutOfMemory>
    ensures { OnOk result (out.new.items ≡ out.old.items ++ flat_map chunk_of_info chunks.now) }
{
    for chunk in chunks {
        put_generated(out, chunk.seed, chunk.size)?;
    }
    Ok(())
}

/// Adds a chunk behind its header.
fn put_packed(out: &mut Vec<u8>, chunk: &RandomChunkInfo) -> Result<(), OutOfMemory>
    requires { chunk.now.size < 2 ^ 24 }
    ensures { OnOk result (out.new.items ≡ out.old.items ++ packed_of_info chunk.now) }
{
    put_header(out, chunk.size)?;
    put_generated(out, chunk.seed, chunk.size)?;
    Ok(())
}

/// Adds chunks, each behind its header.
pub(crate) fn put_all_packed(
    out: &mut Vec<u8>,
    chunks: &[RandomChunkInfo],
) -> Result<(), OutOfMemory>
    requires { All (λ info. info.size < 2 ^ 24) chunks.now }
    ensures { OnOk result (out.new.items ≡ out.old.items ++ flat_map packed_of_info chunks.now) }
{
    for chunk in chunks {
        put_packed(out, chunk)?;
    }
    Ok(())
}
