//! The chunks that get an entry for deduplication.
ghost use Rattle.std.specs.Prelude.{◌≡◌, ◌++◌, IfOk, OnOk, map, filter};
ghost use Rattle.std.specs.List.{flat_map};
ghost use Rattle.xet_shard.specs.Canonical.{canonical_of};
ghost use Rattle.xet_shard.specs.Eligible.{is_marked, eligible_in, eligible_among, distinct, eligible_of};

use crate::canonical_form::canonical_xorbs;
use crate::listing::{ChunkListing, Shard, XorbListing};
use std::alloc::Global;
use xet_bytes::ByHash;
use xet_types::{MerkleHash, OutOfMemory};

/// Whether the last eight bytes of a hash, the lowest first, are a number that 1024 divides.
fn is_marked(hash: &MerkleHash) -> bool
    ensures { result ≡ is_marked hash.now }
{
    let mut tail = [0u8; 8];
    tail.copy_from_slice(&hash.as_slice()[24..]);
    u64::from_le_bytes(tail) % 1024 == 0
}

/// Adds the hashes of the marked chunks.
fn push_marked(hashes: &mut Vec<MerkleHash>, chunks: &[ChunkListing]) -> Result<(), OutOfMemory>
    ensures { OnOk result (hashes.new.items ≡ hashes.old.items ++ filter is_marked (map (λ c. c.chunk_hash) chunks.now)) }
{
    for chunk in chunks {
        if is_marked(&chunk.chunk_hash) {
            hashes.push(chunk.chunk_hash)?;
        }
    }
    Ok(())
}

/// Adds the hash of the first chunk, and those of the other chunks that are marked.
fn push_eligible(hashes: &mut Vec<MerkleHash>, chunks: &[ChunkListing]) -> Result<(), OutOfMemory>
    ensures { OnOk result (hashes.new.items ≡ hashes.old.items ++ eligible_among (map (λ c. c.chunk_hash) chunks.now)) }
{
    let Some((first, others)) = chunks.split_first() else {
        return Ok(());
    };
    hashes.push(first.chunk_hash)?;
    push_marked(hashes, others)
}

/// The hashes, each where it stands first.
fn distinct(alloc: Global, hashes: &[MerkleHash]) -> Result<Vec<MerkleHash>, OutOfMemory>
    ensures { IfOk result (λ v. v.items ≡ distinct hashes.now) }
{
    let mut seen = ByHash::new(alloc);
    let mut firsts = Vec::new(alloc);
    for hash in hashes {
        if !seen.contains(hash) {
            seen.insert(*hash, ())?;
            firsts.push(*hash)?;
        }
    }
    Ok(firsts)
}

/// Of xorbs in canonical order the first chunk of each and the marked ones, each hash once.
pub fn eligible_among_xorbs(
    alloc: Global,
    xorbs: &[XorbListing],
) -> Result<Vec<MerkleHash>, OutOfMemory>
    ensures { IfOk result (λ v. v.items ≡ distinct (flat_map eligible_in xorbs.now)) }
{
    let mut hashes = Vec::new(alloc);
    for xorb in xorbs {
        push_eligible(&mut hashes, xorb.chunks())?;
    }
    distinct(alloc, &hashes)
}

/// The hashes of the chunks of a shard that get an entry for deduplication, in the order of its canonical form, each once: the
/// first chunk of each xorb, and each chunk the last eight bytes of whose hash, the lowest first, are a number that 1024 divides.
pub fn eligible_chunks(alloc: Global, shard: &Shard) -> Result<Vec<MerkleHash>, OutOfMemory>
    ensures { IfOk result (λ v. v.items ≡ eligible_of (canonical_of shard.now)) }
{
    let xorbs = canonical_xorbs(alloc, shard.xorbs())?;
    eligible_among_xorbs(alloc, &xorbs)
}
