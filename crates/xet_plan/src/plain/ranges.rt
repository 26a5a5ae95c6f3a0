//! The maximal runs of met chunks, number by number: a run begins at a met chunk behind which none stands that is met.
ghost use Rattle.std.specs.Prelude.{◌≡◌, ◌≢◌, ℕ, ◌+◌, ◌^◌, ◌<◌, ◌≤◌, ◌↔◌, ◌⊎◌, not, [], List, map, filter, IsTrue, IfOk, IfSome, IfNone};
ghost use Rattle.std.specs.List.{AllByRecursion};
ghost use Rattle.xet_types.specs.Names.{same_hash};
ghost use Rattle.xet_xorb.specs.Lengths.{packed_before};
ghost use Rattle.xet_plan.specs.MetChunks.{Has};
ghost use Rattle.xet_plan.specs.Cuts.{object_lengths};
ghost use Rattle.xet_plan.specs.Merging.{chunks_part, RangeAt, RangesAt, ranges_shown, group_of};
ghost use Rattle.xet_plan.specs.Runs.{IsRuns, IsMerged, Before};
ghost use Rattle.xet_plan.specs.Answers.{packed_at};
ghost use Rattle.xet_plan.specs.Plain.{known_in};

use crate::plain::met::{MetChunk, find};
use crate::runs::MergedRange;
use std::alloc::Global;
use std::cmp::Ordering;
use xet_types::{ChunkRange, FileRange, MerkleHash, OutOfMemory};
use xet_xorb::XorbObject;

fn is_chunk(chunk: &MetChunk, hash: &MerkleHash, number: u32) -> bool
    ensures { IsTrue result ↔ ((chunk.now.hash ≡ hash.now) × (chunk.now.number ≡ number)) }
{
    if chunk.hash == *hash {
        chunk.number == number
    } else {
        false
    }
}

/// Whether the chunk of this xorb and this number is among these.
fn has(chunks: &[MetChunk], hash: &MerkleHash, number: u32) -> bool
    ensures { IsTrue result ↔ Has chunks.now hash.now number }
{
    match chunks {
        [] => false,
        [first, rest @ ..] => {
            if is_chunk(first, hash, number) {
                true
            } else {
                has(rest, hash, number)
            }
        }
    }
}

/// Past all numbers of these chunks.
fn past_all(chunks: &[MetChunk]) -> u32
    ensures { AllByRecursion (λ c. c.number < result) chunks.now }
{
    match chunks {
        [] => 0,
        [first, rest @ ..] => past_all(rest).max(first.number + 1),
    }
}

/// Where chunk k of a xorb begins in the xorb's bytes, k being at most the number of its chunks.
fn packed_place(xorbs: &[(MerkleHash, XorbObject)], hash: &MerkleHash, k: u32) -> u64
    ensures { result ≡ packed_at (known_in xorbs.now) hash.now k }
{
    match find(xorbs, hash) {
        None => 8 * u64::from(k),
        Some(object) => {
            let count = object.num_chunks();
            u64::from(object.packed_before(k.min(count))) + 8 * u64::from(k - k.min(count))
        }
    }
}

/// Where the run that begins at a met chunk ends: at the first number that isn't met.
fn run_end(chunks: &[MetChunk], hash: &MerkleHash, from: u32, past: u32) -> u32
    requires { from ≤ past }
    ensures from { from ≤ result }
    ensures to { result ≤ past }
    ensures met { (k : ℕ) → from ≤ k → k < result → Has chunks.now hash.now k }
    ensures next { result < past → Has chunks.now hash.now result → ⊥ }
{
    let mut end = from;
    while end < past {
        if !has(chunks, hash, end) {
            return end;
        }
        end += 1;
    }
    end
}

/// The chunks from a number up to another of a xorb, and where they lie in its bytes.
fn range_at(
    xorbs: &[(MerkleHash, XorbObject)],
    hash: &MerkleHash,
    start: u32,
    end: u32,
) -> MergedRange
    ensures start { result.chunk_range.start ≡ start }
    ensures end { result.chunk_range.end ≡ end }
    ensures bytes { RangeAt (packed_at (known_in xorbs.now)) hash.now result }
{
    MergedRange {
        chunk_range: ChunkRange::new(start, end),
        byte_range: FileRange::new(
            packed_place(xorbs, hash, start),
            packed_place(xorbs, hash, end),
        ),
    }
}

/// The runs of a xorb's met chunks from a number up to another.
fn runs_between(
    alloc: Global,
    xorbs: &[(MerkleHash, XorbObject)],
    chunks: &[MetChunk],
    hash: &MerkleHash,
    from: u32,
    past: u32,
) -> Result<Vec<MergedRange>, OutOfMemory>
    ensures runs { IfOk result (λ v. IsRuns (λ k. Has chunks.now hash.now k × (from ≤ k) × (k < past)) (map chunks_part v.items)) }
    ensures bytes { IfOk result (λ v. AllByRecursion (RangeAt (packed_at (known_in xorbs.now)) hash.now) v.items) }
{
    if from >= past {
        return Ok(Vec::new(alloc));
    }
    if !has(chunks, hash, from) {
        return runs_between(alloc, xorbs, chunks, hash, from + 1, past);
    }
    let end = run_end(chunks, hash, from + 1, past);
    let mut runs = runs_between(alloc, xorbs, chunks, hash, end, past)?;
    runs.insert(0, range_at(xorbs, hash, from, end))?;
    Ok(runs)
}

fn lesser(a: MerkleHash, b: MerkleHash) -> MerkleHash
    ensures of { (result ≡ a) ⊎ (result ≡ b) }
    ensures first { (result ≡ a) ⊎ Before result a }
    ensures second { (result ≡ b) ⊎ Before result b }
{
    match a.cmp(&b) {
        Ordering::Less => a,
        Ordering::Equal => a,
        Ordering::Greater => b,
    }
}

/// The least hash among these chunks, if there are any.
fn least_hash(chunks: &[MetChunk]) -> Option<MerkleHash>
    ensures none { IfNone result (chunks.now ≡ []) }
    ensures least { IfSome result (λ h. AllByRecursion (λ c. (h ≡ c.hash) ⊎ Before h c.hash) chunks.now) }
    ensures met { IfSome result (λ h. (k : ℕ) × Has chunks.now h k) }
{
    match chunks {
        [] => None,
        [first, rest @ ..] => match least_hash(rest) {
            None => Some(first.hash),
            Some(hash) => Some(lesser(hash, first.hash)),
        },
    }
}

/// The chunks of other xorbs.
fn others(
    alloc: Global,
    chunks: &[MetChunk],
    hash: &MerkleHash,
) -> Result<Vec<MetChunk>, OutOfMemory>
    ensures { IfOk result (λ v. v.items ≡ filter (λ c. not (same_hash c.hash hash.now)) chunks.now) }
{
    let mut others = Vec::new(alloc);
    for chunk in chunks {
        if chunk.hash == *hash {
            continue;
        }
        others.push(*chunk)?;
    }
    Ok(others)
}

/// The runs of each xorb's chunks among these, the least hash first.
pub(super) fn merged(
    alloc: Global,
    xorbs: &[(MerkleHash, XorbObject)],
    chunks: &[MetChunk],
) -> Result<Vec<(MerkleHash, Vec<MergedRange>)>, OutOfMemory>
    ensures runs { IfOk result (λ v. IsMerged (Has chunks.now) (map group_of (map ranges_shown v.items))) }
    ensures bytes { IfOk result (λ v. AllByRecursion (RangesAt (packed_at (known_in xorbs.now))) (map ranges_shown v.items)) }
{
    let Some(hash) = least_hash(chunks) else {
        return Ok(Vec::new(alloc));
    };
    let runs = runs_between(alloc, xorbs, chunks, &hash, 0, past_all(chunks))?;
    let rest = others(alloc, chunks, &hash)?;
    let mut groups = merged(alloc, xorbs, &rest)?;
    groups.insert(0, (hash, runs))?;
    Ok(groups)
}
