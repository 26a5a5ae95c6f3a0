//! The terms of a generated file, and how many chunks their xorbs have.
ghost use Rattle.std.specs.Prelude.{◌≡◌, ◌↔◌, ◌<◌, ◌^◌, max, replicate, All, length, IsTrue, IfOk, Option};
ghost use Rattle.std.specs.Option.{option_copied, unwrap_or};
ghost use Rattle.std.specs.Map.{values_of};
ghost use Rattle.xet_xorb.specs.Lengths.{AreLengths};
ghost use Rattle.xet_generated.specs.Terms.{HasChunk, ends_of};

use std::alloc::Global;
use std::collections::BTreeMap;
use xet_types::OutOfMemory;
use xet_xorb::RandomXorb;

/// Whether there are few enough terms, and each has a chunk.
pub(crate) fn are_terms(terms: &[(u64, (u64, u64))]) -> bool
    ensures { IsTrue result ↔ ((length terms.now < 2 ^ 32) × All HasChunk terms.now) }
{
    if terms.len() >= 1 << 32 {
        return false;
    }
    terms.iter().all(|term| term.1.0 < term.1.1)
}

/// The greater one of two ends, one of which may be missing.
fn greater(other: Option<&u64>, end: u64) -> u64
    ensures { result ≡ max end (unwrap_or (option_copied other.entry) 0) }
{
    match other {
        Some(other) => end.max(*other),
        None => end,
    }
}

/// The greatest end of each seed's terms, by seed.
pub(crate) fn ends_of(
    alloc: Global,
    terms: &[(u64, (u64, u64))],
) -> Result<BTreeMap<u64, u64>, OutOfMemory>
    ensures { IfOk result (λ ends. ends.entries ≡ ends_of terms.now) }
{
    let mut ends = BTreeMap::new(alloc);
    for term in terms {
        let end = greater(ends.get(&term.0), term.1.1);
        let _other = ends.insert(term.0, end)?;
    }
    Ok(ends)
}

/// Whether so many chunks of a length are those of a xorb.
fn is_possible(end: u64, chunk_size: usize) -> bool
    ensures { IsTrue result ↔ AreLengths (replicate end chunk_size) }
{
    if end >= 1 << 32 || chunk_size >= 1 << 24 {
        return false;
    }
    RandomXorb::can_be_made(end as u32, chunk_size as u32)
}

/// Whether each number of chunks of a length is that of a xorb. Nothing is generated.
pub(crate) fn are_possible(ends: &BTreeMap<u64, u64>, chunk_size: usize) -> bool
    ensures { IsTrue result ↔ All (λ end. AreLengths (replicate end chunk_size)) (values_of ends.now.entries) }
{
    ends.values().all(|end| is_possible(*end, chunk_size))
}
