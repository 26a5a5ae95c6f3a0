//! Ranges of a xorb's chunks that overlap or touch become one.
ghost use Rattle.std.specs.Prelude.{◌≡◌, ℕ, ◌+◌, ◌<◌, ◌↔◌, List, map, IfOk};
ghost use Rattle.std.specs.List.{AllByRecursion};
ghost use Rattle.std.specs.List.Sorted.{IsPermutation};
ghost use Rattle.xet_plan.specs.Runs.{IsMerged};
ghost use Rattle.xet_plan.specs.Merging.{joins as joins_lem, joined as joined_lem, range_of as range_of_lem, merged, grouped, ranges_shown, group_of, InOrder, NoneEmpty, CutsHave, CutAt, RangesAt};

use crate::place::Cut;
use std::alloc::Global;
use xet_types::{ChunkRange, FileRange, MerkleHash, OutOfMemory};

/// A range of a xorb's chunks, and where they lie in the xorb's bytes, headers among them.
#[derive(Clone, Copy, Debug, PartialEq, Eq)]
pub struct MergedRange {
    /// The numbers of the chunks.
    pub chunk_range: ChunkRange,
    /// Their bytes.
    pub byte_range: FileRange,
}

fn range_of(cut: &Cut) -> MergedRange
    ensures { result ≡ range_of_lem cut.now }
{
    MergedRange {
        chunk_range: ChunkRange::new(cut.start, cut.end),
        byte_range: FileRange::new(u64::from(cut.byte_start), u64::from(cut.byte_end)),
    }
}

/// Whether the next cut overlaps or touches the current one.
fn joins(current: &Cut, next: &Cut) -> bool
    ensures { result ≡ joins_lem current.now next.now }
{
    next.hash == current.hash && next.start <= current.end
}

fn joined(current: &Cut, next: &Cut) -> Cut
    ensures { result ≡ joined_lem current.now next.now }
{
    let mut both = *current;
    if current.end < next.end {
        both.end = next.end;
        both.byte_end = next.byte_end;
    }
    both
}

/// The cuts by hash, then start.
fn in_order(mut cuts: Vec<Cut>) -> Vec<Cut>
    ensures permutation { IsPermutation cuts.items result.items }
    ensures order { InOrder result.items }
{
    cuts.sort_unstable();
    cuts
}

/// How many runs the cuts of the first one's xorb make, of cuts in order.
fn count_runs(first: &Cut, rest: &[Cut]) -> usize {
    let mut count = 1usize;
    let mut end = first.end;
    for next in rest {
        if next.hash != first.hash {
            break;
        }
        if next.start > end {
            count = count.saturating_add(1);
        }
        end = end.max(next.end);
    }
    count
}

/// Of cuts in order, those that overlap or touch made one, and those of one hash in one list, whose room is its size.
#[tactic(auto, using(crate::proofs::Heads::first_merged))]
fn merged_by_hash(
    alloc: Global,
    sorted: &[Cut],
) -> Result<Vec<(MerkleHash, Vec<MergedRange>)>, OutOfMemory>
    ensures { IfOk result (λ v. map ranges_shown v.items ≡ grouped (merged sorted.now)) }
{
    let Some((first, rest)) = sorted.split_first() else {
        return Ok(Vec::new(alloc));
    };
    let mut groups = Vec::with_capacity(alloc, 1)?;
    let mut ranges = Vec::with_capacity(alloc, count_runs(first, rest))?;
    let mut current = *first;
    for (k, next) in rest.iter().enumerate() {
        if joins(&current, next) {
            current = joined(&current, next);
            continue;
        }
        ranges.push(range_of(&current))?;
        if next.hash == current.hash {
            current = *next;
            continue;
        }
        groups.push((current.hash, ranges))?;
        ranges = Vec::with_capacity(alloc, count_runs(next, &rest[k + 1..]))?;
        current = *next;
    }
    ranges.push(range_of(&current))?;
    groups.push((current.hash, ranges))?;
    Ok(groups)
}

/// The maximal runs of the cuts' chunks, in order of hash, then start.
pub fn runs_of(
    alloc: Global,
    cuts: Vec<Cut>,
) -> Result<Vec<(MerkleHash, Vec<MergedRange>)>, OutOfMemory>
    requires { NoneEmpty cuts.items }
    ensures runs { IfOk result (λ v. IsMerged (CutsHave cuts.items) (map group_of (map ranges_shown v.items))) }
    ensures bytes { (f : List ℕ → ℕ → ℕ) → AllByRecursion (CutAt f) cuts.items → IfOk result (λ v. AllByRecursion (RangesAt f) (map ranges_shown v.items)) }
{
    let sorted = in_order(cuts);
    let groups = merged_by_hash(alloc, &sorted)?;
    Ok(groups)
}
