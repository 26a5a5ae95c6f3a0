//! The chunk range that holds a term.
ghost use Rattle.std.specs.Prelude.{◌≡◌, IsTrue, true};
ghost use Rattle.std.specs.Option.{option_copied};
ghost use Rattle.xet_service.specs.ReadingPlans.{range_holds, range_of};
ghost use Rattle.xet_service.specs.ReadingOrder.{has_chunks, ends_before, in_order_after, are_in_order, begins_by};

use super::held::LinkRange;
use std::cmp::Ordering;
use xet_types::XorbReconstructionTerm;

fn has_chunks(range: &LinkRange) -> bool
    ensures { result ≡ has_chunks range.now }
{
    range.chunks.start < range.chunks.end
}

/// Whether the chunks of the one end before those of the other begin, in order of hash.
fn ends_before(one: &LinkRange, other: &LinkRange) -> bool
    ensures { result ≡ ends_before one.now other.now }
{
    match one.hash.cmp(&other.hash) {
        Ordering::Less => true,
        Ordering::Equal => one.chunks.end < other.chunks.start,
        Ordering::Greater => false,
    }
}

/// Whether the ranges have chunks, and those of each end before those of the next one begin, the first of them behind one.
fn follow(first: &LinkRange, others: &[LinkRange]) -> bool
    ensures { result ≡ in_order_after first.now others.now }
{
    let mut last = first;
    for range in others {
        if !ends_before(last, range) || !has_chunks(range) {
            return false;
        }
        last = range;
    }
    true
}

/// Whether each range has chunks, and they end before those of the next one begin.
pub fn are_in_order(ranges: &[LinkRange]) -> bool
    ensures { result ≡ are_in_order ranges.now }
{
    match ranges.split_first() {
        Some((first, others)) => has_chunks(first) && follow(first, others),
        None => true,
    }
}

fn holds(range: &LinkRange, term: &XorbReconstructionTerm) -> bool
    ensures { result ≡ range_holds term.now range.now }
{
    range.hash == term.hash
        && range.chunks.start <= term.range.start
        && term.range.start <= term.range.end
        && term.range.end <= range.chunks.end
}

/// Whether the range's chunks begin no later than the term's, in order of hash.
fn begins_by(range: &LinkRange, term: &XorbReconstructionTerm) -> bool
    ensures { result ≡ begins_by range.now term.now }
{
    match range.hash.cmp(&term.hash) {
        Ordering::Less => true,
        Ordering::Equal => range.chunks.start <= term.range.start,
        Ordering::Greater => false,
    }
}

/// The first range that holds a term, of ranges in order.
fn range_in_order<'a>(
    ranges: &'a [LinkRange],
    term: &XorbReconstructionTerm,
) -> Option<&'a LinkRange>
    requires { are_in_order ranges.now ≡ true }
    ensures { option_copied result ≡ range_of ranges.now term.now }
{
    let after = ranges.partition_point(|range| begins_by(range, term));
    if after == 0 {
        return None;
    }
    let range = &ranges[after - 1];
    if holds(range, term) {
        Some(range)
    } else {
        None
    }
}

/// The first range that holds a term.
fn first_range<'a>(ranges: &'a [LinkRange], term: &XorbReconstructionTerm) -> Option<&'a LinkRange>
    ensures { option_copied result ≡ range_of ranges.now term.now }
{
    for range in ranges {
        if holds(range, term) {
            return Some(range);
        }
    }
    None
}

/// The first range that holds a term: found by halving where the ranges are in order, as those of a planner are.
pub fn range_of<'a>(
    ranges: &'a [LinkRange],
    in_order: bool,
    term: &XorbReconstructionTerm,
) -> Option<&'a LinkRange>
    requires { IsTrue in_order → are_in_order ranges.now ≡ true }
    ensures { option_copied result ≡ range_of ranges.now term.now }
{
    if in_order {
        range_in_order(ranges, term)
    } else {
        first_range(ranges, term)
    }
}
