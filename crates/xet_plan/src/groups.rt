//! Groups of ranges, each for one link.
ghost use Rattle.std.specs.Prelude.{◌≡◌, ◌<◌, map, IfOk};
ghost use Rattle.std.specs.List.{flat_map};
ghost use Rattle.xet_plan.specs.Groups.{Sizes, items_of, in_groups};

use crate::runs::MergedRange;
use std::alloc::Global;
use xet_types::OutOfMemory;

/// The ranges in consecutive groups of `max`, the last maybe smaller; no groups of no ranges.
pub fn group(
    alloc: Global,
    ranges: &[MergedRange],
    max: usize,
) -> Result<Vec<Vec<MergedRange>>, OutOfMemory>
    requires { 0 < max }
    ensures all { IfOk result (λ v. flat_map items_of v.items ≡ ranges.now) }
    ensures sizes { IfOk result (λ v. Sizes max (map items_of v.items)) }
    ensures value { IfOk result (λ v. map items_of v.items ≡ in_groups max ranges.now) }
{
    let mut groups = Vec::with_capacity(alloc, ranges.len().div_ceil(max))?;
    let mut rest = ranges;
    while rest.len() > max {
        let (front, back) = rest.split_at(max);
        groups.push(Vec::from_slice(alloc, front)?)?;
        rest = back;
    }
    if rest.is_empty() {
        return Ok(groups);
    }
    groups.push(Vec::from_slice(alloc, rest)?)?;
    Ok(groups)
}
