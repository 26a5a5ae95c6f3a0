//! The links of plans.
ghost use Rattle.std.specs.Prelude.{◌≡◌, ◌<◌, map, IfOk};
ghost use Rattle.xet_store.specs.Responses.{descriptor_of};
ghost use Rattle.xet_service.specs.RunLinks.{most_runs};

use crate::step::PlanVersion;
use std::alloc::Global;
use std::collections::BTreeMap;
use xet_plan::MergedRange;
use xet_store::descriptor;
use xet_types::{HexMerkleHash, MerkleHash, OutOfMemory, XorbRangeDescriptor};

/// How many links the xorbs have together, up to the type's end.
pub(crate) fn count_links<T>(xorbs: &BTreeMap<HexMerkleHash, Vec<T>>) -> usize {
    let mut count = 0usize;
    for (_, links) in xorbs {
        count = count.saturating_add(links.len());
    }
    count
}

/// How many runs of a xorb's chunks a link of a version brings at most.
pub(crate) fn most_runs(version: PlanVersion, max: usize) -> usize
    ensures { result ≡ most_runs version max }
{
    match version {
        PlanVersion::V1 => 1,
        PlanVersion::V2 => max,
    }
}

/// How many links the xorbs' runs have, up to the type's end, where each brings at most `max`.
pub(crate) fn count_groups(merged: &[(MerkleHash, Vec<MergedRange>)], max: usize) -> usize
    requires { 0 < max }
{
    let mut count = 0usize;
    for (_, runs) in merged {
        count = count.saturating_add(runs.len().div_ceil(max));
    }
    count
}

/// The chunks of runs, and their bytes with an inclusive end.
pub(crate) fn descriptors(
    alloc: Global,
    runs: &[MergedRange],
) -> Result<Vec<XorbRangeDescriptor>, OutOfMemory>
    ensures { IfOk result (λ ranges. ranges.items ≡ map descriptor_of runs.now) }
{
    let mut ranges = Vec::with_capacity(alloc, runs.len())?;
    for run in runs {
        ranges.push(descriptor(run))?;
    }
    Ok(ranges)
}
