//! Plans of version 2.
ghost use Rattle.std.specs.Prelude.{◌≡◌, ◌<◌, map, IfOk};
ghost use Rattle.xet_types.specs.RecordMaps.{listed};
ghost use Rattle.xet_plan.specs.Runs.{Rising};
ghost use Rattle.xet_plan.specs.Groups.{items_of, in_groups};
ghost use Rattle.xet_plan.specs.Merging.{group_of, ranges_shown};
ghost use Rattle.xet_plan.specs.Answers.{groups_of};
ghost use Rattle.xet_store.specs.Responses.{descriptor_of, ranges_fetch, ranges_fetches, second_at};

use crate::runs::descriptor;
use std::alloc::Global;
use std::collections::BTreeMap;
use xet_plan::{MergedRange, Plan, group};
use xet_types::{
    HexMerkleHash, MerkleHash, OutOfMemory, QueryReconstructionResponseV2, XorbMultiRangeFetch,
};
use xet_wire::generate_v2_fetch_url;

/// The link of some runs of a xorb's chunks.
fn ranges_fetch(
    alloc: Global,
    hash: &MerkleHash,
    runs: &[MergedRange],
    at: u64,
) -> Result<XorbMultiRangeFetch, OutOfMemory>
    ensures { IfOk result (λ fetch. fetch ≡ ranges_fetch at hash.now runs.now) }
{
    let mut ranges = Vec::with_capacity(alloc, runs.len())?;
    for run in runs {
        ranges.push(descriptor(run))?;
    }
    let url = generate_v2_fetch_url(alloc, hash, &ranges, at)?;
    Ok(XorbMultiRangeFetch { url, ranges })
}

/// The links of groups of a xorb's runs.
fn group_fetches(
    alloc: Global,
    hash: &MerkleHash,
    groups: &[Vec<MergedRange>],
    at: u64,
) -> Result<Vec<XorbMultiRangeFetch>, OutOfMemory>
    ensures { IfOk result (λ fetches. fetches.items ≡ map (ranges_fetch at hash.now) (map items_of groups.now)) }
{
    let mut fetches = Vec::with_capacity(alloc, groups.len())?;
    for group in groups {
        fetches.push(ranges_fetch(alloc, hash, group, at)?)?;
    }
    Ok(fetches)
}

/// The links of a xorb's runs, each of a group of at most `max`.
fn ranges_fetches(
    alloc: Global,
    hash: &MerkleHash,
    runs: &[MergedRange],
    max: usize,
    at: u64,
) -> Result<Vec<XorbMultiRangeFetch>, OutOfMemory>
    requires { 0 < max }
    ensures { IfOk result (λ fetches. fetches.items ≡ map (ranges_fetch at hash.now) (in_groups max runs.now)) }
{
    let groups = group(alloc, runs, max)?;
    Ok(group_fetches(alloc, hash, &groups, at)?)
}

/// The links of each xorb's runs.
fn links(
    alloc: Global,
    merged: &[(MerkleHash, Vec<MergedRange>)],
    max: usize,
    at: u64,
) -> Result<BTreeMap<HexMerkleHash, Vec<XorbMultiRangeFetch>>, OutOfMemory>
    requires some { 0 < max }
    requires rising { Rising (map (λ g. group_of (ranges_shown g)) merged.now) }
    ensures { IfOk result (λ links. map listed links.entries ≡ map (λ g. ranges_fetches max at (ranges_shown g)) merged.now) }
{
    let mut links = BTreeMap::new(alloc);
    for (hash, runs) in merged {
        let fetches = ranges_fetches(alloc, hash, runs, max, at)?;
        links.insert(HexMerkleHash(*hash), fetches)?;
    }
    Ok(links)
}

/// A plan of version 2, whose links bring at most `max` runs each and have the moment in milliseconds.
pub fn second(
    alloc: Global,
    plan: Plan,
    max: usize,
    at: u64,
) -> Result<QueryReconstructionResponseV2, OutOfMemory>
    requires some { 0 < max }
    requires rising { Rising (groups_of plan) }
    ensures { IfOk result (λ second. second ≡ second_at max at plan) }
{
    let xorbs = links(alloc, &plan.merged, max, at)?;
    Ok(QueryReconstructionResponseV2 {
        offset_into_first_range: plan.offset_into_first_range,
        terms: plan.terms,
        xorbs,
    })
}
