//! Plans of version 1.
ghost use Rattle.std.specs.Prelude.{◌≡◌, ◌++◌, map, IfOk, OnOk};
ghost use Rattle.xet_types.specs.RecordMaps.{listed};
ghost use Rattle.xet_plan.specs.Runs.{Rising};
ghost use Rattle.xet_plan.specs.Merging.{group_of, ranges_shown};
ghost use Rattle.xet_plan.specs.Answers.{groups_of};
ghost use Rattle.xet_store.specs.Responses.{fetch_info_of, fetches_at, first_of};

use std::alloc::Global;
use std::collections::BTreeMap;
use xet_plan::{MergedRange, Plan};
use xet_types::{
    HexMerkleHash, HttpRange, MerkleHash, OutOfMemory, QueryReconstructionResponse,
    XorbReconstructionFetchInfo,
};
use xet_wire::generate_fetch_url;

/// The link of a run of a xorb's chunks.
fn fetch_info(
    alloc: Global,
    hash: &MerkleHash,
    run: &MergedRange,
    at: u64,
) -> Result<XorbReconstructionFetchInfo, OutOfMemory>
    ensures { IfOk result (λ info. info ≡ fetch_info_of at hash.now run.now) }
{
    let bytes = &run.byte_range;
    Ok(XorbReconstructionFetchInfo {
        range: run.chunk_range,
        url: generate_fetch_url(alloc, hash, bytes, at)?,
        url_range: HttpRange::new(bytes.start, bytes.end.saturating_sub(1)),
    })
}

/// The links of a xorb's runs.
fn fetch_infos(
    alloc: Global,
    hash: &MerkleHash,
    runs: &[MergedRange],
    at: u64,
) -> Result<Vec<XorbReconstructionFetchInfo>, OutOfMemory>
    ensures { IfOk result (λ infos. infos.items ≡ map (fetch_info_of at hash.now) runs.now) }
{
    let mut infos = Vec::with_capacity(alloc, runs.len())?;
    for run in runs {
        infos.push(fetch_info(alloc, hash, run, at)?)?;
    }
    Ok(infos)
}

/// The links of each xorb's runs.
pub fn links(
    alloc: Global,
    merged: &[(MerkleHash, Vec<MergedRange>)],
    at: u64,
) -> Result<BTreeMap<HexMerkleHash, Vec<XorbReconstructionFetchInfo>>, OutOfMemory>
    requires rising { Rising (map (λ g. group_of (ranges_shown g)) merged.now) }
    ensures { IfOk result (λ links. map listed links.entries ≡ map (λ g. fetches_at at (ranges_shown g)) merged.now) }
{
    let mut links = BTreeMap::new(alloc);
    for (hash, runs) in merged {
        let infos = fetch_infos(alloc, hash, runs, at)?;
        links.insert(HexMerkleHash(*hash), infos)?;
    }
    Ok(links)
}

/// A plan of version 1, whose links have the moment in milliseconds.
pub fn first(alloc: Global, plan: Plan, at: u64) -> Result<QueryReconstructionResponse, OutOfMemory>
    requires { Rising (groups_of plan) }
    ensures { IfOk result (λ first. first ≡ first_of at plan) }
{
    let fetch_info = links(alloc, &plan.merged, at)?;
    Ok(QueryReconstructionResponse {
        offset_into_first_range: plan.offset_into_first_range,
        terms: plan.terms,
        fetch_info,
    })
}
