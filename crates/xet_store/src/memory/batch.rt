//! Plans of several files, taken together.
ghost use Rattle.std.specs.Prelude.{◌≡◌, [], ◌∷◌, map, IfOk, OnOk, ⊤};
ghost use Rattle.std.specs.FinMap.Entries.{put};
ghost use Rattle.xet_types.specs.Names.{hash_cmp};
ghost use Rattle.xet_types.specs.RecordMaps.{listed};
ghost use Rattle.xet_plan.specs.Merging.{ranges_shown};
ghost use Rattle.xet_store.specs.Answered.{Answered};
ghost use Rattle.xet_store.specs.Refusals.{RefusedBy, OfPlan};
ghost use Rattle.xet_store.specs.Batches.{PlansAll, RespondsToAll, with_joined, with_all_joined};

use super::MemoryClient;
use super::first::links;
use crate::plans::FilePlans;
use std::alloc::Global;
use std::collections::BTreeMap;
use std::marker::Model;
use xet_plan::{MergedRange, Plan};
use xet_types::{
    BatchQueryReconstructionResponse, ClientError, HexMerkleHash, Items, MerkleHash, OutOfMemory,
    XorbReconstructionTerm,
};

/// The parts of each file.
type Terms = BTreeMap<HexMerkleHash, Vec<XorbReconstructionTerm>>;

/// What to fetch of each xorb.
type Runs = BTreeMap<HexMerkleHash, Vec<MergedRange>>;

/// The plans that were taken together so far.
#[derive(Drop)]
struct Taken {
    terms: Terms,
    runs: Runs,
}

impl Model for Taken {
    ghost use Rattle.std.specs.Prelude.{map};
    ghost use Rattle.xet_types.specs.RecordMaps.{listed};
    ghost use Rattle.xet_store.specs.Batches.{PlansModel};

    ghost Value = { PlansModel };

    ghost view = { λ t. record { files = map listed t.terms.entries; merged = map listed t.runs.entries } };
}

/// Puts what is to be fetched of a xorb behind what is there.
fn append(
    runs: &mut Runs,
    hash: HexMerkleHash,
    mut more: Vec<MergedRange>,
) -> Result<(), OutOfMemory>
    ensures { OnOk result (map listed runs.new.entries ≡ with_joined (map listed runs.old.entries) (hash.0, more.items)) }
{
    if let Some(before) = runs.get_mut(&hash) {
        before.append(&mut more)?;
        return Ok(());
    }
    runs.insert(hash, more)?;
    Ok(())
}

/// Puts what is to be fetched of each xorb behind what is there.
fn append_all(
    runs: &mut Runs,
    merged: Vec<(MerkleHash, Vec<MergedRange>)>,
) -> Result<(), OutOfMemory>
    ensures { OnOk result (map listed runs.new.entries ≡ with_all_joined (map listed runs.old.entries) (map ranges_shown merged.items)) }
{
    for (hash, more) in merged {
        append(runs, HexMerkleHash(hash), more)?;
    }
    Ok(())
}

/// Adds the plan of a file: its terms in place of those that are there, and what it fetches behind what is there.
fn add(terms: &mut Terms, runs: &mut Runs, file: &MerkleHash, plan: Plan) -> Result<(), OutOfMemory>
    ensures terms { OnOk result (map listed terms.new.entries ≡ put hash_cmp file.now plan.terms (map listed terms.old.entries)) }
    ensures runs { OnOk result (map listed runs.new.entries ≡ with_all_joined (map listed runs.old.entries) plan.merged) }
{
    terms.insert(HexMerkleHash(*file), plan.terms)?;
    append_all(runs, plan.merged)
}

/// The plans of whole files in the asked order.
fn take(store: &MemoryClient, alloc: Global, files: &[MerkleHash]) -> Result<Taken, ClientError>
    ensures answer { Answered result (PlansAll store.now files.now) ⊤ }
    ensures refusals { RefusedBy OfPlan result }
{
    let mut terms = BTreeMap::new(alloc);
    let mut runs = BTreeMap::new(alloc);
    for file in files {
        let Some(plan) = store.plan(alloc, file, None)? else {
            continue;
        };
        add(&mut terms, &mut runs, file, plan)?;
    }
    Ok(Taken { terms, runs })
}

/// Files with their terms, in order of hash.
fn terms_of_files(
    alloc: Global,
    terms: Terms,
) -> Result<Vec<(MerkleHash, Items<XorbReconstructionTerm>)>, OutOfMemory>
    ensures { IfOk result (λ files. files.items ≡ map listed terms.entries) }
{
    let mut files = Vec::with_capacity(alloc, terms.len())?;
    for (hash, of_file) in terms {
        files.push((hash.0, Items::from_vec(of_file)))?;
    }
    Ok(files)
}

/// Xorbs with what is to be fetched of them, in order of hash.
fn runs_of_xorbs(
    alloc: Global,
    runs: Runs,
) -> Result<Vec<(MerkleHash, Vec<MergedRange>)>, OutOfMemory>
    ensures { IfOk result (λ merged. map ranges_shown merged.items ≡ map listed runs.entries) }
{
    let mut merged = Vec::with_capacity(alloc, runs.len())?;
    for (hash, of_xorb) in runs {
        merged.push((hash.0, of_xorb))?;
    }
    Ok(merged)
}

/// The plan of a whole file alone, whose lists go on as they are.
fn plan_alone(
    store: &MemoryClient,
    alloc: Global,
    only: &MerkleHash,
) -> Result<FilePlans, ClientError>
    ensures answer { Answered result (PlansAll store.now (only.now ∷ [])) ⊤ }
    ensures refusals { RefusedBy OfPlan result }
{
    let Some(plan) = store.plan(alloc, only, None)? else {
        return Ok(FilePlans {
            files: Vec::new(alloc),
            merged: Vec::new(alloc),
        });
    };
    let mut files = Vec::with_capacity(alloc, 1)?;
    files.push((*only, Items::from_vec(plan.terms)))?;
    Ok(FilePlans {
        files,
        merged: plan.merged,
    })
}

/// The plans of whole files, taken together, without links.
pub fn plans_of_files(
    store: &MemoryClient,
    alloc: Global,
    files: &[MerkleHash],
) -> Result<FilePlans, ClientError>
    ensures answer { Answered result (PlansAll store.now files.now) ⊤ }
    ensures refusals { RefusedBy OfPlan result }
{
    if let [only] = files {
        return plan_alone(store, alloc, only);
    }
    let taken = take(store, alloc, files)?;
    let files = terms_of_files(alloc, taken.terms)?;
    let merged = runs_of_xorbs(alloc, taken.runs)?;
    Ok(FilePlans { files, merged })
}

/// The same with the texts of links of version 1, which have the moment in milliseconds.
pub fn batch(
    store: &MemoryClient,
    alloc: Global,
    files: &[MerkleHash],
    at: u64,
) -> Result<BatchQueryReconstructionResponse, ClientError>
    ensures answer { Answered result (RespondsToAll store.now files.now at) ⊤ }
    ensures refusals { RefusedBy OfPlan result }
{
    let taken = take(store, alloc, files)?;
    let merged = runs_of_xorbs(alloc, taken.runs)?;
    let fetch_info = links(alloc, &merged, at)?;
    Ok(BatchQueryReconstructionResponse {
        files: taken.terms,
        fetch_info,
    })
}
