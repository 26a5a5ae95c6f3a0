//! Plans without links.
use std::marker::Model;
use xet_plan::MergedRange;
use xet_types::{Items, MerkleHash, XorbReconstructionTerm};

/// The plans of whole files, taken together, without links. Contracts compare them by their contents.
#[derive(Drop)]
pub struct FilePlans {
    /// The parts of each file, in order of its hash.
    pub files: Vec<(MerkleHash, Items<XorbReconstructionTerm>)>,
    /// What to fetch of each xorb, in order of hash; the ranges of a xorb as the asked files have them.
    pub merged: Vec<(MerkleHash, Vec<MergedRange>)>,
}

impl Model for FilePlans {
    ghost use Rattle.std.specs.Prelude.{map};
    ghost use Rattle.xet_plan.specs.Merging.{ranges_shown};
    ghost use Rattle.xet_store.specs.Batches.{PlansModel};

    ghost Value = { PlansModel };

    ghost view = { λ p. record { files = p.files.items; merged = map ranges_shown p.merged.items } };
}
