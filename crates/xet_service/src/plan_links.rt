//! The links of a plan, as its reply keeps them.
ghost use Rattle.std.specs.Prelude.{◌≡◌, ◌<◌, ◌≤◌, ◌-◌, ◌^◌, ◌∷◌, ◌==◌, [], map, min, length, IfOk, MatchOption, MatchResult};
ghost use Rattle.xet_plan.specs.Merging.{ranges_shown};
ghost use Rattle.xet_service.specs.LinkForms.{links_of_runs, first_links, count_runs, version_link, links_left, with_runs};

use crate::links::most_runs;
use crate::step::PlanVersion;
use std::marker::Model;
use xet_plan::MergedRange;
use xet_types::{MerkleHash, OutOfMemory};

/// A link of a plan: what one fetch brings.
#[derive(Clone, Copy, Debug)]
pub struct PlannedLink<'a> {
    /// The version of its text.
    pub version: PlanVersion,
    /// The xorb.
    pub hash: MerkleHash,
    /// The runs of chunks that it brings: one in version 1.
    pub runs: &'a [MergedRange],
    /// The moment of the plan in milliseconds.
    pub at: u64,
}

/// The links of a plan, which contracts see as their list. They are kept as the planner's runs.
#[derive(Debug, Drop)]
pub struct PlanLinks {
    version: PlanVersion,
    /// How many runs of a xorb a link of version 2 brings at most.
    max: usize,
    /// The moment of the plan in milliseconds.
    at: u64,
    /// The xorbs with their runs, in the plan's order.
    xorbs: Vec<(MerkleHash, Vec<MergedRange>)>,
}

impl Model for PlanLinks {
    ghost use Rattle.std.specs.Prelude.{◌<◌, ◌-◌, ◌^◌, List, length};
    ghost use Rattle.xet_service.specs.Links.{LinkModel};
    ghost use Rattle.xet_service.specs.LinkForms.{links_of_runs};

    ghost Value = { List LinkModel };

    ghost view = { λ l. links_of_runs l.version l.max l.at l.xorbs.items };

    ghost invariant = { λ l. (0 < l.max) × (length (links_of_runs l.version l.max l.at l.xorbs.items) < 2 ^ 64 - 1) };
}

/// A walk through the links of a plan. Contracts see those that are left.
#[derive(Drop)]
pub struct LinkWalk<'a> {
    version: PlanVersion,
    /// How many runs a link brings at most.
    most: usize,
    at: u64,
    /// A xorb.
    hash: MerkleHash,
    /// Its runs that are left.
    runs: &'a [MergedRange],
    /// The xorbs behind it.
    xorbs: &'a [(MerkleHash, Vec<MergedRange>)],
}

impl<'a> Model for LinkWalk<'a> {
    ghost use Rattle.std.specs.Prelude.{◌<◌, List};
    ghost use Rattle.xet_service.specs.Links.{LinkModel};
    ghost use Rattle.xet_service.specs.LinkForms.{links_left};

    ghost Value = { List LinkModel };

    ghost view = { λ w. links_left w.version w.most w.at w.hash w.runs.now w.xorbs.now };

    ghost invariant = { λ w. 0 < w.most };
}

/// Some runs of a xorb's chunks, and the xorbs behind it.
#[derive(Clone, Copy)]
struct Ahead<'a> {
    hash: MerkleHash,
    runs: &'a [MergedRange],
    xorbs: &'a [(MerkleHash, Vec<MergedRange>)],
}

/// The runs of the first of these xorbs that has any, and the xorbs behind it; none where none has any.
fn first_runs<'a>(
    mut hash: MerkleHash,
    mut runs: &'a [MergedRange],
    mut xorbs: &'a [(MerkleHash, Vec<MergedRange>)],
) -> Option<Ahead<'a>>
    ensures { MatchOption result (with_runs ((hash, runs.now) ∷ map ranges_shown xorbs.now) ≡ []) (λ ahead. (0 < length ahead.runs.now) × (with_runs ((hash, runs.now) ∷ map ranges_shown xorbs.now) ≡ (ahead.hash, ahead.runs.now) ∷ map ranges_shown ahead.xorbs.now)) }
{
    while runs.is_empty() {
        let Some((next, others)) = xorbs.split_first() else {
            return None;
        };
        hash = next.0;
        runs = next.1.as_slice();
        xorbs = others;
    }
    Some(Ahead { hash, runs, xorbs })
}

impl<'a> LinkWalk<'a> {
    /// A walk through the links of runs, from the first one.
    fn new(
        version: PlanVersion,
        max: usize,
        at: u64,
        xorbs: &'a [(MerkleHash, Vec<MergedRange>)],
    ) -> LinkWalk<'a>
        requires { 0 < max }
        ensures { result ≡ links_of_runs version max at xorbs.now }
    {
        LinkWalk {
            version,
            most: most_runs(version, max),
            at,
            hash: MerkleHash::default(),
            runs: &[],
            xorbs,
        }
    }

    /// The next link; none at the end.
    pub fn next(&mut self) -> Option<PlannedLink<'a>>
        ensures { MatchOption result (self.old ≡ []) (λ link. self.old ≡ version_link link.version link.at link.hash link.runs.now ∷ self.new) }
    {
        let Some(ahead) = first_runs(self.hash, self.runs, self.xorbs) else {
            return None;
        };
        let (runs, others) = ahead.runs.split_at(self.most.min(ahead.runs.len()));
        self.hash = ahead.hash;
        self.runs = others;
        self.xorbs = ahead.xorbs;
        Some(PlannedLink {
            version: self.version,
            hash: ahead.hash,
            runs,
            at: self.at,
        })
    }
}

/// How many links are left, up to the type's end.
fn count(mut walk: LinkWalk<'_>) -> usize
    ensures { result ≡ min (length walk.entry) (2 ^ 64 - 1) }
{
    let mut count = 0usize;
    while let Some(_) = walk.next() {
        count = count.saturating_add(1);
    }
    count
}

impl PlanLinks {
    /// The links of version 1 of the runs of xorbs, with the moment of the plan in milliseconds. Takes no memory; `OutOfMemory` exactly
    /// where there are 2^64 - 1 runs or more.
    pub fn from_runs(
        xorbs: Vec<(MerkleHash, Vec<MergedRange>)>,
        at: u64,
    ) -> Result<PlanLinks, OutOfMemory>
        ensures links { IfOk result (λ links. links ≡ first_links at xorbs.items) }
        ensures counted { MatchResult result (λ links. count_runs xorbs.items < 2 ^ 64 - 1) (λ error. 2 ^ 64 - 1 ≤ count_runs xorbs.items) }
    {
        PlanLinks::of_plan(PlanVersion::V1, xorbs, 1, at)
    }

    /// The links of the runs of a plan's xorbs, in its order, with the moment of the plan in milliseconds: one for each run in version 1,
    /// one for each group of at most `max` runs of a xorb in version 2. Takes no memory; `OutOfMemory` exactly where there are 2^64 - 1
    /// links or more.
    pub fn of_plan(
        version: PlanVersion,
        xorbs: Vec<(MerkleHash, Vec<MergedRange>)>,
        max: usize,
        at: u64,
    ) -> Result<PlanLinks, OutOfMemory>
        requires { 0 < max }
        ensures links { IfOk result (λ links. links ≡ links_of_runs version max at xorbs.items) }
        ensures counted { MatchResult result (λ links. length (links_of_runs version max at xorbs.items) < 2 ^ 64 - 1) (λ error. 2 ^ 64 - 1 ≤ length (links_of_runs version max at xorbs.items)) }
    {
        if count(LinkWalk::new(version, max, at, &xorbs)) == usize::MAX {
            return Err(OutOfMemory);
        }
        Ok(PlanLinks {
            version,
            max,
            at,
            xorbs,
        })
    }

    /// A walk through them, from the first one.
    pub fn walk(&self) -> LinkWalk<'_>
        ensures links { result ≡ self.now }
        ensures counted { length self.now < 2 ^ 64 - 1 }
    {
        LinkWalk::new(self.version, self.max, self.at, &self.xorbs)
    }

    /// How many there are.
    pub fn len(&self) -> usize
        ensures { result ≡ length self.now }
    {
        count(self.walk())
    }

    /// Whether there are none.
    pub fn is_empty(&self) -> bool
        ensures { result ≡ (length self.now == 0) }
    {
        let mut walk = self.walk();
        walk.next().is_none()
    }
}
