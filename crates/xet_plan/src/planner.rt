//! Plans of ranges of files.
ghost use Rattle.std.specs.Prelude.{◌≡◌, ℕ, ◌^◌, ◌<◌, length, Some, map, IfOk, IfErr, IfNone, Err};
ghost use Rattle.xet_shard.specs.Values.{size_of};
ghost use Rattle.xet_plan.specs.Places.{Known, interval, reach};
ghost use Rattle.xet_plan.specs.Footers.{FailsOnlyByFault};
ghost use Rattle.xet_plan.specs.Cuts.{CutsAnswer, IsPlanRefusal};
ghost use Rattle.xet_plan.specs.Merging.{NoneEmpty, ranges_shown};
ghost use Rattle.xet_plan.specs.Answers.{Answers, TermsAnswers, Places, PlanAnswer, TermsAnswer, PlansLeast, PlansBytes, TermsBytes, IsPlanOf, cut_offset, cut_term};

use crate::footers::Footers;
use crate::place::{Cut, Reach, Recent, cut_of, object_of, reach_of};
use crate::runs::{MergedRange, runs_of};
use std::alloc::Global;
use std::marker::Model;
use xet_shard::{FileListing, Segment};
use xet_types::{
    ChunkRange, ClientError, FileRange, MerkleHash, OutOfMemory, XorbReconstructionTerm,
};
use xet_xorb::XorbObject;

/// What to fetch for a range of a file, and how to put it together. Contracts compare plans by their contents.
#[derive(Debug, Drop)]
pub struct Plan {
    /// How many bytes of the joined terms stand before the range.
    pub offset_into_first_range: u64,
    /// The parts of the file, in file order.
    pub terms: Vec<XorbReconstructionTerm>,
    /// What to fetch of each xorb, in order of hash, then chunk number.
    pub merged: Vec<(MerkleHash, Vec<MergedRange>)>,
}

impl Model for Plan {
    ghost use Rattle.std.specs.Prelude.{map};
    ghost use Rattle.xet_plan.specs.Plans.{PlanModel};
    ghost use Rattle.xet_plan.specs.Merging.{ranges_shown};

    ghost Value = { PlanModel };

    ghost view = { λ p. record { offset_into_first_range = p.offset_into_first_range; terms = p.terms.items; merged = map ranges_shown p.merged.items } };
}

/// How to put a range of a file together. Contracts compare terms by their contents.
#[derive(Debug, Drop)]
pub struct PlanTerms {
    /// How many bytes of the joined terms stand before the range.
    pub offset_into_first_range: u64,
    /// The parts of the file, in file order.
    pub terms: Vec<XorbReconstructionTerm>,
}

impl Model for PlanTerms {
    ghost use Rattle.xet_plan.specs.Plans.{TermsModel};

    ghost Value = { TermsModel };

    ghost view = { λ p. record { offset_into_first_range = p.offset_into_first_range; terms = p.terms.items } };
}

impl Plan {
    /// A copy.
    pub fn clone(&self, alloc: Global) -> Result<Plan, OutOfMemory>
        ensures { IfOk result (λ plan. plan ≡ self.now) }
    {
        let terms = Vec::from_slice(alloc, &self.terms)?;
        let merged = copy_of(alloc, &self.merged)?;
        Ok(Plan {
            offset_into_first_range: self.offset_into_first_range,
            terms,
            merged,
        })
    }
}

fn copy_of(
    alloc: Global,
    merged: &[(MerkleHash, Vec<MergedRange>)],
) -> Result<Vec<(MerkleHash, Vec<MergedRange>)>, OutOfMemory>
    ensures { IfOk result (λ v. map ranges_shown v.items ≡ map ranges_shown merged.now) }
{
    let mut copy = Vec::with_capacity(alloc, merged.len())?;
    for (hash, ranges) in merged {
        copy.push((*hash, Vec::from_slice(alloc, ranges)?))?;
    }
    Ok(copy)
}

/// For how many cuts at most room is made ahead.
const ROOM: usize = 4;

/// What the bytes from a start up to an end take of each segment that they meet, in file order. The footers are asked once for
/// neighbouring segments of one xorb.
fn cuts_of<F: Footers>(
    alloc: Global,
    segments: &[Segment],
    start: u64,
    end: u64,
    footers: &mut F,
) -> Result<Vec<Cut>, ClientError>
    requires few { length segments.now < 2 ^ 32 }
    ensures answer { (known : Known) → F.told footers.old ≡ Some known → CutsAnswer known (interval start end) segments.now result }
    ensures nonempty { IfOk result (λ cuts. NoneEmpty cuts.items) }
    ensures refusals { IfErr result (IsPlanRefusal (interval start end) segments.now) }
    ensures stays { F.told footers.new ≡ F.told footers.old }
    ensures cause { FailsOnlyByFault (F.faults footers.old) (F.faults footers.new) result }
{
    let mut cuts = Vec::with_capacity(alloc, segments.len().min(ROOM))?;
    let mut recent: Option<Recent> = None;
    let mut at: u64 = 0;
    for segment in segments {
        let place = at;
        if place >= end {
            return Ok(cuts);
        }
        at += u64::from(segment.unpacked_segment_bytes);
        if start.max(place) >= end.min(at) {
            continue;
        }
        let object = object_of(alloc, &segment.xorb_hash, recent, footers)?;
        let shared: &XorbObject = &object;
        let cut = cut_of(shared, segment, place, start, end)?;
        cuts.push(cut)?;
        recent = Some(Recent {
            hash: segment.xorb_hash,
            object,
        });
    }
    Ok(cuts)
}

fn terms_of(alloc: Global, cuts: &[Cut]) -> Result<Vec<XorbReconstructionTerm>, OutOfMemory>
    ensures { IfOk result (λ v. v.items ≡ map cut_term cuts.now) }
{
    let mut terms = Vec::with_capacity(alloc, cuts.len())?;
    for cut in cuts {
        terms.push(XorbReconstructionTerm {
            hash: cut.hash,
            unpacked_length: cut.length,
            range: ChunkRange::new(cut.start, cut.end),
        })?;
    }
    Ok(terms)
}

fn offset_of(start: u64, cuts: &[Cut]) -> u64
    ensures { result ≡ cut_offset start cuts.now }
{
    match cuts {
        [] => 0,
        [first, ..] => start.saturating_sub(first.at),
    }
}

fn plan_of(alloc: Global, start: u64, cuts: Vec<Cut>) -> Result<Plan, OutOfMemory>
    requires { NoneEmpty cuts.items }
    ensures { IfOk result (IsPlanOf start cuts.items) }
{
    let offset_into_first_range = offset_of(start, &cuts);
    let terms = terms_of(alloc, &cuts)?;
    let merged = runs_of(alloc, cuts)?;
    Ok(Plan {
        offset_into_first_range,
        terms,
        merged,
    })
}

/// The plan of the bytes from a start up to an end. The first refusal of a met segment, in file order, is the answer: its
/// footer's, or `FormatError(Segment)` where it disagrees with its xorb.
fn plan_within<F: Footers>(
    alloc: Global,
    segments: &[Segment],
    start: u64,
    end: u64,
    footers: &mut F,
) -> Result<Plan, ClientError>
    requires few { length segments.now < 2 ^ 32 }
    ensures answer { (known : Known) → F.told footers.old ≡ Some known → PlanAnswer known (interval start end) segments.now result }
    ensures refusals { IfErr result (IsPlanRefusal (interval start end) segments.now) }
    ensures stays { F.told footers.new ≡ F.told footers.old }
    ensures cause { FailsOnlyByFault (F.faults footers.old) (F.faults footers.new) result }
{
    let cuts = cuts_of(alloc, segments, start, end, footers)?;
    let plan = plan_of(alloc, start, cuts)?;
    Ok(plan)
}

/// The terms and the offset of the plan of the bytes from a start up to an end, with the refusals of that plan.
fn terms_within<F: Footers>(
    alloc: Global,
    segments: &[Segment],
    start: u64,
    end: u64,
    footers: &mut F,
) -> Result<PlanTerms, ClientError>
    requires few { length segments.now < 2 ^ 32 }
    ensures answer { (known : Known) → F.told footers.old ≡ Some known → TermsAnswer known (interval start end) segments.now result }
    ensures refusals { IfErr result (IsPlanRefusal (interval start end) segments.now) }
    ensures stays { F.told footers.new ≡ F.told footers.old }
    ensures cause { FailsOnlyByFault (F.faults footers.old) (F.faults footers.new) result }
{
    let cuts = cuts_of(alloc, segments, start, end, footers)?;
    let offset_into_first_range = offset_of(start, &cuts);
    let terms = terms_of(alloc, &cuts)?;
    Ok(PlanTerms {
        offset_into_first_range,
        terms,
    })
}

/// The least set of chunk ranges that hold the asked bytes of a file, and how to put the bytes together.
///
/// No range asks for the whole file; an end past the size is clipped. The empty file has a plan without terms where there is no
/// range or it starts at 0. No plan where the range starts at or past the size, then `InvalidRange` where its end isn't above its
/// start: footers aren't asked then. The footers of the segments that hold an asked byte are asked in file order, once for
/// neighbours of one xorb, and the first refusal is the answer; `FormatError(Segment)` where a segment disagrees with its xorb. A
/// segment of length 0 holds no byte.
pub fn compute_reconstruction_ranges<F: Footers>(
    alloc: Global,
    listing: &FileListing,
    bytes_range: Option<FileRange>,
    footers: &mut F,
) -> Result<Option<Plan>, ClientError>
    ensures place { Places listing.now.segments bytes_range result }
    ensures answer { (known : Known) → F.told footers.old ≡ Some known → Answers known listing.now.segments bytes_range result }
    ensures least { (known : Known) → F.told footers.old ≡ Some known → PlansLeast known listing.now.segments bytes_range result }
    ensures bytes { (known : Known) → F.told footers.old ≡ Some known → PlansBytes known listing.now.segments bytes_range result }
    ensures stays { F.told footers.new ≡ F.told footers.old }
    ensures unasked { IfOk result (λ answer. IfNone answer (footers.new ≡ footers.old)) }
    ensures unasked_at_range { result ≡ Err ClientError.InvalidRange → footers.new ≡ footers.old }
    ensures cause { FailsOnlyByFault (F.faults footers.old) (F.faults footers.new) result }
{
    match reach_of(listing.file_size(), bytes_range) {
        Reach::Past => Ok(None),
        Reach::Reversed => Err(ClientError::InvalidRange),
        Reach::Within(start, end) => {
            let plan = plan_within(alloc, listing.segments(), start, end, footers)?;
            Ok(Some(plan))
        }
    }
}

/// How to put the asked bytes of a file together: the terms and the offset of the plan that [`compute_reconstruction_ranges`] answers,
/// without what it fetches. There is no answer where it has none, and each refusal comes where it comes there.
pub fn compute_reconstruction_terms<F: Footers>(
    alloc: Global,
    listing: &FileListing,
    bytes_range: Option<FileRange>,
    footers: &mut F,
) -> Result<Option<PlanTerms>, ClientError>
    ensures place { Places listing.now.segments bytes_range result }
    ensures answer { (known : Known) → F.told footers.old ≡ Some known → TermsAnswers known listing.now.segments bytes_range result }
    ensures bytes { (known : Known) → F.told footers.old ≡ Some known → TermsBytes known listing.now.segments bytes_range result }
    ensures stays { F.told footers.new ≡ F.told footers.old }
    ensures unasked { IfOk result (λ answer. IfNone answer (footers.new ≡ footers.old)) }
    ensures unasked_at_range { result ≡ Err ClientError.InvalidRange → footers.new ≡ footers.old }
    ensures cause { FailsOnlyByFault (F.faults footers.old) (F.faults footers.new) result }
{
    match reach_of(listing.file_size(), bytes_range) {
        Reach::Past => Ok(None),
        Reach::Reversed => Err(ClientError::InvalidRange),
        Reach::Within(start, end) => {
            let terms = terms_within(alloc, listing.segments(), start, end, footers)?;
            Ok(Some(terms))
        }
    }
}

#[cfg(test)]
mod tests;
