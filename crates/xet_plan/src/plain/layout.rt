//! A plan's parts, each by its definition.
ghost use Rattle.std.specs.Prelude.{◌≡◌, ◌+◌, ◌^◌, ◌<◌, length, map, sum_by, Err, IfOk};
ghost use Rattle.std.specs.List.{flat_map};
ghost use Rattle.xet_shard.specs.declared.listing.Segment.{Segment};
ghost use Rattle.xet_plan.specs.Places.{interval, Placed, place as placed_at};
ghost use Rattle.xet_plan.specs.MetChunks.{kept as kept_lem, term, offset_in, span};
ghost use Rattle.xet_plan.specs.Answers.{PlanAnswer};
ghost use Rattle.xet_plan.specs.Plain.{known_in, ReadsAll, ReadsSegment};

use crate::place::is_agreed;
use crate::plain::met::{MetChunk, PlacedSegment, find, kept, met_segments};
use crate::plain::ranges::merged;
use crate::planner::Plan;
use std::alloc::Global;
use xet_shard::Segment;
use xet_types::{
    ChunkRange, ClientError, FormatFault, MerkleHash, OutOfMemory, XorbReconstructionTerm,
};
use xet_xorb::XorbObject;

/// `XORBNotFound` where the segment's xorb isn't among these, `FormatError(Segment)` where the segment disagrees with it.
fn read_segment(xorbs: &[(MerkleHash, XorbObject)], segment: &Segment) -> Result<(), ClientError>
    ensures { ReadsSegment (known_in xorbs.now) segment.now result }
{
    match find(xorbs, &segment.xorb_hash) {
        None => Err(ClientError::XORBNotFound(segment.xorb_hash)),
        Some(object) => {
            if is_agreed(object, segment) {
                Ok(())
            } else {
                Err(ClientError::FormatError(FormatFault::Segment))
            }
        }
    }
}

/// The first refusal of a segment, in file order.
fn read_all(xorbs: &[(MerkleHash, XorbObject)], met: &[PlacedSegment]) -> Result<(), ClientError>
    ensures { ReadsAll (known_in xorbs.now) met.now result }
{
    match met {
        [] => Ok(()),
        [first, rest @ ..] => match read_segment(xorbs, &first.segment) {
            Err(refusal) => Err(refusal),
            Ok(()) => read_all(xorbs, rest),
        },
    }
}

#[tactic(auto, using(crate::proofs::Plainly::sum_first))]
fn summed_length(chunks: &[MetChunk]) -> u32
    requires { sum_by (λ c. c.length) chunks.now < 2 ^ 32 }
    ensures { result ≡ sum_by (λ c. c.length) chunks.now }
{
    match chunks {
        [] => 0,
        [first, rest @ ..] => first.unpacked_length + summed_length(rest),
    }
}

fn range_of(chunks: &[MetChunk]) -> ChunkRange
    requires { (span chunks.now).end < 2 ^ 32 }
    ensures start { result.start ≡ (span chunks.now).start }
    ensures end { result.end ≡ (span chunks.now).end }
{
    match chunks {
        [] => ChunkRange::new(0, 0),
        [first, ..] => ChunkRange::new(first.number, first.number + chunks.len() as u32),
    }
}

fn terms(
    alloc: Global,
    xorbs: &[(MerkleHash, XorbObject)],
    met: &[PlacedSegment],
    start: u64,
    end: u64,
) -> Result<Vec<XorbReconstructionTerm>, OutOfMemory>
    ensures { IfOk result (λ v. v.items ≡ map (λ p. term p.segment.xorb_hash (kept_lem (known_in xorbs.now) (interval start end) p)) met.now) }
{
    let mut terms = Vec::new(alloc);
    for placed in met {
        let chunks = kept(alloc, xorbs, placed, start, end)?;
        terms.push(XorbReconstructionTerm {
            hash: placed.segment.xorb_hash,
            unpacked_length: summed_length(&chunks),
            range: range_of(&chunks),
        })?;
    }
    Ok(terms)
}

fn all_kept(
    alloc: Global,
    xorbs: &[(MerkleHash, XorbObject)],
    met: &[PlacedSegment],
    start: u64,
    end: u64,
) -> Result<Vec<MetChunk>, OutOfMemory>
    ensures { IfOk result (λ v. v.items ≡ flat_map (kept_lem (known_in xorbs.now) (interval start end)) met.now) }
{
    let mut all = Vec::new(alloc);
    for placed in met {
        let chunks = kept(alloc, xorbs, placed, start, end)?;
        all.extend_from_slice(&chunks)?;
    }
    Ok(all)
}

fn offset(start: u64, chunks: &[MetChunk]) -> u64
    ensures { result ≡ offset_in start chunks.now }
{
    match chunks {
        [] => 0,
        [first, ..] => start.saturating_sub(first.at),
    }
}

/// The plan of the bytes from a start up to an end, or the first refusal of a met segment.
pub(super) fn plan_within(
    alloc: Global,
    xorbs: &[(MerkleHash, XorbObject)],
    segments: &[Segment],
    start: u64,
    end: u64,
) -> Result<Plan, ClientError>
    requires { length segments.now < 2 ^ 32 }
    ensures answer { PlanAnswer (known_in xorbs.now) (interval start end) segments.now result }
    ensures inside { result ≡ Err ClientError.IOError → ⊥ }
{
    let met = met_segments(alloc, segments, start, end)?;
    read_all(xorbs, &met)?;
    let chunks = all_kept(alloc, xorbs, &met, start, end)?;
    let terms = terms(alloc, xorbs, &met, start, end)?;
    let merged = merged(alloc, xorbs, &chunks)?;
    Ok(Plan {
        offset_into_first_range: offset(start, &chunks),
        terms,
        merged,
    })
}
