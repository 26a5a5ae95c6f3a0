//! Plain, slow programs that say what a file's bytes and a plan are: for small inputs.
//!
//! Each walks all segments, lays down all chunks and looks at each by itself, and calls itself for the rest of a list. Their
//! contracts are the definitions that [`compute_reconstruction_ranges`](crate::compute_reconstruction_ranges) meets, so tests run
//! both on the same inputs.
ghost use Rattle.std.specs.Prelude.{◌≡◌, ◌++◌, Err, IfOk, OnOk, slice_range};
ghost use Rattle.std.specs.List.{concat};
ghost use Rattle.xet_plan.specs.FileBytes.{chunks_between, laid as laid_lem, file_bytes as file_bytes_lem, first_place as first_place_lem, segments_of};
ghost use Rattle.xet_plan.specs.Places.{interval};
ghost use Rattle.xet_plan.specs.Plain.{content_in, known_in};
ghost use Rattle.xet_plan.specs.Answers.{Answers};

mod layout;
mod met;
mod ranges;

use crate::place::{Reach, reach_of};
use crate::planner::Plan;
use layout::plan_within;
use met::{PlacedSegment, find, met_segments};
use std::alloc::Global;
use xet_shard::{FileListing, Segment};
use xet_types::{ClientError, FileRange, MerkleHash, Octets, OutOfMemory};
use xet_xorb::XorbObject;

/// The items from a number up to another, as far as they go.
fn part<T>(items: &[T], start: u64, end: u64) -> &[T]
    ensures { result.now ≡ slice_range items.now start end }
{
    let end = end.min(items.len() as u64);
    let start = start.min(end);
    &items[start as usize..end as usize]
}

/// A segment's chunks; none where its xorb isn't among these.
fn segment_chunks<'a>(xorbs: &'a [(MerkleHash, Vec<Octets>)], segment: &Segment) -> &'a [Octets]
    ensures { result.now ≡ chunks_between (content_in xorbs.now segment.now.xorb_hash) segment.now.chunk_index_start segment.now.chunk_index_end }
{
    match find(xorbs, &segment.xorb_hash) {
        None => &[],
        Some(chunks) => part(
            chunks,
            u64::from(segment.chunk_index_start),
            u64::from(segment.chunk_index_end),
        ),
    }
}

fn push_chunks(out: &mut Vec<u8>, chunks: &[Octets]) -> Result<(), OutOfMemory>
    ensures { OnOk result (out.new.items ≡ out.old.items ++ concat chunks.now) }
{
    for chunk in chunks {
        out.extend_from_slice(chunk.as_slice())?;
    }
    Ok(())
}

/// The chunks of the segments, one behind the other.
fn laid(
    alloc: Global,
    xorbs: &[(MerkleHash, Vec<Octets>)],
    met: &[PlacedSegment],
) -> Result<Vec<u8>, OutOfMemory>
    ensures { IfOk result (λ v. v.items ≡ laid_lem (content_in xorbs.now) (segments_of met.now)) }
{
    let mut out = Vec::new(alloc);
    for placed in met {
        push_chunks(&mut out, segment_chunks(xorbs, &placed.segment))?;
    }
    Ok(out)
}

fn first_place(met: &[PlacedSegment]) -> u64
    ensures { result ≡ first_place_lem met.now }
{
    match met {
        [] => 0,
        [first, ..] => first.at,
    }
}

/// The bytes of a file from a start up to an end, out of xorbs that are given as their chunks: the chunks of the segments
/// that the range meets, joined, and the range cut out.
pub fn file_bytes(
    alloc: Global,
    xorbs: &[(MerkleHash, Vec<Octets>)],
    listing: &FileListing,
    start: u64,
    end: u64,
) -> Result<Vec<u8>, OutOfMemory>
    ensures { IfOk result (λ v. v.items ≡ file_bytes_lem (content_in xorbs.now) (interval start end) listing.now.segments) }
{
    let met = met_segments(alloc, listing.segments(), start, end)?;
    let first = first_place(&met);
    let text = laid(alloc, xorbs, &met)?;
    let cut = part(
        &text,
        start.saturating_sub(first),
        end.saturating_sub(first),
    );
    Ok(Vec::from_slice(alloc, cut)?)
}

/// The plan of a range of a file, or why there is none, over xorbs that are given with what is known of each: as
/// [`compute_reconstruction_ranges`](crate::compute_reconstruction_ranges) answers over footers of these.
pub fn plan(
    alloc: Global,
    xorbs: &[(MerkleHash, XorbObject)],
    listing: &FileListing,
    bytes_range: Option<FileRange>,
) -> Result<Option<Plan>, ClientError>
    ensures answer { Answers (known_in xorbs.now) listing.now.segments bytes_range result }
    ensures inside { result ≡ Err ClientError.IOError → ⊥ }
{
    match reach_of(listing.file_size(), bytes_range) {
        Reach::Past => Ok(None),
        Reach::Reversed => Err(ClientError::InvalidRange),
        Reach::Within(start, end) => {
            let plan = plan_within(alloc, xorbs, listing.segments(), start, end)?;
            Ok(Some(plan))
        }
    }
}

#[cfg(test)]
mod tests;
