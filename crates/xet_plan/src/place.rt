//! Where the bytes of a range lie in the segments of a file, and which chunks of a segment hold them.
ghost use Rattle.std.specs.Prelude.{◌≡◌, ℕ, ◌+◌, ◌^◌, ◌<◌, ◌≤◌, min, max, List, true, filter, slice_range, slice_index, sum, length, Some, All, IfOk, IfErr, IfSome};
ghost use Rattle.xet_plan.specs.Places.{Interval, interval, place as placed_at, Known, agrees, lengths_in, reach};
ghost use Rattle.xet_plan.specs.MetChunks.{lay, is_met};
ghost use Rattle.xet_types.specs.declared.error.FormatFault.TheVariants.{Segment as AtSegment};
ghost use Rattle.xet_types.specs.declared.error.ClientError.TheVariants.{FormatError};
ghost use Rattle.xet_plan.specs.Cuts.{cut_from, CutAnswer, IsRecent};
ghost use Rattle.xet_plan.specs.Footers.{Gives, IsFooterRefusal, FailsOnlyByFault};

use crate::footers::Footers;
use std::alloc::Global;
use std::sync::Arc;
use xet_shard::Segment;
use xet_types::{ClientError, FileRange, FormatFault, MerkleHash};
use xet_xorb::XorbObject;

/// What a range reaches of a file.
#[derive(Clone, Copy, Debug, PartialEq, Eq)]
pub enum Reach {
    /// Nothing: it starts at or past the end of the file.
    Past,
    /// Nothing: its end isn't above its start.
    Reversed,
    /// The bytes from a start up to an end, none only of the empty file.
    Within(u64, u64),
}

/// What a range reaches of a file of this size; no range reaches the whole file.
pub fn reach_of(size: u64, bytes_range: Option<FileRange>) -> Reach
    ensures { result ≡ reach size bytes_range }
{
    let Some(range) = bytes_range else {
        return Reach::Within(0, size);
    };
    if size == 0 && range.start == 0 {
        Reach::Within(0, 0)
    } else if size <= range.start {
        Reach::Past
    } else if range.end <= range.start {
        Reach::Reversed
    } else {
        Reach::Within(range.start, range.end.min(size))
    }
}

/// Chunks of a xorb that lie one behind the other in a file, and where. Cuts are ordered by hash, then start.
#[derive(Clone, Copy, Debug, PartialEq, Eq, PartialOrd, Ord)]
pub struct Cut {
    /// The xorb.
    pub hash: MerkleHash,
    /// The number of the first chunk.
    pub start: u32,
    /// Past the number of the last chunk.
    pub end: u32,
    /// Where the first chunk begins in the file, in bytes.
    pub at: u64,
    /// The length of the chunks together, in bytes.
    pub length: u32,
    /// Where the first chunk begins in the xorb's bytes.
    pub byte_start: u32,
    /// Where the last chunk ends in the xorb's bytes.
    pub byte_end: u32,
}

/// Whether the segment's chunks are those of the xorb, and as long as it lists.
pub fn is_agreed(object: &XorbObject, segment: &Segment) -> bool
    ensures value { result ≡ agrees segment.now object.now }
    ensures nonempty { All (λ n. 0 < n) object.now.lengths }
{
    let count = object.num_chunks();
    if segment.chunk_index_start >= segment.chunk_index_end || segment.chunk_index_end > count {
        return false;
    }
    let end = object.unpacked_before(segment.chunk_index_end);
    let start = object.unpacked_before(segment.chunk_index_start);
    end - start == segment.unpacked_segment_bytes
}

/// The first of the chunks first..end that ends past a place, and where it begins: found by halving.
#[tactic(auto, using(crate::proofs::Lay::sum_range_first, crate::proofs::Lay::sum_range_last))]
fn skip(object: &XorbObject, first: u32, end: u32, place: u64, clip_start: u64) -> (u32, u64)
    requires order { first ≤ end }
    requires inside { end ≤ length object.now.lengths }
    requires nonempty { All (λ n. 0 < n) object.now.lengths }
    requires fits { place + sum (slice_range object.now.lengths first end) < 2 ^ 64 }
    ensures from { first ≤ result.0 }
    ensures to { result.0 ≤ end }
    ensures at { result.1 ≤ max place clip_start }
    ensures rest { result.1 + sum (slice_range object.now.lengths result.0 end) ≡ place + sum (slice_range object.now.lengths first end) }
    ensures past { result.0 < end → clip_start < result.1 + slice_index object.now.lengths result.0 }
    ensures chunks { (h : List ℕ) (clip : Interval) → clip.start ≡ clip_start → filter (is_met clip) (lay h result.0 result.1 (slice_range object.now.lengths result.0 end)) ≡ filter (is_met clip) (lay h first place (slice_range object.now.lengths first end)) }
{
    if clip_start <= place {
        return (first, place);
    }
    let mut start = first;
    let mut at = place;
    let mut past = end;
    while start < past {
        let middle = start + (past - start) / 2;
        let length = object.unpacked_before(middle + 1) - object.unpacked_before(start);
        let next = at + u64::from(length);
        if next > clip_start {
            past = middle;
        } else {
            at = next;
            start = middle + 1;
        }
    }
    (start, at)
}

/// Past the last of the chunks first..end that begins before a place.
#[tactic(auto, using(crate::proofs::Lay::sum_more, crate::proofs::Lay::sum_range_first, crate::proofs::Lay::sum_range_last))]
fn run(object: &XorbObject, first: u32, end: u32, at: u64, clip_end: u64) -> u32
    requires order { first ≤ end }
    requires inside { end ≤ length object.now.lengths }
    requires nonempty { All (λ n. 0 < n) object.now.lengths }
    requires fits { at + sum (slice_range object.now.lengths first end) < 2 ^ 64 }
    ensures from { first ≤ result }
    ensures to { result ≤ end }
    ensures some { first < end → at < clip_end → first < result }
    ensures chunks { (h : List ℕ) (clip : Interval) → clip.end ≡ clip_end → clip.start < clip.end → (first < end → clip.start < at + slice_index object.now.lengths first) → filter (is_met clip) (lay h first at (slice_range object.now.lengths first end)) ≡ lay h first at (slice_range object.now.lengths first result) }
{
    let length = object.unpacked_before(end) - object.unpacked_before(first);
    if at + u64::from(length) <= clip_end {
        return end;
    }
    let mut last = first;
    let mut to = at;
    while last < end && to < clip_end {
        to += u64::from(object.unpacked_before(last + 1) - object.unpacked_before(last));
        last += 1;
    }
    last
}

/// The chunks of an agreeing segment that lie in the interval.
fn narrow(object: &XorbObject, segment: &Segment, place: u64, clip_start: u64, clip_end: u64) -> Cut
    requires agrees { agrees segment.now object.now ≡ true }
    requires nonempty { All (λ n. 0 < n) object.now.lengths }
    requires fits { place + segment.now.unpacked_segment_bytes < 2 ^ 64 }
    requires meets { max clip_start place < min clip_end (place + segment.now.unpacked_segment_bytes) }
    ensures nonempty { result.start < result.end }
    ensures value { result ≡ cut_from segment.now.xorb_hash object.now.lengths (filter (is_met (interval clip_start clip_end)) (lay segment.now.xorb_hash segment.now.chunk_index_start place (lengths_in segment.now object.now))) }
{
    let (start, at) = skip(
        object,
        segment.chunk_index_start,
        segment.chunk_index_end,
        place,
        clip_start,
    );
    let end = run(object, start, segment.chunk_index_end, at, clip_end);
    Cut {
        hash: segment.xorb_hash,
        start,
        end,
        at,
        length: object.unpacked_before(end) - object.unpacked_before(start),
        byte_start: object.packed_before(start),
        byte_end: object.packed_before(end),
    }
}

/// The chunks of a segment at a place that lie in the interval. `FormatError(Segment)` exactly where the segment disagrees with
/// its xorb, of which this is the object.
pub fn cut_of(
    object: &XorbObject,
    segment: &Segment,
    place: u64,
    clip_start: u64,
    clip_end: u64,
) -> Result<Cut, ClientError>
    requires fits { place + segment.now.unpacked_segment_bytes < 2 ^ 64 }
    requires meets { max clip_start place < min clip_end (place + segment.now.unpacked_segment_bytes) }
    ensures answer { (known : Known) → known segment.now.xorb_hash ≡ Some object.now → CutAnswer known (interval clip_start clip_end) (placed_at place segment.now) result }
    ensures nonempty { IfOk result (λ cut. cut.start < cut.end) }
    ensures refusals { IfErr result (λ e. e ≡ FormatError AtSegment) }
{
    if !is_agreed(object, segment) {
        return Err(ClientError::FormatError(FormatFault::Segment));
    }
    Ok(narrow(object, segment, place, clip_start, clip_end))
}

/// The object of a xorb, with its hash.
#[derive(Debug, Drop)]
pub struct Recent {
    /// The xorb.
    pub hash: MerkleHash,
    /// What is known of it.
    pub object: Arc<XorbObject>,
}

/// The object of the xorb of this hash: the recent one where it is that, else what the footers answer, which are asked once.
pub fn object_of<F: Footers>(
    alloc: Global,
    hash: &MerkleHash,
    recent: Option<Recent>,
    footers: &mut F,
) -> Result<Arc<XorbObject>, ClientError>
    ensures answer { (known : Known) → F.told footers.old ≡ Some known → IsRecent known recent → Gives known hash.now result }
    ensures refusals { IfErr result (IsFooterRefusal hash.now) }
    ensures unasked { IfSome recent (λ last. last.hash ≡ hash.now → footers.new ≡ footers.old) }
    ensures stays { F.told footers.new ≡ F.told footers.old }
    ensures cause { FailsOnlyByFault (F.faults footers.old) (F.faults footers.new) result }
{
    if let Some(last) = recent {
        if last.hash == *hash {
            return Ok(last.object);
        }
    }
    footers.footer(alloc, hash)
}
