//! The segments that a range meets, and the chunks that it meets, each by its own place.
ghost use Rattle.std.specs.Prelude.{◌≡◌, ◌+◌, ◌^◌, ◌<◌, length, filter, sum_by, IfOk, option_copied};
ghost use Rattle.xet_plan.specs.Places.{interval, met_segments as met_segments_lem, lengths_in};
ghost use Rattle.xet_plan.specs.MetChunks.{kept as kept_lem, lay, is_met, span};
ghost use Rattle.xet_plan.specs.Plain.{first_named, known_in};

use std::alloc::Global;
use std::marker::Model;
use xet_shard::Segment;
use xet_types::{MerkleHash, OutOfMemory};
use xet_xorb::XorbObject;

/// A segment, and how many bytes of the file stand before it.
#[derive(Debug, Drop)]
pub(super) struct PlacedSegment {
    /// Its place.
    pub at: u64,
    /// The segment.
    pub segment: Segment,
}

impl Model for PlacedSegment {
    ghost use Rattle.std.specs.Prelude.{◌+◌, ◌^◌, ◌≤◌};
    ghost use Rattle.xet_plan.specs.Places.{Placed};

    ghost Value = { Placed };

    ghost view = { λ p. record { at = p.at; segment = p.segment } };

    ghost invariant = { λ p. p.at + 2 ^ 32 ≤ 2 ^ 64 };
}

/// A chunk that a range meets.
#[derive(Clone, Copy, Debug)]
pub(super) struct MetChunk {
    /// Its xorb.
    pub hash: MerkleHash,
    /// Its number there.
    pub number: u32,
    /// Its place in the file.
    pub at: u64,
    /// Its length in bytes.
    pub unpacked_length: u32,
}

impl Model for MetChunk {
    ghost use Rattle.std.specs.Prelude.{◌+◌, ◌^◌, ◌<◌};
    ghost use Rattle.xet_plan.specs.MetChunks.{Chunk};

    ghost Value = { Chunk };

    ghost view = { λ c. record { hash = c.hash; number = c.number; at = c.at; length = c.unpacked_length } };

    ghost inverse = { λ c. record { hash = c.hash; number = c.number; at = c.at; unpacked_length = c.length } };

    ghost invariant = { λ c. c.number + 1 < 2 ^ 32 };
}

/// What stands beside the first of these hashes that is the asked one.
pub(super) fn find<'a, T>(xorbs: &'a [(MerkleHash, T)], hash: &MerkleHash) -> Option<&'a T>
    ensures { option_copied result ≡ first_named hash.now xorbs.now }
{
    for (name, xorb) in xorbs {
        if name == hash {
            return Some(xorb);
        }
    }
    None
}

/// The segments that a range meets, in file order.
pub(super) fn met_segments(
    alloc: Global,
    segments: &[Segment],
    start: u64,
    end: u64,
) -> Result<Vec<PlacedSegment>, OutOfMemory>
    requires { length segments.now < 2 ^ 32 }
    ensures { IfOk result (λ v. v.items ≡ met_segments_lem (interval start end) segments.now) }
{
    let mut met = Vec::new(alloc);
    let mut at: u64 = 0;
    for segment in segments {
        let place = at;
        at += u64::from(segment.unpacked_segment_bytes);
        if start.max(place) >= end.min(at) {
            continue;
        }
        met.push(PlacedSegment {
            at: place,
            segment: *segment,
        })?;
    }
    Ok(met)
}

/// The chunks of a segment of this xorb that a range meets: each chunk is laid behind the one before, and looked at.
fn kept_of(
    alloc: Global,
    object: &XorbObject,
    placed: &PlacedSegment,
    start: u64,
    end: u64,
) -> Result<Vec<MetChunk>, OutOfMemory>
    ensures value { IfOk result (λ v. v.items ≡ filter (is_met (interval start end)) (lay placed.now.segment.xorb_hash placed.now.segment.chunk_index_start placed.now.at (lengths_in placed.now.segment object.now))) }
    ensures short { IfOk result (λ v. sum_by (λ c. c.length) v.items < 2 ^ 32) }
    ensures last { IfOk result (λ v. (span v.items).end < 2 ^ 32) }
{
    let mut kept = Vec::new(alloc);
    let past = placed.segment.chunk_index_end.min(object.num_chunks());
    let mut at = placed.at;
    for number in placed.segment.chunk_index_start..past {
        let place = at;
        let unpacked_length = object.unpacked_before(number + 1) - object.unpacked_before(number);
        at += u64::from(unpacked_length);
        if start.max(place) >= end.min(at) {
            continue;
        }
        kept.push(MetChunk {
            hash: placed.segment.xorb_hash,
            number,
            at: place,
            unpacked_length,
        })?;
    }
    Ok(kept)
}

/// The chunks of a segment that a range meets; none where its xorb isn't among these.
pub(super) fn kept(
    alloc: Global,
    xorbs: &[(MerkleHash, XorbObject)],
    placed: &PlacedSegment,
    start: u64,
    end: u64,
) -> Result<Vec<MetChunk>, OutOfMemory>
    ensures value { IfOk result (λ v. v.items ≡ kept_lem (known_in xorbs.now) (interval start end) placed.now) }
    ensures short { IfOk result (λ v. sum_by (λ c. c.length) v.items < 2 ^ 32) }
    ensures last { IfOk result (λ v. (span v.items).end < 2 ^ 32) }
{
    match find(xorbs, &placed.segment.xorb_hash) {
        None => Ok(Vec::new(alloc)),
        Some(object) => kept_of(alloc, object, placed, start, end),
    }
}
