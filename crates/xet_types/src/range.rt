//! Ranges of chunks, of a file's bytes, and of bytes in a request.
ghost use Rattle.std.specs.Prelude.{◌≡◌, ◌↔◌, ◌<◌, ◌≤◌, ◌+◌, ◌-◌, codes, min, string_bytes, IsNone, IfSome, IfOk, MatchOption, Some};
ghost use Rattle.std.specs.Fmt.{◌++?◌};
ghost use Rattle.xet_types.specs.Ranges.{interval, last_place, segment_end, file_range_of, http_range_of, range_header_text, IsJoined, HasDash, before_dash, after_dash, ReadsRange};

use crate::error::OutOfMemory;
use std::alloc::Global;
use std::fmt;
use std::marker::PhantomData;
use std::str::FromStr;
use thiserror::Error;

/// The kind of a range of chunk numbers.
#[derive(Clone, Copy, Debug, PartialEq, Eq, PartialOrd, Ord, Hash, Default)]
pub struct _C;

/// The kind of a range of a file's bytes.
#[derive(Clone, Copy, Debug, PartialEq, Eq, PartialOrd, Ord, Hash, Default)]
pub struct _F;

/// The kind of a range of bytes as a request names them (RFC 7233 2.1).
#[derive(Clone, Copy, Debug, PartialEq, Eq, PartialOrd, Ord, Hash, Default)]
pub struct _H;

/// A range of indices of one kind, ordered by its start, then its end. It prints as `start-end`.
///
/// Chunk ranges and file ranges exclude their end, request ranges include it.
#[derive(Clone, Copy, PartialEq, Eq, PartialOrd, Ord, Hash, Default)]
pub struct Range<Idx, Kind> {
    /// The first index.
    pub start: Idx,
    /// The end: past the last index, or the last index itself where the kind includes it.
    pub end: Idx,
    pub _marker: PhantomData<Kind>,
}

/// Chunk numbers from `start` up to `end`, which is excluded.
pub type ChunkRange = Range<u32, _C>;

/// Bytes of a file or a xorb from `start` up to `end`, which is excluded.
pub type FileRange = Range<u64, _F>;

/// Bytes from `start` to `end`, which is included.
pub type HttpRange = Range<u64, _H>;

impl<Idx, Kind> Range<Idx, Kind> {
    /// From an index to an end, which may be below it.
    pub fn new(start: Idx, end: Idx) -> Range<Idx, Kind>
        ensures { result ≡ record { start = start; end = end; _marker = record {} } }
    {
        Range {
            start,
            end,
            _marker: PhantomData,
        }
    }
}

impl<Idx: fmt::Display, Kind> fmt::Display for Range<Idx, Kind> {
    ghost output = { λ r. Idx.output r.start ++? Some (codes "-") ++? Idx.output r.end };

    fn fmt<W: fmt::Write>(&self, f: &mut fmt::Formatter<W>) -> fmt::Result {
        write!(f, "{}-{}", self.start, self.end)
    }
}

impl<Idx: fmt::Debug, Kind> fmt::Debug for Range<Idx, Kind> {
    ghost debug_output = { λ r. Some (codes "Range { start: ") ++? Idx.debug_output r.start ++? Some (codes ", end: ") ++? Idx.debug_output r.end ++? Some (codes " }") };

    fn fmt<W: fmt::Write>(&self, f: &mut fmt::Formatter<W>) -> fmt::Result {
        write!(
            f,
            "Range {{ start: {:?}, end: {:?} }}",
            self.start, self.end
        )
    }
}

impl Range<u64, _F> {
    /// From the first byte to the greatest end.
    pub fn full() -> FileRange
        ensures { result ≡ interval 0 last_place }
    {
        Range::new(0, u64::MAX)
    }

    /// How many bytes it has: none where it is reversed.
    pub fn length(&self) -> u64
        ensures { result ≡ self.now.end - self.now.start }
    {
        self.end.saturating_sub(self.start)
    }

    /// The first bytes, as many as `segment_size` at most, and the rest of the range.
    ///
    /// There is no rest exactly where the first bytes end where the range does.
    pub fn take_segment(self, segment_size: u64) -> (FileRange, Option<FileRange>)
        ensures segment { result.0 ≡ interval self.start (segment_end self segment_size) }
        ensures none { IsNone result.1 ↔ (segment_end self segment_size ≡ self.end) }
        ensures rest { IfSome result.1 (λ r. r ≡ interval (segment_end self segment_size) self.end) }
        ensures joined { self.start ≤ self.end → IsJoined result.0 result.1 self }
    {
        let end = self.end.min(self.start.saturating_add(segment_size));
        let segment = Range::new(self.start, end);
        if end == self.end {
            (segment, None)
        } else {
            (segment, Some(Range::new(end, self.end)))
        }
    }

    /// The range again, by way of the range that a request names: no byte is lost or gained.
    pub fn through_request(self) -> FileRange
        requires { self.start < self.end }
        ensures { result ≡ self }
    {
        FileRange::from(HttpRange::from(self))
    }
}

impl Range<u64, _H> {
    /// How many bytes it has, up to `u64::MAX`: none where it is reversed.
    pub fn length(&self) -> u64
        ensures { result ≡ min (self.now.end + 1 - self.now.start) last_place }
    {
        if self.end < self.start {
            0
        } else {
            (self.end - self.start).saturating_add(1)
        }
    }

    /// The value of the header that asks for the range, `bytes=start-end`.
    pub fn range_header(&self, alloc: Global) -> Result<String, OutOfMemory>
        ensures { IfOk result (λ text. string_bytes text ≡ range_header_text self.now) }
    {
        let start = self.start;
        let end = self.end;
        Ok(format!(in alloc; "bytes={start}-{end}")?)
    }
}

impl From<HttpRange> for FileRange {
    ghost from_gives = { λ r file. file ≡ file_range_of r };

    fn from(range: HttpRange) -> FileRange {
        Range::new(range.start, range.end.saturating_add(1))
    }
}

impl From<FileRange> for HttpRange {
    ghost from_gives = { λ r http. http ≡ http_range_of r };

    fn from(range: FileRange) -> HttpRange {
        Range::new(range.start, range.end.saturating_sub(1))
    }
}

/// Why a text isn't a range.
#[derive(Clone, Copy, Debug, PartialEq, Eq, Error)]
pub enum RangeParseError {
    /// It has no `-`.
    #[error("Invalid format, expect [start]-[end]")]
    InvalidFormat,
    /// A side of the first `-` isn't a number of the range's type. A number may begin with one `+` and with zeros.
    #[error("Incorrect number")]
    ParseError,
}

/// What stands on the two sides of the first `-`.
fn sides(text: &str) -> Option<(&str, &str)>
    ensures { MatchOption result (¬ HasDash text.now) (λ s. HasDash text.now × (s.0.now ≡ before_dash text.now) × (s.1.now ≡ after_dash text.now)) }
{
    text.split_once('-')
}

impl FromStr for Range<u32, _C> {
    type Err = RangeParseError;

    ghost from_str_gives = { ReadsRange 32 };

    fn from_str(text: &str) -> Result<ChunkRange, RangeParseError> {
        let Some((start, end)) = sides(text) else {
            return Err(RangeParseError::InvalidFormat);
        };
        let Ok(start) = start.parse::<u32>() else {
            return Err(RangeParseError::ParseError);
        };
        let Ok(end) = end.parse::<u32>() else {
            return Err(RangeParseError::ParseError);
        };
        Ok(Range::new(start, end))
    }
}

/// A range of bytes, of either kind.
fn range_of_bytes<Kind>(text: &str) -> Result<Range<u64, Kind>, RangeParseError>
    ensures { ReadsRange 64 text.now result }
{
    let Some((start, end)) = sides(text) else {
        return Err(RangeParseError::InvalidFormat);
    };
    let Ok(start) = start.parse::<u64>() else {
        return Err(RangeParseError::ParseError);
    };
    let Ok(end) = end.parse::<u64>() else {
        return Err(RangeParseError::ParseError);
    };
    Ok(Range::new(start, end))
}

impl FromStr for Range<u64, _F> {
    type Err = RangeParseError;

    ghost from_str_gives = { ReadsRange 64 };

    fn from_str(text: &str) -> Result<FileRange, RangeParseError> {
        range_of_bytes(text)
    }
}

impl FromStr for Range<u64, _H> {
    type Err = RangeParseError;

    ghost from_str_gives = { ReadsRange 64 };

    fn from_str(text: &str) -> Result<HttpRange, RangeParseError> {
        range_of_bytes(text)
    }
}

impl TryFrom<&str> for Range<u32, _C> {
    type Error = RangeParseError;

    ghost try_from_gives = { λ text result. ReadsRange 32 text.now result };

    fn try_from(text: &str) -> Result<ChunkRange, RangeParseError> {
        text.parse()
    }
}

impl TryFrom<&str> for Range<u64, _F> {
    type Error = RangeParseError;

    ghost try_from_gives = { λ text result. ReadsRange 64 text.now result };

    fn try_from(text: &str) -> Result<FileRange, RangeParseError> {
        range_of_bytes(text)
    }
}

impl TryFrom<&str> for Range<u64, _H> {
    type Error = RangeParseError;

    ghost try_from_gives = { λ text result. ReadsRange 64 text.now result };

    fn try_from(text: &str) -> Result<HttpRange, RangeParseError> {
        range_of_bytes(text)
    }
}
