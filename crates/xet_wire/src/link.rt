//! Links of versions 1 and 2: which bytes of a xorb they bring, and the moment of the plan that made them.
ghost use Rattle.std.specs.Prelude.{◌≡◌, ◌++◌, ◌∷◌, ℕ, List, Ok, map, string_bytes, decimal, IfOk, OnOk, MatchOption};
ghost use Rattle.std.specs.List.{All};
ghost use Rattle.hex.specs.Hex.{encode_lower};
ghost use Rattle.base64.specs.Engines.{url_safe_no_pad};
ghost use Rattle.base64.specs.GeneralPurpose.{encode_of};
ghost use Rattle.xet_types.specs.declared.range.Range.{Range};
ghost use Rattle.xet_types.specs.declared.range._F.{_F};
ghost use Rattle.xet_types.specs.declared.range._H.{_H};
ghost use Rattle.xet_wire.specs.Texts.{Fits64, IsHashOf, ranges_text};
ghost use Rattle.xet_wire.specs.Links.{link_text, SpellsFirstLink, ReadsFirstLink, bytes_of, link_payload, ReadsLinkPayload, SpellsSecondLink, ReadsSecondLink, GivesSecondLink, SpellsLink, ReadsLink, GivesLink};

use crate::payload;
use crate::text::{
    cut, fields, number, number_then, push_number, push_range, read_ranges, reserve_ranges,
};
use std::alloc::Global;
use xet_types::{ClientError, FileRange, HttpRange, MerkleHash, OutOfMemory, XorbRangeDescriptor};

/// The most bytes that a mark and a number take.
const NUMBER_ROOM: usize = 21;

/// The text of a link of version 1, `HASH:START:END:MOMENT`: a xorb's hash, where the bytes begin and end in it (the end is excluded), and
/// the moment of the plan in milliseconds.
pub fn generate_fetch_url(
    alloc: Global,
    hash: &MerkleHash,
    byte_range: &FileRange,
    at: u64,
) -> Result<String, OutOfMemory>
    ensures text { IfOk result (λ url. string_bytes url ≡ link_text hash.now byte_range.now.start byte_range.now.end at) }
    ensures reads_back { IfOk result (λ url. SpellsFirstLink (string_bytes url) hash.now byte_range.now at) }
{
    let start = byte_range.start;
    let end = byte_range.end;
    let mut url = hash.hex(alloc)?;
    url.reserve(3 * NUMBER_ROOM)?;
    push_number(&mut url, ':', start)?;
    push_number(&mut url, ':', end)?;
    push_number(&mut url, ':', at)?;
    Ok(url)
}

/// The hash, range and moment of a link of version 1. Takes no memory.
fn first_link(url: &str) -> Option<(MerkleHash, FileRange, u64)>
    ensures { MatchOption result ((hash : List ℕ) (range : Range ℕ _F) (at : ℕ) → ¬ SpellsFirstLink url.now hash range at) (λ link. SpellsFirstLink url.now link.0 link.1 link.2) }
{
    let Some((hash, start, end, at)) = fields(url) else {
        return None;
    };
    let Ok(hash) = MerkleHash::from_hex(hash) else {
        return None;
    };
    let Some(start) = number(start) else {
        return None;
    };
    let Some(end) = number(end) else {
        return None;
    };
    match number(at) {
        Some(at) => Some((hash, FileRange::new(start, end), at)),
        None => None,
    }
}

/// The hash, the range of bytes (its end is excluded) and the moment that a link of version 1 names. Takes no memory.
///
/// The text is cut at its last three colons. [`ClientError::InvalidArguments`] exactly where it isn't a hash of 64 digits and three
/// numbers as `u64::from_str` reads them.
pub fn parse_fetch_url(url: &str) -> Result<(MerkleHash, FileRange, u64), ClientError>
    ensures value { ReadsFirstLink url.now result }
    ensures reads { (hash : List ℕ) (range : Range ℕ _F) (at : ℕ) → SpellsFirstLink url.now hash range at → result ≡ Ok (hash, range, at) }
{
    match first_link(url) {
        Some(link) => Ok(link),
        None => Err(ClientError::InvalidArguments),
    }
}

/// Puts the bytes of runs at the end, with inclusive ends and commas between them.
fn push_runs(payload: &mut String, ranges: &[XorbRangeDescriptor]) -> Result<(), OutOfMemory>
    ensures text { OnOk result (string_bytes payload.new ≡ string_bytes payload.old ++ ranges_text (map bytes_of ranges.now)) }
    ensures fit { OnOk result (All (λ d. Fits64 (bytes_of d)) ranges.now) }
{
    for (place, run) in ranges.iter().enumerate() {
        push_range(payload, place, run.bytes.start, run.bytes.end)?;
    }
    Ok(())
}

/// The payload of a link of version 2.
#[tactic(auto, unfolding(crate::specs::Links::link_payload))]
fn second_payload(
    alloc: Global,
    hash: &MerkleHash,
    ranges: &[XorbRangeDescriptor],
    at: u64,
) -> Result<String, OutOfMemory>
    ensures text { IfOk result (λ payload. string_bytes payload ≡ link_payload hash.now at (map bytes_of ranges.now)) }
    ensures hash { OnOk result (IsHashOf (encode_lower hash.now) hash.now) }
    ensures fit { OnOk result (All (λ d. Fits64 (bytes_of d)) ranges.now) }
{
    let mut payload = hash.hex(alloc)?;
    reserve_ranges(&mut payload, ranges.len().saturating_add(1))?;
    push_number(&mut payload, ':', at)?;
    payload.push(':')?;
    push_runs(&mut payload, ranges)?;
    Ok(payload)
}

/// The text of a link of version 2: base64 with the URL-safe alphabet and no padding (RFC 4648 section 5) of
/// `HASH:MOMENT:S-E,S-E`, the bytes of each run with an inclusive end and the moment in milliseconds.
pub fn generate_v2_fetch_url(
    alloc: Global,
    hash: &MerkleHash,
    ranges: &[XorbRangeDescriptor],
    at: u64,
) -> Result<String, OutOfMemory>
    ensures text { IfOk result (λ url. string_bytes url ≡ encode_of url_safe_no_pad (link_payload hash.now at (map bytes_of ranges.now))) }
    ensures reads_back { IfOk result (λ url. SpellsSecondLink (string_bytes url) hash.now at (map bytes_of ranges.now)) }
{
    let payload = second_payload(alloc, hash, ranges, at)?;
    let text = payload::encode(alloc, payload.as_str())?;
    Ok(text)
}

/// The hash, moment and ranges of a payload.
fn parse_payload(
    alloc: Global,
    payload: &str,
) -> Result<(MerkleHash, u64, Vec<HttpRange>), ClientError>
    ensures { ReadsLinkPayload payload.now result }
{
    let Some((digits, rest)) = cut(payload, ':') else {
        return Err(ClientError::InvalidArguments);
    };
    let Ok(hash) = MerkleHash::from_hex(digits) else {
        return Err(ClientError::InvalidArguments);
    };
    let Some((at, list)) = number_then(rest) else {
        return Err(ClientError::InvalidArguments);
    };
    match read_ranges(alloc, list) {
        Ok(ranges) => Ok((hash, at, ranges)),
        Err(error) => Err(error),
    }
}

/// The hash, the moment and the ranges of bytes (their ends are included) that a link of version 2 names.
///
/// The payload is cut at its first two colons, and its ranges at commas; empty pieces are passed over.
/// [`ClientError::InvalidArguments`] exactly where the text isn't the canonical base64 of a payload in UTF-8, or where that isn't a hash
/// of 64 digits, a number and ranges of two numbers each, as `u64::from_str` reads numbers.
pub fn parse_v2_fetch_url(
    alloc: Global,
    url: &str,
) -> Result<(MerkleHash, u64, Vec<HttpRange>), ClientError>
    ensures value { ReadsSecondLink url.now result }
    ensures reads { (hash : List ℕ) (at : ℕ) (ranges : List (Range ℕ _H)) → SpellsSecondLink url.now hash at ranges → GivesSecondLink hash at ranges result }
{
    match payload::decode(alloc, url) {
        Ok(payload) => parse_payload(alloc, payload.as_str()),
        Err(error) => Err(error),
    }
}

/// The hash and the moment of a link of either version. The form of version 1 is tried first.
///
/// [`ClientError::InvalidArguments`] exactly where the text is a link of neither.
pub fn parse_any_fetch_url(alloc: Global, url: &str) -> Result<(MerkleHash, u64), ClientError>
    ensures value { ReadsLink url.now result }
    ensures reads { (hash : List ℕ) (at : ℕ) → SpellsLink url.now hash at → GivesLink hash at result }
{
    if let Some(link) = first_link(url) {
        return Ok((link.0, link.2));
    }
    match parse_v2_fetch_url(alloc, url) {
        Ok(link) => Ok((link.0, link.1)),
        Err(error) => Err(error),
    }
}
