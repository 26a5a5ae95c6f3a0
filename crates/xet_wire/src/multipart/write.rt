//! Writing a body of several parts.
ghost use Rattle.std.specs.Prelude.{◌≡◌, ◌<◌, ◌^◌, ◌++◌, map, decimal, codes, IfOk, OnOk, string_bytes};
ghost use Rattle.std.specs.List.{All};
ghost use Rattle.xet_types.specs.Ranges.{http_range_of};
ghost use Rattle.xet_wire.specs.Texts.{Fits64};
ghost use Rattle.xet_wire.specs.Multipart.{delimiter, headers_text, part_text, multipart_text, content_type_text, part_of, content_of, WritesMultipart, SpellsMultipart};

use crate::multipart::boundary::pick_boundary;
use bytes::Bytes;
use itoa::Buffer;
use std::alloc::Global;
use xet_types::{FileRange, HttpRange, OutOfMemory};

/// The most bytes that a part takes beside its boundary and its content.
const PART_ROOM: usize = 144;

/// The bytes of the parts, shared.
fn contents(alloc: Global, parts: &[(FileRange, Bytes)]) -> Result<Vec<Bytes>, OutOfMemory>
    ensures { IfOk result (λ contents. contents.items ≡ map content_of (map part_of parts.now)) }
{
    let mut contents = Vec::with_capacity(alloc, parts.len())?;
    for part in parts {
        contents.push(part.1.clone()?)?;
    }
    Ok(contents)
}

/// The most bytes that a body takes, if they can be counted.
fn room(parts: &[(FileRange, Bytes)], boundary: &str) -> Option<usize> {
    let each = PART_ROOM.checked_add(boundary.len())?;
    let mut room = each;
    for part in parts {
        room = room.checked_add(each)?.checked_add(part.1.len())?;
    }
    Some(room)
}

/// Puts a number's digits at the end.
fn push_decimal(body: &mut Vec<u8>, number: u64) -> Result<(), OutOfMemory>
    ensures text { OnOk result (body.new.items ≡ body.old.items ++ decimal number) }
    ensures fits { number < 2 ^ 64 }
{
    let mut digits = Buffer::new();
    body.extend_from_slice(digits.format(number).as_bytes())?;
    Ok(())
}

/// Puts a delimiter at the end.
fn push_delimiter(body: &mut Vec<u8>, boundary: &str) -> Result<(), OutOfMemory>
    ensures { OnOk result (body.new.items ≡ body.old.items ++ delimiter boundary.now) }
{
    body.extend_from_slice(b"--")?;
    body.extend_from_slice(boundary.as_bytes())?;
    Ok(())
}

/// Puts a part's headers at the end.
#[tactic(auto, unfolding(crate::specs::Multipart::headers_text))]
fn push_headers(body: &mut Vec<u8>, range: HttpRange, total: u64) -> Result<(), OutOfMemory>
    ensures text { OnOk result (body.new.items ≡ body.old.items ++ headers_text range total) }
    ensures fit { OnOk result (Fits64 range) }
{
    body.extend_from_slice(b"Content-Type: application/octet-stream\r\nContent-Range: bytes ")?;
    push_decimal(body, range.start)?;
    body.push(b'-')?;
    push_decimal(body, range.end)?;
    body.push(b'/')?;
    push_decimal(body, total)?;
    Ok(())
}

/// Puts a part at the end.
fn push_part(
    body: &mut Vec<u8>,
    boundary: &str,
    total: u64,
    part: &(FileRange, Bytes),
) -> Result<(), OutOfMemory>
    ensures text { OnOk result (body.new.items ≡ body.old.items ++ part_text boundary.now total (part_of part.now)) }
    ensures fit { OnOk result (Fits64 (http_range_of part.now.0)) }
{
    push_delimiter(body, boundary)?;
    body.extend_from_slice(b"\r\n")?;
    push_headers(body, HttpRange::from(part.0), total)?;
    body.extend_from_slice(b"\r\n\r\n")?;
    body.extend_from_slice(part.1.as_slice())?;
    body.extend_from_slice(b"\r\n")?;
    Ok(())
}

/// The body of some parts, for which room is taken once.
fn body_of(
    alloc: Global,
    boundary: &str,
    total: u64,
    parts: &[(FileRange, Bytes)],
) -> Result<Vec<u8>, OutOfMemory>
    ensures text { IfOk result (λ body. body.items ≡ multipart_text boundary.now total (map part_of parts.now)) }
    ensures fit { OnOk result (All (λ p. Fits64 (http_range_of p.0)) parts.now) }
{
    let Some(room) = room(parts, boundary) else {
        return Err(OutOfMemory);
    };
    let mut body = Vec::with_capacity(alloc, room)?;
    for part in parts {
        push_part(&mut body, boundary, total, part)?;
    }
    push_delimiter(&mut body, boundary)?;
    body.extend_from_slice(b"--\r\n")?;
    Ok(body)
}

/// The content type of a body.
#[tactic(auto, unfolding(crate::specs::Multipart::content_type_text))]
fn content_type_of(alloc: Global, boundary: &str) -> Result<String, OutOfMemory>
    ensures { IfOk result (λ text. string_bytes text ≡ content_type_text boundary.now) }
{
    Ok(format!(in alloc; "multipart/byteranges; boundary={boundary}")?)
}

/// The content type and the body that carry some ranges of so many bytes in all: the ranges' ends are excluded here, and included in the
/// parts' headers.
///
/// Whatever the parts hold, the body is read as these parts, since the boundary stands in none of them. The parts' bytes are copied once.
pub fn write_multipart(
    alloc: Global,
    parts: &[(FileRange, Bytes)],
    total: u64,
) -> Result<(String, Bytes), OutOfMemory>
    ensures text { IfOk result (λ written. WritesMultipart (map part_of parts.now) total (string_bytes written.0) written.1) }
    ensures reads_back { IfOk result (λ written. SpellsMultipart (string_bytes written.0) written.1 (map part_of parts.now)) }
{
    let contents = contents(alloc, parts)?;
    let boundary = pick_boundary(alloc, contents.as_slice())?;
    let content_type = content_type_of(alloc, boundary.as_str())?;
    let body = body_of(alloc, boundary.as_str(), total, parts)?;
    Ok((content_type, Bytes::from_vec(body)?))
}
