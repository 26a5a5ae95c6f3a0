//! The parts of a body, and the chunks that they are.
ghost use Rattle.std.specs.Prelude.{◌≡◌, ◌↔◌, map, IfOk, IfSome, IsTrue, ⊤};
ghost use Rattle.xet_types.specs.Faults.{refusal_of};
ghost use Rattle.xet_types.specs.declared.error.Refusal.TheVariants.{Other};
ghost use Rattle.xet_wire.specs.Multipart.{content_of};
ghost use Rattle.xet_store.specs.Answered.{Answered};
ghost use Rattle.xet_service.specs.Reading.{IsMultipart};
ghost use Rattle.xet_service.specs.ReadingParts.{is_of, are_of, are_sized, CutsApart, ReadsParts};

use bytes::Bytes;
use memchr::memmem;
use std::alloc::Global;
use xet_types::{ClientError, Items, OutOfMemory, XorbRangeDescriptor};
use xet_wire::{MultipartPart, parse_multipart_byteranges};
use xet_xorb::read_chunks;

/// Whether a body of this content type is in parts.
pub fn is_multipart(content_type: &str) -> bool
    ensures { IsTrue result ↔ IsMultipart content_type.now }
{
    if content_type.is_empty() {
        return false;
    }
    memmem::find(content_type.as_bytes(), b"multipart/byteranges").is_some()
}

/// The refusal of a body that isn't the link's.
pub fn unlike(alloc: Global) -> ClientError
    ensures { IfSome (refusal_of result) (λ why. why ≡ Other) }
{
    match String::from_str(alloc, "the body isn't the link's") {
        Ok(text) => ClientError::Other(text),
        Err(_) => ClientError::OutOfMemory,
    }
}

/// Whether a part is of the bytes of a range.
fn is_of(range: &XorbRangeDescriptor, part: &MultipartPart) -> bool
    ensures { result ≡ is_of range.now part.now }
{
    part.range.start == range.bytes.start && part.range.end == range.bytes.end
}

/// Whether the parts are of the bytes of these ranges, in order.
fn are_of(ranges: &[XorbRangeDescriptor], read: &[MultipartPart]) -> bool
    ensures { result ≡ are_of ranges.now read.now }
{
    let mut rest = read;
    for range in ranges {
        let Some((part, others)) = rest.split_first() else {
            return false;
        };
        if !is_of(range, part) {
            return false;
        }
        rest = others;
    }
    rest.is_empty()
}

/// What the parts hold.
fn contents(alloc: Global, read: Vec<MultipartPart>) -> Result<Items<Bytes>, OutOfMemory>
    ensures { IfOk result (λ parts. parts ≡ map content_of read.items) }
{
    let mut parts = Vec::with_capacity(alloc, read.len())?;
    for part in read {
        parts.push(part.content)?;
    }
    Ok(Items::from_vec(parts))
}

/// The parts of a body in parts, which in order of start must be those of these ranges.
pub fn split(
    alloc: Global,
    ranges: &[XorbRangeDescriptor],
    content_type: &str,
    body: &Bytes,
) -> Result<Items<Bytes>, ClientError>
    ensures { Answered result (CutsApart ranges.now content_type.now body.now) ⊤ }
{
    let read = parse_multipart_byteranges(alloc, content_type, body.clone()?)?;
    if !are_of(ranges, &read) {
        return Err(unlike(alloc));
    }
    Ok(contents(alloc, read)?)
}

/// Whether there is a part for each range, as long as the range.
pub fn are_sized(ranges: &[XorbRangeDescriptor], parts: &[Bytes]) -> bool
    ensures { result ≡ are_sized ranges.now parts.now }
{
    let mut rest = parts;
    for range in ranges {
        let Some((part, others)) = rest.split_first() else {
            return false;
        };
        if range.bytes.length() != part.len() as u64 {
            return false;
        }
        rest = others;
    }
    rest.is_empty()
}

/// The chunks that each part is. `FormatError(Xorb)` where a part isn't whole chunks.
pub fn read_parts(alloc: Global, parts: &[Bytes]) -> Result<Items<Items<Bytes>>, ClientError>
    ensures { Answered result (ReadsParts parts.now) ⊤ }
{
    let mut got = Vec::with_capacity(alloc, parts.len())?;
    for part in parts {
        let chunks = read_chunks(alloc, part)?;
        got.push(Items::from_vec(chunks))?;
    }
    Ok(Items::from_vec(got))
}
