//! Reading a body of several parts.
ghost use Rattle.std.specs.Prelude.{◌≡◌, ◌≢◌, ◌++◌, ℕ, List, IfOk, OnOk, MatchBool, MatchOption, codes};
ghost use Rattle.std.specs.Str.{IsUtf8, trim};
ghost use Rattle.xet_types.specs.declared.range.Range.{Range};
ghost use Rattle.xet_types.specs.declared.range._H.{_H};
ghost use Rattle.xet_wire.specs.Multipart.{Part, StandsIn, IsCutAround, IsUpTo, crlf, part_end, unquoted, without_first_quotes, NamesBoundary, lines_of, TellsBytes, IsRangeOfTotal, TellsRange, ReadsPart, ReadsParts, SpellsParts, IsReadAs, ReadsMultipart, GivesParts, IsOther};

use crate::multipart::MultipartPart;
use crate::text::cut;
use bytes::Bytes;
use memchr::memmem;
use std::alloc::Global;
use std::str;
use xet_types::{ClientError, HttpRange, OutOfMemory};

/// What stands behind `boundary=` in a piece of a content type.
fn named(piece: &str) -> Option<&str>
    ensures { MatchOption result ((quoted : List ℕ) → trim piece.now ≢ codes "boundary=" ++ quoted) (λ quoted. trim piece.now ≡ codes "boundary=" ++ quoted.now) }
{
    piece.trim().strip_prefix("boundary=")
}

/// A text without the quotation marks at its start.
fn without_first(text: &[u8]) -> &[u8]
    ensures { result.now ≡ without_first_quotes text.now }
{
    let mut start = 0;
    while start < text.len() {
        if text[start] != b'"' {
            return &text[start..];
        }
        start += 1;
    }
    &text[start..]
}

/// A text without the quotation marks around it.
fn without_quotes(text: &[u8]) -> &[u8]
    ensures { result.now ≡ unquoted text.now }
{
    let rest = without_first(text);
    let mut end = rest.len();
    while end > 0 {
        if rest[end - 1] != b'"' {
            return &rest[..end];
        }
        end -= 1;
    }
    &rest[..end]
}

/// The boundary that a content type names.
fn boundary_of(content_type: &str) -> Option<&[u8]>
    ensures { MatchOption result ((boundary : List ℕ) → ¬ NamesBoundary content_type.now boundary) (λ boundary. NamesBoundary content_type.now boundary.now) }
{
    let mut rest = content_type;
    while let Some((piece, more)) = cut(rest, ';') {
        if let Some(quoted) = named(piece) {
            return Some(without_quotes(quoted.as_bytes()));
        }
        rest = more;
    }
    match named(rest) {
        Some(quoted) => Some(without_quotes(quoted.as_bytes())),
        None => None,
    }
}

/// What a line tells behind `content-range:` and the unit `bytes`.
fn bytes_told(line: &str) -> Option<&str>
    ensures { MatchOption result ((rest : List ℕ) → ¬ TellsBytes line.now rest) (λ rest. TellsBytes line.now rest.now) }
{
    let Some((name, value)) = cut(line, ':') else {
        return None;
    };
    if !name.eq_ignore_ascii_case("content-range") {
        return None;
    }
    let Some((unit, rest)) = cut(value.trim(), ' ') else {
        return None;
    };
    if unit.eq_ignore_ascii_case("bytes") {
        Some(rest)
    } else {
        None
    }
}

/// The range before the slash of such a text.
fn range_told(told: &str) -> Option<HttpRange>
    ensures { MatchOption result ((range : Range ℕ _H) → ¬ IsRangeOfTotal told.now range) (λ range. IsRangeOfTotal told.now range) }
{
    let Some((spelled, _)) = cut(told.trim(), '/') else {
        return None;
    };
    match spelled.parse::<HttpRange>() {
        Ok(range) => Some(range),
        Err(_) => None,
    }
}

/// A text's first line and what follows its end.
fn cut_line(text: &str) -> Option<(&str, &str)>
    ensures { MatchOption result (¬ StandsIn crlf text.now) (λ p. IsCutAround crlf text.now p.0.now p.1.now) }
{
    text.split_once("\r\n")
}

/// The range that the first line that tells bytes tells.
fn range_in(headers: &str) -> Option<HttpRange>
    ensures { MatchOption result ((range : Range ℕ _H) → ¬ TellsRange (lines_of headers.now) range) (λ range. TellsRange (lines_of headers.now) range) }
{
    let mut rest = headers;
    while let Some((line, more)) = cut_line(rest) {
        if let Some(told) = bytes_told(line) {
            return range_told(told);
        }
        rest = more;
    }
    match bytes_told(rest) {
        Some(told) => range_told(told),
        None => None,
    }
}

/// The range that a part's headers tell.
fn range_of(headers: &[u8]) -> Option<HttpRange>
    ensures { MatchOption result (IsUtf8 headers.now → (range : Range ℕ _H) → ¬ TellsRange (lines_of headers.now) range) (λ range. IsUtf8 headers.now × TellsRange (lines_of headers.now) range) }
{
    match str::from_utf8(headers) {
        Ok(headers) => range_in(headers),
        Err(_) => None,
    }
}

/// The refusal of a body that is malformed.
fn malformed(alloc: Global) -> ClientError
    ensures { IsOther result }
{
    match String::from_str(alloc, "the multipart body is malformed") {
        Ok(text) => ClientError::Other(text),
        Err(_) => ClientError::OutOfMemory,
    }
}

/// The part that some bytes are. Its content shares them.
fn read_part(alloc: Global, text: Bytes) -> Result<MultipartPart, ClientError>
    ensures { ReadsPart text result }
{
    let Some(end) = memmem::find(text.as_slice(), b"\r\n\r\n") else {
        return Err(malformed(alloc));
    };
    let Some(range) = range_of(&text.as_slice()[..end]) else {
        return Err(malformed(alloc));
    };
    let mut content = text;
    content.advance(end + 4);
    Ok(MultipartPart { range, content })
}

/// Takes the bytes up to the next word, and passes over it; takes all bytes where there is none.
fn take_piece(rest: &mut Bytes, word: &[u8]) -> Result<Bytes, OutOfMemory>
    ensures { IfOk result (λ piece. IsUpTo word.now rest.old piece rest.new) }
{
    match memmem::find(rest.as_slice(), word) {
        Some(at) => {
            let piece = rest.split_to(at)?;
            rest.advance(word.len());
            Ok(piece)
        }
        None => {
            let piece = rest.split_to(rest.len())?;
            Ok(piece)
        }
    }
}

/// Passes over the end of a line, if the bytes begin with one.
fn pass_line_end(rest: &mut Bytes) -> bool
    ensures { MatchBool result (rest.old ≡ crlf ++ rest.new) ((more : List ℕ) → rest.old ≢ crlf ++ more) }
{
    if rest.as_slice().starts_with(b"\r\n") {
        rest.advance(2);
        return true;
    }
    false
}

/// The parts that follow a delimiter. The word is the end of a line with a delimiter behind it.
fn read_parts(alloc: Global, word: &[u8], after: Bytes) -> Result<Vec<MultipartPart>, ClientError>
    ensures { ReadsParts word.now after result }
{
    let mut parts = Vec::new(alloc);
    let mut rest = after;
    while pass_line_end(&mut rest) {
        let piece = take_piece(&mut rest, word)?;
        parts.push(read_part(alloc, piece)?)?;
    }
    Ok(parts)
}

/// The end of a line with a delimiter behind it.
fn line_delimiter(alloc: Global, boundary: &[u8]) -> Result<Vec<u8>, OutOfMemory>
    ensures { IfOk result (λ word. word.items ≡ part_end boundary.now) }
{
    let mut word = Vec::with_capacity(alloc, boundary.len().saturating_add(4))?;
    word.extend_from_slice(b"\r\n--")?;
    word.extend_from_slice(boundary)?;
    Ok(word)
}

/// The parts of a body in the body's order, each with the body's bytes.
fn parts_in(
    alloc: Global,
    content_type: &str,
    body: Bytes,
) -> Result<Vec<MultipartPart>, ClientError>
    ensures { SpellsParts content_type.now body result }
{
    let Some(boundary) = boundary_of(content_type) else {
        return Err(malformed(alloc));
    };
    let word = line_delimiter(alloc, boundary)?;
    let delimiter = &word.as_slice()[2..];
    let Some(first) = memmem::find(body.as_slice(), delimiter) else {
        return Err(malformed(alloc));
    };
    let mut after = body;
    after.advance(first + delimiter.len());
    read_parts(alloc, word.as_slice(), after)
}

/// The parts of a body of type `multipart/byteranges`, in order of start, and those of one start in the body's order. They share the body's
/// bytes.
///
/// The content type's first piece between semicolons that begins with `boundary=` names the boundary, in quotation marks or without. The
/// first part follows the first two dashes and boundary, and CRLF; each further one follows CRLF, two dashes, the boundary and CRLF. In a
/// part, headers end at the first empty line, and the first that is `Content-Range: bytes S-E/..` names the range.
///
/// [`ClientError::Other`] exactly where no boundary is named or it isn't found, or where a part's headers don't end, aren't UTF-8 or name no
/// range. The length of a part isn't compared with its range.
pub fn parse_multipart_byteranges(
    alloc: Global,
    content_type: &str,
    body: Bytes,
) -> Result<Vec<MultipartPart>, ClientError>
    ensures value { ReadsMultipart content_type.now body result }
    ensures reads { (parts : List Part) → IsReadAs content_type.now body parts → GivesParts parts result }
{
    let mut parts = parts_in(alloc, content_type, body)?;
    parts.sort_by_key(|part| part.range.start)?;
    Ok(parts)
}
