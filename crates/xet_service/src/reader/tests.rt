//! Plans that open and that don't, bodies that are taken and that aren't, and the bytes that are read.
use super::*;
use std::alloc::{AllocError, Global};
use std::collections::BTreeMap;
use std::process::Abort;
use std::test::Fail;
use xet_types::{
    ChunkRange, FormatFault, HexMerkleHash, HttpRange, MerkleHash, Refusal, XorbMultiRangeFetch,
    XorbRangeDescriptor,
};

/// A term's first chunk, the end of its chunks, and its length in bytes.
type TermRow = (u32, u32, u32);

/// A range's first chunk, the end of its chunks, its first byte and its last byte.
type RangeRow = (u32, u32, u64, u64);

fn xorb() -> MerkleHash {
    MerkleHash::from_bytes([7; 32])
}

/// Two chunks of four bytes.
const FOURS: &[u8] = b"\x00\x04\x00\x00\x00\x04\x00\x00abcd\x00\x04\x00\x00\x00\x04\x00\x00efgh";

fn terms_of(alloc: Global, rows: &[TermRow]) -> Result<Vec<XorbReconstructionTerm>, AllocError> {
    let mut terms = Vec::new(alloc);
    for (start, end, length) in rows {
        terms.push(XorbReconstructionTerm {
            hash: xorb(),
            unpacked_length: *length,
            range: ChunkRange::new(*start, *end),
        })?;
    }
    Ok(terms)
}

fn link_of(alloc: Global, rows: &[RangeRow]) -> Result<XorbMultiRangeFetch, AllocError> {
    let mut ranges = Vec::new(alloc);
    for (start, end, first, last) in rows {
        ranges.push(XorbRangeDescriptor {
            chunks: ChunkRange::new(*start, *end),
            bytes: HttpRange::new(*first, *last),
        })?;
    }
    Ok(XorbMultiRangeFetch {
        url: String::from_str(alloc, "link")?,
        ranges,
    })
}

/// A plan of one xorb.
fn plan_of(
    alloc: Global,
    offset: u64,
    terms: &[TermRow],
    links: &[&[RangeRow]],
) -> Result<QueryReconstructionResponseV2, AllocError> {
    let mut fetches = Vec::new(alloc);
    for link in links {
        fetches.push(link_of(alloc, link)?)?;
    }
    let mut xorbs = BTreeMap::new(alloc);
    xorbs.insert(HexMerkleHash(xorb()), fetches)?;
    Ok(QueryReconstructionResponseV2 {
        offset_into_first_range: offset,
        terms: terms_of(alloc, terms)?,
        xorbs,
    })
}

fn opens(
    alloc: Global,
    offset: u64,
    terms: &[TermRow],
    links: &[&[RangeRow]],
) -> Result<bool, AllocError> {
    let plan = plan_of(alloc, offset, terms, links)?;
    Ok(Reader::open(alloc, &plan, None).is_ok())
}

#[test]
fn opens_plans_whose_terms_are_held(rt: HostRuntime) -> Result<(), Fail> {
    let alloc = rt.alloc();
    let whole: &[RangeRow] = &[(0, 2, 0, 23)];
    let first: &[RangeRow] = &[(0, 1, 0, 11)];
    let second: &[RangeRow] = &[(1, 2, 12, 23)];
    let both: &[RangeRow] = &[(0, 1, 0, 11), (1, 2, 12, 23)];
    let unsorted: &[RangeRow] = &[(1, 2, 12, 23), (0, 1, 0, 11)];
    let overlapping: &[RangeRow] = &[(0, 2, 0, 23), (1, 2, 12, 23)];
    let rows: [(u64, &[TermRow], &[&[RangeRow]], bool); 12] = [
        (0, &[(0, 2, 8)], &[whole], true),
        (8, &[(0, 2, 8)], &[whole], true),
        (9, &[(0, 2, 8)], &[whole], false),
        (0, &[(0, 3, 9)], &[whole], false),
        (0, &[(1, 0, 8)], &[whole], false),
        (0, &[(0, 2, 8)], &[], false),
        (0, &[(0, 1, 4), (1, 2, 4)], &[both], true),
        (0, &[(0, 2, 8)], &[both], false),
        (0, &[(0, 1, 4)], &[unsorted], false),
        (0, &[(0, 1, 4)], &[overlapping], false),
        (0, &[(0, 1, 4), (1, 2, 4)], &[second, first], true),
        (0, &[(1, 2, 4)], &[whole, second], true),
    ];
    for (offset, terms, links, is_open) in rows {
        assert!(rt; opens(alloc, offset, terms, links)? == is_open);
    }
    Ok(())
}

/// Why a link of the chunks 0..2 refuses a body, if it does, and how many links are left then.
fn refusal(
    alloc: Global,
    terms: &[TermRow],
    content_type: &str,
    body: &[u8],
) -> Result<(Option<Refusal>, usize), ClientError> {
    let plan = plan_of(alloc, 0, terms, &[&[(0, 2, 0, 23)]])?;
    let mut reader = Reader::open(alloc, &plan, None)?;
    let body = Bytes::copy_from_slice(alloc, body)?;
    let why = match reader.accept(alloc, 0, content_type, body) {
        Ok(()) => None,
        Err(error) => error.refusal(),
    };
    Ok((why, reader.left()))
}

#[test]
fn takes_what_the_link_holds(rt: HostRuntime) -> Result<(), Fail> {
    let alloc = rt.alloc();
    let one: &[u8] = b"\x00\x10\x00\x00\x00\x10\x00\x00abcdefghijklmnop";
    let unequal: &[u8] =
        b"\x00\x03\x00\x00\x00\x03\x00\x00abc\x00\x05\x00\x00\x00\x05\x00\x00defgh";
    let scheme: &[u8] = b"\x00\x04\x00\x00\x00\x04\x00\x00abcd\x00\x04\x00\x00\x01\x04\x00\x00efgh";
    let all: &[TermRow] = &[(0, 2, 8)];
    let halves: &[TermRow] = &[(0, 1, 4), (1, 2, 4)];
    let rows: [(&[TermRow], &str, &[u8], Option<Refusal>); 8] = [
        (all, "", FOURS, None),
        (halves, "application/octet-stream", FOURS, None),
        (all, "", unequal, None),
        (all, "", &FOURS[..23], Some(Refusal::Other)),
        (
            all,
            "multipart/byteranges; boundary=b",
            FOURS,
            Some(Refusal::Other),
        ),
        (
            all,
            "",
            scheme,
            Some(Refusal::FormatError(FormatFault::Xorb)),
        ),
        (all, "", one, Some(Refusal::FormatError(FormatFault::Body))),
        (
            halves,
            "",
            unequal,
            Some(Refusal::FormatError(FormatFault::Body)),
        ),
    ];
    for (terms, content_type, body, why) in rows {
        let (refused, left) = refusal(alloc, terms, content_type, body)?;
        assert!(rt; refused == why);
        assert!(rt; (left == 0) == why.is_none());
    }
    Ok(())
}

/// A part of eleven bytes that says it is of a hundred.
const SHORT_PART: &[u8] =
    b"--abc123\r\nContent-Range: bytes 0-99/1000\r\n\r\nHello World\r\n--abc123--\r\n";

/// The two chunks, in parts.
const IN_ORDER: &[u8] =
    b"--abc123\r\nContent-Range: bytes 0-11/152\r\n\r\n\x00\x04\x00\x00\x00\x04\x00\x00abcd\r\n--abc123\r\nContent-Range: bytes 12-23/152\r\n\r\n\x00\x04\x00\x00\x00\x04\x00\x00efgh\r\n--abc123--\r\n";

/// The same parts, the last first.
const REVERSED: &[u8] =
    b"--abc123\r\nContent-Range: bytes 12-23/152\r\n\r\n\x00\x04\x00\x00\x00\x04\x00\x00efgh\r\n--abc123\r\nContent-Range: bytes 0-11/152\r\n\r\n\x00\x04\x00\x00\x00\x04\x00\x00abcd\r\n--abc123--\r\n";

/// Why a link of these ranges refuses a body in parts, if it does.
fn refusal_in_parts(
    alloc: Global,
    terms: &[TermRow],
    link: &[RangeRow],
    body: &[u8],
) -> Result<Option<Refusal>, ClientError> {
    let plan = plan_of(alloc, 0, terms, &[link])?;
    let mut reader = Reader::open(alloc, &plan, None)?;
    let body = Bytes::copy_from_slice(alloc, body)?;
    match reader.accept(alloc, 0, "multipart/byteranges; boundary=abc123", body) {
        Ok(()) => Ok(None),
        Err(error) => Ok(error.refusal()),
    }
}

#[test]
fn takes_parts_of_the_links_ranges(rt: HostRuntime) -> Result<(), Fail> {
    let alloc = rt.alloc();
    let hundred: &[RangeRow] = &[(0, 1, 0, 99)];
    let both: &[RangeRow] = &[(0, 1, 0, 11), (1, 2, 12, 23)];
    let first: &[RangeRow] = &[(0, 1, 0, 11)];
    let halves: &[TermRow] = &[(0, 1, 4), (1, 2, 4)];
    let rows: [(&[TermRow], &[RangeRow], &[u8], Option<Refusal>); 5] = [
        (&[(0, 1, 92)], hundred, SHORT_PART, Some(Refusal::Other)),
        (halves, both, IN_ORDER, None),
        (halves, both, REVERSED, None),
        (&[(0, 1, 4)], first, IN_ORDER, Some(Refusal::Other)),
        (halves, both, SHORT_PART, Some(Refusal::Other)),
    ];
    for (terms, link, body, why) in rows {
        let refused = refusal_in_parts(alloc, terms, link, body)?;
        assert!(rt; refused == why);
    }
    Ok(())
}

/// Takes a body of one chunk.
fn take(reader: &mut Reader, alloc: Global, link: usize, body: &[u8]) -> Result<bool, ClientError> {
    let body = Bytes::copy_from_slice(alloc, body)?;
    Ok(reader.accept(alloc, link, "", body).is_ok())
}

/// Whether no link is left, and these bytes were read.
fn has_read(reader: &Reader, alloc: Global, expected: &[u8]) -> Result<bool, OutOfMemory> {
    if reader.left() > 0 {
        return Ok(false);
    }
    let bytes = reader.finish(alloc)?;
    Ok(bytes.as_slice() == expected)
}

#[test]
fn reads_a_range_from_two_links(rt: HostRuntime) -> Result<(), Fail> {
    let alloc = rt.alloc();
    let first: &[u8] = b"\x00\x04\x00\x00\x00\x04\x00\x00abcd";
    let third: &[u8] = b"\x00\x02\x00\x00\x00\x02\x00\x00xy";
    let terms: &[TermRow] = &[(2, 3, 2), (0, 1, 4), (2, 3, 2)];
    let plan = plan_of(alloc, 1, terms, &[&[(0, 1, 0, 11)], &[(2, 3, 24, 33)]])?;
    let mut reader = Reader::open(alloc, &plan, Some(FileRange::new(5, 11)))?;
    assert_eq!(rt; reader.links(), 2);
    assert!(rt; take(&mut reader, alloc, 1, third)?);
    assert!(rt; !take(&mut reader, alloc, 1, third)?);
    assert!(rt; !take(&mut reader, alloc, 2, third)?);
    assert!(rt; reader.is_left(0) && !reader.is_left(1) && !reader.is_left(2));
    assert!(rt; !has_read(&reader, alloc, b"yabcdx")?);
    assert!(rt; take(&mut reader, alloc, 0, first)?);
    assert!(rt; has_read(&reader, alloc, b"yabcdx")?);
    Ok(())
}
