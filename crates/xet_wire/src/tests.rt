//! Worked links, terms and headers. Expected texts are those of the format, or base64 by another program.
mod multipart;

use crate::{
    FileRangeVariant, decode_term, encode_term, encode_term_with_ranges, generate_fetch_url,
    generate_v2_fetch_url, parse_any_fetch_url, parse_fetch_url, parse_range_header,
    parse_v2_fetch_url, ranges_header,
};
use std::alloc::Global;
use std::test::Fail;
use xet_types::{
    ChunkRange, ClientError, FileRange, HttpRange, MerkleHash, Range, XorbRangeDescriptor,
};

/// The name of the xorb of the chunk `abc`.
const H: &str = "4f8b42c22dd3729b519ba6f68d2da7cc5b2d606d05daed5ad5128cc03e6c6358";

/// Base64 of `HASH:5:0-10`.
const SECOND: &str =
    "NGY4YjQyYzIyZGQzNzI5YjUxOWJhNmY2OGQyZGE3Y2M1YjJkNjA2ZDA1ZGFlZDVhZDUxMjhjYzAzZTZjNjM1ODo1OjAtMTA";

/// Base64 of `HASH:5:`.
const NO_RANGES: &str =
    "NGY4YjQyYzIyZGQzNzI5YjUxOWJhNmY2OGQyZGE3Y2M1YjJkNjA2ZDA1ZGFlZDVhZDUxMjhjYzAzZTZjNjM1ODo1Og";

/// Base64 of `HASH:18446744073709551616:0-10`.
const LATE: &str =
    "NGY4YjQyYzIyZGQzNzI5YjUxOWJhNmY2OGQyZGE3Y2M1YjJkNjA2ZDA1ZGFlZDVhZDUxMjhjYzAzZTZjNjM1ODoxODQ0Njc0NDA3MzcwOTU1MTYxNjowLTEw";

/// Base64 of `HASH:0-1024,2048-4096`.
const TERM: &str =
    "NGY4YjQyYzIyZGQzNzI5YjUxOWJhNmY2OGQyZGE3Y2M1YjJkNjA2ZDA1ZGFlZDVhZDUxMjhjYzAzZTZjNjM1ODowLTEwMjQsMjA0OC00MDk2";

/// Base64 of `HASH`.
const PLAIN: &str =
    "NGY4YjQyYzIyZGQzNzI5YjUxOWJhNmY2OGQyZGE3Y2M1YjJkNjA2ZDA1ZGFlZDVhZDUxMjhjYzAzZTZjNjM1OA";

/// Base64 of a colon behind `HASH`.
const COLON: &str =
    "NGY4YjQyYzIyZGQzNzI5YjUxOWJhNmY2OGQyZGE3Y2M1YjJkNjA2ZDA1ZGFlZDVhZDUxMjhjYzAzZTZjNjM1ODo";

fn named() -> MerkleHash {
    MerkleHash::from_hex(H).unwrap_or(MerkleHash::default())
}

fn run(start: u64, end: u64) -> XorbRangeDescriptor {
    XorbRangeDescriptor {
        chunks: ChunkRange::new(0, 1),
        bytes: HttpRange::new(start, end),
    }
}

fn is_refused<T>(answer: &Result<T, ClientError>) -> bool {
    match answer {
        Err(ClientError::InvalidArguments) => true,
        _ => false,
    }
}

#[test]
fn links(rt: HostRuntime) -> Result<(), Fail> {
    let alloc = rt.alloc();
    let hash = named();
    let first = generate_fetch_url(alloc, &hash, &FileRange::new(0, 11), 5)?;
    let spelled = format!(in alloc; "{H}:0:11:5")?;
    assert_eq!(rt; first.as_str(), spelled.as_str());
    assert!(rt; parse_fetch_url(first.as_str()) == Ok((hash, FileRange::new(0, 11), 5)));
    let second = generate_v2_fetch_url(alloc, &hash, &[run(0, 10)], 5)?;
    assert_eq!(rt; second.as_str(), SECOND);
    for url in [first.as_str(), SECOND, NO_RANGES] {
        assert!(rt; parse_any_fetch_url(alloc, url) == Ok((hash, 5)), "{url}");
    }
    let zero =
        "MDAwMDAwMDAwMDAwMDAwMDAwMDAwMDAwMDAwMDAwMDAwMDAwMDAwMDAwMDAwMDAwMDAwMDAwMDAwMDAwMDAwMDowOjEwMC0yMDAw";
    let link = parse_v2_fetch_url(alloc, zero)?;
    assert!(rt; link.0 == MerkleHash::default() && link.1 == 0);
    assert!(rt; link.2.as_slice() == [HttpRange::new(100, 2000)].as_slice());
    let again = generate_v2_fetch_url(alloc, &link.0, &[run(100, 2000)], 0)?;
    assert_eq!(rt; again.as_str(), zero);
    let none = parse_v2_fetch_url(alloc, NO_RANGES)?;
    assert!(rt; none.0 == hash && none.1 == 5 && none.2.is_empty());
    let padded = format!(in alloc; "{NO_RANGES}=")?;
    for url in [
        "filename:123:456",
        "not-valid!!!",
        "",
        padded.as_str(),
        LATE,
        PLAIN,
    ] {
        assert!(rt; is_refused(&parse_fetch_url(url)), "{url}");
        assert!(rt; is_refused(&parse_v2_fetch_url(alloc, url)), "{url}");
        assert!(rt; is_refused(&parse_any_fetch_url(alloc, url)), "{url}");
    }
    Ok(())
}

#[test]
fn terms(rt: HostRuntime) -> Result<(), Fail> {
    let alloc = rt.alloc();
    let hash = named();
    let ranged = encode_term_with_ranges(alloc, &hash, &[run(0, 1023), run(2048, 4095)])?;
    assert_eq!(rt; ranged.as_str(), TERM);
    let ranges = [FileRange::new(0, 1024), FileRange::new(2048, 4096)];
    let whole = encode_term(alloc, &hash)?;
    assert_eq!(rt; whole.as_str(), PLAIN);
    let rows: [(&str, &[FileRange]); 3] = [(TERM, &ranges), (PLAIN, &[]), (COLON, &[])];
    for (text, ranges) in rows {
        let term = decode_term(alloc, text)?;
        assert!(rt; term.hash == hash, "{text}");
        assert!(rt; term.byte_ranges.as_slice() == ranges, "{text}");
    }
    for text in [H, "", "not-valid!!!", SECOND] {
        assert!(rt; is_refused(&decode_term(alloc, text)), "{text}");
    }
    Ok(())
}

#[test]
fn headers(rt: HostRuntime) -> Result<(), Fail> {
    let alloc = rt.alloc();
    assert_eq!(rt; parse_range_header(None), Ok(None));
    let normal = FileRangeVariant::Normal(FileRange::new(0, 1000));
    let taken = [
        ("bytes=0-999", normal),
        ("bytes=+0-0999", normal),
        ("bytes=5-", FileRangeVariant::OpenRHS(5)),
        ("bytes=-5", FileRangeVariant::Suffix(5)),
    ];
    for (value, asked) in taken {
        assert_eq!(rt;
            parse_range_header(Some(value.as_bytes())),
            Ok(Some(asked)),
            "{value}"
        );
    }
    let refused: [&[u8]; 10] = [
        b"bytes=0-18446744073709551615",
        b"bytes=-",
        b"bytes=5-4",
        b"bytes=0-1,3-4",
        b"Bytes=0-1",
        b"bytes=0-1\xff",
        b"bytes=0-\xc3\xa9",
        b"bytes=",
        b"",
        b"bytes=0-1 ",
    ];
    for value in refused {
        assert!(rt; parse_range_header(Some(value)).is_err());
    }
    let rows: [(&[HttpRange], &str); 3] = [
        (&[], "bytes="),
        (&[HttpRange::new(0, 10)], "bytes=0-10"),
        (
            &[HttpRange::new(0, 10), HttpRange::new(20, 30)],
            "bytes=0-10,20-30",
        ),
    ];
    for (ranges, value) in rows {
        let text = ranges_header(alloc, ranges)?;
        assert_eq!(rt; text.as_str(), value);
    }
    Ok(())
}
