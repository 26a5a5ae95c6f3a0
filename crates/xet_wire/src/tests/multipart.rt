//! Worked bodies of several parts. What damaged bodies are read as is what a plain reader in another language answers.
use crate::{MultipartPart, parse_multipart_byteranges, pick_boundary, write_multipart};
use bytes::Bytes;
use std::alloc::Global;
use std::test::Fail;
use xet_types::{ClientError, FileRange, HttpRange};

fn picked(alloc: Global, texts: &[&'static [u8]]) -> Result<String, Fail> {
    let mut parts = Vec::new(alloc);
    for text in texts {
        parts.push(Bytes::from_static(text))?;
    }
    Ok(pick_boundary(alloc, parts.as_slice())?)
}

#[test]
fn fixed_boundary(rt: HostRuntime) -> Result<(), Fail> {
    let rows: [&[&'static [u8]]; 3] = [
        &[],
        &[b"Hello World", b""],
        &[b"xet_multipart_boundar", b"y_00000000000000000000"],
    ];
    for texts in rows {
        let boundary = picked(rt.alloc(), texts)?;
        assert_eq!(rt; boundary.as_str(), "xet_multipart_boundary");
    }
    Ok(())
}

#[test]
fn numbered_boundary(rt: HostRuntime) -> Result<(), Fail> {
    let rows: [(&[&'static [u8]], &str); 6] = [
        (&[b"Hello World", b"abc\r\n--xet_multipart_boundary"], "0"),
        (
            &[
                b"xet_multipart_boundary_00000000000000000001",
                b"xet_multipart_boundary_00000000000000000000",
                b"xet_multipart_boundary_00000000000000000000",
            ],
            "2",
        ),
        (&[b"00xet_multipart_boundary_000000000000000000011"], "0"),
        (&[b"xet_multipart_boundary_+0000000000000000000"], "0"),
        (&[b"xet_multipart_boundary_99999999999999999999"], "0"),
        (
            &[
                b"xet_multipart_boundary_00000000000000000000 xet_multipart_boundary_00000000000000000002",
            ],
            "1",
        ),
    ];
    for (texts, digit) in rows {
        let boundary = picked(rt.alloc(), texts)?;
        let expected = format!(in rt.alloc(); "xet_multipart_boundary_0000000000000000000{digit}")?;
        assert_eq!(rt; boundary.as_str(), expected.as_str());
    }
    Ok(())
}

/// What the parts are: each one's range and length, with a space between.
fn told(alloc: Global, parts: &[MultipartPart]) -> Result<String, Fail> {
    let mut text = String::new(alloc);
    for part in parts {
        let between = if text.is_empty() { "" } else { " " };
        let (range, length) = (part.range, part.content.len());
        let word = format!(in alloc; "{between}{}-{}:{length}", range.start, range.end)?;
        text.push_str(word.as_str())?;
    }
    Ok(text)
}

/// What reading a body answers, `x` where it is refused.
fn answer(alloc: Global, content_type: &str, body: Bytes) -> Result<String, Fail> {
    match parse_multipart_byteranges(alloc, content_type, body) {
        Ok(parts) => told(alloc, parts.as_slice()),
        Err(ClientError::Other(_)) => Ok(String::from_str(alloc, "x")?),
        Err(error) => Err(Fail::from(error)),
    }
}

/// The bytes of the parts, joined.
fn joined(alloc: Global, parts: &[MultipartPart]) -> Result<Vec<u8>, Fail> {
    let mut bytes = Vec::new(alloc);
    for part in parts {
        bytes.extend_from_slice(part.content.as_slice())?;
    }
    Ok(bytes)
}

/// The body of two parts, one of which holds the fixed boundary behind the end of a line.
const WRITTEN: &[u8] =
    b"--xet_multipart_boundary_00000000000000000000\r\nContent-Type: application/octet-stream\r\nContent-Range: bytes 216-240/640\r\n\r\n\r\n--xet_multipart_boundary\x00\r\n--xet_multipart_boundary_00000000000000000000\r\nContent-Type: application/octet-stream\r\nContent-Range: bytes 0-2/640\r\n\r\nabc\r\n--xet_multipart_boundary_00000000000000000000--\r\n";

const WRITTEN_TYPE: &str =
    "multipart/byteranges; boundary=xet_multipart_boundary_00000000000000000000";

#[test]
fn body_written(rt: HostRuntime) -> Result<(), Fail> {
    let hostile = Bytes::from_static(b"\r\n--xet_multipart_boundary\x00");
    let abc = Bytes::from_static(b"abc");
    let parts = [
        (FileRange::new(216, 241), hostile),
        (FileRange::new(0, 3), abc),
    ];
    let (content_type, body) = write_multipart(rt.alloc(), &parts, 640)?;
    assert_eq!(rt; content_type.as_str(), WRITTEN_TYPE);
    assert!(rt; body.as_slice() == WRITTEN);
    Ok(())
}

#[test]
fn body_of_no_parts(rt: HostRuntime) -> Result<(), Fail> {
    let (content_type, body) = write_multipart(rt.alloc(), &[], 640)?;
    assert!(rt; body.as_slice() == b"--xet_multipart_boundary--\r\n".as_slice());
    let found = answer(rt.alloc(), content_type.as_str(), body)?;
    assert!(rt; found.is_empty());
    Ok(())
}

#[test]
fn bodies_read(rt: HostRuntime) -> Result<(), Fail> {
    let rows: [(&str, &'static [u8], &str, &'static [u8]); 7] = [
        (
            WRITTEN_TYPE,
            WRITTEN,
            "0-2:3 216-240:27",
            b"abc\r\n--xet_multipart_boundary\x00",
        ),
        (
            "multipart/byteranges; boundary=abc123",
            b"--abc123\r\nContent-Range: bytes 0-99/1000\r\n\r\nHello World\r\n--abc123--\r\n",
            "0-99:11",
            b"Hello World",
        ),
        (
            "multipart/byteranges; boundary=\"quoted\"",
            b"--quoted\r\nContent-Range: bytes 0-0/1\r\n\r\nA\r\n--quoted--\r\n",
            "0-0:1",
            b"A",
        ),
        (
            "x;boundary=a;boundary=b",
            b"--a\r\nContent-Range: bytes 1-2/3\r\n\r\nA\r\n--a--\r\n--b\r\nContent-Range: bytes 3-4/5\r\n\r\nB\r\n--b--\r\n",
            "1-2:1",
            b"A",
        ),
        (
            "boundary=q",
            b"--q\r\nContent-Range: bytes 100-199/200\r\n\r\nPart2Data\r\n--q\r\nContent-Range: bytes 0-49/200\r\n\r\nPart1Data\r\n--q--\r\n",
            "0-49:9 100-199:9",
            b"Part1DataPart2Data",
        ),
        (
            "boundary=q",
            b"--q\r\nContent-Range: bytes 5-6/9\r\n\r\nA\r\n--q\r\nContent-Range: bytes 5-5/9\r\n\r\nB\r\n--q--\r\n",
            "5-6:1 5-5:1",
            b"AB",
        ),
        // a part that holds its own delimiter, with something else than the end of a line behind it, ends the list
        (
            "boundary=q",
            b"--q\r\nContent-Range: bytes 0-5/9\r\n\r\nab\r\n--qcd\r\n--q--\r\n",
            "0-5:2",
            b"ab",
        ),
    ];
    for (content_type, body, expected, contents) in rows {
        let bytes = Bytes::from_static(body);
        let parts = parse_multipart_byteranges(rt.alloc(), content_type, bytes)?;
        let found = told(rt.alloc(), parts.as_slice())?;
        assert_eq!(rt; found.as_str(), expected, "{content_type}");
        let bytes = joined(rt.alloc(), parts.as_slice())?;
        assert!(rt; bytes.as_slice() == contents, "{content_type}");
    }
    Ok(())
}

#[test]
fn bodies_refused(rt: HostRuntime) -> Result<(), Fail> {
    let rows: [(&str, &'static [u8]); 6] = [
        ("boundary=q", b""),
        (
            "boundary=q",
            b"--q\r\nContent-Range: bytes 0-0/1\r\nA\r\n--q--\r\n",
        ),
        ("multipart/byteranges", FOREIGN),
        ("Boundary=\"q\"", FOREIGN),
        // a part that holds its own delimiter and the end of a line
        (
            "boundary=q",
            b"--q\r\nContent-Range: bytes 0-5/9\r\n\r\nab\r\n--q\r\ncd\r\n--q--\r\n",
        ),
        (
            "boundary=q",
            b"--q\r\nContent-Range: bytes 0-18446744073709551616/9\r\n\r\nab\r\n--q--\r\n",
        ),
    ];
    for (content_type, body) in rows {
        let found = answer(rt.alloc(), content_type, Bytes::from_static(body))?;
        assert_eq!(rt; found.as_str(), "x", "{content_type}");
    }
    Ok(())
}

/// A body whose first byte isn't the delimiter's, with two parts in other spellings.
const FOREIGN: &[u8] =
    b"p--q\r\nContent-Range: bytes 7-8/9\r\n\r\nxy\r\n--q\r\nA: b\r\ncontent-RANGE:BYTES 0-0/*\r\n\r\nz\r\n--q--\r\n";

const FOREIGN_TYPE: &str = "a; boundary=\"q\"";

/// From which place on an answer is the same, and that answer.
type Row = (usize, &'static str);

/// The answer at a place: that of the last row that begins there or before.
fn expected_at(rows: &[Row], place: usize) -> &'static str {
    let mut expected = "";
    for (from, answer) in rows {
        if *from <= place {
            expected = *answer;
        }
    }
    expected
}

/// What the prefixes of the body are read as, by length.
const PREFIXES: [Row; 19] = [
    (0, "x"),
    (4, ""),
    (6, "x"),
    (36, "7-8:0"),
    (37, "7-8:1"),
    (38, "7-8:2"),
    (39, "7-8:3"),
    (40, "7-8:4"),
    (41, "7-8:5"),
    (42, "7-8:6"),
    (43, "7-8:2"),
    (45, "x"),
    (80, "0-0:0 7-8:2"),
    (81, "0-0:1 7-8:2"),
    (82, "0-0:2 7-8:2"),
    (83, "0-0:3 7-8:2"),
    (84, "0-0:4 7-8:2"),
    (85, "0-0:5 7-8:2"),
    (86, "0-0:1 7-8:2"),
];

/// What the body is read as with the lowest bit of one byte changed, by its place.
const LOWEST_BIT: [Row; 24] = [
    (0, "0-0:1 7-8:2"),
    (1, "0-0:1"),
    (4, ""),
    (6, "x"),
    (27, "0-0:1 6-8:2"),
    (28, "x"),
    (29, "0-0:1 7-9:2"),
    (30, "x"),
    (31, "0-0:1 7-8:2"),
    (32, "x"),
    (36, "0-0:1 7-8:2"),
    (38, "7-8:45"),
    (43, "7-8:2"),
    (45, "0-0:1 7-8:2"),
    (49, "x"),
    (71, "1-0:1 7-8:2"),
    (72, "x"),
    (73, "0-1:1 7-8:2"),
    (74, "x"),
    (75, "0-0:1 7-8:2"),
    (76, "x"),
    (80, "0-0:1 7-8:2"),
    (81, "0-0:10 7-8:2"),
    (86, "0-0:1 7-8:2"),
];

/// What the body is read as with the bit of value 32, which tells the cases of letters apart, of one byte changed, by its place.
const CASE_BIT: [Row; 27] = [
    (0, "0-0:1 7-8:2"),
    (1, "0-0:1"),
    (4, ""),
    (6, "0-0:1 7-8:2"),
    (13, "x"),
    (14, "0-0:1 7-8:2"),
    (19, "x"),
    (21, "0-0:1 7-8:2"),
    (26, "x"),
    (31, "0-0:1 7-8:2"),
    (32, "x"),
    (36, "0-0:1 7-8:2"),
    (38, "7-8:45"),
    (43, "7-8:2"),
    (45, "0-0:1 7-8:2"),
    (49, "x"),
    (51, "0-0:1 7-8:2"),
    (58, "x"),
    (59, "0-0:1 7-8:2"),
    (64, "x"),
    (65, "0-0:1 7-8:2"),
    (70, "x"),
    (75, "0-0:1 7-8:2"),
    (76, "x"),
    (80, "0-0:1 7-8:2"),
    (81, "0-0:10 7-8:2"),
    (86, "0-0:1 7-8:2"),
];

/// What the body is read as with the highest bit of one byte changed, by its place.
const HIGHEST_BIT: [Row; 11] = [
    (0, "0-0:1 7-8:2"),
    (1, "0-0:1"),
    (4, ""),
    (6, "x"),
    (36, "0-0:1 7-8:2"),
    (38, "7-8:45"),
    (43, "7-8:2"),
    (45, "x"),
    (80, "0-0:1 7-8:2"),
    (81, "0-0:10 7-8:2"),
    (86, "0-0:1 7-8:2"),
];

#[test]
fn prefixes_read(rt: HostRuntime) -> Result<(), Fail> {
    for length in 0..=FOREIGN.len() {
        let mut body = Bytes::from_static(FOREIGN);
        body.truncate(length);
        let found = answer(rt.alloc(), FOREIGN_TYPE, body)?;
        assert_eq!(rt; found.as_str(), expected_at(&PREFIXES, length), "{length}");
    }
    Ok(())
}

/// The foreign body with one byte changed in some bits.
fn changed(alloc: Global, place: usize, bits: u8) -> Result<Bytes, Fail> {
    let mut body = Vec::from_slice(alloc, FOREIGN)?;
    if let Some(byte) = body.get_mut(place) {
        *byte ^= bits;
    }
    Ok(Bytes::from_vec(body)?)
}

#[test]
fn changed_bytes_read(rt: HostRuntime) -> Result<(), Fail> {
    let tables: [(u8, &[Row]); 3] = [(1, &LOWEST_BIT), (32, &CASE_BIT), (128, &HIGHEST_BIT)];
    for (bits, rows) in tables {
        for place in 0..FOREIGN.len() {
            let found = answer(rt.alloc(), FOREIGN_TYPE, changed(rt.alloc(), place, bits)?)?;
            assert_eq!(rt; found.as_str(), expected_at(rows, place), "{bits} {place}");
        }
    }
    Ok(())
}
