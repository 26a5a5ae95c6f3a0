use super::*;
use std::alloc::Global;
use std::cmp::Ordering;
use std::collections::BTreeMap;
use std::fmt::Display;
use std::process::Abort;
use std::str::FromStr;
use std::test::Fail;

const ABC: &str = "ba7816bf8f01cfea414140de5dae2223b00361a396177a9cb410ff61f20015ad";

fn shows<T: Display>(rt: &impl Abort, alloc: Global, value: &T, text: &str) -> Result<(), Fail> {
    let shown = value.to_string(alloc)?;
    assert_eq!(rt; shown.as_str(), text);
    Ok(())
}

#[test]
fn hashes_known_bytes(rt: HostRuntime) -> Result<(), Fail> {
    let alloc = rt.alloc();
    let abc = compute_data_hash(b"abc");
    let empty = compute_data_hash(b"");
    let mut salt = [0u8; 32];
    for (i, byte) in salt.iter_mut().enumerate() {
        *byte = u8::try_from(i)?;
    }
    let sized = [(abc, 3), (empty, 0x0102_0304_0506_0708)];
    let known = [
        (abc, ABC),
        (
            xorb_hash(&[abc]),
            "4f8b42c22dd3729b519ba6f68d2da7cc5b2d606d05daed5ad5128cc03e6c6358",
        ),
        (
            file_hash_with_salt(&sized, &salt),
            "a65c1cd5a36db84d605e1d4ab0cf13e10e1769d28324cb1aa74883c65f5dd929",
        ),
        (
            file_hash_with_salt(&[], &[0; 32]),
            "66687aadf862bd776c8fc18b8e9f8e20089714856ee233b3902a591d0d5f2925",
        ),
    ];
    for (hash, digits) in known {
        let text = hash.hex(alloc)?;
        assert_eq!(rt; text.as_str(), digits);
        shows(&rt, alloc, &hash, digits)?;
    }
    Ok(())
}

#[test]
fn reads_digits_of_either_case(rt: HostRuntime) {
    let abc = compute_data_hash(b"abc");
    let refused = [
        "",
        "ba7816bf8f01cfea414140de5dae2223b00361a396177a9cb410ff61f20015a",
        "ba7816bf8f01cfea414140de5dae2223b00361a396177a9cb410ff61f20015ag",
        "ba7816bf8f01cfea414140de5dae2223b00361a396177a9cb410ff61f20015ad0",
    ];
    assert_eq!(rt; MerkleHash::from_hex(ABC), Ok(abc));
    assert_eq!(rt;
        MerkleHash::from_hex("BA7816BF8F01CFEA414140DE5DAE2223B00361A396177A9CB410FF61F20015AD"),
        Ok(abc)
    );
    assert_eq!(rt; MerkleHash::from_hex_bytes(ABC.as_bytes()), Ok(abc));
    for text in refused {
        assert_eq!(rt; MerkleHash::from_hex(text), Err(NotHex), "{text}");
    }
    assert_eq!(rt; MerkleHash::default().as_bytes(), &[0; 32]);
}

#[test]
fn cuts_ranges(rt: HostRuntime) {
    let full = FileRange::full();
    let cases = [
        (
            full,
            824_820,
            Range::new(0, 824_820),
            Some(Range::new(824_820, u64::MAX)),
        ),
        (
            Range::new(50, 100),
            40,
            Range::new(50, 90),
            Some(Range::new(90, 100)),
        ),
        (Range::new(90, 100), 40, Range::new(90, 100), None),
        (full, u64::MAX, full, None),
    ];
    for (range, size, segment, rest) in cases {
        assert_eq!(rt; range.take_segment(size), (segment, rest));
    }
}

#[test]
fn turns_ranges(rt: HostRuntime) {
    let cases = [((0, 10), (0, 9)), ((0, 0), (0, 0)), ((3, 4), (3, 3))];
    for (file, http) in cases {
        assert_eq!(rt;
            HttpRange::from(FileRange::new(file.0, file.1)),
            Range::new(http.0, http.1)
        );
    }
    let cases = [((0, 10), (0, 11)), ((0, u64::MAX), (0, u64::MAX))];
    for (http, file) in cases {
        assert_eq!(rt;
            FileRange::from(HttpRange::new(http.0, http.1)),
            Range::new(file.0, file.1)
        );
    }
    assert_eq!(rt; FileRange::new(3, 4).through_request(), Range::new(3, 4));
}

#[test]
fn reads_ranges(rt: HostRuntime) {
    let cases = [
        ("+1-007", Ok(Range::new(1, 7))),
        ("12", Err(RangeParseError::InvalidFormat)),
        ("", Err(RangeParseError::InvalidFormat)),
        ("-5", Err(RangeParseError::ParseError)),
        ("5-", Err(RangeParseError::ParseError)),
        ("1-2-3", Err(RangeParseError::ParseError)),
        ("1- 2", Err(RangeParseError::ParseError)),
        ("++1-2", Err(RangeParseError::ParseError)),
        ("0-4294967296", Err(RangeParseError::ParseError)),
        ("7-4294967295", Ok(Range::new(7, u32::MAX))),
    ];
    for (text, answer) in cases {
        assert_eq!(rt; ChunkRange::from_str(text), answer, "{text}");
        assert_eq!(rt; ChunkRange::try_from(text), answer, "{text}");
    }
}

#[test]
fn shows_ranges(rt: HostRuntime) -> Result<(), Fail> {
    let alloc = rt.alloc();
    let range = ChunkRange::new(1, 7);
    shows(&rt, alloc, &range, "1-7")?;
    let debug = format!(in alloc; "{range:?}")?;
    assert_eq!(rt; debug.as_str(), "Range { start: 1, end: 7 }");
    let header = HttpRange::new(0, 623).range_header(alloc)?;
    assert_eq!(rt; header.as_str(), "bytes=0-623");
    Ok(())
}

/// Rows of a lower and a higher range: by the start, then by the end.
#[test]
fn orders_ranges(rt: HostRuntime) {
    let rows = [((1, 2), (1, 3)), ((1, 9), (2, 0))];
    for (low, high) in rows {
        let low = ChunkRange::new(low.0, low.1);
        let high = ChunkRange::new(high.0, high.1);
        assert_eq!(rt; low.cmp(&high), Ordering::Less);
    }
    assert_eq!(rt; ChunkRange::default(), ChunkRange::new(0, 0));
}

/// Two digests, of which the first has the lower first byte and the higher last byte, and the hash of zeros below both.
#[test]
fn orders_hashes(rt: HostRuntime) {
    let zero = MerkleHash::default();
    let abc = compute_data_hash(b"abc");
    let empty = compute_data_hash(b"");
    assert_eq!(rt; abc.cmp(&empty), Ordering::Less);
    let (one, other) = (HexMerkleHash(abc), HexMerkleHash(zero));
    assert_eq!(rt; one.cmp(&other), Ordering::Greater);
    assert_eq!(rt; HexMerkleHash::default(), HexMerkleHash::from(&zero));
}

#[test]
fn reads_keys(rt: HostRuntime) -> Result<(), Fail> {
    let alloc = rt.alloc();
    let text = format!(in alloc; "a/b/{ABC}")?;
    let key = Key::from_str(alloc, text.as_str())?;
    assert_eq!(rt; key.prefix.as_str(), "a/b");
    shows(&rt, alloc, &key.hash, ABC)?;
    shows(&rt, alloc, &key, text.as_str())?;
    Ok(())
}

#[test]
fn refuses_keys(rt: HostRuntime) {
    for text in [ABC, "", "a/", "a/b", "default/ba78/"] {
        match Key::from_str(rt.alloc(), text) {
            Err(ClientError::InvalidKey(refused)) => assert_eq!(rt; refused.as_str(), text),
            _ => panic!(rt; "{text} is no key"),
        }
    }
}

#[test]
fn turns_keys(rt: HostRuntime) -> Result<(), Fail> {
    let alloc = rt.alloc();
    let hash = MerkleHash::default();
    let prefix = String::from_str(alloc, "a")?;
    let key = Key { prefix, hash };
    let hex = HexKey::from(key.clone(alloc)?);
    let again = Key::from(hex.clone(alloc)?);
    assert!(rt; again == key && again <= key);
    Ok(())
}

#[test]
fn agrees_on_texts(rt: HostRuntime) {
    let cases = [
        (CAS_ENDPOINT, "http://localhost:8080"),
        (PREFIX_DEFAULT, "default"),
        (SESSION_ID_HEADER, "X-Xet-Session-Id"),
        (REQUEST_ID_HEADER, "X-Request-Id"),
    ];
    for (text, known) in cases {
        assert_eq!(rt; text, known);
    }
}

#[test]
fn shows_faults(rt: HostRuntime) -> Result<(), Fail> {
    let cases = [
        (FormatFault::Xorb, "Format error: xorb"),
        (FormatFault::Shard, "Format error: shard"),
        (FormatFault::Segment, "Format error: segment"),
        (FormatFault::Table, "Format error: table"),
        (FormatFault::Body, "Format error: body"),
    ];
    for (fault, text) in cases {
        shows(&rt, rt.alloc(), &ClientError::FormatError(fault), text)?;
    }
    Ok(())
}

#[test]
fn shows_errors(rt: HostRuntime) -> Result<(), Fail> {
    let alloc = rt.alloc();
    let zero = MerkleHash::default();
    let missing = "0000000000000000000000000000000000000000000000000000000000000000";
    let file = format!(in alloc; "File not found for hash: {missing}")?;
    let xorb = format!(in alloc; "CAS object not found for hash: {missing}")?;
    let cases = vec![in alloc;
        (ClientError::FileNotFound(zero), file.as_str()),
        (ClientError::XORBNotFound(zero), xorb.as_str()),
        (ClientError::InvalidRange, "Invalid range"),
        (ClientError::InvalidArguments, "Invalid arguments"),
        (
            ClientError::PresignedUrlExpirationError,
            "Presigned URL expired"
        ),
        (ClientError::IOError, "IO error"),
        (ClientError::HttpStatus(404), "HTTP status 404"),
        (ClientError::OutOfMemory, "out of memory"),
    ]?;
    for (error, text) in &cases {
        shows(&rt, alloc, error, *text)?;
    }
    Ok(())
}

#[test]
fn shows_named_errors(rt: HostRuntime) -> Result<(), Fail> {
    let alloc = rt.alloc();
    let text = String::from_str(alloc, "a")?;
    shows(
        &rt,
        alloc,
        &ClientError::InvalidKey(text.clone()?),
        "Invalid key: a",
    )?;
    shows(
        &rt,
        alloc,
        &ClientError::CacheError(text.clone()?),
        "Cache error: a",
    )?;
    shows(&rt, alloc, &ClientError::Other(text), "a")?;
    Ok(())
}

#[test]
fn shows_other_errors(rt: HostRuntime) -> Result<(), Fail> {
    let alloc = rt.alloc();
    shows(&rt, alloc, &OutOfMemory, "out of memory")?;
    let format = "Invalid format, expect [start]-[end]";
    shows(&rt, alloc, &RangeParseError::InvalidFormat, format)?;
    shows(&rt, alloc, &RangeParseError::ParseError, "Incorrect number")?;
    Ok(())
}

#[test]
fn keeps_lists(rt: HostRuntime) -> Result<(), Fail> {
    let alloc = rt.alloc();
    let mut items = Items::from_vec(vec![in alloc; 1u32, 2]?);
    items.push(3)?;
    assert_eq!(rt; items.as_slice(), [1, 2, 3].as_slice());
    assert_eq!(rt; items.into_vec().len(), 3);
    let bytes = Octets::from_vec(Vec::from_slice(alloc, b"abc")?)?;
    assert_eq!(rt; bytes.clone()?.as_slice(), b"abc".as_slice());
    Ok(())
}

/// What a source gives, 2 bytes at a time, with a `!` for each failed call.
fn drained<S: Source>(alloc: Global, source: &mut S) -> Result<Vec<u8>, OutOfMemory> {
    let mut out = Vec::new(alloc);
    for _ in 0..8 {
        let mut room = [0u8; 2];
        match source.read(&mut room) {
            Ok(count) => out.extend_from_slice(&room[..count])?,
            Err(Failed) => out.push(b'!')?,
        }
    }
    Ok(out)
}

#[test]
fn reads_through_failures(rt: HostRuntime) -> Result<(), Fail> {
    let alloc = rt.alloc();
    let mut memory = MemorySource::new(alloc, b"abcde", &[1, 2])?;
    let mut plain = StdSource::new(b"abcde".as_slice());
    assert_eq!(rt;
        drained(alloc, &mut memory)?.as_slice(),
        b"ab!!cde".as_slice()
    );
    assert_eq!(rt; drained(alloc, &mut plain)?.as_slice(), b"abcde".as_slice());
    Ok(())
}

#[test]
fn writes_through_failures(rt: HostRuntime) -> Result<(), Fail> {
    let alloc = rt.alloc();
    let mut memory = MemorySink::new(alloc, &[0])?;
    let mut plain = StdSink::new(Vec::<u8>::new(alloc));
    assert_eq!(rt; memory.write(b"ab"), Err(Failed));
    assert_eq!(rt; memory.write(b"cd"), Ok(2));
    assert_eq!(rt; memory.taken(), b"cd".as_slice());
    assert_eq!(rt; (plain.write(b""), plain.write(b"ab")), (Ok(0), Ok(2)));
    Ok(())
}

/// A plan of version 1 with two entries of one xorb.
fn first_version(alloc: Global, hash: HexMerkleHash) -> Result<QueryReconstructionResponse, Fail> {
    let mut infos = Vec::new(alloc);
    for (start, end, url) in [(0, 2, "first"), (3, 4, "second")] {
        infos.push(XorbReconstructionFetchInfo {
            range: ChunkRange::new(start, end),
            url: String::from_str(alloc, url)?,
            url_range: HttpRange::new(u64::from(start) * 10, u64::from(end) * 10 - 1),
        })?;
    }
    let mut fetch_info = BTreeMap::new(alloc);
    fetch_info.insert(hash, infos)?;
    Ok(QueryReconstructionResponse {
        offset_into_first_range: 5,
        terms: Vec::new(alloc),
        fetch_info,
    })
}

#[test]
fn plans_of_both_versions(rt: HostRuntime) -> Result<(), Fail> {
    let alloc = rt.alloc();
    let hash = HexMerkleHash(compute_data_hash(b"abc"));
    let v1 = first_version(alloc, hash)?.clone(alloc)?;
    let v2 = QueryReconstructionResponseV2::from_v1(alloc, v1)?.clone(alloc)?;
    assert_eq!(rt;
        (v2.offset_into_first_range, v2.terms.len(), v2.xorbs.len()),
        (5, 0, 1)
    );
    let fetches = v2.xorbs.get(&hash).ok_or("links")?;
    let known = [("first", 0, 2, 0, 19), ("second", 3, 4, 30, 39)];
    assert_eq!(rt; fetches.len(), known.len());
    for (fetch, (url, start, end, from, to)) in fetches.iter().zip(known) {
        let range = XorbRangeDescriptor {
            chunks: ChunkRange::new(start, end),
            bytes: HttpRange::new(from, to),
        };
        assert_eq!(rt; fetch.url.as_str(), url);
        assert_eq!(rt; fetch.ranges.as_slice(), [range].as_slice());
    }
    Ok(())
}
