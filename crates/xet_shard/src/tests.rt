//! Worked shards. The expected hashes are SHA-256 by another program over bytes that it laid out itself.
use crate::{
    ChunkListing, FileListing, Segment, Shard, XorbListing, canonical, canonical_bytes,
    eligible_among_xorbs, eligible_chunks, read_shard, shard_hash, write_shard,
    xorb_subset_with_expiry,
};
use std::alloc::{AllocError, Global};
use std::test::Fail;
use xet_types::{ClientError, FormatFault, MerkleHash, OutOfMemory, compute_data_hash};

const MARK: &[u8] = b"XETSHRD1";

const NO_EXPIRY: &[u8] = &[0; 8];

const NONE: &[u8] = &[0, 0, 0, 0];

const ONE: &[u8] = &[1, 0, 0, 0];

const TWO: &[u8] = &[2, 0, 0, 0];

const ALL: &[u8] = &[0xff, 0xff, 0xff, 0xff];

const FILE: &[u8] = &[0xaa; 32];

/// The name of the xorb of the chunk `abc`.
const XORB: &[u8] =
    b"\x4f\x8b\x42\xc2\x2d\xd3\x72\x9b\x51\x9b\xa6\xf6\x8d\x2d\xa7\xcc\x5b\x2d\x60\x6d\x05\xda\xed\x5a\xd5\x12\x8c\xc0\x3e\x6c\x63\x58";

/// Flags 0, chunks 0 to 1, 3 bytes.
const SEGMENT: &[u8] = b"\0\0\0\0\0\0\0\0\x01\0\0\0\x03\0\0\0";

fn joined(alloc: Global, parts: &[&[u8]]) -> Result<Vec<u8>, AllocError> {
    let mut text = Vec::new(alloc);
    for part in parts {
        text.extend_from_slice(part)?;
    }
    Ok(text)
}

const EXAMPLE: [&[u8]; 8] = [MARK, NO_EXPIRY, ONE, FILE, ONE, XORB, SEGMENT, NONE];

const EXPIRING: [&[u8]; 8] = [
    MARK,
    b"\x07\0\0\0\0\0\0\x01",
    ONE,
    FILE,
    ONE,
    XORB,
    SEGMENT,
    NONE,
];

#[test]
fn one_file(rt: HostRuntime) -> Result<(), Fail> {
    let alloc = rt.alloc();
    let text = joined(alloc, &EXAMPLE)?;
    assert_eq!(rt; text.len(), 108);
    let shard = read_shard(alloc, &text)?;
    let written = write_shard(alloc, &shard)?;
    assert!(rt; written.as_slice() == text.as_slice());
    let expiring = read_shard(alloc, &joined(alloc, &EXPIRING)?)?;
    assert_eq!(rt; expiring.expiry, 0x0100_0000_0000_0007);
    let name = shard_hash(alloc, &expiring)?.hex(alloc)?;
    assert_eq!(rt;
        name.as_str(),
        "a905311b7c087392704783d93d717545e96ba56d29b179bf166903b7f08d8671"
    );
    Ok(())
}

/// Parts of shards that are read, and how many files and xorbs they list.
const WHOLE: [(&[&[u8]], usize, usize); 6] = [
    (&EXAMPLE, 1, 0),
    // nothing listed
    (&[MARK, NO_EXPIRY, NONE, NONE], 0, 0),
    // files without segments, and one file twice
    (&[MARK, NO_EXPIRY, TWO, FILE, NONE, XORB, NONE, NONE], 2, 0),
    (&[MARK, NO_EXPIRY, TWO, FILE, NONE, FILE, NONE, NONE], 2, 0),
    // a xorb without chunks
    (&[MARK, NO_EXPIRY, NONE, ONE, XORB, NONE, NONE], 0, 1),
    // the greatest numbers
    (
        &[
            MARK,
            &[0xff; 8],
            ONE,
            &[0xff; 32],
            ONE,
            &[0xff; 48],
            ONE,
            &[0xff; 36],
            ONE,
            &[0xff; 48],
        ],
        1,
        1,
    ),
];

#[test]
fn whole_shards(rt: HostRuntime) -> Result<(), Fail> {
    let alloc = rt.alloc();
    for (parts, files, xorbs) in WHOLE.iter() {
        let text = joined(alloc, parts)?;
        let shard = read_shard(alloc, &text)?;
        assert_eq!(rt; shard.files().len(), *files);
        assert_eq!(rt; shard.xorbs().len(), *xorbs);
        let written = write_shard(alloc, &shard)?;
        assert!(rt; written.as_slice() == text.as_slice());
    }
    Ok(())
}

const OTHERS: [&[&[u8]]; 9] = [
    // nothing, and a part
    &[],
    &[MARK, NO_EXPIRY, ONE, FILE, ONE, XORB, SEGMENT, b"\0\0\0"],
    // one byte more
    &[MARK, NO_EXPIRY, ONE, FILE, ONE, XORB, SEGMENT, NONE, b"\0"],
    // another mark
    &[b"XETSHRD2", NO_EXPIRY, ONE, FILE, ONE, XORB, SEGMENT, NONE],
    // more files, segments, xorbs and chunks claimed than there are
    &[MARK, NO_EXPIRY, ALL],
    &[MARK, NO_EXPIRY, ALL, FILE, NONE, NONE],
    &[MARK, NO_EXPIRY, ONE, FILE, ALL, NONE],
    &[MARK, NO_EXPIRY, ONE, FILE, NONE, ALL],
    &[MARK, NO_EXPIRY, NONE, ONE, XORB, NONE, ALL],
];

fn is_refused(alloc: Global, text: &[u8]) -> bool {
    match read_shard(alloc, text) {
        Err(ClientError::FormatError(FormatFault::Shard)) => true,
        _ => false,
    }
}

#[test]
fn other_bytes(rt: HostRuntime) -> Result<(), Fail> {
    for parts in OTHERS.iter() {
        let text = joined(rt.alloc(), parts)?;
        assert!(rt; is_refused(rt.alloc(), &text), "{text:?}");
    }
    Ok(())
}

fn hash(byte: u8) -> MerkleHash {
    MerkleHash::from_bytes([byte; 32])
}

fn segment(xorb: u8, start: u32, end: u32, len: u32) -> Segment {
    Segment {
        xorb_hash: hash(xorb),
        xorb_flags: 0x0102_0304,
        chunk_index_start: start,
        chunk_index_end: end,
        unpacked_segment_bytes: len,
    }
}

fn chunk(byte: u8, start: u32, len: u32, flags: u32, spare: u32) -> ChunkListing {
    ChunkListing {
        chunk_hash: hash(byte),
        chunk_byte_range_start: start,
        unpacked_segment_bytes: len,
        flags,
        spare,
    }
}

/// Two listings of one file and two of one xorb, out of order.
fn several(alloc: Global) -> Result<Shard, OutOfMemory> {
    let first = FileListing {
        file_hash: hash(0x30),
        segments: vec![in alloc; segment(1, 0, 1, 3), segment(2, 5, 9, 1_000_000)]?,
    };
    let empty = FileListing {
        file_hash: hash(0x10),
        segments: Vec::new(alloc),
    };
    let again = FileListing {
        file_hash: hash(0x30),
        segments: vec![in alloc; segment(3, 0, 2, u32::MAX)]?,
    };
    let earlier = XorbListing {
        xorb_hash: hash(0x22),
        num_bytes: 5,
        chunks: vec![in alloc; chunk(0x46, 1, 2, 3, 4)]?,
    };
    let none = XorbListing {
        xorb_hash: hash(0x11),
        num_bytes: 0,
        chunks: Vec::new(alloc),
    };
    let later = XorbListing {
        xorb_hash: hash(0x22),
        num_bytes: 1_234_567,
        chunks: vec![in alloc;
            chunk(0x44, 0, 1000, 7, 0xdead_beef),
            chunk(0x45, 1000, 1_233_567, 0, 0),
        ]?,
    };
    Ok(Shard {
        expiry: 0x0102_0304_0506_0708,
        files: vec![in alloc; first, empty, again]?,
        xorbs: vec![in alloc; earlier, none, later]?,
    })
}

fn digits_of(alloc: Global, content: &[u8]) -> Result<String, OutOfMemory> {
    compute_data_hash(content).hex(alloc)
}

#[test]
fn several_files_and_xorbs(rt: HostRuntime) -> Result<(), Fail> {
    let alloc = rt.alloc();
    let shard = several(alloc)?;
    let text = write_shard(alloc, &shard)?;
    let digits = digits_of(alloc, &text)?;
    assert_eq!(rt;
        digits.as_str(),
        "cdba9e376a0140a6dcefc6079d715b6c9313deff06fc27cf472dbc9fe97ba418"
    );
    let read = read_shard(alloc, &text)?;
    let again = write_shard(alloc, &read)?;
    assert!(rt; again.as_slice() == text.as_slice());
    let form = write_shard(alloc, &canonical(alloc, &read)?)?;
    let digits = digits_of(alloc, &form)?;
    assert_eq!(rt;
        digits.as_str(),
        "6f6f3b6446519c5cbca73ca0cf7252cd0d0c97260006484372a232793b7aa9b1"
    );
    let bytes = canonical_bytes(alloc, &shard)?;
    assert!(rt; bytes.as_slice() == form.as_slice());
    let twice = canonical_bytes(alloc, &read_shard(alloc, &form)?)?;
    assert!(rt; twice.as_slice() == form.as_slice());
    let name = shard_hash(alloc, &shard)?.hex(alloc)?;
    assert_eq!(rt; name.as_str(), digits.as_str());
    let subset = xorb_subset_with_expiry(alloc, &shard, 12)?;
    assert_eq!(rt; subset.len(), 288);
    let digits = digits_of(alloc, &subset)?;
    assert_eq!(rt;
        digits.as_str(),
        "981ce2eb28730a1badcdd9a7e5440b8492694247fe66fd4b31a9fc4b6a2438ad"
    );
    Ok(())
}

/// Two files, of two segments and of none, and two xorbs, of no chunk and of two.
fn pairs(alloc: Global) -> Result<Shard, OutOfMemory> {
    let file = FileListing {
        file_hash: hash(0x30),
        segments: vec![in alloc; segment(1, 0, 1, 3), segment(2, 5, 9, 1_000_000)]?,
    };
    let empty = FileListing {
        file_hash: hash(0x10),
        segments: Vec::new(alloc),
    };
    let none = XorbListing {
        xorb_hash: hash(0x11),
        num_bytes: 0,
        chunks: Vec::new(alloc),
    };
    let xorb = XorbListing {
        xorb_hash: hash(0x22),
        num_bytes: 1_234_567,
        chunks: vec![in alloc;
            chunk(0x44, 0, 1000, 7, 0xdead_beef),
            chunk(0x45, 1000, 1_233_567, 0, 0),
        ]?,
    };
    Ok(Shard {
        expiry: 9,
        files: vec![in alloc; file, empty]?,
        xorbs: vec![in alloc; none, xorb]?,
    })
}

/// Whether a byte of the text of `pairs` is one of the mark or of a count.
fn is_fixed(place: usize) -> bool {
    match place {
        0..=7 | 16..=19 | 52..=55 | 184..=191 | 228..=231 | 268..=271 => true,
        _ => false,
    }
}

/// Whether the bytes are read, and then written as they are; or else refused for their form.
fn is_read_back(alloc: Global, text: &[u8]) -> Result<bool, ClientError> {
    match read_shard(alloc, text) {
        Ok(shard) => {
            let written = write_shard(alloc, &shard)?;
            Ok(written.as_slice() == text)
        }
        Err(ClientError::FormatError(FormatFault::Shard)) => Ok(false),
        Err(error) => Err(error),
    }
}

#[test]
fn cut_and_changed(rt: HostRuntime) -> Result<(), Fail> {
    let alloc = rt.alloc();
    let text = write_shard(alloc, &pairs(alloc)?)?;
    assert_eq!(rt; text.len(), 368);
    for place in 0..text.len() {
        assert!(rt;
            is_refused(alloc, &text[..place]),
            "the first {place} bytes"
        );
        for change in [1u8, 2, 4, 8, 16, 32, 64, 128] {
            let mut changed = Vec::from_slice(alloc, &text)?;
            if let Some(byte) = changed.get_mut(place) {
                *byte ^= change;
            }
            // a xorb of two chunks, and one of none behind it, in place of one of none and one of two
            let is_another = place == 228 && change == 2;
            let is_read = is_read_back(alloc, &changed)?;
            assert!(rt;
                is_read == (is_another || !is_fixed(place)),
                "byte {place}, bits {change}"
            );
        }
    }
    Ok(())
}

/// A chunk by a byte that fills its hash, and the last eight bytes of it.
type Named = (u8, [u8; 8]);

const PLAIN: [u8; 8] = [1; 8];

/// 0, 512, 1023, 1024 and 2^56, the low byte first; and 1, which is 2^56 with the high byte first.
const ZERO: [u8; 8] = [0; 8];

const HALF: [u8; 8] = [0, 2, 0, 0, 0, 0, 0, 0];

const LESS: [u8; 8] = [0xff, 3, 0, 0, 0, 0, 0, 0];

const LOW: [u8; 8] = [0, 4, 0, 0, 0, 0, 0, 0];

const HIGH: [u8; 8] = [0, 0, 0, 0, 0, 0, 0, 1];

const SINGLE: [u8; 8] = [1, 0, 0, 0, 0, 0, 0, 0];

/// Xorbs: a byte that fills the hash, the count of the chunks, and these.
const XORBS: [(u8, u8, &[Named]); 6] = [
    (
        0x30,
        6,
        &[
            (1, PLAIN),
            (2, LOW),
            (3, HALF),
            (1, PLAIN),
            (4, SINGLE),
            (0, PLAIN),
        ],
    ),
    (0x20, 1, &[(9, PLAIN)]),
    (0x10, 0, &[]),
    (0x25, 3, &[(5, ZERO), (5, ZERO), (6, HIGH)]),
    (
        0x20,
        5,
        &[(7, PLAIN), (2, LOW), (7, PLAIN), (8, LESS), (3, ZERO)],
    ),
    (0x28, 2, &[(2, LOW), (10, PLAIN)]),
];

/// Those of the canonical form, and those of the xorbs as they stand.
const ELIGIBLE: [Named; 6] = [
    (7, PLAIN),
    (2, LOW),
    (3, ZERO),
    (5, ZERO),
    (6, HIGH),
    (1, PLAIN),
];

const AS_THEY_STAND: [Named; 7] = [
    (1, PLAIN),
    (2, LOW),
    (9, PLAIN),
    (5, ZERO),
    (6, HIGH),
    (7, PLAIN),
    (3, ZERO),
];

fn named(chunk: &Named) -> MerkleHash {
    let (byte, last) = *chunk;
    let mut bytes = [byte; 32];
    bytes[24..].copy_from_slice(&last);
    MerkleHash::from_bytes(bytes)
}

fn xorbs_text(alloc: Global) -> Result<Vec<u8>, AllocError> {
    let mut text = joined(alloc, &[MARK, NO_EXPIRY, NONE, &[6, 0, 0, 0]])?;
    for (xorb, count, chunks) in XORBS.iter() {
        text.extend_from_slice(&[*xorb; 32])?;
        text.extend_from_slice(&[0, 0, 0, 0, *count, 0, 0, 0])?;
        for chunk in chunks.iter() {
            text.extend_from_slice(named(chunk).as_slice())?;
            text.extend_from_slice(&[0; 16])?;
        }
    }
    Ok(text)
}

fn are(hashes: &[MerkleHash], chunks: &[Named]) -> bool {
    hashes.len() == chunks.len()
        && hashes
            .iter()
            .zip(chunks.iter())
            .all(|(hash, chunk)| *hash == named(chunk))
}

#[test]
fn eligible(rt: HostRuntime) -> Result<(), Fail> {
    let alloc = rt.alloc();
    let shard = read_shard(alloc, &xorbs_text(alloc)?)?;
    let hashes = eligible_chunks(alloc, &shard)?;
    assert!(rt; are(&hashes, &ELIGIBLE), "{hashes:?}");
    let hashes = eligible_among_xorbs(alloc, shard.xorbs())?;
    assert!(rt; are(&hashes, &AS_THEY_STAND), "{hashes:?}");
    let none = read_shard(alloc, &joined(alloc, &EXAMPLE)?)?;
    assert!(rt; eligible_chunks(alloc, &none)?.is_empty());
    Ok(())
}
