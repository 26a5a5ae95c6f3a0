//! Reads of ranges beside the plain program that lays a file's bytes down.
use super::*;
use xet_plan::plain::file_bytes;
use xet_shard::{FileListing, Segment};
use xet_types::{MerkleHash, Octets};

/// The chunks of the xorb of five chunks.
fn chunks(alloc: Global) -> Result<Vec<Octets>, Fail> {
    let mut chunks = Vec::new(alloc);
    for chunk in ["a", "x", "bc", "yy", "def"] {
        chunks.push(Octets::from_vec(Vec::from_slice(alloc, chunk.as_bytes())?)?)?;
    }
    Ok(chunks)
}

fn segment(xorb_hash: MerkleHash, start: u32, end: u32, bytes: u32) -> Segment {
    Segment {
        xorb_hash,
        xorb_flags: 0,
        chunk_index_start: start,
        chunk_index_end: end,
        unpacked_segment_bytes: bytes,
    }
}

/// The digits of the file's bytes in a range, as the plain program lays them down.
fn plain(alloc: Global, start: u64, end: u64) -> Result<String, Fail> {
    let hash = MerkleHash::from_hex(meaning("five"))?;
    let segments = [
        segment(hash, 0, 1, 1),
        segment(hash, 2, 3, 2),
        segment(hash, 4, 5, 3),
    ];
    let listing = FileListing {
        file_hash: MerkleHash::from_hex(meaning("F"))?,
        segments: Vec::from_slice(alloc, &segments)?,
    };
    let mut xorbs = Vec::new(alloc);
    xorbs.push((hash, chunks(alloc)?))?;
    let bytes = file_bytes(alloc, &xorbs, &listing, start, end)?;
    Ok(hex::encode(alloc, &bytes)?)
}

/// What the program prints for a read of the range.
fn read(alloc: Global, start: u64, end: u64) -> Result<String, Fail> {
    let plan = format!(in alloc; "5 plan1 [F] {start}-{end}\n")?;
    let fetches = "6 fetch 0 0\n6 fetch 0 1\n6 fetch 0 2\n";
    let script = spelled(alloc, &[FIVE, LISTS_GAPS, plan.as_str(), fetches])?;
    let (_, printed) = ended(alloc, script.as_str(), &[], &[])?;
    Ok(printed)
}

#[test]
fn reads_and_the_plain_program(rt: HostRuntime) -> Result<(), Fail> {
    let alloc = rt.alloc();
    let rows = [
        (0, 6, "616263646566"),
        (0, 1, "61"),
        (1, 3, "6263"),
        (2, 5, "636465"),
        (3, 9, "646566"),
        (5, 6, "66"),
    ];
    for (start, end, want) in rows {
        let bytes = plain(alloc, start, end)?;
        assert_eq!(rt; bytes.as_str(), want, "{start}-{end}");
        let note = meaning("note");
        let finished = format!(in alloc; "{note} {bytes}\n")?;
        let printed = read(alloc, start, end)?;
        assert!(rt;
            printed.as_str().contains(finished.as_str()),
            "{start}-{end}"
        );
    }
    Ok(())
}
