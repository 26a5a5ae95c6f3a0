//! Links of version 2 as they are printed from their runs. The text of the first is base64 by another program.
use super::*;
use std::alloc::Global;
use std::test::Fail;
use xet_types::{ChunkRange, FileRange, MemorySink};
use xet_wire::generate_v2_fetch_url;

/// What is printed of the link of these runs.
fn printed(
    alloc: Global,
    hash: &MerkleHash,
    runs: &[MergedRange],
    at: u64,
) -> Result<MemorySink, Fail> {
    let mut page = Page::new(alloc)?;
    let mut sink = MemorySink::new(alloc, &[])?;
    print_second_link(&mut page, &mut sink, hash, runs, at);
    page.flush(&mut sink);
    Ok(sink)
}

const TWO_RUNS: &str = "\
YWFhYWFhYWFhYWFhYWFhYWFhYWFhYWFhYWFhYWFhYWFhYWFhYWFhYWFhYWFhYWFhYWFhYWFhYWFhYWFhYWFhYTo1OjAtMTAsMjMtNDU";

#[test]
fn two_runs(rt: HostRuntime) -> Result<(), Fail> {
    let runs = [
        MergedRange {
            chunk_range: ChunkRange::new(0, 1),
            byte_range: FileRange::new(0, 11),
        },
        MergedRange {
            chunk_range: ChunkRange::new(2, 4),
            byte_range: FileRange::new(23, 46),
        },
    ];
    let hash = MerkleHash::from_bytes([0xaa; 32]);
    let sink = printed(rt.alloc(), &hash, &runs, 5)?;
    assert_eq!(rt; std::str::from_utf8(sink.taken())?, TWO_RUNS);
    Ok(())
}

/// So many runs of 500 bytes.
fn many_runs(alloc: Global, count: u32) -> Result<Vec<MergedRange>, Fail> {
    let mut runs = Vec::new(alloc);
    for i in 0..count {
        let start = u64::from(i) * 1009;
        runs.push(MergedRange {
            chunk_range: ChunkRange::new(i, i),
            byte_range: FileRange::new(start, start + 500),
        })?;
    }
    Ok(runs)
}

#[test]
fn as_they_are_made(rt: HostRuntime) -> Result<(), Fail> {
    let alloc = rt.alloc();
    let hash = MerkleHash::from_bytes([0xbb; 32]);
    let cases = [
        (0, 0),
        (0, 123),
        (1, 1_700_000_000_000),
        (2, 7),
        (3, 10),
        (4, u64::MAX),
        (100, 99),
    ];
    for (count, at) in cases {
        let runs = many_runs(alloc, count)?;
        let mut ranges = Vec::new(alloc);
        for run in &runs {
            ranges.push(descriptor(run))?;
        }
        let made = generate_v2_fetch_url(alloc, &hash, &ranges, at)?;
        let sink = printed(alloc, &hash, &runs, at)?;
        assert_eq!(rt; std::str::from_utf8(sink.taken())?, made.as_str());
    }
    Ok(())
}
