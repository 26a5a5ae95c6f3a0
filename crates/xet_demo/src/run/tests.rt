//! Calls of the program over forms in memory.
use super::*;
use bytes::Bytes;
use std::slice;
use std::test::Fail;
use xet_plan::MergedRange;
use xet_service::{CacheNote, CacheRefusal, Pieces, PlanLinks, PlanVersion};
use xet_types::{
    ChunkRange, FileRange, FormatFault, Items, MemorySink, MemorySource, MerkleHash, Refusal,
    XorbReconstructionTerm,
};

/// How a call ends, as the text of its status, and how many bytes it writes.
fn call(
    alloc: Global,
    words: &[&str],
    script: &[u8],
    failing: &[u64],
) -> Result<(Status, usize), Fail> {
    let mut texts = Vec::new(alloc);
    for word in words {
        texts.push(String::from_str(alloc, word)?)?;
    }
    let mut source = MemorySource::new(alloc, script, failing)?;
    let mut sink = MemorySink::new(alloc, &[])?;
    let status = run_script(alloc, &texts, &mut source, &mut sink);
    Ok((status, sink.taken().len()))
}

#[test]
fn statuses(rt: HostRuntime) -> Result<(), Fail> {
    let cases: [(&[&str], &[u8], &[u64], Status); 7] = [
        (&["memory"], b"", &[], Status::Done),
        (&["memory"], b"# nothing\r\n\n", &[], Status::Done),
        (&["memory"], b"0 frob", &[], Status::BadLine(1)),
        (&[], b"", &[], Status::Usage),
        (&["memory", "memory"], b"0 frob", &[], Status::Usage),
        (&["memory"], b"0 frob", &[0], Status::ReadFault),
        (&["memory"], b"0 frob", &[1], Status::ReadFault),
    ];
    for (words, script, failing, expected) in cases {
        let got = call(rt.alloc(), words, script, failing)?;
        assert_eq!(rt; got.0, expected);
        assert_eq!(rt; got.1, 0);
    }
    Ok(())
}

#[test]
fn too_long(rt: HostRuntime) -> Result<(), Fail> {
    let script = vec![in rt.alloc(); b'#'; 67_108_865]?;
    let got = call(rt.alloc(), &["memory"], &script, &[])?;
    assert_eq!(rt; got.0, Status::TooLong);
    Ok(())
}

#[test]
fn lines_over_pieces(rt: HostRuntime) -> Result<(), Fail> {
    for comment in (65_510..65_540).chain(131_060..131_080) {
        let mut script = vec![in rt.alloc(); b'#'; comment]?;
        script.extend_from_slice(b"\r\n6 fetch 0 0\n\n7 frob\n")?;
        let got = call(rt.alloc(), &["memory"], &script, &[])?;
        assert_eq!(rt; got.0, Status::BadLine(4));
        assert_eq!(rt; got.1, 0);
    }
    Ok(())
}

#[test]
fn faults_after_a_bad_line(rt: HostRuntime) -> Result<(), Fail> {
    let mut script = vec![in rt.alloc(); b'#'; 131_072]?;
    script[..7].copy_from_slice(b"0 frob\n");
    let cases: [(&[u64], Status); 5] = [
        (&[0], Status::ReadFault),
        (&[1], Status::ReadFault),
        (&[2], Status::ReadFault),
        (&[3], Status::BadLine(1)),
        (&[], Status::BadLine(1)),
    ];
    for (failing, expected) in cases {
        let got = call(rt.alloc(), &["memory"], &script, failing)?;
        assert_eq!(rt; got.0, expected);
        assert_eq!(rt; got.1, 0);
    }
    Ok(())
}

/// Chunks of a xorb, and their bytes, whose end is excluded.
fn run_of(start: u32, end: u32, from: u64, to: u64) -> MergedRange {
    MergedRange {
        chunk_range: ChunkRange::new(start, end),
        byte_range: FileRange::new(from, to),
    }
}

/// A reply for each line of the format, and what it prints.
fn replies(alloc: Global) -> Result<Vec<Reply>, Fail> {
    let hash = MerkleHash::from_bytes([0xaa; 32]);
    let note = CacheNote {
        hits: 1,
        stored: 2,
        refused: Some(CacheRefusal::BadRange),
    };
    let mut terms = Vec::new(alloc);
    terms.push(XorbReconstructionTerm {
        hash,
        unpacked_length: 3,
        range: ChunkRange::new(0, 1),
    })?;
    let mut runs = Vec::new(alloc);
    runs.push(run_of(0, 1, 0, 11))?;
    runs.push(run_of(2, 4, 20, 4294967297))?;
    let mut xorbs = Vec::new(alloc);
    xorbs.push((hash, runs))?;
    let mut all = Vec::new(alloc);
    all.push(Reply::Uploaded(99))?;
    all.push(Reply::ShardTaken(true))?;
    all.push(Reply::NoPlan)?;
    all.push(Reply::Planned {
        version: PlanVersion::V2,
        read: 18446744073709551615,
        offset: 10,
        terms: Items::from_vec(terms),
        links: PlanLinks::of_plan(PlanVersion::V2, xorbs, 2, 0)?,
    })?;
    all.push(Reply::Fetched {
        read: 0,
        link: 7,
        left: 1,
        wire: 11,
        cache: note,
    })?;
    let mut pieces = Vec::new(alloc);
    pieces.push(Bytes::from_vec(Vec::from_slice(alloc, b"ab")?)?)?;
    pieces.push(Bytes::from_vec(Vec::from_slice(alloc, b"c\xff")?)?)?;
    all.push(Reply::Finished {
        read: 0,
        bytes: Pieces::from_vec(pieces),
        wire: 0,
        cache: CacheNote {
            hits: 0,
            stored: 0,
            refused: None,
        },
    })?;
    all.push(Reply::Refused(Refusal::FormatError(FormatFault::Shard)))?;
    all.push(Reply::Refused(Refusal::XORBNotFound(hash)))?;
    all.push(Reply::Refused(Refusal::HttpStatus(500)))?;
    Ok(all)
}

const LINES: &str = "\
xorb 99
shard true
none
plan 18446744073709551615 v2 offset 10 terms 1 links 1
term aaaaaaaaaaaaaaaaaaaaaaaaaaaaaaaaaaaaaaaaaaaaaaaaaaaaaaaaaaaaaaaa 0-1 3
link 0 YWFhYWFhYWFhYWFhYWFhYWFhYWFhYWFhYWFhYWFhYWFhYWFhYWFhYWFhYWFhYWFhYWFhYWFhYWFhYWFhYWFhYTowOjAtMTAsMjAtNDI5NDk2NzI5Ng 0-1@0-10,2-4@20-4294967296
fetched 0 7 left 1 wire 11 hits 1 stored 2 refused bad-range
finished 0 wire 0 hits 0 stored 0 refused none 616263ff
refused format-shard
refused xorb aaaaaaaaaaaaaaaaaaaaaaaaaaaaaaaaaaaaaaaaaaaaaaaaaaaaaaaaaaaaaaaa
refused status 500
";

#[test]
fn printed_lines(rt: HostRuntime) -> Result<(), Fail> {
    let replies = replies(rt.alloc())?;
    let mut sink = MemorySink::new(rt.alloc(), &[])?;
    let status = write_report(rt.alloc(), &mut sink, Report::Lines, &replies);
    assert_eq!(rt; status, Status::Done);
    assert_eq!(rt; std::str::from_utf8(sink.taken())?, LINES);
    Ok(())
}

/// Three runs of a xorb, and one of another.
fn xorbs(alloc: Global) -> Result<Vec<(MerkleHash, Vec<MergedRange>)>, Fail> {
    let mut three = Vec::new(alloc);
    three.push(run_of(0, 1, 0, 11))?;
    three.push(run_of(2, 4, 23, 46))?;
    three.push(run_of(5, 6, 50, 60))?;
    let mut one = Vec::new(alloc);
    one.push(run_of(1, 2, 9, 18))?;
    let mut xorbs = Vec::new(alloc);
    xorbs.push((MerkleHash::from_bytes([0xaa; 32]), three))?;
    xorbs.push((MerkleHash::from_bytes([0xbb; 32]), one))?;
    Ok(xorbs)
}

/// A plan of these links.
fn planned(alloc: Global, version: PlanVersion, links: PlanLinks) -> Reply {
    Reply::Planned {
        version,
        read: 0,
        offset: 0,
        terms: Items::from_vec(Vec::new(alloc)),
        links,
    }
}

/// Several files' plans of these links.
fn batch(alloc: Global, links: PlanLinks) -> Reply {
    Reply::Batch {
        files: Items::from_vec(Vec::new(alloc)),
        links,
    }
}

const FIRST_LINKS: &str = "\
plan 0 v1 offset 0 terms 0 links 4
link 0 aaaaaaaaaaaaaaaaaaaaaaaaaaaaaaaaaaaaaaaaaaaaaaaaaaaaaaaaaaaaaaaa:0:11:5 0-1@0-10
link 1 aaaaaaaaaaaaaaaaaaaaaaaaaaaaaaaaaaaaaaaaaaaaaaaaaaaaaaaaaaaaaaaa:23:46:5 2-4@23-45
link 2 aaaaaaaaaaaaaaaaaaaaaaaaaaaaaaaaaaaaaaaaaaaaaaaaaaaaaaaaaaaaaaaa:50:60:5 5-6@50-59
link 3 bbbbbbbbbbbbbbbbbbbbbbbbbbbbbbbbbbbbbbbbbbbbbbbbbbbbbbbbbbbbbbbb:9:18:5 1-2@9-17
";

const SECOND_LINKS: &str = "\
plan 0 v2 offset 0 terms 0 links 3
link 0 YWFhYWFhYWFhYWFhYWFhYWFhYWFhYWFhYWFhYWFhYWFhYWFhYWFhYWFhYWFhYWFhYWFhYWFhYWFhYWFhYWFhYTo1OjAtMTAsMjMtNDU 0-1@0-10,2-4@23-45
link 1 YWFhYWFhYWFhYWFhYWFhYWFhYWFhYWFhYWFhYWFhYWFhYWFhYWFhYWFhYWFhYWFhYWFhYWFhYWFhYWFhYWFhYTo1OjUwLTU5 5-6@50-59
link 2 YmJiYmJiYmJiYmJiYmJiYmJiYmJiYmJiYmJiYmJiYmJiYmJiYmJiYmJiYmJiYmJiYmJiYmJiYmJiYmJiYmJiYjo1OjktMTc 1-2@9-17
";

const BATCH_LINKS: &str = "\
batch files 0 links 4
entry aaaaaaaaaaaaaaaaaaaaaaaaaaaaaaaaaaaaaaaaaaaaaaaaaaaaaaaaaaaaaaaa aaaaaaaaaaaaaaaaaaaaaaaaaaaaaaaaaaaaaaaaaaaaaaaaaaaaaaaaaaaaaaaa:0:11:5 0-1@0-10
entry aaaaaaaaaaaaaaaaaaaaaaaaaaaaaaaaaaaaaaaaaaaaaaaaaaaaaaaaaaaaaaaa aaaaaaaaaaaaaaaaaaaaaaaaaaaaaaaaaaaaaaaaaaaaaaaaaaaaaaaaaaaaaaaa:23:46:5 2-4@23-45
entry aaaaaaaaaaaaaaaaaaaaaaaaaaaaaaaaaaaaaaaaaaaaaaaaaaaaaaaaaaaaaaaa aaaaaaaaaaaaaaaaaaaaaaaaaaaaaaaaaaaaaaaaaaaaaaaaaaaaaaaaaaaaaaaa:50:60:5 5-6@50-59
entry bbbbbbbbbbbbbbbbbbbbbbbbbbbbbbbbbbbbbbbbbbbbbbbbbbbbbbbbbbbbbbbb bbbbbbbbbbbbbbbbbbbbbbbbbbbbbbbbbbbbbbbbbbbbbbbbbbbbbbbbbbbbbbbb:9:18:5 1-2@9-17
";

#[test]
fn links_of_runs(rt: HostRuntime) -> Result<(), Fail> {
    let alloc = rt.alloc();
    let first = PlanLinks::from_runs(xorbs(alloc)?, 5)?;
    let second = PlanLinks::of_plan(PlanVersion::V2, xorbs(alloc)?, 2, 5)?;
    let both = PlanLinks::from_runs(xorbs(alloc)?, 5)?;
    let mut replies = Vec::new(alloc);
    replies.push(planned(alloc, PlanVersion::V1, first))?;
    replies.push(planned(alloc, PlanVersion::V2, second))?;
    replies.push(batch(alloc, both))?;
    let expected = [FIRST_LINKS, SECOND_LINKS, BATCH_LINKS];
    for (reply, lines) in replies.iter().zip(expected) {
        let mut sink = MemorySink::new(alloc, &[])?;
        let status = write_report(alloc, &mut sink, Report::Lines, slice::from_ref(reply));
        assert_eq!(rt; status, Status::Done);
        assert_eq!(rt; std::str::from_utf8(sink.taken())?, lines);
    }
    Ok(())
}

/// Links of version 2, at most two runs to each.
#[test]
fn counted_links(rt: HostRuntime) -> Result<(), Fail> {
    let alloc = rt.alloc();
    let links = PlanLinks::of_plan(PlanVersion::V2, xorbs(alloc)?, 2, 5)?;
    assert_eq!(rt; links.len(), 3);
    assert_eq!(rt; links.is_empty(), false);
    let none = PlanLinks::from_runs(Vec::new(alloc), 5)?;
    assert_eq!(rt; none.len(), 0);
    assert_eq!(rt; none.is_empty(), true);
    Ok(())
}

#[test]
fn texts_and_exits(rt: HostRuntime) -> Result<(), Fail> {
    let cases = [
        (Status::Done, 0, "done"),
        (
            Status::Usage,
            2,
            "usage: xet_demo (memory or local DIR) [cache DIR CAPACITY SEED] [make N], or threads N",
        ),
        (Status::BadLine(7), 3, "line 7: not a command"),
        (Status::ReadFault, 4, "input could not be read"),
        (Status::WriteFault, 5, "output could not be written"),
        (Status::TooLong, 6, "script longer than 67108864 bytes"),
        (Status::OutOfMemory, 9, "out of memory"),
    ];
    for (status, exit, text) in cases {
        assert_eq!(rt; status.exit(), exit);
        let printed = format!(in rt.alloc(); "{status}")?;
        assert_eq!(rt; printed.as_str(), text);
    }
    Ok(())
}
