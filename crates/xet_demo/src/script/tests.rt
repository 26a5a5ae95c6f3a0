//! Lines inside the grammar and outside it.
use crate::run::{Status, read_steps};
use std::alloc::Global;
use std::test::Fail;
use xet_types::MemorySource;

const HASH: &str = "4f8b42c22dd3729b519ba6f68d2da7cc5b2d606d05daed5ad5128cc03e6c6358";

/// How many steps a script has, or the number of its first bad line, as a text.
fn outcome(alloc: Global, script: &[u8]) -> Result<String, Fail> {
    let mut source = MemorySource::new(alloc, script, &[])?;
    match read_steps(alloc, &mut source) {
        Ok(steps) => Ok(format!(in alloc; "{} steps", steps.len())?),
        Err(Status::BadLine(n)) => Ok(format!(in alloc; "line {n}")?),
        Err(status) => Ok(format!(in alloc; "{status}")?),
    }
}

#[test]
fn lines(rt: HostRuntime) -> Result<(), Fail> {
    let cases: [(&[u8], &str); 45] = [
        (b"", "0 steps"),
        (b"\n\r\n# a comment\r\n", "0 steps"),
        (b"6 fetch 0 0", "1 steps"),
        (b"6 fetch 0 0\r\n7 fetch 0 1\n", "2 steps"),
        (b"6 fetch 0 0\r", "line 1"),
        (b"6 fetch 0 0\r\r\n", "line 1"),
        (b"# \x80\n", "line 1"),
        (b"\n0 frob", "line 2"),
        (b"00000000000000000006 fetch 0 0", "1 steps"),
        (b"000000000000000000006 fetch 0 0", "line 1"),
        (b"18446744073709551615 fetch 0 4294967295", "1 steps"),
        (b"18446744073709551616 fetch 0 0", "line 1"),
        (b"6 fetch 0 4294967296", "line 1"),
        (b" 6 fetch 0 0", "line 1"),
        (b"6 fetch  0 0", "line 1"),
        (b"6 fetch 0 0 ", "line 1"),
        (b"0 shard -\n0 shard aB\n", "2 steps"),
        (b"0 shard \n", "line 1"),
        (b"0 shard abc\n", "line 1"),
        (b"0 shard ag\n", "line 1"),
        (b"0 dedup-expire never\n0 dedup-expire 0", "2 steps"),
        (b"0 dedup-expire Never", "line 1"),
        (b"0 dedup never", "line 1"),
        (b"0 max 0\n0 max 18446744073709551615", "2 steps"),
        (b"0 max all", "line 1"),
        (b"0 xorbs\n0 shards\n0 files\n", "3 steps"),
        (b"0 integrity\n0 reachable\n0 readable\n", "3 steps"),
        (b"0 xorbs \n", "line 1"),
        (b"0 readable 1\n", "line 1"),
        (b"0 drop-dedup aa\n", "line 1"),
        (b"0 random 1 2 64", "1 steps"),
        (b"0 random 1 4294967296 64", "line 1"),
        (b"0 random 1 2 64 ", "line 1"),
        (
            b"0 lazy 64\n0 lazy 64 1:0-2 2:5-3 1:0-18446744073709551615",
            "2 steps",
        ),
        (b"0 lazy", "line 1"),
        (b"0 lazy 64 ", "line 1"),
        (b"0 lazy 64 1:0-2  2:0-1", "line 1"),
        (b"0 lazy 64 1:0", "line 1"),
        (b"0 lazy 64 1:0-1-2", "line 1"),
        (b"0 lazy 64 1:2:0-1", "line 1"),
        (b"0 lazy 64 0-1", "line 1"),
        (b"0 lazy 18446744073709551616 1:0-1", "line 1"),
        (b"0 batch", "line 1"),
        (b"0 batch ", "line 1"),
        (b"0 batch aa", "line 1"),
    ];
    for (script, expected) in cases {
        let got = outcome(rt.alloc(), script)?;
        assert_eq!(rt; got.as_str(), expected);
    }
    Ok(())
}

#[test]
fn hashes_and_ranges(rt: HostRuntime) -> Result<(), Fail> {
    let cases = [
        ("all", "1 steps"),
        ("5-2", "1 steps"),
        ("0-18446744073709551615", "1 steps"),
        ("1-2-3", "line 1"),
        ("1-", "line 1"),
        ("All", "line 1"),
    ];
    for (range, expected) in cases {
        let script = format!(in rt.alloc(); "0 plan1 {HASH} {range}")?;
        let got = outcome(rt.alloc(), script.as_bytes())?;
        assert_eq!(rt; got.as_str(), expected);
    }
    let capitals = b"0 plan1 4F8B42C22DD3729B519BA6F68D2DA7CC5B2D606D05DAED5AD5128CC03E6C6358 all";
    let got = outcome(rt.alloc(), capitals)?;
    assert_eq!(rt; got.as_str(), "1 steps");
    Ok(())
}

#[test]
fn batches(rt: HostRuntime) -> Result<(), Fail> {
    let cases = [
        (format!(in rt.alloc(); "0 batch {HASH}")?, "1 steps"),
        (
            format!(in rt.alloc(); "0 batch {HASH} {HASH} {HASH} {HASH} {HASH}")?,
            "1 steps",
        ),
        (format!(in rt.alloc(); "0 batch {HASH} ")?, "line 1"),
        (format!(in rt.alloc(); "0 batch {HASH}  {HASH}")?, "line 1"),
        (
            format!(in rt.alloc(); "0 batch {HASH} {HASH} all")?,
            "line 1",
        ),
        (format!(in rt.alloc(); "0 batched {HASH}")?, "line 1"),
    ];
    for (script, expected) in &cases {
        let got = outcome(rt.alloc(), script.as_bytes())?;
        assert_eq!(rt; got.as_str(), *expected);
    }
    Ok(())
}
