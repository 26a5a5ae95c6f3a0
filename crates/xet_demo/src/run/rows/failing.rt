//! Rows whose source or whose sink fails, at each of its calls in turn.
use super::*;

/// A xorb of one chunk of 100,000 bytes.
const LARGE: &str = "0 xorb [large] 00a0860100a08601[7a 100000]\n";

/// Lists the file as that chunk.
const LISTS_LARGE: &str = "[shard][F]01000000[large]000000000000000001000000a086010000000000\n";

/// Rows of one call of the sink, and of several.
const ROWS: [Row; 2] = [
    (
        "three bytes",
        &[ABC, LISTS_ABC, "5 plan1 [F] all\n6 fetch 0 0\n"],
        &[
            "xorb 99\nshard true\nplan 0 v1 offset 0 terms 1 links 1\nterm [abc] 0-1 3\nlink 0 [abc]:0:11:5 0-1@0-10\nfinished 0 wire 11 [note] 616263\n",
        ],
    ),
    (
        "100,000 bytes",
        &[LARGE, LISTS_LARGE, "5 plan1 [F] all\n6 fetch 0 0\n"],
        &[
            "xorb 100096\nshard true\nplan 0 v1 offset 0 terms 1 links 1\nterm [large] 0-1 100000\nlink 0 [large]:0:100008:5 0-1@0-100007\nfinished 0 wire 100008 [note] [7a 100000]\n",
        ],
    ),
];

/// How many calls of the source a script takes: where the one after them would fail, its lines are written. Where one of them
/// fails, nothing is.
fn reads(rt: &impl Abort, alloc: Global, script: &str, printed: &str) -> Result<u64, Fail> {
    for call in 0..100 {
        let (status, written) = ended(alloc, script, &[call], &[])?;
        if status == Status::Done {
            assert_eq!(rt; written.as_str(), printed);
            return Ok(call);
        }
        assert_eq!(rt; status, Status::ReadFault, "{call}");
        assert_eq!(rt; written.as_str(), "", "{call}");
    }
    Err(Fail::from("a hundred calls"))
}

/// How many calls of the sink a script takes: where the one after them would fail, its lines are written. Where one of them
/// fails, a front of them is.
fn writes(rt: &impl Abort, alloc: Global, script: &str, printed: &str) -> Result<u64, Fail> {
    for call in 0..100 {
        let (status, written) = ended(alloc, script, &[], &[call])?;
        if status == Status::Done {
            assert_eq!(rt; written.as_str(), printed);
            return Ok(call);
        }
        assert_eq!(rt; status, Status::WriteFault, "{call}");
        assert!(rt; written.len() < printed.len(), "{call}");
        assert!(rt; printed.starts_with(written.as_str()), "{call}");
    }
    Err(Fail::from("a hundred calls"))
}

#[test]
fn reads_that_fail(rt: HostRuntime) -> Result<(), Fail> {
    for ((row, script, printed), calls) in ROWS.into_iter().zip([2, 5]) {
        let script = spelled(rt.alloc(), script)?;
        let printed = spelled(rt.alloc(), printed)?;
        let made = reads(&rt, rt.alloc(), script.as_str(), printed.as_str())?;
        assert_eq!(rt; made, calls, "{row}");
    }
    Ok(())
}

#[test]
fn writes_that_fail(rt: HostRuntime) -> Result<(), Fail> {
    for (row, script, printed) in ROWS {
        let script = spelled(rt.alloc(), script)?;
        let printed = spelled(rt.alloc(), printed)?;
        let made = writes(&rt, rt.alloc(), script.as_str(), printed.as_str())?;
        assert!(rt; made > 0, "{row}");
    }
    Ok(())
}
