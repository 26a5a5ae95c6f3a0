//! Numbers as they are printed.
use super::*;
use std::test::Fail;
use xet_types::MemorySink;

/// What is printed of a number.
fn printed(alloc: Global, number: u64) -> Result<MemorySink, Fail> {
    let mut page = Page::new(alloc)?;
    let mut sink = MemorySink::new(alloc, &[])?;
    page.put_number(&mut sink, number);
    page.flush(&mut sink);
    Ok(sink)
}

#[test]
fn numbers(rt: HostRuntime) -> Result<(), Fail> {
    let cases = [
        (0, "0"),
        (9, "9"),
        (10, "10"),
        (99, "99"),
        (100, "100"),
        (999, "999"),
        (1_000, "1000"),
        (9_999, "9999"),
        (10_000, "10000"),
        (99_999, "99999"),
        (100_000, "100000"),
        (18_446_744_073_709_551_615, "18446744073709551615"),
    ];
    for (number, expected) in cases {
        let sink = printed(rt.alloc(), number)?;
        assert_eq!(rt; std::str::from_utf8(sink.taken())?, expected);
    }
    Ok(())
}
