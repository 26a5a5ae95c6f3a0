//! Rows of fetches, in several orders, and with a newer shard between.
use super::*;

/// Lists the file as the chunks `x` and `yy` of that xorb.
const LISTS_OTHERS: &str =
    "[shard][F]02000000[five]00000000010000000200000001000000[five]0000000003000000040000000200000000000000\n";

/// The plan of the file of three segments, after its read's number.
const PLANNED: &str =
    " v1 offset 0 terms 3 links 3\nterm [five] 0-1 1\nterm [five] 2-3 2\nterm [five] 4-5 3\nlink 0 [five]:0:9:5 0-1@0-8\nlink 1 [five]:18:28:5 2-3@18-27\nlink 2 [five]:38:49:5 4-5@38-48\n";

#[test]
fn reads_of_one_chunk(rt: HostRuntime) -> Result<(), Fail> {
    let rows: [Row; 4] = [
        (
            "the whole file",
            &[ABC, LISTS_ABC, "5 plan1 [F] all\n6 fetch 0 0\n"],
            &[
                "xorb 99\nshard true\nplan 0 v1 offset 0 terms 1 links 1\nterm [abc] 0-1 3\nlink 0 [abc]:0:11:5 0-1@0-10\nfinished 0 wire 11 [note] 616263\n",
            ],
        ),
        (
            "from the second byte",
            &[ABC, LISTS_ABC, "5 plan1 [F] 1-3\n6 fetch 0 0\n"],
            &[
                "xorb 99\nshard true\nplan 0 v1 offset 1 terms 1 links 1\nterm [abc] 0-1 3\nlink 0 [abc]:0:11:5 0-1@0-10\nfinished 0 wire 11 [note] 6263\n",
            ],
        ),
        (
            "only the first byte",
            &[ABC, LISTS_ABC, "5 plan1 [F] 0-1\n6 fetch 0 0\n"],
            &[
                "xorb 99\nshard true\nplan 0 v1 offset 0 terms 1 links 1\nterm [abc] 0-1 3\nlink 0 [abc]:0:11:5 0-1@0-10\nfinished 0 wire 11 [note] 61\n",
            ],
        ),
        (
            "no xorb",
            &[LISTS_ABC, "5 plan1 [F] all\n6 fetch 0 0\n"],
            &["shard true\nrefused xorb [abc]\nrefused arguments\n"],
        ),
    ];
    are_printed(&rt, rt.alloc(), &rows)
}

#[test]
fn a_newer_shard(rt: HostRuntime) -> Result<(), Fail> {
    let script = [
        FIVE,
        LISTS_GAPS,
        "5 plan1 [F] 0-2\n",
        LISTS_OTHERS,
        "6 fetch 0 0\n6 fetch 0 1\n7 plan1 [F] all\n8 fetch 1 1\n8 fetch 1 0\n",
    ];
    let printed = [
        "xorb 297\nshard true\nplan 0 v1 offset 0 terms 2 links 2\nterm [five] 0-1 1\nterm [five] 2-3 2\nlink 0 [five]:0:9:5 0-1@0-8\nlink 1 [five]:18:28:5 2-3@18-27\nshard true\nfetched 0 0 left 1 wire 9 [note]\nfinished 0 wire 10 [note] 6162\nplan 1 v1 offset 0 terms 2 links 2\nterm [five] 1-2 1\nterm [five] 3-4 2\nlink 0 [five]:9:18:7 1-2@9-17\nlink 1 [five]:28:38:7 3-4@28-37\nfetched 1 1 left 1 wire 10 [note]\nfinished 1 wire 9 [note] 787979\n",
    ];
    is_printed(&rt, rt.alloc(), "between", &script, &printed)
}

#[test]
fn two_reads_at_once(rt: HostRuntime) -> Result<(), Fail> {
    let orders = [
        (
            "6 fetch 0 0\n6 fetch 1 2\n6 fetch 0 1\n6 fetch 1 1\n6 fetch 0 2\n6 fetch 1 0\n",
            "fetched 0 0 left 2 wire 9 [note]\nfetched 1 2 left 2 wire 11 [note]\nfetched 0 1 left 1 wire 10 [note]\nfetched 1 1 left 1 wire 10 [note]\nfinished 0 wire 11 [note] 616263646566\nfinished 1 wire 9 [note] 616263646566\n",
        ),
        (
            "6 fetch 0 0\n6 fetch 1 1\n6 fetch 0 2\n6 fetch 1 2\n6 fetch 0 1\n6 fetch 1 0\n",
            "fetched 0 0 left 2 wire 9 [note]\nfetched 1 1 left 2 wire 10 [note]\nfetched 0 2 left 1 wire 11 [note]\nfetched 1 2 left 1 wire 11 [note]\nfinished 0 wire 10 [note] 616263646566\nfinished 1 wire 9 [note] 616263646566\n",
        ),
        (
            "6 fetch 0 1\n6 fetch 1 2\n6 fetch 0 0\n6 fetch 1 0\n6 fetch 0 2\n6 fetch 1 1\n",
            "fetched 0 1 left 2 wire 10 [note]\nfetched 1 2 left 2 wire 11 [note]\nfetched 0 0 left 1 wire 9 [note]\nfetched 1 0 left 1 wire 9 [note]\nfinished 0 wire 11 [note] 616263646566\nfinished 1 wire 10 [note] 616263646566\n",
        ),
    ];
    for (fetches, lines) in orders {
        let script = [
            FIVE,
            LISTS_GAPS,
            "5 plan1 [F] all\n5 plan1 [F] all\n",
            fetches,
        ];
        let printed = [
            "xorb 297\nshard true\nplan 0",
            PLANNED,
            "plan 1",
            PLANNED,
            lines,
        ];
        is_printed(&rt, rt.alloc(), fetches, &script, &printed)?;
    }
    Ok(())
}
