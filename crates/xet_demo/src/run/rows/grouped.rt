//! Rows of plans of version 2, whose links bring several runs.
use super::*;

/// Lists the file as the first and the third of the four chunks.
const LISTS_APART: &str =
    "[shard][F]02000000[four]00000000000000000100000064000000[four]0000000002000000030000006400000000000000\n";

/// Lists the file as the first of the four chunks, the two chunks of the other xorb, and the last of the four.
const LISTS_AROUND: &str =
    "[shard][F]03000000[four]00000000000000000100000064000000[two]0000000000000000020000002c010000[four]0000000003000000040000006400000000000000\n";

#[test]
fn links_of_several_runs(rt: HostRuntime) -> Result<(), Fail> {
    let rows: [Row; 5] = [
        (
            "one link of two runs",
            &[
                FOUR,
                LISTS_APART,
                "5 plan2 [F] all\n6 fetch 0 0\n6 fetch 0 0\n",
            ],
            &[
                "xorb 640\nshard true\nplan 0 v2 offset 0 terms 2 links 1\nterm [four] 0-1 100\nterm [four] 2-3 100\nlink 0 ZTdkODE3ZGJlZWNhZTNmZGFjN2NkOTdjMGFlNzMzYjIyYjQyNGVjZjdkNzg5ZGJhZmU4YjQ1ZDY0OWY3YzBlMDo1OjAtMTA3LDIxNi0zMjM 0-1@0-107,2-3@216-323\nfinished 0 wire 450 [note] [61 100][63 100]\nrefused arguments\n",
            ],
        ),
        (
            "a link for each run",
            &[
                FOUR,
                LISTS_APART,
                "4 max 0\n4 max 1\n5 plan2 [F] all\n6 fetch 0 1\n7 fetch 0 0\n7 plan1 [F] all\n8 fetch 1 0\n8 fetch 1 1\n",
            ],
            &[
                "xorb 640\nshard true\nrefused arguments\ndone\nplan 0 v2 offset 0 terms 2 links 2\nterm [four] 0-1 100\nterm [four] 2-3 100\nlink 0 ZTdkODE3ZGJlZWNhZTNmZGFjN2NkOTdjMGFlNzMzYjIyYjQyNGVjZjdkNzg5ZGJhZmU4YjQ1ZDY0OWY3YzBlMDo1OjAtMTA3 0-1@0-107\nlink 1 ZTdkODE3ZGJlZWNhZTNmZGFjN2NkOTdjMGFlNzMzYjIyYjQyNGVjZjdkNzg5ZGJhZmU4YjQ1ZDY0OWY3YzBlMDo1OjIxNi0zMjM 2-3@216-323\nfetched 0 1 left 1 wire 108 [note]\nfinished 0 wire 108 [note] [61 100][63 100]\nplan 1 v1 offset 0 terms 2 links 2\nterm [four] 0-1 100\nterm [four] 2-3 100\nlink 0 [four]:0:108:7 0-1@0-107\nlink 1 [four]:216:324:7 2-3@216-323\nfetched 1 0 left 1 wire 108 [note]\nfinished 1 wire 108 [note] [61 100][63 100]\n",
            ],
        ),
        (
            "a maximum of two runs, and a plan of version 1 under it",
            &[
                FIVE,
                LISTS_GAPS,
                "1 max 2\n2 plan2 [F] 0-5\n3 plan1 [F] 0-5\n4 max 3\n4 fetch 0 1\n4 fetch 0 0\n5 fetch 1 2\n5 fetch 1 0\n5 fetch 1 1\n6 plan2 [F] 1-4\n7 fetch 2 0\n",
            ],
            &[
                "xorb 297\nshard true\ndone\nplan 0 v2 offset 0 terms 3 links 2\nterm [five] 0-1 1\nterm [five] 2-3 2\nterm [five] 4-5 3\nlink 0 YzUzMmQ4Y2FiYzg4YzA1NjQzODZkMzZmODAzYzkyYjRhMmY2YmU0ZTVhNGYzNmYzMGI1ZWFkMjliNzUyMGVlNjoyOjAtOCwxOC0yNw 0-1@0-8,2-3@18-27\nlink 1 YzUzMmQ4Y2FiYzg4YzA1NjQzODZkMzZmODAzYzkyYjRhMmY2YmU0ZTVhNGYzNmYzMGI1ZWFkMjliNzUyMGVlNjoyOjM4LTQ4 4-5@38-48\nplan 1 v1 offset 0 terms 3 links 3\nterm [five] 0-1 1\nterm [five] 2-3 2\nterm [five] 4-5 3\nlink 0 [five]:0:9:3 0-1@0-8\nlink 1 [five]:18:28:3 2-3@18-27\nlink 2 [five]:38:49:3 4-5@38-48\ndone\nfetched 0 1 left 1 wire 11 [note]\nfinished 0 wire 249 [note] 6162636465\nfetched 1 2 left 2 wire 11 [note]\nfetched 1 0 left 1 wire 9 [note]\nfinished 1 wire 10 [note] 6162636465\nplan 2 v2 offset 0 terms 2 links 1\nterm [five] 2-3 2\nterm [five] 4-5 3\nlink 0 YzUzMmQ4Y2FiYzg4YzA1NjQzODZkMzZmODAzYzkyYjRhMmY2YmU0ZTVhNGYzNmYzMGI1ZWFkMjliNzUyMGVlNjo2OjE4LTI3LDM4LTQ4 2-3@18-27,4-5@38-48\nfinished 2 wire 253 [note] 626364\n",
            ],
        ),
        (
            "runs of two xorbs, and one run in a link of version 2",
            &[
                FOUR,
                TWO,
                LISTS_AROUND,
                "5 plan2 [F] 20-450\n6 fetch 0 1\n6 fetch 0 0\n7 plan2 [F] 120-130\n8 fetch 1 0\n",
            ],
            &[
                "xorb 640\nxorb 444\nshard true\nplan 0 v2 offset 20 terms 3 links 2\nterm [four] 0-1 100\nterm [two] 0-2 300\nterm [four] 3-4 100\nlink 0 ZTE5N2E1ODI0ODQ0ZmRkOWNlZTI2ZGU1MzdjNGVmZTAyN2YyNmFmMjhkMjIyMmQxNTE5MGIyNDRmOTZhMzdmMDo1OjAtMzE1 0-2@0-315\nlink 1 ZTdkODE3ZGJlZWNhZTNmZGFjN2NkOTdjMGFlNzMzYjIyYjQyNGVjZjdkNzg5ZGJhZmU4YjQ1ZDY0OWY3YzBlMDo1OjAtMTA3LDMyNC00MzE 0-1@0-107,3-4@324-431\nfetched 0 1 left 1 wire 450 [note]\nfinished 0 wire 316 [note] [61 80][65 150][66 150][64 50]\nplan 1 v2 offset 20 terms 1 links 1\nterm [two] 0-1 150\nlink 0 ZTE5N2E1ODI0ODQ0ZmRkOWNlZTI2ZGU1MzdjNGVmZTAyN2YyNmFmMjhkMjIyMmQxNTE5MGIyNDRmOTZhMzdmMDo3OjAtMTU3 0-1@0-157\nfinished 1 wire 158 [note] 65656565656565656565\n",
            ],
        ),
        (
            "an expired link, a deleted xorb, and again",
            &[
                FOUR,
                LISTS_APART,
                "0 expire 10\n5 plan2 [F] all\n16 fetch 0 0\n15 delete-xorb [four]\n15 fetch 0 0\n",
                FOUR,
                "15 fetch 0 0\n",
            ],
            &[
                "xorb 640\nshard true\ndone\nplan 0 v2 offset 0 terms 2 links 1\nterm [four] 0-1 100\nterm [four] 2-3 100\nlink 0 ZTdkODE3ZGJlZWNhZTNmZGFjN2NkOTdjMGFlNzMzYjIyYjQyNGVjZjdkNzg5ZGJhZmU4YjQ1ZDY0OWY3YzBlMDo1OjAtMTA3LDIxNi0zMjM 0-1@0-107,2-3@216-323\nrefused expired\ndone\nrefused xorb [four]\nxorb 640\nfinished 0 wire 450 [note] [61 100][63 100]\n",
            ],
        ),
    ];
    are_printed(&rt, rt.alloc(), &rows)
}
