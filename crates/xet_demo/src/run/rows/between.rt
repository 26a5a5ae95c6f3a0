//! Rows of reads with deletions, hiding, an expiration and abandonment between their steps.
use super::*;

#[test]
fn between_a_plan_and_its_fetch(rt: HostRuntime) -> Result<(), Fail> {
    let rows: [Row; 5] = [
        (
            "a newer listing",
            &[
                ABC,
                LISTS_ABC,
                FIVE,
                "5 plan1 [F] all\n",
                LISTS_GAPS,
                "6 fetch 0 0\n7 plan1 [F] all\n8 fetch 1 0\n8 fetch 1 1\n8 fetch 1 2\n",
            ],
            &[
                "xorb 99\nshard true\nxorb 297\nplan 0 v1 offset 0 terms 1 links 1\nterm [abc] 0-1 3\nlink 0 [abc]:0:11:5 0-1@0-10\nshard true\nfinished 0 wire 11 [note] 616263\n",
                "plan 1 v1 offset 0 terms 3 links 3\nterm [five] 0-1 1\nterm [five] 2-3 2\nterm [five] 4-5 3\nlink 0 [five]:0:9:7 0-1@0-8\nlink 1 [five]:18:28:7 2-3@18-27\nlink 2 [five]:38:49:7 4-5@38-48\n",
                "fetched 1 0 left 2 wire 9 [note]\nfetched 1 1 left 1 wire 10 [note]\nfinished 1 wire 11 [note] 616263646566\n",
            ],
        ),
        (
            "the xorb is deleted",
            &[
                ABC,
                LISTS_ABC,
                "5 plan1 [F] all\n6 delete-xorb [abc]\n7 fetch 0 0\n",
                ABC,
                "8 fetch 0 0\n9 fetch 0 0\n9 abandon 0\n",
            ],
            &[
                "xorb 99\nshard true\nplan 0 v1 offset 0 terms 1 links 1\nterm [abc] 0-1 3\nlink 0 [abc]:0:11:5 0-1@0-10\ndone\nrefused xorb [abc]\nxorb 99\nfinished 0 wire 11 [note] 616263\nrefused arguments\nrefused arguments\n",
            ],
        ),
        (
            "links expire",
            &[
                ABC,
                LISTS_ABC,
                "0 expire 1000\n5000 plan1 [F] all\n5000 plan1 [F] all\n5000 plan1 [F] all\n6000 fetch 0 0\n4000 fetch 1 0\n6001 fetch 2 0\n6000 fetch 2 0\n",
            ],
            &[
                "xorb 99\nshard true\ndone\nplan 0 v1 offset 0 terms 1 links 1\nterm [abc] 0-1 3\nlink 0 [abc]:0:11:5000 0-1@0-10\nplan 1 v1 offset 0 terms 1 links 1\nterm [abc] 0-1 3\nlink 0 [abc]:0:11:5000 0-1@0-10\nplan 2 v1 offset 0 terms 1 links 1\nterm [abc] 0-1 3\nlink 0 [abc]:0:11:5000 0-1@0-10\n",
                "finished 0 wire 11 [note] 616263\nfinished 1 wire 11 [note] 616263\nrefused expired\nfinished 2 wire 11 [note] 616263\n",
            ],
        ),
        (
            "the file is hidden",
            &[
                ABC,
                LISTS_ABC,
                "5 plan1 [F] all\n6 hide [F]\n6 fetch 0 0\n7 plan1 [F] all\n7 size [F]\n",
                LISTS_ABC,
                "8 plan1 [F] all\n8 size [F]\n8 data [F] 1-2\n",
            ],
            &[
                "xorb 99\nshard true\nplan 0 v1 offset 0 terms 1 links 1\nterm [abc] 0-1 3\nlink 0 [abc]:0:11:5 0-1@0-10\ndone\nfinished 0 wire 11 [note] 616263\nnone\nrefused file [F]\nshard true\nplan 1 v1 offset 0 terms 1 links 1\nterm [abc] 0-1 3\nlink 0 [abc]:0:11:8 0-1@0-10\nsize 3\ndata 62\n",
            ],
        ),
        (
            "the read is abandoned",
            &[
                ABC,
                LISTS_ABC,
                "5 plan1 [F] all\n6 abandon 0\n7 fetch 0 0\n8 abandon 0\n9 delete-shard [listing]\n9 delete-shard [listing]\n9 plan1 [F] all\n9 data [F] all\n",
            ],
            &[
                "xorb 99\nshard true\nplan 0 v1 offset 0 terms 1 links 1\nterm [abc] 0-1 3\nlink 0 [abc]:0:11:5 0-1@0-10\ndone\nrefused arguments\nrefused arguments\ndone\nrefused other\nnone\nrefused file [F]\n",
            ],
        ),
    ];
    are_printed(&rt, rt.alloc(), &rows)
}
