//! Rows of plans of several files.
use super::*;

#[test]
fn plans_of_several_files(rt: HostRuntime) -> Result<(), Fail> {
    let rows: [Row; 2] = [
        (
            "several files: in any order, twice, and some of them not live",
            &[
                ABC,
                FIVE,
                "0 shard 5845545348524431000000000000000003000000[F]03000000[five]00000000000000000100000001000000[five]00000000020000000300000002000000[five]00000000040000000500000003000000[bb 32]03000000[five]00000000040000000500000003000000[abc]00000000000000000100000003000000[five]00000000000000000200000002000000[cc 32]0000000000000000\n",
                "5 batch [bb 32] [F]\n6 batch [F] [bb 32]\n7 batch [F] [F]\n",
                "8 batch [dd 32] [cc 32] [F] [dd 32]\n9 batch [dd 32]\n9 batch [cc 32] [cc 32]\n",
                "10 hide [F]\n10 batch [F] [bb 32] [F]\n10 batch [F]\n11 plan1 [bb 32] all\n",
            ],
            &[
                "xorb 99\nxorb 297\nshard true\n",
                "batch files 2 links 6\nfile [F] terms 3\nterm [five] 0-1 1\nterm [five] 2-3 2\nterm [five] 4-5 3\nfile [bb 32] terms 3\nterm [five] 4-5 3\nterm [abc] 0-1 3\nterm [five] 0-2 2\nentry [abc] [abc]:0:11:5 0-1@0-10\nentry [five] [five]:0:18:5 0-2@0-17\nentry [five] [five]:38:49:5 4-5@38-48\nentry [five] [five]:0:9:5 0-1@0-8\nentry [five] [five]:18:28:5 2-3@18-27\nentry [five] [five]:38:49:5 4-5@38-48\n",
                "batch files 2 links 6\nfile [F] terms 3\nterm [five] 0-1 1\nterm [five] 2-3 2\nterm [five] 4-5 3\nfile [bb 32] terms 3\nterm [five] 4-5 3\nterm [abc] 0-1 3\nterm [five] 0-2 2\nentry [abc] [abc]:0:11:6 0-1@0-10\nentry [five] [five]:0:9:6 0-1@0-8\nentry [five] [five]:18:28:6 2-3@18-27\nentry [five] [five]:38:49:6 4-5@38-48\nentry [five] [five]:0:18:6 0-2@0-17\nentry [five] [five]:38:49:6 4-5@38-48\n",
                "batch files 1 links 6\nfile [F] terms 3\nterm [five] 0-1 1\nterm [five] 2-3 2\nterm [five] 4-5 3\nentry [five] [five]:0:9:7 0-1@0-8\nentry [five] [five]:18:28:7 2-3@18-27\nentry [five] [five]:38:49:7 4-5@38-48\nentry [five] [five]:0:9:7 0-1@0-8\nentry [five] [five]:18:28:7 2-3@18-27\nentry [five] [five]:38:49:7 4-5@38-48\n",
                "batch files 2 links 3\nfile [F] terms 3\nterm [five] 0-1 1\nterm [five] 2-3 2\nterm [five] 4-5 3\nfile [cc 32] terms 0\nentry [five] [five]:0:9:8 0-1@0-8\nentry [five] [five]:18:28:8 2-3@18-27\nentry [five] [five]:38:49:8 4-5@38-48\n",
                "batch files 0 links 0\n",
                "batch files 1 links 0\nfile [cc 32] terms 0\ndone\n",
                "batch files 1 links 3\nfile [bb 32] terms 3\nterm [five] 4-5 3\nterm [abc] 0-1 3\nterm [five] 0-2 2\nentry [abc] [abc]:0:11:10 0-1@0-10\nentry [five] [five]:0:18:10 0-2@0-17\nentry [five] [five]:38:49:10 4-5@38-48\n",
                "batch files 0 links 0\nplan 0 v1 offset 0 terms 3 links 3\nterm [five] 4-5 3\nterm [abc] 0-1 3\nterm [five] 0-2 2\nlink 0 [abc]:0:11:11 0-1@0-10\nlink 1 [five]:0:18:11 0-2@0-17\nlink 2 [five]:38:49:11 4-5@38-48\n",
            ],
        ),
        (
            "the first plan that is refused",
            &[
                ABC,
                FIVE,
                "0 shard 5845545348524431000000000000000004000000[F]01000000[abc]00000000000000000100000003000000[bb 32]02000000[abc]00000000000000000100000003000000[two]00000000000000000100000096000000[cc 32]01000000[abc]00000000000000000100000004000000[dd 32]02000000[five]00000000000000000100000007000000[four]0000000000000000010000006400000000000000\n",
                "5 batch [F] [bb 32] [cc 32] [F]\n5 batch [F] [cc 32] [bb 32]\n5 batch [dd 32] [bb 32]\n5 batch [ee 32] [F] [dd 32]\n",
                "6 delete-xorb [five]\n6 batch [F] [dd 32] [cc 32]\n6 hide [cc 32]\n6 batch [cc 32] [F] [bb 32]\n6 hide [bb 32]\n6 batch [bb 32] [F]\n7 plan1 [F] all\n8 fetch 0 0\n",
            ],
            &[
                "xorb 99\nxorb 297\nshard true\nrefused xorb [two]\nrefused format-segment\nrefused format-segment\nrefused format-segment\ndone\nrefused xorb [five]\ndone\nrefused xorb [two]\ndone\n",
                "batch files 1 links 1\nfile [F] terms 1\nterm [abc] 0-1 3\nentry [abc] [abc]:0:11:6 0-1@0-10\nplan 0 v1 offset 0 terms 1 links 1\nterm [abc] 0-1 3\nlink 0 [abc]:0:11:7 0-1@0-10\nfinished 0 wire 11 [note] 616263\n",
            ],
        ),
    ];
    are_printed(&rt, rt.alloc(), &rows)
}
