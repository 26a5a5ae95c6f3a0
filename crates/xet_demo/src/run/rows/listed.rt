//! Rows of lists.
use super::*;

#[test]
fn lists_and_dropped_entries(rt: HostRuntime) -> Result<(), Fail> {
    let rows: [Row; 1] = [(
        "lists of xorbs, shards and files, and entries that are dropped",
        &[
            ABC,
            "0 xorbs\n0 shards\n0 files\n0 shard 5845545348524431070000000000000001000000[F]01000000[abc]0000000000000000010000000300000002000000[abc][chunks][abc][chunks]\n",
            "1 xorbs\n1 shards\n1 files\n1 dedup [chunk]\n1 drop-dedup [abc]\n1 dedup [chunk]\n",
            "2 hide [F]\n2 files\n2 shards\n2 drop-dedup [named]\n2 dedup [chunk]\n2 shards\n",
            "3 shard 5845545348524431070000000000000001000000[F]01000000[abc]0000000000000000010000000300000002000000[abc][chunks][abc][chunks]\n3 files\n3 dedup [chunk]\n3 delete-shard [named]\n3 delete-xorb [abc]\n3 drop-dedup [named]\n3 xorbs\n3 shards\n3 files\n",
        ],
        &[
            "xorb 99\n",
            "hashes 1\n[abc]\nhashes 0\nfiles 0\nshard true\n",
            "hashes 1\n[abc]\nhashes 1\n[named]\nfiles 1\n[F] [named]\ndedup 5845545348524431000000000000000001000000[F]01000000[abc]0000000000000000010000000300000001000000[abc][chunks]\ndone\ndedup 5845545348524431000000000000000001000000[F]01000000[abc]0000000000000000010000000300000001000000[abc][chunks]\n",
            "done\nfiles 0\nhashes 1\n[named]\ndone\nnone\nhashes 1\n[named]\n",
            "shard true\nfiles 1\n[F] [named]\ndedup 5845545348524431000000000000000001000000[F]01000000[abc]0000000000000000010000000300000001000000[abc][chunks]\ndone\ndone\ndone\nhashes 0\nhashes 0\nfiles 0\n",
        ],
    )];
    are_printed(&rt, rt.alloc(), &rows)
}
