//! Rows of queries for deduplication.
use super::*;

#[test]
fn queries_for_a_chunk(rt: HostRuntime) -> Result<(), Fail> {
    let rows: [Row; 1] = [(
        "before its shard, after it, with expirations, and after the shard's deletion",
        &[
            ABC,
            "1 dedup [chunk]\n1 shard 5845545348524431070000000000000001000000[F]01000000[abc]0000000000000000010000000300000002000000[abc][chunks][abc][chunks]\n2 dedup [chunk]\n2 dedup [abc]\n",
            "3 dedup-expire 1500\n10000 dedup [chunk]\n10999 dedup [chunk]\n4 dedup-expire 1\n11000 dedup [chunk]\n6 dedup-expire 18446744073709551615\n18446744073709551615 dedup [chunk]\n",
            "7 dedup-expire 0\n7 dedup [chunk]\n8 dedup-expire 1000\n8 dedup-expire never\n8 dedup [chunk]\n9 delete-shard [named]\n9 dedup [chunk]\n9 shard 5845545348524431070000000000000001000000[F]01000000[abc]0000000000000000010000000300000002000000[abc][chunks][abc][chunks]\n9 dedup [chunk]\n",
        ],
        &[
            "xorb 99\nnone\nshard true\ndedup 5845545348524431000000000000000001000000[F]01000000[abc]0000000000000000010000000300000001000000[abc][chunks]\nnone\n",
            "done\ndedup 58455453485244310c000000000000000000000001000000[abc][chunks]\ndedup 58455453485244310c000000000000000000000001000000[abc][chunks]\ndone\ndedup 58455453485244310c000000000000000000000001000000[abc][chunks]\ndone\ndedup 5845545348524431df4f8d976e1283000000000001000000[abc][chunks]\n",
            "done\ndedup 5845545348524431000000000000000001000000[F]01000000[abc]0000000000000000010000000300000001000000[abc][chunks]\ndone\ndone\ndedup 5845545348524431000000000000000001000000[F]01000000[abc]0000000000000000010000000300000001000000[abc][chunks]\ndone\nnone\nshard true\ndedup 5845545348524431000000000000000001000000[F]01000000[abc]0000000000000000010000000300000001000000[abc][chunks]\n",
        ],
    )];
    are_printed(&rt, rt.alloc(), &rows)
}
