//! Rows of checks.
use super::*;

#[test]
fn checks_of_what_is_stored(rt: HostRuntime) -> Result<(), Fail> {
    let rows: [Row; 1] = [(
        "checks of a file that is whole, of one that lists a byte too many, of hidden files and deleted xorbs",
        &[
            "0 integrity\n0 reachable\n0 readable\n",
            ABC,
            "1 integrity\n1 reachable\n1 readable\n1 shard 5845545348524431070000000000000001000000[F]01000000[abc]0000000000000000010000000300000002000000[abc][chunks][abc][chunks]\n1 integrity\n1 reachable\n1 readable\n",
            "[shard][F]01000000[abc]0000000000000000010000000400000000000000\n2 integrity\n2 reachable\n2 readable\n",
            "3 hide [F]\n3 integrity\n3 reachable\n3 readable\n3 delete-xorb [abc]\n3 integrity\n3 reachable\n3 readable\n",
            "4 delete-shard [named]\n4 integrity\n4 reachable\n",
        ],
        &[
            "done\ndone\ndone\n",
            "xorb 99\n",
            "done\nrefused other\ndone\nshard true\ndone\ndone\ndone\n",
            "shard true\ndone\ndone\nrefused other\n",
            "done\ndone\nrefused other\ndone\ndone\nrefused other\nrefused other\ndone\n",
            "done\ndone\nrefused other\n",
        ],
    )];
    are_printed(&rt, rt.alloc(), &rows)
}
