//! Rows of generated xorbs.
use super::*;

/// The name of the xorb of two chunks of 64 bytes from the seed 1.
const NAME: &str = "9386a9154dd83319e368dd21d4d6443145f63fdf6c4954eff6f06eab85768e59";

/// Its chunks, joined.
const CHUNKS: &str =
    "8ffae9b1f0f2fa25cebb88273db0d816ffdaf0817dc822e008e446a21b2460eaccacd75108cd4558c89e18dcac9709851c6df15fff8bb22bf0dcfcaca25fa0bfc0a590ffcdcce587ef0e5e7eb0557720f11542daa065813afca0d24a6b5d49707925332aea836ea7d3ced96726b6577c146702de4047e4cf8532802e9c285dff";

#[test]
fn stores_generated_xorbs(rt: HostRuntime) -> Result<(), Fail> {
    let rows: [Row; 2] = [
        (
            "a generated xorb, again, listed, read, deleted and generated again",
            &[
                "0 random 1 2 64\n1 random 1 2 64\n2 xorb ",
                NAME,
                " 00\n",
                "3 shard 5845545348524431000000000000000001000000[F]01000000",
                NAME,
                "00000000000000000200000080000000",
                "00000000\n",
                "4 data [F] all\n5 delete-xorb ",
                NAME,
                "\n6 data [F] all\n7 random 1 2 64\n8 data [F] 126-128\n",
            ],
            &[
                "random ",
                NAME,
                "\nrandom ",
                NAME,
                "\nxorb 0\nshard true\ndata ",
                CHUNKS,
                "\ndone\nrefused xorb ",
                NAME,
                "\nrandom ",
                NAME,
                "\ndata 5dff\n",
            ],
        ),
        (
            "lists that aren't those of a xorb",
            &[
                "0 random 1 0 64\n0 random 1 2 0\n0 random 1 1 16777216\n0 random 1 256 16777215\n0 random 1 4294967295 4294967295\n",
            ],
            &[
                "refused arguments\nrefused arguments\nrefused arguments\nrefused arguments\nrefused arguments\n",
            ],
        ),
    ];
    are_printed(&rt, rt.alloc(), &rows)
}
