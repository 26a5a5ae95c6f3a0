//! Rows of ranges: which chunks and links they take, and which are refused.
use super::*;

/// A xorb of chunks of 100, 200 and 300 bytes.
const THREE: &str =
    "0 xorb [three] 0064000000640000[71 100]00c8000000c80000[72 200]002c0100002c0100[73 300]\n";

/// Lists the file as these three chunks, in one segment.
const LISTS_THREE: &str = "[shard][F]01000000[three]0000000000000000030000005802000000000000\n";

/// A xorb of one chunk of 500 bytes.
const ONE: &str = "0 xorb [one] 00f4010000f40100[75 500]\n";

/// Lists the file as that chunk.
const LISTS_ONE: &str = "[shard][F]01000000[one]000000000000000001000000f401000000000000\n";

/// A xorb of one chunk of 100 bytes.
const SMALL: &str = "0 xorb [small] 0064000000640000[74 100]\n";

/// Lists the file as that chunk.
const LISTS_SMALL: &str = "[shard][F]01000000[small]0000000000000000010000006400000000000000\n";

/// Lists the file as its chunks, in two segments of two.
const LISTS_HALVES: &str =
    "[shard][F]02000000[four]000000000000000002000000c8000000[four]000000000200000004000000c800000000000000\n";

/// Lists the file as two of the four chunks, these two, and the other two of the four.
const LISTS_BETWEEN: &str =
    "[shard][F]03000000[four]000000000000000002000000c8000000[two]0000000000000000020000002c010000[four]000000000200000004000000c800000000000000\n";

/// Lists the file as the chunk of 500 bytes, and the three chunks as 601 bytes, of which they have 600.
const LISTS_601: &str =
    "[shard][F]02000000[one]000000000000000001000000f4010000[three]0000000000000000030000005902000000000000\n";

/// Lists the file as the chunk of 500 bytes, and four chunks of the xorb that has three.
const LISTS_FOURTH: &str =
    "[shard][F]02000000[one]000000000000000001000000f4010000[three]0000000000000000040000005802000000000000\n";

/// Lists the file with no segment.
const LISTS_NOTHING: &str = "[shard][F]0000000000000000\n";

#[test]
fn ranges_of_one_segment(rt: HostRuntime) -> Result<(), Fail> {
    let rows: [Row; 4] = [
        (
            "the whole file",
            &[THREE, LISTS_THREE, "5 plan1 [F] all\n6 fetch 0 0\n"],
            &[
                "xorb 792\nshard true\nplan 0 v1 offset 0 terms 1 links 1\nterm [three] 0-3 600\nlink 0 [three]:0:624:5 0-3@0-623\nfinished 0 wire 624 [note] [71 100][72 200][73 300]\n",
            ],
        ),
        (
            "one chunk",
            &[THREE, LISTS_THREE, "5 plan1 [F] 100-300\n6 fetch 0 0\n"],
            &[
                "xorb 792\nshard true\nplan 0 v1 offset 0 terms 1 links 1\nterm [three] 1-2 200\nlink 0 [three]:108:316:5 1-2@108-315\nfinished 0 wire 208 [note] [72 200]\n",
            ],
        ),
        (
            "from inside a chunk up to the end",
            &[THREE, LISTS_THREE, "5 plan1 [F] 150-600\n6 fetch 0 0\n"],
            &[
                "xorb 792\nshard true\nplan 0 v1 offset 50 terms 1 links 1\nterm [three] 1-3 500\nlink 0 [three]:108:624:5 1-3@108-623\nfinished 0 wire 516 [note] [72 150][73 300]\n",
            ],
        ),
        (
            "an end past the file's",
            &[ONE, LISTS_ONE, "5 plan1 [F] 0-10000\n6 fetch 0 0\n"],
            &[
                "xorb 596\nshard true\nplan 0 v1 offset 0 terms 1 links 1\nterm [one] 0-1 500\nlink 0 [one]:0:508:5 0-1@0-507\nfinished 0 wire 508 [note] [75 500]\n",
            ],
        ),
    ];
    are_printed(&rt, rt.alloc(), &rows)
}

#[test]
fn ranges_without_a_plan(rt: HostRuntime) -> Result<(), Fail> {
    let rows: [Row; 4] = [
        (
            "past the end",
            &[SMALL, LISTS_SMALL, "5 plan1 [F] 200-300\n"],
            &["xorb 196\nshard true\nnone\n"],
        ),
        (
            "empty",
            &[SMALL, LISTS_SMALL, "5 plan1 [F] 50-50\n"],
            &["xorb 196\nshard true\nrefused range\n"],
        ),
        (
            "reversed",
            &[SMALL, LISTS_SMALL, "5 plan1 [F] 50-40\n"],
            &["xorb 196\nshard true\nrefused range\n"],
        ),
        (
            "an empty file",
            &[
                LISTS_NOTHING,
                "5 plan1 [F] all\n5 plan1 [F] 0-100\n5 plan1 [F] 1-100\n",
            ],
            &["shard true\nfinished 0 wire 0 [note] -\nfinished 1 wire 0 [note] -\nnone\n"],
        ),
    ];
    are_printed(&rt, rt.alloc(), &rows)
}

#[test]
fn links_of_several_segments(rt: HostRuntime) -> Result<(), Fail> {
    let rows: [Row; 2] = [
        (
            "two segments, whose chunks touch",
            &[FOUR, LISTS_HALVES, "5 plan1 [F] all\n6 fetch 0 0\n"],
            &[
                "xorb 640\nshard true\nplan 0 v1 offset 0 terms 2 links 1\nterm [four] 0-2 200\nterm [four] 2-4 200\nlink 0 [four]:0:432:5 0-4@0-431\nfinished 0 wire 432 [note] [61 100][62 100][63 100][64 100]\n",
            ],
        ),
        (
            "a segment of another xorb between them",
            &[
                FOUR,
                TWO,
                LISTS_BETWEEN,
                "5 plan1 [F] all\n6 fetch 0 0\n6 fetch 0 1\n",
            ],
            &[
                "xorb 640\nxorb 444\nshard true\nplan 0 v1 offset 0 terms 3 links 2\nterm [four] 0-2 200\nterm [two] 0-2 300\nterm [four] 2-4 200\nlink 0 [two]:0:316:5 0-2@0-315\nlink 1 [four]:0:432:5 0-4@0-431\nfetched 0 0 left 1 wire 316 [note]\nfinished 0 wire 432 [note] [61 100][62 100][65 150][66 150][63 100][64 100]\n",
            ],
        ),
    ];
    are_printed(&rt, rt.alloc(), &rows)
}

#[test]
fn segments_that_disagree(rt: HostRuntime) -> Result<(), Fail> {
    let rows: [Row; 2] = [
        (
            "another length",
            &[
                THREE,
                ONE,
                LISTS_601,
                "5 plan1 [F] all\n5 plan1 [F] 0-501\n5 plan1 [F] 0-500\n6 fetch 0 0\n",
            ],
            &[
                "xorb 792\nxorb 596\nshard true\nrefused format-segment\nrefused format-segment\nplan 0 v1 offset 0 terms 1 links 1\nterm [one] 0-1 500\nlink 0 [one]:0:508:5 0-1@0-507\nfinished 0 wire 508 [note] [75 500]\n",
            ],
        ),
        (
            "an end past the xorb",
            &[
                THREE,
                ONE,
                LISTS_FOURTH,
                "5 plan1 [F] all\n5 plan1 [F] 0-501\n5 plan1 [F] 0-500\n6 fetch 0 0\n",
            ],
            &[
                "xorb 792\nxorb 596\nshard true\nrefused format-segment\nrefused format-segment\nplan 0 v1 offset 0 terms 1 links 1\nterm [one] 0-1 500\nlink 0 [one]:0:508:5 0-1@0-507\nfinished 0 wire 508 [note] [75 500]\n",
            ],
        ),
    ];
    are_printed(&rt, rt.alloc(), &rows)
}
