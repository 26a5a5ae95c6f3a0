//! The runs of plans, as links bring them.
ghost use Rattle.std.specs.Prelude.{◌≡◌};
ghost use Rattle.xet_store.specs.Responses.{descriptor_of};

use xet_plan::MergedRange;
use xet_types::{HttpRange, XorbRangeDescriptor};

/// The chunks of a run, and their bytes with an inclusive end.
pub fn descriptor(run: &MergedRange) -> XorbRangeDescriptor
    ensures { result ≡ descriptor_of run.now }
{
    let bytes = &run.byte_range;
    XorbRangeDescriptor {
        chunks: run.chunk_range,
        bytes: HttpRange::new(bytes.start, bytes.end.saturating_sub(1)),
    }
}
