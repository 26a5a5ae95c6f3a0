//! The text of a link of version 2, from the runs that it brings.
ghost use Rattle.std.specs.Prelude.{◌∷◌, ◌++◌, codes, map};
ghost use Rattle.base64.specs.Engines.{url_safe_no_pad};
ghost use Rattle.base64.specs.GeneralPurpose.{encode_of};
ghost use Rattle.std.specs.Fmt.{decimal};
ghost use Rattle.hex.specs.Hex.{encode_lower};
ghost use Rattle.xet_types.specs.Ranges.{range_text};
ghost use Rattle.xet_wire.specs.Texts.{ranges_text, ranges_text_from};
ghost use Rattle.xet_wire.specs.Links.{bytes_of, link_payload};
ghost use Rattle.xet_store.specs.Responses.{descriptor_of};
ghost use Rattle.xet_demo.specs.Pages.{Prints, output};
ghost use Rattle.xet_demo.specs.Blocks.{PrintsBlocks};

use super::encoder::Encoder;
use super::page::Page;
use xet_plan::MergedRange;
use xet_store::descriptor;
use xet_types::{MerkleHash, Sink};

/// Encodes the bytes of a run, with an inclusive end.
fn put_run<K: Sink>(
    encoder: &mut Encoder,
    page: &mut Page,
    sink: &mut K,
    before: &[u8],
    run: &MergedRange,
)
    ensures { PrintsBlocks (output (K.taken sink.old) (K.faults sink.old) page.old) (output (K.taken sink.new) (K.faults sink.new) page.new) encoder.old encoder.new (before.now ++ range_text (bytes_of (descriptor_of run.now))) }
{
    let bytes = descriptor(run).bytes;
    encoder.put(page, sink, before);
    encoder.put_number(page, sink, bytes.start);
    encoder.put(page, sink, b"-");
    encoder.put_number(page, sink, bytes.end);
}

/// Encodes the bytes of runs that aren't the first, with a comma before each.
fn put_next_runs<K: Sink>(
    encoder: &mut Encoder,
    page: &mut Page,
    sink: &mut K,
    runs: &[MergedRange],
)
    ensures { PrintsBlocks (output (K.taken sink.old) (K.faults sink.old) page.old) (output (K.taken sink.new) (K.faults sink.new) page.new) encoder.old encoder.new (ranges_text_from 1 (map bytes_of (map descriptor_of runs.now))) }
{
    for run in runs {
        put_run(encoder, page, sink, b",", run);
    }
}

/// Encodes the bytes of runs, with commas between them.
fn put_runs<K: Sink>(encoder: &mut Encoder, page: &mut Page, sink: &mut K, runs: &[MergedRange])
    ensures { PrintsBlocks (output (K.taken sink.old) (K.faults sink.old) page.old) (output (K.taken sink.new) (K.faults sink.new) page.new) encoder.old encoder.new (ranges_text (map bytes_of (map descriptor_of runs.now))) }
{
    match runs {
        [] => {}
        [first, rest @ ..] => {
            put_run(encoder, page, sink, b"", first);
            put_next_runs(encoder, page, sink, rest);
        }
    }
}

/// Encodes what stands before the runs: the hash and the moment, each with a colon behind it.
fn put_start<K: Sink>(
    encoder: &mut Encoder,
    page: &mut Page,
    sink: &mut K,
    hash: &MerkleHash,
    at: u64,
)
    ensures { PrintsBlocks (output (K.taken sink.old) (K.faults sink.old) page.old) (output (K.taken sink.new) (K.faults sink.new) page.new) encoder.old encoder.new (encode_lower hash.now ++ (58 ∷ decimal at) ++ codes ":") }
{
    encoder.put_hash(page, sink, hash);
    encoder.put(page, sink, b":");
    encoder.put_number(page, sink, at);
    encoder.put(page, sink, b":");
}

/// Prints the text of the link of version 2 of some runs of a xorb's chunks, with the moment of the plan in milliseconds.
pub fn print_second_link<K: Sink>(
    page: &mut Page,
    sink: &mut K,
    hash: &MerkleHash,
    runs: &[MergedRange],
    at: u64,
)
    ensures { Prints (output (K.taken sink.old) (K.faults sink.old) page.old) (output (K.taken sink.new) (K.faults sink.new) page.new) (encode_of url_safe_no_pad (link_payload hash.now at (map bytes_of (map descriptor_of runs.now)))) }
{
    let mut encoder = Encoder::new();
    put_start(&mut encoder, page, sink, hash, at);
    put_runs(&mut encoder, page, sink, runs);
    encoder.finish(page, sink);
}

#[cfg(test)]
mod tests;
