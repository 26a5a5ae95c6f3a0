//! What a large run prints of its replies: how many there are, and their lengths summed.
ghost use Rattle.std.specs.Prelude.{◌≡◌, sum_by, length};
ghost use Rattle.xet_demo.specs.Pages.{Prints, output};
ghost use Rattle.xet_demo.specs.Summaries.{stored_files, finished_reads, finished_bytes, wire_of, capped, count_line, summary_text};

use super::page::Page;
use xet_service::{Pieces, Reply};
use xet_types::Sink;

/// How many generated files were stored: 1 or 0.
fn stored_files(reply: &Reply) -> u64
    ensures { result ≡ stored_files reply.now }
{
    match reply {
        Reply::Lazy { .. } => 1,
        _ => 0,
    }
}

/// How many reads have ended: 1 or 0.
fn finished_reads(reply: &Reply) -> u64
    ensures { result ≡ finished_reads reply.now }
{
    match reply {
        Reply::Finished { .. } => 1,
        _ => 0,
    }
}

/// How many bytes pieces have, at most 2^64 - 1.
fn length_of(bytes: &Pieces) -> u64
    ensures { result ≡ capped (length bytes.now) }
{
    let mut length = 0u64;
    let mut walk = bytes.walk();
    while let Some(piece) = walk.next() {
        length = length.saturating_add(piece.len() as u64);
    }
    length
}

/// How many bytes a read has given that has ended; 0 for other replies.
fn finished_bytes(reply: &Reply) -> u64
    ensures { result ≡ capped (finished_bytes reply.now) }
{
    match reply {
        Reply::Finished { bytes, .. } => length_of(bytes),
        _ => 0,
    }
}

/// The length of the body that a fetch brought; 0 for other replies.
fn wire_of(reply: &Reply) -> u64
    ensures { result ≡ wire_of reply.now }
{
    match reply {
        Reply::Fetched { wire, .. } | Reply::Finished { wire, .. } => *wire,
        _ => 0,
    }
}

/// How many generated files were stored.
fn all_files(replies: &[Reply]) -> u64
    ensures { result ≡ capped (sum_by stored_files replies.now) }
{
    let mut files = 0u64;
    for reply in replies {
        files = files.saturating_add(stored_files(reply));
    }
    files
}

/// How many reads have ended.
fn all_finished(replies: &[Reply]) -> u64
    ensures { result ≡ capped (sum_by finished_reads replies.now) }
{
    let mut finished = 0u64;
    for reply in replies {
        finished = finished.saturating_add(finished_reads(reply));
    }
    finished
}

/// The bytes of all reads that have ended, summed.
fn all_bytes(replies: &[Reply]) -> u64
    ensures { result ≡ capped (sum_by finished_bytes replies.now) }
{
    let mut bytes = 0u64;
    for reply in replies {
        bytes = bytes.saturating_add(finished_bytes(reply));
    }
    bytes
}

/// The lengths of all bodies, summed.
fn all_wire(replies: &[Reply]) -> u64
    ensures { result ≡ capped (sum_by wire_of replies.now) }
{
    let mut wire = 0u64;
    for reply in replies {
        wire = wire.saturating_add(wire_of(reply));
    }
    wire
}

/// Prints a word and a number.
#[tactic(auto, unfolding(crate::specs::Summaries::count_line))]
fn print_count<K: Sink>(page: &mut Page, sink: &mut K, word: &[u8], count: u64)
    ensures { Prints (output (K.taken sink.old) (K.faults sink.old) page.old) (output (K.taken sink.new) (K.faults sink.new) page.new) (count_line word.now count) }
{
    page.put(sink, word);
    page.put_number(sink, count);
    page.put(sink, b"\n");
}

/// Prints how many files were stored and how many reads have ended, the bytes of these reads, and the lengths of all bodies. A sum
/// stands still at 2^64 - 1.
pub fn print_summary<K: Sink>(page: &mut Page, sink: &mut K, replies: &[Reply])
    ensures { Prints (output (K.taken sink.old) (K.faults sink.old) page.old) (output (K.taken sink.new) (K.faults sink.new) page.new) (summary_text replies.now) }
{
    print_count(page, sink, b"files ", all_files(replies));
    print_count(page, sink, b"finished ", all_finished(replies));
    print_count(page, sink, b"bytes ", all_bytes(replies));
    print_count(page, sink, b"wire ", all_wire(replies));
}
