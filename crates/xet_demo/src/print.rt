//! Replies as text.
ghost use Rattle.std.specs.Prelude.{◌≡◌, ◌+◌, ◌^◌, ◌<◌, ◌∷◌, ◌++◌, length, map, codes};
ghost use Rattle.std.specs.Fmt.{decimal};
ghost use Rattle.std.specs.List.{flat_map};
ghost use Rattle.hex.specs.Hex.{encode_lower};
ghost use Rattle.xet_wire.specs.Links.{link_text};
ghost use Rattle.xet_store.specs.Responses.{descriptor_of, ranges_link};
ghost use Rattle.xet_service.specs.LinkForms.{version_text, version_link};
ghost use Rattle.xet_demo.specs.Pages.{Prints, output};
ghost use Rattle.xet_demo.specs.Printed.{octets_text, truth_word, version_word, uploaded_line, shard_line, none_line, done_line, size_line, dedup_start, data_start, plan_line, term_line, terms_text, range_text, ranges_text, link_start, link_line, links_text, cache_word, note_text, fetched_start, finished_start, refusal_word, refusal_detail, refused_line, reply_text, replies_text, hashes_start, hash_line, hashes_text, files_start, entry_line, entries_text, random_line, lazy_line, batch_start, file_start, file_text, all_files_text, entry_start, xorb_entry_line, xorb_entries_text};
ghost use Rattle.xet_demo.specs.Summaries.{report_text};

pub mod digits;
pub mod encoder;
pub mod page;
pub mod second_link;
pub mod summary;

use page::Page;
use second_link::print_second_link;
use summary::print_summary;
use xet_plan::MergedRange;
use xet_service::{CacheNote, CacheRefusal, Pieces, PlanLinks, PlanVersion, PlannedLink, Reply};
use xet_store::descriptor;
use xet_types::{
    FileRange, FormatFault, Items, MerkleHash, Octets, Refusal, Sink, XorbRangeDescriptor,
    XorbReconstructionTerm,
};

fn truth_word(truth: bool) -> &'static [u8]
    ensures { result.now ≡ truth_word truth }
{
    if truth { b"true" } else { b"false" }
}

fn version_word(version: PlanVersion) -> &'static [u8]
    ensures { result.now ≡ version_word version }
{
    match version {
        PlanVersion::V1 => b"v1",
        PlanVersion::V2 => b"v2",
    }
}

fn cache_word(refused: &Option<CacheRefusal>) -> &'static [u8]
    ensures { result.now ≡ cache_word refused.now }
{
    match refused {
        None => b"none",
        Some(CacheRefusal::General) => b"general",
        Some(CacheRefusal::Io) => b"io",
        Some(CacheRefusal::Parse) => b"parse",
        Some(CacheRefusal::BadRange) => b"bad-range",
        Some(CacheRefusal::InvalidArguments) => b"arguments",
        Some(CacheRefusal::OutOfMemory) => b"memory",
        Some(CacheRefusal::Disagrees) => b"disagrees",
    }
}

fn refusal_word(refusal: &Refusal) -> &'static [u8]
    ensures { result.now ≡ refusal_word refusal.now }
{
    match refusal {
        Refusal::FormatError(FormatFault::Xorb) => b"format-xorb",
        Refusal::FormatError(FormatFault::Shard) => b"format-shard",
        Refusal::FormatError(FormatFault::Segment) => b"format-segment",
        Refusal::FormatError(FormatFault::Table) => b"format-table",
        Refusal::FormatError(FormatFault::Body) => b"format-body",
        Refusal::InvalidRange => b"range",
        Refusal::InvalidArguments => b"arguments",
        Refusal::FileNotFound(_) => b"file ",
        Refusal::XORBNotFound(_) => b"xorb ",
        Refusal::PresignedUrlExpirationError => b"expired",
        Refusal::IOError => b"io",
        Refusal::Other => b"other",
        Refusal::InvalidKey => b"key",
        Refusal::CacheError => b"cache",
        Refusal::HttpStatus(_) => b"status ",
    }
}

/// Prints what stands behind the first word of a refusal.
fn print_refusal_detail<K: Sink>(page: &mut Page, sink: &mut K, refusal: &Refusal)
    ensures { Prints (output (K.taken sink.old) (K.faults sink.old) page.old) (output (K.taken sink.new) (K.faults sink.new) page.new) (refusal_detail refusal.now) }
{
    match refusal {
        Refusal::FileNotFound(hash) | Refusal::XORBNotFound(hash) => page.put_hash(sink, hash),
        Refusal::HttpStatus(status) => page.put_number(sink, u64::from(*status)),
        _ => {}
    }
}

#[tactic(auto, unfolding(crate::specs::Printed::uploaded_line))]
fn print_uploaded<K: Sink>(page: &mut Page, sink: &mut K, length: u64)
    ensures { Prints (output (K.taken sink.old) (K.faults sink.old) page.old) (output (K.taken sink.new) (K.faults sink.new) page.new) (uploaded_line length) }
{
    page.put(sink, b"xorb ");
    page.put_number(sink, length);
    page.put(sink, b"\n");
}

#[tactic(auto, unfolding(crate::specs::Printed::term_line))]
fn print_term<K: Sink>(page: &mut Page, sink: &mut K, term: &XorbReconstructionTerm)
    ensures { Prints (output (K.taken sink.old) (K.faults sink.old) page.old) (output (K.taken sink.new) (K.faults sink.new) page.new) (term_line term.now) }
{
    page.put(sink, b"term ");
    page.put_hash(sink, &term.hash);
    page.put(sink, b" ");
    page.put_number(sink, u64::from(term.range.start));
    page.put(sink, b"-");
    page.put_number(sink, u64::from(term.range.end));
    page.put(sink, b" ");
    page.put_number(sink, u64::from(term.unpacked_length));
    page.put(sink, b"\n");
}

#[tactic(auto, unfolding(crate::specs::Printed::shard_line))]
fn print_shard<K: Sink>(page: &mut Page, sink: &mut K, taken: bool)
    ensures { Prints (output (K.taken sink.old) (K.faults sink.old) page.old) (output (K.taken sink.new) (K.faults sink.new) page.new) (shard_line taken) }
{
    page.put(sink, b"shard ");
    page.put(sink, truth_word(taken));
    page.put(sink, b"\n");
}

#[tactic(auto, unfolding(crate::specs::Printed::none_line))]
fn print_none<K: Sink>(page: &mut Page, sink: &mut K)
    ensures { Prints (output (K.taken sink.old) (K.faults sink.old) page.old) (output (K.taken sink.new) (K.faults sink.new) page.new) none_line }
{
    page.put(sink, b"none\n");
}

#[tactic(auto, unfolding(crate::specs::Printed::done_line))]
fn print_done<K: Sink>(page: &mut Page, sink: &mut K)
    ensures { Prints (output (K.taken sink.old) (K.faults sink.old) page.old) (output (K.taken sink.new) (K.faults sink.new) page.new) done_line }
{
    page.put(sink, b"done\n");
}

#[tactic(auto, unfolding(crate::specs::Printed::size_line))]
fn print_size<K: Sink>(page: &mut Page, sink: &mut K, size: u64)
    ensures { Prints (output (K.taken sink.old) (K.faults sink.old) page.old) (output (K.taken sink.new) (K.faults sink.new) page.new) (size_line size) }
{
    page.put(sink, b"size ");
    page.put_number(sink, size);
    page.put(sink, b"\n");
}

#[tactic(auto, unfolding(crate::specs::Printed::hashes_start))]
fn print_hashes_start<K: Sink>(page: &mut Page, sink: &mut K, count: usize)
    ensures { Prints (output (K.taken sink.old) (K.faults sink.old) page.old) (output (K.taken sink.new) (K.faults sink.new) page.new) (hashes_start count) }
{
    page.put(sink, b"hashes ");
    page.put_number(sink, count as u64);
    page.put(sink, b"\n");
}

#[tactic(auto, unfolding(crate::specs::Printed::hash_line))]
fn print_hash<K: Sink>(page: &mut Page, sink: &mut K, hash: &MerkleHash)
    ensures { Prints (output (K.taken sink.old) (K.faults sink.old) page.old) (output (K.taken sink.new) (K.faults sink.new) page.new) (hash_line hash.now) }
{
    page.put_hash(sink, hash);
    page.put(sink, b"\n");
}

fn print_hashes<K: Sink>(page: &mut Page, sink: &mut K, hashes: &[MerkleHash])
    ensures { Prints (output (K.taken sink.old) (K.faults sink.old) page.old) (output (K.taken sink.new) (K.faults sink.new) page.new) (hashes_text hashes.now) }
{
    for hash in hashes {
        print_hash(page, sink, hash);
    }
}

/// Prints how many hashes there are, and each.
fn print_hash_list<K: Sink>(page: &mut Page, sink: &mut K, hashes: &[MerkleHash])
    ensures { Prints (output (K.taken sink.old) (K.faults sink.old) page.old) (output (K.taken sink.new) (K.faults sink.new) page.new) (hashes_start (length hashes.now) ++ hashes_text hashes.now) }
{
    print_hashes_start(page, sink, hashes.len());
    print_hashes(page, sink, hashes);
}

#[tactic(auto, unfolding(crate::specs::Printed::files_start))]
fn print_files_start<K: Sink>(page: &mut Page, sink: &mut K, count: usize)
    ensures { Prints (output (K.taken sink.old) (K.faults sink.old) page.old) (output (K.taken sink.new) (K.faults sink.new) page.new) (files_start count) }
{
    page.put(sink, b"files ");
    page.put_number(sink, count as u64);
    page.put(sink, b"\n");
}

#[tactic(auto, unfolding(crate::specs::Printed::entry_line))]
fn print_entry<K: Sink>(page: &mut Page, sink: &mut K, entry: &(MerkleHash, MerkleHash))
    ensures { Prints (output (K.taken sink.old) (K.faults sink.old) page.old) (output (K.taken sink.new) (K.faults sink.new) page.new) (entry_line entry.now) }
{
    page.put_hash(sink, &entry.0);
    page.put(sink, b" ");
    page.put_hash(sink, &entry.1);
    page.put(sink, b"\n");
}

fn print_entries<K: Sink>(page: &mut Page, sink: &mut K, entries: &[(MerkleHash, MerkleHash)])
    ensures { Prints (output (K.taken sink.old) (K.faults sink.old) page.old) (output (K.taken sink.new) (K.faults sink.new) page.new) (entries_text entries.now) }
{
    for entry in entries {
        print_entry(page, sink, entry);
    }
}

/// Prints how many files there are, and each with the shard that lists it.
fn print_file_list<K: Sink>(page: &mut Page, sink: &mut K, files: &[(MerkleHash, MerkleHash)])
    ensures { Prints (output (K.taken sink.old) (K.faults sink.old) page.old) (output (K.taken sink.new) (K.faults sink.new) page.new) (files_start (length files.now) ++ entries_text files.now) }
{
    print_files_start(page, sink, files.len());
    print_entries(page, sink, files);
}

#[tactic(auto, unfolding(crate::specs::Printed::random_line))]
fn print_random<K: Sink>(page: &mut Page, sink: &mut K, hash: &MerkleHash)
    ensures { Prints (output (K.taken sink.old) (K.faults sink.old) page.old) (output (K.taken sink.new) (K.faults sink.new) page.new) (random_line hash.now) }
{
    page.put(sink, b"random ");
    page.put_hash(sink, hash);
    page.put(sink, b"\n");
}

#[tactic(auto, unfolding(crate::specs::Printed::lazy_line))]
fn print_lazy<K: Sink>(page: &mut Page, sink: &mut K, file: &MerkleHash, size: u64)
    ensures { Prints (output (K.taken sink.old) (K.faults sink.old) page.old) (output (K.taken sink.new) (K.faults sink.new) page.new) (lazy_line file.now size) }
{
    page.put(sink, b"lazy ");
    page.put_hash(sink, file);
    page.put(sink, b" ");
    page.put_number(sink, size);
    page.put(sink, b"\n");
}

#[tactic(auto, unfolding(crate::specs::Printed::dedup_start))]
fn print_dedup_start<K: Sink>(page: &mut Page, sink: &mut K)
    ensures { Prints (output (K.taken sink.old) (K.faults sink.old) page.old) (output (K.taken sink.new) (K.faults sink.new) page.new) dedup_start }
{
    page.put(sink, b"dedup ");
}

#[tactic(auto, unfolding(crate::specs::Printed::data_start))]
fn print_data_start<K: Sink>(page: &mut Page, sink: &mut K)
    ensures { Prints (output (K.taken sink.old) (K.faults sink.old) page.old) (output (K.taken sink.new) (K.faults sink.new) page.new) data_start }
{
    page.put(sink, b"data ");
}

fn print_terms<K: Sink>(page: &mut Page, sink: &mut K, terms: &[XorbReconstructionTerm])
    ensures { Prints (output (K.taken sink.old) (K.faults sink.old) page.old) (output (K.taken sink.new) (K.faults sink.new) page.new) (terms_text terms.now) }
{
    for term in terms {
        print_term(page, sink, term);
    }
}

#[tactic(auto, unfolding(crate::specs::Printed::range_text))]
fn print_range<K: Sink>(page: &mut Page, sink: &mut K, before: &[u8], range: &XorbRangeDescriptor)
    ensures { Prints (output (K.taken sink.old) (K.faults sink.old) page.old) (output (K.taken sink.new) (K.faults sink.new) page.new) (range_text before.now range.now) }
{
    page.put(sink, before);
    page.put_number(sink, u64::from(range.chunks.start));
    page.put(sink, b"-");
    page.put_number(sink, u64::from(range.chunks.end));
    page.put(sink, b"@");
    page.put_number(sink, range.bytes.start);
    page.put(sink, b"-");
    page.put_number(sink, range.bytes.end);
}

fn print_next_ranges<K: Sink>(page: &mut Page, sink: &mut K, runs: &[MergedRange])
    ensures { Prints (output (K.taken sink.old) (K.faults sink.old) page.old) (output (K.taken sink.new) (K.faults sink.new) page.new) (flat_map (range_text (codes ",")) (map descriptor_of runs.now)) }
{
    for run in runs {
        print_range(page, sink, b",", &descriptor(run));
    }
}

/// Prints the chunks of runs, and their bytes with an inclusive end.
fn print_ranges<K: Sink>(page: &mut Page, sink: &mut K, runs: &[MergedRange])
    ensures { Prints (output (K.taken sink.old) (K.faults sink.old) page.old) (output (K.taken sink.new) (K.faults sink.new) page.new) (ranges_text (map descriptor_of runs.now)) }
{
    match runs {
        [] => {}
        [first, rest @ ..] => {
            print_range(page, sink, b"", &descriptor(first));
            print_next_ranges(page, sink, rest);
        }
    }
}

/// Prints a number behind a colon.
fn print_behind_colon<K: Sink>(page: &mut Page, sink: &mut K, number: u64)
    ensures { Prints (output (K.taken sink.old) (K.faults sink.old) page.old) (output (K.taken sink.new) (K.faults sink.new) page.new) (58 ∷ decimal number) }
{
    page.put(sink, b":");
    page.put_number(sink, number);
}

/// Prints the text of a link of version 1.
fn print_first_link<K: Sink>(
    page: &mut Page,
    sink: &mut K,
    hash: &MerkleHash,
    bytes: &FileRange,
    at: u64,
)
    ensures { Prints (output (K.taken sink.old) (K.faults sink.old) page.old) (output (K.taken sink.new) (K.faults sink.new) page.new) (link_text hash.now bytes.now.start bytes.now.end at) }
{
    page.put_hash(sink, hash);
    print_behind_colon(page, sink, bytes.start);
    print_behind_colon(page, sink, bytes.end);
    print_behind_colon(page, sink, at);
}

/// Prints the text of a link.
fn print_link_text<K: Sink>(page: &mut Page, sink: &mut K, link: &PlannedLink<'_>)
    ensures { Prints (output (K.taken sink.old) (K.faults sink.old) page.old) (output (K.taken sink.new) (K.faults sink.new) page.new) (version_text link.now.version link.now.at link.now.hash link.now.runs.now) }
{
    match link.version {
        PlanVersion::V1 => match link.runs {
            [] => {}
            [run, ..] => print_first_link(page, sink, &link.hash, &run.byte_range, link.at),
        },
        PlanVersion::V2 => print_second_link(page, sink, &link.hash, link.runs, link.at),
    }
}

#[tactic(auto, unfolding(crate::specs::Printed::link_start))]
fn print_link_start<K: Sink>(page: &mut Page, sink: &mut K, number: usize, link: &PlannedLink<'_>)
    ensures { Prints (output (K.taken sink.old) (K.faults sink.old) page.old) (output (K.taken sink.new) (K.faults sink.new) page.new) (link_start number (version_text link.now.version link.now.at link.now.hash link.now.runs.now)) }
{
    page.put(sink, b"link ");
    page.put_number(sink, number as u64);
    page.put(sink, b" ");
    print_link_text(page, sink, link);
    page.put(sink, b" ");
}

fn print_link<K: Sink>(page: &mut Page, sink: &mut K, number: usize, link: &PlannedLink<'_>)
    ensures { Prints (output (K.taken sink.old) (K.faults sink.old) page.old) (output (K.taken sink.new) (K.faults sink.new) page.new) (link_line number (version_link link.now.version link.now.at link.now.hash link.now.runs.now)) }
{
    print_link_start(page, sink, number, link);
    print_ranges(page, sink, link.runs);
    page.put(sink, b"\n");
}

/// Prints the links of a plan, numbered from 0.
fn print_links<K: Sink>(page: &mut Page, sink: &mut K, links: &PlanLinks)
    ensures { Prints (output (K.taken sink.old) (K.faults sink.old) page.old) (output (K.taken sink.new) (K.faults sink.new) page.new) (links_text 0 links.now) }
{
    let mut walk = links.walk();
    let mut number = 0usize;
    while let Some(link) = walk.next() {
        print_link(page, sink, number, &link);
        number += 1;
    }
}

#[tactic(auto, unfolding(crate::specs::Printed::plan_line))]
fn print_plan_line<K: Sink>(
    page: &mut Page,
    sink: &mut K,
    read: u64,
    version: PlanVersion,
    offset: u64,
    terms: usize,
    links: usize,
)
    ensures { Prints (output (K.taken sink.old) (K.faults sink.old) page.old) (output (K.taken sink.new) (K.faults sink.new) page.new) (plan_line read version offset terms links) }
{
    page.put(sink, b"plan ");
    page.put_number(sink, read);
    page.put(sink, b" ");
    page.put(sink, version_word(version));
    page.put(sink, b" offset ");
    page.put_number(sink, offset);
    page.put(sink, b" terms ");
    page.put_number(sink, terms as u64);
    page.put(sink, b" links ");
    page.put_number(sink, links as u64);
    page.put(sink, b"\n");
}

#[tactic(auto, unfolding(crate::specs::Printed::note_text))]
fn print_note<K: Sink>(page: &mut Page, sink: &mut K, wire: u64, note: &CacheNote)
    ensures { Prints (output (K.taken sink.old) (K.faults sink.old) page.old) (output (K.taken sink.new) (K.faults sink.new) page.new) (note_text wire note.now) }
{
    page.put(sink, b"wire ");
    page.put_number(sink, wire);
    page.put(sink, b" hits ");
    page.put_number(sink, u64::from(note.hits));
    page.put(sink, b" stored ");
    page.put_number(sink, u64::from(note.stored));
    page.put(sink, b" refused ");
    page.put(sink, cache_word(&note.refused));
}

#[tactic(auto, unfolding(crate::specs::Printed::fetched_start))]
fn print_fetched_start<K: Sink>(page: &mut Page, sink: &mut K, read: u64, link: u32, left: u32)
    ensures { Prints (output (K.taken sink.old) (K.faults sink.old) page.old) (output (K.taken sink.new) (K.faults sink.new) page.new) (fetched_start read link left) }
{
    page.put(sink, b"fetched ");
    page.put_number(sink, read);
    page.put(sink, b" ");
    page.put_number(sink, u64::from(link));
    page.put(sink, b" left ");
    page.put_number(sink, u64::from(left));
    page.put(sink, b" ");
}

#[tactic(auto, unfolding(crate::specs::Printed::finished_start))]
fn print_finished_start<K: Sink>(page: &mut Page, sink: &mut K, read: u64)
    ensures { Prints (output (K.taken sink.old) (K.faults sink.old) page.old) (output (K.taken sink.new) (K.faults sink.new) page.new) (finished_start read) }
{
    page.put(sink, b"finished ");
    page.put_number(sink, read);
    page.put(sink, b" ");
}

fn print_octets<K: Sink>(page: &mut Page, sink: &mut K, bytes: &Octets)
    ensures { Prints (output (K.taken sink.old) (K.faults sink.old) page.old) (output (K.taken sink.new) (K.faults sink.new) page.new) (octets_text bytes.now) }
{
    if bytes.is_empty() {
        page.put(sink, b"-");
    } else {
        page.put_hex(sink, bytes.as_slice());
    }
}

/// Prints pieces as hexadecimal digits, one behind the other.
fn print_hex<K: Sink>(page: &mut Page, sink: &mut K, bytes: &Pieces)
    ensures { Prints (output (K.taken sink.old) (K.faults sink.old) page.old) (output (K.taken sink.new) (K.faults sink.new) page.new) (encode_lower bytes.now) }
{
    let mut walk = bytes.walk();
    while let Some(piece) = walk.next() {
        page.put_hex(sink, piece);
    }
}

fn print_pieces<K: Sink>(page: &mut Page, sink: &mut K, bytes: &Pieces)
    ensures { Prints (output (K.taken sink.old) (K.faults sink.old) page.old) (output (K.taken sink.new) (K.faults sink.new) page.new) (octets_text bytes.now) }
{
    if bytes.is_empty() {
        page.put(sink, b"-");
    } else {
        print_hex(page, sink, bytes);
    }
}

#[tactic(auto, unfolding(crate::specs::Printed::batch_start))]
fn print_batch_start<K: Sink>(page: &mut Page, sink: &mut K, files: usize, links: usize)
    ensures { Prints (output (K.taken sink.old) (K.faults sink.old) page.old) (output (K.taken sink.new) (K.faults sink.new) page.new) (batch_start files links) }
{
    page.put(sink, b"batch files ");
    page.put_number(sink, files as u64);
    page.put(sink, b" links ");
    page.put_number(sink, links as u64);
    page.put(sink, b"\n");
}

#[tactic(auto, unfolding(crate::specs::Printed::file_start))]
fn print_file_start<K: Sink>(page: &mut Page, sink: &mut K, hash: &MerkleHash, terms: usize)
    ensures { Prints (output (K.taken sink.old) (K.faults sink.old) page.old) (output (K.taken sink.new) (K.faults sink.new) page.new) (file_start hash.now terms) }
{
    page.put(sink, b"file ");
    page.put_hash(sink, hash);
    page.put(sink, b" terms ");
    page.put_number(sink, terms as u64);
    page.put(sink, b"\n");
}

fn print_file<K: Sink>(
    page: &mut Page,
    sink: &mut K,
    file: &(MerkleHash, Items<XorbReconstructionTerm>),
)
    ensures { Prints (output (K.taken sink.old) (K.faults sink.old) page.old) (output (K.taken sink.new) (K.faults sink.new) page.new) (file_text file.now) }
{
    print_file_start(page, sink, &file.0, file.1.len());
    print_terms(page, sink, file.1.as_slice());
}

fn print_all_files<K: Sink>(
    page: &mut Page,
    sink: &mut K,
    files: &[(MerkleHash, Items<XorbReconstructionTerm>)],
)
    ensures { Prints (output (K.taken sink.old) (K.faults sink.old) page.old) (output (K.taken sink.new) (K.faults sink.new) page.new) (all_files_text files.now) }
{
    for file in files {
        print_file(page, sink, file);
    }
}

#[tactic(auto, unfolding(crate::specs::Printed::entry_start))]
fn print_entry_start<K: Sink>(page: &mut Page, sink: &mut K, link: &PlannedLink<'_>)
    ensures { Prints (output (K.taken sink.old) (K.faults sink.old) page.old) (output (K.taken sink.new) (K.faults sink.new) page.new) (entry_start link.now.hash (version_text link.now.version link.now.at link.now.hash link.now.runs.now)) }
{
    page.put(sink, b"entry ");
    page.put_hash(sink, &link.hash);
    page.put(sink, b" ");
    print_link_text(page, sink, link);
    page.put(sink, b" ");
}

fn print_xorb_entry<K: Sink>(page: &mut Page, sink: &mut K, link: &PlannedLink<'_>)
    ensures { Prints (output (K.taken sink.old) (K.faults sink.old) page.old) (output (K.taken sink.new) (K.faults sink.new) page.new) (xorb_entry_line (version_link link.now.version link.now.at link.now.hash link.now.runs.now)) }
{
    print_entry_start(page, sink, link);
    print_ranges(page, sink, link.runs);
    page.put(sink, b"\n");
}

fn print_xorb_entries<K: Sink>(page: &mut Page, sink: &mut K, links: &PlanLinks)
    ensures { Prints (output (K.taken sink.old) (K.faults sink.old) page.old) (output (K.taken sink.new) (K.faults sink.new) page.new) (xorb_entries_text links.now) }
{
    let mut walk = links.walk();
    while let Some(link) = walk.next() {
        print_xorb_entry(page, sink, &link);
    }
}

#[tactic(auto, unfolding(crate::specs::Printed::refused_line))]
fn print_refused<K: Sink>(page: &mut Page, sink: &mut K, refusal: &Refusal)
    ensures { Prints (output (K.taken sink.old) (K.faults sink.old) page.old) (output (K.taken sink.new) (K.faults sink.new) page.new) (refused_line refusal.now) }
{
    page.put(sink, b"refused ");
    page.put(sink, refusal_word(refusal));
    print_refusal_detail(page, sink, refusal);
    page.put(sink, b"\n");
}

/// Prints the lines of a reply.
pub fn print_reply<K: Sink>(page: &mut Page, sink: &mut K, reply: &Reply)
    ensures { Prints (output (K.taken sink.old) (K.faults sink.old) page.old) (output (K.taken sink.new) (K.faults sink.new) page.new) (reply_text reply.now) }
{
    match reply {
        Reply::Uploaded(length) => print_uploaded(page, sink, *length),
        Reply::ShardTaken(taken) => print_shard(page, sink, *taken),
        Reply::NoPlan => print_none(page, sink),
        Reply::Done => print_done(page, sink),
        Reply::Planned {
            version,
            read,
            offset,
            terms,
            links,
        } => {
            print_plan_line(
                page,
                sink,
                *read,
                *version,
                *offset,
                terms.len(),
                links.len(),
            );
            print_terms(page, sink, terms.as_slice());
            print_links(page, sink, links);
        }
        Reply::Fetched {
            read,
            link,
            left,
            wire,
            cache,
        } => {
            print_fetched_start(page, sink, *read, *link, *left);
            print_note(page, sink, *wire, cache);
            page.put(sink, b"\n");
        }
        Reply::Finished {
            read,
            bytes,
            wire,
            cache,
        } => {
            print_finished_start(page, sink, *read);
            print_note(page, sink, *wire, cache);
            page.put(sink, b" ");
            print_pieces(page, sink, bytes);
            page.put(sink, b"\n");
        }
        Reply::NoShard => print_none(page, sink),
        Reply::ShardBytes(bytes) => {
            print_dedup_start(page, sink);
            print_octets(page, sink, bytes);
            page.put(sink, b"\n");
        }
        Reply::Hashes(hashes) => print_hash_list(page, sink, hashes.as_slice()),
        Reply::Files(files) => print_file_list(page, sink, files.as_slice()),
        Reply::Random(hash) => print_random(page, sink, hash),
        Reply::Size(size) => print_size(page, sink, *size),
        Reply::Data(bytes) => {
            print_data_start(page, sink);
            print_octets(page, sink, bytes);
            page.put(sink, b"\n");
        }
        Reply::Lazy { file, size } => print_lazy(page, sink, file, *size),
        Reply::Batch { files, links } => {
            print_batch_start(page, sink, files.len(), links.len());
            print_all_files(page, sink, files.as_slice());
            print_xorb_entries(page, sink, links);
        }
        Reply::Refused(refusal) => print_refused(page, sink, refusal),
    }
}

/// What is printed of replies.
#[derive(Clone, Copy, Debug, PartialEq, Eq)]
pub enum Report {
    /// The lines of each.
    Lines,
    /// How many there are, and their lengths summed.
    Summary,
}

/// Prints what is reported of replies.
pub fn print_report<K: Sink>(page: &mut Page, sink: &mut K, report: Report, replies: &[Reply])
    ensures { Prints (output (K.taken sink.old) (K.faults sink.old) page.old) (output (K.taken sink.new) (K.faults sink.new) page.new) (report_text report replies.now) }
{
    match report {
        Report::Lines => print_replies(page, sink, replies),
        Report::Summary => print_summary(page, sink, replies),
    }
}

/// Prints the lines of replies, one reply after another.
pub fn print_replies<K: Sink>(page: &mut Page, sink: &mut K, replies: &[Reply])
    ensures { Prints (output (K.taken sink.old) (K.faults sink.old) page.old) (output (K.taken sink.new) (K.faults sink.new) page.new) (replies_text replies.now) }
{
    for reply in replies {
        print_reply(page, sink, reply);
    }
}
