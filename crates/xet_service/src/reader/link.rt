//! The links of a reader, and what their bodies bring.
ghost use Rattle.std.specs.Prelude.{◌≡◌, ◌≢◌, ◌-◌, ◌↔◌, [], ◌∷◌, ◌++◌, ◌<◌, map, length, sum, IfOk, IfSome, OnOk, IsTrue, MatchOption, slice_get, ⊤};
ghost use Rattle.std.specs.List.{flat_map};
ghost use Rattle.xet_types.specs.RecordMaps.{listed};
ghost use Rattle.xet_plan.specs.Merging.{ranges_shown};
ghost use Rattle.xet_store.specs.Answered.{Answered};
ghost use Rattle.xet_service.specs.Reading.{count_left, with_got, cut_of_range, has_length, nth_chunks, have_lengths, have_counts, fits, Brings};
ghost use Rattle.xet_service.specs.ReadingPlans.{fresh_link, xorb_links, fresh_links, are_apart, all_apart, with_terms};
ghost use Rattle.xet_service.specs.ReadingParts.{BringsCut, BringsAlone};
ghost use Rattle.xet_service.specs.ReadingSteps.{give_term};
ghost use Rattle.xet_service.specs.RunLinks.{fresh_group, fresh_groups};

use super::filled::takes_all;
use super::held::HeldTerm;
use super::join::part;
use super::parts::{are_sized, is_multipart, read_parts, split, unlike};
use crate::links::{count_groups, count_links, descriptors};
use bytes::Bytes;
use std::alloc::Global;
use std::collections::BTreeMap;
use std::slice;
use xet_plan::MergedRange;
use xet_types::{
    ClientError, FormatFault, HexMerkleHash, Items, MerkleHash, OutOfMemory, XorbMultiRangeFetch,
    XorbRangeDescriptor,
};
use xet_xorb::WholeChunks;

/// A link of a reader.
#[derive(Debug, Drop)]
pub struct ReadLink {
    /// The xorb.
    pub hash: MerkleHash,
    /// The chunks that it brings.
    pub ranges: Items<XorbRangeDescriptor>,
    /// The terms that its ranges hold, in file order.
    pub held: Items<HeldTerm>,
    /// The chunks of each range, none while the link is left.
    pub got: Option<Items<Items<Bytes>>>,
}

/// The one item of a list; none where there isn't just one.
pub fn only<T>(items: &[T]) -> Option<&T>
    ensures { MatchOption result (length items.now ≢ 1) (λ item. items.now ≡ item.now ∷ []) }
{
    match items {
        [item] => Some(item),
        _ => None,
    }
}

/// A link that is left.
fn fresh_link(
    alloc: Global,
    hash: &MerkleHash,
    fetch: &XorbMultiRangeFetch,
) -> Result<ReadLink, OutOfMemory>
    ensures { IfOk result (λ link. link ≡ fresh_link hash.now fetch.now) }
{
    Ok(ReadLink {
        hash: *hash,
        ranges: Items::from_vec(Vec::from_slice(alloc, &fetch.ranges)?),
        held: Items::from_vec(Vec::with_capacity(alloc, 1)?),
        got: None,
    })
}

fn push_links(
    alloc: Global,
    links: &mut Vec<ReadLink>,
    hash: &MerkleHash,
    fetches: &[XorbMultiRangeFetch],
) -> Result<(), OutOfMemory>
    ensures { OnOk result (links.new.items ≡ links.old.items ++ xorb_links (hash.now, fetches.now)) }
{
    for fetch in fetches {
        let link = fresh_link(alloc, hash, fetch)?;
        links.push(link)?;
    }
    Ok(())
}

/// The links of a plan in order, all left.
pub fn fresh_links(
    alloc: Global,
    xorbs: &BTreeMap<HexMerkleHash, Vec<XorbMultiRangeFetch>>,
) -> Result<Vec<ReadLink>, OutOfMemory>
    ensures { IfOk result (λ links. links.items ≡ fresh_links (map listed xorbs.now.entries)) }
{
    let mut links = Vec::with_capacity(alloc, count_links(xorbs))?;
    for (hash, fetches) in xorbs {
        push_links(alloc, &mut links, &hash.0, fetches)?;
    }
    Ok(links)
}

/// A link of some runs of a xorb's chunks, which is left.
fn fresh_group(
    alloc: Global,
    hash: &MerkleHash,
    runs: &[MergedRange],
) -> Result<ReadLink, OutOfMemory>
    ensures { IfOk result (λ link. link ≡ fresh_group hash.now runs.now) }
{
    Ok(ReadLink {
        hash: *hash,
        ranges: Items::from_vec(descriptors(alloc, runs)?),
        held: Items::from_vec(Vec::with_capacity(alloc, 1)?),
        got: None,
    })
}

/// Adds a link for each group of at most `max` runs of a xorb's chunks.
fn push_groups(
    alloc: Global,
    links: &mut Vec<ReadLink>,
    hash: &MerkleHash,
    runs: &[MergedRange],
    max: usize,
) -> Result<(), OutOfMemory>
    requires { 0 < max }
    ensures { OnOk result (links.new.items ≡ links.old.items ++ fresh_groups max (hash.now, runs.now)) }
{
    let mut rest = runs;
    while !rest.is_empty() {
        let (group, others) = rest.split_at(max.min(rest.len()));
        let link = fresh_group(alloc, hash, group)?;
        links.push(link)?;
        rest = others;
    }
    Ok(())
}

/// The links of the runs of a plan's xorbs in order, each of at most `max` runs, all left.
pub fn fresh_groups(
    alloc: Global,
    merged: &[(MerkleHash, Vec<MergedRange>)],
    max: usize,
) -> Result<Vec<ReadLink>, OutOfMemory>
    requires { 0 < max }
    ensures { IfOk result (λ links. links.items ≡ flat_map (fresh_groups max) (map ranges_shown merged.now)) }
{
    let mut links = Vec::with_capacity(alloc, count_groups(merged, max))?;
    for (hash, runs) in merged {
        push_groups(alloc, &mut links, hash, runs, max)?;
    }
    Ok(links)
}

/// Whether each range begins where all before it have ended, or later.
fn are_apart(ranges: &[XorbRangeDescriptor]) -> bool
    ensures { result ≡ are_apart 0 ranges.now }
{
    let mut from = 0u32;
    for range in ranges {
        if range.chunks.start < from {
            return false;
        }
        from = range.chunks.start.max(range.chunks.end);
    }
    true
}

/// Whether the ranges of each link are apart.
pub fn all_apart(links: &[ReadLink]) -> bool
    ensures { result ≡ all_apart links.now }
{
    for link in links {
        if !are_apart(link.ranges.as_slice()) {
            return false;
        }
    }
    true
}

/// Gives a term to the link of its range.
fn give_term(links: &mut Vec<ReadLink>, held: &HeldTerm) -> Result<(), OutOfMemory>
    ensures { OnOk result (links.new.items ≡ give_term links.old.items held.now) }
{
    let at = held.range.link;
    if at < links.len() {
        links[at].held.push(*held)?;
    }
    Ok(())
}

/// Gives each term to the link of its range.
pub fn give_terms(links: &mut Vec<ReadLink>, terms: &[HeldTerm]) -> Result<(), OutOfMemory>
    ensures { OnOk result (links.new.items ≡ with_terms 0 links.old.items terms.now) }
{
    for held in terms {
        give_term(links, held)?;
    }
    Ok(())
}

/// Puts the chunks that a link brought into it.
pub fn put_got(links: &mut Vec<ReadLink>, at: usize, got: Items<Items<Bytes>>)
    ensures { links.new.items ≡ with_got links.old.items at (slice_get links.old.items at) got }
{
    if at < links.len() {
        links[at].got = Some(got);
    }
}

/// How many links are left.
pub fn count_left(links: &[ReadLink]) -> usize
    ensures { result ≡ count_left links.now }
{
    let mut left = 0usize;
    for link in links {
        if link.got.is_none() {
            left += 1;
        }
    }
    left
}

/// Whether the chunks have so many bytes together.
fn are_long(chunks: &[Bytes], bytes: u32) -> bool
    ensures { IsTrue result ↔ (sum (map length chunks.now) ≡ bytes) }
{
    let mut left = bytes as usize;
    for chunk in chunks {
        if chunk.len() > left {
            return false;
        }
        left -= chunk.len();
    }
    left == 0
}

/// Whether the term's chunks, of those of its range, have its length.
fn has_length(chunks: &[Bytes], held: &HeldTerm) -> bool
    ensures { result ≡ has_length chunks.now held.now }
{
    let first = held.range.chunks.start;
    let own = part(
        chunks,
        held.term.range.start.saturating_sub(first),
        held.term.range.end.saturating_sub(first),
    );
    are_long(own, held.term.unpacked_length)
}

/// The chunks of the range of a number, none where there is no such range.
pub fn nth_chunks<'a>(got: &'a [Items<Bytes>], number: usize) -> &'a [Bytes]
    ensures { result.now ≡ nth_chunks got.now number }
{
    match got.get(number) {
        Some(chunks) => chunks.as_slice(),
        None => &[],
    }
}

/// Whether each term's chunks, of those of its range, have its length.
fn have_lengths(got: &[Items<Bytes>], terms: &[HeldTerm]) -> bool
    ensures { result ≡ have_lengths got.now terms.now }
{
    for held in terms {
        if !has_length(nth_chunks(got, held.range.number), held) {
            return false;
        }
    }
    true
}

/// How many chunks a range has.
pub fn count_of(range: &XorbRangeDescriptor) -> usize
    ensures { result ≡ range.now.chunks.end - range.now.chunks.start }
{
    range.chunks.end.saturating_sub(range.chunks.start) as usize
}

/// Whether each range has its number of chunks.
fn have_counts(ranges: &[XorbRangeDescriptor], got: &[Items<Bytes>]) -> bool
    ensures { result ≡ have_counts ranges.now got.now }
{
    let mut rest = got;
    for range in ranges {
        let Some((chunks, others)) = rest.split_first() else {
            return false;
        };
        if chunks.len() != count_of(range) {
            return false;
        }
        rest = others;
    }
    rest.is_empty()
}

/// Whether there are so many chunks, with so many bytes together.
fn have_sizes(chunks: &WholeChunks, count: usize, bytes: u32) -> bool
    ensures { IsTrue result → (length chunks.now ≡ count) × (sum (map length chunks.now) ≡ bytes) }
{
    let mut count = count;
    let mut bytes = bytes as usize;
    let mut walk = chunks.walk();
    while let Some(chunk) = walk.next() {
        if count == 0 || chunk.len() > bytes {
            return false;
        }
        count -= 1;
        bytes -= chunk.len();
    }
    count == 0 && bytes == 0
}

/// Whether each range has its number of chunks, and those of each term have the term's length.
fn fits(ranges: &[XorbRangeDescriptor], held: &[HeldTerm], got: &[Items<Bytes>]) -> bool
    ensures { result ≡ fits ranges.now held.now got.now }
{
    have_counts(ranges, got) && have_lengths(got, held)
}

impl ReadLink {
    /// The chunks of each part that was cut of a body. `Other` where there isn't a part for each range, as long as the range.
    fn read_cut(&self, alloc: Global, parts: &[Bytes]) -> Result<Items<Items<Bytes>>, ClientError>
        ensures { Answered result (BringsCut self.now parts.now) ⊤ }
    {
        let ranges = self.ranges.as_slice();
        if !are_sized(ranges, parts) {
            return Err(unlike(alloc));
        }
        let got = read_parts(alloc, parts)?;
        if !fits(ranges, self.held.as_slice(), got.as_slice()) {
            return Err(ClientError::FormatError(FormatFault::Body));
        }
        Ok(got)
    }

    /// The chunks of the link's only range, all of which its only term has and another one, where the body is these, and how many bytes they
    /// hold. They aren't copied. None for other links, and for bodies that aren't the link's. Takes no memory.
    pub fn read_alone(&self, other: &HeldTerm, body: &Bytes) -> Option<(WholeChunks, u32)>
        ensures { IfSome result (λ p. BringsAlone self.now other.now body.now p.0 p.1) }
    {
        let range = only(self.ranges.as_slice())?;
        let own = only(self.held.as_slice())?;
        let count = count_of(range);
        if !takes_all(own, own.range.link, count) || !takes_all(other, other.range.link, count) {
            return None;
        }
        if !are_sized(self.ranges.as_slice(), slice::from_ref(body)) {
            return None;
        }
        let Ok(text) = body.clone() else {
            return None;
        };
        let chunks = WholeChunks::from_text(text)?;
        let total = own.term.unpacked_length;
        if !have_sizes(&chunks, count, total) {
            return None;
        }
        Some((chunks, total))
    }

    /// The chunks of each range that a body spells. Refused as [`super::Reader::accept`] refuses it where the link is left.
    pub fn read(
        &self,
        alloc: Global,
        content_type: &str,
        body: &Bytes,
    ) -> Result<Items<Items<Bytes>>, ClientError>
        ensures { Answered result (Brings self.now content_type.now body.now) ⊤ }
    {
        if is_multipart(content_type) {
            let parts = split(alloc, self.ranges.as_slice(), content_type, body)?;
            return self.read_cut(alloc, parts.as_slice());
        }
        self.read_cut(alloc, slice::from_ref(body))
    }
}
