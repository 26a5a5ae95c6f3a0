//! The links of a reader as they are once one of them has brought its chunks.
ghost use Rattle.std.specs.Prelude.{◌≡◌, ◌≤◌, length, slice_get, slice_range, IsTrue};
ghost use Rattle.xet_service.specs.Reading.{with_got, nth_chunks, got_for, cut_of_range};
ghost use Rattle.xet_service.specs.ReadingParts.{TakesAll};

use super::held::HeldTerm;
use super::join::part;
use super::link::{ReadLink, nth_chunks};
use bytes::Bytes;
use std::alloc::Global;
use std::marker::Model;
use xet_types::Items;

/// Links, of which the one of a number, where there is one, has brought these chunks. Contracts see the links with the chunks.
#[derive(Drop)]
pub struct Filled<'a> {
    links: &'a [ReadLink],
    /// The number of the link.
    last: usize,
    /// What it brought of each of its ranges.
    got: &'a [Items<Bytes>],
}

impl<'a> Model for Filled<'a> {
    ghost use Rattle.std.specs.Prelude.{List, slice_get};
    ghost use Rattle.xet_service.specs.declared.reader.link.ReadLink.{ReadLink};
    ghost use Rattle.xet_service.specs.Reading.{with_got};

    ghost Value = { List ReadLink };

    ghost view = { λ f. with_got f.links.now f.last (slice_get f.links.now f.last) f.got.now };
}

impl<'a> Filled<'a> {
    /// The links as they are.
    pub fn new(links: &'a [ReadLink]) -> Filled<'a>
        ensures { result ≡ links.now }
    {
        Filled {
            links,
            last: links.len(),
            got: &[],
        }
    }

    /// The links, of which one has brought these chunks.
    pub fn with(links: &'a [ReadLink], last: usize, got: &'a [Items<Bytes>]) -> Filled<'a>
        ensures { result ≡ with_got links.now last (slice_get links.now last) got.now }
    {
        Filled { links, last, got }
    }

    /// The chunks of the range that holds a term, none where they weren't brought.
    fn got_for(&self, held: &HeldTerm) -> &[Bytes]
        ensures { result.now ≡ got_for self.now held.now }
    {
        let Some(link) = self.links.get(held.range.link) else {
            return &[];
        };
        if held.range.link == self.last {
            return nth_chunks(self.got, held.range.number);
        }
        let Some(got) = &link.got else {
            return &[];
        };
        nth_chunks(got.as_slice(), held.range.number)
    }

    /// A term's chunks, none where they weren't brought.
    pub fn chunks_of(&self, held: &HeldTerm) -> &[Bytes]
        ensures { result.now ≡ cut_of_range held.now (got_for self.now held.now) }
    {
        let first = held.range.chunks.start;
        part(
            self.got_for(held),
            held.term.range.start.saturating_sub(first),
            held.term.range.end.saturating_sub(first),
        )
    }

    /// How many chunks the terms have together, up to the type's end.
    pub fn count_chunks(&self, terms: &[HeldTerm]) -> usize {
        let mut count = 0usize;
        for held in terms {
            count = count.saturating_add(self.chunks_of(held).len());
        }
        count
    }
}

/// Whether a term has all chunks of the first range of a link, where these are so many.
pub fn takes_all(held: &HeldTerm, link: usize, chunks: usize) -> bool
    ensures { IsTrue result → TakesAll held.now link chunks }
{
    let first = held.range.chunks.start;
    let last = held.term.range.end.saturating_sub(first);
    held.range.link == link
        && held.range.number == 0
        && held.term.range.start <= first
        && last as usize >= chunks
}
