//! Open reads as clients have them.
ghost use Rattle.std.specs.Prelude.{◌≡◌, ℕ, ◌++◌, ◌<◌, true, nat_le, length, IfOk, IfSome, OnOk, IsTrue, ⊤};
ghost use Rattle.std.specs.List.{flat_map};
ghost use Rattle.xet_store.specs.Answered.{Answered};
ghost use Rattle.std.specs.Option.{option_copied};
ghost use Rattle.xet_service.specs.Reading.{Reading, left_link, is_link_left, count_left, take_link, Gives, Accepts, held_text, bytes_read};
ghost use Rattle.xet_service.specs.ReadingParts.{ReadsAtOnce};
ghost use Rattle.xet_service.specs.ReadingPlans.{total_of, Opens, OpensLinks};
ghost use Rattle.xet_service.specs.Links.{answer_of};
ghost use Rattle.xet_service.specs.Gathering.{after_text};

mod filled;
mod gather;
mod held;
mod join;
pub(crate) mod link;
mod order;
mod parts;

use crate::links::most_runs;
use crate::pieces::Pieces;
use crate::step::PlanVersion;
use bytes::Bytes;
use filled::Filled;
use gather::Gathering;
use held::{HeldTerm, all_ranges, held_terms};
use join::{asked_length, cut, push_chunks, window};
use link::{ReadLink, all_apart, count_left, fresh_groups, fresh_links, give_terms, only, put_got};
use parts::is_multipart;
use std::alloc::Global;
use std::marker::Model;
use xet_plan::Plan;
use xet_types::{
    ClientError, FileRange, Items, OutOfMemory, QueryReconstructionResponseV2,
    XorbReconstructionTerm,
};

/// How many bytes a holder of a chunk takes.
const HOLDER: usize = 32;

/// An open read of a file, or of a range of its bytes, as a client has it. It takes the body of each link of a plan once, in
/// any order, and then gives the bytes. It knows no store.
#[derive(Debug, Drop)]
pub struct Reader {
    terms: Vec<HeldTerm>,
    offset: u64,
    length: Option<u64>,
    links: Vec<ReadLink>,
    /// How many links are left.
    left: usize,
}

impl Model for Reader {
    ghost use Rattle.std.specs.Prelude.{◌≡◌};
    ghost use Rattle.xet_service.specs.Reading.{Reading, reading_code, count_left};

    ghost Value = { Reading };

    ghost coded = { reading_code };

    ghost view = { λ r. record { terms = r.terms.items; offset = r.offset; length = r.length; links = r.links.items } };

    ghost invariant = { λ r. r.left ≡ count_left r.links.items };
}

impl Reader {
    /// A read without links. Takes no memory.
    pub(crate) fn empty(alloc: Global) -> Reader {
        Reader {
            terms: Vec::new(alloc),
            offset: 0,
            length: None,
            links: Vec::new(alloc),
            left: 0,
        }
    }

    /// Opens the read of a plan, all of whose links are left.
    ///
    /// `InvalidArguments` exactly where a link's chunk ranges aren't sorted by start and disjoint, a term's chunk range lies
    /// in no chunk range of its xorb's links, or the offset passes the terms' total length.
    pub fn open(
        alloc: Global,
        plan: &QueryReconstructionResponseV2,
        range: Option<FileRange>,
    ) -> Result<Reader, ClientError>
        ensures { Opens plan.now range result }
    {
        let links = fresh_links(alloc, &plan.xorbs)?;
        Reader::of_links(
            alloc,
            links,
            &plan.terms,
            plan.offset_into_first_range,
            range,
        )
    }

    /// Opens the read of a planner's plan in a version, whose links bring at most `max` runs of a xorb each in version 2. It is that of
    /// the plan with its links, whatever the moment.
    pub(crate) fn of_plan(
        alloc: Global,
        version: PlanVersion,
        plan: &Plan,
        max: usize,
        range: Option<FileRange>,
    ) -> Result<Reader, ClientError>
        requires { 0 < max }
        ensures { (at : ℕ) → Opens (answer_of version max at plan.now) range result }
    {
        let links = fresh_groups(alloc, &plan.merged, most_runs(version, max))?;
        Reader::of_links(
            alloc,
            links,
            &plan.terms,
            plan.offset_into_first_range,
            range,
        )
    }

    /// Opens the read of links that are left.
    fn of_links(
        alloc: Global,
        mut links: Vec<ReadLink>,
        terms: &[XorbReconstructionTerm],
        offset: u64,
        range: Option<FileRange>,
    ) -> Result<Reader, ClientError>
        ensures { OpensLinks links.items terms.now offset range result }
    {
        if !all_apart(&links) || !reaches(terms, offset) {
            return Err(ClientError::InvalidArguments);
        }
        let ranges = all_ranges(alloc, &links)?;
        let Some(terms) = held_terms(alloc, &ranges, terms)? else {
            return Err(ClientError::InvalidArguments);
        };
        give_terms(&mut links, &terms)?;
        let left = count_left(&links);
        Ok(Reader {
            terms,
            offset,
            length: asked_length(range),
            links,
            left,
        })
    }

    /// How many links the plan has. They are numbered from 0, in the plan's order.
    pub fn links(&self) -> usize
        ensures { result ≡ length self.now.links }
    {
        self.links.len()
    }

    /// Whether the plan has a link of this number whose body wasn't taken yet.
    pub fn is_left(&self, link: usize) -> bool
        ensures { result ≡ is_link_left self.now.links link }
    {
        match self.links.get(link) {
            Some(link) => link.got.is_none(),
            None => false,
        }
    }

    /// The link of this number, where it is left.
    pub(crate) fn left_link(&self, link: usize) -> Option<&ReadLink>
        ensures { option_copied result ≡ left_link self.now.links link }
    {
        if self.is_left(link) {
            self.links.get(link)
        } else {
            None
        }
    }

    /// How many links are left.
    pub fn left(&self) -> usize
        ensures { result ≡ count_left self.now.links }
    {
        self.left
    }

    /// Takes the body of a link that is left.
    ///
    /// A body is in parts exactly where its content type contains `multipart/byteranges` (RFC 7233 section 4.1), else it is one part. In
    /// this order: `InvalidArguments` where the link isn't left; `Other` where a body in parts can't be read, its parts in order of
    /// start aren't the link's ranges, or a part isn't as long as its range; `FormatError(Xorb)` where a part isn't whole chunks;
    /// `FormatError(Body)` where a range hasn't its number of chunks, or a term's chunks don't sum to its length. A refusal leaves the
    /// reader as it was. The chunks are slices of the body.
    pub fn accept(
        &mut self,
        alloc: Global,
        link: usize,
        content_type: &str,
        body: Bytes,
    ) -> Result<(), ClientError>
        ensures { Answered result (λ r. Accepts self.old link content_type.now body r self.new) (self.new ≡ self.old) }
    {
        let got = self.read(alloc, link, content_type, &body)?;
        self.put(link, got);
        Ok(())
    }

    /// The chunks that a body brings of each range of a link. Refused as [`Reader::accept`] refuses it.
    pub(crate) fn read(
        &self,
        alloc: Global,
        link: usize,
        content_type: &str,
        body: &Bytes,
    ) -> Result<Items<Items<Bytes>>, ClientError>
        ensures { Answered result (λ r. Gives self.now.links link content_type.now body.now r) ⊤ }
    {
        if !self.is_left(link) {
            return Err(ClientError::InvalidArguments);
        }
        self.links[link].read(alloc, content_type, body)
    }

    /// Puts the chunks that a body brought into a link that is left. Takes no memory.
    pub(crate) fn put(&mut self, link: usize, got: Items<Items<Bytes>>)
        requires { is_link_left self.old.links link ≡ true }
        ensures { self.new ≡ take_link self.old link got }
    {
        put_got(&mut self.links, link, got);
        self.left -= 1;
    }

    /// The asked bytes: the terms' chunks joined, less the offset, cut to the range's length where a range was given.
    pub fn finish(&self, alloc: Global) -> Result<Bytes, OutOfMemory>
        requires { count_left self.now.links ≡ 0 }
        ensures { IfOk result (λ bytes. bytes ≡ bytes_read self.now) }
    {
        self.copied(alloc, &Filled::new(&self.links))
    }

    /// The terms' chunks where the links have these, less the offset, cut to the range's length; they are copied.
    fn copied(&self, alloc: Global, filled: &Filled<'_>) -> Result<Bytes, OutOfMemory>
        ensures { IfOk result (λ bytes. bytes ≡ bytes_read (record self.now { links = filled.now })) }
    {
        let joined = joined(alloc, filled, &self.terms)?;
        cut(&Bytes::from_vec(joined)?, self.offset, self.length)
    }

    /// The same, as further holders of the chunks.
    fn gathered(
        &self,
        alloc: Global,
        filled: &Filled<'_>,
        count: usize,
    ) -> Result<Pieces, OutOfMemory>
        ensures { IfOk result (λ pieces. pieces ≡ bytes_read (record self.now { links = filled.now })) }
    {
        let mut gathering = Gathering::new(alloc, count, self.offset, self.length)?;
        push_terms(&mut gathering, filled, &self.terms)?;
        Ok(gathering.into_pieces())
    }

    /// What [`Reader::finish`] answers once a link that is left has taken this body, where the read is of one term that has all chunks
    /// of the link's only range. It is kept as it lies in the body, which is not copied. None for other reads, and for bodies that
    /// [`Reader::accept`] refuses. Takes no memory.
    pub(crate) fn at_once(&self, link: usize, content_type: &str, body: &Bytes) -> Option<Pieces>
        ensures { IfSome result (λ bytes. ReadsAtOnce self.now link content_type.now body.now bytes) }
    {
        let held = only(self.terms.as_slice())?;
        if held.range.link != link {
            return None;
        }
        if is_multipart(content_type) {
            return None;
        }
        let wanted = self.left_link(link)?;
        let Some((chunks, total)) = wanted.read_alone(held, body) else {
            return None;
        };
        let (skip, left) = window(total, self.offset, self.length);
        Some(Pieces::from_chunks(chunks, skip, left))
    }

    /// What [`Reader::finish`] answers once the last link that is left has brought these chunks. They aren't copied, unless they are so
    /// small that their holders would take more memory.
    pub(crate) fn pieces(
        &self,
        alloc: Global,
        link: usize,
        got: Items<Items<Bytes>>,
    ) -> Result<Pieces, OutOfMemory>
        requires { is_link_left self.now.links link ≡ true }
        ensures { IfOk result (λ pieces. pieces ≡ bytes_read (take_link self.now link got)) }
    {
        let filled = Filled::with(&self.links, link, got.as_slice());
        let count = filled.count_chunks(&self.terms);
        if are_large(room_of(&self.terms), count) {
            return self.gathered(alloc, &filled, count);
        }
        let mut pieces = Vec::with_capacity(alloc, 1)?;
        pieces.push(self.copied(alloc, &filled)?)?;
        Ok(Pieces::from_vec(pieces))
    }
}

/// Whether chunks of so many bytes together are no smaller than their holders.
fn are_large(bytes: usize, chunks: usize) -> bool {
    bytes / HOLDER >= chunks
}

/// Whether the terms together have at least so many bytes.
fn reaches(terms: &[XorbReconstructionTerm], offset: u64) -> bool
    ensures { result ≡ nat_le offset (total_of terms.now) }
{
    let mut left = offset;
    for term in terms {
        left = left.saturating_sub(u64::from(term.unpacked_length));
    }
    left == 0
}

/// How many bytes the terms have together, up to the type's end.
fn room_of(terms: &[HeldTerm]) -> usize {
    let mut room = 0usize;
    for held in terms {
        room = room.saturating_add(held.term.unpacked_length as usize);
    }
    room
}

/// Adds a term's chunks.
fn push_held(out: &mut Vec<u8>, filled: &Filled<'_>, held: &HeldTerm) -> Result<(), OutOfMemory>
    ensures { OnOk result (out.new.items ≡ out.old.items ++ held_text filled.now held.now) }
{
    push_chunks(out, filled.chunks_of(held))
}

/// The terms' chunks joined.
fn joined(alloc: Global, filled: &Filled<'_>, terms: &[HeldTerm]) -> Result<Vec<u8>, OutOfMemory>
    ensures { IfOk result (λ bytes. bytes.items ≡ flat_map (held_text filled.now) terms.now) }
{
    let mut joined = Vec::with_capacity(alloc, room_of(terms))?;
    for held in terms {
        push_held(&mut joined, filled, held)?;
    }
    Ok(joined)
}

/// Takes what is asked of the terms' chunks, in order.
fn push_terms(
    gathering: &mut Gathering,
    filled: &Filled<'_>,
    terms: &[HeldTerm],
) -> Result<(), OutOfMemory>
    ensures { OnOk result (gathering.new ≡ after_text gathering.old (flat_map (held_text filled.now) terms.now)) }
{
    for held in terms {
        gathering.push_all(filled.chunks_of(held))?;
    }
    Ok(())
}

#[cfg(test)]
mod tests;
