//! Where a plan's terms lie in its links.
ghost use Rattle.std.specs.Prelude.{◌≡◌, ◌++◌, IfOk, OnOk, MatchOption, true, false};
ghost use Rattle.xet_service.specs.ReadingPlans.{ranges_of, all_ranges, all_held, held_terms};

use super::link::ReadLink;
use super::order::{are_in_order, range_of};
use std::alloc::Global;
use xet_types::{ChunkRange, MerkleHash, OutOfMemory, XorbRangeDescriptor, XorbReconstructionTerm};

/// A chunk range of a link.
#[derive(Clone, Copy, Debug)]
pub struct LinkRange {
    /// The xorb.
    pub hash: MerkleHash,
    /// The numbers of the chunks.
    pub chunks: ChunkRange,
    /// The link's number in its plan.
    pub link: usize,
    /// The range's number in its link.
    pub number: usize,
}

/// A term, and the chunk range that holds it.
#[derive(Clone, Copy, Debug)]
pub struct HeldTerm {
    /// The term.
    pub term: XorbReconstructionTerm,
    /// The first range that holds it.
    pub range: LinkRange,
}

/// Adds the chunk ranges of a link.
fn push_ranges(
    out: &mut Vec<LinkRange>,
    hash: &MerkleHash,
    link: usize,
    ranges: &[XorbRangeDescriptor],
) -> Result<(), OutOfMemory>
    ensures { OnOk result (out.new.items ≡ out.old.items ++ ranges_of hash.now link 0 ranges.now) }
{
    out.reserve(ranges.len())?;
    for (number, range) in ranges.iter().enumerate() {
        out.push(LinkRange {
            hash: *hash,
            chunks: range.chunks,
            link,
            number,
        })?;
    }
    Ok(())
}

/// The chunk ranges of all links, in order.
pub fn all_ranges(alloc: Global, links: &[ReadLink]) -> Result<Vec<LinkRange>, OutOfMemory>
    ensures { IfOk result (λ ranges. ranges.items ≡ all_ranges 0 links.now) }
{
    let mut out = Vec::with_capacity(alloc, links.len())?;
    for (number, link) in links.iter().enumerate() {
        push_ranges(&mut out, &link.hash, number, link.ranges.as_slice())?;
    }
    Ok(out)
}

/// Each term with the first range that holds it; none where a term isn't held.
pub fn held_terms(
    alloc: Global,
    ranges: &[LinkRange],
    terms: &[XorbReconstructionTerm],
) -> Result<Option<Vec<HeldTerm>>, OutOfMemory>
    ensures { IfOk result (λ held. MatchOption held (all_held ranges.now terms.now ≡ false) (λ held. (all_held ranges.now terms.now ≡ true) × (held.items ≡ held_terms ranges.now terms.now))) }
{
    let in_order = are_in_order(ranges);
    let mut held = Vec::with_capacity(alloc, terms.len())?;
    for term in terms {
        let Some(range) = range_of(ranges, in_order, term) else {
            return Ok(None);
        };
        held.push(HeldTerm {
            term: *term,
            range: *range,
        })?;
    }
    Ok(Some(held))
}
