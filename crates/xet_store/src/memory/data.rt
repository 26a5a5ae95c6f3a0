//! The bytes of a planned part of a file.
ghost use Rattle.std.specs.Prelude.{◌≡◌, ◌++◌, IfOk, IfSome, OnOk, take, drop};
ghost use Rattle.std.specs.List.{flat_map};
ghost use Rattle.std.specs.FinMap.{get};
ghost use Rattle.xet_plan.specs.FileBytes.{term_bytes, assembled};

use super::xorb::StoredXorb;
use bytes::Bytes;
use std::alloc::Global;
use xet_bytes::ByHash;
use xet_types::{OutOfMemory, XorbReconstructionTerm};

/// How many bytes the terms have together.
fn length_of(terms: &[XorbReconstructionTerm]) -> u64 {
    let mut length: u64 = 0;
    for term in terms {
        length = length.saturating_add(u64::from(term.unpacked_length));
    }
    length
}

/// The chunks of the terms, joined.
fn joined(
    alloc: Global,
    xorbs: &ByHash<StoredXorb>,
    terms: &[XorbReconstructionTerm],
) -> Result<Vec<u8>, OutOfMemory>
    ensures { IfOk result (λ bytes. bytes.items ≡ flat_map (term_bytes (get xorbs.now)) terms.now) }
{
    let mut bytes = Vec::with_capacity(alloc, length_of(terms) as usize)?;
    for term in terms {
        if let Some(xorb) = xorbs.get(&term.hash) {
            xorb.append(&mut bytes, term.range)?;
        }
    }
    Ok(bytes)
}

/// The one chunk of the terms, which isn't copied; none where they have none or more.
fn only_chunk(
    xorbs: &ByHash<StoredXorb>,
    terms: &[XorbReconstructionTerm],
) -> Result<Option<Bytes>, OutOfMemory>
    ensures { IfOk result (λ only. IfSome only (λ chunk. chunk ≡ flat_map (term_bytes (get xorbs.now)) terms.now)) }
{
    let [term] = terms else {
        return Ok(None);
    };
    match xorbs.get(&term.hash) {
        Some(xorb) => xorb.only(term.range),
        None => Ok(None),
    }
}

/// The chunks of the terms less an offset and cut to a length. They are joined once; one chunk alone isn't copied.
pub fn assemble(
    alloc: Global,
    xorbs: &ByHash<StoredXorb>,
    terms: &[XorbReconstructionTerm],
    offset: u64,
    length: u64,
) -> Result<Bytes, OutOfMemory>
    ensures { IfOk result (λ bytes. bytes ≡ assembled (get xorbs.now) terms.now offset length) }
{
    let joined = match only_chunk(xorbs, terms)? {
        Some(chunk) => chunk,
        None => Bytes::from_vec(joined(alloc, xorbs, terms)?)?,
    };
    let all = joined.len() as u64;
    let start = offset.min(all);
    let end = start.saturating_add(length).min(all);
    Ok(joined.slice(start as usize..end as usize)?)
}
