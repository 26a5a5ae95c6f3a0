//! The parts of a generated file among the xorbs of its seeds.
ghost use Rattle.std.specs.Prelude.{◌≡◌, ◌≤◌, ◌++◌, All, length, map, take, drop, IfOk, OnOk};
ghost use Rattle.xet_types.specs.Names.{chunk_hash};
ghost use Rattle.std.specs.List.{flat_map};
ghost use Rattle.xet_xorb.specs.ChunkLists.{joined};
ghost use Rattle.xet_xorb.specs.Generated.{hash_and_size};
ghost use Rattle.xet_generated.specs.Shards.{name_of_chunks};
ghost use Rattle.xet_generated.specs.Making.{IsCut, chunks_at, cut_of, segment_of, reference_of};

use crate::contents::FileTermReference;
use crate::xorb::GeneratedXorb;
use bytes::Bytes;
use std::alloc::Global;
use std::collections::BTreeMap;
use xet_shard::Segment;
use xet_types::{MerkleHash, OutOfMemory, file_hash_with_salt};

/// The xorb of a term.
fn xorb_of<'a>(
    xorbs: &'a BTreeMap<u64, GeneratedXorb>,
    term: &(u64, (u64, u64)),
) -> &'a GeneratedXorb
    requires { IsCut xorbs.now.entries term.now }
    ensures { result.now ≡ chunks_at xorbs.now.entries term.now.0 }
{
    match xorbs.get(&term.0) {
        Some(xorb) => xorb,
        None => unreachable!(),
    }
}

/// The chunks of a term.
fn chunks_of<'a>(xorbs: &'a BTreeMap<u64, GeneratedXorb>, term: &(u64, (u64, u64))) -> &'a [Bytes]
    requires { IsCut xorbs.now.entries term.now }
    ensures { result.now ≡ cut_of xorbs.now.entries term.now }
{
    &xorb_of(xorbs, term).chunks()[term.1.0 as usize..term.1.1 as usize]
}

/// The hashes of the chunks of a term.
fn hashes_of<'a>(
    xorbs: &'a BTreeMap<u64, GeneratedXorb>,
    term: &(u64, (u64, u64)),
) -> &'a [MerkleHash]
    requires { IsCut xorbs.now.entries term.now }
    ensures { result.now ≡ map chunk_hash (cut_of xorbs.now.entries term.now) }
{
    &xorb_of(xorbs, term).chunk_hashes()[term.1.0 as usize..term.1.1 as usize]
}

/// A term as a segment.
fn segment_of(xorbs: &BTreeMap<u64, GeneratedXorb>, term: &(u64, (u64, u64))) -> Segment
    requires { IsCut xorbs.now.entries term.now }
    ensures { result ≡ segment_of xorbs.now.entries term.now }
{
    let xorb = xorb_of(xorbs, term);
    let (start, end) = (term.1.0 as u32, term.1.1 as u32);
    Segment {
        xorb_hash: xorb.xorb_hash(),
        xorb_flags: 0,
        chunk_index_start: start,
        chunk_index_end: end,
        unpacked_segment_bytes: xorb.unpacked_before(end) - xorb.unpacked_before(start),
    }
}

/// The terms as segments.
pub(crate) fn segments_of(
    alloc: Global,
    xorbs: &BTreeMap<u64, GeneratedXorb>,
    terms: &[(u64, (u64, u64))],
) -> Result<Vec<Segment>, OutOfMemory>
    requires { All (IsCut xorbs.now.entries) terms.now }
    ensures { IfOk result (λ segments. segments.items ≡ map (segment_of xorbs.now.entries) terms.now) }
{
    let mut segments = Vec::with_capacity(alloc, terms.len())?;
    for term in terms {
        segments.push(segment_of(xorbs, term))?;
    }
    Ok(segments)
}

/// Adds the hash and the length of each chunk.
fn put_sized(
    out: &mut Vec<(MerkleHash, u64)>,
    chunks: &[Bytes],
    hashes: &[MerkleHash],
) -> Result<(), OutOfMemory>
    requires { hashes.now ≡ map chunk_hash chunks.now }
    ensures { OnOk result (out.new.items ≡ out.old.items ++ map hash_and_size chunks.now) }
{
    for k in 0..chunks.len() {
        out.push((hashes[k], chunks[k].len() as u64))?;
    }
    Ok(())
}

/// The name of the file of the terms' chunks, whose salt is 32 zero bytes.
pub(crate) fn name_of(
    alloc: Global,
    xorbs: &BTreeMap<u64, GeneratedXorb>,
    terms: &[(u64, (u64, u64))],
) -> Result<MerkleHash, OutOfMemory>
    requires { All (IsCut xorbs.now.entries) terms.now }
    ensures { IfOk result (λ name. name ≡ name_of_chunks (flat_map (cut_of xorbs.now.entries) terms.now)) }
{
    let mut sized = Vec::new(alloc);
    for term in terms {
        put_sized(&mut sized, chunks_of(xorbs, term), hashes_of(xorbs, term))?;
    }
    Ok(file_hash_with_salt(&sized, &[0; 32]))
}

/// Adds chunks, one behind the other.
fn put_chunks(out: &mut Vec<u8>, chunks: &[Bytes]) -> Result<(), OutOfMemory>
    ensures { OnOk result (out.new.items ≡ out.old.items ++ joined chunks.now) }
{
    for chunk in chunks {
        out.extend_from_slice(chunk.as_slice())?;
    }
    Ok(())
}

/// The bytes of the file, for which so much room is taken at first.
pub(crate) fn content_of(
    alloc: Global,
    xorbs: &BTreeMap<u64, GeneratedXorb>,
    terms: &[(u64, (u64, u64))],
    room: usize,
) -> Result<Bytes, OutOfMemory>
    requires { All (IsCut xorbs.now.entries) terms.now }
    ensures { IfOk result (λ content. content ≡ flat_map (λ t. joined (cut_of xorbs.now.entries t)) terms.now) }
{
    let mut content = Vec::with_capacity(alloc, room)?;
    for term in terms {
        put_chunks(&mut content, chunks_of(xorbs, term))?;
    }
    Ok(Bytes::from_vec(content)?)
}

/// A term, whose bytes the file's rest begins with and which are taken from it.
fn take_reference(
    alloc: Global,
    xorbs: &BTreeMap<u64, GeneratedXorb>,
    term: &(u64, (u64, u64)),
    rest: &mut Bytes,
) -> Result<FileTermReference, OutOfMemory>
    requires cut { IsCut xorbs.now.entries term.now }
    requires there { length (joined (cut_of xorbs.now.entries term.now)) ≤ length rest.old }
    ensures rest { OnOk result (rest.new ≡ drop (length (joined (cut_of xorbs.now.entries term.now))) rest.old) }
    ensures reference { IfOk result (λ r. r ≡ record (reference_of xorbs.now.entries term.now) { content = take (length (joined (cut_of xorbs.now.entries term.now))) rest.old }) }
{
    let segment = segment_of(xorbs, term);
    let content = rest.split_to(segment.unpacked_segment_bytes as usize)?;
    Ok(FileTermReference {
        xorb_hash: segment.xorb_hash,
        chunk_start: segment.chunk_index_start,
        chunk_end: segment.chunk_index_end,
        content,
        chunk_hashes: Vec::from_slice(alloc, hashes_of(xorbs, term))?,
    })
}

/// The terms with their bytes, as slices of the file's.
pub(crate) fn references_of(
    alloc: Global,
    xorbs: &BTreeMap<u64, GeneratedXorb>,
    terms: &[(u64, (u64, u64))],
    content: &Bytes,
) -> Result<Vec<FileTermReference>, OutOfMemory>
    requires cuts { All (IsCut xorbs.now.entries) terms.now }
    requires content { content.now ≡ flat_map (λ t. joined (cut_of xorbs.now.entries t)) terms.now }
    ensures { IfOk result (λ references. references.items ≡ map (reference_of xorbs.now.entries) terms.now) }
{
    let mut references = Vec::with_capacity(alloc, terms.len())?;
    let mut rest = content.clone()?;
    for term in terms {
        references.push(take_reference(alloc, xorbs, term, &mut rest)?)?;
    }
    Ok(references)
}
