//! What a generated file holds.
ghost use Rattle.std.specs.Prelude.{◌≡◌, ◌↔◌, map, slice_get, Some, IfOk, IsTrue};
ghost use Rattle.std.specs.Option.{option_copied, option_map};
ghost use Rattle.xet_generated.specs.Contents.{chunks_under, content_of, xorb_hash_of, chunk_range_of};

use bytes::Bytes;
use std::alloc::Global;
use std::collections::BTreeMap;
use std::marker::Model;
use xet_types::{MerkleHash, OutOfMemory};

/// A term of a generated file: a range of a xorb's chunks.
#[derive(Debug, Drop)]
pub struct FileTermReference {
    /// The xorb that holds the chunks.
    pub xorb_hash: MerkleHash,
    /// The number of the first chunk.
    pub chunk_start: u32,
    /// Past the number of the last chunk.
    pub chunk_end: u32,
    /// The chunks joined, as a slice of the file's bytes.
    pub content: Bytes,
    /// The hash of each chunk.
    pub chunk_hashes: Vec<MerkleHash>,
}

impl Model for FileTermReference {
    ghost use Rattle.xet_generated.specs.Contents.{TermModel};

    ghost Value = { TermModel };

    ghost view = { λ t. record { xorb_hash = t.xorb_hash; chunk_start = t.chunk_start; chunk_end = t.chunk_end; content = t.content; chunk_hashes = t.chunk_hashes.items } };
}

impl FileTermReference {
    /// Another of the same fields. The bytes aren't copied.
    pub fn clone(&self, alloc: Global) -> Result<FileTermReference, OutOfMemory>
        ensures { IfOk result (λ term. term ≡ self.now) }
    {
        Ok(FileTermReference {
            xorb_hash: self.xorb_hash,
            chunk_start: self.chunk_start,
            chunk_end: self.chunk_end,
            content: self.content.clone()?,
            chunk_hashes: Vec::from_slice(alloc, &self.chunk_hashes)?,
        })
    }
}

/// A generated file: its name, its bytes and its terms.
#[derive(Debug, Drop)]
pub struct RandomFileContents {
    /// The name of the file.
    pub file_hash: MerkleHash,
    /// The bytes of the file.
    pub content: Bytes,
    /// The chunks of each xorb that was uploaded; none where the xorbs were put into a store.
    pub xorbs: BTreeMap<MerkleHash, Vec<Bytes>>,
    /// The terms, in file order.
    pub terms: Vec<FileTermReference>,
}

impl Model for RandomFileContents {
    ghost use Rattle.std.specs.Prelude.{map};
    ghost use Rattle.xet_generated.specs.Contents.{FileModel, chunks_under};

    ghost Value = { FileModel };

    ghost view = { λ f. record { file_hash = f.file_hash; content = f.content; xorbs = map chunks_under f.xorbs.entries; terms = f.terms.items } };
}

/// Other holders of the same chunks.
pub(crate) fn copy_of_chunks(alloc: Global, chunks: &[Bytes]) -> Result<Vec<Bytes>, OutOfMemory>
    ensures { IfOk result (λ copy. copy.items ≡ chunks.now) }
{
    let mut copy = Vec::with_capacity(alloc, chunks.len())?;
    for chunk in chunks {
        copy.push(chunk.clone()?)?;
    }
    Ok(copy)
}

fn copy_of_xorbs(
    alloc: Global,
    xorbs: &BTreeMap<MerkleHash, Vec<Bytes>>,
) -> Result<BTreeMap<MerkleHash, Vec<Bytes>>, OutOfMemory>
    ensures { IfOk result (λ copy. map chunks_under copy.entries ≡ map chunks_under xorbs.now.entries) }
{
    let mut copy = BTreeMap::new(alloc);
    for (hash, chunks) in xorbs {
        let copied = copy_of_chunks(alloc, chunks)?;
        copy.insert(*hash, copied)?;
    }
    Ok(copy)
}

fn copy_of_terms(
    alloc: Global,
    terms: &[FileTermReference],
) -> Result<Vec<FileTermReference>, OutOfMemory>
    ensures { IfOk result (λ copy. copy.items ≡ terms.now) }
{
    let mut copy = Vec::with_capacity(alloc, terms.len())?;
    for term in terms {
        copy.push(term.clone(alloc)?)?;
    }
    Ok(copy)
}

impl RandomFileContents {
    /// Another of the same fields. No file or chunk bytes are copied.
    pub fn clone(&self, alloc: Global) -> Result<RandomFileContents, OutOfMemory>
        ensures { IfOk result (λ contents. contents ≡ self.now) }
    {
        Ok(RandomFileContents {
            file_hash: self.file_hash,
            content: self.content.clone()?,
            xorbs: copy_of_xorbs(alloc, &self.xorbs)?,
            terms: copy_of_terms(alloc, &self.terms)?,
        })
    }

    /// Whether there is a term of this number, and these are its bytes. Takes no memory.
    pub fn term_matches(&self, term_index: usize, data: &[u8]) -> bool
        ensures { IsTrue result ↔ (option_map content_of (slice_get self.now.terms term_index) ≡ Some «data».now) }
    {
        match self.term_data(term_index) {
            Some(content) => content.as_slice() == data,
            None => false,
        }
    }

    /// The bytes of a term, where there is one of this number. Takes no memory.
    pub fn term_data(&self, term_index: usize) -> Option<&Bytes>
        ensures { option_copied result ≡ option_map content_of (slice_get self.now.terms term_index) }
    {
        let term = self.terms.get(term_index)?;
        Some(&term.content)
    }

    /// The xorb of a term, where there is one of this number. Takes no memory.
    pub fn term_xorb_hash(&self, term_index: usize) -> Option<MerkleHash>
        ensures { result ≡ option_map xorb_hash_of (slice_get self.now.terms term_index) }
    {
        let term = self.terms.get(term_index)?;
        Some(term.xorb_hash)
    }

    /// The first chunk of a term and past its last one, where there is one of this number. Takes no memory.
    pub fn term_chunk_range(&self, term_index: usize) -> Option<(u32, u32)>
        ensures { result ≡ option_map chunk_range_of (slice_get self.now.terms term_index) }
    {
        let term = self.terms.get(term_index)?;
        Some((term.chunk_start, term.chunk_end))
    }
}
