//! What is known of a xorb without its bytes: its chunks' hashes and where they end.
ghost use Rattle.std.specs.Prelude.{◌≡◌, ◌≢◌, ℕ, ◌+◌, ◌*◌, ◌^◌, ◌<◌, ◌≤◌, length, slice_index, All, sum, IfOk, MatchResult};
ghost use Rattle.xet_types.specs.Names.{name_of_hashes};
ghost use Rattle.xet_types.specs.declared.error.ClientError.TheVariants.{InvalidRange};
ghost use Rattle.xet_xorb.specs.Lengths.{IsChunkLength, AreLengths, unpacked_before, packed_before, serialized_length};
ghost use Rattle.xet_xorb.specs.Values.{Xorb};

use std::alloc::Global;
use std::marker::Model;
use xet_types::{ClientError, MerkleHash, OutOfMemory, xorb_hash};

/// The lists of a xorb's footer, one entry a chunk. Offsets are in bytes.
#[derive(Debug, Drop)]
pub struct XorbObjectInfoV1 {
    /// The name of the xorb.
    pub xorb_hash: MerkleHash,
    /// How many chunks there are, at least 1.
    pub num_chunks: u32,
    /// The hash of each chunk.
    pub chunk_hashes: Vec<MerkleHash>,
    /// Where each chunk ends in the xorb's bytes, with a header of 8 before each.
    pub chunk_boundary_offsets: Vec<u32>,
    /// Where each chunk ends in the joined chunks.
    pub unpacked_chunk_offsets: Vec<u32>,
}

/// What is known of a xorb without its bytes, which contracts see as its chunks' hashes and lengths.
#[derive(Debug, Drop)]
pub struct XorbObject {
    /// The lists.
    pub info: XorbObjectInfoV1,
    /// The length of the footer in bytes.
    pub info_length: u32,
}

impl Model for XorbObject {
    ghost use Rattle.xet_xorb.specs.Values.{Xorb};

    ghost Value = { Xorb };

    ghost use Rattle.xet_xorb.specs.Objects.{xorb_of, IsObject};

    ghost view = { xorb_of };

    ghost invariant = { IsObject };
}

impl XorbObject {
    /// The object of a xorb whose chunks have these hashes and lengths in bytes.
    pub fn new(
        alloc: Global,
        chunk_hashes: Vec<MerkleHash>,
        lengths: &[u32],
    ) -> Result<XorbObject, OutOfMemory>
        requires lengths { AreLengths lengths.now }
        requires hashes { length chunk_hashes.items ≡ length lengths.now }
        ensures { IfOk result (λ object. object ≡ record { hashes = chunk_hashes.items; lengths = lengths.now }) }
    {
        let mut unpacked_chunk_offsets = Vec::with_capacity(alloc, lengths.len())?;
        let mut chunk_boundary_offsets = Vec::with_capacity(alloc, lengths.len())?;
        let mut end = 0u32;
        let mut boundary = 0u32;
        for length in lengths {
            end += *length;
            boundary += *length + 8;
            unpacked_chunk_offsets.push(end)?;
            chunk_boundary_offsets.push(boundary)?;
        }
        let num_chunks = lengths.len() as u32;
        Ok(XorbObject {
            info: XorbObjectInfoV1 {
                xorb_hash: xorb_hash(&chunk_hashes),
                num_chunks,
                chunk_hashes,
                chunk_boundary_offsets,
                unpacked_chunk_offsets,
            },
            info_length: 44 + 40 * num_chunks,
        })
    }

    /// Another object of the same.
    pub fn clone(&self, alloc: Global) -> Result<XorbObject, OutOfMemory>
        ensures { IfOk result (λ object. object ≡ self.now) }
    {
        Ok(XorbObject {
            info: XorbObjectInfoV1 {
                xorb_hash: self.info.xorb_hash,
                num_chunks: self.info.num_chunks,
                chunk_hashes: Vec::from_slice(alloc, &self.info.chunk_hashes)?,
                chunk_boundary_offsets: Vec::from_slice(alloc, &self.info.chunk_boundary_offsets)?,
                unpacked_chunk_offsets: Vec::from_slice(alloc, &self.info.unpacked_chunk_offsets)?,
            },
            info_length: self.info_length,
        })
    }

    /// The name of the xorb: the hash of its chunks' hashes.
    pub fn xorb_hash(&self) -> MerkleHash
        ensures { result ≡ name_of_hashes self.now.hashes }
    {
        self.info.xorb_hash
    }

    /// How many chunks there are, at least 1.
    pub fn num_chunks(&self) -> u32
        ensures count { result ≡ length self.now.lengths }
        ensures hashes { length self.now.hashes ≡ length self.now.lengths }
        ensures lengths { AreLengths self.now.lengths }
    {
        self.info.num_chunks
    }

    /// The length of a chunk in bytes. `InvalidRange` exactly where there is no such chunk.
    pub fn uncompressed_chunk_length(&self, index: u32) -> Result<u32, ClientError>
        ensures { MatchResult result (λ n. (index < length self.now.lengths) × (n ≡ slice_index self.now.lengths index)) (λ e. (length self.now.lengths ≤ index) × (e ≡ InvalidRange)) }
    {
        if index >= self.num_chunks() {
            return Err(ClientError::InvalidRange);
        }
        Ok(self.unpacked_before(index + 1) - self.unpacked_before(index))
    }

    /// Where chunk k begins in the joined chunks; for k the number of chunks, where the last one ends.
    pub fn unpacked_before(&self, k: u32) -> u32
        requires { k ≤ length self.now.lengths }
        ensures { result ≡ unpacked_before self.now.lengths k }
    {
        if k == 0 {
            0
        } else {
            self.info.unpacked_chunk_offsets[(k - 1) as usize]
        }
    }

    /// Where chunk k begins in the xorb's bytes; for k the number of chunks, where the last one ends.
    pub fn packed_before(&self, k: u32) -> u32
        requires { k ≤ length self.now.lengths }
        ensures { result ≡ packed_before self.now.lengths k }
    {
        if k == 0 {
            0
        } else {
            self.info.chunk_boundary_offsets[(k - 1) as usize]
        }
    }

    /// Where the chunks from `start` up to `end` lie in the xorb's bytes. `InvalidRange` exactly where the range is
    /// empty, reversed or ends past the last chunk.
    pub fn get_byte_offset(&self, start: u32, end: u32) -> Result<(u32, u32), ClientError>
        ensures { MatchResult result (λ r. (start < end) × (end ≤ length self.now.lengths) × (r.0 ≡ packed_before self.now.lengths start) × (r.1 ≡ packed_before self.now.lengths end)) (λ e. ((start < end) → (end ≤ length self.now.lengths) → ⊥) × (e ≡ InvalidRange)) }
    {
        if start >= end || end > self.num_chunks() {
            return Err(ClientError::InvalidRange);
        }
        Ok((self.packed_before(start), self.packed_before(end)))
    }

    /// How long the xorb is in bytes with its footer.
    pub fn serialized_length(&self) -> u32
        ensures { result ≡ serialized_length self.now.lengths }
    {
        self.packed_before(self.num_chunks()) + self.info_length + 4
    }
}
