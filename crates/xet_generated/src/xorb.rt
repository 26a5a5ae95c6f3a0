//! A generated xorb with its bytes.
ghost use Rattle.std.specs.Prelude.{◌≡◌, ◌≤◌, ◌<◌, length, map, replicate, Some, IfOk};
ghost use Rattle.xet_types.specs.Names.{chunk_hash, xorb_name};
ghost use Rattle.xet_xorb.specs.Lengths.{AreLengths, unpacked_before};
ghost use Rattle.xet_xorb.specs.ChunkLists.{IsWellFormed, lengths_of, joined, object_of};
ghost use Rattle.xet_xorb.specs.XorbBytes.{xorb_text, xorb_bytes};
ghost use Rattle.xet_xorb.specs.Generated.{seeded_chunks};
ghost use Rattle.xet_generated.specs.Shards.{listed_xorb, listed_chunks};

use bytes::Bytes;
use std::alloc::Global;
use std::marker::Model;
use xet_shard::{ChunkListing, XorbListing};
use xet_types::{MerkleHash, OutOfMemory};
use xet_xorb::{SerializedXorbObject, XorbObject, generate_serialized, read_chunks};

/// A generated xorb, which contracts see as its chunks: these as slices of its bytes, its bytes with its footer, and what is known
/// of it without them.
#[derive(Drop)]
pub struct GeneratedXorb {
    chunks: Vec<Bytes>,
    text: Bytes,
    object: XorbObject,
}

impl Model for GeneratedXorb {
    ghost use Rattle.std.specs.Prelude.{List, ℕ};
    ghost use Rattle.xet_generated.specs.Making.{IsGenerated};

    ghost Value = { List (List ℕ) };

    ghost view = { λ x. x.chunks.items };

    ghost invariant = { IsGenerated };
}

impl GeneratedXorb {
    /// The xorb of so many chunks of `chunk_size` bytes from one seed. Each chunk is generated once and hashed once.
    pub(crate) fn from_seed(
        alloc: Global,
        seed: u64,
        num_chunks: u32,
        chunk_size: u32,
    ) -> Result<GeneratedXorb, OutOfMemory>
        requires { AreLengths (replicate num_chunks chunk_size) }
        ensures { IfOk result (λ xorb. xorb ≡ seeded_chunks seed num_chunks chunk_size) }
    {
        let Ok((object, text)) = generate_serialized(alloc, seed, num_chunks, chunk_size) else {
            return Err(OutOfMemory);
        };
        let packed = text.slice(0..object.packed_before(object.num_chunks()) as usize)?;
        let Ok(chunks) = read_chunks(alloc, &packed) else {
            return Err(OutOfMemory);
        };
        Ok(GeneratedXorb {
            chunks,
            text,
            object,
        })
    }

    /// The chunks.
    pub fn chunks(&self) -> &[Bytes]
        ensures value { result.now ≡ self.now }
        ensures formed { IsWellFormed self.now }
    {
        &self.chunks
    }

    /// The hash of each chunk.
    pub fn chunk_hashes(&self) -> &[MerkleHash]
        ensures { result.now ≡ map chunk_hash self.now }
    {
        &self.object.info.chunk_hashes
    }

    /// The name of the xorb.
    pub fn xorb_hash(&self) -> MerkleHash
        ensures { result ≡ xorb_name self.now }
    {
        self.object.xorb_hash()
    }

    /// The bytes with the footer.
    pub fn text(&self) -> &Bytes
        ensures { result.now ≡ xorb_bytes self.now }
    {
        &self.text
    }

    /// Where chunk k begins in the joined chunks; for k the number of chunks, where the last one ends.
    pub fn unpacked_before(&self, k: u32) -> u32
        requires { k ≤ length self.now }
        ensures { result ≡ unpacked_before (lengths_of self.now) k }
    {
        self.object.unpacked_before(k)
    }

    /// The xorb as it is uploaded, with its footer. Its bytes aren't copied.
    pub fn upload(&self) -> Result<SerializedXorbObject, OutOfMemory>
        ensures hash { IfOk result (λ u. u.hash ≡ xorb_name self.now) }
        ensures data { IfOk result (λ u. u.serialized_data ≡ xorb_bytes self.now) }
        ensures plain { IfOk result (λ u. u.raw_num_bytes ≡ length (joined self.now)) }
        ensures count { IfOk result (λ u. u.num_chunks ≡ length self.now) }
        ensures footer { IfOk result (λ u. u.footer_start ≡ Some (length (xorb_text self.now))) }
        ensures formed { IsWellFormed self.now }
    {
        let num_chunks = self.object.num_chunks();
        Ok(SerializedXorbObject {
            hash: self.xorb_hash(),
            serialized_data: self.text.clone()?,
            raw_num_bytes: u64::from(self.object.unpacked_before(num_chunks)),
            num_chunks,
            footer_start: Some(self.object.packed_before(num_chunks)),
        })
    }

    /// What is known of the xorb without its bytes, and the bytes with the footer. Takes no memory.
    pub fn into_parts(self) -> (XorbObject, Bytes)
        ensures object { result.0 ≡ object_of self }
        ensures text { result.1 ≡ xorb_bytes self }
        ensures formed { IsWellFormed self }
    {
        (self.object, self.text)
    }

    /// The chunks as a shard lists them.
    fn listed_chunks(&self, alloc: Global) -> Result<Vec<ChunkListing>, OutOfMemory>
        ensures { IfOk result (λ listed. listed.items ≡ listed_chunks 0 self.now) }
    {
        let mut listed = Vec::with_capacity(alloc, self.chunks.len())?;
        for k in 0..self.object.num_chunks() {
            let start = self.object.unpacked_before(k);
            listed.push(ChunkListing {
                chunk_hash: self.chunk_hashes()[k as usize],
                chunk_byte_range_start: start,
                unpacked_segment_bytes: self.object.unpacked_before(k + 1) - start,
                flags: 0,
                spare: 0,
            })?;
        }
        Ok(listed)
    }

    /// The xorb as a shard lists it.
    pub fn listing(&self, alloc: Global) -> Result<XorbListing, OutOfMemory>
        ensures { IfOk result (λ listing. listing ≡ listed_xorb self.now) }
    {
        Ok(XorbListing {
            xorb_hash: self.xorb_hash(),
            num_bytes: self.object.unpacked_before(self.object.num_chunks()),
            chunks: self.listed_chunks(alloc)?,
        })
    }
}
