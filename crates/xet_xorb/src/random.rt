//! Xorbs whose chunks are generated from seeds, so that their bytes need not be kept.
ghost use Rattle.std.specs.Prelude.{◌≡◌, ◌↔◌, ◌+◌, ◌≤◌, ◌<◌, ◌++◌, length, map, replicate, slice_get, slice_range, IsTrue, IfOk, OnOk};
ghost use Rattle.xet_types.specs.Names.{chunk_hash, xorb_name};
ghost use Rattle.xet_xorb.specs.Lengths.{AreLengths, packed_before};
ghost use Rattle.xet_xorb.specs.ChunkLists.{IsWellFormed, lengths_of, joined, object_of};
ghost use Rattle.xet_xorb.specs.XorbBytes.{xorb_bytes};
ghost use Rattle.xet_xorb.specs.Generated.{generated_chunks, seeded_chunks, Generates, hash_and_size, IsRangeData, met_bytes};

use crate::generate::{
    RandomChunkInfo, are_equal_lengths, are_lengths, hash_sizes_of, hashes_of, infos_of, part,
    put_all_generated, put_all_packed, put_generated, seeded_specs, sizes_of,
};
use crate::object::XorbObject;
use crate::write::put_footer;
use bytes::Bytes;
use std::alloc::Global;
use std::marker::Model;
use xet_types::{ClientError, MerkleHash, OutOfMemory};

/// A xorb whose chunks are generated, which contracts see as its chunks.
///
/// The bytes of a chunk are those with which Xoshiro256++ fills a buffer of the chunk's length, from the state that the chunk's
/// seed gives. Only the seeds, lengths and hashes are kept.
#[derive(Debug, Drop)]
pub struct RandomXorb {
    chunks: Vec<RandomChunkInfo>,
    object: XorbObject,
}

impl Model for RandomXorb {
    ghost use Rattle.std.specs.Prelude.{List, ℕ};
    ghost use Rattle.xet_xorb.specs.Generated.{chunks_of, IsRandom};

    ghost Value = { List (List ℕ) };

    ghost view = { chunks_of };

    ghost invariant = { IsRandom };
}

/// The xorb of chunks of these seeds and lengths.
fn xorb_of(alloc: Global, chunk_specs: &[(u64, u32)]) -> Result<RandomXorb, OutOfMemory>
    requires { AreLengths (map (λ s. s.1) chunk_specs.now) }
    ensures { IfOk result (λ xorb. xorb ≡ generated_chunks chunk_specs.now) }
{
    let chunks = infos_of(alloc, chunk_specs)?;
    let hashes = hashes_of(alloc, chunks.as_slice())?;
    let sizes = sizes_of(alloc, chunks.as_slice())?;
    let object = XorbObject::new(alloc, hashes, sizes.as_slice())?;
    Ok(RandomXorb { chunks, object })
}

/// The number of the chunk behind whose header, or in whose header, the byte of a xorb stands; the number of chunks where it stands
/// in the footer.
fn chunk_at(object: &XorbObject, at: u32) -> u32
    ensures within { result ≤ length object.now.lengths }
    ensures from { packed_before object.now.lengths result ≤ at }
    ensures before { result < length object.now.lengths → at < packed_before object.now.lengths (result + 1) }
{
    let mut first = 0;
    let mut last = object.num_chunks();
    while first < last {
        let middle = first + (last - first) / 2;
        if object.packed_before(middle + 1) <= at {
            first = middle + 1;
        } else {
            last = middle;
        }
    }
    first
}

impl RandomXorb {
    /// The xorb of chunks of these seeds and lengths in bytes.
    ///
    /// `InvalidArguments` exactly where these aren't the chunks of a xorb: there are none, one is empty or longer than 16,777,215
    /// bytes, or the xorb would have 2^32 bytes or more with its footer. This is tested before anything is generated.
    pub fn new(alloc: Global, chunk_specs: &[(u64, u32)]) -> Result<RandomXorb, ClientError>
        ensures { Generates (generated_chunks chunk_specs.now) result }
    {
        if !are_lengths(chunk_specs) {
            return Err(ClientError::InvalidArguments);
        }
        Ok(xorb_of(alloc, chunk_specs)?)
    }

    /// The xorb of so many chunks of `chunk_size` bytes, whose seeds are the first numbers of 64 bits of the generator of `seed`.
    ///
    /// `InvalidArguments` exactly as for `new`.
    pub fn from_seed(
        alloc: Global,
        seed: u64,
        num_chunks: u32,
        chunk_size: u32,
    ) -> Result<RandomXorb, ClientError>
        ensures { Generates (seeded_chunks seed num_chunks chunk_size) result }
    {
        if !are_equal_lengths(num_chunks, chunk_size) {
            return Err(ClientError::InvalidArguments);
        }
        let chunk_specs = seeded_specs(alloc, seed, num_chunks, chunk_size)?;
        Ok(xorb_of(alloc, chunk_specs.as_slice())?)
    }

    /// Whether `from_seed` takes so many chunks of `chunk_size` bytes, whatever the seed: they are those of a xorb.
    pub fn can_be_made(num_chunks: u32, chunk_size: u32) -> bool
        ensures { IsTrue result ↔ AreLengths (replicate num_chunks chunk_size) }
    {
        are_equal_lengths(num_chunks, chunk_size)
    }

    /// Another one of the same chunks.
    pub fn clone(&self, alloc: Global) -> Result<RandomXorb, OutOfMemory>
        ensures { IfOk result (λ xorb. xorb ≡ self.now) }
    {
        Ok(RandomXorb {
            chunks: Vec::from_slice(alloc, &self.chunks)?,
            object: self.object.clone(alloc)?,
        })
    }

    /// How many chunks there are, at least 1.
    pub fn num_chunks(&self) -> u32
        ensures count { result ≡ length self.now }
        ensures formed { IsWellFormed self.now }
    {
        self.object.num_chunks()
    }

    /// The name of the xorb: the hash of its chunks' hashes.
    pub fn xorb_hash(&self) -> MerkleHash
        ensures name { result ≡ xorb_name self.now }
        ensures formed { IsWellFormed self.now }
    {
        self.object.xorb_hash()
    }

    /// The hash of a chunk, where there is one of this number.
    pub fn chunk_hash(&self, idx: u32) -> Option<MerkleHash>
        ensures { result ≡ slice_get (map chunk_hash self.now) idx }
    {
        let chunk = self.chunks.get(idx as usize)?;
        Some(chunk.hash)
    }

    /// The length of a chunk in bytes, where there is one of this number.
    pub fn chunk_size(&self, idx: u32) -> Option<u32>
        ensures { result ≡ slice_get (lengths_of self.now) idx }
    {
        let chunk = self.chunks.get(idx as usize)?;
        Some(chunk.size)
    }

    /// The length of the joined chunks in bytes.
    pub fn total_uncompressed_size(&self) -> u64
        ensures { result ≡ length (joined self.now) }
    {
        u64::from(self.object.unpacked_before(self.object.num_chunks()))
    }

    /// The length in bytes of the joined chunks of a range, of which only those count that are there.
    pub fn chunk_range_size(&self, start: u32, end: u32) -> u64
        ensures { result ≡ length (joined (slice_range self.now start end)) }
    {
        let end = end.min(self.object.num_chunks());
        if start >= end {
            return 0;
        }
        u64::from(self.object.unpacked_before(end) - self.object.unpacked_before(start))
    }

    /// The hash and the length in bytes of each chunk of a range, of which only those count that are there.
    pub fn chunk_hash_sizes(
        &self,
        alloc: Global,
        start: u32,
        end: u32,
    ) -> Result<Vec<(MerkleHash, u64)>, OutOfMemory>
        ensures { IfOk result (λ pairs. pairs.items ≡ slice_range (map hash_and_size self.now) start end) }
    {
        hash_sizes_of(
            alloc,
            part(self.chunks.as_slice(), start as usize, end as usize),
        )
    }

    /// The hash of each chunk of a range, of which only those count that are there.
    pub fn chunk_hashes_range(
        &self,
        alloc: Global,
        start: u32,
        end: u32,
    ) -> Result<Vec<MerkleHash>, OutOfMemory>
        ensures { IfOk result (λ hashes. hashes.items ≡ slice_range (map chunk_hash self.now) start end) }
    {
        hashes_of(
            alloc,
            part(self.chunks.as_slice(), start as usize, end as usize),
        )
    }

    /// The bytes of a chunk, where there is one of this number.
    pub fn get_chunk_data(&self, alloc: Global, idx: u32) -> Result<Option<Bytes>, OutOfMemory>
        ensures { IfOk result (λ chunk. chunk ≡ slice_get self.now idx) }
    {
        let Some(chunk) = self.chunks.get(idx as usize) else {
            return Ok(None);
        };
        let mut bytes = Vec::with_capacity(alloc, chunk.size as usize)?;
        put_generated(&mut bytes, chunk.seed, chunk.size)?;
        Ok(Some(Bytes::from_vec(bytes)?))
    }

    /// The joined chunks from `start` up to `end`. None exactly where the range is empty, reversed or ends past the last chunk.
    pub fn get_chunk_range_data(
        &self,
        alloc: Global,
        start: u32,
        end: u32,
    ) -> Result<Option<Bytes>, OutOfMemory>
        ensures { IfOk result (λ bytes. IsRangeData self.now start end bytes) }
    {
        if start >= end || end > self.num_chunks() {
            return Ok(None);
        }
        let mut bytes = Vec::with_capacity(alloc, self.chunk_range_size(start, end) as usize)?;
        let chunks = part(self.chunks.as_slice(), start as usize, end as usize);
        put_all_generated(&mut bytes, chunks)?;
        Ok(Some(Bytes::from_vec(bytes)?))
    }

    /// What is known of the xorb without its bytes.
    pub fn get_xorb_object(&self, alloc: Global) -> Result<XorbObject, OutOfMemory>
        ensures { IfOk result (λ object. object ≡ object_of self.now) }
    {
        self.object.clone(alloc)
    }

    /// The length of the xorb in bytes with its footer.
    pub fn serialized_length(&self) -> u64
        ensures { result ≡ length (xorb_bytes self.now) }
    {
        u64::from(self.object.serialized_length())
    }

    /// Adds the chunks from `first` to `last`, each behind its header, and the footer where `last` is behind all chunks.
    fn put_met(&self, out: &mut Vec<u8>, first: u32, last: u32) -> Result<(), OutOfMemory>
        requires { last ≤ length self.now }
        ensures { OnOk result (out.new.items ≡ out.old.items ++ met_bytes self.now first last) }
    {
        let chunks = part(self.chunks.as_slice(), first as usize, last as usize + 1);
        put_all_packed(out, chunks)?;
        if last < self.object.num_chunks() {
            return Ok(());
        }
        put_footer(out, &self.object)?;
        Ok(())
    }

    /// The bytes from `start` up to `end` of the xorb with its footer. The end is clipped to the xorb's; there are none where `start`
    /// isn't below it. Only the chunks that the range meets are generated.
    pub fn get_serialized_range(
        &self,
        alloc: Global,
        start: u64,
        end: u64,
    ) -> Result<Bytes, OutOfMemory>
        ensures { IfOk result (λ bytes. bytes ≡ slice_range (xorb_bytes self.now) start end) }
    {
        let end = end.min(self.serialized_length());
        if start >= end {
            return Ok(Bytes::new());
        }
        let first = chunk_at(&self.object, start as u32);
        let last = chunk_at(&self.object, (end - 1) as u32);
        let before = u64::from(self.object.packed_before(first));
        let mut met = Vec::with_capacity(alloc, (end - before) as usize)?;
        self.put_met(&mut met, first, last)?;
        let met = Bytes::from_vec(met)?;
        Ok(met.slice((start - before) as usize..(end - before) as usize)?)
    }

    /// The bytes of the xorb with its footer.
    pub fn get_full_serialized(&self, alloc: Global) -> Result<Bytes, OutOfMemory>
        ensures { IfOk result (λ bytes. bytes ≡ xorb_bytes self.now) }
    {
        let mut out = Vec::with_capacity(alloc, self.object.serialized_length() as usize)?;
        self.put_met(&mut out, 0, self.object.num_chunks())?;
        Ok(Bytes::from_vec(out)?)
    }

    /// What is known of the xorb without its bytes. Takes no memory.
    pub fn into_object(self) -> XorbObject
        ensures value { result ≡ object_of self }
        ensures formed { IsWellFormed self }
    {
        self.object
    }
}

#[cfg(test)]
mod tests;
