//! What a shard lists.
ghost use Rattle.std.specs.Prelude.{◌≡◌, ◌^◌, ◌<◌, length, IfOk};
ghost use Rattle.xet_shard.specs.Values.{size_of};

use std::alloc::Global;
use std::marker::Model;
use xet_types::{MerkleHash, OutOfMemory};

/// A part of a file: a range of a xorb's chunks, and their length.
#[derive(Clone, Copy, Debug, PartialEq, Eq)]
pub struct Segment {
    /// The xorb that holds the chunks.
    pub xorb_hash: MerkleHash,
    /// Kept as it is.
    pub xorb_flags: u32,
    /// The number of the first chunk.
    pub chunk_index_start: u32,
    /// Past the number of the last chunk.
    pub chunk_index_end: u32,
    /// The listed length of the chunks together, in bytes.
    pub unpacked_segment_bytes: u32,
}

/// A file as the list of its segments, in file order: fewer than 2^32.
#[derive(Debug, Drop)]
pub struct FileListing {
    /// The file.
    pub file_hash: MerkleHash,
    /// Its segments.
    pub segments: Vec<Segment>,
}

impl Model for FileListing {
    ghost use Rattle.std.specs.Prelude.{◌<◌, ◌^◌, length};
    ghost use Rattle.xet_shard.specs.Values.{Listing};

    ghost Value = { Listing };

    ghost view = { λ f. record { file_hash = f.file_hash; segments = f.segments.items } };

    ghost invariant = { λ f. length f.segments.items < 2 ^ 32 };
}

impl FileListing {
    /// The segments in file order.
    pub fn segments(&self) -> &[Segment]
        ensures value { result.now ≡ self.now.segments }
        ensures few { length self.now.segments < 2 ^ 32 }
    {
        &self.segments
    }

    /// The size of the file in bytes: the sum of the listed lengths. Takes no memory.
    pub fn file_size(&self) -> u64
        ensures { result ≡ size_of self.now.segments }
    {
        let mut size = 0;
        for segment in self.segments() {
            size += u64::from(segment.unpacked_segment_bytes);
        }
        size
    }

    /// Another listing of the same.
    pub fn clone(&self, alloc: Global) -> Result<FileListing, OutOfMemory>
        ensures { IfOk result (λ f. f ≡ self.now) }
    {
        Ok(FileListing {
            file_hash: self.file_hash,
            segments: Vec::from_slice(alloc, &self.segments)?,
        })
    }
}

/// A chunk that a shard lists for a xorb.
#[derive(Clone, Copy, Debug, PartialEq, Eq)]
pub struct ChunkListing {
    /// The chunk.
    pub chunk_hash: MerkleHash,
    /// Where it begins in the joined chunks, in bytes.
    pub chunk_byte_range_start: u32,
    /// Its length in bytes.
    pub unpacked_segment_bytes: u32,
    /// Kept as it is.
    pub flags: u32,
    /// Kept as it is.
    pub spare: u32,
}

/// A xorb as the list of its chunks: fewer than 2^32.
#[derive(Debug, Drop)]
pub struct XorbListing {
    /// The xorb.
    pub xorb_hash: MerkleHash,
    /// The listed length of its chunks together, in bytes.
    pub num_bytes: u32,
    /// Its chunks.
    pub chunks: Vec<ChunkListing>,
}

impl Model for XorbListing {
    ghost use Rattle.std.specs.Prelude.{◌<◌, ◌^◌, length};
    ghost use Rattle.xet_shard.specs.Values.{ListedXorb};

    ghost Value = { ListedXorb };

    ghost view = { λ x. record { xorb_hash = x.xorb_hash; num_bytes = x.num_bytes; chunks = x.chunks.items } };

    ghost invariant = { λ x. length x.chunks.items < 2 ^ 32 };
}

impl XorbListing {
    /// The chunks in order.
    pub fn chunks(&self) -> &[ChunkListing]
        ensures value { result.now ≡ self.now.chunks }
        ensures few { length self.now.chunks < 2 ^ 32 }
    {
        &self.chunks
    }

    /// Another listing of the same.
    pub fn clone(&self, alloc: Global) -> Result<XorbListing, OutOfMemory>
        ensures { IfOk result (λ x. x ≡ self.now) }
    {
        Ok(XorbListing {
            xorb_hash: self.xorb_hash,
            num_bytes: self.num_bytes,
            chunks: Vec::from_slice(alloc, &self.chunks)?,
        })
    }
}

/// Files and xorbs: fewer than 2^32 of each.
#[derive(Debug, Drop)]
pub struct Shard {
    /// When its dedup entries expire, in seconds; 0 for never.
    pub expiry: u64,
    /// The files.
    pub files: Vec<FileListing>,
    /// The xorbs.
    pub xorbs: Vec<XorbListing>,
}

impl Model for Shard {
    ghost use Rattle.std.specs.Prelude.{◌<◌, ◌^◌, length};
    ghost use Rattle.xet_shard.specs.Listings.{ShardModel};

    ghost Value = { ShardModel };

    ghost view = { λ s. record { expiry = s.expiry; files = s.files.items; xorbs = s.xorbs.items } };

    ghost invariant = { λ s. (length s.files.items < 2 ^ 32) × (length s.xorbs.items < 2 ^ 32) };
}

impl Shard {
    /// The files in order.
    pub fn files(&self) -> &[FileListing]
        ensures value { result.now ≡ self.now.files }
        ensures few { length self.now.files < 2 ^ 32 }
    {
        &self.files
    }

    /// The xorbs in order.
    pub fn xorbs(&self) -> &[XorbListing]
        ensures value { result.now ≡ self.now.xorbs }
        ensures few { length self.now.xorbs < 2 ^ 32 }
    {
        &self.xorbs
    }
}
