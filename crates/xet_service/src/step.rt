//! What a reader or a writer asks.
ghost use Rattle.std.specs.Prelude.{◌≡◌, IfOk};

use bytes::Bytes;
use std::alloc::Global;
use std::marker::Model;
use xet_types::{FileRange, Items, MerkleHash, OutOfMemory};

/// The form of a plan: with version 1 each run of a xorb's chunks has a link of its own; with version 2 a link may bring several runs.
#[derive(Clone, Copy, Debug, PartialEq, Eq)]
pub enum PlanVersion {
    V1,
    V2,
}

/// The bytes of an upload, which are shared by all that hold them. They are kept behind a pointer, since most acts have none.
#[derive(Debug, Drop)]
pub struct Content {
    bytes: Box<Bytes>,
}

impl Model for Content {
    ghost use Rattle.std.specs.Prelude.{List, ℕ, box_value};

    ghost Value = { List ℕ };

    ghost view = { λ c. box_value c.bytes };
}

impl Content {
    /// These bytes, without copying them.
    pub fn new(alloc: Global, bytes: Bytes) -> Result<Content, OutOfMemory>
        ensures { IfOk result (λ content. content ≡ bytes) }
    {
        match Box::new(alloc, bytes) {
            Ok(bytes) => Ok(Content { bytes }),
            Err(_) => Err(OutOfMemory),
        }
    }

    /// The bytes.
    pub fn as_bytes(&self) -> &Bytes
        ensures { result.now ≡ self.now }
    {
        &self.bytes
    }
}

/// What is asked.
#[derive(Debug, Drop)]
pub enum Act {
    /// Stores a xorb under a hash.
    UploadXorb {
        hash: MerkleHash,
        /// The xorb's bytes.
        content: Content,
    },
    /// Accepts a shard.
    UploadShard {
        /// The shard's bytes.
        content: Content,
    },
    /// Opens a read of a file, or of a range of its bytes.
    Plan {
        version: PlanVersion,
        file: MerkleHash,
        range: Option<FileRange>,
    },
    /// Fetches a link of an open read.
    Fetch {
        /// The read's number.
        read: u64,
        /// The link's number in its plan.
        link: u32,
    },
    /// Closes an open read that isn't finished.
    Abandon {
        /// The read's number.
        read: u64,
    },
    /// Hides a file until a shard that lists it is accepted.
    HideFile {
        file: MerkleHash,
    },
    /// Takes a shard out.
    DeleteShard {
        /// The shard's name.
        shard: MerkleHash,
    },
    /// Takes a xorb out.
    DeleteXorb {
        /// The xorb's name.
        xorb: MerkleHash,
    },
    /// Sets the age above which a link is expired.
    SetExpiration {
        /// In milliseconds.
        millis: u64,
    },
    /// Sets for how long an answer to a query for deduplication is good.
    SetDedupExpiration {
        /// In milliseconds. None and 0 mean that answers don't expire.
        millis: Option<u64>,
    },
    /// Asks for the stored shard that has a chunk.
    DedupQuery {
        /// The chunk's hash.
        chunk: MerkleHash,
    },
    /// Sets how many runs a link of version 2 brings at most.
    SetMaxRanges {
        max: u64,
    },
    /// Takes the entries for deduplication out that name a shard.
    RemoveDedup {
        /// The shard's name.
        shard: MerkleHash,
    },
    /// Lists the xorbs.
    ListXorbs,
    /// Lists the shards.
    ListShards,
    /// Lists the files that aren't hidden, with the shards that list them.
    ListFiles,
    /// Asks whether each listed xorb is stored, and each segment fits that isn't hidden.
    CheckIntegrity,
    /// Asks whether each shard and each xorb is still of use.
    CheckReachable,
    /// Asks whether the segments of all live files agree with their xorbs.
    CheckReadable,
    /// Stores a generated xorb of so many chunks of one length, whose seeds one seed gives.
    InsertRandomXorb {
        seed: u64,
        num_chunks: u32,
        /// In bytes.
        chunk_size: u32,
    },
    /// Asks how many bytes a file has.
    FileSize {
        file: MerkleHash,
    },
    /// Asks for a file's bytes, or for those in a range.
    FileData {
        file: MerkleHash,
        range: Option<FileRange>,
    },
    /// Asks for the plans of version 1 of whole files, taken together. It opens no read.
    Batch {
        /// In the asked order.
        files: Items<MerkleHash>,
    },
    /// Stores a generated file.
    InsertLazyFile {
        /// Seeds, each with a range of chunks of its xorb.
        terms: Items<(u64, (u64, u64))>,
        /// The length of a chunk in bytes.
        chunk_size: u64,
    },
}

/// An act, and when it is asked.
#[derive(Debug, Drop)]
pub struct Step {
    /// The moment, in milliseconds.
    pub at: u64,
    pub act: Act,
}
