//! What a step answers.
use crate::pieces::Pieces;
use crate::plan_links::PlanLinks;
use crate::step::PlanVersion;
use xet_types::{Items, MerkleHash, Octets, Refusal, XorbReconstructionTerm};

/// Why a cache was of no use to a fetch.
#[derive(Clone, Copy, Debug, PartialEq, Eq)]
pub enum CacheRefusal {
    General,
    Io,
    Parse,
    BadRange,
    InvalidArguments,
    OutOfMemory,
    /// The cache answered what aren't the link's chunks.
    Disagrees,
}

/// What a cache did for a fetch.
#[derive(Clone, Copy, Debug, PartialEq, Eq)]
pub struct CacheNote {
    /// How many ranges it answered.
    pub hits: u32,
    /// How many ranges were put into it.
    pub stored: u32,
    /// Its first refusal.
    pub refused: Option<CacheRefusal>,
}

/// The answer of a step.
#[derive(Debug, Drop)]
pub enum Reply {
    /// The xorb's length in bytes with its footer, or 0 where it was stored already.
    Uploaded(u64),
    /// The shard was accepted.
    ShardTaken(bool),
    /// No stored shard lists the file, it is hidden, or the range begins at or past its end.
    NoPlan,
    /// It was done.
    Done,
    /// A read is open.
    Planned {
        version: PlanVersion,
        /// Its number.
        read: u64,
        /// Where the asked bytes begin in the terms' joined chunks.
        offset: u64,
        terms: Items<XorbReconstructionTerm>,
        /// Numbered from 0.
        links: PlanLinks,
    },
    /// A link's chunks were taken.
    Fetched {
        read: u64,
        link: u32,
        /// How many links are left.
        left: u32,
        /// The length in bytes of the body that brought them.
        wire: u64,
        cache: CacheNote,
    },
    /// The read has ended.
    Finished {
        read: u64,
        /// The asked bytes.
        bytes: Pieces,
        /// The length in bytes of the last body.
        wire: u64,
        cache: CacheNote,
    },
    /// The chunk has no entry, or its shard isn't stored.
    NoShard,
    /// The bytes of the shard that has the chunk.
    ShardBytes(Octets),
    /// Hashes in order.
    Hashes(Items<MerkleHash>),
    /// Files with the shards that list them, in order of file, then of shard.
    Files(Items<(MerkleHash, MerkleHash)>),
    /// The name of the generated xorb.
    Random(MerkleHash),
    /// How many bytes the file has.
    Size(u64),
    /// The file's bytes.
    Data(Octets),
    /// The plans of the files that are live.
    Batch {
        /// The terms of each file, in order of its hash.
        files: Items<(MerkleHash, Items<XorbReconstructionTerm>)>,
        /// In order of xorb; those of a xorb as the asked files have them. Each has one range.
        links: PlanLinks,
    },
    /// A generated file is stored.
    Lazy {
        file: MerkleHash,
        /// How many bytes it has.
        size: u64,
    },
    /// Nothing was changed.
    Refused(Refusal),
}
