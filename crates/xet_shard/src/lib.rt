//! Shards: files as lists of segments, and xorbs as lists of chunks.
#![tactic(auto)]

pub mod canonical_form;
pub mod eligible;
pub mod listing;
pub mod read;
#[cfg(test)]
mod tests;
pub mod write;

pub use canonical_form::{canonical, canonical_bytes, shard_hash};
pub use eligible::{eligible_among_xorbs, eligible_chunks};
pub use listing::{ChunkListing, FileListing, Segment, Shard, XorbListing};
pub use read::read_shard;
pub use write::{write_shard, xorb_subset_with_expiry};
