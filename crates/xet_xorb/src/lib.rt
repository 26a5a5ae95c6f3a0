//! Xorbs: lists of chunks under one hash, what is known of one without its bytes, and their bytes.
#![tactic(auto)]

pub mod contents;
pub mod deserialize;
mod footer;
mod generate;
pub mod object;
pub mod random;
pub mod read;
pub mod seeded;
pub mod segment;
pub mod serialized;
pub mod whole;
pub mod write;

pub use contents::{footed_text, reconstruct_xorb_with_footer};
pub use deserialize::deserialize_chunks;
pub use generate::RandomChunkInfo;
pub use object::{XorbObject, XorbObjectInfoV1};
pub use random::RandomXorb;
pub use read::{ReadXorb, read_chunks, read_xorb};
pub use seeded::generate_serialized;
pub use segment::append_chunk_segment;
pub use serialized::SerializedXorbObject;
pub use whole::{ChunkWalk, WholeChunks};
pub use write::{with_footer, write_xorb};

#[cfg(test)]
mod tests;
