//! A xorb as it is uploaded.
use bytes::Bytes;
use xet_types::MerkleHash;

/// A xorb's bytes under its hash, and what the uploader says of them.
#[derive(Debug, Drop)]
pub struct SerializedXorbObject {
    /// The name of the xorb.
    pub hash: MerkleHash,
    /// The xorb's bytes.
    pub serialized_data: Bytes,
    /// The length of the chunks together, in bytes.
    pub raw_num_bytes: u64,
    /// How many chunks there are.
    pub num_chunks: u32,
    /// Where the footer begins, where there is one.
    pub footer_start: Option<u32>,
}
