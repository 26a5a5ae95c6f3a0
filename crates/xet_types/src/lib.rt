//! Hashes, ranges, lists, errors and the outside of a chunk store.
#![tactic(auto)]

pub mod error;
pub mod hash;
pub mod key;
pub mod list;
pub mod outside;
pub mod range;
pub mod record;

pub use error::{ClientError, FormatFault, OutOfMemory, Refusal};
pub use hash::{MerkleHash, NotHex, compute_data_hash, file_hash_with_salt, xorb_hash};
pub use key::{
    CAS_ENDPOINT, HexKey, HexMerkleHash, Key, PREFIX_DEFAULT, REQUEST_ID_HEADER, SESSION_ID_HEADER,
};
pub use list::{Items, Octets};
pub use outside::Failed;
pub use outside::sink::{MemorySink, Sink, StdSink};
pub use outside::source::{MemorySource, Source, StdSource};
pub use range::{_C, _F, _H, ChunkRange, FileRange, HttpRange, Range, RangeParseError};
pub use record::{
    BatchQueryReconstructionResponse, QueryReconstructionResponse, QueryReconstructionResponseV2,
    XorbMultiRangeFetch, XorbRangeDescriptor, XorbReconstructionFetchInfo, XorbReconstructionTerm,
};

#[cfg(test)]
mod tests;
