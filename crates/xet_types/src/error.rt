//! Why a call is refused.
ghost use Rattle.std.specs.Prelude.{◌≡◌};
ghost use Rattle.xet_types.specs.declared.error.ClientError.TheVariants.{OutOfMemory as Memory};

use crate::hash::MerkleHash;
use std::alloc::{AllocError, AllocFailed};
use thiserror::Error;

/// There was no memory.
#[derive(Clone, Copy, Debug, PartialEq, Eq, Error)]
#[error("out of memory")]
pub struct OutOfMemory;

impl From<AllocError> for OutOfMemory {
    fn from(_: AllocError) -> OutOfMemory {
        OutOfMemory
    }
}

impl<T: Drop> From<AllocFailed<T>> for OutOfMemory {
    fn from(_: AllocFailed<T>) -> OutOfMemory {
        OutOfMemory
    }
}

/// Which bytes leave their format.
#[derive(Clone, Copy, Debug, PartialEq, Eq, Error)]
pub enum FormatFault {
    #[error("xorb")]
    Xorb,
    #[error("shard")]
    Shard,
    #[error("segment")]
    Segment,
    #[error("table")]
    Table,
    #[error("body")]
    Body,
}

/// Why a call of a store, a reader or a client is refused.
#[derive(Debug, Drop, Error)]
pub enum ClientError {
    /// Bytes leave their format, or a segment disagrees with its xorb.
    #[error("Format error: {0}")]
    FormatError(FormatFault),
    /// A range is empty or reversed where it may not be, or leaves what it is a range of.
    #[error("Invalid range")]
    InvalidRange,
    /// A number or a text is outside its rule.
    #[error("Invalid arguments")]
    InvalidArguments,
    /// No stored shard lists the file, or it is hidden.
    #[error("File not found for hash: {0}")]
    FileNotFound(MerkleHash),
    /// The xorb isn't stored.
    #[error("CAS object not found for hash: {0}")]
    XORBNotFound(MerkleHash),
    /// A link is older than the expiration that is set.
    #[error("Presigned URL expired")]
    PresignedUrlExpirationError,
    /// The outside failed.
    #[error("IO error")]
    IOError,
    /// Another cause, as its text says.
    #[error("{0}")]
    Other(String),
    /// The text isn't a key.
    #[error("Invalid key: {0}")]
    InvalidKey(String),
    /// A cache was refused.
    #[error("Cache error: {0}")]
    CacheError(String),
    /// A response had this status.
    #[error("HTTP status {0}")]
    HttpStatus(u16),
    /// There was no memory.
    #[error("out of memory")]
    OutOfMemory,
}

impl From<OutOfMemory> for ClientError {
    ghost from_gives = { λ _ e. e ≡ Memory };

    fn from(_: OutOfMemory) -> ClientError {
        ClientError::OutOfMemory
    }
}

impl From<AllocError> for ClientError {
    ghost from_gives = { λ _ e. e ≡ Memory };

    fn from(_: AllocError) -> ClientError {
        ClientError::OutOfMemory
    }
}

impl<T: Drop> From<AllocFailed<T>> for ClientError {
    ghost from_gives = { λ _ e. e ≡ Memory };

    fn from(_: AllocFailed<T>) -> ClientError {
        ClientError::OutOfMemory
    }
}

/// A [`ClientError`] without its texts and without want of memory: what a reply of a run says of a refused step.
#[derive(Clone, Copy, Debug, PartialEq, Eq)]
pub enum Refusal {
    FormatError(FormatFault),
    InvalidRange,
    InvalidArguments,
    FileNotFound(MerkleHash),
    XORBNotFound(MerkleHash),
    PresignedUrlExpirationError,
    IOError,
    Other,
    InvalidKey,
    CacheError,
    HttpStatus(u16),
}

impl ClientError {
    ghost use Rattle.xet_types.specs.Faults.{number_of, missing_of, refusal_of};

    /// The refusal without its text; `None` exactly for want of memory.
    pub fn refusal(&self) -> Option<Refusal>
        ensures { result ≡ refusal_of self.now }
    {
        match self {
            ClientError::FormatError(fault) => Some(Refusal::FormatError(*fault)),
            ClientError::InvalidRange => Some(Refusal::InvalidRange),
            ClientError::InvalidArguments => Some(Refusal::InvalidArguments),
            ClientError::FileNotFound(hash) => Some(Refusal::FileNotFound(*hash)),
            ClientError::XORBNotFound(hash) => Some(Refusal::XORBNotFound(*hash)),
            ClientError::PresignedUrlExpirationError => Some(Refusal::PresignedUrlExpirationError),
            ClientError::IOError => Some(Refusal::IOError),
            ClientError::Other(_) => Some(Refusal::Other),
            ClientError::InvalidKey(_) => Some(Refusal::InvalidKey),
            ClientError::CacheError(_) => Some(Refusal::CacheError),
            ClientError::HttpStatus(status) => Some(Refusal::HttpStatus(*status)),
            ClientError::OutOfMemory => None,
        }
    }

    /// The number of the variant, from 1.
    fn number(&self) -> u8
        ensures { result ≡ number_of self.now }
    {
        match self {
            ClientError::FormatError(_) => 1,
            ClientError::InvalidRange => 2,
            ClientError::InvalidArguments => 3,
            ClientError::FileNotFound(_) => 4,
            ClientError::XORBNotFound(_) => 5,
            ClientError::PresignedUrlExpirationError => 6,
            ClientError::IOError => 7,
            ClientError::Other(_) => 8,
            ClientError::InvalidKey(_) => 9,
            ClientError::CacheError(_) => 10,
            ClientError::HttpStatus(_) => 11,
            ClientError::OutOfMemory => 12,
        }
    }

    /// The hash of a xorb that isn't stored.
    fn missing(&self) -> &[u8]
        ensures { result.now ≡ missing_of self.now }
    {
        match self {
            ClientError::XORBNotFound(hash) => hash.as_slice(),
            _ => &[],
        }
    }
}

/// `XORBNotFound` compares hashes, all others their variants.
impl PartialEq for ClientError {
    ghost use Rattle.xet_types.specs.Faults.{same_error, same_error_equiv};
    ghost use Rattle.std.specs.Cmp.{partial_equiv_from_equiv};

    ghost eq = { same_error };

    ghost laws = { partial_equiv_from_equiv same_error_equiv };

    fn eq(&self, other: &Self) -> bool {
        self.number() == other.number() && self.missing() == other.missing()
    }
}
