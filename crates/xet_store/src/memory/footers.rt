//! What is known of the stored xorbs.
use super::xorb::StoredXorb;
use std::alloc::Global;
use std::sync::Arc;
use xet_bytes::ByHash;
use xet_plan::Footers;
use xet_types::{ClientError, MerkleHash};
use xet_xorb::XorbObject;

/// The stored xorbs, as a plan looks at them.
#[derive(Drop)]
pub struct StoredFooters<'a> {
    xorbs: &'a ByHash<StoredXorb>,
}

impl<'a> StoredFooters<'a> {
    ghost use Rattle.std.specs.Prelude.{◌≡◌};

    /// Those of these xorbs.
    pub fn new(xorbs: &'a ByHash<StoredXorb>) -> StoredFooters<'a>
        ensures { result.xorbs.now ≡ xorbs.now }
    {
        StoredFooters { xorbs }
    }
}

impl<'a> Footers for StoredFooters<'a> {
    ghost use Rattle.std.specs.Prelude.{Some};
    ghost use Rattle.xet_store.specs.Kept.{known_in};

    ghost told = { λ s. Some (known_in s.xorbs.now) };

    ghost faults = { λ _. 0 };

    fn footer(&mut self, alloc: Global, hash: &MerkleHash) -> Result<Arc<XorbObject>, ClientError> {
        match self.xorbs.get(hash) {
            Some(xorb) => Ok(xorb.object().clone()?),
            None => Err(ClientError::XORBNotFound(*hash)),
        }
    }
}
