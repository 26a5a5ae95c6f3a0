//! What is known of stored xorbs.
ghost use Rattle.std.specs.Prelude.{◌≡◌, ℕ, Option, Some, IfErr};
ghost use Rattle.xet_plan.specs.Places.{Known};
ghost use Rattle.xet_plan.specs.Footers.{Gives, IsFooterRefusal, FailsOnlyByFault};

use std::alloc::Global;
use std::sync::Arc;
use xet_types::{ClientError, MerkleHash};
use xet_xorb::XorbObject;

/// The footers of stored xorbs.
pub trait Footers {
    /// The stored xorbs by their hashes, where they are told.
    ghost told: { Self → Option Known };

    /// How often the outside failed.
    ghost faults: { Self → ℕ };

    /// The object of the xorb of this hash, which is shared. `XORBNotFound` with the hash where there is none, `FormatError(Xorb)`
    /// where its bytes aren't those of a xorb, `IOError` where the outside failed.
    fn footer(&mut self, alloc: Global, hash: &MerkleHash) -> Result<Arc<XorbObject>, ClientError>
        ensures answer { (known : Known) → told self.old ≡ Some known → Gives known hash.now result }
        ensures refusals { IfErr result (IsFooterRefusal hash.now) }
        ensures stays { told self.new ≡ told self.old }
        ensures cause { FailsOnlyByFault (faults self.old) (faults self.new) result };
}
