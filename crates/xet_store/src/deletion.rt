//! What lists a store's shards and files, takes them out, and checks what they list.
ghost use Rattle.std.specs.Prelude.{◌≡◌, Some, Ok};
ghost use Rattle.xet_plan.specs.Footers.{FailsOnlyByFault};
ghost use Rattle.xet_store.specs.StoreModel.{StoreModel};
ghost use Rattle.xet_store.specs.Told.{Asks, Follows};
ghost use Rattle.xet_store.specs.Refusals.{RefusedBy, OfOutside, OfShardDeletion, OfShardText, OfCheck};
ghost use Rattle.xet_store.specs.Commands.{Is, delete_shard, hide_file, drop_dedup};
ghost use Rattle.xet_store.specs.Questions.{HasItems};
ghost use Rattle.xet_store.specs.Checks.{checked, integrity, reachable};
ghost use Rattle.xet_store.specs.Lists.{shard_hashes, shard_text, file_entries};

use crate::client::Client;
use bytes::Bytes;
use std::alloc::Global;
use xet_types::{ClientError, MerkleHash};

/// Lists and deletions of shards and files, and checks of what they list.
pub trait DeletionControlableClient: Client {
    /// The names of the stored shards, in order.
    fn list_shard_entries(&mut self, alloc: Global) -> Result<Vec<MerkleHash>, ClientError>
        ensures told { (m : StoreModel) → Self.told self.old ≡ Some m → Asks (HasItems (Ok (shard_hashes m))) result }
        ensures refusals { RefusedBy OfOutside result }
        ensures stays { Self.told self.new ≡ Self.told self.old }
        ensures cause { FailsOnlyByFault (Self.faults self.old) (Self.faults self.new) result };

    /// The canonical text of a shard. `Other` where it isn't stored.
    fn get_shard_bytes(&mut self, alloc: Global, hash: &MerkleHash) -> Result<Bytes, ClientError>
        ensures told { (m : StoreModel) → Self.told self.old ≡ Some m → Asks (λ r. r ≡ shard_text m hash.now) result }
        ensures refusals { RefusedBy OfShardText result }
        ensures stays { Self.told self.new ≡ Self.told self.old }
        ensures cause { FailsOnlyByFault (Self.faults self.old) (Self.faults self.new) result };

    /// Every listing whose file isn't hidden, as the file and the name of the shard, in order of file, then of shard.
    fn list_file_shard_entries(
        &mut self,
        alloc: Global,
    ) -> Result<Vec<(MerkleHash, MerkleHash)>, ClientError>
        ensures told { (m : StoreModel) → Self.told self.old ≡ Some m → Asks (HasItems (Ok (file_entries m))) result }
        ensures refusals { RefusedBy OfOutside result }
        ensures stays { Self.told self.new ≡ Self.told self.old }
        ensures cause { FailsOnlyByFault (Self.faults self.old) (Self.faults self.new) result };

    /// Takes the entries for deduplication out that name a shard, whether it is stored or not.
    fn remove_shard_dedup_entries(
        &mut self,
        alloc: Global,
        shard_hash: &MerkleHash,
    ) -> Result<(), ClientError>
        ensures told { (m : StoreModel) → Self.told self.old ≡ Some m → Follows (Is (drop_dedup m shard_hash.now)) m result (Self.told self.new) }
        ensures refusals { RefusedBy OfOutside result }
        ensures cause { FailsOnlyByFault (Self.faults self.old) (Self.faults self.new) result };

    /// Takes a shard out; entries for deduplication that name it stay. `Other` where it isn't stored.
    fn delete_shard_entry(&mut self, alloc: Global, hash: &MerkleHash) -> Result<(), ClientError>
        ensures told { (m : StoreModel) → Self.told self.old ≡ Some m → Follows (Is (delete_shard m hash.now)) m result (Self.told self.new) }
        ensures refusals { RefusedBy OfShardDeletion result }
        ensures cause { FailsOnlyByFault (Self.faults self.old) (Self.faults self.new) result };

    /// Hides a file, until a shard that lists it is accepted. Any hash may be hidden, again too.
    fn delete_file_entry(
        &mut self,
        alloc: Global,
        file_hash: &MerkleHash,
    ) -> Result<(), ClientError>
        ensures told { (m : StoreModel) → Self.told self.old ≡ Some m → Follows (Is (hide_file m file_hash.now)) m result (Self.told self.new) }
        ensures refusals { RefusedBy OfOutside result }
        ensures cause { FailsOnlyByFault (Self.faults self.old) (Self.faults self.new) result };

    /// Whether each xorb that a stored shard lists is stored, and each segment of each listing fits that isn't hidden: where stored
    /// shards list its xorb, its chunks end at most at the count that the one of least name lists; else the xorb is stored.
    ///
    /// `Other` exactly where not.
    fn verify_integrity(&mut self, alloc: Global) -> Result<(), ClientError>
        ensures told { (m : StoreModel) → Self.told self.old ≡ Some m → Asks (λ r. r ≡ checked (integrity m)) result }
        ensures refusals { RefusedBy OfCheck result }
        ensures stays { Self.told self.new ≡ Self.told self.old }
        ensures cause { FailsOnlyByFault (Self.faults self.old) (Self.faults self.new) result };

    /// Whether each stored shard lists a file that isn't hidden, or a xorb that is named, and each stored xorb is named, or a stored
    /// shard lists it. Named are the xorbs that a segment of some listing names which isn't hidden.
    ///
    /// `Other` exactly where not.
    fn verify_all_reachable(&mut self, alloc: Global) -> Result<(), ClientError>
        ensures told { (m : StoreModel) → Self.told self.old ≡ Some m → Asks (λ r. r ≡ checked (reachable m)) result }
        ensures refusals { RefusedBy OfCheck result }
        ensures stays { Self.told self.new ≡ Self.told self.old }
        ensures cause { FailsOnlyByFault (Self.faults self.old) (Self.faults self.new) result };
}
