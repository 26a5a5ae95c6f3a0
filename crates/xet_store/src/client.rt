//! What a reader or writer of files asks of a store.
ghost use Rattle.std.specs.Prelude.{◌≡◌, ℕ, Option, Some, Ok};
ghost use Rattle.xet_plan.specs.Footers.{FailsOnlyByFault};
ghost use Rattle.xet_store.specs.StoreModel.{StoreModel, IsSound};
ghost use Rattle.xet_store.specs.Told.{Asks, Follows};
ghost use Rattle.xet_store.specs.Refusals.{RefusedBy, OfListing, OfPlan, OfXorbUpload, OfShardUpload};
ghost use Rattle.xet_store.specs.Commands.{UploadsXorb, UploadsShard};
ghost use Rattle.xet_store.specs.Questions.{file_info, dedup_answer};
ghost use Rattle.xet_store.specs.Responses.{RespondsInGroups};
ghost use Rattle.xet_store.specs.Acceptance.{AcceptsXorb, AcceptsShard};

use bytes::Bytes;
use std::alloc::Global;
use xet_shard::FileListing;
use xet_types::{ClientError, FileRange, MerkleHash, QueryReconstructionResponseV2};
use xet_xorb::SerializedXorbObject;

/// Uploads, and where a file's parts are.
pub trait Client {
    /// What is stored, where what the store stands on tells its content.
    ghost told: { Self → Option StoreModel };

    /// How often the outside failed.
    ghost faults: { Self → ℕ };

    /// The listing of a live file, and the name of the shard that lists it. None where the file isn't live.
    fn get_file_reconstruction_info(
        &mut self,
        alloc: Global,
        file_hash: &MerkleHash,
    ) -> Result<Option<(FileListing, Option<MerkleHash>)>, ClientError>
        ensures told { (m : StoreModel) → told self.old ≡ Some m → Asks (λ r. r ≡ Ok (file_info m file_hash.now)) result }
        ensures refusals { RefusedBy OfListing result }
        ensures stays { told self.new ≡ told self.old }
        ensures cause { FailsOnlyByFault (faults self.old) (faults self.new) result };

    /// The plan of a file, or of a range of its bytes, with a link for each group of runs of a xorb's chunks, whose texts have the
    /// moment in milliseconds.
    ///
    /// None where the file isn't live or the range begins at or past its end; `InvalidRange` where the range's end isn't above
    /// its start; else the first fault of a segment that the range meets: `XORBNotFound`, or `FormatError(Segment)`.
    fn get_reconstruction(
        &mut self,
        alloc: Global,
        file_id: &MerkleHash,
        bytes_range: Option<FileRange>,
        at: u64,
    ) -> Result<Option<QueryReconstructionResponseV2>, ClientError>
        ensures told { (m : StoreModel) → told self.old ≡ Some m → Asks (RespondsInGroups m file_id.now bytes_range at) result }
        ensures sound { (m : StoreModel) → told self.old ≡ Some m → IsSound m }
        ensures refusals { RefusedBy OfPlan result }
        ensures stays { told self.new ≡ told self.old }
        ensures cause { FailsOnlyByFault (faults self.old) (faults self.new) result };

    /// The text of the stored shard that the chunk's entry names, canonical where no expiration is set. Else it has the shard's
    /// xorbs without files, and expires so many seconds after the moment, which is in milliseconds. No store reads the prefix.
    ///
    /// None exactly where the chunk has no entry or its shard isn't stored.
    fn query_for_global_dedup_shard(
        &mut self,
        alloc: Global,
        prefix: &str,
        chunk_hash: &MerkleHash,
        at: u64,
    ) -> Result<Option<Bytes>, ClientError>
        ensures told { (m : StoreModel) → told self.old ≡ Some m → Asks (λ r. r ≡ Ok (dedup_answer m chunk_hash.now at)) result }
        ensures refusals { RefusedBy OfListing result }
        ensures stays { told self.new ≡ told self.old }
        ensures cause { FailsOnlyByFault (faults self.old) (faults self.new) result };

    /// Accepts a shard in canonical form, and answers true. It goes last, in place of one of its name, and its files are hidden no
    /// more. `FormatError(Shard)` where the bytes aren't a shard's; a shard is accepted, unless memory is wanting or the outside
    /// fails.
    fn upload_shard(&mut self, alloc: Global, shard_data: Bytes) -> Result<bool, ClientError>
        ensures told { (m : StoreModel) → told self.old ≡ Some m → Follows (UploadsShard m shard_data) m result (told self.new) }
        ensures refusals { RefusedBy OfShardUpload result }
        ensures accepts { AcceptsShard shard_data result }
        ensures cause { FailsOnlyByFault (faults self.old) (faults self.new) result };

    /// Stores a xorb under its hash, and answers its length in bytes with its footer. No store reads the prefix.
    ///
    /// 0 where the hash is stored already; the bytes then aren't read. `FormatError(Xorb)` where they aren't a xorb's, then `Other`
    /// where the chunks' hash isn't this one. A xorb of this hash is accepted, unless memory is wanting or the outside fails.
    fn upload_xorb(
        &mut self,
        alloc: Global,
        prefix: &str,
        serialized_xorb_object: SerializedXorbObject,
    ) -> Result<u64, ClientError>
        ensures told { (m : StoreModel) → told self.old ≡ Some m → Follows (UploadsXorb m serialized_xorb_object.hash serialized_xorb_object.serialized_data) m result (told self.new) }
        ensures refusals { RefusedBy OfXorbUpload result }
        ensures accepts { AcceptsXorb serialized_xorb_object.hash serialized_xorb_object.serialized_data result }
        ensures cause { FailsOnlyByFault (faults self.old) (faults self.new) result };
}
