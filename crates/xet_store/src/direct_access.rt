//! What looks into a store directly.
ghost use Rattle.std.specs.Prelude.{◌≡◌, Some, Ok};
ghost use Rattle.xet_plan.specs.Footers.{FailsOnlyByFault};
ghost use Rattle.xet_store.specs.StoreModel.{StoreModel, IsSound};
ghost use Rattle.xet_store.specs.Told.{Asks, Follows};
ghost use Rattle.xet_store.specs.Refusals.{RefusedBy, OfOutside, OfSetting, OfPlan, OfXorb, OfXorbBytes, OfTerm, OfFileSize, OfFileData};
ghost use Rattle.xet_store.specs.Commands.{Is, set_expiration, set_max_ranges, delete_xorb, set_dedup_expiration};
ghost use Rattle.xet_store.specs.Questions.{xorb_hashes, xorb_exists, xorb_footer, xorb_raw_length, xorb_raw_bytes, file_size, file_data, HasItems, full_xorb, xorb_length, xorb_ranges};
ghost use Rattle.xet_store.specs.Responses.{Responds, RespondsInGroups, IsRegrouped};
ghost use Rattle.xet_store.specs.TermData.{GivesTerm, with_items};

use crate::client::Client;
use bytes::Bytes;
use std::alloc::Global;
use xet_types::{
    ClientError, FileRange, MerkleHash, QueryReconstructionResponse, QueryReconstructionResponseV2,
    XorbReconstructionFetchInfo,
};
use xet_xorb::XorbObject;

/// Settings, plans of both versions, and the stored xorbs and files themselves.
pub trait DirectAccessClient: Client {
    /// Sets the age in milliseconds above which a link is expired.
    fn set_fetch_term_url_expiration(&mut self, millis: u64) -> Result<(), ClientError>
        ensures told { (m : StoreModel) → Self.told self.old ≡ Some m → Follows (Is (set_expiration m millis)) m result (Self.told self.new) }
        ensures refusals { RefusedBy OfOutside result }
        ensures cause { FailsOnlyByFault (Self.faults self.old) (Self.faults self.new) result };

    /// Sets the most runs of chunks that a link of a plan of version 2 brings. `InvalidArguments` exactly where it is 0.
    fn set_max_ranges_per_fetch(&mut self, max_ranges: usize) -> Result<(), ClientError>
        ensures told { (m : StoreModel) → Self.told self.old ≡ Some m → Follows (Is (set_max_ranges m max_ranges)) m result (Self.told self.new) }
        ensures refusals { RefusedBy OfSetting result }
        ensures cause { FailsOnlyByFault (Self.faults self.old) (Self.faults self.new) result };

    /// Sets for how many milliseconds an answer to a query for deduplication is good, which is kept in whole seconds, rounded up.
    /// None and 0 mean that answers don't expire.
    fn set_global_dedup_shard_expiration(&mut self, millis: Option<u64>) -> Result<(), ClientError>
        ensures told { (m : StoreModel) → Self.told self.old ≡ Some m → Follows (Is (set_dedup_expiration m millis)) m result (Self.told self.new) }
        ensures refusals { RefusedBy OfOutside result }
        ensures cause { FailsOnlyByFault (Self.faults self.old) (Self.faults self.new) result };

    /// The plan of a file, or of a range of its bytes, with a link for each run of chunks, whose texts have the moment in
    /// milliseconds.
    ///
    /// None where the file isn't live or the range begins at or past its end; `InvalidRange` where the range's end isn't above
    /// its start; else the first fault of a segment that the range meets: `XORBNotFound`, or `FormatError(Segment)`.
    fn get_reconstruction_v1(
        &mut self,
        alloc: Global,
        file_id: &MerkleHash,
        bytes_range: Option<FileRange>,
        at: u64,
    ) -> Result<Option<QueryReconstructionResponse>, ClientError>
        ensures told { (m : StoreModel) → Self.told self.old ≡ Some m → Asks (Responds m file_id.now bytes_range at) result }
        ensures sound { (m : StoreModel) → Self.told self.old ≡ Some m → IsSound m }
        ensures refusals { RefusedBy OfPlan result }
        ensures stays { Self.told self.new ≡ Self.told self.old }
        ensures cause { FailsOnlyByFault (Self.faults self.old) (Self.faults self.new) result };

    /// The same with a link for each group of consecutive runs of a xorb's chunks, of at most as many as the maximum that is set.
    fn get_reconstruction_v2(
        &mut self,
        alloc: Global,
        file_id: &MerkleHash,
        bytes_range: Option<FileRange>,
        at: u64,
    ) -> Result<Option<QueryReconstructionResponseV2>, ClientError>
        ensures told { (m : StoreModel) → Self.told self.old ≡ Some m → Asks (RespondsInGroups m file_id.now bytes_range at) result }
        ensures sound { (m : StoreModel) → Self.told self.old ≡ Some m → IsSound m }
        ensures refusals { RefusedBy OfPlan result }
        ensures stays { Self.told self.new ≡ Self.told self.old }
        ensures cause { FailsOnlyByFault (Self.faults self.old) (Self.faults self.new) result };

    /// The chunks of an entry of a plan of version 1, joined, and where each of them begins and the last one ends, in bytes from 0. The
    /// entry's link names the xorb.
    ///
    /// `InvalidArguments` where the link isn't one of version 1; then `PresignedUrlExpirationError` where it is expired at the moment
    /// in milliseconds; then `InvalidArguments` where its bytes aren't those of the entry; then `XORBNotFound` where its xorb isn't
    /// stored; then `InvalidRange` where the entry's chunks are none, or end past the xorb's last one.
    fn fetch_term_data(
        &mut self,
        alloc: Global,
        hash: MerkleHash,
        fetch_term: XorbReconstructionFetchInfo,
        at: u64,
    ) -> Result<(Bytes, Vec<u32>), ClientError>
        ensures told { (m : StoreModel) → Self.told self.old ≡ Some m → Asks (λ r. GivesTerm m fetch_term at (with_items r)) result }
        ensures refusals { RefusedBy OfTerm result }
        ensures stays { Self.told self.new ≡ Self.told self.old }
        ensures cause { FailsOnlyByFault (Self.faults self.old) (Self.faults self.new) result };

    /// The hashes of the stored xorbs, in order.
    fn list_xorbs(&mut self, alloc: Global) -> Result<Vec<MerkleHash>, ClientError>
        ensures told { (m : StoreModel) → Self.told self.old ≡ Some m → Asks (HasItems (Ok (xorb_hashes m))) result }
        ensures refusals { RefusedBy OfOutside result }
        ensures stays { Self.told self.new ≡ Self.told self.old }
        ensures cause { FailsOnlyByFault (Self.faults self.old) (Self.faults self.new) result };

    /// Takes a xorb out, where it is stored.
    fn delete_xorb(&mut self, alloc: Global, hash: &MerkleHash) -> Result<(), ClientError>
        ensures told { (m : StoreModel) → Self.told self.old ≡ Some m → Follows (Is (delete_xorb m hash.now)) m result (Self.told self.new) }
        ensures refusals { RefusedBy OfOutside result }
        ensures cause { FailsOnlyByFault (Self.faults self.old) (Self.faults self.new) result };

    /// What is known of a xorb without its bytes. `XORBNotFound` where it isn't stored.
    fn xorb_footer(&mut self, alloc: Global, hash: &MerkleHash) -> Result<XorbObject, ClientError>
        ensures told { (m : StoreModel) → Self.told self.old ≡ Some m → Asks (λ r. r ≡ xorb_footer m hash.now) result }
        ensures refusals { RefusedBy (OfXorb hash.now) result }
        ensures stays { Self.told self.new ≡ Self.told self.old }
        ensures cause { FailsOnlyByFault (Self.faults self.old) (Self.faults self.new) result };

    /// The length of a xorb in bytes with its footer. `XORBNotFound` where it isn't stored.
    fn xorb_raw_length(&mut self, alloc: Global, hash: &MerkleHash) -> Result<u64, ClientError>
        ensures told { (m : StoreModel) → Self.told self.old ≡ Some m → Asks (λ r. r ≡ xorb_raw_length m hash.now) result }
        ensures refusals { RefusedBy (OfXorb hash.now) result }
        ensures stays { Self.told self.new ≡ Self.told self.old }
        ensures cause { FailsOnlyByFault (Self.faults self.old) (Self.faults self.new) result };

    /// The chunks of a xorb, joined. `XORBNotFound` where it isn't stored.
    fn get_full_xorb(&mut self, alloc: Global, hash: &MerkleHash) -> Result<Bytes, ClientError>
        ensures told { (m : StoreModel) → Self.told self.old ≡ Some m → Asks (λ r. r ≡ full_xorb m hash.now) result }
        ensures refusals { RefusedBy (OfXorb hash.now) result }
        ensures stays { Self.told self.new ≡ Self.told self.old }
        ensures cause { FailsOnlyByFault (Self.faults self.old) (Self.faults self.new) result };

    /// How many bytes the chunks of a xorb have together. `XORBNotFound` where it isn't stored.
    fn xorb_length(&mut self, alloc: Global, hash: &MerkleHash) -> Result<u32, ClientError>
        ensures told { (m : StoreModel) → Self.told self.old ≡ Some m → Asks (λ r. r ≡ xorb_length m hash.now) result }
        ensures refusals { RefusedBy (OfXorb hash.now) result }
        ensures stays { Self.told self.new ≡ Self.told self.old }
        ensures cause { FailsOnlyByFault (Self.faults self.old) (Self.faults self.new) result };

    /// The joined chunks of each range of a xorb's chunks, whose end isn't included. A range that is empty or reversed has no
    /// bytes, wherever it lies. Where there are no ranges, no xorb is asked, and the answer is one empty text.
    ///
    /// `XORBNotFound` where the xorb isn't stored; `InvalidRange` where a range that isn't empty or reversed ends past the last
    /// chunk.
    fn get_xorb_ranges(
        &mut self,
        alloc: Global,
        hash: &MerkleHash,
        chunk_ranges: Vec<(u32, u32)>,
    ) -> Result<Vec<Bytes>, ClientError>
        ensures told { (m : StoreModel) → Self.told self.old ≡ Some m → Asks (HasItems (xorb_ranges m hash.now chunk_ranges.items)) result }
        ensures refusals { RefusedBy (OfXorbBytes hash.now) result }
        ensures stays { Self.told self.new ≡ Self.told self.old }
        ensures cause { FailsOnlyByFault (Self.faults self.old) (Self.faults self.new) result };

    /// Whether a xorb is stored.
    fn xorb_exists(&mut self, alloc: Global, hash: &MerkleHash) -> Result<bool, ClientError>
        ensures told { (m : StoreModel) → Self.told self.old ≡ Some m → Asks (λ r. r ≡ Ok (xorb_exists m hash.now)) result }
        ensures refusals { RefusedBy OfOutside result }
        ensures stays { Self.told self.new ≡ Self.told self.old }
        ensures cause { FailsOnlyByFault (Self.faults self.old) (Self.faults self.new) result };

    /// The size of a live file in bytes. `FileNotFound` where it isn't live.
    fn get_file_size(&mut self, alloc: Global, hash: &MerkleHash) -> Result<u64, ClientError>
        ensures told { (m : StoreModel) → Self.told self.old ≡ Some m → Asks (λ r. r ≡ file_size m hash.now) result }
        ensures refusals { RefusedBy (OfFileSize hash.now) result }
        ensures stays { Self.told self.new ≡ Self.told self.old }
        ensures cause { FailsOnlyByFault (Self.faults self.old) (Self.faults self.new) result };

    /// A live file's bytes, or those in a range.
    ///
    /// `FileNotFound` where it isn't live; `InvalidRange` where the range begins at or past its end, or ends below its start;
    /// else the first fault of a segment that the range meets: `XORBNotFound`, or `FormatError(Segment)`.
    fn get_file_data(
        &mut self,
        alloc: Global,
        hash: &MerkleHash,
        byte_range: Option<FileRange>,
    ) -> Result<Bytes, ClientError>
        ensures told { (m : StoreModel) → Self.told self.old ≡ Some m → Asks (λ r. r ≡ file_data m hash.now byte_range) result }
        ensures refusals { RefusedBy (OfFileData hash.now) result }
        ensures stays { Self.told self.new ≡ Self.told self.old }
        ensures cause { FailsOnlyByFault (Self.faults self.old) (Self.faults self.new) result };

    /// The bytes of a xorb with its footer, or those in a range, whose end may be past theirs.
    ///
    /// `XORBNotFound` where it isn't stored; `InvalidRange` where the range begins at or past their end, or ends below its start.
    fn get_xorb_raw_bytes(
        &mut self,
        alloc: Global,
        hash: &MerkleHash,
        byte_range: Option<FileRange>,
    ) -> Result<Bytes, ClientError>
        ensures told { (m : StoreModel) → Self.told self.old ≡ Some m → Asks (λ r. r ≡ xorb_raw_bytes m hash.now byte_range) result }
        ensures sound { (m : StoreModel) → Self.told self.old ≡ Some m → IsSound m }
        ensures refusals { RefusedBy (OfXorbBytes hash.now) result }
        ensures stays { Self.told self.new ≡ Self.told self.old }
        ensures cause { FailsOnlyByFault (Self.faults self.old) (Self.faults self.new) result };
}

/// A plan of version 2 has the runs of that of version 1 in their order, and its terms and offset, whatever the maximum.
pub fn second_plans_are_regrouped()
    ensures { IsRegrouped }
{}
