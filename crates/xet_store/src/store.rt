//! What every store does.
ghost use Rattle.std.specs.Prelude.{◌≡◌, ◌<◌, Some, Ok};
ghost use Rattle.std.specs.Option.{option_map};
ghost use Rattle.xet_plan.specs.Footers.{FailsOnlyByFault};
ghost use Rattle.xet_store.specs.StoreModel.{StoreModel, known_of};
ghost use Rattle.xet_store.specs.Told.{Asks, Follows};
ghost use Rattle.xet_store.specs.Refusals.{RefusedBy, OfCheck, OfGenerated, OfOutside, OfPlan};
ghost use Rattle.xet_store.specs.Checks.{checked, readable, IsServing};
ghost use Rattle.xet_store.specs.Commands.{Is, InsertsLazy, insert_xorb};
ghost use Rattle.xet_store.specs.Acceptance.{AcceptsTerms};
ghost use Rattle.xet_generated.specs.Contents.{lazy_contents};
ghost use Rattle.xet_store.specs.Plans.{PlansSoundly};
ghost use Rattle.xet_store.specs.Batches.{PlansAll, RespondsToAll};

use crate::deletion::DeletionControlableClient;
use crate::direct_access::DirectAccessClient;
use crate::plans::FilePlans;
use std::alloc::Global;
use xet_generated::RandomFileContents;
use xet_plan::{Footers, Plan};
use xet_types::{BatchQueryReconstructionResponse, ClientError, FileRange, MerkleHash};
use xet_xorb::RandomXorb;

/// A store: all calls of its clients over one model and one count of faults, and the footers of its xorbs.
pub trait Store: DirectAccessClient + DeletionControlableClient + Footers {
    /// Whether each segment of each live file's listing that has bytes agrees with its stored xorb. `Other` exactly where not.
    ///
    /// Where it is so, each range of a live file that begins inside it is planned, as long as the same is stored, and the chunks of
    /// the plan's links are there.
    fn verify_readable(&mut self, alloc: Global) -> Result<(), ClientError>
        ensures told { (m : StoreModel) → Self.Client.told self.old ≡ Some m → Asks (λ r. r ≡ checked (readable m)) result }
        ensures serves { (m : StoreModel) → Self.Client.told self.old ≡ Some m → result ≡ Ok tt → IsServing m }
        ensures refusals { RefusedBy OfCheck result }
        ensures stays { Self.Client.told self.new ≡ Self.Client.told self.old }
        ensures cause { FailsOnlyByFault (Self.Client.faults self.old) (Self.Client.faults self.new) result };

    /// The age in milliseconds above which a link is expired. Takes no memory.
    fn fetch_term_url_expiration(&mut self) -> u64
        ensures told { (m : StoreModel) → Self.Client.told self.old ≡ Some m → result ≡ m.expiration }
        ensures stays { Self.Client.told self.new ≡ Self.Client.told self.old }
        ensures faultless { Self.Client.faults self.new ≡ Self.Client.faults self.old };

    /// How many runs of a xorb's chunks a link of version 2 brings at most, which is at least 1. Takes no memory.
    fn max_ranges_per_fetch(&mut self) -> usize
        ensures told { (m : StoreModel) → Self.Client.told self.old ≡ Some m → result ≡ m.max_ranges }
        ensures some { 0 < result }
        ensures stays { Self.Client.told self.new ≡ Self.Client.told self.old }
        ensures faultless { Self.Client.faults self.new ≡ Self.Client.faults self.old };

    /// The plan of a file, or of a range of its bytes, without links. None where it isn't live or the range begins at or past its
    /// end; `InvalidRange` where the range's end isn't above its start; else the first fault of a segment that the range meets.
    fn plan_file(
        &mut self,
        alloc: Global,
        file: &MerkleHash,
        range: Option<FileRange>,
    ) -> Result<Option<Plan>, ClientError>
        ensures told { (m : StoreModel) → Self.Client.told self.old ≡ Some m → Asks (PlansSoundly m file.now range) result }
        ensures refusals { RefusedBy OfPlan result }
        ensures stays { Self.Client.told self.new ≡ Self.Client.told self.old }
        ensures cause { FailsOnlyByFault (Self.Client.faults self.old) (Self.Client.faults self.new) result };

    /// The plans of whole files in the asked order, taken together, without links: the terms of each live file, and what to fetch of
    /// each xorb, one plan behind the other. Files that aren't live are left out; a file that is asked twice has its terms once and
    /// its ranges twice.
    ///
    /// Refused as the first of the plans that is refused.
    fn plan_files(&mut self, alloc: Global, files: &[MerkleHash]) -> Result<FilePlans, ClientError>
        ensures told { (m : StoreModel) → Self.Client.told self.old ≡ Some m → Asks (PlansAll m files.now) result }
        ensures refusals { RefusedBy OfPlan result }
        ensures stays { Self.Client.told self.new ≡ Self.Client.told self.old }
        ensures cause { FailsOnlyByFault (Self.Client.faults self.old) (Self.Client.faults self.new) result };

    /// Stores a generated xorb, where none is stored under its name, and answers the name. No shard lists it.
    fn insert_random_xorb(
        &mut self,
        alloc: Global,
        xorb: RandomXorb,
    ) -> Result<MerkleHash, ClientError>
        ensures told { (m : StoreModel) → Self.Client.told self.old ≡ Some m → Follows (Is (insert_xorb m xorb)) m result (Self.Client.told self.new) }
        ensures refusals { RefusedBy OfOutside result }
        ensures cause { FailsOnlyByFault (Self.Client.faults self.old) (Self.Client.faults self.new) result };

    /// Stores a generated file: the xorb of each seed, where none is stored under its name, and a shard that lists the file and the
    /// xorbs. Answers what the file holds, without the xorbs.
    ///
    /// A term is a seed and a range of the chunks of the seed's xorb. A xorb has as many chunks as the greatest end of its terms says,
    /// of `chunk_size` bytes each, which are those of `RandomXorb::from_seed`. `InvalidArguments` exactly where there are 2^32 terms or
    /// more, a term's range is empty or reversed, or the chunks of a seed aren't those of a xorb. This is tested before anything is
    /// generated.
    fn insert_random_lazy_file(
        &mut self,
        alloc: Global,
        term_spec: &[(u64, (u64, u64))],
        chunk_size: usize,
    ) -> Result<RandomFileContents, ClientError>
        ensures told { (m : StoreModel) → Self.Client.told self.old ≡ Some m → Follows (InsertsLazy m term_spec.now chunk_size) m result (Self.Client.told self.new) }
        ensures refusals { RefusedBy OfGenerated result }
        ensures accepts { AcceptsTerms term_spec.now chunk_size (lazy_contents term_spec.now chunk_size) result }
        ensures cause { FailsOnlyByFault (Self.Client.faults self.old) (Self.Client.faults self.new) result };

    /// The same as plans of version 1, with a link for each range, whose texts have the moment in milliseconds.
    fn batch_get_reconstruction(
        &mut self,
        alloc: Global,
        file_ids: &[MerkleHash],
        at: u64,
    ) -> Result<BatchQueryReconstructionResponse, ClientError>
        ensures told { (m : StoreModel) → Self.Client.told self.old ≡ Some m → Asks (RespondsToAll m file_ids.now at) result }
        ensures refusals { RefusedBy OfPlan result }
        ensures stays { Self.Client.told self.new ≡ Self.Client.told self.old }
        ensures cause { FailsOnlyByFault (Self.Client.faults self.old) (Self.Client.faults self.new) result };

    /// The footers are those of the stored xorbs.
    ghost footers: { (s : Self) → Self.Footers.told s ≡ option_map known_of (Self.Client.told s) };

    /// One count of faults.
    ghost counts: { (s : Self) → Self.Footers.faults s ≡ Self.Client.faults s };
}
