//! The store in memory.
ghost use Rattle.std.specs.Prelude.{◌≡◌, ◌<◌, ◌≤◌, IfOk, IfSome, IsSome, IfErr, OnOk, OnErr, Ok, Err, Some, None, ⊤};
ghost use Rattle.std.specs.Option.{option_map, option_copied};
ghost use Rattle.std.specs.FinMap.{get};
ghost use Rattle.xet_types.specs.Faults.{refusal_of};
ghost use Rattle.xet_types.specs.declared.error.Refusal.TheVariants.{Other, InvalidArguments};
ghost use Rattle.xet_types.specs.declared.error.ClientError.TheVariants as errors;
ghost use Rattle.xet_store.specs.StoreModel.{accepted, shown, listing, live, shard_named};
ghost use Rattle.xet_store.specs.Answered.{Answered};
ghost use Rattle.xet_store.specs.Commands.{UploadsXorb, UploadsShard, delete_xorb, delete_shard, hide_file, set_expiration, set_max_ranges, set_dedup_expiration, seconds_asked, with_absent, with_all_absent};
ghost use Rattle.xet_store.specs.Undoing.{without_xorbs};
ghost use Rattle.xet_shard.specs.Values.{size_of};
ghost use Rattle.xet_plan.specs.Places.{interval};
ghost use Rattle.xet_store.specs.Questions.{asked, data_at, dedup_shard};
ghost use Rattle.xet_store.specs.Kept.{IsListed, range_interval};
ghost use Rattle.xet_store.specs.Plans.{PlansFile};
ghost use Rattle.xet_store.specs.Cuts.{cut_of};
ghost use Rattle.xet_store.specs.Responses.{RespondsInGroups};
ghost use Rattle.xet_store.specs.Refusals.{RefusedBy, OfPlan};
ghost use Rattle.std.specs.List.{list_all};
ghost use Rattle.xet_store.specs.Checks.{checked, all_readable, readable};

mod batch;
mod checks;
mod data;
mod entries;
mod first;
mod footers;
mod lists;
mod second;
mod shards;
mod term;
mod xorb;

use crate::client::Client;
use crate::deletion::DeletionControlableClient;
use crate::direct_access::DirectAccessClient;
use crate::plans::FilePlans;
use crate::store::Store;
use batch::{batch, plans_of_files};
use bytes::Bytes;
use checks::{are_readable, listed_files};
use data::assemble;
use entries::{drop_named, entry, fill, reserve};
use first::first;
use footers::StoredFooters;
use second::second;
use shards::{KeptShard, ShardTable};
use std::alloc::Global;
use std::marker::Model;
use std::sync::Arc;
use term::{join, named_xorb};
use xet_bytes::ByHash;
use xet_generated::{GeneratedFile, GeneratedXorb, RandomFileContents};
use xet_plan::{Footers, Plan, compute_reconstruction_ranges, compute_reconstruction_terms};
use xet_shard::{FileListing, eligible_among_xorbs, read_shard};
use xet_types::{
    BatchQueryReconstructionResponse, ChunkRange, ClientError, FileRange, Items, MerkleHash,
    OutOfMemory, QueryReconstructionResponse, QueryReconstructionResponseV2,
    XorbReconstructionFetchInfo,
};
use xet_xorb::{RandomXorb, SerializedXorbObject, XorbObject, read_xorb};
use xorb::StoredXorb;

/// A store in memory, which contracts see as its model.
#[derive(Drop)]
pub struct MemoryClient {
    xorbs: ByHash<StoredXorb>,
    shards: ShardTable,
    hidden: ByHash<()>,
    /// For chunks the name of a shard. A place without a name is no entry: an acceptance for which memory was wanting left it.
    dedup: ByHash<Option<MerkleHash>>,
    /// In milliseconds.
    expiration: u64,
    /// How many runs a link of version 2 brings at most.
    max_ranges: usize,
    /// For how many seconds an answer to a query for deduplication is good.
    dedup_seconds: Option<u64>,
}

impl Model for MemoryClient {
    ghost use Rattle.xet_store.specs.StoreModel.{StoreModel, IsSound, store_code};
    ghost use Rattle.xet_store.specs.Entries.{filled};

    ghost Value = { StoreModel };

    ghost coded = { store_code };

    ghost view = { λ s. record { xorbs = s.xorbs; shards = s.shards; hidden = s.hidden; dedup = filled s.dedup; expiration = s.expiration; max_ranges = s.max_ranges; dedup_seconds = s.dedup_seconds } };

    ghost invariant = { λ s. IsSound (record { xorbs = s.xorbs; shards = s.shards; hidden = s.hidden; dedup = filled s.dedup; expiration = s.expiration; max_ranges = s.max_ranges; dedup_seconds = s.dedup_seconds }) };
}

/// Shows the files again.
fn show(hidden: &mut ByHash<()>, files: &[FileListing])
    ensures { hidden.new ≡ shown hidden.old files.now }
{
    for file in files {
        hidden.remove(&file.file_hash);
    }
}

impl MemoryClient {
    ghost use Rattle.xet_store.specs.StoreModel.{IsSound, empty};

    /// A store without xorbs and shards, whose links don't expire. Takes no memory.
    pub fn new(alloc: Global) -> MemoryClient
        ensures { result ≡ empty }
    {
        MemoryClient {
            xorbs: ByHash::new(alloc),
            shards: ShardTable::new(alloc),
            hidden: ByHash::new(alloc),
            dedup: ByHash::new(alloc),
            expiration: u64::MAX,
            max_ranges: usize::MAX,
            dedup_seconds: None,
        }
    }

    /// Stores a xorb under a hash, and answers its length in bytes with its footer.
    ///
    /// 0 where the hash is stored already; the bytes then aren't read. `FormatError(Xorb)` where they aren't a xorb's, with
    /// its footer or without it, then `Other` where the chunks' hash isn't this one. A refused upload changes nothing.
    pub fn upload_xorb(
        &mut self,
        alloc: Global,
        hash: &MerkleHash,
        content: &Bytes,
    ) -> Result<u64, ClientError>
        ensures { Answered result (λ r. UploadsXorb self.old hash.now content.now r self.new) (self.new ≡ self.old) }
    {
        if self.xorbs.contains(hash) {
            return Ok(0);
        }
        let read = read_xorb(alloc, content)?;
        if read.object.xorb_hash() != *hash {
            return Err(other(alloc, "the chunks don't hash to the name"));
        }
        let length = read.object.serialized_length();
        let xorb = StoredXorb::new(alloc, content, read)?;
        self.xorbs.insert(*hash, xorb)?;
        Ok(u64::from(length))
    }

    /// Accepts a shard in canonical form: it goes last, in place of one of equal name, the entries of its eligible chunks name
    /// it, and its files are hidden no more.
    ///
    /// `FormatError(Shard)` where the bytes aren't a shard's. A refused upload changes nothing.
    pub fn upload_shard(&mut self, alloc: Global, content: &Bytes) -> Result<bool, ClientError>
        ensures { Answered result (λ r. UploadsShard self.old content.now r self.new) (self.new ≡ self.old) }
    {
        let shard = read_shard(alloc, content.as_slice())?;
        let kept = KeptShard::canonical(alloc, &shard)?;
        self.accept(alloc, kept)?;
        Ok(true)
    }

    /// Accepts a shard in canonical form. Where there is no memory, all stays as it was.
    fn accept(&mut self, alloc: Global, shard: KeptShard) -> Result<(), OutOfMemory>
        ensures ok { OnOk result (self.new ≡ accepted self.old shard) }
        ensures err { OnErr result (self.new ≡ self.old) }
    {
        let name = *shard.name();
        let chunks = eligible_among_xorbs(alloc, shard.shard().xorbs())?;
        reserve(&mut self.dedup, &chunks)?;
        self.shards.accept(shard)?;
        fill(&mut self.dedup, &chunks, &name);
        if let Some(shard) = self.shards.get(&name) {
            show(&mut self.hidden, shard.files());
        }
        Ok(())
    }

    /// Stores a xorb, where none is stored under its name, which is then noted. Where there is no memory, taking the noted xorbs out
    /// gives what it gave before.
    fn put_absent(
        &mut self,
        xorb: StoredXorb,
        added: &mut Vec<MerkleHash>,
    ) -> Result<(), OutOfMemory>
        ensures ok { OnOk result (self.new ≡ with_absent self.old xorb) }
        ensures undone { without_xorbs self.new added.new.items ≡ without_xorbs self.old added.old.items }
    {
        let hash = xorb.xorb_hash();
        if self.xorbs.contains(&hash) {
            return Ok(());
        }
        added.push(hash)?;
        self.xorbs.insert(hash, xorb)?;
        Ok(())
    }

    /// Stores each xorb, where none is stored under its name, and notes these names.
    fn put_all_absent(
        &mut self,
        alloc: Global,
        xorbs: Vec<GeneratedXorb>,
        added: &mut Vec<MerkleHash>,
    ) -> Result<(), OutOfMemory>
        ensures ok { OnOk result (self.new ≡ with_all_absent self.old xorbs.items) }
        ensures undone { without_xorbs self.new added.new.items ≡ without_xorbs self.old added.old.items }
    {
        for xorb in xorbs {
            let stored = StoredXorb::made(alloc, xorb)?;
            self.put_absent(stored, added)?;
        }
        Ok(())
    }

    /// The same, and accepts a shard in canonical form then.
    fn accept_with(
        &mut self,
        alloc: Global,
        xorbs: Vec<GeneratedXorb>,
        shard: KeptShard,
        added: &mut Vec<MerkleHash>,
    ) -> Result<(), OutOfMemory>
        ensures ok { OnOk result (self.new ≡ accepted (with_all_absent self.old xorbs.items) shard) }
        ensures undone { OnErr result (without_xorbs self.new added.new.items ≡ without_xorbs self.old added.old.items) }
    {
        self.put_all_absent(alloc, xorbs, added)?;
        self.accept(alloc, shard)
    }

    /// Takes xorbs out. Takes no memory.
    fn take_out(&mut self, alloc: Global, hashes: &[MerkleHash])
        ensures { self.new ≡ without_xorbs self.old hashes.now }
    {
        for hash in hashes {
            let _done = self.delete_xorb(alloc, hash);
        }
    }

    /// Stores each xorb, where none is stored under its name, and accepts a shard in canonical form. Where there is no memory, all
    /// stays as it was.
    fn put_generated(
        &mut self,
        alloc: Global,
        xorbs: Vec<GeneratedXorb>,
        shard: KeptShard,
    ) -> Result<(), OutOfMemory>
        ensures ok { OnOk result (self.new ≡ accepted (with_all_absent self.old xorbs.items) shard) }
        ensures err { OnErr result (self.new ≡ self.old) }
    {
        let mut added = Vec::new(alloc);
        match self.accept_with(alloc, xorbs, shard, &mut added) {
            Ok(()) => Ok(()),
            Err(e) => {
                self.take_out(alloc, &added);
                Err(e)
            }
        }
    }

    /// The stored shard that the chunk's entry names.
    fn dedup_shard(&self, chunk: &MerkleHash) -> Option<&KeptShard>
        ensures { option_copied result ≡ dedup_shard self.now chunk.now }
    {
        let name = entry(&self.dedup, chunk)?;
        self.shards.get(&name)
    }

    /// The last shard that lists a live file.
    fn live(&self, file: &MerkleHash) -> Option<&KeptShard>
        ensures { option_copied result ≡ live self.now file.now }
    {
        if self.hidden.contains(file) {
            return None;
        }
        self.shards.last(file)
    }

    /// The listing of a live file.
    fn listing(&self, file: &MerkleHash) -> Option<&FileListing>
        ensures { IsListed file.now (listing self.now file.now) result }
    {
        self.live(file)?.listing(file)
    }

    /// Whether the segments of a file that have bytes agree with their xorbs, where the file is live.
    fn is_file_readable(&self, file: &MerkleHash) -> bool
        ensures { result ≡ all_readable self.now (listing self.now file.now) }
    {
        let Some(listing) = self.listing(file) else {
            return true;
        };
        are_readable(&self.xorbs, listing.segments())
    }

    /// Whether each of the files is readable.
    fn are_files_readable(&self, files: &[MerkleHash]) -> bool
        ensures { result ≡ list_all (λ file. all_readable self.now (listing self.now file)) files.now }
    {
        for file in files {
            if !self.is_file_readable(file) {
                return false;
            }
        }
        true
    }

    /// Whether each live file is readable.
    fn is_readable(&self, alloc: Global) -> Result<bool, OutOfMemory>
        ensures { IfOk result (λ holds. holds ≡ readable self.now) }
    {
        let files = listed_files(alloc, &self.shards)?;
        Ok(self.are_files_readable(&files))
    }

    /// The bytes of a file from a start up to an end, which is above it and within the file.
    fn bytes_of(
        &self,
        alloc: Global,
        listing: &FileListing,
        start: u64,
        end: u64,
    ) -> Result<Bytes, ClientError>
        requires some { start < end }
        requires within { end ≤ size_of listing.now.segments }
        ensures { Answered result (λ r. r ≡ data_at self.now listing.now.segments (interval start end)) ⊤ }
    {
        let range = Some(FileRange::new(start, end));
        let mut footers = StoredFooters::new(&self.xorbs);
        match compute_reconstruction_terms(alloc, listing, range, &mut footers)? {
            Some(plan) => {
                let offset = plan.offset_into_first_range;
                Ok(assemble(alloc, &self.xorbs, &plan.terms, offset, end - start)?)
            }
            None => unreachable!(),
        }
    }

    /// The plan of a file, or of a range of its bytes. None where it isn't live or the range begins at or past its end;
    /// `InvalidRange` where the range's end isn't above its start; else the first fault of a segment that the range meets.
    pub fn plan(
        &self,
        alloc: Global,
        file: &MerkleHash,
        range: Option<FileRange>,
    ) -> Result<Option<Plan>, ClientError>
        ensures answer { Answered result (λ r. PlansFile self.now file.now range r) ⊤ }
        ensures sound { IsSound self.now }
    {
        let mut footers = StoredFooters::new(&self.xorbs);
        match self.listing(file) {
            Some(listing) => compute_reconstruction_ranges(alloc, listing, range, &mut footers),
            None => Ok(None),
        }
    }

    /// The same with the links of version 2, which have the moment in milliseconds.
    fn plan_in_groups(
        &self,
        alloc: Global,
        file: &MerkleHash,
        range: Option<FileRange>,
        at: u64,
    ) -> Result<Option<QueryReconstructionResponseV2>, ClientError>
        ensures answer { Answered result (RespondsInGroups self.now file.now range at) ⊤ }
        ensures refusals { RefusedBy OfPlan result }
        ensures sound { IsSound self.now }
    {
        let Some(plan) = self.plan(alloc, file, range)? else {
            return Ok(None);
        };
        let response = second(alloc, plan, self.max_ranges, at)?;
        Ok(Some(response))
    }

    /// Chunks of a xorb, which aren't copied. `XORBNotFound` where it isn't stored, `InvalidRange` where the range is
    /// empty, reversed or ends past its last chunk.
    pub fn cut(
        &self,
        alloc: Global,
        hash: &MerkleHash,
        chunks: ChunkRange,
    ) -> Result<Items<Bytes>, ClientError>
        ensures answer { Answered result (λ r. r ≡ cut_of self.now hash.now chunks.start chunks.end) ⊤ }
        ensures sound { IsSound self.now }
    {
        let Some(xorb) = self.xorbs.get(hash) else {
            return Err(ClientError::XORBNotFound(*hash));
        };
        xorb.cut(alloc, chunks)
    }
}

/// A refusal for another cause, as its text says.
fn other(alloc: Global, text: &str) -> ClientError
    ensures { IfSome (refusal_of result) (λ why. why ≡ Other) }
{
    match String::from_str(alloc, text) {
        Ok(text) => ClientError::Other(text),
        Err(_) => ClientError::OutOfMemory,
    }
}

/// The answer of a check; `Other` where it fails.
fn passed(alloc: Global, holds: bool, text: &str) -> Result<(), ClientError>
    ensures { Answered result (λ r. r ≡ checked holds) ⊤ }
{
    if holds {
        Ok(())
    } else {
        Err(other(alloc, text))
    }
}

/// A time in milliseconds as whole seconds, rounded up. None where it is 0.
fn seconds_asked(millis: Option<u64>) -> Option<u64>
    ensures { result ≡ seconds_asked millis }
{
    match millis {
        None | Some(0) => None,
        Some(millis) => Some(millis.div_ceil(1000)),
    }
}

/// The bytes that a range asks of so many. None where it begins at or past their end, or ends below its start.
fn asked(size: u64, range: Option<FileRange>) -> Option<FileRange>
    ensures { option_map range_interval result ≡ asked size range }
{
    let Some(range) = range else {
        return Some(FileRange::new(0, size));
    };
    if range.start >= size || range.end < range.start {
        return None;
    }
    Some(FileRange::new(range.start, range.end.min(size)))
}

impl Client for MemoryClient {
    ghost use Rattle.std.specs.Prelude.{Some};

    ghost told = { λ s. Some s };

    ghost faults = { λ _. 0 };

    fn get_file_reconstruction_info(
        &mut self,
        alloc: Global,
        file_hash: &MerkleHash,
    ) -> Result<Option<(FileListing, Option<MerkleHash>)>, ClientError> {
        let Some(shard) = self.live(file_hash) else {
            return Ok(None);
        };
        let Some(listing) = shard.listing(file_hash) else {
            return Ok(None);
        };
        let listing = listing.clone(alloc)?;
        Ok(Some((listing, Some(*shard.name()))))
    }

    fn get_reconstruction(
        &mut self,
        alloc: Global,
        file_id: &MerkleHash,
        bytes_range: Option<FileRange>,
        at: u64,
    ) -> Result<Option<QueryReconstructionResponseV2>, ClientError> {
        self.plan_in_groups(alloc, file_id, bytes_range, at)
    }

    fn query_for_global_dedup_shard(
        &mut self,
        alloc: Global,
        prefix: &str,
        chunk_hash: &MerkleHash,
        at: u64,
    ) -> Result<Option<Bytes>, ClientError> {
        let Some(shard) = self.dedup_shard(chunk_hash) else {
            return Ok(None);
        };
        let text = shard.dedup_text(alloc, self.dedup_seconds, at)?;
        Ok(Some(text))
    }

    fn upload_shard(&mut self, alloc: Global, shard_data: Bytes) -> Result<bool, ClientError> {
        MemoryClient::upload_shard(self, alloc, &shard_data)
    }

    fn upload_xorb(
        &mut self,
        alloc: Global,
        prefix: &str,
        serialized_xorb_object: SerializedXorbObject,
    ) -> Result<u64, ClientError> {
        let hash = serialized_xorb_object.hash;
        MemoryClient::upload_xorb(self, alloc, &hash, &serialized_xorb_object.serialized_data)
    }
}

impl DirectAccessClient for MemoryClient {
    /// Takes no memory.
    fn set_fetch_term_url_expiration(&mut self, millis: u64) -> Result<(), ClientError>
        ensures done { result ≡ Ok tt }
        ensures after { self.new ≡ (set_expiration self.old millis).1 }
    {
        self.expiration = millis;
        Ok(())
    }

    /// Takes no memory.
    fn set_max_ranges_per_fetch(&mut self, max_ranges: usize) -> Result<(), ClientError>
        ensures done { 0 < max_ranges → result ≡ Ok tt }
        ensures refused { max_ranges ≡ 0 → result ≡ Err errors.InvalidArguments }
        ensures after { self.new ≡ (set_max_ranges self.old max_ranges).1 }
    {
        if max_ranges == 0 {
            return Err(ClientError::InvalidArguments);
        }
        self.max_ranges = max_ranges;
        Ok(())
    }

    /// Takes no memory.
    fn set_global_dedup_shard_expiration(&mut self, millis: Option<u64>) -> Result<(), ClientError>
        ensures done { result ≡ Ok tt }
        ensures after { self.new ≡ (set_dedup_expiration self.old millis).1 }
    {
        self.dedup_seconds = seconds_asked(millis);
        Ok(())
    }

    fn get_reconstruction_v1(
        &mut self,
        alloc: Global,
        file_id: &MerkleHash,
        bytes_range: Option<FileRange>,
        at: u64,
    ) -> Result<Option<QueryReconstructionResponse>, ClientError> {
        let Some(plan) = self.plan(alloc, file_id, bytes_range)? else {
            return Ok(None);
        };
        let response = first(alloc, plan, at)?;
        Ok(Some(response))
    }

    fn get_reconstruction_v2(
        &mut self,
        alloc: Global,
        file_id: &MerkleHash,
        bytes_range: Option<FileRange>,
        at: u64,
    ) -> Result<Option<QueryReconstructionResponseV2>, ClientError> {
        self.plan_in_groups(alloc, file_id, bytes_range, at)
    }

    fn fetch_term_data(
        &mut self,
        alloc: Global,
        hash: MerkleHash,
        fetch_term: XorbReconstructionFetchInfo,
        at: u64,
    ) -> Result<(Bytes, Vec<u32>), ClientError> {
        let url = fetch_term.url.as_str();
        let named = named_xorb(url, fetch_term.url_range, at, self.expiration)?;
        let Some(xorb) = self.xorbs.get(&named) else {
            return Err(ClientError::XORBNotFound(named));
        };
        let chunks = xorb.cut(alloc, fetch_term.range)?;
        Ok(join(alloc, chunks.as_slice())?)
    }

    fn list_xorbs(&mut self, alloc: Global) -> Result<Vec<MerkleHash>, ClientError> {
        let hashes = self.xorbs.keys(alloc)?;
        Ok(hashes)
    }

    /// Takes no memory.
    fn delete_xorb(&mut self, alloc: Global, hash: &MerkleHash) -> Result<(), ClientError>
        ensures done { result ≡ Ok tt }
        ensures after { self.new ≡ (delete_xorb self.old hash.now).1 }
    {
        self.xorbs.remove(hash);
        Ok(())
    }

    fn xorb_footer(&mut self, alloc: Global, hash: &MerkleHash) -> Result<XorbObject, ClientError> {
        let Some(xorb) = self.xorbs.get(hash) else {
            return Err(ClientError::XORBNotFound(*hash));
        };
        let object: &XorbObject = xorb.object();
        Ok(object.clone(alloc)?)
    }

    fn xorb_raw_length(&mut self, alloc: Global, hash: &MerkleHash) -> Result<u64, ClientError> {
        match self.xorbs.get(hash) {
            Some(xorb) => Ok(u64::from(xorb.object().serialized_length())),
            None => Err(ClientError::XORBNotFound(*hash)),
        }
    }

    fn get_full_xorb(&mut self, alloc: Global, hash: &MerkleHash) -> Result<Bytes, ClientError> {
        match self.xorbs.get(hash) {
            Some(xorb) => Ok(xorb.all(alloc)?),
            None => Err(ClientError::XORBNotFound(*hash)),
        }
    }

    fn xorb_length(&mut self, alloc: Global, hash: &MerkleHash) -> Result<u32, ClientError> {
        match self.xorbs.get(hash) {
            Some(xorb) => Ok(xorb.length()),
            None => Err(ClientError::XORBNotFound(*hash)),
        }
    }

    fn get_xorb_ranges(
        &mut self,
        alloc: Global,
        hash: &MerkleHash,
        chunk_ranges: Vec<(u32, u32)>,
    ) -> Result<Vec<Bytes>, ClientError> {
        if chunk_ranges.is_empty() {
            return Ok(Vec::from_array(alloc, [Bytes::new()])?);
        }
        match self.xorbs.get(hash) {
            Some(xorb) => xorb.ranges(alloc, chunk_ranges.as_slice()),
            None => Err(ClientError::XORBNotFound(*hash)),
        }
    }

    fn xorb_exists(&mut self, alloc: Global, hash: &MerkleHash) -> Result<bool, ClientError> {
        Ok(self.xorbs.contains(hash))
    }

    fn get_file_size(&mut self, alloc: Global, hash: &MerkleHash) -> Result<u64, ClientError> {
        match self.listing(hash) {
            Some(listing) => Ok(listing.file_size()),
            None => Err(ClientError::FileNotFound(*hash)),
        }
    }

    fn get_file_data(
        &mut self,
        alloc: Global,
        hash: &MerkleHash,
        byte_range: Option<FileRange>,
    ) -> Result<Bytes, ClientError> {
        let Some(listing) = self.listing(hash) else {
            return Err(ClientError::FileNotFound(*hash));
        };
        let Some(range) = asked(listing.file_size(), byte_range) else {
            return Err(ClientError::InvalidRange);
        };
        if range.start == range.end {
            return Ok(Bytes::new());
        }
        self.bytes_of(alloc, listing, range.start, range.end)
    }

    fn get_xorb_raw_bytes(
        &mut self,
        alloc: Global,
        hash: &MerkleHash,
        byte_range: Option<FileRange>,
    ) -> Result<Bytes, ClientError> {
        let Some(xorb) = self.xorbs.get(hash) else {
            return Err(ClientError::XORBNotFound(*hash));
        };
        let text = xorb.text();
        let Some(range) = asked(text.len() as u64, byte_range) else {
            return Err(ClientError::InvalidRange);
        };
        Ok(text.slice(range.start as usize..range.end as usize)?)
    }
}

impl DeletionControlableClient for MemoryClient {
    fn verify_integrity(&mut self, alloc: Global) -> Result<(), ClientError> {
        let holds = checks::integrity(alloc, &self.xorbs, &self.hidden, &self.shards)?;
        passed(
            alloc,
            holds,
            "a listed xorb isn't stored, or a segment doesn't fit",
        )
    }

    fn verify_all_reachable(&mut self, alloc: Global) -> Result<(), ClientError> {
        let holds = checks::reachable(alloc, &self.xorbs, &self.hidden, &self.shards)?;
        passed(alloc, holds, "a shard or a xorb is of no use")
    }

    fn list_shard_entries(&mut self, alloc: Global) -> Result<Vec<MerkleHash>, ClientError> {
        let names = self.shards.names(alloc)?;
        Ok(names)
    }

    fn get_shard_bytes(&mut self, alloc: Global, hash: &MerkleHash) -> Result<Bytes, ClientError> {
        match self.shards.get(hash) {
            Some(shard) => Ok(shard.text(alloc)?),
            None => Err(other(alloc, "no shard of this name is stored")),
        }
    }

    fn list_file_shard_entries(
        &mut self,
        alloc: Global,
    ) -> Result<Vec<(MerkleHash, MerkleHash)>, ClientError> {
        let entries = lists::shown(alloc, &self.hidden, &self.shards)?;
        let pairs = entries.pairs(alloc)?;
        Ok(pairs)
    }

    fn remove_shard_dedup_entries(
        &mut self,
        alloc: Global,
        shard_hash: &MerkleHash,
    ) -> Result<(), ClientError> {
        drop_named(alloc, &mut self.dedup, shard_hash)?;
        Ok(())
    }

    /// Of a shard that is stored it takes no memory.
    fn delete_shard_entry(&mut self, alloc: Global, hash: &MerkleHash) -> Result<(), ClientError>
        ensures done { IsSome (shard_named self.old.shards hash.now) → result ≡ Ok tt }
        ensures refused { shard_named self.old.shards hash.now ≡ None → Answered result (λ r. r ≡ Err Other) ⊤ }
        ensures after { self.new ≡ (delete_shard self.old hash.now).1 }
    {
        if self.shards.remove(hash) {
            Ok(())
        } else {
            Err(other(alloc, "no shard of this name is stored"))
        }
    }

    /// Of a file that is hidden already it takes no memory.
    fn delete_file_entry(
        &mut self,
        alloc: Global,
        file_hash: &MerkleHash,
    ) -> Result<(), ClientError>
        ensures ok { OnOk result (self.new ≡ (hide_file self.old file_hash.now).1) }
        ensures err { OnErr result (self.new ≡ self.old) }
        ensures memory { IfErr result (λ e. e ≡ ClientError.OutOfMemory) }
        ensures again { get self.old.hidden file_hash.now ≡ Some tt → result ≡ Ok tt }
    {
        self.hidden.insert(*file_hash, ())?;
        Ok(())
    }
}

impl Footers for MemoryClient {
    ghost use Rattle.std.specs.Prelude.{Some};
    ghost use Rattle.xet_store.specs.StoreModel.{known_of};

    ghost told = { λ s. Some (known_of s) };

    ghost faults = { λ _. 0 };

    fn footer(&mut self, alloc: Global, hash: &MerkleHash) -> Result<Arc<XorbObject>, ClientError> {
        let mut footers = StoredFooters::new(&self.xorbs);
        footers.footer(alloc, hash)
    }
}

impl Store for MemoryClient {
    ghost use Rattle.std.specs.Prelude.{refl};

    fn verify_readable(&mut self, alloc: Global) -> Result<(), ClientError> {
        let holds = self.is_readable(alloc)?;
        passed(alloc, holds, "a segment disagrees with its xorb")
    }

    fn fetch_term_url_expiration(&mut self) -> u64 {
        self.expiration
    }

    fn max_ranges_per_fetch(&mut self) -> usize {
        self.max_ranges
    }

    fn plan_file(
        &mut self,
        alloc: Global,
        file: &MerkleHash,
        range: Option<FileRange>,
    ) -> Result<Option<Plan>, ClientError> {
        self.plan(alloc, file, range)
    }

    fn plan_files(
        &mut self,
        alloc: Global,
        files: &[MerkleHash],
    ) -> Result<FilePlans, ClientError> {
        plans_of_files(self, alloc, files)
    }

    fn insert_random_xorb(
        &mut self,
        alloc: Global,
        xorb: RandomXorb,
    ) -> Result<MerkleHash, ClientError> {
        let hash = xorb.xorb_hash();
        if self.xorbs.contains(&hash) {
            return Ok(hash);
        }
        let stored = StoredXorb::generated(alloc, xorb)?;
        self.xorbs.insert(hash, stored)?;
        Ok(hash)
    }

    fn insert_random_lazy_file(
        &mut self,
        alloc: Global,
        term_spec: &[(u64, (u64, u64))],
        chunk_size: usize,
    ) -> Result<RandomFileContents, ClientError> {
        let file = GeneratedFile::new(alloc, term_spec, chunk_size)?;
        let shard = file.shard(alloc)?;
        let shard = KeptShard::canonical(alloc, &shard)?;
        let (xorbs, contents) = file.into_parts();
        self.put_generated(alloc, xorbs, shard)?;
        Ok(contents)
    }

    fn batch_get_reconstruction(
        &mut self,
        alloc: Global,
        file_ids: &[MerkleHash],
        at: u64,
    ) -> Result<BatchQueryReconstructionResponse, ClientError> {
        batch(self, alloc, file_ids, at)
    }

    ghost footers = { λ _. refl };

    ghost counts = { λ _. refl };
}

#[cfg(test)]
mod tests;
