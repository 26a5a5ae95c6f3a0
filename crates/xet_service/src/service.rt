//! Requests of readers and writers, over a store.
ghost use Rattle.std.specs.Prelude.{◌≡◌, ◌<◌, Some, Err, IfOk, OnErr};
ghost use Rattle.std.specs.FinMap.{get, insert, remove};
ghost use Rattle.std.specs.FinMap as finmap;
ghost use Rattle.xet_plan.specs.Footers.{FailsOnlyByFault};
ghost use Rattle.xet_store.specs.StoreModel.{StoreModel};
ghost use Rattle.xet_store.specs.Commands.{UploadsXorb, UploadsShard, InsertsSeeded, InsertsLazy};
ghost use Rattle.xet_store.specs.Told.{Asks, Follows, Leaves};
ghost use Rattle.xet_store.specs.TermData.{is_expired};
ghost use Rattle.xet_store.specs.Answered.{Answered};
ghost use Rattle.xet_store.specs.Batches.{batch_at};
ghost use Rattle.xet_store.specs.Refusals.{RefusedBy, OfPlan, OfXorbBytes, OfXorbUpload, OfShardUpload, OfGenerated};
ghost use Rattle.xet_service.specs.declared.reply.Reply.TheVariants.{Uploaded, ShardTaken, Size, Data, Random, Finished};
ghost use Rattle.xet_service.specs.declared.step.Act.TheVariants.{Fetch};
ghost use Rattle.xet_service.specs.Bodies.{SendsStored};
ghost use Rattle.xet_service.specs.World.{state};
ghost use Rattle.xet_service.specs.Causes.{IsAsked};
ghost use Rattle.xet_service.specs.Steps.{Acts, Does, Fetches, PlansBy, map_ok, was_done, no_note, open_plan, abandon_step, asked_bytes, shard_reply, hashes_reply, files_reply, batch_reply, RepliesToAll, lazy_reply};
ghost use Rattle.xet_service.specs.Links.{answer_of};
ghost use Rattle.xet_service.specs.Requests.{OfAct, OfPlanAct, OfFetch, OfLink, IsAnswer, IsOpenAt, IsWantedAt, IsLinkLeftAt, PutsAt, KeepsReads, TakesAt};

use crate::body::{TermBody, fetch_term_body};
use crate::pieces::Pieces;
use crate::plan_links::PlanLinks;
use crate::read::OpenRead;
use crate::reader::Reader;
use crate::recent::Recent;
use crate::reply::{CacheNote, Reply};
use crate::step::{Act, Content, PlanVersion};
use bytes::Bytes;
use std::alloc::Global;
use xet_generated::RandomFileContents;
use xet_plan::Plan;
use xet_store::{FilePlans, Store};
use xet_types::{
    ClientError, FileRange, Items, MerkleHash, Octets, OutOfMemory, XorbRangeDescriptor,
};
use xet_xorb::{RandomXorb, SerializedXorbObject};

/// A store and the open reads of its files.
#[derive(Drop)]
pub struct ChunkService<K> {
    store: K,
    reads: Recent<OpenRead>,
    /// The number of the next read.
    next: u64,
}

impl<K> ChunkService<K> {
    /// A service over a store, without open reads. Takes no memory.
    pub fn new(alloc: Global, store: K) -> ChunkService<K>
        ensures store { result.store ≡ store }
        ensures reads { result.reads ≡ finmap.empty }
        ensures next { result.next ≡ 0 }
    {
        ChunkService {
            store,
            reads: Recent::new(alloc),
            next: 0,
        }
    }
}

/// No cache was asked.
fn no_note() -> CacheNote
    ensures { result ≡ no_note }
{
    CacheNote {
        hits: 0,
        stored: 0,
        refused: None,
    }
}

/// Whether a link of a plan at the stamp is expired at a moment, all in milliseconds.
fn is_expired(at: u64, stamp: u64, expiration: u64) -> bool
    ensures { result ≡ is_expired at stamp expiration }
{
    at.saturating_sub(stamp) > expiration
}

/// The reply of a xorb's upload.
fn uploaded(answer: Result<u64, ClientError>) -> Result<Reply, ClientError>
    ensures reply { result ≡ map_ok Uploaded answer }
    ensures answers { IfOk result IsAnswer }
{
    match answer {
        Ok(length) => Ok(Reply::Uploaded(length)),
        Err(error) => Err(error),
    }
}

/// The reply of a shard's upload.
fn shard_taken(answer: Result<bool, ClientError>) -> Result<Reply, ClientError>
    ensures reply { result ≡ map_ok ShardTaken answer }
    ensures answers { IfOk result IsAnswer }
{
    match answer {
        Ok(taken) => Ok(Reply::ShardTaken(taken)),
        Err(error) => Err(error),
    }
}

/// The reply of a command that answers nothing.
fn done(answer: Result<(), ClientError>) -> Result<Reply, ClientError>
    ensures reply { result ≡ map_ok was_done answer }
    ensures answers { IfOk result IsAnswer }
{
    match answer {
        Ok(()) => Ok(Reply::Done),
        Err(error) => Err(error),
    }
}

/// The reply of a query for a chunk.
fn dedup(answer: Result<Option<Bytes>, ClientError>) -> Result<Reply, ClientError>
    ensures reply { result ≡ map_ok shard_reply answer }
    ensures answers { IfOk result IsAnswer }
{
    match answer {
        Ok(Some(bytes)) => Ok(Reply::ShardBytes(Octets::from_bytes(bytes))),
        Ok(None) => Ok(Reply::NoShard),
        Err(error) => Err(error),
    }
}

/// The reply of a list of hashes.
fn hashes(answer: Result<Vec<MerkleHash>, ClientError>) -> Result<Reply, ClientError>
    ensures reply { result ≡ map_ok hashes_reply answer }
    ensures answers { IfOk result IsAnswer }
{
    match answer {
        Ok(hashes) => Ok(Reply::Hashes(Items::from_vec(hashes))),
        Err(error) => Err(error),
    }
}

/// The reply of a list of files.
fn files(answer: Result<Vec<(MerkleHash, MerkleHash)>, ClientError>) -> Result<Reply, ClientError>
    ensures reply { result ≡ map_ok files_reply answer }
    ensures answers { IfOk result IsAnswer }
{
    match answer {
        Ok(files) => Ok(Reply::Files(Items::from_vec(files))),
        Err(error) => Err(error),
    }
}

/// The reply of a generated xorb's insertion.
fn random(answer: Result<MerkleHash, ClientError>) -> Result<Reply, ClientError>
    ensures reply { result ≡ map_ok Random answer }
    ensures answers { IfOk result IsAnswer }
{
    match answer {
        Ok(hash) => Ok(Reply::Random(hash)),
        Err(error) => Err(error),
    }
}

/// The reply of a file's size.
fn size(answer: Result<u64, ClientError>) -> Result<Reply, ClientError>
    ensures reply { result ≡ map_ok Size answer }
    ensures answers { IfOk result IsAnswer }
{
    match answer {
        Ok(bytes) => Ok(Reply::Size(bytes)),
        Err(error) => Err(error),
    }
}

/// The reply of a file's bytes.
fn data(answer: Result<Bytes, ClientError>) -> Result<Reply, ClientError>
    ensures reply { result ≡ map_ok Data answer }
    ensures answers { IfOk result IsAnswer }
{
    match answer {
        Ok(bytes) => Ok(Reply::Data(Octets::from_bytes(bytes))),
        Err(error) => Err(error),
    }
}

/// The reply of a generated file's insertion.
fn lazy(answer: Result<RandomFileContents, ClientError>) -> Result<Reply, ClientError>
    ensures reply { result ≡ map_ok lazy_reply answer }
    ensures answers { IfOk result IsAnswer }
{
    match answer {
        Ok(contents) => Ok(Reply::Lazy {
            file: contents.file_hash,
            size: contents.content.len() as u64,
        }),
        Err(error) => Err(error),
    }
}

/// Stores a xorb under a hash.
fn upload_xorb<K: Store>(
    alloc: Global,
    store: &mut K,
    hash: &MerkleHash,
    content: &Content,
) -> Result<u64, ClientError>
    ensures told { (m : StoreModel) → K.Client.told store.old ≡ Some m → Follows (UploadsXorb m hash.now content.now) m result (K.Client.told store.new) }
    ensures refusals { RefusedBy OfXorbUpload result }
    ensures cause { FailsOnlyByFault (K.Client.faults store.old) (K.Client.faults store.new) result }
{
    let xorb = SerializedXorbObject {
        hash: *hash,
        serialized_data: content.as_bytes().clone()?,
        raw_num_bytes: 0,
        num_chunks: 0,
        footer_start: None,
    };
    store.upload_xorb(alloc, "default", xorb)
}

/// Accepts a shard.
fn upload_shard<K: Store>(
    alloc: Global,
    store: &mut K,
    content: &Content,
) -> Result<bool, ClientError>
    ensures told { (m : StoreModel) → K.Client.told store.old ≡ Some m → Follows (UploadsShard m content.now) m result (K.Client.told store.new) }
    ensures refusals { RefusedBy OfShardUpload result }
    ensures cause { FailsOnlyByFault (K.Client.faults store.old) (K.Client.faults store.new) result }
{
    let content = content.as_bytes().clone()?;
    store.upload_shard(alloc, content)
}

/// Plans that were taken together, as a reply, with links of version 1 that have the moment in milliseconds. Takes no memory.
fn batch_reply(plans: FilePlans, at: u64) -> Result<Reply, OutOfMemory>
    ensures reply { IfOk result (λ reply. reply ≡ batch_reply (batch_at at plans)) }
    ensures answers { IfOk result IsAnswer }
{
    let links = PlanLinks::from_runs(plans.merged, at)?;
    Ok(Reply::Batch {
        files: Items::from_vec(plans.files),
        links,
    })
}

/// The store's plans of several files, taken together, as a reply.
fn ask_batch<K: Store>(
    alloc: Global,
    store: &mut K,
    files: &[MerkleHash],
    at: u64,
) -> Result<Reply, ClientError>
    ensures told { (m : StoreModel) → K.Client.told store.old ≡ Some m → Asks (RepliesToAll m files.now at) result }
    ensures refusals { RefusedBy OfPlan result }
    ensures answers { IfOk result IsAnswer }
    ensures stays { K.Client.told store.new ≡ K.Client.told store.old }
    ensures cause { FailsOnlyByFault (K.Client.faults store.old) (K.Client.faults store.new) result }
{
    let plans = store.plan_files(alloc, files)?;
    let reply = batch_reply(plans, at)?;
    Ok(reply)
}

/// The bytes of ranges, with ends that are excluded.
fn asked_bytes(alloc: Global, ranges: &[XorbRangeDescriptor]) -> Result<Vec<FileRange>, OutOfMemory>
    ensures { IfOk result (λ asked. asked.items ≡ asked_bytes ranges.now) }
{
    let mut asked = Vec::with_capacity(alloc, ranges.len())?;
    for range in ranges {
        asked.push(FileRange::from(range.bytes))?;
    }
    Ok(asked)
}

/// The body of ranges of a xorb, as [`fetch_term_body`] answers it.
fn fetch_ranges<K: Store>(
    alloc: Global,
    store: &mut K,
    hash: &MerkleHash,
    ranges: &[XorbRangeDescriptor],
) -> Result<TermBody, ClientError>
    ensures told { (m : StoreModel) → K.Client.told store.old ≡ Some m → Asks (SendsStored m hash.now (asked_bytes ranges.now)) result }
    ensures refusals { RefusedBy (OfXorbBytes hash.now) result }
    ensures stays { K.Client.told store.new ≡ K.Client.told store.old }
    ensures cause { FailsOnlyByFault (K.Client.faults store.old) (K.Client.faults store.new) result }
{
    if let [range] = ranges {
        return fetch_term_body(alloc, store, hash, &[FileRange::from(range.bytes)]);
    }
    let asked = asked_bytes(alloc, ranges)?;
    fetch_term_body(alloc, store, hash, &asked)
}

/// Stores a generated xorb. `InvalidArguments` where so many chunks of this length aren't those of a xorb.
fn insert_random<K: Store>(
    alloc: Global,
    store: &mut K,
    seed: u64,
    num_chunks: u32,
    chunk_size: u32,
) -> Result<MerkleHash, ClientError>
    ensures told { (m : StoreModel) → K.Client.told store.old ≡ Some m → Follows (InsertsSeeded m seed num_chunks chunk_size) m result (K.Client.told store.new) }
    ensures refusals { RefusedBy OfGenerated result }
    ensures cause { FailsOnlyByFault (K.Client.faults store.old) (K.Client.faults store.new) result }
{
    let xorb = RandomXorb::from_seed(alloc, seed, num_chunks, chunk_size)?;
    store.insert_random_xorb(alloc, xorb)
}

/// Puts a read at a number at which one is open, and answers that one. Takes no memory.
fn replace(reads: &mut Recent<OpenRead>, number: u64, read: OpenRead) -> OpenRead
    requires present { IsOpenAt reads.old number }
    ensures value { Some result ≡ get reads.old number }
    ensures put { reads.new ≡ insert reads.old number read }
{
    match reads.insert(number, read) {
        Ok(Some(old)) => old,
        _ => unreachable!(),
    }
}

impl<K> ChunkService<K> {
    /// Opens the read of a plan, whose links bring at most `max` runs of a xorb each in version 2.
    fn open(
        &mut self,
        alloc: Global,
        version: PlanVersion,
        plan: Plan,
        max: usize,
        range: Option<FileRange>,
        at: u64,
    ) -> Result<Reply, ClientError>
        requires { 0 < max }
        ensures store { self.new.store ≡ self.old.store }
        ensures opens { (m : StoreModel) → Answered result (λ r. open_plan (state m self.old.reads self.old.next) version (answer_of version max at plan) range at ≡ (r, state m self.new.reads self.new.next)) (state m self.new.reads self.new.next ≡ state m self.old.reads self.old.next) }
        ensures refusals { RefusedBy OfLink result }
        ensures answers { IfOk result IsAnswer }
        ensures kept { KeepsReads result self.old.reads self.new.reads self.old.next self.new.next }
    {
        let read = self.next;
        if read == u64::MAX {
            return Err(ClientError::InvalidArguments);
        }
        let reader = Reader::of_plan(alloc, version, &plan, max, range)?;
        let links = PlanLinks::of_plan(version, plan.merged, max, at)?;
        if links.is_empty() {
            self.next = read + 1;
            return Ok(Reply::Finished {
                read,
                bytes: Pieces::new(alloc),
                wire: 0,
                cache: no_note(),
            });
        }
        self.reads.insert(read, OpenRead { reader, stamp: at })?;
        self.next = read + 1;
        Ok(Reply::Planned {
            version,
            read,
            offset: plan.offset_into_first_range,
            terms: Items::from_vec(plan.terms),
            links,
        })
    }

    /// Closes an open read. `InvalidArguments` where none of this number is open. Takes no memory.
    fn abandon(&mut self, read: u64) -> Result<Reply, ClientError>
        ensures store { self.new.store ≡ self.old.store }
        ensures abandons { (m : StoreModel) → Answered result (λ r. abandon_step (state m self.old.reads self.old.next) read ≡ (r, state m self.new.reads self.new.next)) ⊥ }
        ensures refusals { RefusedBy OfLink result }
        ensures answers { IfOk result IsAnswer }
        ensures kept { KeepsReads result self.old.reads self.new.reads self.old.next self.new.next }
    {
        let Some(_) = self.reads.remove(read) else {
            return Err(ClientError::InvalidArguments);
        };
        Ok(Reply::Done)
    }
}

/// Puts the chunks that a body brought into a link that is left of an open read. Takes no memory.
fn put(
    alloc: Global,
    reads: &mut Recent<OpenRead>,
    read: u64,
    link: usize,
    got: Items<Items<Bytes>>,
)
    requires { IsLinkLeftAt reads.old read link }
    ensures { PutsAt reads.old read link got reads.new }
{
    let empty = OpenRead {
        reader: Reader::empty(alloc),
        stamp: 0,
    };
    let mut open = replace(reads, read, empty);
    open.reader.put(link, got);
    replace(reads, read, open);
}

/// Closes an open read, and answers what it gave.
fn finish(reads: &mut Recent<OpenRead>, read: u64, bytes: Pieces, wire: u64) -> Reply
    ensures reply { result ≡ Finished read bytes wire no_note }
    ensures closed { reads.new ≡ remove reads.old read }
{
    reads.remove(read);
    Reply::Finished {
        read,
        bytes,
        wire,
        cache: no_note(),
    }
}

/// Gives an open read the body of a link that is left, after which so many are left; the last one finishes it. A refused body
/// changes nothing.
fn take(
    alloc: Global,
    reads: &mut Recent<OpenRead>,
    read: u64,
    link: u32,
    left: u32,
    sent: TermBody,
) -> Result<Reply, ClientError>
    requires { IsWantedAt reads.old read left }
    ensures takes { Answered result (λ r. TakesAt reads.old read link sent r reads.new) (reads.new ≡ reads.old) }
    ensures refusals { RefusedBy OfFetch result }
    ensures answers { IfOk result IsAnswer }
    ensures kept { OnErr result (reads.new ≡ reads.old) }
    ensures outside { result ≡ Err ClientError.IOError → ⊥ }
{
    let Some(open) = reads.get(read) else {
        unreachable!()
    };
    let reader = &open.reader;
    let wire = sent.body.len() as u64;
    if left == 0 {
        if let Some(bytes) = reader.at_once(link as usize, sent.type_text(), &sent.body) {
            return Ok(finish(reads, read, bytes, wire));
        }
    }
    let got = reader.read(alloc, link as usize, sent.type_text(), &sent.body)?;
    if left > 0 {
        put(alloc, reads, read, link as usize, got);
        return Ok(Reply::Fetched {
            read,
            link,
            left,
            wire,
            cache: no_note(),
        });
    }
    let bytes = reader.pieces(alloc, link as usize, got)?;
    Ok(finish(reads, read, bytes, wire))
}

impl<K: Store> ChunkService<K> {
    /// Opens a read of a file, or of a range of its bytes, at a moment in milliseconds.
    ///
    /// `NoPlan` where the file isn't live or the range begins at or past its end. Refused as the store's plan is, and then with
    /// `InvalidArguments` where no number is left. A plan without links finishes at once.
    fn plan(
        &mut self,
        alloc: Global,
        version: PlanVersion,
        file: &MerkleHash,
        range: Option<FileRange>,
        at: u64,
    ) -> Result<Reply, ClientError>
        ensures told { (m : StoreModel) → K.Client.told self.old.store ≡ Some m → Leaves (λ after. Does (PlansBy (state m self.old.reads self.old.next) version file.now range at) (state m self.old.reads self.old.next) result (state after self.new.reads self.new.next)) (K.Client.told self.new.store) }
        ensures refusals { RefusedBy OfPlanAct result }
        ensures answers { IfOk result IsAnswer }
        ensures kept { KeepsReads result self.old.reads self.new.reads self.old.next self.new.next }
        ensures cause { FailsOnlyByFault (K.Client.faults self.old.store) (K.Client.faults self.new.store) result }
    {
        let Some(plan) = self.store.plan_file(alloc, file, range)? else {
            return Ok(Reply::NoPlan);
        };
        let max = self.store.max_ranges_per_fetch();
        self.open(alloc, version, plan, max, range, at)
    }

    /// Fetches a link of an open read, and finishes the read with the last one.
    ///
    /// `InvalidArguments` where the read isn't open or the link isn't left; then `PresignedUrlExpirationError` where the link is
    /// expired; then as [`fetch_term_body`] and [`Reader::accept`] refuse it. A refused fetch changes nothing.
    fn fetch(&mut self, alloc: Global, read: u64, link: u32, at: u64) -> Result<Reply, ClientError>
        ensures told { (m : StoreModel) → K.Client.told self.old.store ≡ Some m → Leaves (λ after. Does (Fetches (state m self.old.reads self.old.next) read link at) (state m self.old.reads self.old.next) result (state after self.new.reads self.new.next)) (K.Client.told self.new.store) }
        ensures asked { (m : StoreModel) → K.Client.told self.old.store ≡ Some m → result ≡ Err ClientError.IOError → IsAsked (state m self.old.reads self.old.next) at (Fetch read link) }
        ensures refusals { RefusedBy OfFetch result }
        ensures answers { IfOk result IsAnswer }
        ensures kept { KeepsReads result self.old.reads self.new.reads self.old.next self.new.next }
        ensures cause { FailsOnlyByFault (K.Client.faults self.old.store) (K.Client.faults self.new.store) result }
    {
        let Some(open) = self.reads.get(read) else {
            return Err(ClientError::InvalidArguments);
        };
        let Some(wanted) = open.reader.left_link(link as usize) else {
            return Err(ClientError::InvalidArguments);
        };
        if is_expired(at, open.stamp, self.store.fetch_term_url_expiration()) {
            return Err(ClientError::PresignedUrlExpirationError);
        }
        let Ok(left) = u32::try_from(open.reader.left().saturating_sub(1)) else {
            return Err(ClientError::OutOfMemory);
        };
        let ranges = wanted.ranges.as_slice();
        let sent = fetch_ranges(alloc, &mut self.store, &wanted.hash, ranges)?;
        take(alloc, &mut self.reads, read, link, left, sent)
    }

    /// Does what is asked at a moment in milliseconds. A refused act changes nothing.
    pub fn act(&mut self, alloc: Global, at: u64, act: &Act) -> Result<Reply, ClientError>
        ensures told { (m : StoreModel) → K.Client.told self.old.store ≡ Some m → Leaves (λ after. Does (Acts (state m self.old.reads self.old.next) at act.now) (state m self.old.reads self.old.next) result (state after self.new.reads self.new.next)) (K.Client.told self.new.store) }
        ensures asked { (m : StoreModel) → K.Client.told self.old.store ≡ Some m → result ≡ Err ClientError.IOError → IsAsked (state m self.old.reads self.old.next) at act.now }
        ensures refusals { RefusedBy (OfAct act.now) result }
        ensures answers { IfOk result IsAnswer }
        ensures kept { KeepsReads result self.old.reads self.new.reads self.old.next self.new.next }
        ensures cause { FailsOnlyByFault (K.Client.faults self.old.store) (K.Client.faults self.new.store) result }
    {
        match act {
            Act::UploadXorb { hash, content } => {
                uploaded(upload_xorb(alloc, &mut self.store, hash, content))
            }
            Act::UploadShard { content } => {
                shard_taken(upload_shard(alloc, &mut self.store, content))
            }
            Act::Plan {
                version,
                file,
                range,
            } => self.plan(alloc, *version, file, *range, at),
            Act::Fetch { read, link } => self.fetch(alloc, *read, *link, at),
            Act::Abandon { read } => self.abandon(*read),
            Act::HideFile { file } => done(self.store.delete_file_entry(alloc, file)),
            Act::DeleteShard { shard } => done(self.store.delete_shard_entry(alloc, shard)),
            Act::DeleteXorb { xorb } => done(self.store.delete_xorb(alloc, xorb)),
            Act::SetExpiration { millis } => {
                done(self.store.set_fetch_term_url_expiration(*millis))
            }
            Act::SetDedupExpiration { millis } => {
                done(self.store.set_global_dedup_shard_expiration(*millis))
            }
            Act::DedupQuery { chunk } => {
                dedup(
                    self.store
                        .query_for_global_dedup_shard(alloc, "default", chunk, at),
                )
            }
            Act::SetMaxRanges { max } => {
                done(self.store.set_max_ranges_per_fetch(*max as usize))
            }
            Act::RemoveDedup { shard } => {
                done(self.store.remove_shard_dedup_entries(alloc, shard))
            }
            Act::ListXorbs => hashes(self.store.list_xorbs(alloc)),
            Act::ListShards => hashes(self.store.list_shard_entries(alloc)),
            Act::ListFiles => files(self.store.list_file_shard_entries(alloc)),
            Act::CheckIntegrity => done(self.store.verify_integrity(alloc)),
            Act::CheckReachable => done(self.store.verify_all_reachable(alloc)),
            Act::CheckReadable => done(self.store.verify_readable(alloc)),
            Act::InsertRandomXorb {
                seed,
                num_chunks,
                chunk_size,
            } => { random(insert_random(alloc, &mut self.store, *seed, *num_chunks, *chunk_size)) }
            Act::FileSize { file } => size(self.store.get_file_size(alloc, file)),
            Act::FileData { file, range } => data(self.store.get_file_data(alloc, file, *range)),
            Act::Batch { files } => ask_batch(alloc, &mut self.store, files.as_slice(), at),
            Act::InsertLazyFile { terms, chunk_size } => {
                lazy(
                    self.store
                        .insert_random_lazy_file(alloc, terms.as_slice(), *chunk_size as usize),
                )
            }
        }
    }
}
