//! What deletions leave of a store and what they take: rows that run through any store, over generated files.
use crate::memory::MemoryClient;
use crate::store::Store;
use std::alloc::Global;
use std::process::Abort;
use std::test::Fail;
use xet_generated::RandomFileContents;
use xet_types::{ClientError, MerkleHash};

/// A seed, and a range of the chunks of its xorb.
type Term = (u64, (u64, u64));

/// A file of five chunks of two xorbs.
const FIVE: &[Term] = &[(1, (0, 3)), (2, (0, 2))];

/// A file of four chunks of two other xorbs.
const FOUR: &[Term] = &[(3, (0, 1)), (4, (0, 3))];

/// The length of each chunk in bytes.
const CHUNK_SIZE: usize = 2048;

/// A name that no shard has.
const UNKNOWN: [u8; 32] = [0x55; 32];

/// A generated file, and the name of the shard that lists it.
#[derive(Drop)]
struct Made {
    contents: RandomFileContents,
    shard: MerkleHash,
}

/// A call of a store.
#[derive(Clone, Copy)]
enum Call {
    /// An upload of the file of these terms, whose number is the count of those before it.
    Insert(&'static [Term]),
    /// A count of each list.
    Counts,
    Integrity,
    /// A removal of the entries for deduplication that name an unknown shard.
    DropUnknown,
    /// A call that names the file of a number, its shard or its xorbs.
    Of(usize, Part),
}

/// A call that names a file, its shard, or the xorb of one of its terms.
#[derive(Clone, Copy)]
enum Part {
    Hide,
    Plan,
    Size,
    Data,
    DeleteShard,
    ShardBytes,
    DropDedup,
    DeleteXorb(usize),
    /// A query for the first chunk of the xorb.
    Dedup(usize),
}

/// What a call answered, or is to answer.
#[derive(Clone, Copy)]
enum Outcome {
    Done,
    /// What is asked for isn't there.
    Nothing,
    /// The wanted bytes.
    Same,
    /// Other bytes than the wanted ones.
    Different,
    Number(u64),
    /// How many shards, xorbs and listings are listed.
    Counts(usize, usize, usize),
    /// `FileNotFound`.
    NoFile,
    /// `Other`.
    Other,
    /// Another refusal.
    Refused,
}

/// The shard of the first listing of a file.
fn shard_of(entries: &[(MerkleHash, MerkleHash)], file: &MerkleHash) -> Option<MerkleHash> {
    for (listed, shard) in entries {
        if listed == file {
            return Some(*shard);
        }
    }
    None
}

fn insert<K: Store>(
    store: &mut K,
    alloc: Global,
    terms: &[Term],
) -> Result<Option<Made>, ClientError> {
    let contents = store.insert_random_lazy_file(alloc, terms, CHUNK_SIZE)?;
    let entries = store.list_file_shard_entries(alloc)?;
    match shard_of(&entries, &contents.file_hash) {
        Some(shard) => Ok(Some(Made { contents, shard })),
        None => Ok(None),
    }
}

/// Keeps what is made, where there is something.
fn keep(made: &mut Vec<Made>, inserted: Option<Made>) -> Result<Outcome, ClientError> {
    match inserted {
        Some(file) => {
            made.push(file)?;
            Ok(Outcome::Done)
        }
        None => Ok(Outcome::Nothing),
    }
}

fn counts<K: Store>(store: &mut K, alloc: Global) -> Result<Outcome, ClientError> {
    let shards = store.list_shard_entries(alloc)?;
    let xorbs = store.list_xorbs(alloc)?;
    let listings = store.list_file_shard_entries(alloc)?;
    Ok(Outcome::Counts(shards.len(), xorbs.len(), listings.len()))
}

fn integrity<K: Store>(store: &mut K, alloc: Global) -> Result<Outcome, ClientError> {
    store.verify_integrity(alloc)?;
    Ok(Outcome::Done)
}

fn hide<K: Store>(store: &mut K, alloc: Global, file: &MerkleHash) -> Result<Outcome, ClientError> {
    store.delete_file_entry(alloc, file)?;
    Ok(Outcome::Done)
}

/// Whether the file has a plan, at the moment 7.
fn plan<K: Store>(store: &mut K, alloc: Global, file: &MerkleHash) -> Result<Outcome, ClientError> {
    match store.get_reconstruction_v1(alloc, file, None, 7)? {
        Some(_) => Ok(Outcome::Done),
        None => Ok(Outcome::Nothing),
    }
}

fn size<K: Store>(store: &mut K, alloc: Global, file: &MerkleHash) -> Result<Outcome, ClientError> {
    let size = store.get_file_size(alloc, file)?;
    Ok(Outcome::Number(size))
}

fn compared(got: &[u8], want: &[u8]) -> Outcome {
    if got == want {
        Outcome::Same
    } else {
        Outcome::Different
    }
}

/// Whether the file's bytes are those that were generated.
fn data<K: Store>(
    store: &mut K,
    alloc: Global,
    contents: &RandomFileContents,
) -> Result<Outcome, ClientError> {
    let bytes = store.get_file_data(alloc, &contents.file_hash, None)?;
    Ok(compared(bytes.as_slice(), contents.content.as_slice()))
}

fn delete_shard<K: Store>(
    store: &mut K,
    alloc: Global,
    shard: &MerkleHash,
) -> Result<Outcome, ClientError> {
    store.delete_shard_entry(alloc, shard)?;
    Ok(Outcome::Done)
}

fn shard_bytes<K: Store>(
    store: &mut K,
    alloc: Global,
    shard: &MerkleHash,
) -> Result<Outcome, ClientError> {
    store.get_shard_bytes(alloc, shard)?;
    Ok(Outcome::Done)
}

fn drop_dedup<K: Store>(
    store: &mut K,
    alloc: Global,
    shard: &MerkleHash,
) -> Result<Outcome, ClientError> {
    store.remove_shard_dedup_entries(alloc, shard)?;
    Ok(Outcome::Done)
}

/// Takes the xorb of a term out, where there is such a term.
fn delete_xorb<K: Store>(
    store: &mut K,
    alloc: Global,
    contents: &RandomFileContents,
    term: usize,
) -> Result<Outcome, ClientError> {
    let Some(hash) = contents.term_xorb_hash(term) else {
        return Ok(Outcome::Nothing);
    };
    store.delete_xorb(alloc, &hash)?;
    Ok(Outcome::Done)
}

/// The first chunk of a term.
fn first_chunk(contents: &RandomFileContents, term: usize) -> Option<MerkleHash> {
    let term = contents.terms.get(term)?;
    let chunk = term.chunk_hashes.first()?;
    Some(*chunk)
}

/// Whether a query for a chunk answers the shard's bytes, at the moment 7.
fn dedup<K: Store>(
    store: &mut K,
    alloc: Global,
    chunk: &MerkleHash,
    shard: &MerkleHash,
) -> Result<Outcome, ClientError> {
    let Some(text) = store.query_for_global_dedup_shard(alloc, "default", chunk, 7)? else {
        return Ok(Outcome::Nothing);
    };
    let kept = store.get_shard_bytes(alloc, shard)?;
    Ok(compared(text.as_slice(), kept.as_slice()))
}

/// The answer to a query for the first chunk of a term.
fn dedup_of_term<K: Store>(
    store: &mut K,
    alloc: Global,
    made: &Made,
    term: usize,
) -> Result<Outcome, ClientError> {
    match first_chunk(&made.contents, term) {
        Some(chunk) => dedup(store, alloc, &chunk, &made.shard),
        None => Ok(Outcome::Refused),
    }
}

/// What a store answers to a call that names a file or its parts.
fn answer_of<K: Store>(
    store: &mut K,
    alloc: Global,
    made: &Made,
    part: &Part,
) -> Result<Outcome, ClientError> {
    match part {
        Part::Hide => hide(store, alloc, &made.contents.file_hash),
        Part::Plan => plan(store, alloc, &made.contents.file_hash),
        Part::Size => size(store, alloc, &made.contents.file_hash),
        Part::Data => data(store, alloc, &made.contents),
        Part::DeleteShard => delete_shard(store, alloc, &made.shard),
        Part::ShardBytes => shard_bytes(store, alloc, &made.shard),
        Part::DropDedup => drop_dedup(store, alloc, &made.shard),
        Part::DeleteXorb(term) => delete_xorb(store, alloc, &made.contents, *term),
        Part::Dedup(term) => dedup_of_term(store, alloc, made, *term),
    }
}

fn inserted<K: Store>(
    store: &mut K,
    alloc: Global,
    made: &mut Vec<Made>,
    terms: &[Term],
) -> Result<Outcome, ClientError> {
    let file = insert(store, alloc, terms)?;
    keep(made, file)
}

/// What a store answers to a call.
fn answer<K: Store>(
    store: &mut K,
    alloc: Global,
    made: &mut Vec<Made>,
    call: &Call,
) -> Result<Outcome, ClientError> {
    match call {
        Call::Insert(terms) => inserted(store, alloc, made, terms),
        Call::Counts => counts(store, alloc),
        Call::Integrity => integrity(store, alloc),
        Call::DropUnknown => drop_dedup(store, alloc, &MerkleHash::from_bytes(UNKNOWN)),
        Call::Of(number, part) => match made.get(*number) {
            Some(file) => answer_of(store, alloc, file, part),
            None => Ok(Outcome::Refused),
        },
    }
}

fn refused(error: &ClientError) -> Outcome {
    match error {
        ClientError::FileNotFound(_) => Outcome::NoFile,
        ClientError::Other(_) => Outcome::Other,
        _ => Outcome::Refused,
    }
}

fn is_wanted(got: &Outcome, want: &Outcome) -> bool {
    match (got, want) {
        (Outcome::Done, Outcome::Done) => true,
        (Outcome::Nothing, Outcome::Nothing) => true,
        (Outcome::Same, Outcome::Same) => true,
        (Outcome::Number(got), Outcome::Number(want)) => got == want,
        (Outcome::Counts(shards, xorbs, listings), Outcome::Counts(a, b, c)) => {
            shards == a && xorbs == b && listings == c
        }
        (Outcome::NoFile, Outcome::NoFile) => true,
        (Outcome::Other, Outcome::Other) => true,
        _ => false,
    }
}

/// Whether the call answers what it is to, asked once more where memory was wanting.
fn is_right<K: Store>(
    store: &mut K,
    alloc: Global,
    made: &mut Vec<Made>,
    call: &Call,
    want: &Outcome,
) -> bool {
    let answered = match answer(store, alloc, made, call) {
        Err(ClientError::OutOfMemory) => answer(store, alloc, made, call),
        answered => answered,
    };
    match answered {
        Ok(got) => is_wanted(&got, want),
        Err(error) => is_wanted(&refused(&error), want),
    }
}

/// Calls a store for each row, in order.
fn every_call<K: Store>(rt: &impl Abort, alloc: Global, store: &mut K, rows: &[(Call, Outcome)]) {
    let mut made = Vec::new(alloc);
    for (call, want) in rows {
        assert!(rt; is_right(store, alloc, &mut made, call, want));
    }
}

/// A shard is deleted.
const SHARD: &[(Call, Outcome)] = &[
    (Call::Counts, Outcome::Counts(0, 0, 0)),
    (Call::Insert(FIVE), Outcome::Done),
    (Call::Counts, Outcome::Counts(1, 2, 1)),
    (Call::Integrity, Outcome::Done),
    (Call::Of(0, Part::DeleteShard), Outcome::Done),
    (Call::Counts, Outcome::Counts(0, 2, 0)),
];

/// A file is hidden.
const FILE: &[(Call, Outcome)] = &[
    (Call::Insert(FIVE), Outcome::Done),
    (Call::Counts, Outcome::Counts(1, 2, 1)),
    (Call::Of(0, Part::Hide), Outcome::Done),
    (Call::Counts, Outcome::Counts(1, 2, 0)),
    (Call::Integrity, Outcome::Done),
];

/// A xorb is deleted.
const XORB: &[(Call, Outcome)] = &[
    (Call::Insert(FIVE), Outcome::Done),
    (Call::Counts, Outcome::Counts(1, 2, 1)),
    (Call::Integrity, Outcome::Done),
    (Call::Of(0, Part::DeleteXorb(0)), Outcome::Done),
    (Call::Counts, Outcome::Counts(1, 1, 1)),
    (Call::Integrity, Outcome::Other),
];

/// Two files are hidden, then their shards are deleted, then their xorbs.
const ALL: &[(Call, Outcome)] = &[
    (Call::Insert(FIVE), Outcome::Done),
    (Call::Insert(FOUR), Outcome::Done),
    (Call::Counts, Outcome::Counts(2, 4, 2)),
    (Call::Of(0, Part::Hide), Outcome::Done),
    (Call::Counts, Outcome::Counts(2, 4, 1)),
    (Call::Of(1, Part::Hide), Outcome::Done),
    (Call::Counts, Outcome::Counts(2, 4, 0)),
    (Call::Of(0, Part::DeleteShard), Outcome::Done),
    (Call::Counts, Outcome::Counts(1, 4, 0)),
    (Call::Of(1, Part::DeleteShard), Outcome::Done),
    (Call::Counts, Outcome::Counts(0, 4, 0)),
    (Call::Of(0, Part::DeleteXorb(0)), Outcome::Done),
    (Call::Counts, Outcome::Counts(0, 3, 0)),
    (Call::Of(0, Part::DeleteXorb(1)), Outcome::Done),
    (Call::Counts, Outcome::Counts(0, 2, 0)),
    (Call::Of(1, Part::DeleteXorb(0)), Outcome::Done),
    (Call::Counts, Outcome::Counts(0, 1, 0)),
    (Call::Of(1, Part::DeleteXorb(1)), Outcome::Done),
    (Call::Counts, Outcome::Counts(0, 0, 0)),
];

/// A deleted shard is asked for its bytes, and deleted again.
const SHARD_AGAIN: &[(Call, Outcome)] = &[
    (Call::Insert(FIVE), Outcome::Done),
    (Call::Of(0, Part::ShardBytes), Outcome::Done),
    (Call::Of(0, Part::DeleteShard), Outcome::Done),
    (Call::Of(0, Part::ShardBytes), Outcome::Other),
    (Call::Of(0, Part::DeleteShard), Outcome::Other),
    (Call::Counts, Outcome::Counts(0, 2, 0)),
];

/// A file is hidden twice, and asked for.
const FILE_AGAIN: &[(Call, Outcome)] = &[
    (Call::Insert(FIVE), Outcome::Done),
    (Call::Of(0, Part::Plan), Outcome::Done),
    (Call::Of(0, Part::Size), Outcome::Number(10_240)),
    (Call::Of(0, Part::Data), Outcome::Same),
    (Call::Of(0, Part::Hide), Outcome::Done),
    (Call::Of(0, Part::Hide), Outcome::Done),
    (Call::Of(0, Part::Plan), Outcome::Nothing),
    (Call::Of(0, Part::Size), Outcome::NoFile),
    (Call::Of(0, Part::Data), Outcome::NoFile),
];

/// The entries for deduplication of one of two shards are removed.
const DEDUP: &[(Call, Outcome)] = &[
    (Call::Insert(FIVE), Outcome::Done),
    (Call::Insert(FOUR), Outcome::Done),
    (Call::DropUnknown, Outcome::Done),
    (Call::Of(0, Part::Dedup(0)), Outcome::Same),
    (Call::Of(0, Part::Dedup(1)), Outcome::Same),
    (Call::Of(1, Part::Dedup(0)), Outcome::Same),
    (Call::Of(1, Part::Dedup(1)), Outcome::Same),
    (Call::Of(0, Part::DropDedup), Outcome::Done),
    (Call::Of(0, Part::Dedup(0)), Outcome::Nothing),
    (Call::Of(0, Part::Dedup(1)), Outcome::Nothing),
    (Call::DropUnknown, Outcome::Done),
    (Call::Of(1, Part::Dedup(0)), Outcome::Same),
    (Call::Of(1, Part::Dedup(1)), Outcome::Same),
    (Call::Counts, Outcome::Counts(2, 4, 2)),
];

#[test]
fn shard_in_memory(rt: HostRuntime) -> Result<(), Fail> {
    let alloc = rt.alloc();
    let mut store = MemoryClient::new(alloc);
    every_call(&rt, alloc, &mut store, SHARD);
    Ok(())
}

#[test]
fn file_in_memory(rt: HostRuntime) -> Result<(), Fail> {
    let alloc = rt.alloc();
    let mut store = MemoryClient::new(alloc);
    every_call(&rt, alloc, &mut store, FILE);
    Ok(())
}

#[test]
fn xorb_in_memory(rt: HostRuntime) -> Result<(), Fail> {
    let alloc = rt.alloc();
    let mut store = MemoryClient::new(alloc);
    every_call(&rt, alloc, &mut store, XORB);
    Ok(())
}

#[test]
fn all_in_memory(rt: HostRuntime) -> Result<(), Fail> {
    let alloc = rt.alloc();
    let mut store = MemoryClient::new(alloc);
    every_call(&rt, alloc, &mut store, ALL);
    Ok(())
}

#[test]
fn shard_again_in_memory(rt: HostRuntime) -> Result<(), Fail> {
    let alloc = rt.alloc();
    let mut store = MemoryClient::new(alloc);
    every_call(&rt, alloc, &mut store, SHARD_AGAIN);
    Ok(())
}

#[test]
fn file_again_in_memory(rt: HostRuntime) -> Result<(), Fail> {
    let alloc = rt.alloc();
    let mut store = MemoryClient::new(alloc);
    every_call(&rt, alloc, &mut store, FILE_AGAIN);
    Ok(())
}

#[test]
fn dedup_entries_in_memory(rt: HostRuntime) -> Result<(), Fail> {
    let alloc = rt.alloc();
    let mut store = MemoryClient::new(alloc);
    every_call(&rt, alloc, &mut store, DEDUP);
    Ok(())
}
