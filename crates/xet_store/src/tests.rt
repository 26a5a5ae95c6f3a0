//! Every call of a store, on its happy path and in each refusal: rows that run through any store. The names are SHA-256 by another
//! program, over bytes that it made itself.
mod deletion;

use crate::memory::MemoryClient;
use crate::store::Store;
use bytes::Bytes;
use std::alloc::Global;
use std::process::Abort;
use std::test::Fail;
use xet_shard::{ChunkListing, FileListing, Segment, Shard, XorbListing, write_shard};
use xet_types::{ClientError, FileRange, FormatFault, MerkleHash, OutOfMemory, compute_data_hash};
use xet_xorb::SerializedXorbObject;

/// The chunks `abc` and `defgh`, each behind its header.
const XORB: &[u8] = b"\0\x03\0\0\0\x03\0\0abc\0\x05\0\0\0\x05\0\0defgh";

/// The last 20 bytes of the xorb with its footer: where its chunks end, with headers and without, and the footer's length.
const XORB_END: &[u8] = b"\x0b\0\0\0\x18\0\0\0\x03\0\0\0\x08\0\0\0\x7c\0\0\0";

/// The xorb with its footer.
const FOOTED: &[u8] =
    b"\0\x03\0\0\0\x03\0\0abc\0\x05\0\0\0\x05\0\0defghXETPORT1\x91\x1a\xd1\x05\xed9O\xd1\x0f{\x88\xf6s\xc9u\xa4`\xfc\xe4\xb4Dkuv\x1b\xfdR\xbb\xbc\x0a:u\x02\0\0\0\xbax\x16\xbf\x8f\x01\xcf\xeaAA@\xde]\xae\x22#\xb0\x03a\xa3\x96\x17z\x9c\xb4\x10\xffa\xf2\0\x15\xad83\x95\xa7i\x13\x1d\x15\xc1\xc6\xfcW\xc6\xab\xdbu\x9a\xce\x98\x09\xc1\xad \xd1\xf4\x91\xd9\x0f\x7f\x02e\x0e\x0b\0\0\0\x18\0\0\0\x03\0\0\0\x08\0\0\0|\0\0\0";

/// The same, where the second chunk is said to end one byte later.
const FALSE_END: &[u8] =
    b"\0\x03\0\0\0\x03\0\0abc\0\x05\0\0\0\x05\0\0defghXETPORT1\x91\x1a\xd1\x05\xed9O\xd1\x0f{\x88\xf6s\xc9u\xa4`\xfc\xe4\xb4Dkuv\x1b\xfdR\xbb\xbc\x0a:u\x02\0\0\0\xbax\x16\xbf\x8f\x01\xcf\xeaAA@\xde]\xae\x22#\xb0\x03a\xa3\x96\x17z\x9c\xb4\x10\xffa\xf2\0\x15\xad83\x95\xa7i\x13\x1d\x15\xc1\xc6\xfcW\xc6\xab\xdbu\x9a\xce\x98\x09\xc1\xad \xd1\xf4\x91\xd9\x0f\x7f\x02e\x0e\x0b\0\0\0\x19\0\0\0\x03\0\0\0\x08\0\0\0|\0\0\0";

/// A chunk that ends early.
const TORN: &[u8] = b"\0\x03\0\0\0\x03\0\0ab";

/// The hash of the two chunks' hashes.
const NAME: &[u8; 32] =
    b"\x91\x1a\xd1\x05\xed\x39\x4f\xd1\x0f\x7b\x88\xf6\x73\xc9\x75\xa4\x60\xfc\xe4\xb4\x44\x6b\x75\x76\x1b\xfd\x52\xbb\xbc\x0a\x3a\x75";

/// The name of the shard that lists `FILE` as the first chunk.
const FIRST: &[u8; 32] =
    b"\x9e\x8f\x8c\xf0\xc7\x3c\x3c\xc1\xb3\x28\xf6\xcb\x7d\x69\x03\x0c\x62\x42\xa7\x49\xd0\xde\x56\xfa\x59\xfc\x5b\xd1\x19\x75\xf8\x72";

/// The name of the shard that lists `FILE` as the second chunk.
const SECOND: &[u8; 32] =
    b"\x3a\x15\x7f\x15\x6d\x49\x10\xb7\xca\x36\x73\xc3\x92\x7d\x5f\x02\xa7\x55\x04\xb5\x92\x6c\xe9\x65\x0e\x7d\xe9\xae\x9f\x2a\x3f\xa4";

/// The name of the shard that lists `TWICE`, `ONCE`, `TWICE` again and the xorb.
const WHOLE: &[u8; 32] =
    b"\x71\xe3\xa3\x92\xf3\x81\x43\xcd\xf9\x2a\x26\x4c\x70\x0d\x74\x53\x51\x6e\x03\x2e\x50\x57\x86\xb0\x8e\x3c\x05\x42\xb2\xa5\x8b\x58";

/// The xorb whose only chunk is `abc`.
const ONE_XORB: &[u8] = b"\0\x03\0\0\0\x03\0\0abc";

/// Its name.
const ONE_NAME: &[u8; 32] =
    b"O\x8bB\xc2-\xd3r\x9bQ\x9b\xa6\xf6\x8d-\xa7\xcc[-`m\x05\xda\xedZ\xd5\x12\x8c\xc0>lcX";

/// The hash of its chunk.
const ONE_CHUNK: &[u8; 32] =
    b"\xbax\x16\xbf\x8f\x01\xcf\xeaAA@\xde]\xae\"#\xb0\x03a\xa3\x96\x17z\x9c\xb4\x10\xffa\xf2\0\x15\xad";

/// A shard that expires at 7 and lists a file as that xorb, and the xorb twice.
const ONE_SHARD: &[u8] =
    b"XETSHRD1\x07\0\0\0\0\0\0\0\x01\0\0\0\x88\x88\x88\x88\x88\x88\x88\x88\x88\x88\x88\x88\x88\x88\x88\x88\x88\x88\x88\x88\x88\x88\x88\x88\x88\x88\x88\x88\x88\x88\x88\x88\x01\0\0\0O\x8bB\xc2-\xd3r\x9bQ\x9b\xa6\xf6\x8d-\xa7\xcc[-`m\x05\xda\xedZ\xd5\x12\x8c\xc0>lcX\0\0\0\0\0\0\0\0\x01\0\0\0\x03\0\0\0\x02\0\0\0O\x8bB\xc2-\xd3r\x9bQ\x9b\xa6\xf6\x8d-\xa7\xcc[-`m\x05\xda\xedZ\xd5\x12\x8c\xc0>lcX\x03\0\0\0\x01\0\0\0\xbax\x16\xbf\x8f\x01\xcf\xeaAA@\xde]\xae\"#\xb0\x03a\xa3\x96\x17z\x9c\xb4\x10\xffa\xf2\0\x15\xad\0\0\0\0\x03\0\0\0\x05\0\0\0\x06\0\0\0O\x8bB\xc2-\xd3r\x9bQ\x9b\xa6\xf6\x8d-\xa7\xcc[-`m\x05\xda\xedZ\xd5\x12\x8c\xc0>lcX\x03\0\0\0\x01\0\0\0\xbax\x16\xbf\x8f\x01\xcf\xeaAA@\xde]\xae\"#\xb0\x03a\xa3\x96\x17z\x9c\xb4\x10\xffa\xf2\0\x15\xad\0\0\0\0\x03\0\0\0\x05\0\0\0\x06\0\0\0";

/// The name of its canonical form.
const ONE_SHARD_NAME: &[u8; 32] =
    b"{\xca\xd4=\xd3\x8eh\xf5\xffc,\xc8\x82\x9b\xf0\x01\x0d\xab\xef\xfc\xc2\x90\x80\xe5\xecO\x0e\xde\x12\xa3\"^";

/// Its canonical form.
const ONE_CANONICAL: &[u8] =
    b"XETSHRD1\0\0\0\0\0\0\0\0\x01\0\0\0\x88\x88\x88\x88\x88\x88\x88\x88\x88\x88\x88\x88\x88\x88\x88\x88\x88\x88\x88\x88\x88\x88\x88\x88\x88\x88\x88\x88\x88\x88\x88\x88\x01\0\0\0O\x8bB\xc2-\xd3r\x9bQ\x9b\xa6\xf6\x8d-\xa7\xcc[-`m\x05\xda\xedZ\xd5\x12\x8c\xc0>lcX\0\0\0\0\0\0\0\0\x01\0\0\0\x03\0\0\0\x01\0\0\0O\x8bB\xc2-\xd3r\x9bQ\x9b\xa6\xf6\x8d-\xa7\xcc[-`m\x05\xda\xedZ\xd5\x12\x8c\xc0>lcX\x03\0\0\0\x01\0\0\0\xbax\x16\xbf\x8f\x01\xcf\xeaAA@\xde]\xae\"#\xb0\x03a\xa3\x96\x17z\x9c\xb4\x10\xffa\xf2\0\x15\xad\0\0\0\0\x03\0\0\0\x05\0\0\0\x06\0\0\0";

/// The canonical form's xorbs without its files, which expire at 12.
const ONE_EXPIRING: &[u8] =
    b"XETSHRD1\x0c\0\0\0\0\0\0\0\0\0\0\0\x01\0\0\0O\x8bB\xc2-\xd3r\x9bQ\x9b\xa6\xf6\x8d-\xa7\xcc[-`m\x05\xda\xedZ\xd5\x12\x8c\xc0>lcX\x03\0\0\0\x01\0\0\0\xbax\x16\xbf\x8f\x01\xcf\xeaAA@\xde]\xae\"#\xb0\x03a\xa3\x96\x17z\x9c\xb4\x10\xffa\xf2\0\x15\xad\0\0\0\0\x03\0\0\0\x05\0\0\0\x06\0\0\0";

const FILE: &[u8; 32] = &[0xaa; 32];

const EMPTY: &[u8; 32] = &[0xbb; 32];

const TORN_FILE: &[u8; 32] = &[0xcc; 32];

const OTHER: &[u8; 32] = &[0x55; 32];

const ONCE: &[u8; 32] = &[0x66; 32];

const TWICE: &[u8; 32] = &[0x77; 32];

/// A call of a store.
#[derive(Clone, Copy)]
enum Call {
    /// An upload of bytes under a hash.
    Xorb(&'static [u8; 32], &'static [u8]),
    /// An upload of a shard that lists a file as chunks of the xorb of a listed length.
    Shard(&'static [u8; 32], u32, u32, u32),
    /// An upload of a shard that lists a file without segments.
    EmptyFile(&'static [u8; 32]),
    /// An upload of a shard that lists `TWICE` as the first chunk, `ONCE` as the second, `TWICE` as both, and the xorb.
    WholeShard,
    /// An upload of bytes that aren't a shard's.
    TornShard,
    /// An upload of a shard's bytes.
    ShardBytes(&'static [u8]),
    /// A query for a chunk at a moment.
    Dedup(&'static [u8; 32], u64),
    Info(&'static [u8; 32]),
    Size(&'static [u8; 32]),
    Data(&'static [u8; 32], Option<(u64, u64)>),
    Plan(&'static [u8; 32], Option<(u64, u64)>),
    Exists(&'static [u8; 32]),
    Xorbs,
    Chunks(&'static [u8; 32]),
    RawLength(&'static [u8; 32]),
    RawBytes(&'static [u8; 32], Option<(u64, u64)>),
    Length(&'static [u8; 32]),
    Full(&'static [u8; 32]),
    Ranges(&'static [u8; 32], &'static [(u32, u32)]),
    Shards,
    Files,
    ShardText(&'static [u8; 32]),
    DropDedup(&'static [u8; 32]),
    Integrity,
    Reachable,
    Readable,
    DeleteXorb(&'static [u8; 32]),
    DeleteShard(&'static [u8; 32]),
    Hide(&'static [u8; 32]),
    SetExpiration(u64),
    /// The terms' bytes of a file's plan without links.
    Terms(&'static [u8; 32], Option<(u64, u64)>),
    SetMaxRanges(usize),
    MaxRanges,
    SetDedupExpiration(Option<u64>),
    Expiration,
}

/// What a call answered.
#[derive(Drop)]
enum Got {
    Done,
    Nothing,
    Number(u64),
    Text(Bytes),
    Texts(Vec<Bytes>),
}

/// What a call is to answer.
#[derive(Clone, Copy)]
enum Want {
    Done,
    Nothing,
    Number(u64),
    Text(&'static [u8]),
    Texts(&'static [&'static [u8]]),
    NoFile,
    NoXorb,
    BadXorb,
    BadShard,
    BadSegment,
    BadRange,
    Other,
}

fn range_of(range: Option<(u64, u64)>) -> Option<FileRange> {
    match range {
        Some((start, end)) => Some(FileRange::new(start, end)),
        None => None,
    }
}

/// A file of one segment, or of none.
fn file_of(
    alloc: Global,
    file: &[u8; 32],
    listed: Option<Segment>,
) -> Result<FileListing, OutOfMemory> {
    let file_hash = MerkleHash::from_bytes(*file);
    match listed {
        Some(segment) => Ok(FileListing {
            file_hash,
            segments: Vec::from_array(alloc, [segment])?,
        }),
        None => Ok(FileListing {
            file_hash,
            segments: Vec::new(alloc),
        }),
    }
}

/// The text of a shard that lists one file.
fn shard_of(alloc: Global, file: FileListing) -> Result<Bytes, OutOfMemory> {
    let shard = Shard {
        expiry: 7,
        files: Vec::from_array(alloc, [file])?,
        xorbs: Vec::new(alloc),
    };
    write_shard(alloc, &shard)
}

/// The text of a shard of three listings, the last of a file that is listed before, and of the xorb with its chunks.
fn whole_shard(alloc: Global) -> Result<Bytes, OutOfMemory> {
    let first = file_of(alloc, TWICE, Some(segment(0, 1, 3)))?;
    let other = file_of(alloc, ONCE, Some(segment(1, 2, 5)))?;
    let again = file_of(alloc, TWICE, Some(segment(0, 2, 8)))?;
    let xorb = XorbListing {
        xorb_hash: MerkleHash::from_bytes(*NAME),
        num_bytes: 8,
        chunks: Vec::from_array(alloc, [chunk(b"abc", 0, 3), chunk(b"defgh", 3, 5)])?,
    };
    let shard = Shard {
        expiry: 7,
        files: Vec::from_array(alloc, [first, other, again])?,
        xorbs: Vec::from_array(alloc, [xorb])?,
    };
    write_shard(alloc, &shard)
}

fn chunk(content: &[u8], start: u32, length: u32) -> ChunkListing {
    ChunkListing {
        chunk_hash: compute_data_hash(content),
        chunk_byte_range_start: start,
        unpacked_segment_bytes: length,
        flags: 0,
        spare: 0,
    }
}

/// The only segment of a file, chunks of the xorb.
fn segment(start: u32, end: u32, length: u32) -> Segment {
    Segment {
        xorb_hash: MerkleHash::from_bytes(*NAME),
        xorb_flags: 0,
        chunk_index_start: start,
        chunk_index_end: end,
        unpacked_segment_bytes: length,
    }
}

fn upload_xorb<K: Store>(
    store: &mut K,
    alloc: Global,
    hash: &[u8; 32],
    content: &'static [u8],
) -> Result<Got, ClientError> {
    let object = SerializedXorbObject {
        hash: MerkleHash::from_bytes(*hash),
        serialized_data: Bytes::from_static(content),
        raw_num_bytes: 0,
        num_chunks: 0,
        footer_start: None,
    };
    let length = store.upload_xorb(alloc, "default", object)?;
    Ok(Got::Number(length))
}

fn upload_shard<K: Store>(
    store: &mut K,
    alloc: Global,
    content: Bytes,
) -> Result<Got, ClientError> {
    let taken = store.upload_shard(alloc, content)?;
    Ok(Got::Number(u64::from(taken)))
}

fn list<K: Store>(
    store: &mut K,
    alloc: Global,
    file: &[u8; 32],
    listed: Option<Segment>,
) -> Result<Got, ClientError> {
    let file = file_of(alloc, file, listed)?;
    let content = shard_of(alloc, file)?;
    upload_shard(store, alloc, content)
}

/// The name of the shard that lists the file.
fn info<K: Store>(store: &mut K, alloc: Global, file: &[u8; 32]) -> Result<Got, ClientError> {
    let file = MerkleHash::from_bytes(*file);
    let found = store.get_file_reconstruction_info(alloc, &file)?;
    let Some(pair) = &found else {
        return Ok(Got::Nothing);
    };
    match &pair.1 {
        Some(name) => {
            let text = Bytes::copy_from_slice(alloc, name.as_slice())?;
            Ok(Got::Text(text))
        }
        None => Ok(Got::Done),
    }
}

fn size<K: Store>(store: &mut K, alloc: Global, file: &[u8; 32]) -> Result<Got, ClientError> {
    let size = store.get_file_size(alloc, &MerkleHash::from_bytes(*file))?;
    Ok(Got::Number(size))
}

fn data<K: Store>(
    store: &mut K,
    alloc: Global,
    file: &[u8; 32],
    range: Option<FileRange>,
) -> Result<Got, ClientError> {
    let bytes = store.get_file_data(alloc, &MerkleHash::from_bytes(*file), range)?;
    Ok(Got::Text(bytes))
}

/// The text of the plan's first link, at the moment 7.
fn plan<K: Store>(
    store: &mut K,
    alloc: Global,
    file: &[u8; 32],
    range: Option<FileRange>,
) -> Result<Got, ClientError> {
    let file = MerkleHash::from_bytes(*file);
    let Some(plan) = store.get_reconstruction_v1(alloc, &file, range, 7)? else {
        return Ok(Got::Nothing);
    };
    for (hash, links) in plan.fetch_info {
        for link in links {
            return Ok(Got::Text(Bytes::from_string(link.url)?));
        }
    }
    Ok(Got::Done)
}

/// How many bytes the terms of the plan have together.
fn terms<K: Store>(
    store: &mut K,
    alloc: Global,
    file: &[u8; 32],
    range: Option<FileRange>,
) -> Result<Got, ClientError> {
    let Some(plan) = store.plan_file(alloc, &MerkleHash::from_bytes(*file), range)? else {
        return Ok(Got::Nothing);
    };
    let mut bytes = 0u64;
    for term in &plan.terms {
        bytes = bytes.saturating_add(u64::from(term.unpacked_length));
    }
    Ok(Got::Number(bytes))
}

fn exists<K: Store>(store: &mut K, alloc: Global, hash: &[u8; 32]) -> Result<Got, ClientError> {
    let there = store.xorb_exists(alloc, &MerkleHash::from_bytes(*hash))?;
    Ok(Got::Number(u64::from(there)))
}

/// The first hash that is listed.
fn xorbs<K: Store>(store: &mut K, alloc: Global) -> Result<Got, ClientError> {
    let hashes = store.list_xorbs(alloc)?;
    match hashes.first() {
        Some(hash) => Ok(Got::Text(Bytes::copy_from_slice(alloc, hash.as_slice())?)),
        None => Ok(Got::Nothing),
    }
}

fn chunks<K: Store>(store: &mut K, alloc: Global, hash: &[u8; 32]) -> Result<Got, ClientError> {
    let object = store.xorb_footer(alloc, &MerkleHash::from_bytes(*hash))?;
    Ok(Got::Number(u64::from(object.num_chunks())))
}

fn raw_length<K: Store>(store: &mut K, alloc: Global, hash: &[u8; 32]) -> Result<Got, ClientError> {
    let length = store.xorb_raw_length(alloc, &MerkleHash::from_bytes(*hash))?;
    Ok(Got::Number(length))
}

fn raw_bytes<K: Store>(
    store: &mut K,
    alloc: Global,
    hash: &[u8; 32],
    range: Option<FileRange>,
) -> Result<Got, ClientError> {
    let bytes = store.get_xorb_raw_bytes(alloc, &MerkleHash::from_bytes(*hash), range)?;
    Ok(Got::Text(bytes))
}

/// The answer to a query for a chunk.
fn dedup<K: Store>(
    store: &mut K,
    alloc: Global,
    chunk: &[u8; 32],
    at: u64,
) -> Result<Got, ClientError> {
    let chunk = MerkleHash::from_bytes(*chunk);
    match store.query_for_global_dedup_shard(alloc, "default", &chunk, at)? {
        Some(text) => Ok(Got::Text(text)),
        None => Ok(Got::Nothing),
    }
}

fn length<K: Store>(store: &mut K, alloc: Global, hash: &[u8; 32]) -> Result<Got, ClientError> {
    let length = store.xorb_length(alloc, &MerkleHash::from_bytes(*hash))?;
    Ok(Got::Number(u64::from(length)))
}

fn full<K: Store>(store: &mut K, alloc: Global, hash: &[u8; 32]) -> Result<Got, ClientError> {
    let bytes = store.get_full_xorb(alloc, &MerkleHash::from_bytes(*hash))?;
    Ok(Got::Text(bytes))
}

fn ranges<K: Store>(
    store: &mut K,
    alloc: Global,
    hash: &[u8; 32],
    ranges: &[(u32, u32)],
) -> Result<Got, ClientError> {
    let ranges = Vec::from_slice(alloc, ranges)?;
    let texts = store.get_xorb_ranges(alloc, &MerkleHash::from_bytes(*hash), ranges)?;
    Ok(Got::Texts(texts))
}

/// Hashes as texts.
fn texts_of(alloc: Global, hashes: &[MerkleHash]) -> Result<Got, ClientError> {
    let mut texts = Vec::new(alloc);
    for hash in hashes {
        texts.push(Bytes::copy_from_slice(alloc, hash.as_slice())?)?;
    }
    Ok(Got::Texts(texts))
}

fn shards<K: Store>(store: &mut K, alloc: Global) -> Result<Got, ClientError> {
    let names = store.list_shard_entries(alloc)?;
    texts_of(alloc, &names)
}

/// The files and the shards that list them, one behind the other.
fn files<K: Store>(store: &mut K, alloc: Global) -> Result<Got, ClientError> {
    let entries = store.list_file_shard_entries(alloc)?;
    let mut hashes = Vec::new(alloc);
    for (file, shard) in entries {
        hashes.push(file)?;
        hashes.push(shard)?;
    }
    texts_of(alloc, &hashes)
}

fn shard_text<K: Store>(store: &mut K, alloc: Global, name: &[u8; 32]) -> Result<Got, ClientError> {
    let text = store.get_shard_bytes(alloc, &MerkleHash::from_bytes(*name))?;
    Ok(Got::Text(text))
}

fn drop_dedup<K: Store>(store: &mut K, alloc: Global, name: &[u8; 32]) -> Result<Got, ClientError> {
    store.remove_shard_dedup_entries(alloc, &MerkleHash::from_bytes(*name))?;
    Ok(Got::Done)
}

fn integrity<K: Store>(store: &mut K, alloc: Global) -> Result<Got, ClientError> {
    store.verify_integrity(alloc)?;
    Ok(Got::Done)
}

fn reachable<K: Store>(store: &mut K, alloc: Global) -> Result<Got, ClientError> {
    store.verify_all_reachable(alloc)?;
    Ok(Got::Done)
}

fn readable<K: Store>(store: &mut K, alloc: Global) -> Result<Got, ClientError> {
    store.verify_readable(alloc)?;
    Ok(Got::Done)
}

fn delete_xorb<K: Store>(
    store: &mut K,
    alloc: Global,
    hash: &[u8; 32],
) -> Result<Got, ClientError> {
    store.delete_xorb(alloc, &MerkleHash::from_bytes(*hash))?;
    Ok(Got::Done)
}

fn delete_shard<K: Store>(
    store: &mut K,
    alloc: Global,
    name: &[u8; 32],
) -> Result<Got, ClientError> {
    store.delete_shard_entry(alloc, &MerkleHash::from_bytes(*name))?;
    Ok(Got::Done)
}

fn hide<K: Store>(store: &mut K, alloc: Global, file: &[u8; 32]) -> Result<Got, ClientError> {
    store.delete_file_entry(alloc, &MerkleHash::from_bytes(*file))?;
    Ok(Got::Done)
}

fn set_expiration<K: Store>(store: &mut K, millis: u64) -> Result<Got, ClientError> {
    store.set_fetch_term_url_expiration(millis)?;
    Ok(Got::Done)
}

fn set_max_ranges<K: Store>(store: &mut K, max: usize) -> Result<Got, ClientError> {
    store.set_max_ranges_per_fetch(max)?;
    Ok(Got::Done)
}

fn set_dedup_expiration<K: Store>(store: &mut K, millis: Option<u64>) -> Result<Got, ClientError> {
    store.set_global_dedup_shard_expiration(millis)?;
    Ok(Got::Done)
}

/// What a store answers to a call.
fn answer<K: Store>(store: &mut K, alloc: Global, call: &Call) -> Result<Got, ClientError> {
    match call {
        Call::Xorb(hash, content) => upload_xorb(store, alloc, hash, content),
        Call::Shard(file, start, end, length) => {
            list(store, alloc, file, Some(segment(*start, *end, *length)))
        }
        Call::EmptyFile(file) => list(store, alloc, file, None),
        Call::WholeShard => upload_shard(store, alloc, whole_shard(alloc)?),
        Call::TornShard => upload_shard(store, alloc, Bytes::from_static(TORN)),
        Call::ShardBytes(content) => upload_shard(store, alloc, Bytes::from_static(content)),
        Call::Dedup(chunk, at) => dedup(store, alloc, chunk, *at),
        Call::Info(file) => info(store, alloc, file),
        Call::Size(file) => size(store, alloc, file),
        Call::Data(file, range) => data(store, alloc, file, range_of(*range)),
        Call::Plan(file, range) => plan(store, alloc, file, range_of(*range)),
        Call::Exists(hash) => exists(store, alloc, hash),
        Call::Xorbs => xorbs(store, alloc),
        Call::Chunks(hash) => chunks(store, alloc, hash),
        Call::RawLength(hash) => raw_length(store, alloc, hash),
        Call::RawBytes(hash, range) => raw_bytes(store, alloc, hash, range_of(*range)),
        Call::Length(hash) => length(store, alloc, hash),
        Call::Full(hash) => full(store, alloc, hash),
        Call::Ranges(hash, chunks) => ranges(store, alloc, hash, chunks),
        Call::Shards => shards(store, alloc),
        Call::Files => files(store, alloc),
        Call::ShardText(name) => shard_text(store, alloc, name),
        Call::DropDedup(name) => drop_dedup(store, alloc, name),
        Call::Integrity => integrity(store, alloc),
        Call::Reachable => reachable(store, alloc),
        Call::Readable => readable(store, alloc),
        Call::DeleteXorb(hash) => delete_xorb(store, alloc, hash),
        Call::DeleteShard(name) => delete_shard(store, alloc, name),
        Call::Hide(file) => hide(store, alloc, file),
        Call::SetExpiration(millis) => set_expiration(store, *millis),
        Call::Terms(file, range) => terms(store, alloc, file, range_of(*range)),
        Call::SetMaxRanges(max) => set_max_ranges(store, *max),
        Call::MaxRanges => Ok(Got::Number(store.max_ranges_per_fetch() as u64)),
        Call::SetDedupExpiration(millis) => set_dedup_expiration(store, *millis),
        Call::Expiration => Ok(Got::Number(store.fetch_term_url_expiration())),
    }
}

/// Whether these are the wanted texts.
fn are_texts(got: &[Bytes], want: &[&[u8]]) -> bool {
    let mut same = got.len() == want.len();
    for (got, want) in got.iter().zip(want) {
        same = same && got.as_slice() == *want;
    }
    same
}

fn is_wanted(got: &Got, want: &Want) -> bool {
    match (got, want) {
        (Got::Done, Want::Done) => true,
        (Got::Nothing, Want::Nothing) => true,
        (Got::Number(got), Want::Number(want)) => got == want,
        (Got::Text(got), Want::Text(want)) => got.as_slice() == *want,
        (Got::Texts(got), Want::Texts(want)) => are_texts(got.as_slice(), want),
        _ => false,
    }
}

fn is_wanted_refusal(error: &ClientError, want: &Want) -> bool {
    match error {
        ClientError::FileNotFound(_) => matches!(want, Want::NoFile),
        ClientError::XORBNotFound(_) => matches!(want, Want::NoXorb),
        ClientError::FormatError(FormatFault::Xorb) => matches!(want, Want::BadXorb),
        ClientError::FormatError(FormatFault::Shard) => matches!(want, Want::BadShard),
        ClientError::FormatError(FormatFault::Segment) => matches!(want, Want::BadSegment),
        ClientError::InvalidRange => matches!(want, Want::BadRange),
        ClientError::Other(_) => matches!(want, Want::Other),
        _ => false,
    }
}

/// Whether the call answers what it is to, asked once more where memory was wanting.
fn is_right<K: Store>(store: &mut K, alloc: Global, call: &Call, want: &Want) -> bool {
    let answered = match answer(store, alloc, call) {
        Err(ClientError::OutOfMemory) => answer(store, alloc, call),
        answered => answered,
    };
    match answered {
        Ok(got) => is_wanted(&got, want),
        Err(error) => is_wanted_refusal(&error, want),
    }
}

/// Calls, in order, and what each is to answer.
const ROWS: &[(Call, Want)] = &[
    (Call::Expiration, Want::Number(18_446_744_073_709_551_615)),
    (Call::SetExpiration(5), Want::Done),
    (Call::Expiration, Want::Number(5)),
    (Call::MaxRanges, Want::Number(18_446_744_073_709_551_615)),
    (Call::SetMaxRanges(3), Want::Done),
    (Call::MaxRanges, Want::Number(3)),
    (Call::Xorbs, Want::Nothing),
    (Call::Xorb(OTHER, TORN), Want::BadXorb),
    (Call::Xorb(OTHER, XORB), Want::Other),
    (Call::Xorb(OTHER, FOOTED), Want::Other),
    (Call::Xorb(OTHER, FALSE_END), Want::BadXorb),
    (Call::Xorb(NAME, FALSE_END), Want::BadXorb),
    (Call::Exists(OTHER), Want::Number(0)),
    (Call::Xorb(NAME, XORB), Want::Number(152)),
    (Call::Xorb(NAME, TORN), Want::Number(0)),
    (Call::Exists(NAME), Want::Number(1)),
    (Call::Xorbs, Want::Text(NAME)),
    (Call::Chunks(NAME), Want::Number(2)),
    (Call::Chunks(OTHER), Want::NoXorb),
    (Call::RawLength(NAME), Want::Number(152)),
    (Call::RawLength(OTHER), Want::NoXorb),
    (Call::RawBytes(NAME, Some((0, 24))), Want::Text(XORB)),
    (Call::RawBytes(NAME, Some((132, 999))), Want::Text(XORB_END)),
    (Call::RawBytes(NAME, Some((9, 9))), Want::Text(b"")),
    (Call::RawBytes(NAME, Some((9, 8))), Want::BadRange),
    (Call::RawBytes(NAME, Some((152, 153))), Want::BadRange),
    (Call::RawBytes(OTHER, None), Want::NoXorb),
    (Call::DeleteXorb(NAME), Want::Done),
    (Call::Xorb(NAME, FOOTED), Want::Number(152)),
    (Call::RawBytes(NAME, None), Want::Text(FOOTED)),
    (Call::TornShard, Want::BadShard),
    (Call::Dedup(ONE_CHUNK, 10_000), Want::Nothing),
    (Call::Size(FILE), Want::NoFile),
    (Call::Data(FILE, None), Want::NoFile),
    (Call::Plan(FILE, None), Want::Nothing),
    (Call::Info(FILE), Want::Nothing),
    (Call::EmptyFile(EMPTY), Want::Number(1)),
    (Call::Size(EMPTY), Want::Number(0)),
    (Call::Data(EMPTY, Some((0, 0))), Want::BadRange),
    (Call::Data(EMPTY, None), Want::Text(b"")),
    (Call::Plan(EMPTY, None), Want::Done),
    (Call::Shard(FILE, 0, 1, 3), Want::Number(1)),
    (Call::Shard(FILE, 1, 2, 5), Want::Number(1)),
    (Call::Info(FILE), Want::Text(SECOND)),
    (Call::Data(FILE, None), Want::Text(b"defgh")),
    (Call::Data(FILE, Some((1, 99))), Want::Text(b"efgh")),
    (Call::Data(FILE, Some((2, 2))), Want::Text(b"")),
    (Call::Data(FILE, Some((2, 1))), Want::BadRange),
    (Call::Data(FILE, Some((5, 6))), Want::BadRange),
    (
        Call::Plan(FILE, None),
        Want::Text(b"911ad105ed394fd10f7b88f673c975a460fce4b4446b75761bfd52bbbc0a3a75:11:24:7"),
    ),
    (Call::Plan(FILE, Some((5, 6))), Want::Nothing),
    (Call::Plan(FILE, Some((2, 2))), Want::BadRange),
    (Call::Terms(FILE, None), Want::Number(5)),
    (Call::Terms(FILE, Some((2, 3))), Want::Number(5)),
    (Call::Terms(FILE, Some((5, 6))), Want::Nothing),
    (Call::Terms(FILE, Some((2, 2))), Want::BadRange),
    (Call::Terms(OTHER, None), Want::Nothing),
    (Call::DeleteShard(SECOND), Want::Done),
    (Call::DeleteShard(SECOND), Want::Other),
    (Call::Info(FILE), Want::Text(FIRST)),
    (Call::Data(FILE, None), Want::Text(b"abc")),
    (Call::Hide(FILE), Want::Done),
    (Call::Hide(FILE), Want::Done),
    (Call::Size(FILE), Want::NoFile),
    (Call::Plan(FILE, None), Want::Nothing),
    (Call::Shard(FILE, 1, 2, 5), Want::Number(1)),
    (Call::Size(FILE), Want::Number(5)),
    (Call::Shard(FILE, 0, 1, 3), Want::Number(1)),
    (Call::Info(FILE), Want::Text(FIRST)),
    (Call::Shard(TORN_FILE, 0, 2, 7), Want::Number(1)),
    (Call::Data(TORN_FILE, None), Want::BadSegment),
    (Call::Plan(TORN_FILE, None), Want::BadSegment),
    (Call::Hide(ONCE), Want::Done),
    (Call::WholeShard, Want::Number(1)),
    (Call::Info(TWICE), Want::Text(WHOLE)),
    (Call::Info(ONCE), Want::Text(WHOLE)),
    (Call::Data(TWICE, None), Want::Text(b"abcdefgh")),
    (Call::Data(ONCE, None), Want::Text(b"defgh")),
    (Call::WholeShard, Want::Number(1)),
    (Call::DeleteShard(WHOLE), Want::Done),
    (Call::Size(TWICE), Want::NoFile),
    (Call::DeleteXorb(NAME), Want::Done),
    (Call::DeleteXorb(NAME), Want::Done),
    (Call::Exists(NAME), Want::Number(0)),
    (Call::Data(FILE, None), Want::NoXorb),
    (Call::Plan(FILE, None), Want::NoXorb),
    (Call::Length(ONE_NAME), Want::NoXorb),
    (Call::Full(ONE_NAME), Want::NoXorb),
    (Call::Ranges(ONE_NAME, &[]), Want::Texts(&[b""])),
    (Call::Ranges(ONE_NAME, &[(1, 0)]), Want::NoXorb),
    (Call::Xorb(ONE_NAME, ONE_XORB), Want::Number(99)),
    (Call::Length(ONE_NAME), Want::Number(3)),
    (Call::Full(ONE_NAME), Want::Text(b"abc")),
    (Call::Ranges(ONE_NAME, &[]), Want::Texts(&[b""])),
    (Call::Ranges(ONE_NAME, &[(0, 1)]), Want::Texts(&[b"abc"])),
    (Call::Ranges(ONE_NAME, &[(1, 0)]), Want::Texts(&[b""])),
    (Call::Ranges(ONE_NAME, &[(0, 2)]), Want::BadRange),
    (Call::Ranges(ONE_NAME, &[(0, 1), (1, 2)]), Want::BadRange),
    (
        Call::Ranges(ONE_NAME, &[(9, 9), (0, 1), (9, 0), (0, 1)]),
        Want::Texts(&[b"", b"abc", b"", b"abc"]),
    ),
    (Call::Xorb(NAME, XORB), Want::Number(152)),
    (Call::Length(NAME), Want::Number(8)),
    (Call::Full(NAME), Want::Text(b"abcdefgh")),
    (
        Call::Ranges(NAME, &[(0, 2), (1, 2)]),
        Want::Texts(&[b"abcdefgh", b"defgh"]),
    ),
    (Call::ShardBytes(ONE_SHARD), Want::Number(1)),
    (Call::Dedup(ONE_CHUNK, 10_000), Want::Text(ONE_CANONICAL)),
    (Call::Dedup(OTHER, 10_000), Want::Nothing),
    (Call::SetDedupExpiration(Some(1500)), Want::Done),
    (Call::Dedup(ONE_CHUNK, 10_000), Want::Text(ONE_EXPIRING)),
    (Call::Dedup(ONE_CHUNK, 10_999), Want::Text(ONE_EXPIRING)),
    (Call::SetDedupExpiration(Some(1)), Want::Done),
    (Call::Dedup(ONE_CHUNK, 11_000), Want::Text(ONE_EXPIRING)),
    (Call::SetDedupExpiration(Some(2000)), Want::Done),
    (Call::Dedup(ONE_CHUNK, 10_000), Want::Text(ONE_EXPIRING)),
    (Call::SetDedupExpiration(Some(0)), Want::Done),
    (Call::Dedup(ONE_CHUNK, 10_000), Want::Text(ONE_CANONICAL)),
    (Call::SetDedupExpiration(Some(5)), Want::Done),
    (Call::SetDedupExpiration(None), Want::Done),
    (Call::Dedup(ONE_CHUNK, 10_000), Want::Text(ONE_CANONICAL)),
    (Call::DeleteShard(ONE_SHARD_NAME), Want::Done),
    (Call::Dedup(ONE_CHUNK, 10_000), Want::Nothing),
    (Call::ShardBytes(ONE_SHARD), Want::Number(1)),
    (Call::Dedup(ONE_CHUNK, 10_000), Want::Text(ONE_CANONICAL)),
];

/// Calls of the lists and the checks, in order, and what each is to answer.
const LISTED: &[(Call, Want)] = &[
    (Call::Shards, Want::Texts(&[])),
    (Call::Files, Want::Texts(&[])),
    (Call::Integrity, Want::Done),
    (Call::Reachable, Want::Done),
    (Call::Readable, Want::Done),
    (Call::Xorb(NAME, XORB), Want::Number(152)),
    (Call::Reachable, Want::Other),
    (Call::Shard(FILE, 0, 1, 3), Want::Number(1)),
    (Call::Shards, Want::Texts(&[FIRST])),
    (Call::Files, Want::Texts(&[FILE, FIRST])),
    (Call::Integrity, Want::Done),
    (Call::Reachable, Want::Done),
    (Call::Readable, Want::Done),
    (Call::Shard(TORN_FILE, 0, 1, 4), Want::Number(1)),
    (Call::Integrity, Want::Done),
    (Call::Reachable, Want::Done),
    (Call::Readable, Want::Other),
    (Call::Hide(TORN_FILE), Want::Done),
    (Call::Readable, Want::Done),
    (Call::Reachable, Want::Other),
    (Call::Shard(TORN_FILE, 0, 3, 8), Want::Number(1)),
    (Call::Integrity, Want::Done),
    (Call::Readable, Want::Other),
    (Call::Shard(TORN_FILE, 0, 2, 0), Want::Number(1)),
    (Call::Readable, Want::Done),
    (Call::Shard(FILE, 1, 2, 5), Want::Number(1)),
    (Call::DeleteXorb(NAME), Want::Done),
    (Call::Integrity, Want::Other),
    (Call::Reachable, Want::Done),
    (Call::Readable, Want::Other),
    (Call::Xorb(NAME, XORB), Want::Number(152)),
    (Call::Integrity, Want::Done),
    (Call::ShardBytes(ONE_SHARD), Want::Number(1)),
    (Call::Integrity, Want::Other),
    (Call::Xorb(ONE_NAME, ONE_XORB), Want::Number(99)),
    (Call::Integrity, Want::Done),
    (Call::Reachable, Want::Done),
    (Call::ShardText(ONE_SHARD_NAME), Want::Text(ONE_CANONICAL)),
    (Call::ShardText(OTHER), Want::Other),
    (Call::Dedup(ONE_CHUNK, 0), Want::Text(ONE_CANONICAL)),
    (Call::DropDedup(OTHER), Want::Done),
    (Call::Dedup(ONE_CHUNK, 0), Want::Text(ONE_CANONICAL)),
    (Call::DropDedup(ONE_SHARD_NAME), Want::Done),
    (Call::Dedup(ONE_CHUNK, 0), Want::Nothing),
    (Call::DropDedup(ONE_SHARD_NAME), Want::Done),
    (Call::ShardText(ONE_SHARD_NAME), Want::Text(ONE_CANONICAL)),
    (Call::DeleteShard(ONE_SHARD_NAME), Want::Done),
    (Call::ShardText(ONE_SHARD_NAME), Want::Other),
    (Call::Reachable, Want::Other),
];

/// Calls a store for each row, in order.
fn every_call<K: Store>(rt: &impl Abort, alloc: Global, store: &mut K, rows: &[(Call, Want)]) {
    for (call, want) in rows {
        assert!(rt; is_right(store, alloc, call, want));
    }
}

#[test]
fn in_memory(rt: HostRuntime) -> Result<(), Fail> {
    let alloc = rt.alloc();
    let mut store = MemoryClient::new(alloc);
    every_call(&rt, alloc, &mut store, ROWS);
    Ok(())
}

#[test]
fn lists_and_checks_in_memory(rt: HostRuntime) -> Result<(), Fail> {
    let alloc = rt.alloc();
    let mut store = MemoryClient::new(alloc);
    every_call(&rt, alloc, &mut store, LISTED);
    Ok(())
}
