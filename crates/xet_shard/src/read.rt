//! Reading a shard from its bytes.
ghost use Rattle.std.specs.Prelude.{◌≡◌, ◌<◌, ◌≤◌, IfOk, length};
ghost use Rattle.xet_bytes.specs.Reading.{Gives, times_at, whole_of};
ghost use Rattle.xet_shard.specs.ShardBytes.{ReadsShard};
ghost use Rattle.xet_shard.specs.ShardReading.{segment_at, listing_at, chunk_at, listed_xorb_at, shard_at, GivesWhole};

use crate::listing::{ChunkListing, FileListing, Segment, Shard, XorbListing};
use std::alloc::Global;
use xet_bytes::{Cursor, ReadError};
use xet_types::{ClientError, FormatFault};

// How many bytes an entry of each list takes at the least.
const SEGMENT_LEN: usize = 48;

const FILE_LEN: usize = 36;

const CHUNK_LEN: usize = 48;

const XORB_LEN: usize = 40;

/// How many entries to reserve room for: as many as are claimed, where the bytes that are left may hold them.
fn room(count: u32, cursor: &Cursor<'_>, entry_len: usize) -> usize
    requires { 0 < entry_len }
    ensures { result ≤ length cursor.now }
{
    (count as usize).min(cursor.len() / entry_len)
}

#[tactic(auto, unfolding(crate::specs::ShardReading::segment_at))]
fn segment(cursor: &mut Cursor<'_>) -> Result<Segment, ReadError>
    ensures { Gives (λ x. x) result cursor.new (segment_at cursor.old) }
{
    let xorb_hash = cursor.hash()?;
    let xorb_flags = cursor.u32()?;
    let chunk_index_start = cursor.u32()?;
    let chunk_index_end = cursor.u32()?;
    let unpacked_segment_bytes = cursor.u32()?;
    Ok(Segment {
        xorb_hash,
        xorb_flags,
        chunk_index_start,
        chunk_index_end,
        unpacked_segment_bytes,
    })
}

fn segments(alloc: Global, count: u32, cursor: &mut Cursor<'_>) -> Result<Vec<Segment>, ReadError>
    ensures value { Gives (λ v. v.items) result cursor.new (times_at count segment_at cursor.old) }
    ensures count { IfOk result (λ v. length v.items ≡ count) }
{
    let mut segments = Vec::with_capacity(alloc, room(count, cursor, SEGMENT_LEN))?;
    for _ in 0..count {
        segments.push(segment(cursor)?)?;
    }
    Ok(segments)
}

#[tactic(auto, unfolding(crate::specs::ShardReading::listing_at))]
fn file(alloc: Global, cursor: &mut Cursor<'_>) -> Result<FileListing, ReadError>
    ensures { Gives (λ x. x) result cursor.new (listing_at cursor.old) }
{
    let file_hash = cursor.hash()?;
    let count = cursor.u32()?;
    let segments = segments(alloc, count, cursor)?;
    Ok(FileListing {
        file_hash,
        segments,
    })
}

fn files(alloc: Global, count: u32, cursor: &mut Cursor<'_>) -> Result<Vec<FileListing>, ReadError>
    ensures value { Gives (λ v. v.items) result cursor.new (times_at count listing_at cursor.old) }
    ensures count { IfOk result (λ v. length v.items ≡ count) }
{
    let mut files = Vec::with_capacity(alloc, room(count, cursor, FILE_LEN))?;
    for _ in 0..count {
        files.push(file(alloc, cursor)?)?;
    }
    Ok(files)
}

#[tactic(auto, unfolding(crate::specs::ShardReading::chunk_at))]
fn chunk(cursor: &mut Cursor<'_>) -> Result<ChunkListing, ReadError>
    ensures { Gives (λ x. x) result cursor.new (chunk_at cursor.old) }
{
    let chunk_hash = cursor.hash()?;
    let chunk_byte_range_start = cursor.u32()?;
    let unpacked_segment_bytes = cursor.u32()?;
    let flags = cursor.u32()?;
    let spare = cursor.u32()?;
    Ok(ChunkListing {
        chunk_hash,
        chunk_byte_range_start,
        unpacked_segment_bytes,
        flags,
        spare,
    })
}

fn chunks(
    alloc: Global,
    count: u32,
    cursor: &mut Cursor<'_>,
) -> Result<Vec<ChunkListing>, ReadError>
    ensures value { Gives (λ v. v.items) result cursor.new (times_at count chunk_at cursor.old) }
    ensures count { IfOk result (λ v. length v.items ≡ count) }
{
    let mut chunks = Vec::with_capacity(alloc, room(count, cursor, CHUNK_LEN))?;
    for _ in 0..count {
        chunks.push(chunk(cursor)?)?;
    }
    Ok(chunks)
}

#[tactic(auto, unfolding(crate::specs::ShardReading::listed_xorb_at))]
fn xorb(alloc: Global, cursor: &mut Cursor<'_>) -> Result<XorbListing, ReadError>
    ensures { Gives (λ x. x) result cursor.new (listed_xorb_at cursor.old) }
{
    let xorb_hash = cursor.hash()?;
    let num_bytes = cursor.u32()?;
    let count = cursor.u32()?;
    let chunks = chunks(alloc, count, cursor)?;
    Ok(XorbListing {
        xorb_hash,
        num_bytes,
        chunks,
    })
}

fn xorbs(alloc: Global, count: u32, cursor: &mut Cursor<'_>) -> Result<Vec<XorbListing>, ReadError>
    ensures value { Gives (λ v. v.items) result cursor.new (times_at count listed_xorb_at cursor.old) }
    ensures count { IfOk result (λ v. length v.items ≡ count) }
{
    let mut xorbs = Vec::with_capacity(alloc, room(count, cursor, XORB_LEN))?;
    for _ in 0..count {
        xorbs.push(xorb(alloc, cursor)?)?;
    }
    Ok(xorbs)
}

#[tactic(auto, unfolding(crate::specs::ShardReading::shard_at))]
fn shard(alloc: Global, cursor: &mut Cursor<'_>) -> Result<Shard, ReadError>
    ensures { Gives (λ x. x) result cursor.new (shard_at cursor.old) }
{
    cursor.literal(b"XETSHRD1")?;
    let expiry = cursor.u64()?;
    let count = cursor.u32()?;
    let files = files(alloc, count, cursor)?;
    let count = cursor.u32()?;
    let xorbs = xorbs(alloc, count, cursor)?;
    Ok(Shard {
        expiry,
        files,
        xorbs,
    })
}

/// The shard, and nothing behind it.
fn whole(alloc: Global, content: &[u8]) -> Result<Shard, ReadError>
    ensures { GivesWhole result (whole_of shard_at content.now) }
{
    let mut cursor = Cursor::new(content);
    let shard = shard(alloc, &mut cursor)?;
    cursor.end()?;
    Ok(shard)
}

/// The shard whose text the bytes are, all of them, with any number of files and xorbs, none too.
///
/// Other bytes are refused with `FormatError(Shard)`. What is read takes room in proportion to the bytes that are
/// there, whatever the counts in them claim.
pub fn read_shard(alloc: Global, content: &[u8]) -> Result<Shard, ClientError>
    ensures { ReadsShard content.now result }
{
    match whole(alloc, content) {
        Ok(shard) => Ok(shard),
        Err(ReadError::Malformed) => Err(ClientError::FormatError(FormatFault::Shard)),
        Err(ReadError::Memory) => Err(ClientError::OutOfMemory),
    }
}
