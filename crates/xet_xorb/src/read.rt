//! Reading a xorb's bytes.
ghost use Rattle.std.specs.Prelude.{◌≡◌, drop, IfErr};
ghost use Rattle.xet_bytes.specs.declared.cursor.ReadError.TheVariants.{Malformed};
ghost use Rattle.xet_bytes.specs.Reading.{Gives};
ghost use Rattle.xet_xorb.specs.Steps.{header_at, ReadsHeader, TakesChunk, at_chunks_end, ReadsParts, ReadsWhole, TakesChunks};
ghost use Rattle.xet_xorb.specs.XorbBytes.{ReadsXorb, ReadsWholeChunks};

use crate::footer::read_footer;
use crate::object::XorbObject;
use bytes::Bytes;
use std::alloc::Global;
use xet_bytes::{Cursor, ReadError};
use xet_types::{ClientError, FormatFault, MerkleHash, compute_data_hash};

/// The length in bytes of a chunk's header.
pub(crate) const HEADER_LENGTH: usize = 8;

/// A xorb that was read.
#[derive(Debug, Drop)]
pub struct ReadXorb {
    /// The chunks, as slices of the bytes that were read.
    pub chunks: Vec<Bytes>,
    /// What is known of the xorb without its bytes.
    pub object: XorbObject,
    /// Whether the bytes had a footer.
    pub has_footer: bool,
}

/// The chunks of a xorb, with the hash and the length in bytes of each, and what is left behind them.
#[derive(Drop)]
struct Parts {
    chunks: Vec<Bytes>,
    hashes: Vec<MerkleHash>,
    lengths: Vec<u32>,
    rest: Bytes,
}

/// Reads a header: a version, the stored length, a scheme and the plain length, which are equal and above 0.
fn header(cursor: &mut Cursor<'_>) -> Result<u32, ReadError>
    ensures value { Gives (λ n. n) result cursor.new (header_at cursor.old) }
    ensures err { IfErr result (λ e. e ≡ Malformed) }
{
    cursor.literal(&[0])?;
    let stored = cursor.u24()?;
    cursor.literal(&[0])?;
    let plain = cursor.u24()?;
    if stored != plain || stored == 0 {
        return Err(ReadError::Malformed);
    }
    Ok(stored)
}

/// The length in bytes of the chunk whose header the bytes begin with.
pub(crate) fn chunk_length(content: &[u8]) -> Result<usize, ReadError>
    ensures value { ReadsHeader content.now result }
    ensures err { IfErr result (λ e. e ≡ Malformed) }
{
    let mut cursor = Cursor::new(content);
    let length = header(&mut cursor)?;
    Ok(length as usize)
}

/// Takes the chunk at the front with its header.
fn take_chunk(rest: &mut Bytes) -> Result<Bytes, ReadError>
    ensures { TakesChunk (λ x. x) rest.old result (λ x. rest.new) }
{
    let length = chunk_length(rest.as_slice())?;
    rest.advance(HEADER_LENGTH);
    if rest.len() < length {
        return Err(ReadError::Malformed);
    }
    let chunk = rest.split_to(length)?;
    Ok(chunk)
}

/// Whether no chunk comes next: nothing is left, or a byte stands there with which a footer begins.
fn at_chunks_end(rest: &[u8]) -> bool
    ensures { result ≡ at_chunks_end rest.now }
{
    match rest {
        [] => true,
        [byte, ..] => *byte == b'X',
    }
}

/// The chunks with which the bytes begin, in one pass. Room is taken only for chunks that were seen.
fn read_parts(alloc: Global, content: &Bytes) -> Result<Parts, ReadError>
    ensures { ReadsParts content.now result }
{
    let mut chunks = Vec::new(alloc);
    let mut hashes = Vec::new(alloc);
    let mut lengths = Vec::new(alloc);
    let mut serialized_length = 48u64;
    let mut rest = content.clone()?;
    while !at_chunks_end(rest.as_slice()) {
        let chunk = take_chunk(&mut rest)?;
        serialized_length += 48 + chunk.len() as u64;
        if serialized_length >= 1 << 32 {
            return Err(ReadError::Malformed);
        }
        hashes.push(compute_data_hash(chunk.as_slice()))?;
        lengths.push(chunk.len() as u32)?;
        chunks.push(chunk)?;
    }
    if chunks.is_empty() {
        return Err(ReadError::Malformed);
    }
    Ok(Parts {
        chunks,
        hashes,
        lengths,
        rest,
    })
}

/// The chunks, and behind them nothing or the footer that they give.
fn read_whole(alloc: Global, content: &Bytes) -> Result<ReadXorb, ReadError>
    ensures { ReadsWhole content.now result }
{
    let parts = read_parts(alloc, content)?;
    let Parts {
        chunks,
        hashes,
        lengths,
        rest,
    } = parts;
    let object = XorbObject::new(alloc, hashes, lengths.as_slice())?;
    let has_footer = read_footer(rest.as_slice(), &object)?;
    Ok(ReadXorb {
        chunks,
        object,
        has_footer,
    })
}

/// Reads a xorb: one or more chunks, and then nothing or their footer.
///
/// The chunks are slices of `content`. `FormatError(Xorb)` exactly where the bytes aren't the text of a well-formed
/// list of chunks, with its footer or without it: each field of a footer must be the one that the chunks give.
pub fn read_xorb(alloc: Global, content: &Bytes) -> Result<ReadXorb, ClientError>
    ensures { ReadsXorb content.now result }
{
    match read_whole(alloc, content) {
        Ok(read) => Ok(read),
        Err(ReadError::Memory) => Err(ClientError::OutOfMemory),
        Err(ReadError::Malformed) => Err(ClientError::FormatError(FormatFault::Xorb)),
    }
}

/// The chunks to the end of the bytes, as slices of them.
fn take_chunks(alloc: Global, content: &Bytes) -> Result<Vec<Bytes>, ReadError>
    ensures { TakesChunks content.now result }
{
    let mut whole = Vec::new(alloc);
    let mut rest = content.clone()?;
    while !rest.is_empty() {
        let chunk = take_chunk(&mut rest)?;
        whole.push(chunk)?;
    }
    if whole.is_empty() {
        return Err(ReadError::Malformed);
    }
    Ok(whole)
}

/// Reads chunks without the rest of their xorb: one or more whole ones and nothing else.
///
/// The chunks are slices of `content`. `FormatError(Xorb)` exactly where the bytes aren't such.
pub fn read_chunks(alloc: Global, content: &Bytes) -> Result<Vec<Bytes>, ClientError>
    ensures { ReadsWholeChunks content.now result }
{
    match take_chunks(alloc, content) {
        Ok(chunks) => Ok(chunks),
        Err(ReadError::Memory) => Err(ClientError::OutOfMemory),
        Err(ReadError::Malformed) => Err(ClientError::FormatError(FormatFault::Xorb)),
    }
}
