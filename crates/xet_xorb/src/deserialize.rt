//! Chunks without the rest of their xorb.
ghost use Rattle.std.specs.Prelude.{◌≡◌, IfErr};
ghost use Rattle.xet_bytes.specs.declared.cursor.ReadError.TheVariants.{Malformed};
ghost use Rattle.xet_xorb.specs.Steps.{TakesChunk};
ghost use Rattle.xet_xorb.specs.JoinedChunks.{ReadsChunks, JoinsChunks};

use crate::read::{HEADER_LENGTH, chunk_length};
use std::alloc::Global;
use xet_bytes::ReadError;
use xet_types::{ClientError, FormatFault};

/// The chunk at the front, without its header, and the rest.
pub(crate) fn split_chunk(content: &[u8]) -> Result<(&[u8], &[u8]), ReadError>
    ensures value { TakesChunk (λ x. x.0.now) content.now result (λ x. x.1.now) }
    ensures err { IfErr result (λ e. e ≡ Malformed) }
{
    let length = chunk_length(content)?;
    let rest = &content[HEADER_LENGTH..];
    if rest.len() < length {
        return Err(ReadError::Malformed);
    }
    Ok(rest.split_at(length))
}

/// The chunks to the end of the bytes, joined, and their offsets.
fn join_chunks(alloc: Global, content: &[u8]) -> Result<(Vec<u8>, Vec<u32>), ReadError>
    ensures { JoinsChunks content.now result }
{
    let mut all = Vec::with_capacity(alloc, content.len())?;
    let mut offsets = Vec::new(alloc);
    offsets.push(0)?;
    let mut end = 0u32;
    let mut rest = content;
    while !rest.is_empty() {
        let (chunk, after) = split_chunk(rest)?;
        end = match end.checked_add(chunk.len() as u32) {
            Some(end) => end,
            None => return Err(ReadError::Malformed),
        };
        all.extend_from_slice(chunk)?;
        offsets.push(end)?;
        rest = after;
    }
    if content.is_empty() {
        return Err(ReadError::Malformed);
    }
    Ok((all, offsets))
}

/// The chunks that the bytes are, joined, and where each begins and the last one ends, in bytes from 0.
///
/// `FormatError(Xorb)` exactly where the bytes aren't one or more whole chunks and nothing else, or the chunks' lengths
/// sum past `u32`.
pub fn deserialize_chunks(alloc: Global, content: &[u8]) -> Result<(Vec<u8>, Vec<u32>), ClientError>
    ensures { ReadsChunks content.now result }
{
    match join_chunks(alloc, content) {
        Ok(joined) => Ok(joined),
        Err(ReadError::Memory) => Err(ClientError::OutOfMemory),
        Err(ReadError::Malformed) => Err(ClientError::FormatError(FormatFault::Xorb)),
    }
}
