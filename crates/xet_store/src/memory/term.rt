//! What a link of version 1 brings.
ghost use Rattle.std.specs.Prelude.{◌≡◌, ◌<◌, ◌^◌, sum, IfOk};
ghost use Rattle.xet_xorb.specs.ChunkLists.{lengths_of, joined};
ghost use Rattle.xet_xorb.specs.JoinedChunks.{offsets_of};
ghost use Rattle.xet_store.specs.Answered.{Answered};
ghost use Rattle.xet_store.specs.TermData.{NamesXorb};

use bytes::Bytes;
use std::alloc::Global;
use xet_types::{ClientError, FileRange, HttpRange, MerkleHash, OutOfMemory};
use xet_wire::parse_fetch_url;

/// The xorb of a link of version 1 that isn't expired and is of these bytes. Takes no memory.
///
/// `InvalidArguments` where the text isn't such a link, then `PresignedUrlExpirationError` where it is expired, then
/// `InvalidArguments` where it is of other bytes.
pub fn named_xorb(
    url: &str,
    bytes: HttpRange,
    at: u64,
    expiration: u64,
) -> Result<MerkleHash, ClientError>
    ensures { Answered result (NamesXorb url.now bytes at expiration) ⊥ }
{
    let (hash, range, stamp) = parse_fetch_url(url)?;
    if at.saturating_sub(stamp) > expiration {
        return Err(ClientError::PresignedUrlExpirationError);
    }
    if range != FileRange::from(bytes) {
        return Err(ClientError::InvalidArguments);
    }
    Ok(hash)
}

/// How many bytes the chunks have together, up to the type's end.
fn room_of(chunks: &[Bytes]) -> usize {
    let mut room = 0usize;
    for chunk in chunks {
        room = room.saturating_add(chunk.len());
    }
    room
}

/// Chunks joined, and where each of them begins and the last one ends.
pub fn join(alloc: Global, chunks: &[Bytes]) -> Result<(Bytes, Vec<u32>), OutOfMemory>
    requires { sum (lengths_of chunks.now) < 2 ^ 32 }
    ensures bytes { IfOk result (λ term. term.0 ≡ joined chunks.now) }
    ensures offsets { IfOk result (λ term. term.1.items ≡ offsets_of (lengths_of chunks.now)) }
{
    let mut bytes = Vec::with_capacity(alloc, room_of(chunks))?;
    let mut offsets = Vec::with_capacity(alloc, chunks.len() + 1)?;
    offsets.push(0)?;
    for chunk in chunks {
        bytes.extend_from_slice(chunk)?;
        offsets.push(bytes.len() as u32)?;
    }
    Ok((Bytes::from_vec(bytes)?, offsets))
}
