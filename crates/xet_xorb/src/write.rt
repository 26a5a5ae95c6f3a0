//! Writing a xorb's bytes.
ghost use Rattle.std.specs.Prelude.{◌≡◌, ◌↔◌, ◌+◌, ◌*◌, ◌^◌, ◌<◌, ◌++◌, length, IsTrue, IfOk, OnOk};
ghost use Rattle.std.specs.List.{flat_map};
ghost use Rattle.xet_bytes.specs.Fields.{le32};
ghost use Rattle.xet_xorb.specs.Lengths.{IsChunkLength};
ghost use Rattle.xet_xorb.specs.ChunkLists.{IsWellFormed, object_of};
ghost use Rattle.xet_xorb.specs.XorbBytes.{header_bytes, chunk_bytes, xorb_text, footer_bytes, WritesXorb};

use crate::object::XorbObject;
use bytes::Bytes;
use std::alloc::Global;
use xet_bytes::{put_hash, put_u24, put_u32};
use xet_types::{ClientError, FormatFault, MerkleHash, OutOfMemory, compute_data_hash};

/// Whether a chunk may be so many bytes long.
pub(crate) fn is_chunk_length(length: usize) -> bool
    ensures { IsTrue result ↔ IsChunkLength length }
{
    length > 0 && length < 1 << 24
}

/// Whether the list is that of a xorb: at least one chunk, each of 1 to 16,777,215 bytes, and in all less than 2^32
/// bytes with the headers and the footer.
fn is_well_formed(chunks: &[Bytes]) -> bool
    ensures { IsTrue result ↔ IsWellFormed chunks.now }
{
    let mut serialized_length = 48u64;
    for chunk in chunks {
        if !is_chunk_length(chunk.len()) {
            return false;
        }
        serialized_length += 48 + chunk.len() as u64;
        if serialized_length >= 1 << 32 {
            return false;
        }
    }
    !chunks.is_empty()
}

/// What is known of a xorb of these chunks without their bytes. Each chunk is hashed once.
fn object_of_chunks(alloc: Global, chunks: &[Bytes]) -> Result<XorbObject, OutOfMemory>
    requires { IsWellFormed chunks.now }
    ensures { IfOk result (λ object. object ≡ object_of chunks.now) }
{
    let mut hashes = Vec::with_capacity(alloc, chunks.len())?;
    let mut lengths = Vec::with_capacity(alloc, chunks.len())?;
    for chunk in chunks {
        hashes.push(compute_data_hash(chunk.as_slice()))?;
        lengths.push(chunk.len() as u32)?;
    }
    XorbObject::new(alloc, hashes, lengths.as_slice())
}

/// Adds the header of a chunk of so many bytes.
pub(crate) fn put_header(out: &mut Vec<u8>, length: u32) -> Result<(), OutOfMemory>
    requires { length < 2 ^ 24 }
    ensures { OnOk result (out.new.items ≡ out.old.items ++ header_bytes length) }
{
    out.push(0)?;
    put_u24(out, length)?;
    out.push(0)?;
    put_u24(out, length)?;
    Ok(())
}

/// Adds a chunk behind its header.
fn put_chunk(out: &mut Vec<u8>, chunk: &[u8]) -> Result<(), OutOfMemory>
    requires { length chunk.now < 2 ^ 24 }
    ensures { OnOk result (out.new.items ≡ out.old.items ++ chunk_bytes chunk.now) }
{
    put_header(out, chunk.len() as u32)?;
    out.extend_from_slice(chunk)?;
    Ok(())
}

/// Adds the chunks, each behind its header.
fn put_chunks(out: &mut Vec<u8>, chunks: &[Bytes]) -> Result<(), OutOfMemory>
    requires { IsWellFormed chunks.now }
    ensures { OnOk result (out.new.items ≡ out.old.items ++ xorb_text chunks.now) }
{
    for chunk in chunks {
        put_chunk(out, chunk.as_slice())?;
    }
    Ok(())
}

/// Adds hashes, one after another.
fn put_hashes(out: &mut Vec<u8>, hashes: &[MerkleHash]) -> Result<(), OutOfMemory>
    ensures { OnOk result (out.new.items ≡ out.old.items ++ flat_map (λ hash. hash) hashes.now) }
{
    for hash in hashes {
        put_hash(out, hash)?;
    }
    Ok(())
}

/// Adds numbers, each in four bytes, the low byte first.
fn put_numbers(out: &mut Vec<u8>, numbers: &[u32]) -> Result<(), OutOfMemory>
    ensures { OnOk result (out.new.items ≡ out.old.items ++ flat_map le32 numbers.now) }
{
    for number in numbers {
        put_u32(out, *number)?;
    }
    Ok(())
}

/// Adds the footer of a xorb, and the footer's length in four bytes.
pub(crate) fn put_footer(out: &mut Vec<u8>, object: &XorbObject) -> Result<(), OutOfMemory>
    ensures { OnOk result (out.new.items ≡ out.old.items ++ (footer_bytes object.now ++ le32 (44 + 40 * length object.now.lengths))) }
{
    out.extend_from_slice(b"XETPORT1")?;
    put_hash(out, &object.info.xorb_hash)?;
    put_u32(out, object.info.num_chunks)?;
    put_hashes(out, object.info.chunk_hashes.as_slice())?;
    put_numbers(out, object.info.chunk_boundary_offsets.as_slice())?;
    put_numbers(out, object.info.unpacked_chunk_offsets.as_slice())?;
    put_u32(out, object.info_length)?;
    Ok(())
}

/// A xorb's bytes without its footer, and the footer of its object behind them.
pub fn with_footer(alloc: Global, content: &[u8], object: &XorbObject) -> Result<Bytes, OutOfMemory>
    ensures { IfOk result (λ text. text ≡ content.now ++ (footer_bytes object.now ++ le32 (44 + 40 * length object.now.lengths))) }
{
    let mut out = Vec::with_capacity(alloc, object.serialized_length() as usize)?;
    out.extend_from_slice(content)?;
    put_footer(&mut out, object)?;
    Ok(Bytes::from_vec(out)?)
}

/// Writes a xorb with its footer: its one text.
///
/// `FormatError(Xorb)` exactly where the list isn't well formed: it has no chunk, a chunk is empty or longer than
/// 16,777,215 bytes, or the text would have 2^32 bytes or more.
pub fn write_xorb(alloc: Global, chunks: &[Bytes]) -> Result<Bytes, ClientError>
    ensures { WritesXorb chunks.now result }
{
    if !is_well_formed(chunks) {
        return Err(ClientError::FormatError(FormatFault::Xorb));
    }
    let object = object_of_chunks(alloc, chunks)?;
    let mut out = Vec::with_capacity(alloc, object.serialized_length() as usize)?;
    put_chunks(&mut out, chunks)?;
    put_footer(&mut out, &object)?;
    Ok(Bytes::from_vec(out)?)
}
