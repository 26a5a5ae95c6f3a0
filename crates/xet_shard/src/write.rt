//! Writing a shard as bytes.
ghost use Rattle.std.specs.Prelude.{◌≡◌, ◌+◌, ◌*◌, ◌-◌, ◌^◌, ◌<◌, ◌++◌, OnOk, IfOk, length, min, sum_by};
ghost use Rattle.std.specs.List.{flat_map, AllByRecursion};
ghost use Rattle.xet_shard.specs.ShardBytes.{IsSegment, IsListing, IsChunkListing, IsListedXorb, IsShard, IsTextOfOne, segment_bytes, listing_bytes, chunk_bytes, listed_xorb_bytes, shard_bytes};
ghost use Rattle.xet_shard.specs.Listings.{shard_with, xorb_subset};
ghost use Rattle.xet_shard.specs.ShardLengths.{listing_len, listed_xorb_len};

use crate::listing::{ChunkListing, FileListing, Segment, Shard, XorbListing};
use bytes::Bytes;
use std::alloc::Global;
use xet_bytes::{put_hash, put_u32, put_u64};
use xet_types::OutOfMemory;

/// How many bytes the files take, at most the greatest number.
fn files_len(files: &[FileListing]) -> usize
    ensures { result ≡ min (sum_by listing_len files.now) (2 ^ 64 - 1) }
{
    let mut len: usize = 0;
    for file in files {
        len = len.saturating_add(36 + 48 * file.segments().len());
    }
    len
}

/// How many bytes the xorbs take, at most the greatest number.
fn xorbs_len(xorbs: &[XorbListing]) -> usize
    ensures { result ≡ min (sum_by listed_xorb_len xorbs.now) (2 ^ 64 - 1) }
{
    let mut len: usize = 0;
    for xorb in xorbs {
        len = len.saturating_add(40 + 48 * xorb.chunks().len());
    }
    len
}

fn put_segment(out: &mut Vec<u8>, segment: &Segment) -> Result<(), OutOfMemory>
    ensures text { OnOk result (out.new.items ≡ out.old.items ++ segment_bytes segment.now) }
    ensures fits { OnOk result (IsSegment segment.now) }
{
    put_hash(out, &segment.xorb_hash)?;
    put_u32(out, segment.xorb_flags)?;
    put_u32(out, segment.chunk_index_start)?;
    put_u32(out, segment.chunk_index_end)?;
    put_u32(out, segment.unpacked_segment_bytes)?;
    Ok(())
}

fn put_segments(out: &mut Vec<u8>, segments: &[Segment]) -> Result<(), OutOfMemory>
    ensures text { OnOk result (out.new.items ≡ out.old.items ++ flat_map segment_bytes segments.now) }
    ensures fits { OnOk result (AllByRecursion IsSegment segments.now) }
{
    for segment in segments {
        put_segment(out, segment)?;
    }
    Ok(())
}

fn put_file(out: &mut Vec<u8>, file: &FileListing) -> Result<(), OutOfMemory>
    ensures text { OnOk result (out.new.items ≡ out.old.items ++ listing_bytes file.now) }
    ensures fits { OnOk result (IsListing file.now) }
{
    let segments = file.segments();
    put_hash(out, &file.file_hash)?;
    put_u32(out, segments.len() as u32)?;
    put_segments(out, segments)?;
    Ok(())
}

fn put_files(out: &mut Vec<u8>, files: &[FileListing]) -> Result<(), OutOfMemory>
    ensures text { OnOk result (out.new.items ≡ out.old.items ++ flat_map listing_bytes files.now) }
    ensures fits { OnOk result (AllByRecursion IsListing files.now) }
{
    for file in files {
        put_file(out, file)?;
    }
    Ok(())
}

fn put_chunk(out: &mut Vec<u8>, chunk: &ChunkListing) -> Result<(), OutOfMemory>
    ensures text { OnOk result (out.new.items ≡ out.old.items ++ chunk_bytes chunk.now) }
    ensures fits { OnOk result (IsChunkListing chunk.now) }
{
    put_hash(out, &chunk.chunk_hash)?;
    put_u32(out, chunk.chunk_byte_range_start)?;
    put_u32(out, chunk.unpacked_segment_bytes)?;
    put_u32(out, chunk.flags)?;
    put_u32(out, chunk.spare)?;
    Ok(())
}

fn put_chunks(out: &mut Vec<u8>, chunks: &[ChunkListing]) -> Result<(), OutOfMemory>
    ensures text { OnOk result (out.new.items ≡ out.old.items ++ flat_map chunk_bytes chunks.now) }
    ensures fits { OnOk result (AllByRecursion IsChunkListing chunks.now) }
{
    for chunk in chunks {
        put_chunk(out, chunk)?;
    }
    Ok(())
}

fn put_xorb(out: &mut Vec<u8>, xorb: &XorbListing) -> Result<(), OutOfMemory>
    ensures text { OnOk result (out.new.items ≡ out.old.items ++ listed_xorb_bytes xorb.now) }
    ensures fits { OnOk result (IsListedXorb xorb.now) }
{
    let chunks = xorb.chunks();
    put_hash(out, &xorb.xorb_hash)?;
    put_u32(out, xorb.num_bytes)?;
    put_u32(out, chunks.len() as u32)?;
    put_chunks(out, chunks)?;
    Ok(())
}

fn put_xorbs(out: &mut Vec<u8>, xorbs: &[XorbListing]) -> Result<(), OutOfMemory>
    ensures text { OnOk result (out.new.items ≡ out.old.items ++ flat_map listed_xorb_bytes xorbs.now) }
    ensures fits { OnOk result (AllByRecursion IsListedXorb xorbs.now) }
{
    for xorb in xorbs {
        put_xorb(out, xorb)?;
    }
    Ok(())
}

fn put_shard(
    out: &mut Vec<u8>,
    expiry: u64,
    files: &[FileListing],
    xorbs: &[XorbListing],
) -> Result<(), OutOfMemory>
    requires few_files { length files.now < 2 ^ 32 }
    requires few_xorbs { length xorbs.now < 2 ^ 32 }
    ensures text { OnOk result (out.new.items ≡ out.old.items ++ shard_bytes (shard_with expiry files.now xorbs.now)) }
    ensures fits { OnOk result (IsShard (shard_with expiry files.now xorbs.now)) }
{
    out.extend_from_slice(b"XETSHRD1")?;
    put_u64(out, expiry)?;
    put_u32(out, files.len() as u32)?;
    put_files(out, files)?;
    put_u32(out, xorbs.len() as u32)?;
    put_xorbs(out, xorbs)?;
    Ok(())
}

/// The text of a shard of these parts. Its room is taken at once.
fn shard_text(
    alloc: Global,
    expiry: u64,
    files: &[FileListing],
    xorbs: &[XorbListing],
) -> Result<Bytes, OutOfMemory>
    requires few_files { length files.now < 2 ^ 32 }
    requires few_xorbs { length xorbs.now < 2 ^ 32 }
    ensures text { IfOk result (λ bytes. bytes ≡ shard_bytes (shard_with expiry files.now xorbs.now)) }
    ensures read_back { IfOk result (λ bytes. IsTextOfOne bytes (shard_with expiry files.now xorbs.now)) }
{
    let len = files_len(files).saturating_add(xorbs_len(xorbs));
    let mut out = Vec::with_capacity(alloc, len.saturating_add(24))?;
    put_shard(&mut out, expiry, files, xorbs)?;
    Ok(Bytes::from_vec(out)?)
}

/// The text of the shard, which `read_shard` reads as the same shard. Its room is taken at once.
pub fn write_shard(alloc: Global, shard: &Shard) -> Result<Bytes, OutOfMemory>
    ensures value { IfOk result (λ bytes. bytes ≡ shard_bytes shard.now) }
    ensures read_back { IfOk result (λ bytes. IsTextOfOne bytes shard.now) }
{
    shard_text(alloc, shard.expiry, shard.files(), shard.xorbs())
}

/// The text of a shard of the same xorbs, in the same order, with no files, that expires at `expiry`, in seconds; 0 for never.
pub fn xorb_subset_with_expiry(
    alloc: Global,
    shard: &Shard,
    expiry: u64,
) -> Result<Bytes, OutOfMemory>
    ensures value { IfOk result (λ bytes. bytes ≡ shard_bytes (xorb_subset shard.now expiry)) }
    ensures read_back { IfOk result (λ bytes. IsTextOfOne bytes (xorb_subset shard.now expiry)) }
{
    shard_text(alloc, expiry, &[], shard.xorbs())
}
