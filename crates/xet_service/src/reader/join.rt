//! Chunks put together.
ghost use Rattle.std.specs.Prelude.{◌≡◌, ◌++◌, drop, slice_range, IfOk, OnOk};
ghost use Rattle.std.specs.List.{concat};
ghost use Rattle.xet_store.specs.Plans.{cut_to, length_asked};
ghost use Rattle.xet_service.specs.Gathering.{taken, IsWindow};

use bytes::Bytes;
use xet_types::{FileRange, OutOfMemory};

/// A part of the chunks, as far as they go.
pub fn part<'a>(chunks: &'a [Bytes], start: u32, end: u32) -> &'a [Bytes]
    ensures { result.now ≡ slice_range chunks.now start end }
{
    let end = (end as usize).min(chunks.len());
    let start = (start as usize).min(end);
    &chunks[start..end]
}

/// Adds the chunks' bytes.
pub fn push_chunks(out: &mut Vec<u8>, chunks: &[Bytes]) -> Result<(), OutOfMemory>
    ensures { OnOk result (out.new.items ≡ out.old.items ++ concat chunks.now) }
{
    for chunk in chunks {
        out.extend_from_slice(chunk)?;
    }
    Ok(())
}

/// The length of the asked range, where one is given.
pub fn asked_length(range: Option<FileRange>) -> Option<u64>
    ensures { result ≡ length_asked range }
{
    match range {
        None => None,
        Some(range) => Some(range.end.saturating_sub(range.start)),
    }
}

/// The bytes less the offset, cut to the length, without copying them.
pub fn cut(bytes: &Bytes, offset: u64, length: Option<u64>) -> Result<Bytes, OutOfMemory>
    ensures { IfOk result (λ part. part ≡ cut_to length (drop offset bytes.now)) }
{
    let start = (offset as usize).min(bytes.len());
    let rest = bytes.len() - start;
    let count = match length {
        None => rest,
        Some(length) => (length as usize).min(rest),
    };
    Ok(bytes.slice(start..start + count)?)
}

/// How many of the bytes that are left are taken, where a length is given; else all.
fn taken(rest: u64, length: Option<u64>) -> u64
    ensures { result ≡ taken rest length }
{
    match length {
        None => rest,
        Some(length) => length.min(rest),
    }
}

/// How many of so many bytes are passed over, and how many are taken then, for an offset and a length, where one is given.
pub fn window(total: u32, offset: u64, length: Option<u64>) -> (u32, u32)
    ensures { IsWindow total offset length result }
{
    let skip = offset.min(u64::from(total));
    let rest = u64::from(total) - skip;
    (skip as u32, taken(rest, length) as u32)
}
