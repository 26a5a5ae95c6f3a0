//! Joined chunks that grow by segments.
ghost use Rattle.std.specs.Prelude.{◌≡◌, ◌↔◌, ℕ, ◌+◌, ◌<◌, ◌≤◌, ◌^◌, ◌++◌, length, map, All, IsTrue, OnErr, vec_len, vec_capacity};
ghost use Rattle.xet_xorb.specs.JoinedChunks.{IsIndexList, IsIndexListSoFar, CanAppend, AppendsSegment};

use xet_types::ClientError;

/// Whether the numbers rise strictly from 0 to the end.
fn is_index_list(indices: &[u32], end: usize) -> bool
    ensures { IsTrue result ↔ IsIndexList indices.now end }
{
    let Some((first, others)) = indices.split_first() else {
        return false;
    };
    if *first != 0 {
        return false;
    }
    let mut last = 0u32;
    for index in others {
        if *index <= last {
            return false;
        }
        last = *index;
    }
    last as usize == end
}

/// The same, where the list may be left out if the end is 0.
fn is_index_list_so_far(indices: &[u32], end: usize) -> bool
    ensures { IsTrue result ↔ IsIndexListSoFar indices.now end }
{
    if indices.is_empty() {
        return end == 0;
    }
    is_index_list(indices, end)
}

/// Whether the segment's chunks can go behind those so far.
fn can_append(all: &[u8], indices: &[u32], content: &[u8], chunk_indices: &[u32]) -> bool
    ensures { IsTrue result ↔ CanAppend all.now indices.now content.now chunk_indices.now }
{
    if !is_index_list(chunk_indices, content.len()) || !is_index_list_so_far(indices, all.len()) {
        return false;
    }
    let limit = 1usize << 32;
    all.len() < limit && content.len() < limit - all.len()
}

/// Adds the bytes, for which there is room.
fn extend_reserved(all: &mut Vec<u8>, content: &[u8])
    requires { vec_len all.old + length content.now ≤ vec_capacity all.old }
    ensures { all.new.items ≡ all.old.items ++ content.now }
{
    let _ = all.extend_from_slice(content);
}

/// Adds the indices from a start on, for which there is room.
fn push_from(indices: &mut Vec<u32>, start: u32, others: &[u32])
    requires room { vec_len indices.old + length others.now ≤ vec_capacity indices.old }
    requires fit { All (λ index. start + index < 2 ^ 32) others.now }
    ensures { indices.new.items ≡ indices.old.items ++ map (λ index. start + index) others.now }
{
    for index in others {
        indices.push_reserved(start + *index);
    }
}

/// Appends a segment of joined chunks to those so far.
///
/// The indices are where each chunk begins and the last one ends, in bytes from 0; those of `all` may be left out where
/// it is empty. `InvalidArguments` exactly where `chunk_indices` doesn't rise strictly from 0 to the length of
/// `content`, `indices` isn't such a list for `all`, or the total passes `u32`. After an error both stay as they were.
pub fn append_chunk_segment(
    all: &mut Vec<u8>,
    indices: &mut Vec<u32>,
    content: &[u8],
    chunk_indices: &[u32],
) -> Result<(), ClientError>
    ensures value { AppendsSegment all.old.items indices.old.items content.now chunk_indices.now result all.new.items indices.new.items }
    ensures kept_all { OnErr result (all.new.items ≡ all.old.items) }
    ensures kept_indices { OnErr result (indices.new.items ≡ indices.old.items) }
{
    if !can_append(all.as_slice(), indices.as_slice(), content, chunk_indices) {
        return Err(ClientError::InvalidArguments);
    }
    all.reserve(content.len())?;
    indices.reserve(chunk_indices.len())?;
    if indices.is_empty() {
        indices.push_reserved(0);
    }
    push_from(indices, all.len() as u32, &chunk_indices[1..]);
    extend_reserved(all, content);
    Ok(())
}
