//! A xorb's bytes, by its object.
ghost use Rattle.std.specs.Prelude.{◌≡◌, ◌↔◌, IsTrue, IfOk};
ghost use Rattle.xet_xorb.specs.ChunkLists.{joined};
ghost use Rattle.xet_xorb.specs.XorbBytes.{IsReadOf, xorb_bytes};
ghost use Rattle.xet_xorb.specs.Contents.{Deserializes, ReadsOwn, GivesAllBytes, GivesRange, Reconstructs};

use crate::object::XorbObject;
use crate::read::{ReadXorb, read_xorb};
use crate::write::with_footer;
use bytes::Bytes;
use std::alloc::Global;
use xet_types::{ClientError, FormatFault, OutOfMemory};

/// The chunks one behind the other, for which so much room is taken. A chunk alone is not copied.
fn join(alloc: Global, chunks: &[Bytes], room: u32) -> Result<Bytes, OutOfMemory>
    ensures { IfOk result (λ bytes. bytes ≡ joined chunks.now) }
{
    if let [chunk] = chunks {
        return Ok(chunk.clone()?);
    }
    let mut all = Vec::with_capacity(alloc, room as usize)?;
    for chunk in chunks {
        all.extend_from_slice(chunk.as_slice())?;
    }
    Ok(Bytes::from_vec(all)?)
}

impl XorbObject {
    /// Reads the object of a xorb with its footer.
    ///
    /// `FormatError(Xorb)` exactly where the bytes aren't the text of a well-formed list of chunks with its footer.
    pub fn deserialize(alloc: Global, content: &Bytes) -> Result<XorbObject, ClientError>
        ensures { Deserializes content.now result }
    {
        let read = read_xorb(alloc, content)?;
        if !read.has_footer {
            return Err(ClientError::FormatError(FormatFault::Xorb));
        }
        Ok(read.object)
    }

    /// Whether both are of chunks of the same hashes and lengths.
    fn is_same(&self, other: &XorbObject) -> bool
        ensures { IsTrue result ↔ (self.now ≡ other.now) }
    {
        self.info.chunk_hashes.as_slice() == other.info.chunk_hashes.as_slice()
            && self.info.unpacked_chunk_offsets.as_slice()
                == other.info.unpacked_chunk_offsets.as_slice()
    }

    /// The chunks of a xorb's bytes, of which this must be the object.
    fn own_chunks(&self, alloc: Global, content: &Bytes) -> Result<Vec<Bytes>, ClientError>
        ensures { ReadsOwn self.now content.now result }
    {
        let read = read_xorb(alloc, content)?;
        if !self.is_same(&read.object) {
            return Err(ClientError::FormatError(FormatFault::Xorb));
        }
        Ok(read.chunks)
    }

    /// The chunks of a xorb, joined, out of its bytes with its footer or without it.
    ///
    /// `FormatError(Xorb)` exactly where the bytes aren't those of a xorb of this object.
    pub fn get_all_bytes(&self, alloc: Global, content: &Bytes) -> Result<Bytes, ClientError>
        ensures { GivesAllBytes self.now content.now result }
    {
        let chunks = self.own_chunks(alloc, content)?;
        let room = self.unpacked_before(self.num_chunks());
        Ok(join(alloc, chunks.as_slice(), room)?)
    }

    /// The chunks from `start` up to `end`, joined, out of the xorb's bytes with its footer or without it.
    ///
    /// `FormatError(Xorb)` exactly where the bytes aren't those of a xorb of this object; else `InvalidRange` exactly
    /// where the range is empty, reversed or ends past the last chunk.
    pub fn get_bytes_by_chunk_range(
        &self,
        alloc: Global,
        content: &Bytes,
        start: u32,
        end: u32,
    ) -> Result<Bytes, ClientError>
        ensures { GivesRange self.now content.now start end result }
    {
        let chunks = self.own_chunks(alloc, content)?;
        if start >= end || end > self.num_chunks() {
            return Err(ClientError::InvalidRange);
        }
        let room = self.unpacked_before(end) - self.unpacked_before(start);
        Ok(join(alloc, &chunks[start as usize..end as usize], room)?)
    }
}

/// The bytes of a xorb with its footer. Bytes that have one are shared.
pub fn footed_text(alloc: Global, content: &Bytes, read: &ReadXorb) -> Result<Bytes, OutOfMemory>
    requires { IsReadOf content.now read.now }
    ensures { IfOk result (λ text. text ≡ xorb_bytes read.now.chunks.items) }
{
    if read.has_footer {
        return Ok(content.clone()?);
    }
    with_footer(alloc, content.as_slice(), &read.object)
}

/// The bytes of a xorb with its footer, and its object. Bytes that have a footer are shared.
///
/// `FormatError(Xorb)` exactly where the bytes aren't the text of a well-formed list of chunks, with its footer or
/// without it.
pub fn reconstruct_xorb_with_footer(
    alloc: Global,
    content: &Bytes,
) -> Result<(Bytes, XorbObject), ClientError>
    ensures { Reconstructs content.now result }
{
    let read = read_xorb(alloc, content)?;
    let text = footed_text(alloc, content, &read)?;
    Ok((text, read.object))
}
