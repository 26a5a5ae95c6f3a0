//! A stored xorb.
ghost use Rattle.std.specs.Prelude.{◌≡◌, ◌<◌, ◌≤◌, ◌^◌, ◌++◌, [], length, sum, slice_index_or, slice_range, IfOk, IfSome, OnOk, ⊤};
ghost use Rattle.std.specs.List.{concat};
ghost use Rattle.std.specs.Arc.{arc_value};
ghost use Rattle.xet_types.specs.Names.{xorb_name};
ghost use Rattle.xet_xorb.specs.ChunkLists.{IsWellFormed, lengths_of, object_of, joined};
ghost use Rattle.xet_xorb.specs.XorbBytes.{xorb_bytes, IsReadOf};
ghost use Rattle.xet_store.specs.Answered.{Answered};
ghost use Rattle.xet_store.specs.Cuts.{cut_of_chunks};
ghost use Rattle.xet_store.specs.Questions.{HasItems, is_past, bytes_of_ranges};

use bytes::Bytes;
use std::alloc::Global;
use std::marker::Model;
use std::sync::Arc;
use xet_generated::GeneratedXorb;
use xet_types::{ChunkRange, ClientError, Items, MerkleHash, OutOfMemory};
use xet_xorb::{RandomXorb, ReadXorb, XorbObject, footed_text};

/// The length in bytes of a chunk's header.
const HEADER_LENGTH: usize = 8;

/// A stored xorb, which contracts see as its chunks: its bytes with its footer, and what is known of it without them.
#[derive(Drop)]
pub struct StoredXorb {
    text: Bytes,
    object: Arc<XorbObject>,
}

impl Model for StoredXorb {
    ghost use Rattle.std.specs.Prelude.{List, ℕ};
    ghost use Rattle.std.specs.Arc.{arc_value};
    ghost use Rattle.xet_store.specs.Kept.{chunks_in, IsKeptXorb};

    ghost Value = { List (List ℕ) };

    ghost view = { λ x. chunks_in x.text (arc_value x.object).lengths };

    ghost invariant = { λ x. IsKeptXorb x.text (arc_value x.object) };
}

impl StoredXorb {
    /// The xorb that was read of the bytes. Where these have a footer they are kept as they are, without a copy.
    pub fn new(alloc: Global, content: &Bytes, read: ReadXorb) -> Result<StoredXorb, OutOfMemory>
        requires { IsReadOf content.now read }
        ensures { IfOk result (λ xorb. xorb ≡ read.chunks.items) }
    {
        let text = footed_text(alloc, content, &read)?;
        let object = Arc::new(alloc, read.object)?;
        Ok(StoredXorb { text, object })
    }

    /// A generated xorb, whose bytes are kept.
    pub fn generated(alloc: Global, xorb: RandomXorb) -> Result<StoredXorb, OutOfMemory>
        ensures { IfOk result (λ stored. stored ≡ xorb) }
    {
        let text = xorb.get_full_serialized(alloc)?;
        let object = Arc::new(alloc, xorb.into_object())?;
        Ok(StoredXorb { text, object })
    }

    /// A xorb of a generated file, whose bytes are kept, without a copy.
    pub fn made(alloc: Global, xorb: GeneratedXorb) -> Result<StoredXorb, OutOfMemory>
        ensures { IfOk result (λ stored. stored ≡ xorb) }
    {
        let (object, text) = xorb.into_parts();
        let object = Arc::new(alloc, object)?;
        Ok(StoredXorb { text, object })
    }

    /// The name of the xorb.
    pub fn xorb_hash(&self) -> MerkleHash
        ensures name { result ≡ xorb_name self.now }
        ensures formed { IsWellFormed self.now }
    {
        self.object().xorb_hash()
    }

    /// What is known of it without its chunks.
    pub fn object(&self) -> &Arc<XorbObject>
        ensures object { arc_value result.now ≡ object_of self.now }
        ensures formed { IsWellFormed self.now }
    {
        &self.object
    }

    /// The bytes with the footer.
    pub fn text(&self) -> &Bytes
        ensures { result.now ≡ xorb_bytes self.now }
    {
        &self.text
    }

    /// Where the bytes of a chunk begin and end in the bytes with the footer.
    fn place(&self, k: u32) -> (usize, usize)
        requires { k < length self.now }
        ensures order { result.0 ≤ result.1 }
        ensures fits { result.1 ≤ length (xorb_bytes self.now) }
        ensures chunk { slice_range (xorb_bytes self.now) result.0 result.1 ≡ slice_index_or self.now k [] }
    {
        let start = self.object.packed_before(k) as usize + HEADER_LENGTH;
        let end = self.object.packed_before(k + 1) as usize;
        (start, end)
    }

    /// The chunks of a range, which aren't copied. `InvalidRange` where it is empty, reversed or ends past the last one.
    pub fn cut(&self, alloc: Global, chunks: ChunkRange) -> Result<Items<Bytes>, ClientError>
        ensures value { Answered result (λ r. r ≡ cut_of_chunks self.now chunks.start chunks.end) ⊤ }
        ensures short { IfOk result (λ cut. sum (lengths_of cut) < 2 ^ 32) }
    {
        if chunks.start >= chunks.end || chunks.end > self.object.num_chunks() {
            return Err(ClientError::InvalidRange);
        }
        let mut cut = Vec::with_capacity(alloc, (chunks.end - chunks.start) as usize)?;
        for k in chunks.start..chunks.end {
            let (start, end) = self.place(k);
            cut.push(self.text.slice(start..end)?)?;
        }
        Ok(Items::from_vec(cut))
    }

    /// Adds the chunks of a range that are there, one behind the other.
    pub fn append(&self, out: &mut Vec<u8>, chunks: ChunkRange) -> Result<(), OutOfMemory>
        ensures { OnOk result (out.new.items ≡ out.old.items ++ concat (slice_range self.now chunks.start chunks.end)) }
    {
        let last = chunks.end.min(self.object.num_chunks());
        for k in chunks.start..last {
            let (start, end) = self.place(k);
            out.extend_from_slice(&self.text.as_slice()[start..end])?;
        }
        Ok(())
    }

    /// The one chunk of a range that is there, which isn't copied; none where there are none or more.
    pub fn only(&self, chunks: ChunkRange) -> Result<Option<Bytes>, OutOfMemory>
        ensures { IfOk result (λ only. IfSome only (λ chunk. chunk ≡ concat (slice_range self.now chunks.start chunks.end))) }
    {
        let last = chunks.end.min(self.object.num_chunks());
        if last.saturating_sub(chunks.start) != 1 {
            return Ok(None);
        }
        let (start, end) = self.place(chunks.start);
        Ok(Some(self.text.slice(start..end)?))
    }

    /// How many bytes the chunks have together.
    pub fn length(&self) -> u32
        ensures { result ≡ sum (lengths_of self.now) }
    {
        self.object.unpacked_before(self.object.num_chunks())
    }

    /// How many bytes the chunks of a range have together, where they are there.
    fn room(&self, chunks: ChunkRange) -> usize {
        if chunks.start >= chunks.end || chunks.end > self.object.num_chunks() {
            return 0;
        }
        let start = self.object.unpacked_before(chunks.start);
        let end = self.object.unpacked_before(chunks.end);
        end.saturating_sub(start) as usize
    }

    /// The chunks of a range that are there, joined.
    fn range(&self, alloc: Global, chunks: ChunkRange) -> Result<Bytes, OutOfMemory>
        ensures { IfOk result (λ bytes. bytes ≡ joined (slice_range self.now chunks.start chunks.end)) }
    {
        let mut bytes = Vec::with_capacity(alloc, self.room(chunks))?;
        self.append(&mut bytes, chunks)?;
        Ok(Bytes::from_vec(bytes)?)
    }

    /// All chunks, joined.
    pub fn all(&self, alloc: Global) -> Result<Bytes, OutOfMemory>
        ensures { IfOk result (λ bytes. bytes ≡ joined self.now) }
    {
        self.range(alloc, ChunkRange::new(0, self.object.num_chunks()))
    }

    /// Whether a range that isn't empty or reversed ends past the last chunk.
    fn is_past(&self, start: u32, end: u32) -> bool
        ensures { result ≡ is_past (length self.now) (start, end) }
    {
        start < end && self.object.num_chunks() < end
    }

    /// The joined chunks of each range. `InvalidRange` where a range that isn't empty or reversed ends past the last chunk.
    pub fn ranges(&self, alloc: Global, ranges: &[(u32, u32)]) -> Result<Vec<Bytes>, ClientError>
        ensures { Answered result (HasItems (bytes_of_ranges ranges.now self.now)) ⊤ }
    {
        let mut texts = Vec::with_capacity(alloc, ranges.len())?;
        for range in ranges {
            if self.is_past(range.0, range.1) {
                return Err(ClientError::InvalidRange);
            }
            texts.push(self.range(alloc, ChunkRange::new(range.0, range.1))?)?;
        }
        Ok(texts)
    }
}
