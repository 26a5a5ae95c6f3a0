//! What a fetch of a link brings.
ghost use Rattle.std.specs.Prelude.{◌≡◌, ◌≢◌, length, Some};
ghost use Rattle.xet_plan.specs.Footers.{FailsOnlyByFault};
ghost use Rattle.xet_store.specs.StoreModel.{StoreModel};
ghost use Rattle.xet_store.specs.Told.{Asks};
ghost use Rattle.xet_store.specs.Refusals.{RefusedBy, OfXorbBytes};
ghost use Rattle.xet_service.specs.Bodies.{type_text, stored_piece, CutsStored, SendsStored, shown_cuts};

use bytes::Bytes;
use std::alloc::Global;
use std::marker::Model;
use xet_store::Store;
use xet_types::{ClientError, FileRange, MerkleHash};
use xet_wire::write_multipart;

/// The bytes of a xorb that a fetch brings.
#[derive(Debug, Drop)]
pub struct TermBody {
    /// None where the body is the bytes of one range.
    pub content_type: Option<String>,
    pub body: Bytes,
}

impl Model for TermBody {
    ghost use Rattle.std.specs.String.{string_bytes};
    ghost use Rattle.std.specs.Option.{option_map};
    ghost use Rattle.xet_service.specs.Bodies.{Body};

    ghost Value = { Body };

    ghost view = { λ b. record { content_type = option_map string_bytes b.content_type; bytes = b.body } };
}

impl TermBody {
    /// The content type; empty where there is none.
    pub(crate) fn type_text(&self) -> &str
        ensures { result.now ≡ type_text self.now.content_type }
    {
        match &self.content_type {
            Some(text) => text.as_str(),
            None => "",
        }
    }
}

/// The bytes of a range of a xorb with its footer, as the store has it now.
fn fetch_piece<K: Store>(
    alloc: Global,
    store: &mut K,
    hash: &MerkleHash,
    range: FileRange,
) -> Result<Bytes, ClientError>
    ensures told { (m : StoreModel) → K.Client.told store.old ≡ Some m → Asks (λ r. r ≡ stored_piece m hash.now range) result }
    ensures refusals { RefusedBy (OfXorbBytes hash.now) result }
    ensures stays { K.Client.told store.new ≡ K.Client.told store.old }
    ensures cause { FailsOnlyByFault (K.Client.faults store.old) (K.Client.faults store.new) result }
{
    let body = store.get_xorb_raw_bytes(alloc, hash, Some(range))?;
    if range.start >= range.end || body.len() as u64 != range.end - range.start {
        return Err(ClientError::InvalidRange);
    }
    Ok(body)
}

/// Ranges of a xorb with their bytes.
fn fetch_pieces<K: Store>(
    alloc: Global,
    store: &mut K,
    hash: &MerkleHash,
    ranges: &[FileRange],
) -> Result<Vec<(FileRange, Bytes)>, ClientError>
    ensures told { (m : StoreModel) → K.Client.told store.old ≡ Some m → Asks (λ r. CutsStored m hash.now ranges.now (shown_cuts r)) result }
    ensures refusals { RefusedBy (OfXorbBytes hash.now) result }
    ensures stays { K.Client.told store.new ≡ K.Client.told store.old }
    ensures cause { FailsOnlyByFault (K.Client.faults store.old) (K.Client.faults store.new) result }
{
    let mut pieces = Vec::with_capacity(alloc, ranges.len())?;
    for range in ranges {
        let bytes = fetch_piece(alloc, store, hash, *range)?;
        pieces.push((*range, bytes))?;
    }
    Ok(pieces)
}

/// The body in parts of ranges of a xorb.
fn fetch_parts<K: Store>(
    alloc: Global,
    store: &mut K,
    hash: &MerkleHash,
    ranges: &[FileRange],
) -> Result<TermBody, ClientError>
    requires { length ranges.now ≢ 1 }
    ensures told { (m : StoreModel) → K.Client.told store.old ≡ Some m → Asks (SendsStored m hash.now ranges.now) result }
    ensures refusals { RefusedBy (OfXorbBytes hash.now) result }
    ensures stays { K.Client.told store.new ≡ K.Client.told store.old }
    ensures cause { FailsOnlyByFault (K.Client.faults store.old) (K.Client.faults store.new) result }
{
    let total = store.xorb_raw_length(alloc, hash)?;
    let pieces = fetch_pieces(alloc, store, hash, ranges)?;
    let (content_type, body) = write_multipart(alloc, &pieces, total)?;
    Ok(TermBody {
        content_type: Some(content_type),
        body,
    })
}

/// The bytes of ranges of a xorb with its footer, as the store has it now. One range is sent plain, any other number of them in parts
/// (RFC 7233 section 4.1).
///
/// `XORBNotFound` where it isn't stored; then `InvalidRange` where a range is empty, reversed or leaves the xorb.
pub fn fetch_term_body<K: Store>(
    alloc: Global,
    store: &mut K,
    hash: &MerkleHash,
    ranges: &[FileRange],
) -> Result<TermBody, ClientError>
    ensures told { (m : StoreModel) → K.Client.told store.old ≡ Some m → Asks (SendsStored m hash.now ranges.now) result }
    ensures refusals { RefusedBy (OfXorbBytes hash.now) result }
    ensures stays { K.Client.told store.new ≡ K.Client.told store.old }
    ensures cause { FailsOnlyByFault (K.Client.faults store.old) (K.Client.faults store.new) result }
{
    let [range] = ranges else {
        return fetch_parts(alloc, store, hash, ranges);
    };
    let body = fetch_piece(alloc, store, hash, *range)?;
    Ok(TermBody {
        content_type: None,
        body,
    })
}
