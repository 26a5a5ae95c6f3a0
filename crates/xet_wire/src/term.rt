//! Terms: which xorb is asked for, and which of its bytes.
ghost use Rattle.std.specs.Prelude.{◌≡◌, ◌++◌, [], map, string_bytes, IfOk, OnOk};
ghost use Rattle.std.specs.List.{All};
ghost use Rattle.hex.specs.Hex.{encode_lower};
ghost use Rattle.base64.specs.Engines.{url_safe_no_pad};
ghost use Rattle.base64.specs.GeneralPurpose.{encode_of};
ghost use Rattle.xet_wire.specs.Texts.{Fits64, IsHashOf, ranges_text};
ghost use Rattle.xet_wire.specs.Terms.{Term, term, file_bytes_of, term_payload, ReadsTermPayload, SpellsTerm, ReadsTerm, GivesTerm};

use crate::payload;
use crate::text::{cut, push_range, read_ranges, reserve_ranges};
use std::alloc::Global;
use std::marker::Model;
use xet_types::{ClientError, FileRange, MerkleHash, OutOfMemory, XorbRangeDescriptor};

/// What a term names.
#[derive(Debug, Drop)]
pub struct DecodedTerm {
    /// The xorb.
    pub hash: MerkleHash,
    /// Ranges of its bytes, with excluded ends; none for the whole xorb.
    pub byte_ranges: Vec<FileRange>,
}

impl Model for DecodedTerm {
    ghost use Rattle.xet_wire.specs.Terms.{Term};

    ghost Value = { Term };

    ghost view = { λ t. record { hash = t.hash; byte_ranges = t.byte_ranges.items } };
}

/// The term of a whole xorb: base64 with the URL-safe alphabet and no padding (RFC 4648 section 5) of the hash's 64 digits.
pub fn encode_term(alloc: Global, xorb_hash: &MerkleHash) -> Result<String, OutOfMemory>
    ensures text { IfOk result (λ text. string_bytes text ≡ encode_of url_safe_no_pad (encode_lower xorb_hash.now)) }
    ensures reads_back { IfOk result (λ text. SpellsTerm (string_bytes text) (term xorb_hash.now [])) }
{
    let payload = xorb_hash.hex(alloc)?;
    let text = payload::encode(alloc, payload.as_str())?;
    Ok(text)
}

/// Puts the bytes of runs at the end, with excluded ends and commas between them.
fn push_file_ranges(payload: &mut String, ranges: &[XorbRangeDescriptor]) -> Result<(), OutOfMemory>
    ensures text { OnOk result (string_bytes payload.new ≡ string_bytes payload.old ++ ranges_text (map file_bytes_of ranges.now)) }
    ensures fit { OnOk result (All (λ d. Fits64 (file_bytes_of d)) ranges.now) }
{
    for (place, run) in ranges.iter().enumerate() {
        let bytes = FileRange::from(run.bytes);
        push_range(payload, place, bytes.start, bytes.end)?;
    }
    Ok(())
}

/// The payload of a term with ranges.
#[tactic(auto, unfolding(crate::specs::Terms::term_payload))]
fn ranged_payload(
    alloc: Global,
    hash: &MerkleHash,
    ranges: &[XorbRangeDescriptor],
) -> Result<String, OutOfMemory>
    ensures text { IfOk result (λ payload. string_bytes payload ≡ term_payload hash.now (map file_bytes_of ranges.now)) }
    ensures hash { OnOk result (IsHashOf (encode_lower hash.now) hash.now) }
    ensures fit { OnOk result (All (λ d. Fits64 (file_bytes_of d)) ranges.now) }
{
    let mut payload = hash.hex(alloc)?;
    reserve_ranges(&mut payload, ranges.len().saturating_add(1))?;
    payload.push(':')?;
    push_file_ranges(&mut payload, ranges)?;
    Ok(payload)
}

/// The term of the bytes of some runs: the same base64 of `HASH:S-E,S-E`, each run's bytes with an excluded end.
pub fn encode_term_with_ranges(
    alloc: Global,
    xorb_hash: &MerkleHash,
    ranges: &[XorbRangeDescriptor],
) -> Result<String, OutOfMemory>
    ensures text { IfOk result (λ text. string_bytes text ≡ encode_of url_safe_no_pad (term_payload xorb_hash.now (map file_bytes_of ranges.now))) }
    ensures reads_back { IfOk result (λ text. SpellsTerm (string_bytes text) (term xorb_hash.now (map file_bytes_of ranges.now))) }
{
    let payload = ranged_payload(alloc, xorb_hash, ranges)?;
    let text = payload::encode(alloc, payload.as_str())?;
    Ok(text)
}

/// What a payload names.
fn parse_payload(alloc: Global, payload: &str) -> Result<DecodedTerm, ClientError>
    ensures { ReadsTermPayload payload.now result }
{
    let Some((digits, list)) = cut(payload, ':') else {
        return match MerkleHash::from_hex(payload) {
            Ok(hash) => Ok(DecodedTerm {
                hash,
                byte_ranges: Vec::new(alloc),
            }),
            Err(_) => Err(ClientError::InvalidArguments),
        };
    };
    let Ok(hash) = MerkleHash::from_hex(digits) else {
        return Err(ClientError::InvalidArguments);
    };
    match read_ranges(alloc, list) {
        Ok(byte_ranges) => Ok(DecodedTerm { hash, byte_ranges }),
        Err(error) => Err(error),
    }
}

/// What a term names.
///
/// The payload is a hash, or a hash, a colon and ranges with commas between them, of which empty pieces are passed over.
/// [`ClientError::InvalidArguments`] exactly where the text isn't the canonical base64 of such a payload.
pub fn decode_term(alloc: Global, term: &str) -> Result<DecodedTerm, ClientError>
    ensures value { ReadsTerm term.now result }
    ensures reads { (t : Term) → SpellsTerm term.now t → GivesTerm t result }
{
    match payload::decode(alloc, term) {
        Ok(payload) => parse_payload(alloc, payload.as_str()),
        Err(error) => Err(error),
    }
}
