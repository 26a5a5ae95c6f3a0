//! The footer behind a xorb's chunks.
ghost use Rattle.std.specs.List.{flat_map};
ghost use Rattle.xet_bytes.specs.Fields.{le32};
ghost use Rattle.xet_bytes.specs.Reading.{Gives, literal_at};
ghost use Rattle.xet_xorb.specs.Footers.{footer_at, ReadsFooter};

use crate::object::{XorbObject, XorbObjectInfoV1};
use xet_bytes::{Cursor, ReadError};
use xet_types::MerkleHash;

/// Passes a number in four bytes, the low byte first.
#[tactic(auto, unfolding(xet_bytes::specs::Fields::le32))]
fn pass_number(cursor: &mut Cursor<'_>, number: u32) -> Result<(), ReadError>
    ensures { Gives (λ x. x) result cursor.new (literal_at (le32 number) cursor.old) }
{
    cursor.literal(&number.to_le_bytes())
}

/// Passes numbers, each in four bytes, the low byte first.
fn pass_numbers(cursor: &mut Cursor<'_>, numbers: &[u32]) -> Result<(), ReadError>
    ensures { Gives (λ x. x) result cursor.new (literal_at (flat_map le32 numbers.now) cursor.old) }
{
    for number in numbers {
        pass_number(cursor, *number)?;
    }
    Ok(())
}

/// Passes hashes, one after another.
fn pass_hashes(cursor: &mut Cursor<'_>, hashes: &[MerkleHash]) -> Result<(), ReadError>
    ensures { Gives (λ x. x) result cursor.new (literal_at (flat_map (λ hash. hash) hashes.now) cursor.old) }
{
    for hash in hashes {
        cursor.literal(hash.as_bytes())?;
    }
    Ok(())
}

/// Passes a footer of these lists, and this footer's length.
fn pass_footer(
    cursor: &mut Cursor<'_>,
    info: &XorbObjectInfoV1,
    info_length: u32,
) -> Result<(), ReadError>
    ensures { Gives (λ x. x) result cursor.new (footer_at info.now info_length cursor.old) }
{
    cursor.literal(b"XETPORT1")?;
    cursor.literal(info.xorb_hash.as_bytes())?;
    pass_number(cursor, info.num_chunks)?;
    pass_hashes(cursor, info.chunk_hashes.as_slice())?;
    pass_numbers(cursor, info.chunk_boundary_offsets.as_slice())?;
    pass_numbers(cursor, info.unpacked_chunk_offsets.as_slice())?;
    pass_number(cursor, info_length)
}

/// Whether the footer of this object and the footer's length stand there, or nothing does.
///
/// `Malformed` exactly where other bytes do. No copy of the footer is made.
pub(crate) fn read_footer(content: &[u8], object: &XorbObject) -> Result<bool, ReadError>
    ensures { ReadsFooter content.now object.now result }
{
    if content.is_empty() {
        return Ok(false);
    }
    let mut cursor = Cursor::new(content);
    pass_footer(&mut cursor, &object.info, object.info_length)?;
    cursor.end()?;
    Ok(true)
}
