//! Writing fields of bytes at the end of a text.
//!
//! Where there is no memory, the text stays as it was.
ghost use Rattle.std.specs.Prelude.{◌≡◌, ◌++◌, ◌<◌, ◌^◌, OnOk, OnErr, length};
ghost use Rattle.xet_bytes.specs.Fields.{le24, le32, le64};

use xet_types::{MerkleHash, OutOfMemory};

/// Adds the low three bytes of a number below 2^24, the low byte first.
#[tactic(auto, unfolding(crate::specs::Fields::le24))]
pub fn put_u24(out: &mut Vec<u8>, n: u32) -> Result<(), OutOfMemory>
    ensures ok { OnOk result (out.new.items ≡ out.old.items ++ le24 n) }
    ensures err { OnErr result (out.new.items ≡ out.old.items) }
{
    let bytes = n.to_le_bytes();
    out.extend_from_slice(&bytes[..3])?;
    Ok(())
}

/// Adds a number in four bytes, the low byte first.
#[tactic(auto, unfolding(crate::specs::Fields::le32))]
pub fn put_u32(out: &mut Vec<u8>, n: u32) -> Result<(), OutOfMemory>
    ensures ok { OnOk result (out.new.items ≡ out.old.items ++ le32 n) }
    ensures fits { n < 2 ^ 32 }
    ensures err { OnErr result (out.new.items ≡ out.old.items) }
{
    out.extend_from_slice(&n.to_le_bytes())?;
    Ok(())
}

/// Adds a number in eight bytes, the low byte first.
#[tactic(auto, unfolding(crate::specs::Fields::le64))]
pub fn put_u64(out: &mut Vec<u8>, n: u64) -> Result<(), OutOfMemory>
    ensures ok { OnOk result (out.new.items ≡ out.old.items ++ le64 n) }
    ensures fits { n < 2 ^ 64 }
    ensures err { OnErr result (out.new.items ≡ out.old.items) }
{
    out.extend_from_slice(&n.to_le_bytes())?;
    Ok(())
}

/// Adds the 32 bytes of a hash.
pub fn put_hash(out: &mut Vec<u8>, hash: &MerkleHash) -> Result<(), OutOfMemory>
    ensures ok { OnOk result (out.new.items ≡ out.old.items ++ hash.now) }
    ensures fits { length hash.now ≡ 32 }
    ensures err { OnErr result (out.new.items ≡ out.old.items) }
{
    out.extend_from_slice(hash.as_bytes())?;
    Ok(())
}
