//! A place in bytes, and the fields behind it.
ghost use Rattle.std.specs.Prelude.{◌≡◌, ◌↔◌, ℕ, [], IsTrue, IfOk, IfErr, length};
ghost use Rattle.std.specs.Int.{w32, w64};
ghost use Rattle.xet_bytes.specs.declared.cursor.ReadError.TheVariants.{Memory, Malformed};
ghost use Rattle.xet_bytes.specs.Reading.{Gives, bytes_at, number_at, number24_at, literal_at, nothing_at};

use std::alloc::{AllocError, AllocFailed};
use std::marker::Model;
use xet_types::{MerkleHash, OutOfMemory};

/// Why a field isn't read.
#[derive(Clone, Copy, Debug, PartialEq, Eq)]
pub enum ReadError {
    /// There was no memory.
    Memory,
    /// The bytes don't begin with such a field.
    Malformed,
}

impl From<OutOfMemory> for ReadError {
    ghost from_gives = { λ _ e. e ≡ Memory };

    fn from(_e: OutOfMemory) -> ReadError {
        ReadError::Memory
    }
}

impl From<AllocError> for ReadError {
    ghost from_gives = { λ _ e. e ≡ Memory };

    fn from(_e: AllocError) -> ReadError {
        ReadError::Memory
    }
}

impl<T: Drop> From<AllocFailed<T>> for ReadError {
    ghost from_gives = { λ _ e. e ≡ Memory };

    fn from(_e: AllocFailed<T>) -> ReadError {
        ReadError::Memory
    }
}

/// A place in bytes, which contracts see as the bytes that are left.
///
/// Each call reads a field from the front: Ok answers it and passes it, and the bytes are malformed exactly where they
/// don't begin with such a field. Then nothing is passed. No call takes memory.
#[derive(Drop)]
pub struct Cursor<'a> {
    rest: &'a [u8],
}

impl<'a> Model for Cursor<'a> {
    ghost use Rattle.std.specs.Prelude.{List, ℕ};

    ghost Value = { List ℕ };

    ghost view = { λ c. c.rest.now };
}

impl<'a> Cursor<'a> {
    /// At the front of the bytes.
    pub fn new(bytes: &'a [u8]) -> Cursor<'a>
        ensures { result ≡ bytes.now }
    {
        Cursor { rest: bytes }
    }

    /// Whether nothing is left.
    pub fn is_empty(&self) -> bool
        ensures { IsTrue result ↔ (self.now ≡ []) }
    {
        self.rest.is_empty()
    }

    /// How many bytes are left.
    pub fn len(&self) -> usize
        ensures { result ≡ length self.now }
    {
        self.rest.len()
    }

    /// Tests that nothing is left.
    pub fn end(&self) -> Result<(), ReadError>
        ensures value { Gives (λ x. x) result self.now (nothing_at self.now) }
        ensures err { IfErr result (λ e. e ≡ Malformed) }
    {
        if self.rest.is_empty() {
            Ok(())
        } else {
            Err(ReadError::Malformed)
        }
    }

    /// The next bytes, so many.
    pub fn bytes(&mut self, count: usize) -> Result<&'a [u8], ReadError>
        ensures value { Gives (λ x. x.now) result self.new (bytes_at count self.old) }
        ensures err { IfErr result (λ e. (e ≡ Malformed) × (self.new ≡ self.old)) }
        ensures length { IfOk result (λ x. length x.now ≡ count) }
    {
        if self.rest.len() < count {
            return Err(ReadError::Malformed);
        }
        let (front, rest) = self.rest.split_at(count);
        self.rest = rest;
        Ok(front)
    }

    /// The next 32 bytes.
    pub fn hash(&mut self) -> Result<MerkleHash, ReadError>
        ensures value { Gives (λ x. x) result self.new (bytes_at 32 self.old) }
        ensures err { IfErr result (λ e. (e ≡ Malformed) × (self.new ≡ self.old)) }
    {
        let bytes = self.bytes(32)?;
        let mut hash = [0; 32];
        hash.copy_from_slice(bytes);
        Ok(MerkleHash::from_bytes(hash))
    }

    /// A number in three bytes, the low byte first.
    pub fn u24(&mut self) -> Result<u32, ReadError>
        ensures value { Gives (λ n. n) result self.new (number24_at self.old) }
        ensures err { IfErr result (λ e. (e ≡ Malformed) × (self.new ≡ self.old)) }
    {
        let bytes = self.bytes(3)?;
        Ok(u32::from_le_bytes([bytes[0], bytes[1], bytes[2], 0]))
    }

    /// A number in four bytes, the low byte first.
    pub fn u32(&mut self) -> Result<u32, ReadError>
        ensures value { Gives (λ n. n) result self.new (number_at w32 self.old) }
        ensures err { IfErr result (λ e. (e ≡ Malformed) × (self.new ≡ self.old)) }
    {
        let bytes = self.bytes(4)?;
        Ok(u32::from_le_bytes([bytes[0], bytes[1], bytes[2], bytes[3]]))
    }

    /// A number in eight bytes, the low byte first.
    pub fn u64(&mut self) -> Result<u64, ReadError>
        ensures value { Gives (λ n. n) result self.new (number_at w64 self.old) }
        ensures err { IfErr result (λ e. (e ≡ Malformed) × (self.new ≡ self.old)) }
    {
        let bytes = self.bytes(8)?;
        Ok(u64::from_le_bytes([
            bytes[0], bytes[1], bytes[2], bytes[3], bytes[4], bytes[5], bytes[6], bytes[7],
        ]))
    }

    /// Tests that these bytes come next, and passes them.
    pub fn literal(&mut self, text: &[u8]) -> Result<(), ReadError>
        ensures value { Gives (λ x. x) result self.new (literal_at text.now self.old) }
        ensures err { IfErr result (λ e. (e ≡ Malformed) × (self.new ≡ self.old)) }
    {
        match self.rest.strip_prefix(text) {
            Some(rest) => {
                self.rest = rest;
                Ok(())
            }
            None => Err(ReadError::Malformed),
        }
    }
}
