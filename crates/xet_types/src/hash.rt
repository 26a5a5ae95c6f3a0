//! Hashes of chunks, xorbs and shards.
ghost use Rattle.std.specs.Prelude.{◌≡◌, ◌↔◌, ◌<◌, ℕ, Ok, IsOk, IfOk, length, map, slice_index};
ghost use Rattle.std.specs.List.{AllPass};
ghost use Rattle.std.specs.String.{string_bytes};
ghost use Rattle.hex.specs.Hex.{decode_sized, encode_lower, is_hex_digit};
ghost use Rattle.xet_types.specs.Names.{Decodes, data_hash, name_of_hashes, file_name, hash_cmp};

use crate::error::OutOfMemory;
use hex::FromHex;
use sha2::{Digest, Sha256};
use std::alloc::Global;
use std::cmp::Ordering;
use std::fmt;
use std::marker::Model;

/// The hash of a chunk, a xorb, a shard or a file: 32 bytes, which contracts see as the list of them.
///
/// Hashes are ordered by their bytes, and print as 64 lower-case hexadecimal digits. The default is all zeros.
#[derive(Clone, Copy, PartialEq, Eq, Hash, Default)]
pub struct MerkleHash {
    bytes: [u8; 32],
}

impl Model for MerkleHash {
    ghost use Rattle.std.specs.Prelude.{List, ℕ};

    ghost Value = { List ℕ };

    ghost view = { λ h. h.bytes };

    ghost inverse = { λ bytes. record { bytes = bytes } };
}

/// The text isn't 64 hexadecimal digits.
#[derive(Clone, Copy, Debug, PartialEq, Eq)]
pub struct NotHex;

impl MerkleHash {
    /// The hash of these 32 bytes.
    pub fn from_bytes(bytes: [u8; 32]) -> MerkleHash
        ensures { result ≡ bytes }
    {
        MerkleHash { bytes }
    }

    /// The 32 bytes.
    pub fn as_bytes(&self) -> &[u8; 32]
        ensures value { result.now ≡ self.now }
        ensures length { length self.now ≡ 32 }
    {
        &self.bytes
    }

    /// The 32 bytes as a slice.
    pub fn as_slice(&self) -> &[u8]
        ensures value { result.now ≡ self.now }
        ensures length { length self.now ≡ 32 }
        ensures bytes { (i : ℕ) → slice_index self.now i < 256 }
    {
        let bytes = self.bytes.as_slice();
        bytes
    }

    /// The 64 lower-case digits.
    pub fn hex(&self, alloc: Global) -> Result<String, OutOfMemory>
        ensures text { IfOk result (λ text. string_bytes text ≡ encode_lower self.now) }
        ensures reads_back { IfOk result (λ text. decode_sized (string_bytes text) 32 ≡ Ok self.now) }
    {
        let text = hex::encode(alloc, self.as_slice())?;
        Ok(text)
    }

    /// The hash that 64 hexadecimal digits of either case spell. Takes no memory.
    pub fn from_hex(text: &str) -> Result<MerkleHash, NotHex>
        ensures value { Decodes text.now result }
        ensures digits { IsOk result ↔ ((length text.now ≡ 64) × AllPass is_hex_digit text.now) }
    {
        MerkleHash::from_hex_bytes(text.as_bytes())
    }

    /// The same of a text's bytes.
    pub fn from_hex_bytes(text: &[u8]) -> Result<MerkleHash, NotHex>
        ensures value { Decodes text.now result }
        ensures digits { IsOk result ↔ ((length text.now ≡ 64) × AllPass is_hex_digit text.now) }
    {
        match <[u8; 32] as FromHex>::from_hex(text) {
            Ok(bytes) => Ok(MerkleHash { bytes }),
            Err(_) => Err(NotHex),
        }
    }
}

impl PartialOrd for MerkleHash {
    ghost use Rattle.std.specs.Prelude.{Some};
    ghost use Rattle.std.specs.Cmp.Lexicographic.{texts_po};

    ghost partial_cmp = { λ a b. Some (hash_cmp a b) };

    ghost laws = { texts_po };

    fn partial_cmp(&self, other: &MerkleHash) -> Option<Ordering> {
        Some(self.cmp(other))
    }
}

impl Ord for MerkleHash {
    ghost use Rattle.std.specs.Prelude.{refl};
    ghost use Rattle.std.specs.Cmp.Lexicographic.{nat_list_cmp_total, texts_ties};

    ghost cmp = { hash_cmp };

    ghost total = { nat_list_cmp_total };

    ghost matches_partial_cmp = { λ a b. refl };

    ghost matches_eq = { texts_ties };

    /// Most hashes differ in their first byte, which is compared where `cmp` is called.
    #[inline(always)]
    fn cmp(&self, other: &MerkleHash) -> Ordering {
        let first = self.bytes[0].cmp(&other.bytes[0]);
        if first.is_ne() {
            first
        } else {
            cmp_all(&self.bytes, &other.bytes)
        }
    }
}

/// The order of all bytes.
#[inline(never)]
fn cmp_all(a: &[u8; 32], b: &[u8; 32]) -> Ordering
    ensures { result ≡ hash_cmp a.now b.now }
{
    a.cmp(b)
}

impl fmt::Display for MerkleHash {
    ghost use Rattle.std.specs.Prelude.{Some};
    ghost use Rattle.hex.specs.Hex.{encode_lower};

    ghost output = { λ h. Some (encode_lower h) };

    fn fmt<W: fmt::Write>(&self, f: &mut fmt::Formatter<W>) -> fmt::Result {
        let mut digits = [0u8; 64];
        hex::encode_to_slice(&self.bytes, &mut digits).map_err(|_| fmt::Error)?;
        let text = std::str::from_utf8(&digits).map_err(|_| fmt::Error)?;
        f.write_str(text)
    }
}

impl fmt::Debug for MerkleHash {
    ghost use Rattle.std.specs.Prelude.{Some};
    ghost use Rattle.hex.specs.Hex.{encode_lower};

    ghost debug_output = { λ h. Some (encode_lower h) };

    fn fmt<W: fmt::Write>(&self, f: &mut fmt::Formatter<W>) -> fmt::Result {
        fmt::Display::fmt(self, f)
    }
}

/// SHA-256 of the bytes (FIPS 180-4): the hash of a chunk. Takes no memory.
pub fn compute_data_hash(content: &[u8]) -> MerkleHash
    ensures { result ≡ data_hash content.now }
{
    MerkleHash::from_bytes(Sha256::digest(content))
}

/// SHA-256 of the joined chunk hashes: the name of a xorb. Takes no memory.
pub fn xorb_hash(chunk_hashes: &[MerkleHash]) -> MerkleHash
    ensures { result ≡ name_of_hashes chunk_hashes.now }
{
    let mut hasher = Sha256::new();
    for hash in chunk_hashes {
        hasher.update(hash.as_bytes());
    }
    MerkleHash::from_bytes(hasher.finalize())
}

/// SHA-256 of each chunk's hash and size, and then of the salt: the name of a file of these chunks.
///
/// A size is a number of bytes, written as 8 bytes, the lowest first. Takes no memory.
pub fn file_hash_with_salt(chunks: &[(MerkleHash, u64)], salt: &[u8; 32]) -> MerkleHash
    ensures { result ≡ file_name chunks.now salt.now }
{
    let mut hasher = Sha256::new();
    for (hash, size) in chunks {
        hasher.update(hash.as_bytes());
        hasher.update(size.to_le_bytes());
    }
    hasher.update(salt);
    MerkleHash::from_bytes(hasher.finalize())
}
