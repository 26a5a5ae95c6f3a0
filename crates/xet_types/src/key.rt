//! Keys, and the texts by which a client and a server agree.
ghost use Rattle.std.specs.Prelude.{◌≡◌, MatchOption, IfOk};
ghost use Rattle.xet_types.specs.Keys.{SpellsKey, ReadsKey};

use crate::error::{ClientError, OutOfMemory};
use crate::hash::MerkleHash;
use memchr::memrchr;
use std::alloc::Global;
use std::cmp::Ordering;
use std::fmt;
use std::hash::{Hash, Hasher};
use std::marker::Model;

/// Where a client looks for its server if nothing else is set.
pub const CAS_ENDPOINT: &str = "http://localhost:8080";

/// The prefix of a key if nothing else is set.
pub const PREFIX_DEFAULT: &str = "default";

/// The header that names a session of related requests.
pub const SESSION_ID_HEADER: &str = "X-Xet-Session-Id";

/// The header that names a request.
pub const REQUEST_ID_HEADER: &str = "X-Request-Id";

/// A hash below a prefix, ordered by the prefix, then by the hash. It prints as `prefix/hash`.
#[derive(Debug, Drop)]
pub struct Key {
    pub prefix: String,
    pub hash: MerkleHash,
}

impl Model for Key {
    ghost use Rattle.std.specs.Prelude.{string_bytes};
    ghost use Rattle.xet_types.specs.Keys.{KeyParts};

    ghost Value = { KeyParts };

    ghost view = { λ k. record { prefix = string_bytes k.prefix; hash = k.hash } };
}

/// What stands before the last slash, and the hash that stands after it.
fn parts_of(text: &str) -> Option<(&str, MerkleHash)>
    ensures { MatchOption result ((k : _) → ¬ SpellsKey text.now k) (λ p. SpellsKey text.now (record { prefix = p.0.now; hash = p.1 })) }
{
    let bytes = text.as_bytes();
    let Some(at) = memrchr(b'/', bytes) else {
        return None;
    };
    match MerkleHash::from_hex_bytes(&bytes[at + 1..]) {
        Ok(hash) => Some((&text[..at], hash)),
        Err(_) => None,
    }
}

impl Key {
    /// The key that the text spells: a prefix, the last `/` of the text, and the 64 digits of a hash, of either case.
    ///
    /// [`ClientError::InvalidKey`], with the text, exactly where it has no `/` or where no hash follows the last one.
    pub fn from_str(alloc: Global, text: &str) -> Result<Key, ClientError>
        ensures { ReadsKey text.now result }
    {
        match parts_of(text) {
            Some((prefix, hash)) => Ok(Key {
                prefix: String::from_str(alloc, prefix)?,
                hash,
            }),
            None => Err(ClientError::InvalidKey(String::from_str(alloc, text)?)),
        }
    }

    /// Another key of the same parts.
    pub fn clone(&self, alloc: Global) -> Result<Key, OutOfMemory>
        ensures { IfOk result (λ k. k ≡ self.now) }
    {
        Ok(Key {
            prefix: String::from_str(alloc, self.prefix.as_str())?,
            hash: self.hash,
        })
    }
}

impl fmt::Display for Key {
    ghost use Rattle.std.specs.Prelude.{Some};
    ghost use Rattle.xet_types.specs.Keys.{key_text};

    ghost output = { λ k. Some (key_text k) };

    fn fmt<W: fmt::Write>(&self, f: &mut fmt::Formatter<W>) -> fmt::Result {
        write!(f, "{}/{}", self.prefix, self.hash)
    }
}

impl PartialEq for Key {
    ghost use Rattle.xet_types.specs.Keys.{same_key, same_key_equiv};
    ghost use Rattle.std.specs.Cmp.{partial_equiv_from_equiv};

    ghost eq = { same_key };

    ghost laws = { partial_equiv_from_equiv same_key_equiv };

    fn eq(&self, other: &Key) -> bool {
        self.prefix == other.prefix && self.hash == other.hash
    }
}

impl Eq for Key {
    ghost use Rattle.xet_types.specs.Keys.{same_key_equiv};

    ghost laws = { same_key_equiv };
}

impl Ord for Key {
    ghost use Rattle.std.specs.Prelude.{refl};
    ghost use Rattle.xet_types.specs.Keys.{key_cmp, key_cmp_total, same_key_ties};

    ghost cmp = { key_cmp };

    ghost total = { key_cmp_total };

    ghost matches_partial_cmp = { λ _ _. refl };

    ghost matches_eq = { same_key_ties };

    fn cmp(&self, other: &Key) -> Ordering {
        self.prefix
            .cmp(&other.prefix)
            .then(self.hash.cmp(&other.hash))
    }
}

impl PartialOrd for Key {
    ghost use Rattle.std.specs.Prelude.{refl};
    ghost use Rattle.std.specs.Cmp.{partial_order_from_agreeing_total};
    ghost use Rattle.std.specs.Ordering.{as_partial_cmp};
    ghost use Rattle.xet_types.specs.Keys.{key_cmp, key_cmp_total, same_key_ties};

    ghost partial_cmp = { as_partial_cmp key_cmp };

    ghost laws = { partial_order_from_agreeing_total key_cmp key_cmp_total (λ _ _. refl) same_key_ties };

    fn partial_cmp(&self, other: &Key) -> Option<Ordering> {
        Some(self.cmp(other))
    }
}

impl Hash for Key {
    ghost use Rattle.xet_types.specs.Keys.{key_writes, key_writes_alike};

    ghost hash_input = { key_writes };

    ghost respects_eq = { key_writes_alike };

    fn hash<H: Hasher>(&self, state: &mut H) {
        self.prefix.hash(state);
        state.write(self.hash.as_slice());
    }
}

/// The same parts as a key, where a record names a file.
#[derive(Debug, Drop)]
pub struct HexKey {
    pub prefix: String,
    pub hash: MerkleHash,
}

impl Model for HexKey {
    ghost use Rattle.std.specs.Prelude.{string_bytes};
    ghost use Rattle.xet_types.specs.Keys.{KeyParts};

    ghost Value = { KeyParts };

    ghost view = { λ k. record { prefix = string_bytes k.prefix; hash = k.hash } };
}

impl HexKey {
    /// Another of the same parts.
    pub fn clone(&self, alloc: Global) -> Result<HexKey, OutOfMemory>
        ensures { IfOk result (λ k. k ≡ self.now) }
    {
        Ok(HexKey {
            prefix: String::from_str(alloc, self.prefix.as_str())?,
            hash: self.hash,
        })
    }
}

impl PartialEq for HexKey {
    ghost use Rattle.xet_types.specs.Keys.{same_key, same_key_equiv};
    ghost use Rattle.std.specs.Cmp.{partial_equiv_from_equiv};

    ghost eq = { same_key };

    ghost laws = { partial_equiv_from_equiv same_key_equiv };

    fn eq(&self, other: &HexKey) -> bool {
        self.prefix == other.prefix && self.hash == other.hash
    }
}

impl Eq for HexKey {
    ghost use Rattle.xet_types.specs.Keys.{same_key_equiv};

    ghost laws = { same_key_equiv };
}

impl Ord for HexKey {
    ghost use Rattle.std.specs.Prelude.{refl};
    ghost use Rattle.xet_types.specs.Keys.{key_cmp, key_cmp_total, same_key_ties};

    ghost cmp = { key_cmp };

    ghost total = { key_cmp_total };

    ghost matches_partial_cmp = { λ _ _. refl };

    ghost matches_eq = { same_key_ties };

    fn cmp(&self, other: &HexKey) -> Ordering {
        self.prefix
            .cmp(&other.prefix)
            .then(self.hash.cmp(&other.hash))
    }
}

impl PartialOrd for HexKey {
    ghost use Rattle.std.specs.Prelude.{refl};
    ghost use Rattle.std.specs.Cmp.{partial_order_from_agreeing_total};
    ghost use Rattle.std.specs.Ordering.{as_partial_cmp};
    ghost use Rattle.xet_types.specs.Keys.{key_cmp, key_cmp_total, same_key_ties};

    ghost partial_cmp = { as_partial_cmp key_cmp };

    ghost laws = { partial_order_from_agreeing_total key_cmp key_cmp_total (λ _ _. refl) same_key_ties };

    fn partial_cmp(&self, other: &HexKey) -> Option<Ordering> {
        Some(self.cmp(other))
    }
}

impl Hash for HexKey {
    ghost use Rattle.xet_types.specs.Keys.{key_writes, key_writes_alike};

    ghost hash_input = { key_writes };

    ghost respects_eq = { key_writes_alike };

    fn hash<H: Hasher>(&self, state: &mut H) {
        self.prefix.hash(state);
        state.write(self.hash.as_slice());
    }
}

impl From<HexKey> for Key {
    ghost from_gives = { λ hex key. key ≡ hex };

    fn from(key: HexKey) -> Key {
        Key {
            prefix: key.prefix,
            hash: key.hash,
        }
    }
}

impl From<Key> for HexKey {
    ghost from_gives = { λ key hex. hex ≡ key };

    fn from(key: Key) -> HexKey {
        HexKey {
            prefix: key.prefix,
            hash: key.hash,
        }
    }
}

/// A hash as records and their texts name it. It prints as the hash, and is ordered as it is.
#[derive(Clone, Copy, Debug, PartialEq, Eq, PartialOrd, Ord, Hash, Default)]
pub struct HexMerkleHash(pub MerkleHash);

impl fmt::Display for HexMerkleHash {
    ghost use Rattle.std.specs.Prelude.{Some};
    ghost use Rattle.hex.specs.Hex.{encode_lower};

    ghost output = { λ h. Some (encode_lower h.0) };

    fn fmt<W: fmt::Write>(&self, f: &mut fmt::Formatter<W>) -> fmt::Result {
        fmt::Display::fmt(&self.0, f)
    }
}

impl From<MerkleHash> for HexMerkleHash {
    ghost from_gives = { λ hash hex. hex.0 ≡ hash };

    fn from(hash: MerkleHash) -> HexMerkleHash {
        HexMerkleHash(hash)
    }
}

impl From<&MerkleHash> for HexMerkleHash {
    ghost from_gives = { λ hash hex. hex.0 ≡ hash.now };

    fn from(hash: &MerkleHash) -> HexMerkleHash {
        HexMerkleHash(*hash)
    }
}

impl From<HexMerkleHash> for MerkleHash {
    ghost from_gives = { λ hex hash. hash ≡ hex.0 };

    fn from(hex: HexMerkleHash) -> MerkleHash {
        hex.0
    }
}

impl From<&HexMerkleHash> for MerkleHash {
    ghost from_gives = { λ hex hash. hash ≡ hex.now.0 };

    fn from(hex: &HexMerkleHash) -> MerkleHash {
        hex.0
    }
}
