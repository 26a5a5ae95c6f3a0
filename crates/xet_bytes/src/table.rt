//! Values by hash and by number, which contracts see as finite maps.
use std::alloc::Global;
use std::collections::BTreeMap;
use std::collections::btree_map::Values;
use std::marker::Model;
use xet_types::{MerkleHash, OutOfMemory};

/// Values by number.
#[derive(Drop)]
pub struct ByNumber<V> {
    map: BTreeMap<u64, V>,
}

impl<V> Model for ByNumber<V> {
    ghost use Rattle.std.specs.FinMap as finmap;
    ghost use Rattle.std.specs.Ordering.{nat_cmp};
    ghost use Rattle.std.specs.Coded.{coded_ℕ};

    ghost Value = { finmap.FinMap nat_cmp V };

    ghost coded = { finmap.code coded_ℕ V.code };

    ghost view = { λ t. finmap.from_entries t.map.entries };
}

impl<V: Drop> ByNumber<V> {
    ghost use Rattle.std.specs.Prelude.{◌≡◌, None, IfOk, OnOk, OnErr};
    ghost use Rattle.std.specs.Option.{option_copied};
    ghost use Rattle.std.specs.FinMap as finmap;

    /// No values. Takes no memory.
    pub fn new(alloc: Global) -> ByNumber<V>
        ensures { result ≡ finmap.empty }
    {
        ByNumber {
            map: BTreeMap::new(alloc),
        }
    }

    /// The value at the number.
    pub fn get(&self, key: u64) -> Option<&V>
        ensures { option_copied result ≡ finmap.get self.now key }
    {
        self.map.get(&key)
    }

    /// The values, in order of number. Takes no memory.
    pub fn values(&self) -> Values<'_, u64, V>
        ensures { result ≡ finmap.values self.now }
    {
        self.map.values()
    }

    /// Puts a value at the number, and answers the one that was there. Only a new number takes memory; where there is
    /// none, the map stays as it was.
    pub fn insert(&mut self, key: u64, value: V) -> Result<Option<V>, OutOfMemory>
        ensures old { IfOk result (λ old. old ≡ finmap.get self.old key) }
        ensures ok { OnOk result (self.new ≡ finmap.insert self.old key value) }
        ensures err { OnErr result (self.new ≡ self.old) }
        ensures absent { OnErr result (finmap.get self.old key ≡ None) }
    {
        let old = self.map.insert(key, value)?;
        Ok(old)
    }

    /// Takes the value at the number out, where there is one.
    pub fn remove(&mut self, key: u64) -> Option<V>
        ensures value { result ≡ finmap.get self.old key }
        ensures removed { self.new ≡ finmap.remove self.old key }
    {
        self.map.remove(&key)
    }
}

/// Values by hash.
#[derive(Drop)]
pub struct ByHash<V> {
    map: BTreeMap<MerkleHash, V>,
}

impl<V> Model for ByHash<V> {
    ghost use Rattle.std.specs.FinMap as finmap;
    ghost use Rattle.xet_types.specs.Names.{hash_cmp};
    ghost use Rattle.std.specs.Coded.{coded_list, coded_ℕ};

    ghost Value = { finmap.FinMap hash_cmp V };

    ghost coded = { finmap.code (coded_list coded_ℕ) V.code };

    ghost view = { λ t. finmap.from_entries {R = hash_cmp} t.map.entries };
}

impl<V: Drop> ByHash<V> {
    ghost use Rattle.std.specs.Prelude.{◌≡◌, None, IfOk, OnOk, OnErr};
    ghost use Rattle.std.specs.Option.{option_copied, is_some};
    ghost use Rattle.std.specs.FinMap as finmap;

    /// No values. Takes no memory.
    pub fn new(alloc: Global) -> ByHash<V>
        ensures { result ≡ finmap.empty }
    {
        ByHash {
            map: BTreeMap::new(alloc),
        }
    }

    /// The value at the hash.
    pub fn get(&self, key: &MerkleHash) -> Option<&V>
        ensures { option_copied result ≡ finmap.get self.now key.now }
    {
        self.map.get(key)
    }

    /// Whether there is a value at the hash.
    pub fn contains(&self, key: &MerkleHash) -> bool
        ensures { result ≡ is_some (finmap.get self.now key.now) }
    {
        self.map.contains_key(key)
    }

    /// The hashes in order.
    pub fn keys(&self, alloc: Global) -> Result<Vec<MerkleHash>, OutOfMemory>
        ensures { IfOk result (λ keys. keys.items ≡ finmap.keys self.now) }
    {
        let keys = self.map.keys().copied().collect(alloc)?;
        Ok(keys)
    }

    /// Puts a value at the hash, and answers the one that was there. Only a new hash takes memory; where there is none,
    /// the map stays as it was.
    pub fn insert(&mut self, key: MerkleHash, value: V) -> Result<Option<V>, OutOfMemory>
        ensures old { IfOk result (λ old. old ≡ finmap.get self.old key) }
        ensures ok { OnOk result (self.new ≡ finmap.insert self.old key value) }
        ensures err { OnErr result (self.new ≡ self.old) }
        ensures absent { OnErr result (finmap.get self.old key ≡ None) }
    {
        let old = self.map.insert(key, value)?;
        Ok(old)
    }

    /// Takes the value at the hash out, where there is one.
    pub fn remove(&mut self, key: &MerkleHash) -> Option<V>
        ensures value { result ≡ finmap.get self.old key.now }
        ensures removed { self.new ≡ finmap.remove self.old key.now }
    {
        self.map.remove(key)
    }
}
