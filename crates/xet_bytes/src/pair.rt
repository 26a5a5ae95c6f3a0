//! Values by hash and number, and pairs of hashes, which contracts see as finite maps.
ghost use Rattle.std.specs.Prelude.{◌≡◌, None};
ghost use Rattle.std.specs.FinMap as finmap;
ghost use Rattle.xet_bytes.specs.Pairs.{pair_cmp, IsLastBelow, IsLast, KnowsLast, KnowsLastBut, is_at_end};

use crate::table::ByHash;
use std::alloc::Global;
use std::collections::BTreeMap;
use std::marker::Model;
use xet_types::{MerkleHash, OutOfMemory};

/// Values by hash and number, ordered by the hash, then by the number. The last number of each hash is noted, so that it is
/// found by the hash alone.
#[derive(Drop)]
pub struct ByHashAndNumber<V> {
    map: BTreeMap<(MerkleHash, u64), V>,
    /// The greatest number at which each hash has a value, and that value.
    last: ByHash<(u64, V)>,
}

impl<V> Model for ByHashAndNumber<V> {
    ghost use Rattle.std.specs.FinMap as finmap;
    ghost use Rattle.xet_bytes.specs.Pairs.{pair_cmp, KnowsLast};
    ghost use Rattle.std.specs.Coded.{coded×, coded_list, coded_ℕ};

    ghost Value = { finmap.FinMap pair_cmp V };

    ghost coded = { finmap.code (coded× (coded_list coded_ℕ) coded_ℕ) V.code };

    ghost view = { λ t. finmap.from_entries {R = pair_cmp} t.map.entries };

    ghost invariant = { λ t. KnowsLast (finmap.from_entries {R = pair_cmp} t.map.entries) t.last };
}

/// The greatest number below the end at which the hash has a value, and that value.
fn search_below<V: Copy + Drop>(
    map: &BTreeMap<(MerkleHash, u64), V>,
    hash: &MerkleHash,
    end: u64,
) -> Option<(u64, V)>
    ensures { IsLastBelow (finmap.from_entries {R = pair_cmp} map.now.entries) hash.now end result }
{
    let (key, value) = map.range(..(*hash, end)).next_back()?;
    if key.0 == *hash {
        Some((key.1, *value))
    } else {
        None
    }
}

/// The greatest number at which the hash has a value, and that value.
fn search_last<V: Copy + Drop>(
    map: &BTreeMap<(MerkleHash, u64), V>,
    hash: &MerkleHash,
) -> Option<(u64, V)>
    ensures { IsLast (finmap.from_entries {R = pair_cmp} map.now.entries) hash.now result }
{
    match map.get(&(*hash, u64::MAX)) {
        Some(value) => Some((u64::MAX, *value)),
        None => search_below(map, hash, u64::MAX),
    }
}

/// Whether no number of the hash that is noted as its last is above this one.
fn is_at_end<V: Copy + Drop>(last: &ByHash<(u64, V)>, hash: &MerkleHash, number: u64) -> bool
    ensures { result ≡ is_at_end (finmap.get last.now hash.now) number }
{
    match last.get(hash) {
        Some((noted, _)) => *noted <= number,
        None => true,
    }
}

/// Notes the last number of a hash anew, behind the removal of one. Takes no memory.
fn note_last<V: Copy + Drop>(
    last: &mut ByHash<(u64, V)>,
    map: &BTreeMap<(MerkleHash, u64), V>,
    hash: &MerkleHash,
)
    requires others { KnowsLastBut (finmap.from_entries {R = pair_cmp} map.now.entries) last.old hash.now }
    requires absent { (finmap.get last.old hash.now ≡ None) → IsLast (finmap.from_entries {R = pair_cmp} map.now.entries) hash.now None }
    ensures { KnowsLast (finmap.from_entries {R = pair_cmp} map.now.entries) last.new }
{
    match search_last(map, hash) {
        Some(noted) => {
            let _old = last.insert(*hash, noted);
        }
        None => {
            last.remove(hash);
        }
    }
}

impl<V: Copy + Drop> ByHashAndNumber<V> {
    ghost use Rattle.std.specs.Prelude.{◌≡◌, None, IfOk, OnOk, OnErr};
    ghost use Rattle.std.specs.FinMap as finmap;
    ghost use Rattle.xet_bytes.specs.Pairs.{IsLastBelow};

    /// No values. Takes no memory.
    pub fn new(alloc: Global) -> ByHashAndNumber<V>
        ensures { result ≡ finmap.empty }
    {
        ByHashAndNumber {
            map: BTreeMap::new(alloc),
            last: ByHash::new(alloc),
        }
    }

    /// Puts a value at the hash and the number, in place of one that was there. Where there is no memory, the map stays as
    /// it was.
    pub fn insert(&mut self, hash: MerkleHash, number: u64, value: V) -> Result<(), OutOfMemory>
        ensures ok { OnOk result (self.new ≡ finmap.insert self.old (hash, number) value) }
        ensures err { OnErr result (self.new ≡ self.old) }
    {
        let _old = self.map.insert((hash, number), value)?;
        if !is_at_end(&self.last, &hash, number) {
            return Ok(());
        }
        if let Err(error) = self.last.insert(hash, (number, value)) {
            self.map.remove(&(hash, number));
            return Err(error);
        }
        Ok(())
    }

    /// Takes the value at the hash and the number out, where there is one.
    pub fn remove(&mut self, hash: &MerkleHash, number: u64)
        ensures { self.new ≡ finmap.remove self.old (hash.now, number) }
    {
        self.map.remove(&(*hash, number));
        note_last(&mut self.last, &self.map, hash);
    }

    /// The greatest number below the end at which the hash has a value, and that value.
    pub fn last_below(&self, hash: &MerkleHash, end: u64) -> Option<(u64, V)>
        ensures { IsLastBelow self.now hash.now end result }
    {
        let (last, value) = self.last.get(hash)?;
        if *last < end {
            Some((*last, *value))
        } else {
            search_below(&self.map, hash, end)
        }
    }
}

/// Pairs of hashes, each once, ordered by the first hash, then by the second.
#[derive(Drop)]
pub struct HashPairs {
    map: BTreeMap<(MerkleHash, MerkleHash), ()>,
}

impl Model for HashPairs {
    ghost use Rattle.std.specs.FinMap as finmap;
    ghost use Rattle.xet_bytes.specs.Pairs.{hashes_cmp};
    ghost use Rattle.std.specs.Coded.{coded×, coded_list, coded_ℕ};
    ghost use base.Stored.{coded_unit};

    ghost Value = { finmap.FinMap hashes_cmp (Unit {0}) };

    ghost coded = { finmap.code (coded× (coded_list coded_ℕ) (coded_list coded_ℕ)) coded_unit };

    ghost view = { λ t. finmap.from_entries {R = hashes_cmp} t.map.entries };
}

impl HashPairs {
    ghost use Rattle.std.specs.Prelude.{◌≡◌, IfOk, OnOk, OnErr};
    ghost use Rattle.std.specs.FinMap as finmap;

    /// No pairs. Takes no memory.
    pub fn new(alloc: Global) -> HashPairs
        ensures { result ≡ finmap.empty }
    {
        HashPairs {
            map: BTreeMap::new(alloc),
        }
    }

    /// Puts a pair in. Where there is no memory, the pairs stay as they were.
    pub fn insert(&mut self, first: MerkleHash, second: MerkleHash) -> Result<(), OutOfMemory>
        ensures ok { OnOk result (self.new ≡ finmap.insert self.old (first, second) tt) }
        ensures err { OnErr result (self.new ≡ self.old) }
    {
        let _old = self.map.insert((first, second), ())?;
        Ok(())
    }

    /// The pairs in order.
    pub fn pairs(&self, alloc: Global) -> Result<Vec<(MerkleHash, MerkleHash)>, OutOfMemory>
        ensures { IfOk result (λ pairs. pairs.items ≡ finmap.keys self.now) }
    {
        let pairs = self.map.keys().copied().collect(alloc)?;
        Ok(pairs)
    }
}
