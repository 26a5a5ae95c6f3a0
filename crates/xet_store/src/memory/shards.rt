//! The accepted shards.
ghost use Rattle.std.specs.Prelude.{◌≡◌, None, true, IfOk, OnOk, OnErr};
ghost use Rattle.std.specs.Option.{option_copied, is_some};
ghost use Rattle.std.specs.FinMap.{get, insert, remove, keys};
ghost use Rattle.std.specs.List.Sorted.{IsStrictlySortedBy};
ghost use Rattle.std.specs.Prelude.{map, ℕ, List};
ghost use Rattle.xet_types.specs.Names.{hash_cmp};
ghost use Rattle.xet_shard.specs.Canonical.{shard_name, canonical_of, canonical_text, file_hash_of};
ghost use Rattle.xet_store.specs.StoreModel.{last_shard, listed_in, shard_named, with_shard, without_shard};
ghost use Rattle.xet_store.specs.Kept.{IsListed};
ghost use Rattle.xet_store.specs.Lists.{set_of};
ghost use Rattle.xet_store.specs.Questions.{dedup_text};
ghost use Rattle.xet_store.specs.Indexed.{with_pairs, without_pairs, unlisted, AddsSome, IsFresh};

use bytes::Bytes;
use std::alloc::Global;
use std::collections::btree_map::Values;
use std::marker::Model;
use xet_bytes::{ByHash, ByHashAndNumber, ByNumber};
use xet_shard::{FileListing, Shard, canonical, write_shard, xorb_subset_with_expiry};
use xet_types::{MerkleHash, OutOfMemory, compute_data_hash};

/// A shard in canonical form, and its name.
#[derive(Drop)]
pub struct KeptShard {
    name: MerkleHash,
    shard: Shard,
}

impl Model for KeptShard {
    ghost use Rattle.xet_shard.specs.Listings.{ShardModel};
    ghost use Rattle.xet_shard.specs.contracts.listing.Shard.{the_row};
    ghost use Rattle.xet_store.specs.Indexed.{IsKeptShard};

    ghost Value = { ShardModel };

    ghost coded = { the_row.coded };

    ghost view = { λ k. k.shard };

    ghost invariant = { λ k. IsKeptShard k.name k.shard };
}

impl KeptShard {
    /// The canonical form of a shard under its name.
    pub fn canonical(alloc: Global, shard: &Shard) -> Result<KeptShard, OutOfMemory>
        ensures { IfOk result (λ kept. kept ≡ canonical_of shard.now) }
    {
        let shard = canonical(alloc, shard)?;
        let text = write_shard(alloc, &shard)?;
        let name = compute_data_hash(&text);
        Ok(KeptShard { name, shard })
    }

    /// The name of the shard.
    pub fn name(&self) -> &MerkleHash
        ensures { result.now ≡ shard_name self.now }
    {
        &self.name
    }

    /// The shard itself.
    pub fn shard(&self) -> &Shard
        ensures { result.now ≡ self.now }
    {
        &self.shard
    }

    /// The files that it lists, in order of hash.
    pub fn files(&self) -> &[FileListing]
        ensures value { result.now ≡ self.now.files }
        ensures rises { IsStrictlySortedBy hash_cmp (map file_hash_of self.now.files) }
    {
        self.shard.files()
    }

    /// Its canonical text.
    pub fn text(&self, alloc: Global) -> Result<Bytes, OutOfMemory>
        ensures { IfOk result (λ text. text ≡ canonical_text self.now) }
    {
        write_shard(alloc, &self.shard)
    }

    /// Its text as it is answered at a moment in milliseconds: where answers expire after so many seconds, without its files.
    pub fn dedup_text(
        &self,
        alloc: Global,
        seconds: Option<u64>,
        at: u64,
    ) -> Result<Bytes, OutOfMemory>
        ensures { IfOk result (λ text. text ≡ dedup_text seconds at self.now) }
    {
        match seconds {
            Some(seconds) => {
                let expiry = (at / 1000).saturating_add(seconds);
                xorb_subset_with_expiry(alloc, &self.shard, expiry)
            }
            None => self.text(alloc),
        }
    }

    /// The listing of the file, where there is one.
    pub fn listing(&self, file: &MerkleHash) -> Option<&FileListing>
        ensures { IsListed file.now (listed_in self.now.files file.now) result }
    {
        let files = self.files();
        match files.binary_search_by(|listing| listing.file_hash.cmp(file)) {
            Ok(place) => Some(&files[place]),
            Err(_) => None,
        }
    }
}

/// Adds the pairs of the files and a serial number. Where there is no memory, some are added.
fn list(
    listed: &mut ByHashAndNumber<()>,
    files: &[FileListing],
    serial: u64,
) -> Result<(), OutOfMemory>
    ensures ok { OnOk result (listed.new ≡ with_pairs listed.old files.now serial) }
    ensures err { OnErr result (AddsSome listed.old files.now serial listed.new) }
{
    for file in files {
        listed.insert(file.file_hash, serial, ())?;
    }
    Ok(())
}

/// Takes the pairs of the files and a serial number out.
fn unlist(listed: &mut ByHashAndNumber<()>, files: &[FileListing], serial: u64)
    ensures { listed.new ≡ without_pairs listed.old files.now serial }
{
    for file in files {
        listed.remove(&file.file_hash, serial);
    }
}

/// Puts a shard's name and files under a new serial number, and answers the number that the name had. Where there is no memory,
/// all stays as it was.
fn index(
    by_name: &mut ByHash<u64>,
    listed: &mut ByHashAndNumber<()>,
    shard: &KeptShard,
    serial: u64,
) -> Result<Option<u64>, OutOfMemory>
    requires { IsFresh listed.old serial }
    ensures earlier { IfOk result (λ earlier. earlier ≡ get by_name.old (shard_name shard.now)) }
    ensures named { OnOk result (by_name.new ≡ insert by_name.old (shard_name shard.now) serial) }
    ensures listed { OnOk result (listed.new ≡ with_pairs listed.old shard.now.files serial) }
    ensures unnamed { OnErr result (by_name.new ≡ by_name.old) }
    ensures unlisted { OnErr result (listed.new ≡ listed.old) }
{
    if let Err(error) = list(listed, shard.files(), serial) {
        unlist(listed, shard.files(), serial);
        return Err(error);
    }
    match by_name.insert(*shard.name(), serial) {
        Ok(earlier) => Ok(earlier),
        Err(error) => {
            unlist(listed, shard.files(), serial);
            Err(error)
        }
    }
}

/// Takes the shard under a serial number out, and the pairs of its files.
fn take_out(kept: &mut ByNumber<KeptShard>, listed: &mut ByHashAndNumber<()>, serial: u64)
    ensures kept { kept.new ≡ remove kept.old serial }
    ensures listed { listed.new ≡ unlisted listed.old serial (get kept.old serial) }
{
    if let Some(shard) = kept.remove(serial) {
        unlist(listed, shard.files(), serial);
    }
}

/// The shards in order of acceptance.
///
/// Each acceptance has the next serial number, by which the shard is kept. A shard is found by its name and, as the last of
/// those that list a file, by the file; neither looks at other shards.
#[derive(Drop)]
pub struct ShardTable {
    kept: ByNumber<KeptShard>,
    by_name: ByHash<u64>,
    /// The pairs of a file and the serial number of a shard that lists it.
    listed: ByHashAndNumber<()>,
    next: u64,
}

impl Model for ShardTable {
    ghost use Rattle.std.specs.Prelude.{List};
    ghost use Rattle.std.specs.Coded.{coded_list};
    ghost use Rattle.xet_shard.specs.Listings.{ShardModel};
    ghost use Rattle.xet_shard.specs.contracts.listing.Shard.{the_row};
    ghost use Rattle.xet_store.specs.Indexed.{in_order, IsIndexed};

    ghost Value = { List ShardModel };

    ghost coded = { coded_list the_row.coded };

    ghost view = { λ t. in_order t.kept };

    ghost invariant = { λ t. IsIndexed t.kept t.by_name t.listed t.next };
}

impl ShardTable {
    ghost use Rattle.std.specs.Prelude.{[]};

    /// No shards. Takes no memory.
    pub fn new(alloc: Global) -> ShardTable
        ensures { result ≡ [] }
    {
        ShardTable {
            kept: ByNumber::new(alloc),
            by_name: ByHash::new(alloc),
            listed: ByHashAndNumber::new(alloc),
            next: 0,
        }
    }

    /// Puts a shard last, in place of the one of its name. Where there is no memory, the table stays as it was.
    pub fn accept(&mut self, shard: KeptShard) -> Result<(), OutOfMemory>
        ensures ok { OnOk result (self.new ≡ with_shard self.old shard) }
        ensures err { OnErr result (self.new ≡ self.old) }
    {
        let serial = self.next;
        if serial == u64::MAX {
            return Err(OutOfMemory);
        }
        self.kept.insert(serial, shard)?;
        let indexed = match self.kept.get(serial) {
            Some(shard) => index(&mut self.by_name, &mut self.listed, shard, serial),
            None => unreachable!(),
        };
        match indexed {
            Ok(earlier) => {
                self.next = serial + 1;
                if let Some(earlier) = earlier {
                    take_out(&mut self.kept, &mut self.listed, earlier);
                }
                Ok(())
            }
            Err(error) => {
                self.kept.remove(serial);
                Err(error)
            }
        }
    }

    /// Takes the shard of a name out, and answers whether there was one. Takes no memory.
    pub fn remove(&mut self, name: &MerkleHash) -> bool
        ensures was { result ≡ is_some (shard_named self.old name.now) }
        ensures removed { self.new ≡ without_shard self.old name.now }
    {
        match self.by_name.remove(name) {
            Some(serial) => {
                take_out(&mut self.kept, &mut self.listed, serial);
                true
            }
            None => false,
        }
    }

    /// The shards in order of acceptance. Takes no memory.
    pub fn iter(&self) -> Values<'_, u64, KeptShard>
        ensures { result ≡ self.now }
    {
        self.kept.values()
    }

    /// The names in order.
    pub fn names(&self, alloc: Global) -> Result<Vec<MerkleHash>, OutOfMemory>
        ensures { IfOk result (λ names. names.items ≡ keys (set_of (map shard_name self.now))) }
    {
        let names = self.by_name.keys(alloc)?;
        Ok(names)
    }

    /// The shard of a name.
    pub fn get(&self, name: &MerkleHash) -> Option<&KeptShard>
        ensures { option_copied result ≡ shard_named self.now name.now }
    {
        let serial = self.by_name.get(name)?;
        self.kept.get(*serial)
    }

    /// The last shard that lists a file.
    pub fn last(&self, file: &MerkleHash) -> Option<&KeptShard>
        ensures { option_copied result ≡ last_shard self.now file.now }
    {
        let (serial, _) = self.listed.last_below(file, self.next)?;
        self.kept.get(serial)
    }
}
