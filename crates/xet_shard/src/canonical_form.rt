//! The canonical form of a shard, and its name.
ghost use Rattle.std.specs.Prelude.{◌≡◌, ◌≤◌, IfOk, length};
ghost use Rattle.std.specs.FinMap.{entries};
ghost use Rattle.xet_shard.specs.ShardBytes.{IsTextOfOne};
ghost use Rattle.xet_shard.specs.Canonical.{file_hash_of, xorb_hash_of, last_entries, last_by_hash, canonical_of, canonical_text, shard_name, IsCanonical};

use crate::listing::{FileListing, Shard, XorbListing};
use crate::write::write_shard;
use bytes::Bytes;
use std::alloc::Global;
use std::collections::BTreeMap;
use xet_types::{MerkleHash, OutOfMemory, compute_data_hash};

/// The last listing of each file.
fn files_by_hash(
    alloc: Global,
    files: &[FileListing],
) -> Result<BTreeMap<MerkleHash, FileListing>, OutOfMemory>
    ensures { IfOk result (λ m. m.entries ≡ entries (last_entries file_hash_of files.now)) }
{
    let mut last = BTreeMap::new(alloc);
    for file in files {
        let _earlier = last.insert(file.file_hash, file.clone(alloc)?)?;
    }
    Ok(last)
}

/// The last listing of each xorb.
fn xorbs_by_hash(
    alloc: Global,
    xorbs: &[XorbListing],
) -> Result<BTreeMap<MerkleHash, XorbListing>, OutOfMemory>
    ensures { IfOk result (λ m. m.entries ≡ entries (last_entries xorb_hash_of xorbs.now)) }
{
    let mut last = BTreeMap::new(alloc);
    for xorb in xorbs {
        let _earlier = last.insert(xorb.xorb_hash, xorb.clone(alloc)?)?;
    }
    Ok(last)
}

/// The last listing of each file, in order of hash.
fn canonical_files(alloc: Global, files: &[FileListing]) -> Result<Vec<FileListing>, OutOfMemory>
    ensures value { IfOk result (λ v. v.items ≡ last_by_hash file_hash_of files.now) }
    ensures fewer { IfOk result (λ v. length v.items ≤ length files.now) }
{
    let last = files_by_hash(alloc, files)?;
    let files = last.into_values().collect(alloc)?;
    Ok(files)
}

/// The last listing of each xorb, in order of hash.
pub(crate) fn canonical_xorbs(
    alloc: Global,
    xorbs: &[XorbListing],
) -> Result<Vec<XorbListing>, OutOfMemory>
    ensures value { IfOk result (λ v. v.items ≡ last_by_hash xorb_hash_of xorbs.now) }
    ensures fewer { IfOk result (λ v. length v.items ≤ length xorbs.now) }
{
    let last = xorbs_by_hash(alloc, xorbs)?;
    let xorbs = last.into_values().collect(alloc)?;
    Ok(xorbs)
}

/// The shard in its canonical form: no expiry, the last listing of each file, in order of hash, and of each xorb
/// likewise. Flags and spare words are kept. A canonical shard is its own canonical form, so a second time changes nothing.
pub fn canonical(alloc: Global, shard: &Shard) -> Result<Shard, OutOfMemory>
    ensures value { IfOk result (λ s. s ≡ canonical_of shard.now) }
    ensures rises { IfOk result (λ s. IsCanonical s) }
    ensures same { IsCanonical shard.now → IfOk result (λ s. s ≡ shard.now) }
    ensures twice { IfOk result (λ s. canonical_of s ≡ s) }
{
    let files = canonical_files(alloc, shard.files())?;
    let xorbs = canonical_xorbs(alloc, shard.xorbs())?;
    Ok(Shard {
        expiry: 0,
        files,
        xorbs,
    })
}

/// The bytes of the canonical form, which `read_shard` reads as that form.
pub fn canonical_bytes(alloc: Global, shard: &Shard) -> Result<Bytes, OutOfMemory>
    ensures value { IfOk result (λ bytes. bytes ≡ canonical_text shard.now) }
    ensures read_back { IfOk result (λ bytes. IsTextOfOne bytes (canonical_of shard.now)) }
{
    let shard = canonical(alloc, shard)?;
    write_shard(alloc, &shard)
}

/// The name of the shard: SHA-256 of the bytes of its canonical form.
pub fn shard_hash(alloc: Global, shard: &Shard) -> Result<MerkleHash, OutOfMemory>
    ensures { IfOk result (λ hash. hash ≡ shard_name shard.now) }
{
    let bytes = canonical_bytes(alloc, shard)?;
    Ok(compute_data_hash(&bytes))
}
