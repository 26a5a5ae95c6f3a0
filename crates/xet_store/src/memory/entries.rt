//! Entries for deduplication: for a chunk the name of a shard.
ghost use Rattle.std.specs.Prelude.{◌≡◌, OnOk, OnErr};
ghost use Rattle.std.specs.List.{AllByRecursion};
ghost use Rattle.std.specs.FinMap.{get};
ghost use Rattle.xet_store.specs.Commands.{without_entries};
ghost use Rattle.xet_store.specs.Entries.{filled, filled_with, without_places, has_name, HavePlaces};

use std::alloc::Global;
use xet_bytes::ByHash;
use xet_types::{MerkleHash, OutOfMemory};

/// Makes a place for the entry of each chunk, which is empty where there was none. Where there is no memory, some have one.
pub fn reserve(
    entries: &mut ByHash<Option<MerkleHash>>,
    chunks: &[MerkleHash],
) -> Result<(), OutOfMemory>
    ensures same { filled entries.new ≡ filled entries.old }
    ensures places { OnOk result (HavePlaces entries.new chunks.now) }
{
    for chunk in chunks {
        if !entries.contains(chunk) {
            let _none = entries.insert(*chunk, None)?;
        }
    }
    Ok(())
}

/// Puts a shard's name into the places of the chunks. Takes no memory.
pub fn fill(entries: &mut ByHash<Option<MerkleHash>>, chunks: &[MerkleHash], name: &MerkleHash)
    requires { HavePlaces entries.old chunks.now }
    ensures { entries.new ≡ filled_with entries.old chunks.now name.now }
{
    for chunk in chunks {
        match entries.insert(*chunk, Some(*name)) {
            Ok(_) => (),
            Err(_) => unreachable!(),
        }
    }
}

/// The shard's name in the place of a chunk. None where there is no place or it is empty.
pub fn entry(entries: &ByHash<Option<MerkleHash>>, chunk: &MerkleHash) -> Option<MerkleHash>
    ensures { result ≡ get (filled entries.now) chunk.now }
{
    match entries.get(chunk) {
        Some(name) => *name,
        None => None,
    }
}

/// Whether the place of a chunk has the name.
fn has_name(entries: &ByHash<Option<MerkleHash>>, chunk: &MerkleHash, name: &MerkleHash) -> bool
    ensures { result ≡ has_name name.now (get entries.now chunk.now) }
{
    match entries.get(chunk) {
        Some(Some(other)) => *other == *name,
        _ => false,
    }
}

/// Takes those of the chunks' places out that have the name. Takes no memory.
fn take_out(entries: &mut ByHash<Option<MerkleHash>>, chunks: &[MerkleHash], name: &MerkleHash)
    ensures { entries.new ≡ without_places entries.old chunks.now name.now }
{
    for chunk in chunks {
        if has_name(entries, chunk, name) {
            entries.remove(chunk);
        }
    }
}

/// Takes the entries that name a shard out. Where there is no memory, all stays as it was.
pub fn drop_named(
    alloc: Global,
    entries: &mut ByHash<Option<MerkleHash>>,
    name: &MerkleHash,
) -> Result<(), OutOfMemory>
    ensures ok { OnOk result (filled entries.new ≡ without_entries (filled entries.old) name.now) }
    ensures err { OnErr result (entries.new ≡ entries.old) }
{
    let chunks = entries.keys(alloc)?;
    take_out(entries, &chunks, name);
    Ok(())
}
