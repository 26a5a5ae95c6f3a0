//! Lists of what the shards list.
ghost use Rattle.std.specs.Prelude.{◌≡◌, OnOk, IfOk};
ghost use Rattle.std.specs.List.{flat_map};
ghost use Rattle.std.specs.FinMap as finmap;
ghost use Rattle.xet_store.specs.Lists.{pairs_with, shown_as, shown_in};

use super::shards::ShardTable;
use std::alloc::Global;
use xet_bytes::{ByHash, HashPairs};
use xet_shard::FileListing;
use xet_types::{MerkleHash, OutOfMemory};

/// Adds the listings of a shard of this name whose files aren't hidden. Where there is no memory, some are added.
fn add_shown(
    pairs: &mut HashPairs,
    hidden: &ByHash<()>,
    files: &[FileListing],
    name: &MerkleHash,
) -> Result<(), OutOfMemory>
    ensures { OnOk result (pairs.new ≡ pairs_with pairs.old (shown_as hidden.now files.now name.now)) }
{
    for file in files {
        if hidden.contains(&file.file_hash) {
            continue;
        }
        pairs.insert(file.file_hash, *name)?;
    }
    Ok(())
}

/// The listings whose files aren't hidden, each as its file and the shard's name.
pub fn shown(
    alloc: Global,
    hidden: &ByHash<()>,
    shards: &ShardTable,
) -> Result<HashPairs, OutOfMemory>
    ensures { IfOk result (λ pairs. pairs ≡ pairs_with finmap.empty (flat_map (shown_in hidden.now) shards.now)) }
{
    let mut pairs = HashPairs::new(alloc);
    for shard in shards.iter() {
        add_shown(&mut pairs, hidden, shard.files(), shard.name())?;
    }
    Ok(pairs)
}
