//! Checks of what is stored.
ghost use Rattle.std.specs.Prelude.{◌≡◌, map, filter, IfOk, OnOk};
ghost use Rattle.std.specs.Option.{is_some};
ghost use Rattle.std.specs.List.{fold, flat_map, list_any, list_all};
ghost use Rattle.std.specs.FinMap.{get};
ghost use Rattle.std.specs.FinMap as finmap;
ghost use Rattle.xet_shard.specs.Canonical.{file_hash_of, xorb_hash_of};
ghost use Rattle.xet_store.specs.Lists.{is_shown, set_with, set_of};
ghost use Rattle.xet_store.specs.Checks.{integrity, reachable, xorb_of, xorbs_of, named_in, listed_in_shard, files_in};
ghost use Rattle.xet_store.specs.Checking.{parts, is_noted, noted, noted_all, noted_in, fits_noted, files_fit, are_stored, lists_one, is_reached_by, is_readable_in};

use super::shards::ShardTable;
use super::xorb::StoredXorb;
use std::alloc::Global;
use xet_bytes::ByHash;
use xet_plan::is_agreed;
use xet_shard::{FileListing, Segment, XorbListing};
use xet_types::{MerkleHash, OutOfMemory};

/// Whether a shard of this name, or of a lesser one, was noted for a xorb.
fn is_noted(counts: &ByHash<(MerkleHash, usize)>, xorb: &MerkleHash, name: &MerkleHash) -> bool
    ensures { result ≡ is_noted name.now (get counts.now xorb.now) }
{
    match counts.get(xorb) {
        Some((least, _)) => !name.cmp(least).is_lt(),
        None => false,
    }
}

/// Notes how many chunks the shard of a name lists of a xorb, where no shard of a lesser name was noted.
fn note(
    counts: &mut ByHash<(MerkleHash, usize)>,
    name: &MerkleHash,
    xorb: &XorbListing,
) -> Result<(), OutOfMemory>
    ensures { OnOk result (counts.new ≡ noted name.now counts.old xorb.now) }
{
    if is_noted(counts, &xorb.xorb_hash, name) {
        return Ok(());
    }
    let _other = counts.insert(xorb.xorb_hash, (*name, xorb.chunks().len()))?;
    Ok(())
}

/// Notes how many chunks a shard lists of each xorb.
fn note_all(
    counts: &mut ByHash<(MerkleHash, usize)>,
    name: &MerkleHash,
    xorbs: &[XorbListing],
) -> Result<(), OutOfMemory>
    ensures { OnOk result (counts.new ≡ noted_all counts.old name.now xorbs.now) }
{
    for xorb in xorbs {
        note(counts, name, xorb)?;
    }
    Ok(())
}

/// For each xorb that a shard lists the least name of such a shard, and how many chunks it lists of it.
fn counts(alloc: Global, shards: &ShardTable) -> Result<ByHash<(MerkleHash, usize)>, OutOfMemory>
    ensures { IfOk result (λ counts. counts ≡ fold noted_in finmap.empty shards.now) }
{
    let mut counts = ByHash::new(alloc);
    for shard in shards.iter() {
        note_all(&mut counts, shard.name(), shard.shard().xorbs())?;
    }
    Ok(counts)
}

/// Whether a segment's chunks end at most at the count of its xorb; where there is none, whether the xorb is stored.
fn fits(counts: &ByHash<(MerkleHash, usize)>, xorbs: &ByHash<StoredXorb>, segment: &Segment) -> bool
    ensures { result ≡ fits_noted counts.now xorbs.now segment.now }
{
    match counts.get(&segment.xorb_hash) {
        Some((_, count)) => segment.chunk_index_end as usize <= *count,
        None => xorbs.contains(&segment.xorb_hash),
    }
}

/// Whether each segment fits.
fn segments_fit(
    counts: &ByHash<(MerkleHash, usize)>,
    xorbs: &ByHash<StoredXorb>,
    segments: &[Segment],
) -> bool
    ensures { result ≡ list_all (fits_noted counts.now xorbs.now) segments.now }
{
    for segment in segments {
        if !fits(counts, xorbs, segment) {
            return false;
        }
    }
    true
}

/// Whether each segment of each file fits that isn't hidden.
fn files_fit(
    counts: &ByHash<(MerkleHash, usize)>,
    xorbs: &ByHash<StoredXorb>,
    hidden: &ByHash<()>,
    files: &[FileListing],
) -> bool
    ensures { result ≡ files_fit counts.now xorbs.now hidden.now files.now }
{
    for file in files {
        if hidden.contains(&file.file_hash) {
            continue;
        }
        if !segments_fit(counts, xorbs, file.segments()) {
            return false;
        }
    }
    true
}

/// Whether each xorb is stored.
fn are_stored(xorbs: &ByHash<StoredXorb>, listed: &[XorbListing]) -> bool
    ensures { result ≡ are_stored xorbs.now listed.now }
{
    for xorb in listed {
        if !xorbs.contains(&xorb.xorb_hash) {
            return false;
        }
    }
    true
}

/// Whether each xorb is stored that a shard lists.
fn all_stored(xorbs: &ByHash<StoredXorb>, shards: &ShardTable) -> bool
    ensures { result ≡ list_all (λ s. are_stored xorbs.now s.xorbs) shards.now }
{
    for shard in shards.iter() {
        if !are_stored(xorbs, shard.shard().xorbs()) {
            return false;
        }
    }
    true
}

/// Whether each segment of each listing fits that isn't hidden.
fn all_fit(
    counts: &ByHash<(MerkleHash, usize)>,
    xorbs: &ByHash<StoredXorb>,
    hidden: &ByHash<()>,
    shards: &ShardTable,
) -> bool
    ensures { result ≡ list_all (λ s. files_fit counts.now xorbs.now hidden.now s.files) shards.now }
{
    for shard in shards.iter() {
        if !files_fit(counts, xorbs, hidden, shard.files()) {
            return false;
        }
    }
    true
}

/// Whether each xorb that a shard lists is stored, and each segment of each listing fits that isn't hidden.
pub fn integrity(
    alloc: Global,
    xorbs: &ByHash<StoredXorb>,
    hidden: &ByHash<()>,
    shards: &ShardTable,
) -> Result<bool, OutOfMemory>
    ensures { IfOk result (λ holds. holds ≡ integrity (parts xorbs.now shards.now hidden.now)) }
{
    if !all_stored(xorbs, shards) {
        return Ok(false);
    }
    let counts = counts(alloc, shards)?;
    Ok(all_fit(&counts, xorbs, hidden, shards))
}

/// Adds the xorbs that segments name.
fn name_segments(named: &mut ByHash<()>, segments: &[Segment]) -> Result<(), OutOfMemory>
    ensures { OnOk result (named.new ≡ set_with named.old (map xorb_of segments.now)) }
{
    for segment in segments {
        named.insert(segment.xorb_hash, ())?;
    }
    Ok(())
}

/// Adds the xorbs that segments of files name which aren't hidden.
fn name_files(
    named: &mut ByHash<()>,
    hidden: &ByHash<()>,
    files: &[FileListing],
) -> Result<(), OutOfMemory>
    ensures { OnOk result (named.new ≡ set_with named.old (flat_map xorbs_of (filter (is_shown hidden.now) files.now))) }
{
    for file in files {
        if hidden.contains(&file.file_hash) {
            continue;
        }
        name_segments(named, file.segments())?;
    }
    Ok(())
}

/// The xorbs that segments of listings name which aren't hidden.
fn named_xorbs(
    alloc: Global,
    hidden: &ByHash<()>,
    shards: &ShardTable,
) -> Result<ByHash<()>, OutOfMemory>
    ensures { IfOk result (λ named. named ≡ set_of (flat_map (named_in hidden.now) shards.now)) }
{
    let mut named = ByHash::new(alloc);
    for shard in shards.iter() {
        name_files(&mut named, hidden, shard.files())?;
    }
    Ok(named)
}

/// Whether one of the files isn't hidden.
fn lists_shown(hidden: &ByHash<()>, files: &[FileListing]) -> bool
    ensures { result ≡ list_any (is_shown hidden.now) files.now }
{
    for file in files {
        if !hidden.contains(&file.file_hash) {
            return true;
        }
    }
    false
}

/// Whether one of the xorbs is in the set.
fn lists_one(set: &ByHash<()>, xorbs: &[XorbListing]) -> bool
    ensures { result ≡ lists_one set.now xorbs.now }
{
    for xorb in xorbs {
        if set.contains(&xorb.xorb_hash) {
            return true;
        }
    }
    false
}

/// Whether each shard lists a file that isn't hidden, or a xorb that is named.
fn all_reached(named: &ByHash<()>, hidden: &ByHash<()>, shards: &ShardTable) -> bool
    ensures { result ≡ list_all (is_reached_by named.now hidden.now) shards.now }
{
    for shard in shards.iter() {
        if !lists_shown(hidden, shard.files()) && !lists_one(named, shard.shard().xorbs()) {
            return false;
        }
    }
    true
}

/// Adds xorbs that are listed.
fn hold(held: &mut ByHash<()>, xorbs: &[XorbListing]) -> Result<(), OutOfMemory>
    ensures { OnOk result (held.new ≡ set_with held.old (map xorb_hash_of xorbs.now)) }
{
    for xorb in xorbs {
        held.insert(xorb.xorb_hash, ())?;
    }
    Ok(())
}

/// Adds the xorbs that the shards list.
fn hold_listed(held: &mut ByHash<()>, shards: &ShardTable) -> Result<(), OutOfMemory>
    ensures { OnOk result (held.new ≡ set_with held.old (flat_map listed_in_shard shards.now)) }
{
    for shard in shards.iter() {
        hold(held, shard.shard().xorbs())?;
    }
    Ok(())
}

/// Whether each hash is in the set.
fn are_held(held: &ByHash<()>, hashes: &[MerkleHash]) -> bool
    ensures { result ≡ list_all (λ hash. is_some (get held.now hash)) hashes.now }
{
    for hash in hashes {
        if !held.contains(hash) {
            return false;
        }
    }
    true
}

/// Whether each shard lists a file that isn't hidden or a xorb that is named, and each xorb is named or listed. Named are those
/// xorbs that a segment of a listing names which isn't hidden.
pub fn reachable(
    alloc: Global,
    xorbs: &ByHash<StoredXorb>,
    hidden: &ByHash<()>,
    shards: &ShardTable,
) -> Result<bool, OutOfMemory>
    ensures { IfOk result (λ holds. holds ≡ reachable (parts xorbs.now shards.now hidden.now)) }
{
    let mut held = named_xorbs(alloc, hidden, shards)?;
    if !all_reached(&held, hidden, shards) {
        return Ok(false);
    }
    hold_listed(&mut held, shards)?;
    let hashes = xorbs.keys(alloc)?;
    Ok(are_held(&held, &hashes))
}

/// Whether a segment has no bytes, or agrees with its stored xorb.
fn is_readable(xorbs: &ByHash<StoredXorb>, segment: &Segment) -> bool
    ensures { result ≡ is_readable_in xorbs.now segment.now }
{
    if segment.unpacked_segment_bytes == 0 {
        return true;
    }
    match xorbs.get(&segment.xorb_hash) {
        Some(xorb) => is_agreed(xorb.object(), segment),
        None => false,
    }
}

/// Whether each segment is readable.
pub fn are_readable(xorbs: &ByHash<StoredXorb>, segments: &[Segment]) -> bool
    ensures { result ≡ list_all (is_readable_in xorbs.now) segments.now }
{
    for segment in segments {
        if !is_readable(xorbs, segment) {
            return false;
        }
    }
    true
}

/// Adds files that are listed.
fn add_files(set: &mut ByHash<()>, files: &[FileListing]) -> Result<(), OutOfMemory>
    ensures { OnOk result (set.new ≡ set_with set.old (map file_hash_of files.now)) }
{
    for file in files {
        set.insert(file.file_hash, ())?;
    }
    Ok(())
}

/// The files that the shards list, in order of hash.
pub fn listed_files(alloc: Global, shards: &ShardTable) -> Result<Vec<MerkleHash>, OutOfMemory>
    ensures { IfOk result (λ files. files.items ≡ finmap.keys (set_of (flat_map files_in shards.now))) }
{
    let mut files = ByHash::new(alloc);
    for shard in shards.iter() {
        add_files(&mut files, shard.files())?;
    }
    files.keys(alloc)
}
