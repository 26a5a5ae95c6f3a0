//! A generated file: its xorbs, its listing, and what it holds.
ghost use Rattle.std.specs.Prelude.{◌≡◌, ◌<◌, ◌^◌, length, map, replicate, All, IfOk};
ghost use Rattle.std.specs.Map.{values_of};
ghost use Rattle.std.specs.FinMap.{entries};
ghost use Rattle.xet_types.specs.Names.{xorb_name};
ghost use Rattle.xet_shard.specs.Canonical.{last_entries};
ghost use Rattle.xet_xorb.specs.Lengths.{AreLengths};
ghost use Rattle.xet_generated.specs.Contents.{chunks_under};
ghost use Rattle.xet_generated.specs.Shards.{listed_xorb};
ghost use Rattle.xet_generated.specs.Making.{IsCut, MakesFile, file_among, seeded_under, shard_of, full_contents_of};

use crate::contents::{RandomFileContents, copy_of_chunks};
use crate::cut::{content_of, name_of, references_of, segments_of};
use crate::terms::{are_possible, are_terms, ends_of};
use crate::xorb::GeneratedXorb;
use bytes::Bytes;
use std::alloc::Global;
use std::collections::BTreeMap;
use std::marker::Model;
use xet_shard::{FileListing, Shard, XorbListing};
use xet_types::{ClientError, MerkleHash, OutOfMemory};

/// The xorb of each seed, with chunks of one length in bytes.
fn generate_all(
    alloc: Global,
    ends: &BTreeMap<u64, u64>,
    chunk_size: usize,
) -> Result<BTreeMap<u64, GeneratedXorb>, OutOfMemory>
    requires { All (λ end. AreLengths (replicate end chunk_size)) (values_of ends.now.entries) }
    ensures { IfOk result (λ xorbs. xorbs.entries ≡ map (seeded_under chunk_size) ends.now.entries) }
{
    let mut xorbs = BTreeMap::new(alloc);
    for (seed, end) in ends {
        let xorb = GeneratedXorb::from_seed(alloc, *seed, *end as u32, chunk_size as u32)?;
        let _other = xorbs.insert(*seed, xorb)?;
    }
    Ok(xorbs)
}

/// The xorbs as a shard lists them.
fn listed(alloc: Global, xorbs: &[GeneratedXorb]) -> Result<Vec<XorbListing>, OutOfMemory>
    ensures { IfOk result (λ listed. listed.items ≡ map listed_xorb xorbs.now) }
{
    let mut listed = Vec::with_capacity(alloc, xorbs.len())?;
    for xorb in xorbs {
        listed.push(xorb.listing(alloc)?)?;
    }
    Ok(listed)
}

/// The chunk list of each xorb under its name.
fn chunk_lists(
    alloc: Global,
    xorbs: &[GeneratedXorb],
) -> Result<BTreeMap<MerkleHash, Vec<Bytes>>, OutOfMemory>
    ensures { IfOk result (λ lists. map chunks_under lists.entries ≡ entries (last_entries xorb_name xorbs.now)) }
{
    let mut lists = BTreeMap::new(alloc);
    for xorb in xorbs {
        let chunks = copy_of_chunks(alloc, xorb.chunks())?;
        let _same = lists.insert(xorb.xorb_hash(), chunks)?;
    }
    Ok(lists)
}

/// The file of these terms among the xorbs of its seeds.
fn file_among(
    alloc: Global,
    xorbs: BTreeMap<u64, GeneratedXorb>,
    terms: &[(u64, (u64, u64))],
) -> Result<GeneratedFile, OutOfMemory>
    requires few { length terms.now < 2 ^ 32 }
    requires few_xorbs { length xorbs.entries < 2 ^ 32 }
    requires cuts { All (IsCut xorbs.entries) terms.now }
    ensures { IfOk result (λ file. file ≡ file_among xorbs.entries terms.now) }
{
    let file_hash = name_of(alloc, &xorbs, terms)?;
    let segments = segments_of(alloc, &xorbs, terms)?;
    let listing = FileListing {
        file_hash,
        segments,
    };
    let content = content_of(alloc, &xorbs, terms, listing.file_size() as usize)?;
    let terms = references_of(alloc, &xorbs, terms, &content)?;
    let xorbs = xorbs.into_values().collect(alloc)?;
    Ok(GeneratedFile {
        xorbs,
        listing,
        contents: RandomFileContents {
            file_hash,
            content,
            xorbs: BTreeMap::new(alloc),
            terms,
        },
    })
}

/// A generated file, which contracts see as its xorbs in order of seed, its listing, and what it holds.
#[derive(Drop)]
pub struct GeneratedFile {
    xorbs: Vec<GeneratedXorb>,
    listing: FileListing,
    contents: RandomFileContents,
}

impl Model for GeneratedFile {
    ghost use Rattle.std.specs.Prelude.{◌<◌, ◌^◌, length};
    ghost use Rattle.xet_generated.specs.Making.{MadeFile};

    ghost Value = { MadeFile };

    ghost view = { λ f. record { xorbs = f.xorbs.items; listing = f.listing; contents = f.contents } };

    ghost invariant = { λ f. length f.xorbs.items < 2 ^ 32 };
}

impl GeneratedFile {
    /// The file of these terms, each a seed and a range of the chunks of its xorb, which have `chunk_size` bytes each.
    ///
    /// `InvalidArguments` exactly where there are 2^32 terms or more, a term's range is empty or reversed, or the chunks of a seed
    /// aren't those of a xorb. This is tested before anything is generated.
    pub fn new(
        alloc: Global,
        terms: &[(u64, (u64, u64))],
        chunk_size: usize,
    ) -> Result<GeneratedFile, ClientError>
        ensures { MakesFile terms.now chunk_size result }
    {
        if !are_terms(terms) {
            return Err(ClientError::InvalidArguments);
        }
        let ends = ends_of(alloc, terms)?;
        if !are_possible(&ends, chunk_size) {
            return Err(ClientError::InvalidArguments);
        }
        let xorbs = generate_all(alloc, &ends, chunk_size)?;
        Ok(file_among(alloc, xorbs, terms)?)
    }

    /// The xorbs in order of seed.
    pub fn xorbs(&self) -> &[GeneratedXorb]
        ensures { result.now ≡ self.now.xorbs }
    {
        &self.xorbs
    }

    /// The shard of the file: its terms as segments, and the xorb of each seed.
    pub fn shard(&self, alloc: Global) -> Result<Shard, OutOfMemory>
        ensures { IfOk result (λ shard. shard ≡ shard_of self.now) }
    {
        let mut files = Vec::with_capacity(alloc, 1)?;
        files.push(self.listing.clone(alloc)?)?;
        Ok(Shard {
            expiry: 0,
            files,
            xorbs: listed(alloc, &self.xorbs)?,
        })
    }

    /// What the file holds, with the chunks of each xorb, which aren't copied.
    pub fn full_contents(&self, alloc: Global) -> Result<RandomFileContents, OutOfMemory>
        ensures { IfOk result (λ contents. contents ≡ full_contents_of self.now) }
    {
        let mut contents = self.contents.clone(alloc)?;
        contents.xorbs = chunk_lists(alloc, &self.xorbs)?;
        Ok(contents)
    }

    /// The xorbs in order of seed, and what the file holds without them. Takes no memory.
    pub fn into_parts(self) -> (Vec<GeneratedXorb>, RandomFileContents)
        ensures xorbs { result.0.items ≡ self.xorbs }
        ensures contents { result.1 ≡ self.contents }
    {
        (self.xorbs, self.contents)
    }
}
