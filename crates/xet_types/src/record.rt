//! Records of plans.
ghost use Rattle.std.specs.Prelude.{◌≡◌, IfOk, map};
ghost use Rattle.xet_types.specs.Records.{ends_of, fetch_of, fetches_of, xorb_fetches, second_of};
ghost use Rattle.xet_types.specs.RecordMaps.{listed};

use crate::error::OutOfMemory;
use crate::hash::MerkleHash;
use crate::key::HexMerkleHash;
use crate::range::{ChunkRange, HttpRange};
use std::alloc::Global;
use std::collections::BTreeMap;
use std::hash::{Hash, Hasher};
use std::marker::Model;

/// A part of a file: chunks of one xorb, one behind the other.
#[derive(Clone, Copy, Debug, PartialEq, Eq)]
pub struct XorbReconstructionTerm {
    /// The xorb.
    pub hash: MerkleHash,
    /// The length of the chunks together, in bytes.
    pub unpacked_length: u32,
    /// The numbers of the chunks.
    pub range: ChunkRange,
}

/// Chunks of a xorb that are fetched together, and where they lie in its bytes.
#[derive(Clone, Copy, Debug, PartialEq, Eq)]
pub struct XorbRangeDescriptor {
    /// The numbers of the chunks.
    pub chunks: ChunkRange,
    /// Their bytes in the xorb, headers among them, with an inclusive end.
    pub bytes: HttpRange,
}

/// What brings a run of a xorb's chunks, in a plan of version 1.
#[derive(Debug, Drop)]
pub struct XorbReconstructionFetchInfo {
    /// The numbers of the chunks.
    pub range: ChunkRange,
    /// The link's text.
    pub url: String,
    /// The chunks' bytes in the xorb, headers among them, with an inclusive end.
    pub url_range: HttpRange,
}

impl Model for XorbReconstructionFetchInfo {
    ghost use Rattle.std.specs.String.{string_bytes};
    ghost use Rattle.xet_types.specs.Records.{FetchInfo};

    ghost Value = { FetchInfo };

    ghost view = { λ f. record { range = f.range; url = string_bytes f.url; url_range = f.url_range } };
}

impl XorbReconstructionFetchInfo {
    /// Another of the same fields.
    pub fn clone(&self, alloc: Global) -> Result<XorbReconstructionFetchInfo, OutOfMemory>
        ensures { IfOk result (λ info. info ≡ self.now) }
    {
        Ok(XorbReconstructionFetchInfo {
            range: self.range,
            url: String::from_str(alloc, self.url.as_str())?,
            url_range: self.url_range,
        })
    }
}

impl XorbReconstructionFetchInfo {
    /// The ends of its ranges.
    fn ends(&self) -> [u64; 4]
        ensures { result ≡ ends_of self.now }
    {
        [
            u64::from(self.range.start),
            u64::from(self.range.end),
            self.url_range.start,
            self.url_range.end,
        ]
    }
}

impl PartialEq for XorbReconstructionFetchInfo {
    ghost use Rattle.xet_types.specs.Records.{same_info, same_info_equiv};
    ghost use Rattle.std.specs.Cmp.{partial_equiv_from_equiv};

    ghost eq = { same_info };

    ghost laws = { partial_equiv_from_equiv same_info_equiv };

    fn eq(&self, other: &XorbReconstructionFetchInfo) -> bool {
        self.ends() == other.ends() && self.url == other.url
    }
}

impl Eq for XorbReconstructionFetchInfo {
    ghost use Rattle.xet_types.specs.Records.{same_info_equiv};

    ghost laws = { same_info_equiv };
}

impl Hash for XorbReconstructionFetchInfo {
    ghost use Rattle.xet_types.specs.Records.{info_writes, info_writes_alike};

    ghost hash_input = { info_writes };

    ghost respects_eq = { info_writes_alike };

    fn hash<H: Hasher>(&self, state: &mut H) {
        self.ends().hash(state);
        self.url.hash(state);
    }
}

/// A plan of version 1: each run of a xorb's chunks has a link of its own.
#[derive(Debug, Drop)]
pub struct QueryReconstructionResponse {
    /// How many bytes of the joined terms stand before the range.
    pub offset_into_first_range: u64,
    /// The parts of the file, in file order.
    pub terms: Vec<XorbReconstructionTerm>,
    /// What to fetch of each xorb, in order of chunk number.
    pub fetch_info: BTreeMap<HexMerkleHash, Vec<XorbReconstructionFetchInfo>>,
}

impl Model for QueryReconstructionResponse {
    ghost use Rattle.std.specs.Prelude.{map};
    ghost use Rattle.xet_types.specs.Records.{FirstPlan};
    ghost use Rattle.xet_types.specs.RecordMaps.{listed};

    ghost Value = { FirstPlan };

    ghost view = { λ p. record { offset_into_first_range = p.offset_into_first_range; terms = p.terms.items; fetch_info = map listed p.fetch_info.entries } };
}

/// Other entries of the same fields.
fn copy_of_infos(
    alloc: Global,
    infos: &[XorbReconstructionFetchInfo],
) -> Result<Vec<XorbReconstructionFetchInfo>, OutOfMemory>
    ensures { IfOk result (λ copy. copy.items ≡ infos.now) }
{
    let mut copy = Vec::with_capacity(alloc, infos.len())?;
    for info in infos {
        copy.push(info.clone(alloc)?)?;
    }
    Ok(copy)
}

fn copy_of_fetch_info(
    alloc: Global,
    fetch_info: &BTreeMap<HexMerkleHash, Vec<XorbReconstructionFetchInfo>>,
) -> Result<BTreeMap<HexMerkleHash, Vec<XorbReconstructionFetchInfo>>, OutOfMemory>
    ensures { IfOk result (λ copy. map listed copy.entries ≡ map listed fetch_info.now.entries) }
{
    let mut copy = BTreeMap::new(alloc);
    for (hash, infos) in fetch_info {
        let copied = copy_of_infos(alloc, infos)?;
        copy.insert(*hash, copied)?;
    }
    Ok(copy)
}

impl QueryReconstructionResponse {
    /// Another of the same fields.
    pub fn clone(&self, alloc: Global) -> Result<QueryReconstructionResponse, OutOfMemory>
        ensures { IfOk result (λ plan. plan ≡ self.now) }
    {
        Ok(QueryReconstructionResponse {
            offset_into_first_range: self.offset_into_first_range,
            terms: Vec::from_slice(alloc, &self.terms)?,
            fetch_info: copy_of_fetch_info(alloc, &self.fetch_info)?,
        })
    }
}

/// Plans of version 1 of whole files, taken together.
#[derive(Debug, Drop)]
pub struct BatchQueryReconstructionResponse {
    /// The parts of each file, in file order.
    pub files: BTreeMap<HexMerkleHash, Vec<XorbReconstructionTerm>>,
    /// What to fetch of each xorb: the entries of all plans, one plan behind the other.
    pub fetch_info: BTreeMap<HexMerkleHash, Vec<XorbReconstructionFetchInfo>>,
}

impl Model for BatchQueryReconstructionResponse {
    ghost use Rattle.std.specs.Prelude.{map};
    ghost use Rattle.xet_types.specs.Records.{BatchPlan};
    ghost use Rattle.xet_types.specs.RecordMaps.{listed};

    ghost Value = { BatchPlan };

    ghost view = { λ p. record { files = map listed p.files.entries; fetch_info = map listed p.fetch_info.entries } };
}

/// Other lists of the same terms.
fn copy_of_files(
    alloc: Global,
    files: &BTreeMap<HexMerkleHash, Vec<XorbReconstructionTerm>>,
) -> Result<BTreeMap<HexMerkleHash, Vec<XorbReconstructionTerm>>, OutOfMemory>
    ensures { IfOk result (λ copy. map listed copy.entries ≡ map listed files.now.entries) }
{
    let mut copy = BTreeMap::new(alloc);
    for (hash, terms) in files {
        let copied = Vec::from_slice(alloc, terms)?;
        copy.insert(*hash, copied)?;
    }
    Ok(copy)
}

impl BatchQueryReconstructionResponse {
    /// Another of the same fields.
    pub fn clone(&self, alloc: Global) -> Result<BatchQueryReconstructionResponse, OutOfMemory>
        ensures { IfOk result (λ batch. batch ≡ self.now) }
    {
        Ok(BatchQueryReconstructionResponse {
            files: copy_of_files(alloc, &self.files)?,
            fetch_info: copy_of_fetch_info(alloc, &self.fetch_info)?,
        })
    }
}

/// What brings some runs of a xorb's chunks together, in a plan of version 2.
#[derive(Debug, Drop)]
pub struct XorbMultiRangeFetch {
    /// The link's text.
    pub url: String,
    /// The runs, in order.
    pub ranges: Vec<XorbRangeDescriptor>,
}

impl Model for XorbMultiRangeFetch {
    ghost use Rattle.std.specs.String.{string_bytes};
    ghost use Rattle.xet_types.specs.Records.{RangesFetch};

    ghost Value = { RangesFetch };

    ghost view = { λ f. record { url = string_bytes f.url; ranges = f.ranges.items } };
}

impl XorbMultiRangeFetch {
    /// Another of the same fields.
    pub fn clone(&self, alloc: Global) -> Result<XorbMultiRangeFetch, OutOfMemory>
        ensures { IfOk result (λ fetch. fetch ≡ self.now) }
    {
        Ok(XorbMultiRangeFetch {
            url: String::from_str(alloc, self.url.as_str())?,
            ranges: Vec::from_slice(alloc, &self.ranges)?,
        })
    }
}

/// A plan of version 2: a link may bring several runs of a xorb's chunks.
#[derive(Debug, Drop)]
pub struct QueryReconstructionResponseV2 {
    /// How many bytes of the joined terms stand before the range.
    pub offset_into_first_range: u64,
    /// The parts of the file, in file order.
    pub terms: Vec<XorbReconstructionTerm>,
    /// What to fetch of each xorb, in order of chunk number.
    pub xorbs: BTreeMap<HexMerkleHash, Vec<XorbMultiRangeFetch>>,
}

impl Model for QueryReconstructionResponseV2 {
    ghost use Rattle.std.specs.Prelude.{map};
    ghost use Rattle.xet_types.specs.Records.{SecondPlan};
    ghost use Rattle.xet_types.specs.RecordMaps.{listed};

    ghost Value = { SecondPlan };

    ghost view = { λ p. record { offset_into_first_range = p.offset_into_first_range; terms = p.terms.items; xorbs = map listed p.xorbs.entries } };
}

/// Other links of the same fields.
fn copy_of_fetches(
    alloc: Global,
    fetches: &[XorbMultiRangeFetch],
) -> Result<Vec<XorbMultiRangeFetch>, OutOfMemory>
    ensures { IfOk result (λ copy. copy.items ≡ fetches.now) }
{
    let mut copy = Vec::with_capacity(alloc, fetches.len())?;
    for fetch in fetches {
        copy.push(fetch.clone(alloc)?)?;
    }
    Ok(copy)
}

fn copy_of_xorbs(
    alloc: Global,
    xorbs: &BTreeMap<HexMerkleHash, Vec<XorbMultiRangeFetch>>,
) -> Result<BTreeMap<HexMerkleHash, Vec<XorbMultiRangeFetch>>, OutOfMemory>
    ensures { IfOk result (λ copy. map listed copy.entries ≡ map listed xorbs.now.entries) }
{
    let mut copy = BTreeMap::new(alloc);
    for (hash, fetches) in xorbs {
        let copied = copy_of_fetches(alloc, fetches)?;
        copy.insert(*hash, copied)?;
    }
    Ok(copy)
}

/// A link of one run.
fn fetch_of(
    alloc: Global,
    info: XorbReconstructionFetchInfo,
) -> Result<XorbMultiRangeFetch, OutOfMemory>
    ensures { IfOk result (λ fetch. fetch ≡ fetch_of info) }
{
    let mut ranges = Vec::with_capacity(alloc, 1)?;
    ranges.push(XorbRangeDescriptor {
        chunks: info.range,
        bytes: info.url_range,
    })?;
    Ok(XorbMultiRangeFetch {
        url: info.url,
        ranges,
    })
}

/// Links of one run each, in the same order.
fn fetches_of(
    alloc: Global,
    infos: Vec<XorbReconstructionFetchInfo>,
) -> Result<Vec<XorbMultiRangeFetch>, OutOfMemory>
    ensures { IfOk result (λ fetches. fetches.items ≡ fetches_of infos.items) }
{
    let mut fetches = Vec::with_capacity(alloc, infos.len())?;
    for info in infos {
        fetches.push(fetch_of(alloc, info)?)?;
    }
    Ok(fetches)
}

/// The links of each xorb, in the same order.
fn xorbs_of(
    alloc: Global,
    fetch_info: BTreeMap<HexMerkleHash, Vec<XorbReconstructionFetchInfo>>,
) -> Result<BTreeMap<HexMerkleHash, Vec<XorbMultiRangeFetch>>, OutOfMemory>
    ensures { IfOk result (λ xorbs. map listed xorbs.entries ≡ map xorb_fetches (map listed fetch_info.entries)) }
{
    let mut xorbs = BTreeMap::new(alloc);
    for (hash, infos) in fetch_info {
        let fetches = fetches_of(alloc, infos)?;
        xorbs.insert(hash, fetches)?;
    }
    Ok(xorbs)
}

impl QueryReconstructionResponseV2 {
    /// Another of the same fields.
    pub fn clone(&self, alloc: Global) -> Result<QueryReconstructionResponseV2, OutOfMemory>
        ensures { IfOk result (λ plan. plan ≡ self.now) }
    {
        Ok(QueryReconstructionResponseV2 {
            offset_into_first_range: self.offset_into_first_range,
            terms: Vec::from_slice(alloc, &self.terms)?,
            xorbs: copy_of_xorbs(alloc, &self.xorbs)?,
        })
    }

    /// The same plan in version 2: each entry becomes a link of one run, in the same order.
    pub fn from_v1(
        alloc: Global,
        v1: QueryReconstructionResponse,
    ) -> Result<QueryReconstructionResponseV2, OutOfMemory>
        ensures { IfOk result (λ v2. v2 ≡ second_of v1) }
    {
        Ok(QueryReconstructionResponseV2 {
            offset_into_first_range: v1.offset_into_first_range,
            terms: v1.terms,
            xorbs: xorbs_of(alloc, v1.fetch_info)?,
        })
    }
}
