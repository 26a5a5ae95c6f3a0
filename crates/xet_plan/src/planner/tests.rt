ghost use Rattle.std.specs.Prelude.{◌≡◌, ℕ, ◌^◌, ◌<◌, length, true};
ghost use Rattle.xet_xorb.specs.Lengths.{AreLengths};

use super::*;
use crate::groups::group;
use crate::plain;
use std::collections::BTreeMap;
use std::process::Abort;
use std::sync::Arc;
use std::test::Fail;
use xet_types::FormatFault;

/// The hashes and lengths of a xorb's chunks.
#[derive(Drop)]
struct Stored {
    hashes: Vec<MerkleHash>,
    lengths: Vec<u32>,
    ghost allowed: { AreLengths lengths.items },
    ghost counts: { length hashes.items ≡ length lengths.items },
}

fn are_lengths(lengths: &[u32]) -> bool
    ensures { result ≡ true → AreLengths lengths.now }
{
    let mut total: u64 = 48;
    for n in lengths {
        if *n == 0 || *n >= 16_777_216 || total >= 4_294_967_296 {
            return false;
        }
        total += u64::from(*n) + 48;
    }
    !lengths.is_empty() && total < 4_294_967_296
}

/// Footers in memory, which tell their map and count how often they are asked.
#[derive(Drop)]
struct MemoryFooters {
    xorbs: BTreeMap<MerkleHash, Stored>,
    asked: u64,
}

impl Footers for MemoryFooters {
    ghost use Rattle.std.specs.Prelude.{Some, option_map};
    ghost use Rattle.std.specs.BTreeMap.{get};
    ghost use Rattle.xet_types.specs.Names.{hash_cmp};

    ghost told = { λ s. Some (λ h. option_map (λ x. record { hashes = x.hashes.items; lengths = x.lengths.items }) (get hash_cmp s.xorbs h)) };

    ghost faults = { λ _. 0 };

    fn footer(&mut self, alloc: Global, hash: &MerkleHash) -> Result<Arc<XorbObject>, ClientError> {
        self.asked = self.asked.saturating_add(1);
        let Some(stored) = self.xorbs.get(hash) else {
            return Err(ClientError::XORBNotFound(*hash));
        };
        let hashes = Vec::from_slice(alloc, &stored.hashes)?;
        let object = XorbObject::new(alloc, hashes, &stored.lengths)?;
        Ok(Arc::new(alloc, object)?)
    }
}

fn hash(n: u8) -> MerkleHash {
    MerkleHash::from_bytes([n; 32])
}

fn segment(xorb: u8, start: u32, end: u32, bytes: u32) -> Segment {
    Segment {
        xorb_hash: hash(xorb),
        xorb_flags: 0,
        chunk_index_start: start,
        chunk_index_end: end,
        unpacked_segment_bytes: bytes,
    }
}

fn add(alloc: Global, memory: &mut MemoryFooters, n: u8, lengths: &[u32]) -> Result<(), Fail> {
    let mut hashes = Vec::new(alloc);
    for _ in lengths {
        hashes.push(hash(n))?;
    }
    let lengths = Vec::from_slice(alloc, lengths)?;
    if !are_lengths(&lengths) || hashes.len() != lengths.len() {
        return Err(Fail::from("lengths"));
    }
    memory.xorbs.insert(hash(n), Stored { hashes, lengths })?;
    Ok(())
}

/// Xorbs 1 to 5.
fn make_memory(alloc: Global) -> Result<MemoryFooters, Fail> {
    let mut memory = MemoryFooters {
        xorbs: BTreeMap::new(alloc),
        asked: 0,
    };
    add(alloc, &mut memory, 1, &[100, 200, 300])?;
    add(alloc, &mut memory, 2, &[500])?;
    add(alloc, &mut memory, 3, &[100])?;
    add(alloc, &mut memory, 4, &[100, 100, 100, 100])?;
    add(alloc, &mut memory, 5, &[150, 150])?;
    Ok(memory)
}

/// The offset, and the terms as `xorb:start-end/length`.
fn shown_terms(
    alloc: Global,
    offset: u64,
    terms: &[XorbReconstructionTerm],
) -> Result<String, Fail> {
    let mut s = String::new(alloc);
    s.push_str(format!(in alloc; "{offset}")?.as_str())?;
    for t in terms {
        let h = t.hash.as_bytes()[0];
        let (a, b, n) = (t.range.start, t.range.end, t.unpacked_length);
        s.push_str(format!(in alloc; " {h}:{a}-{b}/{n}")?.as_str())?;
    }
    Ok(s)
}

/// The same, and each xorb's ranges as `start-end@start-end`.
fn shown_plan(alloc: Global, plan: &Plan) -> Result<String, Fail> {
    let mut s = shown_terms(alloc, plan.offset_into_first_range, &plan.terms)?;
    for g in &plan.merged {
        let h = g.0.as_bytes()[0];
        s.push_str(format!(in alloc; " | {h}")?.as_str())?;
        for r in &g.1 {
            let (a, b) = (r.chunk_range.start, r.chunk_range.end);
            let (c, d) = (r.byte_range.start, r.byte_range.end);
            s.push_str(format!(in alloc; " {a}-{b}@{c}-{d}")?.as_str())?;
        }
    }
    Ok(s)
}

fn shown(alloc: Global, answer: &Result<Option<Plan>, ClientError>) -> Result<String, Fail> {
    let word = match answer {
        Ok(Some(plan)) => return shown_plan(alloc, plan),
        Ok(None) => "none",
        Err(ClientError::InvalidRange) => "range",
        Err(ClientError::FormatError(FormatFault::Segment)) => "segment",
        Err(ClientError::XORBNotFound(_)) => "missing",
        Err(_) => "other",
    };
    Ok(String::from_str(alloc, word)?)
}

/// What is known of xorbs 1 to 5, each beside its hash.
fn known_xorbs(alloc: Global) -> Result<Vec<(MerkleHash, XorbObject)>, Fail> {
    let memory = make_memory(alloc)?;
    let mut xorbs = Vec::new(alloc);
    for n in 1..6u8 {
        let stored = memory.xorbs.get(&hash(n)).ok_or("xorb")?;
        let hashes = Vec::from_slice(alloc, &stored.hashes)?;
        xorbs.push((hash(n), XorbObject::new(alloc, hashes, &stored.lengths)?))?;
    }
    Ok(xorbs)
}

/// The answer of the planner and of the plain program, and how often the footers were asked.
fn is_planned(
    rt: &impl Abort,
    alloc: Global,
    segments: &[Segment],
    range: Option<(u64, u64)>,
    want: &str,
    asked: u64,
) -> Result<(), Fail>
    requires { length segments.now < 2 ^ 32 }
{
    let mut memory = make_memory(alloc)?;
    let listing = FileListing {
        file_hash: hash(9),
        segments: Vec::from_slice(alloc, segments)?,
    };
    let range = range.map(|(start, end)| FileRange::new(start, end));
    let answer = compute_reconstruction_ranges(alloc, &listing, range, &mut memory);
    assert_eq!(rt; shown(alloc, &answer)?.as_str(), want);
    assert_eq!(rt; memory.asked, asked, "{want}");
    let answer = plain::plan(alloc, &known_xorbs(alloc)?, &listing, range);
    assert_eq!(rt; shown(alloc, &answer)?.as_str(), want, "the plain program");
    Ok(())
}

#[test]
fn plans(rt: HostRuntime) -> Result<(), Fail> {
    let alloc = rt.alloc();
    let one = [segment(1, 0, 3, 600)];
    is_planned(&rt, alloc, &one, None, "0 1:0-3/600 | 1 0-3@0-624", 1)?;
    is_planned(
        &rt,
        alloc,
        &one,
        Some((100, 300)),
        "0 1:1-2/200 | 1 1-2@108-316",
        1,
    )?;
    is_planned(
        &rt,
        alloc,
        &one,
        Some((150, 600)),
        "50 1:1-3/500 | 1 1-3@108-624",
        1,
    )?;
    let chunk = [segment(2, 0, 1, 500)];
    is_planned(
        &rt,
        alloc,
        &chunk,
        Some((0, 10000)),
        "0 2:0-1/500 | 2 0-1@0-508",
        1,
    )?;
    let touching = [segment(4, 0, 2, 200), segment(4, 2, 4, 200)];
    is_planned(
        &rt,
        alloc,
        &touching,
        None,
        "0 4:0-2/200 4:2-4/200 | 4 0-4@0-432",
        1,
    )?;
    let mixed = [
        segment(4, 0, 2, 200),
        segment(5, 0, 2, 300),
        segment(4, 2, 4, 200),
    ];
    let want = "0 4:0-2/200 5:0-2/300 4:2-4/200 | 4 0-4@0-432 | 5 0-2@0-316";
    is_planned(&rt, alloc, &mixed, None, want, 3)?;
    let apart = [segment(4, 0, 1, 100), segment(4, 2, 3, 100)];
    let want = "0 4:0-1/100 4:2-3/100 | 4 0-1@0-108 2-3@216-324";
    is_planned(&rt, alloc, &apart, None, want, 1)?;
    let nothing = [segment(3, 0, 1, 100), segment(9, 5, 2, 0)];
    is_planned(&rt, alloc, &nothing, None, "0 3:0-1/100 | 3 0-1@0-108", 1)
}

#[test]
fn terms(rt: HostRuntime) -> Result<(), Fail> {
    let alloc = rt.alloc();
    let mut memory = make_memory(alloc)?;
    let segments = Vec::from_slice(alloc, &[segment(4, 0, 2, 200), segment(5, 0, 2, 300)])?;
    let listing = FileListing {
        file_hash: hash(9),
        segments,
    };
    let range = Some(FileRange::new(150, 250));
    let answer = compute_reconstruction_terms(alloc, &listing, range, &mut memory);
    let parts = answer.ok().flatten().ok_or("no terms")?;
    let shown = shown_terms(alloc, parts.offset_into_first_range, &parts.terms)?;
    assert_eq!(rt; shown.as_str(), "50 4:1-2/100 5:0-1/150");
    assert_eq!(rt; memory.asked, 2);
    Ok(())
}

#[test]
fn refuses(rt: HostRuntime) -> Result<(), Fail> {
    let alloc = rt.alloc();
    let small = [segment(3, 0, 1, 100)];
    is_planned(&rt, alloc, &small, Some((200, 300)), "none", 0)?;
    is_planned(&rt, alloc, &small, Some((100, 50)), "none", 0)?;
    is_planned(&rt, alloc, &small, Some((50, 50)), "range", 0)?;
    is_planned(&rt, alloc, &small, Some((50, 40)), "range", 0)?;
    is_planned(&rt, alloc, &[], None, "0", 0)?;
    is_planned(&rt, alloc, &[], Some((0, 0)), "0", 0)?;
    is_planned(&rt, alloc, &[], Some((1, 5)), "none", 0)?;
    let long = [segment(2, 0, 1, 500), segment(1, 0, 3, 601)];
    is_planned(&rt, alloc, &long, None, "segment", 2)?;
    is_planned(
        &rt,
        alloc,
        &long,
        Some((0, 500)),
        "0 2:0-1/500 | 2 0-1@0-508",
        1,
    )?;
    let past = [segment(2, 0, 1, 500), segment(1, 0, 4, 600)];
    is_planned(&rt, alloc, &past, None, "segment", 2)?;
    is_planned(
        &rt,
        alloc,
        &past,
        Some((0, 500)),
        "0 2:0-1/500 | 2 0-1@0-508",
        1,
    )?;
    let missing = [segment(8, 0, 1, 500), segment(1, 0, 3, 601)];
    is_planned(&rt, alloc, &missing, None, "missing", 1)
}

#[test]
fn copies(rt: HostRuntime) -> Result<(), Fail> {
    let alloc = rt.alloc();
    let mut memory = make_memory(alloc)?;
    let segments = Vec::from_slice(alloc, &[segment(4, 0, 1, 100), segment(4, 2, 4, 200)])?;
    let listing = FileListing {
        file_hash: hash(9),
        segments,
    };
    let answer = compute_reconstruction_ranges(alloc, &listing, None, &mut memory);
    let plan = answer.ok().flatten().ok_or("no plan")?;
    let copy = plan.clone(alloc)?;
    let want = "0 4:0-1/100 4:2-4/200 | 4 0-1@0-108 2-4@216-432";
    assert_eq!(rt; shown_plan(alloc, &copy)?.as_str(), want);
    let ranges = [MergedRange {
        chunk_range: ChunkRange::new(0, 1),
        byte_range: FileRange::new(0, 108),
    }; 5];
    let groups = group(alloc, &ranges, 2)?;
    assert_eq!(rt; groups.len(), 3);
    assert_eq!(rt; groups[0].len() + groups[1].len(), 4);
    assert_eq!(rt; groups[2].len(), 1);
    assert_eq!(rt; group(alloc, &[], 2)?.len(), 0);
    Ok(())
}
