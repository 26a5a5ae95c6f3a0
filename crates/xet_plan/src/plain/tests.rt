ghost use Rattle.std.specs.Prelude.{◌<◌, ◌^◌, length};

use super::*;
use std::process::Abort;
use std::test::Fail;
use xet_types::compute_data_hash;

fn hash(n: u8) -> MerkleHash {
    MerkleHash::from_bytes([n; 32])
}

/// A chunk of a xorb, whose byte i is (31 * xorb + 17 * chunk + i) mod 251.
fn chunk(alloc: Global, xorb: u8, number: u8, length: u32) -> Result<Octets, Fail> {
    let first = (31 * u32::from(xorb) + 17 * u32::from(number)) % 251;
    let mut bytes = Vec::new(alloc);
    for i in 0..length {
        bytes.push(((first + i % 251) % 251) as u8)?;
    }
    Ok(Octets::from_vec(bytes)?)
}

fn add(
    alloc: Global,
    xorbs: &mut Vec<(MerkleHash, Vec<Octets>)>,
    xorb: u8,
    lengths: &[u32],
) -> Result<(), Fail> {
    let mut chunks = Vec::new(alloc);
    let mut number = 0u8;
    for length in lengths {
        chunks.push(chunk(alloc, xorb, number, *length)?)?;
        number = number.saturating_add(1);
    }
    xorbs.push((hash(xorb), chunks))?;
    Ok(())
}

/// Xorbs 1 to 5.
fn make_xorbs(alloc: Global) -> Result<Vec<(MerkleHash, Vec<Octets>)>, Fail> {
    let mut xorbs = Vec::new(alloc);
    add(alloc, &mut xorbs, 1, &[100, 200, 300])?;
    add(alloc, &mut xorbs, 2, &[500])?;
    add(alloc, &mut xorbs, 3, &[100])?;
    add(alloc, &mut xorbs, 4, &[100, 100, 100, 100])?;
    add(alloc, &mut xorbs, 5, &[150, 150])?;
    Ok(xorbs)
}

fn segment(xorb: u8, start: u32, end: u32, bytes: u32) -> Segment {
    Segment {
        xorb_hash: hash(xorb),
        xorb_flags: 0,
        chunk_index_start: start,
        chunk_index_end: end,
        unpacked_segment_bytes: bytes,
    }
}

/// The SHA-256 of the bytes of each range.
fn are_bytes(
    rt: &impl Abort,
    alloc: Global,
    segments: &[Segment],
    ranges: &[(u64, u64, &str)],
) -> Result<(), Fail>
    requires { length segments.now < 2 ^ 32 }
{
    let xorbs = make_xorbs(alloc)?;
    let listing = FileListing {
        file_hash: hash(9),
        segments: Vec::from_slice(alloc, segments)?,
    };
    for (start, end, want) in ranges {
        let bytes = file_bytes(alloc, &xorbs, &listing, *start, *end)?;
        let digest = compute_data_hash(&bytes).hex(alloc)?;
        assert_eq!(rt; digest.as_str(), *want, "{start}-{end}");
    }
    Ok(())
}

#[test]
fn bytes_of_ranges(rt: HostRuntime) -> Result<(), Fail> {
    let alloc = rt.alloc();
    let one = [segment(1, 0, 3, 600)];
    let ranges = [
        (
            0,
            600,
            "f1933c1e4695f888a440805f060659f23b59640402af2479eff245aaa5d0f811",
        ),
        (
            100,
            300,
            "68a42ec28ce462fc8e99da3eef4b474de747f913617ab30ab1ea338fa1ebe588",
        ),
        (
            150,
            600,
            "fc770a55c9925efd205200a4876d2ec47d8f8304bf3f6b2fc502e35fc40314a0",
        ),
    ];
    are_bytes(&rt, alloc, &one, &ranges)?;
    let chunk = [segment(2, 0, 1, 500)];
    let ranges = [(
        0,
        10000,
        "f8e1c4e3e683faef7ddb7565dc508ea802cbebcd9df881ec4e4e01b303c4eac2",
    )];
    are_bytes(&rt, alloc, &chunk, &ranges)?;
    let touching = [segment(4, 0, 2, 200), segment(4, 2, 4, 200)];
    let ranges = [
        (
            0,
            400,
            "89db5d034a3d9348ee419a7bf12b9c5607626b169bf12e4df589fd20d877b02f",
        ),
        (
            150,
            250,
            "3e92c4a8937560f5e79d317c1e72ce7c21d474f044b592c527e0fcae71f83838",
        ),
    ];
    are_bytes(&rt, alloc, &touching, &ranges)
}

#[test]
fn bytes_across_xorbs(rt: HostRuntime) -> Result<(), Fail> {
    let alloc = rt.alloc();
    let mixed = [
        segment(4, 0, 2, 200),
        segment(5, 0, 2, 300),
        segment(4, 2, 4, 200),
    ];
    let ranges = [
        (
            0,
            700,
            "c09309e13dfefda186c616c9530def139b40bda3b2229634fe61f51496fb190a",
        ),
        (
            190,
            510,
            "e3f97aecf6ea49c701efa667c26e0f4c91bfce78680d611af956ca78ef480943",
        ),
    ];
    are_bytes(&rt, alloc, &mixed, &ranges)?;
    let nothing = "e3b0c44298fc1c149afbf4c8996fb92427ae41e4649b934ca495991b7852b855";
    are_bytes(&rt, alloc, &[], &[(0, 0, nothing)])?;
    let empty_segment = [segment(3, 0, 1, 100), segment(9, 5, 2, 0)];
    let want = "e90ca0ecde472c6d7eb44fcfec7021e2d3b65f7810f061654921c5bf5ef8f38e";
    are_bytes(&rt, alloc, &empty_segment, &[(0, 100, want)])
}
