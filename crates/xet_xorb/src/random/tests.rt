//! Generated xorbs: their bytes and hashes as another program makes them.
use super::RandomXorb;
use crate::seeded::generate_serialized;
use bytes::Bytes;
use std::alloc::Global;
use std::test::Fail;
use xet_types::{ClientError, MerkleHash, OutOfMemory, compute_data_hash};

/// Whether the hash is the one of this text.
fn is_hash(hash: MerkleHash, text: &str) -> bool {
    MerkleHash::from_hex(text) == Ok(hash)
}

/// Whether the bytes of a range are the slice of all bytes.
fn is_slice(
    alloc: Global,
    xorb: &RandomXorb,
    text: &Bytes,
    start: usize,
    end: usize,
) -> Result<bool, OutOfMemory> {
    let part = xorb.get_serialized_range(alloc, start as u64, end as u64)?;
    let upto = end.min(text.len());
    let from = start.min(upto);
    Ok(part.as_slice() == &text.as_slice()[from..upto])
}

/// Whether the bytes of ranges that begin here are slices.
fn are_slices_from(
    alloc: Global,
    xorb: &RandomXorb,
    text: &Bytes,
    start: usize,
) -> Result<bool, OutOfMemory> {
    for length in [0, 1, 9, 60, text.len(), usize::MAX] {
        if !is_slice(alloc, xorb, text, start, start.saturating_add(length))? {
            return Ok(false);
        }
    }
    Ok(true)
}

/// Whether the bytes of all ranges tried are slices.
fn are_slices(alloc: Global, xorb: &RandomXorb, text: &Bytes) -> Result<bool, OutOfMemory> {
    for start in 0..text.len().saturating_add(2) {
        if !are_slices_from(alloc, xorb, text, start)? {
            return Ok(false);
        }
    }
    is_slice(alloc, xorb, text, 0, text.len().saturating_add(1))
}

#[test]
fn generates_chunks(rt: HostRuntime) -> Result<(), Fail> {
    let alloc = rt.alloc();
    let lists: [(&[(u64, u32)], usize, &str, &str); 2] = [
        (
            &[(1, 100), (2, 200)],
            444,
            "bcc1c5f8562b0213c9d72c33d795220ae087bf93660752e4896566b0bb21b889",
            "e79a4d4dabaeedae380a4a4ec536efc948e28f15e55862a1822069e0739ab3fc",
        ),
        (
            &[(7, 13), (8, 1), (9, 30)],
            236,
            "11aacc5151843012d5052f2f2d636b49eeb4e99fdbfa77071bce75e0fc986c43",
            "6a22e100fd53b73ff512472d7b60e63ba556085dd7fcf2254324f56fa36db605",
        ),
    ];
    for (chunk_specs, length, name, hash) in lists {
        let xorb = RandomXorb::new(alloc, chunk_specs)?;
        assert!(rt; is_hash(xorb.xorb_hash(), name));
        assert_eq!(rt; xorb.serialized_length(), length as u64);
        let text = xorb.get_full_serialized(alloc)?;
        assert_eq!(rt; text.len(), length);
        assert!(rt; is_hash(compute_data_hash(&text), hash));
        assert!(rt; are_slices(alloc, &xorb, &text)?);
    }
    Ok(())
}

/// A xorb of two chunks, of 100 and of 200 bytes.
fn of_two(alloc: Global) -> Result<RandomXorb, ClientError> {
    RandomXorb::new(alloc, &[(1, 100), (2, 200)])
}

#[test]
fn knows_where_generated_chunks_lie(rt: HostRuntime) -> Result<(), Fail> {
    let alloc = rt.alloc();
    let xorb = of_two(alloc)?;
    let object = xorb.get_xorb_object(alloc)?;
    assert!(rt; object.info.chunk_boundary_offsets.as_slice() == [108, 316].as_slice());
    assert!(rt; object.info.unpacked_chunk_offsets.as_slice() == [100, 300].as_slice());
    let again = xorb.clone(alloc)?.into_object();
    assert!(rt; again.info.xorb_hash == object.info.xorb_hash);
    Ok(())
}

#[test]
fn knows_lengths(rt: HostRuntime) -> Result<(), Fail> {
    let xorb = of_two(rt.alloc())?;
    assert_eq!(rt; xorb.total_uncompressed_size(), 300);
    assert!(rt; xorb.chunk_size(1) == Some(200));
    assert!(rt; xorb.chunk_size(2) == None);
    assert!(rt; xorb.chunk_hash(2) == None);
    for (start, end, size) in [
        (0, 1, 100),
        (0, 9, 300),
        (1, 2, 200),
        (2, 9, 0),
        (1, 1, 0),
        (9, 1, 0),
    ] {
        assert_eq!(rt; xorb.chunk_range_size(start, end), size);
    }
    Ok(())
}

/// The name of the xorb of the seed 1, with two chunks of 64 bytes.
const SEEDED_NAME: &str = "9386a9154dd83319e368dd21d4d6443145f63fdf6c4954eff6f06eab85768e59";

/// SHA-256 of the bytes of that xorb.
const SEEDED_HASH: &str = "fbc06a39d199cfd68cb339e83e27d59ce80a1b378734d6c2b7edde5808afc80f";

/// SHA-256 of its first 72 bytes.
const SEEDED_START: &str = "c14c8978c610f962dd9b30f7e656be81f261ad667a182299d5c8c6b82bf92be7";

/// The hashes of its chunks.
const SEEDED_CHUNKS: [&str; 2] = [
    "74a3e193c2ef48030cf978c00810a78df38848969ac113fb2a664a56e671b0ef",
    "86936c5a9f90511f718a8a02fb73f922d0d0a3750dd0714283e31670cbb5ab9b",
];

/// That xorb.
fn of_seed(alloc: Global) -> Result<RandomXorb, ClientError> {
    RandomXorb::from_seed(alloc, 1, 2, 64)
}

#[test]
fn generates_the_xorb_of_a_seed(rt: HostRuntime) -> Result<(), Fail> {
    let alloc = rt.alloc();
    let xorb = of_seed(alloc)?;
    assert_eq!(rt; xorb.num_chunks(), 2);
    assert_eq!(rt; xorb.serialized_length(), 272);
    assert!(rt; is_hash(xorb.xorb_hash(), SEEDED_NAME));
    let text = xorb.get_full_serialized(alloc)?;
    assert!(rt; is_hash(compute_data_hash(&text), SEEDED_HASH));
    let first = xorb.get_serialized_range(alloc, 0, 72)?;
    assert!(rt; is_hash(compute_data_hash(&first), SEEDED_START));
    Ok(())
}

#[test]
fn serializes_the_xorb_of_a_seed(rt: HostRuntime) -> Result<(), Fail> {
    let (object, text) = generate_serialized(rt.alloc(), 1, 2, 64)?;
    assert!(rt; is_hash(object.xorb_hash(), SEEDED_NAME));
    assert!(rt; is_hash(compute_data_hash(&text), SEEDED_HASH));
    Ok(())
}

/// Whether a chunk of 64 bytes begins both chunks, and ends the bytes of the xorb up to its end.
fn are_joined(chunk: &[u8], both: &[u8], first: &[u8]) -> bool {
    chunk.len() == 64
        && both.len() == 128
        && first.len() == 72
        && both.starts_with(chunk)
        && first.ends_with(chunk)
}

#[test]
fn generates_chunks_of_a_seed(rt: HostRuntime) -> Result<(), Fail> {
    let alloc = rt.alloc();
    let xorb = of_seed(alloc)?;
    let chunk = xorb.get_chunk_data(alloc, 0)?.unwrap_or(Bytes::new());
    let both = xorb.get_chunk_range_data(alloc, 0, 2)?;
    let both = both.unwrap_or(Bytes::new());
    let first = xorb.get_serialized_range(alloc, 0, 72)?;
    assert!(rt; are_joined(&chunk, &both, &first));
    Ok(())
}

#[test]
fn generates_no_other_chunks(rt: HostRuntime) -> Result<(), Fail> {
    let alloc = rt.alloc();
    let xorb = of_seed(alloc)?;
    assert!(rt; xorb.get_chunk_data(alloc, 2)? == None);
    for (start, end) in [(1, 1), (1, 3)] {
        assert!(rt; xorb.get_chunk_range_data(alloc, start, end)? == None);
    }
    Ok(())
}

#[test]
fn gives_hashes_of_chunks(rt: HostRuntime) -> Result<(), Fail> {
    let alloc = rt.alloc();
    let xorb = of_seed(alloc)?;
    let hashes = xorb.chunk_hashes_range(alloc, 0, 2)?;
    assert_eq!(rt; hashes.len(), 2);
    for (hash, text) in hashes.iter().zip(SEEDED_CHUNKS) {
        assert!(rt; is_hash(*hash, text));
    }
    let last = xorb.chunk_hashes_range(alloc, 1, 9)?;
    assert!(rt; last.as_slice() == &hashes.as_slice()[1..]);
    Ok(())
}

#[test]
fn gives_hashes_and_lengths_of_chunks(rt: HostRuntime) -> Result<(), Fail> {
    let alloc = rt.alloc();
    let pairs = of_seed(alloc)?.chunk_hash_sizes(alloc, 0, 2)?;
    assert_eq!(rt; pairs.len(), 2);
    for ((hash, size), text) in pairs.iter().zip(SEEDED_CHUNKS) {
        assert!(rt; is_hash(*hash, text));
        assert_eq!(rt; *size, 64);
    }
    Ok(())
}

/// Whether a xorb of chunks of these seeds and lengths is refused.
fn is_refused(alloc: Global, chunk_specs: &[(u64, u32)]) -> bool {
    let refused = RandomXorb::new(alloc, chunk_specs);
    matches!(&refused, Err(ClientError::InvalidArguments))
}

#[test]
fn refuses_other_lengths(rt: HostRuntime) -> Result<(), Fail> {
    let alloc = rt.alloc();
    let lists: [&[(u64, u32)]; 4] = [&[], &[(1, 0)], &[(1, 5), (2, 0)], &[(1, 16_777_216)]];
    for chunk_specs in lists {
        assert!(rt; is_refused(alloc, chunk_specs));
    }
    let many = vec![in alloc; (1u64, 16_777_215u32); 256]?;
    assert!(rt; is_refused(alloc, &many));
    Ok(())
}

/// Whether so many chunks of one length are refused, by each call that makes them.
fn are_refused(alloc: Global, count: u32, size: u32) -> bool {
    let xorb = RandomXorb::from_seed(alloc, 1, count, size);
    let text = generate_serialized(alloc, 1, count, size);
    matches!(&xorb, Err(ClientError::InvalidArguments))
        && matches!(&text, Err(ClientError::InvalidArguments))
}

#[test]
fn refuses_other_counts(rt: HostRuntime) {
    let counts: [(u32, u32); 6] = [
        (0, 64),
        (2, 0),
        (1, 16_777_216),
        (256, 16_777_215),
        (u32::MAX, 1),
        (u32::MAX, u32::MAX),
    ];
    for (count, size) in counts {
        assert!(rt; !RandomXorb::can_be_made(count, size));
        assert!(rt; are_refused(rt.alloc(), count, size));
    }
}
