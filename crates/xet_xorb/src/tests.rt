//! Xorbs from outside: their bytes, names and lengths as another program gives them.
use super::*;
use bytes::Bytes;
use std::alloc::{AllocError, Global};
use std::process::Abort;
use std::test::Fail;
use xet_types::{ClientError, FormatFault, MerkleHash, compute_data_hash};

const ABC: &[u8] = b"\x00\x03\x00\x00\x00\x03\x00\x00abc";

const HASH_OF_ABC: &str = "ba7816bf8f01cfea414140de5dae2223b00361a396177a9cb410ff61f20015ad";

const NAME_OF_ABC: &str = "4f8b42c22dd3729b519ba6f68d2da7cc5b2d606d05daed5ad5128cc03e6c6358";

fn chunks_of(alloc: Global, texts: &[&[u8]]) -> Result<Vec<Bytes>, AllocError> {
    let mut chunks = Vec::new(alloc);
    for text in texts {
        chunks.push(Bytes::copy_from_slice(alloc, text)?)?;
    }
    Ok(chunks)
}

fn check_hash(rt: &impl Abort, hash: MerkleHash, text: &str) {
    assert!(rt; MerkleHash::from_hex(text) == Ok(hash), "{text}");
}

fn check_walk(rt: &impl Abort, whole: Option<WholeChunks>, chunks: &[Bytes]) {
    let Some(whole) = whole else {
        panic!(rt; "no whole chunks");
    };
    let mut walk = whole.walk();
    for chunk in chunks {
        assert!(rt; walk.next() == Some(chunk.as_slice()));
    }
    assert!(rt; walk.next().is_none());
}

fn is_malformed<T>(outcome: &Result<T, ClientError>) -> bool {
    matches!(outcome, Err(ClientError::FormatError(FormatFault::Xorb)))
}

#[test]
fn writes_and_reads_back(rt: HostRuntime) -> Result<(), Fail> {
    let alloc = rt.alloc();
    let lists: [(&[&[u8]], usize, usize, &str, &str); 2] = [
        (
            &[b"abc"],
            11,
            99,
            NAME_OF_ABC,
            "f399a281b18d5c818024429f06a5013cc5b1fe27ec22d2b1215d124772fa01db",
        ),
        (
            &[&[7; 100], &[9; 200]],
            316,
            444,
            "9f6533fa4a432656f81921b177a3314d8ef53a41b1750ee840728cd26a30a04a",
            "f9563fe6b595739e2d5e4ce1f012504cb2bad43e2f22f92194e90f0c698df5ec",
        ),
    ];
    for (texts, body, length, name, hash) in lists {
        let chunks = chunks_of(alloc, texts)?;
        let written = write_xorb(alloc, &chunks)?;
        assert_eq!(rt; written.len(), length);
        check_hash(&rt, compute_data_hash(&written), hash);
        assert!(rt; body <= written.len());
        let read = read_xorb(alloc, &written.slice(..body)?)?;
        assert!(rt; read.chunks.as_slice() == chunks.as_slice());
        let alone = read_chunks(alloc, &written.slice(..body)?)?;
        assert!(rt; alone.as_slice() == chunks.as_slice());
        check_walk(&rt, WholeChunks::from_text(written.slice(..body)?), &chunks);
        assert!(rt; !read.has_footer);
        check_hash(&rt, read.object.xorb_hash(), name);
        assert_eq!(rt; read.object.serialized_length() as usize, length);
    }
    Ok(())
}

#[test]
fn reads_a_footer(rt: HostRuntime) -> Result<(), Fail> {
    let alloc = rt.alloc();
    let content = Bytes::from_static(ABC);
    assert!(rt; is_malformed(&XorbObject::deserialize(alloc, &content)));
    let (text, object) = reconstruct_xorb_with_footer(alloc, &content)?;
    assert_eq!(rt; text.len(), 99);
    let (again, _) = reconstruct_xorb_with_footer(alloc, &text)?;
    assert!(rt; again.as_slice() == text.as_slice());
    let read = read_xorb(alloc, &text)?;
    assert!(rt; read.has_footer);
    assert!(rt; read.chunks.as_slice() == chunks_of(alloc, &[b"abc"])?.as_slice());
    let known = XorbObject::deserialize(alloc, &text)?;
    check_hash(&rt, known.xorb_hash(), NAME_OF_ABC);
    for bytes in [&content, &text] {
        let all = known.get_all_bytes(alloc, bytes)?;
        assert!(rt; all.as_slice() == b"abc".as_slice());
        let part = object.get_bytes_by_chunk_range(alloc, bytes, 0, 1)?;
        assert!(rt; part.as_slice() == b"abc".as_slice());
        for (start, end) in [(0, 0), (1, 0), (0, 2), (1, 2)] {
            let none = object.get_bytes_by_chunk_range(alloc, bytes, start, end);
            assert!(rt; none == Err(ClientError::InvalidRange));
        }
    }
    Ok(())
}

#[test]
fn gives_chunks_of_its_own_xorb(rt: HostRuntime) -> Result<(), Fail> {
    let alloc = rt.alloc();
    let text = write_xorb(alloc, &chunks_of(alloc, &[b"abc", b"de", b"f"])?)?;
    let object = XorbObject::deserialize(alloc, &text)?;
    let all = object.get_all_bytes(alloc, &text)?;
    assert!(rt; all.as_slice() == b"abcdef".as_slice());
    let parts: [(u32, u32, &[u8]); 4] = [
        (0, 2, b"abcde"),
        (1, 2, b"de"),
        (1, 3, b"def"),
        (2, 3, b"f"),
    ];
    for (start, end, part) in parts {
        let bytes = object.get_bytes_by_chunk_range(alloc, &text, start, end)?;
        assert!(rt; bytes.as_slice() == part);
    }
    let others: [&[&[u8]]; 3] = [
        &[b"abc", b"de"],
        &[b"abc", b"de", b"g"],
        &[b"ab", b"cde", b"f"],
    ];
    for texts in others {
        let other = write_xorb(alloc, &chunks_of(alloc, texts)?)?;
        assert!(rt; is_malformed(&object.get_all_bytes(alloc, &other)));
        let part = object.get_bytes_by_chunk_range(alloc, &other, 0, 0);
        assert!(rt; is_malformed(&part));
    }
    Ok(())
}

#[test]
fn refuses_other_footers(rt: HostRuntime) -> Result<(), Fail> {
    let alloc = rt.alloc();
    let lists: [(&[&[u8]], &[usize]); 2] = [
        (&[b"abc"], &[11]),
        (&[&[7; 100], &[9; 200]], &[108, 316]),
    ];
    for (texts, bare) in lists {
        let text = write_xorb(alloc, &chunks_of(alloc, texts)?)?;
        for length in 0..text.len() {
            let prefix = text.slice(..length)?;
            let spelled = bare.contains(&length);
            let read = read_xorb(alloc, &prefix);
            assert_eq!(rt; read.is_ok(), spelled);
            assert_eq!(rt; is_malformed(&read), !spelled);
            assert!(rt; is_malformed(&XorbObject::deserialize(alloc, &prefix)));
            let mut changed = Vec::from_slice(alloc, text.as_slice())?;
            changed[length] ^= 1;
            let changed = Bytes::from_vec(changed)?;
            assert!(rt; is_malformed(&read_xorb(alloc, &changed)));
            assert!(rt; is_malformed(&reconstruct_xorb_with_footer(alloc, &changed)));
        }
        let mut longer = Vec::from_slice(alloc, text.as_slice())?;
        longer.push(0)?;
        let longer = Bytes::from_vec(longer)?;
        assert!(rt; is_malformed(&read_xorb(alloc, &longer)));
    }
    Ok(())
}

#[test]
fn reads_other_bytes_of_a_chunk(rt: HostRuntime) -> Result<(), Fail> {
    let alloc = rt.alloc();
    for at in 0..ABC.len() {
        let mut changed = Vec::from_slice(alloc, ABC)?;
        changed[at] ^= 1;
        let read = read_xorb(alloc, &Bytes::from_vec(changed)?);
        assert_eq!(rt; read.is_ok(), at >= 8);
        assert_eq!(rt; is_malformed(&read), at < 8);
    }
    Ok(())
}

#[test]
fn knows_where_chunks_lie(rt: HostRuntime) -> Result<(), Fail> {
    let alloc = rt.alloc();
    let one = read_xorb(alloc, &Bytes::from_static(ABC))?.object;
    assert_eq!(rt; one.info.chunk_hashes.len(), 1);
    check_hash(&rt, one.info.chunk_hashes[0], HASH_OF_ABC);
    let hashes = vec![in alloc; compute_data_hash(b"a"), compute_data_hash(b"b")]?;
    let object = XorbObject::new(alloc, hashes, &[100, 200])?;
    assert!(rt; object.info.chunk_boundary_offsets.as_slice() == [108, 316].as_slice());
    assert!(rt; object.info.unpacked_chunk_offsets.as_slice() == [100, 300].as_slice());
    assert_eq!(rt; object.info.num_chunks, 2);
    assert_eq!(rt; object.serialized_length(), 444);
    assert!(rt; object.get_byte_offset(0, 2) == Ok((0, 316)));
    assert!(rt; object.get_byte_offset(1, 2) == Ok((108, 316)));
    assert!(rt; object.get_byte_offset(1, 1) == Err(ClientError::InvalidRange));
    assert!(rt; object.get_byte_offset(1, 3) == Err(ClientError::InvalidRange));
    assert!(rt; object.uncompressed_chunk_length(1) == Ok(200));
    assert!(rt; object.uncompressed_chunk_length(2) == Err(ClientError::InvalidRange));
    Ok(())
}

#[test]
fn refuses_other_bytes(rt: HostRuntime) -> Result<(), Fail> {
    let alloc = rt.alloc();
    let malformed: [&[u8]; 11] = [
        b"",
        b"\x01\x03\x00\x00\x00\x03\x00\x00abc",
        b"\x00\x03\x00\x00\x01\x03\x00\x00abc",
        b"\x00\x03\x00\x00\x00\x02\x00\x00abc",
        b"\x00\x03\x00\x00\x00\x04\x00\x00abcd",
        b"XETPORT1",
        b"\x00\x00\x00\x00\x00\x00\x00\x00",
        b"\x00\x03\x00\x00\x00\x03\x00",
        b"\x00\x03\x00\x00\x00\x03\x00\x00ab",
        b"\x00\x03\x00\x00\x00\x03\x00\x00abcd",
        b"\x00\x03\x00\x00\x00\x03\x00\x00abcX",
    ];
    for text in malformed {
        let read = read_xorb(alloc, &Bytes::copy_from_slice(alloc, text)?);
        assert!(rt; is_malformed(&read));
        let joined = deserialize_chunks(alloc, text);
        assert!(rt; is_malformed(&joined));
        let chunks = read_chunks(alloc, &Bytes::copy_from_slice(alloc, text)?);
        assert!(rt; is_malformed(&chunks));
        let whole = WholeChunks::from_text(Bytes::copy_from_slice(alloc, text)?);
        assert!(rt; whole.is_none());
    }
    assert!(rt; is_malformed(&write_xorb(alloc, &[])));
    assert!(rt; is_malformed(&write_xorb(alloc, &chunks_of(alloc, &[b"abc", b""])?)));
    Ok(())
}

#[test]
fn joins_chunks_and_segments(rt: HostRuntime) -> Result<(), Fail> {
    let alloc = rt.alloc();
    let (mut all, mut indices) = deserialize_chunks(alloc, ABC)?;
    assert!(rt; all.as_slice() == b"abc".as_slice());
    assert!(rt; indices.as_slice() == [0, 3].as_slice());
    append_chunk_segment(&mut all, &mut indices, b"defgh", &[0, 1, 5])?;
    assert!(rt; all.as_slice() == b"abcdefgh".as_slice());
    assert!(rt; indices.as_slice() == [0, 3, 4, 8].as_slice());
    let refused: [(&[u8], &[u32]); 4] = [
        (b"ij", &[]),
        (b"ij", &[0, 1]),
        (b"ij", &[1, 2]),
        (b"ij", &[0, 1, 1, 2]),
    ];
    for (content, chunk_indices) in refused {
        let result = append_chunk_segment(&mut all, &mut indices, content, chunk_indices);
        assert!(rt; result == Err(ClientError::InvalidArguments));
    }
    let mut none = Vec::new(alloc);
    let mut left_out = Vec::new(alloc);
    append_chunk_segment(&mut none, &mut left_out, b"ij", &[0, 2])?;
    assert!(rt; left_out.as_slice() == [0, 2].as_slice());
    Ok(())
}
