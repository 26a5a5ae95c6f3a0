//! Chunks of a stored xorb, the links of version 2, and what a link of version 1 brings. The names are SHA-256 by another program over
//! hashes that it made itself; the links of version 2 are encoded by another program.
use super::MemoryClient;
use crate::client::Client;
use crate::direct_access::DirectAccessClient;
use bytes::Bytes;
use std::alloc::Global;
use std::test::Fail;
use xet_shard::{FileListing, Segment, Shard, write_shard};
use xet_types::{
    ChunkRange, ClientError, HttpRange, MerkleHash, OutOfMemory, XorbReconstructionFetchInfo,
};

/// The chunks `abc` and `defgh`, each behind its header.
const XORB: &[u8] = b"\0\x03\0\0\0\x03\0\0abc\0\x05\0\0\0\x05\0\0defgh";

/// The hash of the two chunks' hashes.
const NAME: &[u8; 32] =
    b"\x91\x1a\xd1\x05\xed\x39\x4f\xd1\x0f\x7b\x88\xf6\x73\xc9\x75\xa4\x60\xfc\xe4\xb4\x44\x6b\x75\x76\x1b\xfd\x52\xbb\xbc\x0a\x3a\x75";

#[test]
fn cuts(rt: HostRuntime) -> Result<(), Fail> {
    let alloc = rt.alloc();
    let name = MerkleHash::from_bytes(*NAME);
    let mut client = MemoryClient::new(alloc);
    assert_eq!(rt;
        client.upload_xorb(alloc, &name, &Bytes::from_static(XORB))?,
        152
    );
    let cut = client.cut(alloc, &name, ChunkRange::new(1, 2))?;
    assert_eq!(rt; cut.len(), 1);
    assert!(rt; cut.as_slice()[0].as_slice() == b"defgh".as_slice());
    Ok(())
}

/// Four chunks of 100 letters, each behind its header.
const FOUR: &[u8] =
    b"\0d\0\0\0d\0\0aaaaaaaaaaaaaaaaaaaaaaaaaaaaaaaaaaaaaaaaaaaaaaaaaaaaaaaaaaaaaaaaaaaaaaaaaaaaaaaaaaaaaaaaaaaaaaaaaaaa\0d\0\0\0d\0\0bbbbbbbbbbbbbbbbbbbbbbbbbbbbbbbbbbbbbbbbbbbbbbbbbbbbbbbbbbbbbbbbbbbbbbbbbbbbbbbbbbbbbbbbbbbbbbbbbbbb\0d\0\0\0d\0\0cccccccccccccccccccccccccccccccccccccccccccccccccccccccccccccccccccccccccccccccccccccccccccccccccccc\0d\0\0\0d\0\0dddddddddddddddddddddddddddddddddddddddddddddddddddddddddddddddddddddddddddddddddddddddddddddddddddd";

/// The hash of the four chunks' hashes.
const FOUR_NAME: &[u8; 32] =
    b"\xe7\xd8\x17\xdb\xee\xca\xe3\xfd\xac\x7c\xd9\x7c\x0a\xe7\x33\xb2\x2b\x42\x4e\xcf\x7d\x78\x9d\xba\xfe\x8b\x45\xd6\x49\xf7\xc0\xe0";

/// The link of both runs.
const BOTH: &str =
    "ZTdkODE3ZGJlZWNhZTNmZGFjN2NkOTdjMGFlNzMzYjIyYjQyNGVjZjdkNzg5ZGJhZmU4YjQ1ZDY0OWY3YzBlMDo1OjAtMTA3LDIxNi0zMjM";

/// The link of the first run.
const FIRST_RUN: &str =
    "ZTdkODE3ZGJlZWNhZTNmZGFjN2NkOTdjMGFlNzMzYjIyYjQyNGVjZjdkNzg5ZGJhZmU4YjQ1ZDY0OWY3YzBlMDo1OjAtMTA3";

/// The link of the second run.
const SECOND_RUN: &str =
    "ZTdkODE3ZGJlZWNhZTNmZGFjN2NkOTdjMGFlNzMzYjIyYjQyNGVjZjdkNzg5ZGJhZmU4YjQ1ZDY0OWY3YzBlMDo1OjIxNi0zMjM";

/// One of the four chunks.
fn segment(start: u32, end: u32) -> Segment {
    Segment {
        xorb_hash: MerkleHash::from_bytes(*FOUR_NAME),
        xorb_flags: 0,
        chunk_index_start: start,
        chunk_index_end: end,
        unpacked_segment_bytes: 100,
    }
}

/// The text of a shard that lists a file of the first and the third of the four chunks.
fn apart(alloc: Global, file_hash: MerkleHash) -> Result<Bytes, OutOfMemory> {
    let file = FileListing {
        file_hash,
        segments: Vec::from_array(alloc, [segment(0, 1), segment(2, 3)])?,
    };
    let shard = Shard {
        expiry: 7,
        files: Vec::from_array(alloc, [file])?,
        xorbs: Vec::new(alloc),
    };
    write_shard(alloc, &shard)
}

/// Whether the links of the file's plan of version 2, at the moment 5, are these, each of one of the numbers of runs.
fn has_links(
    client: &mut MemoryClient,
    alloc: Global,
    file: &MerkleHash,
    want: &[(&str, usize)],
) -> Result<bool, ClientError> {
    let Some(plan) = client.get_reconstruction_v2(alloc, file, None, 5)? else {
        return Ok(false);
    };
    let mut at = 0usize;
    for (hash, links) in plan.xorbs {
        for link in links {
            let (url, runs) = match want.get(at) {
                Some(wanted) => *wanted,
                None => ("", 0usize),
            };
            if link.url.as_str() != url || link.ranges.len() != runs {
                return Ok(false);
            }
            at = at.saturating_add(1);
        }
    }
    Ok(at == want.len())
}

/// A store of the four chunks and of the shard that lists the file.
fn with_four(alloc: Global, file: &MerkleHash) -> Result<MemoryClient, ClientError> {
    let mut client = MemoryClient::new(alloc);
    client.upload_xorb(
        alloc,
        &MerkleHash::from_bytes(*FOUR_NAME),
        &Bytes::from_static(FOUR),
    )?;
    client.upload_shard(alloc, &apart(alloc, *file)?)?;
    Ok(client)
}

/// Whether the maximum of 0 is refused.
fn refuses_none(client: &mut MemoryClient) -> bool {
    match client.set_max_ranges_per_fetch(0) {
        Err(ClientError::InvalidArguments) => true,
        _ => false,
    }
}

#[test]
fn links_of_version_2(rt: HostRuntime) -> Result<(), Fail> {
    let alloc = rt.alloc();
    let file = MerkleHash::from_bytes([0xaa; 32]);
    let mut client = with_four(alloc, &file)?;
    assert!(rt; has_links(&mut client, alloc, &file, &[(BOTH, 2)])?);
    assert!(rt; refuses_none(&mut client));
    assert!(rt; has_links(&mut client, alloc, &file, &[(BOTH, 2)])?);
    client.set_max_ranges_per_fetch(1)?;
    let runs = [(FIRST_RUN, 1), (SECOND_RUN, 1)];
    assert!(rt; has_links(&mut client, alloc, &file, &runs)?);
    Ok(())
}

/// The link of the first chunk, of the moment 5.
const LINK: &str = "911ad105ed394fd10f7b88f673c975a460fce4b4446b75761bfd52bbbc0a3a75:0:11:5";

/// What the text brings at a moment, where it is said to be of these bytes and of the chunks from the first to an end.
fn term(
    client: &mut MemoryClient,
    alloc: Global,
    url: &str,
    last: u64,
    end: u32,
    at: u64,
) -> Result<(Bytes, Vec<u32>), ClientError> {
    let said = XorbReconstructionFetchInfo {
        range: ChunkRange::new(0, end),
        url: String::from_str(alloc, url)?,
        url_range: HttpRange::new(0, last),
    };
    client.fetch_term_data(alloc, MerkleHash::from_bytes([0xaa; 32]), said, at)
}

/// What a text is to bring.
#[derive(Clone, Copy)]
enum Want {
    /// The chunk `abc`, and its offsets.
    Abc,
    NoXorb,
    NoLink,
    Expired,
    Past,
}

/// What is asked: the text, its last byte, the end of its chunks and the moment; and what that is to bring.
type Row = (&'static str, u64, u32, u64, Want);

fn is_wanted_refusal(error: &ClientError, want: Want) -> bool {
    match error {
        ClientError::XORBNotFound(_) => matches!(want, Want::NoXorb),
        ClientError::InvalidArguments => matches!(want, Want::NoLink),
        ClientError::PresignedUrlExpirationError => matches!(want, Want::Expired),
        ClientError::InvalidRange => matches!(want, Want::Past),
        _ => false,
    }
}

fn is_abc(bytes: &[u8], offsets: &[u32]) -> bool {
    bytes == b"abc".as_slice() && offsets == [0u32, 3].as_slice()
}

fn is_right(client: &mut MemoryClient, alloc: Global, row: &Row) -> bool {
    let (url, last, end, at, want) = *row;
    match term(client, alloc, url, last, end, at) {
        Ok((bytes, offsets)) => {
            matches!(want, Want::Abc) && is_abc(bytes.as_slice(), offsets.as_slice())
        }
        Err(error) => is_wanted_refusal(&error, want),
    }
}

/// A store of the two chunks, whose links expire after 2 milliseconds.
fn with_two(alloc: Global) -> Result<MemoryClient, ClientError> {
    let mut client = MemoryClient::new(alloc);
    client.upload_xorb(
        alloc,
        &MerkleHash::from_bytes(*NAME),
        &Bytes::from_static(XORB),
    )?;
    client.set_fetch_term_url_expiration(2)?;
    Ok(client)
}

#[test]
fn data_of_a_link(rt: HostRuntime) -> Result<(), Fail> {
    let alloc = rt.alloc();
    let mut empty = MemoryClient::new(alloc);
    assert!(rt; is_right(&mut empty, alloc, &(LINK, 10, 1, 5, Want::NoXorb)));
    let rows: [Row; 5] = [
        (LINK, 9, 1, 5, Want::NoLink),
        (LINK, 9, 1, 8, Want::Expired),
        ("link", 10, 1, 8, Want::NoLink),
        (LINK, 10, 3, 5, Want::Past),
        (LINK, 10, 1, 7, Want::Abc),
    ];
    let mut client = with_two(alloc)?;
    for row in &rows {
        assert!(rt; is_right(&mut client, alloc, row));
    }
    Ok(())
}
