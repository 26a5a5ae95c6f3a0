//! Uploads of generated files. The name is that which another program makes.
use super::upload_random_file;
use crate::deletion::DeletionControlableClient;
use crate::direct_access::DirectAccessClient;
use crate::memory::MemoryClient;
use std::alloc::Global;
use std::test::Fail;
use xet_types::{ClientError, MerkleHash};

/// The terms of a file of 256 bytes from two seeds, where a chunk has 64.
const TERMS: &[(u64, (u64, u64))] = &[(1, (0, 1)), (2, (0, 1)), (1, (1, 3))];

/// The name of the file.
const NAME: &str = "0fe6f48594f5090d91771673d48daa28a27b8a9068930e193eb54d3a97749edd";

/// Uploads the file, and answers its name.
fn upload(client: &mut MemoryClient, alloc: Global) -> Result<MerkleHash, ClientError> {
    let contents = upload_random_file(alloc, client, TERMS, 64)?;
    Ok(contents.file_hash)
}

/// Whether the file has its size, and one shard and two xorbs are stored.
fn is_stored(
    client: &mut MemoryClient,
    alloc: Global,
    file: &MerkleHash,
) -> Result<bool, ClientError> {
    let size = client.get_file_size(alloc, file)?;
    let shards = client.list_shard_entries(alloc)?;
    let xorbs = client.list_xorbs(alloc)?;
    Ok(size == 256 && shards.len() == 1 && xorbs.len() == 2)
}

/// Whether a term without chunks is refused.
fn refuses_an_empty_term(client: &mut MemoryClient, alloc: Global) -> bool {
    match upload_random_file(alloc, client, &[(1, (2, 2))], 64) {
        Err(ClientError::InvalidArguments) => true,
        _ => false,
    }
}

#[test]
fn uploads_a_file_twice(rt: HostRuntime) -> Result<(), Fail> {
    let alloc = rt.alloc();
    let mut client = MemoryClient::new(alloc);
    for _ in 0..2 {
        let file = upload(&mut client, alloc)?;
        assert!(rt; MerkleHash::from_hex(NAME) == Ok(file));
        assert!(rt; is_stored(&mut client, alloc, &file)?);
    }
    assert!(rt; refuses_an_empty_term(&mut client, alloc));
    Ok(())
}
