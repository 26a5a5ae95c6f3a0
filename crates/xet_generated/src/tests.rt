//! Generated files: their names, bytes and terms as another program makes them.
use crate::contents::RandomFileContents;
use crate::file::GeneratedFile;
use std::alloc::Global;
use std::test::Fail;
use xet_types::{ClientError, MerkleHash, compute_data_hash};

/// Whether the hash is the one of this text.
fn is_hash(hash: MerkleHash, text: &str) -> bool {
    MerkleHash::from_hex(text) == Ok(hash)
}

/// What the file of these terms holds.
fn contents_of(
    alloc: Global,
    terms: &[(u64, (u64, u64))],
    chunk_size: usize,
) -> Result<RandomFileContents, ClientError> {
    let file = GeneratedFile::new(alloc, terms, chunk_size)?;
    let (_xorbs, contents) = file.into_parts();
    Ok(contents)
}

/// Whether the file has this size, name and hash of its bytes.
fn is_file(contents: &RandomFileContents, size: usize, name: &str, content: &str) -> bool {
    contents.content.len() == size
        && is_hash(contents.file_hash, name)
        && is_hash(compute_data_hash(contents.content.as_slice()), content)
}

/// Whether the term's bytes have this hash.
fn has_content(contents: &RandomFileContents, index: usize, content: &str) -> bool {
    match contents.term_data(index) {
        Some(data) => {
            contents.term_matches(index, data) && is_hash(compute_data_hash(data), content)
        }
        None => false,
    }
}

/// Whether the term is of this xorb.
fn has_xorb(contents: &RandomFileContents, index: usize, xorb: &str) -> bool {
    match contents.term_xorb_hash(index) {
        Some(hash) => is_hash(hash, xorb),
        None => false,
    }
}

#[test]
fn generates_files(rt: HostRuntime) -> Result<(), Fail> {
    let alloc = rt.alloc();
    let files: [(&[(u64, (u64, u64))], usize, usize, &str, &str); 4] = [
        (
            &[(1, (0, 2)), (1, (3, 5))],
            256,
            1024,
            "9c91d2866f2942e8754b39b6ac310debe211d905031cfb06a097723b1e716e1c",
            "49c52fb94ede2f73f44c2c24172b0b80e0386383abfbd248589136909fce473b",
        ),
        (
            &[],
            64,
            0,
            "66687aadf862bd776c8fc18b8e9f8e20089714856ee233b3902a591d0d5f2925",
            "e3b0c44298fc1c149afbf4c8996fb92427ae41e4649b934ca495991b7852b855",
        ),
        (
            &[(1, (0, 1)), (2, (0, 1)), (1, (1, 3))],
            64,
            256,
            "0fe6f48594f5090d91771673d48daa28a27b8a9068930e193eb54d3a97749edd",
            "0be3d185a47bf8e5b01f4ab89ee1107c69f816ce3b5dee52f03697712310613f",
        ),
        (
            &[(1, (0, 20)), (2, (0, 10))],
            65536,
            1_966_080,
            "186ab118517cf69b2b3fc84fe4511f980d64d49ff739eed850e11a7041621953",
            "bdfce5c356d6b35d5d04a5122e7ec54c5ebbb7869de667b01efb256b89bf2936",
        ),
    ];
    for (terms, chunk_size, size, name, content) in files {
        let contents = contents_of(alloc, terms, chunk_size)?;
        assert!(rt; is_file(&contents, size, name, content));
    }
    Ok(())
}

#[test]
fn answers_terms(rt: HostRuntime) -> Result<(), Fail> {
    let alloc = rt.alloc();
    let contents = contents_of(alloc, &[(1, (0, 1)), (2, (0, 1)), (1, (1, 3))], 64)?;
    let rows: [(&str, (u32, u32), &str); 3] = [
        (
            "8699661eaa6bc2e69193d5247384b75a2042dfaed184185a922153c2240719da",
            (0, 1),
            "74a3e193c2ef48030cf978c00810a78df38848969ac113fb2a664a56e671b0ef",
        ),
        (
            "7feeb742e3eb562e4c864f729b82809357ecabb1d4d8b2b3cc2ac286cf86dc85",
            (0, 1),
            "7f62ed4f02aac49fda5b96ce777c9296830f9535e12edfbc1b7fa18f580b01b8",
        ),
        (
            "8699661eaa6bc2e69193d5247384b75a2042dfaed184185a922153c2240719da",
            (1, 3),
            "844505c3b57edb4e31bd01edc20bffa7937b84081d859ffb1a93fa61f9c02431",
        ),
    ];
    for (index, (xorb, range, content)) in rows.into_iter().enumerate() {
        assert!(rt; has_xorb(&contents, index, xorb));
        assert!(rt; has_content(&contents, index, content));
        assert!(rt; contents.term_chunk_range(index) == Some(range));
    }
    assert!(rt; contents.term_data(3).is_none());
    assert!(rt; !contents.term_matches(3, b"".as_slice()));
    Ok(())
}

#[test]
fn refuses_other_terms(rt: HostRuntime) -> Result<(), Fail> {
    let alloc = rt.alloc();
    let lists: [(&[(u64, (u64, u64))], usize); 6] = [
        (&[(1, (0, 2)), (2, (1, 1))], 64),
        (&[(1, (2, 1))], 64),
        (&[(1, (0, 2))], 0),
        (&[(1, (0, 2))], 16_777_216),
        (&[(1, (0, 4_294_967_296))], 1),
        (&[(1, (0, 1)), (2, (0, 256))], 16_777_215),
    ];
    for (terms, chunk_size) in lists {
        let refused = GeneratedFile::new(alloc, terms, chunk_size);
        assert!(rt; matches!(&refused, Err(ClientError::InvalidArguments)));
    }
    Ok(())
}

/// Whether a copy of what a file holds has the same bytes and terms, and as many chunk lists.
fn is_copied(alloc: Global, contents: &RandomFileContents) -> Result<bool, ClientError> {
    let copy = contents.clone(alloc)?;
    Ok(
        copy.content == contents.content
            && copy.terms.len() == contents.terms.len()
            && copy.xorbs.len() == contents.xorbs.len(),
    )
}

#[test]
fn lists_chunks(rt: HostRuntime) -> Result<(), Fail> {
    let alloc = rt.alloc();
    let file = GeneratedFile::new(alloc, &[(1, (0, 2)), (2, (0, 1))], 64)?;
    let contents = file.full_contents(alloc)?;
    assert_eq!(rt; contents.xorbs.len(), 2);
    assert!(rt; is_copied(alloc, &contents)?);
    let shard = file.shard(alloc)?;
    assert_eq!(rt; shard.xorbs().len(), file.xorbs().len());
    Ok(())
}
