//! Rows of generated files. The lines are those of another program, and of a third.
use super::*;

#[test]
fn stores_generated_files(rt: HostRuntime) -> Result<(), Fail> {
    let rows: [Row; 2] = [
        (
            "a generated file is read, checked, hidden, and stored again",
            &[
                "0 lazy 64 1:0-2 2:0-1\n1 size [lazy]\n1 data [lazy] 60-70\n1 data [lazy] 126-130\n2 plan2 [lazy] 60-130\n3 fetch 0 0\n3 fetch 0 1\n4 integrity\n4 reachable\n",
                "4 readable\n5 hide [lazy]\n5 size [lazy]\n6 lazy 64 1:0-2 2:0-1\n6 size [lazy]\n7 lazy 64 1:0-1 1:1-2 2:0-1\n8 files\n8 xorbs\n",
            ],
            &[
                "lazy [lazy] 192\nsize 192\ndata a25fa0bfc0a590ffcdcc\ndata 5dff1536\nplan 0 v2 offset 60 terms 2 links 2\nterm [seed1] 0-2 128\nterm [seed2] 0-1 64\n",
                "link 0 N2ZlZWI3NDJlM2ViNTYyZTRjODY0ZjcyOWI4MjgwOTM1N2VjYWJiMWQ0ZDhiMmIzY2MyYWMyODZjZjg2ZGM4NToyOjAtNzE 0-1@0-71\n",
                "link 1 OTM4NmE5MTU0ZGQ4MzMxOWUzNjhkZDIxZDRkNjQ0MzE0NWY2M2ZkZjZjNDk1NGVmZjZmMDZlYWI4NTc2OGU1OToyOjAtMTQz 0-2@0-143\nfetched 0 0 left 1 wire 72 [note]\n",
                "finished 0 wire 144 [note] a25fa0bfc0a590ffcdcce587ef0e5e7eb0557720f11542daa065813afca0d24a6b5d49707925332aea836ea7d3ced96726b6577c146702de4047e4cf8532802e9c285dff1536\n",
                "done\ndone\ndone\ndone\nrefused file [lazy]\nlazy [lazy] 192\nsize 192\nlazy [lazy] 192\nfiles 2\n[lazy] [lazy-shard]\n[lazy] [split-shard]\nhashes 2\n[seed2]\n",
                "[seed1]\n",
            ],
        ),
        (
            "a file of no terms, and terms that aren't those of a file",
            &[
                "0 lazy 64 1:0-2 2:0-1\n1 lazy 64\n2 lazy 64 1:0-0\n3 lazy 0 1:0-1\n4 lazy 16777216 1:0-1\n5 lazy 64 1:2-1\n6 lazy 64 1:0-4294967296\n7 files\n8 shards\n",
                "9 xorbs\n",
            ],
            &[
                "lazy [lazy] 192\nlazy [none] 0\nrefused arguments\nrefused arguments\nrefused arguments\nrefused arguments\nrefused arguments\nfiles 2\n[none] [none-shard]\n",
                "[lazy] [lazy-shard]\nhashes 2\n[lazy-shard]\n[none-shard]\nhashes 2\n[seed2]\n[seed1]\n",
            ],
        ),
    ];
    are_printed(&rt, rt.alloc(), &rows)
}

#[test]
fn reads_a_large_generated_file(rt: HostRuntime) -> Result<(), Fail> {
    let rows: [Row; 1] = [(
        "100 bytes of a file of 98 MB, in one chunk of its second xorb",
        &[
            "0 lazy 65536 1:0-1000 2:0-500\n1 size afe9822f7580afb9f8f1be3f21071cb7781b74cf2e25a09396ce059dc1d6255a\n",
            "2 plan2 afe9822f7580afb9f8f1be3f21071cb7781b74cf2e25a09396ce059dc1d6255a 70000000-70000100\n3 fetch 0 0\n",
        ],
        &[
            "lazy afe9822f7580afb9f8f1be3f21071cb7781b74cf2e25a09396ce059dc1d6255a 98304000\nsize 98304000\nplan 0 v2 offset 7552 terms 1 links 1\n",
            "term fe59f0caebf18a026c50c46ed2608e330552e5163f523e79369efe3313007b4c 68-69 65536\n",
            "link 0 ZmU1OWYwY2FlYmYxOGEwMjZjNTBjNDZlZDI2MDhlMzMwNTUyZTUxNjNmNTIzZTc5MzY5ZWZlMzMxMzAwN2I0YzoyOjQ0NTY5OTItNDUyMjUzNQ 68-69@4456992-4522535\n",
            "finished 0 wire 65544 [note] b946e4b1f5651b4b65d8570ecede247e55b1e8690b3d9800f2e05f76057811d50f12cfa2227144d8af3a2974273cfa5f310d5de78cbf5e8b50ad3abf10e09229dca24f021df7b3687a347e584f5d8acd33b9cb9458cb7863e58cca928a23a59385ad97a1\n",
        ],
    )];
    are_printed(&rt, rt.alloc(), &rows)
}

/// What the large run of so many files writes.
fn summary(alloc: Global, count: &str) -> Result<(Status, String), Fail> {
    let mut words = Vec::new(alloc);
    for word in ["memory", "make", count] {
        words.push(String::from_str(alloc, word)?)?;
    }
    let mut source = MemorySource::new(alloc, b"0 frob", &[0])?;
    let mut sink = MemorySink::new(alloc, &[])?;
    let status = run_script(alloc, &words, &mut source, &mut sink);
    let written = String::from_str(alloc, std::str::from_utf8(sink.taken())?)?;
    Ok((status, written))
}

/// The run of so many files is done, and its summary is this.
fn is_made(rt: &impl Abort, alloc: Global, count: &str, lines: &str) -> Result<(), Fail> {
    let (status, written) = summary(alloc, count)?;
    assert_eq!(rt; status, Status::Done);
    assert_eq!(rt; written.as_str(), lines);
    Ok(())
}

#[test]
fn makes_files(rt: HostRuntime) -> Result<(), Fail> {
    is_made(
        &rt,
        rt.alloc(),
        "3",
        "files 3\nfinished 3\nbytes 2400\nwire 3879\n",
    )
}

#[test]
fn makes_many_files(rt: HostRuntime) -> Result<(), Fail> {
    is_made(
        &rt,
        rt.alloc(),
        "2000",
        "files 2000\nfinished 2000\nbytes 1600000\nwire 2586000\n",
    )
}
