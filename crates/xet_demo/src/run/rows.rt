//! Rows: scripts, and the lines that another program printed for them.
//!
//! In a row's text `[70 100]` stands for the digits 70 a hundred times over, and `[F]` for what `meaning` says of `F`.
use super::*;
use std::process::Abort;
use std::test::Fail;
use xet_types::{MemorySink, MemorySource};

mod batched;
mod between;
mod deduplicated;
mod failing;
mod fetched;
mod generated;
mod grouped;
mod listed;
mod made;
mod plainly;
mod planned;
mod verified;

/// A row's name, its script and the lines that are printed, each in pieces.
type Row = (
    &'static str,
    &'static [&'static str],
    &'static [&'static str],
);

/// What a name stands for: the file's hash, the beginning of a shard that lists one file, what is said of a cache that isn't
/// there, the name of the shard that lists the file as the chunk `abc`, the hashes of xorbs and of generated files and their shards, the chunk `abc`, the listing of a xorb
/// of it alone, and the name of the shard that lists that file and that xorb.
fn meaning(name: &str) -> &'static str {
    match name {
        "F" => "aaaaaaaaaaaaaaaaaaaaaaaaaaaaaaaaaaaaaaaaaaaaaaaaaaaaaaaaaaaaaaaa",
        "note" => "hits 0 stored 0 refused none",
        "shard" => "0 shard 5845545348524431000000000000000001000000",
        "abc" => "4f8b42c22dd3729b519ba6f68d2da7cc5b2d606d05daed5ad5128cc03e6c6358",
        "five" => "c532d8cabc88c0564386d36f803c92b4a2f6be4e5a4f36f30b5ead29b7520ee6",
        "three" => "f4851246d15087dd6c43bf2870e9e2b290892cefcd832f52aa51a8df5afa3f45",
        "one" => "f646249f23ff0278e39aefa87dff038e2afa4f226bb48c6241626fff896c6e70",
        "small" => "729d753172686eaeccd2b14a738f264ad38fe80abaa43564c308763e767ca8e4",
        "four" => "e7d817dbeecae3fdac7cd97c0ae733b22b424ecf7d789dbafe8b45d649f7c0e0",
        "two" => "e197a5824844fdd9cee26de537c4efe027f26af28d2222d15190b244f96a37f0",
        "listing" => "a905311b7c087392704783d93d717545e96ba56d29b179bf166903b7f08d8671",
        "large" => "78a7fd1d263f80045e51870c02b5919b6d5a5fc5562d4ccdc00a5407670d0bbc",
        "chunk" => "ba7816bf8f01cfea414140de5dae2223b00361a396177a9cb410ff61f20015ad",
        "chunks" =>
            "0300000001000000ba7816bf8f01cfea414140de5dae2223b00361a396177a9cb410ff61f20015ad00000000030000000500000006000000",
        "lazy" => "ffaa779ea6668570aa24a6b632dd8ed4b71e6d2cf9822e358baa5a4a89e1d6e0",
        "none" => "66687aadf862bd776c8fc18b8e9f8e20089714856ee233b3902a591d0d5f2925",
        "seed1" => "9386a9154dd83319e368dd21d4d6443145f63fdf6c4954eff6f06eab85768e59",
        "seed2" => "7feeb742e3eb562e4c864f729b82809357ecabb1d4d8b2b3cc2ac286cf86dc85",
        "lazy-shard" => "2ea8845eb2b049e023b37110851f8f714b39b686c14870246b08a9be8ccad5eb",
        "split-shard" => "c366238274f1df4da3577fd11066b9c50e27a22475e9594f3cf32f8bb3ee518e",
        "none-shard" => "f2f311a7e7be14dcc87b75e9acdcb1a01325b07c6a9afadf9a5d04da43082de6",
        "named" => "e3108abd6839160b9ed9faf7960b51f8bf3ef22ab2b5f8d7ae12ae7a1fd18fa8",
        _ => "?",
    }
}

/// A xorb of the one chunk `abc`.
const ABC: &str = "0 xorb [abc] 0003000000030000616263\n";

/// Lists the file as that chunk.
const LISTS_ABC: &str = "[shard][F]01000000[abc]0000000000000000010000000300000000000000\n";

/// A xorb of four chunks of 100 bytes.
const FOUR: &str =
    "0 xorb [four] 0064000000640000[61 100]0064000000640000[62 100]0064000000640000[63 100]0064000000640000[64 100]\n";

/// A xorb of two chunks of 150 bytes. Its hash is below that of the four chunks.
const TWO: &str = "0 xorb [two] 0096000000960000[65 150]0096000000960000[66 150]\n";

/// A xorb of the chunks `a`, `x`, `bc`, `yy` and `def`.
const FIVE: &str =
    "0 xorb [five] 00010000000100006100010000000100007800020000000200006263000200000002000079790003000000030000646566\n";

/// Lists the file as the chunks `a`, `bc` and `def` of that xorb.
const LISTS_GAPS: &str =
    "[shard][F]03000000[five]00000000000000000100000001000000[five]00000000020000000300000002000000[five]0000000004000000050000000300000000000000\n";

/// Adds the digits as often as the count says.
fn put_repeated(text: &mut String, digits: &str, count: &str) -> Result<(), Fail> {
    for _ in 0..count.parse::<u32>()? {
        text.push_str(digits)?;
    }
    Ok(())
}

/// Adds what stands for the words in brackets.
fn put_meant(text: &mut String, words: &str) -> Result<(), Fail> {
    match words.split_once(' ') {
        Some((digits, count)) => put_repeated(text, digits, count),
        None => Ok(text.push_str(meaning(words))?),
    }
}

/// Adds a piece, with what its brackets stand for in their places.
fn put_piece(text: &mut String, piece: &str) -> Result<(), Fail> {
    for part in piece.split('[') {
        match part.split_once(']') {
            Some((words, rest)) => {
                put_meant(text, words)?;
                text.push_str(rest)?;
            }
            None => text.push_str(part)?,
        }
    }
    Ok(())
}

/// The whole text of these pieces.
fn spelled(alloc: Global, pieces: &[&str]) -> Result<String, Fail> {
    let mut text = String::new(alloc);
    for piece in pieces {
        put_piece(&mut text, piece)?;
    }
    Ok(text)
}

/// How a call ends, and what it wrote, where the source and the sink fail at the calls of these numbers.
fn ended(
    alloc: Global,
    script: &str,
    reads: &[u64],
    writes: &[u64],
) -> Result<(Status, String), Fail> {
    let mut words = Vec::new(alloc);
    words.push(String::from_str(alloc, "memory")?)?;
    let mut source = MemorySource::new(alloc, script.as_bytes(), reads)?;
    let mut sink = MemorySink::new(alloc, writes)?;
    let status = run_script(alloc, &words, &mut source, &mut sink);
    let written = String::from_str(alloc, std::str::from_utf8(sink.taken())?)?;
    Ok((status, written))
}

/// The script is run to its end, and the lines are written.
fn is_printed(
    rt: &impl Abort,
    alloc: Global,
    row: &str,
    script: &[&str],
    printed: &[&str],
) -> Result<(), Fail> {
    let script = spelled(alloc, script)?;
    let printed = spelled(alloc, printed)?;
    let (status, written) = ended(alloc, script.as_str(), &[], &[])?;
    assert_eq!(rt; status, Status::Done, "{row}");
    assert_eq!(rt; written.as_str(), printed.as_str(), "{row}");
    Ok(())
}

fn are_printed(rt: &impl Abort, alloc: Global, rows: &[Row]) -> Result<(), Fail> {
    for (row, script, printed) in rows {
        is_printed(rt, alloc, row, script, printed)?;
    }
    Ok(())
}
