//! What a line of a script means. Most functions here add the step of what they are given, if it has one, and answer whether it is
//! inside the grammar.
ghost use Rattle.std.specs.Prelude.{◌≡◌, ◌+◌, ◌≤◌, ◌∷◌, IfOk, Some, length};
ghost use Rattle.std.specs.Option.{option_copied, option_map};
ghost use Rattle.std.specs.List.{list_all};
ghost use Rattle.std.specs.Char.{is_ascii};
ghost use Rattle.xet_demo.specs.Words.{parts_of, parts_after};
ghost use lib.Lanes.{chunk};
ghost use Rattle.xet_demo.specs.Lines.{Adds, line_with, act_of, dedup_word, short_word, one_word, two_words, words_from, words_line, xorb_act, shard_act, plan_act, fetch_act, abandon_act, hide_act, delete_shard_act, delete_xorb_act, expire_act, max_act, dedup_expire_act, dedup_act, size_act, data_act, ascii_line, line_of, check_word, no_words, drop_dedup_act, three_words, random_act, lazy_act, words_of, hashes_of, batch_act};

use super::digits::hash;
use super::terms::terms;
use super::word::{content, cut, number, range, small_number};
use std::alloc::Global;
use std::simd::prelude::*;
use xet_service::{Act, PlanVersion, Step};
use xet_types::{Items, MerkleHash, OutOfMemory};

/// Adds the step of an act.
#[inline(always)]
fn add(at: u64, act: Act, steps: &mut Vec<Step>) -> Result<bool, OutOfMemory>
    ensures { Adds (line_with at (Some act)) steps.old.items steps.new.items result }
{
    steps.push(Step { at, act })?;
    Ok(true)
}

fn xorb(
    alloc: Global,
    at: u64,
    name: &[u8],
    digits: &[u8],
    steps: &mut Vec<Step>,
) -> Result<bool, OutOfMemory>
    ensures { Adds (line_with at (xorb_act name.now digits.now)) steps.old.items steps.new.items result }
{
    let Some(hash) = hash(name) else {
        return Ok(false);
    };
    match content(alloc, digits)? {
        Some(content) => add(at, Act::UploadXorb { hash, content }, steps),
        None => Ok(false),
    }
}

fn shard(alloc: Global, at: u64, digits: &[u8], steps: &mut Vec<Step>) -> Result<bool, OutOfMemory>
    ensures { Adds (line_with at (shard_act digits.now)) steps.old.items steps.new.items result }
{
    match content(alloc, digits)? {
        Some(content) => add(at, Act::UploadShard { content }, steps),
        None => Ok(false),
    }
}

fn plan(
    at: u64,
    version: PlanVersion,
    file: &[u8],
    bytes: &[u8],
    steps: &mut Vec<Step>,
) -> Result<bool, OutOfMemory>
    ensures { Adds (line_with at (plan_act version file.now bytes.now)) steps.old.items steps.new.items result }
{
    let Some(file) = hash(file) else {
        return Ok(false);
    };
    let Some(range) = range(bytes) else {
        return Ok(false);
    };
    let act = Act::Plan {
        version,
        file,
        range,
    };
    add(at, act, steps)
}

fn fetch(at: u64, read: &[u8], link: &[u8], steps: &mut Vec<Step>) -> Result<bool, OutOfMemory>
    ensures { Adds (line_with at (fetch_act read.now link.now)) steps.old.items steps.new.items result }
{
    let Some(read) = number(read) else {
        return Ok(false);
    };
    let Some(link) = small_number(link) else {
        return Ok(false);
    };
    add(at, Act::Fetch { read, link }, steps)
}

fn abandon(at: u64, read: &[u8], steps: &mut Vec<Step>) -> Result<bool, OutOfMemory>
    ensures { Adds (line_with at (abandon_act read.now)) steps.old.items steps.new.items result }
{
    let Some(read) = number(read) else {
        return Ok(false);
    };
    add(at, Act::Abandon { read }, steps)
}

fn hide(at: u64, file: &[u8], steps: &mut Vec<Step>) -> Result<bool, OutOfMemory>
    ensures { Adds (line_with at (hide_act file.now)) steps.old.items steps.new.items result }
{
    let Some(file) = hash(file) else {
        return Ok(false);
    };
    add(at, Act::HideFile { file }, steps)
}

fn delete_shard(at: u64, name: &[u8], steps: &mut Vec<Step>) -> Result<bool, OutOfMemory>
    ensures { Adds (line_with at (delete_shard_act name.now)) steps.old.items steps.new.items result }
{
    let Some(shard) = hash(name) else {
        return Ok(false);
    };
    add(at, Act::DeleteShard { shard }, steps)
}

fn delete_xorb(at: u64, name: &[u8], steps: &mut Vec<Step>) -> Result<bool, OutOfMemory>
    ensures { Adds (line_with at (delete_xorb_act name.now)) steps.old.items steps.new.items result }
{
    let Some(xorb) = hash(name) else {
        return Ok(false);
    };
    add(at, Act::DeleteXorb { xorb }, steps)
}

fn expire(at: u64, millis: &[u8], steps: &mut Vec<Step>) -> Result<bool, OutOfMemory>
    ensures { Adds (line_with at (expire_act millis.now)) steps.old.items steps.new.items result }
{
    let Some(millis) = number(millis) else {
        return Ok(false);
    };
    add(at, Act::SetExpiration { millis }, steps)
}

fn max(at: u64, max: &[u8], steps: &mut Vec<Step>) -> Result<bool, OutOfMemory>
    ensures { Adds (line_with at (max_act max.now)) steps.old.items steps.new.items result }
{
    let Some(max) = number(max) else {
        return Ok(false);
    };
    add(at, Act::SetMaxRanges { max }, steps)
}

fn dedup_expire(at: u64, millis: &[u8], steps: &mut Vec<Step>) -> Result<bool, OutOfMemory>
    ensures { Adds (line_with at (dedup_expire_act millis.now)) steps.old.items steps.new.items result }
{
    if millis == b"never".as_slice() {
        return add(at, Act::SetDedupExpiration { millis: None }, steps);
    }
    let Some(millis) = number(millis) else {
        return Ok(false);
    };
    let millis = Some(millis);
    add(at, Act::SetDedupExpiration { millis }, steps)
}

fn dedup(at: u64, chunk: &[u8], steps: &mut Vec<Step>) -> Result<bool, OutOfMemory>
    ensures { Adds (line_with at (dedup_act chunk.now)) steps.old.items steps.new.items result }
{
    let Some(chunk) = hash(chunk) else {
        return Ok(false);
    };
    add(at, Act::DedupQuery { chunk }, steps)
}

fn drop_dedup(at: u64, name: &[u8], steps: &mut Vec<Step>) -> Result<bool, OutOfMemory>
    ensures { Adds (line_with at (drop_dedup_act name.now)) steps.old.items steps.new.items result }
{
    let Some(shard) = hash(name) else {
        return Ok(false);
    };
    add(at, Act::RemoveDedup { shard }, steps)
}

fn size(at: u64, file: &[u8], steps: &mut Vec<Step>) -> Result<bool, OutOfMemory>
    ensures { Adds (line_with at (size_act file.now)) steps.old.items steps.new.items result }
{
    let Some(file) = hash(file) else {
        return Ok(false);
    };
    add(at, Act::FileSize { file }, steps)
}

fn data(at: u64, file: &[u8], bytes: &[u8], steps: &mut Vec<Step>) -> Result<bool, OutOfMemory>
    ensures { Adds (line_with at (data_act file.now bytes.now)) steps.old.items steps.new.items result }
{
    let Some(file) = hash(file) else {
        return Ok(false);
    };
    let Some(range) = range(bytes) else {
        return Ok(false);
    };
    add(at, Act::FileData { file, range }, steps)
}

fn random(
    at: u64,
    seed: &[u8],
    count: &[u8],
    size: &[u8],
    steps: &mut Vec<Step>,
) -> Result<bool, OutOfMemory>
    ensures { Adds (line_with at (random_act seed.now count.now size.now)) steps.old.items steps.new.items result }
{
    let Some(seed) = number(seed) else {
        return Ok(false);
    };
    let Some(num_chunks) = small_number(count) else {
        return Ok(false);
    };
    let Some(chunk_size) = small_number(size) else {
        return Ok(false);
    };
    let act = Act::InsertRandomXorb {
        seed,
        num_chunks,
        chunk_size,
    };
    add(at, act, steps)
}

/// A generated file, by the length of its chunks and, behind it, its terms, joined by single spaces.
fn lazy(
    alloc: Global,
    at: u64,
    size: &[u8],
    words: Option<&[u8]>,
    steps: &mut Vec<Step>,
) -> Result<bool, OutOfMemory>
    ensures { Adds (line_with at (lazy_act (size.now ∷ parts_after 32 (option_copied words.entry)))) steps.old.items steps.new.items result }
{
    let Some(chunk_size) = number(size) else {
        return Ok(false);
    };
    match terms(alloc, words)? {
        Some(terms) => add(at, Act::InsertLazyFile { terms, chunk_size }, steps),
        None => Ok(false),
    }
}

/// The hashes that words are, which are joined by single spaces.
fn hashes(alloc: Global, words: Option<&[u8]>) -> Result<Option<Vec<MerkleHash>>, OutOfMemory>
    ensures { IfOk result (λ hashes. option_map (λ hs. hs.items) hashes ≡ hashes_of (parts_after 32 (option_copied words.entry))) }
{
    let mut hashes = Vec::new(alloc);
    let mut rest = words;
    while let Some(words) = rest {
        let (word, more) = cut(words, b' ');
        let Some(hash) = hash(word) else {
            return Ok(None);
        };
        hashes.push(hash)?;
        rest = more;
    }
    Ok(Some(hashes))
}

fn batch(
    alloc: Global,
    at: u64,
    words: Option<&[u8]>,
    steps: &mut Vec<Step>,
) -> Result<bool, OutOfMemory>
    ensures { Adds (line_with at (batch_act (parts_after 32 (option_copied words.entry)))) steps.old.items steps.new.items result }
{
    let Some(files) = hashes(alloc, words)? else {
        return Ok(false);
    };
    if files.is_empty() {
        return Ok(false);
    }
    let files = Items::from_vec(files);
    add(at, Act::Batch { files }, steps)
}

/// A command on deduplication.
fn dedup_word(
    at: u64,
    command: &[u8],
    word: &[u8],
    steps: &mut Vec<Step>,
) -> Result<bool, OutOfMemory>
    ensures { Adds (line_with at (dedup_word command.now word.now)) steps.old.items steps.new.items result }
{
    if command == b"dedup-expire".as_slice() {
        dedup_expire(at, word, steps)
    } else if command == b"dedup".as_slice() {
        dedup(at, word, steps)
    } else if command == b"drop-dedup".as_slice() {
        drop_dedup(at, word, steps)
    } else {
        Ok(false)
    }
}

/// A check.
fn check_word(at: u64, command: &[u8], steps: &mut Vec<Step>) -> Result<bool, OutOfMemory>
    ensures { Adds (line_with at (check_word command.now)) steps.old.items steps.new.items result }
{
    if command == b"integrity".as_slice() {
        add(at, Act::CheckIntegrity, steps)
    } else if command == b"reachable".as_slice() {
        add(at, Act::CheckReachable, steps)
    } else if command == b"readable".as_slice() {
        add(at, Act::CheckReadable, steps)
    } else {
        Ok(false)
    }
}

/// A command without words.
fn no_words(at: u64, command: &[u8], steps: &mut Vec<Step>) -> Result<bool, OutOfMemory>
    ensures { Adds (line_with at (no_words command.now)) steps.old.items steps.new.items result }
{
    if command == b"xorbs".as_slice() {
        add(at, Act::ListXorbs, steps)
    } else if command == b"shards".as_slice() {
        add(at, Act::ListShards, steps)
    } else if command == b"files".as_slice() {
        add(at, Act::ListFiles, steps)
    } else {
        check_word(at, command, steps)
    }
}

/// A command with one short word.
fn short_word(
    at: u64,
    command: &[u8],
    word: &[u8],
    steps: &mut Vec<Step>,
) -> Result<bool, OutOfMemory>
    ensures { Adds (line_with at (short_word command.now word.now)) steps.old.items steps.new.items result }
{
    if command == b"abandon".as_slice() {
        abandon(at, word, steps)
    } else if command == b"hide".as_slice() {
        hide(at, word, steps)
    } else if command == b"delete-shard".as_slice() {
        delete_shard(at, word, steps)
    } else if command == b"delete-xorb".as_slice() {
        delete_xorb(at, word, steps)
    } else if command == b"expire".as_slice() {
        expire(at, word, steps)
    } else if command == b"max".as_slice() {
        max(at, word, steps)
    } else if command == b"size".as_slice() {
        size(at, word, steps)
    } else {
        dedup_word(at, command, word, steps)
    }
}

/// A command with one word.
fn one_word(
    alloc: Global,
    at: u64,
    command: &[u8],
    word: &[u8],
    steps: &mut Vec<Step>,
) -> Result<bool, OutOfMemory>
    ensures { Adds (line_with at (one_word command.now word.now)) steps.old.items steps.new.items result }
{
    if command == b"shard".as_slice() {
        shard(alloc, at, word, steps)
    } else {
        short_word(at, command, word, steps)
    }
}

/// A command with two words.
fn two_words(
    alloc: Global,
    at: u64,
    command: &[u8],
    first: &[u8],
    second: &[u8],
    steps: &mut Vec<Step>,
) -> Result<bool, OutOfMemory>
    ensures { Adds (line_with at (two_words command.now first.now second.now)) steps.old.items steps.new.items result }
{
    if command == b"xorb".as_slice() {
        xorb(alloc, at, first, second, steps)
    } else if command == b"plan1".as_slice() {
        plan(at, PlanVersion::V1, first, second, steps)
    } else if command == b"plan2".as_slice() {
        plan(at, PlanVersion::V2, first, second, steps)
    } else if command == b"fetch".as_slice() {
        fetch(at, first, second, steps)
    } else if command == b"data".as_slice() {
        data(at, first, second, steps)
    } else {
        Ok(false)
    }
}

/// A command with three words.
fn three_words(
    at: u64,
    command: &[u8],
    first: &[u8],
    second: &[u8],
    third: &[u8],
    steps: &mut Vec<Step>,
) -> Result<bool, OutOfMemory>
    ensures { Adds (line_with at (three_words command.now first.now second.now third.now)) steps.old.items steps.new.items result }
{
    if command == b"random".as_slice() {
        random(at, first, second, third, steps)
    } else {
        Ok(false)
    }
}

/// A command with two words, and behind them more, joined by single spaces.
fn more_words(
    at: u64,
    command: &[u8],
    first: &[u8],
    second: &[u8],
    words: &[u8],
    steps: &mut Vec<Step>,
) -> Result<bool, OutOfMemory>
    ensures { Adds (line_with at (words_from command.now (first.now ∷ second.now ∷ parts_of 32 words.now))) steps.old.items steps.new.items result }
{
    let (third, rest) = cut(words, b' ');
    match rest {
        None => three_words(at, command, first, second, third, steps),
        Some(_) => Ok(false),
    }
}

/// A command whose words are joined by single spaces.
fn act_with(
    alloc: Global,
    at: u64,
    command: &[u8],
    words: &[u8],
    steps: &mut Vec<Step>,
) -> Result<bool, OutOfMemory>
    ensures { Adds (line_with at (words_from command.now (parts_of 32 words.now))) steps.old.items steps.new.items result }
{
    let (first, rest) = cut(words, b' ');
    let Some(rest) = rest else {
        return one_word(alloc, at, command, first, steps);
    };
    let (second, rest) = cut(rest, b' ');
    match rest {
        None => two_words(alloc, at, command, first, second, steps),
        Some(rest) => more_words(at, command, first, second, rest, steps),
    }
}

/// A command with words, of which one command takes any number.
fn words(
    alloc: Global,
    at: u64,
    command: &[u8],
    words: &[u8],
    steps: &mut Vec<Step>,
) -> Result<bool, OutOfMemory>
    ensures { Adds (line_with at (words_of command.now (parts_of 32 words.now))) steps.old.items steps.new.items result }
{
    if command == b"lazy".as_slice() {
        let (size, rest) = cut(words, b' ');
        lazy(alloc, at, size, rest, steps)
    } else {
        act_with(alloc, at, command, words, steps)
    }
}

fn act(alloc: Global, at: u64, text: &[u8], steps: &mut Vec<Step>) -> Result<bool, OutOfMemory>
    ensures { Adds (line_with at (act_of (parts_of 32 text.now))) steps.old.items steps.new.items result }
{
    let (command, rest) = cut(text, b' ');
    if command == b"batch".as_slice() {
        return batch(alloc, at, rest, steps);
    }
    match rest {
        Some(rest) => words(alloc, at, command, rest, steps),
        None => no_words(at, command, steps),
    }
}

/// A moment, and an act at it.
fn command(alloc: Global, text: &[u8], steps: &mut Vec<Step>) -> Result<bool, OutOfMemory>
    ensures { Adds (words_line (parts_of 32 text.now)) steps.old.items steps.new.items result }
{
    let (at, rest) = cut(text, b' ');
    let Some(at) = number(at) else {
        return Ok(false);
    };
    let Some(rest) = rest else {
        return Ok(false);
    };
    act(alloc, at, rest, steps)
}

fn ascii_line(alloc: Global, text: &[u8], steps: &mut Vec<Step>) -> Result<bool, OutOfMemory>
    ensures { Adds (ascii_line text.now) steps.old.items steps.new.items result }
{
    if text.is_empty() {
        return Ok(true);
    }
    if text[0] == b'#' {
        return Ok(true);
    }
    command(alloc, text, steps)
}

/// Whether every byte of a short text is below 128.
#[inline(always)]
fn is_ascii_word(text: &[u8]) -> bool
    ensures { result ≡ list_all is_ascii text.now }
{
    let mut greatest = 0u8;
    for byte in text {
        greatest = greatest.max(*byte);
    }
    greatest < 128
}

/// Whether the sixteen bytes from a place on are below 128.
#[inline(always)]
fn is_ascii_part(text: &[u8], at: usize) -> bool
    requires { at + 16 ≤ length text.now }
    ensures { result ≡ list_all is_ascii (chunk at 16 text.now) }
{
    let lanes = u8x16::from_slice(&text[at..]);
    lanes.simd_ge(u8x16::splat(128)).to_bitmask() == 0
}

/// Whether every byte is below 128, by sixteen bytes at a time.
fn is_ascii_text(text: &[u8]) -> bool
    ensures { result ≡ list_all is_ascii text.now }
{
    if text.len() < 16 {
        return is_ascii_word(text);
    }
    let last = text.len() - 16;
    let mut at = 0;
    'parts: while at < last {
        if !is_ascii_part(text, at) {
            return false;
        }
        at += 16;
    }
    is_ascii_part(text, last)
}

/// Adds the step of a line, which is given without its end, if it has one. Answers whether the line is inside the grammar.
pub fn add_step(alloc: Global, text: &[u8], steps: &mut Vec<Step>) -> Result<bool, OutOfMemory>
    ensures { Adds (line_of text.now) steps.old.items steps.new.items result }
{
    if is_ascii_text(text) {
        ascii_line(alloc, text, steps)
    } else {
        Ok(false)
    }
}
