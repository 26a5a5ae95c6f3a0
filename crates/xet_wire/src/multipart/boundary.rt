//! The boundary between the parts of a body that is written.
ghost use Rattle.std.specs.Prelude.{◌≡◌, ◌≢◌, ◌++◌, ◌<◌, ◌^◌, ℕ, List, IfOk, OnOk, MatchBool, MatchOption, codes, string_bytes};
ghost use Rattle.std.specs.List.{All, Contains};
ghost use Rattle.std.specs.List.Sorted.{IsNonDecreasing};
ghost use Rattle.xet_wire.specs.Multipart.{StandsIn, IsAbsent, IsCutAround, twenty_digits, numbered_boundary, IsLeastNumbered, IsBoundaryOf, TakesNumbers};

use crate::text::number;
use bytes::Bytes;
use memchr::memmem;
use std::alloc::Global;
use std::str;
use xet_types::OutOfMemory;

/// The boundary that is taken where it stands in no part.
const FIXED: &str = "xet_multipart_boundary";

/// What stands before the number of the boundaries that stand in for it.
const STEM: &[u8] = b"xet_multipart_boundary_";

/// How many digits the number has.
const DIGITS: usize = 20;

/// Whether a word stands in some bytes.
fn holds(bytes: &[u8], word: &[u8]) -> bool
    ensures { MatchBool result (StandsIn word.now bytes.now) (¬ StandsIn word.now bytes.now) }
{
    match memmem::find(bytes, word) {
        Some(_) => true,
        None => false,
    }
}

/// Whether a word stands in a part.
fn stands_in(parts: &[Bytes], word: &[u8]) -> bool
    ensures { MatchBool result (¬ IsAbsent word.now parts.now) (IsAbsent word.now parts.now) }
{
    for part in parts {
        if holds(part.as_slice(), word) {
            return true;
        }
    }
    false
}

/// The number whose digits some bytes begin with.
fn number_at(bytes: &[u8]) -> Option<u64>
    ensures { MatchOption result ((n : ℕ) (rest : List ℕ) → n < 2 ^ 64 → bytes.now ≢ twenty_digits n ++ rest) (λ n. (rest : List ℕ) × (bytes.now ≡ twenty_digits n ++ rest)) }
{
    if bytes.len() < DIGITS {
        return None;
    }
    if bytes[0] == b'+' {
        return None;
    }
    match str::from_utf8(&bytes[..DIGITS]) {
        Ok(digits) => number(digits),
        Err(_) => None,
    }
}

/// What follows a word where it first stands in some bytes.
fn behind<'a>(bytes: &'a [u8], word: &[u8]) -> Option<&'a [u8]>
    ensures { MatchOption result (¬ StandsIn word.now bytes.now) (λ rest. (before : List ℕ) × IsCutAround word.now bytes.now before rest.now) }
{
    match memmem::find(bytes, word) {
        Some(at) => Some(&bytes[at + word.len()..]),
        None => None,
    }
}

/// Adds the numbers of the numbered boundaries that stand in a part.
fn add_numbers(taken: &mut Vec<u64>, part: &[u8]) -> Result<(), OutOfMemory>
    ensures { OnOk result (TakesNumbers part.now taken.old.items taken.new.items) }
{
    let mut rest = part;
    while let Some(digits) = behind(rest, STEM) {
        if let Some(number) = number_at(digits) {
            taken.push(number)?;
        }
        rest = digits;
    }
    Ok(())
}

/// The numbers of the numbered boundaries that stand in a part.
fn taken_numbers(alloc: Global, parts: &[Bytes]) -> Result<Vec<u64>, OutOfMemory>
    ensures stand { IfOk result (λ taken. All (λ n. ¬ IsAbsent (numbered_boundary n) parts.now) taken.items) }
    ensures all { IfOk result (λ taken. (n : ℕ) → n < 2 ^ 64 → ¬ Contains taken.items n → IsAbsent (numbered_boundary n) parts.now) }
{
    let mut taken = Vec::new(alloc);
    for part in parts {
        add_numbers(&mut taken, part.as_slice())?;
    }
    Ok(taken)
}

/// The least number that isn't in a list that rises.
fn least_free(taken: &[u64]) -> u64
    requires { IsNonDecreasing taken.now }
    ensures free { ¬ Contains taken.now result }
    ensures least { (n : ℕ) → n < result → Contains taken.now n }
{
    let mut free = 0;
    for number in taken {
        if *number > free {
            return free;
        }
        if *number < free {
            continue;
        }
        free += 1;
    }
    free
}

/// The boundary with a number.
#[tactic(auto, unfolding(crate::specs::Multipart::numbered_boundary))]
fn numbered(alloc: Global, number: u64) -> Result<String, OutOfMemory>
    ensures { IfOk result (λ text. string_bytes text ≡ numbered_boundary number) }
{
    Ok(format!(in alloc; "xet_multipart_boundary_{number:020}")?)
}

/// The boundary of the least number that stands in no part.
fn least_numbered(alloc: Global, parts: &[Bytes]) -> Result<String, OutOfMemory>
    ensures { IfOk result (λ boundary. IsLeastNumbered parts.now (string_bytes boundary)) }
{
    let mut taken = taken_numbers(alloc, parts)?;
    taken.sort()?;
    let text = numbered(alloc, least_free(taken.as_slice()))?;
    Ok(text)
}

/// A boundary that stands in no part: `xet_multipart_boundary`, or where that stands in one, this text, `_` and the least number, in 20
/// digits, for which the text stands in none.
pub fn pick_boundary(alloc: Global, parts: &[Bytes]) -> Result<String, OutOfMemory>
    ensures { IfOk result (λ boundary. IsBoundaryOf parts.now (string_bytes boundary)) }
{
    if stands_in(parts, FIXED.as_bytes()) {
        let text = least_numbered(alloc, parts)?;
        return Ok(text);
    }
    let text = String::from_str(alloc, FIXED)?;
    Ok(text)
}
