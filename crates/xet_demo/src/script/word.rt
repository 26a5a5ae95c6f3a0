//! The words of a line, and what they mean.
ghost use Rattle.std.specs.Prelude.{◌≡◌, ◌<◌, ◌∷◌, if◌then◌else◌, length, IfOk, Option, Some, None};
ghost use Rattle.std.specs.Char.{is_ascii_digit};
ghost use Rattle.std.specs.List.{list_all};
ghost use Rattle.std.specs.Option.{option_copied};
ghost use Rattle.xet_demo.specs.Words.{parts_of, parts_after, number_of, small_number_of, octets_of, range_of, between, value_of};

use super::digits::decode;
use super::places::place_of;
use bytes::Bytes;
use std::alloc::Global;
use xet_service::Content;
use xet_types::{FileRange, OutOfMemory};

/// How many digits a number may have.
const MOST_DIGITS: usize = 20;

/// What stands before the first separator, and, where there is one, what stands after it.
pub fn cut(text: &[u8], separator: u8) -> (&[u8], Option<&[u8]>)
    ensures { parts_of separator text.now ≡ result.0.now ∷ parts_after separator (option_copied result.1) }
{
    match place_of(separator, text) {
        Some(at) => (&text[..at], Some(&text[at + 1..])),
        None => (text, None),
    }
}

/// The number that fewer than 20 decimal digits write. Any such number is below 2^64, so that only the digits are tested.
fn short_number(word: &[u8]) -> Option<u64>
    requires { length word.now < MOST_DIGITS }
    ensures { result ≡ (if list_all is_ascii_digit word.now then Some (value_of word.now) else None) }
{
    let mut value = 0u64;
    for digit in word {
        if !digit.is_ascii_digit() {
            return None;
        }
        value = value * 10 + u64::from(*digit - b'0');
    }
    Some(value)
}

/// The number that 1 to 20 decimal digits write, if it is below 2^64.
pub fn number(word: &[u8]) -> Option<u64>
    ensures { result ≡ number_of word.now }
{
    if word.is_empty() || word.len() > MOST_DIGITS {
        return None;
    }
    let (front, last) = word.split_at(word.len() - 1);
    let front = short_number(front)?;
    let digit = last[0];
    if !digit.is_ascii_digit() {
        return None;
    }
    front.checked_mul(10)?.checked_add(u64::from(digit - b'0'))
}

/// The same below 2^32.
pub fn small_number(word: &[u8]) -> Option<u32>
    ensures { result ≡ small_number_of word.now }
{
    u32::try_from(number(word)?).ok()
}

/// The bytes that hexadecimal digits spell; `-` for none.
pub fn content(alloc: Global, word: &[u8]) -> Result<Option<Content>, OutOfMemory>
    ensures { IfOk result (λ content. content ≡ octets_of word.now) }
{
    if word == b"-".as_slice() {
        return Ok(Some(Content::new(alloc, Bytes::new())?));
    }
    if word.is_empty() {
        return Ok(None);
    }
    match decode(alloc, word)? {
        Some(bytes) => Ok(Some(Content::new(alloc, Bytes::from_vec(bytes)?)?)),
        None => Ok(None),
    }
}

/// `all`, or two numbers with `-` between them.
pub fn range(word: &[u8]) -> Option<Option<FileRange>>
    ensures { result ≡ range_of word.now }
{
    if word == b"all".as_slice() {
        return Some(None);
    }
    let (start, rest) = cut(word, b'-');
    let (end, rest) = cut(rest?, b'-');
    match rest {
        None => between(start, end),
        Some(_) => None,
    }
}

fn between(start: &[u8], end: &[u8]) -> Option<Option<FileRange>>
    ensures { result ≡ between start.now end.now }
{
    let start = number(start)?;
    let end = number(end)?;
    Some(Some(FileRange::new(start, end)))
}
