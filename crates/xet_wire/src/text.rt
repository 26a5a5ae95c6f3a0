//! Cuts, numbers and lists of ranges in texts.
ghost use Rattle.std.specs.Prelude.{◌≡◌, ◌<◌, ◌^◌, ◌∷◌, ◌++◌, ℕ, List, string_bytes, decimal, IfOk, IfErr, OnOk, MatchOption};
ghost use Rattle.std.specs.List.{Contains};
ghost use Rattle.xet_types.specs.Keys.{IsCutAtLast};
ghost use Rattle.xet_types.specs.Ranges.{IsNumber, range_text};
ghost use Rattle.xet_wire.specs.Texts.{IsCutAtFirst, AreFields, IsNumberOf, IsNumberThen, AddsPiece, ReadsRanges, comma_before};

use itoa::Buffer;
use memchr::memrchr;
use std::alloc::Global;
use xet_types::{ClientError, HttpRange, OutOfMemory, Range};

/// What stands before and after the first mark, an ASCII character.
pub(crate) fn cut(text: &str, mark: char) -> Option<(&str, &str)>
    requires { mark < 128 }
    ensures { MatchOption result (¬ Contains text.now mark) (λ p. IsCutAtFirst mark text.now p.0.now p.1.now) }
{
    text.split_once(mark)
}

/// What stands before and after the last colon.
pub(crate) fn cut_at_last_colon(text: &str) -> Option<(&str, &str)>
    ensures { MatchOption result (¬ Contains text.now 58) (λ p. IsCutAtLast 58 text.now p.0.now p.1.now) }
{
    let at = memrchr(b':', text.as_bytes())?;
    Some((&text[..at], &text[at + 1..]))
}

/// The four fields of a text that is cut at its last three colons.
pub(crate) fn fields(text: &str) -> Option<(&str, &str, &str, &str)>
    ensures { MatchOption result ((a : List ℕ) (b : List ℕ) (c : List ℕ) (d : List ℕ) → ¬ AreFields text.now a b c d) (λ p. AreFields text.now p.0.now p.1.now p.2.now p.3.now) }
{
    let Some((three, fourth)) = cut_at_last_colon(text) else {
        return None;
    };
    let Some((two, third)) = cut_at_last_colon(three) else {
        return None;
    };
    let Some((first, second)) = cut_at_last_colon(two) else {
        return None;
    };
    Some((first, second, third, fourth))
}

/// The number that decimal digits write, after a plus or none.
pub(crate) fn number(text: &str) -> Option<u64>
    ensures { MatchOption result (¬ IsNumber 64 text.now) (λ n. IsNumberOf text.now n) }
{
    text.parse::<u64>().ok()
}

/// The number that stands before the first colon, and what stands after it.
pub(crate) fn number_then(text: &str) -> Option<(u64, &str)>
    ensures { MatchOption result ((n : ℕ) (rest : List ℕ) → ¬ IsNumberThen text.now n rest) (λ p. IsNumberThen text.now p.0 p.1.now) }
{
    let Some((digits, rest)) = cut(text, ':') else {
        return None;
    };
    match number(digits) {
        Some(number) => Some((number, rest)),
        None => None,
    }
}

/// Adds the range that a piece of a list is, and nothing where it is empty.
fn add_piece<Kind: Copy>(ranges: &mut Vec<Range<u64, Kind>>, piece: &str) -> Result<(), ClientError>
    ensures { AddsPiece piece.now ranges.old.items ranges.new.items result }
{
    if piece.is_empty() {
        return Ok(());
    }
    match piece.parse::<HttpRange>() {
        Ok(range) => {
            ranges.push(Range::new(range.start, range.end))?;
            Ok(())
        }
        Err(_) => Err(ClientError::InvalidArguments),
    }
}

/// The ranges that a text lists between commas.
pub(crate) fn read_ranges<Kind: Copy>(
    alloc: Global,
    text: &str,
) -> Result<Vec<Range<u64, Kind>>, ClientError>
    ensures { ReadsRanges text.now result }
{
    let mut ranges = Vec::new(alloc);
    let mut rest = text;
    while let Some((piece, more)) = cut(rest, ',') {
        add_piece(&mut ranges, piece)?;
        rest = more;
    }
    add_piece(&mut ranges, rest)?;
    Ok(ranges)
}

/// Puts a mark and a number's digits at the end.
pub(crate) fn push_number(text: &mut String, mark: char, number: u64) -> Result<(), OutOfMemory>
    requires { mark < 128 }
    ensures { OnOk result (string_bytes text.new ≡ string_bytes text.old ++ mark ∷ decimal number) }
{
    let mut digits = Buffer::new();
    text.push(mark)?;
    text.push_str(digits.format(number))?;
    Ok(())
}

/// Puts a range of a list at the end, with a comma before all but the list's first.
pub(crate) fn push_range(
    text: &mut String,
    place: usize,
    start: u64,
    end: u64,
) -> Result<(), OutOfMemory>
    ensures text { OnOk result (string_bytes text.new ≡ string_bytes text.old ++ comma_before place ++ decimal start ++ 45 ∷ decimal end) }
    ensures fits { (start < 2 ^ 64) × (end < 2 ^ 64) }
{
    let mut digits = Buffer::new();
    if place > 0 {
        text.push(',')?;
    }
    text.push_str(digits.format(start))?;
    push_number(text, '-', end)
}

/// The most bytes that a range of a list takes.
const RANGE_ROOM: usize = 42;

/// Takes room for so many ranges of a list at once.
pub(crate) fn reserve_ranges(text: &mut String, count: usize) -> Result<(), OutOfMemory>
    ensures { string_bytes text.new ≡ string_bytes text.old }
{
    text.reserve(count.saturating_mul(RANGE_ROOM))?;
    Ok(())
}
