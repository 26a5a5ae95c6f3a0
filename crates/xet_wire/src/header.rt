//! Values of range headers (RFC 7233 section 2.1).
ghost use Rattle.std.specs.Prelude.{◌≡◌, ◌↔◌, ◌++◌, ◌∷◌, IfOk, OnOk, MatchOption, IfSome, Ok, Some, string_bytes, codes, ◌≢◌, ℕ, List};
ghost use Rattle.std.specs.Option.{option_copied};
ghost use Rattle.std.specs.List.{All};
ghost use Rattle.xet_wire.specs.Texts.{Fits64, ranges_text};
ghost use Rattle.xet_wire.specs.declared.header.FileRangeVariant.{FileRangeVariant};
ghost use Rattle.xet_wire.specs.Headers.{Asks, Means, ReadsHeader, header_text, IsOne};

use crate::text::{cut, number, push_range, reserve_ranges};
use std::alloc::Global;
use std::str;
use thiserror::Error;
use xet_types::{FileRange, HttpRange, OutOfMemory};

/// What a range header asks for.
#[derive(Clone, Copy, Debug, PartialEq, Eq)]
pub enum FileRangeVariant {
    /// These bytes; the end is excluded.
    Normal(FileRange),
    /// The bytes from this one on.
    OpenRHS(u64),
    /// So many bytes at the end.
    Suffix(u64),
}

/// The value isn't one range of bytes: status 416.
#[derive(Clone, Copy, Debug, PartialEq, Eq, Error)]
#[error("Invalid range")]
pub struct BadRangeHeader;

/// What two texts around a dash ask for.
fn asked(start: &str, end: &str) -> Option<FileRangeVariant>
    ensures { MatchOption result ((asked : FileRangeVariant) → ¬ Asks start.now end.now asked) (λ asked. Asks start.now end.now asked) }
{
    if end.is_empty() {
        return match number(start) {
            Some(start) => Some(FileRangeVariant::OpenRHS(start)),
            None => None,
        };
    }
    let Some(last) = number(end) else {
        return None;
    };
    if start.is_empty() {
        return Some(FileRangeVariant::Suffix(last));
    }
    match number(start) {
        Some(start) if start <= last && last < u64::MAX => {
            Some(FileRangeVariant::Normal(FileRange::new(start, last + 1)))
        }
        _ => None,
    }
}

/// What stands behind `bytes=`.
fn behind_unit(value: &str) -> Option<&str>
    ensures { MatchOption result ((rest : List ℕ) → value.now ≢ codes "bytes=" ++ rest) (λ rest. value.now ≡ codes "bytes=" ++ rest.now) }
{
    value.strip_prefix("bytes=")
}

/// What a value asks for.
fn meaning(value: &[u8]) -> Option<FileRangeVariant>
    ensures { MatchOption result ((asked : FileRangeVariant) → ¬ Means value.now asked) (λ asked. Means value.now asked) }
{
    let Ok(text) = str::from_utf8(value) else {
        return None;
    };
    let Some(rest) = behind_unit(text) else {
        return None;
    };
    let Some((start, end)) = cut(rest, '-') else {
        return None;
    };
    asked(start, end)
}

/// What a range header's value asks for; `None` where there is no header.
///
/// [`BadRangeHeader`] exactly where the value isn't `bytes=S-E`, `bytes=S-` or `bytes=-N` in this very form, with numbers as
/// `u64::from_str` reads them, S at most E and E below `u64::MAX`. A list of ranges is refused.
pub fn parse_range_header(value: Option<&[u8]>) -> Result<Option<FileRangeVariant>, BadRangeHeader>
    ensures value { ReadsHeader (option_copied value.entry) result }
    ensures reads { IfSome (option_copied value.entry) (λ text. (asked : FileRangeVariant) → Means text asked → result ≡ Ok (Some asked)) }
{
    match value {
        Some(value) => match meaning(value) {
            Some(asked) => Ok(Some(asked)),
            None => Err(BadRangeHeader),
        },
        None => Ok(None),
    }
}

/// Puts ranges at the end, with commas between them.
fn push_ranges(text: &mut String, ranges: &[HttpRange]) -> Result<(), OutOfMemory>
    ensures text { OnOk result (string_bytes text.new ≡ string_bytes text.old ++ ranges_text ranges.now) }
    ensures fit { OnOk result (All (λ r. Fits64 r) ranges.now) }
{
    for (place, range) in ranges.iter().enumerate() {
        push_range(text, place, range.start, range.end)?;
    }
    Ok(())
}

/// The value of the header that asks for these ranges, `bytes=S-E,S-E`, and `bytes=` for none.
///
/// Of one range S-E, with S at most E and E below `u64::MAX`, it is read as the range from S to E + 1; every other one is refused.
#[tactic(auto, unfolding(crate::specs::Headers::header_text))]
pub fn ranges_header(alloc: Global, ranges: &[HttpRange]) -> Result<String, OutOfMemory>
    ensures text { IfOk result (λ text. string_bytes text ≡ header_text ranges.now) }
    ensures means { IfOk result (λ text. (asked : FileRangeVariant) → (Means (string_bytes text) asked ↔ IsOne ranges.now asked)) }
{
    let mut text = String::from_str(alloc, "bytes=")?;
    reserve_ranges(&mut text, ranges.len())?;
    push_ranges(&mut text, ranges)?;
    Ok(text)
}
