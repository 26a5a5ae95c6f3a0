//! The terms of a generated file.
ghost use Rattle.std.specs.Prelude.{◌≡◌, IfOk};
ghost use Rattle.std.specs.Option.{option_copied};
ghost use Rattle.xet_demo.specs.Words.{parts_after};
ghost use Rattle.xet_demo.specs.Terms.{numbers_between, chunks_of, term_between, term_of, terms_of};

use super::word::{cut, number};
use std::alloc::Global;
use xet_types::{Items, OutOfMemory};

fn numbers_between(start: &[u8], end: &[u8]) -> Option<(u64, u64)>
    ensures { result ≡ numbers_between start.now end.now }
{
    let start = number(start)?;
    let end = number(end)?;
    Some((start, end))
}

/// Two numbers with `-` between them: the first chunk, and the one behind the last.
fn chunks(word: &[u8]) -> Option<(u64, u64)>
    ensures { result ≡ chunks_of word.now }
{
    let (start, rest) = cut(word, b'-');
    let (end, rest) = cut(rest?, b'-');
    match rest {
        None => numbers_between(start, end),
        Some(_) => None,
    }
}

fn term_between(seed: &[u8], range: &[u8]) -> Option<(u64, (u64, u64))>
    ensures { result ≡ term_between seed.now range.now }
{
    let seed = number(seed)?;
    let range = chunks(range)?;
    Some((seed, range))
}

/// A seed, `:` and two numbers with `-` between them.
fn term(word: &[u8]) -> Option<(u64, (u64, u64))>
    ensures { result ≡ term_of word.now }
{
    let (seed, rest) = cut(word, b':');
    let (range, rest) = cut(rest?, b':');
    match rest {
        None => term_between(seed, range),
        Some(_) => None,
    }
}

/// The terms of words that are joined by single spaces, if each of them is one; none where there are no words.
pub fn terms(
    alloc: Global,
    words: Option<&[u8]>,
) -> Result<Option<Items<(u64, (u64, u64))>>, OutOfMemory>
    ensures { IfOk result (λ terms. terms ≡ terms_of (parts_after 32 (option_copied words.entry))) }
{
    let mut terms = Vec::new(alloc);
    let mut left = words;
    'words: while let Some(text) = left {
        let (word, rest) = cut(text, b' ');
        let Some(term) = term(word) else {
            return Ok(None);
        };
        terms.push(term)?;
        left = rest;
    }
    Ok(Some(Items::from_vec(terms)))
}
