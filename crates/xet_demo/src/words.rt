//! The words of the command line, without the program's name.
ghost use Rattle.std.specs.Prelude.{◌≡◌, ◌↔◌, IsTrue, Some, map};
ghost use Rattle.std.specs.String.{string_bytes};
ghost use Rattle.xet_demo.specs.Words.{number_of};
ghost use Rattle.xet_demo.specs.Calls.{IsHelp, IsVersion, IsWord, call_of, script_of, made_of, counted};

use crate::script::word::number;

/// What is asked about the program.
#[derive(Clone, Copy, Debug, PartialEq, Eq)]
pub enum Question {
    Help,
    Version,
}

/// What the words ask to run.
#[derive(Clone, Copy, Debug, PartialEq, Eq)]
pub enum Call {
    /// The script that the source gives.
    Script,
    /// So many files that are made and read, from 1 to 2000.
    Make(u32),
}

/// How many files may be made.
const MOST_MADE: u64 = 2000;

/// What the words ask about the program, where they are the one word `--help` or the one word `--version`.
pub fn asked(words: &[String]) -> Option<Question>
    ensures help { (result ≡ Some Question.Help) ↔ IsHelp (map string_bytes words.now) }
    ensures version { (result ≡ Some Question.Version) ↔ IsVersion (map string_bytes words.now) }
{
    if is_word(words, "--help") {
        Some(Question::Help)
    } else if is_word(words, "--version") {
        Some(Question::Version)
    } else {
        None
    }
}

/// What the words ask to run: `memory` runs a script, and `memory make N` makes N files.
pub fn call_of(words: &[String]) -> Option<Call>
    ensures { result ≡ call_of (map string_bytes words.now) }
{
    match words {
        [store] => script(store.as_bytes()),
        [store, make, count] => made(store.as_bytes(), make.as_bytes(), count.as_bytes()),
        _ => None,
    }
}

/// The run of a script, where the word is `memory`.
fn script(store: &[u8]) -> Option<Call>
    ensures { result ≡ script_of store.now }
{
    if store == b"memory".as_slice() {
        Some(Call::Script)
    } else {
        None
    }
}

/// The run of so many files, where the words before their number are `memory` and `make`.
fn made(store: &[u8], make: &[u8], count: &[u8]) -> Option<Call>
    ensures { result ≡ made_of store.now make.now count.now }
{
    if store == b"memory".as_slice() && make == b"make".as_slice() {
        counted(count)
    } else {
        None
    }
}

/// The run of so many files, from 1 to 2000.
fn counted(count: &[u8]) -> Option<Call>
    ensures { result ≡ counted (number_of count.now) }
{
    let count = number(count)?;
    if count == 0 || count > MOST_MADE {
        return None;
    }
    Some(Call::Make(count as u32))
}

/// Whether the words are this one alone.
fn is_word(words: &[String], only: &str) -> bool
    ensures { IsTrue result ↔ IsWord only.now (map string_bytes words.now) }
{
    match words {
        [word] => word.as_str() == only,
        _ => false,
    }
}

#[cfg(test)]
mod tests;
