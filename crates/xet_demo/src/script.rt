//! Scripts: lines of text, each of them a step.
ghost use Rattle.std.specs.Prelude.{◌≡◌, ◌++◌, ◌<◌, ◌+◌, ◌^◌, ℕ, List, [], length, None, IfOk, OnOk};
ghost use Rattle.memchr.specs.Find.{IsFirstByte, is_byte};
ghost use Rattle.std.specs.Str.Lines.{strip_carriage_return};
ghost use Rattle.xet_demo.specs.Script.{AddsLines, AddsStepsOf, HasParsed, IsParsedTo, Parses, ParsesOn};

pub mod digits;
pub mod line;
pub mod places;
pub mod terms;
pub mod word;

use line::add_step;
use places::place_of;
use std::alloc::{AllocError, Global};
use std::marker::Model;
use xet_service::Step;
use xet_types::OutOfMemory;

/// Why a script has no steps.
#[derive(Clone, Copy, Debug, PartialEq, Eq)]
pub enum ScriptError {
    /// The number, from 1, of the first line that is no command.
    BadLine(u64),
    OutOfMemory,
}

impl From<OutOfMemory> for ScriptError {
    ghost use Rattle.std.specs.Prelude.{◌≡◌};
    ghost use Rattle.xet_demo.specs.declared.script.ScriptError.TheVariants.{OutOfMemory};

    ghost from_gives = { λ _ e. e ≡ OutOfMemory };

    fn from(_: OutOfMemory) -> ScriptError {
        ScriptError::OutOfMemory
    }
}

impl From<AllocError> for ScriptError {
    ghost use Rattle.std.specs.Prelude.{◌≡◌};
    ghost use Rattle.xet_demo.specs.declared.script.ScriptError.TheVariants.{OutOfMemory};

    ghost from_gives = { λ _ e. e ≡ OutOfMemory };

    fn from(_: AllocError) -> ScriptError {
        ScriptError::OutOfMemory
    }
}

/// A line without the one CR at its end, if it has one.
fn without_return(line: &[u8]) -> &[u8]
    ensures { result.now ≡ strip_carriage_return line.now }
{
    match line {
        [front @ .., b'\r'] => front,
        _ => line,
    }
}

/// Adds the step of a line, if it has one, and counts the line. `number` is the line's.
fn add_line(
    alloc: Global,
    line: &[u8],
    number: &mut u64,
    steps: &mut Vec<Step>,
) -> Result<(), ScriptError>
    requires { number.old + 1 < 2 ^ 64 }
    ensures added { AddsStepsOf line.now number.old steps.old.items steps.new.items result }
    ensures counted { OnOk result (number.new ≡ number.old + 1) }
{
    if !add_step(alloc, line, steps)? {
        return Err(ScriptError::BadLine(*number));
    }
    *number += 1;
    Ok(())
}

/// Adds the steps of the whole lines of a text, and answers what is behind its last LF. `number` is that of the next line.
fn add_lines<'t>(
    alloc: Global,
    text: &'t [u8],
    number: &mut u64,
    steps: &mut Vec<Step>,
) -> Result<&'t [u8], ScriptError>
    requires { number.old + length text.now < 2 ^ 64 }
    ensures parsed { (all : List ℕ) → IsParsedTo all text.now number.old steps.old.items → AddsLines all number.new steps.new.items result }
    ensures behind { IfOk result (λ rest. IsFirstByte (is_byte 10) rest.now None) }
{
    let mut rest = text;
    'lines: while let Some(end) = place_of(b'\n', rest) {
        add_line(alloc, without_return(&rest[..end]), number, steps)?;
        rest = &rest[end + 1..];
    }
    Ok(rest)
}

/// The steps of a script that comes piece by piece. Beside the steps it holds no more of the script than one line.
#[derive(Drop)]
pub struct Parser {
    /// What came behind the last LF.
    line: Vec<u8>,
    /// The number of that line, from 1.
    number: u64,
    steps: Vec<Step>,
}

impl Model for Parser {
    ghost use Rattle.std.specs.Prelude.{None};
    ghost use Rattle.memchr.specs.Find.{IsFirstByte, is_byte};
    ghost use Rattle.xet_demo.specs.Script.{Parsed};

    ghost Value = { Parsed };

    ghost view = { λ p. record { line = p.line.items; number = p.number; steps = p.steps.items } };

    ghost invariant = { λ p. IsFirstByte (is_byte 10) p.line.items None };
}

impl Parser {
    /// Before the first piece. Takes no memory.
    pub fn new(alloc: Global) -> Parser
        ensures { HasParsed [] result }
    {
        Parser {
            line: Vec::new(alloc),
            number: 1,
            steps: Vec::new(alloc),
        }
    }

    /// Takes the next piece of the script. After an error there is no use for the parser.
    pub fn take(&mut self, alloc: Global, piece: &[u8]) -> Result<(), ScriptError>
        requires { self.old.number + length piece.now < 2 ^ 64 }
        ensures { (text : List ℕ) → HasParsed text self.old → ParsesOn (text ++ piece.now) self.new result }
    {
        let Some(end) = place_of(b'\n', piece) else {
            self.line.extend_from_slice(piece)?;
            return Ok(());
        };
        self.line.extend_from_slice(&piece[..end])?;
        let line = without_return(&self.line);
        add_line(alloc, line, &mut self.number, &mut self.steps)?;
        self.line.clear();
        let rest = add_lines(alloc, &piece[end + 1..], &mut self.number, &mut self.steps)?;
        self.line.extend_from_slice(rest)?;
        Ok(())
    }

    /// The steps of all lines, where the script has ended.
    pub fn finish(self, alloc: Global) -> Result<Vec<Step>, ScriptError>
        requires { self.number + 1 < 2 ^ 64 }
        ensures { (text : List ℕ) → HasParsed text self → Parses text result }
    {
        let Parser {
            line,
            mut number,
            mut steps,
        } = self;
        if !line.is_empty() {
            add_line(alloc, &line, &mut number, &mut steps)?;
        }
        Ok(steps)
    }
}

#[cfg(test)]
mod tests;
