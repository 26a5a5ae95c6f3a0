//! The one call of the program.
ghost use Rattle.std.specs.Prelude.{◌≡◌, ◌↔◌, ◌≤◌, ◌+◌, ℕ, List, Option, None, IfOk, map, length};
ghost use Rattle.std.specs.String.{string_bytes};
ghost use Rattle.xet_demo.specs.Summaries.{report_text};
ghost use Rattle.xet_demo.specs.Calls.{call_of};
ghost use Rattle.std.specs.Io.{ReadsAtMost};
ghost use Rattle.xet_demo.specs.TopCall.{Answered, EndsAs, EndsMade, EndsSo, HasRead, ReadsOn, ReadsPast, ReadsSteps, WritesText, sides, exit_of};

use crate::made::made_steps;
use crate::print::page::Page;
use crate::print::{Report, print_report};
use crate::script::{Parser, ScriptError};
use crate::words::{Call, call_of};
use std::alloc::Global;
use std::{fmt, mem};
use xet_service::{ChunkService, Reply, Step, run_steps};
use xet_store::MemoryClient;
use xet_types::{Failed, OutOfMemory, Sink, Source};

/// How many bytes a script may have.
const LIMIT: usize = 67_108_864;

/// How many bytes are read at a time.
const PIECE: usize = 65_536;

/// How a call of the program ends.
#[derive(Clone, Copy, Debug, PartialEq, Eq)]
pub enum Status {
    Done,
    /// The words aren't those of a call.
    Usage,
    /// The line with this number, from 1, is the first that is no command.
    BadLine(u64),
    /// The source failed.
    ReadFault,
    /// The sink failed.
    WriteFault,
    /// The script has more than 67,108,864 bytes.
    TooLong,
    OutOfMemory,
}

impl Status {
    /// The exit status of the process.
    pub fn exit(&self) -> u8
        ensures { result ≡ exit_of self.now }
    {
        match self {
            Status::Done => 0,
            Status::Usage => 2,
            Status::BadLine(_) => 3,
            Status::ReadFault => 4,
            Status::WriteFault => 5,
            Status::TooLong => 6,
            Status::OutOfMemory => 9,
        }
    }
}

impl fmt::Display for Status {
    fn fmt<W: fmt::Write>(&self, f: &mut fmt::Formatter<W>) -> fmt::Result {
        match self {
            Status::Done => write!(f, "done"),
            Status::Usage => write!(
                f,
                "usage: xet_demo (memory or local DIR) [cache DIR CAPACITY SEED] [make N], or threads N"
            ),
            Status::BadLine(n) => write!(f, "line {n}: not a command"),
            Status::ReadFault => write!(f, "input could not be read"),
            Status::WriteFault => write!(f, "output could not be written"),
            Status::TooLong => write!(f, "script longer than 67108864 bytes"),
            Status::OutOfMemory => write!(f, "out of memory"),
        }
    }
}

/// Reads the next piece of a script, of which so many bytes were read, and answers how many bytes it has: none at the end.
fn read_piece<S: Source>(
    source: &mut S,
    buffer: &mut [u8; PIECE],
    length: usize,
) -> Result<usize, Status>
    requires { length ≤ LIMIT }
    ensures bound { ReadsAtMost result buffer.new }
    ensures short { IfOk result (λ count. length + count ≤ LIMIT) }
    ensures read { (start : Option (List ℕ)) (before : ℕ) (script : List ℕ) → HasRead start (S.left source.old) before (S.faults source.old) script length → ReadsOn start (S.left source.new) before (S.faults source.new) script length buffer.new result }
{
    let count = match source.read(buffer) {
        Ok(count) => count,
        Err(Failed) => return Err(Status::ReadFault),
    };
    if count > LIMIT - length {
        Err(Status::TooLong)
    } else {
        Ok(count)
    }
}

/// Reads a script of which so many bytes were read to its end, and keeps nothing of it.
fn read_past<S: Source>(source: &mut S, length: usize) -> Result<(), Status>
    requires { length ≤ LIMIT }
    ensures { (start : Option (List ℕ)) (before : ℕ) (script : List ℕ) → HasRead start (S.left source.old) before (S.faults source.old) script length → ReadsPast start (S.left source.new) before (S.faults source.new) script result }
{
    let mut buffer = [0u8; PIECE];
    let mut length = length;
    'pieces: loop {
        match read_piece(source, &mut buffer, length)? {
            0 => return Ok(()),
            count => length += count,
        }
    }
}

/// The steps of the script that the source gives, which is parsed while it is read.
pub(crate) fn read_steps<S: Source>(alloc: Global, source: &mut S) -> Result<Vec<Step>, Status>
    ensures { ReadsSteps (S.left source.old) (S.left source.new) (S.faults source.old) (S.faults source.new) result }
{
    let mut parser = Parser::new(alloc);
    let mut buffer = [0u8; PIECE];
    let mut length = 0;
    'pieces: loop {
        let count = read_piece(source, &mut buffer, length)?;
        if count == 0 {
            break;
        }
        length += count;
        match parser.take(alloc, &buffer[..count]) {
            Ok(()) => {}
            Err(ScriptError::BadLine(n)) => {
                read_past(source, length)?;
                return Err(Status::BadLine(n));
            }
            Err(ScriptError::OutOfMemory) => return Err(Status::OutOfMemory),
        }
    }
    match parser.finish(alloc) {
        Ok(steps) => Ok(steps),
        Err(ScriptError::BadLine(n)) => Err(Status::BadLine(n)),
        Err(ScriptError::OutOfMemory) => Err(Status::OutOfMemory),
    }
}

/// The replies of steps that are run over an empty store in memory.
fn replies_of(alloc: Global, steps: &[Step]) -> Result<Vec<Reply>, OutOfMemory>
    ensures { IfOk result (λ replies. Answered steps.now replies.items) }
{
    let mut service = ChunkService::new(alloc, MemoryClient::new(alloc));
    let mut replies = Vec::with_capacity(alloc, steps.len())?;
    run_steps(alloc, &mut service, steps, &mut replies)?;
    Ok(replies)
}

/// Writes what is reported of replies. No memory is taken once something was written.
fn write_report<K: Sink>(alloc: Global, sink: &mut K, report: Report, replies: &[Reply]) -> Status
    ensures { WritesText (K.taken sink.old) (K.taken sink.new) (K.faults sink.old) (K.faults sink.new) (report_text report replies.now) result }
{
    let Ok(mut page) = Page::new(alloc) else {
        return Status::OutOfMemory;
    };
    print_report(&mut page, sink, report, replies);
    page.flush(sink);
    if page.has_failed() {
        Status::WriteFault
    } else {
        Status::Done
    }
}

/// Keeps the memory of a run, which the process gives back as a whole when it ends. Piece by piece it takes as long as
/// printing a part of the replies.
fn leave(steps: Vec<Step>, replies: Vec<Reply>) {
    mem::forget(steps);
    mem::forget(replies);
}

/// Runs the script that the source gives.
fn run<S: Source, K: Sink>(alloc: Global, source: &mut S, sink: &mut K) -> Status
    ensures ends { EndsSo Answered (sides (S.left source.old) (S.faults source.old) (K.taken sink.old) (K.faults sink.old)) (sides (S.left source.new) (S.faults source.new) (K.taken sink.new) (K.faults sink.new)) result }
    ensures runs { result ≡ Status.Usage → ⊥ }
{
    let steps = match read_steps(alloc, source) {
        Ok(steps) => steps,
        Err(status) => return status,
    };
    match replies_of(alloc, &steps) {
        Ok(replies) => {
            let status = write_report(alloc, sink, Report::Lines, &replies);
            leave(steps, replies);
            status
        }
        Err(OutOfMemory) => Status::OutOfMemory,
    }
}

/// Makes so many files, reads a part of each, and writes a summary.
fn make<K: Sink>(alloc: Global, count: u32, sink: &mut K) -> Status
    ensures { (left : Option (List ℕ)) (faults : ℕ) → EndsMade Answered count (sides left faults (K.taken sink.old) (K.faults sink.old)) (sides left faults (K.taken sink.new) (K.faults sink.new)) result }
{
    let Ok(steps) = made_steps(alloc, count) else {
        return Status::OutOfMemory;
    };
    match replies_of(alloc, &steps) {
        Ok(replies) => {
            let status = write_report(alloc, sink, Report::Summary, &replies);
            leave(steps, replies);
            status
        }
        Err(OutOfMemory) => Status::OutOfMemory,
    }
}

/// Runs steps over an empty store in memory. With the word `memory` they are those of the script that the source gives, and the lines
/// of their replies are written; with `memory make N`, N from 1 to 2000, they are [`made_steps`], and a summary is written.
///
/// The words are those behind the program's name. Under every status but `Done` and `WriteFault` nothing is written.
pub fn run_script<S: Source, W: Sink>(
    alloc: Global,
    words: &[String],
    source: &mut S,
    sink: &mut W,
) -> Status
    ensures usage { (result ≡ Status.Usage) ↔ (call_of (map string_bytes words.now) ≡ None) }
    ensures ends { EndsAs Answered (call_of (map string_bytes words.now)) (sides (S.left source.old) (S.faults source.old) (W.taken sink.old) (W.faults sink.old)) (sides (S.left source.new) (S.faults source.new) (W.taken sink.new) (W.faults sink.new)) result }
{
    match call_of(words) {
        Some(Call::Script) => run(alloc, source, sink),
        Some(Call::Make(count)) => make(alloc, count, sink),
        None => Status::Usage,
    }
}

#[cfg(test)]
mod rows;
#[cfg(test)]
mod tests;
