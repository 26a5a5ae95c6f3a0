//! Where bytes go.
ghost use Rattle.std.specs.Prelude.{◌≡◌, Some, [], IfOk, IsErr, ℕ, List, Option, ◌<◌, length};
ghost use Rattle.std.specs.Io.{WritesAtMost};
ghost use Rattle.std.specs.Io.KnownBytes.{WriteAppends};
ghost use Rattle.xet_types.specs.Faults.{HasCause};

use super::{Failed, Failing};
use crate::error::OutOfMemory;
use std::alloc::Global;
use std::io::Write;

/// Bytes to be written to.
pub trait Sink {
    /// The bytes so far, where the object tells them.
    ghost taken: { Self → Option (List ℕ) };

    /// How many calls have failed.
    ghost faults: { Self → ℕ };

    /// Adds the first bytes of the piece, and answers how many: at least one of a piece that isn't empty.
    ///
    /// A failed call adds none.
    fn write(&mut self, bytes: &[u8]) -> Result<usize, Failed>
        ensures bound { WritesAtMost result bytes.now }
        ensures progress { IfOk result (λ n. 0 < length bytes.now → 0 < n) }
        ensures bytes { WriteAppends (taken self.old) (taken self.new) result bytes.now }
        ensures cause { HasCause (faults self.old) (faults self.new) result };
}

/// Bytes in memory, with a list of calls that are to fail. A call that finds no memory fails too.
#[derive(Debug, Drop)]
pub struct MemorySink {
    content: Vec<u8>,
    failing: Failing,
}

impl MemorySink {
    ghost use Rattle.xet_types.specs.Failures.{planned_failures};
    ghost use Rattle.xet_types.specs.Outside.{taken_of, sink_failures};

    /// A sink without bytes. `failing` has the numbers, from 0, of the calls that are to fail.
    pub fn new(alloc: Global, failing: &[u64]) -> Result<MemorySink, OutOfMemory>
        ensures bytes { IfOk result (λ s. taken_of s ≡ Some []) }
        ensures failures { IfOk result (λ s. sink_failures s ≡ planned_failures failing.now) }
    {
        Ok(MemorySink {
            content: Vec::new(alloc),
            failing: Failing::new(alloc, failing)?,
        })
    }

    /// The bytes so far.
    pub fn taken(&self) -> &[u8]
        ensures { taken_of self.now ≡ Some result.now }
    {
        &self.content
    }
}

impl Sink for MemorySink {
    ghost use Rattle.xet_types.specs.Failures.{IsToFail, CallCounted};
    ghost use Rattle.xet_types.specs.Outside.{taken_of, sink_failures};

    ghost taken = { taken_of };

    ghost faults = { λ s. (sink_failures s).count };

    /// It takes the whole piece. It fails where the call is to fail, and otherwise only for want of memory.
    fn write(&mut self, bytes: &[u8]) -> Result<usize, Failed>
        ensures bound { WritesAtMost result bytes.now }
        ensures progress { IfOk result (λ n. 0 < length bytes.now → 0 < n) }
        ensures bytes { WriteAppends (taken_of self.old) (taken_of self.new) result bytes.now }
        ensures cause { HasCause (sink_failures self.old).count (sink_failures self.new).count result }
        ensures fails { IsToFail (sink_failures self.old) → IsErr result }
        ensures counted { CallCounted (sink_failures self.old) (sink_failures self.new) result }
        ensures whole { IfOk result (λ n. n ≡ length bytes.now) }
    {
        if self.failing.call() {
            self.failing.fault();
            return Err(Failed);
        }
        match self.content.extend_from_slice(bytes) {
            Ok(()) => Ok(bytes.len()),
            Err(_) => {
                self.failing.fault();
                Err(Failed)
            }
        }
    }
}

/// Any writer, as standard output, and how often it failed. A writer that takes nothing of a piece has failed.
#[derive(Drop)]
pub struct StdSink<W: Write> {
    inner: W,
    faults: u64,
}

impl<W: Write> StdSink<W> {
    /// A sink that writes to the writer.
    pub fn new(inner: W) -> StdSink<W>
        ensures { (result.inner ≡ inner) × (result.faults ≡ 0) }
    {
        StdSink { inner, faults: 0 }
    }
}

impl<W: Write> Sink for StdSink<W> {
    ghost use Rattle.std.specs.Prelude.{OnErr};
    ghost use Rattle.xet_types.specs.Failures.{one_more};

    ghost taken = { λ s. W.contents s.inner };

    ghost faults = { λ s. s.faults };

    /// It answers what the writer does, and counts a failure of it once.
    fn write(&mut self, bytes: &[u8]) -> Result<usize, Failed>
        ensures bound { WritesAtMost result bytes.now }
        ensures progress { IfOk result (λ n. 0 < length bytes.now → 0 < n) }
        ensures bytes { WriteAppends (W.contents self.old.inner) (W.contents self.new.inner) result bytes.now }
        ensures cause { HasCause self.old.faults self.new.faults result }
        ensures counted { OnErr result (self.new.faults ≡ one_more self.old.faults) }
    {
        if bytes.is_empty() {
            return Ok(0);
        }
        match self.inner.write(bytes) {
            Ok(count) if count > 0 => Ok(count),
            _ => {
                self.faults = self.faults.saturating_add(1);
                Err(Failed)
            }
        }
    }
}
