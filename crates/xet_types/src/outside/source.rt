//! Where bytes come from.
ghost use Rattle.std.specs.Prelude.{◌≡◌, ◌↔◌, Some, IfOk, IsErr, ◌≤◌, ℕ, List, Option, length, vec_len};
ghost use Rattle.std.specs.Io.{ReadsAtMost};
ghost use Rattle.std.specs.Io.KnownBytes.{ReadConsumes};
ghost use Rattle.xet_types.specs.Faults.{HasCause};

use super::{Failed, Failing};
use crate::error::OutOfMemory;
use std::alloc::Global;
use std::io::Read;

/// Bytes to be read.
pub trait Source {
    /// The bytes still to come, where the object tells them.
    ghost left: { Self → Option (List ℕ) };

    /// How many calls have failed.
    ghost faults: { Self → ℕ };

    /// Moves the first bytes still to come to the front of the buffer, and answers how many.
    ///
    /// 0 for a buffer that isn't empty is the end. A failed call leaves the bytes still to come as they were.
    fn read(&mut self, into: &mut [u8]) -> Result<usize, Failed>
        ensures bound { ReadsAtMost result into.new }
        ensures bytes { ReadConsumes (left self.old) (left self.new) result into.new }
        ensures cause { HasCause (faults self.old) (faults self.new) result };
}

/// Bytes in memory, with a list of calls that are to fail.
#[derive(Debug, Drop)]
pub struct MemorySource {
    content: Vec<u8>,
    position: usize,
    failing: Failing,
    ghost within: { position ≤ vec_len content },
}

impl MemorySource {
    ghost use Rattle.xet_types.specs.Failures.{planned_failures};
    ghost use Rattle.xet_types.specs.Outside.{left_of, source_failures};

    /// A source of these bytes. `failing` has the numbers, from 0, of the calls that are to fail.
    pub fn new(alloc: Global, content: &[u8], failing: &[u64]) -> Result<MemorySource, OutOfMemory>
        ensures bytes { IfOk result (λ s. left_of s ≡ Some content.now) }
        ensures failures { IfOk result (λ s. source_failures s ≡ planned_failures failing.now) }
    {
        Ok(MemorySource {
            content: Vec::from_slice(alloc, content)?,
            position: 0,
            failing: Failing::new(alloc, failing)?,
        })
    }
}

impl Source for MemorySource {
    ghost use Rattle.xet_types.specs.Failures.{IsToFail, CallCounted};
    ghost use Rattle.xet_types.specs.Outside.{left_of, source_failures, ReadsAll};

    ghost left = { left_of };

    ghost faults = { λ s. (source_failures s).count };

    /// It gives as many bytes as there are, up to the buffer's length, and fails exactly where the call is to fail.
    fn read(&mut self, into: &mut [u8]) -> Result<usize, Failed>
        ensures bound { ReadsAtMost result into.new }
        ensures bytes { ReadConsumes (left_of self.old) (left_of self.new) result into.new }
        ensures cause { HasCause (source_failures self.old).count (source_failures self.new).count result }
        ensures fails { IsErr result ↔ IsToFail (source_failures self.old) }
        ensures counted { CallCounted (source_failures self.old) (source_failures self.new) result }
        ensures whole { IfOk result (ReadsAll self.old (length into.old)) }
    {
        if self.failing.call() {
            self.failing.fault();
            return Err(Failed);
        }
        let rest = &self.content[self.position..];
        let count = rest.len().min(into.len());
        into[..count].copy_from_slice(&rest[..count]);
        self.position += count;
        Ok(count)
    }
}

/// Any reader, as standard input, and how often it failed.
#[derive(Drop)]
pub struct StdSource<R: Read> {
    inner: R,
    faults: u64,
}

impl<R: Read> StdSource<R> {
    /// A source of what the reader reads.
    pub fn new(inner: R) -> StdSource<R>
        ensures { (result.inner ≡ inner) × (result.faults ≡ 0) }
    {
        StdSource { inner, faults: 0 }
    }
}

impl<R: Read> Source for StdSource<R> {
    ghost use Rattle.std.specs.Prelude.{OnErr};
    ghost use Rattle.xet_types.specs.Failures.{one_more};

    ghost left = { λ s. R.remaining s.inner };

    ghost faults = { λ s. s.faults };

    /// It answers what the reader does, and counts a failure of it once.
    fn read(&mut self, into: &mut [u8]) -> Result<usize, Failed>
        ensures bound { ReadsAtMost result into.new }
        ensures bytes { ReadConsumes (R.remaining self.old.inner) (R.remaining self.new.inner) result into.new }
        ensures cause { HasCause self.old.faults self.new.faults result }
        ensures counted { OnErr result (self.new.faults ≡ one_more self.old.faults) }
    {
        match self.inner.read(into) {
            Ok(count) => Ok(count),
            Err(_) => {
                self.faults = self.faults.saturating_add(1);
                Err(Failed)
            }
        }
    }
}
