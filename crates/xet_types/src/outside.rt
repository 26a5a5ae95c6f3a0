//! The objects of the outside, each as a trait with its meaning, a form in memory and an adapter of the real thing.
//!
//! Each has a count of faults that never falls; a call answers [`Failed`] only where the count rose in that call.
ghost use Rattle.std.specs.Prelude.{◌≡◌, ◌≤◌, ◌↔◌, IsTrue, IfOk};
ghost use Rattle.xet_types.specs.Failures.{IsToFail, one_more, planned_failures};

use crate::error::OutOfMemory;
use std::alloc::Global;
use std::marker::Model;

pub mod sink;
pub mod source;

/// An object of the outside failed, and its count of faults rose.
#[derive(Clone, Copy, Debug, PartialEq, Eq)]
pub struct Failed;

/// The numbers, from 0, of the calls that are to fail, the number of the next call, and how many failed.
#[derive(Debug, Drop)]
struct Failing {
    calls: Vec<u64>,
    next: u64,
    faults: u64,
}

impl Model for Failing {
    ghost use Rattle.xet_types.specs.Failures.{Failures};

    ghost Value = { Failures };

    ghost view = { λ f. record { planned = f.calls.items; next = f.next; count = f.faults } };
}

impl Failing {
    fn new(alloc: Global, calls: &[u64]) -> Result<Failing, OutOfMemory>
        ensures { IfOk result (λ f. f ≡ planned_failures calls.now) }
    {
        Ok(Failing {
            calls: Vec::from_slice(alloc, calls)?,
            next: 0,
            faults: 0,
        })
    }

    /// Counts a fault.
    fn fault(&mut self)
        ensures after { self.new ≡ record self.old { count = one_more self.old.count } }
        ensures later { self.old.count ≤ self.new.count }
    {
        self.faults = self.faults.saturating_add(1);
    }

    /// Counts a call, and answers whether it is to fail.
    fn call(&mut self) -> bool
        ensures told { IsTrue result ↔ IsToFail self.old }
        ensures after { self.new ≡ record self.old { next = one_more self.old.next } }
    {
        let fails = self.calls.contains(&self.next);
        self.next = self.next.saturating_add(1);
        fails
    }
}
