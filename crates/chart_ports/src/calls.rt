//! The calls of a source, a shelf or a desk in memory: which are to fail, how many were made, and how many failed.
//!
//! Calls have numbers, so a test can have each of them fail in turn. Each failure is counted, as every port does: a
//! contract takes a failure's cause from the count, which code over a port can't raise itself.

ghost use Rattle.std.specs.Prelude.{◌≡◌, ◌≤◌, ◌↔◌, IsTrue, IsErr, OnOk, Contains, []};
ghost use Rattle.chart_ports.specs.Count.{HasCause, Rose};

use crate::source::Failed;
use std::alloc::Global;
use std::marker::Model;

/// The numbers, from 1, of the calls that are to fail. Contracts see them as a list.
#[derive(Debug, Drop)]
pub struct FailingCalls {
    numbers: Vec<u64>,
}

impl Model for FailingCalls {
    ghost use Rattle.std.specs.Prelude.{List, ℕ};

    ghost Value = { List ℕ };

    ghost view = { λ failing. failing.numbers.items };
}

impl FailingCalls {
    /// No call fails. It takes no memory.
    pub fn none(alloc: Global) -> FailingCalls
        ensures { result ≡ [] }
    {
        FailingCalls {
            numbers: Vec::new(alloc),
        }
    }

    /// Takes over the numbers of a vector, in any order. It takes no memory.
    pub fn from_vec(numbers: Vec<u64>) -> FailingCalls
        ensures { result ≡ numbers.items }
    {
        FailingCalls { numbers }
    }

    /// Whether the call of this number is to fail.
    pub fn contains(&self, number: u64) -> bool
        ensures { IsTrue result ↔ Contains self.now number }
    {
        self.numbers.contains(&number)
    }
}

/// The calls of a source, a shelf or a desk in memory.
#[derive(Debug, Drop)]
pub struct Calls {
    /// The numbers of the calls that are to fail.
    pub failing: FailingCalls,
    /// How many calls were made. At 2^64 - 1 the number stays.
    pub made: u64,
    /// How many of them failed. At 2^64 - 1 the number stays.
    pub faults: u64,
}

impl Calls {
    ghost use Rattle.chart_ports.specs.Calls.{IsNew, IsToFail, CountsCall, CountsDeskCall, CountsFault};

    /// No call yet.
    pub fn new(failing: FailingCalls) -> Calls
        ensures { IsNew failing result }
    {
        Calls {
            failing,
            made: 0,
            faults: 0,
        }
    }

    /// Counts a call. It fails, and counts a fault, exactly where its number is on the list.
    pub fn begin(&mut self) -> Result<(), Failed>
        ensures counted { CountsCall self.old self.new (IsErr result) }
        ensures cause { HasCause self.old.faults self.new.faults result }
    {
        self.made = self.made.saturating_add(1);
        if self.failing.contains(self.made) {
            return Err(self.count_fault());
        }
        Ok(())
    }

    /// Whether the next call is to fail.
    pub fn next_fails(&self) -> bool
        ensures { IsTrue result ↔ IsToFail self.now }
    {
        self.failing.contains(self.made.saturating_add(1))
    }

    /// Counts a call. It fails, and counts a fault, where it is on the list or was refused for want
    /// of memory or of the place that it speaks of.
    pub fn end(&mut self, listed: bool, done: bool) -> Result<(), Failed>
        ensures counted { CountsDeskCall self.old self.new (IsErr result) }
        ensures cause { HasCause self.old.faults self.new.faults result }
        ensures listed { IsTrue listed → IsErr result }
        ensures refused { ¬ IsTrue done → IsErr result }
        ensures not_listed { OnOk result (¬ IsTrue listed) }
        ensures done { OnOk result (IsTrue done) }
        ensures err { IsErr result → IsTrue done → IsTrue listed }
    {
        self.made = self.made.saturating_add(1);
        if listed || !done {
            return Err(self.count_fault());
        }
        Ok(())
    }

    /// Counts a fault, and gives the error that says so.
    pub fn count_fault(&mut self) -> Failed
        ensures counted { CountsFault self.old self.new }
        ensures rose { Rose self.old.faults self.new.faults }
        ensures later { self.old.faults ≤ self.new.faults }
    {
        self.faults = self.faults.saturating_add(1);
        Failed
    }
}
