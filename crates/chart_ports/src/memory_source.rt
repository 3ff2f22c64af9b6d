//! A source in memory, which tells contracts its bytes.
//!
//! A pull may give fewer bytes than there is room for, as one from a pipe does: with a pace of its own a source makes
//! pulls end in the middle of lines.

ghost use Rattle.std.specs.Prelude.{◌≡◌, ◌+◌, ◌<◌, ◌≤◌, ◌++◌, ◌↔◌, [], true, IsTrue, IsErr};
ghost use Rattle.std.specs.Prelude.{IfOk, OnErr, OnOk, Ok, length, min, take, drop, vec_len};
ghost use Rattle.chart_ports.specs.Count.{HasCause, LAST};

use crate::calls::{Calls, FailingCalls};
use crate::source::{Failed, Source};

/// A source in memory. It gives as many bytes as fit, or at most a set number a pull, and fails at
/// the calls on a list.
#[derive(Debug, Drop)]
pub struct MemorySource {
    bytes: Vec<u8>,
    /// How many bytes were given; `given` counts them too, in the type of the count.
    at: usize,
    pace: usize,
    given: u64,
    is_at_end: bool,
    calls: Calls,
    ghost within: { at ≤ vec_len bytes },
    ghost paced: { 0 < pace },
}

/// Copies as many bytes as both have, and at most `most`, and answers how many.
pub fn copy_front(from: &[u8], to: &mut [u8], most: usize) -> usize
    ensures count { result ≡ min (length to.old) (min most (length from.now)) }
    ensures front { take result to.new ++ drop result from.now ≡ from.now }
    ensures behind { drop result to.new ≡ drop result to.old }
{
    let count = to.len().min(most.min(from.len()));
    to[..count].copy_from_slice(&from[..count]);
    count
}

impl MemorySource {
    ghost use Rattle.chart_ports.specs.Calls.{IsNew};
    ghost use Rattle.chart_ports.specs.MemorySource.{left_of, pace_of, given_of, is_at_end, calls_of};

    /// A source of these bytes, which gives as many as fit. It takes no memory.
    pub fn new(bytes: Vec<u8>, failing: FailingCalls) -> MemorySource
        ensures left { left_of result ≡ bytes.items }
        ensures pace { pace_of result ≡ usize.MAX }
        ensures given { given_of result ≡ 0 }
        ensures not_at_end { ¬ (IsTrue (is_at_end result)) }
        ensures calls { IsNew failing (calls_of result) }
    {
        MemorySource::with_pace(bytes, failing, usize::MAX)
    }

    /// A source of these bytes, which gives at most `pace` of them a pull. It takes no memory.
    pub fn with_pace(bytes: Vec<u8>, failing: FailingCalls, pace: usize) -> MemorySource
        requires { 0 < pace }
        ensures left { left_of result ≡ bytes.items }
        ensures pace { pace_of result ≡ pace }
        ensures given { given_of result ≡ 0 }
        ensures not_at_end { ¬ (IsTrue (is_at_end result)) }
        ensures calls { IsNew failing (calls_of result) }
    {
        MemorySource {
            bytes,
            at: 0,
            pace,
            given: 0,
            is_at_end: false,
            calls: Calls::new(failing),
        }
    }

    /// How many bytes it has given. At 2^64 - 1 the number stays.
    pub fn given(&self) -> u64
        ensures { result ≡ given_of self.now }
    {
        self.given
    }

    /// Whether the last pull into a buffer with room answered 0.
    pub fn is_at_end(&self) -> bool
        ensures { result ≡ is_at_end self.now }
    {
        self.is_at_end
    }

    /// How many calls have failed. At 2^64 - 1 the number stays.
    pub fn faults(&self) -> u64
        ensures { result ≡ (calls_of self.now).faults }
    {
        self.calls.faults
    }
}

impl Source for MemorySource {
    ghost use Rattle.chart_ports.specs.Calls.{CountsCall};
    ghost use Rattle.chart_ports.specs.MemorySource.{left_of, pace_of, given_of, is_at_end, calls_of};

    ghost tells = { true };

    ghost left = { left_of };

    ghost given = { given_of };

    ghost is_at_end = { is_at_end };

    ghost faults = { λ source. (calls_of source).faults };

    #[tactic(auto, using(crate::proofs::Causes::has_cause_passed, crate::proofs::Given::drop_further))]
    fn pull(&mut self, buf: &mut [u8]) -> Result<usize, Failed>
        ensures within { IfOk result (λ n. n ≤ length buf.old) }
        ensures bytes { IfOk result (λ n. left_of self.old ≡ take n buf.new ++ left_of self.new) }
        ensures end { 0 < length buf.old → result ≡ Ok 0 → left_of self.old ≡ [] }
        ensures err { OnErr result (left_of self.new ≡ left_of self.old) }

        ensures given { IfOk result (λ n. given_of self.new ≡ min (given_of self.old + n) LAST) }
        ensures given_err { OnErr result (given_of self.new ≡ given_of self.old) }

        ensures at_end { 0 < length buf.old → (IsTrue (is_at_end self.new) ↔ (result ≡ Ok 0)) }
        ensures no_room { length buf.old ≡ 0 → is_at_end self.new ≡ is_at_end self.old }

        ensures cause { HasCause (calls_of self.old).faults (calls_of self.new).faults result }

        // As many bytes as fit, up to the pace, and none of the buffer behind them changes.
        ensures count { IfOk result (λ n.
            n ≡ min (length buf.old) (min (pace_of self.old) (length (left_of self.old)))) }
        ensures behind { IfOk result (λ n. drop n buf.new ≡ drop n buf.old) }
        ensures buf_err { OnErr result (buf.new ≡ buf.old) }
        ensures pace { pace_of self.new ≡ pace_of self.old }

        // It fails exactly at the calls on the list.
        ensures calls { CountsCall (calls_of self.old) (calls_of self.new) (IsErr result) }
    {
        if !buf.is_empty() {
            self.is_at_end = false;
        }
        self.calls.begin()?;
        let count = copy_front(&self.bytes[self.at..], buf, self.pace);
        self.at += count;
        self.given = self.given.saturating_add(count as u64);
        if !buf.is_empty() {
            self.is_at_end = count == 0;
        }
        Ok(count)
    }
}
