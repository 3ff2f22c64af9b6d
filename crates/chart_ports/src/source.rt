//! A stream of bytes that is read once, from front to end.
//!
//! A script may be longer than what is kept of it, so it is pulled in pieces into the caller's buffer. `Failed`, which
//! stands beside it, is what a desk answers too.

ghost use Rattle.std.specs.Prelude.{◌≡◌, ◌+◌, ◌<◌, ◌≤◌, ◌++◌, ◌↔◌, Bool, List, ℕ};
ghost use Rattle.std.specs.Prelude.{[], IsTrue, IfOk, IfErr, OnErr, Ok, length, min, take};
ghost use Rattle.chart_ports.specs.Count.{HasCause, LAST};

use thiserror::Error;

/// A call that failed, and was counted as a fault of what it was asked of.
#[derive(Clone, Copy, Debug, PartialEq, Eq, Error)]
#[error("a call to the outside failed")]
pub struct Failed;

/// A stream of bytes that is read once, from front to end.
pub trait Source {
    /// Whether contracts see the bytes that are left.
    ghost tells: { Bool };

    /// The bytes that are left, where they are told.
    ghost left: { Self → List ℕ };

    /// How many bytes it has given. At 2^64 - 1 the number stays.
    ghost given: { Self → ℕ };

    /// Whether the last `pull` into a buffer with room answered 0.
    ghost is_at_end: { Self → Bool };

    /// How often a call has failed. The number never falls.
    ghost faults: { Self → ℕ };

    /// Moves the next bytes into the front of `buf`, and answers how many. 0 for a buffer with room
    /// is the end. A call that fails takes no bytes.
    fn pull(&mut self, buf: &mut [u8]) -> Result<usize, Failed>
        ensures within { IfOk result (λ n. n ≤ length buf.old) }
        ensures bytes { IsTrue tells → IfOk result (λ n. left self.old ≡ take n buf.new ++ left self.new) }
        ensures end { IsTrue tells → 0 < length buf.old → result ≡ Ok 0 → left self.old ≡ [] }
        ensures err { IsTrue tells → OnErr result (left self.new ≡ left self.old) }

        ensures given { IfOk result (λ n. given self.new ≡ min (given self.old + n) LAST) }
        ensures given_err { OnErr result (given self.new ≡ given self.old) }

        ensures at_end { 0 < length buf.old → (IsTrue (is_at_end self.new) ↔ (result ≡ Ok 0)) }
        ensures no_room { length buf.old ≡ 0 → is_at_end self.new ≡ is_at_end self.old }

        ensures cause { HasCause (faults self.old) (faults self.new) result };
}
