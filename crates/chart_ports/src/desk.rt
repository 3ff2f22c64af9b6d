//! A disk of three files, and where replies are said, under one clock.
//!
//! A reply promises that its command outlives a crash. That can be said only where what the disk leaves and what was
//! said by then belong to one moment, so saying is a call of the desk and no port of its own.

ghost use Rattle.std.specs.Prelude.{◌≡◌, ◌-◌, ◌≤◌, ◌++◌, Bool, List, ℕ, IfOk, IsTrue, OnOk, OnErr};
ghost use Rattle.std.specs.Prelude.{length, min, take, drop};
ghost use Rattle.std.specs.Prelude as list;
ghost use Rattle.chart_ports.specs.Count.{HasCause};
ghost use Rattle.chart_ports.specs.Disk.{CutShort, Follows, LeavesNoMore, LeavesNoMoreOfOthers, Only};
ghost use Rattle.chart_ports.specs.Disk.{SameFiles, SameOthers, Torn, with_bytes};
ghost use Rattle.chart_ports.specs.Moments.{Elapses, MayBeLeft};
ghost use Rattle.chart_ports.specs.Said.{SaysFront};
ghost use Rattle.chart_ports.specs.declared.images.Images.{Images};

use crate::source::Failed;

/// A disk of three files, and where replies are said, under one clock: what a crash leaves and what
/// was said belong to one moment.
///
/// File 0 is the head, 1 and 2 are the banks. A call asks for one of them, and for a place in it, so that
/// it has no cause to fail but the disk's. What a call that has failed may have done is in the clauses
/// without `OnOk`: a crash leaves then only what one inside the call could have left.
pub trait Desk {
    /// Whether contracts see what the files hold, what was said, and the clock.
    ghost tells: { Bool };

    /// What a read of the file of a number gives, where it is told.
    ghost contents: { Self → ℕ → List ℕ };

    /// The bytes that a crash now may leave of the file of a number, where it is told.
    ghost may_leave: { Self → ℕ → List ℕ → Type 0 };

    /// All that was said, where it is told.
    ghost said: { Self → List ℕ };

    /// The moment, as a number that never falls, where it is told.
    ghost clock: { Self → ℕ };

    /// At some moment from that one up to now, inside a call or between two, a crash could have left
    /// these images, with these bytes said by then.
    ghost might: { Self → ℕ → Images → List ℕ → Type 0 };

    /// How often a call has failed. The number never falls.
    ghost faults: { Self → ℕ };

    /// The number of bytes of a file.
    fn length(&mut self, file: u8) -> Result<u64, Failed>
        requires is_file { file ≤ 2 }
        ensures count { IsTrue tells → IfOk result (λ n. n ≡ length (contents self.old file)) }

        // It leaves the files and what is said.
        ensures files { IsTrue tells → SameFiles (contents self.old) (contents self.new) }
        ensures said { IsTrue tells → said self.new ≡ said self.old }
        ensures crash { IsTrue tells → LeavesNoMore (may_leave self.old) (may_leave self.new) }
        ensures time { IsTrue tells → Elapses (clock self.old) (clock self.new) (might self.old) (might self.new)
            (may_leave self.old) (λ so_far. so_far ≡ said self.old) }

        ensures cause { HasCause (faults self.old) (faults self.new) result };

    /// Reads the bytes from a place on into the front of `buf`, and answers how many: as many as
    /// `buf` has, and fewer exactly where the file ends before.
    fn read_at(&mut self, file: u8, at: u64, buf: &mut [u8]) -> Result<usize, Failed>
        requires is_file { file ≤ 2 }
        ensures within { IfOk result (λ n. n ≤ length buf.old) }
        ensures count { IsTrue tells →
            IfOk result (λ n. n ≡ min (length buf.old) (length (contents self.old file) - at)) }
        ensures bytes { IsTrue tells → IfOk result (λ n. take n buf.new ≡ take n (drop at (contents self.old file))) }
        ensures behind { IsTrue tells → IfOk result (λ n. drop n buf.new ≡ drop n buf.old) }

        // It leaves the files and what is said.
        ensures files { IsTrue tells → SameFiles (contents self.old) (contents self.new) }
        ensures said { IsTrue tells → said self.new ≡ said self.old }
        ensures crash { IsTrue tells → LeavesNoMore (may_leave self.old) (may_leave self.new) }
        ensures time { IsTrue tells → Elapses (clock self.old) (clock self.new) (might self.old) (might self.new)
            (may_leave self.old) (λ so_far. so_far ≡ said self.old) }

        ensures cause { HasCause (faults self.old) (faults self.new) result };

    /// Writes the bytes over what is there from a place on, and past the file's end. The place is in
    /// the file or at its end.
    fn write_at(&mut self, file: u8, at: u64, bytes: &[u8]) -> Result<(), Failed>
        requires is_file { file ≤ 2 }
        requires within { IsTrue tells → at ≤ length (contents self.old file) }
        ensures written { IsTrue tells →
            OnOk result (contents self.new file ≡ with_bytes at bytes.now (contents self.old file)) }
        ensures others { IsTrue tells → SameOthers file (contents self.old) (contents self.new) }
        ensures said { IsTrue tells → said self.new ≡ said self.old }

        // Until a sync, a crash may leave any bytes in the range.
        ensures crash { IsTrue tells →
            Follows (Torn at (length bytes.now)) (may_leave self.old file) (may_leave self.new file) }
        ensures crash_others { IsTrue tells → LeavesNoMoreOfOthers file (may_leave self.old) (may_leave self.new) }
        ensures time { IsTrue tells → Elapses (clock self.old) (clock self.new) (might self.old) (might self.new)
            (may_leave self.new) (λ so_far. so_far ≡ said self.old) }

        ensures cause { HasCause (faults self.old) (faults self.new) result };

    /// Cuts a file to a length, which is at most its own.
    fn cut(&mut self, file: u8, length: u64) -> Result<(), Failed>
        requires is_file { file ≤ 2 }
        requires within { IsTrue tells → length ≤ list.length (contents self.old file) }
        ensures cut { IsTrue tells → OnOk result (contents self.new file ≡ take length (contents self.old file)) }
        ensures others { IsTrue tells → SameOthers file (contents self.old) (contents self.new) }
        ensures said { IsTrue tells → said self.new ≡ said self.old }

        // Until a sync, a crash may leave any bytes behind the cut, up to the old length.
        ensures crash { IsTrue tells → Follows (CutShort length) (may_leave self.old file) (may_leave self.new file) }
        ensures crash_others { IsTrue tells → LeavesNoMoreOfOthers file (may_leave self.old) (may_leave self.new) }
        ensures time { IsTrue tells → Elapses (clock self.old) (clock self.new) (might self.old) (might self.new)
            (may_leave self.new) (λ so_far. so_far ≡ said self.old) }

        ensures cause { HasCause (faults self.old) (faults self.new) result };

    /// Brings a file to the disk: a crash after it leaves what a read gives.
    fn sync(&mut self, file: u8) -> Result<(), Failed>
        requires is_file { file ≤ 2 }
        ensures settled { IsTrue tells → OnOk result (Only (contents self.old file) (may_leave self.new file)) }
        ensures same { IsTrue tells → OnOk result (contents self.new file ≡ contents self.old file) }
        ensures others { IsTrue tells → SameOthers file (contents self.old) (contents self.new) }
        ensures said { IsTrue tells → said self.new ≡ said self.old }

        // A crash inside it may leave what it might have left before.
        ensures crash { IsTrue tells → LeavesNoMore (may_leave self.old) (may_leave self.new) }
        ensures time { IsTrue tells → Elapses (clock self.old) (clock self.new) (might self.old) (might self.new)
            (may_leave self.old) (λ so_far. so_far ≡ said self.old) }

        ensures cause { HasCause (faults self.old) (faults self.new) result };

    /// Says the bytes, after what was said before. A call that fails has said a front of them.
    fn say(&mut self, bytes: &[u8]) -> Result<(), Failed>
        ensures said { IsTrue tells → OnOk result (said self.new ≡ said self.old ++ bytes.now) }
        ensures front { IsTrue tells → OnErr result (SaysFront (said self.old) bytes.now (said self.new)) }

        // It leaves the files. At each moment inside it a front of the bytes is said.
        ensures files { IsTrue tells → SameFiles (contents self.old) (contents self.new) }
        ensures crash { IsTrue tells → LeavesNoMore (may_leave self.old) (may_leave self.new) }
        ensures time { IsTrue tells → Elapses (clock self.old) (clock self.new) (might self.old) (might self.new)
            (may_leave self.old) (SaysFront (said self.old) bytes.now) }

        ensures cause { HasCause (faults self.old) (faults self.new) result };

    /// What a read gives is among what a crash now may leave.
    ghost present: { (desk : Self) (file : ℕ) → IsTrue tells → may_leave desk file (contents desk file) };

    /// Whatever a crash now may leave, with all that was said, belongs to a moment since any other.
    ghost counts_now: { (desk : Self) (t : ℕ) (images : Images) → IsTrue tells → t ≤ clock desk
        → MayBeLeft (may_leave desk) images → might desk t images (said desk) };

    /// Since this moment there is no other.
    ghost only_now: { (desk : Self) (images : Images) (bytes : List ℕ) → IsTrue tells
        → might desk (clock desk) images bytes → MayBeLeft (may_leave desk) images × (bytes ≡ said desk) };
}
