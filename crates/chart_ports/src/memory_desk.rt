//! A desk in memory, which tells contracts all that it holds and has said, and what a crash may leave.
//!
//! It logs each call, so that a test can have a crash behind any of them, and a clause can speak of the moments inside
//! one. A write that is to fail writes half of its bytes, as one on a failing disk may.

ghost use Rattle.std.specs.Prelude.{◌≡◌, ◌-◌, ◌/◌, ◌≤◌, ◌++◌, ◌+◌, [], List, ℕ, true, IfOk, OnOk, OnErr, IsErr};
ghost use Rattle.std.specs.Prelude.{IsTrue, length, min, take, drop};
ghost use Rattle.chart_ports.specs.Count.{HasCause};
ghost use Rattle.chart_ports.specs.Disk.{CutShort, Follows, IsPlace, LeavesNoLess, LeavesNoMore};
ghost use Rattle.chart_ports.specs.Disk.{LeavesNoMoreOfOthers, Only};
ghost use Rattle.chart_ports.specs.Disk.{SameFiles, SameOthers, Torn, with_bytes};
ghost use Rattle.chart_ports.specs.Moments.{Elapses, image_of};
ghost use Rattle.chart_ports.specs.Said.{SaysFront};
ghost use Rattle.chart_ports.specs.declared.images.Images.{Images};

use crate::calls::{Calls, FailingCalls};
use crate::desk::Desk;
use crate::file_bytes::FileBytes;
use crate::images::{Fill, Images};
use crate::memory_disk::MemoryDisk;
use crate::memory_files::MemoryFiles;
use crate::memory_source::copy_front;
use crate::source::Failed;
use std::alloc::{AllocError, Global};

/// A desk in memory, with a log of its calls. It fails at the calls on a list, at a call on a file
/// or place that isn't there, and where it has no memory for its log; the latter two are not logged.
///
/// A call on the list is torn: a write writes, and `say` says, the first half of its bytes; a cut and
/// a sync do nothing.
#[derive(Debug, Drop)]
pub struct MemoryDesk {
    disk: MemoryDisk,
    calls: Calls,
}

/// How many of the bytes of a call are written or said.
#[tactic(auto, using(crate::proofs::Halves::take_whole))]
fn done_of(listed: bool, bytes: &[u8]) -> usize
    ensures within { result ≤ length bytes.now }
    ensures whole { ¬ IsTrue listed → take result bytes.now ≡ bytes.now }
    ensures half { IsTrue listed → result ≡ length bytes.now / 2 }
{
    if listed {
        return bytes.len() / 2;
    }
    bytes.len()
}

/// The bytes from a place on, none behind the end.
fn tail(bytes: &[u8], at: u64) -> &[u8]
    ensures { result.now ≡ drop at bytes.now }
{
    if at >= bytes.len() as u64 {
        return &[];
    }
    &bytes[at as usize..]
}

impl MemoryDesk {
    ghost use Rattle.chart_ports.specs.Calls.{IsNew};
    ghost use Rattle.chart_ports.specs.Filled.{images_after};
    ghost use Rattle.chart_ports.specs.Log.{after, disk_with};
    ghost use Rattle.chart_ports.specs.MemoryDesk.{HasRoom, IsOpened, Stays, calls_of, events, said_of, start_of};

    /// A desk whose files are empty, and that has said nothing. It takes no memory.
    pub fn new(alloc: Global, failing: FailingCalls) -> MemoryDesk
        ensures opened { IsOpened (record { head = []; bank1 = []; bank2 = [] }) result }
        ensures calls { IsNew failing (calls_of result) }
    {
        let none = Images {
            head: FileBytes::from_vec(Vec::new(alloc)),
            bank1: FileBytes::from_vec(Vec::new(alloc)),
            bank2: FileBytes::from_vec(Vec::new(alloc)),
        };
        let files = MemoryFiles {
            head: Vec::new(alloc),
            bank1: Vec::new(alloc),
            bank2: Vec::new(alloc),
        };
        MemoryDesk {
            disk: MemoryDisk {
                start: none,
                files,
                said: Vec::new(alloc),
                log: Vec::new(alloc),
                bytes: Vec::new(alloc),
            },
            calls: Calls::new(failing),
        }
    }

    /// A desk with these files, all of them on the disk, that has said nothing.
    pub fn open(
        alloc: Global,
        failing: FailingCalls,
        start: Images,
    ) -> Result<MemoryDesk, AllocError>
        ensures opened { IfOk result (IsOpened start) }
        ensures calls { IfOk result (λ desk. IsNew failing (calls_of desk)) }
    {
        let files = MemoryFiles::copy_of(alloc, &start)?;
        Ok(MemoryDesk {
            disk: MemoryDisk {
                start,
                files,
                said: Vec::new(alloc),
                log: Vec::new(alloc),
                bytes: Vec::new(alloc),
            },
            calls: Calls::new(failing),
        })
    }

    /// Takes room for so many calls, and for so many bytes written or said. A call within the room
    /// fails exactly where its number is on the list.
    pub fn reserve(&mut self, _alloc: Global, calls: u64, bytes: u64) -> Result<(), AllocError>
        ensures room { OnOk result (HasRoom self.new calls bytes) }
        ensures stays { Stays self.old self.new }
    {
        self.disk.reserve(calls as usize, bytes as usize)
    }

    /// The images after so many of the calls that are logged, or after all, at the lengths of that
    /// moment, with each uncertain byte as the fill says.
    pub fn image_after(&self, alloc: Global, calls: u64, fill: Fill) -> Result<Images, AllocError>
        ensures filled { IfOk result (λ images.
            images ≡ images_after fill (start_of self.now) (take calls (events self.now))) }

        // With new bytes it is what a read of the files then gave.
        ensures read { fill ≡ Fill.New → IfOk result (λ images.
            images ≡ (after (disk_with (start_of self.now)) (take calls (events self.now))).files) }
    {
        self.disk.image_after(alloc, calls as usize, fill)
    }

    /// All that was said.
    pub fn said(&self) -> &[u8]
        ensures { result.now ≡ said_of self.now }
    {
        self.disk.said()
    }

    /// How many calls have failed. At 2^64 - 1 the number stays.
    pub fn faults(&self) -> u64
        ensures { result ≡ (calls_of self.now).faults }
    {
        self.calls.faults
    }
}

impl Desk for MemoryDesk {
    ghost use Rattle.chart_ports.specs.Calls.{CountsDeskCall, IsToFail};
    ghost use Rattle.chart_ports.specs.MemoryDesk.{HasRoom, calls_of, clock_of, contents_of, leaves_of};
    ghost use Rattle.chart_ports.specs.MemoryDesk.{might_of, said_of};
    ghost use Rattle.chart_ports.specs.MemoryLaws.{desk_counts_now, desk_only_now, desk_present};

    ghost tells = { true };

    ghost contents = { contents_of };

    ghost may_leave = { leaves_of };

    ghost said = { said_of };

    ghost clock = { clock_of };

    ghost might = { might_of };

    ghost faults = { λ desk. (calls_of desk).faults };

    fn length(&mut self, file: u8) -> Result<u64, Failed>
        ensures is_file { OnOk result (file ≤ 2) }
        ensures count { IfOk result (λ n. n ≡ length (contents_of self.old file)) }
        ensures files { SameFiles (contents_of self.old) (contents_of self.new) }
        ensures said { said_of self.new ≡ said_of self.old }
        ensures crash { LeavesNoMore (leaves_of self.old) (leaves_of self.new) }
        ensures time { Elapses (clock_of self.old) (clock_of self.new) (might_of self.old) (might_of self.new)
            (leaves_of self.old) (λ so_far. so_far ≡ said_of self.old) }
        ensures cause { HasCause (calls_of self.old).faults (calls_of self.new).faults result }

        // Where the file and the room are there, it fails exactly where its number is on the list.
        ensures listed { IsToFail (calls_of self.old) → IsErr result }
        ensures unlisted { file ≤ 2 → HasRoom self.old 1 0 → IsErr result → IsToFail (calls_of self.old) }
        ensures kept { (calls n : ℕ) → HasRoom self.old (calls + 1) n → HasRoom self.new calls n }
        ensures calls { CountsDeskCall (calls_of self.old) (calls_of self.new) (IsErr result) }
    {
        let listed = self.calls.next_fails();
        let noted = self.disk.note(file);
        self.calls.end(listed, noted)?;
        Ok(self.disk.bytes(file).len() as u64)
    }

    fn read_at(&mut self, file: u8, at: u64, buf: &mut [u8]) -> Result<usize, Failed>
        ensures is_file { OnOk result (file ≤ 2) }
        ensures within { IfOk result (λ n. n ≤ length buf.old) }
        ensures count { IfOk result (λ n. n ≡ min (length buf.old) (length (contents_of self.old file) - at)) }
        ensures bytes { IfOk result (λ n. take n buf.new ≡ take n (drop at (contents_of self.old file))) }
        ensures behind { IfOk result (λ n. drop n buf.new ≡ drop n buf.old) }
        ensures files { SameFiles (contents_of self.old) (contents_of self.new) }
        ensures said { said_of self.new ≡ said_of self.old }
        ensures crash { LeavesNoMore (leaves_of self.old) (leaves_of self.new) }
        ensures time { Elapses (clock_of self.old) (clock_of self.new) (might_of self.old) (might_of self.new)
            (leaves_of self.old) (λ so_far. so_far ≡ said_of self.old) }
        ensures cause { HasCause (calls_of self.old).faults (calls_of self.new).faults result }

        // Where the file and the room are there, it fails exactly where its number is on the list.
        ensures listed { IsToFail (calls_of self.old) → IsErr result }
        ensures unlisted { file ≤ 2 → HasRoom self.old 1 0 → IsErr result → IsToFail (calls_of self.old) }
        ensures kept { (calls n : ℕ) → HasRoom self.old (calls + 1) n → HasRoom self.new calls n }
        ensures calls { CountsDeskCall (calls_of self.old) (calls_of self.new) (IsErr result) }
    {
        let listed = self.calls.next_fails();
        let noted = self.disk.note(file);
        self.calls.end(listed, noted)?;
        Ok(copy_front(tail(self.disk.bytes(file), at), buf, usize::MAX))
    }

    fn write_at(&mut self, file: u8, at: u64, bytes: &[u8]) -> Result<(), Failed>
        ensures place { OnOk result (IsPlace (contents_of self.old) file at) }
        ensures written { OnOk result
            (contents_of self.new file ≡ with_bytes at bytes.now (contents_of self.old file)) }
        ensures others { SameOthers file (contents_of self.old) (contents_of self.new) }
        ensures said { said_of self.new ≡ said_of self.old }
        ensures crash { Follows (Torn at (length bytes.now)) (leaves_of self.old file) (leaves_of self.new file) }
        ensures crash_others { LeavesNoMoreOfOthers file (leaves_of self.old) (leaves_of self.new) }
        ensures time { Elapses (clock_of self.old) (clock_of self.new) (might_of self.old) (might_of self.new)
            (leaves_of self.new) (λ so_far. so_far ≡ said_of self.old) }
        ensures cause { HasCause (calls_of self.old).faults (calls_of self.new).faults result }

        // Where the place and the room are there, it fails exactly where its number is on the list, and
        // then a read gives the file with the first half of the bytes.
        ensures listed { IsToFail (calls_of self.old) → IsErr result }
        ensures unlisted { IsPlace (contents_of self.old) file at → HasRoom self.old 1 (length bytes.now) →
            IsErr result →
            IsToFail (calls_of self.old) }
        ensures half { IsPlace (contents_of self.old) file at → HasRoom self.old 1 (length bytes.now) →
            IsToFail (calls_of self.old) →
            contents_of self.new file
            ≡ with_bytes at (take (length bytes.now / 2) bytes.now) (contents_of self.old file) }
        ensures kept { (calls n : ℕ) → HasRoom self.old (calls + 1) (n + length bytes.now) → HasRoom self.new calls n }
        ensures calls { CountsDeskCall (calls_of self.old) (calls_of self.new) (IsErr result) }
    {
        let listed = self.calls.next_fails();
        let done = done_of(listed, bytes);
        let logged = self.disk.write(file, at, bytes, done);
        self.calls.end(listed, logged)
    }

    #[tactic(auto, using(crate::proofs::Logging::not_done))]
    fn cut(&mut self, file: u8, length: u64) -> Result<(), Failed>
        ensures place { OnOk result (IsPlace (contents_of self.old) file length) }
        ensures cut { OnOk result (contents_of self.new file ≡ take length (contents_of self.old file)) }
        ensures others { SameOthers file (contents_of self.old) (contents_of self.new) }
        ensures said { said_of self.new ≡ said_of self.old }
        ensures crash { Follows (CutShort length) (leaves_of self.old file) (leaves_of self.new file) }
        ensures crash_others { LeavesNoMoreOfOthers file (leaves_of self.old) (leaves_of self.new) }
        ensures time { Elapses (clock_of self.old) (clock_of self.new) (might_of self.old) (might_of self.new)
            (leaves_of self.new) (λ so_far. so_far ≡ said_of self.old) }
        ensures cause { HasCause (calls_of self.old).faults (calls_of self.new).faults result }

        // Where the place and the room are there, it fails exactly where its number is on the list. Where it fails it
        // has cut nothing.
        ensures listed { IsToFail (calls_of self.old) → IsErr result }
        ensures unlisted { IsPlace (contents_of self.old) file length → HasRoom self.old 1 0 → IsErr result →
            IsToFail (calls_of self.old) }
        ensures uncut { IsErr result → SameFiles (contents_of self.old) (contents_of self.new) }
        ensures kept { (calls n : ℕ) → HasRoom self.old (calls + 1) n → HasRoom self.new calls n }
        ensures calls { CountsDeskCall (calls_of self.old) (calls_of self.new) (IsErr result) }
    {
        let listed = self.calls.next_fails();
        let logged = self.disk.cut(file, length, !listed);
        self.calls.end(listed, logged)
    }

    #[tactic(auto, using(crate::proofs::Logging::not_done))]
    fn sync(&mut self, file: u8) -> Result<(), Failed>
        ensures is_file { OnOk result (file ≤ 2) }
        ensures settled { OnOk result (Only (contents_of self.old file) (leaves_of self.new file)) }
        ensures same { OnOk result (contents_of self.new file ≡ contents_of self.old file) }
        ensures others { SameOthers file (contents_of self.old) (contents_of self.new) }
        ensures said { said_of self.new ≡ said_of self.old }
        ensures crash { LeavesNoMore (leaves_of self.old) (leaves_of self.new) }
        ensures time { Elapses (clock_of self.old) (clock_of self.new) (might_of self.old) (might_of self.new)
            (leaves_of self.old) (λ so_far. so_far ≡ said_of self.old) }
        ensures cause { HasCause (calls_of self.old).faults (calls_of self.new).faults result }

        // Where the file and the room are there, it fails exactly where its number is on the list. Where it fails it
        // has settled nothing.
        ensures files { SameFiles (contents_of self.old) (contents_of self.new) }
        ensures listed { IsToFail (calls_of self.old) → IsErr result }
        ensures unlisted { file ≤ 2 → HasRoom self.old 1 0 → IsErr result → IsToFail (calls_of self.old) }
        ensures unsettled { IsErr result → LeavesNoLess (leaves_of self.old) (leaves_of self.new) }
        ensures kept { (calls n : ℕ) → HasRoom self.old (calls + 1) n → HasRoom self.new calls n }
        ensures calls { CountsDeskCall (calls_of self.old) (calls_of self.new) (IsErr result) }
    {
        let listed = self.calls.next_fails();
        let logged = self.disk.sync(file, !listed);
        self.calls.end(listed, logged)
    }

    fn say(&mut self, bytes: &[u8]) -> Result<(), Failed>
        ensures said { OnOk result (said_of self.new ≡ said_of self.old ++ bytes.now) }
        ensures front { OnErr result (SaysFront (said_of self.old) bytes.now (said_of self.new)) }
        ensures files { SameFiles (contents_of self.old) (contents_of self.new) }
        ensures crash { LeavesNoMore (leaves_of self.old) (leaves_of self.new) }
        ensures time { Elapses (clock_of self.old) (clock_of self.new) (might_of self.old) (might_of self.new)
            (leaves_of self.old) (SaysFront (said_of self.old) bytes.now) }
        ensures cause { HasCause (calls_of self.old).faults (calls_of self.new).faults result }

        // Where the room is there, it fails exactly where its number is on the list, and then the first
        // half of the bytes is said.
        ensures listed { IsToFail (calls_of self.old) → IsErr result }
        ensures unlisted { HasRoom self.old 1 (length bytes.now) → IsErr result → IsToFail (calls_of self.old) }
        ensures torn { IsToFail (calls_of self.old) → HasRoom self.old 1 (length bytes.now) →
            said_of self.new ≡ said_of self.old ++ take (length bytes.now / 2) bytes.now }
        ensures kept { (calls n : ℕ) → HasRoom self.old (calls + 1) (n + length bytes.now) → HasRoom self.new calls n }
        ensures calls { CountsDeskCall (calls_of self.old) (calls_of self.new) (IsErr result) }
    {
        let listed = self.calls.next_fails();
        let done = done_of(listed, bytes);
        let logged = self.disk.say(bytes, done);
        self.calls.end(listed, logged)
    }

    ghost present = { λ desk file _. desk_present desk file };

    ghost counts_now = { λ desk t images _ _ left. desk_counts_now desk t images left };

    ghost only_now = { λ desk images said _ might. desk_only_now desk images said might };
}
