//! A disk in memory that logs its calls.
//!
//! All its calls can be done. Those that have to fail are the matter of the desk around it.

ghost use Rattle.std.specs.Prelude.{◌≡◌, ◌+◌, ◌≤◌, ◌++◌, [], ◌∷◌, List, ℕ, IfOk, IsOk, IsTrue, OnErr, OnOk};
ghost use Rattle.std.specs.Prelude.{length, take, vec_capacity, vec_len};
ghost use Rattle.chart_ports.specs.Disk.{CutShort, IsPlace, LeavesNoLess, Only, SameFiles, Torn, with_bytes};
ghost use Rattle.chart_ports.specs.Log.{after, disk_with, events_of, size_of};
ghost use Rattle.chart_ports.specs.MemoryFiles.{files_in};

use crate::images::{Fill, Images};
use crate::log::{Deed, Logged};
use crate::memory_files::{MemoryFiles, append};
use crate::replay::{pick, replay};
use std::alloc::{AllocError, Global};

/// A disk in memory: what it was opened with, each call since, and what they have made of it.
///
/// Where it has no memory for its log, a call is not logged and does nothing.
#[derive(Debug, Drop)]
pub struct MemoryDisk {
    pub start: Images,
    pub files: MemoryFiles,
    pub said: Vec<u8>,
    pub log: Vec<Logged>,
    /// The bytes that the calls were given, one after the other.
    pub bytes: Vec<u8>,
    ghost sized: { size_of log.items ≡ length bytes.items },
    ghost files_in_step: { files_in files ≡ (after (disk_with start) (events_of log.items bytes.items)).files },
    ghost said_in_step: { said.items ≡ (after (disk_with start) (events_of log.items bytes.items)).said },
}

/// Logs a call, with the bytes that it was given.
#[tactic(auto, using(crate::proofs::Events::events_of_push, crate::proofs::Events::size_of_push))]
fn push_call(
    log: &mut Vec<Logged>,
    pool: &mut Vec<u8>,
    deed: Deed,
    bytes: &[u8],
) -> Result<(), AllocError>
    requires sized { size_of log.old.items ≡ length pool.old.items }
    ensures sized { size_of log.new.items ≡ length pool.new.items }
    ensures ok { OnOk result (events_of log.new.items pool.new.items
        ≡ events_of log.old.items pool.old.items ++ (deed, bytes.now) ∷ []) }
    ensures err { OnErr result (events_of log.new.items pool.new.items ≡ events_of log.old.items pool.old.items) }
    ensures succeeds { vec_len log.old + 1 ≤ vec_capacity log.old →
        vec_len pool.old + length bytes.now ≤ vec_capacity pool.old → IsOk result }
    ensures log_room { (n : ℕ) → vec_len log.old + (n + 1) ≤ vec_capacity log.old →
        vec_len log.new + n ≤ vec_capacity log.new }
    ensures pool_room { (n : ℕ) → vec_len pool.old + (n + length bytes.now) ≤ vec_capacity pool.old →
        vec_len pool.new + n ≤ vec_capacity pool.new }
{
    log.reserve(1)?;
    pool.extend_from_slice(bytes)?;
    log.push_reserved(Logged {
        deed,
        size: bytes.len(),
    });
    Ok(())
}

impl MemoryDisk {
    ghost use Rattle.chart_ports.specs.MemoryDisk.{HasRoom, Keeps, Logs, SaysOnly, Stays, Touches};
    ghost use Rattle.chart_ports.specs.MemoryDisk.{contents_of, events, leaves_of, said_of, start_of};
    ghost use Rattle.chart_ports.specs.Filled.{images_after};
    ghost use Rattle.chart_ports.specs.Log.{files_after, said_after};
    ghost use Rattle.chart_ports.specs.declared.images.Images.{Images};

    /// The bytes of a file, none where there is no file of the number.
    pub fn bytes(&self, file: u8) -> &[u8]
        ensures { result.now ≡ contents_of self.now file }
    {
        self.files.bytes(file)
    }

    /// All that was said.
    pub fn said(&self) -> &[u8]
        ensures { result.now ≡ said_of self.now }
    {
        self.said.as_slice()
    }

    /// Takes room for so many calls, and for so many bytes written or said.
    pub fn reserve(&mut self, calls: usize, count: usize) -> Result<(), AllocError>
        ensures room { OnOk result (HasRoom self.new calls count) }
        ensures stays { Stays self.old self.new }
    {
        self.log.reserve(calls)?;
        self.bytes.reserve(count)?;
        self.said.reserve(count)?;
        self.files.reserve(count)
    }

    /// The images after so many of the calls of the log, or after all, at the lengths of that moment.
    #[tactic(auto, using(crate::proofs::Events::events_of_front, crate::proofs::Events::size_of_take))]
    pub fn image_after(&self, alloc: Global, calls: usize, fill: Fill) -> Result<Images, AllocError>
        ensures { IfOk result (λ images.
            images ≡ images_after fill (start_of self.now) (take calls (events self.now))) }
    {
        let mut files = MemoryFiles::copy_of(alloc, &self.start)?;
        let mut kept = MemoryFiles::copy_of(alloc, &self.start)?;
        let count = calls.min(self.log.len());
        replay(
            alloc,
            &mut files,
            &mut kept,
            &self.log[..count],
            &self.bytes,
            fill,
        )?;
        pick(files, kept, fill)
    }

    /// Logs a call that leaves the files and what is said. Answers whether it was logged: the file
    /// has to be there, and memory for the log.
    #[tactic(auto, using(crate::proofs::Logging::keeps_noted))]
    pub fn note(&mut self, file: u8) -> bool
        ensures keeps { Keeps self.old self.new }
        ensures is_file { IsTrue result → file ≤ 2 }
        ensures succeeds { file ≤ 2 → HasRoom self.old 1 0 → IsTrue result }
        ensures kept { (calls n : ℕ) → HasRoom self.old (calls + 1) n → HasRoom self.new calls n }
    {
        self.log_still(file, Deed::Nothing)
    }

    /// Brings a file to the disk, if it is done. Answers whether it was logged, as `note`.
    #[tactic(auto, using(crate::proofs::Logging::keeps_synced, crate::proofs::Logging::settled_synced))]
    pub fn sync(&mut self, file: u8, done: bool) -> bool
        ensures keeps { Keeps self.old self.new }
        ensures settled { IsTrue done → IsTrue result → Only (contents_of self.old file) (leaves_of self.new file) }
        ensures unsettled { ¬ (IsTrue done × IsTrue result) → LeavesNoLess (leaves_of self.old) (leaves_of self.new) }
        ensures is_file { IsTrue result → file ≤ 2 }
        ensures succeeds { file ≤ 2 → HasRoom self.old 1 0 → IsTrue result }
        ensures kept { (calls n : ℕ) → HasRoom self.old (calls + 1) n → HasRoom self.new calls n }
    {
        self.log_still(file, Deed::Sync { file, done })
    }

    /// Writes so many of the bytes into a file from a place on. Answers whether the call was logged:
    /// the place has to be there, and memory for the log.
    #[tactic(auto, using(crate::proofs::Logging::touches_written, crate::proofs::Logging::now_written))]
    pub fn write(&mut self, file: u8, at: u64, bytes: &[u8], done: usize) -> bool
        requires { done ≤ length bytes.now }
        ensures touches { Touches (Torn at (length bytes.now)) file self.old self.new }
        ensures written { IsTrue result →
            contents_of self.new file ≡ with_bytes at (take done bytes.now) (contents_of self.old file) }
        ensures place { IsTrue result → IsPlace (contents_of self.old) file at }
        ensures succeeds { IsPlace (contents_of self.old) file at → HasRoom self.old 1 (length bytes.now) →
            IsTrue result }
        ensures kept { (calls n : ℕ) → HasRoom self.old (calls + 1) (n + length bytes.now) → HasRoom self.new calls n }
    {
        self.log_write(file, at, bytes, done)
    }

    /// Cuts a file to a length, if it is done. Answers whether the call was logged, as `write`.
    #[tactic(auto, using(crate::proofs::Logging::touches_cut_off, crate::proofs::Logging::now_cut))]
    pub fn cut(&mut self, file: u8, length: u64, done: bool) -> bool
        ensures touches { Touches (CutShort length) file self.old self.new }
        ensures cut { IsTrue done → IsTrue result →
            contents_of self.new file ≡ take length (contents_of self.old file) }
        ensures uncut { ¬ (IsTrue done × IsTrue result) → SameFiles (contents_of self.old) (contents_of self.new) }
        ensures place { IsTrue result → IsPlace (contents_of self.old) file length }
        ensures succeeds { IsPlace (contents_of self.old) file length → HasRoom self.old 1 0 → IsTrue result }
        ensures kept { (calls n : ℕ) → HasRoom self.old (calls + 1) n → HasRoom self.new calls n }
    {
        self.log_cut(file, length, done)
    }

    /// Says so many of the bytes. Answers whether the call was logged: there has to be memory for it.
    #[tactic(auto, using(crate::proofs::Logging::says_logged, crate::proofs::Logging::said_said, crate::proofs::Logging::said_stays))]
    pub fn say(&mut self, bytes: &[u8], done: usize) -> bool
        requires { done ≤ length bytes.now }
        ensures says { SaysOnly bytes.now self.old self.new }
        ensures said { IsTrue result → said_of self.new ≡ said_of self.old ++ take done bytes.now }
        ensures refused { ¬ IsTrue result → said_of self.new ≡ said_of self.old }
        ensures succeeds { HasRoom self.old 1 (length bytes.now) → IsTrue result }
        ensures kept { (calls n : ℕ) → HasRoom self.old (calls + 1) (n + length bytes.now) → HasRoom self.new calls n }
    {
        self.log_say(bytes, done)
    }

    /// Logs a call that leaves the files and what is said, where the file is there.
    fn log_still(&mut self, file: u8, deed: Deed) -> bool
        requires files { (files : Images) → files_after files deed [] ≡ files }
        requires said { (said : List ℕ) → said_after said deed [] ≡ said }
        ensures logged { IsTrue result → Logs self.old self.new (deed, []) }
        ensures is_file { IsTrue result → file ≤ 2 }
        ensures stays { ¬ IsTrue result → Stays self.old self.new }
        ensures succeeds { file ≤ 2 → HasRoom self.old 1 0 → IsTrue result }
        ensures kept { (calls n : ℕ) → HasRoom self.old (calls + 1) n → HasRoom self.new calls n }
    {
        if file > 2 {
            return false;
        }
        if push_call(&mut self.log, &mut self.bytes, deed, &[]).is_err() {
            return false;
        }
        true
    }

    /// Logs a write, and writes so many of its bytes.
    fn log_write(&mut self, file: u8, at: u64, bytes: &[u8], done: usize) -> bool
        requires { done ≤ length bytes.now }
        ensures logged { IsTrue result → Logs self.old self.new (Deed.Write file at done, bytes.now) }
        ensures place { IsTrue result → IsPlace (contents_of self.old) file at }
        ensures stays { ¬ IsTrue result → Stays self.old self.new }
        ensures succeeds { IsPlace (contents_of self.old) file at → HasRoom self.old 1 (length bytes.now) →
            IsTrue result }
        ensures kept { (calls n : ℕ) → HasRoom self.old (calls + 1) (n + length bytes.now) → HasRoom self.new calls n }
    {
        if file > 2 || at > self.files.bytes(file).len() as u64 {
            return false;
        }
        if self.files.reserve(bytes.len()).is_err() {
            return false;
        }
        let deed = Deed::Write { file, at, done };
        if push_call(&mut self.log, &mut self.bytes, deed, bytes).is_err() {
            return false;
        }
        self.files.write(file, at as usize, &bytes[..done]);
        true
    }

    /// Logs a cut, and cuts the file if it is done.
    fn log_cut(&mut self, file: u8, length: u64, done: bool) -> bool
        ensures logged { IsTrue result → Logs self.old self.new (Deed.Cut file length done, []) }
        ensures place { IsTrue result → IsPlace (contents_of self.old) file length }
        ensures stays { ¬ IsTrue result → Stays self.old self.new }
        ensures succeeds { IsPlace (contents_of self.old) file length → HasRoom self.old 1 0 → IsTrue result }
        ensures kept { (calls n : ℕ) → HasRoom self.old (calls + 1) n → HasRoom self.new calls n }
    {
        if file > 2 || length > self.files.bytes(file).len() as u64 {
            return false;
        }
        let deed = Deed::Cut { file, length, done };
        if push_call(&mut self.log, &mut self.bytes, deed, &[]).is_err() {
            return false;
        }
        if !done {
            return true;
        }
        self.files.cut(file, length as usize);
        true
    }

    /// Logs what is said, and says so many of the bytes.
    fn log_say(&mut self, bytes: &[u8], done: usize) -> bool
        requires { done ≤ length bytes.now }
        ensures logged { IsTrue result → Logs self.old self.new (Deed.Say done, bytes.now) }
        ensures stays { ¬ IsTrue result → Stays self.old self.new }
        ensures succeeds { HasRoom self.old 1 (length bytes.now) → IsTrue result }
        ensures kept { (calls n : ℕ) → HasRoom self.old (calls + 1) (n + length bytes.now) → HasRoom self.new calls n }
    {
        if self.said.reserve(bytes.len()).is_err() {
            return false;
        }
        let deed = Deed::Say { done };
        if push_call(&mut self.log, &mut self.bytes, deed, bytes).is_err() {
            return false;
        }
        append(&mut self.said, &bytes[..done]);
        true
    }
}
