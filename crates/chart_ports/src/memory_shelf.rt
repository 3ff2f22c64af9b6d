//! A shelf in memory, which tells contracts its files.
//!
//! A real folder tells contracts nothing, so a clause about what a file holds says something of this shelf alone. A
//! file that is fetched is a copy: the shelf keeps its own.

ghost use Rattle.std.specs.Prelude.{◌≡◌, ◌≤◌, ℕ, List, None, Some, true};
ghost use Rattle.std.specs.Prelude.{IfOk, OnErr, OnOk, IsErrOf, string_bytes, if◌then◌else◌};
ghost use Rattle.std.specs.Str.{bytes_eq};
ghost use Rattle.chart_ports.specs.Count.{Rose};
ghost use Rattle.chart_ports.specs.Fetched.{fetched_of, IsWithin};

use crate::calls::{Calls, FailingCalls};
use crate::file_bytes::FileBytes;
use crate::shelf::{Fetched, Shelf, ShelfError};
use std::alloc::{AllocError, Global};
use std::collections::BTreeMap;

/// A shelf in memory. It fails at the calls on a list.
#[derive(Debug, Drop)]
pub struct MemoryShelf {
    files: BTreeMap<String, FileBytes>,
    calls: Calls,
}

impl MemoryShelf {
    ghost use Rattle.chart_ports.specs.Calls.{IsNew};
    ghost use Rattle.chart_ports.specs.MemoryShelf.{file_of, calls_of};

    /// A shelf without a file. It takes no memory.
    pub fn new(alloc: Global, failing: FailingCalls) -> MemoryShelf
        ensures empty { (name : List ℕ) → file_of result name ≡ None }
        ensures calls { IsNew failing (calls_of result) }
    {
        MemoryShelf {
            files: BTreeMap::new(alloc),
            calls: Calls::new(failing),
        }
    }

    /// Puts a file under a name, in the place of one that has the name. It isn't a call that can be
    /// on the list.
    #[tactic(auto, using(std::proofs::lemmas::Map::Text::text_keys))]
    pub fn insert(&mut self, name: String, bytes: FileBytes) -> Result<(), AllocError>
        ensures files { OnOk result ((other : List ℕ) → file_of self.new other
            ≡ (if bytes_eq (string_bytes name) other then Some bytes else file_of self.old other)) }
        ensures err { OnErr result ((other : List ℕ) → file_of self.new other ≡ file_of self.old other) }
        ensures calls { calls_of self.new ≡ calls_of self.old }
    {
        self.files.insert(name, bytes)?;
        Ok(())
    }

    /// How many calls have failed. At 2^64 - 1 the number stays.
    pub fn faults(&self) -> u64
        ensures { result ≡ (calls_of self.now).faults }
    {
        self.calls.faults
    }
}

impl Shelf for MemoryShelf {
    ghost use Rattle.chart_ports.specs.Calls.{CountsCall};
    ghost use Rattle.chart_ports.specs.MemoryShelf.{file_of, calls_of};

    ghost tells = { true };

    ghost files = { file_of };

    ghost faults = { λ shelf. (calls_of shelf).faults };

    fn fetch(&mut self, alloc: Global, name: &str, limit: u64) -> Result<Fetched, ShelfError>
        ensures found { IfOk result (λ fetched. fetched ≡ fetched_of limit (file_of self.old name.now)) }
        ensures within { IfOk result (IsWithin limit) }
        ensures same { file_of self.new ≡ file_of self.old }

        ensures later { (calls_of self.old).faults ≤ (calls_of self.new).faults }
        ensures failed { IsErrOf result ShelfError.Failed → Rose (calls_of self.old).faults (calls_of self.new).faults }

        // It fails exactly at the calls on the list.
        ensures calls { CountsCall (calls_of self.old) (calls_of self.new) (IsErrOf result ShelfError.Failed) }
    {
        if self.calls.begin().is_err() {
            return Err(ShelfError::Failed);
        }
        match self.files.get(name) {
            None => Ok(Fetched::Absent),
            Some(file) if file.as_slice().len() as u64 > limit => Ok(Fetched::Long),
            Some(file) => Ok(Fetched::Bytes(file.copy(alloc)?)),
        }
    }
}
