//! A cell that can be put in place without memory.
//!
//! The record of a command is written once nothing but the desk can fail. So the memory for its cell is taken before:
//! one that isn't held yet takes its place then, and leaves it again if the record can't be kept.

ghost use Rattle.std.specs.Prelude.{◌≡◌, IfOk, IsSome, OnErr};
ghost use Rattle.std.specs.FinMap as map;
ghost use Rattle.chart_store.specs.Next.{cells_with, CanStand};
ghost use Rattle.chart_store.specs.Prepared.{IsPrepared, chart_before, with_prepared, without_prepared};
ghost use Rattle.chart_store.specs.Loaded.{chart_of};

use crate::live::LiveCells;
use chart_model::{Cell, Holding, Key};
use std::alloc::AllocError;

/// A cell that can be put in place without memory.
#[derive(Debug, Drop)]
pub(crate) enum Prepared {
    /// It was not held, and stands in its place already: its key, and the bytes of all live files without it.
    New(Key, u64),
    /// It is held: its key, what takes its place or nothing, and the bytes of all live files then.
    Known(Key, Option<Holding>, u64),
}

impl LiveCells {
    /// Takes the memory to put a cell in place.
    pub(crate) fn prepare(
        &mut self,
        key: Key,
        holding: Option<Holding>,
        bytes: u64,
    ) -> Result<Prepared, AllocError>
        requires { CanStand self.old.cells key holding bytes }
        ensures prepared { IfOk result (IsPrepared self.new) }
        ensures finished { IfOk result (λ prepared.
            with_prepared self.new prepared ≡ record { cells = cells_with self.old.cells key holding }) }
        ensures withdrawn { IfOk result (λ prepared. without_prepared self.new prepared ≡ self.old) }
        ensures chart { IfOk result (λ prepared. chart_before self.new prepared
            ≡ chart_of (map.get self.old.cells key)) }
        ensures err { OnErr result (self.new ≡ self.old) }
    {
        if self.cells().contains(key) {
            return Ok(Prepared::Known(key, holding, bytes));
        }
        let before = self.bytes();
        self.set(key, holding, bytes)?;
        Ok(Prepared::New(key, before))
    }

    /// Puts a cell in place, and gives the chart before.
    pub(crate) fn finish(&mut self, prepared: Prepared) -> Option<Cell>
        requires { IsPrepared self.old prepared }
        ensures state { self.new ≡ with_prepared self.old prepared }
        ensures before { result ≡ chart_before self.old prepared }
    {
        match prepared {
            Prepared::New(_, _) => None,
            Prepared::Known(key, holding, bytes) => self.replace(key, holding, bytes),
        }
    }

    /// Gives up to put a cell in place.
    pub(crate) fn withdraw(&mut self, prepared: Prepared)
        requires { IsPrepared self.old prepared }
        ensures { self.new ≡ without_prepared self.old prepared }
    {
        if let Prepared::New(key, bytes) = prepared {
            self.replace(key, None, bytes);
        }
    }

    /// Puts a cell that is held in place of what is held of it, or takes it away, and gives the chart before.
    fn replace(&mut self, key: Key, holding: Option<Holding>, bytes: u64) -> Option<Cell>
        requires stands { CanStand self.old.cells key holding bytes }
        requires there { IsSome (map.get self.old.cells key) }
        ensures state { self.new ≡ record { cells = cells_with self.old.cells key holding } }
        ensures before { result ≡ chart_of (map.get self.old.cells key) }
    {
        match self.set(key, holding, bytes) {
            Ok(before) => before,
            Err(_) => unreachable!(),
        }
    }
}
