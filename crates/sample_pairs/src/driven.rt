//! A pair of banks, driven through the steps of a script.
//!
//! A slice may be written only while one is left, and a save ended only behind its last one: these are conditions of
//! the calls. So the type keeps how far the save is, and a step that doesn't fit is a fault of the script.

ghost use Rattle.std.specs.Prelude.{◌≡◌, ◌≢◌, ◌<◌, None};
ghost use Rattle.std.specs.Option.{ForSome};
ghost use Rattle.bank_pair.specs.Handle.{value_of};
ghost use Rattle.sample_pairs.specs.declared.driven.Phase.TheVariants.{Idle, Writing, Written};

use crate::files::{Files, checkpoint_of, desk_with};
use bank_journal::{AppendFault, BankFault, frame};
use bank_pair::{Pair, SaveFault, open_pair};
use chart_model::Octets;
use chart_ports::{Failed, Fill, Images};
use sample_devices::Untold;
use std::alloc::{AllocError, Global};
use thiserror::Error;

/// How far the save of a pair is.
#[derive(Clone, Copy)]
enum Phase {
    /// None is under way.
    Idle,
    /// A slice is left to write.
    Writing,
    /// All slices are written.
    Written,
}

/// A step of a script.
#[derive(Clone, Copy)]
pub enum Step {
    /// A record is appended, whose body is this byte.
    Append(u8),
    /// A save begins, of the checkpoint of so many bytes.
    Begin(usize),
    /// The next slice is written.
    Slice,
    /// The save is ended.
    Flip,
}

/// Why a step isn't taken.
#[derive(Clone, Copy, Debug, PartialEq, Eq, Error)]
pub enum StepFault {
    #[error("the pair is not opened")]
    Open(#[from] BankFault),
    #[error("the record is not appended")]
    Append(#[from] AppendFault),
    #[error("no save begins")]
    Begin(#[from] SaveFault),
    #[error("the slice is not written, or the save is not ended")]
    Write(#[from] Failed),
    #[error("there was no memory")]
    NoMemory(#[from] AllocError),
    #[error("the save is not so far that the step could be taken")]
    NotNow,
}

/// A pair of banks, and how far its save is.
#[derive(Drop)]
pub struct Driven {
    pair: Pair,
    phase: Phase,
    ghost idle: { phase ≡ Idle → (value_of pair).save ≡ None },
    ghost under_way: { phase ≢ Idle → (value_of pair).save ≢ None },
    ghost left: { phase ≡ Writing → ForSome (value_of pair).save (λ save. save.written < save.slices) },
    ghost written: { phase ≡ Written → ForSome (value_of pair).save (λ save. save.written ≡ save.slices) },
}

impl Driven {
    /// Opens the pair of a desk.
    fn open(alloc: Global, desk: &mut Untold) -> Result<Driven, StepFault> {
        let (pair, _) = open_pair(alloc, desk)?;
        Ok(Driven {
            pair,
            phase: Phase::Idle,
        })
    }

    /// Appends a record, whose body is this byte.
    fn append(self, alloc: Global, desk: &mut Untold, body: u8) -> Result<Driven, StepFault> {
        let Driven { mut pair, phase } = self;
        pair.reserve()?;
        let framed = frame(alloc, &[body])?;
        pair.append(desk, framed)?;
        Ok(Driven { pair, phase })
    }

    /// Begins a save of a checkpoint of so many bytes, of which a slice is left to write.
    #[tactic(auto, using(crate::proofs::Slices::some_slice))]
    fn begin(self, alloc: Global, count: usize) -> Result<Driven, StepFault>
        requires { self.phase ≡ Phase.Idle }
    {
        let mut pair = self.pair;
        pair.begin_save(Octets::from_vec(checkpoint_of(alloc, count)?))?;
        Ok(Driven {
            pair,
            phase: Phase::Writing,
        })
    }

    /// Writes the next slice.
    fn write_slice(self, desk: &mut Untold) -> Result<Driven, StepFault>
        requires { self.phase ≡ Phase.Writing }
    {
        let mut pair = self.pair;
        let phase = if pair.write_slice(desk)? {
            Phase::Written
        } else {
            Phase::Writing
        };
        Ok(Driven { pair, phase })
    }

    /// Ends the save.
    fn flip(self, desk: &mut Untold) -> Result<Driven, StepFault>
        requires { self.phase ≡ Phase.Written }
    {
        let mut pair = self.pair;
        pair.flip(desk)?;
        Ok(Driven {
            pair,
            phase: Phase::Idle,
        })
    }

    /// Takes a step.
    fn take(self, alloc: Global, desk: &mut Untold, step: Step) -> Result<Driven, StepFault> {
        match (step, self.phase) {
            (Step::Append(body), _) => self.append(alloc, desk, body),
            (Step::Begin(count), Phase::Idle) => self.begin(alloc, count),
            (Step::Slice, Phase::Writing) => self.write_slice(desk),
            (Step::Flip, Phase::Written) => self.flip(desk),
            _ => Err(StepFault::NotNow),
        }
    }
}

/// What came of a script.
#[derive(Clone, Copy, PartialEq, Eq)]
pub struct Outcome {
    /// How many of the opening and the steps succeeded.
    pub done: usize,
    /// Why the next one failed, if one did.
    pub fault: Option<StepFault>,
}

/// Takes steps one after the other, up to one that fails.
fn follow(alloc: Global, desk: &mut Untold, driven: Driven, steps: &[Step]) -> Outcome {
    let mut driven = driven;
    for (at, step) in steps.iter().enumerate() {
        match driven.take(alloc, desk, *step) {
            Ok(next) => driven = next,
            Err(fault) => {
                return Outcome {
                    done: at.saturating_add(1),
                    fault: Some(fault),
                };
            }
        }
    }
    Outcome {
        done: steps.len().saturating_add(1),
        fault: None,
    }
}

/// Opens the pair of a desk, and takes steps one after the other, up to one that fails.
pub fn drive(alloc: Global, desk: &mut Untold, steps: &[Step]) -> Outcome {
    match Driven::open(alloc, desk) {
        Ok(driven) => follow(alloc, desk, driven, steps),
        Err(fault) => Outcome {
            done: 0,
            fault: Some(fault),
        },
    }
}

/// Does so over files with these bytes: why a step fails, if one does, and the files then, with each byte as the last
/// sync left it.
pub fn leave(
    alloc: Global,
    files: Files,
    steps: &[Step],
) -> Result<(Option<StepFault>, Images), AllocError> {
    let mut desk = desk_with(alloc, files, 0)?;
    let outcome = drive(alloc, &mut desk, steps);
    let left = desk.memory.image_after(alloc, u64::MAX, Fill::Old)?;
    Ok((outcome.fault, left))
}
