//! Events at random, over two panels and three cells.
//!
//! What is known of each panel is kept beside it: the blocks that it shows, those that it is to show, and its calls one
//! by one. So each answer is known beforehand, and the blocks after each refresh. Numbers begin at 1 in every run, so
//! that a fault is found again.

use super::shared::{Cells, Kinds, Line, NOTHING, Told, blocks, cells, turn};
use super::watched_panel::{Watched, WatchedPanel};
use chart_ports::{Calls, FailingCalls};
use panel_port::{BlockMap, Panel, ShownBlocks};
use panel_scenes::{PanelRefusal, PanelScenes};
use std::alloc::{AllocError, Global};
use std::cell::RefCell;
use std::rc::Rc;
use std::test::Fail;

/// What a panel shows.
#[derive(Clone, Copy)]
enum Shown {
    Unknown,
    /// Blocks of these kinds.
    All(Kinds),
    /// A refresh is to show blocks of these kinds, and so many of so many calls of it were made.
    Refreshing(Kinds, u64, u64),
}

/// What is known of a panel.
#[derive(Drop)]
struct Known {
    blocks: Watched,
    /// The numbers of the calls that fail.
    failing: &'static [u64],
    shown: Shown,
    made: u64,
    faults: u64,
}

/// How many blocks differ in their kinds.
fn differing(before: Kinds, after: Kinds) -> u64 {
    let mut number: u64 = 0;
    for (old, new) in before.iter().zip(&after) {
        if old != new {
            number = number.saturating_add(1);
        }
    }
    number
}

impl Known {
    /// Begins a refresh, and gives what is to be answered.
    fn refresh(&mut self, target: Kinds) -> Told {
        let calls = match self.shown {
            Shown::Unknown => differing(NOTHING, target).saturating_add(1),
            Shown::All(kinds) => differing(kinds, target),
            Shown::Refreshing(..) => return Told::No(PanelRefusal::Busy),
        };
        self.come(target, 0, calls);
        Told::Refresh(calls)
    }

    /// A refresh has come so far.
    fn come(&mut self, target: Kinds, done: u64, calls: u64) {
        if done == calls {
            self.shown = Shown::All(target);
        } else {
            self.shown = Shown::Refreshing(target, done, calls);
        }
    }

    /// Makes calls of a refresh, and gives what is to be answered.
    fn paint(&mut self, k: u32, n: u32) -> Told {
        let Shown::Refreshing(target, before, calls) = self.shown else {
            return Told::No(PanelRefusal::NothingBegun);
        };
        let done = calls.min(before.saturating_add(u64::from(n)));
        for _ in before..done {
            self.made = self.made.saturating_add(1);
            if self.failing.contains(&self.made) {
                self.faults = self.faults.saturating_add(1);
                self.shown = Shown::Unknown;
                return Told::No(PanelRefusal::Failed(k));
            }
        }
        self.come(target, done, calls);
        Told::Paint(done, calls)
    }

    /// What is to be answered to a line.
    fn told(&mut self, line: Line) -> Told {
        match line {
            Line::Refresh(_, target) => self.refresh(target),
            Line::Paint(k, n) => self.paint(k, n),
            Line::Panel(_) => Told::Panel(self.made, self.faults),
            Line::Close(_) => Told::Closed,
        }
    }

    /// Whether the panel has the blocks that it is known to show.
    fn is_right(&self, alloc: Global, cells: Cells) -> Result<bool, AllocError> {
        let Shown::All(kinds) = self.shown else {
            return Ok(true);
        };
        let wanted = blocks(alloc, cells, kinds)?;
        match self.blocks.try_borrow() {
            Ok(blocks) => Ok(shows(&blocks, &wanted)),
            Err(_) => Ok(false),
        }
    }
}

/// Whether exactly these blocks are shown.
fn shows(shown: &ShownBlocks, wanted: &BlockMap) -> bool {
    shown.len() == wanted.len()
        && wanted
            .as_slice()
            .iter()
            .all(|(key, block)| shown.get(*key) == Some(block))
}

/// The panels, and what is known of each.
#[derive(Drop)]
struct Panels {
    scenes: PanelScenes,
    panels: Vec<Box<dyn Panel>>,
    known: Vec<Known>,
}

impl Panels {
    /// A panel that never fails, and whose number of calls comes to its last value; and one that fails at these calls.
    fn two(alloc: Global, failing: &'static [u64]) -> Result<Panels, AllocError> {
        let mut panels: Vec<Box<dyn Panel>> = Vec::new(alloc);
        let mut known = Vec::new(alloc);
        for (failing, made) in [(NEVER.as_slice(), u64::MAX - 20), (failing, 0)] {
            let blocks = Rc::new(alloc, RefCell::new(ShownBlocks::new(alloc)))?;
            let calls = Calls {
                failing: FailingCalls::from_vec(Vec::from_slice(alloc, failing)?),
                made,
                faults: 0,
            };
            let panel = WatchedPanel::new(blocks.clone()?, calls);
            panels.push(Box::new(alloc, panel)?)?;
            known.push(Known {
                blocks,
                failing,
                shown: Shown::Unknown,
                made,
                faults: 0,
            })?;
        }
        let scenes = PanelScenes::new(alloc, panels.len())?;
        Ok(Panels {
            scenes,
            panels,
            known,
        })
    }

    /// Asks the panel of this number, and tells whether the answer is right.
    fn answers(&mut self, alloc: Global, cells: Cells, k: u32, line: Line) -> Result<bool, Fail> {
        let wanted = match self.known.get_mut((k as usize).saturating_sub(1)) {
            Some(known) => known.told(line),
            None => Told::No(PanelRefusal::NoPanel(k)),
        };
        let told = turn(alloc, &mut self.scenes, &mut self.panels, cells, line)?;
        Ok(told == wanted)
    }

    /// Whether each panel has the blocks that it is known to show.
    fn are_right(&self, alloc: Global, cells: Cells) -> Result<bool, AllocError> {
        for known in &self.known {
            if !known.is_right(alloc, cells)? {
                return Ok(false);
            }
        }
        Ok(true)
    }

    /// Whether a refresh of the second panel is under way.
    fn second_is_refreshing(&self) -> bool {
        match self.known.get(1) {
            Some(known) => matches!(known.shown, Shown::Refreshing(..)),
            None => false,
        }
    }

    /// Closes the first panel, and tells whether the answer is right.
    fn close_first(&mut self, alloc: Global, cells: Cells) -> Result<bool, Fail> {
        let is_right = self.answers(alloc, cells, 1, Line::Close(1))?;
        if !self.known.is_empty() {
            self.known.remove(0);
        }
        Ok(is_right)
    }

    /// How many panels there are, and how many calls of the first failed.
    fn numbers(&self) -> (usize, u64) {
        match self.known.first() {
            Some(known) => (self.known.len(), known.faults),
            None => (0, 0),
        }
    }
}

static NEVER: [u64; 0] = [];

static SOMETIMES: [u64; 6] = [2, 9, 10, 40, 61, 90];

/// The next of numbers without a visible order.
fn number_after(number: u32) -> u32 {
    number.wrapping_mul(1_664_525).wrapping_add(1_013_904_223)
}

/// The kinds with up to three others: blocks come and go, and others take their place.
fn changed(kinds: Kinds, number: u32) -> Kinds {
    let mut kinds = kinds;
    let mut rest = number;
    for _ in 0..3 {
        kinds[(rest / 8 % 12) as usize] = (rest % 8).saturating_sub(2);
        rest /= 128;
    }
    kinds
}

/// What is asked of a panel: three times of eight that it is refreshed, and else that it makes one to five calls.
fn line_of(number: u32, k: u32, kinds: Kinds) -> Line {
    match number % 8 {
        0..3 => Line::Refresh(k, kinds),
        some => Line::Paint(k, some - 2),
    }
}

/// The first panel is closed near the end, while the second one is refreshed.
#[test]
fn random_events(rt: HostRuntime) -> Result<(), Fail> {
    let alloc = rt.alloc();
    let cells = cells()?;
    let mut panels = Panels::two(alloc, &SOMETIMES)?;
    let mut kinds = NOTHING;
    let mut number = 1;
    for at in 0..200 {
        number = number_after(number);
        kinds = changed(kinds, number >> 8);
        let k = 1 + (number >> 31);
        let line = line_of(number >> 28, k, kinds);
        assert!(rt; panels.answers(alloc, cells, k, line)?, "event {at}");
        assert!(rt;
            panels.answers(alloc, cells, k, Line::Panel(k))?,
            "event {at}"
        );
        assert!(rt; panels.are_right(alloc, cells)?, "event {at}");
        if at >= 170 && panels.second_is_refreshing() {
            assert!(rt; panels.close_first(alloc, cells)?, "event {at}");
        }
    }
    assert_eq!(rt; panels.numbers(), (1, 6));
    Ok(())
}
