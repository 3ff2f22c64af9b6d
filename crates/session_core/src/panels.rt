//! Lines about panels.
//!
//! The panels stand outside, and what is known of each is kept here. No line but `paint` changes what one shows. Behind
//! a painting that failed nobody knows what its panel shows, so its refusal is a reply already: one that isn't leaves
//! all as it was.

ghost use Rattle.std.specs.Prelude.{◌≡◌, ◌≢◌, ◌+◌, ◌≤◌, true, false, Bool, Err, IfOk, IfSome, length, vec_len};
ghost use Rattle.std.specs.Prelude.{option_map};
ghost use Rattle.chart_ports.specs.Count.{Rose};
ghost use Rattle.date_display.specs.Days.{date_of};
ghost use Rattle.panel_port.specs.Panel.{summary_of};
ghost use Rattle.panel_port.specs.declared.summary.Summary.{Summary};
ghost use Rattle.panel_scenes.specs.Numbered.{IsOfNumbered, numbered};
ghost use Rattle.panel_scenes.specs.Painting.{is_failure};
ghost use Rattle.script_reader.specs.declared.event.Event.TheVariants as asks;
ghost use Rattle.session_core.specs.declared.fault.EventFault.TheVariants.{DeskFault, Refused};
ghost use Rattle.session_core.specs.declared.refusal.LineRefusal as line;
ghost use Rattle.session_core.specs.Kept.{IsKeptOfEach};
ghost use Rattle.session_core.specs.Model.{Model, portrayal_with, with_scenes};
ghost use Rattle.session_core.specs.Outside.{KeepsPanels};
ghost use Rattle.session_core.specs.Panels.{close_turn, paint_turn, panel_turn, refresh_turn, refusal_of_panel};
ghost use Rattle.session_core.specs.Refusal.{reply_of};
ghost use Rattle.session_core.specs.Session.{GivesEvent};
ghost use Rattle.session_core.specs.Steps.{features_refreshed};
ghost use Rattle.topology_cache.specs.Users.{AreUsersOf};

use crate::fault::EventFault;
use crate::refusal::LineRefusal;
use crate::target::{Charts, target_of};
use chart_ports::Steps;
use panel_port::Panel;
use panel_scenes::{PaintingFault, PanelRefusal, PanelScenes, refreshes_keep_step};
use script_reader::Reply;
use std::alloc::Global;
use std::sync::ledger::Ledger;

/// Begins a refresh, which is to make the panel of this number show the charts that are held now, and tells the number
/// of its calls. What is loaded while it goes on isn't part of it. None of the calls is made.
pub fn refresh<C: Ledger>(
    alloc: Global,
    k: u32,
    scenes: &mut PanelScenes,
    panels: &[Box<dyn Panel>],
    charts: &Charts,
    steps: &mut Steps<C>,
) -> Result<Reply, EventFault>
    requires { IsKeptOfEach AreUsersOf charts.now.cells.now charts.now.users.now }
    ensures given { (model : Model) → model.state.cells ≡ charts.now.cells.now →
        model.portrayal ≡ portrayal_with charts.now.table.now charts.now.settings.now
        (option_map date_of charts.now.day) →
        model.scenes ≡ scenes.old →
        GivesEvent result model (with_scenes model scenes.new) (refresh_turn model k (numbered k scenes.old)) }
    ensures desk { result ≢ Err DeskFault }
    ensures as_many { length scenes.new ≡ length scenes.old }
    ensures panels { KeepsPanels tells scene faults calls numbers (asks.Refresh k) result panels.now panels.now
        scenes.old scenes.new }
    ensures at_most { let portrayal = portrayal_with charts.now.table.now charts.now.settings.now
        (option_map date_of charts.now.day) in
        steps.new ≤ steps.old + features_refreshed portrayal charts.now.cells.now }
{
    refreshes_keep_step(panels);
    scenes.can_refresh(k)?;
    let target = target_of(alloc, charts, steps)?;
    Ok(Reply::Refresh(k, scenes.refresh(alloc, k, target)?))
}

/// Refuses a painting. Where the panel failed this is a reply already.
fn refuse(alloc: Global, refusal: PanelRefusal) -> Result<Reply, EventFault>
    ensures failed { IfOk result (λ reply.
        (is_failure refusal ≡ true) × (reply ≡ reply_of (refusal_of_panel refusal))) }
    ensures refused { (why : line.LineRefusal) → result ≡ Err (Refused why)
        → (is_failure refusal ≡ false) × (why ≡ refusal_of_panel refusal) }
    ensures desk { result ≢ Err DeskFault }
{
    match refusal {
        PanelRefusal::Failed(k) => Ok(LineRefusal::PanelFault(k).reply(alloc)?),
        PanelRefusal::NoPanel(_) | PanelRefusal::NothingBegun | PanelRefusal::Busy => {
            Err(refusal.into())
        }
    }
}

/// Makes the next n calls of the refresh of the panel of this number, or those that are left where they are fewer, and
/// tells how far it has come, or that the panel failed.
pub fn paint(
    alloc: Global,
    k: u32,
    n: u32,
    scenes: &mut PanelScenes,
    panels: &mut Vec<Box<dyn Panel>>,
) -> Result<Reply, EventFault>
    requires as_many { vec_len panels.old ≡ length scenes.old }
    ensures given { (failed : Bool)
        × ((model : Model) → model.scenes ≡ scenes.old →
        GivesEvent result model (with_scenes model scenes.new) (paint_turn model k n failed))
        × (failed ≡ true → IsOfNumbered k (λ panel panel'. Rose (faults panel) (faults panel'))
        panels.old.items panels.new.items) }
    ensures desk { result ≢ Err DeskFault }
    ensures as_many { vec_len panels.new ≡ length scenes.new }
    ensures panels { KeepsPanels tells scene faults calls numbers (asks.Paint k n) result panels.old.items
        panels.new.items scenes.old scenes.new }
    ensures refused { (refusal : line.LineRefusal) → result ≡ Err (Refused refusal)
        → panels.new.items ≡ panels.old.items }
{
    match scenes.paint(alloc, k, n, panels) {
        Ok(progress) => Ok(Reply::Paint(k, progress.done, progress.calls)),
        Err(PaintingFault::Refused(refusal)) => refuse(alloc, refusal),
        Err(PaintingFault::NoMemory) => Err(EventFault::NoMemory),
    }
}

/// Tells how much the panel of this number shows.
pub fn sum_up(k: u32, scenes: &PanelScenes, panels: &[Box<dyn Panel>]) -> Result<Reply, EventFault>
    requires as_many { length panels.now ≡ length scenes.now }
    ensures given { (shown : Summary)
        × ((model : Model) → model.scenes ≡ scenes.now →
        GivesEvent result model model (panel_turn model k shown (numbered k scenes.now)))
        × IfSome (numbered k panels.now) (λ panel. shown ≡ numbers panel)
        × IfSome (numbered k panels.now) (λ panel. IfSome (scene panel) (λ blocks. shown ≡ summary_of blocks)) }
    ensures desk { result ≢ Err DeskFault }
{
    let shown = scenes.summary(k, panels)?;
    Ok(Reply::Panel(k, shown.blocks, shown.items))
}

/// Takes out the panel of this number, and what is known of it: those behind it move down by one.
pub fn close(
    k: u32,
    scenes: &mut PanelScenes,
    panels: &mut Vec<Box<dyn Panel>>,
) -> Result<Reply, EventFault>
    requires as_many { vec_len panels.old ≡ length scenes.old }
    ensures given { (model : Model) → model.scenes ≡ scenes.old →
        GivesEvent result model (with_scenes model scenes.new) (close_turn model k (numbered k scenes.old)) }
    ensures desk { result ≢ Err DeskFault }
    ensures as_many { vec_len panels.new ≡ length scenes.new }
    ensures panels { KeepsPanels tells scene faults calls numbers (asks.ClosePanel k) result panels.old.items
        panels.new.items scenes.old scenes.new }
    ensures refused { (refusal : line.LineRefusal) → result ≡ Err (Refused refusal)
        → panels.new.items ≡ panels.old.items }
{
    scenes.close(k, panels)?;
    Ok(Reply::ClosePanel(k))
}
