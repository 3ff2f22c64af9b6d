//! One line's reply.
//!
//! A command is on the disk before anything of its reply is said. So a reply that was read, even a front of one,
//! acknowledges what no crash takes back.

ghost use Rattle.std.specs.Prelude.{◌≡◌, ◌+◌, ◌^◌, ◌<◌, ◌≤◌, ◌++◌, [], IsTrue};
ghost use Rattle.std.specs.Prelude.{IfOk, OnOk, OnErr, IsErrOf, min, take, length};
ghost use Rattle.chart_ports.specs.Count.{Rose};
ghost use Rattle.chart_ports.specs.Disk.{LeavesNoMore, SameFiles};
ghost use Rattle.chart_ports.specs.Moments.{Elapses, LeavesOnly};
ghost use Rattle.chart_ports.specs.Said.{SaysFront};
ghost use Rattle.script_reader.specs.Reply.{bytes_of_reply};
ghost use Rattle.session_core.specs.Session.{model_of};
ghost use Rattle.ecdis_cli.specs.Devices.{KeepsDevices, LeavesWhere, panels_in};
ghost use Rattle.ecdis_cli.specs.Progress.{LineIsAnswered, ReplyIsInterrupted};
ghost use Rattle.ecdis_cli.specs.Replied.{GivesStep, LeavesSaying, ReplyIsFound};
ghost use Rattle.ecdis_cli.specs.Standing.{IsReadyFor, Stands, standing_at};

use crate::run::devices::Devices;
use crate::run::line::front_of;
use crate::run::stop::Stop;
use chart_ports::{Desk, Shelf};
use chart_store::kept_stores_are_read;
use script_reader::{
    LineFault, Reply, long_lines_are_read_by_their_front, print_reply, read_line,
    replies_are_spoken,
};
use session_core::{LineRefusal, Session, turns_follow_their_commands};
use std::alloc::Global;
use std::sync::ledger::Ledger;

/// Says the reply.
fn say<D: Desk>(alloc: Global, reply: &Reply, desk: &mut D) -> Result<(), Stop>
    // A call that fails has said a front of it.
    ensures said { IsTrue D.tells → OnOk result (D.said desk.new ≡ D.said desk.old ++ bytes_of_reply reply.now) }
    ensures front { IsTrue D.tells →
        OnErr result (SaysFront (D.said desk.old) (bytes_of_reply reply.now) (D.said desk.new)) }

    // The files are left, at every moment of it.
    ensures files { IsTrue D.tells → SameFiles (D.contents desk.old) (D.contents desk.new) }
    ensures crash { IsTrue D.tells → LeavesNoMore (D.may_leave desk.old) (D.may_leave desk.new) }
    ensures moments { IsTrue D.tells → LeavesOnly D.clock D.might desk.old desk.new
        (LeavesSaying (D.may_leave desk.old) (D.said desk.old) (bytes_of_reply reply.now)) }

    ensures later { D.faults desk.old ≤ D.faults desk.new }
    ensures failed { IsErrOf result Stop.DeskFault → Rose (D.faults desk.old) (D.faults desk.new) }
{
    let bytes = print_reply(alloc, reply)?;
    desk.say(bytes.as_slice())?;
    Ok(())
}

/// What is replied to a line: nothing to a silent one, the turn's reply to one that asks for something, and to any
/// other its refusal.
fn reply_to<L: Shelf, D: Desk, C: Ledger>(
    alloc: Global,
    number: u64,
    line: &[u8],
    session: &mut Session,
    devices: &mut Devices<L, D, C>,
) -> Result<Option<Reply>, Stop>
    requires number { number < 2 ^ 63 }
    requires ready { IsReadyFor D.tells D.contents D.may_leave devices.old number session.old }

    // The line's step is taken and counted, panels go along with it, and nothing is said. What a read of the files gives
    // stands for what is held, where it did before.
    ensures replied { ReplyIsFound L.tells (L.files devices.old.shelf.now)
        (λ P. IsTrue D.tells →
        LeavesWhere (Stands D.contents devices.old session.old) D.clock D.might devices.old devices.new P)
        (standing_at L.faults D.said Panel-box session.old devices.old number line.now)
        (L.faults devices.new.shelf.now) devices.new.steps.now
        (GivesStep result (model_of session.old) (panels_in Panel-box devices.old)
        (model_of session.new) (panels_in Panel-box devices.new)) }
    ensures said { IsTrue D.tells → D.said devices.new.desk.now ≡ D.said devices.old.desk.now }
    ensures stood { IsTrue D.tells → Stands D.contents devices.old session.old →
        OnOk result (Stands D.contents devices.new session.new) }

    // The next line may follow, and what stops the run has its cause.
    ensures ready { OnOk result (IsReadyFor D.tells D.contents D.may_leave devices.new (number + 1) session.new) }
    ensures keeps { KeepsDevices L.tells L.files L.faults D.faults devices.old devices.new }
    ensures desk_failed { IsErrOf result Stop.DeskFault →
        Rose (D.faults devices.old.desk.now) (D.faults devices.new.desk.now) }
{
    long_lines_are_read_by_their_front();
    kept_stores_are_read::<D>();
    turns_follow_their_commands();
    match read_line(alloc, front_of(line), number) {
        Ok(None) => Ok(None),
        Ok(Some(event)) => Ok(Some(session.turn(
            alloc,
            event,
            devices.shelf,
            devices.desk,
            devices.panels,
            devices.steps,
        )?)),
        Err(LineFault::BadLine(_)) => Ok(Some(LineRefusal::BadLine(number).reply(alloc)?)),
        Err(LineFault::NoMemory) => Err(Stop::NoMemory),
    }
}

/// Answers the line of this number, unless nothing is replied to it: its reply is said once it is done.
pub fn answer<L: Shelf, D: Desk, C: Ledger>(
    alloc: Global,
    number: u64,
    line: &[u8],
    session: &mut Session,
    devices: &mut Devices<L, D, C>,
) -> Result<(), Stop>
    requires number { number < 2 ^ 63 }
    requires ready { IsReadyFor D.tells D.contents D.may_leave devices.old number session.old }

    // The line's step is taken, and its reply said, or a front of it where the run ends. What a read of the files gives
    // stands for what is held, where it did before.
    ensures said { IsTrue D.tells → OnOk result (LineIsAnswered L.tells (L.files devices.old.shelf.now)
        (LeavesWhere (Stands D.contents devices.old session.old) D.clock D.might devices.old devices.new)
        (standing_at L.faults D.said Panel-box session.old devices.old number line.now)
        (standing_at L.faults D.said Panel-box session.new devices.new (number + 1) [])) }
    ensures front { IsTrue D.tells → OnErr result (ReplyIsInterrupted L.tells (L.files devices.old.shelf.now)
        (LeavesWhere (Stands D.contents devices.old session.old) D.clock D.might devices.old devices.new)
        (standing_at L.faults D.said Panel-box session.old devices.old number line.now)
        (standing_at L.faults D.said Panel-box session.new devices.new (number + 1) [])) }
    ensures stood { IsTrue D.tells → Stands D.contents devices.old session.old →
        OnOk result (Stands D.contents devices.new session.new) }

    // The next line may follow, and what stops the run has its cause.
    ensures ready { OnOk result (IsReadyFor D.tells D.contents D.may_leave devices.new (number + 1) session.new) }
    ensures keeps { KeepsDevices L.tells L.files L.faults D.faults devices.old devices.new }
    ensures desk_failed { IsErrOf result Stop.DeskFault →
        Rose (D.faults devices.old.desk.now) (D.faults devices.new.desk.now) }
{
    kept_stores_are_read::<D>();
    turns_follow_their_commands();
    replies_are_spoken();
    let Some(reply) = reply_to(alloc, number, line, session, devices)? else {
        return Ok(());
    };
    say(alloc, &reply, devices.desk)
}
