//! The script as it is read, byte by byte.
//!
//! A pull may end anywhere in a line. So what has begun of one is kept between pulls: its number and its front, at most
//! 1,026 bytes of it. A line is answered once its line feed is there, or at the script's end.

ghost use Rattle.std.specs.Prelude.{◌≡◌, ◌+◌, ◌^◌, ◌<◌, ◌≤◌, ◌∷◌, ◌++◌, [], IsTrue, OnOk, OnErr, IsErrOf, IsOkUnless};
ghost use Rattle.std.specs.Prelude.{length, All, vec_len, ◌==◌, nat_lt, false, if◌then◌else◌, List, ℕ};
ghost use Rattle.chart_ports.specs.Count.{Rose};
ghost use Rattle.session_core.specs.Session.{model_of};
ghost use Rattle.ecdis_cli.specs.declared.run.line.TheConstants.{LOOKED_AT};
ghost use Rattle.ecdis_cli.specs.Devices.{KeepsDevices, LeavesWhere};
ghost use Rattle.ecdis_cli.specs.Panels.{PanelValue};
ghost use Rattle.ecdis_cli.specs.Progress.{BytesAreTaken, RunIsStopped, ScriptIsFinished, ScriptIsUnfinished};
ghost use Rattle.ecdis_cli.specs.Standing.{IsReadyFor, Stands, at_start};

use crate::run::answer::answer;
use crate::run::devices::Devices;
use crate::run::line::LOOKED_AT;
use crate::run::stop::Stop;
use chart_ports::{Desk, Shelf};
use chart_store::kept_stores_are_read;
use script_reader::long_lines_are_read_by_their_front;
use session_core::Session;
use std::alloc::Global;
use std::sync::ledger::Ledger;
use text_lines::without_carriage_return;

/// Where the reading of a script stands: the session, the number of the line that has begun, and its
/// first bytes.
#[derive(Drop)]
pub struct Reader {
    pub session: Session,
    pub number: u64,
    pub line: Vec<u8>,
    ghost short: { vec_len line ≤ LOOKED_AT + 1 },
    ghost unbroken: { All (λ byte. (byte == 10) ≡ false) line.items },
}

impl Reader {
    ghost use Rattle.ecdis_cli.specs.ReaderStanding.{reader_at, reader_standing};

    /// At the start of the first line.
    pub fn new(alloc: Global, session: Session) -> Reader
        ensures start { (said : List ℕ) (faults count : ℕ) (panels : List PanelValue)
            → reader_standing result said faults count panels
            ≡ at_start (model_of session) said faults count panels }
        ensures session { result.session ≡ session }
    {
        Reader {
            session,
            number: 1,
            line: Vec::new(alloc),
        }
    }

    /// Ends the line, and answers it.
    fn end_line<L: Shelf, D: Desk, C: Ledger>(
        &mut self,
        alloc: Global,
        devices: &mut Devices<L, D, C>,
    ) -> Result<(), Stop>
        requires number { self.old.number + 1 < 2 ^ 63 }
        requires ready { IsReadyFor D.tells D.contents D.may_leave devices.old self.old.number self.old.session }

        // The line is taken, or the run stops within its reply.
        ensures ok { IsTrue D.tells → OnOk result (BytesAreTaken L.tells (L.files devices.old.shelf.now)
            (LeavesWhere (Stands D.contents devices.old self.old.session) D.clock D.might devices.old devices.new)
            (reader_at L.faults D.said Panel-box self.old devices.old) (10 ∷ [])
            (reader_at L.faults D.said Panel-box self.new devices.new)) }
        ensures err { IsTrue D.tells → OnErr result (RunIsStopped L.tells (L.files devices.old.shelf.now)
            (LeavesWhere (Stands D.contents devices.old self.old.session) D.clock D.might devices.old devices.new)
            (reader_at L.faults D.said Panel-box self.old devices.old) (10 ∷ [])
            (reader_at L.faults D.said Panel-box self.new devices.new)) }
        ensures stood { IsTrue D.tells → Stands D.contents devices.old self.old.session →
            OnOk result (Stands D.contents devices.new self.new.session) }

        // The next line may follow, and what stops the run has its cause.
        ensures number { self.new.number ≤ self.old.number + 1 }
        ensures ready { OnOk result
            (IsReadyFor D.tells D.contents D.may_leave devices.new self.new.number self.new.session) }
        ensures keeps { KeepsDevices L.tells L.files L.faults D.faults devices.old devices.new }
        ensures desk_failed { IsErrOf result Stop.DeskFault →
            Rose (D.faults devices.old.desk.now) (D.faults devices.new.desk.now) }
    {
        let line = without_carriage_return(&self.line);
        answer(alloc, self.number, line, &mut self.session, devices)?;
        self.number += 1;
        self.line.clear();
        Ok(())
    }

    /// Keeps a byte of the line, while there is room for it.
    fn keep(&mut self, byte: u8) -> Result<(), Stop>
        requires { (byte == 10) ≡ false }
        ensures ok { OnOk result (self.new.line.items ≡
            (if nat_lt (length self.old.line.items) (LOOKED_AT + 1)
            then self.old.line.items ++ byte ∷ [] else self.old.line.items)) }
        ensures number { self.new.number ≡ self.old.number }
        ensures session { self.new.session ≡ self.old.session }
        ensures err { IsOkUnless result Stop.NoMemory }
    {
        if self.line.len() < LOOKED_AT + 1 {
            self.line.push(byte)?;
        }
        Ok(())
    }

    /// Takes the next byte of the script.
    fn take<L: Shelf, D: Desk, C: Ledger>(
        &mut self,
        alloc: Global,
        byte: u8,
        devices: &mut Devices<L, D, C>,
    ) -> Result<(), Stop>
        requires number { self.old.number + 1 < 2 ^ 63 }
        requires ready { IsReadyFor D.tells D.contents D.may_leave devices.old self.old.number self.old.session }

        // The byte is taken, or the run stops within it.
        ensures ok { IsTrue D.tells → OnOk result (BytesAreTaken L.tells (L.files devices.old.shelf.now)
            (LeavesWhere (Stands D.contents devices.old self.old.session) D.clock D.might devices.old devices.new)
            (reader_at L.faults D.said Panel-box self.old devices.old) (byte ∷ [])
            (reader_at L.faults D.said Panel-box self.new devices.new)) }
        ensures err { IsTrue D.tells → OnErr result (RunIsStopped L.tells (L.files devices.old.shelf.now)
            (LeavesWhere (Stands D.contents devices.old self.old.session) D.clock D.might devices.old devices.new)
            (reader_at L.faults D.said Panel-box self.old devices.old) (byte ∷ [])
            (reader_at L.faults D.said Panel-box self.new devices.new)) }
        ensures stood { IsTrue D.tells → Stands D.contents devices.old self.old.session →
            OnOk result (Stands D.contents devices.new self.new.session) }

        // The next line may follow, and what stops the run has its cause.
        ensures number { self.new.number ≤ self.old.number + 1 }
        ensures ready { OnOk result
            (IsReadyFor D.tells D.contents D.may_leave devices.new self.new.number self.new.session) }
        ensures keeps { KeepsDevices L.tells L.files L.faults D.faults devices.old devices.new }
        ensures desk_failed { IsErrOf result Stop.DeskFault →
            Rose (D.faults devices.old.desk.now) (D.faults devices.new.desk.now) }
    {
        kept_stores_are_read::<D>();
        long_lines_are_read_by_their_front();
        if byte == b'\n' {
            self.end_line(alloc, devices)
        } else {
            self.keep(byte)
        }
    }

    /// Takes the next bytes of the script, and answers each line that ends in them.
    pub fn take_all<L: Shelf, D: Desk, C: Ledger>(
        &mut self,
        alloc: Global,
        bytes: &[u8],
        devices: &mut Devices<L, D, C>,
    ) -> Result<(), Stop>
        requires number { self.old.number + length bytes.now < 2 ^ 63 }
        requires ready { IsReadyFor D.tells D.contents D.may_leave devices.old self.old.number self.old.session }

        // The bytes are taken, or the run stops within them.
        ensures ok { IsTrue D.tells → OnOk result (BytesAreTaken L.tells (L.files devices.old.shelf.now)
            (LeavesWhere (Stands D.contents devices.old self.old.session) D.clock D.might devices.old devices.new)
            (reader_at L.faults D.said Panel-box self.old devices.old) bytes.now
            (reader_at L.faults D.said Panel-box self.new devices.new)) }
        ensures err { IsTrue D.tells → OnErr result (RunIsStopped L.tells (L.files devices.old.shelf.now)
            (LeavesWhere (Stands D.contents devices.old self.old.session) D.clock D.might devices.old devices.new)
            (reader_at L.faults D.said Panel-box self.old devices.old) bytes.now
            (reader_at L.faults D.said Panel-box self.new devices.new)) }
        ensures stood { IsTrue D.tells → Stands D.contents devices.old self.old.session →
            OnOk result (Stands D.contents devices.new self.new.session) }

        // The next line may follow, and what stops the run has its cause.
        ensures number { self.new.number ≤ self.old.number + length bytes.now }
        ensures ready { OnOk result
            (IsReadyFor D.tells D.contents D.may_leave devices.new self.new.number self.new.session) }
        ensures keeps { KeepsDevices L.tells L.files L.faults D.faults devices.old devices.new }
        ensures desk_failed { IsErrOf result Stop.DeskFault →
            Rose (D.faults devices.old.desk.now) (D.faults devices.new.desk.now) }
    {
        kept_stores_are_read::<D>();
        for byte in bytes {
            self.take(alloc, *byte, devices)?;
        }
        Ok(())
    }

    /// Answers the line that has begun, at the script's end, where there is one. A carriage return at its end stays.
    pub fn finish<L: Shelf, D: Desk, C: Ledger>(
        &mut self,
        alloc: Global,
        devices: &mut Devices<L, D, C>,
    ) -> Result<(), Stop>
        requires number { self.old.number + 1 < 2 ^ 63 }
        requires ready { IsReadyFor D.tells D.contents D.may_leave devices.old self.old.number self.old.session }

        // The last line is answered, or the run stops within its reply.
        ensures ok { IsTrue D.tells → OnOk result (ScriptIsFinished L.tells (L.files devices.old.shelf.now)
            (LeavesWhere (Stands D.contents devices.old self.old.session) D.clock D.might devices.old devices.new)
            (reader_at L.faults D.said Panel-box self.old devices.old)
            (reader_at L.faults D.said Panel-box self.new devices.new)) }
        ensures err { IsTrue D.tells → OnErr result (ScriptIsUnfinished L.tells (L.files devices.old.shelf.now)
            (LeavesWhere (Stands D.contents devices.old self.old.session) D.clock D.might devices.old devices.new)
            (reader_at L.faults D.said Panel-box self.old devices.old)
            (reader_at L.faults D.said Panel-box self.new devices.new)) }
        ensures stood { IsTrue D.tells → Stands D.contents devices.old self.old.session →
            OnOk result (Stands D.contents devices.new self.new.session) }

        // What is held is kept, and what stops the run has its cause.
        ensures ready { OnOk result
            (IsReadyFor D.tells D.contents D.may_leave devices.new (self.old.number + 1) self.new.session) }
        ensures keeps { KeepsDevices L.tells L.files L.faults D.faults devices.old devices.new }
        ensures desk_failed { IsErrOf result Stop.DeskFault →
            Rose (D.faults devices.old.desk.now) (D.faults devices.new.desk.now) }
    {
        kept_stores_are_read::<D>();
        if self.line.is_empty() {
            return Ok(());
        }
        answer(alloc, self.number, &self.line, &mut self.session, devices)
    }
}
