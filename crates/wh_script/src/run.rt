//! A script from its first line to its last.

ghost use Rattle.std.specs.Prelude.{◌≡◌, [], IfSome, MatchOption};
ghost use Rattle.wh_cell.specs.Ledgers.{HasLedgers};
ghost use Rattle.wh_settings.specs.View.{settings_of};
ghost use Rattle.wh_engine.specs.Draining.{DeviceHoldsAmid, DeviceMayFail, DeviceStaysTrue, HasAdded, HasServed, HoldsAmid, StaysTrue};
ghost use Rattle.wh_engine.specs.RepresentedScript.{RepresentsScript};
ghost use Rattle.wh_script_model.specs.ScriptState.{empty_script};
ghost use Rattle.wh_script_model.specs.Settings as lines;
ghost use Rattle.wh_script.specs.Blame.{BlamesFailed};
ghost use Rattle.wh_script.specs.FailingRuns.{ScriptRunsAmid};
ghost use Rattle.wh_script.specs.RunBy.{RunsBy};
ghost use Rattle.wh_script.specs.Runs.{Runs};
ghost use Rattle.wh_script.specs.Starting.{IsEmptyDevice};

use crate::fault::ScriptFault;
use crate::files::Source;
use crate::lines::{Line, Lines};
use crate::session::{Session, SessionConfig};
use crate::writing::send;
use std::alloc::Global;
use std::io::{Read, Write};
use std::marker::Brand;
use std::sync::Wait;
use std::sync::ledger::Ledger;
use std::thread::Threads;
use wh_cell::{CellAgreements, CellParts};
use wh_settings::{Settings, Workers};
use wh_streams::{WatchedRead, WatchedWrite};
use wh_swap::SwapDev;

/// Reads a script to its end, obeys it on a host of its own, whose calls `workers` threads run, and writes the replies. Pages
/// are swapped to `device`, which has as many slots as the settings say, and nothing in them. Returns the device, and how calls
/// were run, but where room for the host was refused.
///
/// # Errors
/// `Script` where the reader fails, after the replies to the lines that it gave; `Output` where the writer fails, after a
/// beginning of the replies; `Memory` where there is none for the host, for a drain, for a reply or for a report, or where
/// lines can't be counted, and `Transcript` where calls don't run to their ends, which is only where a call is open: after the
/// replies to the first lines. Out of memory for a command is answered in its reply. Where a thread is refused, the calling
/// thread does its work.
pub fn run_script<
    R: Read,
    W: Write,
    S: Source,
    D: SwapDev + Drop + Send + 'static,
    X: Threads + Wait + Copy + Send + Sync + 'static,
>(
    rt: X,
    alloc: Global,
    settings: &Settings,
    workers: Workers,
    source: &S,
    device: D,
    reader: &mut WatchedRead<R>,
    writer: &mut WatchedWrite<W>,
) -> (Result<(), ScriptFault>, Option<D>, Option<SessionConfig>)
    requires { IsEmptyDevice settings.now.slots (D.held device) }
    // Where the device that came back has read right and no call of it failed, or none came back: what answers the script was
    // written, and reports, and nothing else; where it stopped, what answers lines before.
    ensures runs { IfSome result.1 (λ after. HasServed (D.honest after) (D.faults device)
        (D.faults after)) → Runs (settings_of settings.now) (S.files source.now)
        (R.remaining reader.old.inner) (R.remaining reader.new.inner) (W.contents writer.old.inner)
        (W.contents writer.new.inner) result.0 }
    // Where calls of it did fail, so it is still, except that a call may be blocked on such a fault until it is
    // retried.
    ensures amid { MatchOption result.1 (ScriptRunsAmid (settings_of settings.now)
        (S.files source.now) [] (R.remaining reader.old.inner) (R.remaining reader.new.inner)
        (W.contents writer.old.inner) (W.contents writer.new.inner) result.0) (λ after. HoldsAmid
        (D.honest after) (D.faults device) (D.faults after) (λ met. ScriptRunsAmid
        (settings_of settings.now) (S.files source.now) met (R.remaining reader.old.inner)
        (R.remaining reader.new.inner) (W.contents writer.old.inner) (W.contents writer.new.inner) result.0)) }
    ensures faults { IfSome result.1 (λ after. HasAdded (D.faults device) (D.faults after)) }
    ensures device { IfSome result.1 (λ after. StaysTrue (D.keeps device) (D.honest device)
        (D.keeps after) (D.honest after)) }
    // It ends for the reader or the writer only where a call of that has failed.
    ensures blames { BlamesFailed reader.new.has_failed writer.new.has_failed result.0 }
    // Calls were run as the settings say, by this number of workers.
    ensures config { RunsBy (settings_of settings.now) workers.number result.0 result.1
        result.2 }
{
    let Ok(cell_parts) = CellParts::new(alloc, device) else {
        return (Err(ScriptFault::Memory), None, None);
    };
    run_on_cell_parts::<Brand, Brand, Brand, Brand, Brand, R, W, S, D, X>(
        rt, alloc, settings, workers, source, cell_parts, reader, writer,
    )
}

/// Runs a script on a host with these parts, whose ledgers and agreements its parameters name.
fn run_on_cell_parts<
    T: Ledger + Send + 'static,
    C: Ledger + Send + 'static,
    O: Ledger + Send + 'static,
    E: Ledger + Send + 'static,
    B: CellAgreements + Send + 'static,
    R: Read,
    W: Write,
    S: Source,
    D: SwapDev + Drop + Send + 'static,
    X: Threads + Wait + Copy + Send + Sync + 'static,
>(
    rt: X,
    alloc: Global,
    settings: &Settings,
    workers: Workers,
    source: &S,
    cell_parts: CellParts<D>,
    reader: &mut WatchedRead<R>,
    writer: &mut WatchedWrite<W>,
) -> (Result<(), ScriptFault>, Option<D>, Option<SessionConfig>)
    requires empty { IsEmptyDevice settings.now.slots (D.held cell_parts.device) }
    requires owned { cell_parts.to_owner ≡ B.to_owner }
    requires backed { cell_parts.to_device ≡ B.to_device }
    requires ledgers { HasLedgers T.Ledger C.Ledger O.Ledger E.Ledger cell_parts }
    ensures amid { let device = cell_parts.device in MatchOption result.1 (ScriptRunsAmid
        (settings_of settings.now) (S.files source.now) [] (R.remaining reader.old.inner)
        (R.remaining reader.new.inner) (W.contents writer.old.inner) (W.contents writer.new.inner) result.0)
        (λ after. HoldsAmid (D.honest after) (D.faults device) (D.faults after)
        (λ met. ScriptRunsAmid (settings_of settings.now) (S.files source.now) met
        (R.remaining reader.old.inner) (R.remaining reader.new.inner) (W.contents writer.old.inner)
        (W.contents writer.new.inner) result.0)) }
    ensures faults { let device = cell_parts.device in
        IfSome result.1 (λ after. HasAdded (D.faults device) (D.faults after)) }
    ensures device { let device = cell_parts.device in
        IfSome result.1 (λ after. StaysTrue (D.keeps device) (D.honest device)
        (D.keeps after) (D.honest after)) }
    ensures blames { BlamesFailed reader.new.has_failed writer.new.has_failed result.0 }
    ensures config { RunsBy (settings_of settings.now) workers.number result.0 result.1
        result.2 }
{
    match Session::<D, T, C, O, E, B>::new(alloc, settings, workers, cell_parts) {
        Ok(mut session) => {
            let outcome = session.run_lines(rt, source, reader, writer);
            let config = session.ended_config();
            (outcome, Some(session.into_device()), Some(config))
        }
        Err(_) => (Err(ScriptFault::Memory), None, None),
    }
}

impl<
    D: SwapDev + Drop + Send + 'static,
    T: Ledger + Send + 'static,
    C: Ledger + Send + 'static,
    O: Ledger + Send + 'static,
    E: Ledger + Send + 'static,
    B: CellAgreements + Send + 'static,
> Session<D, T, C, O, E, B> {
    /// Obeys the lines of a script that has made nothing yet, from the first to the last, and writes the replies.
    ///
    /// # Errors
    /// Those of `run_script`.
    fn run_lines<R: Read, W: Write, S: Source, X: Threads + Wait + Copy + Send + Sync + 'static>(
        &mut self,
        rt: X,
        source: &S,
        reader: &mut WatchedRead<R>,
        writer: &mut WatchedWrite<W>,
    ) -> Result<(), ScriptFault>
        ensures amid { (settings : lines.Settings) → RepresentsScript settings self.old.script_host
            empty_script → DeviceHoldsAmid D.honest D.faults self.old.script_host.host.device
            self.new.script_host.host.device (λ met. ScriptRunsAmid settings (S.files source.now)
            met (R.remaining reader.old.inner) (R.remaining reader.new.inner) (W.contents writer.old.inner)
            (W.contents writer.new.inner) result) }
        ensures faults { DeviceMayFail D.faults self.old.script_host.host.device
            self.new.script_host.host.device }
        ensures config { self.new.config ≡ self.old.config }
        ensures device { DeviceStaysTrue D.keeps D.honest self.old.script_host.host.device
            self.new.script_host.host.device }
        ensures blames { BlamesFailed reader.new.has_failed writer.new.has_failed result }
    {
        let mut lines = Lines::new(self.alloc)?;
        for number in 1..u64::MAX {
            match lines.read(reader)? {
                Line::End => {
                    self.text.clear();
                    self.drain(rt)?;
                    return send(writer, self.text.as_bytes());
                }
                kind => {
                    self.answer(rt, source, kind, lines.line(), number)?;
                    send(writer, self.text.as_bytes())?;
                }
            }
        }
        Err(ScriptFault::Memory)
    }
}
