// What one line gets.

ghost use Rattle.std.specs.Prelude.{◌≡◌, ◌⊎◌, ℕ, List, [], OnOk, IfErr, string_bytes};
ghost use Rattle.wh_script_model.specs.Answers.{Files};
ghost use Rattle.wh_commands.specs.ParsedCommands.{command_of, invoke_of};
ghost use Rattle.wh_engine.specs.Draining.{DeviceHoldsAmid, DeviceMayFail, DeviceStaysTrue, StopsOnlyOpen};
ghost use Rattle.wh_settings.specs.Hashing.{hashes_by};
ghost use Rattle.wh_settings.specs.View.{hashing_of};
ghost use Rattle.wh_script.specs.Answering.{AddsReportThen, Answers, AnswersCommand, HasOfferedThen, SaysMemoryRanOut};
ghost use Rattle.wh_script.specs.Coming.{IsKind};
ghost use Rattle.wh_script.specs.Speaking.{AsksReport, AsksScan};

use crate::files::Source;
use crate::line_error::LineError;
use crate::lines::Line;
use crate::session::Session;
use std::sync::Wait;
use std::sync::ledger::Ledger;
use std::thread::Threads;
use wh_cell::CellAgreements;
use wh_commands::{Command, InvokeCommand, ParsedLine, parse};
use wh_engine::RunFault;
use wh_swap::SwapDev;

impl<
    D: SwapDev + Drop + Send + 'static,
    T: Ledger + Send + 'static,
    C: Ledger + Send + 'static,
    O: Ledger + Send + 'static,
    E: Ledger + Send + 'static,
    B: CellAgreements + Send + 'static,
> Session<D, T, C, O, E, B> {
    /// Replaces the text by the replies to a line.
    ///
    /// # Errors
    /// `Memory` where room for it is refused, and `Transcript` where calls don't run to their ends.
    pub fn answer<S: Source, X: Threads + Wait + Copy + Send + Sync + 'static>(
        &mut self,
        rt: X,
        source: &S,
        kind: Line,
        held: &[u8],
        number: u64,
    ) -> Result<(), RunFault>
        ensures config { self.new.config ≡ self.old.config }
        ensures device { DeviceStaysTrue D.keeps D.honest self.old.script_host.host.device
            self.new.script_host.host.device }
        ensures faults { DeviceMayFail D.faults self.old.script_host.host.device
            self.new.script_host.host.device }
        ensures answers { OnOk result (DeviceHoldsAmid D.honest D.faults
            self.old.script_host.host.device self.new.script_host.host.device
            (λ met. (line : List ℕ) → IsKind kind held.now line → Answers (S.files source.now)
            number line self.old.script_host [] self.new.script_host (string_bytes self.new.text)
            met)) }
        // Where the line asks for a scan, all pages of the host were offered under the hash of the settings; where it asks for a
        // report, that of the host stands at the end of the text; but where memory ran out for the line.
        ensures scans { OnOk result ((line : List ℕ) → IsKind kind held.now line → AsksScan line
            → SaysMemoryRanOut number (string_bytes self.new.text) ⊎ HasOfferedThen
            (hashes_by (hashing_of self.old.config.hash)) self.new.script_host) }
        ensures shows { OnOk result ((line : List ℕ) → IsKind kind held.now line → AsksReport line
            → SaysMemoryRanOut number (string_bytes self.new.text) ⊎ AddsReportThen
            self.new.script_host (string_bytes self.new.text)) }
        ensures open { IfErr result (StopsOnlyOpen self.old.script_host) }
    {
        self.text.clear();
        match kind {
            Line::End | Line::Skipped => Ok(()),
            Line::TooLong => self.complain_drained(rt, LineError::Syntax, number),
            Line::Kept => match parse(self.alloc, held) {
                Ok(ParsedLine::Invoke(call)) => self.invoke(rt, &call, number),
                Ok(ParsedLine::Command(command)) => self.command(rt, source, command, number),
                Err(error) => self.complain_drained(rt, LineError::from(error), number),
            },
        }
    }

    /// Drains, and appends the reply to a command.
    ///
    /// # Errors
    /// As `answer`.
    fn command<S: Source, X: Threads + Wait + Copy + Send + Sync + 'static>(
        &mut self,
        rt: X,
        source: &S,
        command: Command<'_>,
        number: u64,
    ) -> Result<(), RunFault>
        ensures config { self.new.config ≡ self.old.config }
        ensures device { DeviceStaysTrue D.keeps D.honest self.old.script_host.host.device
            self.new.script_host.host.device }
        ensures faults { DeviceMayFail D.faults self.old.script_host.host.device
            self.new.script_host.host.device }
        ensures answers { OnOk result (DeviceHoldsAmid D.honest D.faults
            self.old.script_host.host.device self.new.script_host.host.device
            (AnswersCommand (S.files source.now) number (command_of command.entry)
            self.old.script_host (string_bytes self.old.text) self.new.script_host
            (string_bytes self.new.text))) }
        // After the drain, as `obey` has it.
        ensures scans { OnOk result (command.entry ≡ Command.Scan → HasOfferedThen
            (hashes_by (hashing_of self.old.config.hash)) self.new.script_host) }
        ensures shows { OnOk result (command.entry ≡ Command.Report → AddsReportThen
            self.new.script_host (string_bytes self.new.text)) }
        ensures open { IfErr result (StopsOnlyOpen self.old.script_host) }
    {
        self.drain(rt)?;
        self.obey(&rt, source, command, number)
    }

    /// Requests a call; its line is printed at the next drain. Where there is no instance of this name, or memory runs out,
    /// drains and says so.
    ///
    /// # Errors
    /// As `answer`.
    fn invoke<X: Threads + Wait + Copy + Send + Sync + 'static>(
        &mut self,
        rt: X,
        call: &InvokeCommand<'_>,
        number: u64,
    ) -> Result<(), RunFault>
        ensures config { self.new.config ≡ self.old.config }
        ensures device { DeviceStaysTrue D.keeps D.honest self.old.script_host.host.device
            self.new.script_host.host.device }
        ensures faults { DeviceMayFail D.faults self.old.script_host.host.device
            self.new.script_host.host.device }
        ensures answers { OnOk result (DeviceHoldsAmid D.honest D.faults
            self.old.script_host.host.device self.new.script_host.host.device
            (λ met. (files : Files) → AnswersCommand files number (invoke_of call.now)
            self.old.script_host (string_bytes self.old.text) self.new.script_host
            (string_bytes self.new.text) met)) }
        ensures open { IfErr result (StopsOnlyOpen self.old.script_host) }
    {
        let Some(instance) = self.script_host.instance_number(call.inst) else {
            return self.complain_drained(rt, LineError::NoName, number);
        };
        let asked = self
            .script_host
            .invoke(self.alloc, instance, call.export, call.fuel, &call.args);
        if asked.is_err() {
            return self.complain_drained(rt, LineError::Memory, number);
        }
        Ok(())
    }
}
