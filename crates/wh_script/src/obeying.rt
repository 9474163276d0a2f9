// What a command gets, once all calls have run.

ghost use Rattle.std.specs.Prelude.{◌≡◌, ◌++◌, ℕ, List, None, OnOk, IfErr, string_bytes};
ghost use Rattle.wh_script_model.specs.Answers.{BringsBytes, Files, NamesModule};
ghost use Rattle.wh_script_model.specs.Commands as asked_of;
ghost use Rattle.wh_script_model.specs.Texts.{release_ok, reply_text};
ghost use Rattle.wh_commands.specs.ParsedCommands.{action_of, command_of};
ghost use Rattle.wh_params.specs.View.{view_params};
ghost use Rattle.wh_replies.specs.View.{reply_of};
ghost use Rattle.wh_engine.specs.Draining.{StaysSo};
ghost use Rattle.wh_engine.specs.Obeying.{reply_to_action};
ghost use Rattle.wh_names.specs.NamePlaces.{place_of_name};
ghost use Rattle.wh_settings.specs.Hashing.{hashes_by};
ghost use Rattle.wh_settings.specs.View.{hashing_of};
ghost use Rattle.wh_script.specs.Answering.{AddsReport, HasOffered, Obeys};

use crate::files::{FileError, Source};
use crate::line_error::LineError;
use crate::session::Session;
use std::sync::Wait;
use std::sync::ledger::Ledger;
use std::thread::Threads;
use wh_cell::CellAgreements;
use wh_commands::{CallAction, Command};
use wh_engine::RunFault;
use wh_host::HostError;
use wh_params::Params;
use wh_replies::{Reply, write_released, write_report};
use wh_swap::SwapDev;

impl<
    D: SwapDev + Drop + Send + 'static,
    T: Ledger + Send + 'static,
    C: Ledger + Send + 'static,
    O: Ledger + Send + 'static,
    E: Ledger + Send + 'static,
    B: CellAgreements + Send + 'static,
> Session<D, T, C, O, E, B> {
    /// Appends the reply to a command.
    ///
    /// # Errors
    /// `Memory` where room for the reply is refused.
    pub fn obey<S: Source, X: Threads + Wait + Copy + Send + 'static>(
        &mut self,
        rt: &X,
        source: &S,
        command: Command<'_>,
        number: u64,
    ) -> Result<(), RunFault>
        ensures obeys { OnOk result (Obeys (S.files source.now) number (command_of command.entry)
            self.old.script_host (string_bytes self.old.text) self.new.script_host
            (string_bytes self.new.text)) }
        // A scan offers all pages of the host under the hash of the settings, and a report is that of the host.
        ensures scans { OnOk result (command.entry ≡ Command.Scan → HasOffered
            (hashes_by (hashing_of self.old.config.hash)) self.old.script_host
            self.new.script_host) }
        ensures shows { OnOk result (command.entry ≡ Command.Report → AddsReport
            self.new.script_host (string_bytes self.old.text) (string_bytes self.new.text)) }
        ensures config { self.new.config ≡ self.old.config }
        ensures device { self.new.script_host.host.device ≡ self.old.script_host.host.device }
        ensures err { IfErr result (λ e. e ≡ RunFault.Memory) }
    {
        match command {
            Command::Module { name, bytes } => self.module(name, &bytes, number),
            Command::Load { name, path } => self.load(source, name, path, number),
            Command::Admit {
                inst,
                module,
                given,
            } => self.admit(inst, module, given, number),
            Command::Drain => Ok(()),
            Command::Act { inst, action } => self.act(inst, action, number),
            Command::Scan => self.scan(rt),
            Command::Report => self.report(),
            Command::Release { inst } => self.release(inst, number),
        }
    }

    /// `module NAME HEX`.
    fn module(&mut self, name: &str, bytes: &[u8], number: u64) -> Result<(), RunFault>
        ensures obeys { OnOk result ((files : Files) → Obeys files number
            (asked_of.keep name.now bytes.now) self.old.script_host (string_bytes self.old.text)
            self.new.script_host (string_bytes self.new.text)) }
        ensures config { self.new.config ≡ self.old.config }
        ensures device { self.new.script_host.host.device ≡ self.old.script_host.host.device }
        ensures err { IfErr result (λ e. e ≡ RunFault.Memory) }
    {
        if self.script_host.module_number(name).is_some() {
            return self.complain(LineError::NameTaken, number);
        }
        self.keep(name, bytes, number)
    }

    /// `load NAME PATH`.
    fn load<S: Source>(
        &mut self,
        source: &S,
        name: &str,
        path: &str,
        number: u64,
    ) -> Result<(), RunFault>
        ensures obeys { OnOk result (Obeys (S.files source.now) number
            (asked_of.load name.now path.now) self.old.script_host (string_bytes self.old.text)
            self.new.script_host (string_bytes self.new.text)) }
        ensures config { self.new.config ≡ self.old.config }
        ensures device { self.new.script_host.host.device ≡ self.old.script_host.host.device }
        ensures err { IfErr result (λ e. e ≡ RunFault.Memory) }
    {
        if self.script_host.module_number(name).is_some() {
            return self.complain(LineError::NameTaken, number);
        }
        match source.read(self.alloc, path) {
            Ok(bytes) => self.keep(name, &bytes, number),
            Err(FileError::Unreadable) => self.complain(LineError::File, number),
            Err(FileError::Memory) => self.complain(LineError::Memory, number),
        }
    }

    /// Keeps the module of `bytes` as `name`, which is free.
    fn keep(&mut self, name: &str, bytes: &[u8], number: u64) -> Result<(), RunFault>
        requires free { place_of_name self.old.script_host.module_names name.now ≡ None }
        ensures obeys { OnOk result ((files : Files) (asked : asked_of.Command) → NamesModule asked
            name.now → BringsBytes files asked bytes.now → Obeys files number asked
            self.old.script_host (string_bytes self.old.text) self.new.script_host
            (string_bytes self.new.text)) }
        ensures config { self.new.config ≡ self.old.config }
        ensures device { self.new.script_host.host.device ≡ self.old.script_host.host.device }
        ensures err { IfErr result (λ e. e ≡ RunFault.Memory) }
    {
        match self.script_host.keep(self.alloc, name, bytes) {
            Ok(reply) => self.reply(reply),
            Err(_) => self.complain(LineError::Memory, number),
        }
    }

    /// `admit INST MODULE SHARES MIN MAX FUEL BASE SALT [INPUT ..]`.
    fn admit(&mut self, inst: &str, name: &str, given: Params, number: u64) -> Result<(), RunFault>
        ensures obeys { OnOk result ((files : Files) → Obeys files number
            (asked_of.admit inst.now name.now (view_params given)) self.old.script_host
            (string_bytes self.old.text) self.new.script_host (string_bytes self.new.text)) }
        ensures config { self.new.config ≡ self.old.config }
        ensures device { self.new.script_host.host.device ≡ self.old.script_host.host.device }
        ensures err { IfErr result (λ e. e ≡ RunFault.Memory) }
    {
        let Some(of) = self.script_host.module_number(name) else {
            return self.complain(LineError::NoName, number);
        };
        if self.script_host.instance_number(inst).is_some() {
            return self.complain(LineError::NameTaken, number);
        }
        match self.script_host.admit(self.alloc, inst, of, given) {
            Ok(reply) => self.reply(reply),
            Err(_) => self.complain(LineError::Memory, number),
        }
    }

    /// `refuel INST N`, `cancel INST` and `retry INST`.
    fn act(&mut self, inst: &str, action: CallAction, number: u64) -> Result<(), RunFault>
        ensures obeys { OnOk result ((files : Files) → Obeys files number
            (action_of inst.now action) self.old.script_host (string_bytes self.old.text)
            self.new.script_host (string_bytes self.new.text)) }
        ensures config { self.new.config ≡ self.old.config }
        ensures device { self.new.script_host.host.device ≡ self.old.script_host.host.device }
        ensures err { IfErr result (λ e. e ≡ RunFault.Memory) }
    {
        let Some(instance) = self.script_host.instance_number(inst) else {
            return self.complain(LineError::NoName, number);
        };
        let answer = self.script_host.ask(instance, action);
        self.reply(reply_to(inst, action, answer))
    }

    /// `scan`.
    fn scan<X: Threads + Wait + Copy + Send + 'static>(&mut self, rt: &X) -> Result<(), RunFault>
        ensures obeys { OnOk result ((files : Files) (number : ℕ) → Obeys files number asked_of.scan
            self.old.script_host (string_bytes self.old.text) self.new.script_host
            (string_bytes self.new.text)) }
        ensures scans { OnOk result (HasOffered (hashes_by (hashing_of self.old.config.hash))
            self.old.script_host self.new.script_host) }
        ensures config { self.new.config ≡ self.old.config }
        ensures device { self.new.script_host.host.device ≡ self.old.script_host.host.device }
        ensures err { IfErr result (λ e. e ≡ RunFault.Memory) }
    {
        self.offer_pages(rt);
        self.reply(Reply::ScanOk)
    }

    // Offers all pages for sharing, each under its hash, which is that of the settings.
    fn offer_pages<X: Threads + Wait + Copy + Send + 'static>(&mut self, rt: &X)
        ensures stands { StaysSo self.old.script_host self.new.script_host }
        ensures scans { HasOffered (hashes_by (hashing_of self.old.config.hash))
            self.old.script_host self.new.script_host }
        ensures config { self.new.config ≡ self.old.config }
        ensures device { self.new.script_host.host.device ≡ self.old.script_host.host.device }
        ensures text { self.new.text ≡ self.old.text }
    {
        self.script_host.scan(rt, self.alloc, self.config.hash);
    }

    /// `report`.
    fn report(&mut self) -> Result<(), RunFault>
        ensures obeys { OnOk result ((files : Files) (number : ℕ) → Obeys files number
            asked_of.report self.old.script_host (string_bytes self.old.text) self.new.script_host
            (string_bytes self.new.text)) }
        ensures shows { OnOk result (AddsReport self.new.script_host (string_bytes self.old.text)
            (string_bytes self.new.text)) }
        ensures config { self.new.config ≡ self.old.config }
        ensures device { self.new.script_host.host.device ≡ self.old.script_host.host.device }
        ensures err { IfErr result (λ e. e ≡ RunFault.Memory) }
    {
        let Ok(report) = self.script_host.host().host().report(self.alloc) else {
            return Err(RunFault::Memory);
        };
        let Ok(()) = write_report(&mut self.text, &report) else {
            return Err(RunFault::Memory);
        };
        Ok(())
    }

    /// `release INST`.
    fn release(&mut self, inst: &str, number: u64) -> Result<(), RunFault>
        ensures obeys { OnOk result ((files : Files) → Obeys files number
            (asked_of.release inst.now) self.old.script_host (string_bytes self.old.text)
            self.new.script_host (string_bytes self.new.text)) }
        ensures config { self.new.config ≡ self.old.config }
        ensures device { self.new.script_host.host.device ≡ self.old.script_host.host.device }
        ensures err { IfErr result (λ e. e ≡ RunFault.Memory) }
    {
        let Some(instance) = self.script_host.instance_number(inst) else {
            return self.complain(LineError::NoName, number);
        };
        match self.script_host.release(self.alloc, instance) {
            Ok(output) => self.print_released(inst, &output),
            Err(error) => self.reply(Reply::ReleaseRefused {
                inst,
                fault: error.number(),
            }),
        }
    }

    /// Appends the reply to a release.
    fn print_released(&mut self, inst: &str, output: &[u8]) -> Result<(), RunFault>
        ensures printed { OnOk result (string_bytes self.new.text
            ≡ string_bytes self.old.text ++ reply_text (release_ok inst.now output.now)) }
        ensures script_host { self.new.script_host ≡ self.old.script_host }
        ensures config { self.new.config ≡ self.old.config }
        ensures device { self.new.script_host.host.device ≡ self.old.script_host.host.device }
        ensures err { IfErr result (λ e. e ≡ RunFault.Memory) }
    {
        write_released(self.alloc, &mut self.text, inst, output).map_err(|_| RunFault::Memory)
    }
}

// The reply to what was asked of the present call of `inst`.
fn reply_to<'a>(inst: &'a str, action: CallAction, answer: Result<(), HostError>) -> Reply<'a>
    ensures { reply_of result ≡ reply_to_action inst.now action answer }
{
    match answer {
        Ok(()) => match action {
            CallAction::Refuel { .. } => Reply::RefuelOk { inst },
            CallAction::Cancel => Reply::CancelOk { inst },
            CallAction::Retry => Reply::RetryOk { inst },
        },
        Err(error) => {
            let fault = error.number();
            match action {
                CallAction::Refuel { .. } => Reply::RefuelRefused { inst, fault },
                CallAction::Cancel => Reply::CancelRefused { inst, fault },
                CallAction::Retry => Reply::RetryRefused { inst, fault },
            }
        }
    }
}
