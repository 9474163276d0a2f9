// What a script runs on, and the text of the replies to one line.

ghost use Rattle.std.specs.Prelude.{◌≡◌, ◌⊎◌, ◌≤◌, ◌++◌, ◌∷◌, [], IfOk, IfErr, IfSome, OnOk, MatchOption, Some, string_bytes};
ghost use Rattle.wh_cell.specs.Ledgers.{HasLedgers};
ghost use Rattle.wh_script_model.specs.ScriptState.{ScriptState, LacksInstance, NoModule, empty_script};
ghost use Rattle.wh_script_model.specs.Settings as lines;
ghost use Rattle.wh_script_model.specs.Texts.{error, reply_text};
ghost use Rattle.wh_replies.specs.View.{reply_of};
ghost use Rattle.wh_settings.specs.View.{settings_of};
ghost use Rattle.wh_engine.specs.Draining.{AllRest, DeviceHoldsAmid, DeviceMayFail, DeviceStaysTrue, RunsEach, RunsTurns, StopsOnlyOpen, WasOpen};
ghost use Rattle.wh_engine.specs.Obeying.{IsModuleNamed, IsNamed};
ghost use Rattle.wh_engine.specs.RepresentedScript.{RepresentsScript};
ghost use Rattle.wh_script.specs.Answering.{HasDrained, Complains, EndsSaying};
ghost use Rattle.wh_script.specs.Causes.{cause_number};
ghost use Rattle.wh_script.specs.Starting.{IsEmptyDevice};

use crate::line_error::LineError;
use std::alloc::{AllocError, Global};
use std::sync::Wait;
use std::sync::ledger::Ledger;
use std::thread::Threads;
use wh_cell::{CellAgreements, CellParts};
use wh_engine::{RunFault, ScriptHost};
use wh_host::Host;
use wh_replies::{Reply, write_reply};
use wh_scheduler::{OwnedHost, RunConfig};
use wh_settings::{HashKind, Settings, Workers};
use wh_swap::SwapDev;

const LONGEST_REPLY: usize = 128;

/// How the calls of a script are run: the same from its first line to its last.
#[derive(Clone, Copy, Debug)]
pub struct SessionConfig {
    // The greatest number of charges of a turn.
    pub(crate) quantum: u32,
    // By which hash equal pages are looked for.
    pub(crate) hash: HashKind,
    // How many threads run calls.
    pub(crate) workers: Workers,
    // Whether a thread was refused, so that the calling thread has done what others should have: known where the script has ended.
    pub(crate) lacked_threads: bool,
}

impl SessionConfig {
    /// Tells of a script that has ended whether a thread was refused: then the calling thread has done what others should have.
    pub fn lacked_threads(&self) -> bool
        ensures { result ≡ self.now.lacked_threads }
    {
        self.lacked_threads
    }
}

/// What a script has made so far, with the host on which it runs, and the text of the replies to the present line.
pub struct Session<D: SwapDev, T: Ledger, C: Ledger, O: Ledger, E: Ledger, B: CellAgreements> {
    pub alloc: Global,
    pub script_host: ScriptHost<D, T, C, O, E, B>,
    pub text: String,
    pub config: SessionConfig,
}

impl<D: SwapDev + Drop, T: Ledger, C: Ledger, O: Ledger, E: Ledger, B: CellAgreements> Drop
    for Session<D, T, C, O, E, B> {
    fn drop(self) {
        let Session {
            alloc: _,
            script_host: _,
            text: _,
            config: _,
        } = self;
    }
}

impl<D: SwapDev + Drop, T: Ledger, C: Ledger, O: Ledger, E: Ledger, B: CellAgreements> Session<
    D,
    T,
    C,
    O,
    E,
    B,
> {
    /// Returns an empty script on a new host.
    ///
    /// # Errors
    /// Room is refused. The device is gone then.
    pub fn new(
        alloc: Global,
        settings: &Settings,
        workers: Workers,
        cell_parts: CellParts<D>,
    ) -> Result<Session<D, T, C, O, E, B>, AllocError>
        requires empty { IsEmptyDevice settings.now.slots (D.held cell_parts.device) }
        requires owned { cell_parts.to_owner ≡ B.to_owner }
        requires backed { cell_parts.to_device ≡ B.to_device }
        requires ledgers { HasLedgers T.Ledger C.Ledger O.Ledger E.Ledger cell_parts }
        ensures stands { IfOk result (λ session. RepresentsScript (settings_of settings.now)
            session.script_host empty_script) }
        ensures device { IfOk result (λ session. session.script_host.host.device ≡ Some
            cell_parts.device) }
        ensures config { IfOk result (λ session. (session.config.quantum ≡ settings.now.quantum)
            × (session.config.hash ≡ settings.now.hash) × (session.config.workers ≡ workers)) }
    {
        let Ok(host) = Host::new(alloc, settings.frames, settings.slots, settings.tax) else {
            return Err(AllocError);
        };
        let Ok(host) = OwnedHost::new(alloc, host, cell_parts) else {
            return Err(AllocError);
        };
        let Ok(text) = String::with_capacity(alloc, LONGEST_REPLY) else {
            return Err(AllocError);
        };
        Ok(Session {
            alloc,
            script_host: ScriptHost::new(alloc, host),
            text,
            config: SessionConfig {
                quantum: settings.quantum as u32,
                hash: settings.hash,
                workers,
                lacked_threads: false,
            },
        })
    }

    /// Returns the device, when the script is done.
    pub fn into_device(self) -> D
        ensures { self.script_host.host.device ≡ Some result }
    {
        let Session {
            alloc: _,
            script_host,
            text: _,
            config: _,
        } = self;
        script_host.into_host().into_device()
    }
}

impl<D: SwapDev, T: Ledger, C: Ledger, O: Ledger, E: Ledger, B: CellAgreements> Session<
    D,
    T,
    C,
    O,
    E,
    B,
> {
    /// Returns how the calls of a script that has ended were run, and whether a thread was refused.
    pub fn ended_config(&self) -> SessionConfig
        ensures { result ≡ record self.now.config {
          lacked_threads = self.now.script_host.lacked_threads;
        } }
    {
        SessionConfig {
            quantum: self.config.quantum,
            hash: self.config.hash,
            workers: self.config.workers,
            lacked_threads: self.script_host.lacked_threads(),
        }
    }

    // How calls are run: in turns of the session's quantum, by its workers, with its hash.
    fn run_config(&self) -> RunConfig<HashKind>
        ensures quantum { result.quantum ≡ self.now.config.quantum }
        ensures workers { result.workers ≡ self.now.config.workers.number }
        ensures hasher { result.hasher ≡ self.now.config.hash }
        ensures few { result.workers ≤ 64 }
    {
        RunConfig {
            hasher: self.config.hash,
            quantum: self.config.quantum,
            workers: self.config.workers.count(),
        }
    }

    /// Appends a reply.
    ///
    /// # Errors
    /// `Memory` where room for it is refused.
    pub fn reply(&mut self, reply: Reply<'_>) -> Result<(), RunFault>
        ensures printed { OnOk result (string_bytes self.new.text
            ≡ string_bytes self.old.text ++ reply_text (reply_of reply.entry)) }
        ensures script_host { self.new.script_host ≡ self.old.script_host }
        ensures config { self.new.config ≡ self.old.config }
        ensures device { self.new.script_host.host.device ≡ self.old.script_host.host.device }
        ensures err { IfErr result (λ e. e ≡ RunFault.Memory) }
    {
        write_reply(&mut self.text, reply).map_err(|_| RunFault::Memory)
    }

    /// Appends why the line `number` can't be obeyed.
    ///
    /// # Errors
    /// `Memory` where room for it is refused.
    pub fn complain(&mut self, cause: LineError, number: u64) -> Result<(), RunFault>
        ensures printed { OnOk result (string_bytes self.new.text
            ≡ string_bytes self.old.text ++ reply_text (error (cause_number cause) number)) }
        ensures script_host { self.new.script_host ≡ self.old.script_host }
        ensures config { self.new.config ≡ self.old.config }
        ensures device { self.new.script_host.host.device ≡ self.old.script_host.host.device }
        ensures err { IfErr result (λ e. e ≡ RunFault.Memory) }
    {
        self.reply(Reply::Error {
            cause: cause.number(),
            line: number,
        })
    }
}

impl<
    D: SwapDev + Drop + Send + 'static,
    T: Ledger + Send + 'static,
    C: Ledger + Send + 'static,
    O: Ledger + Send + 'static,
    E: Ledger + Send + 'static,
    B: CellAgreements + Send + 'static,
> Session<D, T, C, O, E, B> {
    /// Runs all calls until none can make progress, in turns of the quantum, and appends the lines of that. Begins an
    /// epoch if some call can make progress.
    ///
    /// # Errors
    /// `Memory` if an allocation fails, and `Transcript` if calls can still make progress then.
    pub fn drain<X: Threads + Wait + Copy + Send + Sync + 'static>(
        &mut self,
        rt: X,
    ) -> Result<(), RunFault>
        ensures config { self.new.config ≡ self.old.config }
        ensures device { DeviceStaysTrue D.keeps D.honest self.old.script_host.host.device
            self.new.script_host.host.device }
        ensures faults { DeviceMayFail D.faults self.old.script_host.host.device
            self.new.script_host.host.device }
        ensures drains { OnOk result (DeviceHoldsAmid D.honest D.faults
            self.old.script_host.host.device self.new.script_host.host.device
            (HasDrained self.old.script_host (string_bytes self.old.text) self.new.script_host
            (string_bytes self.new.text))) }
        ensures turns { OnOk result (RunsTurns self.old.config.quantum
            self.new.script_host.lacked_threads self.old.script_host.host.books self.old.script_host.host.own
            self.new.script_host.host.books self.new.script_host.host.own) }
        ensures open { IfErr result (StopsOnlyOpen self.old.script_host) }
    {
        self.run(rt)?;
        self.script_host.print(&mut self.text)
    }

    // Runs all calls, in the manner of the settings, until none can go on.
    fn run<X: Threads + Wait + Copy + Send + Sync + 'static>(
        &mut self,
        rt: X,
    ) -> Result<(), RunFault>
        ensures config { self.new.config ≡ self.old.config }
        ensures device { DeviceStaysTrue D.keeps D.honest self.old.script_host.host.device
            self.new.script_host.host.device }
        ensures faults { DeviceMayFail D.faults self.old.script_host.host.device
            self.new.script_host.host.device }
        ensures runs { OnOk result (AllRest self.new.script_host.host.host
            self.new.script_host.instances → DeviceHoldsAmid D.honest D.faults
            self.old.script_host.host.device self.new.script_host.host.device
            (RunsEach self.old.script_host self.new.script_host)) }
        ensures begins { (self.new.script_host ≡ self.old.script_host)
            ⊎ WasOpen self.old.script_host }
        ensures turns { OnOk result (RunsTurns self.old.config.quantum
            self.new.script_host.lacked_threads self.old.script_host.host.books self.old.script_host.host.own
            self.new.script_host.host.books self.new.script_host.host.own) }
        ensures text { self.new.text ≡ self.old.text }
        ensures err { IfErr result (λ e. e ≡ RunFault.Memory) }
    {
        let run_config = self.run_config();
        self.script_host.run(rt, self.alloc, run_config)
    }

    /// Drains, and then appends why the line `number` can't be obeyed.
    ///
    /// # Errors
    /// Those of `drain`.
    pub fn complain_drained<X: Threads + Wait + Copy + Send + Sync + 'static>(
        &mut self,
        rt: X,
        cause: LineError,
        number: u64,
    ) -> Result<(), RunFault>
        ensures config { self.new.config ≡ self.old.config }
        ensures device { DeviceStaysTrue D.keeps D.honest self.old.script_host.host.device
            self.new.script_host.host.device }
        ensures faults { DeviceMayFail D.faults self.old.script_host.host.device
            self.new.script_host.host.device }
        ensures complains { OnOk result (DeviceHoldsAmid D.honest D.faults
            self.old.script_host.host.device self.new.script_host.host.device
            (Complains (error (cause_number cause) number) self.old.script_host
            (string_bytes self.old.text) self.new.script_host (string_bytes self.new.text))) }
        ensures says { OnOk result (EndsSaying (error (cause_number cause) number)
            (string_bytes self.new.text)) }
        ensures open { IfErr result (StopsOnlyOpen self.old.script_host) }
    {
        self.drain(rt)?;
        self.complain(cause, number)
    }
}
