// Instances that a script lets go.

ghost use Rattle.std.specs.Prelude.{◌≡◌, ◌∷◌, ℕ, [], List};
ghost use Rattle.wh_script_model.specs.Answers.{Files};
ghost use Rattle.wh_script_model.specs.Commands.{release};
ghost use Rattle.wh_script_model.specs.ScriptState.{ScriptState};
ghost use Rattle.wh_script_model.specs.Settings.{Settings};
ghost use Rattle.wh_engine.specs.RepresentedScript.{RepresentsScript};
ghost use Rattle.wh_engine.specs.Obeying.{IsNamed, ObeysCommand, reply_to_release};

use crate::script_host::ScriptHost;
use std::alloc::Global;
use std::sync::ledger::Ledger;
use wh_cell::CellAgreements;
use wh_host::{HostError, Release};
use wh_swap::SwapDev;

impl<D: SwapDev, T: Ledger, C: Ledger, O: Ledger, E: Ledger, B: CellAgreements> ScriptHost<
    D,
    T,
    C,
    O,
    E,
    B,
> {
    /// Releases the instance of a number. Returns its output.
    ///
    /// # Errors
    /// `NoInstance` where it was released before. Nothing is done then.
    pub fn release(&mut self, alloc: Global, number: usize) -> Result<Vec<u8>, HostError>
        ensures obeys { (settings : Settings) (files : Files) (line : ℕ) (m : ScriptState)
            (name : List ℕ) → RepresentsScript settings self.old m → IsNamed m number name
            → ObeysCommand settings files m line (release name) (reply_to_release name result)
            self.new }
        ensures device { self.new.host.device ≡ self.old.host.device }
        ensures threads { self.new.lacked_threads ≡ self.old.lacked_threads }
    {
        let Some(at) = self.kept_at(number) else {
            return Err(HostError::NoInstance);
        };
        let id = self.instances[at].id;
        let output = match self.host.ask(Release { alloc, id }) {
            Ok(output) => output,
            Err(error) => return Err(error),
        };
        self.instances[at].is_released = true;
        Ok(output)
    }
}
