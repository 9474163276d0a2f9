// What a script asks of the present call of an instance.

ghost use Rattle.std.specs.Prelude.{◌≡◌, ℕ, List};
ghost use Rattle.wh_script_model.specs.Answers.{Files};
ghost use Rattle.wh_script_model.specs.ScriptState.{ScriptState};
ghost use Rattle.wh_script_model.specs.Settings.{Settings};
ghost use Rattle.wh_commands.specs.ParsedCommands.{action_of};
ghost use Rattle.wh_engine.specs.RepresentedScript.{RepresentsScript};
ghost use Rattle.wh_engine.specs.Obeying.{IsNamed, ObeysCommand, reply_to_action};

use crate::script_host::ScriptHost;
use std::sync::ledger::Ledger;
use wh_cell::CellAgreements;
use wh_commands::CallAction;
use wh_host::{Cancel, HostError, Refuel, Retry};
use wh_swap::SwapDev;

impl<D: SwapDev, T: Ledger, C: Ledger, O: Ledger, E: Ledger, B: CellAgreements> ScriptHost<
    D,
    T,
    C,
    O,
    E,
    B,
> {
    /// Acts on the present call of the instance of a number: gives it more fuel, ends it, or lets it try again.
    ///
    /// # Errors
    /// `NoInstance` where the instance was released; `NoCall` where no call is open, and for a retry where it isn't
    /// blocked on a device fault. Nothing is done then.
    pub fn ask(&mut self, number: usize, action: CallAction) -> Result<(), HostError>
        ensures obeys { (settings : Settings) (files : Files) (line : ℕ) (m : ScriptState)
            (name : List ℕ) → RepresentsScript settings self.old m → IsNamed m number name
            → ObeysCommand settings files m line (action_of name action)
            (reply_to_action name action result) self.new }
        ensures others { self.new ≡ record self.old { host = self.new.host } }
        ensures device { self.new.host.device ≡ self.old.host.device }
    {
        let Some(at) = self.kept_at(number) else {
            return Err(HostError::NoInstance);
        };
        let id = self.instances[at].id;
        self.awake.add(id);
        match action {
            CallAction::Refuel { fuel } => self.host.ask(Refuel { id, fuel }),
            CallAction::Cancel => self.host.ask(Cancel { id }),
            CallAction::Retry => self.host.ask(Retry { id }),
        }
    }
}
