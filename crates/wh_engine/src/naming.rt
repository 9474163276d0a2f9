// What the names of a script denote.

ghost use Rattle.std.specs.Prelude.{◌≡◌, ◌<◌, IfSome, MatchOption, length};
ghost use Rattle.wh_script_model.specs.ScriptState.{ScriptState, LacksInstance, NoModule};
ghost use Rattle.wh_script_model.specs.Settings.{Settings};
ghost use Rattle.wh_names.specs.NamePlaces.{place_of_name};
ghost use Rattle.wh_engine.specs.Obeying.{IsModuleNamed, IsNamed};
ghost use Rattle.wh_engine.specs.RepresentedScript.{RepresentsScript};

use crate::script_host::ScriptHost;
use std::sync::ledger::Ledger;
use wh_cell::CellAgreements;
use wh_swap::SwapDev;

impl<D: SwapDev, T: Ledger, C: Ledger, O: Ledger, E: Ledger, B: CellAgreements> ScriptHost<
    D,
    T,
    C,
    O,
    E,
    B,
> {
    /// Returns the number of the module `name`, if any.
    pub fn module_number(&self, name: &str) -> Option<usize>
        ensures number { result ≡ place_of_name self.now.module_names name.now }
        ensures there { IfSome result (λ k. k < length self.now.module_names) }
        ensures named { (settings : Settings) (m : ScriptState) → RepresentsScript settings self.now
            m → MatchOption result (NoModule m name.now) (λ k. IsModuleNamed m k name.now) }
    {
        self.module_names.place(name)
    }

    /// Returns the number of the instance `name`, if any, released or not.
    pub fn instance_number(&self, name: &str) -> Option<usize>
        ensures number { result ≡ place_of_name self.now.instance_names name.now }
        ensures there { IfSome result (λ k. k < length self.now.instance_names) }
        ensures named { (settings : Settings) (m : ScriptState) → RepresentsScript settings self.now
            m → MatchOption result (LacksInstance m name.now) (λ k. IsNamed m k name.now) }
    {
        self.instance_names.place(name)
    }
}
