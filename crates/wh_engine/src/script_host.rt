// The engine: what a script has made on a host.

ghost use Rattle.std.specs.Prelude.{◌≡◌, false};
ghost use Rattle.wh_space_model.specs.declared.Tax.{Tax};
ghost use Rattle.wh_script_model.specs.ScriptState.{empty_script};
ghost use Rattle.wh_script_model.specs.Settings.{Settings};
ghost use Rattle.wh_host.specs.Hosting.{IsNewHost};
ghost use Rattle.wh_engine.specs.RepresentedScript.{RepresentsScript};

use crate::asked_instances::AskedInstances;
use crate::parts::{Invoked, NamedInstance};
use std::alloc::Global;
use std::marker::Model;
use std::sync::ledger::Ledger;
use wh_cell::CellAgreements;
use wh_names::Names;
use wh_scheduler::OwnedHost;
use wh_swap::SwapDev;

/// Represents what a script has made, as far as lines to come depend on it, and owns the host on which it has.
pub struct ScriptHost<D: SwapDev, T: Ledger, C: Ledger, O: Ledger, E: Ledger, B: CellAgreements> {
    pub(crate) host: OwnedHost<D, T, C, O, E, B>,
    pub(crate) module_names: Names,
    pub(crate) instance_names: Names,
    // Those that live, or whose start has a line to come, by their numbers.
    pub(crate) instances: Vec<NamedInstance>,
    // The calls that weren't said to have ended, by the numbers of their `invoke`s.
    pub(crate) invoked: Vec<Invoked>,
    // How many `invoke`s have a number.
    pub(crate) asked: u64,
    pub(crate) awake: AskedInstances,
    // Whether a thread was refused, and the calling thread has done what others should have.
    pub(crate) lacked_threads: bool,
}

impl<D: SwapDev + Drop, T: Ledger, C: Ledger, O: Ledger, E: Ledger, B: CellAgreements> Drop
    for ScriptHost<D, T, C, O, E, B> {
    fn drop(self) {
        let ScriptHost {
            host: _,
            module_names: _,
            instance_names: _,
            instances: _,
            invoked: _,
            asked: _,
            awake: _,
            lacked_threads: _,
        } = self;
    }
}

impl<D: SwapDev, T: Ledger, C: Ledger, O: Ledger, E: Ledger, B: CellAgreements> Model
    for ScriptHost<D, T, C, O, E, B> {
    ghost use Rattle.wh_engine.specs.RepresentedScript.{ScriptHostState};

    ghost Value = { ScriptHostState D };

    ghost use Rattle.wh_engine.specs.Stored.{stored_script_host};

    ghost coded = { stored_script_host D.code };

    ghost view = { λ s. record {
      host = s.host;
      module_names = s.module_names;
      instance_names = s.instance_names;
      instances = s.instances.items;
      invoked = s.invoked.items;
      asked = s.asked;
      lacked_threads = s.lacked_threads;
    } };
}

impl<D: SwapDev, T: Ledger, C: Ledger, O: Ledger, E: Ledger, B: CellAgreements> ScriptHost<
    D,
    T,
    C,
    O,
    E,
    B,
> {
    /// Creates an empty script, on any new host with the frames, slots and tax of the settings.
    pub fn new(alloc: Global, host: OwnedHost<D, T, C, O, E, B>) -> ScriptHost<D, T, C, O, E, B>
        ensures stands { (settings : Settings) (tax : Tax) → tax.num ≡ settings.num
            → tax.den ≡ settings.den → IsNewHost host.host settings.frames settings.slots tax
            → RepresentsScript settings result empty_script }
        ensures host { result.host ≡ host }
        ensures threads { result.lacked_threads ≡ false }
    {
        ScriptHost {
            host,
            module_names: Names::new(alloc),
            instance_names: Names::new(alloc),
            instances: Vec::new(alloc),
            invoked: Vec::new(alloc),
            asked: 0,
            awake: AskedInstances::new(alloc),
            lacked_threads: false,
        }
    }

    /// Returns the host.
    pub fn host(&self) -> &OwnedHost<D, T, C, O, E, B>
        ensures { result.now ≡ self.now.host }
    {
        &self.host
    }

    /// Tells whether a thread was refused so far, so that the calling thread has done what others should have.
    pub fn lacked_threads(&self) -> bool
        ensures { result ≡ self.now.lacked_threads }
    {
        self.lacked_threads
    }
}

impl<D: SwapDev + Drop, T: Ledger, C: Ledger, O: Ledger, E: Ledger, B: CellAgreements> ScriptHost<
    D,
    T,
    C,
    O,
    E,
    B,
> {
    /// Returns the host, when the script is done.
    pub fn into_host(self) -> OwnedHost<D, T, C, O, E, B>
        ensures { result ≡ self.host }
    {
        let ScriptHost {
            host,
            module_names: _,
            instance_names: _,
            instances: _,
            invoked: _,
            asked: _,
            awake: _,
            lacked_threads: _,
        } = self;
        host
    }
}
