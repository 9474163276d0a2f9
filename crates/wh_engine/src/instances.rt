// Instances that a script admits, calls and lets go.

ghost use Rattle.std.specs.Prelude.{◌≡◌, ◌<◌, ◌∷◌, ◌++◌, [], None, IfOk, OnErr, OnOk, length, vec_capacity, vec_len};
ghost use Rattle.wh_params.specs.View.{view_params};
ghost use Rattle.wh_script_model.specs.ScriptState.{ScriptState};
ghost use Rattle.wh_script_model.specs.Settings.{Settings};
ghost use Rattle.wh_replies.specs.View.{reply_of};
ghost use Rattle.wh_names.specs.NamePlaces.{place_of_name};
ghost use Rattle.wh_engine.specs.RepresentedScript.{RepresentsScript};
ghost use Rattle.wh_engine.specs.Obeying.{TakesInvoke, TakesInstance};

use crate::parts::{InvokeOutcome, Invoked, NamedInstance};
use crate::script_host::ScriptHost;
use std::alloc::{AllocError, Global};
use std::sync::ledger::Ledger;
use wh_cell::CellAgreements;
use wh_host::{Admit, HostError, Invoke, ModuleId, Params};
use wh_replies::Reply;
use wh_swap::SwapDev;

impl<D: SwapDev, T: Ledger, C: Ledger, O: Ledger, E: Ledger, B: CellAgreements> ScriptHost<
    D,
    T,
    C,
    O,
    E,
    B,
> {
    /// Admits an instance of the module of a number as `inst`, a free name. Returns the reply.
    ///
    /// # Errors
    /// A growth of memory for what is kept of it was refused. Nothing was done then.
    pub fn admit<'a>(
        &mut self,
        alloc: Global,
        inst: &'a str,
        of: usize,
        params: Params,
    ) -> Result<Reply<'a>, AllocError>
        requires free { place_of_name self.old.instance_names inst.now ≡ None }
        requires there { of < length self.old.module_names }
        ensures ok { IfOk result (λ reply. (settings : Settings) (m : ScriptState)
            → RepresentsScript settings self.old m → TakesInstance settings m inst.now of
            (view_params params) (reply_of reply) self.new) }
        ensures err { OnErr result (self.new ≡ self.old) }
        ensures device { self.new.host.device ≡ self.old.host.device }
        ensures threads { self.new.lacked_threads ≡ self.old.lacked_threads }
    {
        let name = String::from_str(alloc, inst)?;
        self.instances.reserve(1)?;
        self.instance_names.add(alloc, inst)?;
        let of = ModuleId { number: of };
        match self.host.ask(Admit { alloc, of, params }) {
            Ok(id) => {
                self.awake.add(id);
                let has_start = self.host.host().can_go_on(id);
                self.instances.push_reserved(NamedInstance {
                    name,
                    id,
                    has_start,
                    is_released: false,
                    last_printed: None,
                });
                Ok(Reply::AdmitOk {
                    inst,
                    number: id.number,
                })
            }
            Err(error) => {
                self.instance_names.remove_last();
                Ok(Reply::AdmitRefused {
                    inst,
                    fault: error.number(),
                })
            }
        }
    }

    /// Requests a call of the instance of a number. Its outcome is printed at the next drain.
    ///
    /// # Errors
    /// `AllocError` if the allocation for what is kept of it fails, or 2^64 - 1 calls were requested. Nothing was done
    /// then.
    pub fn invoke(
        &mut self,
        alloc: Global,
        number: usize,
        export: &str,
        fuel: u64,
        args: &[i128],
    ) -> Result<(), AllocError>
        requires there { number < length self.old.instance_names }
        ensures ok { OnOk result ((settings : Settings) (m : ScriptState) → RepresentsScript
            settings self.old m → TakesInvoke settings m number export.now fuel args.now self.new) }
        ensures err { OnErr result (self.new ≡ self.old) }
        ensures device { self.new.host.device ≡ self.old.host.device }
        ensures threads { self.new.lacked_threads ≡ self.old.lacked_threads }
    {
        let Some(asked) = self.asked.checked_add(1) else {
            return Err(AllocError);
        };
        self.invoked.reserve(1)?;
        self.asked = asked;
        let Some(at) = self.kept_at(number) else {
            let fault = HostError::NoInstance.number();
            note(&mut self.invoked, asked, InvokeOutcome::Rejected(fault));
            return Ok(());
        };
        let id = self.instances[at].id;
        self.awake.add(id);
        let invoke = Invoke {
            alloc,
            id,
            name: export,
            given: args,
            fuel,
        };
        let outcome = match self.host.ask(invoke) {
            Ok(place) => InvokeOutcome::Accepted {
                instance: number,
                place,
            },
            Err(error) => InvokeOutcome::Rejected(error.number()),
        };
        note(&mut self.invoked, asked, outcome);
        Ok(())
    }
}

// Keeps what came of the `invoke` of a number, which is the last one.
fn note(invoked: &mut Vec<Invoked>, number: u64, outcome: InvokeOutcome)
    requires room { vec_len invoked.old < vec_capacity invoked.old }
    ensures { invoked.new.items
        ≡ invoked.old.items ++ record { number = number; outcome = outcome; last_printed = None } ∷ [] }
{
    invoked.push_reserved(Invoked {
        number,
        outcome,
        last_printed: None,
    });
}
