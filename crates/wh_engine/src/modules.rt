// Modules that a script brings.

ghost use Rattle.std.specs.Prelude.{◌≡◌, ◌<◌, ◌^◌, ℕ, List, Err, None, IfOk, OnErr};
ghost use Rattle.wh_host_model.specs.Host.Happens.{LoadAnswer};
ghost use Rattle.wh_script_model.specs.Texts.{module_refused};
ghost use Rattle.wh_script_model.specs.ScriptState.{ScriptState};
ghost use Rattle.wh_script_model.specs.Settings.{Settings};
ghost use Rattle.wh_host.specs.Loading.{IsLoadAnswer};
ghost use Rattle.wh_replies.specs.View.{reply_of, why_of};
ghost use Rattle.wh_script_laws.specs.Replies.{SaysModule};
ghost use Rattle.wh_names.specs.NamePlaces.{place_of_name};
ghost use Rattle.wh_engine.specs.RepresentedScript.{RepresentsScript};
ghost use Rattle.wh_engine.specs.Obeying.{TakesModule};

use crate::script_host::ScriptHost;
use std::alloc::{AllocError, Global};
use std::sync::ledger::Ledger;
use wh_cell::CellAgreements;
use wh_host::{Load, ModuleError};
use wh_imports::LinkError;
use wh_load::LoadError;
use wh_replies::{FaultPlace, ModuleRefusal, Reply};
use wh_swap::SwapDev;

// Why bytes aren't kept, as replies say it.
fn refusal_of(error: ModuleError) -> ModuleRefusal
    ensures { (name : List ℕ) (answer : LoadAnswer) → IsLoadAnswer (Err error) answer
        → SaysModule name answer (module_refused name (why_of result)) }
{
    match error {
        ModuleError::Bytes(LoadError::Decode(fault)) => ModuleRefusal::Broken {
            kind: fault.kind.number(),
            offset: fault.offset,
        },
        ModuleError::Bytes(LoadError::Valid(fault)) => {
            let place = match fault.func {
                Some(func) => FaultPlace::Instr {
                    func,
                    instr: fault.instr,
                },
                None => FaultPlace::Module,
            };
            ModuleRefusal::Invalid {
                kind: fault.kind.number(),
                place,
            }
        }
        ModuleError::Bytes(LoadError::Link(LinkError::NoItem(fault, at))) =>
            ModuleRefusal::Unlinked {
                kind: fault.number(),
                import: at,
            },
        ModuleError::Bytes(LoadError::Link(LinkError::Memory)) => ModuleRefusal::NoLinkMemory,
        ModuleError::ModulesFull => ModuleRefusal::ModulesFull,
        ModuleError::Memory => ModuleRefusal::NoRoom,
    }
}

impl<D: SwapDev, T: Ledger, C: Ledger, O: Ledger, E: Ledger, B: CellAgreements> ScriptHost<
    D,
    T,
    C,
    O,
    E,
    B,
> {
    /// Keeps the module that `bytes` spell as `name`, which is free. Returns the reply.
    ///
    /// # Errors
    /// A growth of memory for the name was refused. Nothing was done then.
    pub fn keep<'a>(
        &mut self,
        alloc: Global,
        name: &'a str,
        bytes: &[u8],
    ) -> Result<Reply<'a>, AllocError>
        requires free { place_of_name self.old.module_names name.now ≡ None }
        ensures ok { IfOk result (λ reply. (settings : Settings) (m : ScriptState)
            → RepresentsScript settings self.old m → TakesModule settings m name.now bytes.now
            (reply_of reply) self.new) }
        ensures err { OnErr result (self.new ≡ self.old) }
        ensures device { self.new.host.device ≡ self.old.host.device }
        ensures threads { self.new.lacked_threads ≡ self.old.lacked_threads }
    {
        self.module_names.add(alloc, name)?;
        match self.host.ask(Load { alloc, bytes }) {
            Ok(_) => Ok(Reply::ModuleOk { name }),
            Err(error) => {
                self.module_names.remove_last();
                let why = refusal_of(error);
                Ok(Reply::ModuleRefused { name, why })
            }
        }
    }
}
