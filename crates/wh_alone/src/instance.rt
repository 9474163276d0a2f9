//! Instances over a flat memory.

ghost use Rattle.std.specs.Prelude.{◌≡◌, true, false, IfOk, IfErr, IfSome, IfNone};
ghost use Rattle.wh_initial.specs.Given.{view_parameters};
ghost use Rattle.wh_call.specs.Exports.{Exports, LacksFunc};
ghost use Rattle.wh_alone.specs.Stored.{stored_plain};
ghost use Rattle.wh_alone.specs.ModuleCalls.{RefusesModule};
ghost use Rattle.wh_alone.specs.InstanceStates.{kept_of};
ghost use Rattle.wh_alone.specs.Journal.{InstanceState, IsSomewhere, GoesOnWith, CallEnds, GivenUp};
ghost use Rattle.wh_alone.specs.Stages.{IsOpen, RefusesCall};
ghost use Rattle.wh_alone.specs.FirstStages.{BeginsInstance};

use crate::calling::{call, first_stage, run_on, stage_after_call, stage_after_start};
use crate::outcome::{CallError, CallRefusal, Outcome, Stage};
use crate::segments::write_segments;
use crate::words::are_words;
use std::alloc::Global;
use std::marker::Model;
use wh_call::{can_call, exported};
use wh_flatmem::FlatMemory;
use wh_imports::Linked;
use wh_initial::{Parameters, instantiate};
use wh_load::load;
use wh_machine::{Machine, Store};

/// An instance of a module, with a memory of its own, and its call that hasn't ended, if there is one.
///
/// Contracts see its parts. Of each instance it is known that it is where a journal of its calls leads.
pub struct Instance {
    linked: Linked,
    store: Store,
    memory: FlatMemory,
    machine: Machine,
    stage: Stage,
}

impl Drop for Instance {
    fn drop(self) {
        let Instance {
            linked: _,
            store: _,
            memory: _,
            machine: _,
            stage: _,
        } = self;
    }
}

impl Model for Instance {
    ghost Value = { InstanceState };

    ghost coded = { stored_plain };

    ghost view = { λ i.
        record { kept = kept_of i.linked i.store i.memory i.machine; stage = i.stage } };

    ghost invariant = { λ i. IsSomewhere
        (record { kept = kept_of i.linked i.store i.memory i.machine; stage = i.stage }) };
}

impl Instance {
    /// Decodes, validates and links a module, and makes an instance of it (4.5.4): its globals are set, its elements and
    /// its data segments are written. If the module has a start function, that is to be run next, and nothing else is
    /// called before it has returned.
    ///
    /// # Errors
    /// Why the bytes aren't accepted, or the module has no instance with these parameters.
    pub fn new(alloc: Global, bytes: &[u8], parameters: Parameters) -> Result<Instance, CallError>
        ensures ok { IfOk result (BeginsInstance bytes.now (view_parameters parameters)) }
        ensures err { IfErr result (RefusesModule bytes.now (view_parameters parameters)) }
    {
        are_words(&parameters.inputs);
        let linked = load(alloc, bytes)?;
        let begun = match instantiate(alloc, &linked, parameters) {
            Ok(begun) => begun,
            Err(error) => return Err(CallError::Instantiate(error)),
        };
        let Ok(machine) = Machine::new(alloc) else {
            return Err(CallError::Memory);
        };
        let Ok(mut memory) = FlatMemory::new(alloc, begun.pages, begun.page_limit) else {
            return Err(CallError::Memory);
        };
        write_segments(&linked.module().segments, &begun.places, &mut memory);
        let stage = first_stage(linked.module().start);
        Ok(Instance {
            linked,
            store: begun.store,
            memory,
            machine,
            stage,
        })
    }

    /// Calls the function of this index with this fuel; returns the outcome, and how many charges were taken.
    ///
    /// # Errors
    /// `Busy` while the start function or another call hasn't ended; `Dead` where the start function has failed; `NoCall`
    /// where this isn't the index of one of the module's own functions, or these words aren't arguments of it: one for
    /// each parameter, below 2^32 for an i32.
    pub fn call(
        &mut self,
        func: u32,
        args: &[u64],
        fuel: u64,
    ) -> Result<(Outcome, u64), CallRefusal>
        ensures ok { IfOk result (λ r. CallEnds self.old func args.now fuel r.0 r.1 self.new) }
        ensures err { IfErr result
            (λ e. RefusesCall self.old func args.now e × (self.new ≡ self.old)) }
    {
        match self.stage {
            Stage::Fresh | Stage::Starting | Stage::Calling => return Err(CallRefusal::Busy),
            Stage::Dead => return Err(CallRefusal::Dead),
            Stage::Idle => {}
        }
        if !can_call(&self.linked, func, args) {
            return Err(CallRefusal::NoCall);
        }
        let (outcome, charges) = call(
            &self.linked,
            &mut self.store,
            &mut self.machine,
            &mut self.memory,
            func,
            args,
            fuel,
        );
        self.stage = stage_after_call(outcome);
        Ok((outcome, charges))
    }

    /// Runs the start function, or the call that ran out of fuel, with `fuel` further charges; returns its outcome, and
    /// the charges that were taken now. `None` if no call is open.
    pub fn run(&mut self, fuel: u64) -> Option<(Outcome, u64)>
        ensures some { IfSome result
            (λ r. IsOpen self.old.stage × GoesOnWith self.old fuel r.0 r.1 self.new) }
        ensures none { IfNone result ((¬ (IsOpen self.old.stage)) × (self.new ≡ self.old)) }
    {
        match self.stage {
            Stage::Idle | Stage::Dead => None,
            Stage::Fresh => {
                let Some(func) = self.linked.module().start else {
                    unreachable!();
                };
                let (outcome, charges) = call(
                    &self.linked,
                    &mut self.store,
                    &mut self.machine,
                    &mut self.memory,
                    func,
                    &[],
                    fuel,
                );
                self.stage = stage_after_start(outcome);
                Some((outcome, charges))
            }
            Stage::Starting => {
                let (outcome, charges) = run_on(
                    &self.linked,
                    &mut self.store,
                    &mut self.machine,
                    &mut self.memory,
                    fuel,
                );
                self.stage = stage_after_start(outcome);
                Some((outcome, charges))
            }
            Stage::Calling => {
                let (outcome, charges) = run_on(
                    &self.linked,
                    &mut self.store,
                    &mut self.machine,
                    &mut self.memory,
                    fuel,
                );
                self.stage = stage_after_call(outcome);
                Some((outcome, charges))
            }
        }
    }

    /// Gives up the call that is open; tells whether there was one. What it has written stays. An instance whose start
    /// function is given up is dead.
    pub fn cancel(&mut self) -> bool
        ensures some { result ≡ true → IsOpen self.old.stage × GivenUp self.old self.new }
        ensures none { result ≡ false → (¬ (IsOpen self.old.stage)) × (self.new ≡ self.old) }
    {
        match self.stage {
            Stage::Idle | Stage::Dead => false,
            Stage::Fresh | Stage::Starting => {
                self.stage = Stage::Dead;
                true
            }
            Stage::Calling => {
                self.stage = Stage::Idle;
                true
            }
        }
    }

    /// Returns its stage.
    pub fn stage(&self) -> Stage
        ensures { result ≡ self.now.stage }
    {
        self.stage
    }

    /// Returns the index of the function that is exported under this name, if there is one.
    pub fn func(&self, name: &str) -> Option<u32>
        ensures some { IfSome result
            (Exports self.now.kept.linked.valid.decoded.exports.items name.now) }
        ensures none { IfNone result
            (LacksFunc self.now.kept.linked.valid.decoded.exports.items name.now) }
    {
        exported(&self.linked.module().exports, name)
    }

    /// Returns the bytes that the host functions `put` and `emit` have written.
    pub fn output(&self) -> &[u8]
        ensures { result.now ≡ self.now.kept.store.output.items }
    {
        self.store.output.as_slice()
    }

    /// Returns the bytes of its memory.
    pub fn bytes(&self) -> &[u8]
        ensures { result.now ≡ self.now.kept.memory.bytes }
    {
        self.memory.bytes()
    }
}
