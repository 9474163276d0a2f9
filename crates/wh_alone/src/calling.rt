//! Calls over a flat memory.

ghost use Rattle.std.specs.Prelude.{◌≡◌};
ghost use Rattle.wh_call.specs.Ends.{CanCall};
ghost use Rattle.wh_alone.specs.InstanceStates.{kept_of, setting_in, state_in, run_end, IsAnswered, RepresentsSomewhere, ContinuesTo, InvocationEnds};
ghost use Rattle.wh_alone.specs.Stages.{stage_at_first, after_start, after_call};

use crate::outcome::{Outcome, Stage};
use wh_call::RunEnd;
use wh_flatmem::FlatMemory;
use wh_imports::Linked;
use wh_machine::{Machine, Store};

/// What a run is answered by that doesn't wait for bytes.
fn outcome_of(end: RunEnd) -> Outcome
    requires { IsAnswered end }
    ensures { run_end result ≡ end }
{
    match end {
        RunEnd::Returned(result) => Outcome::Returned(result),
        RunEnd::Trapped(trap) => Outcome::Trapped(trap),
        RunEnd::OutOfFuel => Outcome::OutOfFuel,
        RunEnd::NotReady(_) => unreachable!(),
    }
}

/// Runs the call that a machine represents with this fuel; returns the outcome, and how many charges were taken.
pub fn run_on(
    linked: &Linked,
    store: &mut Store,
    machine: &mut Machine,
    memory: &mut FlatMemory,
    fuel: u64,
) -> (Outcome, u64)
    requires { RepresentsSomewhere (kept_of linked.now store.old memory.old machine.old) }
    ensures { ContinuesTo (kept_of linked.now store.old memory.old machine.old) fuel result.0
        result.1 (kept_of linked.now store.new memory.new machine.new) }
{
    let (end, charges) = wh_call::run_on(linked, store, machine, memory, fuel);
    (outcome_of(end), charges)
}

/// Calls a function with this fuel; returns the outcome, and how many charges were taken.
pub fn call(
    linked: &Linked,
    store: &mut Store,
    machine: &mut Machine,
    memory: &mut FlatMemory,
    func: u32,
    args: &[u64],
    fuel: u64,
) -> (Outcome, u64)
    requires { CanCall
        (setting_in (kept_of linked.now store.old memory.old machine.old))
        (state_in (kept_of linked.now store.old memory.old machine.old))
        func args.now }
    ensures { InvocationEnds (kept_of linked.now store.old memory.old machine.old) func
        args.now fuel result.0 result.1 (kept_of linked.now store.new memory.new machine.new) }
{
    let (end, charges) = wh_call::call(linked, store, machine, memory, func, args, fuel);
    (outcome_of(end), charges)
}

/// Returns the initial stage of an instance with this start function, or without one.
pub fn first_stage(start: Option<u32>) -> Stage
    ensures { result ≡ stage_at_first start }
{
    match start {
        Some(_) => Stage::Fresh,
        None => Stage::Idle,
    }
}

/// Returns the stage of an instance once its start function has had this outcome.
pub fn stage_after_start(outcome: Outcome) -> Stage
    ensures { result ≡ after_start outcome }
{
    match outcome {
        Outcome::Returned(_) => Stage::Idle,
        Outcome::Trapped(_) => Stage::Dead,
        Outcome::OutOfFuel => Stage::Starting,
    }
}

/// Returns the stage of an instance once a call has had this outcome.
pub fn stage_after_call(outcome: Outcome) -> Stage
    ensures { result ≡ after_call outcome }
{
    match outcome {
        Outcome::Returned(_) | Outcome::Trapped(_) => Stage::Idle,
        Outcome::OutOfFuel => Stage::Calling,
    }
}
