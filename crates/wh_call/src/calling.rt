//! Runs of calls, and how they end.

ghost use Rattle.wh_machine.specs.CallStates.{HasConfiguration, setting_of, call_state};
ghost use Rattle.wh_call.specs.Ends.{CanCall, RunEndsWithin, CallEndsWithin};

use wh_imports::Linked;
use wh_linmem::LinearMem;
use wh_machine::{Machine, Stepped, Store, begin, run};
use wh_model::{Need, Trap};

/// How a run of a call has ended.
#[derive(Clone, Copy, Debug, PartialEq, Eq)]
pub enum RunEnd {
    /// The call has returned, with a result where its type has one; an i32 in the low 32 bits.
    Returned(Option<u64>),
    /// It has trapped.
    Trapped(Trap),
    /// All fuel was taken, and the call runs on.
    OutOfFuel,
    /// Its next reduction reads or writes bytes of the memory that aren't ready. There is fuel left, and nothing of
    /// that reduction has been done.
    NotReady(Need),
}

/// Runs the call that a machine represents with this fuel; returns how the run has ended, and how many charges were
/// taken, that of a trap included.
pub fn run_on<M: LinearMem>(
    linked: &Linked,
    store: &mut Store,
    machine: &mut Machine,
    memory: &mut M,
    fuel: u64,
) -> (RunEnd, u64)
    requires { HasConfiguration
        (setting_of linked.now M.bytes M.ready M.keeps (M.limit memory.old))
        (call_state machine.old store.old memory.old) }
    ensures ends { RunEndsWithin
        (setting_of linked.now M.bytes M.ready M.keeps (M.limit memory.old))
        (call_state machine.old store.old memory.old)
        fuel result.0 result.1
        (call_state machine.new store.new memory.new) }
    ensures keeps { M.keeps memory.old memory.new }
{
    let (stepped, charges) = run(linked, store, machine, memory, fuel);
    let end = match stepped {
        Stepped::Done => RunEnd::Returned(machine.result()),
        Stepped::Trapped(trap) => RunEnd::Trapped(trap),
        Stepped::Charged => RunEnd::OutOfFuel,
        Stepped::NotReady(need) => RunEnd::NotReady(need),
    };
    (end, charges)
}

/// Calls one of the module's own functions with this fuel; returns how the run has ended, and how many charges were
/// taken. Whatever the machine did before is given up.
pub fn call<M: LinearMem>(
    linked: &Linked,
    store: &mut Store,
    machine: &mut Machine,
    memory: &mut M,
    func: u32,
    args: &[u64],
    fuel: u64,
) -> (RunEnd, u64)
    requires { CanCall
        (setting_of linked.now M.bytes M.ready M.keeps (M.limit memory.old))
        (call_state machine.old store.old memory.old)
        func args.now }
    ensures ends { CallEndsWithin
        (setting_of linked.now M.bytes M.ready M.keeps (M.limit memory.old))
        (call_state machine.old store.old memory.old)
        func args.now fuel result.0 result.1
        (call_state machine.new store.new memory.new) }
    ensures keeps { M.keeps memory.old memory.new }
{
    begin(linked, machine, func, args);
    run_on(linked, store, machine, memory, fuel)
}
