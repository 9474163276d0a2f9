//! A turn of a call that is under way.

ghost use Rattle.std.specs.Prelude.{◌≡◌, min, IfSome, IfNone};
ghost use Rattle.wh_machine.specs.CallStates.{HasConfiguration, setting_of, call_state};
ghost use Rattle.wh_instance.specs.Computed.{AsksUnready, AsksReady, ComputesWithin};

use wh_call::{RunEnd, run_on};
use wh_imports::Linked;
use wh_linmem::LinearMem;
use wh_machine::{Machine, Store, asks};
use wh_model::{Need, Trap};

/// What a turn makes of a call.
#[derive(Clone, Copy)]
pub enum TurnOutcome {
    /// It has returned, with a result where its type has one; an i32 in the low 32 bits.
    Returned(Option<u64>),
    /// It has trapped.
    Trapped(Trap),
    /// All its fuel is taken, and it runs on.
    Fuel,
    /// There is fuel left, and these bytes, which its next step reads or writes, aren't ready.
    Frame(Need),
    /// The turn's charges are taken, there is fuel left, and its next step is ready.
    Again,
}

fn lesser(a: u64, b: u64) -> u64
    ensures { result ≡ min a b }
{
    if a < b { a } else { b }
}

/// The bytes that the next step of a call reads or writes, if they aren't ready; no step is taken.
fn lacking<M: LinearMem>(
    linked: &Linked,
    store: &Store,
    machine: &Machine,
    memory: &M,
) -> Option<Need>
    requires { HasConfiguration
        (setting_of linked.now M.bytes M.ready M.keeps (M.limit memory.now))
        (call_state machine.now store.now memory.now) }
    ensures some { IfSome result (AsksUnready
        (setting_of linked.now M.bytes M.ready M.keeps (M.limit memory.now))
        (call_state machine.now store.now memory.now)) }
    ensures none { IfNone result (AsksReady
        (setting_of linked.now M.bytes M.ready M.keeps (M.limit memory.now))
        (call_state machine.now store.now memory.now)) }
{
    let Some(need) = asks(linked, store, machine, memory) else {
        return None;
    };
    if memory.is_ready(need) {
        return None;
    }
    Some(need)
}

/// Runs a turn of q charges of the call that a machine represents, which has `left` charges of fuel left; returns the
/// outcome, and how many charges were taken. Fuel is looked at before the bytes of the next step, and these before the
/// call is answered to have had its turn.
pub fn compute<M: LinearMem>(
    linked: &Linked,
    store: &mut Store,
    machine: &mut Machine,
    memory: &mut M,
    q: u64,
    left: u64,
) -> (TurnOutcome, u64)
    requires { HasConfiguration
        (setting_of linked.now M.bytes M.ready M.keeps (M.limit memory.old))
        (call_state machine.old store.old memory.old) }
    ensures computes { ComputesWithin
        (setting_of linked.now M.bytes M.ready M.keeps (M.limit memory.old))
        (call_state machine.old store.old memory.old)
        q left result.0 result.1
        (call_state machine.new store.new memory.new) }
    ensures keeps { M.keeps memory.old memory.new }
{
    let (end, used) = run_on(linked, store, machine, memory, lesser(q, left));
    match end {
        RunEnd::Returned(result) => (TurnOutcome::Returned(result), used),
        RunEnd::Trapped(trap) => (TurnOutcome::Trapped(trap), used),
        RunEnd::NotReady(need) => (TurnOutcome::Frame(need), used),
        RunEnd::OutOfFuel => {
            if used == left {
                return (TurnOutcome::Fuel, used);
            }
            match lacking(linked, store, machine, memory) {
                Some(need) => (TurnOutcome::Frame(need), used),
                None => (TurnOutcome::Again, used),
            }
        }
    }
}
