//! Turns of the present call of an instance.

ghost use Rattle.std.specs.Prelude.{◌≡◌, ◌+◌, ◌*◌, ◌≤◌, []};
ghost use Rattle.wh_model.specs.Execution.Configuration.{Term};
ghost use Rattle.wh_model.specs.Execution.Replay.{Call};
ghost use Rattle.wh_model.specs.Execution.Store.{Instance};
ghost use Rattle.wh_host_model.specs.Host.Worlds.{Rest, computing};
ghost use Rattle.wh_machine.specs.CallStates.{setting_of, call_state};
ghost use Rattle.wh_instance.specs.Bursts.{AreUsed};
ghost use Rattle.wh_instance.specs.Turned.{IsFaced, IsComputing, Turns};

use crate::burst::{Burst, BurstEnd, compute_burst};
use crate::computing::{TurnOutcome, compute};
use wh_imports::Linked;
use wh_linmem::LinearMem;
use wh_machine::{Machine, Store, begin};

/// Runs a burst of a call that is under way, which has taken `charges` charges and was given `fuel`: it gets as far as
/// in a turn of as many charges as the turns had that were begun.
pub fn turn_on<M: LinearMem>(
    linked: &Linked,
    store: &mut Store,
    machine: &mut Machine,
    memory: &mut M,
    burst: Burst,
    charges: u64,
    fuel: u64,
) -> BurstEnd
    requires computing { (inst : Instance) × (call : Call) × (r : Rest) × (t : Term) × IsComputing
        (setting_of linked.now M.bytes M.ready M.keeps (M.limit memory.old))
        (call_state machine.old store.old memory.old)
        inst call r t }
    requires within { charges ≤ fuel }
    ensures turns { (inst : Instance) (call : Call) (r : Rest) (t : Term)
        → call.charges ≡ charges → call.fuel ≡ fuel → IsComputing
        (setting_of linked.now M.bytes M.ready M.keeps (M.limit memory.old))
        (call_state machine.old store.old memory.old)
        inst call r t → Turns
        (setting_of linked.now M.bytes M.ready M.keeps (M.limit memory.old))
        inst (result.turns * burst.entry.quantum) call memory.old r (computing t) result.came 0 result.charges
        (call_state machine.new store.new memory.new) [] }
    ensures used { AreUsed burst.entry.quantum result.turns result.charges }
    ensures few { result.turns ≤ burst.entry.further + 1 }
    ensures leave { result.turns ≤ result.leave.reads + 1 }
    ensures keeps { M.keeps memory.old memory.new }
{
    compute_burst(linked, store, machine, memory, burst, fuel - charges)
}

/// Begins a call of the function of this index with these words as arguments, and runs a turn of q charges of it, where
/// it was given `fuel`; returns the outcome, and how many were taken. Whatever the machine did before is given up.
pub fn turn_first<M: LinearMem>(
    linked: &Linked,
    store: &mut Store,
    machine: &mut Machine,
    memory: &mut M,
    q: u64,
    fuel: u64,
    func: u32,
    args: &[u64],
) -> (TurnOutcome, u64)
    requires { (inst : Instance) × (call : Call) × (r : Rest) × (t : Term) × IsFaced
        (setting_of linked.now M.bytes M.ready M.keeps (M.limit memory.old))
        (call_state machine.old store.old memory.old)
        inst call r func args.now t }
    ensures turns { (inst : Instance) (call : Call) (r : Rest) (t : Term)
        → call.fuel ≡ fuel → IsFaced
        (setting_of linked.now M.bytes M.ready M.keeps (M.limit memory.old))
        (call_state machine.old store.old memory.old)
        inst call r func args.now t → Turns
        (setting_of linked.now M.bytes M.ready M.keeps (M.limit memory.old))
        inst q call memory.old r (computing t) result.0 0 result.1
        (call_state machine.new store.new memory.new) [] }
    ensures keeps { M.keeps memory.old memory.new }
{
    begin(linked, machine, func, args);
    compute(linked, store, machine, memory, q, fuel)
}
