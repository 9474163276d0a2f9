//! Bursts: several turns of a call, one right after the other.

ghost use Rattle.std.specs.Prelude.{◌≡◌, ◌+◌, ◌*◌, ◌^◌, ◌<◌, ◌≤◌, false, true};
ghost use Rattle.wh_machine.specs.CallStates.{HasConfiguration, setting_of, call_state};
ghost use Rattle.wh_instance.specs.Computed.{ComputesWithin};
ghost use Rattle.wh_instance.specs.Bursts.{AreUsed};
ghost use Rattle.wh_instance.specs.declared.computing.TurnOutcome.TheVariants.{Again as CanGoOn};

use crate::computing::{TurnOutcome, compute};
use crate::leave::Leave;
use std::sync::atomic::AtomicU64;
use wh_imports::Linked;
use wh_linmem::LinearMem;
use wh_machine::{Machine, Store};

/// How long a call runs: a turn of `quantum` charges, and at most `further` further ones, of which none is begun once
/// somebody wants the memory.
#[derive(Clone, Copy)]
pub struct Burst<'a> {
    /// How many charges a turn has at most.
    pub quantum: u64,
    /// How many turns come after the first at most.
    pub further: u32,
    /// How many want the memory; `None` where no further turn is begun.
    pub wanted: Option<&'a AtomicU64>,
}

/// What came of a burst.
#[derive(Clone, Copy)]
pub struct BurstEnd {
    /// The outcome of the last turn.
    pub came: TurnOutcome,
    /// How many charges it took.
    pub charges: u64,
    /// In how many turns.
    pub turns: u64,
    /// The leave that there was for further ones: each but the first was begun by it.
    pub leave: Leave,
}

impl<'a> Burst<'a> {
    // Whether a further turn is begun after what came of the last. For that it asks leave.
    fn goes_on(&self, came: TurnOutcome, leave: &mut Leave) -> bool
        requires { leave.old.reads + 1 < 2 ^ 64 }
        ensures may { result ≡ true → (came ≡ CanGoOn) × (1 ≤ self.now.quantum) }
        ensures leave { result ≡ true → leave.new.reads ≡ leave.old.reads + 1 }
        ensures none { result ≡ false → leave.new ≡ leave.old }
    {
        match (came, self.wanted) {
            (TurnOutcome::Again, Some(wanted)) => self.quantum > 0 && leave.ask(wanted),
            _ => false,
        }
    }
}

/// Runs a burst of the call that a machine represents, which has `left` charges of fuel left: it gets as far as in one
/// turn of as many charges as all its turns had.
pub fn compute_burst<M: LinearMem>(
    linked: &Linked,
    store: &mut Store,
    machine: &mut Machine,
    memory: &mut M,
    burst: Burst,
    left: u64,
) -> BurstEnd
    requires { HasConfiguration
        (setting_of linked.now M.bytes M.ready M.keeps (M.limit memory.old))
        (call_state machine.old store.old memory.old) }
    ensures computes { ComputesWithin
        (setting_of linked.now M.bytes M.ready M.keeps (M.limit memory.old))
        (call_state machine.old store.old memory.old)
        (result.turns * burst.entry.quantum) left result.came result.charges
        (call_state machine.new store.new memory.new) }
    ensures used { AreUsed burst.entry.quantum result.turns result.charges }
    ensures few { result.turns ≤ burst.entry.further + 1 }
    ensures leave { result.turns ≤ result.leave.reads + 1 }
    ensures keeps { M.keeps memory.old memory.new }
{
    let quantum = burst.quantum;
    let (came, charges) = compute(linked, store, machine, memory, quantum, left);
    let mut ended = BurstEnd {
        came,
        charges,
        turns: 1,
        leave: Leave::none(),
    };
    for behind in 0..burst.further {
        if !burst.goes_on(ended.came, &mut ended.leave) {
            return ended;
        }
        let rest = left - ended.charges;
        let (came, charges) = compute(linked, store, machine, memory, quantum, rest);
        ended = BurstEnd {
            came,
            charges: ended.charges + charges,
            turns: u64::from(behind) + 2,
            leave: ended.leave,
        };
    }
    ended
}
