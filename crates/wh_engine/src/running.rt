// Calls that run until none can go on.

ghost use Rattle.std.specs.Prelude.{◌≡◌, ◌-◌, ◌^◌, ◌<◌, ◌≤◌, ◌⊎◌, IfErr, OnErr, OnOk};
ghost use Rattle.wh_cell.specs.Owning.{ComesOn};
ghost use Rattle.wh_scheduler.specs.InHand.{EachIs, Rests, left_of};
ghost use Rattle.wh_engine.specs.Draining.{AllRest, DeviceHoldsAmid, DeviceMayFail, DeviceStaysTrue, IsServedWhole, RunsEach, RunsTurns, StaysLacking, WasOpen, WorksInNewEpoch};

use crate::fault::RunFault;
use crate::script_host::ScriptHost;
use std::alloc::Global;
use std::sync::Wait;
use std::sync::ledger::Ledger;
use std::thread::Threads;
use wh_cell::CellAgreements;
use wh_kernels::PageHash;
use wh_scheduler::{HereEnd, OwnedHost, RunConfig};
use wh_space_model::InstId;
use wh_swap::SwapDev;
use wh_workers::{ServeError, Served};

// How many turns the calling thread runs at most before threads are started: fewer than those after which a page is
// owed.
const MOST_TURNS_HERE: u64 = 31;

// How a run of calls ended.
fn end_of(served: Result<Served, ServeError>) -> Result<(), ServeError>
    ensures { OnOk result (IsServedWhole served) }
{
    served?.end
}

// Runs the calls of these instances until none can go on: some turns in the calling thread, and the further ones by workers; but while
// each call that can go on waits for a frame, again and again, in the calling thread. Where a thread was refused, or room for one, that
// runs what workers have left, and the answer is true.
fn run_host<
    D: SwapDev + Drop + Send + 'static,
    T: Ledger + Send + 'static,
    C: Ledger + Send + 'static,
    O: Ledger + Send + 'static,
    E: Ledger + Send + 'static,
    B: CellAgreements + Send + 'static,
    H: PageHash + Copy + Send + 'static,
    R: Threads + Wait + Copy + Send + Sync + 'static,
>(
    host: &mut OwnedHost<D, T, C, O, E, B>,
    rt: R,
    alloc: Global,
    ids: &[InstId],
    run_config: RunConfig<H>,
) -> bool
    requires { (0 < run_config.workers) × (run_config.workers ≤ 64) }
    ensures came { ComesOn D.keeps D.honest D.faults (left_of host.old) (left_of host.new) }
    ensures turns { RunsTurns run_config.quantum result host.old.books host.old.own
        host.new.books host.new.own }
    ensures rests { EachIs Rests host.new.host ids.now
        ⊎ (host.new.own.turns ≡ 2 ^ 64 - 1) }
{
    let here = host.run_here(ids, MOST_TURNS_HERE, run_config.quantum);
    if here.end == HereEnd::Rest {
        return false;
    }
    for _ in rt.forever() {
        let paged = host.page_here(ids, run_config.quantum, &run_config.hasher);
        if paged.rests {
            return false;
        }
        if end_of(host.run(rt, alloc, ids, run_config)).is_err() {
            let _ = host.drain_here(ids, run_config.quantum, &run_config.hasher);
            return true;
        }
    }
    unreachable!()
}

impl<
    D: SwapDev + Drop + Send + 'static,
    T: Ledger + Send + 'static,
    C: Ledger + Send + 'static,
    O: Ledger + Send + 'static,
    E: Ledger + Send + 'static,
    B: CellAgreements + Send + 'static,
> ScriptHost<D, T, C, O, E, B> {
    /// Runs the calls of all instances, in turns of `quantum` charges, until none can make progress, as `print` then
    /// finds. The calling thread runs up to 31 turns itself; if a call can still make progress, workers run the further
    /// turns, though no more workers than instances that can, since each of these has one turn out at most. Where each
    /// of them waits for a frame, again and again, the calling thread makes their steps ready, and runs up to 4096
    /// turns for each page that it evicts. If a thread is refused, or an allocation for one fails, it runs those that
    /// are left, and offers a page for each 64 of them: `lacked_threads` tells that. Before the first turn an epoch
    /// begins; if no call can make progress from the beginning, none begins and no turn is run.
    ///
    /// # Errors
    /// `Memory` if the allocation for a list of the instances fails. Nothing was done then.
    pub fn run<
        H: PageHash + Copy + Send + 'static,
        R: Threads + Wait + Copy + Send + Sync + 'static,
    >(&mut self, rt: R, alloc: Global, run_config: RunConfig<H>) -> Result<(), RunFault>
        requires { run_config.workers ≤ 64 }
        ensures device { DeviceStaysTrue D.keeps D.honest self.old.host.device
            self.new.host.device }
        ensures faults { DeviceMayFail D.faults self.old.host.device self.new.host.device }
        ensures runs { OnOk result (AllRest self.new.host.host self.new.instances
            → DeviceHoldsAmid D.honest D.faults self.old.host.device self.new.host.device
            (RunsEach self.old self.new)) }
        ensures turns { OnOk result (RunsTurns run_config.quantum self.new.lacked_threads
            self.old.host.books self.old.host.own self.new.host.books self.new.host.own) }
        ensures lacking { StaysLacking self.old self.new }
        ensures others { self.new ≡ record self.old {
          host = self.new.host;
          lacked_threads = self.new.lacked_threads;
        } }
        ensures begins { (self.new ≡ self.old) ⊎ WasOpen self.old }
        ensures epoch { (self.new ≡ self.old) ⊎ WorksInNewEpoch D.keeps D.honest D.faults
            self.old.host self.new.host }
        ensures err { IfErr result (λ fault. fault ≡ RunFault.Memory) }
        ensures same { OnErr result (self.new ≡ self.old) }
    {
        let host = self.host.host();
        let Ok(ids) = self.awake.take_going(alloc, host, &self.instances) else {
            return Err(RunFault::Memory);
        };
        if ids.is_empty() {
            return Ok(());
        }
        self.epoch();
        let run_config = RunConfig {
            hasher: run_config.hasher,
            quantum: run_config.quantum,
            workers: run_config.workers.min(ids.len()).max(1),
        };
        let lacked = run_host(&mut self.host, rt, alloc, &ids, run_config);
        self.lacked_threads |= lacked;
        self.host.invariant();
        Ok(())
    }
}
