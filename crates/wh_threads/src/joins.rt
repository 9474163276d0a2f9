// Threads that have returned give back what they had.

ghost use Rattle.std.specs.Prelude.{◌≡◌, ◌+◌, ◌<◌, ◌≤◌, [], slice_get, slice_set, Some, false, true};
ghost use Rattle.crossbeam_channel.specs.Claims.{view, IsSeatAt};
ghost use Rattle.crossbeam_channel.specs.Ends.{sends_on, receives_on};
ghost use Rattle.wh_threads.specs.Counting.{ThreadCountsState, turns_of};
ghost use Rattle.wh_threads.specs.Handover.{TakesBack, traffic, turns_in};
ghost use Rattle.wh_threads.specs.Working.{HasWorked};
ghost use Rattle.wh_threads.specs.declared.tally.Tally.{Tally};

use crate::channel::{MessagePass, TurnSender, put_back};
use crate::help::{Helped, Helps};
use crate::helper::Helper;
use crate::start::Unstarted;
use crate::sweep::{Sweep, Sweeps, Swept};
use crate::thread_counts::ThreadCounts;
use crate::work::{WorkerResult, Works};
use std::sync::ledger::Ledger;
use std::thread::{PromisedHandle, Threads};

impl<T: Ledger, C: Ledger, O: Ledger, E: Ledger> ThreadCounts<T, C, O, E> {
    /// Waits for a worker's thread. What it has counted takes the place of that with which it began, and its slip comes
    /// back: it grew by one turn for each that it received.
    pub fn join_worker<R: Threads>(
        &mut self,
        rt: &R,
        seat: usize,
        handle: PromisedHandle<WorkerResult<T, C>, Works>,
        sender: &TurnSender,
        slip: &mut MessagePass,
    )
        requires channel { IsSeatAt (sends_on sender.now) slip.old }
        requires part { 0 < (view slip.old).parts }
        requires seat { slice_get self.old.tallies seat ≡ Some handle.promise.from }
        requires receiver { receives_on handle.promise.receiver.value ≡ sends_on sender.now }
        ensures channel { IsSeatAt (sends_on sender.now) slip.new }
        ensures back { TakesBack (view slip.old) (view slip.new) }
        ensures out { self.new.workers_out + 1 ≡ self.old.workers_out }
        ensures only { (t : Tally) × (self.new ≡ record self.old {
          tallies = slice_set self.old.tallies seat t;
          workers_out = self.new.workers_out;
        }) }
        ensures grown { turns_of self.new.tallies + turns_in (view slip.old).received
            ≡ turns_of self.old.tallies + turns_in (view slip.new).received }
    {
        let (worker, other) = handle.join(rt).into_parts();
        put_back(sender, slip, other);
        self.take_worker(seat, worker);
    }

    /// Takes a worker back for which no thread could be made: it has counted nothing.
    pub fn take_refused_worker(
        &mut self,
        seat: usize,
        unstarted: Unstarted<T, C>,
        sender: &TurnSender,
        slip: &mut MessagePass,
    )
        requires channel { IsSeatAt (sends_on sender.now) slip.old }
        requires part { 0 < (view slip.old).parts }
        requires seat { slice_get self.old.tallies seat ≡ Some unstarted.worker.from }
        requires idle { unstarted.worker.tally ≡ unstarted.worker.from }
        requires other { IsSeatAt (sends_on sender.now) unstarted.slip
            × (view unstarted.slip ≡ traffic 1 [] []) }
        ensures channel { IsSeatAt (sends_on sender.now) slip.new }
        ensures back { TakesBack (view slip.old) (view slip.new) }
        ensures out { self.new.workers_out + 1 ≡ self.old.workers_out }
        ensures same { self.new ≡ record self.old { workers_out = self.new.workers_out } }
        ensures received { (view slip.new).received ≡ (view slip.old).received }
    {
        let Unstarted {
            worker,
            slip: other,
        } = unstarted;
        put_back(sender, slip, other);
        self.take_worker(seat, worker);
    }

    /// Waits for the scanner's thread. What it has counted takes the place of that with which it began.
    pub fn join_scanner<R: Threads>(&mut self, rt: &R, handle: PromisedHandle<Helped<O>, Helps>)
        requires { handle.promise.from ≡ self.old.offers }
        ensures out { self.new.scanners_out + 1 ≡ self.old.scanners_out }
        ensures grown { self.old.offers ≤ self.new.offers }
        ensures only { self.new ≡ record self.old {
          offers = self.new.offers;
          scanners_out = self.new.scanners_out;
        } }
    {
        self.take_scanner(handle.join(rt).into_helper());
    }

    /// Takes a scanner back for which no thread could be made: it has counted nothing.
    pub fn take_refused_scanner(&mut self, scanner: Helper<O>)
        requires from { scanner.from ≡ self.old.offers }
        requires idle { scanner.count ≡ scanner.from }
        ensures out { self.new.scanners_out + 1 ≡ self.old.scanners_out }
        ensures same { self.new ≡ record self.old { scanners_out = self.new.scanners_out } }
    {
        self.take_scanner(scanner);
    }

    /// Waits for the thread of a scanner's sweep; returns its value, and whether the sweep was made. What was counted
    /// takes the place of that with which it began.
    pub fn join_sweep<J: Sweep<O>, R: Threads>(
        &mut self,
        rt: &R,
        handle: PromisedHandle<Swept<O, J>, Sweeps<J>>,
    ) -> (J, bool)
        requires { handle.promise.from ≡ self.old.offers }
        ensures done { result.1 ≡ true
            → J.sweeps handle.promise.job.value self.old.offers result.0 self.new.offers }
        ensures none { result.1 ≡ false
            → (result.0 ≡ handle.promise.job.value) × (self.new.offers ≡ self.old.offers) }
        ensures out { self.new.scanners_out + 1 ≡ self.old.scanners_out }
        ensures grown { self.old.offers ≤ self.new.offers }
        ensures only { self.new ≡ record self.old {
          offers = self.new.offers;
          scanners_out = self.new.scanners_out;
        } }
    {
        let swept = handle.join(rt);
        let is_done = swept.is_done();
        let (job, scanner) = swept.into_parts();
        self.take_scanner(scanner);
        (job, is_done)
    }

    /// Waits for the reclaimer's thread. What it has counted takes the place of that with which it began.
    pub fn join_reclaimer<R: Threads>(&mut self, rt: &R, handle: PromisedHandle<Helped<E>, Helps>)
        requires { handle.promise.from ≡ self.old.evictions }
        ensures out { self.new.reclaimers_out + 1 ≡ self.old.reclaimers_out }
        ensures grown { self.old.evictions ≤ self.new.evictions }
        ensures only { self.new ≡ record self.old {
          evictions = self.new.evictions;
          reclaimers_out = self.new.reclaimers_out;
        } }
    {
        self.take_reclaimer(handle.join(rt).into_helper());
    }

    /// Takes a reclaimer back for which no thread could be made: it has counted nothing.
    pub fn take_refused_reclaimer(&mut self, reclaimer: Helper<E>)
        requires from { reclaimer.from ≡ self.old.evictions }
        requires idle { reclaimer.count ≡ reclaimer.from }
        ensures out { self.new.reclaimers_out + 1 ≡ self.old.reclaimers_out }
        ensures same { self.new ≡ record self.old { reclaimers_out = self.new.reclaimers_out } }
    {
        self.take_reclaimer(reclaimer);
    }
}
