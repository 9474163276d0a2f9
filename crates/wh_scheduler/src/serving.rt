//! A call of `run_calls`: turns on a cell by workers, with a scanner and a reclaimer where they are wanted.

ghost use Rattle.std.specs.Prelude.{◌≡◌, ◌+◌, ◌/◌, ◌<◌, ◌≤◌, IfOk, OnErr, OnOk};
ghost use Rattle.crossbeam_channel.specs.Claims.{view};
ghost use Rattle.wh_threads.specs.Counting.{turns_of};
ghost use Rattle.wh_threads.specs.Handover.{SameMessages};
ghost use Rattle.wh_workers.specs.Serving.{AreRun, AreTurns};

use crate::jobs::{ReclaimJob, Schedule, TurnSupply};
use crate::run_queue::RunQueue;
use crate::scan_job::ScanJob;
use crate::turn_job::TurnJob;
use std::alloc::{AllocError, Global};
use std::sync::atomic::AtomicU64;
use std::sync::ledger::Ledger;
use std::sync::{Arc, Mutex, Wait};
use std::thread::Threads;
use wh_cell::{CellAgreements, HostCell};
use wh_kernels::PageHash;
use wh_space_model::InstId;
use wh_swap::SwapDev;
use wh_threads::Shares;
use wh_workers::{Jobs, ServeError, Served, WorkerSetup, serve};

/// How calls are run.
#[derive(Clone, Copy, Debug)]
pub struct RunConfig<H> {
    /// How pages are hashed.
    pub hasher: H,
    /// How many charges a turn has.
    pub quantum: u32,
    /// How many workers there are, 1 to 64.
    pub workers: usize,
}

// What the threads of a run do, and who dispatches the turns.
struct ServeParts<D: SwapDev, T: Ledger, C: Ledger, O: Ledger, E: Ledger, B: CellAgreements, H, X> {
    jobs: Jobs<
        TurnJob<D, T, C, O, E, B, X>,
        ScanJob<D, T, C, O, E, B, H>,
        ReclaimJob<D, T, C, O, E, B>,
    >,
    supply: TurnSupply<D, T, C, O, E, B>,
}

// All memory for what the threads share.
fn staff_of<
    D: SwapDev + Drop,
    T: Ledger,
    C: Ledger,
    O: Ledger,
    E: Ledger,
    B: CellAgreements,
    H: PageHash + Copy,
    X: Threads + Drop + Sync,
>(
    rt: X,
    alloc: Global,
    cell: &HostCell<D, T, C, O, E, B>,
    ids: &[InstId],
    run_config: RunConfig<H>,
) -> Result<ServeParts<D, T, C, O, E, B, H, X>, AllocError> {
    let run_queue = RunQueue::new(alloc, ids)?;
    let Ok(schedule) = Arc::new(alloc, Schedule::new(alloc, run_queue, run_config.workers)?) else {
        return Err(AllocError);
    };
    let Ok(threads) = Arc::new(alloc, rt) else {
        return Err(AllocError);
    };
    let turns = TurnJob {
        cell: cell.share()?,
        schedule: Arc::try_clone(&schedule)?,
        turns_held: AtomicU64::new(0),
        threads,
        workers: run_config.workers,
    };
    let scans = ScanJob {
        cell: cell.share()?,
        schedule: Arc::try_clone(&schedule)?,
        hasher: run_config.hasher,
        looks: Mutex::new(Vec::new(alloc)),
        alloc,
    };
    let reclaims = ReclaimJob {
        cell: cell.share()?,
        schedule: Arc::try_clone(&schedule)?,
    };
    let supply = TurnSupply::new(
        alloc,
        cell.share()?,
        schedule,
        ids.len(),
        u32::MAX,
        u32::MAX,
    )?;
    let jobs = Jobs {
        turns,
        scans,
        reclaims,
    };
    Ok(ServeParts { jobs, supply })
}

/// Runs the calls of `ids` until none can make progress. The calling thread dispatches the turns, and runs none:
/// `run_config.workers` threads do, and those of several instances that compute for long at once, by as many threads;
/// meanwhile a scanner offers pages, and a reclaimer makes steps ready that wait for frames.
///
/// It ends sooner where each call waits for a frame, and did so eight times with no more than 31 turns between two: threads would
/// only wake each other then. Who wants all calls run asks again until no turn was dispatched, or makes steps ready itself.
///
/// Returns what was dispatched and run, however it ended. If it ended well, each dispatched turn was received once, the
/// workers' counts have grown by as many, and for each 64 turns a page was offered. No count gets smaller.
///
/// # Errors
/// `Memory` if an allocation fails: no turn was run then. `Served::end` says so if there was no room for the crew, and
/// that or `NoThread` if not all workers could be started, and no turn was run; or if pages couldn't be offered that
/// are owed. It is `NoThread` too if a step waited for a frame and the reclaimer couldn't be started: no further turn
/// was dispatched then, and calls may be left that can make progress.
pub fn run_calls<
    D: SwapDev + Drop + Send + 'static,
    T: Ledger + Send + 'static,
    C: Ledger + Send + 'static,
    O: Ledger + Send + 'static,
    E: Ledger + Send + 'static,
    B: CellAgreements + Send + 'static,
    H: PageHash + Copy + Send + 'static,
    R: Threads + Wait + Copy + Send + Sync + 'static,
>(
    rt: R,
    alloc: Global,
    cell: &HostCell<D, T, C, O, E, B>,
    shares: &mut Shares<T, C, O, E>,
    ids: &[InstId],
    run_config: RunConfig<H>,
) -> Result<Served, ServeError>
    requires { (0 < run_config.workers) × (run_config.workers ≤ 64) }
    ensures dispatched { IfOk result (λ s. AreTurns s.turns run_config.quantum (view s.slip).sent) }
    ensures grown { IfOk result (λ s. AreRun (turns_of shares.old.tallies) s.left
        (view s.slip).received (turns_of shares.new.tallies)) }
    ensures once { IfOk result (λ s. OnOk s.end
        (SameMessages (view s.slip).sent (view s.slip).received)) }
    ensures turns { IfOk result (λ s. OnOk s.end
        (turns_of shares.new.tallies ≡ turns_of shares.old.tallies + s.turns)) }
    ensures owed { IfOk result (λ s. OnOk s.end
        (shares.old.offers + s.turns / 64 ≤ shares.new.offers)) }
    ensures err { OnErr result (shares.new.tallies ≡ shares.old.tallies) }
    ensures offers { shares.old.offers ≤ shares.new.offers }
    ensures evictions { shares.old.evictions ≤ shares.new.evictions }
    ensures owner { shares.new.owner ≡ shares.old.owner }
{
    let Ok(staff) = staff_of(rt, alloc, cell, ids, run_config) else {
        return Err(ServeError::Memory);
    };
    let ServeParts { jobs, mut supply } = staff;
    let crew = WorkerSetup {
        workers: run_config.workers,
        quantum: run_config.quantum,
    };
    serve(rt, alloc, jobs, &mut supply, shares, crew)
}
