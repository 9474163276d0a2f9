//! A run of calls that has no end of its own: turns on a cell by workers, with a scanner and a reclaimer, until the host
//! is to stop.

ghost use Rattle.std.specs.Prelude.{◌≡◌, ◌+◌, ◌<◌, ◌≤◌, None, IfNone, IfOk, OnErr, OnOk};
ghost use Rattle.crossbeam_channel.specs.Claims.{view};
ghost use Rattle.wh_threads.specs.Counting.{turns_of};
ghost use Rattle.wh_threads.specs.Handover.{SameMessages};
ghost use Rattle.wh_workers.specs.Serving.{AreRun, AreTurns};

use crate::live_queue::LiveQueue;
use crate::live_scans::LiveScanJob;
use crate::live_supply::LiveSupply;
use crate::passes::Passes;
use std::alloc::{AllocError, Global};
use std::sync::atomic::AtomicU64;
use std::sync::ledger::Ledger;
use std::sync::{Arc, Mutex, Wait};
use std::thread::Threads;
use wh_cell::{CellAgreements, HostCell};
use wh_kernels::PageHash;
use wh_scheduler::{ReclaimJob, RunConfig, ScanJob, TurnJob, TurnSupply};
use wh_swap::SwapDev;
use wh_threads::Shares;
use wh_workers::{Jobs, ServeError, Served, WorkerSetup, serve_on};

// How many charges all series that are out have together while instances arrive: for a millisecond or less.
const SHORT_CHARGES: u32 = 1 << 18;

// How many charges a series has at most, whether instances arrive or not: for some twenty milliseconds. So who arrives first
// after a long time waits no longer.
const LONGEST_CHARGES: u32 = 1 << 23;

// What the threads of a run do, and who dispatches the turns.
struct LiveParts<
    D: SwapDev,
    T: Ledger,
    C: Ledger,
    O: Ledger,
    E: Ledger,
    B: CellAgreements,
    H: PageHash,
    X,
> {
    jobs: Jobs<
        TurnJob<D, T, C, O, E, B, X>,
        LiveScanJob<D, T, C, O, E, B, H>,
        ReclaimJob<D, T, C, O, E, B>,
    >,
    supply: LiveSupply<D, T, C, O, E, B>,
}

// All memory for what the threads share.
fn parts_of<
    D: SwapDev + Drop,
    T: Ledger,
    C: Ledger,
    O: Ledger,
    E: Ledger,
    B: CellAgreements,
    H: PageHash + Copy,
    X: Threads + Drop + Sync,
>(
    rt: X,
    alloc: Global,
    cell: &HostCell<D, T, C, O, E, B>,
    queue: &LiveQueue,
    passes: &Passes<D, H>,
    run_config: RunConfig<H>,
) -> Result<LiveParts<D, T, C, O, E, B, H, X>, AllocError> {
    let schedule = queue.schedule();
    let Ok(threads) = Arc::new(alloc, rt) else {
        return Err(AllocError);
    };
    let turns = TurnJob {
        cell: cell.share()?,
        schedule: Arc::try_clone(schedule)?,
        turns_held: AtomicU64::new(0),
        threads,
        workers: run_config.workers,
    };
    let scans = ScanJob {
        cell: cell.share()?,
        schedule: Arc::try_clone(schedule)?,
        hasher: run_config.hasher,
        looks: Mutex::new(Vec::new(alloc)),
        alloc,
    };
    let reclaims = ReclaimJob {
        cell: cell.share()?,
        schedule: Arc::try_clone(schedule)?,
    };
    let short = SHORT_CHARGES / run_config.quantum.max(1);
    let longest = LONGEST_CHARGES / run_config.quantum.max(1);
    let schedule = Arc::try_clone(schedule)?;
    let dispatches = TurnSupply::new(alloc, cell.share()?, schedule, 0, short, longest)?;
    let supply = LiveSupply::new(dispatches, queue.share()?);
    let jobs = Jobs {
        turns,
        scans: LiveScanJob::new(scans, passes.share()?),
        reclaims,
    };
    Ok(LiveParts { jobs, supply })
}

/// Runs the calls of the instances of `queue` until that is to stop (`LiveQueue::end`), those that join meanwhile too. The
/// calling thread dispatches the turns, and runs none: `run_config.workers` threads do, while a scanner offers pages and
/// makes the passes that are asked for, and a reclaimer makes steps ready that wait for frames. All of these are started
/// before the first turn, and stay. Whoever has nothing to do sleeps.
///
/// Returns what was dispatched and run, however it ended. If no message is left over, each dispatched turn was received
/// once, and the workers' counts have grown by as many. Calls that could go on when it was to stop are as far as they came.
/// The queue is over then (`LiveQueue::is_over`). No count gets smaller.
///
/// # Errors
/// `Memory` if an allocation fails: no thread was started then. `Served::end` says so if there was no room for the crew,
/// and `NoThread` if a thread couldn't be started: no turn was dispatched then, and all threads that were started have
/// ended.
pub fn run_live<
    D: SwapDev + Drop + Send + 'static,
    T: Ledger + Send + 'static,
    C: Ledger + Send + 'static,
    O: Ledger + Send + 'static,
    E: Ledger + Send + 'static,
    B: CellAgreements + Send + 'static,
    H: PageHash + Copy + Send + 'static,
    R: Threads + Wait + Copy + Send + Sync + 'static,
>(
    rt: R,
    alloc: Global,
    cell: &HostCell<D, T, C, O, E, B>,
    queue: &LiveQueue,
    passes: &Passes<D, H>,
    shares: &mut Shares<T, C, O, E>,
    run_config: RunConfig<H>,
) -> Result<Served, ServeError>
    requires { (0 < run_config.workers) × (run_config.workers ≤ 64) }
    ensures dispatched { IfOk result (λ s. AreTurns s.turns run_config.quantum (view s.slip).sent) }
    ensures grown { IfOk result (λ s. AreRun (turns_of shares.old.tallies) s.left
        (view s.slip).received (turns_of shares.new.tallies)) }
    ensures once { IfOk result (λ s. IfNone s.left
        (SameMessages (view s.slip).sent (view s.slip).received)) }
    ensures turns { IfOk result (λ s. IfNone s.left
        (turns_of shares.new.tallies ≡ turns_of shares.old.tallies + s.turns)) }
    ensures well { IfOk result (λ s. OnOk s.end (s.left ≡ None)) }
    ensures err { OnErr result (shares.new ≡ shares.old) }
    ensures offers { shares.old.offers ≤ shares.new.offers }
    ensures evictions { shares.old.evictions ≤ shares.new.evictions }
    ensures owner { shares.new.owner ≡ shares.old.owner }
{
    let Ok(parts) = parts_of(rt, alloc, cell, queue, passes, run_config) else {
        queue.end();
        return Err(ServeError::Memory);
    };
    let LiveParts { jobs, mut supply } = parts;
    let crew = WorkerSetup {
        workers: run_config.workers,
        quantum: run_config.quantum,
    };
    let served = serve_on(rt, alloc, jobs, &mut supply, shares, crew);
    queue.end();
    served
}
