// Workers that run turns, each in a thread of its own: started, fed, and joined.

ghost use Rattle.std.specs.Prelude.{◌≡◌, ℕ, ◌+◌, ◌<◌, ◌≤◌, [], IfOk, IfErr, Some, slice_get, vec_len, vec_capacity};
ghost use Rattle.crossbeam_channel.specs.Claims.{view, IsSeatAt};
ghost use Rattle.crossbeam_channel.specs.Ends.{sends_on, receives_on};
ghost use Rattle.wh_threads.specs.Counting.{ThreadCountsState, turns_of};
ghost use Rattle.wh_workers.specs.EachAt.{EachAt};
ghost use Rattle.wh_workers.specs.LentHelpers.{AreLent};
ghost use Rattle.wh_threads.specs.Handover.{Dispatches, turns_in, all_parts};
ghost use Rattle.wh_workers.specs.Serving.{AreTurns};

use crate::feed::{Next, Supply, feed};
use crate::helpers::Helpers;
use crate::serving::WorkerSetup;
use std::alloc::{AllocError, Global};
use std::sync::Wait;
use std::sync::ledger::Ledger;
use std::thread::{PromisedHandle, Threads};
use wh_threads::{
    Equipment, Gate, Help, Message, MessagePass, SeriesRoom, ThreadCounts, TurnReceiver,
    TurnSender, Turns, WorkerResult, Works, pass_for, start_worker, stop,
};

/// Why not all turns were run.
#[derive(Clone, Copy, Debug, PartialEq, Eq)]
pub enum ServeError {
    /// Memory was refused.
    Memory,
    /// A thread couldn't be started, or all workers stopped before their last sign.
    NoThread,
}

/// Turns that were dispatched and run.
#[derive(Drop)]
pub struct Served {
    /// How many were dispatched.
    pub turns: u64,
    /// What was dispatched and received.
    pub slip: MessagePass,
    /// What no worker received, where that was found: the last message that was received.
    pub left: Option<Message>,
    /// Whether all of it was done: each turn that was dispatched was run.
    pub end: Result<(), ServeError>,
}

// What all workers of a call have of. The job itself is that of the calling thread.
#[derive(Drop)]
pub struct Team<J> {
    pub job: J,
    pub receiver: TurnReceiver,
    pub sender: TurnSender,
    ghost one: { receives_on receiver ≡ sends_on sender },
}

// What a further worker gets of it.
fn share_of<T: Ledger, C: Ledger, J: Turns<T, C> + Drop>(
    team: &Team<J>,
) -> Result<(J, TurnReceiver), AllocError>
    ensures { IfOk result (λ r. receives_on r.1 ≡ sends_on team.now.sender) }
{
    let job = team.job.share()?;
    let receiver = team.receiver.try_clone()?;
    Ok((job, receiver))
}

// What is made for a worker before its thread.
#[derive(Drop)]
pub struct WorkerRoom {
    // Room for the series that it runs at once.
    room: SeriesRoom,
    // Where it waits until its thread was made.
    gate: Gate,
}

// Rooms for `workers` workers.
fn rooms_for(alloc: Global, workers: usize) -> Result<Vec<WorkerRoom>, AllocError>
    ensures { IfOk result (λ rooms. vec_len rooms ≡ workers) }
{
    let mut rooms = Vec::with_capacity(alloc, workers)?;
    while rooms.len() < workers {
        let room = SeriesRoom::new(alloc)?;
        let gate = Gate::new(alloc)?;
        rooms.push_reserved(WorkerRoom { room, gate });
    }
    Ok(rooms)
}

// Starts the workers, each with one of these rooms. Where one can't be started all others have their last signs.
#[tactic(auto, using(crate::proofs::Turns::turns_with_last, crate::proofs::Turns::turns_still))]
fn start_all<
    T: Ledger + Send + 'static,
    C: Ledger + Send + 'static,
    O: Ledger,
    E: Ledger,
    J: Turns<T, C> + Drop + Send + 'static,
    R: Threads + Wait + Copy + Send + 'static,
>(
    rt: R,
    team: &Team<J>,
    lender: &mut ThreadCounts<T, C, O, E>,
    slip: &mut MessagePass,
    workers: usize,
    running: Vec<PromisedHandle<WorkerResult<T, C>, Works>>,
    rooms: Vec<WorkerRoom>,
) -> (
    Vec<PromisedHandle<WorkerResult<T, C>, Works>>,
    Result<(), ServeError>,
)
    requires can { J.can }
    requires channel { IsSeatAt (sends_on team.now.sender) slip.old }
    requires parts { (view slip.old).parts ≡ all_parts }
    requires few { workers ≤ 64 }
    requires lender { lender.old.workers_out ≡ 0 }
    requires room { (running.items ≡ []) × (workers ≤ vec_capacity running) }
    requires rooms { vec_len rooms ≡ workers }
    ensures channel { IsSeatAt (sends_on team.now.sender) slip.new }
    ensures parts { ((view slip.new).parts + vec_len result.0 ≡ all_parts)
        × (vec_len result.0 ≤ 64) }
    ensures dispatched { (turns q : ℕ) → AreTurns turns q (view slip.old).sent
        → AreTurns turns q (view slip.new).sent }
    ensures received { turns_in (view slip.new).received ≡ turns_in (view slip.old).received }
    ensures running { EachAt result.0.items (λ i h.
        (slice_get lender.new.tallies i ≡ Some h.promise.from)
        × (receives_on h.promise.receiver.value ≡ sends_on team.now.sender)) }
    ensures lender { lender.new ≡ record lender.old { workers_out = vec_len result.0 } }
{
    let mut running = running;
    let mut rooms = rooms;
    for seat in 0..workers {
        let Ok((job, receiver)) = share_of::<T, C, J>(team) else {
            stop(&rt, &team.sender, slip, seat);
            return (running, Err(ServeError::Memory));
        };
        let WorkerRoom { room, gate } = rooms.take_last();
        let with = Equipment {
            job,
            receiver,
            worker: lender.lend_worker(seat),
            slip: pass_for(&team.sender, slip),
            room,
            gate,
        };
        match start_worker(rt, with) {
            Ok(handle) => running.push_reserved(handle),
            Err(unstarted) => {
                lender.take_refused_worker(seat, unstarted, &team.sender, slip);
                stop(&rt, &team.sender, slip, seat);
                return (running, Err(ServeError::NoThread));
            }
        }
    }
    (running, Ok(()))
}

// Joins the workers, the last one first.
fn join_all<T: Ledger, C: Ledger, O: Ledger, E: Ledger, R: Threads>(
    rt: &R,
    sender: &TurnSender,
    lender: &mut ThreadCounts<T, C, O, E>,
    slip: &mut MessagePass,
    running: Vec<PromisedHandle<WorkerResult<T, C>, Works>>,
)
    requires channel { IsSeatAt (sends_on sender.now) slip.old × (0 < (view slip.old).parts) }
    requires running { EachAt running.items (λ i h.
        (slice_get lender.old.tallies i ≡ Some h.promise.from)
        × (receives_on h.promise.receiver.value ≡ sends_on sender.now)) }
    ensures channel { IsSeatAt (sends_on sender.now) slip.new }
    ensures parts { (view slip.new).parts ≡ (view slip.old).parts + vec_len running }
    ensures sent { (view slip.new).sent ≡ (view slip.old).sent }
    ensures out { lender.new.workers_out + vec_len running ≡ lender.old.workers_out }
    ensures only { lender.new ≡ record lender.old {
      tallies = lender.new.tallies;
      workers_out = lender.new.workers_out;
    } }
    ensures grown { turns_of lender.new.tallies + turns_in (view slip.old).received
        ≡ turns_of lender.old.tallies + turns_in (view slip.new).received }
{
    let mut running = running;
    while let Some(handle) = running.pop() {
        let seat = running.len();
        lender.join_worker(rt, seat, handle, sender, slip);
    }
}

// Dispatches the turns, and then the last signs. Returns the number of turns dispatched, and the error of `feed`.
#[tactic(auto, using(crate::proofs::Turns::handed_with_last))]
fn dispatch_all<
    T: Ledger,
    C: Ledger,
    O: Ledger + Send + 'static,
    E: Ledger + Send + 'static,
    S: Supply,
    H: Help<O> + Drop + Send + 'static,
    P: Help<E> + Drop + Send + 'static,
    R: Threads + Wait + Copy + Send + 'static,
>(
    rt: R,
    supply: &mut S,
    helpers: &mut Helpers<O, E, H, P>,
    lender: &mut ThreadCounts<T, C, O, E>,
    sender: &TurnSender,
    slip: &mut MessagePass,
    first: Option<Next>,
    run_config: WorkerSetup,
) -> (u64, Result<(), ServeError>)
    requires channel { IsSeatAt (sends_on sender.now) slip.old × (0 < (view slip.old).parts) }
    requires begun { AreTurns 0 run_config.quantum (view slip.old).sent }
    requires lent { AreLent helpers.old.scanner helpers.old.reclaimer lender.old }
    ensures channel { IsSeatAt (sends_on sender.now) slip.new }
    ensures out { Dispatches (view slip.old) result.0 run_config.quantum (view slip.new) }
    ensures lent { AreLent helpers.new.scanner helpers.new.reclaimer lender.new }
    ensures only { lender.new ≡ record lender.old {
      scanners_out = lender.new.scanners_out;
      reclaimers_out = lender.new.reclaimers_out;
    } }
{
    let WorkerSetup { workers, quantum } = run_config;
    let fed = feed(rt, supply, helpers, lender, sender, slip, first, quantum);
    stop(&rt, sender, slip, workers);
    fed
}

/// Starts the workers, dispatches the turns, the first as the supply has said already, if it has, and joins the workers.
/// Returns the number of turns dispatched, and an error if memory, a worker's thread or a reclaimer was lacking.
#[tactic(auto, using(crate::proofs::Turns::turns_handed, crate::proofs::Turns::turns_still))]
pub fn run_crew<
    T: Ledger + Send + 'static,
    C: Ledger + Send + 'static,
    O: Ledger + Send + 'static,
    E: Ledger + Send + 'static,
    J: Turns<T, C> + Drop + Send + 'static,
    S: Supply,
    H: Help<O> + Drop + Send + 'static,
    P: Help<E> + Drop + Send + 'static,
    R: Threads + Wait + Copy + Send + 'static,
>(
    rt: R,
    alloc: Global,
    team: &Team<J>,
    supply: &mut S,
    helpers: &mut Helpers<O, E, H, P>,
    lender: &mut ThreadCounts<T, C, O, E>,
    slip: &mut MessagePass,
    first: Option<Next>,
    run_config: WorkerSetup,
) -> (u64, Result<(), ServeError>)
    requires can { J.can }
    requires channel { IsSeatAt (sends_on team.now.sender) slip.old }
    requires parts { (view slip.old).parts ≡ all_parts }
    requires begun { AreTurns 0 run_config.quantum (view slip.old).sent }
    requires few { run_config.workers ≤ 64 }
    requires lender { lender.old.workers_out ≡ 0 }
    requires lent { AreLent helpers.old.scanner helpers.old.reclaimer lender.old }
    ensures channel { IsSeatAt (sends_on team.now.sender) slip.new }
    ensures parts { (view slip.new).parts ≡ all_parts }
    ensures dispatched { AreTurns result.0 run_config.quantum (view slip.new).sent }
    ensures grown { turns_of lender.new.tallies + turns_in (view slip.old).received
        ≡ turns_of lender.old.tallies + turns_in (view slip.new).received }
    ensures lent { AreLent helpers.new.scanner helpers.new.reclaimer lender.new }
    ensures only { lender.new ≡ record lender.old {
      tallies = lender.new.tallies;
      scanners_out = lender.new.scanners_out;
      reclaimers_out = lender.new.reclaimers_out;
    } }
{
    let Ok(running) = Vec::with_capacity(alloc, run_config.workers) else {
        return (0, Err(ServeError::Memory));
    };
    let Ok(rooms) = rooms_for(alloc, run_config.workers) else {
        return (0, Err(ServeError::Memory));
    };
    let workers = run_config.workers;
    let (running, started) = start_all(rt, team, lender, slip, workers, running, rooms);
    let (turns, end) = match started {
        Ok(()) => {
            let sender = &team.sender;
            dispatch_all(rt, supply, helpers, lender, sender, slip, first, run_config)
        }
        Err(error) => (0, Err(error)),
    };
    join_all(&rt, &team.sender, lender, slip, running);
    (turns, end)
}
