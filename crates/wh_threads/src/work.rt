// A worker's thread.

ghost use Rattle.std.specs.Prelude.{◌≡◌, ◌+◌, ◌^◌, ◌<◌, ◌≤◌, ◌∷◌, ◌++◌, [], ℕ, IfSome, IfNone, false, vec_capacity};
ghost use Rattle.crossbeam_channel.specs.Claims.{view, IsSeatAt};
ghost use Rattle.crossbeam_channel.specs.Ends.{receives_on};
ghost use Rattle.wh_threads.specs.Gates.{IsTold};
ghost use Rattle.wh_threads.specs.Handover.{traffic, turns_in};
ghost use Rattle.wh_threads.specs.Working.{HasWorked, turns_due};
ghost use Rattle.wh_threads.specs.declared.channel.Message.TheVariants.{Turns, Last};

use crate::channel::{Message, MessagePass, TurnReceiver, receive};
use crate::gate::{Told, Waiting};
use crate::received_turns::ReceivedTurns;
use crate::series_room::SeriesRoom;
use crate::tally::Tally;
use crate::worker::Worker;
use std::alloc::AllocError;
use std::marker::Model;
use std::snapshot::Snapshot;
use std::sync::Wait;
use std::sync::ledger::Ledger;
use std::thread::Promise;

/// What a worker does with turns. Each worker has a value of its own.
pub trait Turns<T: Ledger, C: Ledger> {
    // What is known of the job's own type wherever it runs turns. A thread knows of a type what it is told (`IsSync`, say), so
    // who starts threads of its own says here of what.
    ghost can: { Type 0 };

    /// Waits until this worker may receive turns. Where turns are run under one lock, whoever waits here doesn't wait there.
    fn acquire_turn_lock<R: Wait>(&self, rt: &R);

    /// Releases the right to receive turns: this worker receives no further one, so another may.
    fn release_turn_lock(&self);

    /// Returns how many series it can run at once: a worker receives at most that many before it runs them, and at most
    /// 64. 0 counts as 1.
    fn most_at_once(&self) -> usize;

    /// Runs all turns of the series that were received, each of which the worker counts. None of these is left, and the list has
    /// as much room as before.
    fn run_all<R: Wait>(&self, rt: &R, orders: &mut Vec<ReceivedTurns>, worker: &mut Worker<T, C>)
        requires can { Self.can }
        requires room { worker.old.tally.turns + turns_due orders.old.items < 2 ^ 64 }
        ensures from { worker.new.from ≡ worker.old.from }
        ensures turns { worker.new.tally.turns
            ≡ worker.old.tally.turns + turns_due orders.old.items }
        ensures done { orders.new.items ≡ [] }
        ensures capacity { vec_capacity orders.old ≤ vec_capacity orders.new };

    /// Returns the same for another worker.
    ///
    /// # Errors
    /// `AllocError` if an allocation fails.
    fn share(&self) -> Result<Self, AllocError>;
}

/// What a worker's thread returns: its counts, and what it received. None is made elsewhere, so what it has was counted by
/// a worker's thread.
#[derive(Drop)]
pub struct WorkerResult<T: Ledger, C: Ledger> {
    worker: Worker<T, C>,
    slip: MessagePass,
    told: Told,
}

impl<T: Ledger, C: Ledger> Model for WorkerResult<T, C> {
    ghost use Rattle.wh_threads.specs.Working.{WorkerResultState};

    ghost Value = { WorkerResultState };

    ghost view = { λ r. record {
      worker = r.worker;
      slip = r.slip;
      told = r.told.slip;
      has_begun = r.told.has_begun;
    } };
}

impl<T: Ledger, C: Ledger> WorkerResult<T, C> {
    // Its parts.
    pub(crate) fn into_parts(self) -> (Worker<T, C>, MessagePass)
        ensures { (result.0 ≡ self.worker) × (result.1 ≡ self.slip) }
    {
        let (worker, slip, _) = self.into_all();
        (worker, slip)
    }

    // The same, with what it was told before it began.
    pub(crate) fn into_all(self) -> (Worker<T, C>, MessagePass, Told)
        ensures parts { (result.0 ≡ self.worker) × (result.1 ≡ self.slip) }
        ensures told { (result.2.slip ≡ self.told) × (result.2.has_begun ≡ self.has_begun) }
    {
        let WorkerResult { worker, slip, told } = self;
        (worker, slip, told)
    }
}

/// What a worker's thread promises: one turn more than it began with for each that it received.
#[derive(Drop)]
pub struct Works {
    /// With which counts it began.
    pub from: Tally,
    /// Where it receives.
    pub receiver: Snapshot<TurnReceiver>,
}

impl<T: Ledger, C: Ledger> Promise<WorkerResult<T, C>> for Works {
    ghost use Rattle.crossbeam_channel.specs.Ends.{receives_on};
    ghost use Rattle.wh_threads.specs.Working.{HasWorked};

    ghost kept_by = { λ p r. HasWorked (receives_on p.receiver.value) p.from r.worker r.slip };
}

/// Returns the series of turns that a message dispatches; `None` for the last message.
pub fn series_of(message: Message) -> Option<ReceivedTurns>
    ensures some { IfSome result (λ order. (first : ℕ)
        × (message ≡ Turns first order.count order.instance order.quantum)) }
    ensures few { IfSome result (λ order. order.count < 2 ^ 32) }
    ensures none { IfNone result (message ≡ Last) }
{
    match message {
        Message::Turns {
            count,
            instance,
            quantum,
            ..
        } => Some(ReceivedTurns::of(instance, count, quantum)),
        Message::Last => None,
    }
}

/// Waits for a message, and receives it; returns the turns that it is. Returns `None` at the last sign, and if the
/// channel was empty and no sender was left.
#[tactic(auto, using(crate::proofs::Runs::turns_in_turns, crate::proofs::Runs::turns_in_last))]
pub fn receive_turns<R: Wait>(
    rt: &R,
    receiver: &TurnReceiver,
    slip: &mut MessagePass,
) -> Option<ReceivedTurns>
    requires channel { IsSeatAt (receives_on receiver.now) slip.old }
    requires part { 0 < (view slip.old).parts }
    ensures channel { IsSeatAt (receives_on receiver.now) slip.new }
    ensures only { view slip.new
        ≡ record (view slip.old) { received = (view slip.new).received } }
    ensures order { IfSome result (λ order. (first : ℕ) × ((view slip.new).received
        ≡ (view slip.old).received ++ Turns first order.count order.instance order.quantum ∷ [])) }
    ensures few { IfSome result (λ order. order.count < 2 ^ 32) }
    ensures some { IfSome result (λ order. turns_in (view slip.new).received
        ≡ turns_in (view slip.old).received + order.count) }
    ensures none { IfNone result (turns_in (view slip.new).received
        ≡ turns_in (view slip.old).received) }
{
    series_of(receive(rt, receiver, slip)?)
}

// Receives series and runs as many at once as its job can, until the last sign, or the worker is full.
fn work<T: Ledger, C: Ledger, J: Turns<T, C>, R: Wait>(
    rt: &R,
    job: &J,
    receiver: &TurnReceiver,
    worker: Worker<T, C>,
    slip: MessagePass,
    room: SeriesRoom,
) -> (Worker<T, C>, MessagePass)
    requires channel { IsSeatAt (receives_on receiver.now) slip }
    requires can { J.can }
    requires new { view slip ≡ traffic 1 [] [] }
    requires begun { worker.tally ≡ worker.from }
    ensures { HasWorked (receives_on receiver.now) worker.from result.0 result.1 }
{
    let mut worker = worker;
    let mut slip = slip;
    let mut room = room;
    for _ in rt.forever() {
        if worker.is_full() {
            break;
        }
        job.acquire_turn_lock(rt);
        let Some(order) = receive_turns(rt, receiver, &mut slip) else {
            break;
        };
        if room.run_with_more(rt, job, receiver, &mut slip, order, &mut worker) {
            break;
        }
    }
    job.release_turn_lock();
    (worker, slip)
}

/// Waits until the thread is told to begin, and then works; or does nothing if it is told to stay.
pub fn work_once_told<T: Ledger, C: Ledger, J: Turns<T, C> + Drop, R: Wait + Drop>(
    rt: R,
    job: J,
    receiver: TurnReceiver,
    worker: Worker<T, C>,
    slip: MessagePass,
    room: SeriesRoom,
    waiting: Waiting,
) -> WorkerResult<T, C>
    requires channel { IsSeatAt (receives_on receiver) slip }
    requires can { J.can }
    requires new { view slip ≡ traffic 1 [] [] }
    requires begun { worker.tally ≡ worker.from }
    ensures worked { HasWorked (receives_on receiver) worker.from result.worker result.slip }
    ensures told { IsTold (receives_on waiting.receiver) result.told result.has_begun }
    ensures idle { result.has_begun ≡ false → (result.worker.tally ≡ worker.from)
        × (view result.slip ≡ traffic 1 [] []) }
{
    let told = waiting.wait(&rt);
    if !told.has_begun {
        return WorkerResult { worker, slip, told };
    }
    let (worker, slip) = work(&rt, &job, &receiver, worker, slip, room);
    WorkerResult { worker, slip, told }
}
