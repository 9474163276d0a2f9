// Workers' threads are started.

ghost use Rattle.std.specs.Prelude.{◌≡◌, ◌+◌, ◌<◌, [], IfOk, IfErr, false};
ghost use Rattle.crossbeam_channel.specs.Claims.{view, IsSeatAt};
ghost use Rattle.crossbeam_channel.specs.Ends.{sends_on, receives_on};
ghost use Rattle.wh_threads.specs.Gates.{IsTold};
ghost use Rattle.wh_threads.specs.Handover.{traffic, DispatchesLast};
ghost use Rattle.wh_threads.specs.Working.{HasWorked};

use crate::channel::{Message, MessagePass, TurnReceiver, TurnSender, dispatch};
use crate::gate::Gate;
use crate::series_room::SeriesRoom;
use crate::work::{Turns, WorkerResult, Works, work_once_told};
use crate::worker::Worker;
use std::snapshot::Snapshot;
use std::sync::Wait;
use std::sync::ledger::Ledger;
use std::thread;
use std::thread::{PromisedHandle, Threads};

/// What a worker's thread owns.
pub struct Equipment<T: Ledger, C: Ledger, J: Turns<T, C>> {
    /// What it does with turns.
    pub job: J,
    /// Where it receives.
    pub receiver: TurnReceiver,
    /// Its counts.
    pub worker: Worker<T, C>,
    /// What it has received: nothing yet.
    pub slip: MessagePass,
    /// Where the series are that it runs at once.
    pub room: SeriesRoom,
    /// Where it waits until its thread was made.
    pub gate: Gate,
}

/// What a worker's thread would have owned, where none could be made.
#[derive(Drop)]
pub struct Unstarted<T: Ledger, C: Ledger> {
    /// Its counts.
    pub worker: Worker<T, C>,
    /// What it has received: nothing.
    pub slip: MessagePass,
}

/// Dispatches last signs, one for each of the `workers`.
pub fn stop<R: Wait>(rt: &R, sender: &TurnSender, slip: &mut MessagePass, workers: usize)
    requires channel { IsSeatAt (sends_on sender.now) slip.old }
    requires part { 0 < (view slip.old).parts }
    ensures channel { IsSeatAt (sends_on sender.now) slip.new }
    ensures last { DispatchesLast (view slip.old) (view slip.new) }
{
    for _ in 0..workers {
        if !dispatch(rt, sender, slip, Message::Last) {
            return;
        }
    }
}

/// Starts a worker's thread.
///
/// # Errors
/// Where no thread could be made: the worker comes back, which has received and counted nothing.
pub fn start_worker<
    T: Ledger + Send + 'static,
    C: Ledger + Send + 'static,
    J: Turns<T, C> + Drop + Send + 'static,
    R: Threads + Wait + Copy + Send + 'static,
>(
    rt: R,
    with: Equipment<T, C, J>,
) -> Result<PromisedHandle<WorkerResult<T, C>, Works>, Unstarted<T, C>>
    requires can { J.can }
    requires channel { IsSeatAt (receives_on with.receiver) with.slip }
    requires new { view with.slip ≡ traffic 1 [] [] }
    requires begun { with.worker.tally ≡ with.worker.from }
    ensures ok { IfOk result (λ handle. (handle.promise.from ≡ with.worker.from)
        × (receives_on handle.promise.receiver.value ≡ receives_on with.receiver)) }
    ensures err { IfErr result (λ back. (back.worker.from ≡ with.worker.from)
        × (back.worker.tally ≡ with.worker.from)) }
    ensures slip { IfErr result (λ back. IsSeatAt (receives_on with.receiver) back.slip
        × (view back.slip ≡ traffic 1 [] [])) }
{
    let Equipment {
        job,
        receiver,
        worker,
        slip: mine,
        room,
        gate,
    } = with;
    let (opener, waiting) = gate.split();
    let promise = Works {
        from: worker.from(),
        receiver: Snapshot::of(&receiver),
    };
    let run = move || -> WorkerResult<T, C>
        requires { J.can × IsSeatAt (receives_on receiver) mine × (view mine ≡ traffic 1 [] [])
            × (worker.tally ≡ worker.from) }
        ensures { HasWorked (receives_on receiver) worker.from result.worker result.slip
            × IsTold (receives_on waiting.receiver) result.told result.has_begun
            × (result.has_begun ≡ false → (result.worker.tally ≡ worker.from)
            × (view result.slip ≡ traffic 1 [] [])) }
    { work_once_told(rt, job, receiver, worker, mine, room, waiting) };
    match thread::spawn_with(&rt, promise, run) {
        Ok(handle) => {
            opener.begin(&rt);
            Ok(handle)
        }
        Err(refused) => {
            let closed = opener.stay(&rt);
            let (worker, slip, told) = (refused.value)().into_all();
            closed.check(told);
            Err(Unstarted { worker, slip })
        }
    }
}
