// Room for the series that a worker runs at once.

ghost use Rattle.std.specs.Prelude.{◌≡◌, ◌+◌, ◌-◌, ◌*◌, ◌^◌, ◌<◌, ◌≤◌, vec_len, vec_capacity};
ghost use Rattle.crossbeam_channel.specs.Claims.{view, IsSeatAt};
ghost use Rattle.crossbeam_channel.specs.Ends.{receives_on};
ghost use Rattle.wh_threads.specs.Handover.{turns_in};
ghost use Rattle.wh_threads.specs.Working.{turns_due};

use crate::channel::{MessagePass, TurnReceiver, receive_at_once};
use crate::received_turns::ReceivedTurns;
use crate::work::{Turns, series_of};
use crate::worker::Worker;
use std::alloc::{AllocError, Global};
use std::marker::Model;
use std::sync::Wait;
use std::sync::ledger::Ledger;

// How many series a worker runs at once at most, whatever its job says.
const MOST_SERIES: usize = 64;

/// Room for the series that a worker runs at once, 64 at most. None is there but while they are run.
pub struct SeriesRoom {
    orders: Vec<ReceivedTurns>,
}

impl Model for SeriesRoom {
    ghost use Rattle.std.specs.Prelude.{◌≡◌, ◌≤◌, [], ⊤, vec_capacity};

    ghost Value = { ⊤ };

    ghost view = { λ _. tt };

    ghost invariant = { λ r. (r.orders.items ≡ []) × (64 ≤ vec_capacity r.orders) };
}

impl Drop for SeriesRoom {
    fn drop(self) {
        let SeriesRoom { orders } = self;
        orders.destroy_empty();
    }
}

// Receives further series that are there already, until there are `most` in the list, no message is there, or the last
// sign comes. Tells whether it came.
fn receive_more<R: Wait>(
    rt: &R,
    receiver: &TurnReceiver,
    slip: &mut MessagePass,
    orders: &mut Vec<ReceivedTurns>,
    most: usize,
) -> bool
    requires channel { IsSeatAt (receives_on receiver.now) slip.old }
    requires part { 0 < (view slip.old).parts }
    requires room { (vec_len orders.old ≤ 64) × (64 ≤ vec_capacity orders.old) }
    requires few { turns_due orders.old.items ≤ vec_len orders.old * (2 ^ 32 - 1) }
    ensures channel { IsSeatAt (receives_on receiver.now) slip.new }
    ensures only { view slip.new
        ≡ record (view slip.old) { received = (view slip.new).received } }
    ensures due { turns_in (view slip.new).received + turns_due orders.old.items
        ≡ turns_in (view slip.old).received + turns_due orders.new.items }
    ensures few { turns_due orders.new.items ≤ 64 * (2 ^ 32 - 1) }
    ensures capacity { vec_capacity orders.new ≡ vec_capacity orders.old }
{
    while orders.len() < most && orders.len() < MOST_SERIES {
        let Some(message) = receive_at_once(rt, receiver, slip) else {
            return false;
        };
        match series_of(message) {
            Some(order) => orders.push_reserved(order),
            None => return true,
        }
    }
    false
}

impl SeriesRoom {
    /// Reserves room for as many series as a worker runs at once, so that none is allocated later.
    ///
    /// # Errors
    /// `AllocError` if the allocation fails.
    pub fn new(alloc: Global) -> Result<SeriesRoom, AllocError> {
        let orders = Vec::with_capacity(alloc, MOST_SERIES)?;
        Ok(SeriesRoom { orders })
    }

    // Runs this series, and at once with it further ones that are there already, as many as the job can. Whether the
    // last sign came after them.
    pub(crate) fn run_with_more<T: Ledger, C: Ledger, J: Turns<T, C>, R: Wait>(
        &mut self,
        rt: &R,
        job: &J,
        receiver: &TurnReceiver,
        slip: &mut MessagePass,
        order: ReceivedTurns,
        worker: &mut Worker<T, C>,
    ) -> bool
        requires can { J.can }
        requires channel { IsSeatAt (receives_on receiver.now) slip.old }
        requires part { 0 < (view slip.old).parts }
        requires few { order.count < 2 ^ 32 }
        requires room { worker.old.tally.turns ≤ 2 ^ 64 - 2 ^ 38 }
        ensures channel { IsSeatAt (receives_on receiver.now) slip.new }
        ensures only { view slip.new
            ≡ record (view slip.old) { received = (view slip.new).received } }
        ensures from { worker.new.from ≡ worker.old.from }
        ensures turns { worker.new.tally.turns + turns_in (view slip.old).received
            ≡ worker.old.tally.turns + order.count + turns_in (view slip.new).received }
    {
        self.orders.push_reserved(order);
        let most = job.most_at_once();
        let is_last = receive_more(rt, receiver, slip, &mut self.orders, most);
        job.run_all(rt, &mut self.orders, worker);
        is_last
    }
}
