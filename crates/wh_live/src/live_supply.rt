//! Which turns of a live host are dispatched.

use crate::live_queue::LiveQueue;
use std::sync::Wait;
use std::sync::ledger::Ledger;
use wh_cell::CellAgreements;
use wh_scheduler::{Choice, Series, TurnSupply};
use wh_swap::SwapDev;
use wh_workers::{Next, Supply};

/// Dispatches turns of whoever can go on and has none, until the host is to stop. Where none can it sleeps: until a turn
/// completes, an instance joins or is woken, or the host is to stop.
pub struct LiveSupply<D: SwapDev, T: Ledger, C: Ledger, O: Ledger, E: Ledger, B: CellAgreements> {
    turns: TurnSupply<D, T, C, O, E, B>,
    queue: LiveQueue,
    // How many instances had joined or were woken when some call was last found to wait for a frame.
    arrivals: u64,
}

impl<D: SwapDev + Drop, T: Ledger, C: Ledger, O: Ledger, E: Ledger, B: CellAgreements> Drop
    for LiveSupply<D, T, C, O, E, B> {
    fn drop(self) {
        let LiveSupply {
            turns: _,
            queue: _,
            arrivals: _,
        } = self;
    }
}

impl<D: SwapDev + Drop, T: Ledger, C: Ledger, O: Ledger, E: Ledger, B: CellAgreements> LiveSupply<
    D,
    T,
    C,
    O,
    E,
    B,
> {
    /// Returns the supply of this queue, through which `turns` are dispatched: both are of one schedule.
    pub fn new(
        turns: TurnSupply<D, T, C, O, E, B>,
        queue: LiveQueue,
    ) -> LiveSupply<D, T, C, O, E, B> {
        LiveSupply {
            turns,
            queue,
            arrivals: 0,
        }
    }

    // Some call waits for a frame. It may have come so: a step whose turn came back so is asked for by the worker.
    fn note_wait<R: Wait>(&mut self, rt: &R) {
        let arrivals = self.queue.arrivals(rt);
        if arrivals != self.arrivals {
            self.arrivals = arrivals;
            self.queue.want_frame();
        }
    }
}

impl<D: SwapDev + Drop, T: Ledger, C: Ledger, O: Ledger, E: Ledger, B: CellAgreements> Supply
    for LiveSupply<D, T, C, O, E, B> {
    fn next<R: Wait>(&mut self, rt: &R, has_reclaimer: bool) -> Next {
        self.queue.begin();
        for _ in rt.forever() {
            let notifications = self.queue.notifications();
            if self.queue.is_over() {
                return Next::End;
            }
            if let Some(Series { id, count }) = self.turns.dispatch_next() {
                return Next::Turns(id, count);
            }
            if self.turns.refill(rt) == Choice::Frame {
                if !has_reclaimer {
                    return Next::Reclaimer;
                }
                self.note_wait(rt);
            }
            if self.turns.is_empty() {
                self.turns.wait(rt, notifications);
            }
        }
        unreachable!()
    }
}
