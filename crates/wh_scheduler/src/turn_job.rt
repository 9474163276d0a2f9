//! What a worker does with the series that it has received: many turns of each at once, and the others one after the other.

ghost use Rattle.std.specs.Prelude.{◌≡◌, ◌+◌, ◌^◌, ◌<◌, ◌≤◌, IfSome, false, length, true, vec_capacity};
ghost use Rattle.std.specs.Thread.{IsSync};
ghost use Rattle.wh_threads.specs.Working.{turns_due};

use crate::at_once::AtOnce;
use crate::jobs::Schedule;
use crate::round_room::{Aim, MOST_AT_ONCE};
use crate::run_queue::Series;
use std::alloc::{AllocError, Global};
use std::hint;
use std::sync::atomic::{AtomicU64, Ordering};
use std::sync::ledger::Ledger;
use std::sync::{Arc, Wait};
use std::thread::Threads;
use wh_cell::{CellAgreements, HostCell};
use wh_host_model::TurnEnd;
use wh_swap::SwapDev;
use wh_threads::{ReceivedTurns, Turns, Worker};
use wh_workers::TURNS_FOR_AN_OFFER;

// For how many turns a worker receives turns while another one waits to do so.
const MOST_TURNS_HELD: u64 = 1024;

// How many turns a series has at most.
const MOST_TURNS_IN_A_SERIES: u32 = 4096;

// A series of which fewer turns are left is in no round.
const FEWEST_TURNS: u32 = 4;

// Nor is one that is shorter than the longest by this factor.
const TIMES_SHORTER: u32 = 8;

// A round of fewer charges for each of its threads would take longer to begin than it saves.
const FEWEST_CHARGES: u64 = 100_000;

// How often a worker in the midst of a series, which has released the host's lock, looks whether who wants it has it
// now.
const LOOKS_WHILE_WANTED: u32 = 16;

// How many rounds series are in at most, before they are run one after the other.
const MOST_ROUNDS: u32 = 1024;

// How a series ended.
#[derive(Clone, Copy)]
struct SeriesEnd {
    // How its last turn ended.
    last: TurnEnd,
    // Whether each of its turns found something to do.
    is_of_use: bool,
}

// Whether a turn that ended so found something to do.
fn has_done(end: TurnEnd) -> bool {
    end == TurnEnd::Again || end == TurnEnd::Ended
}

// What series have in common that are run at once.
#[derive(Clone, Copy)]
struct Group {
    // Where no more turns of one are left, its last ones are run by themselves.
    few: u32,
    // How many turns the next series of each has at most.
    next: u32,
}

// A group of one.
const ALONE: Group = Group {
    few: u32::MAX,
    next: MOST_TURNS_IN_A_SERIES,
};

// What these series have in common, of which none has had a turn. Where some are shorter than others they catch up: the longest
// don't grow meanwhile.
fn group_of(orders: &[ReceivedTurns]) -> Group {
    let mut longest: u32 = 0;
    for order in orders {
        longest = longest.max(order.received());
    }
    let few = FEWEST_TURNS.max(longest / TIMES_SHORTER);
    let mut next = longest.saturating_mul(2).min(MOST_TURNS_IN_A_SERIES);
    for order in orders {
        if order.received() > few && order.received() < longest {
            next = longest;
        }
    }
    Group { few, next }
}

// How many turns the next series of an instance has, after one of `count` turns that ended so: twice as many if its
// call can make progress and each turn did. So a call is never followed by more turns without progress than it had
// turns.
fn next_count(count: u32, end: SeriesEnd, group: Group) -> u32 {
    if end.last == TurnEnd::Again && end.is_of_use {
        return count.saturating_mul(2).min(group.next);
    }
    1
}

// How long a round of these series by `threads` threads runs at most: each series has a turn left after it. None if
// there are fewer than two, one of them has few turns left, or the round would be too short to pay.
fn aim_of<'a>(orders: &[ReceivedTurns], threads: usize, wanted: &'a AtomicU64) -> Option<Aim<'a>>
    ensures { IfSome result (λ aim. aim.further + 1 < 2 ^ 32) }
{
    let first = orders.first()?;
    if orders.len() < 2 {
        return None;
    }
    let mut least = first.count();
    for order in orders {
        least = least.min(order.count());
    }
    let quantum = first.quantum();
    let charges = u64::from(least)
        .saturating_mul(u64::from(quantum))
        .saturating_mul(orders.len() as u64);
    let fewest = FEWEST_CHARGES.saturating_mul(threads.min(orders.len()) as u64);
    if least < FEWEST_TURNS || charges < fewest {
        return None;
    }
    Some(Aim {
        quantum,
        further: least - 2,
        wanted,
    })
}

/// Runs a worker's turns. Where it has received several series, each of many turns, it runs most of these at once, round by round,
/// each round under one hold of the lock. It runs the others of a series under one hold too, unless somebody wants that, and then
/// completes it.
pub struct TurnJob<D: SwapDev, T: Ledger, C: Ledger, O: Ledger, E: Ledger, B: CellAgreements, X> {
    /// The cell.
    pub cell: HostCell<D, T, C, O, E, B>,
    /// Whose turns are dispatched.
    pub schedule: Arc<Schedule, Global>,
    /// How many turns it has received while it holds the turn lock, and one more where it awaits a series; 0 where it doesn't hold
    /// it.
    pub turns_held: AtomicU64,
    /// Starts the threads of rounds.
    pub threads: Arc<X, Global>,
    /// How many threads run a round, with the worker's own. One runs none.
    pub workers: usize,
}

impl<D: SwapDev + Drop, T: Ledger, C: Ledger, O: Ledger, E: Ledger, B: CellAgreements, X: Drop> Drop
    for TurnJob<D, T, C, O, E, B, X> {
    fn drop(self) {
        let TurnJob {
            cell: _,
            schedule: _,
            turns_held: _,
            threads: _,
            workers: _,
        } = self;
    }
}

impl<D: SwapDev + Drop, T: Ledger, C: Ledger, O: Ledger, E: Ledger, B: CellAgreements, X> TurnJob<
    D,
    T,
    C,
    O,
    E,
    B,
    X,
> {
    // Who wants the host's lock, which is free, has some time to get it.
    fn pause_while_wanted(&self) {
        for _ in 0..LOOKS_WHILE_WANTED {
            if !self.cell.is_wanted() {
                return;
            }
            hint::spin_loop();
        }
    }

    // The same, and so has the scanner some more.
    fn make_way(&self) {
        self.pause_while_wanted();
        self.schedule.make_way_for_scanner();
    }

    // Runs these turns under one hold of the lock, one at least, until all are run or somebody wants the lock.
    fn hold<R: Wait>(
        &self,
        rt: &R,
        order: &mut ReceivedTurns,
        worker: &mut Worker<T, C>,
    ) -> SeriesEnd
        requires room { worker.old.tally.turns + order.old.count < 2 ^ 64 }
        requires due { 0 < order.old.count }
        ensures from { worker.new.from ≡ worker.old.from }
        ensures turns { worker.new.tally.turns + order.new.count
            ≡ worker.old.tally.turns + order.old.count }
        ensures fewer { order.new.count < order.old.count }
    {
        let mut locked = self.cell.lock_to_work(rt);
        let mut last = locked.turn(order, worker);
        let mut is_of_use = has_done(last);
        while order.count() > 0 && !self.cell.is_wanted() {
            last = locked.turn(order, worker);
            is_of_use = is_of_use && has_done(last);
        }
        SeriesEnd { last, is_of_use }
    }

    // Runs all of these turns. While somebody wants the lock, it is released after each.
    fn run_series<R: Wait>(
        &self,
        rt: &R,
        order: ReceivedTurns,
        worker: &mut Worker<T, C>,
    ) -> SeriesEnd
        requires room { worker.old.tally.turns + order.count < 2 ^ 64 }
        ensures from { worker.new.from ≡ worker.old.from }
        ensures turns { worker.new.tally.turns ≡ worker.old.tally.turns + order.count }
    {
        let mut order = order;
        let mut end = SeriesEnd {
            last: TurnEnd::Idle,
            is_of_use: true,
        };
        while order.count() > 0 {
            let held = self.hold(rt, &mut order, worker);
            end = SeriesEnd {
                last: held.last,
                is_of_use: end.is_of_use && held.is_of_use,
            };
            if order.count() > 0 {
                self.pause_while_wanted();
            }
        }
        order.finish();
        end
    }

    // Runs what is left of a series that was received, and notes that it has come back.
    fn run<R: Wait>(&self, rt: &R, order: ReceivedTurns, group: Group, worker: &mut Worker<T, C>)
        requires room { worker.old.tally.turns + order.count < 2 ^ 64 }
        ensures from { worker.new.from ≡ worker.old.from }
        ensures turns { worker.new.tally.turns ≡ worker.old.tally.turns + order.count }
    {
        let (id, received) = (order.instance(), order.received());
        let end = self.run_series(rt, order, worker);
        let next = Series {
            id,
            count: next_count(received, end, group),
        };
        self.schedule.complete_series(rt, next, end.last);
    }

    // Counts these series as received. How many turns they have.
    fn note_received(&self, orders: &[ReceivedTurns]) -> u64 {
        let mut turns: u64 = 0;
        for order in orders {
            self.schedule.turn_lock.receive();
            turns = turns.saturating_add(u64::from(order.count()));
        }
        // One turn of those that it was to receive is counted already.
        let _ = self
            .turns_held
            .fetch_add(turns.saturating_sub(1), Ordering::SeqCst);
        turns
    }

    // Runs a turn of each series from this one on, under one hold of the lock, until all had theirs, somebody wants the lock, or it
    // comes to one of which few are left or whose call doesn't go on. Which one is next, and whether it is that one.
    fn turn_each<R: Wait>(
        &self,
        rt: &R,
        orders: &mut [ReceivedTurns],
        from: usize,
        few: u32,
        worker: &mut Worker<T, C>,
    ) -> (usize, bool)
        requires place { from < length orders.old }
        requires room { worker.old.tally.turns + turns_due orders.old < 2 ^ 64 }
        ensures place { (from ≤ result.0) × (result.1 ≡ false → from < result.0)
            × (result.1 ≡ true → result.0 < length orders.new) }
        ensures from { worker.new.from ≡ worker.old.from }
        ensures turns { worker.new.tally.turns + turns_due orders.new
            ≡ worker.old.tally.turns + turns_due orders.old }
    {
        let mut locked = self.cell.lock_to_work(rt);
        let mut at = from;
        while at < orders.len() {
            if orders[at].count() <= few || locked.turn(&mut orders[at], worker) != TurnEnd::Again {
                return (at, true);
            }
            at += 1;
            if self.cell.is_wanted() {
                return (at, false);
            }
        }
        (at, false)
    }

    // Runs a turn of each series. Those of which few are left, or whose call doesn't go on, are run to their end.
    fn run_next_turns<R: Wait>(
        &self,
        rt: &R,
        orders: &mut Vec<ReceivedTurns>,
        group: Group,
        worker: &mut Worker<T, C>,
    )
        requires room { worker.old.tally.turns + turns_due orders.old.items < 2 ^ 64 }
        ensures from { worker.new.from ≡ worker.old.from }
        ensures turns { worker.new.tally.turns + turns_due orders.new.items
            ≡ worker.old.tally.turns + turns_due orders.old.items }
        ensures capacity { vec_capacity orders.new ≡ vec_capacity orders.old }
    {
        let mut at = 0;
        while at < orders.len() {
            let (next, is_last) = self.turn_each(rt, orders, at, group.few, worker);
            at = next;
            if is_last {
                let order = orders.swap_remove(at);
                self.run(rt, order, group, worker);
            } else {
                self.pause_while_wanted();
            }
        }
    }
}

impl<
    D: SwapDev + Drop,
    T: Ledger,
    C: Ledger,
    O: Ledger,
    E: Ledger,
    B: CellAgreements,
    X: Threads + Sync,
> TurnJob<D, T, C, O, E, B, X> {
    // Runs a round of these series, each of which has many turns left. Whether it ran some turns: there were threads and room for it.
    fn run_round<R: Wait>(
        &self,
        rt: &R,
        orders: &mut [ReceivedTurns],
        worker: &mut Worker<T, C>,
    ) -> bool
        requires can { IsSync X.row }
        ensures from { worker.new.from ≡ worker.old.from }
        ensures ran { result ≡ true → worker.old.tally.turns < worker.new.tally.turns }
        ensures turns { worker.new.tally.turns + turns_due orders.new
            ≡ worker.old.tally.turns + turns_due orders.old }
    {
        if orders.len() > MOST_AT_ONCE || worker.is_full() {
            return false;
        }
        let Some(aim) = aim_of(orders, self.workers, self.cell.wanted()) else {
            return false;
        };
        let fork = AtOnce::new(&*self.threads, self.workers.max(1));
        self.pause_while_wanted();
        let mut locked = self.cell.lock_to_work(rt);
        let mut room = self.schedule.round_room.lock(rt);
        room.run(&fork, &mut locked, orders, aim, worker)
    }

    // Runs those of the series by themselves whose instances are left out of rounds.
    fn run_left_out<R: Wait>(
        &self,
        rt: &R,
        orders: &mut Vec<ReceivedTurns>,
        group: Group,
        worker: &mut Worker<T, C>,
    )
        requires room { worker.old.tally.turns + turns_due orders.old.items < 2 ^ 64 }
        ensures from { worker.new.from ≡ worker.old.from }
        ensures turns { worker.new.tally.turns + turns_due orders.new.items
            ≡ worker.old.tally.turns + turns_due orders.old.items }
        ensures capacity { vec_capacity orders.new ≡ vec_capacity orders.old }
    {
        let mut at = 0;
        while at < orders.len() {
            let id = orders[at].instance();
            if self.schedule.round_room.lock(rt).leaves_out(id) {
                let order = orders.swap_remove(at);
                self.run(rt, order, group, worker);
            } else {
                at += 1;
            }
        }
    }

    // Runs most turns of these series at once, where there are several.
    fn run_rounds<R: Wait>(
        &self,
        rt: &R,
        orders: &mut Vec<ReceivedTurns>,
        group: Group,
        worker: &mut Worker<T, C>,
    )
        requires can { IsSync X.row }
        requires room { worker.old.tally.turns + turns_due orders.old.items < 2 ^ 64 }
        ensures from { worker.new.from ≡ worker.old.from }
        ensures turns { worker.new.tally.turns + turns_due orders.new.items
            ≡ worker.old.tally.turns + turns_due orders.old.items }
        ensures capacity { vec_capacity orders.new ≡ vec_capacity orders.old }
    {
        self.run_left_out(rt, orders, group, worker);
        for _ in 0..MOST_ROUNDS {
            self.run_next_turns(rt, orders, group, worker);
            if !self.run_round(rt, orders, worker) {
                return;
            }
            self.make_way();
        }
    }
}

impl<
    D: SwapDev + Drop,
    T: Ledger,
    C: Ledger,
    O: Ledger,
    E: Ledger,
    B: CellAgreements,
    X: Threads + Sync,
> Turns<T, C> for TurnJob<D, T, C, O, E, B, X> {
    ghost use Rattle.std.specs.Thread.{IsSync as MayBeShared};

    ghost can = { MayBeShared X.row };

    fn acquire_turn_lock<R: Wait>(&self, rt: &R) {
        let turns = self.turns_held.fetch_add(1, Ordering::SeqCst);
        let turn_lock = &self.schedule.turn_lock;
        if turns > 0 {
            if turns < MOST_TURNS_HELD || !turn_lock.is_wanted() {
                turn_lock.look_for_message();
                return;
            }
            turn_lock.leave();
            self.turns_held.store(1, Ordering::SeqCst);
        }
        turn_lock.take(rt);
    }

    fn release_turn_lock(&self) {
        if self.turns_held.load(Ordering::SeqCst) > 0 {
            self.turns_held.store(0, Ordering::SeqCst);
            self.schedule.turn_lock.leave();
        }
    }

    fn most_at_once(&self) -> usize {
        if self.workers < 2 {
            return 1;
        }
        self.schedule.turn_lock.look_for_all();
        MOST_AT_ONCE
    }

    fn run_all<R: Wait>(&self, rt: &R, orders: &mut Vec<ReceivedTurns>, worker: &mut Worker<T, C>) {
        let turns = self.note_received(orders);
        if turns >= TURNS_FOR_AN_OFFER {
            self.make_way();
        }
        let mut group = ALONE;
        let are_several = orders.len() > 1;
        if are_several {
            group = group_of(orders);
            self.run_rounds(rt, orders, group, worker);
        }
        while let Some(order) = orders.pop() {
            self.run(rt, order, group, worker);
        }
        if are_several {
            // All that are due are to be dispatched now, so that they are run at once again.
            self.schedule.turn_completed.notify_all();
        }
    }

    fn share(&self) -> Result<Self, AllocError> {
        let cell = self.cell.share()?;
        let schedule = Arc::try_clone(&self.schedule)?;
        let threads = Arc::try_clone(&self.threads)?;
        Ok(TurnJob {
            cell,
            schedule,
            turns_held: AtomicU64::new(0),
            threads,
            workers: self.workers,
        })
    }
}
