//! What the threads of a run share, who dispatches turns, and who makes steps ready that wait for frames.

ghost use Rattle.std.specs.Prelude.{◌≡◌, ◌<◌, ◌+◌, ◌++◌, ◌∷◌, [], Some, slice_get, vec_len};
ghost use Rattle.wh_scheduler.specs.declared.run_queue.Series.{Series};
ghost use Rattle.wh_scheduler.specs.RunQueues.{at_most};

use crate::frame_waits::FrameWaits;
use crate::round_room::{MOST_AT_ONCE, RoundRoom};
use crate::run_queue::{Choice, RunQueue, Series, Waiter};
use crate::spin_backoff::SpinBackoff;
use crate::turn_lock::TurnLock;
use std::alloc::{AllocError, Global};
use std::hint;
use std::sync::atomic::{AtomicU64, Ordering};
use std::sync::ledger::Ledger;
use std::sync::{Arc, Condvar, Mutex, Wait};
use std::time::Duration;
use wh_cell::{CellAgreements, HostCell, Moved};
use wh_host_model::TurnEnd;
use wh_space_model::InstId;
use wh_swap::SwapDev;
use wh_threads::{Help, HelpOutcome, Helper, LONGEST_SLEEP_SECONDS};
use wh_workers::{Next, Supply, TURNS_FOR_AN_OFFER};

// How often a worker that has no series looks whether the scanner, which waits for the lock, has it now.
const LOOKS_WHILE_SCANNER_WAITS: u32 = 2000;

/// Shared by the threads of a run: whose turns are dispatched, and a condition variable for each who may have to wait
/// for something. Whoever waits counts how often it was notified, looks, and sleeps unless it was notified again
/// meanwhile.
pub struct Schedule {
    /// Whose turns are dispatched, and whose step is ready.
    pub run_queue: Mutex<RunQueue>,
    /// Notified when a turn completed or a step was made ready: for the dispatcher.
    pub turn_completed: Condvar,
    /// Notified when a step may wait for a frame: for the reclaimer.
    pub frame_wanted: Condvar,
    /// Notified when a page is owed for dispatched turns: for the scanner.
    pub offer_owed: Condvar,
    /// Which worker receives turns.
    pub turn_lock: TurnLock,
    /// Whether the scanner waits for the host's lock: 1 if it does. No series and no round ends for it.
    pub scanner_waits: AtomicU64,
    /// Room for the rounds of whichever worker has the host's lock.
    pub round_room: Mutex<RoundRoom>,
}

impl Drop for Schedule {
    fn drop(self) {
        let Schedule {
            run_queue: _,
            turn_completed: _,
            frame_wanted: _,
            offer_owed: _,
            turn_lock: _,
            scanner_waits: _,
            round_room: _,
        } = self;
    }
}

// How many turns these are, of which each series has `most` at most.
fn turns_in_all(list: &[Series], most: u32) -> u64 {
    let mut turns: u64 = 0;
    for series in list {
        turns = turns.wrapping_add(u64::from(series.count.min(most)));
    }
    turns
}

impl Schedule {
    /// Returns a schedule of `run_queue` for `workers`.
    ///
    /// # Errors
    /// `AllocError` if an allocation fails.
    pub fn new(alloc: Global, run_queue: RunQueue, workers: usize) -> Result<Schedule, AllocError> {
        Ok(Schedule {
            run_queue: Mutex::new(run_queue),
            turn_completed: Condvar::new(),
            frame_wanted: Condvar::new(),
            offer_owed: Condvar::new(),
            turn_lock: TurnLock::new(alloc, workers)?,
            scanner_waits: AtomicU64::new(0),
            round_room: Mutex::new(RoundRoom::new(alloc, MOST_AT_ONCE)?),
        })
    }

    // The scanner, where it waits for the host's lock, which is free, has some time to get it: it may have to be woken.
    pub(crate) fn make_way_for_scanner(&self) {
        for _ in 0..LOOKS_WHILE_SCANNER_WAITS {
            if self.scanner_waits.load(Ordering::SeqCst) == 0 {
                return;
            }
            hint::spin_loop();
        }
    }

    // A series has come back, whose last turn ended so; the next one of its instance would be this. Who dispatches turns isn't
    // woken for each: it may sleep until half of those that are out are due again.
    pub(crate) fn complete_series<R: Wait>(&self, rt: &R, next: Series, end: TurnEnd) {
        let (was_ready, has_to_rescan) = self.note_end(rt, next, end);
        if has_to_rescan {
            self.turn_completed.notify_all();
        }
        if was_ready || end == TurnEnd::Frame {
            self.frame_wanted.notify_all();
        }
    }

    // The next series of the instance is due where its call goes on, and else none is out any more. Whether its step was the one
    // that was made ready, and whether who dispatches turns has to look.
    fn note_end<R: Wait>(&self, rt: &R, next: Series, end: TurnEnd) -> (bool, bool) {
        let mut run_queue = self.run_queue.lock(rt);
        let was_ready = run_queue.ready == Some(next.id);
        if end == TurnEnd::Again {
            if let Ok(has_to_rescan) = run_queue.requeue(next) {
                self.turn_lock.owe();
                return (was_ready, has_to_rescan);
            }
        }
        run_queue.complete(next.id);
        (was_ready, true)
    }

    // How many turns were dispatched.
    pub(crate) fn turns<R: Wait>(&self, rt: &R) -> u64 {
        let run_queue = self.run_queue.lock(rt);
        run_queue.turns
    }
}

/// Reclaims: makes the step of an instance ready, page by page, that waits for a frame, and then waits until that has had its
/// turn. While the device is called turns go on.
pub struct ReclaimJob<D: SwapDev, T: Ledger, C: Ledger, O: Ledger, E: Ledger, B: CellAgreements> {
    /// The cell.
    pub cell: HostCell<D, T, C, O, E, B>,
    /// Whose turns are dispatched, and whose step is ready.
    pub schedule: Arc<Schedule, Global>,
}

impl<D: SwapDev + Drop, T: Ledger, C: Ledger, O: Ledger, E: Ledger, B: CellAgreements> Drop
    for ReclaimJob<D, T, C, O, E, B> {
    fn drop(self) {
        let ReclaimJob {
            cell: _,
            schedule: _,
        } = self;
    }
}

impl<D: SwapDev + Drop, T: Ledger, C: Ledger, O: Ledger, E: Ledger, B: CellAgreements> ReclaimJob<
    D,
    T,
    C,
    O,
    E,
    B,
> {
    // Whose step is made ready now, if one waits.
    fn next_waiter<R: Wait>(&self, rt: &R) -> Option<Waiter> {
        let locked = self.cell.lock(rt);
        let mut run_queue = self.schedule.run_queue.lock(rt);
        run_queue.next_waiter(locked.host())
    }

    // Notes what came of a move. Whether the instance that waited may go on now, or not at all.
    fn note<R: Wait>(&self, rt: &R, id: InstId, moved: Moved) -> bool {
        let mut run_queue = self.schedule.run_queue.lock(rt);
        run_queue.note(id, moved)
    }
}

impl<D: SwapDev + Drop, T: Ledger, C: Ledger, O: Ledger, E: Ledger, B: CellAgreements> Help<E>
    for ReclaimJob<D, T, C, O, E, B> {
    fn help<R: Wait>(&self, rt: &R, helper: &mut Helper<E>) -> HelpOutcome {
        let Some(waiter) = self.next_waiter(rt) else {
            return HelpOutcome::Waits;
        };
        let moved = self
            .cell
            .bring_nearer(rt, waiter.id, waiter.at_once, helper);
        if self.note(rt, waiter.id, moved) {
            self.schedule.turn_completed.notify_all();
        }
        HelpOutcome::Did
    }

    fn bell(&self) -> &Condvar {
        &self.schedule.frame_wanted
    }

    fn share(&self) -> Result<Self, AllocError> {
        let cell = self.cell.share()?;
        let schedule = Arc::try_clone(&self.schedule)?;
        Ok(ReclaimJob { cell, schedule })
    }
}

/// Dispatches turns of whoever can go on and has none, until none can. Those that have come, or were woken, go first.
pub struct TurnSupply<D: SwapDev, T: Ledger, C: Ledger, O: Ledger, E: Ledger, B: CellAgreements> {
    // The cell.
    cell: HostCell<D, T, C, O, E, B>,
    // Whose turns are dispatched.
    schedule: Arc<Schedule, Global>,
    // How many turns all series that are out have together, while instances arrive.
    short: u32,
    // How many turns each has at most, whether instances arrive or not.
    longest: u32,
    // How many turns each has at most that is dispatched now.
    most: u32,
    // Turns of those that had none out, one of each.
    newcomers: Vec<Series>,
    // The series that were due.
    queued: Vec<Series>,
    // How many of these were dispatched.
    dispatched: usize,
    // How long it spins for a completed turn before it sleeps.
    spin_backoff: SpinBackoff,
    // How often each call waits for a frame.
    frame_waits: FrameWaits,
}

impl<D: SwapDev + Drop, T: Ledger, C: Ledger, O: Ledger, E: Ledger, B: CellAgreements> Drop
    for TurnSupply<D, T, C, O, E, B> {
    fn drop(self) {
        let TurnSupply {
            cell: _,
            schedule: _,
            short: _,
            longest: _,
            most: _,
            newcomers: _,
            queued: _,
            dispatched: _,
            spin_backoff: _,
            frame_waits: _,
        } = self;
    }
}

impl<D: SwapDev + Drop, T: Ledger, C: Ledger, O: Ledger, E: Ledger, B: CellAgreements> TurnSupply<
    D,
    T,
    C,
    O,
    E,
    B,
> {
    /// Returns a supply for `many` instances. A series has at most `longest` turns, or one if that is 0; while instances
    /// arrive, all that are out have about `short` turns together.
    ///
    /// # Errors
    /// `AllocError` if an allocation fails.
    pub fn new(
        alloc: Global,
        cell: HostCell<D, T, C, O, E, B>,
        schedule: Arc<Schedule, Global>,
        many: usize,
        short: u32,
        longest: u32,
    ) -> Result<TurnSupply<D, T, C, O, E, B>, AllocError> {
        let newcomers = Vec::with_capacity(alloc, many)?;
        let queued = Vec::with_capacity(alloc, many)?;
        Ok(TurnSupply {
            cell,
            schedule,
            short,
            longest: longest.max(1),
            most: longest.max(1),
            newcomers,
            queued,
            dispatched: 0,
            spin_backoff: SpinBackoff::new(),
            frame_waits: FrameWaits::new(),
        })
    }

    // The next one of the series that it has: that of a newcomer, while there is one; else one of those that are due, which has
    // `most` turns at most.
    fn next_series(&mut self) -> Option<Series>
        ensures first { 0 < vec_len self.old.newcomers → (series : Series) × (result ≡ Some series)
            × (self.old.newcomers.items ≡ self.new.newcomers.items ++ series ∷ [])
            × (self.new.dispatched ≡ self.old.dispatched) }
        ensures then { vec_len self.old.newcomers ≡ 0 → (series : Series)
            → slice_get self.old.queued.items self.old.dispatched ≡ Some series
            → (result ≡ Some (at_most self.old.most series))
            × (self.new.dispatched ≡ self.old.dispatched + 1) }
        ensures same { (self.new.queued ≡ self.old.queued) × (self.new.most ≡ self.old.most) }
    {
        if let Some(series) = self.newcomers.pop() {
            return Some(series);
        }
        if self.dispatched >= self.queued.len() {
            return None;
        }
        let Series { id, count } = self.queued[self.dispatched];
        self.dispatched += 1;
        Some(Series {
            id,
            count: count.min(self.most),
        })
    }

    /// Returns the next series that is to be dispatched, if it has one: that of a newcomer, while there is one.
    pub fn dispatch_next(&mut self) -> Option<Series> {
        let series = self.next_series()?;
        self.schedule.turn_lock.dispatch();
        Some(series)
    }

    // Takes the series that are due. Whether the host has to be looked at, too.
    fn take_queued<R: Wait>(&mut self, rt: &R) -> bool {
        self.queued.clear();
        self.dispatched = 0;
        let mut run_queue = self.schedule.run_queue.lock(rt);
        run_queue.take_queued(&mut self.queued);
        self.most = run_queue.most_turns(self.short).min(self.longest);
        run_queue.needs_rescan
    }

    // Chooses a turn of each that can go on and has none out. What comes then: `Rest` where none can go on any more, and no
    // turn is out.
    fn choose_all<R: Wait>(&mut self, rt: &R) -> Choice {
        let locked = self.cell.lock(rt);
        let mut run_queue = self.schedule.run_queue.lock(rt);
        for _ in rt.forever() {
            let choice = run_queue.choose(locked.host());
            let Choice::Turn(id) = choice else {
                return choice;
            };
            if self.newcomers.push(Series { id, count: 1 }).is_err() {
                run_queue.complete(id);
                return Choice::Wait;
            }
            self.schedule.turn_lock.owe();
        }
        unreachable!()
    }

    // Counts `more` turns as dispatched. Tells the scanner if a page is owed for them.
    fn count_turns<R: Wait>(&self, rt: &R, more: u64) {
        let mut run_queue = self.schedule.run_queue.lock(rt);
        let before = run_queue.turns;
        run_queue.turns = before.wrapping_add(more);
        if before / TURNS_FOR_AN_OFFER != run_queue.turns / TURNS_FOR_AN_OFFER {
            self.schedule.offer_owed.notify_all();
        }
    }

    /// Takes whatever series there are now. Returns what comes after them, as far as the host was looked at: else `Wait`.
    pub fn refill<R: Wait>(&mut self, rt: &R) -> Choice {
        let needs_rescan = self.take_queued(rt);
        let then = if needs_rescan {
            self.choose_all(rt)
        } else {
            Choice::Wait
        };
        let due = turns_in_all(&self.queued, self.most);
        let more = turns_in_all(&self.newcomers, self.most);
        self.count_turns(rt, due.wrapping_add(more));
        then
    }

    /// Returns whether it has no series that was not dispatched.
    pub fn is_empty(&self) -> bool {
        self.newcomers.is_empty() && self.dispatched >= self.queued.len()
    }

    // Whether nothing goes on, while some call waits for a frame, and that was so too often, after few turns each time.
    // No further step is made ready then.
    fn waits_too_often<R: Wait>(&mut self, rt: &R) -> bool {
        let mut run_queue = self.schedule.run_queue.lock(rt);
        if !run_queue.is_idle() || !self.frame_waits.note(run_queue.turns) {
            return false;
        }
        run_queue.close();
        true
    }

    /// Waits until a turn completed or an instance was woken, where that was notified `rings` times when it was last looked at.
    pub fn wait<R: Wait>(&self, rt: &R, rings: u64) {
        let bell = &self.schedule.turn_completed;
        for _ in 0..self.spin_backoff.looks() {
            if bell.notifications() != rings {
                self.spin_backoff.found();
                return;
            }
            hint::spin_loop();
        }
        self.spin_backoff.in_vain();
        bell.sleep(rt, rings, Duration::from_secs(LONGEST_SLEEP_SECONDS));
    }
}

impl<D: SwapDev + Drop, T: Ledger, C: Ledger, O: Ledger, E: Ledger, B: CellAgreements> Supply
    for TurnSupply<D, T, C, O, E, B> {
    fn next<R: Wait>(&mut self, rt: &R, has_reclaimer: bool) -> Next {
        for _ in rt.forever() {
            if let Some(Series { id, count }) = self.dispatch_next() {
                return Next::Turns(id, count);
            }
            let rings = self.schedule.turn_completed.notifications();
            match self.refill(rt) {
                Choice::Rest => return Next::End,
                Choice::Frame => {
                    if self.waits_too_often(rt) {
                        return Next::End;
                    }
                    if !has_reclaimer {
                        return Next::Reclaimer;
                    }
                }
                Choice::Turn(_) | Choice::Wait => {}
            }
            if self.is_empty() {
                self.wait(rt, rings);
            }
        }
        unreachable!()
    }
}
