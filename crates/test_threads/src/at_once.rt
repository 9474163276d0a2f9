// Series that wait, which a worker receives at once.

ghost use Rattle.std.specs.Prelude.{◌≡◌, ◌+◌, ◌<◌, ◌≤◌};
ghost use Rattle.crossbeam_channel.specs.Claims.{view, IsSeatAt};
ghost use Rattle.crossbeam_channel.specs.Ends.{sends_on};
ghost use Rattle.wh_threads.specs.Blanks.{IsBlankOf};
ghost use Rattle.wh_threads.specs.Counting.{ThreadCountsState};
ghost use Rattle.wh_threads.specs.Handover.{all_parts};

use crate::workers::{count_all, series};
use std::alloc::{AllocError, Global};
use std::marker::Brand;
use std::sync::atomic::{AtomicU64, Ordering};
use std::sync::ledger::{Blank, Ledger};
use std::sync::{Arc, Mutex, Wait};
use std::test::Fail;
use std::thread::Threads;
use wh_threads::{
    Books, Equipment, Gate, Message, MessagePass, ReceivedTurns, SeriesRoom, Shares, ThreadCounts,
    TurnSender, Turns, Worker, dispatch, left_over, open_channel, pass_for, start_worker,
};

// Books under a lock, how many series a worker runs at once, and how many there were each time: two digits for each.
struct Batches<T: Ledger, C: Ledger, O: Ledger, E: Ledger> {
    most: usize,
    books: Arc<Mutex<Books<T, C, O, E>>, Global>,
    sizes: Arc<AtomicU64, Global>,
}

impl<T: Ledger, C: Ledger, O: Ledger, E: Ledger> Drop for Batches<T, C, O, E> {
    fn drop(self) {
        let Batches {
            most: _,
            books: _,
            sizes: _,
        } = self;
    }
}

impl<T: Ledger, C: Ledger, O: Ledger, E: Ledger> Turns<T, C> for Batches<T, C, O, E> {
    ghost use Rattle.std.specs.Prelude.{⊤ as Anything};

    ghost can = { Anything };

    fn acquire_turn_lock<R: Wait>(&self, _rt: &R) {}

    fn release_turn_lock(&self) {}

    fn most_at_once(&self) -> usize {
        self.most
    }

    fn run_all<R: Wait>(&self, rt: &R, orders: &mut Vec<ReceivedTurns>, worker: &mut Worker<T, C>) {
        let before = self.sizes.load(Ordering::SeqCst).wrapping_mul(100);
        let sizes = before.wrapping_add(orders.len() as u64);
        self.sizes.store(sizes, Ordering::SeqCst);
        let mut books = self.books.lock(rt);
        while let Some(order) = orders.pop() {
            let taken = order.quantum();
            count_all(&mut books, worker, order, taken);
        }
    }

    fn share(&self) -> Result<Self, AllocError> {
        let books = Arc::try_clone(&self.books)?;
        let sizes = Arc::try_clone(&self.sizes)?;
        Ok(Batches {
            most: self.most,
            books,
            sizes,
        })
    }
}

// `count` series of two turns each, the last sign, and one series more.
fn dispatch_all<R: Wait>(rt: &R, sender: &TurnSender, slip: &mut MessagePass, count: u64) -> bool
    requires channel { IsSeatAt (sends_on sender.now) slip.old }
    requires part { 0 < (view slip.old).parts }
    ensures channel { IsSeatAt (sends_on sender.now) slip.new }
    ensures parts { (view slip.new).parts ≡ (view slip.old).parts }
{
    for number in 0..count {
        if !dispatch(rt, sender, slip, series(number, 2)) {
            return false;
        }
    }
    dispatch(rt, sender, slip, Message::Last) && dispatch(rt, sender, slip, series(count, 3))
}

// How many turns a worker has counted, how many series it ran each time, and what it has left.
type Ran = (u64, u64, Option<Message>);

// `count` series wait before the thread of the worker of this seat is started, which runs at most `most` at once. None
// where it couldn't be started.
fn run_waiting<
    T: Ledger + Send + 'static,
    C: Ledger + Send + 'static,
    O: Ledger + Send + 'static,
    E: Ledger + Send + 'static,
    R: Threads + Wait + Copy + Send + 'static,
>(
    rt: R,
    alloc: Global,
    books: &Arc<Mutex<Books<T, C, O, E>>, Global>,
    lender: &mut ThreadCounts<T, C, O, E>,
    seat: usize,
    most: usize,
    count: u64,
) -> Result<Option<Ran>, AllocError>
    requires seat { (seat < 64) × (lender.old.workers_out ≤ seat) }
    ensures out { lender.new.workers_out ≤ seat + 1 }
{
    let sizes = Arc::new(alloc, AtomicU64::new(0))?;
    let job = Batches {
        most,
        books: Arc::try_clone(books)?,
        sizes: Arc::try_clone(&sizes)?,
    };
    let room = SeriesRoom::new(alloc)?;
    let (sender, receiver, first) = open_channel(alloc, 128)?;
    let theirs = receiver.try_clone()?;
    let mut slip = first;
    if !dispatch_all(&rt, &sender, &mut slip, count) {
        return Ok(None);
    }
    let with = Equipment {
        job,
        receiver: theirs,
        worker: lender.lend_worker(seat),
        slip: pass_for(&sender, &mut slip),
        room,
        gate: Gate::new(alloc)?,
    };
    let Ok(handle) = start_worker(rt, with) else {
        return Ok(None);
    };
    lender.join_worker(&rt, seat, handle, &sender, &mut slip);
    let left = left_over(&rt, &receiver, &mut slip);
    let turns = lender.tally(seat).turns;
    Ok(Some((turns, sizes.load(Ordering::SeqCst), left)))
}

// Three workers, one after the other: of three series at once and of five in all; of none at once, which counts as one; and of
// more than there may be.
fn run_three<
    T: Ledger + Send + 'static,
    C: Ledger + Send + 'static,
    O: Ledger + Send + 'static,
    E: Ledger + Send + 'static,
    R: Threads + Wait + Copy + Send + 'static,
>(
    rt: R,
    alloc: Global,
    turns: Blank,
    charges: Blank,
    offers: Blank,
    evictions: Blank,
) -> Result<[Option<Ran>; 3], AllocError>
    requires turns { IsBlankOf T.Ledger 64 turns }
    requires charges { IsBlankOf C.Ledger 64 charges }
    requires offers { IsBlankOf O.Ledger 1 offers }
    requires evictions { IsBlankOf E.Ledger 1 evictions }
{
    let (books, shares) = Books::<T, C, O, E>::open(alloc, turns, charges, offers, evictions)?;
    let Shares { all } = shares;
    let mut lender = all;
    let books = Arc::new(alloc, Mutex::new(books))?;
    let three = run_waiting(rt, alloc, &books, &mut lender, 0, 3, 5)?;
    let one = run_waiting(rt, alloc, &books, &mut lender, 1, 0, 2)?;
    let many = run_waiting(rt, alloc, &books, &mut lender, 2, 1000, 66)?;
    Ok([three, one, many])
}

#[test]
fn series_that_wait_are_run_at_once(rt: HostRuntime) -> Result<(), Fail> {
    let (turns, charges) = (Blank::new(65), Blank::new(65));
    let (offers, evictions) = (Blank::new(2), Blank::new(2));
    let ran = run_three::<Brand, Brand, Brand, Brand, HostRuntime>(
        rt,
        rt.alloc(),
        turns,
        charges,
        offers,
        evictions,
    )?;

    // What was dispatched after the last sign is left. No worker runs more than 64 at once.
    assert_eq!(rt; ran[0], Some((10, 302, Some(series(5, 3)))));
    assert_eq!(rt; ran[1], Some((4, 101, Some(series(2, 3)))));
    assert_eq!(rt; ran[2], Some((132, 6402, Some(series(66, 3)))));
    Ok(())
}
