// Each part once, at concrete types; and threads that run to their end.

ghost use Rattle.std.specs.Prelude.{◌≡◌, ◌+◌, ◌^◌, ◌<◌, [], IfOk};
ghost use Rattle.crossbeam_channel.specs.Claims.{view, IsSeatAt};
ghost use Rattle.crossbeam_channel.specs.Ends.{receives_on};
ghost use Rattle.wh_threads.specs.Blanks.{IsBlankOf};
ghost use Rattle.wh_threads.specs.Handover.{traffic};

use std::alloc::{AllocError, Global};
use std::marker::{Brand, Model, PhantomData};
use std::sync::ledger::{Blank, Ledger};
use std::sync::{Arc, Barrier, Condvar, Mutex, Wait};
use std::test::Fail;
use std::thread;
use std::thread::Threads;
use wh_space_model::InstId;
use wh_threads::{
    AgreedValue, AgreementHalf, AgreementId, BlankAgreement, Books, Change, Help, HelpOutcome,
    Helper, Message, MessagePass, ReceivedTurns, Shares, Tally, TurnReceiver, Turns, Worker,
    dispatch, left_over, open_channel, pass_for, put_back, receive, receive_turns,
};
use wh_workers::{Jobs, Next, Supply, WorkerSetup, serve};

// An instance by its number.
fn instance(number: u64) -> InstId {
    InstId { place: 0, number }
}

/// Counts these turns, each of which took `taken` charges.
pub fn count_all<T: Ledger, C: Ledger, O: Ledger, E: Ledger>(
    books: &mut Books<T, C, O, E>,
    worker: &mut Worker<T, C>,
    order: ReceivedTurns,
    taken: u32,
)
    requires room { worker.old.tally.turns + order.count < 2 ^ 64 }
    ensures from { worker.new.from ≡ worker.old.from }
    ensures turns { worker.new.tally.turns ≡ worker.old.tally.turns + order.count }
{
    let mut order = order;
    while order.count() > 0 {
        books.turn(worker, &mut order, taken);
    }
    order.finish();
}

// The turns that come next are counted, each of which took `taken` charges.
fn count_next<T: Ledger, C: Ledger, O: Ledger, E: Ledger, R: Wait>(
    rt: &R,
    receiver: &TurnReceiver,
    slip: &mut MessagePass,
    books: &mut Books<T, C, O, E>,
    worker: &mut Worker<T, C>,
    taken: u32,
)
    requires channel { IsSeatAt (receives_on receiver.now) slip.old }
    requires hand { view slip.old ≡ traffic 1 [] (view slip.old).received }
    ensures channel { IsSeatAt (receives_on receiver.now) slip.new }
    ensures hand { view slip.new ≡ traffic 1 [] (view slip.new).received }
{
    if worker.is_full() {
        return;
    }
    match receive_turns(rt, receiver, slip) {
        Some(order) => count_all(books, worker, order, taken),
        None => {}
    }
}

// One turn and then three of another instance are handed out, and counted.
fn count_two<T: Ledger, C: Ledger, O: Ledger, E: Ledger, R: Wait>(
    rt: &R,
    alloc: Global,
    books: &mut Books<T, C, O, E>,
    worker: &mut Worker<T, C>,
) -> Result<bool, AllocError> {
    let (sender, receiver, first) = open_channel(alloc, 4)?;
    let mut slip = first;
    let mut theirs = pass_for(&sender, &mut slip);
    let is_first_out = dispatch(rt, &sender, &mut slip, series(0, 1));
    let is_second_out = dispatch(rt, &sender, &mut slip, series(1, 3));
    if is_first_out && is_second_out {
        count_next(rt, &receiver, &mut theirs, books, worker, 7);
        count_next(rt, &receiver, &mut theirs, books, worker, 4_000_000_000);
    }
    Ok(is_first_out && is_second_out)
}

// Four turns of a worker, an offer and five evictions are counted; what is shown is seat 3, and what the books have.
fn counts<T: Ledger, C: Ledger, O: Ledger, E: Ledger, R: Wait>(
    rt: &R,
    alloc: Global,
    turns: Blank,
    charges: Blank,
    offers: Blank,
    evictions: Blank,
) -> Result<(Tally, u64, u64, [u64; 4]), AllocError>
    requires turns { IsBlankOf T.Ledger 64 turns }
    requires charges { IsBlankOf C.Ledger 64 charges }
    requires offers { IsBlankOf O.Ledger 1 offers }
    requires evictions { IsBlankOf E.Ledger 1 evictions }
{
    let (mut books, shares) = Books::<T, C, O, E>::open(alloc, turns, charges, offers, evictions)?;
    let Shares { all } = shares;
    let mut lender = all;
    let mut worker = lender.lend_worker(3);
    let _ = count_two(rt, alloc, &mut books, &mut worker)?;
    let mut scanner = lender.lend_scanner();
    if scanner.count() < 1000 {
        books.offer(&mut scanner);
    }
    let mut reclaimer = lender.lend_reclaimer();
    if reclaimer.count() < 1000 {
        books.evict(&mut reclaimer, 5);
    }
    let tally = worker.tally();
    let low = [
        books.turns.low(),
        books.charges.low(),
        books.offers.low(),
        books.evictions.low(),
    ];
    Ok((tally, scanner.count(), reclaimer.count(), low))
}

#[test]
fn counts_are_kept(rt: HostRuntime) -> Result<(), Fail> {
    let blanks = (Blank::new(65), Blank::new(65), Blank::new(2), Blank::new(2));
    let (turns, charges, offers, evictions) = blanks;
    let (tally, offered, evicted, low) = counts::<Brand, Brand, Brand, Brand, HostRuntime>(
        &rt,
        rt.alloc(),
        turns,
        charges,
        offers,
        evictions,
    )?;
    assert_eq!(rt; (tally.turns, tally.charges), (4, 12_000_000_007));
    assert_eq!(rt; (offered, evicted), (1, 5));
    assert_eq!(rt; low, [4, 12_000_000_007, 1, 5]);
    Ok(())
}

/// Returns a series of `count` turns, from number `first` on, of the instance of that number.
pub fn series(first: u64, count: u32) -> Message {
    Message::Turns {
        first,
        count,
        instance: instance(first),
        quantum: 9,
    }
}

#[test]
fn messages_are_handed_over(rt: HostRuntime) -> Result<(), Fail> {
    let (sender, receiver, first) = open_channel(rt.alloc(), 4)?;
    let mut slip = first;
    let mut theirs = pass_for(&sender, &mut slip);
    assert!(rt; dispatch(&rt, &sender, &mut slip, series(0, 1)));

    // The last of these has the number 2^64 - 1.
    let last = series(u64::MAX - 255, 256);
    assert!(rt; dispatch(&rt, &sender, &mut slip, last));
    assert!(rt; dispatch(&rt, &sender, &mut slip, Message::Last));
    assert_eq!(rt; receive(&rt, &receiver, &mut theirs), Some(series(0, 1)));
    assert_eq!(rt; receive(&rt, &receiver, &mut theirs), Some(last));
    put_back(&sender, &mut slip, theirs);
    assert_eq!(rt; left_over(&rt, &receiver, &mut slip), Some(Message::Last));
    assert_eq!(rt; left_over(&rt, &receiver, &mut slip), None);
    Ok(())
}

// A pact about a number of contracts.
struct NumberMatter {
    none: PhantomData<u8>,
}

impl Model for NumberMatter {
    ghost use Rattle.std.specs.Prelude.{ℕ};

    ghost Value = { ℕ };

    ghost view = { λ _. 0 };
}

impl AgreedValue for NumberMatter {
    ghost nothing = { 0 };
}

// How much is added.
#[derive(Clone, Copy)]
struct Added {
    amount: u32,
}

impl Change<NumberMatter> for Added {
    ghost use Rattle.std.specs.Prelude.{◌+◌};

    ghost after = { λ c n. n + c.amount };
}

// Both know 3, and then 5; one half goes through another thread, and both know 12.
fn agree_on<B: AgreementId + Send + 'static, R: Threads>(
    rt: &R,
    blank: BlankAgreement<NumberMatter>,
) -> Result<
    (
        AgreementHalf<B, NumberMatter>,
        AgreementHalf<B, NumberMatter>,
    ),
    AllocError,
>
    requires { blank ≡ B.table }
    ensures { IfOk result (λ r. r.0 ≡ r.1) }
{
    let (pact, mut first, mut second) = blank.open::<B, Added>(&Added { amount: 3 });
    pact.settle(&mut first, &mut second, &Added { amount: 2 });
    let child = thread::spawn(rt, move || -> AgreementHalf<B, NumberMatter> { second })?;
    let mut back = child.join(rt);
    pact.settle(&mut first, &mut back, &Added { amount: 7 });
    Ok((first, back))
}

// The same, and both halves are let go.
fn agree_once<B: AgreementId + Send + 'static, R: Threads>(
    rt: &R,
    blank: BlankAgreement<NumberMatter>,
) -> Result<bool, AllocError>
    requires { blank ≡ B.table }
{
    let (_first, _second) = agree_on::<B, R>(rt, blank)?;
    Ok(true)
}

#[test]
fn two_holders_agree(rt: HostRuntime) -> Result<(), Fail> {
    let blank = BlankAgreement::new(rt.alloc())?;
    assert!(rt; agree_once::<Brand, HostRuntime>(&rt, blank)?);
    Ok(())
}

// Books under a lock, a place where two workers meet in each of the last turns, how many these are, and a condition
// variable for whoever helps.
struct Desk<T: Ledger, C: Ledger, O: Ledger, E: Ledger> {
    met: u64,
    books: Arc<Mutex<Books<T, C, O, E>>, Global>,
    both: Arc<Barrier, Global>,
    bell: Arc<Condvar, Global>,
}

impl<T: Ledger, C: Ledger, O: Ledger, E: Ledger> Drop for Desk<T, C, O, E> {
    fn drop(self) {
        let Desk {
            met: _,
            books: _,
            both: _,
            bell: _,
        } = self;
    }
}

impl<T: Ledger, C: Ledger, O: Ledger, E: Ledger> Turns<T, C> for Desk<T, C, O, E> {
    ghost use Rattle.std.specs.Prelude.{⊤ as Anything};

    ghost can = { Anything };

    fn acquire_turn_lock<R: Wait>(&self, _rt: &R) {}

    fn release_turn_lock(&self) {}

    fn most_at_once(&self) -> usize {
        1
    }

    fn run_all<R: Wait>(&self, rt: &R, orders: &mut Vec<ReceivedTurns>, worker: &mut Worker<T, C>) {
        while let Some(order) = orders.pop() {
            if order.instance().number < self.met {
                self.both.wait(rt);
            }
            let mut books = self.books.lock(rt);
            let taken = order.quantum();
            count_all(&mut books, worker, order, taken);
        }
    }

    fn share(&self) -> Result<Self, AllocError> {
        let books = Arc::try_clone(&self.books)?;
        let both = Arc::try_clone(&self.both)?;
        let bell = Arc::try_clone(&self.bell)?;
        Ok(Desk {
            met: self.met,
            books,
            both,
            bell,
        })
    }
}

impl<T: Ledger, C: Ledger, O: Ledger, E: Ledger> Help<O> for Desk<T, C, O, E> {
    fn help<R: Wait>(&self, rt: &R, helper: &mut Helper<O>) -> HelpOutcome {
        let mut books = self.books.lock(rt);
        books.offer(helper);
        if helper.count() < 3 {
            return HelpOutcome::Did;
        }
        HelpOutcome::Ended
    }

    fn bell(&self) -> &Condvar {
        &self.bell
    }

    fn share(&self) -> Result<Self, AllocError> {
        Turns::<T, C>::share(self)
    }
}

// How many pages were evicted, by the books.
fn evicted<T: Ledger, C: Ledger, O: Ledger, E: Ledger, R: Wait>(
    rt: &R,
    books: &Mutex<Books<T, C, O, E>>,
) -> u64 {
    let books = books.lock(rt);
    books.evictions.low()
}

// `left` further series: the next one has `count` turns, and each `factor` times as many as the one before. Where
// `pause` series are left it goes on once a page was evicted, for which it wants a reclaimer.
struct Several<T: Ledger, C: Ledger, O: Ledger, E: Ledger> {
    left: u64,
    pause: u64,
    count: u32,
    factor: u32,
    books: Arc<Mutex<Books<T, C, O, E>>, Global>,
}

impl<T: Ledger, C: Ledger, O: Ledger, E: Ledger> Drop for Several<T, C, O, E> {
    fn drop(self) {
        let Several {
            left: _,
            pause: _,
            count: _,
            factor: _,
            books: _,
        } = self;
    }
}

impl<T: Ledger, C: Ledger, O: Ledger, E: Ledger> Supply for Several<T, C, O, E> {
    fn next<R: Wait>(&mut self, rt: &R, has_reclaimer: bool) -> Next {
        if self.left == 0 {
            return Next::End;
        }
        if self.left == self.pause {
            if !has_reclaimer {
                return Next::Reclaimer;
            }
            for _ in rt.forever() {
                if evicted(rt, &self.books) > 0 {
                    break;
                }
                thread::yield_now();
            }
        }
        self.left -= 1;
        let count = self.count;
        self.count = count.wrapping_mul(self.factor);
        Next::Turns(instance(self.left), count)
    }
}

// A reclaimer that evicts one page, and waits then until it is told to stop.
struct Evicts<T: Ledger, C: Ledger, O: Ledger, E: Ledger> {
    books: Arc<Mutex<Books<T, C, O, E>>, Global>,
    bell: Arc<Condvar, Global>,
}

impl<T: Ledger, C: Ledger, O: Ledger, E: Ledger> Drop for Evicts<T, C, O, E> {
    fn drop(self) {
        let Evicts { books: _, bell: _ } = self;
    }
}

impl<T: Ledger, C: Ledger, O: Ledger, E: Ledger> Help<E> for Evicts<T, C, O, E> {
    fn help<R: Wait>(&self, rt: &R, helper: &mut Helper<E>) -> HelpOutcome {
        if helper.count() > 0 {
            return HelpOutcome::Waits;
        }
        let mut books = self.books.lock(rt);
        books.evict(helper, 1);
        HelpOutcome::Did
    }

    fn bell(&self) -> &Condvar {
        &self.bell
    }

    fn share(&self) -> Result<Self, AllocError> {
        let books = Arc::try_clone(&self.books)?;
        let bell = Arc::try_clone(&self.bell)?;
        Ok(Evicts { books, bell })
    }
}

// What two workers meet at, and a condition variable.
fn make_tools(alloc: Global) -> Result<(Arc<Barrier, Global>, Arc<Condvar, Global>), AllocError> {
    let both = Arc::new(alloc, Barrier::new(2))?;
    let bell = Arc::new(alloc, Condvar::new())?;
    Ok((both, bell))
}

// A desk with these books, where two workers meet in each of the last `met` turns.
fn make_desk<T: Ledger, C: Ledger, O: Ledger, E: Ledger>(
    alloc: Global,
    books: Books<T, C, O, E>,
    met: u64,
) -> Result<Desk<T, C, O, E>, AllocError> {
    let books = Arc::new(alloc, Mutex::new(books))?;
    let (both, bell) = make_tools(alloc)?;
    Ok(Desk {
        met,
        books,
        both,
        bell,
    })
}

// What two workers, a scanner and a reclaimer do at this desk.
type JobsAt<T, C, O, E> = Jobs<Desk<T, C, O, E>, Desk<T, C, O, E>, Evicts<T, C, O, E>>;

// The same, made.
fn jobs_at<T: Ledger, C: Ledger, O: Ledger, E: Ledger>(
    desk: &Desk<T, C, O, E>,
) -> Result<JobsAt<T, C, O, E>, AllocError> {
    let reclaims = Evicts {
        books: Arc::try_clone(&desk.books)?,
        bell: Arc::try_clone(&desk.bell)?,
    };
    let turns: Desk<T, C, O, E> = Turns::<T, C>::share(desk)?;
    let scans: Desk<T, C, O, E> = Turns::<T, C>::share(desk)?;
    Ok(Jobs {
        turns,
        scans,
        reclaims,
    })
}

// The books agree with the counts of all threads.
fn settle<T: Ledger, C: Ledger, O: Ledger, E: Ledger, R: Wait>(
    rt: &R,
    desk: &Desk<T, C, O, E>,
    shares: &mut Shares<T, C, O, E>,
) {
    let mut books = desk.books.lock(rt);
    books.agree(shares);
}

// How many turns there were, what the two workers counted, and how many offers and evictions there were.
type Ran = (u64, Tally, Tally, (u64, u64));

// `left` series, the first of one turn, and each of `factor` times as many turns as the one before. They are run by two
// workers, who meet in each of the last ones; meanwhile a scanner offers three pages at most, and a reclaimer evicts
// one, for which it is waited where `pause` series are left.
fn serve_at<
    T: Ledger + Send + 'static,
    C: Ledger + Send + 'static,
    O: Ledger + Send + 'static,
    E: Ledger + Send + 'static,
    R: Threads + Wait + Copy + Send + 'static,
>(
    rt: R,
    alloc: Global,
    desk: &Desk<T, C, O, E>,
    shares: &mut Shares<T, C, O, E>,
    left: u64,
    pause: u64,
    factor: u32,
) -> Result<Option<Ran>, AllocError> {
    let jobs = jobs_at(desk)?;
    let mut supply = Several {
        left,
        pause,
        count: 1,
        factor,
        books: Arc::try_clone(&desk.books)?,
    };
    let crew = WorkerSetup {
        workers: 2,
        quantum: 5,
    };
    let served = serve(rt, alloc, jobs, &mut supply, shares, crew);
    settle(&rt, desk, shares);
    let Ok(served) = served else {
        return Ok(None);
    };
    if served.end.is_err() {
        return Ok(None);
    }
    let helped = (shares.offers(), shares.evictions());
    Ok(Some((served.turns, shares.tally(0), shares.tally(1), helped)))
}

// The same with these books, at a new desk.
fn serve_books<
    T: Ledger + Send + 'static,
    C: Ledger + Send + 'static,
    O: Ledger + Send + 'static,
    E: Ledger + Send + 'static,
    R: Threads + Wait + Copy + Send + 'static,
>(
    rt: R,
    alloc: Global,
    books: Books<T, C, O, E>,
    shares: &mut Shares<T, C, O, E>,
    left: u64,
    pause: u64,
    met: u64,
    factor: u32,
) -> Result<Option<Ran>, AllocError> {
    let desk = make_desk(alloc, books, met)?;
    serve_at(rt, alloc, &desk, shares, left, pause, factor)
}

// The same with new books.
fn serve_many<
    T: Ledger + Send + 'static,
    C: Ledger + Send + 'static,
    O: Ledger + Send + 'static,
    E: Ledger + Send + 'static,
    R: Threads + Wait + Copy + Send + 'static,
>(
    rt: R,
    alloc: Global,
    turns: Blank,
    charges: Blank,
    offers: Blank,
    evictions: Blank,
    left: u64,
    pause: u64,
    met: u64,
    factor: u32,
) -> Result<Option<Ran>, AllocError>
    requires turns { IsBlankOf T.Ledger 64 turns }
    requires charges { IsBlankOf C.Ledger 64 charges }
    requires offers { IsBlankOf O.Ledger 1 offers }
    requires evictions { IsBlankOf E.Ledger 1 evictions }
{
    let (books, mut shares) = Books::<T, C, O, E>::open(alloc, turns, charges, offers, evictions)?;
    serve_books(rt, alloc, books, &mut shares, left, pause, met, factor)
}

#[test]
fn two_workers_run_turns(rt: HostRuntime) -> Result<(), Fail> {
    let (turns, charges) = (Blank::new(65), Blank::new(65));
    let (offers, evictions) = (Blank::new(2), Blank::new(2));
    let served = serve_many::<Brand, Brand, Brand, Brand, HostRuntime>(
        rt,
        rt.alloc(),
        turns,
        charges,
        offers,
        evictions,
        128,
        1000,
        128,
        1,
    )?;
    let Some((turns, first, second, helped)) = served else {
        assert!(rt; false, "threads were started");
        return Ok(());
    };
    // They meet in each turn, so each runs half of them. This thread runs none.
    assert_eq!(rt; turns, 128);
    assert_eq!(rt; (first.turns, first.charges), (64, 320));
    assert_eq!(rt; (second.turns, second.charges), (64, 320));

    // Two offers are owed. The scanner stops at the third, or earlier where it is told to. No reclaimer was wanted.
    assert!(rt; helped.0 == 2 || helped.0 == 3);
    assert_eq!(rt; helped.1, 0);
    Ok(())
}

// Whether this is the sum of some of 1, 3, 9, 27 and so on, each once at most.
fn is_sum_of_series(turns: u64) -> bool {
    let mut left = turns;
    for _ in 0..41 {
        if left % 3 == 2 {
            return false;
        }
        left /= 3;
    }
    left == 0
}

#[test]
fn each_series_is_run_whole(rt: HostRuntime) -> Result<(), Fail> {
    let (turns, charges) = (Blank::new(65), Blank::new(65));
    let (offers, evictions) = (Blank::new(2), Blank::new(2));
    let served = serve_many::<Brand, Brand, Brand, Brand, HostRuntime>(
        rt,
        rt.alloc(),
        turns,
        charges,
        offers,
        evictions,
        5,
        1000,
        0,
        3,
    )?;
    let Some((turns, first, second, helped)) = served else {
        assert!(rt; false, "threads were started");
        return Ok(());
    };
    // The two run 1, 3, 9, 27 and 81 turns, whoever gets them.
    assert_eq!(rt; turns, 121);
    assert_eq!(rt; first.turns.wrapping_add(second.turns), 121);
    assert!(rt; is_sum_of_series(first.turns) && is_sum_of_series(second.turns));
    assert_eq!(rt; first.charges.wrapping_add(second.charges), 605);

    // One offer is owed.
    assert!(rt; helped.0 > 0 && helped.0 < 4);
    assert_eq!(rt; helped.1, 0);
    Ok(())
}

#[test]
fn where_no_turn_comes_no_thread_starts(rt: HostRuntime) -> Result<(), Fail> {
    let (turns, charges) = (Blank::new(65), Blank::new(65));
    let (offers, evictions) = (Blank::new(2), Blank::new(2));
    let served = serve_many::<Brand, Brand, Brand, Brand, HostRuntime>(
        rt,
        rt.alloc(),
        turns,
        charges,
        offers,
        evictions,
        0,
        1000,
        0,
        1,
    )?;
    let Some((turns, first, second, helped)) = served else {
        assert!(rt; false, "no thread was wanted");
        return Ok(());
    };
    assert_eq!(rt; turns, 0);
    assert_eq!(rt; (first.turns, second.turns), (0, 0));
    assert_eq!(rt; helped, (0, 0));
    Ok(())
}

#[test]
fn helpers_are_started_where_they_are_wanted(rt: HostRuntime) -> Result<(), Fail> {
    let (turns, charges) = (Blank::new(65), Blank::new(65));
    let (offers, evictions) = (Blank::new(2), Blank::new(2));
    let served = serve_many::<Brand, Brand, Brand, Brand, HostRuntime>(
        rt,
        rt.alloc(),
        turns,
        charges,
        offers,
        evictions,
        16,
        8,
        8,
        1,
    )?;
    let Some((turns, first, second, helped)) = served else {
        assert!(rt; false, "threads were started");
        return Ok(());
    };
    // The two run the first eight turns, whoever gets them, until the reclaimer is wanted, and then four each.
    assert_eq!(rt; turns, 16);
    assert_eq!(rt; first.turns.wrapping_add(second.turns), 16);
    assert!(rt; first.turns >= 4 && second.turns >= 4);

    // No offer is owed for so few turns, and no scanner was started. The reclaimer was, in the middle.
    assert_eq!(rt; helped, (0, 1));
    Ok(())
}
