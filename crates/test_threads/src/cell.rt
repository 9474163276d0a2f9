//! A cell with a swap device in memory: what is asked of it, what is counted, and calls that threads run.

ghost use Rattle.std.specs.Prelude.{◌≡◌, ◌+◌, ◌-◌, ◌^◌, ◌<◌, [], replicate};
ghost use Rattle.wh_swap.specs.MemorySwaps.{memory_held};
ghost use Rattle.wh_cell.specs.Ledgers.{HasLedgers};

use crate::requests::{admission, invocation, loading};
use std::alloc::Global;
use std::marker::Brand;
use std::process::Abort;
use std::sync::Wait;
use std::sync::ledger::Ledger;
use std::test::Fail;
use std::thread::Threads;
use wh_cell::{CellAgreements, CellParts, HostCell, Locked, Owner};
use wh_host::{CallStatus, CallValue, Host};
use wh_host_model::TurnEnd;
use wh_kernels::FnvHash;
use wh_model::ValType;
use wh_scheduler::{OwnedHost, RunConfig, run_calls};
use wh_space_model::{InstId, Tax};
use wh_swap::MemSwap;
use wh_threads::{
    Message, ReceivedTurns, Shares, Worker, dispatch, open_channel, pass_for, receive_turns,
};

/// `s` stores a byte, and `l` loads one.
pub const BYTES: [u8; 63] = [
    0x00, 0x61, 0x73, 0x6d, 0x01, 0x00, 0x00, 0x00, 0x01, 0x0b, 0x02, 0x60, 0x02, 0x7f, 0x7f, 0x00,
    0x60, 0x01, 0x7f, 0x01, 0x7f, 0x03, 0x03, 0x02, 0x00, 0x01, 0x05, 0x03, 0x01, 0x00, 0x01, 0x07,
    0x09, 0x02, 0x01, 0x73, 0x00, 0x00, 0x01, 0x6c, 0x00, 0x01, 0x0a, 0x13, 0x02, 0x09, 0x00, 0x20,
    0x00, 0x20, 0x01, 0x3a, 0x00, 0x00, 0x0b, 0x07, 0x00, 0x20, 0x00, 0x2d, 0x00, 0x00, 0x0b,
];

// How many runs there are at most until none has a turn any more.
const MOST_RUNS: u32 = 100;

// A cell, its owner's right and its shares.
#[derive(Drop)]
struct Begun<T: Ledger, C: Ledger, O: Ledger, E: Ledger, B: CellAgreements> {
    cell: HostCell<MemSwap, T, C, O, E, B>,
    owner: Owner<MemSwap, B>,
    shares: Shares<T, C, O, E>,
}

// A cell of a new host with four frames and 64 slots.
fn begin_cell<T: Ledger, C: Ledger, O: Ledger, E: Ledger, B: CellAgreements>(
    alloc: Global,
    cell_parts: CellParts<MemSwap>,
) -> Result<Begun<T, C, O, E, B>, Fail>
    requires empty { memory_held cell_parts.device ≡ replicate 64 [] }
    requires owned { cell_parts.to_owner ≡ B.to_owner }
    requires backed { cell_parts.to_device ≡ B.to_device }
    requires ledgers { HasLedgers T.Ledger C.Ledger O.Ledger E.Ledger cell_parts }
{
    let host = Host::new(alloc, 4, 64, Tax { num: 0, den: 1 })?;
    let (cell, owner, shares) = HostCell::new(alloc, host, cell_parts)?;
    Ok(Begun {
        cell,
        owner,
        shares,
    })
}

// Two instances, with these calls of each: stores of 7 to three pages, and loads of them.
fn ask_locked<T: Ledger, C: Ledger, O: Ledger, E: Ledger, B: CellAgreements>(
    alloc: Global,
    locked: &mut Locked<MemSwap, T, C, O, E, B>,
    owner: &mut Owner<MemSwap, B>,
) -> Result<[InstId; 2], Fail> {
    let bytes = locked.ask(owner, loading(alloc, &BYTES))?;
    let a = locked.ask(owner, admission(alloc, bytes))?;
    let b = locked.ask(owner, admission(alloc, bytes))?;
    for id in [a, b] {
        for at in [0, 4096, 8192] {
            let _ = locked.ask(owner, invocation(alloc, id, "s", &[at, 7], 1000))?;
        }
        for at in [0, 4096, 8192] {
            let _ = locked.ask(owner, invocation(alloc, id, "l", &[at], 1000))?;
        }
    }
    Ok([a, b])
}

// The same, under the lock of the cell.
fn asked<T: Ledger, C: Ledger, O: Ledger, E: Ledger, B: CellAgreements, R: Wait>(
    rt: &R,
    alloc: Global,
    begun: &mut Begun<T, C, O, E, B>,
) -> Result<[InstId; 2], Fail> {
    let mut locked = begun.cell.lock(rt);
    ask_locked(alloc, &mut locked, &mut begun.owner)
}

// How far a call is.
fn status<T: Ledger, C: Ledger, O: Ledger, E: Ledger, B: CellAgreements, R: Wait>(
    rt: &R,
    begun: &Begun<T, C, O, E, B>,
    id: InstId,
    at: u32,
) -> Option<CallStatus> {
    let locked = begun.cell.lock(rt);
    locked.host().call_status(id, at)
}

// How a turn ended, what the worker and the books have then, and how far the first call is.
type Turned = (TurnEnd, u128, u64, Option<CallStatus>);

// The next one of these turns by this worker, which can count one more.
fn turn_locked<T: Ledger, C: Ledger, O: Ledger, E: Ledger, B: CellAgreements>(
    locked: &mut Locked<MemSwap, T, C, O, E, B>,
    owner: &mut Owner<MemSwap, B>,
    worker: &mut Worker<T, C>,
    order: &mut ReceivedTurns,
) -> Turned
    requires room { worker.old.tally.turns < 2 ^ 64 - 1 }
    requires due { 0 < order.old.count }
    ensures turns { worker.new.tally.turns ≡ worker.old.tally.turns + 1 }
    ensures order { order.new.count + 1 ≡ order.old.count }
{
    let id = order.instance();
    let end = locked.turn(order, worker);
    locked.sync_owner(owner);
    let charged = locked.books().charges.low();
    let status = locked.host().call_status(id, 1);
    (end, worker.tally().charges, charged, status)
}

// The same, under the lock of the cell.
fn turn_by<T: Ledger, C: Ledger, O: Ledger, E: Ledger, B: CellAgreements, R: Wait>(
    rt: &R,
    cell: &HostCell<MemSwap, T, C, O, E, B>,
    owner: &mut Owner<MemSwap, B>,
    worker: &mut Worker<T, C>,
    order: &mut ReceivedTurns,
) -> Turned
    requires room { worker.old.tally.turns < 2 ^ 64 - 1 }
    requires due { 0 < order.old.count }
    ensures turns { worker.new.tally.turns ≡ worker.old.tally.turns + 1 }
    ensures order { order.new.count + 1 ≡ order.old.count }
{
    let mut locked = cell.lock(rt);
    turn_locked(&mut locked, owner, worker, order)
}

// All of these turns, each under the lock of the cell: what came of the last one.
fn turns_by<T: Ledger, C: Ledger, O: Ledger, E: Ledger, B: CellAgreements, R: Wait>(
    rt: &R,
    cell: &HostCell<MemSwap, T, C, O, E, B>,
    owner: &mut Owner<MemSwap, B>,
    worker: &mut Worker<T, C>,
    order: ReceivedTurns,
) -> Turned
    requires room { worker.old.tally.turns + order.count < 2 ^ 64 }
{
    let mut order = order;
    let mut turned = (TurnEnd::Idle, 0, 0, None);
    while order.count() > 0 {
        turned = turn_by(rt, cell, owner, worker, &mut order);
    }
    order.finish();
    turned
}

// One turn of 1000 charges of the first worker, to which its share is lent: it is handed out, received and run.
fn turn_of<T: Ledger, C: Ledger, O: Ledger, E: Ledger, B: CellAgreements, R: Wait>(
    rt: &R,
    alloc: Global,
    begun: Begun<T, C, O, E, B>,
    id: InstId,
) -> Result<Turned, Fail> {
    let Begun {
        cell,
        mut owner,
        shares,
    } = begun;
    let Shares { all } = shares;
    let mut lender = all;
    let mut worker = lender.lend_worker(0);
    let (sender, receiver, first) = open_channel(alloc, 1)?;
    let mut slip = first;
    let mut theirs = pass_for(&sender, &mut slip);
    let message = Message::Turns {
        first: 0,
        count: 1,
        instance: id,
        quantum: 1000,
    };
    if worker.is_full() || !dispatch(rt, &sender, &mut slip, message) {
        return Ok((TurnEnd::Idle, 0, 0, None));
    }
    match receive_turns(rt, &receiver, &mut theirs) {
        Some(order) => Ok(turns_by(rt, &cell, &mut owner, &mut worker, order)),
        None => Ok((TurnEnd::Idle, 0, 0, None)),
    }
}

// One turn of one worker on a new cell that was asked.
fn one_turn<T: Ledger, C: Ledger, O: Ledger, E: Ledger, B: CellAgreements, R: Wait>(
    rt: &R,
    alloc: Global,
    cell_parts: CellParts<MemSwap>,
) -> Result<Turned, Fail>
    requires empty { memory_held cell_parts.device ≡ replicate 64 [] }
    requires owned { cell_parts.to_owner ≡ B.to_owner }
    requires backed { cell_parts.to_device ≡ B.to_device }
    requires ledgers { HasLedgers T.Ledger C.Ledger O.Ledger E.Ledger cell_parts }
{
    let mut begun = begin_cell::<T, C, O, E, B>(alloc, cell_parts)?;
    let [a, _] = asked(rt, alloc, &mut begun)?;
    turn_of(rt, alloc, begun, a)
}

#[test]
fn a_turn_is_counted(rt: HostRuntime) -> Result<(), Fail> {
    let alloc = rt.alloc();
    let device = MemSwap::new(alloc, 64)?;
    let cell_parts = CellParts::new(alloc, device)?;
    let (end, tally, book, status) = one_turn::<Brand, Brand, Brand, Brand, Brand, HostRuntime>(
        &rt, alloc, cell_parts,
    )?;
    assert_eq!(rt; end, TurnEnd::Ended);
    let Some(CallStatus::Returned { value, charges }) = status else {
        assert!(rt; false, "the call has returned");
        return Ok(());
    };
    assert_eq!(rt; value, None);
    assert!(rt; charges > 0);
    assert_eq!(rt; (tally, book), (u128::from(charges), charges));
    Ok(())
}

// How many turns there were while two workers ran all calls, until a run had none; none where they couldn't.
fn run_turns<
    T: Ledger + Send + 'static,
    C: Ledger + Send + 'static,
    O: Ledger + Send + 'static,
    E: Ledger + Send + 'static,
    B: CellAgreements + Send + 'static,
    R: Threads + Wait + Copy + Send + Sync + 'static,
>(rt: R, alloc: Global, begun: &mut Begun<T, C, O, E, B>, ids: &[InstId]) -> u64 {
    let manner = RunConfig {
        hasher: FnvHash,
        quantum: 2,
        workers: 2,
    };
    let mut turns: u64 = 0;
    for _ in 0..MOST_RUNS {
        match run_calls(rt, alloc, &begun.cell, &mut begun.shares, ids, manner) {
            Ok(served) if served.end.is_ok() => {
                if served.turns == 0 {
                    return turns;
                }
                turns = turns.wrapping_add(served.turns);
            }
            Ok(_) | Err(_) => return 0,
        }
    }
    0
}

// How many turns all workers have counted.
fn counted_turns<T: Ledger, C: Ledger, O: Ledger, E: Ledger>(shares: &Shares<T, C, O, E>) -> u64 {
    let mut counted: u64 = 0;
    for seat in 0..64 {
        counted = shares.tally(seat).turns.wrapping_add(counted);
    }
    counted
}

// How far the loads of these instances are.
fn loads<T: Ledger, C: Ledger, O: Ledger, E: Ledger, B: CellAgreements, R: Wait>(
    rt: &R,
    alloc: Global,
    begun: &Begun<T, C, O, E, B>,
    ids: [InstId; 2],
) -> Result<Vec<Option<CallStatus>>, Fail> {
    let mut all = Vec::new(alloc);
    for id in ids {
        for at in 4..7 {
            all.push(status(rt, begun, id, at))?;
        }
    }
    Ok(all)
}

// All calls, by two workers: what came of the loads of each instance, whether the turns are those of the workers, and how many
// pages were evicted.
fn run_begun<
    T: Ledger + Send + 'static,
    C: Ledger + Send + 'static,
    O: Ledger + Send + 'static,
    E: Ledger + Send + 'static,
    B: CellAgreements + Send + 'static,
    R: Threads + Wait + Copy + Send + Sync + 'static,
>(
    rt: R,
    alloc: Global,
    begun: &mut Begun<T, C, O, E, B>,
) -> Result<(Vec<Option<CallStatus>>, bool, u64), Fail> {
    let ids = asked(&rt, alloc, begun)?;
    let ran = run_turns(rt, alloc, begun, &ids);
    let is_counted = counted_turns(&begun.shares) == ran;
    let all = loads(&rt, alloc, begun, ids)?;
    Ok((all, is_counted, begun.shares.evictions()))
}

// The same on a new cell.
fn all_run<
    T: Ledger + Send + 'static,
    C: Ledger + Send + 'static,
    O: Ledger + Send + 'static,
    E: Ledger + Send + 'static,
    B: CellAgreements + Send + 'static,
    R: Threads + Wait + Copy + Send + Sync + 'static,
>(
    rt: R,
    alloc: Global,
    cell_parts: CellParts<MemSwap>,
) -> Result<(Vec<Option<CallStatus>>, bool, u64), Fail>
    requires empty { memory_held cell_parts.device ≡ replicate 64 [] }
    requires owned { cell_parts.to_owner ≡ B.to_owner }
    requires backed { cell_parts.to_device ≡ B.to_device }
    requires ledgers { HasLedgers T.Ledger C.Ledger O.Ledger E.Ledger cell_parts }
{
    let mut begun = begin_cell::<T, C, O, E, B>(alloc, cell_parts)?;
    run_begun(rt, alloc, &mut begun)
}

/// Expects that a call has returned 7.
pub fn expect_seven(rt: &impl Abort, status: Option<CallStatus>, what: &str) {
    let Some(CallStatus::Returned { value, .. }) = status else {
        assert!(rt; false, "{what}");
        return;
    };
    let seven = CallValue {
        of: ValType::I32,
        word: 7,
    };
    assert_eq!(rt; value, Some(seven));
}

#[test]
fn workers_run_all_calls(rt: HostRuntime) -> Result<(), Fail> {
    let alloc = rt.alloc();
    let device = MemSwap::new(alloc, 64)?;
    let cell_parts = CellParts::new(alloc, device)?;
    let (all, are_counted, evictions) = all_run::<Brand, Brand, Brand, Brand, Brand, HostRuntime>(
        rt, alloc, cell_parts,
    )?;
    assert_eq!(rt; all.len(), 6);
    for status in &all {
        expect_seven(&rt, *status, "each load has returned");
    }
    assert!(rt; are_counted);

    // Six pages of 7 share a frame where they were offered in time; else they were on four frames.
    assert!(rt; evictions < 1000);
    Ok(())
}

/// Creates a host with 64 frames and 256 slots, which its owner has alone.
pub fn begin_owned<T: Ledger, C: Ledger, O: Ledger, E: Ledger, B: CellAgreements>(
    alloc: Global,
    cell_parts: CellParts<MemSwap>,
) -> Result<OwnedHost<MemSwap, T, C, O, E, B>, Fail>
    requires empty { memory_held cell_parts.device ≡ replicate 256 [] }
    requires owned { cell_parts.to_owner ≡ B.to_owner }
    requires backed { cell_parts.to_device ≡ B.to_device }
    requires ledgers { HasLedgers T.Ledger C.Ledger O.Ledger E.Ledger cell_parts }
{
    let host = Host::new(alloc, 64, 256, Tax { num: 0, den: 1 })?;
    Ok(OwnedHost::new(alloc, host, cell_parts)?)
}

// Whether each of `workers` workers has run a turn.
fn each_has_worked<T: Ledger, C: Ledger, O: Ledger, E: Ledger>(
    shares: &Shares<T, C, O, E>,
    workers: usize,
) -> bool
    requires { workers < 65 }
{
    for seat in 0..workers {
        if shares.tally(seat).turns == 0 {
            return false;
        }
    }
    true
}

// Each instance is asked for 200 stores and a load of what they stored: the last load. So several workers have turns.
fn ask_each<T: Ledger, C: Ledger, O: Ledger, E: Ledger, B: CellAgreements>(
    alloc: Global,
    owned: &mut OwnedHost<MemSwap, T, C, O, E, B>,
    ids: &[InstId],
) -> Result<Option<(InstId, u32)>, Fail> {
    let mut last = None;
    for id in ids {
        for _ in 0..200 {
            let _ = owned.ask(invocation(alloc, *id, "s", &[4096, 7], 1000))?;
        }
        let call = owned.ask(invocation(alloc, *id, "l", &[4096], 1000))?;
        last = Some((*id, call));
    }
    Ok(last)
}

// The instances are asked, and their calls run by turns of one charge, again and again until each of four workers has run a
// turn. The last load, if each has.
fn run_rounds<
    T: Ledger + Send + 'static,
    C: Ledger + Send + 'static,
    O: Ledger + Send + 'static,
    E: Ledger + Send + 'static,
    B: CellAgreements + Send + 'static,
    R: Threads + Wait + Copy + Send + Sync + 'static,
>(
    rt: R,
    alloc: Global,
    owned: &mut OwnedHost<MemSwap, T, C, O, E, B>,
    ids: &[InstId],
) -> Result<Option<(InstId, u32)>, Fail> {
    let manner = RunConfig {
        hasher: FnvHash,
        quantum: 1,
        workers: 4,
    };
    for _ in 0..1000 {
        let last = ask_each(alloc, owned, ids)?;
        match owned.run(rt, alloc, ids, manner) {
            Ok(served) if served.end.is_ok() => {}
            Ok(_) | Err(_) => return Ok(None),
        }
        let (_, shares) = owned.counts();
        if each_has_worked(shares, 4) {
            return Ok(last);
        }
    }
    Ok(None)
}

// Eight instances of one module on a host that its owner has alone.
fn eight<T: Ledger, C: Ledger, O: Ledger, E: Ledger, B: CellAgreements>(
    alloc: Global,
    owned: &mut OwnedHost<MemSwap, T, C, O, E, B>,
) -> Result<Vec<InstId>, Fail> {
    let bytes = owned.ask(loading(alloc, &BYTES))?;
    let mut ids = Vec::new(alloc);
    for _ in 0..8 {
        ids.push(owned.ask(admission(alloc, bytes))?)?;
    }
    Ok(ids)
}

// How the last load of eight instances is, once each of four workers has run a turn.
fn work_on<
    T: Ledger + Send + 'static,
    C: Ledger + Send + 'static,
    O: Ledger + Send + 'static,
    E: Ledger + Send + 'static,
    B: CellAgreements + Send + 'static,
    R: Threads + Wait + Copy + Send + Sync + 'static,
>(
    rt: R,
    alloc: Global,
    owned: &mut OwnedHost<MemSwap, T, C, O, E, B>,
) -> Result<Option<CallStatus>, Fail> {
    let ids = eight(alloc, owned)?;
    match run_rounds(rt, alloc, owned, &ids)? {
        Some((id, call)) => Ok(owned.host().call_status(id, call)),
        None => Ok(None),
    }
}

// The same on a new host.
fn all_work<
    T: Ledger + Send + 'static,
    C: Ledger + Send + 'static,
    O: Ledger + Send + 'static,
    E: Ledger + Send + 'static,
    B: CellAgreements + Send + 'static,
    R: Threads + Wait + Copy + Send + Sync + 'static,
>(rt: R, alloc: Global, cell_parts: CellParts<MemSwap>) -> Result<Option<CallStatus>, Fail>
    requires empty { memory_held cell_parts.device ≡ replicate 256 [] }
    requires owned { cell_parts.to_owner ≡ B.to_owner }
    requires backed { cell_parts.to_device ≡ B.to_device }
    requires ledgers { HasLedgers T.Ledger C.Ledger O.Ledger E.Ledger cell_parts }
{
    let mut owned = begin_owned::<T, C, O, E, B>(alloc, cell_parts)?;
    work_on(rt, alloc, &mut owned)
}

#[test]
fn each_worker_runs_turns(rt: HostRuntime) -> Result<(), Fail> {
    let alloc = rt.alloc();
    let device = MemSwap::new(alloc, 256)?;
    let cell_parts = CellParts::new(alloc, device)?;
    let last = all_work::<Brand, Brand, Brand, Brand, Brand, HostRuntime>(rt, alloc, cell_parts)?;
    expect_seven(
        &rt,
        last,
        "each worker runs a turn, and the last load returns",
    );
    Ok(())
}
