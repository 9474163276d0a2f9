//! Tenants that ask a desk by threads of their own, while calls run.

ghost use Rattle.std.specs.Prelude.{◌≡◌, ◌<◌, [], replicate};
ghost use Rattle.wh_swap.specs.MemorySwaps.{memory_held};
ghost use Rattle.wh_cell.specs.Ledgers.{HasLedgers};

use crate::begun::{BYTES, Begun, admission, begin};
use std::alloc::Global;
use std::marker::Brand;
use std::sync::ledger::{Blank, Ledger, Share};
use std::sync::{Arc, Mutex, Wait};
use std::test::Fail;
use std::thread;
use std::thread::Threads;
use wh_cell::{CellAgreements, CellParts, HostCell};
use wh_desk::{DeskReply, DeskRequest, HostDesk, Principal, Trace};
use wh_host::{CallStatus, HostError};
use wh_kernels::FnvHash;
use wh_scheduler::{RunConfig, run_calls};
use wh_space_model::InstId;
use wh_swap::MemSwap;
use wh_threads::{AgreementId, BlankAgreement, Shares};

// How many calls a tenant asks for.
const CALLS: u32 = 200;

// How many runs there are at most until none has a turn any more.
const MOST_RUNS: u32 = 100;

// A desk under a lock.
type Shared<T, C, O, E, B, N> = Arc<Mutex<HostDesk<MemSwap, T, C, O, E, B, N>>, Global>;

// A share by which somebody can count.
#[derive(Drop)]
struct Counter<N: Ledger> {
    share: Share<N>,
    ghost some: { 0 < share.parts },
}

// Asks for one thing, under the desk's lock.
fn ask<
    T: Ledger,
    C: Ledger,
    O: Ledger,
    E: Ledger,
    B: CellAgreements,
    N: Ledger + AgreementId,
    R: Wait,
>(
    rt: &R,
    desk: &Shared<T, C, O, E, B, N>,
    counter: &mut Counter<N>,
    who: Principal,
    request: DeskRequest<'_>,
) -> DeskReply {
    let mut lent = desk.lock(rt);
    lent.answer(rt, who, request, &mut counter.share)
}

// Loads a module, and admits an instance of it.
fn settle<
    T: Ledger,
    C: Ledger,
    O: Ledger,
    E: Ledger,
    B: CellAgreements,
    N: Ledger + AgreementId,
    R: Wait,
>(
    rt: &R,
    alloc: Global,
    desk: &Shared<T, C, O, E, B, N>,
    counter: &mut Counter<N>,
    who: Principal,
) -> Option<InstId> {
    let DeskReply::Loaded(Ok(of)) = ask(rt, desk, counter, who, DeskRequest::Load { bytes: &BYTES })
    else {
        return None;
    };
    match ask(rt, desk, counter, who, admission(alloc, of)) {
        DeskReply::Admitted(Ok(id)) => Some(id),
        _ => None,
    }
}

// Asks for calls of a tenant's instance, after each of which a stranger asks about it: how many calls were taken, where each time the
// tenant is told of its call and the stranger of none.
fn ask_for_calls<
    T: Ledger,
    C: Ledger,
    O: Ledger,
    E: Ledger,
    B: CellAgreements,
    N: Ledger + AgreementId,
    R: Wait,
>(
    rt: &R,
    desk: &Shared<T, C, O, E, B, N>,
    counter: &mut Counter<N>,
    who: Principal,
    id: InstId,
) -> u32 {
    let stranger = Principal::Tenant(99);
    let mut taken: u32 = 0;
    for at in 1..CALLS + 1 {
        let request = DeskRequest::Invoke {
            id,
            name: "s",
            given: &[0, 7],
            fuel: 100,
        };
        let invoked = ask(rt, desk, counter, who, request);
        let status = ask(rt, desk, counter, who, DeskRequest::Status { id, at });
        let cancelled = ask(rt, desk, counter, stranger, DeskRequest::Cancel { id });
        if matches!(invoked, DeskReply::Invoked(Ok(_)))
            && matches!(status, DeskReply::Status(Some(_)))
            && matches!(cancelled, DeskReply::Done(Err(HostError::NoInstance)))
        {
            taken = taken.wrapping_add(1);
        }
    }
    taken
}

// What a tenant's thread does: its instance, and how many calls were taken.
fn ask_as<
    T: Ledger,
    C: Ledger,
    O: Ledger,
    E: Ledger,
    B: CellAgreements,
    N: Ledger + AgreementId,
    R: Wait,
>(
    rt: &R,
    alloc: Global,
    desk: &Shared<T, C, O, E, B, N>,
    counter: &mut Counter<N>,
    who: Principal,
) -> Option<(InstId, u32)> {
    let id = settle(rt, alloc, desk, counter, who)?;
    let taken = ask_for_calls(rt, desk, counter, who, id);
    Some((id, taken))
}

/// Runs calls of these instances until a run has no turn: one may end before, where each call waits for a frame again and again.
/// Returns whether all ended well.
pub fn run<
    T: Ledger + Send + 'static,
    C: Ledger + Send + 'static,
    O: Ledger + Send + 'static,
    E: Ledger + Send + 'static,
    B: CellAgreements + Send + 'static,
    R: Threads + Wait + Copy + Send + Sync + 'static,
>(
    rt: R,
    alloc: Global,
    cell: &HostCell<MemSwap, T, C, O, E, B>,
    shares: &mut Shares<T, C, O, E>,
    ids: &[InstId],
) -> bool {
    let config = RunConfig {
        hasher: FnvHash,
        quantum: 2,
        workers: 2,
    };
    for _ in 0..MOST_RUNS {
        match run_calls(rt, alloc, cell, shares, ids, config) {
            Ok(served) if served.end.is_ok() => {
                if served.turns == 0 {
                    return true;
                }
            }
            Ok(_) | Err(_) => return false,
        }
    }
    false
}

// How many of a tenant's calls have returned.
fn returned<
    T: Ledger,
    C: Ledger,
    O: Ledger,
    E: Ledger,
    B: CellAgreements,
    N: Ledger + AgreementId,
    R: Wait,
>(
    rt: &R,
    desk: &Shared<T, C, O, E, B, N>,
    counter: &mut Counter<N>,
    who: Principal,
    id: InstId,
) -> u32 {
    let mut many: u32 = 0;
    for at in 1..CALLS + 1 {
        let status = ask(rt, desk, counter, who, DeskRequest::Status { id, at });
        if matches!(status, DeskReply::Status(Some(CallStatus::Returned { .. }))) {
            many = many.wrapping_add(1);
        }
    }
    many
}

// Two tenants ask by threads of their own, while calls run: how many calls were taken, and how many have returned then.
fn asked_by_all<
    T: Ledger + Send + 'static,
    C: Ledger + Send + 'static,
    O: Ledger + Send + 'static,
    E: Ledger + Send + 'static,
    B: CellAgreements + Send + 'static,
    N: Ledger + AgreementId + Send + 'static,
    R: Threads + Wait + Copy + Send + Sync + 'static,
>(
    rt: R,
    alloc: Global,
    cell_parts: CellParts<MemSwap>,
    trace: BlankAgreement<Trace<MemSwap>>,
    replies: Blank,
) -> Result<(u32, u32), Fail>
    requires empty { memory_held cell_parts.device ≡ replicate 64 [] }
    requires owned { cell_parts.to_owner ≡ B.to_owner }
    requires backed { cell_parts.to_device ≡ B.to_device }
    requires ledgers { HasLedgers T.Ledger C.Ledger O.Ledger E.Ledger cell_parts }
    requires trace { trace ≡ N.AgreementId.table }
    requires replies { (replies.name ≡ N.Ledger.name) × (replies.parts ≡ N.Ledger.parts) }
    requires parts { replies.parts ≡ 3 }
{
    let Begun {
        desk,
        mut share,
        cell,
        mut shares,
    } = begin::<T, C, O, E, B, N>(alloc, cell_parts, trace, replies)?;
    let desk = Arc::new(alloc, Mutex::new(desk))?;
    let mut first = Counter {
        share: share.split_off(1, 0),
    };
    let mut second = Counter {
        share: share.split_off(1, 0),
    };
    let mut mine = Counter { share };
    let (one, two) = (Principal::Tenant(1), Principal::Tenant(2));
    let (of_one, of_two) = (Arc::try_clone(&desk)?, Arc::try_clone(&desk)?);
    let child = thread::spawn(&rt, move || -> Option<(InstId, u32)> {
        ask_as(&rt, alloc, &of_one, &mut first, one)
    })?;
    let other = thread::spawn(&rt, move || -> Option<(InstId, u32)> {
        ask_as(&rt, alloc, &of_two, &mut second, two)
    })?;
    let Some(id) = settle(&rt, alloc, &desk, &mut mine, Principal::Operator) else {
        return Ok((0, 0));
    };
    let _ = ask_for_calls(&rt, &desk, &mut mine, Principal::Operator, id);
    let ran = run(rt, alloc, &cell, &mut shares, &[id]);
    let (Some((a, taken)), Some((b, taken_too))) = (child.join(&rt), other.join(&rt)) else {
        return Ok((0, 0));
    };
    if !ran || !run(rt, alloc, &cell, &mut shares, &[a, b]) {
        return Ok((0, 0));
    }
    let operators = returned(&rt, &desk, &mut mine, Principal::Operator, id);
    let ones = returned(&rt, &desk, &mut mine, one, a);
    let twos = returned(&rt, &desk, &mut mine, two, b);
    Ok((taken.wrapping_add(taken_too), ones.min(twos).min(operators)))
}

#[test]
fn tenants_ask_while_calls_run(rt: HostRuntime) -> Result<(), Fail> {
    let alloc = rt.alloc();
    let device = MemSwap::new(alloc, 64)?;
    let cell_parts = CellParts::new(alloc, device)?;
    let trace = BlankAgreement::new(alloc)?;
    let (taken, returned) = asked_by_all::<Brand, Brand, Brand, Brand, Brand, Brand, HostRuntime>(
        rt,
        alloc,
        cell_parts,
        trace,
        Blank::new(3),
    )?;
    assert_eq!(rt; taken, 2 * CALLS);
    assert_eq!(rt; returned, CALLS);
    Ok(())
}
