//! A host that its owner has alone, and whose calls the owner runs itself, where no thread works: with provisions,
//! offers and a pass.

ghost use Rattle.std.specs.Prelude.{◌≡◌, [], replicate};
ghost use Rattle.wh_swap.specs.MemorySwaps.{memory_held};
ghost use Rattle.wh_cell.specs.Ledgers.{HasLedgers};

use crate::cell::{BYTES, expect_seven};
use crate::requests::{admission, invocation, loading};
use std::alloc::Global;
use std::marker::Brand;
use std::sync::ledger::Ledger;
use std::test::Fail;
use wh_cell::{CellAgreements, CellParts};
use wh_host::{CallStatus, Host};
use wh_kernels::FnvHash;
use wh_scheduler::{OwnedHost, WorkHere};
use wh_space_model::{InstId, Tax};
use wh_swap::MemSwap;
use wh_threads::OwnCount;

// What came of calls that the owner ran to their ends, and of a pass of its own after them.
#[derive(Drop)]
struct Alone {
    // The last load.
    last: Option<CallStatus>,
    // What the owner did for the calls.
    work: WorkHere,
    // What it has counted of that.
    own: OwnCount,
    // What workers, scanners and reclaimers have counted.
    by_threads: u64,
    // The books of turns, offers and evictions.
    in_books: [u64; 3],
    // How many pages the pass offered.
    passed: Option<u64>,
    // How many offers the owner has counted after it.
    own_offers: u64,
}

// Two instances store 0 to 7 on eight pages each, and load all of them. The last load.
fn ask_all<T: Ledger, C: Ledger, O: Ledger, E: Ledger, B: CellAgreements>(
    alloc: Global,
    owned: &mut OwnedHost<MemSwap, T, C, O, E, B>,
    ids: [InstId; 2],
) -> Result<Option<(InstId, u32)>, Fail> {
    let mut last = None;
    for page in 0..8u32 {
        let page = i128::from(page);
        for id in ids {
            let _ = owned.ask(invocation(alloc, id, "s", &[page * 4096, page], 1000))?;
        }
    }
    for page in 0..8u32 {
        let page = i128::from(page);
        for id in ids {
            let call = owned.ask(invocation(alloc, id, "l", &[page * 4096], 1000))?;
            last = Some((id, call));
        }
    }
    Ok(last)
}

// The owner runs these calls by turns of one charge, and then makes a pass.
fn go_on_alone<T: Ledger, C: Ledger, O: Ledger, E: Ledger, B: CellAgreements>(
    alloc: Global,
    owned: &mut OwnedHost<MemSwap, T, C, O, E, B>,
) -> Result<Alone, Fail> {
    let bytes = owned.ask(loading(alloc, &BYTES))?;
    let a = owned.ask(admission(alloc, bytes))?;
    let b = owned.ask(admission(alloc, bytes))?;
    let call = ask_all(alloc, owned, [a, b])?;
    let work = owned.drain_here(&[a, b], 1, &FnvHash);
    let (books, shares) = owned.counts();
    let own = shares.owner();
    let by_threads = shares
        .tally(0)
        .turns
        .saturating_add(shares.offers())
        .saturating_add(shares.evictions());
    let in_books = [books.turns.low(), books.offers.low(), books.evictions.low()];
    let passed = owned.scan_here(&FnvHash);
    let (_, shares) = owned.counts();
    let own_offers = shares.owner().offers;
    let last = match call {
        Some((id, number)) => owned.host().call_status(id, number),
        None => None,
    };
    Ok(Alone {
        last,
        work,
        own,
        by_threads,
        in_books,
        passed,
        own_offers,
    })
}

// The same on a new host of four frames.
fn alone_on_new<T: Ledger, C: Ledger, O: Ledger, E: Ledger, B: CellAgreements>(
    alloc: Global,
    cell_parts: CellParts<MemSwap>,
) -> Result<Alone, Fail>
    requires empty { memory_held cell_parts.device ≡ replicate 64 [] }
    requires owned { cell_parts.to_owner ≡ B.to_owner }
    requires backed { cell_parts.to_device ≡ B.to_device }
    requires ledgers { HasLedgers T.Ledger C.Ledger O.Ledger E.Ledger cell_parts }
{
    let host = Host::new(alloc, 4, 64, Tax { num: 0, den: 1 })?;
    let mut owned: OwnedHost<MemSwap, T, C, O, E, B> = OwnedHost::new(alloc, host, cell_parts)?;
    go_on_alone(alloc, &mut owned)
}

#[test]
fn the_owner_goes_on_alone(rt: HostRuntime) -> Result<(), Fail> {
    let alloc = rt.alloc();
    let device = MemSwap::new(alloc, 64)?;
    let cell_parts = CellParts::new(alloc, device)?;
    let alone = alone_on_new::<Brand, Brand, Brand, Brand, Brand>(alloc, cell_parts)?;
    expect_seven(&rt, alone.last, "the last load has returned");
    assert!(rt; alone.work.rests);

    // Each of 32 calls takes two charges at least, and seven distinct contents that aren't all zero don't fit four frames.
    assert!(rt; alone.work.turns >= 64);
    assert!(rt; alone.work.offers >= alone.work.turns / 64);
    assert!(rt; alone.own.evictions >= 3);
    assert_eq!(rt; alone.own.turns, alone.work.turns);
    assert_eq!(rt; alone.own.offers, alone.work.offers);
    assert_eq!(rt;
        alone.in_books,
        [alone.own.turns, alone.own.offers, alone.own.evictions]
    );
    assert_eq!(rt; alone.by_threads, 0);

    // Two instances have 65536 bytes each: 32 pages of 4096.
    assert_eq!(rt; alone.passed, Some(32));
    assert_eq!(rt; alone.own_offers, alone.work.offers.saturating_add(32));
    Ok(())
}
