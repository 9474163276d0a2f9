//! A pass over all pages of a host that its owner has alone: what it counts, and what it leaves on frames.

ghost use Rattle.std.specs.Prelude.{◌≡◌, [], replicate};
ghost use Rattle.wh_swap.specs.MemorySwaps.{memory_held};
ghost use Rattle.wh_cell.specs.Ledgers.{HasLedgers};

use crate::cell::{BYTES, begin_owned};
use crate::requests::{admission, invocation, loading};
use std::alloc::Global;
use std::marker::Brand;
use std::sync::Wait;
use std::sync::ledger::Ledger;
use std::test::Fail;
use std::thread::Threads;
use wh_cell::{CellAgreements, CellParts};
use wh_kernels::FnvHash;
use wh_scheduler::{OwnedHost, RunConfig};
use wh_swap::MemSwap;

// Two instances with a page of WebAssembly each. Both store 7 at the same place, and one of them 9 elsewhere too.
fn store_apart<
    T: Ledger + Send + 'static,
    C: Ledger + Send + 'static,
    O: Ledger + Send + 'static,
    E: Ledger + Send + 'static,
    B: CellAgreements + Send + 'static,
    R: Threads + Wait + Copy + Send + Sync + 'static,
>(rt: R, alloc: Global, owned: &mut OwnedHost<MemSwap, T, C, O, E, B>) -> Result<(), Fail> {
    let bytes = owned.ask(loading(alloc, &BYTES))?;
    let a = owned.ask(admission(alloc, bytes))?;
    let b = owned.ask(admission(alloc, bytes))?;
    let _ = owned.ask(invocation(alloc, a, "s", &[4096, 7], 1000))?;
    let _ = owned.ask(invocation(alloc, b, "s", &[4096, 7], 1000))?;
    let _ = owned.ask(invocation(alloc, b, "s", &[8192, 9], 1000))?;
    let manner = RunConfig {
        hasher: FnvHash,
        quantum: 100,
        workers: 1,
    };
    let _ = owned.run(rt, alloc, &[a, b], manner);
    Ok(())
}

// How many pages a pass has offered; by how many the book of offers grew, and by how many what threads have counted;
// and how many frames there are, and how many of these are in use, after it.
#[derive(Debug, Drop)]
struct Passed {
    offered: Option<u64>,
    in_book: u64,
    by_threads: u64,
    frames: u32,
    used_frames: u32,
}

// A pass.
fn pass<
    T: Ledger + Send + 'static,
    C: Ledger + Send + 'static,
    O: Ledger + Send + 'static,
    E: Ledger + Send + 'static,
    B: CellAgreements + Send + 'static,
    R: Threads + Wait + Copy + Send + 'static,
>(rt: &R, alloc: Global, owned: &mut OwnedHost<MemSwap, T, C, O, E, B>) -> Result<Passed, Fail> {
    let (books, shares) = owned.counts();
    let (in_book, by_threads) = (books.offers.low(), shares.offers());
    let offered = owned.scan(rt, alloc, FnvHash).unwrap_or(None);
    let (books, shares) = owned.counts();
    let usage = owned.host().usage();
    Ok(Passed {
        offered,
        in_book: books.offers.low().wrapping_sub(in_book),
        by_threads: shares.offers().wrapping_sub(by_threads),
        frames: usage.frames,
        used_frames: usage.used_frames,
    })
}

// A pass over no page, and one over those of two instances, on a new host.
fn passes<
    T: Ledger + Send + 'static,
    C: Ledger + Send + 'static,
    O: Ledger + Send + 'static,
    E: Ledger + Send + 'static,
    B: CellAgreements + Send + 'static,
    R: Threads + Wait + Copy + Send + Sync + 'static,
>(rt: R, alloc: Global, cell_parts: CellParts<MemSwap>) -> Result<(Passed, Passed), Fail>
    requires empty { memory_held cell_parts.device ≡ replicate 256 [] }
    requires owned { cell_parts.to_owner ≡ B.to_owner }
    requires backed { cell_parts.to_device ≡ B.to_device }
    requires ledgers { HasLedgers T.Ledger C.Ledger O.Ledger E.Ledger cell_parts }
{
    let mut owned = begin_owned::<T, C, O, E, B>(alloc, cell_parts)?;
    let none = pass(&rt, alloc, &mut owned)?;
    store_apart(rt, alloc, &mut owned)?;
    let all = pass(&rt, alloc, &mut owned)?;
    Ok((none, all))
}

#[test]
fn a_pass_counts_each_page(rt: HostRuntime) -> Result<(), Fail> {
    let alloc = rt.alloc();
    let device = MemSwap::new(alloc, 256)?;
    let cell_parts = CellParts::new(alloc, device)?;
    let (none, all) = passes::<Brand, Brand, Brand, Brand, Brand, HostRuntime>(
        rt, alloc, cell_parts,
    )?;
    assert_eq!(rt; none.offered, Some(0));
    assert_eq!(rt; none.in_book, 0);
    assert_eq!(rt; none.by_threads, 0);

    // Two instances have 65536 bytes each: 32 pages of 4096.
    assert_eq!(rt; all.offered, Some(32));
    assert_eq!(rt; all.in_book, 32);
    assert_eq!(rt; all.by_threads, 32);

    // Of the pages that were written two are equal, and one has another byte; all others are zero and have no frame.
    assert_eq!(rt; all.frames, 64);
    assert_eq!(rt; all.used_frames, 2);
    Ok(())
}
