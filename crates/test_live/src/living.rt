// A host lives while it is asked what a plan says.

ghost use Rattle.std.specs.Prelude.{◌≡◌, ◌<◌, ◌≤◌, [], replicate};
ghost use Rattle.wh_swap.specs.MemorySwaps.{memory_held};
ghost use Rattle.wh_cell.specs.Ledgers.{HasLedgers};

use crate::scene::Scene;
use crate::scenes::Plan;
use anyhow::{Result, ensure};
use std::alloc::Global;
use std::marker::Brand;
use std::sync::Wait;
use std::sync::ledger::Ledger;
use std::thread;
use std::thread::Threads;
use wh_cell::{CellAgreements, CellParts, HostCell};
use wh_host::Host;
use wh_kernels::FnvHash;
use wh_live::{LiveQueue, Passes, run_live};
use wh_scheduler::RunConfig;
use wh_space_model::Tax;
use wh_swap::MemSwap;
use wh_threads::Shares;

// Runs the calls of the host until it is to stop. Whether all went well, and each turn is counted.
fn run_all<
    T: Ledger + Send + 'static,
    C: Ledger + Send + 'static,
    O: Ledger + Send + 'static,
    E: Ledger + Send + 'static,
    B: CellAgreements + Send + 'static,
    R: Threads + Wait + Copy + Send + Sync + 'static,
>(
    rt: R,
    alloc: Global,
    cell: HostCell<MemSwap, T, C, O, E, B>,
    queue: LiveQueue,
    passes: Passes<MemSwap, FnvHash>,
    shares: Shares<T, C, O, E>,
    workers: usize,
) -> bool {
    let mut shares = shares;
    let run_config = RunConfig {
        hasher: FnvHash,
        quantum: 1000,
        workers: workers.clamp(1, 64),
    };
    let Ok(served) = run_live(rt, alloc, &cell, &queue, &passes, &mut shares, run_config) else {
        return false;
    };
    let mut turns: u64 = 0;
    for seat in 0..64 {
        turns = turns.wrapping_add(shares.tally(seat).turns);
    }
    served.end.is_ok() && turns == served.turns
}

// The calls are run by a thread of their own, while this one asks what the plan says.
fn act_beside<
    T: Ledger + Send + 'static,
    C: Ledger + Send + 'static,
    O: Ledger + Send + 'static,
    E: Ledger + Send + 'static,
    B: CellAgreements + Send + 'static,
    R: Threads + Wait + Copy + Send + Sync + 'static,
>(
    rt: R,
    scene: &mut Scene<T, C, O, E, B>,
    shares: Shares<T, C, O, E>,
    workers: usize,
    plan: Plan,
) -> Result<()> {
    let alloc = scene.alloc;
    let cell = scene.cell.share()?;
    let queue = scene.queue.share()?;
    let passes = scene.passes.share()?;
    let run = move || -> bool { run_all(rt, alloc, cell, queue, passes, shares, workers) };
    let runner = thread::spawn(&rt, run)?;
    let begun = scene.begun();
    let acted = scene.act(&rt, plan);
    scene.queue.end();
    let ran = runner.join(&rt);
    begun?;
    acted?;
    ensure!(ran, "the calls weren't run to the stop");
    Ok(())
}

// The same on a new host with eight frames and 128 slots.
fn live_on_new<
    T: Ledger + Send + 'static,
    C: Ledger + Send + 'static,
    O: Ledger + Send + 'static,
    E: Ledger + Send + 'static,
    B: CellAgreements + Send + 'static,
    R: Threads + Wait + Copy + Send + Sync + 'static,
>(rt: R, alloc: Global, cell_parts: CellParts<MemSwap>, workers: usize, plan: Plan) -> Result<()>
    requires empty { memory_held cell_parts.device ≡ replicate 128 [] }
    requires owned { cell_parts.to_owner ≡ B.to_owner }
    requires backed { cell_parts.to_device ≡ B.to_device }
    requires ledgers { HasLedgers T.Ledger C.Ledger O.Ledger E.Ledger cell_parts }
{
    let host = Host::new(alloc, 8, 128, Tax { num: 0, den: 1 })?;
    let (cell, owner, shares) = HostCell::<MemSwap, T, C, O, E, B>::new(alloc, host, cell_parts)?;
    let queue = LiveQueue::new(alloc, workers)?;
    let passes = Passes::new(alloc, &queue)?;
    let mut scene = Scene {
        alloc,
        cell,
        owner,
        queue,
        passes,
    };
    act_beside(rt, &mut scene, shares, workers, plan)
}

/// Lets a new host live with so many workers while it is asked what the plan says, and then stop.
pub fn live<R: AllocGlobal + Threads + Wait + Copy + Send + Sync + 'static>(
    rt: R,
    workers: usize,
    plan: Plan,
) -> Result<()> {
    let alloc = rt.alloc();
    let cell_parts = CellParts::new(alloc, MemSwap::new(alloc, 128)?)?;
    live_on_new::<Brand, Brand, Brand, Brand, Brand, R>(rt, alloc, cell_parts, workers, plan)
}
