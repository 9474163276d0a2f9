//! Four instances with twice as many pages as there are frames.

use crate::clock::since;
use crate::pool::Pool;
use anyhow::Result;
use std::time::CpuClock;

const INSTANCES: u32 = 4;

const PAGES: u32 = 4096;

const FRAMES: u32 = 8192;

const ROUNDS: u32 = 3;

// In a new epoch, each instance writes a page, and then each the next, to the last.
fn round(rt: &(impl Print + CpuClock), pool: &mut Pool, round: u32) -> Result<()> {
    pool.epoch();
    let before = rt.thread_cpu_time()?;
    let (waits, left, time) = (pool.waits, pool.left, pool.time);
    for page in 0..PAGES {
        for place in 0..INSTANCES {
            let number = u64::from(page * INSTANCES + place).saturating_add(u64::from(round));
            pool.write(rt, place, page, number.saturating_add(1))?;
        }
    }
    let whole = since(rt, before)?.as_millis();
    let provisions = pool.time.saturating_sub(time).as_millis();
    let waits = pool.waits.saturating_sub(waits);
    let left = pool.left.saturating_sub(left);
    println!(rt;
        "round {round}: {} stores, {waits} waited, {left} pages left: {whole} ms, of which provisions {provisions} ms and the rest {} ms",
        INSTANCES * PAGES,
        whole.saturating_sub(provisions)
    )?;
    Ok(())
}

// The instances come to a new pool, and write all pages, three times over.
fn run_rounds(rt: &(impl Print + CpuClock + AllocGlobal), pool: &mut Pool) -> Result<()> {
    for place in 0..INSTANCES {
        pool.enter(rt.alloc(), place, 2, PAGES / 16)?;
    }
    for number in 0..ROUNDS {
        round(rt, pool, number)?;
    }
    Ok(())
}

/// Writes all pages, three times over.
pub fn run(rt: &(impl Print + CpuClock + AllocGlobal)) -> Result<()> {
    let mut pool = Pool::new(rt.alloc(), FRAMES, INSTANCES * PAGES)?;
    run_rounds(rt, &mut pool)
}
