//! One instance that takes pages from a thousand others.

use crate::pool::Pool;
use anyhow::{Result, ensure};
use std::time::{CpuClock, Duration};

const OTHERS: u32 = 1000;

// How many pages each of the others has, of which it keeps two.
const EACH: u32 = 12;

const PAGES: u32 = 10000;

// How many pages of 65536 bytes hold these.
const SIZE: u32 = 625;

// Others come, of which nobody is below its minimum, on all frames, and the one that will write, whose minimum is all that it
// writes.
fn fill(rt: &(impl CpuClock + AllocGlobal), pool: &mut Pool) -> Result<()> {
    for place in 0..OTHERS {
        pool.enter(rt.alloc(), place, 2, 1)?;
        for page in 0..EACH {
            let number = u64::from(place * EACH + page).saturating_add(1);
            pool.write(rt, place, page, number)?;
        }
    }
    pool.enter(rt.alloc(), OTHERS, PAGES, SIZE)?;
    pool.epoch();
    ensure!(pool.waits == 0, "a frame is missing");
    Ok(())
}

// Fills a new pool, and writes all pages: how long the whole took.
fn time_writes(rt: &(impl Print + CpuClock + AllocGlobal), pool: &mut Pool) -> Result<()> {
    fill(rt, pool)?;
    let before = rt.thread_cpu_time()?;
    for page in 0..PAGES {
        pool.write(rt, OTHERS, page, 7)?;
    }
    let whole = crate::clock::since(rt, before)?;
    ensure!(pool.waits == PAGES, "a store didn't wait");
    ensure!(pool.left == u64::from(PAGES), "other pages left");
    say(rt, pool.time, whole)
}

// Owns a new pool, and lends it to what can fail.
fn round(rt: &(impl Print + CpuClock + AllocGlobal)) -> Result<()> {
    let mut pool = Pool::new(rt.alloc(), OTHERS * EACH, 32768)?;
    time_writes(rt, &mut pool)
}

fn say(rt: &impl Print, time: Duration, whole: Duration) -> Result<()> {
    let nanos = time.as_nanos().max(1);
    let each = nanos / u128::from(PAGES);
    let second = 1000000000u128.saturating_mul(u128::from(PAGES)) / nanos;
    println!(rt;
        "{PAGES} pages left for as many stores: {} ms, of which provisions {} ms, {each} ns a page, {second} pages a second",
        whole.as_millis(),
        time.as_millis()
    )?;
    Ok(())
}

/// Takes all pages, three times over.
pub fn run(rt: &(impl Print + CpuClock + AllocGlobal)) -> Result<()> {
    for _ in 0..3 {
        round(rt)?;
    }
    Ok(())
}
