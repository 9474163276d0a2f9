//! Full passes beside the hash of the same pages.

use crate::clock::since;
use crate::pages::{enter, memory_of, write};
use anyhow::{Context, Result, ensure};
use std::alloc::Global;
use std::time::{CpuClock, Duration};
use wh_kernels::{FnvHash, fnv64};
use wh_scan::scan_all;
use wh_space::Memory;

const PAGES: u32 = 65536;

// Hashes all pages, each of which is resident.
fn hash_all(memory: &Memory) -> Result<u64> {
    let mut sum = 0u64;
    for page in 0..PAGES {
        let frame = memory.private_frame(0, page).context("it has no frame")?;
        sum = sum.wrapping_add(fnv64(memory.bytes_of(frame)));
    }
    Ok(sum)
}

fn say(rt: &impl Print, what: &str, time: Duration) -> Result<()> {
    let each = time.as_nanos() / u128::from(PAGES);
    println!(rt; "{what}: {} ms, {each} ns a page", time.as_millis())?;
    Ok(())
}

// How fast a pass is beside the hash alone, in hundredths.
fn speed(hash: Duration, pass: Duration) -> u128 {
    hash.as_nanos().saturating_mul(100) / pass.as_nanos().max(1)
}

// Makes the pages of one instance.
fn fill(alloc: Global, memory: &mut Memory) -> Result<()> {
    enter(alloc, memory, 0, PAGES / 16)?;
    for page in 0..PAGES {
        write(memory, 0, page, u64::from(page).wrapping_add(1))?;
    }
    Ok(())
}

// Times a full pass.
fn time_pass(rt: &impl CpuClock, memory: &mut Memory) -> Result<Duration> {
    ensure!(memory.has_few_pages(), "there are too many pages");
    let before = rt.thread_cpu_time()?;
    let _ = scan_all(memory, &FnvHash);
    since(rt, before)
}

// Times the hash and two passes, in a memory in which nobody is yet, and prints the times.
fn time_passes(rt: &(impl Print + CpuClock + AllocGlobal), memory: &mut Memory) -> Result<()> {
    fill(rt.alloc(), memory)?;
    let before = rt.thread_cpu_time()?;
    let sum = hash_all(memory)?;
    let hash = since(rt, before)?;
    let first = time_pass(rt, memory)?;
    let second = time_pass(rt, memory)?;
    ensure!(memory.used() == PAGES, "pages were merged");
    say(rt, "fnv64 of each page", hash)?;
    say(rt, "a pass that hints at each", first)?;
    say(rt, "a pass that finds each hint", second)?;
    let (slow, quick) = (speed(hash, first), speed(hash, second));
    println!(rt; "at {slow} and {quick} % of the hash's speed (sum {sum})")?;
    Ok(())
}

// Owns a new memory, and lends it to what can fail.
fn run_once(rt: &(impl Print + CpuClock + AllocGlobal)) -> Result<()> {
    let mut memory = memory_of(rt.alloc(), PAGES)?;
    time_passes(rt, &mut memory)
}

/// Makes the pages, and times the hash and two passes, three times over.
pub fn run(rt: &(impl Print + CpuClock + AllocGlobal)) -> Result<()> {
    for _ in 0..3 {
        run_once(rt)?;
    }
    Ok(())
}
