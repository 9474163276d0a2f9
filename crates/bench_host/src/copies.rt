//! Copies of an instance beside admissions to the memory.

use crate::clock::since;
use crate::pages::{enter, memory_of, write};
use anyhow::{Result, ensure};
use std::alloc::Global;
use std::time::{CpuClock, Duration};
use wh_space::{Memory, Promise};

// How many instances there are with the template.
const COPIES: u32 = 200;

// A copy of the template comes to this place.
fn copy(alloc: Global, memory: &mut Memory, place: usize, size: u32) -> Result<()> {
    ensure!(size > 0, "it is too small");
    ensure!(size <= 4096, "it is too large");
    ensure!(place > 0, "it is the template's");
    let promise = Promise {
        number: place as u64,
        shares: 100,
        min: 2,
        max: 16 * size,
    };
    ensure!(memory.is_free(place), "the place is taken");
    ensure!(memory.is_fresh(promise.number), "the number is taken");
    ensure!(
        u64::from(promise.min) <= memory.frames_left(),
        "there are too few frames"
    );
    ensure!(
        u64::from(promise.max - promise.min) < memory.slots_left(),
        "there are too few slots"
    );
    ensure!(memory.has_few_pages(), "there are too many pages");
    ensure!(!memory.is_away(0), "a page is away");
    ensure!(memory.pages_at(0) <= promise.max, "it is too large");
    memory.copy(alloc, 0, place, promise)?;
    Ok(())
}

fn write_all(memory: &mut Memory, place: usize, pages: u32) -> Result<()> {
    for page in 0..pages {
        write(memory, place, page, 7)?;
    }
    Ok(())
}

// The template, each of whose pages has a frame of its own.
fn template(alloc: Global, memory: &mut Memory, size: u32) -> Result<()> {
    enter(alloc, memory, 0, size)?;
    let pages = memory.pages_at(0);
    write_all(memory, 0, pages)
}

// Admits the others, each with `size` pages of 65536 bytes; returns how long that took.
fn enters(rt: &(impl CpuClock + AllocGlobal), memory: &mut Memory, size: u32) -> Result<Duration> {
    template(rt.alloc(), memory, size)?;
    let before = rt.thread_cpu_time()?;
    for place in 1..COPIES {
        enter(rt.alloc(), memory, place as usize, size)?;
    }
    since(rt, before)
}

// Copies the template, all of whose pages of 4096 bytes were written: how long that took.
fn copies(rt: &(impl CpuClock + AllocGlobal), memory: &mut Memory, size: u32) -> Result<Duration> {
    template(rt.alloc(), memory, size)?;
    let before = rt.thread_cpu_time()?;
    for place in 1..COPIES {
        copy(rt.alloc(), memory, place as usize, size)?;
    }
    since(rt, before)
}

// Both, of `size` pages of 65536 bytes.
fn round(rt: &(impl Print + CpuClock + AllocGlobal), size: u32) -> Result<()> {
    let mut one = memory_of(rt.alloc(), 16384)?;
    let entered = enters(rt, &mut one, size)?.as_nanos() / u128::from(COPIES - 1);
    let mut other = memory_of(rt.alloc(), 16384)?;
    let copied = copies(rt, &mut other, size)?.as_nanos() / u128::from(COPIES - 1);
    let used = other.used();
    let pages = 16 * u64::from(size);
    println!(rt; "{pages} pages: enter {entered} ns, copy {copied} ns, {used} frames")?;
    Ok(())
}

/// Runs each size three times.
pub fn run(rt: &(impl Print + CpuClock + AllocGlobal)) -> Result<()> {
    for _ in 0..3 {
        for size in [1, 4, 16, 64, 256] {
            round(rt, size)?;
        }
    }
    Ok(())
}
