//! Memories with instances in them.

use anyhow::{Result, ensure};
use std::alloc::Global;
use wh_model::Got;
use wh_space::{Memory, Promise};
use wh_space_model::Tax;

/// Returns a memory with this number of frames, and slots enough.
pub fn memory_of(alloc: Global, frames: u32) -> Result<Memory> {
    Ok(Memory::new(alloc, frames, 1048576, Tax { num: 3, den: 4 })?)
}

/// Gives an instance this place, with `size` pages of 65536 bytes.
pub fn enter(alloc: Global, memory: &mut Memory, place: usize, size: u32) -> Result<()> {
    ensure!(size > 0, "it is too small");
    ensure!(size <= 4096, "it is too large");
    let promise = Promise {
        number: place as u64,
        shares: 100,
        min: 2,
        max: 16 * size,
    };
    ensure!(memory.is_free(place), "the place is taken");
    ensure!(memory.is_fresh(promise.number), "the number is taken");
    ensure!(
        u64::from(promise.min) <= memory.frames_left(),
        "there are too few frames"
    );
    ensure!(
        u64::from(promise.max - promise.min) < memory.slots_left(),
        "there are too few slots"
    );
    memory.enter(alloc, place, promise, size)?;
    Ok(())
}

/// Writes a number at the beginning of a page.
pub fn write(memory: &mut Memory, place: usize, page: u32, number: u64) -> Result<()> {
    let at = 4096 * u64::from(page);
    let got = memory.store(place, at, &number.to_le_bytes());
    ensure!(got == Got::Value, "the store came to {got:?}");
    Ok(())
}
