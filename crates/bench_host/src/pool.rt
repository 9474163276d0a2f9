//! A memory beside its swap device, and the time that provisions take.

ghost use Rattle.std.specs.Prelude.{◌≡◌, true, OnOk};
ghost use Rattle.wh_space_model.specs.Parts.{Occupant, occupant_at};
ghost use Rattle.wh_reclaim.specs.Together.{AreTogether};
ghost use Rattle.wh_swap.specs.MemorySwaps.{memory_held};

use crate::clock::since;
use anyhow::{Context, Result, anyhow, ensure};
use std::alloc::Global;
use std::time::{CpuClock, Duration};
use wh_model::{Got, Need};
use wh_reclaim::{Buf, PagesMoved, provide};
use wh_space::{Memory, Promise};
use wh_space_model::Tax;
use wh_swap::MemSwap;

/// A memory, its device, and what was done so far: how many stores had to wait, how many pages left for them, and how long that
/// took.
pub struct Pool {
    memory: Memory,
    device: MemSwap,
    buf: Buf,
    pub waits: u32,
    pub left: u64,
    pub time: Duration,
    ghost together: { AreTogether memory (memory_held device) },
}

impl Drop for Pool {
    fn drop(self) {
        let Pool {
            memory: _,
            device: _,
            buf: _,
            waits: _,
            left: _,
            time: _,
        } = self;
    }
}

impl Pool {
    /// Creates a pool with this number of frames and slots, and a tax of three fourths.
    pub fn new(alloc: Global, frames: u32, slots: u32) -> Result<Pool> {
        let memory = Memory::new(alloc, frames, slots, Tax { num: 3, den: 4 })?;
        let device = MemSwap::new(alloc, slots)?;
        let buf = Box::new(alloc, [0; 4096])?;
        Ok(Pool {
            memory,
            device,
            buf,
            waits: 0,
            left: 0,
            time: Duration::ZERO,
        })
    }

    /// Gives an instance the place of its number, with this minimum of frames and `size` pages of 65536 bytes.
    pub fn enter(&mut self, alloc: Global, number: u32, min: u32, size: u32) -> Result<()> {
        let place = number as usize;
        ensure!(size > 0 && size <= 4096, "it is of another size");
        ensure!(min > 1 && min <= 16 * size, "it has another minimum");
        let promise = Promise {
            number: u64::from(number),
            shares: 100,
            min,
            max: 16 * size,
        };
        let memory = &mut self.memory;
        ensure!(memory.is_free(place), "the place is taken");
        ensure!(memory.is_fresh(promise.number), "the number is taken");
        ensure!(
            u64::from(min) <= memory.frames_left(),
            "there are too few frames"
        );
        ensure!(
            u64::from(promise.max - min) < memory.slots_left(),
            "there are too few slots"
        );
        memory.enter(alloc, place, promise, size)?;
        Ok(())
    }

    /// Begins an epoch.
    pub fn epoch(&mut self) {
        self.memory.invariant();
        self.memory.new_epoch();
    }

    // Writes a number at the beginning of a page, where it is ready; else it gives what is wanted.
    fn store(&mut self, place: usize, page: u32, number: u64) -> Result<Option<Need>> {
        let at = 4096 * u64::from(page);
        self.memory.invariant();
        match self.memory.store(place, at, &number.to_le_bytes()) {
            Got::Value => Ok(None),
            Got::NotReady(need) => Ok(Some(need)),
            got => anyhow::bail!("a store came to {got:?}"),
        }
    }

    // Whether somebody is at the place of this number.
    fn look(&self, number: u32) -> Result<()>
        ensures { OnOk result ((x : Occupant) × occupant_at self.now.memory number x
            × (x.live ≡ true)) }
    {
        if self.memory.is_at(number, u64::from(number)) {
            return Ok(());
        }
        Err(anyhow!("nobody is there"))
    }

    // Makes a step ready.
    fn provide(&mut self, number: u32, need: Need) -> Result<u64> {
        let place = number as usize;
        self.look(number)?;
        let bytes = 65536 * u64::from(self.memory.size(place));
        ensure!(need.length <= 4096, "it wants too many bytes");
        ensure!(
            need.at <= bytes && need.length as u64 <= bytes - need.at,
            "it wants bytes beyond the end"
        );
        self.memory.stand(place, Some(need));
        let mut moved = PagesMoved { left: 0, came: 0 };
        let buf = &mut self.buf;
        match provide(&mut self.memory, &mut self.device, place, buf, &mut moved) {
            Ok(left) => Ok(left),
            Err(fault) => anyhow::bail!("the device failed: {fault:?}"),
        }
    }

    /// Writes a number at the beginning of a page, and makes it ready before where that is wanted.
    pub fn write(&mut self, rt: &impl CpuClock, place: u32, page: u32, number: u64) -> Result<()> {
        let Some(need) = self.store(place as usize, page, number)? else {
            return Ok(());
        };
        let before = rt.thread_cpu_time()?;
        let left = self.provide(place, need)?;
        let time = since(rt, before)?;
        self.waits = self.waits.saturating_add(1);
        self.left = self.left.saturating_add(left);
        self.time = self.time.checked_add(time).context("it took too long")?;
        let need = self.store(place as usize, page, number)?;
        ensure!(need.is_none(), "a store isn't ready");
        self.look(place)?;
        self.memory.invariant();
        self.memory.end(place as usize);
        Ok(())
    }
}
