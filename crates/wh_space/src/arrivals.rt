// How a memory begins, and how an instance comes to a place.

ghost use Rattle.std.specs.Prelude.{◌≡◌, ◌≢◌, ◌*◌, ◌<◌, ◌≤◌, ℕ, Some, false, length, replicate, IfOk, IfErr, OnOk, OnErr};
ghost use Rattle.wh_space_model.specs.declared.states.Page.TheVariants.{Untouched};
ghost use Rattle.wh_space_model.specs.Parts.{Occupant, occupant_at};
ghost use Rattle.wh_space_model.specs.Places.{Enters, HasRoomFor, IsFreePlace, with_row};
ghost use Rattle.wh_space.specs.Arrivals.{IsNew, claimed};

use crate::memory::Memory;
use crate::occupant_entries::OccupantEntries;
use crate::occupant_entry::{OccupantEntry, Promise};
use std::alloc::{AllocError, Global};
use wh_content::Table;
use wh_frames::{FrameError, FramePool};
use wh_space_model::Tax;
use wh_swap::Slots;
use wh_tables::Tables;

impl Memory {
    /// Creates a memory of `frames` frames of 4096 bytes and `slots` swap slots, without instances. Reserves the room
    /// for all frames and slots.
    ///
    /// # Errors
    /// `FrameError::Memory` if an allocation fails.
    pub fn new(alloc: Global, frames: u32, slots: u32, tax: Tax) -> Result<Memory, FrameError>
        ensures is { IfOk result (λ memory. IsNew memory frames slots tax) }
        ensures refused { IfErr result (λ error. error ≡ FrameError.Memory) }
    {
        let pool = FramePool::new(alloc, frames)?;
        // Its contract says that no frame is free twice.
        let _ = pool.free();
        let Ok(content) = Table::new(alloc, frames) else {
            return Err(FrameError::Memory);
        };
        let Ok(slots) = Slots::new(alloc, slots) else {
            return Err(FrameError::Memory);
        };
        let Ok(tables) = Tables::new(alloc, frames) else {
            return Err(FrameError::Memory);
        };
        Ok(Memory {
            occupant_entries: OccupantEntries::new(alloc),
            tables,
            pool,
            content,
            slots,
            pins: None,
            tax,
        })
    }

    /// Gives a new instance a free place, or the next one after all, and `size` pages of 65536 zero bytes, which take
    /// no frame. Reserves the room for its whole page table, so that growing later doesn't allocate.
    ///
    /// # Errors
    /// `AllocError` if an allocation fails or the place doesn't fit in 32 bits. Nothing has changed then.
    pub fn enter(
        &mut self,
        alloc: Global,
        place: usize,
        promise: Promise,
        size: u32,
    ) -> Result<(), AllocError>
        requires free { IsFreePlace self.old place }
        requires room { HasRoomFor self.old (claimed promise) }
        requires shares { (1 ≤ promise.shares) × (promise.shares ≤ 1000000) }
        requires bounds { (2 ≤ promise.min) × (promise.min ≤ promise.max) × (promise.max ≤ 65536) }
        requires fits { 16 * size ≤ promise.max }
        requires fresh { (j : ℕ) (t : Occupant) → occupant_at self.old j t
            → t.number ≢ promise.number }
        ensures ok { OnOk result (Enters self.old place (claimed promise) size self.new) }
        ensures err { OnErr result (self.new ≡ self.old) }
    {
        if place > u32::MAX as usize {
            return Err(AllocError);
        }
        // Its contract says that there are as many limits and numbers.
        let _ = self.tables.places();
        // And these say that frames and slots are counted by 32 bits, and so is what was promised of them.
        let _ = self.pool.used();
        let _ = self.pool.free();
        let _ = self.slots.len();
        self.occupant_entries.reserve()?;
        self.tables
            .enter(alloc, place, promise.number, 16 * size, promise.max)?;
        self.occupant_entries
            .put_occupant(place, OccupantEntry::new(promise));
        Ok(())
    }
}
