// A swap device in memory.

ghost use Rattle.std.specs.Prelude.{◌≡◌, ◌≢◌, ◌+◌, ◌-◌, ◌<◌, ◌≤◌, ◌++◌, ⊤, None, [], length, get_or, replicate, slice_set, IsOk, IfOk, OnOk};
ghost use Rattle.std.specs.Vec.{vec_capacity};
ghost use Rattle.wh_swap.specs.MemorySwaps.{memory_held, memory_writes};

use crate::SwapDev;
use crate::counts::one_more;
use boxcar::tag::Tag;
use std::alloc::{AllocError, Global};
use std::marker::Model;
use wh_space_model::SwapError;

/// A swap device in memory. No call of it fails.
///
/// Room for all slots is reserved when it is made, and used only as far as slots are written, the lowest first: what
/// lies after costs addresses and no memory.
#[derive(Drop)]
pub struct MemSwap {
    // What was written to each slot, for as many as were needed so far. To those after them nothing was.
    slots: Vec<Option<[u8; 4096]>>,
    // How many slots there are.
    count: u32,
    writes: Tag,
}

impl Model for MemSwap {
    ghost use Rattle.wh_swap.specs.MemorySwaps.{Contents, contents_of, HasRoomForSlots};

    ghost Value = { Contents };

    ghost view = { contents_of };

    ghost invariant = { HasRoomForSlots };
}

// The slots up to this one are there, and nothing was written to those that weren't.
fn reach(slots: &mut Vec<Option<[u8; 4096]>>, slot: u32)
    requires { slot < vec_capacity slots.old }
    ensures items { slots.new.items
        ≡ slots.old.items ++ replicate (slot + 1 - length slots.old.items) None }
    ensures capacity { vec_capacity slots.new ≡ vec_capacity slots.old }
{
    while slots.len() <= slot as usize {
        slots.push_reserved(None);
    }
}

impl MemSwap {
    /// Creates a device of `slots` slots in memory, to which nothing was written. Reserves the room for all.
    ///
    /// # Errors
    /// `AllocError` if an allocation fails.
    pub fn new(alloc: Global, slots: u32) -> Result<MemSwap, AllocError>
        ensures held { IfOk result (λ device. memory_held device ≡ replicate slots []) }
        ensures writes { IfOk result (λ device. memory_writes device ≡ 0) }
    {
        Ok(MemSwap {
            slots: Vec::with_capacity(alloc, slots as usize)?,
            count: slots,
            writes: Tag::empty(),
        })
    }
}

impl SwapDev for MemSwap {
    ghost held = { memory_held };

    ghost writes = { memory_writes };

    ghost faults = { λ _. [] };

    ghost honest = { λ _. ⊤ };

    ghost keeps = { λ _. ⊤ };

    fn read(&mut self, slot: u32, into: &mut [u8; 4096]) -> Result<(), SwapError>
        requires there { slot < length (memory_held self.old) }
        ensures ok { IsOk result }
        ensures bytes { OnOk result (⊤ → get_or (memory_held self.old) slot [] ≢ []
            → into.new ≡ get_or (memory_held self.old) slot []) }
        ensures unchanged { self.new ≡ self.old }
    {
        match self.slots.get(slot as usize) {
            Some(Some(page)) => *into = *page,
            _ => *into = [0; 4096],
        }
        Ok(())
    }

    fn write(&mut self, slot: u32, from: &[u8; 4096]) -> Result<(), SwapError>
        requires there { slot < length (memory_held self.old) }
        ensures ok { IsOk result }
        ensures written { memory_held self.new ≡ slice_set (memory_held self.old) slot from.now }
        ensures slots { length (memory_held self.new) ≡ length (memory_held self.old) }
        ensures writes { memory_writes self.new ≡ memory_writes self.old + 1 }
    {
        reach(&mut self.slots, slot);
        self.slots[slot as usize] = Some(*from);
        self.writes = one_more(&self.writes);
        Ok(())
    }
}
