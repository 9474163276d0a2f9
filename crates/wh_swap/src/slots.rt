// What each slot of the device is used for, and what it holds.

ghost use Rattle.std.specs.Prelude.{◌≡◌, ◌<◌, ◌≤◌, ◌++◌, [], ◌∷◌, cond, length, replicate, slice_get, slice_set, Some, IfSome, IfOk, IfNone, vec_len, vec_capacity};
ghost use Rattle.wh_space_model.specs.Frames.{tally, one_if};
ghost use Rattle.wh_space_model.specs.Parts.{numbers_below};
ghost use Rattle.wh_space_model.specs.declared.states.Slot.TheVariants.{Vacant};
ghost use Rattle.wh_swap.specs.SlotParts.{all_held};

use boxcar::tag::{Names, Tag};
use std::alloc::{AllocError, Global};
use std::marker::Model;
use wh_space_model::Slot;

/// What each slot is used for, which are vacant, and what each holds. What a slot holds is known to clauses alone, and takes
/// no bytes. No call but `new` takes memory or goes over the slots.
#[derive(Drop)]
pub struct Slots {
    uses: Vec<Slot>,
    vacant: Vec<u32>,
    held: Vec<Tag>,
}

impl Model for Slots {
    ghost use Rattle.wh_space_model.specs.Parts.{Slots};

    ghost Value = { Slots };

    ghost use Rattle.wh_swap.specs.SlotParts.{slots_of, HasRoomForAll};

    ghost view = { slots_of };

    ghost invariant = { HasRoomForAll };
}

// The numbers below `count`, the greatest first.
fn numbers(alloc: Global, count: u32) -> Result<Vec<u32>, AllocError>
    ensures items { IfOk result (λ list. list.items ≡ numbers_below count) }
    ensures room { IfOk result (λ list. count ≤ vec_capacity list) }
{
    let mut list = Vec::with_capacity(alloc, count as usize)?;
    let mut left = count;
    while left > 0 {
        left -= 1;
        list.push_reserved(left);
    }
    Ok(list)
}

struct Page;

impl Names<[u8; 4096]> for Page {
    ghost numbers = { λ page. page };
}

// `count` slots of which nothing is known.
fn nothing(alloc: Global, count: u32) -> Result<Vec<Tag>, AllocError>
    ensures { IfOk result (λ tags. all_held tags.items ≡ replicate count []) }
{
    let mut tags = Vec::with_capacity(alloc, count as usize)?;
    for _ in 0..count {
        tags.push_reserved(Tag::empty());
    }
    Ok(tags)
}

// What a slot holds to which these bytes were written, or failed to be.
fn what_is_held(bytes: &[u8; 4096], wrote: bool) -> Tag
    ensures { result.numbers ≡ cond wrote bytes.now [] }
{
    if wrote {
        Tag::of::<[u8; 4096], Page>(bytes)
    } else {
        Tag::empty()
    }
}

// Adds a number.
fn add(list: &mut Vec<u32>, number: u32)
    requires { vec_len list.old < vec_capacity list.old }
    ensures items { list.new.items ≡ list.old.items ++ number ∷ [] }
    ensures room { vec_capacity list.old ≤ vec_capacity list.new }
{
    let Ok(()) = list.push(number) else {
        unreachable!()
    };
}

impl Slots {
    /// Creates `slots` slots, all vacant, with contents unknown. Reserves the room for all.
    ///
    /// # Errors
    /// `AllocError` if an allocation fails.
    pub fn new(alloc: Global, slots: u32) -> Result<Slots, AllocError>
        ensures uses { IfOk result (λ made. made.uses ≡ replicate slots Vacant) }
        ensures vacant { IfOk result (λ made. made.vacant ≡ numbers_below slots) }
        ensures held { IfOk result (λ made. made.held ≡ replicate slots []) }
    {
        Ok(Slots {
            uses: vec![in alloc; Slot::Vacant; slots as usize]?,
            vacant: numbers(alloc, slots)?,
            held: nothing(alloc, slots)?,
        })
    }

    /// Returns what a slot is used for.
    pub fn get(&self, slot: u32) -> Slot
        requires { slot < length self.now.uses }
        ensures { slice_get self.now.uses slot ≡ Some result }
    {
        self.uses[slot as usize]
    }

    /// Changes what a slot is used for, but not whether it is among the vacant ones.
    pub fn set(&mut self, slot: u32, used: Slot)
        requires { slot < length self.old.uses }
        ensures { self.new ≡ record self.old { uses = slice_set self.old.uses slot used } }
    {
        self.uses[slot as usize] = used;
    }

    /// Takes a vacant slot, the one that was given back last, and uses it for this; `None` where none is vacant.
    pub fn take(&mut self, used: Slot) -> Option<u32>
        ensures uses { IfSome result (λ slot. self.new.uses ≡ slice_set self.old.uses slot used) }
        ensures vacant { IfSome result (λ slot. self.old.vacant ≡ self.new.vacant ++ slot ∷ []) }
        ensures held { IfSome result (λ _. self.new.held ≡ self.old.held) }
        ensures there { IfSome result (λ slot. slot < length self.old.uses) }
        ensures taken { IfSome result (λ slot. tally (one_if slot) self.new.vacant ≡ 0) }
        ensures none { IfNone result (self.old.vacant ≡ []) }
        ensures unchanged { IfNone result (self.new ≡ self.old) }
    {
        let slot = self.vacant.pop()?;
        self.uses[slot as usize] = used;
        Some(slot)
    }

    /// Makes a slot vacant that isn't among the vacant ones.
    pub fn give(&mut self, slot: u32)
        requires there { slot < length self.old.uses }
        requires taken { tally (one_if slot) self.old.vacant ≡ 0 }
        ensures uses { self.new.uses ≡ slice_set self.old.uses slot Vacant }
        ensures vacant { self.new.vacant ≡ self.old.vacant ++ slot ∷ [] }
        ensures held { self.new.held ≡ self.old.held }
    {
        self.uses[slot as usize] = Slot::Vacant;
        add(&mut self.vacant, slot);
    }

    /// Records that the device was called to write these bytes to a slot, which holds them now; or whose contents are
    /// unknown, if that failed.
    pub fn write(&mut self, slot: u32, bytes: &[u8; 4096], wrote: bool)
        requires { slot < length self.old.uses }
        ensures { self.new ≡ record self.old {
          held = slice_set self.old.held slot (cond wrote bytes.now []);
        } }
    {
        self.held[slot as usize] = what_is_held(bytes, wrote);
    }

    /// Returns the number of vacant slots.
    pub fn vacant(&self) -> u32
        ensures { result ≡ length self.now.vacant }
    {
        self.vacant.len() as u32
    }

    /// Returns the number of slots.
    pub fn len(&self) -> u32
        ensures { result ≡ length self.now.uses }
    {
        self.uses.len() as u32
    }
}
