// What is told of frames and slots, and of the pages of an instance.

ghost use Rattle.std.specs.Prelude.{◌≡◌, ◌+◌, ◌≤◌, length};
ghost use Rattle.wh_space_model.specs.Frames.{tally};
ghost use Rattle.wh_space_model.specs.Charges.{active_of, charged_of};
ghost use Rattle.wh_space_model.specs.Errands.{is_ticket, tickets};
ghost use Rattle.wh_space_model.specs.States.{count_of, swapped};

use crate::memory::Memory;
use wh_space_model::Slot;
use wh_swap::Slots;

// 1 where a ticket is out for the slot.
fn one_if_ticket(used: Slot) -> u32
    ensures is { result ≡ is_ticket used }
    ensures one { result ≤ 1 }
{
    match used {
        Slot::Vacant | Slot::Taken => 0,
        Slot::Evicting { .. } | Slot::EvictVoid { .. } => 1,
        Slot::Fetching { .. } | Slot::FetchVoid { .. } => 1,
    }
}

// For how many slots tickets are out.
fn tickets_in(slots: &Slots) -> u32
    ensures { result ≡ tally is_ticket slots.now.uses }
{
    let mut tickets: u32 = 0;
    for slot in 0..slots.len() {
        tickets += one_if_ticket(slots.get(slot));
    }
    tickets
}

impl Memory {
    /// Returns the number of frames.
    pub fn frames(&self) -> u32
        ensures { result ≡ length self.now.pool.frames }
    {
        self.pool.len()
    }

    /// Returns the number of slots.
    pub fn slots(&self) -> u32
        ensures { result ≡ length self.now.slots.uses }
    {
        self.slots.len()
    }

    /// Returns the number of vacant slots.
    pub fn vacant_slots(&self) -> u32
        ensures { result ≡ length self.now.slots.vacant }
    {
        self.slots.vacant()
    }

    /// Returns the number of pages of the instance at this place that are in slots; 0 if nobody is there. Takes O(1):
    /// the count is kept.
    pub fn swapped_at(&self, place: usize) -> u32
        ensures { result ≡ count_of swapped self.now.tables place }
    {
        self.tables.swapped(place)
    }

    /// Returns the number of frames that are charged to the instance at this place, and on how many of these a page of
    /// any instance was touched in this epoch; both 0 if nobody is there. Takes O(1): the counts are kept.
    pub fn charged_at(&self, place: usize) -> (u32, u32)
        ensures charged { result.0 ≡ charged_of self.now place }
        ensures touched { result.1 ≡ active_of self.now place }
        ensures within { result.1 ≤ result.0 }
        ensures few { result.0 ≤ 65536 }
    {
        let _ = &self.tax;
        (self.tables.charged(place), self.tables.active(place))
    }

    /// Returns the number of tickets that are out, void ones included. Goes over all slots.
    pub fn tickets(&self) -> u32
        ensures { result ≡ tickets self.now }
    {
        tickets_in(&self.slots)
    }
}
