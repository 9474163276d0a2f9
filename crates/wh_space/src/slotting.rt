// What slots are used for when pages are written or go.

ghost use Rattle.std.specs.Prelude.{◌≡◌, ◌<◌, IfSome, None, length, get_or};
ghost use Rattle.wh_space.specs.Slotting.{CanLeaveSlot, leaver_of, slot_gone, void_use, voids_leaver, voids_slot};

use crate::occupant_entries::OccupantEntries;
use wh_space_model::{Page, Slot};
use wh_swap::Slots;

// The use of a slot whose ticket is void, if there is one.
fn voided_use(used: Slot) -> Slot
    ensures { result ≡ void_use used }
{
    match used {
        Slot::Evicting { place, .. } => Slot::EvictVoid { place },
        Slot::Fetching { place, frame, .. } => Slot::FetchVoid { place, frame },
        Slot::Vacant => Slot::Vacant,
        Slot::Taken => Slot::Taken,
        Slot::EvictVoid { place } => Slot::EvictVoid { place },
        Slot::FetchVoid { place, frame } => Slot::FetchVoid { place, frame },
    }
}

/// Returns the slot by which a page of the instance at this place is leaving, if one is.
pub fn leaver_at(occupant_entries: &OccupantEntries, place: usize) -> Option<u32>
    ensures { result ≡ leaver_of (get_or occupant_entries.now.items place None) }
{
    if place >= occupant_entries.len() {
        return None;
    }
    match occupant_entries.at(place) {
        Some(occupant_entry) => occupant_entry.leaves,
        None => None,
    }
}

/// Voids the ticket of a slot, if there is one.
pub fn void_slot(slots: &mut Slots, slot: Option<u32>)
    requires { IfSome slot (λ k. k < length slots.old.uses) }
    ensures { slots.new ≡ voids_slot slot slots.old }
{
    if let Some(slot) = slot {
        let used = slots.get(slot);
        slots.set(slot, voided_use(used));
    }
}

/// Voids the ticket of the slot by which a page was leaving that has been written.
pub fn void_written(slots: &mut Slots, slot: Option<u32>, page: Page)
    requires { IfSome slot (λ k. k < length slots.old.uses) }
    ensures { slots.new ≡ voids_leaver slot page slots.old }
{
    match page {
        Page::Leaving(_) => void_slot(slots, slot),
        Page::LeavingShared(_) => void_slot(slots, slot),
        Page::Untouched => {}
        Page::Private(_) => {}
        Page::Shared(_) => {}
        Page::Coming(_) => {}
        Page::Swapped(_) => {}
    }
}

/// Gives up the slot of a page that goes, or voids the ticket of the fetch by which it was coming.
pub fn leave_slot(page: Page, slots: &mut Slots)
    requires { CanLeaveSlot page slots.old }
    ensures { slots.new ≡ slot_gone page slots.old }
{
    match page {
        Page::Swapped(slot) => slots.give(slot),
        Page::Coming(slot) => void_slot(slots, Some(slot)),
        Page::Untouched => {}
        Page::Private(_) => {}
        Page::Shared(_) => {}
        Page::Leaving(_) => {}
        Page::LeavingShared(_) => {}
    }
}
