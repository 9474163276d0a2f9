// Whose page a slot's ticket is for.

ghost use Rattle.std.specs.Prelude.{◌≡◌};
ghost use Rattle.wh_space.specs.TicketOwners.{place_of_use, ticket_place};

use crate::memory::Memory;
use wh_space_model::Slot;

// The place of the instance for which the ticket is out, if one is.
fn place_in(used: Slot) -> Option<u32>
    ensures { result ≡ place_of_use used }
{
    match used {
        Slot::Vacant | Slot::Taken => None,
        Slot::Evicting { place, .. } => Some(place),
        Slot::EvictVoid { place } => Some(place),
        Slot::Fetching { place, .. } => Some(place),
        Slot::FetchVoid { place, .. } => Some(place),
    }
}

impl Memory {
    /// Returns the place of the instance of which a page is being evicted to or fetched from this slot, even if the
    /// ticket is void. Returns `None` if no ticket is out for the slot, or there is no such slot.
    pub fn ticket_place(&self, slot: u32) -> Option<u32>
        ensures { result ≡ ticket_place self.now slot }
    {
        if slot >= self.slots.len() {
            return None;
        }
        place_in(self.slots.get(slot))
    }
}
