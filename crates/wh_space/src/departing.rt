// Pages that begin to leave, and to come.

ghost use Rattle.std.specs.Prelude.{◌≡◌, ◌<◌, ◌≤◌, [], Some, length, get_or};
ghost use Rattle.wh_space_model.specs.declared.states.Page.TheVariants.{Swapped};
ghost use Rattle.wh_space_model.specs.Claims.{CanLeave};
ghost use Rattle.wh_space_model.specs.Moves.{frame_of};
ghost use Rattle.wh_space_model.specs.Parts.{kept_by};
ghost use Rattle.wh_space_model.specs.States.{page_at};
ghost use Rattle.wh_space.specs.Transits.{IsDeparting, IsLeavingAs, IsSentFor};

use crate::memory::Memory;
use crate::pages::put_page;
use crate::pins::take_earmark;
use wh_space_model::{Page, Slot};

// A page as it leaves, and the frame on which it stands, if it may leave.
fn as_it_leaves(page: Page) -> Option<(u32, Page)>
    ensures { IsLeavingAs page result }
{
    match page {
        Page::Private(frame) => Some((frame, Page::Leaving(frame))),
        Page::Shared(frame) => Some((frame, Page::LeavingShared(frame))),
        _ => None,
    }
}

impl Memory {
    /// Begins to evict a page of the instance at this place, which can leave: takes a vacant slot, issues its ticket,
    /// and copies the page's bytes into `into`, to be written to the slot. Returns the slot.
    pub fn evict_begin(&mut self, place: usize, page: u32, into: &mut [u8; 4096]) -> u32
        requires can { CanLeave self.old place page }
        requires slot { 1 ≤ length self.old.slots.vacant }
        ensures { IsDeparting self.old place page result into.new self.new }
    {
        let _ = &self.tax;
        let slots = self.slots.len();
        let Some((frame, now)) = as_it_leaves(self.tables.page(place, page)) else {
            unreachable!()
        };
        let ticket = Slot::Evicting {
            place: place as u32,
            page,
        };
        let Some(slot) = self.slots.take(ticket) else {
            unreachable!()
        };
        *into = *self.pool.bytes(frame);
        put_page(&mut self.tables, place, page, now);
        self.occupant_entries.begin_leaving(place, slot);
        let _ = slots;
        slot
    }

    /// Begins to fetch a page of the instance at this place, which is in this slot, into a frame that was earmarked for
    /// the instance. Issues the slot's ticket.
    pub fn fetch_begin(&mut self, place: usize, page: u32, slot: u32)
        requires page { page_at self.old.tables place page ≡ Some (Swapped slot) }
        requires frame { 1 ≤ length (kept_by self.old.pins place) }
        ensures { IsSentFor self.old place page slot self.new }
    {
        let _ = &self.tax;
        let slots = self.slots.len();
        let Some(frame) = take_earmark(&mut self.pins, place) else {
            unreachable!()
        };
        let ticket = Slot::Fetching {
            place: place as u32,
            page,
            frame,
        };
        self.slots.set(slot, ticket);
        put_page(&mut self.tables, place, page, Page::Coming(slot));
        self.occupant_entries.begin_coming(place);
        let _ = slots;
    }
}
