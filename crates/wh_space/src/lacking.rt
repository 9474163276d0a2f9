// What the step of an instance lacks.

ghost use Rattle.std.specs.Prelude.{◌≡◌, ◌+◌, ◌*◌, ◌<◌, ◌≤◌, [], Some, MatchOption, length, get_or};
ghost use Rattle.wh_space_model.specs.Moves.{IsFirstSwapped};
ghost use Rattle.wh_space_model.specs.Ready.{among, frames_in_all, frames_to_write, may_take, pages_of_need};
ghost use Rattle.wh_space_model.specs.States.{at, page_at, swapped};
ghost use Rattle.wh_space_model.specs.Tickets.{WaitsForBytes};
ghost use Rattle.wh_space_model.specs.declared.states.Page.TheVariants.{Swapped};
ghost use Rattle.wh_space.specs.Lacking.{slot_under};

use crate::memory::Memory;
use wh_model::Need;
use wh_space_model::Page;

// The slot that holds a page, if one does.
fn slot_of(page: Page) -> Option<u32>
    ensures { result ≡ slot_under page }
{
    match page {
        Page::Untouched => None,
        Page::Private(_) => None,
        Page::Shared(_) => None,
        Page::Leaving(_) => None,
        Page::LeavingShared(_) => None,
        Page::Coming(_) => None,
        Page::Swapped(slot) => Some(slot),
    }
}

// 1 where the page is in a slot.
fn one_if_swapped(page: Page) -> u32
    ensures is { result ≡ swapped page }
    ensures one { result ≤ 1 }
{
    if slot_of(page).is_some() { 1 } else { 0 }
}

impl Memory {
    /// Returns the number of vacant slots.
    pub fn vacant(&self) -> u32
        ensures { result ≡ length self.now.slots.vacant }
    {
        self.slots.vacant()
    }

    /// Returns the number of frames that the instance at this place may take: the free ones and those that are
    /// earmarked for it.
    pub fn may_take(&self, place: usize) -> u64
        ensures { result ≡ may_take self.now place }
    {
        self.frames_for_it(place)
    }

    // How many pages of these bytes are in slots.
    fn swapped_among(&self, place: usize, need: Need) -> u32
        requires within { need.at + need.length ≤ 4096 * length (get_or self.now.tables place []) }
        requires few { need.length ≤ 4096 }
        ensures count { result ≡ among swapped self.now place (pages_of_need need) }
        ensures most { result ≤ 2 }
    {
        let _ = &self.tax;
        if need.length == 0 {
            return 0;
        }
        let _ = self.fits(place, need.at, need.length);
        let first = (need.at / 4096) as u32;
        let here = one_if_swapped(self.tables.page(place, first));
        if need.length > 4096 - (need.at % 4096) as usize {
            let there = one_if_swapped(self.tables.page(place, first + 1));
            return here + there;
        }
        here
    }

    // How many frames a write of these bytes wants.
    fn wanted_for(&self, place: usize, need: Need) -> u32
        requires within { need.at + need.length ≤ 4096 * length (get_or self.now.tables place []) }
        requires few { need.length ≤ 4096 }
        ensures { result ≡ frames_to_write self.now place need }
    {
        let _ = &self.tax;
        if !need.writes {
            return 0;
        }
        if need.length == 0 {
            return 0;
        }
        let _ = self.fits(place, need.at, need.length);
        let first = (need.at / 4096) as u32;
        if need.length > 4096 - (need.at % 4096) as usize {
            return self.wanted_by_both(place, first);
        }
        self.wanted(place, first)
    }

    /// Returns the number of frames, at most 2, that the step on which the instance at this place is blocked needs for
    /// its writes.
    pub fn frames_to_write(&self, place: usize, need: Need) -> u32
        requires { WaitsForBytes self.now place need }
        ensures count { result ≡ frames_to_write self.now place need }
        ensures few { result ≤ 2 }
    {
        let _ = &self.tax;
        self.wanted_for(place, need)
    }

    /// Returns the number of frames, at most 2, that this step needs for its swapped pages and its writes.
    pub fn frames_in_all(&self, place: usize, need: Need) -> u32
        requires { WaitsForBytes self.now place need }
        ensures count { result ≡ frames_in_all self.now place need }
        ensures few { result ≤ 2 }
    {
        let _ = &self.tax;
        let swapped = self.swapped_among(place, need);
        let wanted = self.frames_to_write(place, need);
        swapped + wanted
    }

    // A page and its slot, if it is in one.
    fn in_slot(&self, place: usize, page: u32) -> Option<(u32, u32)>
        requires { page < length (get_or self.now.tables place []) }
        ensures { MatchOption result (at swapped (page_at self.now.tables place page) ≡ 0)
            (λ it. (it.0 ≡ page)
            × (page_at self.now.tables place page ≡ Some (Swapped it.1))) }
    {
        let slot = slot_of(self.tables.page(place, page))?;
        Some((page, slot))
    }

    // The first page of these bytes that is in a slot, with the slot.
    fn swapped_page_of(&self, place: usize, need: Need) -> Option<(u32, u32)>
        requires within { need.at + need.length ≤ 4096 * length (get_or self.now.tables place []) }
        requires few { need.length ≤ 4096 }
        ensures { MatchOption result (among swapped self.now place (pages_of_need need) ≡ 0)
            (λ it. IsFirstSwapped self.now place need it.0
            × (page_at self.now.tables place it.0 ≡ Some (Swapped it.1))) }
    {
        if need.length == 0 {
            return None;
        }
        let _ = self.fits(place, need.at, need.length);
        let first = (need.at / 4096) as u32;
        if let Some(found) = self.in_slot(place, first) {
            return Some(found);
        }
        if need.length > 4096 - (need.at % 4096) as usize {
            return self.in_slot(place, first + 1);
        }
        None
    }

    /// Returns the first page in a slot, with the slot, of the step on which the instance at this place is blocked.
    pub fn swapped_page(&self, place: usize, need: Need) -> Option<(u32, u32)>
        requires { WaitsForBytes self.now place need }
        ensures { MatchOption result (among swapped self.now place (pages_of_need need) ≡ 0)
            (λ it. IsFirstSwapped self.now place need it.0
            × (page_at self.now.tables place it.0 ≡ Some (Swapped it.1))) }
    {
        let _ = &self.tax;
        self.swapped_page_of(place, need)
    }
}
