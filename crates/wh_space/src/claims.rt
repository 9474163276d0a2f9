// What each instance brings to the choice of the page that leaves.

ghost use Rattle.std.specs.Prelude.{◌≡◌, ◌<◌, ◌≤◌, ℕ, [], None, true, MatchBool, MatchOption, IfSome, IfNone, length, get_or};
ghost use Rattle.wh_space_model.specs.Charges.{IsChargedPage, IsOnTouched, active_of, charged_of};
ghost use Rattle.wh_space_model.specs.Claims.{CanBeTaken, CanLeave, IsGiven, IsTakenFrom, stays};
ghost use Rattle.wh_space_model.specs.Parts.{Occupant, occupant_at};
ghost use Rattle.wh_pages.specs.Seeking.{IsFirstFrom};
ghost use Rattle.wh_space.specs.Claiming.{GivesNone, IsClaimOf, MightBeTaken, MightLeave, TakesNoPage};

use crate::memory::Memory;
use crate::occupant_entry::OccupantEntry;
use crate::pins::has_page_pinned;
use wh_space_model::{Claim, Page, Tax};
use wh_tables::PageId;

// Whether a page is resident and isn't leaving.
fn is_staying(page: Page) -> bool
    ensures { MatchBool result (stays page ≡ 1) (stays page ≡ 0) }
{
    matches!(page, Page::Private(_) | Page::Shared(_))
}

// What an instance claims to which `pages` frames are charged, `active` of them with a touched page, if one of their
// pages can leave.
fn claim_by(occupant_entry: OccupantEntry, pages: u32, active: u32) -> Claim
    requires shares { (1 ≤ occupant_entry.shares) × (occupant_entry.shares ≤ 1000000) }
    requires pages { pages ≤ 65536 }
    requires active { active ≤ pages }
    ensures shares { result.shares ≡ occupant_entry.shares }
    ensures min { result.min ≡ occupant_entry.min }
    ensures pages { result.pages ≡ pages }
    ensures active { result.active ≡ active }
    ensures leaves { result.can_leave ≡ true }
{
    Claim {
        shares: occupant_entry.shares,
        min: occupant_entry.min,
        pages,
        active,
        can_leave: true,
    }
}

impl Memory {
    /// Returns the tax on idle pages.
    pub fn tax(&self) -> Tax
        ensures { result ≡ self.now.tax }
    {
        self.tax
    }

    /// Returns the number of places, free ones included.
    pub fn places(&self) -> usize
        ensures { result ≡ length self.now.occupants }
    {
        self.occupant_entries.len()
    }

    // Whether no page of the instance at a place is leaving.
    fn has_no_leaver(&self, place: usize) -> bool
        requires { place < length self.now.tables }
        ensures { MatchBool result
            ((t : Occupant) × occupant_at self.now place t × (t.leaves ≡ None))
            (¬ ((t : Occupant) × occupant_at self.now place t × (t.leaves ≡ None))) }
    {
        let _ = &self.tax;
        match self.occupant_entries.at(place) {
            Some(occupant_entry) => occupant_entry.leaves.is_none(),
            None => false,
        }
    }

    // Whether a page of the instance at a place can leave, where none is leaving.
    pub(crate) fn can_leave(&self, place: usize, number: u32) -> bool
        requires { number < length (get_or self.now.tables place []) }
        ensures { MatchBool result (CanLeave self.now place number)
            (¬ CanLeave self.now place number) }
    {
        let _ = &self.tax;
        is_staying(self.tables.page(place, number))
            && !has_page_pinned(self.pins, place, number)
            && self.has_no_leaver(place)
    }

    // Whether a frame is charged to the instance at a place for this page of it.
    fn is_charged(&self, place: usize, number: u32) -> bool
        requires { number < length (get_or self.now.tables place []) }
        ensures { MatchBool result (IsChargedPage self.now place number)
            (¬ IsChargedPage self.now place number) }
    {
        let _ = &self.tax;
        let Some(frame) = self.tables.page(place, number).frame() else {
            return false;
        };
        match self.tables.first_on(frame) {
            Some(first) => first.place as usize == place && first.page == number,
            None => false,
        }
    }

    // Whether a touched page of any instance maps to the frame of this page.
    fn is_on_touched(&self, place: usize, number: u32) -> bool
        requires { number < length (get_or self.now.tables place []) }
        ensures { MatchBool result (IsOnTouched self.now place number)
            (¬ IsOnTouched self.now place number) }
    {
        let _ = &self.tax;
        match self.tables.page(place, number).frame() {
            Some(frame) => self.tables.has_touched(frame),
            None => false,
        }
    }

    // Whether the page is charged and can leave, and with `idle` no page on its frame was touched.
    fn might_be_taken(&self, place: usize, number: u32, idle: bool) -> bool
        requires { number < length (get_or self.now.tables place []) }
        ensures { MatchBool result (MightBeTaken self.now place idle number)
            (¬ MightBeTaken self.now place idle number) }
    {
        let _ = &self.tax;
        self.can_leave(place, number)
            && self.is_charged(place, number)
            && !(idle && self.is_on_touched(place, number))
    }

    // The first page of the instance at this place that can leave; with `idle`, of those alone that weren't touched in this
    // epoch. It passes over leaves of its page table that have none.
    fn first_to_leave(&self, place: usize, idle: bool) -> Option<u32>
        ensures { IsFirstFrom (MightLeave self.now place idle) 0 result }
    {
        let mut from = 0;
        for _ in 0..self.tables.len_at(place) {
            let Some(page) = self.tables.next_resident(place, from, idle) else {
                return None;
            };
            if self.can_leave(place, page) {
                return Some(page);
            }
            from = page + 1;
        }
        None
    }

    // The first charged page of it that can leave; with `idle`, the first of those on whose frames no page was touched.
    // A touched page is on no such frame, so here too leaves are skipped that have none.
    fn first_to_take(&self, place: usize, idle: bool) -> Option<u32>
        ensures { IsFirstFrom (MightBeTaken self.now place idle) 0 result }
    {
        let mut from = 0;
        for _ in 0..self.tables.len_at(place) {
            let Some(page) = self.tables.next_resident(place, from, idle) else {
                return None;
            };
            if self.might_be_taken(place, page, idle) {
                return Some(page);
            }
            from = page + 1;
        }
        None
    }

    /// Returns the page that the instance at this place gives of its own if nobody pays: the first page not touched in
    /// this epoch that can leave, or else the first that can leave.
    pub fn given_page(&self, place: usize) -> Option<u32>
        ensures { MatchOption result (GivesNone self.now place)
            (λ page. IsGiven self.now place page) }
    {
        match self.first_to_leave(place, true) {
            Some(page) => Some(page),
            None => self.first_to_leave(place, false),
        }
    }

    /// Returns the page that is taken from the instance at this place if it pays: the first charged page that can leave
    /// and on whose frame no page was touched in this epoch, or else the first charged page that can leave.
    pub fn taken_page(&self, place: usize) -> Option<u32>
        ensures { MatchOption result (TakesNoPage self.now place)
            (λ page. IsTakenFrom self.now place page) }
    {
        match self.first_to_take(place, true) {
            Some(page) => Some(page),
            None => self.first_to_take(place, false),
        }
    }

    /// Tells whether some charged page of the instance at this place can leave.
    pub fn has_page_to_take(&self, place: usize) -> bool
        ensures { MatchBool result ((page : ℕ) × CanBeTaken self.now place page)
            (TakesNoPage self.now place) }
    {
        self.first_to_take(place, false).is_some()
    }

    /// Returns the number of the instance at this place (how many came before it) and its claim, which counts only if a
    /// charged page of it can leave: `has_page_to_take` tells. Returns `None` if nobody is there. Takes O(1): looks at
    /// no page.
    pub fn claim_at(&self, place: usize) -> Option<(u64, Claim)>
        ensures some { IfSome result (λ it. (t : Occupant) × occupant_at self.now place t
            × (it.0 ≡ t.number) × IsClaimOf self.now place t it.1) }
        ensures none { IfNone result ((t : Occupant) → ¬ occupant_at self.now place t) }
    {
        if place >= self.occupant_entries.len() {
            return None;
        }
        let Some(occupant_entry) = self.occupant_entries.at(place) else {
            return None;
        };
        let (pages, active) = self.charged_at(place);
        Some((
            occupant_entry.number,
            claim_by(occupant_entry, pages, active),
        ))
    }
}
