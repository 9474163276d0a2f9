// How a copy of an instance comes to a place: it sees the same bytes, on the same frames.

ghost use Rattle.std.specs.Prelude.{◌≡◌, ◌≢◌, ◌<◌, ◌≤◌, ℕ, [], MatchBool, Some, OnErr, OnOk, get_or, length};
ghost use Rattle.wh_space_model.specs.Forks.{Copies, IsAway, Lends, LendsFirst, LendsPage};
ghost use Rattle.wh_space_model.specs.Parts.{Occupant, occupant_at};
ghost use Rattle.wh_space_model.specs.Places.{HasRoomFor, IsFreePlace};
ghost use Rattle.wh_space_model.specs.States.{page_at};
ghost use Rattle.wh_space_model.specs.declared.states.Page.TheVariants.{Private, Shared, Untouched};
ghost use Rattle.wh_space.specs.Arrivals.{claimed};
ghost use Rattle.wh_space.specs.Lendable.{IsHere, MayLend};
ghost use Rattle.wh_space.specs.Merges.{HasFewPages};

use crate::memory::Memory;
use crate::occupant_entry::Promise;
use crate::pages::put_page;
use std::alloc::{AllocError, Global};
use wh_space_model::Page;

// Whether a page is untouched, or on a frame that it isn't leaving.
fn is_here(page: Page) -> bool
    ensures { MatchBool result (IsHere page) (¬ IsHere page) }
{
    matches!(page, Page::Untouched | Page::Private(_) | Page::Shared(_))
}

impl Memory {
    /// Tells whether some page of the instance at this place is in a slot or on its way, so that the instance can't be
    /// copied. Goes over its pages.
    pub fn is_away(&self, place: usize) -> bool
        ensures { MatchBool result (IsAway self.now place) (¬ IsAway self.now place) }
    {
        let _ = &self.tax;
        for number in 0..self.tables.len_at(place) {
            if !is_here(self.tables.page(place, number)) {
                return true;
            }
        }
        false
    }

    // A page that was alone on a frame is lent: the two share it.
    fn lend_own(&mut self, from: usize, place: usize, number: u32, frame: u32)
        requires own { page_at self.old.tables from number ≡ Some (Private frame) }
        requires onto { page_at self.old.tables place number ≡ Some Untouched }
        ensures { LendsPage self.old from place number (Private frame) self.new }
    {
        let _ = &self.tax;
        self.content.share_unlisted(frame, 2);
        put_page(&mut self.tables, from, number, Page::Shared(frame));
        put_page(&mut self.tables, place, number, Page::Shared(frame));
    }

    // Lends a page that shares a frame: its reference count is one more.
    fn lend_shared(&mut self, from: usize, place: usize, number: u32, frame: u32)
        requires few { HasFewPages self.old }
        requires shared { page_at self.old.tables from number ≡ Some (Shared frame) }
        requires onto { page_at self.old.tables place number ≡ Some Untouched }
        ensures { LendsPage self.old from place number (Shared frame) self.new }
    {
        let _ = &self.tax;
        self.content.add_sharer(frame);
        put_page(&mut self.tables, place, number, Page::Shared(frame));
    }

    // A page that is untouched, or on a frame that it isn't leaving, is lent.
    fn lend(&mut self, from: usize, place: usize, number: u32)
        requires few { HasFewPages self.old }
        requires here { MayLend self.old from number }
        requires onto { page_at self.old.tables place number ≡ Some Untouched }
        ensures { Lends self.old from place number self.new }
    {
        let _ = &self.tax;
        match self.tables.page(from, number) {
            Page::Private(frame) => self.lend_own(from, place, number, frame),
            Page::Shared(frame) => self.lend_shared(from, place, number, frame),
            Page::Untouched
            | Page::Leaving(_)
            | Page::LeavingShared(_)
            | Page::Coming(_)
            | Page::Swapped(_) => {}
        }
    }

    // Lends the first `pages` pages, one after the other.
    fn lend_all(&mut self, from: usize, place: usize, pages: u32)
        requires few { HasFewPages self.old }
        requires here { (p : ℕ) → p < pages → MayLend self.old from p }
        requires onto { (p : ℕ) → p < pages → page_at self.old.tables place p ≡ Some Untouched }
        ensures { LendsFirst self.old from place pages self.new }
    {
        for number in 0..pages {
            self.lend(from, place, number);
        }
    }

    /// Gives a copy of the instance at `from` a free place, or the next one after all. It has the same bytes, on the
    /// same frames, copy-on-write: no frame is taken and no byte is copied. Goes over the pages, and reserves the room
    /// for the copy's whole page table.
    ///
    /// # Errors
    /// `AllocError` if an allocation fails or the place doesn't fit in 32 bits. Nothing has changed then.
    pub fn copy(
        &mut self,
        alloc: Global,
        from: usize,
        place: usize,
        promise: Promise,
    ) -> Result<(), AllocError>
        requires few { HasFewPages self.old }
        requires here { ¬ IsAway self.old from }
        requires apart { place ≢ from }
        requires free { IsFreePlace self.old place }
        requires room { HasRoomFor self.old (claimed promise) }
        requires shares { (1 ≤ promise.shares) × (promise.shares ≤ 1000000) }
        requires bounds { (2 ≤ promise.min) × (promise.min ≤ promise.max) × (promise.max ≤ 65536) }
        requires fits { length (get_or self.old.tables from []) ≤ promise.max }
        requires fresh { (j : ℕ) (t : Occupant) → occupant_at self.old j t
            → t.number ≢ promise.number }
        ensures ok { OnOk result (Copies self.old from place (claimed promise) self.new) }
        ensures err { OnErr result (self.new ≡ self.old) }
    {
        let _ = &self.tax;
        let pages = self.tables.len_at(from);
        self.enter(alloc, place, promise, pages / 16)?;
        self.lend_all(from, place, pages);
        Ok(())
    }
}
