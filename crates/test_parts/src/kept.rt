//! Page tables of `wh_tables` of which anything can be asked: what isn't allowed isn't done, and is answered by `false`.

ghost use Rattle.std.specs.Prelude.{◌≡◌, ◌<◌, IfSome, IsTrue};
ghost use Rattle.wh_space_model.specs.Moves.{frame_of as frame_of_page};

use std::alloc::{AllocError, Global};
use std::marker::Model;
use wh_space_model::Page;
use wh_tables::{PageId, Tables};

/// How many pages an instance may have.
pub const MAX: u32 = 6;

/// How many frames there are.
pub const FRAMES: u32 = 10;

/// The tables. The number of an instance tells its place: with 2 more, and divided by `turn`, it leaves the place. So no
/// two instances have one number.
#[derive(Drop)]
pub struct Kept {
    tables: Tables,
    turn: u64,
}

/// Returns the frame to which a page maps.
pub fn frame_of(page: Page) -> Option<u32>
    ensures { result ≡ frame_of_page page }
{
    match page {
        Page::Private(frame) | Page::Shared(frame) => Some(frame),
        Page::Leaving(frame) | Page::LeavingShared(frame) => Some(frame),
        Page::Untouched | Page::Coming(_) | Page::Swapped(_) => None,
    }
}

impl Model for Kept {
    ghost use Rattle.wh_tables.specs.Tables.{TablesState};
    ghost use Rattle.test_parts.specs.Kept.{MayBeAsked};

    ghost Value = { TablesState };

    ghost view = { λ a. a.tables };

    ghost invariant = { λ a. MayBeAsked a.turn a.tables };
}

impl Kept {
    /// Creates tables without instances.
    pub fn new(alloc: Global, turn: u64) -> Result<Kept, AllocError> {
        Ok(Kept {
            tables: Tables::new(alloc, FRAMES)?,
            turn: turn.max(1),
        })
    }

    /// Returns the number of places.
    pub fn places(&self) -> usize {
        self.tables.places()
    }

    /// Returns the number of pages of the instance at this place.
    pub fn len_at(&self, place: usize) -> u32 {
        self.tables.len_at(place)
    }

    /// Returns the number of frames charged to it, and of those with a touched page.
    pub fn counts(&self, place: usize) -> (u32, u32) {
        (self.tables.charged(place), self.tables.active(place))
    }

    /// Returns a page, and whether it is touched.
    pub fn page(&self, id: PageId) -> Option<(Page, bool)> {
        let place = id.place as usize;
        if id.page >= self.tables.len_at(place) {
            return None;
        }
        let page = self.tables.page(place, id.page);
        Some((page, self.tables.is_touched(place, id.page)))
    }

    /// Tells whether a touched page maps to a frame.
    pub fn has_touched(&self, frame: u32) -> bool {
        frame < FRAMES && self.tables.has_touched(frame)
    }

    /// Returns the first page on a frame.
    pub fn first_on(&self, frame: u32) -> Option<PageId> {
        if frame >= FRAMES {
            return None;
        }
        self.tables.first_on(frame)
    }

    /// Returns the pages on a frame from the last one back, of at most four instances.
    pub fn list_on(&self, alloc: Global, frame: u32) -> Result<Vec<PageId>, AllocError> {
        let mut list = Vec::new(alloc);
        if frame >= FRAMES {
            return Ok(list);
        }
        let mut at = self.tables.last_on(frame);
        for _ in 0..4 * MAX + 1 {
            let Some(id) = at else {
                break;
            };
            list.push(id)?;
            at = self.tables.prior_on(frame, id);
        }
        Ok(list)
    }

    /// Gives an instance of this number an empty place, with `pages` pages.
    pub fn enter(
        &mut self,
        alloc: Global,
        place: usize,
        number: u64,
        pages: u32,
    ) -> Result<bool, AllocError> {
        if place > self.tables.places() || self.tables.len_at(place) > 0 || pages > MAX {
            return Ok(false);
        }
        if number >= 1_000_000 || (number + 2) % self.turn != place as u64 {
            return Ok(false);
        }
        self.tables.enter(alloc, place, number, pages, MAX)?;
        Ok(true)
    }

    /// Replaces a page.
    pub fn set(&mut self, id: PageId, page: Page) -> bool {
        let place = id.place as usize;
        if id.page >= self.tables.len_at(place) {
            return false;
        }
        if let Some(frame) = frame_of(page)
            && frame >= FRAMES
        {
            return false;
        }
        self.tables.set(place, id.page, page);
        true
    }

    /// Marks a page as touched, or clears the mark.
    pub fn mark(&mut self, id: PageId, touched: bool) -> bool {
        let place = id.place as usize;
        if id.page >= self.tables.len_at(place) {
            return false;
        }
        if touched {
            self.tables.touch(place, id.page);
        } else {
            self.tables.untouch(place, id.page);
        }
        true
    }

    /// Returns the frame of a page that was touched, if it has one, or with `alone` only if the page is private.
    pub fn touched_frame(&self, id: PageId, alone: bool) -> Option<u32> {
        let place = id.place as usize;
        if id.page >= self.tables.len_at(place) {
            return None;
        }
        if alone {
            self.tables.touched_own_frame(place, id.page)
        } else {
            self.tables.touched_frame(place, id.page)
        }
    }

    /// Adds `count` pages.
    pub fn grow(&mut self, place: usize, count: u32) -> bool {
        let len = self.tables.len_at(place);
        if place >= self.tables.places() || len > MAX || count > MAX - len {
            return false;
        }
        self.tables.grow(place, count);
        true
    }

    /// Removes all pages of an instance.
    pub fn clear(&mut self, place: usize) -> bool {
        if place >= self.tables.places() {
            return false;
        }
        self.tables.clear(place);
        true
    }

    /// Begins an epoch.
    pub fn clear_marks(&mut self) -> bool {
        self.tables.clear_marks();
        true
    }
}
