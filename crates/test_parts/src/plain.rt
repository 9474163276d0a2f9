//! The pages of instances and their marks without an index, and what an index has to say of them, counted anew each time.

use crate::kept::{FRAMES, MAX, frame_of};
use wh_space_model::Page;
use wh_tables::PageId;

/// How many places there are.
pub const PLACES: u32 = 4;

/// What one instance has.
#[derive(Clone, Copy)]
struct Row {
    number: u64,
    len: u32,
    pages: [Page; MAX as usize],
    marks: [bool; MAX as usize],
}

/// What all have.
#[derive(Clone, Copy)]
pub struct Plain {
    rows: [Row; PLACES as usize],
}

const NOBODY: Row = Row {
    number: 0,
    len: 0,
    pages: [Page::Untouched; MAX as usize],
    marks: [false; MAX as usize],
};

// All pages that there may be.
const ALL: u32 = PLACES * MAX;

fn id_at(at: u32) -> PageId {
    PageId {
        place: at / MAX,
        page: at % MAX,
    }
}

impl Plain {
    /// Creates tables without instances.
    pub fn new() -> Plain {
        Plain {
            rows: [NOBODY; PLACES as usize],
        }
    }

    /// Returns the number of pages of the instance at this place.
    pub fn len_at(&self, place: u32) -> u32 {
        match self.rows.get(place as usize) {
            Some(row) => row.len,
            None => 0,
        }
    }

    fn number_at(&self, place: u32) -> u64 {
        match self.rows.get(place as usize) {
            Some(row) => row.number,
            None => 0,
        }
    }

    /// Returns a page, and whether it is touched.
    pub fn page(&self, id: PageId) -> Option<(Page, bool)> {
        let row = self.rows.get(id.place as usize)?;
        if id.page >= row.len {
            return None;
        }
        let page = row.pages.get(id.page as usize)?;
        let mark = row.marks.get(id.page as usize)?;
        Some((*page, *mark))
    }

    /// Gives an instance of this number a place, with `pages` pages.
    pub fn enter(&mut self, place: u32, number: u64, pages: u32) {
        if let Some(row) = self.rows.get_mut(place as usize) {
            *row = Row {
                number,
                len: pages,
                ..NOBODY
            };
        }
    }

    /// Replaces a page.
    pub fn set(&mut self, id: PageId, page: Page) {
        if let Some(row) = self.rows.get_mut(id.place as usize)
            && let Some(here) = row.pages.get_mut(id.page as usize)
        {
            *here = page;
        }
    }

    /// Marks a page as touched, or clears the mark.
    pub fn mark(&mut self, id: PageId, touched: bool) {
        if let Some(row) = self.rows.get_mut(id.place as usize)
            && let Some(here) = row.marks.get_mut(id.page as usize)
        {
            *here = touched;
        }
    }

    /// Adds `count` pages.
    pub fn grow(&mut self, place: u32, count: u32) {
        let len = self.len_at(place);
        for at in 0..MAX {
            if len <= at && at < len.saturating_add(count) {
                let id = PageId { place, page: at };
                self.set(id, Page::Untouched);
                self.mark(id, false);
            }
        }
        if let Some(row) = self.rows.get_mut(place as usize) {
            row.len = len.saturating_add(count).min(MAX);
        }
    }

    /// Removes all pages of an instance.
    pub fn clear(&mut self, place: u32) {
        if let Some(row) = self.rows.get_mut(place as usize) {
            row.len = 0;
        }
    }

    /// Clears all marks.
    pub fn clear_marks(&mut self) {
        for at in 0..ALL {
            self.mark(id_at(at), false);
        }
    }

    // Whether a page maps to this frame.
    fn is_on(&self, id: PageId, frame: u32) -> bool {
        match self.page(id) {
            Some((page, _)) => frame_of(page) == Some(frame),
            None => false,
        }
    }

    // Whether one page comes before another: by the number of the instance, and then by its own.
    fn is_before(&self, one: PageId, other: PageId) -> bool {
        let numbers = (self.number_at(one.place), self.number_at(other.place));
        numbers.0 < numbers.1 || numbers.0 == numbers.1 && one.page < other.page
    }

    /// Returns the first page on a frame: none there comes before it.
    pub fn first_on(&self, frame: u32) -> Option<PageId> {
        let mut first: Option<PageId> = None;
        for at in 0..ALL {
            let id = id_at(at);
            let is_first = match first {
                Some(other) => self.is_before(id, other),
                None => true,
            };
            if is_first && self.is_on(id, frame) {
                first = Some(id);
            }
        }
        first
    }

    /// Returns the last page on a frame, or the last one before `end`.
    pub fn last_on(&self, frame: u32, end: Option<PageId>) -> Option<PageId> {
        let mut last: Option<PageId> = None;
        for at in 0..ALL {
            let id = id_at(at);
            let is_within = match end {
                Some(end) => self.is_before(id, end),
                None => true,
            };
            let is_last = match last {
                Some(other) => self.is_before(other, id),
                None => true,
            };
            if is_within && is_last && self.is_on(id, frame) {
                last = Some(id);
            }
        }
        last
    }

    /// Tells whether a touched page maps to a frame.
    pub fn has_touched(&self, frame: u32) -> bool {
        for at in 0..ALL {
            let id = id_at(at);
            if self.is_on(id, frame)
                && let Some((_, true)) = self.page(id)
            {
                return true;
            }
        }
        false
    }

    /// Returns for each instance the number of frames charged to it, those whose first page is its own, and on how many
    /// of them there is a touched page.
    pub fn counts(&self) -> [(u32, u32); PLACES as usize] {
        let mut counts = [(0u32, 0u32); PLACES as usize];
        for frame in 0..FRAMES {
            if let Some(first) = self.first_on(frame)
                && let Some(here) = counts.get_mut(first.place as usize)
            {
                here.0 = here.0.saturating_add(1);
                if self.has_touched(frame) {
                    here.1 = here.1.saturating_add(1);
                }
            }
        }
        counts
    }
}
