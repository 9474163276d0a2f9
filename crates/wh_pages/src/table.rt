// The table as its caller sees it.

ghost use Rattle.std.specs.Prelude.{◌≡◌, ℕ, ◌*◌, ◌↔◌, ◌+◌, ◌<◌, ◌≤◌, ◌++◌, [], ◌∷◌, true, false, IsTrue, IsFalse, Some, IfOk, IfSome, IfNone, length, replicate, slice_get, slice_set};
ghost use Rattle.wh_space_model.specs.Frames.{tally};
ghost use Rattle.wh_space_model.specs.Moves.{frame_of};
ghost use Rattle.wh_space_model.specs.States.{swapped};
ghost use Rattle.wh_pages.specs.Parts.{page_of};
ghost use Rattle.wh_space_model.specs.declared.states.Page.TheVariants.{Untouched};
ghost use Rattle.wh_pages.specs.Seeking.{IsFirstFrom, IsSought};
ghost use Rattle.wh_pages.specs.Table.{IsFrameIfTouched, own_frame_of};

use crate::entry::PageEntry;
use crate::leaf::LEAF;
use crate::rows::Rows;
use std::alloc::{AllocError, Global};
use std::marker::Model;
use wh_space_model::Page;

/// The pages of one instance in order, each of 4096 bytes and with a mark that says whether it was
/// touched in this epoch.
///
/// Room for as many pages as there may ever be is taken at once: 8 bytes for each. A page is found by
/// two index operations.
#[derive(Drop)]
pub struct PageTable {
    rows: Rows,
    len: u32,
    max: u32,
    // How many pages are swapped.
    swapped: u32,
}

impl Model for PageTable {
    ghost use Rattle.wh_pages.specs.Table.{PageTableState};

    ghost Value = { PageTableState };

    ghost use Rattle.wh_pages.specs.Parts.{page_table_of, HasRows};

    ghost view = { page_table_of };

    ghost invariant = { HasRows };
}

impl PageTable {
    /// Creates a page table without pages, that may grow to `max`, up to 65536. Reserves the room for them all.
    ///
    /// # Errors
    /// `AllocError` if an allocation fails; what was allocated is given back.
    pub fn new(alloc: Global, max: u32) -> Result<PageTable, AllocError>
        requires { max ≤ 65536 }
        ensures { IfOk result (λ table. table ≡ record { pages = []; touched = []; max = max }) }
    {
        let rows = Rows::new(alloc, max.div_ceil(LEAF))?;
        Ok(PageTable {
            rows,
            len: 0,
            max,
            swapped: 0,
        })
    }

    /// Returns the number of pages.
    #[inline(always)]
    pub fn len(&self) -> u32
        ensures pages { result ≡ length self.now.pages }
        ensures touched { result ≡ length self.now.touched }
        ensures within { result ≤ self.now.max }
    {
        self.len
    }

    /// Returns the number of pages to which it may grow, at most 65536.
    pub fn max(&self) -> u32
        ensures max { result ≡ self.now.max }
        ensures most { result ≤ 65536 }
    {
        self.max
    }

    /// Returns, in O(1), the number of pages that are swapped.
    pub fn swapped(&self) -> u32
        ensures { result ≡ tally swapped self.now.pages }
    {
        self.swapped
    }

    /// Returns the page at this place, which is below `len`.
    #[inline(always)]
    pub fn page(&self, at: u32) -> Page
        requires { at < length self.now.pages }
        ensures { slice_get self.now.pages at ≡ Some result }
    {
        self.rows.get(at).page()
    }

    /// Tells whether the page at this place, which is below `len`, was touched in this epoch.
    #[inline(always)]
    pub fn is_touched(&self, at: u32) -> bool
        requires { at < length self.now.pages }
        ensures { slice_get self.now.touched at ≡ Some result }
    {
        self.rows.get(at).touched
    }

    /// Returns, in O(1), the frame of the page at this place, which is below `len`, if it was touched in this epoch.
    #[inline(always)]
    pub fn touched_frame(&self, at: u32) -> Option<u32>
        requires { at < length self.now.pages }
        ensures { IsFrameIfTouched frame_of (slice_get self.now.pages at) (slice_get self.now.touched at) result }
    {
        self.rows.get(at).touched_frame()
    }

    /// Returns, in O(1), the frame of its own of the page at this place, which is below `len`, if it is `Private` and
    /// was touched in this epoch.
    #[inline(always)]
    pub fn touched_own_frame(&self, at: u32) -> Option<u32>
        requires { at < length self.now.pages }
        ensures { IsFrameIfTouched own_frame_of (slice_get self.now.pages at) (slice_get self.now.touched at) result }
    {
        self.rows.get(at).touched_own_frame()
    }

    /// Returns the first resident page from this place on; with `idle`, the first of those not touched in this epoch.
    /// Skips leaves that have none.
    pub fn next_resident(&self, from: u32, idle: bool) -> Option<u32>
        ensures { IsFirstFrom (IsSought self.now idle) from result }
    {
        if from >= self.len {
            return None;
        }
        for leaf in from / LEAF..self.len.div_ceil(LEAF) {
            if self.rows.has_sought(leaf, idle) {
                let found = self.sought_in(leaf, from, idle);
                if found.is_some() {
                    return found;
                }
            }
        }
        None
    }

    // The same among the pages of a leaf.
    fn sought_in(&self, leaf: u32, from: u32, idle: bool) -> Option<u32>
        requires { leaf < 256 }
        ensures some { IfSome result (λ p. (IsSought self.now idle p × (from ≤ p))
            × ((q : ℕ) → from ≤ q → 256 * leaf ≤ q → q < p → ¬ IsSought self.now idle q)) }
        ensures none { IfNone result ((q : ℕ) → from ≤ q → 256 * leaf ≤ q → q < 256 * leaf + 256
            → ¬ IsSought self.now idle q) }
    {
        let first = from.max(LEAF * leaf);
        let end = self.len.min(LEAF * leaf + LEAF);
        if first >= end {
            return None;
        }
        for at in first..end {
            if self.rows.get(at).is_sought(idle) {
                return Some(at);
            }
        }
        None
    }

    /// Replaces the page at this place, which is below `len`. Its mark of touch stays.
    pub fn set(&mut self, at: u32, page: Page)
        requires { at < length self.old.pages }
        ensures { self.new ≡ record self.old { pages = slice_set self.old.pages at page } }
    {
        let touched = self.is_touched(at);
        self.put(at, PageEntry::new(page, touched));
    }

    /// Marks the page at this place, which is below `len`, as touched.
    pub fn touch(&mut self, at: u32)
        requires { at < length self.old.pages }
        ensures { self.new ≡ record self.old { touched = slice_set self.old.touched at true } }
    {
        self.mark(at, true);
    }

    /// Clears the mark of touch of the page at this place, which is below `len`.
    pub fn untouch(&mut self, at: u32)
        requires { at < length self.old.pages }
        ensures { self.new ≡ record self.old { touched = slice_set self.old.touched at false } }
    {
        self.mark(at, false);
    }

    /// Begins an epoch: clears all marks of touch. Goes over all pages.
    pub fn clear_touched(&mut self)
        ensures { self.new ≡ record self.old { touched = replicate (length self.old.pages) false } }
    {
        for at in 0..self.len() {
            self.mark(at, false);
        }
    }

    /// Adds `count` pages of zeros that have no frames and no marks; tells whether they fit within `max`. If they
    /// don't, nothing changes. Allocates nothing.
    pub fn grow(&mut self, count: u32) -> bool
        ensures fits { IsTrue result ↔ (length self.old.pages + count ≤ self.old.max) }
        ensures grown { IsTrue result → self.new ≡ record self.old {
          pages = self.old.pages ++ replicate count Untouched;
          touched = self.old.touched ++ replicate count false;
        } }
        ensures unchanged { IsFalse result → self.new ≡ self.old }
    {
        if count > self.max() - self.len() {
            return false;
        }
        for _ in 0..count {
            self.add();
        }
        true
    }

    /// Removes all pages. The room stays.
    pub fn clear(&mut self)
        ensures { self.new ≡ record self.old { pages = []; touched = [] } }
    {
        self.len = 0;
        self.swapped = 0;
    }

    // Gives the page at this place this mark.
    fn mark(&mut self, at: u32, touched: bool)
        requires { at < length self.old.pages }
        ensures { self.new ≡ record self.old { touched = slice_set self.old.touched at touched } }
    {
        let old = self.rows.get(at);
        self.put(at, PageEntry { touched, ..old });
    }

    // Puts an entry there.
    fn put(&mut self, at: u32, entry: PageEntry)
        requires { at < length self.old.pages }
        ensures { self.new ≡ record self.old {
          pages = slice_set self.old.pages at (page_of entry);
          touched = slice_set self.old.touched at entry.touched;
        } }
    {
        let old = self.rows.get(at);
        self.swapped = self.swapped - old.swaps() + entry.swaps();
        self.rows.set(at, entry);
    }

    // Adds an untouched page without a mark.
    fn add(&mut self)
        requires { length self.old.pages < self.old.max }
        ensures { self.new ≡ record self.old {
          pages = self.old.pages ++ Untouched ∷ [];
          touched = self.old.touched ++ false ∷ [];
        } }
    {
        self.rows.set(self.len, PageEntry::blank());
        self.len += 1;
    }
}
