// The page tables as their caller sees them.

ghost use Rattle.std.specs.Prelude.{ℕ, ◌≡◌, ◌≢◌, ◌<◌, ◌≤◌, ◌+◌, ◌^◌, ◌++◌, [], true, false, Some, None, IfOk, IfSome, IfNone, MatchBool, OnErr, OnOk, length, map, replicate, get_or, slice_set};
ghost use Rattle.wh_space_model.specs.Places.{with_row};
ghost use Rattle.wh_space_model.specs.Moves.{frame_of};
ghost use Rattle.wh_space_model.specs.States.{count_of, page_at, put, swapped};
ghost use Rattle.wh_space_model.specs.declared.states.Page.{Page};
ghost use Rattle.wh_space_model.specs.declared.states.Page.TheVariants.{Untouched};
ghost use Rattle.wh_space_model.specs.Charges.{IsFirstOn, IsOnFrame, active_in, charged_in, touchers_in};
ghost use Rattle.wh_tables.specs.Index.{number_in};
ghost use Rattle.wh_tables.specs.Line.{ComesLater, IsNextIn};
ghost use Rattle.wh_tables.specs.Order.{ComesBefore, StandsOn};
ghost use Rattle.wh_pages.specs.Seeking.{IsFirstFrom};
ghost use Rattle.wh_pages.specs.Table.{IsFrameIfTouched, own_frame_of};
ghost use Rattle.wh_tables.specs.Tables.{IsSoughtAt, new_table, without_marks, without_touched};

use crate::index::Index;
use crate::line::rank_above;
use crate::order::put_row;
use crate::page_id::PageId;
use std::alloc::{AllocError, Global};
use std::marker::Model;
use wh_pages::PageTable;
use wh_space_model::{InstId, Page};

/// The page tables of all instances, by their places, with an index of the frames on which their pages stand.
#[derive(Drop)]
pub struct Tables {
    tables: Vec<PageTable>,
    index: Index,
}

impl Model for Tables {
    ghost use Rattle.wh_tables.specs.Tables.{TablesState, tables_of, IsTables};

    ghost Value = { TablesState };

    ghost view = { tables_of };

    ghost invariant = { IsTables };
}

// Takes the marks of all pages of all tables away.
fn clear_tables(tables: &mut Vec<PageTable>)
    ensures { tables.new.items ≡ map without_touched tables.old.items }
{
    for place in 0..tables.len() {
        let table = &mut tables[place];
        table.clear_touched();
    }
}

// A table with `pages` pages of zeros that have no frames.
fn table_of(alloc: Global, pages: u32, max: u32) -> Result<PageTable, AllocError>
    requires within { pages ≤ max }
    requires most { max ≤ 65536 }
    ensures { IfOk result (λ table. table ≡ new_table pages max) }
{
    let mut table = PageTable::new(alloc, max)?;
    let _ = table.grow(pages);
    Ok(table)
}

impl Tables {
    /// Creates the tables of no instance, over `frames` frames.
    ///
    /// # Errors
    /// `AllocError` where room is refused.
    pub fn new(alloc: Global, frames: u32) -> Result<Tables, AllocError>
        ensures { IfOk result (λ tables. tables ≡ record {
          pages = [];
          marks = [];
          limits = [];
          numbers = [];
          frames = frames;
        }) }
    {
        let index = Index::new(alloc, frames)?;
        Ok(Tables {
            tables: Vec::new(alloc),
            index,
        })
    }

    /// Returns the number of places.
    pub fn places(&self) -> usize
        ensures pages { result ≡ length self.now.pages }
        ensures limits { result ≡ length self.now.limits }
        ensures numbers { result ≡ length self.now.numbers }
    {
        self.tables.len()
    }

    /// Returns the number of pages of the instance at this place.
    #[inline(always)]
    pub fn len_at(&self, place: usize) -> u32
        ensures { result ≡ length (get_or self.now.pages place []) }
    {
        if place < self.tables.len() {
            self.tables[place].len()
        } else {
            0
        }
    }

    /// Returns the page of this number of the instance at this place.
    #[inline(always)]
    pub fn page(&self, place: usize, number: u32) -> Page
        requires { number < length (get_or self.now.pages place []) }
        ensures { page_at self.now.pages place number ≡ Some result }
    {
        self.tables[place].page(number)
    }

    /// Returns, in O(1), the number of pages of the instance at this place that are swapped.
    pub fn swapped(&self, place: usize) -> u32
        ensures { result ≡ count_of swapped self.now.pages place }
    {
        if place < self.tables.len() {
            self.tables[place].swapped()
        } else {
            0
        }
    }

    /// Returns the first resident page of the instance at this place, from this number on; with `idle`, the first of
    /// those not touched in this epoch. Skips leaves of its page table that have none.
    pub fn next_resident(&self, place: usize, from: u32, idle: bool) -> Option<u32>
        ensures { IsFirstFrom (IsSoughtAt self.now.pages self.now.marks place idle) from result }
    {
        if place >= self.tables.len() {
            return None;
        }
        self.tables[place].next_resident(from, idle)
    }

    /// Replaces a page. Its mark of touch stays.
    pub fn set(&mut self, place: usize, number: u32, page: Page)
        requires there { number < length (get_or self.old.pages place []) }
        requires frame { IfSome (frame_of page) (λ frame. frame < self.old.frames) }
        ensures { self.new ≡ record self.old { pages = put self.old.pages place number page } }
    {
        if self.page(place, number).frame() == page.frame() {
            self.replace(place, number, page);
        } else {
            self.lift(place, number);
            self.land(place, number, page);
        }
    }

    // Takes a page off its frame, if it is resident; it has none then.
    fn lift(&mut self, place: usize, number: u32)
        requires { number < length (get_or self.old.pages place []) }
        ensures { self.new ≡ record self.old { pages = put self.old.pages place number Untouched } }
    {
        match self.page(place, number).frame() {
            Some(frame) => self.leave(place, number, frame),
            None => self.replace(place, number, Page::Untouched),
        }
    }

    // Puts a page in place of one that isn't resident.
    fn land(&mut self, place: usize, number: u32, page: Page)
        requires off { (was : Page) × (page_at self.old.pages place number ≡ Some was)
            × (frame_of was ≡ None) }
        requires frame { IfSome (frame_of page) (λ frame. frame < self.old.frames) }
        ensures { self.new ≡ record self.old { pages = put self.old.pages place number page } }
    {
        match page.frame() {
            Some(frame) => self.come(place, number, frame, page),
            None => self.replace(place, number, page),
        }
    }

    // Puts a page that stands where the one before it stood.
    fn replace(&mut self, place: usize, number: u32, page: Page)
        requires { (was : Page) × (page_at self.old.pages place number ≡ Some was)
            × (frame_of was ≡ frame_of page) }
        ensures { self.new ≡ record self.old { pages = put self.old.pages place number page } }
    {
        self.tables[place].set(number, page);
    }

    // Takes a page off the frame on which it stands.
    fn leave(&mut self, place: usize, number: u32, frame: u32)
        requires { IsOnFrame self.old.pages place number frame }
        ensures { self.new ≡ record self.old { pages = put self.old.pages place number Untouched } }
    {
        let touched = self.tables[place].is_touched(number);
        let id = PageId {
            place: place as u32,
            page: number,
        };
        self.index.leave(frame, id, touched);
        self.tables[place].set(number, Page::Untouched);
    }

    // Puts a page, which maps to this frame, in place of one that isn't resident.
    fn come(&mut self, place: usize, number: u32, frame: u32, page: Page)
        requires off { (was : Page) × (page_at self.old.pages place number ≡ Some was)
            × (frame_of was ≡ None) }
        requires on { frame_of page ≡ Some frame }
        requires frame { frame < self.old.frames }
        ensures { self.new ≡ record self.old { pages = put self.old.pages place number page } }
    {
        let touched = self.tables[place].is_touched(number);
        let id = PageId {
            place: place as u32,
            page: number,
        };
        self.index.come(frame, id, touched);
        self.tables[place].set(number, page);
    }

    /// Adds `count` pages of zeros without frames, for which there is room, to an instance; no other one with pages may
    /// have its number.
    pub fn grow(&mut self, place: usize, count: u32)
        requires there { place < length self.old.pages }
        requires room { length (get_or self.old.pages place []) + count ≤ get_or self.old.limits place 0 }
        requires apart { (j : ℕ) → j ≢ place → 1 ≤ length (get_or self.old.pages j [])
            → get_or self.old.numbers j 0 ≢ get_or self.old.numbers place 0 }
        ensures { self.new ≡ record self.old {
          pages = slice_set self.old.pages place
              (get_or self.old.pages place [] ++ replicate count Untouched);
          marks = slice_set self.old.marks place
              (get_or self.old.marks place [] ++ replicate count false);
        } }
    {
        let table = &mut self.tables[place];
        let _ = table.grow(count);
    }

    /// Removes all pages of the instance at this place. The room stays.
    pub fn clear(&mut self, place: usize)
        requires { place < length self.old.pages }
        ensures { self.new ≡ record self.old {
          pages = slice_set self.old.pages place [];
          marks = slice_set self.old.marks place [];
        } }
    {
        for number in 0..self.len_at(place) {
            self.lift(place, number);
        }
        self.forget(place);
    }

    // Takes pages away none of which is resident.
    fn forget(&mut self, place: usize)
        requires there { place < length self.old.pages }
        requires off { (p : ℕ) (page : Page) → page_at self.old.pages place p ≡ Some page → frame_of page ≡ None }
        ensures { self.new ≡ record self.old {
          pages = slice_set self.old.pages place [];
          marks = slice_set self.old.marks place [];
        } }
    {
        let table = &mut self.tables[place];
        table.clear();
    }

    /// Begins an epoch: clears the marks of touch of all pages. Goes over all pages.
    pub fn clear_marks(&mut self)
        ensures { self.new ≡ record self.old { marks = without_marks self.old.marks } }
    {
        clear_tables(&mut self.tables);
        self.index.clear_marks();
    }

    /// Gives an instance of this number a place without pages, or the next one after all, with `pages` pages of zeros
    /// that have no frames; it may have up to `max` pages. Reserves the room for them all.
    ///
    /// # Errors
    /// `AllocError` if an allocation fails. Nothing has changed then.
    pub fn enter(
        &mut self,
        alloc: Global,
        place: usize,
        number: u64,
        pages: u32,
        max: u32,
    ) -> Result<(), AllocError>
        requires place { (place < 2 ^ 32) × (place ≤ length self.old.pages) }
        requires empty { get_or self.old.pages place [] ≡ [] }
        requires fresh { (j : ℕ) → 1 ≤ length (get_or self.old.pages j [])
            → get_or self.old.numbers j 0 ≢ number }
        requires within { (pages ≤ max) × (max ≤ 65536) }
        ensures ok { OnOk result (self.new ≡ record self.old {
          pages = with_row self.old.pages place (replicate pages Untouched);
          marks = with_row self.old.marks place (replicate pages false);
          limits = with_row self.old.limits place max;
          numbers = with_row self.old.numbers place number;
        }) }
        ensures err { OnErr result (self.new ≡ self.old) }
    {
        let table = table_of(alloc, pages, max)?;
        self.tables.reserve(1)?;
        self.index.enter(alloc, place, number, max)?;
        put_row(&mut self.tables, place, table);
        Ok(())
    }

    /// Tells whether the page of this number of the instance at this place was touched in this epoch.
    #[inline(always)]
    pub fn is_touched(&self, place: usize, number: u32) -> bool
        requires { number < length (get_or self.now.pages place []) }
        ensures { page_at self.now.marks place number ≡ Some result }
    {
        self.tables[place].is_touched(number)
    }

    /// Marks a page as touched.
    pub fn touch(&mut self, place: usize, number: u32)
        requires { number < length (get_or self.old.pages place []) }
        ensures { self.new ≡ record self.old { marks = put self.old.marks place number true } }
    {
        if self.is_touched(place, number) {
            return;
        }
        match self.page(place, number).frame() {
            Some(frame) => self.mark_on(place, number, frame),
            None => self.mark_off(place, number),
        }
    }

    /// Clears the mark of touch of a page.
    pub fn untouch(&mut self, place: usize, number: u32)
        requires { number < length (get_or self.old.pages place []) }
        ensures { self.new ≡ record self.old { marks = put self.old.marks place number false } }
    {
        if !self.is_touched(place, number) {
            return;
        }
        match self.page(place, number).frame() {
            Some(frame) => self.unmark_on(place, number, frame),
            None => self.unmark_off(place, number),
        }
    }

    /// Returns the frame of a page that was touched in this epoch, in O(1).
    #[inline(always)]
    pub fn touched_frame(&self, place: usize, number: u32) -> Option<u32>
        requires { number < length (get_or self.now.pages place []) }
        ensures { IsFrameIfTouched frame_of (page_at self.now.pages place number)
            (page_at self.now.marks place number) result }
    {
        self.tables[place].touched_frame(number)
    }

    /// Returns the frame of its own, in O(1), of a page that is `Private` and was touched in this epoch.
    #[inline(always)]
    pub fn touched_own_frame(&self, place: usize, number: u32) -> Option<u32>
        requires { number < length (get_or self.now.pages place []) }
        ensures { IsFrameIfTouched own_frame_of (page_at self.now.pages place number)
            (page_at self.now.marks place number) result }
    {
        self.tables[place].touched_own_frame(number)
    }

    /// Returns, of the instances with pages, the one with the lowest number, or with the lowest number above `after`.
    /// Searches a list of all places by number that is kept for it, and skips those without pages.
    pub fn next_instance(&self, after: Option<u64>) -> Option<InstId>
        ensures some { IfSome result (λ id. IsNextIn self.now.pages self.now.numbers after id) }
        ensures none { IfNone result ((i : ℕ) → ¬ ComesLater self.now.pages self.now.numbers after i) }
    {
        let line = self.index.line();
        let from = match after {
            Some(number) => rank_above(line, number),
            None => 0,
        };
        for rank in from..line.len() {
            let id = line[rank];
            if self.len_at(id.place) > 0 {
                return Some(id);
            }
        }
        None
    }

    /// Returns, in O(1), the number of frames that are charged to the instance at this place: those whose first page is
    /// its.
    pub fn charged(&self, place: usize) -> u32
        ensures is { result ≡ charged_in (number_in self.now.numbers) self.now.pages self.now.frames place }
        ensures most { result ≤ length (get_or self.now.pages place []) }
    {
        self.index.counts(place).charged
    }

    /// Returns, in O(1), on how many of these a page of any instance was touched.
    pub fn active(&self, place: usize) -> u32
        ensures is { result ≡ active_in (number_in self.now.numbers) self.now.pages self.now.marks
            self.now.frames place }
        ensures within { result ≤ charged_in (number_in self.now.numbers) self.now.pages
            self.now.frames place }
    {
        self.index.counts(place).active
    }

    /// Tells whether a touched page of any instance maps to a frame.
    pub fn has_touched(&self, frame: u32) -> bool
        requires { frame < self.now.frames }
        ensures { MatchBool result (1 ≤ touchers_in self.now.pages self.now.marks frame)
            (touchers_in self.now.pages self.now.marks frame ≡ 0) }
    {
        self.index.touchers(frame) > 0
    }

    /// Returns the first page on a frame, by the numbers of instances and then of pages: the frame is charged to its
    /// instance.
    pub fn first_on(&self, frame: u32) -> Option<PageId>
        requires { frame < self.now.frames }
        ensures some { IfSome result (λ id.
            IsFirstOn (number_in self.now.numbers) self.now.pages id.place id.page frame) }
        ensures none { IfNone result ((j q : ℕ) → ¬ IsOnFrame self.now.pages j q frame) }
    {
        self.index.first(frame)
    }

    /// Returns the last page on a frame.
    pub fn last_on(&self, frame: u32) -> Option<PageId>
        requires { frame < self.now.frames }
        ensures some { IfSome result (λ id. StandsOn self.now.pages frame id
            × ((z : PageId) → StandsOn self.now.pages frame z
            → ¬ ComesBefore self.now.numbers id z)) }
        ensures none { IfNone result ((z : PageId) → ¬ StandsOn self.now.pages frame z) }
    {
        self.index.prior(frame, None)
    }

    /// Returns the last page on a frame before this one, which maps to it.
    pub fn prior_on(&self, frame: u32, id: PageId) -> Option<PageId>
        requires { StandsOn self.now.pages frame id }
        ensures some { IfSome result (λ prior. StandsOn self.now.pages frame prior
            × ComesBefore self.now.numbers prior id
            × ((z : PageId) → StandsOn self.now.pages frame z → ComesBefore self.now.numbers z id
            → ¬ ComesBefore self.now.numbers prior z)) }
        ensures none { IfNone result ((z : PageId) → StandsOn self.now.pages frame z
            → ¬ ComesBefore self.now.numbers z id) }
        ensures small { IfSome result (λ prior. (prior.place < 2 ^ 32) × (prior.page < 2 ^ 32)) }
    {
        self.index.prior(frame, Some(id))
    }

    // Marks a page that maps to this frame and wasn't touched.
    fn mark_on(&mut self, place: usize, number: u32, frame: u32)
        requires on { IsOnFrame self.old.pages place number frame }
        requires mark { page_at self.old.marks place number ≡ Some false }
        ensures { self.new ≡ record self.old { marks = put self.old.marks place number true } }
    {
        // What holds of the tables has to be known where the place is narrowed.
        let _ = self.tables.len();
        let id = PageId {
            place: place as u32,
            page: number,
        };
        self.index.mark(frame, id);
        self.tables[place].touch(number);
    }

    // Takes the mark from one that was.
    fn unmark_on(&mut self, place: usize, number: u32, frame: u32)
        requires on { IsOnFrame self.old.pages place number frame }
        requires mark { page_at self.old.marks place number ≡ Some true }
        ensures { self.new ≡ record self.old { marks = put self.old.marks place number false } }
    {
        // What holds of the tables has to be known where the place is narrowed.
        let _ = self.tables.len();
        let id = PageId {
            place: place as u32,
            page: number,
        };
        self.index.unmark(frame, id);
        self.tables[place].untouch(number);
    }

    // Marks a page that isn't resident.
    fn mark_off(&mut self, place: usize, number: u32)
        requires { (page : Page) × (page_at self.old.pages place number ≡ Some page)
            × (frame_of page ≡ None) }
        ensures { self.new ≡ record self.old { marks = put self.old.marks place number true } }
    {
        self.tables[place].touch(number);
    }

    // Takes the mark from one.
    fn unmark_off(&mut self, place: usize, number: u32)
        requires { (page : Page) × (page_at self.old.pages place number ≡ Some page)
            × (frame_of page ≡ None) }
        ensures { self.new ≡ record self.old { marks = put self.old.marks place number false } }
    {
        self.tables[place].untouch(number);
    }
}
