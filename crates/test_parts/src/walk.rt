//! Random lists of what is done to the page tables of four instances, whose numbers aren't in the order of their
//! places, and to plain ones. After each step the charged and active frames of each instance are counted from nothing,
//! and after each list the pages on each frame too.

ghost use Rattle.std.specs.Prelude.{◌<◌};

use crate::kept::{FRAMES, Kept, MAX, frame_of};
use crate::plain::{PLACES, Plain};
use crate::tables::agree;
use anyhow::Result as Anyhow;
use std::alloc::{AllocError, Global};
use wh_space_model::Page;
use wh_tables::PageId;

// How many lists there are, and how many steps each has.
const LISTS: u32 = 10000;

const STEPS: u32 = 12;

// Numbers that look random and are the same in each run: each state is a product of the one before it, and a sum.
#[derive(Drop)]
struct Random {
    state: u64,
}

impl Random {
    // A number below this one.
    fn below(&mut self, end: u32) -> u32
        requires { 0 < end }
        ensures { result < end }
    {
        self.state = self
            .state
            .wrapping_mul(6_364_136_223_846_793_005)
            .wrapping_add(1_442_695_040_888_963_407);
        ((self.state >> 33) % u64::from(end)) as u32
    }
}

// The tables, the plain ones, and how many instances came, counted from any number on.
#[derive(Drop)]
struct Walk {
    kept: Kept,
    plain: Plain,
    random: Random,
    came: u64,
}

// Whether all that is said of a frame is so.
fn is_frame_so(kept: &Kept, plain: &Plain, alloc: Global, frame: u32) -> Result<bool, AllocError> {
    let mut wanted = plain.last_on(frame, None);
    for id in kept.list_on(alloc, frame)?.iter() {
        if wanted != Some(*id) {
            return Ok(false);
        }
        wanted = plain.last_on(frame, wanted);
    }
    let ends = wanted == None && kept.first_on(frame) == plain.first_on(frame);
    Ok(ends && kept.has_touched(frame) == plain.has_touched(frame))
}

// Whether all pages and marks are.
fn are_pages_so(kept: &Kept, plain: &Plain) -> bool {
    for place in 0..PLACES {
        if kept.len_at(place as usize) != plain.len_at(place) {
            return false;
        }
        for page in 0..MAX {
            let id = PageId { place, page };
            if kept.page(id) != plain.page(id) {
                return false;
            }
        }
    }
    true
}

// Whether all counts are.
fn are_counts_so(kept: &Kept, plain: &Plain) -> bool {
    for (place, counts) in plain.counts().iter().enumerate() {
        if kept.counts(place) != *counts {
            return false;
        }
    }
    true
}

fn is_all_so(kept: &Kept, plain: &Plain, alloc: Global) -> Result<bool, AllocError> {
    for frame in 0..FRAMES {
        if !is_frame_so(kept, plain, alloc, frame)? {
            return Ok(false);
        }
    }
    Ok(are_pages_so(kept, plain) && are_counts_so(kept, plain))
}

impl Walk {
    // An instance comes to an empty place with a number that none had before.
    fn enter(&mut self, alloc: Global, place: u32) -> Result<bool, AllocError> {
        if self.plain.len_at(place) > 0 || self.came >= 1000 {
            return Ok(true);
        }
        // 1009 is prime: so the first 1009 of these are different, and they come in no order.
        let turn = (701 * self.came + 5) % 1009;
        let number = 4 * turn + (u64::from(place) + 2) % 4;
        let pages = self.random.below(MAX + 1);
        self.came += 1;
        self.plain.enter(place, number, pages);
        self.kept.enter(alloc, place as usize, number, pages)
    }

    // One of the pages that there may be.
    fn some_id(&mut self) -> PageId {
        PageId {
            place: self.random.below(PLACES),
            page: self.random.below(MAX),
        }
    }

    fn some_page(&mut self) -> Page {
        let frame = self.random.below(FRAMES);
        let slot = self.random.below(100);
        match self.random.below(10) {
            0 => Page::Untouched,
            1 | 2 => Page::Private(frame),
            3 | 4 | 5 => Page::Shared(frame),
            6 => Page::Leaving(frame),
            7 => Page::LeavingShared(frame),
            8 => Page::Coming(slot),
            _ => Page::Swapped(slot),
        }
    }

    fn set(&mut self) -> bool {
        let id = self.some_id();
        let page = self.some_page();
        let is_there = self.plain.page(id) != None;
        if is_there {
            self.plain.set(id, page);
        }
        self.kept.set(id, page) == is_there
    }

    fn mark(&mut self, touched: bool) -> bool {
        let id = self.some_id();
        let is_there = self.plain.page(id) != None;
        if is_there {
            self.plain.mark(id, touched);
        }
        self.kept.mark(id, touched) == is_there
    }

    fn find_touched(&mut self, alone: bool) -> bool {
        let id = self.some_id();
        let wanted = match self.plain.page(id) {
            Some((Page::Private(frame), true)) => Some(frame),
            Some((page, true)) if !alone => frame_of(page),
            _ => None,
        };
        self.kept.touched_frame(id, alone) == wanted
    }

    fn grow(&mut self) -> bool {
        let place = self.random.below(PLACES);
        let count = self.random.below(3);
        let fits = self.plain.len_at(place).saturating_add(count) <= MAX;
        if fits {
            self.plain.grow(place, count);
        }
        self.kept.grow(place as usize, count) == fits
    }

    fn clear(&mut self) -> bool {
        let place = self.random.below(PLACES);
        self.plain.clear(place);
        self.kept.clear(place as usize)
    }

    fn clear_marks(&mut self) -> bool {
        self.plain.clear_marks();
        self.kept.clear_marks()
    }

    // Does one thing: whether its answer is right.
    fn step(&mut self, alloc: Global) -> Result<bool, AllocError> {
        let seldom = self.random.below(4) == 0;
        let is_right = match self.random.below(16) {
            0 | 1 => self.mark(true),
            2 => self.mark(false),
            3 | 4 => self.find_touched(false),
            5 => self.find_touched(true),
            6 => self.grow(),
            7 => !seldom || self.clear(),
            8 => !seldom || self.clear_marks(),
            9 => {
                let place = self.random.below(PLACES);
                self.enter(alloc, place)?
            }
            _ => self.set(),
        };
        Ok(is_right)
    }

    fn new(alloc: Global, list: u32) -> Result<Walk, AllocError> {
        let mut random = Random {
            state: u64::from(list),
        };
        let came = u64::from(random.below(900));
        let mut walk = Walk {
            kept: Kept::new(alloc, u64::from(PLACES))?,
            plain: Plain::new(),
            random,
            came,
        };
        for place in 0..PLACES {
            walk.enter(alloc, place)?;
        }
        Ok(walk)
    }
}

// Whether all answers and all counts are right after each step of a list, and all else after the last one.
fn is_list_right(alloc: Global, list: u32) -> Result<bool, AllocError> {
    let mut walk = Walk::new(alloc, list)?;
    for _ in 0..STEPS {
        let is_right = walk.step(alloc)?;
        if !is_right || !are_counts_so(&walk.kept, &walk.plain) {
            return Ok(false);
        }
    }
    is_all_so(&walk.kept, &walk.plain, alloc)
}

// The first list after a step of which something is otherwise.
fn first_wrong(alloc: Global) -> Result<Option<usize>, AllocError> {
    for list in 0..LISTS {
        if !is_list_right(alloc, list)? {
            return Ok(Some(list as usize));
        }
    }
    Ok(None)
}

/// Takes each step of each list: how many lists there are.
pub fn check(alloc: Global) -> Anyhow<u32> {
    agree("random lists over tables", first_wrong(alloc)?)?;
    Ok(LISTS)
}
