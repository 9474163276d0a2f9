//! Page tables of `wh_tables`: to whom the frames are charged on which pages of three instances stand.

use crate::kept::Kept;
use crate::tables::agree;
use anyhow::Result;
use std::alloc::{AllocError, Global};
use wh_space_model::Page;
use wh_tables::PageId;

// What is done, or what has to be shown.
#[derive(Clone, Copy)]
enum Step {
    // An instance with this number gets a place, with this many pages.
    Enter(u32, u64, u32),
    // The page of an instance becomes this one.
    Set(u32, u32, Page),
    // It is touched.
    Touch(u32, u32),
    // It isn't any more.
    Untouch(u32, u32),
    // All pages of an instance go.
    Clear(u32),
    // A new epoch begins.
    ClearMarks,
    // How many frames are charged to `a`, `b` and `c`.
    Charged(u32, u32, u32),
    // How many of those have a touched page.
    Active(u32, u32, u32),
    // The first and the last page on a frame, each by place and number, and how many there are.
    On(u32, (u32, u32), (u32, u32), usize),
    // No page is on a frame.
    Bare(u32),
    // Whether a touched page is.
    Touched(u32, bool),
}

// The places of `a`, `b` and `c`, whose numbers are 0, 1 and 2.
const A: u32 = 2;

const B: u32 = 0;

const C: u32 = 1;

fn id(place: u32, page: u32) -> PageId {
    PageId { place, page }
}

// Pages come to a frame, that of the last instance first.
const SHARED: [Step; 19] = [
    Step::Charged(0, 0, 0),
    Step::Bare(5),
    Step::Set(C, 0, Page::Shared(5)),
    Step::Charged(0, 0, 1),
    Step::Set(B, 1, Page::Shared(5)),
    Step::Charged(0, 1, 0),
    Step::Set(A, 1, Page::Shared(5)),
    Step::Charged(1, 0, 0),
    Step::On(5, (A, 1), (C, 0), 3),
    // Another page of the same instance, a lower one.
    Step::Set(B, 0, Page::Shared(5)),
    Step::Charged(1, 0, 0),
    Step::On(5, (A, 1), (C, 0), 4),
    Step::Touched(5, false),
    // A page that another sharer touched counts for the first one.
    Step::Touch(C, 0),
    Step::Active(1, 0, 0),
    Step::Touched(5, true),
    Step::Untouch(C, 0),
    Step::Active(0, 0, 0),
    Step::Touched(5, false),
];

// The first sharer leaves the frame, comes back, goes to another frame, and ends.
const FIRST_GOES: [Step; 25] = [
    Step::Set(B, 0, Page::Shared(5)),
    Step::Set(C, 1, Page::Shared(5)),
    Step::Set(A, 0, Page::Shared(5)),
    Step::Touch(A, 0),
    Step::Active(1, 0, 0),
    Step::Set(A, 0, Page::Swapped(5)),
    Step::Charged(0, 1, 0),
    // The touched page maps to it no longer.
    Step::Active(0, 0, 0),
    Step::On(5, (B, 0), (C, 1), 2),
    Step::Touch(C, 1),
    Step::Set(A, 0, Page::LeavingShared(5)),
    Step::Charged(1, 0, 0),
    Step::Active(1, 0, 0),
    Step::Set(A, 0, Page::Private(4)),
    Step::Charged(1, 1, 0),
    Step::Active(1, 1, 0),
    Step::On(4, (A, 0), (A, 0), 1),
    Step::Clear(A),
    Step::Charged(0, 1, 0),
    Step::Bare(4),
    Step::Clear(B),
    Step::Charged(0, 0, 1),
    Step::Active(0, 0, 1),
    Step::ClearMarks,
    Step::Active(0, 0, 0),
];

// A place is used again: the number decides, and not the place.
const USED_AGAIN: [Step; 20] = [
    Step::Set(A, 0, Page::Shared(5)),
    Step::Set(C, 0, Page::Shared(5)),
    Step::Set(C, 1, Page::Leaving(9)),
    Step::Charged(1, 0, 1),
    Step::Clear(A),
    Step::Charged(0, 0, 2),
    Step::Enter(A, 3, 2),
    Step::Set(A, 1, Page::Shared(5)),
    Step::Charged(0, 0, 2),
    Step::On(5, (C, 0), (A, 1), 2),
    Step::Clear(B),
    Step::Enter(B, 4, 1),
    Step::Set(B, 0, Page::Shared(5)),
    Step::On(5, (C, 0), (B, 0), 3),
    Step::Touch(B, 0),
    Step::Active(0, 0, 1),
    Step::Set(C, 0, Page::Coming(5)),
    Step::Charged(1, 0, 1),
    Step::Active(1, 0, 0),
    Step::On(5, (A, 1), (B, 0), 2),
];

const CASES: usize = SHARED.len() + FIRST_GOES.len() + USED_AGAIN.len();

fn is_charged(kept: &Kept, a: u32, b: u32, c: u32) -> bool {
    let here = |place: u32| kept.counts(place as usize).0;
    here(A) == a && here(B) == b && here(C) == c
}

fn is_active(kept: &Kept, a: u32, b: u32, c: u32) -> bool {
    let here = |place: u32| kept.counts(place as usize).1;
    here(A) == a && here(B) == b && here(C) == c
}

// Whether these are the first and the last page on a frame, of `count`.
fn is_on(
    kept: &Kept,
    alloc: Global,
    frame: u32,
    ends: [Option<PageId>; 2],
    count: usize,
) -> Result<bool, AllocError> {
    let list = kept.list_on(alloc, frame)?;
    let came = [list.last().copied(), list.first().copied()];
    Ok(kept.first_on(frame) == ends[0] && came == ends && list.len() == count)
}

fn is_so(kept: &mut Kept, alloc: Global, step: Step) -> Result<bool, AllocError> {
    let is_so = match step {
        Step::Enter(place, number, pages) => kept.enter(alloc, place as usize, number, pages)?,
        Step::Set(place, page, new) => kept.set(id(place, page), new),
        Step::Touch(place, page) => kept.mark(id(place, page), true),
        Step::Untouch(place, page) => kept.mark(id(place, page), false),
        Step::Clear(place) => kept.clear(place as usize),
        Step::ClearMarks => kept.clear_marks(),
        Step::Charged(a, b, c) => is_charged(kept, a, b, c),
        Step::Active(a, b, c) => is_active(kept, a, b, c),
        Step::On(frame, first, last, count) => {
            let ends = [Some(id(first.0, first.1)), Some(id(last.0, last.1))];
            is_on(kept, alloc, frame, ends, count)?
        }
        Step::Bare(frame) => is_on(kept, alloc, frame, [None, None], 0)?,
        Step::Touched(frame, touched) => kept.has_touched(frame) == touched,
    };
    Ok(is_so)
}

// The first step of a list that came out otherwise, on tables where each instance has two pages.
fn first_wrong(alloc: Global, steps: &[Step]) -> Result<Option<usize>, AllocError> {
    let mut kept = Kept::new(alloc, 3)?;
    for (place, number) in [(B, 1), (C, 2), (A, 0)] {
        kept.enter(alloc, place as usize, number, 2)?;
    }
    for (row, step) in steps.iter().enumerate() {
        if !is_so(&mut kept, alloc, *step)? {
            return Ok(Some(row));
        }
    }
    Ok(None)
}

/// Takes each step: how many they are.
pub fn check(alloc: Global) -> Result<usize> {
    agree("a frame that three share", first_wrong(alloc, &SHARED)?)?;
    agree("the first sharer goes", first_wrong(alloc, &FIRST_GOES)?)?;
    agree("places used again", first_wrong(alloc, &USED_AGAIN)?)?;
    Ok(CASES)
}
