//! Page tables of `wh_pages`, which may come to 300 pages: what is done to them, and what they show then.

use crate::tables::agree;
use anyhow::Result;
use std::alloc::{AllocError, Global};
use wh_pages::PageTable;
use wh_space_model::Page;

// What is done, or what has to be shown.
#[derive(Clone, Copy)]
enum Step {
    // This many pages are added: whether they fit.
    Grow(u32, bool),
    // The page at a place becomes this one.
    Set(u32, Page),
    // The page at a place is touched.
    Touch(u32),
    // All pages go.
    Clear,
    // A new epoch begins.
    ClearTouched,
    // How many pages there are.
    Len(u32),
    // How many there may be.
    Max(u32),
    // The page at a place.
    Page(u32, Page),
    // Whether the page at a place is touched.
    Touched(u32, bool),
}

const IN_TWO_LEAVES: [Step; 10] = [
    Step::Len(0),
    Step::Max(300),
    Step::Grow(257, true),
    Step::Set(0, Page::Private(7)),
    Step::Set(255, Page::Shared(8)),
    Step::Set(256, Page::Swapped(9)),
    Step::Page(0, Page::Private(7)),
    Step::Page(1, Page::Untouched),
    Step::Page(255, Page::Shared(8)),
    Step::Page(256, Page::Swapped(9)),
];

const TO_THE_LIMIT: [Step; 14] = [
    Step::Grow(257, true),
    Step::Grow(44, false),
    Step::Len(257),
    Step::Grow(43, true),
    Step::Grow(0, true),
    Step::Grow(1, false),
    Step::Len(300),
    // What the room held before does not come back.
    Step::Set(299, Page::Leaving(1)),
    Step::Touch(299),
    Step::Clear,
    Step::Len(0),
    Step::Grow(300, true),
    Step::Page(299, Page::Untouched),
    Step::Touched(299, false),
];

const IN_AN_EPOCH: [Step; 10] = [
    Step::Grow(300, true),
    Step::Set(256, Page::Coming(3)),
    Step::Touch(256),
    Step::Touched(256, true),
    Step::Touched(0, false),
    Step::Set(256, Page::LeavingShared(4)),
    Step::Touched(256, true),
    Step::ClearTouched,
    Step::Touched(256, false),
    Step::Page(256, Page::LeavingShared(4)),
];

const CASES: usize = IN_TWO_LEAVES.len() + TO_THE_LIMIT.len() + IN_AN_EPOCH.len();

fn is_set(table: &mut PageTable, at: u32, page: Page) -> bool {
    if at >= table.len() {
        return false;
    }
    table.set(at, page);
    true
}

fn is_marked(table: &mut PageTable, at: u32) -> bool {
    if at >= table.len() {
        return false;
    }
    table.touch(at);
    true
}

fn is_clear(table: &mut PageTable) -> bool {
    table.clear();
    true
}

fn has_new_epoch(table: &mut PageTable) -> bool {
    table.clear_touched();
    true
}

fn is_page(table: &PageTable, at: u32, page: Page) -> bool {
    at < table.len() && table.page(at) == page
}

fn is_touched(table: &PageTable, at: u32, touched: bool) -> bool {
    at < table.len() && table.is_touched(at) == touched
}

fn is_so(table: &mut PageTable, step: Step) -> bool {
    match step {
        Step::Grow(count, fits) => table.grow(count) == fits,
        Step::Set(at, page) => is_set(table, at, page),
        Step::Touch(at) => is_marked(table, at),
        Step::Clear => is_clear(table),
        Step::ClearTouched => has_new_epoch(table),
        Step::Len(len) => table.len() == len,
        Step::Max(max) => table.max() == max,
        Step::Page(at, page) => is_page(table, at, page),
        Step::Touched(at, touched) => is_touched(table, at, touched),
    }
}

// The first step of a list, on a table without pages, that came out otherwise.
fn first_wrong(alloc: Global, steps: &[Step]) -> Result<Option<usize>, AllocError> {
    let mut table = PageTable::new(alloc, 300)?;
    for (row, step) in steps.iter().enumerate() {
        if !is_so(&mut table, *step) {
            return Ok(Some(row));
        }
    }
    Ok(None)
}

/// Takes each step: how many they are.
pub fn check(alloc: Global) -> Result<usize> {
    agree("pages in two leaves", first_wrong(alloc, &IN_TWO_LEAVES)?)?;
    agree("growth to the limit", first_wrong(alloc, &TO_THE_LIMIT)?)?;
    agree("marks of an epoch", first_wrong(alloc, &IN_AN_EPOCH)?)?;
    Ok(CASES)
}
