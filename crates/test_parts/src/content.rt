//! Content tables of `wh_content`: which entry is found under a hash.

use crate::tables::{agree, first_other};
use anyhow::{Result, ensure};
use std::alloc::{AllocError, Global};
use wh_content::{ContentEntry, Table};
use wh_space_model::Mark;

const HINT: ContentEntry = ContentEntry::Hint {
    frame: 1,
    place: 8,
    page: 9,
};

const SHARED: ContentEntry = ContentEntry::Shared {
    frame: 2,
    sharers: 2,
};

const OTHER: ContentEntry = ContentEntry::Hint {
    frame: 0,
    place: 5,
    page: 6,
};

const NEWER: ContentEntry = ContentEntry::Hint {
    frame: 2,
    place: 0,
    page: 1,
};

// Under 7 in a table without entries; under 3, 7, 11 and 15, of which the first three have one and fall into one bucket
// of 4; and under 3, 7 and 11 once the one in the middle of the chain is gone.
const BY_HASH: [Option<ContentEntry>; 8] = [
    None,
    Some(HINT),
    Some(SHARED),
    Some(OTHER),
    None,
    None,
    Some(SHARED),
    Some(OTHER),
];

// Of one frame: under its old hash and its new one, once it is shared, and once no page shares it any more.
const OF_ONE_FRAME: [Option<ContentEntry>; 4] = [None, Some(NEWER), Some(SHARED), None];

// What there is of a frame without an entry, of one that a single page shares, and of one that none shares any more.
const MARKS: [Mark; 3] = [
    Mark::Plain,
    Mark::Sharers { hash: 2, count: 1 },
    Mark::Plain,
];

fn found_by_hash(alloc: Global) -> Result<(Mark, [Option<ContentEntry>; 8]), AllocError> {
    let mut table = Table::new(alloc, 4)?;
    let mark = table.mark(3);
    let at_first = table.look(7);
    table.set_hint(1, 3, 8, 9);
    table.share(2, 7, 2);
    table.set_hint(0, 11, 5, 6);
    let all = (table.look(3), table.look(7), table.look(11), table.look(15));
    table.forget_frame(1);
    let left = (table.look(3), table.look(7), table.look(11));
    let found = [at_first, all.0, all.1, all.2, all.3, left.0, left.1, left.2];
    Ok((mark, found))
}

fn found_of_one_frame(alloc: Global) -> Result<([Mark; 2], [Option<ContentEntry>; 4]), AllocError> {
    let mut table = Table::new(alloc, 3)?;
    table.set_hint(2, 1, 0, 0);
    table.set_hint(2, 2, 0, 1);
    let hints = (table.look(1), table.look(2));
    table.share(2, 2, 2);
    let shared = table.look(2);
    table.drop_sharer(2);
    let single = table.mark(2);
    table.drop_sharer(2);
    let marks = [single, table.mark(2)];
    Ok((marks, [hints.0, hints.1, shared, table.look(2)]))
}

// Whether nothing is found in a table without frames.
fn finds_nothing(alloc: Global) -> Result<bool, AllocError> {
    let table = Table::new(alloc, 0)?;
    Ok(table.look(7) == None)
}

/// Looks at each answer: how many they are.
pub fn check(alloc: Global) -> Result<usize> {
    let (plain, by_hash) = found_by_hash(alloc)?;
    let (marks, of_one_frame) = found_of_one_frame(alloc)?;
    agree("entries by hash", first_other(&by_hash, &BY_HASH))?;
    agree(
        "entries of a frame",
        first_other(&of_one_frame, &OF_ONE_FRAME),
    )?;
    agree("marks", first_other(&[plain, marks[0], marks[1]], &MARKS))?;
    ensure!(finds_nothing(alloc)?, "a table without frames has an entry");
    Ok(BY_HASH.len() + OF_ONE_FRAME.len() + MARKS.len() + 1)
}
