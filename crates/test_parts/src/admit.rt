//! Admissions of `wh_admit` at the bounds of what is admitted, and of modules that fit and that don't.

use crate::tables::agree;
use anyhow::{Result, ensure};
use std::alloc::{AllocError, Global};
use wh_admit::{AdmitError, Admitted, Params, Quota, Room, admit};
use wh_imports::Linked;
use wh_load::load;

// A module in which nothing is.
const EMPTY: [u8; 8] = [0x00, 0x61, 0x73, 0x6d, 0x01, 0x00, 0x00, 0x00];

// A module whose memory begins with one page, with two bytes that belong to its last two.
const LAST_BYTES: [u8; 25] = [
    0x00, 0x61, 0x73, 0x6d, 0x01, 0x00, 0x00, 0x00, 0x05, 0x03, 0x01, 0x00, 0x01, 0x0b, 0x0a, 0x01,
    0x00, 0x41, 0xfe, 0xff, 0x03, 0x0b, 0x02, 0xaa, 0xbb,
];

// The same with the two bytes one further.
const PAST_BYTES: [u8; 25] = [
    0x00, 0x61, 0x73, 0x6d, 0x01, 0x00, 0x00, 0x00, 0x05, 0x03, 0x01, 0x00, 0x01, 0x0b, 0x0a, 0x01,
    0x00, 0x41, 0xff, 0xff, 0x03, 0x0b, 0x02, 0xaa, 0xbb,
];

// Shares, and the least and the greatest number of frames; how many frames and slots are left, and how many instances
// are live; and the number of the fault, 0 where there is none.
type Case = ((u64, u64, u64), (u64, u64, usize), u8);

// Of a module that fits: each number at its bounds and beyond them.
const BOUNDS: [Case; 13] = [
    ((0, 2, 2), (2, 1, 0), 2),
    ((1, 2, 2), (2, 1, 0), 0),
    ((1_000_000, 2, 2), (2, 1, 0), 0),
    ((1_000_001, 2, 2), (2, 1, 0), 2),
    ((1, 1, 2), (2, 2, 0), 3),
    ((1, 3, 2), (3, 1, 0), 3),
    ((1, 2, 65536), (2, 65535, 0), 0),
    ((1, 2, 65537), (2, 65536, 0), 3),
    ((1, 2, 2), (1, 1, 0), 4),
    ((1, 2, 5), (2, 3, 0), 5),
    ((1, 2, 5), (2, 4, 0), 0),
    ((1, 2, 2), (2, 1, 4095), 0),
    ((1, 2, 2), (2, 1, 4096), 6),
];

// Of a module whose bytes don't fit: of several faults the first is named.
const FIRST_FAULTS: [Case; 7] = [
    ((0, 1, 0), (0, 0, 4096), 2),
    ((1, 1, 0), (0, 0, 4096), 3),
    ((1, 2, 15), (0, 0, 4096), 4),
    ((1, 2, 15), (2, 0, 4096), 5),
    ((1, 2, 15), (2, 14, 4096), 6),
    ((1, 2, 15), (2, 14, 0), 7),
    ((1, 2, 16), (2, 15, 0), 8),
];

// What an owner gives: these shares and numbers of frames, and two words.
fn given(alloc: Global, numbers: (u64, u64, u64)) -> Result<Params, AllocError> {
    let (shares, min, max) = numbers;
    let inputs = vec![in alloc; 5, 6]?;
    Ok(Params {
        quota: Quota {
            shares,
            min_frames: min,
            max_frames: max,
        },
        fuel: 1000,
        base: 7,
        salt: 8,
        inputs,
    })
}

// How many frames and slots are left, and how many instances are live.
fn left(numbers: (u64, u64, usize)) -> Room {
    let (frames, slots, live) = numbers;
    Room {
        frames,
        slots,
        live,
    }
}

// The number of its fault, 0 where there is none.
fn fault(admission: Result<Admitted, AdmitError>) -> u8 {
    admission.map_err(AdmitError::number).err().unwrap_or(0)
}

// The first case of these that comes out otherwise. Without a module each has the fault 1.
fn first_wrong(
    alloc: Global,
    linked: Option<&Linked>,
    cases: &[Case],
) -> Result<Option<usize>, AllocError> {
    for (row, (numbers, room, number)) in cases.iter().enumerate() {
        let params = given(alloc, *numbers)?;
        let wanted = if linked.is_some() { *number } else { 1 };
        if fault(admit(alloc, linked, params, left(*room))) != wanted {
            return Ok(Some(row));
        }
    }
    Ok(None)
}

// The first case of these that comes out otherwise, of the module of these bytes.
fn first_wrong_of(alloc: Global, bytes: &[u8], cases: &[Case]) -> Result<Option<usize>> {
    let linked = load(alloc, bytes)?;
    Ok(first_wrong(alloc, Some(&linked), cases)?)
}

// An instance of the module whose bytes just fit.
fn admitted(alloc: Global) -> Result<Admitted> {
    let linked = load(alloc, &LAST_BYTES)?;
    let params = given(alloc, (3, 2, 47))?;
    Ok(admit(alloc, Some(&linked), params, left((9, 99, 1)))?)
}

// Whether it has what its owner gives it.
fn has_what_is_given(admitted: &Admitted) -> bool {
    let begun = &admitted.begun;
    (admitted.shares, admitted.min, admitted.max, admitted.fuel) == (3, 2, 47, 1000)
        && (begun.pages, begun.page_limit) == (1, 2)
        && begun.places.as_slice() == [65534].as_slice()
        && begun.store.inputs.as_slice() == [5, 6].as_slice()
}

/// Looks at each admission: how many they are.
pub fn check(alloc: Global) -> Result<usize> {
    agree("bounds", first_wrong_of(alloc, &EMPTY, &BOUNDS)?)?;
    agree("faults", first_wrong_of(alloc, &PAST_BYTES, &FIRST_FAULTS)?)?;
    agree("no module", first_wrong(alloc, None, &FIRST_FAULTS)?)?;
    ensure!(has_what_is_given(&admitted(alloc)?), "it has other numbers");
    Ok(BOUNDS.len() + 2 * FIRST_FAULTS.len() + 1)
}
