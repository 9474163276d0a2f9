//! Two frames of `wh_frames`, taken and given back; and the faults.

use crate::tables::{agree, first_other};
use anyhow::Result;
use std::alloc::{AllocError, Global};
use wh_frames::{FrameError, FramePool};

// The last byte of the first frame, of the second one, and of the one that is taken again; how many frames are free and
// used while both are taken, and once one was given back.
const NUMBERS: [u32; 7] = [7, 0, 7, 0, 2, 1, 1];

// Two frames are two; a third is refused; and the one that was given back is taken again.
const ANSWERS: [bool; 3] = [true, true, true];

const FAULTS: [(FrameError, u8, &str); 2] = [
    (FrameError::NoFrame, 1, "no frame is free"),
    (FrameError::Memory, 2, "a growth of memory was refused"),
];

fn taken_and_given(alloc: Global) -> Result<([u32; 7], [bool; 3]), FrameError> {
    let mut pool = FramePool::new(alloc, 2)?;
    let first = pool.take()?;
    pool.bytes_mut(first)[4095] = 7;
    let second = pool.take()?;
    let bytes = (pool.bytes(first)[4095], pool.bytes(second)[4095]);
    let full = (pool.free(), pool.used());
    let refused = pool.take();
    pool.give(first);
    let given = (pool.free(), pool.used());
    let again = pool.take()?;
    let byte = pool.bytes(again)[4095];
    let numbers = [
        u32::from(bytes.0),
        u32::from(bytes.1),
        u32::from(byte),
        full.0,
        full.1,
        given.0,
        given.1,
    ];
    let answers = [
        first != second,
        refused == Err(FrameError::NoFrame),
        again == first,
    ];
    Ok((numbers, answers))
}

fn wrong_fault(alloc: Global) -> Result<Option<usize>, AllocError> {
    for (row, (fault, number, message)) in FAULTS.iter().enumerate() {
        let text = fault.to_string(alloc)?;
        if fault.number() != *number || text.as_str() != *message {
            return Ok(Some(row));
        }
    }
    Ok(None)
}

/// Looks at each answer: how many they are.
pub fn check(alloc: Global) -> Result<usize> {
    let (numbers, answers) = taken_and_given(alloc)?;
    agree("numbers of frames", first_other(&numbers, &NUMBERS))?;
    agree("frames taken", first_other(&answers, &ANSWERS))?;
    agree("faults of frames", wrong_fault(alloc)?)?;
    Ok(NUMBERS.len() + ANSWERS.len() + 2 * FAULTS.len())
}
