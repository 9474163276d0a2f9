//! One memory of `wh_flatmem`, of a page that may become two: what each step gives.

use crate::tables::agree;
use anyhow::Result;
use std::alloc::Global;
use wh_flatmem::FlatMemory;
use wh_linmem::LinearMem;
use wh_model::{Got, Grown};

// What is done, and what has to come of it.
#[derive(Clone, Copy)]
enum Step {
    // Four bytes are read from here on, over four nines.
    Load(u64, Got, [u8; 4]),
    // These bytes are written from here on.
    Store(u64, [u8; 4], Got),
    // These are written and read quickly: whether each was done, and what was read over four nines.
    Quick(u64, [u8; 4], bool, bool, [u8; 4]),
    // This many pages are added: how many there are before and after it.
    Grow(u32, u32, Grown, u32),
    // How many bytes there are.
    Len(usize),
}

const STEPS: [Step; 13] = [
    Step::Load(65532, Got::Value, [0, 0, 0, 1]),
    Step::Load(65533, Got::Trap, [9; 4]),
    Step::Load(u64::MAX, Got::Trap, [9; 4]),
    Step::Store(65533, [2; 4], Got::Trap),
    Step::Grow(2, 1, Grown::Refused, 1),
    Step::Grow(1, 1, Grown::Done(1), 2),
    Step::Store(65533, [2, 3, 4, 5], Got::Value),
    Step::Load(65534, Got::Value, [3, 4, 5, 0]),
    Step::Quick(131064, [6; 4], true, true, [6; 4]),
    // One of the last seven bytes: it is in the memory, and left to the slow path.
    Step::Quick(131065, [7; 4], false, false, [9; 4]),
    Step::Load(131064, Got::Value, [6; 4]),
    Step::Len(131072),
    Step::Grow(0, 2, Grown::Done(2), 2),
];

fn loads<M: LinearMem>(memory: &mut M, at: u64, got: Got, read: [u8; 4]) -> bool {
    let mut word = [9; 4];
    memory.load(at, &mut word) == got && word == read
}

fn stores<M: LinearMem>(memory: &mut M, at: u64, given: [u8; 4], got: Got) -> bool {
    memory.store(at, &given) == got
}

// What was written and read quickly.
fn quickly<M: LinearMem>(memory: &mut M, at: u64, given: [u8; 4]) -> (bool, bool, [u8; 4]) {
    let mut word = [9; 4];
    let stored = memory.quick_store(at, &given);
    let loaded = memory.quick_load(at, &mut word);
    (stored, loaded, word)
}

fn grows<M: LinearMem>(memory: &mut M, pages: u32) -> (u32, Grown, u32) {
    let before = memory.size();
    let grown = memory.grow(pages);
    (before, grown, memory.size())
}

fn is_so(memory: &mut FlatMemory, step: Step) -> bool {
    match step {
        Step::Load(at, got, read) => loads(memory, at, got, read),
        Step::Store(at, given, got) => stores(memory, at, given, got),
        Step::Quick(at, given, stored, loaded, read) => quickly(memory, at, given)
            == (stored, loaded, read),
        Step::Grow(pages, before, grown, behind) => grows(memory, pages) == (before, grown, behind),
        Step::Len(len) => memory.bytes().len() == len,
    }
}

fn first_wrong(memory: &mut FlatMemory) -> Option<usize> {
    for (row, step) in STEPS.iter().enumerate() {
        if !is_so(memory, *step) {
            return Some(row);
        }
    }
    None
}

/// Takes each step: how many they are.
pub fn check(alloc: Global) -> Result<usize> {
    let mut memory = FlatMemory::new(alloc, 1, 2)?;
    memory.write(65535, &[1]);
    agree("flat memory", first_wrong(&mut memory))?;
    Ok(STEPS.len())
}
