//! Journals of `wh_journal`: what is done to them, and what they show then.

use crate::tables::agree;
use anyhow::Result;
use std::alloc::{AllocError, Global};
use wh_journal::{CallEnd, Journal, JournalCall};
use wh_model::Trap;

// What a journal shows of a call: its function, its fuel, its pieces and charges, and its end.
type Shown = (Option<u32>, u64, (u64, u64), CallEnd);

// What is done, or what has to be shown.
#[derive(Clone, Copy)]
enum Step {
    // A call of this function with this fuel is queued.
    Push(u32, u64),
    // The present call writes this many pieces more, and takes this many charges more.
    Go(u32, u32),
    // The present call is given this much fuel more.
    Refuel(u64),
    // The present call ends so.
    End(CallEnd),
    // It ends so, and all others with it.
    EndAll(CallEnd),
    // Whether no call is open.
    Idle(bool),
    // The present call.
    Present(Option<Shown>),
    // The call at a place.
    Call(usize, Option<Shown>),
    // How many calls there are, have ended, and are open.
    Len(usize),
    Ended(usize),
    Open(usize),
}

// Calls end in the order in which they came.
const IN_ORDER: [Step; 16] = [
    Step::Push(5, 10),
    Step::Push(6, 20),
    Step::Push(7, 30),
    Step::Go(2, 3),
    Step::Go(1, 4),
    Step::Present(Some((Some(5), 10, (3, 7), CallEnd::Open))),
    Step::Idle(false),
    Step::End(CallEnd::Returned(Some(8))),
    Step::Call(0, Some((Some(5), 10, (3, 7), CallEnd::Returned(Some(8))))),
    Step::Present(Some((Some(6), 20, (0, 0), CallEnd::Open))),
    Step::Len(3),
    Step::Ended(1),
    Step::Open(2),
    Step::Push(8, 40),
    Step::Call(3, Some((Some(8), 40, (0, 0), CallEnd::Open))),
    Step::Call(4, None),
];

// Calls that wait are dead at the end.
const AT_THE_END: [Step; 13] = [
    Step::Push(5, 10),
    Step::Push(6, 20),
    Step::Push(7, 30),
    Step::Go(0, 9),
    Step::Idle(false),
    Step::EndAll(CallEnd::Trapped(Trap::Overflow)),
    Step::Call(
        0,
        Some((Some(5), 10, (0, 9), CallEnd::Trapped(Trap::Overflow))),
    ),
    Step::Call(1, Some((Some(6), 20, (0, 0), CallEnd::Dead))),
    Step::Call(2, Some((Some(7), 30, (0, 0), CallEnd::Dead))),
    Step::Idle(true),
    Step::Present(None),
    Step::Ended(3),
    Step::Open(0),
];

// Fuel stops at the greatest number.
const REFUELLED: [Step; 11] = [
    Step::Idle(true),
    Step::Len(0),
    Step::Push(5, 10),
    Step::Idle(false),
    Step::Refuel(90),
    Step::Present(Some((Some(5), 100, (0, 0), CallEnd::Open))),
    Step::Idle(false),
    Step::Refuel(u64::MAX - 100),
    Step::Idle(false),
    Step::Refuel(1),
    Step::Present(Some((Some(5), u64::MAX, (0, 0), CallEnd::Open))),
];

const CASES: usize = IN_ORDER.len() + AT_THE_END.len() + REFUELLED.len();

fn push(alloc: Global, journal: &mut Journal, func: u32, fuel: u64) -> Result<bool, AllocError> {
    let given = vec![in alloc; -1, 7]?;
    let words = vec![in alloc; 4294967295, 7]?;
    journal.push(JournalCall::new(Some(func), given, words, fuel))?;
    Ok(true)
}

// Says how much further the present call has come, where there is one and the sums are small.
fn has_gone(journal: &mut Journal, pieces: u32, charges: u32) -> bool {
    let Some(call) = journal.present() else {
        return false;
    };
    if call.pieces() > 1000 || call.charges() > 1000 {
        return false;
    }
    journal.go_further(pieces as u64, charges as u64);
    true
}

fn is_refuelled(journal: &mut Journal, fuel: u64) -> bool {
    if journal.is_idle() {
        return false;
    }
    journal.refuel(fuel);
    true
}

fn has_ended(journal: &mut Journal, end: CallEnd) -> bool {
    if journal.is_idle() {
        return false;
    }
    journal.end_present(end);
    true
}

fn all_have_ended(journal: &mut Journal, end: CallEnd) -> bool {
    if journal.is_idle() {
        return false;
    }
    journal.end_all(end);
    true
}

fn is_shown(call: Option<&JournalCall>, shown: Option<Shown>) -> bool {
    match (call, shown) {
        (Some(call), Some((func, fuel, came, end))) => call.func() == func
            && call.fuel() == fuel
            && (call.pieces(), call.charges()) == came
            && call.end() == end,
        (None, None) => true,
        _ => false,
    }
}

fn is_so(alloc: Global, journal: &mut Journal, step: Step) -> Result<bool, AllocError> {
    match step {
        Step::Push(func, fuel) => push(alloc, journal, func, fuel),
        Step::Go(pieces, charges) => Ok(has_gone(journal, pieces, charges)),
        Step::Refuel(fuel) => Ok(is_refuelled(journal, fuel)),
        Step::End(end) => Ok(has_ended(journal, end)),
        Step::EndAll(end) => Ok(all_have_ended(journal, end)),
        Step::Idle(idle) => Ok(journal.is_idle() == idle),
        Step::Present(shown) => Ok(is_shown(journal.present(), shown)),
        Step::Call(at, shown) => Ok(is_shown(journal.call(at), shown)),
        Step::Len(len) => Ok(journal.len() == len),
        Step::Ended(len) => Ok(journal.ended_len() == len),
        Step::Open(len) => Ok(journal.open_len() == len),
    }
}

// The first step of a list, on a journal without calls, that came out otherwise.
fn first_wrong(alloc: Global, steps: &[Step]) -> Result<Option<usize>, AllocError> {
    let mut journal = Journal::new(alloc);
    for (row, step) in steps.iter().enumerate() {
        if !is_so(alloc, &mut journal, *step)? {
            return Ok(Some(row));
        }
    }
    Ok(None)
}

/// Takes each step: how many they are.
pub fn check(alloc: Global) -> Result<usize> {
    agree("calls in order", first_wrong(alloc, &IN_ORDER)?)?;
    agree("calls at the end", first_wrong(alloc, &AT_THE_END)?)?;
    agree("calls that are refuelled", first_wrong(alloc, &REFUELLED)?)?;
    Ok(CASES)
}
