//! A host that lives: it is asked while its calls run, and stops while it is idle, while it computes, and with no instance.
//!
//! `test_live [NUMBER]` lets it begin and stop so often, and runs so many random sessions, with each number of workers; without a
//! number, 20.
#![tactic(auto)]

mod guests;
mod living;
mod scene;
mod scenes;
mod twins;

use anyhow::Result;
use living::live;
use scenes::Plan;
use std::env;

// With how many workers each plan is tried.
const WORKERS: [usize; 3] = [1, 2, 4];

// How often a host begins and stops with nothing to do, and how many random sessions there are, with each number of workers,
// unless the command line says otherwise.
const SESSIONS: u64 = 20;

// The number on the command line.
fn sessions(rt: HostRuntime) -> Result<u64> {
    let words: Vec<String> = env::args(&rt)?.collect(rt.alloc())?;
    match words.get(1) {
        Some(word) => Ok(word.parse()?),
        None => Ok(SESSIONS),
    }
}

fn main(rt: HostRuntime) -> Result<()> {
    let plans = [
        Plan::Little,
        Plan::Forever,
        Plan::Cancels,
        Plan::Releases,
        Plan::Pass,
        Plan::Wakes,
    ];
    let sessions = sessions(rt)?;
    for workers in WORKERS {
        for _ in 0..sessions {
            live(rt, workers, Plan::Nothing)?;
        }
        for plan in plans {
            live(rt, workers, plan)?;
        }
        for session in 0..sessions {
            live(rt, workers, Plan::Random(session + 1))?;
        }
        println!(rt; "{workers} workers: {sessions} stops, {sessions} sessions, and all plans")?;
    }
    Ok(())
}
