//! Turns of two instances at once, and the same turns one after the other on another host: all comes to the same.
#![tactic(auto)]

mod guest;
mod pair;
mod twins;

use anyhow::{Result, ensure};
use std::alloc::Global;
use twins::{Counts, Twins};
use wh_host::{InOrder, RoundRunner};
use wh_scheduler::AtOnce;

// How many rounds there are, and how many frames: enough for all pages, and too few.
const ROUNDS: u32 = 1000;

const FRAMES: [u32; 2] = [40, 6];

// For how many pages runners have marks: for all of a memory, and for the lower half.
const PAGES: [usize; 2] = [16, 8];

// Whether each end came, of turns that were taken at once too.
fn look_at(counts: &Counts) -> Result<()> {
    ensure!(
        counts.ended > 50 && counts.again > 50 && counts.cut > 10 && counts.several > 50,
        "too few turns were taken at once: {counts:?}"
    );
    ensure!(
        counts.rounds > 200 && counts.turns > 400 && counts.wanted > 100,
        "too few turns were taken in rounds: {counts:?}"
    );
    ensure!(
        counts.both > 50,
        "all runners had instances, or none: {counts:?}"
    );
    Ok(())
}

// Runs the rounds of two instances on `frames` frames, with marks for `pages` pages.
fn run<F: RoundRunner>(alloc: Global, fork: &F, frames: u32, pages: usize) -> Result<()>
    requires { F.can fork.now }
{
    let mut twins = Twins::new(alloc, frames, pages, 0x9E37_79B9_7F4A_7C15)?;
    twins.run(alloc, fork, ROUNDS)?;
    look_at(&twins.counts)
}

fn main(rt: HostRuntime) -> Result<()> {
    let alloc = rt.alloc();
    for frames in FRAMES {
        for pages in PAGES {
            run(alloc, &InOrder, frames, pages)?;
            run(alloc, &AtOnce::new(&rt, 2), frames, pages)?;
        }
    }
    println!(rt; "rounds: {ROUNDS}, by one thread and by two, with many frames and with few")?;
    Ok(())
}
