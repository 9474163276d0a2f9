//! Tests the memory on which all instances lie.
//!
//! First it does the same to four memories on shared frames and to four flat ones, and compares all that is seen: 10000
//! random loads, stores, growths and offers, and between them what two do at once in overlays, which are then
//! written back. Pages are offered under their own hash alone, and again under others' too; each list once under FNV-1a
//! and once under the hash that is 0 for each page. Every 250 steps all bytes are compared, and the sums of frames; and
//! every 1000, where all hashes were right, all pages are offered, and the frames in use counted.
//!
//! Instances are copied at random too, beside flat copies: copies and those that they are copies of are written,
//! offered and released, and after each pass no frame is shared without an entry.
//!
//! Then it goes through tables that were worked out by hand: what is done, row by row, and what has to come of it.
//!
//! It prints a line for each list and each table. The status is 1 where anything differs, or an answer of an offer that
//! a list ought to meet never came.
#![tactic(auto)]

mod access;
mod arrivals;
mod beside;
mod copies;
mod ground;
mod leaving;
mod offers;
mod paging;
mod same;
mod sharing;
mod steps;
mod tables;
mod taxes;
mod told;
mod trial;
mod views;

use anyhow::{Context, Result, ensure};
use std::alloc::Global;
use trial::{Counts, Trial};
use wh_kernels::{ConstantHash, FnvHash, PageHash};

const STEPS: u32 = 10000;

// Takes all steps of a list.
fn take_steps<H: PageHash>(
    trial: &mut Trial,
    alloc: Global,
    hasher: &H,
    astray: bool,
    exactly: bool,
) -> Result<()> {
    trial.begin(alloc)?;
    for step in 0..STEPS {
        trial
            .step(alloc, hasher, astray)
            .context(format_args!("step {step}"))?;
        if step % 250 == 249 {
            trial.compare()?;
            if !astray && step % 1000 == 999 {
                trial.scan(alloc, hasher, exactly)?;
                trial.compare()?;
            }
        }
    }
    Ok(())
}

// A list, and how often each answer came.
fn run<H: PageHash>(alloc: Global, hasher: &H, astray: bool, exactly: bool) -> Result<Counts> {
    let mut trial = Trial::new(alloc)?;
    let answer = take_steps(&mut trial, alloc, hasher, astray, exactly);
    let counts = trial.finish();
    answer?;
    Ok(counts)
}

// Whether answers came that come under any hash, and stores that found no frame.
fn look(counts: &Counts) -> Result<()> {
    ensure!(
        counts.skipped > 100 && counts.zeroed > 10 && counts.hinted > 100,
        "too few offers came to something: {counts:?}"
    );
    ensure!(
        counts.merged > 50 && counts.not_ready > 100,
        "too few pages were merged, or stores refused: {counts:?}"
    );
    ensure!(
        counts.laid > 100 && counts.not_beside > 100 && counts.took > 5,
        "too little was done beside the memory: {counts:?}"
    );
    Ok(())
}

fn main(rt: HostRuntime) -> Result<()> {
    let alloc = rt.alloc();

    let counts = run(alloc, &FnvHash, false, true)?;
    look(&counts)?;
    ensure!(counts.stale > 0 && counts.false_match == 0, "{counts:?}");
    println!(rt; "FNV-1a, right hashes: {STEPS} steps agree")?;

    let counts = run(alloc, &FnvHash, true, false)?;
    look(&counts)?;
    ensure!(counts.stale > 0 && counts.false_match > 10, "{counts:?}");
    println!(rt; "FNV-1a, others' hashes too: {STEPS} steps agree")?;

    // Under one hash there is one entry at a time.
    let counts = run(alloc, &ConstantHash, false, false)?;
    ensure!(counts.hinted > 0 && counts.merged > 10, "{counts:?}");
    ensure!(counts.stale == 0 && counts.false_match > 100, "{counts:?}");
    println!(rt; "one hash for all: {STEPS} steps agree")?;

    let counts = run(alloc, &ConstantHash, true, false)?;
    ensure!(counts.hinted > 0 && counts.merged > 10, "{counts:?}");
    ensure!(counts.stale > 0 && counts.false_match > 100, "{counts:?}");
    println!(rt; "one hash for all, others too: {STEPS} steps agree")?;

    copies::run(&rt)?;

    tables::run(&rt)?;
    paging::run(&rt)
}
