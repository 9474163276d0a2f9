//! A host of many: lives of instances, worked out by hand; and pages that leave for swap and come back, in orders that nobody
//! would choose, with devices that fail, where all that instances see and all that their calls come to is compared with flat
//! memories.
#![tactic(auto)]

mod charging;
mod enrolled;
mod flat;
mod forks;
mod guest;
mod life;
mod lists;
mod lives;
mod looks;
mod modules;
mod paging;
mod pair;
mod rig;
mod seen;
mod store;
mod streams;
mod tickets;
mod trial;
mod unloads;
mod views;

use anyhow::{Context, Result, ensure};
use charging::CHARGING;
use enrolled::{enroll, open_most};
use forks::FORKS;
use life::live;
use lists::{Ends, Seen};
use lives::LIVES;
use paging::PAGING;
use rig::Rig;
use std::alloc::Global;
use streams::run_streams;
use trial::{Counts, Trial};
use unloads::{SESSIONS, UNLOADS, load_and_unload, load_most, run_sessions};
use wh_kernels::{ConstantHash, FnvHash, PageHash};
use wh_space_model::Tax;

const LISTS: u32 = 10000;

// How many events a list has.
const EVENTS: u32 = 150;

// A list of random events, and what comes of it.
fn run_events<H: PageHash>(
    trial: &mut Trial,
    rig: &mut Rig,
    alloc: Global,
    hasher: &H,
) -> Result<()> {
    trial.begin(rig, alloc)?;
    for event in 0..EVENTS {
        trial
            .event(rig, alloc, hasher)
            .context(format_args!("event {event}"))?;
        ensure!(rig.counts_right(), "event {event} is counted wrong");
    }
    trial.end(rig, alloc)
}

// All lists with this tax, under one hash and the other in turn.
fn run_all(trial: &mut Trial, rig: &mut Rig, alloc: Global) -> Result<()> {
    for list in 0..LISTS / 2 {
        let answer = match list % 2 {
            0 => run_events(trial, rig, alloc, &FnvHash),
            _ => run_events(trial, rig, alloc, &ConstantHash),
        };
        answer.context(format_args!("list {list}"))?;
    }
    Ok(())
}

// The random lists, half of them without a tax.
fn run_halves(trial: &mut Trial, alloc: Global) -> Result<()> {
    for tax in [Tax { num: 0, den: 1 }, Tax { num: 3, den: 4 }] {
        let mut rig = Rig::new(alloc, 6, 45, tax)?;
        let answer = run_all(trial, &mut rig, alloc);
        rig.finish();
        answer?;
    }
    Ok(())
}

// All of them: how often each end came.
fn run_trials(alloc: Global) -> Result<Counts> {
    let mut trial = Trial::new(alloc, 0x9E37_79B9_7F4A_7C15);
    let answer = run_halves(&mut trial, alloc);
    let counts = trial.counts;
    answer.map(|()| counts)
}

// Whether ends came that come in any order of these events, and views were read while a ticket was out.
fn look(ends: &Ends, seen: &Seen) -> Result<()> {
    ensure!(
        ends.ended > 0 && ends.stood > 0 && ends.idle > 0,
        "too few turns came to something: {ends:?}"
    );
    ensure!(
        ends.skipped > 0 && ends.hinted > 0,
        "too few offers came to something: {ends:?}"
    );
    ensure!(ends.left > 0 && ends.evicted > 0, "no page left: {ends:?}");
    ensure!(seen.during > 0, "all tickets were back: {seen:?}");
    Ok(())
}

// The lists from their beginning, and after the eviction of the page that is then wanted.
fn run_lists<H: PageHash>(rt: &(impl Print + AllocGlobal), hasher: &H, name: &str) -> Result<()> {
    let (ends, seen) = lists::run(rt.alloc(), hasher, &[])?;
    look(&ends, &seen)?;
    ensure!(ends.void > 0 && ends.failed > 0, "all pages left: {ends:?}");
    println!(rt; "lists, {name}: {ends:?}")?;
    println!(rt; "views compared behind single events: {}", seen.views)?;

    let (ends, seen) = lists::run(rt.alloc(), hasher, &[4, 5, 1])?;
    look(&ends, &seen)?;
    ensure!(
        ends.came > 0 && ends.fetched > 0 && ends.unfetched > 0,
        "no page came: {ends:?}"
    );
    println!(rt; "lists behind an eviction, {name}: {ends:?}")?;
    println!(rt; "views compared behind single events: {}", seen.views)?;
    Ok(())
}

// Whether each end came that random lists ought to meet.
fn look_at(counts: &Counts) -> Result<()> {
    ensure!(
        counts.ended > 100 && counts.again > 100 && counts.stood > 100 && counts.out_of_fuel > 10,
        "too few turns came to something: {counts:?}"
    );
    ensure!(
        counts.evicted > 10 && counts.void > 10 && counts.failed > 10,
        "too few pages left: {counts:?}"
    );
    ensure!(
        counts.fetched > 10 && counts.fetch_void > 0 && counts.fetch_failed > 10,
        "too few pages came: {counts:?}"
    );
    ensure!(
        counts.revoked > 10 && counts.faults > 10 && counts.retried > 10,
        "too few provisions came to something: {counts:?}"
    );
    ensure!(
        counts.merged > 10 && counts.cancelled > 10 && counts.released > 10 && counts.refused > 0,
        "too little happened: {counts:?}"
    );
    Ok(())
}

fn main(rt: HostRuntime) -> Result<()> {
    let alloc = rt.alloc();
    for life in LIVES
        .iter()
        .chain(&PAGING)
        .chain(&CHARGING)
        .chain(&FORKS)
        .chain(&UNLOADS)
    {
        live(alloc, life)?;
    }
    let lives = LIVES.len() + PAGING.len() + CHARGING.len() + FORKS.len() + UNLOADS.len();
    println!(rt; "lives: {lives}")?;
    open_most(alloc)?;
    enroll(alloc)?;
    println!(rt; "calls that are open, and a roll: 2")?;
    load_most(alloc)?;
    load_and_unload(alloc)?;
    run_sessions(alloc)?;
    println!(rt; "random sessions with modules that go: {SESSIONS}")?;
    let steps = run_streams(alloc)?;
    println!(rt; "steps of a device over a stream: {steps}")?;
    run_lists(&rt, &FnvHash, "FNV-1a")?;
    run_lists(&rt, &ConstantHash, "one hash for all")?;
    let counts = run_trials(rt.alloc())?;
    look_at(&counts)?;
    println!(rt; "random lists: {LISTS}")?;
    Ok(())
}
