//! What a turn costs, by how many instances there are.

use crate::clock::since;
use anyhow::{Context, Result, ensure};
use std::alloc::Global;
use std::time::CpuClock;
use wh_host::{Host, ModuleId, Params, Quota};
use wh_host_model::TurnEnd;
use wh_space_model::{InstId, Tax};

// How many instances with a call are many. One more has none: then there are as many as a host takes.
const MANY: usize = 4095;

// How many turns are timed at once.
const TURNS: u32 = 204750;

const ROUNDS: u32 = 5;

// `f` goes round for ever, a charge each time; there is a memory of one page.
const ENDLESS: [u8; 41] = [
    0x00, 0x61, 0x73, 0x6d, 0x01, 0x00, 0x00, 0x00, 0x01, 0x04, 0x01, 0x60, 0x00, 0x00, 0x03, 0x02,
    0x01, 0x00, 0x05, 0x03, 0x01, 0x00, 0x01, 0x07, 0x05, 0x01, 0x01, 0x66, 0x00, 0x00, 0x0a, 0x09,
    0x01, 0x07, 0x00, 0x03, 0x40, 0x0c, 0x00, 0x0b, 0x0b,
];

// A host, and its instances by their numbers, each with a call that never ends but the last, which has none.
#[derive(Drop)]
struct Crowd {
    host: Host,
    ids: Vec<InstId>,
}

fn admit(alloc: Global, host: &mut Host, module: ModuleId) -> Result<InstId> {
    let params = Params {
        quota: Quota {
            shares: 100,
            min_frames: 2,
            max_frames: 16,
        },
        fuel: 0,
        base: 0,
        salt: 0,
        inputs: Vec::new(alloc),
    };
    Ok(host.admit(alloc, module, params)?)
}

// A host without instances.
fn empty_crowd(alloc: Global) -> Result<Crowd> {
    Ok(Crowd {
        host: Host::new(alloc, 65536, 65536, Tax { num: 3, den: 4 })?,
        ids: Vec::new(alloc),
    })
}

// Admits `count` instances with a call, and one without.
fn fill(alloc: Global, crowd: &mut Crowd, count: usize) -> Result<()> {
    let Crowd { host, ids } = crowd;
    let module = host.load(alloc, &ENDLESS)?;
    for _ in 0..count {
        let id = admit(alloc, host, module)?;
        host.invoke(alloc, id, "f", &[], u64::MAX)?;
        ids.push(id)?;
    }
    let idle = admit(alloc, host, module)?;
    ids.push(idle)?;
    Ok(())
}

// The instance of this number.
fn nth(ids: &[InstId], number: usize) -> Result<InstId> {
    ids.get(number).copied().context("nobody has the number")
}

// Runs turns of `quantum` charges of the first `among` instances one after another. Returns the time of a turn, in
// picoseconds.
fn round(rt: &impl CpuClock, crowd: &mut Crowd, among: usize, quantum: u64) -> Result<u128> {
    let Crowd { host, ids } = crowd;
    ensure!(among > 0, "nobody gets turns");
    let before = rt.thread_cpu_time()?;
    let mut at = 0;
    for _ in 0..TURNS {
        let (end, _) = host.turn(nth(ids, at)?, quantum);
        ensure!(end == TurnEnd::Again, "a turn came to {end:?}");
        at = if at < among - 1 { at + 1 } else { 0 };
    }
    Ok(1000 * since(rt, before)?.as_nanos() / u128::from(TURNS))
}

// Turns to an instance that has no call.
fn empty_round(rt: &impl CpuClock, crowd: &mut Crowd) -> Result<u128> {
    let Crowd { host, ids } = crowd;
    let idle = ids.last().copied().context("nobody is idle")?;
    let before = rt.thread_cpu_time()?;
    for _ in 0..TURNS {
        let (end, _) = host.turn(idle, 100);
        ensure!(end == TurnEnd::Idle, "an empty turn came to {end:?}");
    }
    Ok(1000 * since(rt, before)?.as_nanos() / u128::from(TURNS))
}

// The least of several rounds with one host and with another, made in turn, so that other work meets both.
fn compare(
    rt: &(impl Print + CpuClock),
    what: &str,
    few: &mut Crowd,
    many: &mut Crowd,
    among: usize,
    quantum: u64,
) -> Result<()> {
    let (mut least, mut other) = (u128::MAX, u128::MAX);
    for _ in 0..ROUNDS {
        least = least.min(round(rt, few, 1, quantum)?);
        other = other.min(round(rt, many, among, quantum)?);
    }
    println!(rt; "{what}: {least} ps alone, {other} ps among {MANY}")?;
    Ok(())
}

fn compare_empty(rt: &(impl Print + CpuClock), few: &mut Crowd, many: &mut Crowd) -> Result<()> {
    let (mut least, mut other) = (u128::MAX, u128::MAX);
    for _ in 0..ROUNDS {
        least = least.min(empty_round(rt, few)?);
        other = other.min(empty_round(rt, many)?);
    }
    println!(rt; "an empty turn: {least} ps alone, {other} ps among {MANY}")?;
    Ok(())
}

// Compares a host with few instances and one to which many come.
fn compare_all(
    rt: &(impl Print + CpuClock + AllocGlobal),
    few: &mut Crowd,
    many: &mut Crowd,
) -> Result<()> {
    fill(rt.alloc(), many, MANY)?;
    compare(rt, "a turn of 1 charge", few, many, 1, 1)?;
    compare(rt, "a turn of 100 charges", few, many, 1, 100)?;
    compare(rt, "a turn of 1 charge, to each", few, many, MANY, 1)?;
    compare(rt, "a turn of 100 charges, to each", few, many, MANY, 100)?;
    compare_empty(rt, few, many)
}

// Owns the host of many, and lends it to what can fail; one instance with a call comes to the other.
fn run_beside(rt: &(impl Print + CpuClock + AllocGlobal), few: &mut Crowd) -> Result<()> {
    fill(rt.alloc(), few, 1)?;
    let mut many = empty_crowd(rt.alloc())?;
    compare_all(rt, few, &mut many)
}

/// Times turns.
pub fn run(rt: &(impl Print + CpuClock + AllocGlobal)) -> Result<()> {
    let mut few = empty_crowd(rt.alloc())?;
    run_beside(rt, &mut few)
}
