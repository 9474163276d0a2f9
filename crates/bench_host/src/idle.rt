//! What instances take of memory.

use crate::pages::{enter, memory_of, write};
use anyhow::{Context, Result, bail};
use std::alloc::Global;
use std::fs;
use std::rt::Files;
use wh_control::Store;
use wh_imports::Linked;
use wh_initial::{Parameters, instantiate};
use wh_load::load;
use wh_machine::Machine;
use wh_space::Memory;

const INSTANCES: u32 = 4096;

// The bytes of a module without anything.
const EMPTY: [u8; 8] = [0, 97, 115, 109, 1, 0, 0, 0];

// The resident memory of this program, in kB.
fn resident(rt: &(impl Files + AllocGlobal)) -> Result<u64> {
    let text = fs::read_to_string(rt, "/proc/self/status")?;
    for line in text.lines() {
        if let Some(rest) = line.strip_prefix("VmRSS:") {
            let digits = rest
                .trim_start()
                .split(' ')
                .next()
                .context("it has no number")?;
            return Ok(digits.parse()?);
        }
    }
    bail!("the status has no such line")
}

// Prints how much there is more than before, and gives how much there is.
fn say(rt: &(impl Files + Print + AllocGlobal), what: &str, before: u64) -> Result<u64> {
    let now = resident(rt)?;
    println!(rt; "{what}: {} kB more", now.saturating_sub(before))?;
    Ok(now)
}

// Makes a machine for each instance.
fn add_machines(alloc: Global, machines: &mut Vec<Machine>) -> Result<()> {
    for _ in 0..INSTANCES {
        machines.push(Machine::new(alloc)?)?;
    }
    Ok(())
}

// What an instance of a module begins with.
fn store_of(alloc: Global, linked: &Linked) -> Result<Store> {
    let parameters = Parameters {
        base: 0,
        salt: 0,
        inputs: Vec::new(alloc),
        page_limit: 1,
    };
    Ok(instantiate(alloc, linked, parameters)?.store)
}

// Makes a store of a linked module for each instance.
fn add_linked_stores(alloc: Global, linked: &Linked, stores: &mut Vec<Store>) -> Result<()> {
    for _ in 0..INSTANCES {
        stores.push(store_of(alloc, linked)?)?;
    }
    Ok(())
}

// Makes a store of the module for each instance.
fn add_stores(alloc: Global, bytes: &[u8], stores: &mut Vec<Store>) -> Result<()> {
    let linked = load(alloc, bytes)?;
    add_linked_stores(alloc, &linked, stores)
}

// The instances come to a memory, each to a place of its own.
fn enter_all(alloc: Global, memory: &mut Memory) -> Result<()> {
    for place in 0..INSTANCES {
        enter(alloc, memory, place as usize, 1)?;
    }
    Ok(())
}

// Each writes a page.
fn write_all(memory: &mut Memory) -> Result<()> {
    for place in 0..INSTANCES {
        let number = u64::from(place).wrapping_add(1);
        write(memory, place as usize, 0, number)?;
    }
    Ok(())
}

// Makes the stores, and says what they take, and what all takes beyond the frames: how much there was at the beginning, and
// how much there is now.
fn fill_stores(
    rt: &(impl Files + Print + AllocGlobal),
    stores: &mut Vec<Store>,
    before: u64,
    now: u64,
) -> Result<()> {
    add_stores(rt.alloc(), &EMPTY, stores)?;
    let now = say(rt, "globals, tables and outputs, of an empty module", now)?;
    let frames = 4 * u64::from(INSTANCES);
    let beyond = now.saturating_sub(before).saturating_sub(frames);
    println!(rt; "beyond {frames} kB of frames: {beyond} kB")?;
    Ok(())
}

// Owns the stores, and lends them to what can fail.
fn keep_stores(rt: &(impl Files + Print + AllocGlobal), before: u64, now: u64) -> Result<()> {
    let mut stores = Vec::new(rt.alloc());
    fill_stores(rt, &mut stores, before, now)
}

// Makes the machines, says what they take, and goes on with the stores.
fn fill_machines(
    rt: &(impl Files + Print + AllocGlobal),
    machines: &mut Vec<Machine>,
    before: u64,
    now: u64,
) -> Result<()> {
    add_machines(rt.alloc(), machines)?;
    let now = say(rt, "stacks", now)?;
    keep_stores(rt, before, now)
}

// Owns the machines, as long as there are stores, and lends them to what can fail.
fn keep_machines(rt: &(impl Files + Print + AllocGlobal), before: u64, now: u64) -> Result<()> {
    let mut machines = Vec::new(rt.alloc());
    fill_machines(rt, &mut machines, before, now)
}

// Says what the memory takes, with instances and with a page of each, and goes on with the machines.
fn fill_memory(
    rt: &(impl Files + Print + AllocGlobal),
    memory: &mut Memory,
    before: u64,
) -> Result<()> {
    let mut now = say(rt, "pool and content table, of 16384 frames", before)?;
    enter_all(rt.alloc(), memory)?;
    now = say(rt, "places and page tables, of 16 pages each", now)?;
    write_all(memory)?;
    now = say(rt, "a page on a frame each", now)?;
    keep_machines(rt, before, now)
}

/// Makes the instances, one kind of thing after the other. What they take beyond their frames is what there is more at the
/// end, less 4096 bytes for each.
pub fn run(rt: &(impl Files + Print + AllocGlobal)) -> Result<()> {
    let before = resident(rt)?;
    let mut memory = memory_of(rt.alloc(), 16384)?;
    fill_memory(rt, &mut memory, before)
}
