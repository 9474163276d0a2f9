//! Runs the export `run` of a module with two inputs, a thousand charges at a time, and gives up after ten thousand.
#![tactic(auto)]

use anyhow::{Context, Result, bail};
use std::alloc::Global;
use std::rt::{Env, Files};
use std::{env, fs};
use wh_alone::{Instance, Outcome, Stage};
use wh_initial::Parameters;

const SLICE: u64 = 1000;

const MOST_SLICES: u32 = 10;

/// An instance of the module, with the inputs 40 and 2.
fn make_instance(alloc: Global, bytes: &[u8]) -> Result<Instance> {
    let parameters = Parameters {
        base: 0,
        salt: 0,
        inputs: vec![in alloc; 40u64, 2]?,
        page_limit: 16,
    };
    match Instance::new(alloc, bytes, parameters) {
        Ok(instance) => Ok(instance),
        Err(error) => bail!("{error}"),
    }
}

/// Runs the start function, if the module has one, until it has returned.
fn run_start(instance: &mut Instance) -> Result<()> {
    if instance.stage() == Stage::Fresh {
        let Some((Outcome::Returned(_), _)) = instance.run(100000) else {
            bail!("the start function has failed");
        };
    }
    Ok(())
}

/// Calls a function without arguments, slice by slice; returns the outcome, and the charges taken.
fn call_in_slices(instance: &mut Instance, func: u32) -> Result<(Outcome, u64)> {
    let (mut outcome, mut charges) = match instance.call(func, &[], SLICE) {
        Ok(answer) => answer,
        Err(refused) => bail!("{refused}"),
    };
    for _ in 1..MOST_SLICES {
        let Outcome::OutOfFuel = outcome else {
            break;
        };
        let Some((now, more)) = instance.run(SLICE) else {
            break;
        };
        outcome = now;
        charges = charges.saturating_add(more);
    }
    Ok((outcome, charges))
}

/// Calls the export `run`; returns the outcome, and the charges taken. Gives it up if it runs on.
fn call_run(instance: &mut Instance) -> Result<(Outcome, u64)> {
    let func = instance.func("run").context("no function `run`")?;
    let answer = call_in_slices(instance, func)?;
    instance.cancel();
    Ok(answer)
}

/// Prints the outcome of a call.
fn print_outcome(rt: &HostRuntime, outcome: Outcome, charges: u64) -> Result<()> {
    match outcome {
        Outcome::Returned(value) => println!(rt; "{value:?} after {charges} charges")?,
        Outcome::Trapped(trap) => println!(rt; "{trap} after {charges} charges")?,
        Outcome::OutOfFuel => println!(rt; "given up after {charges} charges")?,
    }
    Ok(())
}

/// Calls the export `run` of a new instance, and prints what came of it and what the instance has put out.
fn print_run(rt: &HostRuntime, instance: &mut Instance) -> Result<()> {
    run_start(instance)?;
    let (outcome, charges) = call_run(instance)?;
    print_outcome(rt, outcome, charges)?;
    println!(rt; "{:?}", instance.output())?;
    Ok(())
}

/// Makes an instance and lends it to what can fail: the fewer ways out of the function that owns it, the sooner it is
/// proved.
fn run_module(rt: &HostRuntime, bytes: &[u8]) -> Result<()> {
    let mut instance = make_instance(rt.alloc(), bytes)?;
    print_run(rt, &mut instance)
}

fn main(rt: HostRuntime) -> Result<()> {
    let words: Vec<String> = env::args(&rt)?.collect(rt.alloc())?;
    let bytes = fs::read(&rt, words.get(1).context("a module is wanted")?)?;
    run_module(&rt, &bytes)
}
