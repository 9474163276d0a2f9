//! Times calls on the machine: `bench_machine TABLE [NAME]` reads a table of modules from a file, or from standard
//! input where TABLE is `-`, makes the calls of each, or of the one of this name, over a flat memory and over one on
//! shared frames, and prints `NAME CHARGES SECONDS SECONDS`, those over the flat one first. Without an argument it does
//! nothing, so that what it prints never depends on the time.
//!
//! A line `module NAME HEX` has a module, and each line `call EXPORT -> i32 WORD charges N` after it, or with `i64`, a
//! call of a function without parameters, with its result and its charges. A call has no limit of fuel. Its seconds are
//! the processor's, of the best of five calls, each on an instance of its own, the two memories in turn; making the
//! instance isn't counted.
#![tactic(auto)]

mod calls;

use anyhow::{Context, Result, bail, ensure};
use calls::{Call, Kind, time_call};
use std::alloc::Global;
use std::io::Read;
use std::rt::{Env, Files};
use std::time::{CpuClock, Duration};
use std::{env, fs};
use wh_imports::Linked;
use wh_load::load;

const ROUNDS: u32 = 5;

fn parse_call(alloc: Global, line: &str) -> Result<Call<'_>> {
    let words: Vec<&str> = line.split(' ').collect(alloc)?;
    let ["call", export, "->", width, word, "charges", charges] = *words.as_slice() else {
        bail!("the line isn't understood");
    };
    let word = match width {
        "i32" => u64::from(word.parse::<u32>()?),
        "i64" => word.parse()?,
        _ => bail!("{width:?} is no type"),
    };
    Ok(Call {
        export,
        word,
        charges: charges.parse()?,
    })
}

/// Makes the call on both memories again and again, and prints the best time of each.
fn print_times(
    rt: &(impl Print + CpuClock + AllocGlobal),
    name: &str,
    linked: &Linked,
    call: &Call<'_>,
) -> Result<()> {
    let mut flat = Duration::MAX;
    let mut framed = Duration::MAX;
    for _ in 0..ROUNDS {
        flat = flat.min(time_call(rt, linked, Kind::Flat, call)?);
        framed = framed.min(time_call(rt, linked, Kind::Frames, call)?);
    }
    println!(rt;
        "{name} {} {}.{:06} {}.{:06}",
        call.charges,
        flat.as_secs(),
        flat.subsec_micros(),
        framed.as_secs(),
        framed.subsec_micros()
    )?;
    Ok(())
}

/// Loads the module, and lends it to what can fail.
fn run_call(
    rt: &(impl Print + CpuClock + AllocGlobal),
    name: &str,
    bytes: &[u8],
    call: &Call<'_>,
) -> Result<()> {
    match load(rt.alloc(), bytes) {
        Ok(linked) => print_times(rt, name, &linked, call),
        Err(error) => bail!("{error}"),
    }
}

/// Makes the calls of a table, of all modules or of the one of this name.
fn run_table(
    rt: &(impl Print + CpuClock + AllocGlobal),
    text: &str,
    only: Option<&str>,
) -> Result<()> {
    let mut name = String::new(rt.alloc());
    let mut bytes = Vec::new(rt.alloc());
    let mut count = 0usize;
    for line in text.lines() {
        if line.is_empty() || line.starts_with('#') {
            continue;
        }
        if let Some((head, digits)) = line
            .strip_prefix("module ")
            .and_then(|rest| rest.split_once(' '))
        {
            name = String::from_str(rt.alloc(), head)?;
            bytes = match hex::decode(rt.alloc(), digits) {
                Ok(bytes) => bytes,
                Err(error) => bail!("{name}: {error}"),
            };
        } else if only.is_none_or(|only| only == name.as_str()) {
            let call = parse_call(rt.alloc(), line).context(format_args!("{line}"))?;
            run_call(rt, &name, &bytes, &call).context(format_args!("{name}: {line}"))?;
            count = count.saturating_add(1);
        }
    }
    ensure!(count > 0, "there is nothing to call");
    Ok(())
}

fn read(rt: &(impl Files + Input + AllocGlobal), table: &str) -> Result<String> {
    let mut text = String::new(rt.alloc());
    if table == "-" {
        rt.reader().read_to_string(&mut text)?;
        Ok(text)
    } else {
        Ok(fs::read_to_string(rt, table)?)
    }
}

fn main(rt: HostRuntime) -> Result<()> {
    let words: Vec<String> = env::args(&rt)?.collect(rt.alloc())?;
    let Some(table) = words.get(1) else {
        return Ok(());
    };
    let text = read(&rt, table)?;
    let only = words.get(2).map(|name| name.as_str());
    run_table(&rt, &text, only)
}
