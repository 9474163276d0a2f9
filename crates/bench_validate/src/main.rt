//! Times `decode` and `validate` on a module: `bench_validate MODULE` reads it from a file, or from standard input
//! where MODULE is `-`. Without an argument it does nothing, so that what it prints never depends on the time.
#![tactic(auto)]

use anyhow::Result;
use std::alloc::Global;
use std::io::Read;
use std::rt::{Clock, Files};
use std::time::Instant;
use std::{env, fs};
use wh_decode::decode;
use wh_syntax::Module;
use wh_validate::{ValidError, ValidModule, validate};

const ROUNDS: u32 = 20;

/// Nanoseconds of one kind of call.
#[derive(Clone, Copy)]
struct Times {
    least: u128,
    sum: u128,
}

impl Times {
    /// Of no call yet.
    const NONE: Times = Times {
        least: u128::MAX,
        sum: 0,
    };

    fn add(&mut self, nanos: u128) {
        self.least = self.least.min(nanos);
        self.sum = self.sum.saturating_add(nanos);
    }
}

/// What is known of a module so far.
#[derive(Clone, Copy)]
struct Report {
    decoding: Times,
    validating: Times,
    instructions: u128,
    valid: u32,
}

/// How many instructions the bodies have, `else` and `end` included.
fn count_instructions(decoded: &Module) -> u128 {
    let mut count = 0u128;
    for body in &decoded.bodies {
        count = count.saturating_add(body.code.flat().instrs.len() as u128);
    }
    count
}

fn read(rt: &(impl Files + Input + AllocGlobal), module: &str) -> Result<Vec<u8>> {
    if module == "-" {
        let mut bytes = Vec::new(rt.alloc());
        rt.reader().read_to_end(&mut bytes)?;
        Ok(bytes)
    } else {
        Ok(fs::read(rt, module)?)
    }
}

fn print(rt: &impl Print, name: &str, times: Times, instructions: u128) -> Result<()> {
    let mean = times.sum / u128::from(ROUNDS);
    let tenths = times.least.saturating_mul(10) / instructions.max(1);
    println!(rt;
        "{name}: least {} us, mean {} us, {}.{} ns an instruction",
        times.least / 1000,
        mean / 1000,
        tenths / 10,
        tenths % 10
    )?;
    Ok(())
}

/// Notes how long decoding took and, of a module in the first round, how many instructions there are. It gives the time
/// after that.
fn note_decoding(
    rt: &impl Clock,
    report: &mut Report,
    round: u32,
    start: Instant,
    decoded: Option<&Module>,
) -> Result<Instant> {
    report.decoding.add(start.elapsed(rt)?.as_nanos());
    if let Some(decoded) = decoded {
        if round == 0 {
            report.instructions = count_instructions(decoded);
        }
    }
    Ok(Instant::now(rt)?)
}

/// Notes how long validation took and whether the module is valid; prints how it is refused, if it is and this is the first
/// round.
fn note_validation(
    rt: &(impl Print + Clock),
    report: &mut Report,
    round: u32,
    start: Instant,
    outcome: &Result<ValidModule, ValidError>,
) -> Result<()> {
    report.validating.add(start.elapsed(rt)?.as_nanos());
    match outcome {
        Ok(_) => report.valid = report.valid.saturating_add(1),
        Err(error) => {
            if round == 0 {
                println!(rt; "refused V{}", error.kind.number())?;
            }
        }
    }
    Ok(())
}

/// Decodes the bytes and validates the module, and says whether they are one. What is decoded is owned here, and lent to what
/// can fail.
fn run_round(
    rt: &(impl Print + Clock),
    alloc: Global,
    bytes: &[u8],
    report: &mut Report,
    round: u32,
) -> Result<bool> {
    let start = Instant::now(rt)?;
    let outcome = decode(alloc, bytes);
    let start = note_decoding(rt, report, round, start, outcome.as_ref().ok())?;
    match outcome {
        Ok(decoded) => {
            note_validation(rt, report, round, start, &validate(alloc, decoded))?;
            Ok(true)
        }
        Err(error) => {
            println!(rt; "refused D{} at {}", error.kind.number(), error.offset)?;
            Ok(false)
        }
    }
}

/// Decodes and validates the bytes again and again.
fn time(rt: &(impl Print + Clock), alloc: Global, bytes: &[u8]) -> Result<()> {
    let mut report = Report {
        decoding: Times::NONE,
        validating: Times::NONE,
        instructions: 0,
        valid: 0,
    };
    for round in 0..ROUNDS {
        if !run_round(rt, alloc, bytes, &mut report, round)? {
            return Ok(());
        }
    }
    let Report {
        instructions,
        valid,
        ..
    } = report;
    println!(rt;
        "{} bytes, {instructions} instructions, valid {valid} times of {ROUNDS}",
        bytes.len()
    )?;
    print(rt, "decode", report.decoding, instructions)?;
    print(rt, "validate", report.validating, instructions)
}

fn main(rt: HostRuntime) -> Result<()> {
    let words: Vec<String> = env::args(&rt)?.collect(rt.alloc())?;
    let Some(module) = words.get(1) else {
        return Ok(());
    };
    let bytes = read(&rt, module)?;
    time(&rt, rt.alloc(), &bytes)
}
