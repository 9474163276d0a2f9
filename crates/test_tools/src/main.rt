//! Decodes and validates modules that come as text on standard input, and prints of each whether it is valid.
//!
//! A line is `NAME HEX`. What is printed is `NAME valid` or `NAME invalid`; or `NAME undecoded`, where the bytes are no
//! module. `modules/README.md` says where the modules and the expected answers come from.
#![tactic(auto)]

use anyhow::{Result, bail};
use std::alloc::Global;
use std::io::{BufRead, BufReader};
use wh_decode::decode;
use wh_validate::validate;

/// What is said of a module.
fn answer_of(alloc: Global, bytes: &[u8]) -> &'static str {
    let Ok(decoded) = decode(alloc, bytes) else {
        return "undecoded";
    };
    if validate(alloc, decoded).is_ok() {
        return "valid";
    }
    "invalid"
}

fn run(rt: &impl Print, alloc: Global, line: &str) -> Result<()> {
    let Some((name, text)) = line.split_once(' ') else {
        return Ok(());
    };
    let bytes = match hex::decode(alloc, text) {
        Ok(bytes) => bytes,
        Err(error) => bail!("{name:?}: {error}"),
    };
    let answer = answer_of(alloc, &bytes);
    println!(rt; "{name} {answer}")?;
    Ok(())
}

fn main(rt: HostRuntime) -> Result<()> {
    let alloc = rt.alloc();
    for line in BufReader::new(alloc, rt.reader())?.lines(alloc) {
        let line = line?;
        run(&rt, alloc, &line)?;
    }
    Ok(())
}
