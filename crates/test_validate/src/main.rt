//! Validates and links modules that come as text on standard input, and prints how each comes out.
//!
//! A line is `NAME HEX`. What is printed is `NAME ok`, or the first fault: of the validator as `NAME V1 func 0 instr 4`
//! or, where it is in no function, as `NAME V6 module`; of the linker as `NAME L1 import 0`; or `NAME undecoded`, where
//! the bytes are no module.
#![tactic(auto)]

use anyhow::{Result, bail};
use std::alloc::Global;
use std::io::{BufRead, BufReader};
use wh_imports::LinkError;
use wh_load::{LoadError, load};
use wh_validate::ValidError;

/// How a module comes out.
#[derive(Clone, Copy)]
enum Answer {
    Linked,
    Undecoded,
    Refused(ValidError),
    Unlinked(LinkError),
}

/// Decodes, validates and links a module.
fn answer_of(alloc: Global, bytes: &[u8]) -> Answer {
    match load(alloc, bytes) {
        Ok(_) => Answer::Linked,
        Err(LoadError::Decode(_)) => Answer::Undecoded,
        Err(LoadError::Valid(error)) => Answer::Refused(error),
        Err(LoadError::Link(error)) => Answer::Unlinked(error),
    }
}

fn run(rt: &impl Print, alloc: Global, line: &str) -> Result<()> {
    let Some((name, text)) = line.split_once(' ') else {
        return Ok(());
    };
    let bytes = match hex::decode(alloc, text) {
        Ok(bytes) => bytes,
        Err(error) => bail!("{name:?}: {error}"),
    };
    match answer_of(alloc, &bytes) {
        Answer::Linked => println!(rt; "{name} ok")?,
        Answer::Undecoded => println!(rt; "{name} undecoded")?,
        Answer::Refused(error) => refuse(rt, name, error)?,
        Answer::Unlinked(error) => say_unlinked(rt, name, error)?,
    }
    Ok(())
}

fn refuse(rt: &impl Print, name: &str, error: ValidError) -> Result<()> {
    let kind = error.kind.number();
    let instr = error.instr;
    match error.func {
        Some(func) => println!(rt; "{name} V{kind} func {func} instr {instr}")?,
        None => println!(rt; "{name} V{kind} module")?,
    }
    Ok(())
}

fn say_unlinked(rt: &impl Print, name: &str, error: LinkError) -> Result<()> {
    match error {
        LinkError::NoItem(fault, at) => {
            let kind = fault.number();
            println!(rt; "{name} L{kind} import {at}")?
        }
        LinkError::Memory => println!(rt; "{name} L3")?,
    }
    Ok(())
}

fn main(rt: HostRuntime) -> Result<()> {
    let alloc = rt.alloc();
    for line in BufReader::new(alloc, rt.reader())?.lines(alloc) {
        let line = line?;
        run(&rt, alloc, &line)?;
    }
    Ok(())
}
