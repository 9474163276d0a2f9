//! `wasmhost_check [--json] (module|settings|script) FILE`: tells why `wasmhost` refuses a module, settings, or lines of a
//! script, in sentences or as JSON.
//!
//! It ends with status 0 where the file is accepted, and where help or the version was asked for; with 1 where the file isn't
//! accepted; with 2 and a text on standard error where the command line isn't, the file can't be read, the verdict can't be
//! written, or memory runs out.
#![tactic(auto)]

mod arguments;
mod checking;

use crate::arguments::read_args;
use crate::checking::{CheckError, WrittenVerdict, check};
use clap::Error;
use std::io::Write;
use std::process::ExitCode;
use std::rt::{Env, Files};
use std::{env, io};

const ACCEPTED: u8 = 0;

const REFUSED: u8 = 1;

const NOT_LOOKED_AT: u8 = 2;

/// The words of the command line.
fn words(rt: &(impl Env + AllocGlobal)) -> io::Result<Vec<String>> {
    Ok(env::args(rt)?.collect(rt.alloc())?)
}

/// Says that standard output can't be written, and gives the status.
fn say_unwritten<E: Eprint>(rt: &E, error: io::Error) -> io::Result<u8> {
    eprintln!(rt; "wasmhost_check: standard output: {error}")?;
    Ok(NOT_LOOKED_AT)
}

/// Writes help, the version, or what is wrong with a command line, and gives the status.
fn show<E: Print + Eprint>(rt: &E, error: Error) -> io::Result<u8> {
    if error.use_stderr() {
        eprint!(rt; "{error}")?;
        return Ok(NOT_LOOKED_AT);
    }
    match print!(rt; "{error}") {
        Ok(()) => Ok(ACCEPTED),
        Err(error) => say_unwritten(rt, error),
    }
}

/// Writes a verdict, and gives the status.
fn tell<E: Print + Eprint>(rt: &E, verdict: &WrittenVerdict) -> io::Result<u8> {
    if let Err(error) = io::writer(rt).write_all(&verdict.text) {
        return say_unwritten(rt, error);
    }
    if verdict.is_accepted {
        Ok(ACCEPTED)
    } else {
        Ok(REFUSED)
    }
}

/// Answers these words, and gives the status.
fn answer<E: Files + Print + Eprint + AllocGlobal>(rt: &E, words: &[String]) -> io::Result<u8> {
    let given = match read_args(rt.alloc(), words) {
        Ok(given) => given,
        Err(error) => return show(rt, error),
    };
    match check(rt, given) {
        Ok(verdict) => tell(rt, &verdict),
        Err(CheckError::Memory) => {
            eprintln!(rt; "wasmhost_check: out of memory")?;
            Ok(NOT_LOOKED_AT)
        }
        Err(CheckError::Input(error)) => {
            eprintln!(rt; "wasmhost_check: {}: {error}", given.file)?;
            Ok(NOT_LOOKED_AT)
        }
    }
}

/// Runs the program, with the words, the streams and the files of this process. A failed write on standard error has nobody to
/// be told.
fn run<E: Env + Files + Print + Eprint + AllocGlobal>(rt: &E) -> io::Result<u8> {
    match words(rt) {
        Ok(words) => answer(rt, &words),
        Err(error) => {
            eprintln!(rt; "wasmhost_check: the command line: {error}")?;
            Ok(NOT_LOOKED_AT)
        }
    }
}

fn main(rt: HostRuntime) -> ExitCode {
    ExitCode::from(run(&rt).unwrap_or(NOT_LOOKED_AT))
}
