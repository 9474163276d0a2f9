// Command lines that are asked of the program, and what they get.

use std::io::Write;
use std::rt::Files;
use std::sync::Wait;
use std::test::Fail;
use std::thread::Threads;
use wasmhost_program::{Lockable, SystemFiles, answer};
use wh_streams::{WatchedRead, WatchedWrite};

/// What a command line got.
#[derive(Drop)]
pub struct Got {
    /// The status.
    pub status: u8,
    /// What was written in answer.
    pub output: Vec<u8>,
    /// What is on standard error.
    pub errors: Vec<u8>,
}

/// Returns the words of a command line.
pub fn words(rt: &impl AllocGlobal, line: &[&str]) -> Result<Vec<String>, Fail> {
    let mut words = Vec::new(rt.alloc());
    for word in line {
        words.push(String::from_str(rt.alloc(), word)?)?;
    }
    Ok(words)
}

/// Returns the status of a command line, for which the input gives these bytes. Drops the device to which pages were
/// swapped.
pub fn status_of<E: Files + AllocGlobal + Threads + Wait + Copy + Send + Sync + 'static>(
    rt: &E,
    words: &[String],
    input: &str,
    output: &mut impl Write,
    errors: &mut impl Write,
) -> u8
where
    E::File: Lockable + Send + 'static,
{
    let folder = SystemFiles { rt };
    let mut input = WatchedRead::new(input.as_bytes());
    let mut output = WatchedWrite::new(output);
    answer(rt, &folder, words, &mut input, &mut output, errors).status
}

/// Returns what a command line gets, for which the input gives nothing.
pub fn ask<E: Files + AllocGlobal + Threads + Wait + Copy + Send + Sync + 'static>(
    rt: &E,
    line: &[&str],
) -> Result<Got, Fail>
where
    E::File: Lockable + Send + 'static,
{
    ask_with(rt, line, "")
}

/// Returns what a command line gets, for which the input gives these bytes.
pub fn ask_with<E: Files + AllocGlobal + Threads + Wait + Copy + Send + Sync + 'static>(
    rt: &E,
    line: &[&str],
    input: &str,
) -> Result<Got, Fail>
where
    E::File: Lockable + Send + 'static,
{
    let words = words(rt, line)?;
    let mut output = Vec::new(rt.alloc());
    let mut errors = Vec::new(rt.alloc());
    let status = status_of(rt, &words, input, &mut output, &mut errors);
    Ok(Got {
        status,
        output,
        errors,
    })
}
