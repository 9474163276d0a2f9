//! Decodes modules that come as text on standard input, and says which of them come out otherwise than stands beside
//! them.
//!
//! A line is `NAME | EXPECTED | MODULE`. Lines that are empty or begin with `#` are left out. `parse` says how a module is
//! written. What may be expected is
//! - `ok`: it is decoded;
//! - `D3 7`: the fault with this number, at this offset;
//! - `cuts ok 8 15 D12 19 26`: it is decoded, and so are its beginnings of 8 and of 15 bytes; those of 19 and of 26 have
//!   the fault with this number at their end, and every shorter one is cut where a byte must stand;
//! - `show`: it is decoded, and its contents are printed.
#![tactic(auto)]

mod answer;
mod parse;
mod show;

use answer::{Answer, answer_of, expected_at};
use anyhow::{Context, Result, bail};
use parse::{Pattern, parse_answer, parse_pattern};
use show::show;
use std::alloc::Global;
use std::io::{BufRead, BufReader};
use wh_decode::decode;
use wh_model::DecodeError;
use wh_syntax::Module;

/// How many cases there were, and how many of them came out otherwise than expected.
#[derive(Drop)]
struct Tally {
    cases: usize,
    wrong: usize,
}

/// Counts a case, and prints what is wrong with it.
fn judge(
    rt: &impl Print,
    tally: &mut Tally,
    name: &str,
    expected: Answer,
    found: Answer,
) -> Result<()> {
    tally.cases = tally.cases.saturating_add(1);
    if expected != found {
        tally.wrong = tally.wrong.saturating_add(1);
        println!(rt; "{name}: expected {expected}, found {found}")?;
    }
    Ok(())
}

/// Counts a case by what its bytes are decoded to.
fn judge_decoded(
    rt: &impl Print,
    tally: &mut Tally,
    name: &str,
    expected: Answer,
    decoded: &Result<Module, DecodeError>,
) -> Result<()> {
    judge(rt, tally, name, expected, answer_of(decoded)?)
}

/// Decodes the bytes of a case, and lends what comes of it to what can fail.
fn judge_bytes(
    rt: &impl Print,
    alloc: Global,
    tally: &mut Tally,
    name: &str,
    expected: Answer,
    bytes: &[u8],
) -> Result<()> {
    judge_decoded(rt, tally, name, expected, &decode(alloc, bytes))
}

fn judge_cuts(
    rt: &impl Print,
    alloc: Global,
    tally: &mut Tally,
    name: &str,
    list: &str,
    bytes: &[u8],
) -> Result<()> {
    for (length, _) in bytes.iter().enumerate() {
        let expected = expected_at(list, length)?;
        if length <= bytes.len() {
            judge_bytes(rt, alloc, tally, name, expected, &bytes[..length])?;
        }
    }
    judge_bytes(rt, alloc, tally, name, Answer::Module, bytes)
}

/// Prints the contents of a module; where the bytes are none, a case that should be one is counted.
fn show_decoded(
    rt: &impl Print,
    alloc: Global,
    tally: &mut Tally,
    name: &str,
    decoded: &Result<Module, DecodeError>,
) -> Result<()> {
    match decoded {
        Ok(module) => show(rt, alloc, name, module),
        Err(_) => judge_decoded(rt, tally, name, Answer::Module, decoded),
    }
}

/// Judges the module of a pattern that has this byte.
fn run_bytes(
    rt: &impl Print,
    alloc: Global,
    tally: &mut Tally,
    name: &str,
    expected: &str,
    bytes: &[u8],
) -> Result<()> {
    if let Some(list) = expected.strip_prefix("cuts") {
        judge_cuts(rt, alloc, tally, name, list, bytes)
    } else if expected == "show" {
        show_decoded(rt, alloc, tally, name, &decode(alloc, bytes))
    } else {
        let expected = parse_answer(expected)?;
        judge_bytes(rt, alloc, tally, name, expected, bytes)
    }
}

fn run_pattern(
    rt: &impl Print,
    alloc: Global,
    tally: &mut Tally,
    name: &str,
    expected: &str,
    pattern: &Pattern,
) -> Result<()> {
    for byte in u16::from(pattern.first)..u16::from(pattern.last) + 1 {
        let bytes = pattern.bytes(alloc, byte as u8)?;
        run_bytes(rt, alloc, tally, name, expected, &bytes)?;
    }
    Ok(())
}

fn run_line(rt: &impl Print, alloc: Global, tally: &mut Tally, line: &str) -> Result<()> {
    let Some((name, rest)) = line.split_once('|') else {
        bail!("a line without expectation");
    };
    let Some((expected, module)) = rest.split_once('|') else {
        bail!("a line without module");
    };
    let pattern = parse_pattern(alloc, module)?;
    run_pattern(rt, alloc, tally, name.trim(), expected.trim(), &pattern)
}

fn main(rt: HostRuntime) -> Result<()> {
    let alloc = rt.alloc();
    let mut tally = Tally { cases: 0, wrong: 0 };
    for line in BufReader::new(alloc, rt.reader())?.lines(alloc) {
        let line = line?;
        if line.is_empty() || line.starts_with('#') {
            continue;
        }
        run_line(&rt, alloc, &mut tally, &line).context(format_args!("{line}"))?;
    }
    println!(rt; "{} cases, {} wrong", tally.cases, tally.wrong)?;
    Ok(())
}
