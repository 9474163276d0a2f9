//! Lines of scripts, and what is said of each.

use anyhow::{Result, ensure};
use std::alloc::Global;
use wh_explain::{ScriptVerdict, explain_line, explain_script};

// Lines that are skipped or obeyed.
const TAKEN: [&[u8]; 14] = [
    b"",
    b"# \xFF  anything ",
    b"module m 0061736D01000000",
    b"load m dir/m.wasm",
    b"admit a m 100 2 16 0 -1 -1 10 -1",
    b"admit a m 1 2 3 4 4294967295 18446744073709551615",
    b"invoke a f! 0007 5 -0 99999999999999999999",
    b"drain",
    b"refuel a 18446744073709551615",
    b"cancel a",
    b"retry a",
    b"scan",
    b"report",
    b"release a",
];

// Lines that are no commands, each with why.
const REFUSED: [(&[u8], &str); 23] = [
    (b"run a", "there is no command \"run\""),
    (b"Drain", "there is no command \"Drain\""),
    (b"drain ", "word 2 is empty"),
    (b" drain", "word 1 is empty"),
    (b"module  m 00", "word 2 is empty"),
    (b"module m", "word 3 is missing, which is HEX"),
    (
        b"module m 0",
        "word 3, \"0\", is no bytes in hexadecimal, and HEX is bytes in hexadecimal, two digits each",
    ),
    (
        b"module m 0g",
        "word 3, \"0g\", is no bytes in hexadecimal, and HEX is bytes in hexadecimal, two digits each",
    ),
    (
        b"module M 00",
        "word 2, \"M\", is no name, and NAME is a name: 1 to 32 of a to z, 0 to 9 and _",
    ),
    (
        b"cancel aaaaaaaaaaaaaaaaaaaaaaaaaaaaaaaaaaaaaaaaaaaaaaaaaa",
        "word 2, \"aaaaaaaaaaaaaaaaaaaaaaaaaaaaaaaaaaaaaaaa\", is no name, and INST is a name: 1 to 32 of a to z, 0 to 9 and _",
    ),
    (b"load m a\xC3\xA4", "byte 9 is above 127"),
    (
        b"admit a m 100 2 16 0 0",
        "word 9 is missing, which is SALT",
    ),
    (
        b"admit a m -1 2 16 0 0 0",
        "word 4, \"-1\", is out of range, and SHARES is a number from 0 to 18446744073709551615",
    ),
    (
        b"admit a m 1 x 16 0 0 0",
        "word 5, \"x\", is no number, and MIN is a number from 0 to 18446744073709551615",
    ),
    (
        b"admit a m 1 2 16 0 -2147483649 0",
        "word 8, \"-2147483649\", is out of range, and BASE is a number from -2147483648 to 4294967295",
    ),
    (
        b"admit a m 1 2 16 0 0 18446744073709551616",
        "word 9, \"18446744073709551616\", is out of range, and SALT is a number from -9223372036854775808 to 18446744073709551615",
    ),
    (
        b"admit a m 1 2 16 0 0 0 0 0x1",
        "word 11, \"0x1\", is no number, and INPUT is a number from -9223372036854775808 to 18446744073709551615",
    ),
    (b"invoke a f", "word 4 is missing, which is FUEL"),
    (
        b"invoke a f +1",
        "word 4, \"+1\", is no number, and FUEL is a number from 0 to 18446744073709551615",
    ),
    (
        b"invoke a f 0 100000000000000000000",
        "word 5, \"100000000000000000000\", is no number, and ARG is a number of 1 to 20 digits, with a - before them or none",
    ),
    (
        b"refuel a -",
        "word 3, \"-\", is no number, and N is a number from 0 to 18446744073709551615",
    ),
    (b"scan now", "word 2, \"now\", is one too many"),
    (b"report\r", "the line ends with a carriage return"),
];

// A script, and all that is said of it.
const SCRIPT: &[u8] = b"# a comment\nmodule m 00\n\nadmit a m 1\nrun\nload m path\xFF\r\nscan";

const SAID: &str =
    "4: word 5 is missing, which is MIN. 5: there is no command \"run\". 6: byte 12 is above 127. ";

/// Fails where a line is complained of.
fn expect_taken(alloc: Global, line: &[u8]) -> Result<()> {
    ensure!(explain_line(alloc, line)?.is_none(), "{line:?} is refused");
    Ok(())
}

/// Fails where another thing is said of a line.
fn expect_refused(alloc: Global, line: &[u8], wanted: &str) -> Result<()> {
    let Some(cause) = explain_line(alloc, line)? else {
        return Err(anyhow::anyhow!("{wanted}: the line is taken"));
    };
    let said = format!(in alloc; "{cause}")?;
    ensure!(said.as_str() == wanted, "said: {said}, wanted: {wanted}");
    Ok(())
}

/// All that is said of a script.
fn told(alloc: Global, verdict: &ScriptVerdict) -> Result<String> {
    let mut text = String::new(alloc);
    for finding in &verdict.findings {
        text.push_str(&format!(in alloc; "{}: {}. ", finding.line, finding.cause)?)?;
    }
    Ok(text)
}

/// Fails where another thing is said of a script.
fn expect_script(alloc: Global, script: &[u8], wanted: &str) -> Result<()> {
    let mut reader = script;
    let said = told(alloc, &explain_script(alloc, &mut reader)?)?;
    ensure!(said.as_str() == wanted, "said: {said}, wanted: {wanted}");
    Ok(())
}

/// Fails if a line of `length` bytes, with a command after it, isn't said to be too long as it has to be.
fn expect_length(alloc: Global, length: usize, wanted: &str) -> Result<()> {
    let mut script = Vec::from_slice(alloc, b"module mm ")?;
    script.resize(length, b'0')?;
    script.extend_from_slice(b"\nscan\nstop")?;
    expect_script(alloc, &script, wanted)
}

/// Looks at each line and script: how many they are.
pub fn check(alloc: Global) -> Result<usize> {
    for line in TAKEN.iter() {
        expect_taken(alloc, line)?;
    }
    for (line, wanted) in REFUSED.iter() {
        expect_refused(alloc, line, wanted)?;
    }
    expect_script(alloc, SCRIPT, SAID)?;
    expect_length(alloc, 2200000, "3: there is no command \"stop\". ")?;
    expect_length(
        alloc,
        2200001,
        "1: the line has more than 2200000 bytes. 3: there is no command \"stop\". ",
    )?;
    Ok(TAKEN.len() + REFUSED.len() + 3)
}
