//! Lines of scripts, and what `wh_commands` reads in them.

use crate::tables::agree;
use anyhow::{Result, ensure};
use std::alloc::Global;
use wh_commands::{CallAction, Command, InvokeCommand, ParseError, ParsedLine, parse};
use wh_params::Params;

// Lines, each with the verb of its command.
const SHORT: [(&[u8], &str); 8] = [
    (b"load m dir/m.wasm", "load"),
    (b"drain", "drain"),
    (b"refuel a 18446744073709551615", "refuel"),
    (b"cancel a", "cancel"),
    (b"retry a", "retry"),
    (b"scan", "scan"),
    (b"report", "report"),
    (b"release a", "release"),
];

// Lines that are no commands.
const NONE: [&[u8]; 20] = [
    b"",
    b"drain ",
    b" drain",
    b"module m",
    b"module m ",
    b"module  m 00",
    b"module m 0",
    b"module m 0g",
    b"module M 00",
    b"load m a\xC3\xA4",
    b"admit a m 100 2 16 0 0",
    b"admit a m 100 2 16 0 -2147483649 0",
    b"admit a m 100 2 16 0 0 18446744073709551616",
    b"admit a m -1 2 16 0 0 0",
    b"invoke a f",
    b"invoke a f +1",
    b"invoke a f 0 100000000000000000000",
    b"refuel a 18446744073709551616",
    b"scan now",
    b"report\r",
];

fn reads_module(alloc: Global) -> bool {
    match parse(alloc, b"module m 0061736D01000000") {
        Ok(ParsedLine::Command(Command::Module { name, bytes })) => {
            name == "m" && bytes.as_slice() == [0, 0x61, 0x73, 0x6D, 1, 0, 0, 0].as_slice()
        }
        _ => false,
    }
}

fn are_given(given: &Params) -> bool {
    let quota = given.quota;
    (quota.shares, quota.min_frames, quota.max_frames, given.fuel) == (100, 2, 16, 0)
        && (given.base, given.salt) == (0xFFFF_FFFF, 0xFFFF_FFFF_FFFF_FFFF)
        && given.inputs.as_slice() == [10, 0xFFFF_FFFF_FFFF_FFFF].as_slice()
}

fn reads_admission(alloc: Global) -> bool {
    match parse(alloc, b"admit a m 100 2 16 0 -1 -1 10 -1") {
        Ok(
            ParsedLine::Command(
                Command::Admit {
                    inst,
                    module,
                    given,
                },
            ),
        ) => inst == "a" && module == "m" && are_given(&given),
        _ => false,
    }
}

fn reads_call(alloc: Global) -> bool {
    match parse(alloc, b"invoke a f! 0007 5 -0 99999999999999999999") {
        Ok(
            ParsedLine::Invoke(
                InvokeCommand {
                    inst,
                    export,
                    fuel,
                    args,
                },
            ),
        ) => (inst, export, fuel) == ("a", "f!", 7)
            && args.as_slice() == [5, 0, 99_999_999_999_999_999_999].as_slice(),
        _ => false,
    }
}

fn verb_of(command: &Command<'_>) -> &'static str {
    match command {
        Command::Module { .. } => "module",
        Command::Load { .. } => "load",
        Command::Admit { .. } => "admit",
        Command::Drain => "drain",
        Command::Act { action, .. } => match action {
            CallAction::Refuel { .. } => "refuel",
            CallAction::Cancel => "cancel",
            CallAction::Retry => "retry",
        },
        Command::Scan => "scan",
        Command::Report => "report",
        Command::Release { .. } => "release",
    }
}

fn has_verb(alloc: Global, line: &[u8], verb: &str) -> bool {
    match parse(alloc, line) {
        Ok(ParsedLine::Invoke(_)) => verb == "invoke",
        Ok(ParsedLine::Command(command)) => verb_of(&command) == verb,
        Err(_) => false,
    }
}

fn wrongly_read(alloc: Global) -> Option<usize> {
    for (row, (line, verb)) in SHORT.iter().enumerate() {
        if !has_verb(alloc, line, verb) {
            return Some(row);
        }
    }
    None
}

fn is_refused(alloc: Global, line: &[u8]) -> bool {
    matches!(parse(alloc, line), Err(ParseError::Syntax))
}

fn wrongly_taken(alloc: Global) -> Option<usize> {
    for (row, line) in NONE.iter().enumerate() {
        if !is_refused(alloc, line) {
            return Some(row);
        }
    }
    None
}

/// Reads each line: how many they are.
pub fn check(alloc: Global) -> Result<usize> {
    ensure!(reads_module(alloc), "another module is read");
    ensure!(reads_admission(alloc), "another admission is read");
    ensure!(reads_call(alloc), "another call is read");
    agree("commands", wrongly_read(alloc))?;
    agree("lines that are none", wrongly_taken(alloc))?;
    Ok(3 + SHORT.len() + NONE.len())
}
