use crate::asking::{Got, ask, ask_with, status_of, words};
use std::fs;
use std::io::{Error, ErrorKind, Result as IoResult, Write};
use std::process::Abort;
use std::rt::Files;
use std::sync::Wait;
use std::test::Fail;
use std::thread::Threads;
use wasmhost_program::{ANSWERED, Lockable, NOT_ACCEPTED, STOPPED};

/// A writer that takes nothing.
#[derive(Drop)]
struct Full;

impl Write for Full {
    fn write(&mut self, _buf: &[u8]) -> IoResult<usize> {
        Err(Error::from(ErrorKind::StorageFull))
    }

    fn flush(&mut self) -> IoResult<()> {
        Ok(())
    }
}

/// Command lines that get no reply, each with its status and the beginning of what is on standard error.
const WITHOUT_A_REPLY: [(&[&str], u8, &str); 9] = [
    (
        &["wasmhost", "--settings", "no/such.toml"],
        STOPPED,
        "wasmhost: settings: no/such.toml: No such file or directory (os error 2)\n",
    ),
    (
        &["wasmhost", "no/such.script"],
        STOPPED,
        "wasmhost: script: no/such.script: No such file or directory (os error 2)\n",
    ),
    (
        &["wasmhost", "/"],
        STOPPED,
        "wasmhost: script: /: Is a directory (os error 21)\n",
    ),
    (
        &["wasmhost", "one.script", "other.script"],
        NOT_ACCEPTED,
        "error: unexpected argument 'other.script' found\n",
    ),
    (
        &["wasmhost", "--fast"],
        NOT_ACCEPTED,
        "error: unexpected argument '--fast' found\n",
    ),
    (
        &["wasmhost", "--workers", "0"],
        NOT_ACCEPTED,
        "error: invalid value '0' for '--workers <N>': 0 is not in 1..=64\n",
    ),
    (
        &["wasmhost", "--workers", "65"],
        NOT_ACCEPTED,
        "error: invalid value '65' for '--workers <N>': 65 is not in 1..=64\n",
    ),
    (
        &["wasmhost", "--workers", "x"],
        NOT_ACCEPTED,
        "error: invalid value 'x' for '--workers <N>': invalid digit found in string\n",
    ),
    (&["wasmhost", "--workers", "-1"], NOT_ACCEPTED, "error: "),
];

/// That a command line got this status and no reply, and that this is the beginning of what is on standard error.
fn expect_complaint(rt: &impl Abort, got: &Got, wanted: u8, complaint: &str) {
    assert_eq!(rt; got.status, wanted, "{complaint}");
    assert_eq!(rt; got.output.len(), 0, "{complaint}");
    assert!(rt;
        got.errors.as_slice().starts_with(complaint.as_bytes()),
        "{complaint}"
    );
}

#[test]
fn what_has_no_script_ends_without_a_reply(rt: HostRuntime) -> Result<(), Fail> {
    for (line, wanted, complaint) in WITHOUT_A_REPLY {
        let got = ask(&rt, line)?;
        expect_complaint(&rt, &got, wanted, complaint);
    }
    Ok(())
}

/// The statuses of a script from the input, whose output is kept, then can't be written, and then can't be written while nothing can be said
/// of that either.
fn statuses<E: Files + AllocGlobal + Threads + Wait + Copy + Send + Sync + 'static>(
    rt: &E,
    words: &[String],
    output: &mut Vec<u8>,
    errors: &mut Vec<u8>,
) -> [u8; 3]
where
    E::File: Lockable + Send + 'static,
{
    let input = "no command\n";
    let kept = status_of(rt, words, input, output, errors);
    let stopped = status_of(rt, words, input, &mut Full, errors);
    let unheard = status_of(rt, words, input, &mut Full, &mut Full);
    [kept, stopped, unheard]
}

#[test]
fn a_failed_write_stops_the_program(rt: HostRuntime) -> Result<(), Fail> {
    let words = words(&rt, &["wasmhost"])?;
    let mut output = Vec::new(rt.alloc());
    let mut errors = Vec::new(rt.alloc());
    let statuses = statuses(&rt, &words, &mut output, &mut errors);
    assert_eq!(rt; statuses, [ANSWERED, STOPPED, STOPPED]);
    assert_eq!(rt; str::from_utf8(output.as_slice()), Ok("error C1 line 1\n"));
    assert_eq!(rt;
        str::from_utf8(errors.as_slice()),
        Ok("wasmhost: output: standard output: no storage space\n")
    );
    Ok(())
}

/// Settings, each with why the program stops for them.
const UNFIT: [(&str, &str); 2] = [
    (
        "frames = 1\n",
        "wasmhost: settings: wasmhost_program_tests.toml: no settings, as `wasmhost_check settings` explains\n",
    ),
    (
        "swap = \"\"\n",
        "wasmhost: settings: wasmhost_program_tests.toml: no settings, as `wasmhost_check settings` explains\n",
    ),
];

/// That a program stopped without a reply, for these settings, and that this is what is on standard error.
fn expect_stopped(rt: &impl Abort, got: &Got, settings: &str, complaint: &str) {
    assert_eq!(rt; got.status, STOPPED, "{settings}");
    assert_eq!(rt; got.output.len(), 0, "{settings}");
    assert_eq!(rt; str::from_utf8(got.errors.as_slice()), Ok(complaint));
}

#[test]
fn settings_that_are_unfit_stop_the_program(rt: HostRuntime) -> Result<(), Fail> {
    let path = "wasmhost_program_tests.toml";
    for (settings, complaint) in UNFIT {
        fs::write(&rt, path, settings)?;
        let got = ask(&rt, &["wasmhost", "--settings", path, "no/such.script"])?;
        fs::remove_file(&rt, path)?;
        expect_stopped(&rt, &got, settings, complaint);
    }
    Ok(())
}

/// An instance of a module whose `f` gives 7, and a call of it.
const SEVEN: &str = "module m 0061736d010000000105016000017f03020100070501016600000a0601040041070b
admit a m 100 2 16 0 0 0
invoke a f 0
";

/// That a script got the replies that `SEVEN` has to get, with `number` workers.
fn expect_seven(rt: &impl Abort, got: &Got, number: &str) {
    assert_eq!(rt; got.status, ANSWERED, "{number}");
    assert_eq!(rt;
        str::from_utf8(got.output.as_slice()),
        Ok("module m ok\nadmit a ok 0\ncall 1 done 7 charges 0\n"),
        "{number}"
    );
    assert_eq!(rt; got.errors.len(), 0, "{number}");
}

#[test]
fn a_script_has_1_to_64_workers(rt: HostRuntime) -> Result<(), Fail> {
    for number in ["1", "2", "64"] {
        let got = ask_with(&rt, &["wasmhost", "--workers", number], SEVEN)?;
        expect_seven(&rt, &got, number);
    }
    Ok(())
}
