// Files that the program reads and writes: modules and settings that are too long, and files for swap.

use crate::asking::{Got, ask};
use std::fs;
use std::fs::File;
use std::os::unix::fs::MetadataExt;
use std::process::Abort;
use std::rt::Files;
use std::sync::Wait;
use std::test::Fail;
use std::thread::Threads;
use wasmhost_program::{ANSWERED, Lockable, STOPPED};

/// How many bytes a module may have, and a file of settings.
const MOST_MODULE_BYTES: usize = 1_048_576;

const MOST_SETTINGS_BYTES: usize = 65536;

/// A command line with a script, and one with settings too.
type Plain = [&'static str; 2];

type Settled = [&'static str; 4];

/// What a command line gets whose script is at this path and has one line.
fn answered<E: Files + AllocGlobal + Threads + Wait + Copy + Send + Sync + 'static>(
    rt: &E,
    script: &str,
    words: &[&str],
    line: &str,
) -> Result<Got, Fail>
where
    E::File: Lockable + Send + 'static,
{
    fs::write(rt, script, line)?;
    let got = ask(rt, words)?;
    fs::remove_file(rt, script)?;
    Ok(got)
}

/// That a script was answered whole, and so.
fn expect_reply(rt: &impl Abort, got: &Got, reply: &str, about: &str) {
    assert_eq!(rt; got.status, ANSWERED, "{about}");
    assert_eq!(rt; str::from_utf8(got.output.as_slice()), Ok(reply), "{about}");
    assert_eq!(rt; got.errors.len(), 0, "{about}");
}

/// That the program stopped before its script, and said this.
fn expect_stopped(rt: &impl Abort, got: &Got, complaint: &str, about: &str) {
    assert_eq!(rt; got.status, STOPPED, "{about}");
    assert_eq!(rt; got.output.len(), 0, "{about}");
    assert_eq!(rt;
        str::from_utf8(got.errors.as_slice()),
        Ok(complaint),
        "{about}"
    );
}

const ODD: Plain = ["wasmhost", "wasmhost_program_odd.script"];

/// Lines that load a module from what is no regular file: a device without an end, an empty one, a folder, and no file at all.
const ODD_FILES: [&str; 4] = [
    "load m /dev/zero\n",
    "load m /dev/null\n",
    "load m /\n",
    "load m -\n",
];

#[test]
fn a_module_comes_from_a_regular_file(rt: HostRuntime) -> Result<(), Fail> {
    for line in ODD_FILES {
        let got = answered(&rt, ODD[1], &ODD, line)?;
        expect_reply(&rt, &got, "error C4 line 1\n", line);
    }
    Ok(())
}

/// Lengths of files of zeros, which are no module, each with its fault.
const ZEROS: [(usize, &str); 3] = [
    (MOST_MODULE_BYTES, "module m refused D1 at 1\n"),
    (MOST_MODULE_BYTES + 1, "module m refused D11 at 1048576\n"),
    (MOST_MODULE_BYTES + 2, "module m refused D11 at 1048576\n"),
];

const ZERO: Plain = ["wasmhost", "wasmhost_program_zeros.script"];

#[test]
fn a_module_may_have_1048576_bytes(rt: HostRuntime) -> Result<(), Fail> {
    let path = "wasmhost_program_files.wasm";
    for (length, reply) in ZEROS {
        fs::write(&rt, path, vec![in rt.alloc(); 0u8; length]?)?;
        let got = answered(&rt, ZERO[1], &ZERO, "load m wasmhost_program_files.wasm\n")?;
        expect_reply(&rt, &got, reply, "zeros");
    }
    fs::remove_file(&rt, path)?;
    Ok(())
}

const LONG: Settled = [
    "wasmhost",
    "--settings",
    "wasmhost_program_long.toml",
    "wasmhost_program_long.script",
];

const LONGEST: Settled = [
    "wasmhost",
    "--settings",
    "/dev/zero",
    "wasmhost_program_long.script",
];

#[test]
fn settings_may_have_65536_bytes(rt: HostRuntime) -> Result<(), Fail> {
    fs::write(
        &rt,
        LONG[2],
        vec![in rt.alloc(); b'\n'; MOST_SETTINGS_BYTES]?,
    )?;
    let whole = answered(&rt, LONG[3], &LONG, "scan\n")?;
    fs::write(
        &rt,
        LONG[2],
        vec![in rt.alloc(); b'\n'; MOST_SETTINGS_BYTES + 1]?,
    )?;
    let longer = answered(&rt, LONG[3], &LONG, "scan\n")?;
    fs::remove_file(&rt, LONG[2])?;
    let endless = answered(&rt, LONGEST[3], &LONGEST, "scan\n")?;
    expect_reply(&rt, &whole, "scan ok\n", "65536 bytes");
    let longer_says = "wasmhost: settings: wasmhost_program_long.toml: more than 65536 bytes\n";
    let endless_says = "wasmhost: settings: /dev/zero: more than 65536 bytes\n";
    expect_stopped(&rt, &longer, longer_says, "65537 bytes");
    expect_stopped(&rt, &endless, endless_says, "/dev/zero");
    Ok(())
}

/// What a script of one line gets where pages are swapped to this file.
fn answered_over<E: Files + AllocGlobal + Threads + Wait + Copy + Send + Sync + 'static>(
    rt: &E,
    words: &Settled,
    pages: &str,
) -> Result<Got, Fail>
where
    E::File: Lockable + Send + 'static,
{
    let settings = format!(in rt.alloc(); "swap = \"{pages}\"\n")?;
    fs::write(rt, words[2], settings)?;
    let got = answered(rt, words[3], words, "scan\n")?;
    fs::remove_file(rt, words[2])?;
    Ok(got)
}

const MADE: Settled = [
    "wasmhost",
    "--settings",
    "wasmhost_program_made.toml",
    "wasmhost_program_made.script",
];

#[test]
fn a_file_for_swap_is_made_for_its_owner(rt: HostRuntime) -> Result<(), Fail> {
    let pages = "wasmhost_program_files_made.pages";
    let got = answered_over(&rt, &MADE, pages)?;
    let left = fs::metadata(&rt, pages)?;
    fs::remove_file(&rt, pages)?;
    expect_reply(&rt, &got, "scan ok\n", pages);
    assert_eq!(rt; left.mode() & 0o777, 0o600);
    assert_eq!(rt; left.len(), 0);
    Ok(())
}

const OTHER: Settled = [
    "wasmhost",
    "--settings",
    "wasmhost_program_other.toml",
    "wasmhost_program_other.script",
];

#[test]
fn a_file_that_holds_other_bytes_is_emptied(rt: HostRuntime) -> Result<(), Fail> {
    let pages = "wasmhost_program_files_other.pages";
    fs::write(&rt, pages, "what another program wrote")?;
    let got = answered_over(&rt, &OTHER, pages)?;
    let left = fs::metadata(&rt, pages)?.len();
    fs::remove_file(&rt, pages)?;
    expect_reply(&rt, &got, "scan ok\n", pages);
    assert_eq!(rt; left, 0);
    Ok(())
}

const USED: Settled = [
    "wasmhost",
    "--settings",
    "wasmhost_program_used.toml",
    "wasmhost_program_used.script",
];

#[test]
fn a_file_that_another_host_has_is_left_alone(rt: HostRuntime) -> Result<(), Fail> {
    let pages = "wasmhost_program_files_used.pages";
    fs::write(&rt, pages, "pages of another host")?;
    let held = File::open(&rt, pages)?;
    assert!(rt; held.lock_alone());
    let refused = answered_over(&rt, &USED, pages)?;
    let left = fs::metadata(&rt, pages)?.len();
    held.unlock()?;
    let taken = answered_over(&rt, &USED, pages)?;
    fs::remove_file(&rt, pages)?;
    let says = "wasmhost: swap: wasmhost_program_files_used.pages: another program has it locked\n";
    expect_stopped(&rt, &refused, says, "a locked file");
    assert_eq!(rt; left, 21);
    expect_reply(&rt, &taken, "scan ok\n", "an unlocked file");
    Ok(())
}

/// What can't be opened for swap by any user, with what is said of it: a folder, a name in what is no folder, and one in no folder.
const NO_SWAP: [(&str, &str); 3] = [
    ("/", "wasmhost: swap: /: Is a directory (os error 21)\n"),
    (
        "/dev/null/pages",
        "wasmhost: swap: /dev/null/pages: Not a directory (os error 20)\n",
    ),
    (
        "no/such/pages",
        "wasmhost: swap: no/such/pages: No such file or directory (os error 2)\n",
    ),
];

/// What can, and keeps no bytes.
const DEVICES: [&str; 2] = ["/dev/null", "/dev/full"];

const DEVICE: Settled = [
    "wasmhost",
    "--settings",
    "wasmhost_program_device.toml",
    "wasmhost_program_device.script",
];

#[test]
fn devices_are_taken_as_they_are(rt: HostRuntime) -> Result<(), Fail> {
    for (pages, says) in NO_SWAP {
        let got = answered_over(&rt, &DEVICE, pages)?;
        expect_stopped(&rt, &got, says, pages);
    }
    for pages in DEVICES {
        let got = answered_over(&rt, &DEVICE, pages)?;
        expect_reply(&rt, &got, "scan ok\n", pages);
    }
    Ok(())
}
