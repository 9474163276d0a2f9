use crate::asking::{Got, ask};
use std::fs;
use std::process::Abort;
use std::rt::Files;
use std::sync::Wait;
use std::test::Fail;
use std::thread::Threads;
use wasmhost_program::{ANSWERED, Lockable};

/// An instance with two frames stores a byte to each of three pages, and loads the first again: `s` stores one, and `l` loads
/// one. So one page has to leave for the third store, and another one for the load, for which the first comes.
const SCRIPT: &str =
    "module m 0061736d01000000010b0260027f7f0060017f017f0303020001050301000107090201730000016c00010a\
13020900200020013a00000b070020002d00000b
admit a m 100 2 16 0 0 0
invoke a s 9 0 1
invoke a s 9 4096 2
invoke a s 9 8192 3
invoke a l 9 0
";

/// What the stores get where the device works.
const STORED: &str = "call 1 done charges 3\ncall 2 done charges 3\ncall 3 done charges 3\n";

/// Files for swap, and what the script gets: one that keeps what is written to it; one that ends where it is read; one that
/// gives zeros; and one that takes nothing.
const SWAPS: [(&str, &str, &str); 4] = [
    (
        "wasmhost_program_tests.pages",
        STORED,
        "call 4 done 1 charges 2\n",
    ),
    ("/dev/null", STORED, "call 4 frame S1 charges 1\n"),
    ("/dev/zero", STORED, "call 4 frame S3 charges 1\n"),
    (
        "/dev/full",
        "call 1 done charges 3\ncall 2 done charges 3\n",
        "call 3 frame S2 charges 2\ncall 4 queued\n",
    ),
];

/// What a script gets with these settings.
fn answered<E: Files + AllocGlobal + Threads + Wait + Copy + Send + Sync + 'static>(
    rt: &E,
    settings: &str,
    script: &str,
) -> Result<Got, Fail>
where
    E::File: Lockable + Send + 'static,
{
    let settings_path = "wasmhost_program_swap_tests.toml";
    let script_path = "wasmhost_program_swap_tests.script";
    fs::write(rt, settings_path, settings)?;
    fs::write(rt, script_path, script)?;
    let got = ask(rt, &["wasmhost", "--settings", settings_path, script_path])?;
    fs::remove_file(rt, settings_path)?;
    fs::remove_file(rt, script_path)?;
    Ok(got)
}

/// That a script was answered so, with pages at this path.
fn expect_answered(rt: &impl Abort, got: &Got, wanted: &str, path: &str) {
    assert_eq!(rt; got.status, ANSWERED, "{path}");
    assert_eq!(rt; str::from_utf8(got.output.as_slice()), Ok(wanted), "{path}");
}

#[test]
fn pages_are_swapped_to_a_file(rt: HostRuntime) -> Result<(), Fail> {
    for (path, stored, last) in SWAPS {
        let settings = format!(in rt.alloc(); "frames = 2\nslots = 15\nswap = \"{path}\"\n")?;
        let wanted = format!(in rt.alloc(); "module m ok\nadmit a ok 0\n{stored}{last}")?;
        let got = answered(&rt, &settings, SCRIPT)?;
        expect_answered(&rt, &got, &wanted, path);
    }
    fs::remove_file(&rt, "wasmhost_program_tests.pages")?;
    Ok(())
}
