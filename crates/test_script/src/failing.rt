//! Readers and writers that fail, or are interrupted.

use crate::fakes::{Disturbed, Halting, Tired, Trickle};
use crate::running::{outcome, run};
use std::process::Abort;
use std::sync::Wait;
use std::test::Fail;
use std::thread::Threads;
use wh_script::ScriptFault;
use wh_settings::{Settings, read_settings};

/// As little memory as there may be, and as many slots as an instance wants.
const SMALL: &[u8] = b"frames = 2\nslots = 15\n";

const THREE: &[u8] = b"module m 00\nmodule m 0061736d01000000\n\nmodule m 00\n";

const THREE_REPLIES: &[u8] = b"module m refused D3 at 1\nmodule m ok\nerror C3 line 4\n";

const CALLS: &[u8] =
    b"load m seven\nadmit a m 100 2 16 0 0 0\n\ninvoke a f 0\ndrain\ndrain\n# f\ninvoke a f 0\nno command\ninvoke a f 0";

const CALLS_REPLIES: &[u8] =
    b"module m ok\nadmit a ok 0\ncall 1 done 7 charges 0\ncall 2 done 7 charges 0\nerror C1 line 9\ncall 3 done 7 charges 0\n";

/// Scripts with their replies, how many writes go well, and how many bytes are kept where the next one fails. A line is
/// one write with all that it gets, and so is the end; what gets nothing is none.
const FAILED_WRITES: [(&[u8], &[u8], usize, usize); 8] = [
    (THREE, THREE_REPLIES, 0, 0),
    (THREE, THREE_REPLIES, 1, 25),
    (THREE, THREE_REPLIES, 2, 37),
    (CALLS, CALLS_REPLIES, 0, 0),
    (CALLS, CALLS_REPLIES, 1, 12),
    (CALLS, CALLS_REPLIES, 2, 25),
    (CALLS, CALLS_REPLIES, 3, 49),
    (CALLS, CALLS_REPLIES, 4, 89),
];

/// That a script keeps `kept` bytes of its replies where the writer fails after `writes` writes.
fn expect_tired(
    rt: &(impl Abort + AllocGlobal + Threads + Wait + Copy + Send + Sync + 'static),
    script: &[u8],
    replies: &[u8],
    writes: usize,
    kept: usize,
) -> Result<(), Fail> {
    let settings = read_settings(rt.alloc(), SMALL)?;
    let mut writer = Tired {
        written: Vec::new(rt.alloc()),
        writes,
        flushes: 0,
    };
    let mut reader = script;
    let result = run(rt, &settings, 4, &mut reader, &mut writer)?;
    assert_eq!(rt; result, Err(ScriptFault::Output), "after {writes}");
    assert_eq!(rt; writer.written.len(), kept, "after {writes}");
    assert_eq!(rt; writer.flushes, writes, "once for each reply");
    assert!(rt; replies.starts_with(writer.written.as_slice()));
    Ok(())
}

#[test]
fn a_failed_write_ends_a_script(rt: HostRuntime) -> Result<(), Fail> {
    for (script, replies, writes, kept) in FAILED_WRITES {
        expect_tired(&rt, script, replies, writes, kept)?;
    }
    Ok(())
}

/// That a script gets its replies by `writes` writes, and not one more.
fn expect_writes(
    rt: &(impl Abort + AllocGlobal + Threads + Wait + Copy + Send + Sync + 'static),
    script: &[u8],
    replies: &[u8],
    writes: usize,
) -> Result<(), Fail> {
    let settings = read_settings(rt.alloc(), SMALL)?;
    let mut writer = Tired {
        written: Vec::new(rt.alloc()),
        writes,
        flushes: 0,
    };
    let mut reader = script;
    assert_eq!(rt; run(rt, &settings, 4, &mut reader, &mut writer)?, Ok(()));
    assert!(rt; writer.written.as_slice() == replies);
    assert_eq!(rt; writer.flushes, writes, "once for each reply");
    Ok(())
}

#[test]
fn each_reply_is_one_write(rt: HostRuntime) -> Result<(), Fail> {
    for (script, replies, writes) in [(THREE, THREE_REPLIES, 3), (CALLS, CALLS_REPLIES, 5)] {
        expect_writes(&rt, script, replies, writes)?;
    }
    Ok(())
}

/// Scripts with their replies, the number of bytes after which reading fails, and how many bytes of replies there are
/// then. Where a script isn't read to its end nothing is drained for it.
const FAILED_READS: [(&[u8], &[u8], usize, usize); 13] = [
    (THREE, THREE_REPLIES, 0, 0),
    (THREE, THREE_REPLIES, 5, 0),
    (THREE, THREE_REPLIES, 11, 0),
    (THREE, THREE_REPLIES, 12, 25),
    (THREE, THREE_REPLIES, 20, 25),
    (THREE, THREE_REPLIES, 37, 25),
    (THREE, THREE_REPLIES, 38, 37),
    (CALLS, CALLS_REPLIES, 12, 0),
    (CALLS, CALLS_REPLIES, 13, 12),
    (CALLS, CALLS_REPLIES, 51, 25),
    (CALLS, CALLS_REPLIES, 57, 25),
    (CALLS, CALLS_REPLIES, 58, 49),
    (CALLS, CALLS_REPLIES, 104, 89),
];

/// That a script keeps `kept` bytes of its replies where the reader fails after `fails_after` bytes.
fn expect_failed_read(
    rt: &(impl Abort + AllocGlobal + Threads + Wait + Copy + Send + Sync + 'static),
    script: &[u8],
    replies: &[u8],
    fails_after: usize,
    kept: usize,
) -> Result<(), Fail> {
    let settings = read_settings(rt.alloc(), SMALL)?;
    let reader = Trickle {
        bytes: script,
        fails_after,
    };
    let (result, written) = outcome(rt, &settings, 4, reader)?;
    assert_eq!(rt; result, Err(ScriptFault::Script), "after {fails_after}");
    assert_eq!(rt; written.len(), kept, "after {fails_after}");
    assert!(rt; replies.starts_with(written.as_slice()));
    Ok(())
}

#[test]
fn a_failed_read_ends_a_script(rt: HostRuntime) -> Result<(), Fail> {
    for (script, replies, fails_after, kept) in FAILED_READS {
        expect_failed_read(&rt, script, replies, fails_after, kept)?;
    }
    Ok(())
}

/// That a script gets its replies where the reader is interrupted `interruptions` times, after `undisturbed` bytes.
fn expect_disturbed(
    rt: &(impl Abort + AllocGlobal + Threads + Wait + Copy + Send + Sync + 'static),
    settings: &Settings,
    script: &[u8],
    replies: &[u8],
    undisturbed: usize,
    interruptions: usize,
) -> Result<(), Fail> {
    let reader = Disturbed {
        bytes: script,
        undisturbed,
        interruptions,
    };
    let (result, written) = outcome(rt, settings, 4, reader)?;
    assert_eq!(rt; result, Ok(()), "after {undisturbed}");
    assert!(rt; written.as_slice() == replies, "after {undisturbed}");
    Ok(())
}

/// The same at each place in turn, where it is interrupted less often than so.
fn expect_disturbed_anywhere(
    rt: &(impl Abort + AllocGlobal + Threads + Wait + Copy + Send + Sync + 'static),
    settings: &Settings,
    script: &[u8],
    replies: &[u8],
    most: usize,
) -> Result<(), Fail> {
    for undisturbed in 0..script.len().saturating_add(1) {
        for interruptions in 1..most {
            expect_disturbed(rt, settings, script, replies, undisturbed, interruptions)?;
        }
    }
    Ok(())
}

#[test]
fn an_interrupted_read_is_made_again(rt: HostRuntime) -> Result<(), Fail> {
    for (script, replies, most) in [(THREE, THREE_REPLIES, 4), (CALLS, CALLS_REPLIES, 2)] {
        let settings = read_settings(rt.alloc(), SMALL)?;
        expect_disturbed_anywhere(&rt, &settings, script, replies, most)?;
    }
    Ok(())
}

/// That a script gets its replies where the writer is interrupted after `undisturbed` writes, of which there are
/// `writes`.
fn expect_halting(
    rt: &(impl Abort + AllocGlobal + Threads + Wait + Copy + Send + Sync + 'static),
    settings: &Settings,
    script: &[u8],
    replies: &[u8],
    writes: usize,
    undisturbed: usize,
) -> Result<(), Fail> {
    let mut writer = Halting {
        written: Vec::new(rt.alloc()),
        undisturbed,
        is_over: false,
    };
    let mut reader = script;
    let result = run(rt, settings, 4, &mut reader, &mut writer)?;
    assert_eq!(rt; result, Ok(()), "after {undisturbed}");
    assert!(rt; writer.written.as_slice() == replies, "after {undisturbed}");
    assert_eq!(rt; writer.is_over, undisturbed < writes, "after {undisturbed}");
    Ok(())
}

/// The same at each write in turn.
fn expect_halting_anywhere(
    rt: &(impl Abort + AllocGlobal + Threads + Wait + Copy + Send + Sync + 'static),
    settings: &Settings,
    script: &[u8],
    replies: &[u8],
    writes: usize,
) -> Result<(), Fail> {
    for undisturbed in 0..replies.len() {
        expect_halting(rt, settings, script, replies, writes, undisturbed)?;
    }
    Ok(())
}

#[test]
fn an_interrupted_write_is_made_again(rt: HostRuntime) -> Result<(), Fail> {
    // 25 bytes, 12 and 16 are 9, 4 and 6 writes of three bytes; 12, 13, 24, 40 and 24 are 4, 5, 8, 14 and 8.
    for (script, replies, writes) in [(THREE, THREE_REPLIES, 19), (CALLS, CALLS_REPLIES, 39)] {
        let settings = read_settings(rt.alloc(), SMALL)?;
        expect_halting_anywhere(&rt, &settings, script, replies, writes)?;
    }
    Ok(())
}
