//! Scripts that are run, and what has to come of them.

use crate::fakes::Shelf;
use std::alloc::{AllocError, Global};
use std::io::{Read, Write};
use std::process::Abort;
use std::sync::Wait;
use std::test::Fail;
use std::thread::Threads;
use wh_script::{ScriptFault, run_script};
use wh_settings::{Settings, Workers, read_settings};
use wh_streams::{WatchedRead, WatchedWrite};
use wh_swap::MemSwap;

/// With how many workers each script is run: one at a time, and several side by side.
pub const NUMBERS: [u8; 3] = [1, 2, 8];

/// Runs a script with these settings and `number` workers, on a device of its own and with the modules to load.
pub fn run<R: Read, W: Write>(
    rt: &(impl AllocGlobal + Threads + Wait + Copy + Send + Sync + 'static),
    settings: &Settings,
    number: u8,
    reader: &mut R,
    writer: &mut W,
) -> Result<Result<(), ScriptFault>, AllocError> {
    let alloc = rt.alloc();
    let device = MemSwap::new(alloc, settings.slots)?;
    let workers = Workers::new(number).unwrap_or(Workers::default());
    let mut reader = WatchedRead::new(reader);
    let mut writer = WatchedWrite::new(writer);
    let (result, _, _) = run_script(
        *rt,
        alloc,
        settings,
        workers,
        &Shelf,
        device,
        &mut reader,
        &mut writer,
    );
    Ok(result)
}

/// Returns what a script gets: its result, and the text that was written.
pub fn outcome<R: Read>(
    rt: &(impl AllocGlobal + Threads + Wait + Copy + Send + Sync + 'static),
    settings: &Settings,
    number: u8,
    mut reader: R,
) -> Result<(Result<(), ScriptFault>, Vec<u8>), AllocError>
where
    R: Drop,
{
    let mut written = Vec::new(rt.alloc());
    let result = run(rt, settings, number, &mut reader, &mut written)?;
    Ok((result, written))
}

/// Expects that a script gets these replies with these settings and this number of workers.
pub fn expect_with(
    rt: &(impl Abort + AllocGlobal + Threads + Wait + Copy + Send + Sync + 'static),
    settings: &Settings,
    number: u8,
    script: &[u8],
    replies: &str,
) -> Result<(), Fail> {
    let (result, written) = outcome(rt, settings, number, script)?;
    assert_eq!(rt; result, Ok(()), "{replies}");
    assert_eq!(rt; str::from_utf8(written.as_slice()), Ok(replies));
    Ok(())
}

/// Expects that a script gets these replies with these settings, and with each number of workers.
pub fn expect_each(
    rt: &(impl Abort + AllocGlobal + Threads + Wait + Copy + Send + Sync + 'static),
    settings: &Settings,
    script: &[u8],
    replies: &str,
) -> Result<(), Fail> {
    for number in NUMBERS {
        expect_with(rt, settings, number, script, replies)?;
    }
    Ok(())
}

/// Expects that a script gets these replies, with settings as a document says them, and with each number of workers.
pub fn expect(
    rt: &(impl Abort + AllocGlobal + Threads + Wait + Copy + Send + Sync + 'static),
    settings: &str,
    script: &str,
    replies: &str,
) -> Result<(), Fail> {
    let settings = read_settings(rt.alloc(), settings.as_bytes())?;
    expect_each(rt, &settings, script.as_bytes(), replies)
}

/// A script, and what it has to get.
struct Table {
    script: String,
    replies: String,
}

impl Drop for Table {
    fn drop(self) {
        let Table {
            script: _,
            replies: _,
        } = self;
    }
}

impl Table {
    /// Lines of a script, each beside what is written in answer to it. What is written at the end of the script stands
    /// beside an empty line.
    fn new(alloc: Global, lines: &[(&str, &str)]) -> Result<Table, AllocError> {
        let mut script = String::new(alloc);
        let mut replies = String::new(alloc);
        for (line, reply) in lines {
            script.push_str(line)?;
            script.push('\n')?;
            replies.push_str(reply)?;
        }
        Ok(Table { script, replies })
    }
}

/// Expects that a script gets its replies, line by line as `Table::new` takes them. Turns of one charge have to give
/// the same.
pub fn expect_lines(
    rt: &(impl Abort + AllocGlobal + Threads + Wait + Copy + Send + Sync + 'static),
    settings: &str,
    lines: &[(&str, &str)],
) -> Result<(), Fail> {
    let table = Table::new(rt.alloc(), lines)?;
    expect(rt, settings, &table.script, &table.replies)?;
    let short = format!(in rt.alloc(); "quantum = 1\n{settings}")?;
    expect(rt, &short, &table.script, &table.replies)
}

/// Expects that each of these scripts gets its replies, with settings as its document says them.
pub fn expect_all(
    rt: &(impl Abort + AllocGlobal + Threads + Wait + Copy + Send + Sync + 'static),
    scripts: &[(&str, &[(&str, &str)])],
) -> Result<(), Fail> {
    for (settings, lines) in scripts {
        expect_lines(rt, settings, lines)?;
    }
    Ok(())
}

/// A text without its lines that begin with `#`.
fn without_reports(alloc: Global, text: &str) -> Result<String, AllocError> {
    let mut kept = String::new(alloc);
    for line in text.split_inclusive('\n') {
        if !line.starts_with('#') {
            kept.push_str(line)?;
        }
    }
    Ok(kept)
}

/// How many frames are in use by a line of a report, if it says so.
fn frames_in_use(line: &str) -> Option<u32> {
    let (_, behind) = line.split_once(" used ")?;
    let (used, _) = behind.split_once(' ')?;
    if !line.starts_with("# frames ") {
        return None;
    }
    used.parse().ok()
}

/// That by each report in a text from `least` to `most` frames are in use.
fn expect_used(rt: &impl Abort, text: &str, least: u32, most: u32) {
    for line in text.split_terminator('\n') {
        if let Some(used) = frames_in_use(line) {
            assert!(rt; used >= least && used <= most, "{line}");
        }
    }
}

/// The same as `expect_frames` asks, with these settings and `number` workers.
fn expect_frames_with(
    rt: &(impl Abort + AllocGlobal + Threads + Wait + Copy + Send + Sync + 'static),
    settings: &Settings,
    number: u8,
    table: &Table,
    least: u32,
    most: u32,
) -> Result<(), Fail> {
    let (result, written) = outcome(rt, settings, number, table.script.as_bytes())?;
    assert_eq!(rt; result, Ok(()), "{least} to {most} frames");
    let text = str::from_utf8(written.as_slice()).unwrap_or("no text");
    let replies = without_reports(rt.alloc(), text)?;
    assert_eq!(rt; replies.as_str(), table.replies.as_str());
    expect_used(rt, text, least, most);
    Ok(())
}

/// The same with each number of workers.
fn expect_frames_each(
    rt: &(impl Abort + AllocGlobal + Threads + Wait + Copy + Send + Sync + 'static),
    settings: &Settings,
    table: &Table,
    least: u32,
    most: u32,
) -> Result<(), Fail> {
    for number in NUMBERS {
        expect_frames_with(rt, settings, number, table, least, most)?;
    }
    Ok(())
}

/// Expects that a script gets its replies in turns of one charge, where its reports depend on what a scanner came to
/// see while calls ran: in each of them from `least` to `most` frames are in use.
pub fn expect_frames(
    rt: &(impl Abort + AllocGlobal + Threads + Wait + Copy + Send + Sync + 'static),
    settings: &str,
    lines: &[(&str, &str)],
    least: u32,
    most: u32,
) -> Result<(), Fail> {
    let alloc = rt.alloc();
    let table = Table::new(alloc, lines)?;
    let short = format!(in alloc; "quantum = 1\n{settings}")?;
    let settings = read_settings(alloc, short.as_bytes())?;
    expect_frames_each(rt, &settings, &table, least, most)
}
