//! A script, and what it gets.

use crate::shelf::Shelf;
use anyhow::{Result, bail};
use std::alloc::Global;
use std::sync::Wait;
use std::thread::Threads;
use wh_script::run_script;
use wh_settings::{Settings, Workers, read_settings};
use wh_streams::{WatchedRead, WatchedWrite};
use wh_swap::MemSwap;

/// A script, with what it is run with and what it is to get.
pub struct Script {
    /// Its name.
    pub name: String,
    /// The document of its settings.
    pub settings: String,
    /// Whether its last line ends as the others do.
    pub is_ended: bool,
    /// Whether it was made for rounds.
    pub is_for_rounds: bool,
    /// Its lines.
    pub given: String,
    /// The replies that it is to get.
    pub wanted: String,
}

impl Drop for Script {
    fn drop(self) {
        let Script {
            name: _,
            settings: _,
            is_ended: _,
            is_for_rounds: _,
            given: _,
            wanted: _,
        } = self;
    }
}

/// Adds a line.
pub fn add_line(text: &mut String, line: &str) -> Result<()> {
    text.push_str(line)?;
    text.push_str("\n")?;
    Ok(())
}

/// What is written where these lines are obeyed, and `workers` threads run calls.
fn written(
    rt: &(impl AllocGlobal + Threads + Wait + Copy + Send + Sync + 'static),
    shelf: &Shelf,
    settings: &Settings,
    workers: Workers,
    lines: &str,
) -> Result<Vec<u8>> {
    let alloc = rt.alloc();
    let device = MemSwap::new(alloc, settings.slots)?;
    let mut reader = WatchedRead::new(lines.as_bytes());
    let mut writer = WatchedWrite::new(Vec::new(alloc));
    let (outcome, _, _) = run_script(
        *rt,
        alloc,
        settings,
        workers,
        shelf,
        device,
        &mut reader,
        &mut writer,
    );
    match outcome {
        Ok(()) => Ok(writer.into_inner()),
        Err(fault) => bail!("the script stops: {fault}"),
    }
}

/// A text without its lines that begin with `#`.
fn without_reports(alloc: Global, text: &str) -> Result<String> {
    let mut kept = String::new(alloc);
    for line in text.split_inclusive('\n') {
        if !line.starts_with('#') {
            kept.push_str(line)?;
        }
    }
    Ok(kept)
}

/// Returns the number of lines of a text.
pub fn count_lines(text: &str) -> usize {
    text.split_terminator('\n').count()
}

impl Script {
    /// Returns what it gets from this number of workers, without reports.
    pub fn replies(
        &self,
        rt: &(impl AllocGlobal + Threads + Wait + Copy + Send + Sync + 'static),
        shelf: &Shelf,
        workers: Workers,
    ) -> Result<String> {
        let alloc = rt.alloc();
        let settings = match read_settings(alloc, self.settings.as_bytes()) {
            Ok(settings) => settings,
            Err(error) => bail!("{error}"),
        };
        let lines = if self.is_ended {
            self.given.as_str()
        } else {
            self.given.strip_suffix('\n').unwrap_or_default()
        };
        let bytes = written(rt, shelf, &settings, workers, lines)?;
        match str::from_utf8(&bytes) {
            Ok(text) => without_reports(alloc, text),
            Err(_) => bail!("the replies aren't text"),
        }
    }

    /// Prints where the replies from `workers` workers first differ from those wanted.
    pub fn print_difference(&self, rt: &impl Print, workers: u8, replies: &str) -> Result<()> {
        let name = self.name.as_str();
        let mut found = replies.split('\n');
        let mut number = 0usize;
        for wanted in self.wanted.split('\n') {
            number = number.saturating_add(1);
            let came = found.next().unwrap_or("nothing");
            if came != wanted {
                println!(rt;
                    "script {name} by {workers}, reply {number}: wanted {wanted:?}; came {came:?}"
                )?;
                return Ok(());
            }
        }
        println!(rt; "script {name} by {workers}: more than {number} replies")?;
        Ok(())
    }
}
