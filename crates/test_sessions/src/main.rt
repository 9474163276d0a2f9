//! Runs scripts as tables say, and compares what is replied with what they want.
//!
//! `test_sessions TABLE ..` reads tables one after the other; `README.md` says what their lines mean and where the
//! wanted replies come from. For each table a line says how many scripts agree, how many replies these get, and how
//! many scripts differ; before it there is a line for each that differs, with its name and its first difference. The
//! status is 1 where one differs, or a line isn't understood. Lines of replies that begin with `#` aren't compared.
//! Calls are run by 1, 2, 5 and 64 threads: each script takes the next of these numbers, and the fifth the first again.
//! Scripts made for rounds are run by 1, 2, 4 and 8, each by all of these.
#![tactic(auto)]

mod line;
mod script;
mod session;
mod shelf;

use anyhow::{Context, Result, bail, ensure};
use session::Session;
use std::rt::{Env, Files};
use std::sync::Wait;
use std::thread::Threads;
use std::{env, fs};

/// Obeys the lines of a table.
fn run_table(
    rt: &(impl Files + Print + AllocGlobal + Threads + Wait + Copy + Send + Sync + 'static),
    session: &mut Session,
    path: &str,
) -> Result<()> {
    let text = fs::read_to_string(rt, path)?;
    for line in text.split_terminator('\n') {
        session.take(rt, line)?;
    }
    session.finish(rt)
}

/// Obeys the tables that are named, and says how their scripts fared.
fn run(
    rt: &(impl Env + Files + Print + AllocGlobal + Threads + Wait + Copy + Send + Sync + 'static),
    session: &mut Session,
) -> Result<()> {
    let mut tables = 0usize;
    for path in env::args(rt)?.skip(1) {
        run_table(rt, session, &path).context(format_args!("{path}"))?;
        let table = session.end_table();
        println!(rt; "{path}: {table}")?;
        tables = tables.saturating_add(1);
    }
    ensure!(tables > 0, "no table is named");
    let sums = session.sums();
    println!(rt; "{tables} tables: {sums}")?;
    if sums.wrong > 0 {
        bail!("{} scripts get other replies than they are to", sums.wrong);
    }
    Ok(())
}

fn main(rt: HostRuntime) -> Result<()> {
    let mut session = Session::new(rt.alloc());
    run(&rt, &mut session)
}
