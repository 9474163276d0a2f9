//! Makes calls on the machine as tables say, and compares what comes with what they want.
//!
//! `test_machine TABLE ..` reads tables one after the other; `programs/README.md` says what their lines mean and where
//! the expectations come from. For each module a line says how many of them agree with what came and how many differ,
//! and before it there is a line for each that differs, with what was wanted and what came. The status is 1 where one
//! differs, or a line isn't understood. Last it makes calls from a module's bytes to what they come to, in one
//! function. The depth of calls and the type of a result are read and not compared: the machine doesn't show them.
#![tactic(auto)]

mod alone;
mod expected;
mod found;
mod line;
mod session;
mod trial;

use anyhow::{Context, Result, bail, ensure};
use session::Session;
use std::rt::{Env, Files};
use std::{env, fs};

/// Obeys the lines of a table.
fn run_table(
    rt: &(impl Files + Print + AllocGlobal),
    session: &mut Session,
    path: &str,
) -> Result<()> {
    let text = fs::read_to_string(rt, path)?;
    for line in text.lines() {
        if line.is_empty() || line.starts_with('#') {
            continue;
        }
        session.take(rt, line)?;
    }
    session.finish(rt)
}

/// Obeys all tables that are named, and says how many these are.
fn run_tables(
    rt: &(impl Env + Files + Print + AllocGlobal),
    session: &mut Session,
) -> Result<usize> {
    let mut tables = 0usize;
    for path in env::args(rt)?.skip(1) {
        println!(rt; "{path}:")?;
        run_table(rt, session, &path).context(format_args!("{path}"))?;
        tables = tables.saturating_add(1);
    }
    ensure!(tables > 0, "no table is named");
    Ok(tables)
}

/// Obeys the tables, makes the calls of one function, and says how all fared.
fn run_session(rt: &(impl Env + Files + Print + AllocGlobal), session: &mut Session) -> Result<()> {
    let tables = run_tables(rt, session)?;
    alone::try_calls(rt)?;
    let sums = session.sums();
    println!(rt;
        "{tables} tables, {} modules: {} agree, {} differ",
        session.modules(),
        sums.agreed,
        sums.wrong
    )?;
    if sums.wrong > 0 {
        bail!("{} expectations differ from what came", sums.wrong);
    }
    Ok(())
}

fn main(rt: HostRuntime) -> Result<()> {
    let mut session = Session::new(rt.alloc());
    run_session(&rt, &mut session)
}
