//! Tests of the libraries that read and write the lines of scripts, replies and settings, and of that which keeps names:
//! tables of cases, with what has to come of each. It prints how many cases each library has, and fails at the first one
//! that comes out otherwise.
#![tactic(auto)]

mod commands;
mod names;
mod replies;
mod settings;
mod tables;

use anyhow::Result;

// Prints how many cases a library has.
fn tell(rt: &HostRuntime, library: &str, cases: usize) -> Result<()> {
    println!(rt; "{library}: {cases} cases")?;
    Ok(())
}

fn main(rt: HostRuntime) -> Result<()> {
    let alloc = rt.alloc();
    tell(&rt, "wh_commands", commands::check(alloc)?)?;
    tell(&rt, "wh_replies", replies::check(alloc)?)?;
    tell(&rt, "wh_settings", settings::check(alloc)?)?;
    tell(&rt, "wh_names", names::check(alloc)?)?;
    Ok(())
}
