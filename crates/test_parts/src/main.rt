//! Tests of the small libraries: tables of cases, with what has to come of each. It prints how many cases each library
//! has, and fails at the first one that comes out otherwise.
#![tactic(auto)]

mod admit;
mod arguments;
mod charges;
mod content;
mod flatmem;
mod frames;
mod intops;
mod journal;
mod kept;
mod kernels;
mod pages;
mod plain;
mod swap;
mod tables;
mod tax;
mod walk;

use anyhow::Result;

// Prints how many cases a library has.
fn tell(rt: &HostRuntime, library: &str, cases: usize) -> Result<()> {
    println!(rt; "{library}: {cases} cases")?;
    Ok(())
}

fn main(rt: HostRuntime) -> Result<()> {
    let alloc = rt.alloc();
    tell(&rt, "wh_intops", intops::check()?)?;
    tell(&rt, "wh_flatmem", flatmem::check(alloc)?)?;
    tell(&rt, "wh_journal", journal::check(alloc)?)?;
    tell(&rt, "wh_kernels", kernels::check()?)?;
    tell(&rt, "wh_frames", frames::check(alloc)?)?;
    tell(&rt, "wh_pages", pages::check(alloc)?)?;
    tell(&rt, "wh_tables", charges::check(alloc)?)?;
    let lists = walk::check(alloc)?;
    println!(rt; "wh_tables: {lists} random lists")?;
    tell(&rt, "wh_content", content::check(alloc)?)?;
    tell(&rt, "wh_swap", swap::check(alloc)?)?;
    tell(&rt, "wh_reclaim", tax::check()?)?;
    tell(&rt, "wh_admit", admit::check(alloc)?)?;
    tell(&rt, "wh_instance", arguments::check(alloc)?)?;
    Ok(())
}
