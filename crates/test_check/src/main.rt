//! Tests of `wh_explain`: tables of modules, settings and lines of scripts, with what has to be said of each. It prints how many
//! cases each table has, and fails at the first that comes out otherwise.
#![tactic(auto)]

mod large;
mod later;
mod lines;
mod modules;
mod objects;
mod settings;
mod types;

use anyhow::Result;

// Prints how many cases there are of a kind.
fn tell(rt: &HostRuntime, kind: &str, cases: usize) -> Result<()> {
    println!(rt; "{kind}: {cases} cases")?;
    Ok(())
}

fn main(rt: HostRuntime) -> Result<()> {
    let alloc = rt.alloc();
    tell(&rt, "modules", modules::check(alloc)?)?;
    tell(&rt, "types and indices", types::check(alloc)?)?;
    tell(&rt, "later parts", later::check(alloc)?)?;
    tell(&rt, "large modules", large::check(alloc)?)?;
    tell(&rt, "settings", settings::check(alloc)?)?;
    tell(&rt, "lines", lines::check(alloc)?)?;
    tell(&rt, "objects", objects::check(alloc)?)?;
    Ok(())
}
