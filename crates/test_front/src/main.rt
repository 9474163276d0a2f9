//! Tests of what stands in front of a service: tables of paths, queries, files of tokens, fields and requests, with what has
//! to come of each. It prints how many cases each library has, and fails at the first one that comes out otherwise.
#![tactic(auto)]

mod fronts;
mod routes;
mod tables;
mod tokens;

use anyhow::Result;

// Prints how many cases a library has.
fn tell(rt: &HostRuntime, library: &str, cases: usize) -> Result<()> {
    println!(rt; "{library}: {cases} cases")?;
    Ok(())
}

fn main(rt: HostRuntime) -> Result<()> {
    let alloc = rt.alloc();
    tell(&rt, "wh_routes", routes::check()?)?;
    tell(&rt, "wh_tokens", tokens::check(alloc)?)?;
    tell(&rt, "wh_front", fronts::check(&rt)?)?;
    Ok(())
}
