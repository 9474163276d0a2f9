//! Times what a host of many is made of: the kernels, full passes, merges and breaks, copies of instances, pages that leave and
//! come, and turns; and looks how much memory instances take.
//!
//! `bench_host WORD` times what the word names: `kernels`, `pass`, `moves`, `copies`, `idle`, `revoke`, `rounds` or
//! `turns`. Without an argument it does nothing, so that what it prints never depends on the time.
#![tactic(auto)]

mod clock;
mod copies;
mod idle;
mod kernels;
mod moves;
mod pages;
mod passes;
mod pool;
mod revoking;
mod rounds;
mod turns;

use anyhow::{Result, bail};
use std::env;

fn main(rt: HostRuntime) -> Result<()> {
    let words: Vec<String> = env::args(&rt)?.collect(rt.alloc())?;
    let Some(word) = words.get(1) else {
        return Ok(());
    };
    match word.as_str() {
        "kernels" => kernels::run(&rt),
        "pass" => passes::run(&rt),
        "moves" => moves::run(&rt),
        "copies" => copies::run(&rt),
        "idle" => idle::run(&rt),
        "revoke" => revoking::run(&rt),
        "rounds" => rounds::run(&rt),
        "turns" => turns::run(&rt),
        other => bail!(
            "{other:?} is none of kernels, pass, moves, copies, idle, revoke, rounds and turns"
        ),
    }
}
