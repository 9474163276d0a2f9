// The runners of two instances.

ghost use Rattle.std.specs.Prelude.{IfOk};
ghost use Rattle.wh_host.specs.Rounds.{AllAreFree};

use anyhow::Result;
use std::alloc::Global;
use std::marker::Model;
use std::sync::atomic::AtomicU64;
use wh_host::{Burst, Host, RoundRunner, Runner, SeriesEnd};
use wh_space_model::InstId;

// How many pages one may write in its overlay in a round.
const WRITTEN: u16 = 2;

/// Two runners, which have no instance between rounds.
#[derive(Drop)]
pub struct Pair {
    runners: Vec<Runner>,
}

impl Model for Pair {
    ghost use Rattle.std.specs.Prelude.{List};
    ghost use Rattle.wh_host.specs.Rounds.{AllAreFree as AreAllFree};
    ghost use Rattle.wh_host.specs.declared.rounds.Runner.{Runner as OneRunner};

    ghost Value = { List OneRunner };

    ghost view = { λ t. t.runners.items };

    ghost invariant = { λ t. AreAllFree t.runners.items };
}

// Runners for these instances.
fn two_runners(alloc: Global, first: InstId, second: InstId, pages: usize) -> Result<Vec<Runner>>
    ensures { IfOk result (λ runners. AllAreFree runners.items) }
{
    let one = Runner::new(alloc, first, WRITTEN, pages)?;
    let other = Runner::new(alloc, second, WRITTEN, pages)?;
    Ok(Vec::from_array(alloc, [one, other])?)
}

impl Pair {
    /// Creates runners for these instances, with marks for `pages` pages.
    pub fn new(alloc: Global, first: InstId, second: InstId, pages: usize) -> Result<Pair> {
        let runners = two_runners(alloc, first, second, pages)?;
        Ok(Pair { runners })
    }

    /// Runs a round of bursts of `q` charges a turn, with at most `further` further turns, while `wanted` others want
    /// the memory.
    pub fn round<F: RoundRunner>(
        &mut self,
        host: &mut Host,
        fork: &F,
        q: u64,
        further: u32,
        wanted: u64,
    )
        requires { F.can fork.now }
    {
        let wanted = AtomicU64::new(wanted);
        let burst = Burst {
            quantum: q,
            further,
            wanted: Some(&wanted),
        };
        host.turns_at_once(fork, self.runners.as_mut_slice(), burst);
    }

    /// Returns the outcome of the turns of this runner.
    pub fn answer(&self, at: usize) -> Option<SeriesEnd> {
        self.runners.get(at)?.answer()
    }
}
