// Two hosts to which the same happens: on one turns are taken at once, on the other one after the other.

use crate::guest::PAGER;
use crate::pair::Pair;
use anyhow::{Context, Result, ensure};
use std::alloc::Global;
use test_random::Random;
use wh_host::{Host, Params, Quota, RoundRunner, SeriesEnd};
use wh_host_model::TurnEnd;
use wh_kernels::FnvHash;
use wh_space_model::{InstId, Tax};

// How many calls a journal has at most.
const MOST_CALLS: u32 = 65536;

// Where calls read and write: on few pages, at their ends too.
const PLACES: [u32; 8] = [0, 8, 4092, 4096, 8192, 12288, 16380, 61440];

/// In how many rounds how many turns were taken at once, how often they came to what, how often runners had no instance, how often both
/// had theirs, and how often somebody wanted the memory.
#[derive(Clone, Copy, Debug, Default)]
pub struct Counts {
    pub rounds: u32,
    pub turns: u64,
    pub ended: u32,
    pub again: u32,
    pub stood: u32,
    pub cut: u32,
    pub several: u32,
    pub alone: u32,
    pub both: u32,
    pub wanted: u32,
}

/// The two hosts with two instances each, and the runners of the first.
#[derive(Drop)]
pub struct Twins {
    together: Host,
    apart: Host,
    ids: [InstId; 2],
    pair: Pair,
    random: Random,
    pub counts: Counts,
}

fn more(times: &mut u32) {
    *times = times.saturating_add(1);
}

// What each instance is given.
fn given(alloc: Global) -> Params {
    Params {
        quota: Quota {
            shares: 100,
            min_frames: 2,
            max_frames: 16,
        },
        fuel: 0,
        base: 0,
        salt: 0,
        inputs: Vec::new(alloc),
    }
}

// A host with `frames` frames and two instances.
fn new_host(alloc: Global, frames: u32) -> Result<(Host, [InstId; 2])> {
    let mut host = Host::new(alloc, frames, 64, Tax { num: 0, den: 1 })?;
    let module = host.load(alloc, &PAGER)?;
    let first = host.admit(alloc, module, given(alloc))?;
    let second = host.admit(alloc, module, given(alloc))?;
    Ok((host, [first, second]))
}

impl Twins {
    /// Creates both hosts as they are initially. Runners have marks for `pages` pages.
    pub fn new(alloc: Global, frames: u32, pages: usize, seed: u64) -> Result<Twins> {
        let (together, ids) = new_host(alloc, frames)?;
        let (apart, same) = new_host(alloc, frames)?;
        ensure!(ids == same, "the hosts differ");
        let pair = Pair::new(alloc, ids[0], ids[1], pages)?;
        Ok(Twins {
            together,
            apart,
            ids,
            pair,
            random: Random::new(seed),
            counts: Counts::default(),
        })
    }

    fn some_place(&mut self) -> i128 {
        let at = self.random.below(8) as usize;
        i128::from(PLACES.get(at).copied().unwrap_or(0))
    }

    fn some_byte(&mut self) -> i128 {
        i128::from(self.random.below(3))
    }

    // Both instances are asked for a call, and it has the same place in both journals.
    fn ask(&mut self, alloc: Global, id: InstId) -> Result<()> {
        let place = self.some_place();
        let other = self.some_place();
        let byte = self.some_byte();
        let (name, given, count) = match self.random.below(6) {
            0 => ("set8", [place, byte, 0], 2),
            1 => ("get8", [place, 0, 0], 1),
            2 => ("set", [place, byte, 0], 2),
            3 => ("get", [place, 0, 0], 1),
            4 => ("two", [place, other, byte], 3),
            _ => ("wide", [0, 0, 0], 0),
        };
        let given = given.get(..count).context("it has fewer arguments")?;
        let at = self.together.invoke(alloc, id, name, given, 20)?;
        let same = self.apart.invoke(alloc, id, name, given, 20)?;
        ensure!(at == same, "a call stands elsewhere");
        Ok(())
    }

    fn ask_all(&mut self, alloc: Global) -> Result<()> {
        for id in self.ids {
            if !self.together.can_go_on(id) {
                self.ask(alloc, id)?;
            }
        }
        Ok(())
    }

    fn count(&mut self, came: SeriesEnd, q: u64) {
        self.counts.turns = self.counts.turns.saturating_add(came.turns);
        match came.end {
            TurnEnd::Ended => more(&mut self.counts.ended),
            TurnEnd::Frame => more(&mut self.counts.stood),
            _ => more(&mut self.counts.again),
        }
        if came.turns > 1 {
            more(&mut self.counts.several);
        }
        if came.end == TurnEnd::Again && came.charges < came.turns.saturating_mul(q) {
            more(&mut self.counts.cut);
        }
    }

    // A series of turns that was taken beside others, one turn after the other: each but the last can go on after it.
    fn follow_one(&mut self, id: InstId, came: SeriesEnd, q: u64) -> Result<()> {
        ensure!(came.turns > 0, "a series has no turn");
        for _ in 1..came.turns {
            let (end, _) = self.apart.turn(id, q);
            ensure!(
                end == TurnEnd::Again,
                "a turn before the last is answered {end:?}"
            );
        }
        let before = (came.turns - 1).saturating_mul(q);
        ensure!(
            before <= came.charges,
            "turns took fewer charges than all but the last"
        );
        let left = match came.end {
            TurnEnd::Again => came.charges - before,
            _ => q,
        };
        ensure!(left <= q, "a turn took more charges than it had");
        let (end, charges) = self.apart.turn(id, left);
        ensure!(
            end == came.end,
            "the last turn is answered {end:?} and {:?}",
            came.end
        );
        ensure!(
            charges == came.charges - before,
            "the last turn took {charges} charges, and {} beside others",
            came.charges - before
        );
        Ok(())
    }

    // The turns that were taken at once, one after the other. How many instances had some.
    fn follow(&mut self, q: u64) -> Result<u32> {
        let mut taken = 0u32;
        for at in 0..self.ids.len() {
            if let Some(came) = self.pair.answer(at) {
                self.follow_one(self.ids[at], came, q)?;
                self.count(came, q);
                more(&mut taken);
            }
        }
        Ok(taken)
    }

    // A turn of this instance on both hosts, which is answered the same. Where it waits for a frame its call ends.
    fn turn(&mut self, id: InstId, q: u64) -> Result<()> {
        let (end, charges) = self.together.turn(id, q);
        let other = self.apart.turn(id, q);
        ensure!(
            other == (end, charges),
            "a turn is answered {other:?} and {end:?} in {charges} charges"
        );
        if end == TurnEnd::Frame {
            self.cancel(id)?;
        }
        Ok(())
    }

    // Those that had no turn have one of their own, and so have those that were stopped before all their charges were taken.
    fn turn_others(&mut self, q: u64) -> Result<()> {
        for at in 0..self.ids.len() {
            match self.pair.answer(at) {
                None => {
                    more(&mut self.counts.alone);
                    self.turn(self.ids[at], q)?;
                }
                Some(came) => {
                    if came.end == TurnEnd::Again {
                        self.turn(self.ids[at], q)?;
                    }
                }
            }
        }
        Ok(())
    }

    // No frame is brought to it: its call ends.
    fn cancel(&mut self, id: InstId) -> Result<()> {
        self.together.cancel(id)?;
        Ok(self.apart.cancel(id)?)
    }

    // Whether both report the same.
    fn compare(&self, alloc: Global) -> Result<()> {
        let one = self.together.report(alloc)?;
        let other = self.apart.report(alloc)?;
        ensure!(
            one.usage == other.usage && one.instances.as_slice() == other.instances.as_slice(),
            "reports differ"
        );
        Ok(())
    }

    // Somebody wanted the memory: each instance had one turn at most.
    fn look_for_series(&mut self) -> Result<()> {
        for at in 0..self.ids.len() {
            if let Some(came) = self.pair.answer(at) {
                more(&mut self.counts.wanted);
                ensure!(came.turns == 1, "turns went on: {came:?}");
            }
        }
        Ok(())
    }

    fn round<F: RoundRunner>(&mut self, alloc: Global, fork: &F) -> Result<()>
        requires { F.can fork.now }
    {
        self.ask_all(alloc)?;
        let q = u64::from(self.random.below(5));
        let further = self.random.below(4) as u32;
        let wanted = u64::from(self.random.below(4) / 3);
        self.pair
            .round(&mut self.together, fork, q, further, wanted);
        let taken = self.follow(q)?;
        if taken > 0 {
            more(&mut self.counts.rounds);
        }
        if wanted > 0 {
            self.look_for_series()?;
        }
        if taken == 2 {
            more(&mut self.counts.both);
        }
        self.turn_others(q)?;
        if self.random.below(16) == 0 {
            let one = self.together.scan(&FnvHash);
            let other = self.apart.scan(&FnvHash);
            ensure!(one == other, "other pages were looked at");
        }
        self.compare(alloc)
    }

    // All calls have come to the same.
    fn compare_calls(&self) -> Result<()> {
        for id in self.ids {
            for at in 0..MOST_CALLS {
                let Some(status) = self.together.call_status(id, at) else {
                    break;
                };
                let other = self.apart.call_status(id, at);
                ensure!(
                    other == Some(status),
                    "call {at} came to {status:?} and {other:?}"
                );
            }
        }
        Ok(())
    }

    /// Runs `rounds` rounds, beside which the same turns are taken one after the other.
    pub fn run<F: RoundRunner>(&mut self, alloc: Global, fork: &F, rounds: u32) -> Result<()>
        requires { F.can fork.now }
    {
        for round in 0..rounds {
            self.round(alloc, fork)
                .context(format_args!("round {round}"))?;
        }
        self.compare_calls()
    }
}
