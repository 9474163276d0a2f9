//! Rounds whose runners run in several threads.
//!
//! A round runs turns of several instances of a host at once (`wh_host::Host::turns_at_once`). Each reads the memory of
//! all and writes to an overlay, so they may run in threads of their own; here they do.

ghost use Rattle.std.specs.Prelude.{◌≡◌, ◌+◌, ◌<◌, true};
ghost use Rattle.wh_host.specs.Rounds.{MayRun, RunsAt};

use std::thread;
use std::thread::Threads;
use wh_host::{Round, RoundRunner, Runner};

/// Runs the runners of a round at once: each run of neighbours in a thread of its own, if one can be started, else in
/// the calling one.
#[derive(Drop)]
pub struct AtOnce<'a, R> {
    rt: &'a R,
    threads: usize,
    ghost some: { 0 < threads },
}

impl<'a, R> AtOnce<'a, R> {
    /// Creates one that uses at most `threads` threads, 1 or more.
    pub fn new(rt: &'a R, threads: usize) -> AtOnce<'a, R>
        requires { 0 < threads }
    {
        AtOnce { rt, threads }
    }
}

impl<'a, R: Threads + Sync> RoundRunner for AtOnce<'a, R> {
    ghost use Rattle.std.specs.Thread.{IsSync};

    ghost can = { λ _. IsSync R.row };

    fn run_all(&self, round: &Round, runners: &mut [Runner]) {
        thread::for_each_mut(
            self.rt,
            runners,
            self.threads,
            &|_: usize, runner: &mut Runner|
                requires { runner.now.taken ≡ true → MayRun round.now.modules.now.slots
                    round.now.memory.now runner.now }
                ensures { RunsAt round.entry.now.modules.now.slots round.entry.now.memory.now
                    round.entry.now.burst.quantum (round.entry.now.burst.further + 1)
                    runner.entry.now runner.exit.now }
            { round.run(runner) },
        );
    }
}
