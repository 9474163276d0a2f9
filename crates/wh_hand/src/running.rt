//! Runs of all calls.

ghost use Rattle.std.specs.Prelude.{◌≡◌, ◌-◌, ◌≤◌, IfNone, IfSome};
ghost use Rattle.wh_reclaim.specs.Whole.{IsAsWhole};
ghost use Rattle.wh_host.specs.Hosting.{IsHost};
ghost use Rattle.wh_host.specs.Paging.{Tells};
ghost use Rattle.wh_host_model.specs.Host.Worlds.{World};
ghost use Rattle.wh_hand.specs.Running.{RunsAll, AnyGoesOn};
ghost use Rattle.wh_hand.specs.RunCounting.{CountsRun};
ghost use Rattle.wh_hand.specs.RunParts.{LeavesOf, RunsPart};

use crate::going::{advance, begin_epoch};
use crate::hand::Hand;

/// The outcome of a run.
#[derive(Clone, Copy, Debug, PartialEq, Eq)]
pub struct Ran {
    /// How many charges all calls together have taken.
    pub charges: u64,
    /// Whether a call can go on.
    pub goes_on: bool,
}

impl Hand {
    // Whether a call can go on.
    fn goes_on(&self) -> bool
        ensures { Tells self.now.host result AnyGoesOn }
    {
        !self.line.is_empty()
    }

    // Runs a turn of at most `most` charges of the instance that is first in the line.
    fn turn(&mut self, most: u64) -> Option<u64>
        requires { 1 ≤ most }
        ensures none { IfNone result ((w : World) → IsHost self.old.host w → ¬ AnyGoesOn w) }
        ensures same { IfNone result (self.new.host ≡ self.old.host) }
        ensures runs { IfSome result (λ taken. RunsPart self.old.host taken 1 self.new.host) }
        ensures counts { IfSome result (λ taken.
            CountsRun self.old.host.counts taken self.new.host.counts) }
        ensures within { IfSome result (λ taken. taken ≤ most) }
        ensures whole { IsAsWhole self.old.host.space self.new.host.space }
        ensures output { self.new.output ≡ self.old.output }
    {
        advance(
            &mut self.host,
            &mut self.device,
            &mut self.page,
            &mut self.line,
            &mut self.pace,
            most,
        )
    }

    // Begins a new epoch, where it is time for one and a call can go on.
    fn begin(&mut self)
        ensures runs { RunsPart self.old.host 0 0 self.new.host }
        ensures counts { CountsRun self.old.host.counts 0 self.new.host.counts }
        ensures whole { IsAsWhole self.old.host.space self.new.host.space }
        ensures output { self.new.output ≡ self.old.output }
    {
        if self.line.is_empty() {
            return;
        }
        begin_epoch(&mut self.host, &mut self.pace);
    }

    // Runs turns until no call can make progress, or `charges` charges are taken; returns how many are left.
    fn take(&mut self, charges: u64) -> u64
        ensures leaves { LeavesOf self.old.host charges result self.new.host }
        ensures counts { CountsRun self.old.host.counts (charges - result) self.new.host.counts }
        ensures few { result ≤ charges }
        ensures whole { IsAsWhole self.old.host.space self.new.host.space }
        ensures output { self.new.output ≡ self.old.output }
    {
        let mut left = charges;
        for turns in 0..u64::MAX {
            if left == 0 {
                return 0;
            }
            let Some(taken) = self.turn(left) else {
                return left;
            };
            left -= taken;
        }
        left
    }

    /// Runs the calls of all instances, until none can make progress or they have taken `charges` charges together.
    /// They take turns of 1000 charges at most, one instance after the other; a step that waits for a frame is made
    /// ready before its turn; for each 32 turns a page is offered for sharing. A run that begins after 1000000 charges
    /// since the last epoch begins a new one.
    ///
    /// Allocates nothing, and looks at no instance that can't make progress, but for new epochs, which go over all
    /// pages.
    pub fn run(&mut self, charges: u64) -> Ran
        ensures runs { RunsAll 1000 self.old.host charges result self.new.host }
        ensures counts { CountsRun self.old.host.counts result.charges self.new.host.counts }
        ensures whole { IsAsWhole self.old.host.space self.new.host.space }
        ensures output { self.new.output ≡ self.old.output }
    {
        self.begin();
        let left = self.take(charges);
        Ran {
            charges: charges - left,
            goes_on: self.goes_on(),
        }
    }
}
