//! Rounds: turns of several instances whose series a worker has received, at once.

ghost use Rattle.std.specs.Prelude.{◌≡◌, ◌+◌, ◌-◌, ◌<◌, ◌≤◌, ◌^◌, true, length};
ghost use Rattle.wh_host.specs.Rounds.{AllAreFree};
ghost use Rattle.wh_threads.specs.Working.{turns_due};
ghost use Rattle.wh_cell.specs.RoundCounts.{AreReceived};

use std::alloc::{AllocError, Global};
use std::marker::Model;
use std::sync::atomic::{AtomicU64, Ordering};
use std::sync::ledger::Ledger;
use wh_cell::{CellAgreements, Locked};
use wh_host::{Burst, RoundRunner, Runner};
use wh_host_model::TurnEnd;
use wh_space_model::InstId;
use wh_swap::SwapDev;
use wh_threads::{ReceivedTurns, Worker};

// How many instances are in a round at most.
pub(crate) const MOST_AT_ONCE: usize = 32;

// How many pages an instance writes in a round at most: after as many its part of the round ends.
const WRITTEN_PAGES: u16 = 64;

// Of how many pages a memory has at most whose instance is in a round: 64 MB. A runner has a mark of four bytes for each.
const PAGES: usize = 16384;

// How many turns of each instance a round has at least after its first one, if its series have as many.
const FEWEST_FURTHER: u32 = 63;

// How many rounds in a row may end for want of room for what an instance writes before it is in none for a while.
const MOST_SHORT_ROUNDS: u32 = 2;

// How many of its series are in no round then.
const SERIES_ALONE: u32 = 16;

// How many instances are remembered of which rounds ended so: the last one of those whose places are equal modulo this.
const PLACES: usize = 64;

// No instance in particular.
const NOBODY: InstId = InstId {
    place: 0,
    number: 0,
};

const NO_ROUNDS: RoundsOf = RoundsOf {
    id: NOBODY,
    short: 0,
    alone: 0,
};

// How the last rounds of an instance ended.
#[derive(Clone, Copy)]
struct RoundsOf {
    id: InstId,
    // How many in a row ended for want of room for what it writes.
    short: u32,
    // How many further series of it are in no round.
    alone: u32,
}

/// For how long the series of a round run at most.
#[derive(Clone, Copy)]
pub struct Aim<'a> {
    /// How many charges each turn has.
    pub quantum: u32,
    /// How many turns of each instance come after its first one.
    pub further: u32,
    /// How many want the host's lock: the round ends once there is somebody.
    pub wanted: &'a AtomicU64,
}

/// Room for the runners of rounds. None has an instance between rounds.
#[derive(Drop)]
pub struct RoundRoom {
    alloc: Global,
    runners: Vec<Runner>,
    // How many turns of an instance come in a round after its first one at most: fewer where one had to stop in the
    // last round.
    longest: u32,
    // How rounds ended, by the instances' places modulo `PLACES`.
    rounds: [RoundsOf; PLACES],
}

impl Model for RoundRoom {
    ghost use Rattle.std.specs.Prelude.{List};
    ghost use Rattle.wh_host.specs.Rounds.{AllAreFree as AllFree};
    ghost use Rattle.wh_host.specs.declared.rounds.Runner.{Runner as RunnerState};

    ghost Value = { List RunnerState };

    ghost view = { λ r. r.runners.items };

    ghost invariant = { λ r. AllFree r.runners.items };
}

impl RoundRoom {
    /// Reserves room for rounds of at most `most` instances; the runners themselves are created when a round first has
    /// that many.
    ///
    /// # Errors
    /// `AllocError` if an allocation fails.
    pub fn new(alloc: Global, most: usize) -> Result<RoundRoom, AllocError> {
        let runners = Vec::with_capacity(alloc, most)?;
        Ok(RoundRoom {
            alloc,
            runners,
            longest: u32::MAX,
            rounds: [NO_ROUNDS; PLACES],
        })
    }

    // Creates runners until there are `many`; tells whether there are. Else an allocation failed, or there is no room for
    // that many.
    fn fit(&mut self, many: usize) -> bool
        ensures { result ≡ true → many ≤ length self.new }
    {
        while self.runners.len() < many {
            if self.runners.len() == self.runners.capacity() {
                return false;
            }
            let Ok(runner) = Runner::new(self.alloc, NOBODY, WRITTEN_PAGES, PAGES) else {
                return false;
            };
            self.runners.push_reserved(runner);
        }
        true
    }
}

// Whether a runner's instance could go on, and stopped before it had all turns of the round.
fn stopped_short(runner: &Runner, turns: u64) -> bool {
    match runner.answer() {
        Some(end) => end.turns < turns && end.end == TurnEnd::Again,
        None => false,
    }
}

// Whether each of these instances had all turns of the round.
fn had_all(runners: &[Runner], turns: u64) -> bool {
    for runner in runners {
        let had = match runner.answer() {
            Some(end) => end.turns,
            None => 0,
        };
        if had < turns {
            return false;
        }
    }
    true
}

// Gives each runner to the instance of one of these series. Tells whether each series has turns of as many charges as
// the aim says, and as many turns.
fn give_all(runners: &mut [Runner], orders: &[ReceivedTurns], aim: Aim) -> bool
    requires free { AllAreFree runners.old }
    requires many { length runners.old ≡ length orders.now }
    ensures free { AllAreFree runners.new }
    ensures received { result ≡ true → AreReceived aim.entry.quantum (aim.entry.further + 1) runners.new orders.now }
{
    for at in 0..runners.len() {
        let order = &orders[at];
        if order.quantum() != aim.quantum || order.count() <= aim.further {
            return false;
        }
        runners[at].give(order.instance());
    }
    true
}

impl RoundRoom {
    /// Returns whether the next series of an instance is to be in no round, since rounds ended for want of room for what it writes:
    /// it would be copied out and back for a few turns. That is so for some series, of which this is one.
    pub fn leaves_out(&mut self, id: InstId) -> bool
        ensures { self.new ≡ self.old }
    {
        let rounds = &mut self.rounds[id.place % PLACES];
        if rounds.id != id || rounds.alone == 0 {
            return false;
        }
        rounds.alone -= 1;
        true
    }

    // Notes whether a round ended for want of room for what an instance writes.
    fn note(&mut self, id: InstId, is_short: bool)
        ensures { self.new ≡ self.old }
    {
        let rounds = &mut self.rounds[id.place % PLACES];
        if rounds.id != id {
            *rounds = RoundsOf { id, ..NO_ROUNDS };
        }
        rounds.short = if is_short {
            rounds.short.saturating_add(1)
        } else {
            0
        };
        if rounds.short >= MOST_SHORT_ROUNDS {
            rounds.short = 0;
            rounds.alone = SERIES_ALONE;
        }
    }

    // Notes of each instance of a round of `turns` turns whether that ended for want of room for what it writes.
    fn note_all(&mut self, orders: &[ReceivedTurns], turns: u64)
        ensures { self.new ≡ self.old }
    {
        for at in 0..orders.len() {
            let is_short = match self.runners.get(at) {
                Some(runner) => stopped_short(runner, turns),
                None => false,
            };
            self.note(orders[at].instance(), is_short);
        }
    }

    /// Runs turns of all these series at once, under the lock, if there are runners for them all, and each series has
    /// turns of as many charges as the aim says, and as many of them. Returns whether it ran some: `false` if there is
    /// no room, or none of their calls computes.
    pub fn run<
        D: SwapDev,
        T: Ledger,
        C: Ledger,
        O: Ledger,
        E: Ledger,
        B: CellAgreements,
        F: RoundRunner,
    >(
        &mut self,
        fork: &F,
        locked: &mut Locked<D, T, C, O, E, B>,
        orders: &mut [ReceivedTurns],
        aim: Aim,
        worker: &mut Worker<T, C>,
    ) -> bool
        requires can { F.can fork.now }
        requires few { (length orders.old ≤ 32) × (aim.further + 1 < 2 ^ 32) }
        requires room { worker.old.tally.turns ≤ 2 ^ 64 - 2 ^ 38 }
        ensures from { worker.new.from ≡ worker.old.from }
        ensures ran { result ≡ true → worker.old.tally.turns < worker.new.tally.turns }
        ensures turns { worker.new.tally.turns + turns_due orders.new
            ≡ worker.old.tally.turns + turns_due orders.old }
    {
        if !self.fit(orders.len()) {
            return false;
        }
        let further = aim.further.min(self.longest);
        let aim = Aim { further, ..aim };
        let (runners, _) = self.runners.split_at_mut(orders.len());
        if !give_all(runners, orders, aim) {
            return false;
        }
        let burst = Burst {
            quantum: u64::from(aim.quantum),
            further,
            wanted: Some(aim.wanted),
        };
        let turns = worker.tally().turns;
        locked.turns_at_once(fork, runners, orders, burst, worker);
        self.longest = if had_all(runners, u64::from(further) + 1) {
            self.longest.saturating_mul(2)
        } else {
            (further / 2).max(FEWEST_FURTHER)
        };
        if aim.wanted.load(Ordering::SeqCst) == 0 {
            self.note_all(orders, u64::from(further) + 1);
        }
        worker.tally().turns > turns
    }
}
