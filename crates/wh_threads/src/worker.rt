// What a worker counts while it works.

ghost use Rattle.std.specs.Prelude.{◌≡◌, ℕ, ◌+◌, ◌-◌, ◌*◌, ◌^◌, ◌<◌, ◌≤◌, ◌↔◌, IsTrue};

use crate::count::Count;
use crate::tally::Tally;
use std::marker::Model;
use std::sync::ledger::{Ledger, Share};

/// A worker's counts while it works, with its part of the ledger of turns and of that of charges.
#[derive(Drop)]
pub struct Worker<T: Ledger, C: Ledger> {
    from: Tally,
    tally: Tally,
    turns: Share<T>,
    charges: Share<C>,
}

impl<T: Ledger, C: Ledger> Model for Worker<T, C> {
    ghost use Rattle.std.specs.Prelude.{◌≡◌, ◌+◌};
    ghost use Rattle.wh_threads.specs.Counting.{WorkerState};

    ghost Value = { WorkerState };

    ghost view = { λ w. record { from = w.from; tally = w.tally } };

    ghost invariant = { λ w. (w.turns.parts ≡ 1) × (w.charges.parts ≡ 1)
        × (w.from.turns + w.turns.amount ≡ w.tally.turns)
        × (w.from.charges + w.charges.amount ≡ w.tally.charges) };
}

impl<T: Ledger, C: Ledger> Worker<T, C> {
    // A worker that goes on from these counts.
    pub(crate) fn begin(from: Tally, turns: Share<T>, charges: Share<C>) -> Worker<T, C>
        requires turns { (turns.parts ≡ 1) × (turns.amount ≡ 0) }
        requires charges { (charges.parts ≡ 1) × (charges.amount ≡ 0) }
        ensures { result ≡ record { from = from; tally = from } }
    {
        Worker {
            from,
            tally: from,
            turns,
            charges,
        }
    }

    // What it has counted, and its parts with what they have.
    pub(crate) fn end(self) -> (Tally, Share<T>, Share<C>)
        ensures tally { result.0 ≡ self.tally }
        ensures turns { (result.1.parts ≡ 1)
            × (self.from.turns + result.1.amount ≡ self.tally.turns) }
        ensures charges { (result.2.parts ≡ 1)
            × (self.from.charges + result.2.amount ≡ self.tally.charges) }
    {
        let Worker {
            from: _,
            tally,
            turns,
            charges,
        } = self;
        (tally, turns, charges)
    }

    /// Returns what it had counted when it began.
    pub fn from(&self) -> Tally
        ensures { result ≡ self.now.from }
    {
        self.from
    }

    /// Returns what it has counted.
    pub fn tally(&self) -> Tally
        ensures { result ≡ self.now.tally }
    {
        self.tally
    }

    /// Tells whether there is no room for 64 series of any length: it has run more than 2^64 - 2^38 turns.
    pub fn is_full(&self) -> bool
        ensures { IsTrue result ↔ (2 ^ 64 - 2 ^ 38 < self.now.tally.turns) }
    {
        self.tally.is_full()
    }

    /// Tells whether it has run no turn since it began.
    pub fn is_idle(&self) -> bool
        ensures { IsTrue result ↔ (self.now.tally ≡ self.now.from) }
    {
        self.tally == self.from
    }

    // Counts `many` turns, which took `taken` charges, in the books too.
    pub(crate) fn count(
        &mut self,
        turns: &mut Count<T>,
        charges: &mut Count<C>,
        many: u64,
        taken: u64,
    )
        requires room { self.old.tally.turns + many < 2 ^ 64 }
        requires few { taken ≤ many * 2 ^ 32 }
        ensures from { self.new.from ≡ self.old.from }
        ensures turns { (self.new.tally.turns ≡ self.old.tally.turns + many)
            × (turns.new ≡ turns.old + many) }
        ensures charges { (self.new.tally.charges ≡ self.old.tally.charges + taken)
            × (charges.new ≡ charges.old + taken) }
    {
        turns.add(&mut self.turns, many);
        charges.add(&mut self.charges, taken);
        self.tally = self.tally.with_turns(many, taken);
    }
}
