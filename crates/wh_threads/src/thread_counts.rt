// The counts of all threads, and the parts of the ledgers that are lent to them.

ghost use Rattle.std.specs.Prelude.{◌≡◌, ◌+◌, ◌-◌, ◌^◌, ◌<◌, ◌≤◌, length, slice_get, slice_set, Some};
ghost use Rattle.wh_threads.specs.Blanks.{IsWholeOf};
ghost use Rattle.wh_threads.specs.Counting.{ThreadCountsState, HasAllParts, turns_of, charges_of};

use crate::count::Count;
use crate::helper::Helper;
use crate::own_count::OwnCount;
use crate::tally::Tally;
use crate::worker::Worker;
use std::marker::Model;
use std::sync::ledger::{Ledger, Share};

/// The counts of all threads, by kind: turns and charges by worker; offers; evictions; and what the owner has done itself. With
/// them are the parts of the ledgers that no thread has. There are 64 seats for workers.
pub struct ThreadCounts<T: Ledger, C: Ledger, O: Ledger, E: Ledger> {
    tallies: Vec<Tally>,
    owner: OwnCount,
    offers: u64,
    evictions: u64,
    turn_share: Share<T>,
    charge_share: Share<C>,
    offer_share: Share<O>,
    eviction_share: Share<E>,
}

impl<T: Ledger, C: Ledger, O: Ledger, E: Ledger> Drop for ThreadCounts<T, C, O, E> {
    fn drop(self) {
        let ThreadCounts {
            tallies: _,
            owner: _,
            offers: _,
            evictions: _,
            turn_share: _,
            charge_share: _,
            offer_share: _,
            eviction_share: _,
        } = self;
    }
}

impl<T: Ledger, C: Ledger, O: Ledger, E: Ledger> Model for ThreadCounts<T, C, O, E> {
    ghost use Rattle.wh_threads.specs.Counting.{ThreadCountsState};

    ghost Value = { ThreadCountsState };

    ghost use Rattle.wh_threads.specs.Lending.{lender_of, AddsUp};

    ghost view = { lender_of T.parts C.parts O.parts E.parts };

    ghost invariant = { AddsUp T.parts C.parts O.parts E.parts };
}

impl<T: Ledger, C: Ledger, O: Ledger, E: Ledger> ThreadCounts<T, C, O, E> {
    // All parts of the ledgers, and no count.
    pub(crate) fn whole(
        tallies: Vec<Tally>,
        owner: OwnCount,
        turn_share: Share<T>,
        charge_share: Share<C>,
        offer_share: Share<O>,
        eviction_share: Share<E>,
    ) -> ThreadCounts<T, C, O, E>
        requires seats { length tallies.items ≡ 64 }
        requires zero { (turns_of tallies.items ≡ 0) × (charges_of tallies.items ≡ 0) }
        requires own { owner ≡ record { turns = 0; charges = 0; offers = 0; evictions = 0 } }
        requires turns { IsWholeOf T.Ledger 64 turn_share }
        requires charges { IsWholeOf C.Ledger 64 charge_share }
        requires offers { IsWholeOf O.Ledger 1 offer_share }
        requires evictions { IsWholeOf E.Ledger 1 eviction_share }
        ensures { result ≡ record {
          tallies = tallies.items;
          owner = owner;
          offers = 0;
          evictions = 0;
          workers_out = 0;
          scanners_out = 0;
          reclaimers_out = 0;
        } }
    {
        ThreadCounts {
            tallies,
            owner,
            offers: 0,
            evictions: 0,
            turn_share,
            charge_share,
            offer_share,
            eviction_share,
        }
    }

    // Where all parts are here, the books are the sums of the counts.
    pub(crate) fn audit(
        &mut self,
        turns: &mut Count<T>,
        charges: &mut Count<C>,
        offers: &mut Count<O>,
        evictions: &mut Count<E>,
    )
        requires { HasAllParts self.old }
        ensures turns { turns.old ≡ turns_of self.old.tallies + self.old.owner.turns }
        ensures charges { charges.old ≡ charges_of self.old.tallies + self.old.owner.charges }
        ensures offers { offers.old ≡ self.old.offers + self.old.owner.offers }
        ensures evictions { evictions.old ≡ self.old.evictions + self.old.owner.evictions }
        ensures same { self.new ≡ self.old }
        ensures books { (turns.new ≡ turns.old) × (charges.new ≡ charges.old)
            × (offers.new ≡ offers.old) × (evictions.new ≡ evictions.old) }
    {
        turns.audit(&mut self.turn_share);
        charges.audit(&mut self.charge_share);
        offers.audit(&mut self.offer_share);
        evictions.audit(&mut self.eviction_share);
    }

    // Counts one turn of the owner, which took `taken` charges. No thread works meanwhile.
    pub(crate) fn count_own(&mut self, turns: &mut Count<T>, charges: &mut Count<C>, taken: u32)
        requires whole { HasAllParts self.old }
        requires room { self.old.owner.turns < 2 ^ 64 - 1 }
        ensures counted { self.new ≡ record self.old {
          owner = record self.old.owner {
            turns = self.old.owner.turns + 1;
            charges = self.old.owner.charges + taken;
          };
        } }
        ensures turns { turns.new ≡ turns.old + 1 }
        ensures charges { charges.new ≡ charges.old + taken }
    {
        turns.add(&mut self.turn_share, 1);
        charges.add(&mut self.charge_share, u64::from(taken));
        self.owner = self.owner.with_turn(taken);
    }

    // Counts `more` offers of the owner. No thread works meanwhile.
    pub(crate) fn count_own_offers(&mut self, offers: &mut Count<O>, more: u64)
        requires whole { HasAllParts self.old }
        requires room { self.old.owner.offers + more < 2 ^ 64 }
        ensures counted { self.new ≡ record self.old {
          owner = record self.old.owner { offers = self.old.owner.offers + more };
        } }
        ensures offers { offers.new ≡ offers.old + more }
    {
        offers.add(&mut self.offer_share, more);
        self.owner.offers += more;
    }

    // Counts `more` evictions of the owner. No thread works meanwhile.
    pub(crate) fn count_own_evictions(&mut self, evictions: &mut Count<E>, more: u64)
        requires whole { HasAllParts self.old }
        requires room { self.old.owner.evictions + more < 2 ^ 64 }
        ensures counted { self.new ≡ record self.old {
          owner = record self.old.owner { evictions = self.old.owner.evictions + more };
        } }
        ensures evictions { evictions.new ≡ evictions.old + more }
    {
        evictions.add(&mut self.eviction_share, more);
        self.owner.evictions += more;
    }

    /// Returns what the owner itself has counted.
    pub fn owner(&self) -> OwnCount
        ensures { result ≡ self.now.owner }
    {
        self.owner
    }

    /// Returns what the worker at this seat has counted.
    pub fn tally(&self, seat: usize) -> Tally
        requires { seat < 64 }
        ensures { slice_get self.now.tallies seat ≡ Some result }
    {
        self.tallies[seat]
    }

    /// Returns the number of pages that scanners have offered.
    pub fn offers(&self) -> u64
        ensures { result ≡ self.now.offers }
    {
        self.offers
    }

    /// Returns the number of pages that reclaimers have evicted.
    pub fn evictions(&self) -> u64
        ensures { result ≡ self.now.evictions }
    {
        self.evictions
    }

    /// Lends a worker that goes on from what the one at this seat had counted.
    pub fn lend_worker(&mut self, seat: usize) -> Worker<T, C>
        requires seat { seat < 64 }
        requires few { self.old.workers_out < 64 }
        ensures from { slice_get self.old.tallies seat ≡ Some result.from }
        ensures begun { result.tally ≡ result.from }
        ensures out { self.new ≡ record self.old { workers_out = self.old.workers_out + 1 } }
    {
        let from = self.tallies[seat];
        let turns = self.turn_share.split_off(1, 0);
        let charges = self.charge_share.split_off(1, 0);
        Worker::begin(from, turns, charges)
    }

    // What a worker has counted takes the place of that with which it began.
    pub(crate) fn take_worker(&mut self, seat: usize, worker: Worker<T, C>)
        requires { slice_get self.old.tallies seat ≡ Some worker.from }
        ensures out { self.new.workers_out + 1 ≡ self.old.workers_out }
        ensures counted { self.new ≡ record self.old {
          tallies = slice_set self.old.tallies seat worker.tally;
          workers_out = self.new.workers_out;
        } }
        ensures turns { worker.from.turns ≤ worker.tally.turns }
        ensures charges { worker.from.charges ≤ worker.tally.charges }
    {
        let (tally, turns, charges) = worker.end();
        self.turn_share.merge(turns);
        self.charge_share.merge(charges);
        self.tallies[seat] = tally;
    }

    /// Lends a scanner that goes on from the offers counted so far.
    pub fn lend_scanner(&mut self) -> Helper<O>
        requires { self.old.scanners_out ≡ 0 }
        ensures scanner { result ≡ record { from = self.old.offers; count = self.old.offers } }
        ensures out { self.new ≡ record self.old { scanners_out = 1 } }
    {
        Helper::begin(self.offers, self.offer_share.split_off(1, 0))
    }

    // What a scanner has counted takes the place of that with which it began.
    pub(crate) fn take_scanner(&mut self, scanner: Helper<O>)
        requires { scanner.from ≡ self.old.offers }
        ensures out { self.new.scanners_out + 1 ≡ self.old.scanners_out }
        ensures counted { self.new ≡ record self.old {
          offers = scanner.count;
          scanners_out = self.new.scanners_out;
        } }
        ensures grown { scanner.from ≤ scanner.count }
    {
        let (count, share) = scanner.end();
        self.offer_share.merge(share);
        self.offers = count;
    }

    /// Lends a reclaimer that goes on from the evictions counted so far.
    pub fn lend_reclaimer(&mut self) -> Helper<E>
        requires { self.old.reclaimers_out ≡ 0 }
        ensures reclaimer { result ≡ record {
          from = self.old.evictions;
          count = self.old.evictions;
        } }
        ensures out { self.new ≡ record self.old { reclaimers_out = 1 } }
    {
        Helper::begin(self.evictions, self.eviction_share.split_off(1, 0))
    }

    // What a reclaimer has counted takes the place of that with which it began.
    pub(crate) fn take_reclaimer(&mut self, reclaimer: Helper<E>)
        requires { reclaimer.from ≡ self.old.evictions }
        ensures out { self.new.reclaimers_out + 1 ≡ self.old.reclaimers_out }
        ensures counted { self.new ≡ record self.old {
          evictions = reclaimer.count;
          reclaimers_out = self.new.reclaimers_out;
        } }
        ensures grown { reclaimer.from ≤ reclaimer.count }
    {
        let (count, share) = reclaimer.end();
        self.eviction_share.merge(share);
        self.evictions = count;
    }
}
