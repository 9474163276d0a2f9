// How much was counted of each kind.

ghost use Rattle.std.specs.Prelude.{◌≡◌, ◌+◌, ◌-◌, ◌*◌, ◌≤◌, ◌^◌, ◌<◌, IfOk};
ghost use Rattle.wh_threads.specs.Blanks.{IsBlankOf};
ghost use Rattle.wh_threads.specs.Counting.{MadeOwnEvictions, MadeOwnOffers, RanOwnTurn, RanTurn, RanTurns, IsZero, all_charges, all_evictions, all_offers, all_turns};

use crate::count::Count;
use crate::helper::Helper;
use crate::own_count::OwnCount;
use crate::received_turns::ReceivedTurns;
use crate::shares::Shares;
use crate::tally::Tally;
use crate::thread_counts::ThreadCounts;
use crate::worker::Worker;
use std::alloc::{AllocError, Global};
use std::sync::ledger::{Blank, Ledger};

/// How much was counted of each kind, by all threads: turns, charges, offers, evictions. It is to lie under the lock of
/// what is counted.
pub struct Books<T: Ledger, C: Ledger, O: Ledger, E: Ledger> {
    /// Turns of workers, and of the owner.
    pub turns: Count<T>,
    /// Charges that these took.
    pub charges: Count<C>,
    /// Pages that a scanner offered, or the owner.
    pub offers: Count<O>,
    /// Pages that a reclaimer took, or the owner.
    pub evictions: Count<E>,
}

impl<T: Ledger, C: Ledger, O: Ledger, E: Ledger> Drop for Books<T, C, O, E> {
    fn drop(self) {
        let Books {
            turns: _,
            charges: _,
            offers: _,
            evictions: _,
        } = self;
    }
}

impl<T: Ledger, C: Ledger, O: Ledger, E: Ledger> Books<T, C, O, E> {
    /// Opens books in which nothing is counted; returns them and the shares that belong to them.
    ///
    /// # Errors
    /// `AllocError` if the allocation for the counts of 64 workers fails.
    pub fn open(
        alloc: Global,
        turns: Blank,
        charges: Blank,
        offers: Blank,
        evictions: Blank,
    ) -> Result<(Books<T, C, O, E>, Shares<T, C, O, E>), AllocError>
        requires turns { IsBlankOf T.Ledger 64 turns }
        requires charges { IsBlankOf C.Ledger 64 charges }
        requires offers { IsBlankOf O.Ledger 1 offers }
        requires evictions { IsBlankOf E.Ledger 1 evictions }
        ensures books { IfOk result (λ r. r.0
            ≡ record { turns = 0; charges = 0; offers = 0; evictions = 0 }) }
        ensures shares { IfOk result (λ r. IsZero r.1) }
    {
        let tallies = vec![in alloc; Tally::none(); 64]?;
        let (turns, turn_share) = Count::open(turns);
        let (charges, charge_share) = Count::open(charges);
        let (offers, offer_share) = Count::open(offers);
        let (evictions, eviction_share) = Count::open(evictions);
        let all = ThreadCounts::whole(
            tallies,
            OwnCount::none(),
            turn_share,
            charge_share,
            offer_share,
            eviction_share,
        );
        let books = Books {
            turns,
            charges,
            offers,
            evictions,
        };
        Ok((books, Shares { all }))
    }

    /// Counts one turn of these, which took `taken` charges: one less is to be run.
    pub fn turn(&mut self, worker: &mut Worker<T, C>, order: &mut ReceivedTurns, taken: u32)
        requires room { worker.old.tally.turns < 2 ^ 64 - 1 }
        requires due { 0 < order.old.count }
        ensures order { order.new ≡ record order.old { count = order.old.count - 1 } }
        ensures books { self.new ≡ record self.old {
          turns = self.old.turns + 1;
          charges = self.old.charges + taken;
        } }
        ensures worker { RanTurn worker.old taken worker.new }
    {
        self.turns(worker, order, 1, u64::from(taken));
    }

    /// Counts `many` turns of these, which took `taken` charges, fewer than 2^32 each: that many fewer are to be run.
    pub fn turns(
        &mut self,
        worker: &mut Worker<T, C>,
        order: &mut ReceivedTurns,
        many: u32,
        taken: u64,
    )
        requires room { worker.old.tally.turns + many < 2 ^ 64 }
        requires due { many ≤ order.old.count }
        requires few { taken ≤ many * 2 ^ 32 }
        ensures order { order.new ≡ record order.old { count = order.old.count - many } }
        ensures books { self.new ≡ record self.old {
          turns = self.old.turns + many;
          charges = self.old.charges + taken;
        } }
        ensures worker { RanTurns worker.old many taken worker.new }
    {
        order.spend(many);
        worker.count(&mut self.turns, &mut self.charges, u64::from(many), taken);
    }

    /// Counts one turn of the owner, which took `taken` charges. The owner has the shares of all threads: none works
    /// meanwhile.
    pub fn own_turn(&mut self, shares: &mut Shares<T, C, O, E>, taken: u32)
        requires room { shares.old.owner.turns < 2 ^ 64 - 1 }
        ensures books { self.new ≡ record self.old {
          turns = self.old.turns + 1;
          charges = self.old.charges + taken;
        } }
        ensures shares { RanOwnTurn shares.old taken shares.new }
    {
        shares
            .all
            .count_own(&mut self.turns, &mut self.charges, taken);
    }

    /// Counts `count` offers of the owner, which has the shares of all threads: none works meanwhile.
    pub fn own_offers(&mut self, shares: &mut Shares<T, C, O, E>, count: u64)
        requires room { shares.old.owner.offers + count < 2 ^ 64 }
        ensures books { self.new ≡ record self.old { offers = self.old.offers + count } }
        ensures shares { MadeOwnOffers shares.old count shares.new }
    {
        shares.all.count_own_offers(&mut self.offers, count);
    }

    /// Counts `count` evictions of the owner, which has the shares of all threads: none works meanwhile.
    pub fn own_evictions(&mut self, shares: &mut Shares<T, C, O, E>, count: u64)
        requires room { shares.old.owner.evictions + count < 2 ^ 64 }
        ensures books { self.new ≡ record self.old { evictions = self.old.evictions + count } }
        ensures shares { MadeOwnEvictions shares.old count shares.new }
    {
        shares.all.count_own_evictions(&mut self.evictions, count);
    }

    /// Counts one offer of the scanner.
    pub fn offer(&mut self, scanner: &mut Helper<O>)
        requires room { scanner.old.count < 2 ^ 64 - 1 }
        ensures books { self.new ≡ record self.old { offers = self.old.offers + 1 } }
        ensures scanner { scanner.new ≡ record scanner.old { count = scanner.old.count + 1 } }
    {
        scanner.add(&mut self.offers, 1);
    }

    /// Counts `count` offers of the scanner.
    pub fn offers(&mut self, scanner: &mut Helper<O>, count: u64)
        requires room { scanner.old.count + count < 2 ^ 64 }
        ensures books { self.new ≡ record self.old { offers = self.old.offers + count } }
        ensures scanner { scanner.new
            ≡ record scanner.old { count = scanner.old.count + count } }
    {
        scanner.add(&mut self.offers, count);
    }

    /// Counts `count` evictions of the reclaimer.
    pub fn evict(&mut self, reclaimer: &mut Helper<E>, count: u64)
        requires room { reclaimer.old.count + count < 2 ^ 64 }
        ensures books { self.new ≡ record self.old { evictions = self.old.evictions + count } }
        ensures reclaimer { reclaimer.new
            ≡ record reclaimer.old { count = reclaimer.old.count + count } }
    {
        reclaimer.add(&mut self.evictions, count);
    }

    /// Shows whoever has the shares that the books are the sums of their counts. Changes nothing.
    pub fn agree(&mut self, shares: &mut Shares<T, C, O, E>)
        ensures turns { self.old.turns ≡ all_turns shares.old }
        ensures charges { self.old.charges ≡ all_charges shares.old }
        ensures offers { self.old.offers ≡ all_offers shares.old }
        ensures evictions { self.old.evictions ≡ all_evictions shares.old }
        ensures same { (self.new ≡ self.old) × (shares.new ≡ shares.old) }
    {
        let Books {
            turns,
            charges,
            offers,
            evictions,
        } = self;
        shares.all.audit(turns, charges, offers, evictions);
    }
}
