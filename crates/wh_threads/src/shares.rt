// The counts of all threads, with all parts of the ledgers.

ghost use Rattle.std.specs.Prelude.{◌≡◌, ◌<◌, slice_get, Some};

use crate::own_count::OwnCount;
use crate::tally::Tally;
use crate::thread_counts::ThreadCounts;
use std::marker::Model;
use std::sync::ledger::Ledger;

/// The counts of all threads while no thread works: with them is every part of the ledgers. So whoever has it, and gets
/// the books, can tell that the books are the sums of these counts (`Books::agree`).
#[derive(Drop)]
pub struct Shares<T: Ledger, C: Ledger, O: Ledger, E: Ledger> {
    /// Who lends the parts.
    pub all: ThreadCounts<T, C, O, E>,
}

impl<T: Ledger, C: Ledger, O: Ledger, E: Ledger> Model for Shares<T, C, O, E> {
    ghost use Rattle.wh_threads.specs.Counting.{SharesState, counts_of, HasAllParts};

    ghost Value = { SharesState };

    ghost view = { λ s. counts_of s.all };

    ghost invariant = { λ s. HasAllParts s.all };
}

impl<T: Ledger, C: Ledger, O: Ledger, E: Ledger> Shares<T, C, O, E> {
    /// Returns what the worker at this seat has counted.
    pub fn tally(&self, seat: usize) -> Tally
        requires { seat < 64 }
        ensures { slice_get self.now.tallies seat ≡ Some result }
    {
        self.all.tally(seat)
    }

    /// Returns what the owner itself has counted, without other threads.
    pub fn owner(&self) -> OwnCount
        ensures { result ≡ self.now.owner }
    {
        self.all.owner()
    }

    /// Returns the number of pages that scanners have offered.
    pub fn offers(&self) -> u64
        ensures { result ≡ self.now.offers }
    {
        self.all.offers()
    }

    /// Returns the number of pages that reclaimers have evicted.
    pub fn evictions(&self) -> u64
        ensures { result ≡ self.now.evictions }
    {
        self.all.evictions()
    }
}
