// What the scanner or the reclaimer counts while it works.

ghost use Rattle.std.specs.Prelude.{◌≡◌, ℕ, ◌+◌, ◌^◌, ◌<◌};

use crate::count::Count;
use std::marker::Model;
use std::sync::ledger::{Ledger, Share};

/// The count of the scanner or of the reclaimer while it works, with its part of the ledger of offers or of that of
/// evictions.
#[derive(Drop)]
pub struct Helper<K: Ledger> {
    from: u64,
    count: u64,
    share: Share<K>,
}

impl<K: Ledger> Model for Helper<K> {
    ghost use Rattle.std.specs.Prelude.{◌≡◌, ◌+◌};
    ghost use Rattle.wh_threads.specs.Counting.{HelperState};

    ghost Value = { HelperState };

    ghost view = { λ h. record { from = h.from; count = h.count } };

    ghost invariant = { λ h. (h.share.parts ≡ 1) × (h.from + h.share.amount ≡ h.count) };
}

impl<K: Ledger> Helper<K> {
    // A helper that goes on from this count.
    pub(crate) fn begin(from: u64, share: Share<K>) -> Helper<K>
        requires { (share.parts ≡ 1) × (share.amount ≡ 0) }
        ensures { result ≡ record { from = from; count = from } }
    {
        Helper {
            from,
            count: from,
            share,
        }
    }

    // What it has counted, and its part with what it has.
    pub(crate) fn end(self) -> (u64, Share<K>)
        ensures count { result.0 ≡ self.count }
        ensures share { (result.1.parts ≡ 1) × (self.from + result.1.amount ≡ self.count) }
    {
        let Helper {
            from: _,
            count,
            share,
        } = self;
        (count, share)
    }

    /// Returns what it had counted when it began.
    pub fn from(&self) -> u64
        ensures { result ≡ self.now.from }
    {
        self.from
    }

    /// Returns what it has counted.
    pub fn count(&self) -> u64
        ensures { result ≡ self.now.count }
    {
        self.count
    }

    // Adds `more` to the count, and to the book too.
    pub(crate) fn add(&mut self, book: &mut Count<K>, more: u64)
        requires room { self.old.count + more < 2 ^ 64 }
        ensures helper { self.new ≡ record self.old { count = self.old.count + more } }
        ensures book { book.new ≡ book.old + more }
    {
        book.add(&mut self.share, more);
        self.count += more;
    }
}
