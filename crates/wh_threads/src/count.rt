// How much was counted of one kind.

ghost use Rattle.std.specs.Prelude.{◌≡◌, ℕ, ◌+◌, ◌%◌, ◌^◌, ◌<◌};

use std::marker::Model;
use std::sync::ledger::{Blank, Book, Ledger, Share};

/// How much was counted of one kind, by all threads. Contracts see the number, however great it is; the code has its low
/// 64 bits.
#[derive(Drop)]
pub struct Count<K: Ledger> {
    low: u64,
    book: Book<K>,
}

impl<K: Ledger> Model for Count<K> {
    ghost Value = { ℕ };

    ghost view = { λ c. c.book.total };

    ghost invariant = { λ c. c.low ≡ c.book.total % 2 ^ 64 };
}

impl<K: Ledger> Count<K> {
    // Nothing is counted yet. The share has all parts.
    pub(crate) fn open(blank: Blank) -> (Count<K>, Share<K>)
        requires { (blank.name ≡ K.name) × (blank.parts ≡ K.parts) }
        ensures zero { result.0 ≡ 0 }
        ensures share { (result.1.parts ≡ K.parts) × (result.1.amount ≡ 0) }
    {
        let (book, share) = blank.open::<K>();
        (Count { low: 0, book }, share)
    }

    // Adds `amount`, by who has this share.
    pub(crate) fn add(&mut self, mine: &mut Share<K>, amount: u64)
        requires { 0 < mine.old.parts }
        ensures count { self.new ≡ self.old + amount }
        ensures amount { mine.new.amount ≡ mine.old.amount + amount }
        ensures parts { mine.new.parts ≡ mine.old.parts }
    {
        self.book.add(mine, amount);
        self.low = self.low.wrapping_add(amount);
    }

    // Who has all parts learns that their amount is the count.
    pub(crate) fn audit(&mut self, all: &mut Share<K>)
        requires { all.old.parts ≡ K.parts }
        ensures amount { self.old ≡ all.old.amount }
        ensures same { self.new ≡ self.old }
        ensures share { (all.new.parts ≡ all.old.parts) × (all.new.amount ≡ all.old.amount) }
    {
        self.book.audit(all);
    }

    /// Returns the low 64 bits of what was counted.
    pub fn low(&self) -> u64
        ensures { result ≡ self.now % 2 ^ 64 }
    {
        self.low
    }
}
