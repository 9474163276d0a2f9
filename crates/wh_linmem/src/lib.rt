//! The linear memory of section 4.2.8 of the W3C WebAssembly Core Specification 1.0 as what runs over one sees it: a
//! trait, with what each call answers and what it leaves unchanged.
//!
//! It is a crate of its own, so that memories and what runs over them are proved apart.
#![tactic(auto)]

ghost use Rattle.std.specs.Bool.{MatchBool};
ghost use Rattle.std.specs.Prelude.{◌≡◌, ◌≤◌, ◌*◌, ℕ, List, length, IsTrue, IsFalse};
ghost use Rattle.wh_model.specs.declared.memory.Got.TheVariants.{Value};
ghost use Rattle.wh_model.specs.declared.memory.Need.{Need};
ghost use Rattle.wh_model.specs.Execution.Memory.{IsWaiting, Loads, Stores, Grows};

mod bytes;

pub use bytes::copy_bytes;
use wh_model::{Got, Grown, Need};

/// A linear memory (4.2.8): a flat list of bytes, of which some may not be ready. If they aren't, a call says which
/// bytes it wants, and the memory itself is as it was.
pub trait LinearMem {
    /// The bytes.
    ghost bytes: { Self → List ℕ };

    /// To how many pages of 65536 bytes it may grow.
    ghost limit: { Self → ℕ };

    /// Whether these bytes can be read or written at once.
    ghost ready: { Self → Need → Type 0 };

    /// What calls may leave of all else. The limit stays.
    ghost keeps: { Self → Self → Type 0 };

    /// Tells whether these bytes can be read or written at once.
    fn is_ready(&self, need: Need) -> bool
        ensures { MatchBool result (ready self.now need) (¬ (ready self.now need)) };

    /// Reads as many bytes as `into` takes, at most 4096, from address `at` on.
    fn load(&mut self, at: u64, into: &mut [u8]) -> Got
        requires few { length into.old ≤ 4096 }
        ensures loads { Loads (ready self.old) (bytes self.old) at into.old result into.new }
        ensures bytes { bytes self.new ≡ bytes self.old }
        ensures keeps { keeps self.old self.new }
        ensures waits { IsWaiting result → self.new ≡ self.old };

    /// Writes these bytes.
    fn store(&mut self, at: u64, given: &[u8]) -> Got
        requires few { length given.now ≤ 4096 }
        ensures stores { Stores (ready self.old) (bytes self.old)
            at given.now result (bytes self.new) }
        ensures keeps { keeps self.old self.new }
        ensures waits { IsWaiting result → self.new ≡ self.old };

    /// Reads bytes as `load` does, on the fast path. Returns `false`, with nothing done, if that is unavailable, and
    /// says nothing of why: `load` is the one that says whether there are such bytes, and whether they are ready.
    fn quick_load(&mut self, at: u64, into: &mut [u8]) -> bool
        requires few { length into.old ≤ 4096 }
        ensures loads { IsTrue result
            → Loads (ready self.old) (bytes self.old) at into.old Value into.new }
        ensures bytes { bytes self.new ≡ bytes self.old }
        ensures keeps { keeps self.old self.new }
        ensures nothing_read { IsFalse result → into.new ≡ into.old }
        ensures nothing_done { IsFalse result → self.new ≡ self.old };

    /// Writes bytes as `store` does, on the fast path. Returns `false`, with nothing done, if that is unavailable, and
    /// says nothing of why: `store` is the one that says whether there are such bytes, and whether they are ready.
    fn quick_store(&mut self, at: u64, given: &[u8]) -> bool
        requires few { length given.now ≤ 4096 }
        ensures stores { IsTrue result
            → Stores (ready self.old) (bytes self.old) at given.now Value (bytes self.new) }
        ensures keeps { keeps self.old self.new }
        ensures nothing_done { IsFalse result → self.new ≡ self.old };

    /// Returns the size in pages of 65536 bytes.
    fn size(&self) -> u32
        ensures { length (bytes self.now) ≡ result * 65536 };

    /// Adds `pages` pages of 65536 zeros.
    fn grow(&mut self, pages: u32) -> Grown
        ensures grows { Grows (limit self.old) (bytes self.old) pages result (bytes self.new) }
        ensures keeps { keeps self.old self.new };

    ghost keeps_same: { (m : Self) → keeps m m };

    ghost keeps_more: { (a b c : Self) → keeps a b → keeps b c → keeps a c };

    ghost keeps_limit: { (m n : Self) → keeps m n → limit n ≡ limit m };
}
