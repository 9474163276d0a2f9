//! Leave for further turns, which there is as long as nobody wants the memory of all.

ghost use Rattle.std.specs.Prelude.{◌≡◌, ◌+◌, ◌<◌, ◌^◌, MatchBool};

use std::sync::atomic::{AtomicU64, Ordering};

/// How often it was read that nobody wants the memory of all: as many turns may come after the first one. Nothing but
/// such a read adds to it.
#[derive(Clone, Copy, Debug, PartialEq, Eq)]
pub struct Leave {
    reads: u64,
}

impl Leave {
    /// Returns leave for no further turn.
    #[inline(always)]
    pub fn none() -> Leave
        ensures { result.reads ≡ 0 }
    {
        Leave { reads: 0 }
    }

    /// Reads how many want the memory, and gives leave for one more turn if nobody does; tells whether that was so.
    #[inline(always)]
    pub fn ask(&mut self, wanted: &AtomicU64) -> bool
        requires { self.old.reads + 1 < 2 ^ 64 }
        ensures { MatchBool result (self.new.reads ≡ self.old.reads + 1) (self.new ≡ self.old) }
    {
        if wanted.load(Ordering::SeqCst) != 0 {
            return false;
        }
        self.reads += 1;
        true
    }
}
