//! What a host has counted.

ghost use Rattle.std.specs.Prelude.{◌≡◌, Some, drop, slice_get};
ghost use Rattle.wh_journal.specs.Calls.{JournalCallState as OneCall};
ghost use Rattle.wh_host.specs.HostCounting.{after_turn, no_counts, with_breaks, with_ended_call, with_ended_calls, with_evict_end, with_fault, with_fetch_end, with_moves, with_offer, with_scan, with_turns};

use wh_host_model::TurnEnd;
use wh_journal::{CallEnd, Journal};
use wh_reclaim::PagesMoved;
use wh_scan::Scanned;
use wh_space_model::{EvictEnd, FetchEnd, Offer};

/// What a host has counted since it was created. Each count goes from 2^64 - 1 on to 0.
#[derive(Clone, Copy, Debug, PartialEq, Eq)]
pub struct HostCounts {
    /// Turns of instances of which a call was open, those of rounds among them.
    pub turns: u64,
    /// Charges that these turns took.
    pub charges: u64,
    /// Calls that returned in a turn, starts among them. A start that has nothing to do ends as its instance is admitted, and
    /// doesn't count.
    pub returned: u64,
    /// Calls that trapped in a turn, starts among them.
    pub trapped: u64,
    /// Calls that their owners cancelled, starts among them. Those that are open when their instance is released don't count.
    pub cancelled: u64,
    /// Calls that were queued after a start that trapped or was cancelled, and did nothing.
    pub dead: u64,
    /// Offers of pages for sharing, whatever came of them, those of scans among them.
    pub offers: u64,
    /// Offers by which two pages of equal bytes came to share a frame.
    pub merges: u64,
    /// Pages that shared a frame until a turn wrote them.
    pub breaks: u64,
    /// Pages that were evicted to the swap device.
    pub evictions: u64,
    /// Pages that were fetched from it.
    pub fetches: u64,
    /// Provisions, evictions and fetches that ended by a fault of the device.
    pub faults: u64,
}

// How the call at this place of a journal has ended, where it is there and has.
fn end_at(journal: &Journal, at: usize) -> CallEnd
    ensures { (call : OneCall) → slice_get journal.now.ended at ≡ Some call → result ≡ call.end }
{
    match journal.call(at) {
        Some(call) => call.end(),
        None => CallEnd::Open,
    }
}

impl HostCounts {
    /// Returns the counts of a new host: 0 of each.
    pub(crate) fn none() -> HostCounts
        ensures { result ≡ no_counts }
    {
        HostCounts {
            turns: 0,
            charges: 0,
            returned: 0,
            trapped: 0,
            cancelled: 0,
            dead: 0,
            offers: 0,
            merges: 0,
            breaks: 0,
            evictions: 0,
            fetches: 0,
            faults: 0,
        }
    }

    /// Counts turns, and the charges that they took.
    pub(crate) fn count_turns(&mut self, turns: u64, charges: u64)
        ensures { self.new ≡ with_turns self.old turns charges }
    {
        self.turns = self.turns.wrapping_add(turns);
        self.charges = self.charges.wrapping_add(charges);
    }

    // Counts a call that has ended so.
    fn count_call(&mut self, end: CallEnd)
        ensures { self.new ≡ with_ended_call self.old end }
    {
        match end {
            CallEnd::Open => {}
            CallEnd::Returned(_) => self.returned = self.returned.wrapping_add(1),
            CallEnd::Trapped(_) => self.trapped = self.trapped.wrapping_add(1),
            CallEnd::Cancelled => self.cancelled = self.cancelled.wrapping_add(1),
            CallEnd::Dead => self.dead = self.dead.wrapping_add(1),
        }
    }

    /// Counts the calls of a journal that have ended, without the first `before` of them.
    pub(crate) fn count_ended(&mut self, journal: &Journal, before: usize)
        ensures { self.new ≡ with_ended_calls self.old (drop before journal.now.ended) }
    {
        for at in before..journal.ended_len() {
            self.count_call(end_at(journal, at));
        }
    }

    /// Counts pages that shared a frame until they were written.
    pub(crate) fn count_breaks(&mut self, breaks: u64)
        ensures { self.new ≡ with_breaks self.old breaks }
    {
        self.breaks = self.breaks.wrapping_add(breaks);
    }

    /// Counts a turn by its end and how many charges it took, by its instance's journal then, of which the first `before`
    /// calls had ended before it, and by the pages that it took off shared frames. A turn that had nothing to do doesn't
    /// count.
    pub(crate) fn count_turn(
        &mut self,
        turned: (TurnEnd, u64),
        journal: &Journal,
        before: usize,
        breaks: u64,
    )
        ensures { self.new ≡ after_turn self.old turned.0 turned.1 (drop before journal.now.ended) breaks }
    {
        let (end, charges) = turned;
        match end {
            TurnEnd::Idle => return,
            _ => {}
        }
        self.count_turns(1, charges);
        self.count_ended(journal, before);
        self.count_breaks(breaks);
    }

    /// Counts an offer by its outcome.
    pub(crate) fn count_offer(&mut self, outcome: Offer)
        ensures { self.new ≡ with_offer self.old outcome }
    {
        self.offers = self.offers.wrapping_add(1);
        if let Offer::Merged = outcome {
            self.merges = self.merges.wrapping_add(1);
        }
    }

    /// Counts the offers of a pass over all pages.
    pub(crate) fn count_scan(&mut self, scanned: Scanned)
        ensures { self.new ≡ with_scan self.old scanned.offered scanned.merged }
    {
        self.offers = self.offers.wrapping_add(scanned.offered);
        self.merges = self.merges.wrapping_add(scanned.merged);
    }

    /// Counts the pages that a provision has moved.
    pub(crate) fn count_moves(&mut self, moved: PagesMoved)
        ensures { self.new ≡ with_moves self.old moved.left moved.came }
    {
        self.evictions = self.evictions.wrapping_add(moved.left);
        self.fetches = self.fetches.wrapping_add(moved.came);
    }

    /// Counts a fault of the device.
    pub(crate) fn count_fault(&mut self)
        ensures { self.new ≡ with_fault self.old }
    {
        self.faults = self.faults.wrapping_add(1);
    }

    /// Counts an eviction by how it ended.
    pub(crate) fn count_evict_end(&mut self, end: EvictEnd)
        ensures { self.new ≡ with_evict_end self.old end }
    {
        match end {
            EvictEnd::Evicted => self.evictions = self.evictions.wrapping_add(1),
            EvictEnd::Failed => self.count_fault(),
            EvictEnd::Void => {}
        }
    }

    /// Counts a fetch by how it ended.
    pub(crate) fn count_fetch_end(&mut self, end: FetchEnd)
        ensures { self.new ≡ with_fetch_end self.old end }
    {
        match end {
            FetchEnd::Fetched => self.fetches = self.fetches.wrapping_add(1),
            FetchEnd::Failed => self.count_fault(),
            FetchEnd::Void => {}
        }
    }
}
