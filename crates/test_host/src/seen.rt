// A second count of what a host counts, by what its calls come to.

use std::cell::Cell;
use std::rc::Rc;
use wh_host::{CallStatus, Host, HostCounts};
use wh_host_model::TurnEnd;
use wh_space_model::{EvictEnd, FetchEnd, InstId, Offer};

/// Nothing.
pub const NOTHING: HostCounts = HostCounts {
    turns: 0,
    charges: 0,
    returned: 0,
    trapped: 0,
    cancelled: 0,
    dead: 0,
    offers: 0,
    merges: 0,
    breaks: 0,
    evictions: 0,
    fetches: 0,
    faults: 0,
};

/// Where an instance and the frames stand before a turn: how many of its calls have ended, how many charges the present one has
/// taken, and how many pages share a frame.
#[derive(Clone, Copy)]
pub struct Standing {
    ended: usize,
    charges: u64,
    sharers: u64,
}

/// Looks at an instance and the frames.
pub fn look(host: &Host, id: InstId) -> Standing {
    let ended = host.ended_calls(id).unwrap_or(0);
    Standing {
        ended,
        charges: host.charges(id, ended).unwrap_or(0),
        sharers: host.usage().sharers,
    }
}

fn more(count: &mut u64, by: u64) {
    *count = count.wrapping_add(by);
}

/// A count of what was seen.
pub struct Seen {
    counts: Cell<HostCounts>,
    // How many pages the device has taken, and how many it has given.
    pub taken: Rc<Cell<u64>>,
    pub given: Rc<Cell<u64>>,
}

impl Drop for Seen {
    fn drop(self) {
        let Seen {
            counts: _,
            taken: _,
            given: _,
        } = self;
    }
}

impl Seen {
    /// Creates one that has counted nothing, beside these counts of the device.
    pub fn new(taken: Rc<Cell<u64>>, given: Rc<Cell<u64>>) -> Seen {
        Seen {
            counts: Cell::new(NOTHING),
            taken,
            given,
        }
    }

    /// Returns what was seen.
    pub fn counts(&self) -> HostCounts {
        self.counts.get()
    }

    // Notes a call by its status.
    fn note_call(&self, status: Option<CallStatus>) {
        let mut counts = self.counts.get();
        match status {
            Some(CallStatus::Returned { .. }) => more(&mut counts.returned, 1),
            Some(CallStatus::Trapped { .. }) => more(&mut counts.trapped, 1),
            Some(CallStatus::Cancelled { .. }) => more(&mut counts.cancelled, 1),
            Some(CallStatus::Dead) => more(&mut counts.dead, 1),
            _ => {}
        }
        self.counts.set(counts);
    }

    /// Notes the calls of an instance that have ended after so many.
    pub fn note_ended(&self, host: &Host, id: InstId, before: usize) {
        for at in before..host.ended_calls(id).unwrap_or(0) {
            let Ok(place) = u32::try_from(at) else {
                return;
            };
            self.note_call(host.call_status(id, place));
        }
    }

    /// Notes a turn of an instance that stood so before it.
    pub fn note_turn(&self, host: &Host, id: InstId, before: Standing, end: TurnEnd) {
        if end == TurnEnd::Idle {
            return;
        }
        let charges = host.charges(id, before.ended).unwrap_or(0);
        let mut counts = self.counts.get();
        more(&mut counts.turns, 1);
        more(&mut counts.charges, charges.saturating_sub(before.charges));
        let sharers = host.usage().sharers;
        more(&mut counts.breaks, before.sharers.saturating_sub(sharers));
        self.counts.set(counts);
        self.note_ended(host, id, before.ended);
    }

    /// Notes an offer by its outcome.
    pub fn note_offer(&self, outcome: Option<Offer>) {
        let Some(outcome) = outcome else {
            return;
        };
        let mut counts = self.counts.get();
        more(&mut counts.offers, 1);
        if outcome == Offer::Merged {
            more(&mut counts.merges, 1);
        }
        self.counts.set(counts);
    }

    /// Notes a pass over all pages, in which so many were offered. How many were merged only the host can tell: it is taken from
    /// there, unless it is more than were offered.
    pub fn note_scan(&self, host: &Host, offered: Option<u64>) {
        let Some(offered) = offered else {
            return;
        };
        let mut counts = self.counts.get();
        let merged = host.counts().merges.wrapping_sub(counts.merges);
        more(&mut counts.offers, offered);
        if merged <= offered {
            more(&mut counts.merges, merged);
        }
        self.counts.set(counts);
    }

    /// Notes a provision, in which the device took and gave what it has since it had taken and given so many pages.
    pub fn note_provision(&self, before: (u64, u64), fails: bool) {
        let mut counts = self.counts.get();
        let (taken, given) = before;
        more(&mut counts.evictions, self.taken.get().wrapping_sub(taken));
        more(&mut counts.fetches, self.given.get().wrapping_sub(given));
        more(&mut counts.faults, u64::from(fails));
        self.counts.set(counts);
    }

    /// Notes the end of an eviction.
    pub fn note_eviction(&self, end: EvictEnd) {
        let mut counts = self.counts.get();
        match end {
            EvictEnd::Evicted => more(&mut counts.evictions, 1),
            EvictEnd::Failed => more(&mut counts.faults, 1),
            EvictEnd::Void => {}
        }
        self.counts.set(counts);
    }

    /// Notes the end of a fetch.
    pub fn note_fetch(&self, end: FetchEnd) {
        let mut counts = self.counts.get();
        match end {
            FetchEnd::Fetched => more(&mut counts.fetches, 1),
            FetchEnd::Failed => more(&mut counts.faults, 1),
            FetchEnd::Void => {}
        }
        self.counts.set(counts);
    }
}
