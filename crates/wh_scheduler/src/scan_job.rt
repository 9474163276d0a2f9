//! What the scanner does while turns run.

ghost use Rattle.std.specs.Prelude.{◌≡◌, ◌<◌, ◌^◌};

use crate::jobs::Schedule;
use std::alloc::{AllocError, Global};
use std::sync::atomic::Ordering;
use std::sync::ledger::Ledger;
use std::sync::{Arc, Condvar, Mutex, MutexGuard, Wait};
use wh_cell::{CellAgreements, HostCell, Locked};
use wh_host::Sample;
use wh_kernels::PageHash;
use wh_space_model::InstId;
use wh_swap::SwapDev;
use wh_threads::{Help, HelpOutcome, Helper};
use wh_workers::TURNS_FOR_AN_OFFER;

// How many pages are looked at, and offered, under one hold of the lock at most.
const MOST_LOOKS: u64 = 64;

/// A page as it was looked at.
#[derive(Clone, Copy)]
pub struct Look {
    // Whose it is.
    id: InstId,
    // In which round of all instances it is offered.
    round: u64,
    // Which: 0 while it wasn't looked at.
    page: u32,
    // Its bytes; none where it had no frame of its own, and shared none without an entry.
    sample: Option<Sample>,
    // The hash of that; 0 where there is none, or it isn't known yet.
    hash: u64,
}

/// Offers a page for each 64 dispatched turns, many at a time: looks at them under the lock, hashes them without, and offers them
/// under the lock.
pub struct ScanJob<D: SwapDev, T: Ledger, C: Ledger, O: Ledger, E: Ledger, B: CellAgreements, H> {
    /// The cell.
    pub cell: HostCell<D, T, C, O, E, B>,
    /// How many turns were dispatched, and whose pages are offered, in turn.
    pub schedule: Arc<Schedule, Global>,
    /// How pages are hashed.
    pub hasher: H,
    /// The pages that were looked at last. Where it is shared there is room for as many as are looked at.
    pub looks: Mutex<Vec<Look>>,
    /// Where room for these is taken.
    pub alloc: Global,
}

impl<D: SwapDev + Drop, T: Ledger, C: Ledger, O: Ledger, E: Ledger, B: CellAgreements, H: Drop> Drop
    for ScanJob<D, T, C, O, E, B, H> {
    fn drop(self) {
        let ScanJob {
            cell: _,
            schedule: _,
            hasher: _,
            looks: _,
            alloc: _,
        } = self;
    }
}

// The page of the round of this number, of an instance of `size` pages of 65536 bytes: 0 if it has none.
pub(crate) fn page_in_round(round: u64, size: u32) -> u32 {
    let pages = u64::from(size) * 16;
    if pages == 0 || pages > u64::from(u32::MAX) {
        return 0;
    }
    (round % pages) as u32
}

impl<
    D: SwapDev + Drop,
    T: Ledger,
    C: Ledger,
    O: Ledger,
    E: Ledger,
    B: CellAgreements,
    H: PageHash,
> ScanJob<D, T, C, O, E, B, H> {
    // How many pages are still to be offered, since the scanner was given its counts: one for each 64 turns dispatched
    // so far, and one ahead.
    fn due<R: Wait>(&self, rt: &R, helper: &Helper<O>) -> u64 {
        let offered = helper.count().saturating_sub(helper.from());
        let owed = self.schedule.turns(rt) / TURNS_FOR_AN_OFFER;
        owed.saturating_add(1).saturating_sub(offered)
    }

    // Waits for the host's lock, and acquires it.
    fn lock<R: Wait>(&self, rt: &R) -> MutexGuard<'_, Locked<D, T, C, O, E, B>> {
        self.schedule.scanner_waits.store(1, Ordering::SeqCst);
        let locked = self.cell.lock_to_work(rt);
        self.schedule.scanner_waits.store(0, Ordering::SeqCst);
        locked
    }

    // Chooses the instances whose pages are offered after the first `count`: as many as are due, and there is room for.
    fn choose<R: Wait>(&self, rt: &R, count: u64, due: u64, looks: &mut Vec<Look>) {
        looks.clear();
        let run_queue = self.schedule.run_queue.lock(rt);
        let many = run_queue.entries.len() as u64;
        for step in 0..due.min(MOST_LOOKS) {
            let at = count.wrapping_add(step);
            let Some(id) = run_queue.offers_at(at) else {
                return;
            };
            let look = Look {
                id,
                round: at / many.max(1),
                page: 0,
                sample: None,
                hash: 0,
            };
            if looks.push(look).is_err() {
                return;
            }
        }
    }

    // Looks at the pages of the instances that were chosen, as they are now.
    fn look<R: Wait>(&self, rt: &R, looks: &mut [Look]) {
        let locked = self.lock(rt);
        for at in 0..looks.len() {
            let Look { id, round, .. } = looks[at];
            let page = page_in_round(round, locked.host().size_at(id.place));
            looks[at].page = page;
            looks[at].sample = locked.host().sample(id, page);
        }
    }

    // Hashes what these pages had.
    fn hash(&self, looks: &mut [Look]) {
        for at in 0..looks.len() {
            if let Some(sample) = &looks[at].sample {
                looks[at].hash = self.hasher.hash(&sample.bytes);
            }
        }
    }

    // Offers these pages. Whether all were.
    fn offer<R: Wait>(&self, rt: &R, looks: &[Look], helper: &mut Helper<O>) -> HelpOutcome
        ensures from { helper.new.from ≡ helper.old.from }
    {
        let mut locked = self.lock(rt);
        for look in looks {
            let is_full = helper.count() == u64::MAX;
            if is_full
                || locked
                    .offer(&self.hasher, look.id, look.page, look.hash, helper)
                    .is_none()
            {
                return HelpOutcome::Ended;
            }
        }
        HelpOutcome::Did
    }
}

impl<
    D: SwapDev + Drop,
    T: Ledger,
    C: Ledger,
    O: Ledger,
    E: Ledger,
    B: CellAgreements,
    H: PageHash + Copy,
> Help<O> for ScanJob<D, T, C, O, E, B, H> {
    fn help<R: Wait>(&self, rt: &R, helper: &mut Helper<O>) -> HelpOutcome {
        let due = self.due(rt, helper);
        if due == 0 {
            return HelpOutcome::Waits;
        }
        let mut looks = self.looks.lock(rt);
        self.choose(rt, helper.count(), due, &mut looks);
        if looks.is_empty() {
            return HelpOutcome::Ended;
        }
        self.look(rt, &mut looks);
        self.hash(&mut looks);
        self.offer(rt, &looks, helper)
    }

    fn bell(&self) -> &Condvar {
        &self.schedule.offer_owed
    }

    fn share(&self) -> Result<Self, AllocError> {
        let cell = self.cell.share()?;
        let schedule = Arc::try_clone(&self.schedule)?;
        let looks = Vec::with_capacity(self.alloc, MOST_LOOKS as usize)?;
        Ok(ScanJob {
            cell,
            schedule,
            hasher: self.hasher,
            looks: Mutex::new(looks),
            alloc: self.alloc,
        })
    }
}
