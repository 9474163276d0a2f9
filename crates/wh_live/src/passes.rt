//! Passes over all pages of a live host, which its scanner makes when it is asked to.

ghost use Rattle.std.specs.Prelude.{◌≡◌, IfSome};
ghost use Rattle.wh_live.specs.Passed.{HasPassed};

use crate::live_queue::LiveQueue;
use std::alloc::{AllocError, Global};
use std::marker::PhantomData;
use std::sync::{Arc, Mutex, Wait};
use wh_kernels::PageHash;
use wh_scheduler::Schedule;
use wh_swap::SwapDev;

/// What came of a pass over all pages of a live host. None is made elsewhere.
#[derive(Drop)]
pub struct PassReport<D: SwapDev, H: PageHash> {
    of: PhantomData<D>,
    hasher: H,
    offered: Option<u64>,
    ghost passed: { HasPassed D.held D.keeps D.honest D.faults (H.hashes hasher) offered },
}

impl<D: SwapDev, H: PageHash + Copy> PassReport<D, H> {
    // That of a pass which was made.
    pub(crate) fn of(hasher: H, offered: Option<u64>) -> PassReport<D, H>
        requires { HasPassed D.held D.keeps D.honest D.faults (H.hashes hasher) offered }
    {
        PassReport {
            of: PhantomData,
            hasher,
            offered,
        }
    }

    /// Returns how many pages were offered, or `None` if none could be: frames and slots are 2^32 together or more.
    pub fn offered(&self) -> Option<u64>
        ensures passed { HasPassed D.held D.keeps D.honest D.faults (H.hashes self.now.hasher)
            result }
    {
        self.offered
    }

    // The same.
    fn copy(&self) -> PassReport<D, H> {
        PassReport::of(self.hasher, self.offered)
    }
}

// How many passes were asked for, which was made last, and what came of it.
#[derive(Drop)]
struct Asked<D: SwapDev, H: PageHash> {
    asked: u64,
    made: u64,
    last: Option<PassReport<D, H>>,
}

/// Asks the scanner of a live host for passes. Each thread has its handle.
pub struct Passes<D: SwapDev, H: PageHash> {
    asked: Arc<Mutex<Asked<D, H>>, Global>,
    schedule: Arc<Schedule, Global>,
}

impl<D: SwapDev + Drop, H: PageHash + Drop> Drop for Passes<D, H> {
    fn drop(self) {
        let Passes {
            asked: _,
            schedule: _,
        } = self;
    }
}

impl<D: SwapDev + Drop, H: PageHash + Copy> Passes<D, H> {
    /// Creates what asks the scanner of the host of this queue. No pass was asked for.
    ///
    /// # Errors
    /// `AllocError` if an allocation fails.
    pub fn new(alloc: Global, queue: &LiveQueue) -> Result<Passes<D, H>, AllocError> {
        let none = Asked {
            asked: 0,
            made: 0,
            last: None,
        };
        let Ok(asked) = Arc::new(alloc, Mutex::new(none)) else {
            return Err(AllocError);
        };
        let schedule = Arc::try_clone(queue.schedule())?;
        Ok(Passes { asked, schedule })
    }

    /// Returns another handle, for another thread.
    ///
    /// # Errors
    /// `AllocError` if there are as many handles as can be counted.
    pub fn share(&self) -> Result<Passes<D, H>, AllocError> {
        let asked = Arc::try_clone(&self.asked)?;
        let schedule = Arc::try_clone(&self.schedule)?;
        Ok(Passes { asked, schedule })
    }

    /// Asks for a pass that begins from now on, and returns its number. One pass may serve several that were asked for.
    pub fn ask<R: Wait>(&self, rt: &R) -> u64 {
        let number = {
            let mut asked = self.asked.lock(rt);
            asked.asked = asked.asked.saturating_add(1);
            asked.asked
        };
        self.schedule.offer_owed.notify_all();
        number
    }

    // The number of the last pass that was asked for and not made.
    pub(crate) fn wanted<R: Wait>(&self, rt: &R) -> Option<u64> {
        let asked = self.asked.lock(rt);
        if asked.made < asked.asked {
            Some(asked.asked)
        } else {
            None
        }
    }

    // All that were asked for up to this number were made.
    pub(crate) fn make<R: Wait>(&self, rt: &R, number: u64, report: PassReport<D, H>) {
        let mut asked = self.asked.lock(rt);
        asked.made = number;
        asked.last = Some(report);
    }

    /// Returns what came of the pass of this number, or of a later one, once it was made.
    pub fn report<R: Wait>(&self, rt: &R, number: u64) -> Option<PassReport<D, H>> {
        let asked = self.asked.lock(rt);
        if asked.made < number {
            return None;
        }
        match &asked.last {
            Some(report) => Some(report.copy()),
            None => None,
        }
    }
}
