//! What those who ask of a live host share with those who run its calls.

use std::alloc::{AllocError, Global};
use std::sync::atomic::{AtomicBool, Ordering};
use std::sync::{Arc, Wait};
use wh_scheduler::{RunQueue, Schedule};
use wh_space_model::InstId;

// How far a live host is.
#[derive(Drop)]
struct Stage {
    // Whether all its threads were started.
    has_begun: AtomicBool,
    // Whether it is to stop.
    is_over: AtomicBool,
}

/// The instances of a live host whose calls are run, which change while they are. Each thread has its handle.
pub struct LiveQueue {
    schedule: Arc<Schedule, Global>,
    stage: Arc<Stage, Global>,
}

impl Drop for LiveQueue {
    fn drop(self) {
        let LiveQueue {
            schedule: _,
            stage: _,
        } = self;
    }
}

impl LiveQueue {
    /// Creates the queue of a host that is to live with so many workers. No instance is in it.
    ///
    /// # Errors
    /// `AllocError` if an allocation fails.
    pub fn new(alloc: Global, workers: usize) -> Result<LiveQueue, AllocError> {
        let run_queue = RunQueue::new(alloc, &[])?;
        let Ok(schedule) = Arc::new(alloc, Schedule::new(alloc, run_queue, workers)?) else {
            return Err(AllocError);
        };
        let stage = Stage {
            has_begun: AtomicBool::new(false),
            is_over: AtomicBool::new(false),
        };
        let Ok(stage) = Arc::new(alloc, stage) else {
            return Err(AllocError);
        };
        Ok(LiveQueue { schedule, stage })
    }

    /// Returns another handle, for another thread.
    ///
    /// # Errors
    /// `AllocError` if there are as many handles as can be counted.
    pub fn share(&self) -> Result<LiveQueue, AllocError> {
        let schedule = Arc::try_clone(&self.schedule)?;
        let stage = Arc::try_clone(&self.stage)?;
        Ok(LiveQueue { schedule, stage })
    }

    // What the threads of the run share.
    pub(crate) fn schedule(&self) -> &Arc<Schedule, Global> {
        &self.schedule
    }

    // How often who dispatches turns was notified.
    pub(crate) fn notifications(&self) -> u64 {
        self.schedule.turn_completed.notifications()
    }

    // Who makes steps ready looks whether one waits.
    pub(crate) fn want_frame(&self) {
        self.schedule.frame_wanted.notify_all();
    }

    /// Adds an instance, whose calls are run from now on (`RunQueue::join`). If it is there, it is woken.
    ///
    /// # Errors
    /// `AllocError` if an allocation fails: it isn't added.
    pub fn join<R: Wait>(&self, rt: &R, id: InstId) -> Result<(), AllocError> {
        let joined = {
            let mut run_queue = self.schedule.run_queue.lock(rt);
            run_queue.join(id)
        };
        self.schedule.turn_completed.notify_all();
        joined
    }

    /// Wakes an instance, behind each request that may have changed whether its call can go on (`RunQueue::wake`): one that
    /// invokes, refuels, retries or cancels.
    pub fn wake<R: Wait>(&self, rt: &R, id: InstId) {
        let was_ready = {
            let mut run_queue = self.schedule.run_queue.lock(rt);
            run_queue.wake(id)
        };
        self.schedule.turn_completed.notify_all();
        if was_ready {
            self.want_frame();
        }
    }

    /// Removes an instance, behind the request that releases it (`RunQueue::leave`). A step that was made ready for it is given up.
    pub fn leave<R: Wait>(&self, rt: &R, id: InstId) {
        let was_ready = {
            let mut run_queue = self.schedule.run_queue.lock(rt);
            run_queue.leave(id)
        };
        self.schedule.turn_completed.notify_all();
        if was_ready {
            self.want_frame();
        }
    }

    /// Returns how many instances have joined or were woken, modulo 2^64.
    pub fn arrivals<R: Wait>(&self, rt: &R) -> u64 {
        let run_queue = self.schedule.run_queue.lock(rt);
        run_queue.arrivals
    }

    /// Stops the run: no further turn is dispatched, and those that were are run. It isn't begun again.
    pub fn end(&self) {
        self.stage.is_over.store(true, Ordering::SeqCst);
        self.schedule.turn_completed.notify_all();
    }

    /// Returns whether it is to stop, or has ended.
    pub fn is_over(&self) -> bool {
        self.stage.is_over.load(Ordering::SeqCst)
    }

    // All threads of the run were started.
    pub(crate) fn begin(&self) {
        self.stage.has_begun.store(true, Ordering::SeqCst);
    }

    /// Returns whether all threads of the run were started: calls are run.
    pub fn has_begun(&self) -> bool {
        self.stage.has_begun.load(Ordering::SeqCst)
    }
}
