//! Which worker receives turns: one after another, since turns are run under one lock.

use crate::spin_backoff::SpinBackoff;
use std::alloc::{AllocError, Global};
use std::hint;
use std::sync::atomic::{AtomicU64, Ordering};
use std::sync::{Condvar, Wait};
use std::time::Duration;
use wh_threads::LONGEST_SLEEP_SECONDS;

// How often a worker that has received a series looks whether others are still to be dispatched: who dispatches them
// may have to be woken.
const LOOKS_FOR_ALL: u32 = 10_000;

/// Held by the worker that receives turns and runs them. Workers hold it one after another, in the order in which they asked.
/// The others sleep, so none of them waits for the host's lock, nor for a message.
#[derive(Drop)]
pub struct TurnLock {
    // How many have asked for it, modulo 2^64. Who asks has the number of those before it.
    asked: AtomicU64,
    // How many have left it, modulo 2^64: the number of who has it.
    left: AtomicU64,
    // How many messages were dispatched, each of which is a series of turns, modulo 2^64.
    dispatched: AtomicU64,
    // How many of these were received, modulo 2^64.
    received: AtomicU64,
    // How many series are due, and were not dispatched yet, modulo 2^64.
    due: AtomicU64,
    // How long the worker that holds the turn lock looks for a message before it sleeps.
    spin_backoff: SpinBackoff,
    // As many as there are workers: who waits sleeps on the one at its number modulo their count, where no other one waits.
    bells: Vec<Condvar>,
}

impl TurnLock {
    /// Returns one for `workers`, free.
    ///
    /// # Errors
    /// `AllocError` if an allocation fails.
    pub fn new(alloc: Global, workers: usize) -> Result<TurnLock, AllocError> {
        let mut bells = Vec::with_capacity(alloc, workers)?;
        for _ in 0..workers {
            bells.push(Condvar::new())?;
        }
        Ok(TurnLock {
            asked: AtomicU64::new(0),
            left: AtomicU64::new(0),
            dispatched: AtomicU64::new(0),
            received: AtomicU64::new(0),
            due: AtomicU64::new(0),
            spin_backoff: SpinBackoff::new(),
            bells,
        })
    }

    // The condition variable of the thread of this number. None if there are no workers.
    fn bell(&self, number: u64) -> Option<&Condvar> {
        let many = self.bells.len() as u64;
        if many == 0 {
            return None;
        }
        self.bells.get((number % many) as usize)
    }

    /// Acquires it, once all who asked before have released it.
    pub fn take<R: Wait>(&self, rt: &R) {
        let number = self.asked.fetch_add(1, Ordering::SeqCst);
        let Some(bell) = self.bell(number) else {
            return;
        };
        for _ in rt.forever() {
            let rings = bell.notifications();
            if self.left.load(Ordering::SeqCst) == number {
                return;
            }
            bell.sleep(rt, rings, Duration::from_secs(LONGEST_SLEEP_SECONDS));
        }
    }

    /// Returns whether another one waits while this worker holds it.
    pub fn is_wanted(&self) -> bool {
        let asked = self.asked.load(Ordering::SeqCst);
        asked.wrapping_sub(self.left.load(Ordering::SeqCst)) > 1
    }

    /// Releases it, which this worker holds, to the next.
    pub fn leave(&self) {
        let next = self.left.fetch_add(1, Ordering::SeqCst).wrapping_add(1);
        if let Some(bell) = self.bell(next) {
            bell.notify_all();
        }
    }

    /// Counts a series as due: it is to be dispatched.
    pub fn owe(&self) {
        let _ = self.due.fetch_add(1, Ordering::SeqCst);
    }

    /// Counts a message to be dispatched, which was due.
    pub fn dispatch(&self) {
        let _ = self.dispatched.fetch_add(1, Ordering::SeqCst);
        let _ = self.due.fetch_sub(1, Ordering::SeqCst);
    }

    /// Spins for some tens of microseconds until no series is due that isn't dispatched. Whoever then receives finds them all.
    pub fn look_for_all(&self) {
        for _ in 0..LOOKS_FOR_ALL {
            if self.due.load(Ordering::SeqCst) == 0 {
                return;
            }
            hint::spin_loop();
        }
    }

    /// Counts a message received by its holder.
    pub fn receive(&self) {
        let _ = self.received.fetch_add(1, Ordering::SeqCst);
    }

    /// Spins for some microseconds for a message that was dispatched and not received. Whoever then receives finds it without
    /// having to sleep.
    pub fn look_for_message(&self) {
        let received = self.received.load(Ordering::SeqCst);
        for _ in 0..self.spin_backoff.looks() {
            if self.dispatched.load(Ordering::SeqCst) != received {
                self.spin_backoff.found();
                return;
            }
            hint::spin_loop();
        }
        self.spin_backoff.in_vain();
    }
}
