//! How long a thread looks for what it waits for before it sleeps.

use std::sync::atomic::{AtomicU64, Ordering};

// How often it looks: for some tens of microseconds, in which a turn of a thousand charges ends. To sleep and to be
// woken may take as long.
const LOOKS: u32 = 20_000;

// How often it looks if it did without success too often.
const FEW_LOOKS: u32 = 50;

// How many times in a row it may look without success before it looks less.
const MOST_IN_VAIN: u64 = 3;

// Where it looks less, it looks long once in this many times.
const TIMES: u64 = 8;

/// Decides how long a thread spins before it sleeps. If spinning fails again and again, as where all processors have
/// other things to do, or turns are long, it mostly sleeps at once.
#[derive(Drop)]
pub struct SpinBackoff {
    // How many times in a row it spun without success, modulo 2^64.
    vain: AtomicU64,
}

impl SpinBackoff {
    /// Returns the backoff of a thread that hasn't spun.
    pub fn new() -> SpinBackoff {
        SpinBackoff {
            vain: AtomicU64::new(0),
        }
    }

    /// Returns how often to spin.
    pub fn looks(&self) -> u32 {
        let vain = self.vain.load(Ordering::SeqCst);
        if vain < MOST_IN_VAIN || vain % TIMES == 0 {
            LOOKS
        } else {
            FEW_LOOKS
        }
    }

    /// Notes that spinning helped.
    pub fn found(&self) {
        self.vain.store(0, Ordering::SeqCst);
    }

    /// Notes that spinning didn't help.
    pub fn in_vain(&self) {
        let _ = self.vain.fetch_add(1, Ordering::SeqCst);
    }
}
