// The thread of a scanner or of a reclaimer.

ghost use Rattle.std.specs.Prelude.{◌≡◌, ◌-◌, ◌^◌, ◌<◌, ◌≤◌, IfOk, IfErr, false};
ghost use Rattle.crossbeam_channel.specs.Ends.{receives_on};
ghost use Rattle.wh_threads.specs.Gates.{IsTold};

use crate::gate::{Gate, Told, Waiting};
use crate::helper::Helper;
use std::alloc::{AllocError, Global};
use std::marker::Model;
use std::sync::atomic::{AtomicU64, Ordering};
use std::sync::ledger::Ledger;
use std::sync::{Arc, Condvar, Wait};
use std::thread;
use std::thread::{Promise, PromisedHandle, Threads};
use std::time::Duration;

/// How long who waits to be notified sleeps at most, in seconds, before it looks by itself.
pub const LONGEST_SLEEP_SECONDS: u64 = 1;

/// What came of what a scanner or a reclaimer was to do.
#[derive(Clone, Copy, Debug, PartialEq, Eq)]
pub enum HelpOutcome {
    /// It was done.
    Did,
    /// There is nothing to do now: its condition variable is notified when there may be something.
    Waits,
    /// Nothing will be to do any more.
    Ended,
}

/// What a scanner or a reclaimer does, again and again.
pub trait Help<K: Ledger> {
    /// Does it once, and counts what it did.
    fn help<R: Wait>(&self, rt: &R, helper: &mut Helper<K>) -> HelpOutcome
        requires room { helper.old.count < 2 ^ 64 - 1 }
        ensures from { helper.new.from ≡ helper.old.from };

    /// Returns the condition variable that is notified when there may be something to do again, and when the thread is
    /// told to stop. While it waits it takes no processor time.
    fn bell(&self) -> &Condvar;

    /// Returns the same for another thread.
    ///
    /// # Errors
    /// `AllocError` if an allocation fails.
    fn share(&self) -> Result<Self, AllocError>;
}

/// What the thread of a scanner or of a reclaimer returns: what it has counted. None is made elsewhere.
#[derive(Drop)]
pub struct Helped<K: Ledger> {
    helper: Helper<K>,
    told: Told,
}

impl<K: Ledger> Model for Helped<K> {
    ghost use Rattle.wh_threads.specs.Counting.{HelpedState};

    ghost Value = { HelpedState };

    ghost view = { λ h. record {
      helper = h.helper;
      told = h.told.slip;
      has_begun = h.told.has_begun;
    } };
}

impl<K: Ledger> Helped<K> {
    // Who counted it.
    pub(crate) fn into_helper(self) -> Helper<K>
        ensures { result ≡ self.helper }
    {
        let (helper, _) = self.into_all();
        helper
    }

    // The same, with what it was told before it began.
    pub(crate) fn into_all(self) -> (Helper<K>, Told)
        ensures helper { result.0 ≡ self.helper }
        ensures told { (result.1.slip ≡ self.told) × (result.1.has_begun ≡ self.has_begun) }
    {
        let Helped { helper, told } = self;
        (helper, told)
    }
}

/// What the thread of a scanner or of a reclaimer promises: it went on from this count.
#[derive(Clone, Copy)]
pub struct Helps {
    /// With which count it began.
    pub from: u64,
}

impl<K: Ledger> Promise<Helped<K>> for Helps {
    ghost use Rattle.std.specs.Prelude.{◌≡◌};

    ghost kept_by = { λ p r. r.helper.from ≡ p.from };
}

// Helps until it is told to stop, its count is as great as is wanted, or it has come to its end.
fn help_until_told<K: Ledger, H: Help<K>, R: Wait>(
    rt: &R,
    job: &H,
    stop: &AtomicU64,
    wanted: u64,
    helper: Helper<K>,
) -> Helper<K>
    ensures { result.from ≡ helper.from }
{
    let mut helper = helper;
    for _ in rt.forever() {
        let rings = job.bell().notifications();
        if helper.count() >= wanted || stop.load(Ordering::SeqCst) != 0 {
            break;
        }
        match job.help(rt, &mut helper) {
            HelpOutcome::Did => thread::yield_now(),
            HelpOutcome::Waits => {
                let longest = Duration::from_secs(LONGEST_SLEEP_SECONDS);
                job.bell().sleep(rt, rings, longest);
            },
            HelpOutcome::Ended => break,
        }
    }
    helper
}

// Waits until the thread is told to begin, and then helps. Where it is told to stay it does nothing.
fn help_once_told<K: Ledger, H: Help<K> + Drop, R: Wait + Drop>(
    rt: R,
    job: H,
    stop: Arc<AtomicU64, Global>,
    wanted: u64,
    helper: Helper<K>,
    waiting: Waiting,
) -> Helped<K>
    ensures from { result.helper.from ≡ helper.from }
    ensures told { IsTold (receives_on waiting.receiver) result.told result.has_begun }
    ensures idle { result.has_begun ≡ false → result.helper ≡ helper }
{
    let told = waiting.wait(&rt);
    if !told.has_begun {
        return Helped { helper, told };
    }
    let helper = help_until_told(&rt, &job, &*stop, wanted, helper);
    Helped { helper, told }
}

/// Starts the thread of a scanner or of a reclaimer that has counted nothing yet. It helps until `stop` isn't 0, its
/// count is at least `wanted`, or it has come to its end.
///
/// # Errors
/// Where no thread could be made: the helper comes back as it was.
pub fn start_helper<
    K: Ledger + Send + 'static,
    H: Help<K> + Drop + Send + 'static,
    R: Threads + Wait + Copy + Send + 'static,
>(
    rt: R,
    job: H,
    stop: Arc<AtomicU64, Global>,
    gate: Gate,
    wanted: u64,
    helper: Helper<K>,
) -> Result<PromisedHandle<Helped<K>, Helps>, Helper<K>>
    requires { helper.count ≡ helper.from }
    ensures ok { IfOk result (λ handle. handle.promise.from ≡ helper.from) }
    ensures err { IfErr result (λ h. h ≡ helper) }
{
    let (opener, waiting) = gate.split();
    let promise = Helps {
        from: helper.from(),
    };
    let run = move || -> Helped<K>
        ensures { (result.helper.from ≡ helper.from)
            × IsTold (receives_on waiting.receiver) result.told result.has_begun
            × (result.has_begun ≡ false → result.helper ≡ helper) }
    { help_once_told(rt, job, stop, wanted, helper, waiting) };
    match thread::spawn_with(&rt, promise, run) {
        Ok(handle) => {
            opener.begin(&rt);
            Ok(handle)
        }
        Err(refused) => {
            let closed = opener.stay(&rt);
            let (helper, told) = (refused.value)().into_all();
            closed.check(told);
            Err(helper)
        }
    }
}
