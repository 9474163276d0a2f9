// What a helper's thread does once, with a value that comes back.

ghost use Rattle.std.specs.Prelude.{◌≡◌, ℕ, IfOk, IfErr};
ghost use Rattle.crossbeam_channel.specs.Ends.{receives_on};
ghost use Rattle.wh_threads.specs.Gates.{IsTold};
ghost use Rattle.wh_threads.specs.Sweeping.{HasSwept};

use crate::gate::{Gate, Told, Waiting};
use crate::helper::Helper;
use std::snapshot::Snapshot;
use std::sync::Wait;
use std::sync::ledger::Ledger;
use std::thread;
use std::thread::{Promise, PromisedHandle, Threads};

/// What a helper does once, with a value that it owns meanwhile.
pub trait Sweep<K: Ledger> {
    /// What it makes of the value and of the helper's count.
    ghost sweeps: { Self → ℕ → Self → ℕ → Type 0 };

    /// Does it, and counts what it did.
    fn sweep(&mut self, helper: &mut Helper<K>)
        ensures from { helper.new.from ≡ helper.old.from }
        ensures sweeps { sweeps self.old helper.old.count self.new helper.new.count };
}

/// What the thread of a sweep returns: the value, what was counted, and whether the sweep was made. None is made elsewhere.
#[derive(Drop)]
pub struct Swept<K: Ledger, J> {
    job: J,
    helper: Helper<K>,
    told: Told,
}

impl<K: Ledger, J> Swept<K, J> {
    /// Tells whether the sweep was made.
    pub fn is_done(&self) -> bool
        ensures { result ≡ self.now.told.has_begun }
    {
        self.told.has_begun
    }

    // The value, and who counted.
    pub(crate) fn into_parts(self) -> (J, Helper<K>)
        ensures { (result.0 ≡ self.job) × (result.1 ≡ self.helper) }
    {
        let (job, helper, _) = self.into_all();
        (job, helper)
    }

    // The same, with what it was told before it began.
    pub(crate) fn into_all(self) -> (J, Helper<K>, Told)
        ensures { (result.0 ≡ self.job) × (result.1 ≡ self.helper) × (result.2 ≡ self.told) }
    {
        let Swept { job, helper, told } = self;
        (job, helper, told)
    }
}

/// What the thread of a sweep promises: it went on from this value and this count, and made the sweep of them or none.
#[derive(Drop)]
pub struct Sweeps<J> {
    /// The value with which it began.
    pub job: Snapshot<J>,
    /// With which count it began.
    pub from: u64,
}

impl<K: Ledger, J: Sweep<K>> Promise<Swept<K, J>> for Sweeps<J> {
    ghost use Rattle.wh_threads.specs.Sweeping.{HasSwept};

    ghost kept_by = { λ p r. HasSwept J.sweeps p.job.value p.from r.told.has_begun r.job r.helper };
}

// Waits until the thread is told to begin, and then makes the sweep. Where it is told to stay it does nothing.
fn sweep_once_told<K: Ledger, J: Sweep<K>, R: Wait + Drop>(
    rt: R,
    job: J,
    helper: Helper<K>,
    waiting: Waiting,
) -> Swept<K, J>
    requires { helper.count ≡ helper.from }
    ensures swept { HasSwept J.sweeps job helper.from result.told.has_begun result.job
        result.helper }
    ensures told { IsTold (receives_on waiting.receiver) result.told.slip result.told.has_begun }
{
    let mut job = job;
    let mut helper = helper;
    let told = waiting.wait(&rt);
    if told.has_begun {
        job.sweep(&mut helper);
    }
    Swept { job, helper, told }
}

/// Starts the thread of a sweep, by a helper that has counted nothing yet.
///
/// # Errors
/// Where no thread could be made: value and helper come back as they were.
pub fn start_sweep<
    K: Ledger + Send + 'static,
    J: Sweep<K> + Drop + Send + 'static,
    R: Threads + Wait + Copy + Send + 'static,
>(
    rt: R,
    job: J,
    gate: Gate,
    helper: Helper<K>,
) -> Result<PromisedHandle<Swept<K, J>, Sweeps<J>>, (J, Helper<K>)>
    requires { helper.count ≡ helper.from }
    ensures ok { IfOk result (λ handle. (handle.promise.job.value ≡ job)
        × (handle.promise.from ≡ helper.from)) }
    ensures err { IfErr result (λ back. (back.0 ≡ job) × (back.1.from ≡ helper.from)
        × (back.1.count ≡ helper.from)) }
{
    let (opener, waiting) = gate.split();
    let promise = Sweeps {
        job: Snapshot::of(&job),
        from: helper.from(),
    };
    let run = move || -> Swept<K, J>
        requires { helper.count ≡ helper.from }
        ensures { HasSwept J.sweeps job helper.from result.told.has_begun result.job
            result.helper
            × IsTold (receives_on waiting.receiver) result.told.slip result.told.has_begun }
    { sweep_once_told(rt, job, helper, waiting) };
    match thread::spawn_with(&rt, promise, run) {
        Ok(handle) => {
            opener.begin(&rt);
            Ok(handle)
        }
        Err(refused) => {
            let closed = opener.stay(&rt);
            let (job, helper, told) = (refused.value)().into_all();
            closed.check(told);
            Err((job, helper))
        }
    }
}
