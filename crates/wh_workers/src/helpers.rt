// The helpers of a call of `serve`: a scanner and a reclaimer, each of which is started where it is wanted.

ghost use Rattle.std.specs.Prelude.{◌≡◌, ◌≤◌, None, IfOk, IsSome, OnErr, OnOk};
ghost use Rattle.wh_threads.specs.Counting.{ThreadCountsState};
ghost use Rattle.wh_workers.specs.LentHelpers.{AreLent, IsLent};

use crate::crew::ServeError;
use std::alloc::{AllocError, Global};
use std::marker::Model;
use std::sync::atomic::{AtomicU64, Ordering};
use std::sync::ledger::Ledger;
use std::sync::{Arc, Wait};
use std::thread::{PromisedHandle, Threads};
use wh_threads::{Gate, Help, Helped, Helps, ThreadCounts, start_helper};

// A helper that was started, and the flag that tells it to stop.
#[derive(Drop)]
pub struct Started<K: Ledger> {
    pub handle: PromisedHandle<Helped<K>, Helps>,
    pub flag: Arc<AtomicU64, Global>,
}

// What a helper's thread gets besides its counts.
#[derive(Drop)]
pub struct HelperParts<H> {
    job: H,
    stop: Arc<AtomicU64, Global>,
    flag: Arc<AtomicU64, Global>,
    gate: Gate,
}

/// Allocates everything that a helper's thread needs but its stack.
pub fn means_of<K: Ledger, H: Help<K> + Drop>(
    alloc: Global,
    job: &H,
) -> Result<HelperParts<H>, AllocError> {
    let job = job.share()?;
    let stop = Arc::new(alloc, AtomicU64::new(0))?;
    let flag = Arc::try_clone(&stop)?;
    let gate = Gate::new(alloc)?;
    Ok(HelperParts {
        job,
        stop,
        flag,
        gate,
    })
}

/// Starts a scanner, which scans until `wanted` pages were offered in all, or it is told to stop.
pub fn start_scanner<
    T: Ledger,
    C: Ledger,
    O: Ledger + Send + 'static,
    E: Ledger,
    H: Help<O> + Drop + Send + 'static,
    R: Threads + Wait + Copy + Send + 'static,
>(
    rt: R,
    means: HelperParts<H>,
    lender: &mut ThreadCounts<T, C, O, E>,
    wanted: u64,
) -> Result<Started<O>, ServeError>
    requires { lender.old.scanners_out ≡ 0 }
    ensures ok { IfOk result (λ s. (s.handle.promise.from ≡ lender.old.offers)
        × (lender.new ≡ record lender.old { scanners_out = 1 })) }
    ensures err { OnErr result (lender.new ≡ lender.old) }
{
    let HelperParts {
        job,
        stop,
        flag,
        gate,
    } = means;
    let scanner = lender.lend_scanner();
    match start_helper(rt, job, stop, gate, wanted, scanner) {
        Ok(handle) => Ok(Started { handle, flag }),
        Err(scanner) => {
            lender.take_refused_scanner(scanner);
            Err(ServeError::NoThread)
        }
    }
}

// Starts a reclaimer, which goes on until it is told to stop.
fn start_reclaimer<
    T: Ledger,
    C: Ledger,
    O: Ledger,
    E: Ledger + Send + 'static,
    P: Help<E> + Drop + Send + 'static,
    R: Threads + Wait + Copy + Send + 'static,
>(
    rt: R,
    means: HelperParts<P>,
    lender: &mut ThreadCounts<T, C, O, E>,
) -> Result<Started<E>, ServeError>
    requires { lender.old.reclaimers_out ≡ 0 }
    ensures ok { IfOk result (λ s. (s.handle.promise.from ≡ lender.old.evictions)
        × (lender.new ≡ record lender.old { reclaimers_out = 1 })) }
    ensures err { OnErr result (lender.new ≡ lender.old) }
{
    let HelperParts {
        job,
        stop,
        flag,
        gate,
    } = means;
    let reclaimer = lender.lend_reclaimer();
    match start_helper(rt, job, stop, gate, u64::MAX, reclaimer) {
        Ok(handle) => Ok(Started { handle, flag }),
        Err(reclaimer) => {
            lender.take_refused_reclaimer(reclaimer);
            Err(ServeError::NoThread)
        }
    }
}

/// A helper that is started where it is wanted. Contracts see with which count it began, where it was started.
pub struct LazyHelper<K: Ledger, H> {
    // What its thread is to get; none where it was started, or couldn't be.
    means: Option<HelperParts<H>>,
    started: Option<Started<K>>,
}

impl<K: Ledger, H> Model for LazyHelper<K, H> {
    ghost use Rattle.std.specs.Prelude.{ℕ, Option};
    ghost use Rattle.std.specs.Option.{option_map};

    ghost Value = { Option ℕ };

    ghost view = { λ s. option_map (λ h. h.handle.promise.from) s.started };
}

impl<K: Ledger, H: Help<K> + Drop> LazyHelper<K, H> {
    // A helper that isn't started, whose thread is to get this.
    fn new(means: HelperParts<H>) -> LazyHelper<K, H>
        ensures { result ≡ None }
    {
        LazyHelper {
            means: Some(means),
            started: None,
        }
    }

    /// Tells whether it was started.
    pub fn is_started(&self) -> bool {
        self.started.is_some()
    }
}

impl<K: Ledger + Send + 'static, H: Help<K> + Drop + Send + 'static> LazyHelper<K, H> {
    /// Starts it as a scanner, unless it was started before. Returns an error if it can't be, or couldn't before.
    pub fn start_scanner<
        T: Ledger,
        C: Ledger,
        E: Ledger,
        R: Threads + Wait + Copy + Send + 'static,
    >(&mut self, rt: R, lender: &mut ThreadCounts<T, C, K, E>) -> Result<(), ServeError>
        requires { IsLent self.old lender.old.offers lender.old.scanners_out }
        ensures ok { OnOk result (IsSome self.new) }
        ensures lent { IsLent self.new lender.new.offers lender.new.scanners_out }
        ensures only { lender.new
            ≡ record lender.old { scanners_out = lender.new.scanners_out } }
    {
        if self.started.is_some() {
            return Ok(());
        }
        let Some(means) = self.means.take() else {
            return Err(ServeError::NoThread);
        };
        let started = start_scanner(rt, means, lender, u64::MAX)?;
        self.started = Some(started);
        Ok(())
    }

    /// Starts it as a reclaimer, unless it was started before. Returns an error if it can't be, or couldn't before.
    pub fn start_reclaimer<
        T: Ledger,
        C: Ledger,
        O: Ledger,
        R: Threads + Wait + Copy + Send + 'static,
    >(&mut self, rt: R, lender: &mut ThreadCounts<T, C, O, K>) -> Result<(), ServeError>
        requires { IsLent self.old lender.old.evictions lender.old.reclaimers_out }
        ensures ok { OnOk result (IsSome self.new) }
        ensures lent { IsLent self.new lender.new.evictions lender.new.reclaimers_out }
        ensures only { lender.new
            ≡ record lender.old { reclaimers_out = lender.new.reclaimers_out } }
    {
        if self.started.is_some() {
            return Ok(());
        }
        let Some(means) = self.means.take() else {
            return Err(ServeError::NoThread);
        };
        let started = start_reclaimer(rt, means, lender)?;
        self.started = Some(started);
        Ok(())
    }
}

/// Tells the scanner to stop, if it was started, and takes back its part.
pub fn join_scanner<T: Ledger, C: Ledger, O: Ledger, E: Ledger, H: Help<O> + Drop, R: Threads>(
    rt: &R,
    scans: &H,
    lender: &mut ThreadCounts<T, C, O, E>,
    scanner: LazyHelper<O, H>,
)
    requires { IsLent scanner lender.old.offers lender.old.scanners_out }
    ensures grown { lender.old.offers ≤ lender.new.offers }
    ensures only { lender.new
        ≡ record lender.old { offers = lender.new.offers; scanners_out = 0 } }
{
    let LazyHelper { means: _, started } = scanner;
    if let Some(Started { handle, flag }) = started {
        flag.store(1, Ordering::SeqCst);
        scans.bell().notify_all();
        lender.join_scanner(rt, handle);
    }
}

/// Tells the reclaimer to stop, if it was started, and takes back its part.
pub fn join_reclaimer<T: Ledger, C: Ledger, O: Ledger, E: Ledger, P: Help<E> + Drop, R: Threads>(
    rt: &R,
    reclaims: &P,
    lender: &mut ThreadCounts<T, C, O, E>,
    reclaimer: LazyHelper<E, P>,
)
    requires { IsLent reclaimer lender.old.evictions lender.old.reclaimers_out }
    ensures grown { lender.old.evictions ≤ lender.new.evictions }
    ensures only { lender.new
        ≡ record lender.old { evictions = lender.new.evictions; reclaimers_out = 0 } }
{
    let LazyHelper { means: _, started } = reclaimer;
    if let Some(Started { handle, flag }) = started {
        flag.store(1, Ordering::SeqCst);
        reclaims.bell().notify_all();
        lender.join_reclaimer(rt, handle);
    }
}

/// The helpers of a call of `serve`.
pub struct Helpers<O: Ledger, E: Ledger, H, P> {
    /// Who offers pages.
    pub scanner: LazyHelper<O, H>,
    /// Who evicts them.
    pub reclaimer: LazyHelper<E, P>,
}

impl<O: Ledger, E: Ledger, H: Help<O> + Drop, P: Help<E> + Drop> Helpers<O, E, H, P> {
    /// Creates helpers that aren't started. Allocates everything that their threads need but the stacks.
    pub fn new(alloc: Global, scans: &H, reclaims: &P) -> Result<Helpers<O, E, H, P>, AllocError>
        ensures { IfOk result (λ h. (h.scanner ≡ None) × (h.reclaimer ≡ None)) }
    {
        let for_scanner = means_of::<O, H>(alloc, scans)?;
        let for_reclaimer = means_of::<E, P>(alloc, reclaims)?;
        Ok(Helpers {
            scanner: LazyHelper::new(for_scanner),
            reclaimer: LazyHelper::new(for_reclaimer),
        })
    }
}

impl<
    O: Ledger + Send + 'static,
    E: Ledger + Send + 'static,
    H: Help<O> + Drop + Send + 'static,
    P: Help<E> + Drop + Send + 'static,
> Helpers<O, E, H, P> {
    /// Starts both that aren't started. Returns an error if one can't be: the other may have been started then.
    pub fn start_both<T: Ledger, C: Ledger, R: Threads + Wait + Copy + Send + 'static>(
        &mut self,
        rt: R,
        lender: &mut ThreadCounts<T, C, O, E>,
    ) -> Result<(), ServeError>
        requires { AreLent self.old.scanner self.old.reclaimer lender.old }
        ensures ok { OnOk result (IsSome self.new.scanner × IsSome self.new.reclaimer) }
        ensures lent { AreLent self.new.scanner self.new.reclaimer lender.new }
        ensures only { lender.new ≡ record lender.old {
          scanners_out = lender.new.scanners_out;
          reclaimers_out = lender.new.reclaimers_out;
        } }
    {
        self.reclaimer.start_reclaimer(rt, lender)?;
        self.scanner.start_scanner(rt, lender)
    }
}
