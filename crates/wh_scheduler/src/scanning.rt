// A pass over all pages of a host, in a scanner's thread.

ghost use Rattle.std.specs.Prelude.{◌≡◌, IfOk, OnErr};
ghost use Rattle.wh_cell.specs.Scanned.{ScansLocked};

use std::alloc::Global;
use std::sync::Wait;
use std::sync::ledger::Ledger;
use std::thread::Threads;
use wh_cell::{CellAgreements, Locked};
use wh_kernels::PageHash;
use wh_swap::SwapDev;
use wh_threads::{Helper, Shares, Sweep};
use wh_workers::{ServeError, serve_sweep};

// A host whose pages are all to be offered, each under its hash; and how many were, if the pass was done.
#[derive(Drop)]
pub struct PassJob<D: SwapDev, T: Ledger, C: Ledger, O: Ledger, E: Ledger, B: CellAgreements, H> {
    // The host, which lies under no lock now.
    pub locked: Locked<D, T, C, O, E, B>,
    // How pages are hashed.
    pub hasher: H,
    // How many pages were offered.
    pub offered: Option<u64>,
}

impl<D: SwapDev, T: Ledger, C: Ledger, O: Ledger, E: Ledger, B: CellAgreements, H: PageHash> Sweep<
    O,
> for PassJob<D, T, C, O, E, B, H> {
    ghost use Rattle.wh_cell.specs.Scanned.{ScansLocked};

    ghost sweeps = { λ job count job2 count2.
        ScansLocked (H.hashes job.hasher) job.locked count job2.offered job2.locked count2 };

    fn sweep(&mut self, helper: &mut Helper<O>) {
        self.offered = self.locked.scan(&self.hasher, helper);
    }
}

/// Offers all pages of a host for merging in a scanner's thread, which this call starts and joins. Returns the number
/// of pages offered, if a pass could be made, and the host.
///
/// # Errors
/// Those of `serve_sweep`; nothing was done then.
pub fn scan_there<
    D: SwapDev + Send + 'static,
    T: Ledger + Send + 'static,
    C: Ledger + Send + 'static,
    O: Ledger + Send + 'static,
    E: Ledger + Send + 'static,
    B: CellAgreements + Send + 'static,
    H: PageHash + Drop + Send + 'static,
    R: Threads + Wait + Copy + Send + 'static,
>(
    rt: R,
    alloc: Global,
    locked: Locked<D, T, C, O, E, B>,
    hasher: H,
    shares: &mut Shares<T, C, O, E>,
) -> (Result<Option<u64>, ServeError>, Locked<D, T, C, O, E, B>)
    ensures ok { IfOk result.0 (λ offered. ScansLocked (H.hashes hasher) locked shares.old.offers
        offered result.1 shares.new.offers) }
    ensures err { OnErr result.0 ((result.1 ≡ locked) × (shares.new ≡ shares.old)) }
    ensures only { shares.new ≡ record shares.old { offers = shares.new.offers } }
{
    let job = PassJob {
        locked,
        hasher,
        offered: None,
    };
    let (end, job) = serve_sweep(rt, alloc, job, shares);
    let PassJob {
        locked,
        hasher: _,
        offered,
    } = job;
    match end {
        Ok(()) => (Ok(offered), locked),
        Err(error) => (Err(error), locked),
    }
}
