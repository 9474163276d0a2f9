//! What the scanner of a live host does.

ghost use Rattle.std.specs.Prelude.{◌≡◌};
ghost use Rattle.wh_live.specs.Passed.{HasPassed};

use crate::passes::{PassReport, Passes};
use std::alloc::AllocError;
use std::sync::ledger::Ledger;
use std::sync::{Condvar, Wait};
use wh_cell::CellAgreements;
use wh_kernels::PageHash;
use wh_scheduler::ScanJob;
use wh_swap::SwapDev;
use wh_threads::{Help, HelpOutcome, Helper};

/// Makes the passes that are asked for, and offers a page for each 64 dispatched turns. Where no instance is there it waits
/// for one.
pub struct LiveScanJob<
    D: SwapDev,
    T: Ledger,
    C: Ledger,
    O: Ledger,
    E: Ledger,
    B: CellAgreements,
    H: PageHash,
> {
    scans: ScanJob<D, T, C, O, E, B, H>,
    passes: Passes<D, H>,
}

impl<
    D: SwapDev + Drop,
    T: Ledger,
    C: Ledger,
    O: Ledger,
    E: Ledger,
    B: CellAgreements,
    H: PageHash + Drop,
> Drop for LiveScanJob<D, T, C, O, E, B, H> {
    fn drop(self) {
        let LiveScanJob {
            scans: _,
            passes: _,
        } = self;
    }
}

impl<
    D: SwapDev + Drop,
    T: Ledger,
    C: Ledger,
    O: Ledger,
    E: Ledger,
    B: CellAgreements,
    H: PageHash + Copy,
> LiveScanJob<D, T, C, O, E, B, H> {
    /// Returns the scanner's job, which offers pages as `scans` says, and makes these passes.
    pub fn new(
        scans: ScanJob<D, T, C, O, E, B, H>,
        passes: Passes<D, H>,
    ) -> LiveScanJob<D, T, C, O, E, B, H> {
        LiveScanJob { scans, passes }
    }

    // Offers all pages, under one hold of the host's lock.
    fn pass<R: Wait>(&self, rt: &R, helper: &mut Helper<O>) -> PassReport<D, H>
        ensures from { helper.new.from ≡ helper.old.from }
    {
        let mut locked = self.scans.cell.lock(rt);
        let offered = locked.scan(&self.scans.hasher, helper);
        locked.invariant();
        PassReport::of(self.scans.hasher, offered)
    }
}

impl<
    D: SwapDev + Drop,
    T: Ledger,
    C: Ledger,
    O: Ledger,
    E: Ledger,
    B: CellAgreements,
    H: PageHash + Copy,
> Help<O> for LiveScanJob<D, T, C, O, E, B, H> {
    fn help<R: Wait>(&self, rt: &R, helper: &mut Helper<O>) -> HelpOutcome {
        if let Some(number) = self.passes.wanted(rt) {
            let report = self.pass(rt, helper);
            self.passes.make(rt, number, report);
            return HelpOutcome::Did;
        }
        match self.scans.help(rt, helper) {
            HelpOutcome::Did => HelpOutcome::Did,
            HelpOutcome::Waits | HelpOutcome::Ended => HelpOutcome::Waits,
        }
    }

    fn bell(&self) -> &Condvar {
        self.scans.bell()
    }

    fn share(&self) -> Result<Self, AllocError> {
        let scans = self.scans.share()?;
        let passes = self.passes.share()?;
        Ok(LiveScanJob { scans, passes })
    }
}
