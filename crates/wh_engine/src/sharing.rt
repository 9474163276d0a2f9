// Pages of a script's instances that come to one frame, and the epochs in which they are touched.

ghost use Rattle.std.specs.Prelude.{◌≡◌, ℕ, Option};
ghost use Rattle.wh_space_model.specs.Stores.{Epochs};
ghost use Rattle.wh_host.specs.Backing.{KeepsBacking};
ghost use Rattle.wh_host.specs.Paging.{MovesOnly};
ghost use Rattle.wh_cell.specs.Scanned.{IsScanned};
ghost use Rattle.wh_engine.specs.Draining.{CountsPass, StaysLacking, StaysSo};

use crate::script_host::ScriptHost;
use std::alloc::Global;
use std::sync::Wait;
use std::sync::ledger::Ledger;
use std::thread::Threads;
use wh_cell::CellAgreements;
use wh_kernels::PageHash;
use wh_scheduler::OwnedHost;
use wh_swap::SwapDev;

impl<D: SwapDev, T: Ledger, C: Ledger, O: Ledger, E: Ledger, B: CellAgreements> ScriptHost<
    D,
    T,
    C,
    O,
    E,
    B,
> {
    /// Begins a new epoch, in which no page was touched yet.
    pub fn epoch(&mut self)
        ensures stands { StaysSo self.old self.new }
        ensures clears { Epochs self.old.host.host.space self.new.host.host.space }
        ensures device { self.new.host.device ≡ self.old.host.device }
        ensures others { self.new ≡ record self.old { host = self.new.host } }
        ensures books { self.new.host.books ≡ self.old.host.books }
        ensures own { self.new.host.own ≡ self.old.host.own }
    {
        self.host.epoch();
    }
}

impl<
    D: SwapDev + Drop + Send + 'static,
    T: Ledger + Send + 'static,
    C: Ledger + Send + 'static,
    O: Ledger + Send + 'static,
    E: Ledger + Send + 'static,
    B: CellAgreements + Send + 'static,
> ScriptHost<D, T, C, O, E, B> {
    /// Offers all pages of all instances for sharing, each under its hash, by a scanner in a thread of its own; where that is refused,
    /// or room for it, in the calling thread: `lacked_threads` tells that. The book of offers grows by as many. It is done where
    /// frames and slots are fewer than 2^32 together, as settings have it: then as many frames are in use as there are distinct
    /// contents that aren't all zero, if the hash tells contents apart and was the hash before.
    pub fn scan<H: PageHash + Copy + Send + 'static, R: Threads + Wait + Copy + Send + 'static>(
        &mut self,
        rt: &R,
        alloc: Global,
        hasher: H,
    )
        ensures stands { StaysSo self.old self.new }
        ensures device { self.new.host.device ≡ self.old.host.device }
        ensures scans { (offered : Option ℕ)
            × IsScanned (H.hashes hasher) self.old.host.host offered self.new.host.host
            × CountsPass self.new.lacked_threads self.old.host offered self.new.host }
        ensures lacking { StaysLacking self.old self.new }
        ensures others { self.new ≡ record self.old {
          host = self.new.host;
          lacked_threads = self.new.lacked_threads;
        } }
    {
        let lacked = scan_host(&mut self.host, rt, alloc, hasher);
        self.lacked_threads |= lacked;
    }
}

// Offers all pages of a host by a scanner. Where none could be started the calling thread does it, and the answer is true.
fn scan_host<
    D: SwapDev + Drop + Send + 'static,
    T: Ledger + Send + 'static,
    C: Ledger + Send + 'static,
    O: Ledger + Send + 'static,
    E: Ledger + Send + 'static,
    B: CellAgreements + Send + 'static,
    H: PageHash + Copy + Send + 'static,
    R: Threads + Wait + Copy + Send + 'static,
>(host: &mut OwnedHost<D, T, C, O, E, B>, rt: &R, alloc: Global, hasher: H) -> bool
    ensures moves { MovesOnly host.old.host host.new.host }
    ensures backing { KeepsBacking host.old.host.space host.new.host.space }
    ensures device { host.new.device ≡ host.old.device }
    ensures scans { (offered : Option ℕ)
        × IsScanned (H.hashes hasher) host.old.host offered host.new.host
        × CountsPass result host.old offered host.new }
{
    if host.scan(rt, alloc, hasher).is_ok() {
        return false;
    }
    let _ = host.scan_here(&hasher);
    true
}
