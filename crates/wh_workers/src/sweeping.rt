// A call of `serve` for a sweep: a scanner alone, in a thread of its own.

ghost use Rattle.std.specs.Prelude.{◌≡◌, ◌≤◌, OnOk, OnErr, false};
ghost use Rattle.wh_threads.specs.Counting.{ThreadCountsState};

use crate::crew::ServeError;
use std::alloc::Global;
use std::sync::Wait;
use std::sync::ledger::Ledger;
use std::thread::Threads;
use wh_threads::{Gate, Shares, Sweep, ThreadCounts, start_sweep};

// The scanner's thread is started and joined.
fn sweep_there<
    T: Ledger,
    C: Ledger,
    O: Ledger + Send + 'static,
    E: Ledger,
    J: Sweep<O> + Drop + Send + 'static,
    R: Threads + Wait + Copy + Send + 'static,
>(rt: R, gate: Gate, job: J, lender: &mut ThreadCounts<T, C, O, E>) -> (Result<(), ServeError>, J)
    requires { lender.old.scanners_out ≡ 0 }
    ensures ok { OnOk result.0 (J.sweeps job lender.old.offers result.1 lender.new.offers) }
    ensures err { OnErr result.0 ((result.1 ≡ job) × (lender.new.offers ≡ lender.old.offers)) }
    ensures grown { lender.old.offers ≤ lender.new.offers }
    ensures only { lender.new ≡ record lender.old { offers = lender.new.offers } }
{
    let scanner = lender.lend_scanner();
    match start_sweep(rt, job, gate, scanner) {
        Ok(handle) => {
            let (job, is_done) = lender.join_sweep(&rt, handle);
            if !is_done {
                return (Err(ServeError::NoThread), job);
            }
            (Ok(()), job)
        }
        Err((job, scanner)) => {
            lender.take_refused_scanner(scanner);
            (Err(ServeError::NoThread), job)
        }
    }
}

/// Makes one sweep with a value, by the scanner alone, in a thread that this call starts and joins: the value comes back. Of
/// all counts that of offers alone changes, as the sweep says.
///
/// # Errors
/// `Memory` where room was refused, and `NoThread` where the scanner couldn't be started. Nothing was done then, and no count
/// has changed.
pub fn serve_sweep<
    T: Ledger,
    C: Ledger,
    O: Ledger + Send + 'static,
    E: Ledger,
    J: Sweep<O> + Drop + Send + 'static,
    R: Threads + Wait + Copy + Send + 'static,
>(rt: R, alloc: Global, job: J, shares: &mut Shares<T, C, O, E>) -> (Result<(), ServeError>, J)
    ensures ok { OnOk result.0 (J.sweeps job shares.old.offers result.1 shares.new.offers) }
    ensures err { OnErr result.0 ((result.1 ≡ job) × (shares.new ≡ shares.old)) }
    ensures grown { shares.old.offers ≤ shares.new.offers }
    ensures only { shares.new ≡ record shares.old { offers = shares.new.offers } }
{
    let Ok(gate) = Gate::new(alloc) else {
        return (Err(ServeError::Memory), job);
    };
    sweep_there(rt, gate, job, &mut shares.all)
}
