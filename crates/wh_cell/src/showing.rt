//! What is shown of a host that lies under a lock.

ghost use Rattle.std.specs.Prelude.{◌≡◌, IfOk, IfSome};
ghost use Rattle.wh_host.specs.Rolls.{IsRollOf};
ghost use Rattle.wh_host.specs.Showing.{ShowsInstance};
ghost use Rattle.wh_transcript.specs.Transcripts.{IsReplayable};

use crate::agreements::CellAgreements;
use crate::locked::Locked;
use std::alloc::Global;
use std::sync::ledger::Ledger;
use wh_host::{HostError, Roll, Transcript};
use wh_space_model::InstId;
use wh_swap::SwapDev;

impl<D: SwapDev, T: Ledger, C: Ledger, O: Ledger, E: Ledger, B: CellAgreements> Locked<
    D,
    T,
    C,
    O,
    E,
    B,
> {
    /// Returns the host's modules, and each live instance with its calls.
    ///
    /// # Errors
    /// `Memory` where room was refused.
    pub fn roll(&self, alloc: Global) -> Result<Roll, HostError>
        ensures { IfOk result (IsRollOf self.now.host) }
    {
        self.host().roll(alloc)
    }

    /// Returns the transcript of an instance. Its calls replay where the device has read right.
    ///
    /// # Errors
    /// `NoInstance`; `Memory` where room was refused.
    pub fn transcript(&self, alloc: Global, id: InstId) -> Result<Transcript, HostError>
        ensures shows { ShowsInstance self.now.host id result }
        ensures replays { IfSome self.now.known.device (λ device. D.honest device)
            → IfOk result (λ shown. IsReplayable shown) }
    {
        self.invariant();
        self.host().transcript(alloc, id)
    }
}
