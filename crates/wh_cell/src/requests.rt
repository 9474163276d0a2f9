//! What the owner asks of a host that lies under a lock. Whoever asks has the owner's right, and learns by it that the host
//! came from the one that it left.

ghost use Rattle.std.specs.Prelude.{◌≡◌, OnErr};
ghost use Rattle.wh_host.specs.Backing.{KeepsBacking};
ghost use Rattle.wh_cell.specs.Locking.{now_of};
ghost use Rattle.wh_cell.specs.Owning.{ComesOn};

use crate::agreements::CellAgreements;
use crate::locked::Locked;
use crate::owner::Owner;
use std::sync::ledger::Ledger;
use wh_host::Request;
use wh_swap::SwapDev;

impl<D: SwapDev, T: Ledger, C: Ledger, O: Ledger, E: Ledger, B: CellAgreements> Locked<
    D,
    T,
    C,
    O,
    E,
    B,
> {
    /// Asks something of the host, as `Host` itself would be asked.
    ///
    /// # Errors
    /// Those of the request. The host is as it was then.
    pub fn ask<Q: Request>(
        &mut self,
        owner: &mut Owner<D, B>,
        request: Q,
    ) -> Result<Q::Answer, Q::Error>
        ensures came { ComesOn D.keeps D.honest D.faults owner.old (now_of self.old) }
        ensures asks { Q.asks request self.old.host result self.new.host }
        ensures err { OnErr result (self.new.host ≡ self.old.host) }
        ensures knows { owner.new ≡ now_of self.new }
        ensures backing { KeepsBacking self.old.host.space self.new.host.space }
        ensures books { self.new.books ≡ self.old.books }
        ensures known { self.new.known ≡ self.old.known }
    {
        let answer = request.ask(&mut self.host);
        owner.leave(&mut self.left, &self.host, &self.known);
        answer
    }
}
