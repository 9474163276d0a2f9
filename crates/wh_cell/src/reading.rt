//! Bytes of an instance's memory, read where both locks are held: pages in swap are read through the device.

ghost use Rattle.std.specs.Prelude.{◌≡◌, IfErr, OnOk, length};
ghost use Rattle.wh_swap.specs.DeviceCalls.{ServesOn};
ghost use Rattle.wh_host.specs.HostReads.{ReadsBytes, RefusesRead, read_faults};
ghost use Rattle.wh_cell.specs.Knowing.{known_of};

use crate::agreements::CellAgreements;
use crate::backing::Backing;
use crate::locked::Locked;
use std::sync::ledger::Ledger;
use wh_host::ReadError;
use wh_space_model::InstId;
use wh_swap::SwapDev;

impl<D: SwapDev, T: Ledger, C: Ledger, O: Ledger, E: Ledger, B: CellAgreements> Locked<
    D,
    T,
    C,
    O,
    E,
    B,
> {
    /// Reads `into.len()` bytes of an instance's memory, from the one at address `at` on, as the instance sees them. A page in swap
    /// is read through the device, and stays there: the host is as it was. Whoever calls it has both locks. Takes no memory.
    ///
    /// # Errors
    /// `NoInstance`; `Outside` if the memory has fewer bytes; `Device` with the fault of the device's call that failed, and what
    /// `into` holds is left open then.
    pub fn read(
        &mut self,
        backing: &mut Backing<D, B>,
        id: InstId,
        at: u64,
        into: &mut [u8],
    ) -> Result<(), ReadError>
        ensures agreed { self.old.known ≡ known_of backing.old }
        ensures reads { OnOk result (D.honest backing.new.device
            → ReadsBytes self.old.host id at into.new) }
        ensures err { IfErr result (RefusesRead self.old.host id at (length into.old)) }
        ensures length { length into.new ≡ length into.old }
        ensures serves { ServesOn D.keeps D.honest D.faults backing.old.device (read_faults result)
            backing.new.device }
        ensures held { D.held backing.new.device ≡ D.held backing.old.device }
        ensures writes { D.writes backing.new.device ≡ D.writes backing.old.device }
        ensures host { self.new.host ≡ self.old.host }
        ensures books { self.new.books ≡ self.old.books }
        ensures knows { self.new.known ≡ known_of backing.new }
        ensures left { self.new.left ≡ self.old.left }
    {
        backing.keeper.agree(&mut self.known);
        let Some(buf) = &mut backing.buf else {
            unreachable!();
        };
        let read = self.host.read(&mut backing.device, id, at, into, buf);
        backing.keeper.settle(&mut self.known, &backing.device);
        read
    }
}
