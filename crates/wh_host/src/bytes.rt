//! What a host reads of the memory of one of its instances.

ghost use Rattle.std.specs.Prelude.{◌≡◌, IfErr, OnOk, length};
ghost use Rattle.wh_swap.specs.DeviceCalls.{ServesOn};
ghost use Rattle.wh_host.specs.HostReads.{ReadsBytes, RefusesRead, read_faults};

use crate::error::ReadError;
use crate::host::Host;
use wh_reclaim::{Buf, read_bytes};
use wh_space_model::InstId;
use wh_swap::SwapDev;

impl Host {
    /// Reads `into.len()` bytes of an instance's memory, from the one at this address on, as the instance sees them between two
    /// of its turns. A page in swap is read through the device, and stays where it is; no page is moved or marked as touched.
    /// `buf` is used while the call lasts. Allocates nothing.
    ///
    /// The device holds what the slots hold.
    ///
    /// # Errors
    /// `NoInstance`; `Outside` if the memory has fewer bytes; `Device` with the fault of the device's call that failed, and what
    /// `into` holds is left open then.
    pub fn read<D: SwapDev>(
        &self,
        device: &mut D,
        id: InstId,
        at: u64,
        into: &mut [u8],
        buf: &mut Buf,
    ) -> Result<(), ReadError>
        requires agrees { self.now.space.slots.held ≡ D.held device.old }
        ensures reads { OnOk result (D.honest device.new → ReadsBytes self.now id at into.new) }
        ensures err { IfErr result (RefusesRead self.now id at (length into.old)) }
        ensures held { D.held device.new ≡ D.held device.old }
        ensures writes { D.writes device.new ≡ D.writes device.old }
        ensures serves { ServesOn D.keeps D.honest D.faults device.old (read_faults result)
            device.new }
    {
        let Some(entry) = self.entries.get(id.place) else {
            return Err(ReadError::NoInstance);
        };
        if !entry.has_number(id.number) {
            return Err(ReadError::NoInstance);
        }
        let size = 4096 * u64::from(self.memory.pages_at(id.place));
        if at.saturating_add(into.len() as u64) > size {
            return Err(ReadError::Outside);
        }
        match read_bytes(&self.memory, device, id.place, at, into, buf) {
            Ok(()) => Ok(()),
            Err(fault) => Err(ReadError::Device(fault)),
        }
    }
}
