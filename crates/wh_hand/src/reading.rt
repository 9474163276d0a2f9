//! What a hand reads of the memory of an instance.

ghost use Rattle.std.specs.Prelude.{◌≡◌, IfErr, IfNone, IfSome, OnErr, OnOk, length};
ghost use Rattle.wh_host.specs.HostReads.{ReadsBytes};
ghost use Rattle.wh_hand.specs.HandReads.{HasSoManyBytes, RefusesReadHere};

use crate::hand::Hand;
use thiserror::Error;
use wh_space_model::InstId;

/// Why a hand doesn't read bytes of an instance.
#[derive(Clone, Copy, Debug, PartialEq, Eq, Error)]
pub enum BytesError {
    /// No instance of this number lies at this place.
    #[error("no such instance is there")]
    NoInstance,
    /// Its memory has fewer bytes.
    #[error("its memory has fewer bytes")]
    Outside,
}

impl Hand {
    // Why so many bytes of an instance, from this address on, aren't read, if they aren't.
    fn read_fault(&self, id: InstId, at: u64, count: usize) -> Option<BytesError>
        ensures some { IfSome result (RefusesReadHere self.now.host id at count) }
        ensures none { IfNone result (HasSoManyBytes self.now.host id at count) }
    {
        let Some(_) = self.host.ended_calls(id) else {
            return Some(BytesError::NoInstance);
        };
        let size = 65536 * u64::from(self.host.size_at(id.place));
        if at.saturating_add(count as u64) > size {
            return Some(BytesError::Outside);
        }
        None
    }

    /// Reads `into.len()` bytes of an instance's memory, from the one at this address on, as the instance sees them between two
    /// of its turns. A page in swap is read from the device, and stays where it is. Nothing changes, and nothing is allocated.
    ///
    /// # Errors
    /// `NoInstance`; `Outside` if the memory has fewer bytes. `into` is as it was then.
    pub fn read(&mut self, id: InstId, at: u64, into: &mut [u8]) -> Result<(), BytesError>
        ensures reads { OnOk result (ReadsBytes self.old.host id at into.new) }
        ensures err { IfErr result (RefusesReadHere self.old.host id at (length into.old)) }
        ensures left { OnErr result (into.new ≡ into.old) }
        ensures same { self.new ≡ self.old }
    {
        // Looked at first, so that nothing is written where not all is there.
        if let Some(error) = self.read_fault(id, at, into.len()) {
            return Err(error);
        }
        let answer = self
            .host
            .read(&mut self.device, id, at, into, &mut self.page);
        match answer {
            Ok(()) => Ok(()),
            Err(_) => unreachable!(),
        }
    }
}
