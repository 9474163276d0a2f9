//! How instances go.

ghost use Rattle.std.specs.Prelude.{◌≡◌, OnErr, OnOk};
ghost use Rattle.wh_space_model.specs.Places.{Exits};
ghost use Rattle.wh_host.specs.Backing.{KeepsBacking};
ghost use Rattle.wh_host.specs.Releasing.{AnswersRelease};
ghost use Rattle.wh_host.specs.Entries.{PlaceIsLeft};

use crate::error::HostError;
use crate::host::Host;
use crate::parts::InstanceEntry;
use slab::Slab;
use std::alloc::Global;
use wh_space_model::InstId;

// Gives up a place that nobody has any more, where it is free.
fn leave_place(entries: &mut Slab<InstanceEntry>, place: usize, is_free: bool)
    ensures { PlaceIsLeft entries.old.slots place entries.new.slots }
{
    if is_free {
        let _ = entries.try_remove(place);
    }
}

impl Host {
    /// Releases an instance, whatever its calls are. Returns its output. Its memory is free, and its number never used again.
    /// Its place is, once no page of it is on its way to swap or back.
    ///
    /// # Errors
    /// `NoInstance`. Nothing is done then.
    pub fn release(&mut self, alloc: Global, id: InstId) -> Result<Vec<u8>, HostError>
        ensures goes { AnswersRelease self.old id result self.new }
        ensures err { OnErr result (self.new ≡ self.old) }
        ensures backing { KeepsBacking self.old.space self.new.space }
        ensures memory { OnOk result (Exits self.old.space id.place self.new.space) }
        ensures counts { self.new.counts ≡ self.old.counts }
    {
        let Some(entry) = self.entries.get_mut(id.place) else {
            return Err(HostError::NoInstance);
        };
        if !entry.has_number(id.number) {
            return Err(HostError::NoInstance);
        }
        entry.number = None;
        let output = entry.tenant.take_output(alloc);
        self.memory.invariant();
        self.memory.exit(id.place);
        let is_free = self.memory.is_free(id.place);
        leave_place(&mut self.entries, id.place, is_free);
        self.live -= 1;
        Ok(output)
    }
}
