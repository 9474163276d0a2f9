// Where an instance waits for a frame.

ghost use Rattle.std.specs.Prelude.{◌≡◌, ◌+◌, ◌*◌, ◌<◌, ◌≤◌, [], None, Some, true, length, get_or, slice_set};
ghost use Rattle.wh_space_model.specs.Parts.{Occupant, occupant_at};
ghost use Rattle.wh_space_model.specs.Stores.{ended, stood};
ghost use Rattle.wh_model.specs.declared.memory.Need.{Need as Bytes};

use crate::memory::Memory;
use crate::pins::end_pins;
use wh_model::Need;

impl Memory {
    /// Blocks the instance at this place on a frame for these bytes, at most 4096 of its memory; or, with `None`,
    /// unblocks it.
    pub fn stand(&mut self, place: usize, need: Option<Need>)
        requires there { (t : Occupant) × occupant_at self.old place t × (t.live ≡ true) }
        requires within { (want : Bytes) → need ≡ Some want
            → want.at + want.length ≤ 4096 * length (get_or self.old.tables place []) }
        requires few { (want : Bytes) → need ≡ Some want → want.length ≤ 4096 }
        ensures { self.new ≡ stood self.old place need }
    {
        self.occupant_entries.stand_at(place, need);
    }

    /// Unblocks the instance at this place, whose step was taken or whose call was cancelled, and ends its pins and
    /// earmarks.
    pub fn end(&mut self, place: usize)
        requires { (t : Occupant) × occupant_at self.old place t }
        ensures { self.new ≡ ended self.old place }
    {
        let _ = &self.tax;
        self.occupant_entries.stand_at(place, None);
        end_pins(&mut self.pins, &mut self.pool, place);
    }
}
