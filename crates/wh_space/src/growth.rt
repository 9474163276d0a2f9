// How an instance grows.

ghost use Rattle.std.specs.Prelude.{◌≡◌, ◌+◌, ◌*◌, ◌^◌, ◌<◌, [], length, get_or};
ghost use Rattle.wh_space_model.specs.Parts.{view};
ghost use Rattle.wh_model.specs.Execution.Memory.{Grows};
ghost use Rattle.wh_space.specs.Steps.{LeavesGrowth, page_limit};

use crate::memory::Memory;
use wh_model::Grown;

impl Memory {
    /// Returns the size of the instance at this place in pages of 65536 bytes; 0 if nobody is there.
    pub fn size(&self, place: usize) -> u32
        ensures pages { length (get_or self.now.tables place []) ≡ 16 * result }
        ensures bytes { length (view self.now place) ≡ result * 65536 }
    {
        self.tables.len_at(place) / 16
    }

    /// Returns the size in pages of 65536 bytes to which the instance at this place may grow; 0 if nobody is there.
    pub fn limit(&self, place: usize) -> u32
        ensures limit { result ≡ page_limit self.now place }
        ensures few { result < 2 ^ 28 }
    {
        if place >= self.occupant_entries.len() {
            return 0;
        }
        match self.occupant_entries.at(place) {
            Some(occupant_entry) => {
                if occupant_entry.live {
                    occupant_entry.max / 16
                } else {
                    0
                }
            }
            None => 0,
        }
    }

    /// Adds `pages` pages of 65536 zeros to the memory of the instance at this place. They take no frame. Returns how
    /// many pages there were, or `Refused`, with nothing done, if they would pass the limit.
    pub fn grow(&mut self, place: usize, pages: u32) -> Grown
        ensures grows { Grows (page_limit self.old place) (view self.old place)
            pages result (view self.new place) }
        ensures leaves { LeavesGrowth self.old place pages result self.new }
    {
        let before = self.size(place);
        if pages == 0 {
            return Grown::Done(before);
        }
        if u64::from(before) + u64::from(pages) > u64::from(self.limit(place)) {
            return Grown::Refused;
        }
        self.tables.grow(place, 16 * pages);
        Grown::Done(before)
    }
}
