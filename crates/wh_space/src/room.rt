// Whether an instance may come.

ghost use Rattle.std.specs.Prelude.{◌≡◌, ◌≢◌, ◌↔◌, ◌+◌, ◌-◌, ◌^◌, ◌<◌, ◌≤◌, ℕ, IsTrue, length, map};
ghost use Rattle.wh_space_model.specs.Frames.{tally};
ghost use Rattle.wh_space_model.specs.Parts.{Occupant, minima, occupant_at, of_occupant, spreads};
ghost use Rattle.wh_space_model.specs.Places.{IsFreePlace};
ghost use Rattle.wh_space.specs.Parts.{occupant_of};

use crate::memory::Memory;

impl Memory {
    /// Tells whether nobody is at this place, or it is the next one after all.
    pub fn is_free(&self, place: usize) -> bool
        ensures { IsTrue result ↔ IsFreePlace self.now place }
    {
        if place < self.occupant_entries.len() {
            self.occupant_entries.at(place).is_none()
        } else {
            place == self.occupant_entries.len()
        }
    }

    /// Tells whether no instance here has this number, nor a released one that has a ticket out. Looks at each place
    /// only where some number that was here is as great.
    pub fn is_fresh(&self, number: u64) -> bool
        ensures { IsTrue result
            ↔ ((j : ℕ) (t : Occupant) → occupant_at self.now j t → t.number ≢ number) }
    {
        if self.occupant_entries.greatest() < number {
            return true;
        }
        for place in 0..self.occupant_entries.len() {
            if let Some(occupant_entry) = self.occupant_entries.at(place) {
                if occupant_entry.number == number {
                    return false;
                }
            }
        }
        true
    }

    /// Returns the number of frames that the minima of all instances leave. Takes O(1).
    pub fn frames_left(&self) -> u64
        ensures { result + minima self.now ≡ length self.now.pool.frames }
    {
        let _ = &self.tax;
        let frames = u64::from(self.pool.used()) + u64::from(self.pool.free());
        frames - self.occupant_entries.minima()
    }

    /// Returns the number of slots that are left if each instance swaps all pages above its minimum, and one more.
    /// Takes O(1).
    pub fn slots_left(&self) -> u64
        ensures { result + spreads self.now ≡ length self.now.slots.uses }
    {
        let _ = &self.tax;
        u64::from(self.slots.len()) - self.occupant_entries.spreads()
    }
}
