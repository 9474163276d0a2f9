// How frames are used.

ghost use Rattle.std.specs.Prelude.{◌≡◌, ◌+◌, ◌≤◌, length};
ghost use Rattle.wh_space_model.specs.Frames.{tally};
ghost use Rattle.wh_content.specs.Counts.{is_shared, sharers_in};

use crate::memory::Memory;

impl Memory {
    /// Returns the number of frames in use.
    pub fn used(&self) -> u32
        ensures { result + length self.now.pool.free ≡ length self.now.pool.frames }
    {
        self.pool.used()
    }

    /// Returns the number of free frames.
    pub fn free(&self) -> u32
        ensures { result ≡ length self.now.pool.free }
    {
        self.pool.free()
    }

    /// Returns the number of shared frames, and the number of pages that share one. Takes O(1): the counts are
    /// kept.
    pub fn sharing(&self) -> (u32, u64)
        ensures frames { result.0 ≡ tally is_shared self.now.marks }
        ensures sharers { result.1 ≡ tally sharers_in self.now.marks }
    {
        self.content.sharing()
    }
}
