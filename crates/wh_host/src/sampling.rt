//! Pages of an instance as they are looked at, to be hashed while the host goes on.

ghost use Rattle.std.specs.Prelude.{◌≡◌, ◌*◌, ◌<◌, ◌^◌, ℕ, true, [], IfNone, IfSome, None, get_or, length};
ghost use Rattle.wh_space_model.specs.Parts.{frame_bytes, has_number};
ghost use Rattle.wh_scan.specs.Sampling.{HasNoSample, IsSampledOn};

use crate::host::Host;
use wh_scan::{Sample, take};
use wh_space_model::InstId;

impl Host {
    /// Returns the size in pages of 65536 bytes of the instance at `place`; 0 if nobody is there.
    pub fn size_at(&self, place: usize) -> u32
        ensures { length (get_or self.now.space.tables place []) ≡ 16 * result }
    {
        self.memory.size(place)
    }

    /// Returns the bytes of a page of an instance, if it has a frame of its own, or shares one that has no entry, and
    /// isn't leaving it; `None` too if no such instance is there, or its place is 2^32 or more.
    pub fn sample(&self, id: InstId, page: u32) -> Option<Sample>
        ensures some { IfSome result (λ sample. (frame : ℕ)
            × IsSampledOn self.now.space id.place page frame
            × (sample.bytes ≡ frame_bytes self.now.space frame)) }
        ensures none { IfNone result (id.place < 2 ^ 32
            → has_number (get_or self.now.space.occupants id.place None) id.number ≡ true
            → HasNoSample self.now.space id.place page) }
    {
        let place = id.place;
        if place > u32::MAX as usize {
            return None;
        }
        let place = place as u32;
        if !self.memory.is_at(place, id.number) {
            return None;
        }
        take(&self.memory, place, page)
    }
}
