// What is pinned and earmarked for the next step of an instance.

ghost use Rattle.std.specs.Prelude.{◌≡◌, ◌+◌, ◌*◌, ◌^◌, ◌<◌, ◌≤◌, [], true, length, get_or, nat_eq};
ghost use Rattle.wh_space_model.specs.Moves.{Earmarks, pinned, residents, unpinned};
ghost use Rattle.wh_space_model.specs.Parts.{Occupant, kept, occupant_at, wants};
ghost use Rattle.wh_space_model.specs.Ready.{pages_of_need};
ghost use Rattle.wh_space_model.specs.States.{at, page_at, resident};
ghost use Rattle.wh_space_model.specs.Tickets.{WaitsForBytes};
ghost use Rattle.wh_space.specs.Pinning.{numbers_in};

use crate::memory::Memory;
use crate::pins::{Few, Pinned, chosen, end_all_pins, pages_pinned, take_frames};
use wh_model::Need;

impl Memory {
    /// Returns the bytes of the step on which the instance at this place is blocked for a frame, if it is.
    pub fn wanted_step(&self, place: usize) -> Option<Need>
        ensures { result ≡ wants self.now place }
    {
        if place >= self.occupant_entries.len() {
            return None;
        }
        match self.occupant_entries.at(place) {
            Some(occupant_entry) => {
                if occupant_entry.live {
                    occupant_entry.stands
                } else {
                    None
                }
            }
            None => None,
        }
    }

    // Whether a page is resident.
    fn is_resident(&self, place: usize, number: u32) -> bool
        requires { number < length (get_or self.now.tables place []) }
        ensures { result ≡ nat_eq (at resident (page_at self.now.tables place number)) 1 }
    {
        self.tables.page(place, number).frame().is_some()
    }

    // The resident pages of a step.
    fn residents_of(&self, place: usize, need: Need) -> Few
        requires within { need.at + need.length ≤ 4096 * length (get_or self.now.tables place []) }
        requires few { need.length ≤ 4096 }
        ensures { numbers_in result ≡ residents self.now place (pages_of_need need) }
    {
        let _ = &self.tax;
        if need.length == 0 {
            return Few::Zero;
        }
        let _ = self.fits(place, need.at, need.length);
        let first = (need.at / 4096) as u32;
        let here = self.is_resident(place, first);
        if need.length > 4096 - (need.at % 4096) as usize {
            let there = self.is_resident(place, first + 1);
            return chosen(first, here, first + 1, there);
        }
        chosen(first, here, first, false)
    }

    /// Pins the resident pages of the step on which the instance at this place is blocked, and no others. All earmarked
    /// frames become free again.
    pub fn pin(&mut self, place: usize, need: Need)
        requires { WaitsForBytes self.old place need }
        ensures { self.new ≡ pinned self.old place need }
    {
        let pages = self.residents_of(place, need);
        end_all_pins(&mut self.pins, &mut self.pool);
        self.pins = Some(Pinned {
            place,
            pages,
            frames: Few::Zero,
        });
    }

    /// Earmarks `count` free frames, at most 2, for the next step of the instance at this place, while none is
    /// earmarked.
    pub fn earmark(&mut self, place: usize, count: u32)
        requires there { (t : Occupant) × occupant_at self.old place t × (t.live ≡ true) }
        requires none { kept self.old.pins ≡ [] }
        requires few { count ≤ 2 }
        requires free { count ≤ length self.old.pool.free }
        ensures { Earmarks self.old place count self.new }
    {
        let _ = &self.tax;
        let pages = pages_pinned(self.pins, place);
        let frames = take_frames(&mut self.pool, count);
        self.pins = Some(Pinned {
            place,
            pages,
            frames,
        });
    }

    /// Ends all pins and earmarks.
    pub fn unpin(&mut self)
        ensures { self.new ≡ unpinned self.old }
    {
        let _ = &self.tax;
        end_all_pins(&mut self.pins, &mut self.pool);
    }
}
