// A page that comes for a step in one go.

ghost use Rattle.std.specs.Prelude.{◌≡◌, ◌<◌, ◌≤◌, ◌^◌, [], ◌∷◌, Some, length};
ghost use Rattle.wh_space_model.specs.Moves.{Fetches};
ghost use Rattle.wh_space_model.specs.Parts.{kept, pinned_by};
ghost use Rattle.wh_space_model.specs.States.{count, page_at, resident};
ghost use Rattle.wh_space_model.specs.declared.states.Page.TheVariants.{Swapped};
ghost use Rattle.wh_space.specs.Pinning.{numbers_in, pins_of};

use crate::frames::set_frame;
use crate::memory::Memory;
use crate::pages::put_page;
use crate::pins::{Few, Pinned, pages_pinned};
use wh_space_model::Page;

// One number more, before the others.
fn with_number(number: u32, numbers: Few) -> Few
    requires { length (numbers_in numbers) ≤ 1 }
    ensures { numbers_in result ≡ number ∷ numbers_in numbers }
{
    match numbers {
        Few::Zero => Few::One(number),
        Few::One(other) => Few::Two(number, other),
        Few::Two(_, _) => unreachable!(),
    }
}

// A page of the instance at a place is pinned besides at most one other, and nothing is earmarked.
fn pin_beside(pins: &mut Option<Pinned>, place: usize, page: u32)
    requires { length (pinned_by (pins_of pins.old) place) ≤ 1 }
    ensures { pins_of pins.new ≡ Some (record {
      place = place;
      pages = page ∷ pinned_by (pins_of pins.old) place;
      frames = [];
    }) }
{
    let pages = with_number(page, pages_pinned(*pins, place));
    *pins = Some(Pinned {
        place,
        pages,
        frames: Few::Zero,
    });
}

impl Memory {
    /// States that the number of resident pages is less than 2^63. Does nothing when run.
    pub fn known_pages(&self)
        ensures { count resident self.now.tables < 2 ^ 63 }
    {
        let _ = &self.tax;
    }

    /// Fetches a page of the instance at this place from this slot: puts these bytes into a free frame, and pins the
    /// page for the instance, besides at most one other. No frame may be earmarked.
    pub fn fetch(&mut self, place: usize, page: u32, slot: u32, bytes: &[u8; 4096])
        requires page { page_at self.old.tables place page ≡ Some (Swapped slot) }
        requires frame { 1 ≤ length self.old.pool.free }
        requires pinned { length (pinned_by self.old.pins place) ≤ 1 }
        requires kept { kept self.old.pins ≡ [] }
        ensures { Fetches self.old place page bytes.now self.new }
    {
        let _ = &self.tax;
        let Ok(frame) = self.pool.take() else {
            unreachable!()
        };
        set_frame(&mut self.pool, frame, bytes);
        self.slots.give(slot);
        put_page(&mut self.tables, place, page, Page::Private(frame));
        pin_beside(&mut self.pins, place, page);
    }
}
