// What was written in the overlay is written back to the memory.

ghost use Rattle.std.specs.Prelude.{◌≡◌, ◌≢◌, ◌+◌, ◌*◌, ◌≤◌, ℕ, [], length, get_or};
ghost use Rattle.wh_space_model.specs.Parts.{view};
ghost use Rattle.wh_space.specs.Steps.{page_limit};
ghost use Rattle.wh_space.specs.StepViews.{KeepsRest};
ghost use Rattle.wh_overlay.specs.LaidBack.{HasLaid, IsLaid};
ghost use Rattle.wh_overlay.specs.LaidPages.{AreWhole, IsNoted, grown_by, laid_over, with_upper};
ghost use Rattle.wh_space_model.specs.Ready.{IsAtHand};
ghost use Rattle.wh_space_model.specs.States.{page_at};
ghost use Rattle.wh_overlay.specs.Over.{AreAtHand, HasGrown, ReadsAreThere, frames_lacking};

use crate::overlay_pages::{OverlayPages, WrittenPage};
use wh_space::Memory;

// Grows the memory of the instance at this place by `pages` pages of 65536 bytes.
fn grow_by(memory: &mut Memory, place: usize, pages: u32)
    requires { 1 ≤ pages → length (view memory.old place) + pages * 65536
        ≤ page_limit memory.old place * 65536 }
    ensures { HasLaid memory.old place pages [] (grown_by (view memory.old place) pages) [] memory.new }
{
    memory.invariant();
    if pages == 0 {
        return;
    }
    let _ = memory.grow(place, pages);
    memory.invariant();
}

// Marks these pages of the instance at this place as touched.
fn touch_all(memory: &mut Memory, place: usize, numbers: &[u32])
    requires { (p : ℕ) → IsNoted numbers.now p → IsAtHand (page_at memory.old.tables place p) }
    ensures { HasLaid memory.old place 0 numbers.now (view memory.old place) [] memory.new }
{
    for number in numbers {
        memory.invariant();
        let _ = memory.load(place, 4096 * u64::from(*number), &mut [0]);
    }
}

// Writes over these pages of the instance at this place: one that isn't alone on its frame gets one of its own.
fn write_all(memory: &mut Memory, place: usize, pages: &[WrittenPage])
    requires hand { AreAtHand memory.old place pages.now }
    requires whole { AreWhole pages.now }
    requires frames { frames_lacking memory.old place pages.now ≤ length memory.old.pool.free }
    ensures { HasLaid memory.old place 0 [] (laid_over (view memory.old place) pages.now) pages.now memory.new }
{
    for page in pages {
        memory.invariant();
        let _ = memory.store(place, 4096 * u64::from(page.number), &page.bytes);
    }
}

impl OverlayPages {
    /// Writes back what was written to the memory of the instance at this place: each page is marked as touched, and
    /// one that shares its frame gets one of its own. Marks each page that was read as touched, too. The overlay is
    /// empty then. Of other instances nothing changes.
    pub fn lay(&mut self, memory: &mut Memory, place: usize)
        requires hand { AreAtHand memory.old place self.old.pages }
        requires frames { frames_lacking memory.old place self.old.pages ≤ length memory.old.pool.free }
        requires limited { HasGrown memory.old place self.old }
        requires there { ReadsAreThere memory.old place self.old }
        ensures laid { IsLaid memory.old place self.old memory.new }
        ensures empty { self.new ≡ record self.old {
          pages = [];
          reads = [];
          grown = 0;
          room = self.old.room + length self.old.pages;
          taken = 0;
        } }
    {
        self.invariant();
        grow_by(memory, place, self.grown);
        touch_all(memory, place, &self.reads);
        write_all(memory, place, &self.pages);
        self.clear();
    }
}
