// What an instance reads.

ghost use Rattle.std.specs.Prelude.{◌≡◌, ◌↔◌, ◌+◌, ◌*◌, ◌%◌, ◌^◌, ◌<◌, ◌≤◌, ℕ, [], Some, true, IsTrue, IsFalse, MatchBool, length, get_or, replicate};
ghost use Rattle.wh_space_model.specs.Frames.{IsTaken};
ghost use Rattle.wh_space_model.specs.Moves.{frame_of};
ghost use Rattle.wh_space_model.specs.Parts.{view};
ghost use Rattle.wh_space_model.specs.Ready.{IsAtHand, Ready};
ghost use Rattle.wh_space_model.specs.States.{Backing, page_at, page_bytes, put};
ghost use Rattle.wh_model.specs.Execution.Memory.{Loads};
ghost use Rattle.wh_model.specs.Execution.Store.{bytes_at};
ghost use Rattle.wh_space_model.specs.Stores.{Touches};
ghost use Rattle.wh_model.specs.declared.memory.Got.TheVariants.{Value};
ghost use Rattle.wh_space.specs.Steps.{LeavesLoad};

use crate::frames::read_frame;
use crate::memory::Memory;
use crate::pages::is_near;
use wh_frames::FramePool;
use wh_model::{Got, Need};
use wh_space_model::Page;

// Makes all bytes 0.
fn clear(into: &mut [u8])
    ensures { into.new ≡ replicate (length into.old) 0 }
{
    into.fill(0);
}

/// Reads bytes of a page. Returns `false`, and does nothing, if the page is in a slot or coming from one.
pub fn read_page(pool: &FramePool, page: Page, offset: usize, into: &mut [u8]) -> bool
    requires taken { (f : ℕ) → frame_of page ≡ Some f → IsTaken pool.now f }
    requires inside { offset + length into.old ≤ 4096 }
    ensures hand { MatchBool result (IsAtHand (Some page)) (¬ IsAtHand (Some page)) }
    ensures read { IsTrue result → (b : Backing) → b.frames ≡ pool.now.frames
        → into.new ≡ bytes_at (page_bytes b page) offset (length into.old) }
    ensures left { IsFalse result → into.new ≡ into.old }
{
    if let Some(frame) = page.frame() {
        read_frame(pool, frame, offset, into);
        true
    } else if let Page::Untouched = page {
        clear(into);
        true
    } else {
        false
    }
}

impl Memory {
    // Whether `count` bytes from a place on are in the memory of the instance.
    pub(crate) fn fits(&self, place: usize, at: u64, count: usize) -> bool
        ensures fits { IsTrue result
            ↔ (at + count ≤ 4096 * length (get_or self.now.tables place [])) }
        ensures few { length (get_or self.now.tables place []) < 2 ^ 32 }
    {
        let pages = self.tables.len_at(place);
        at.saturating_add(count as u64) <= 4096 * u64::from(pages)
    }

    // Reads bytes of a page, and marks it as touched. Returns `false`, with nothing done, if the page is in a slot or
    // coming from one.
    fn load_inside(&mut self, place: usize, number: u32, offset: usize, into: &mut [u8]) -> bool
        requires page { number < length (get_or self.old.tables place []) }
        requires inside { offset + length into.old ≤ 4096 }
        ensures hand { MatchBool result (IsAtHand (page_at self.old.tables place number))
            (¬ IsAtHand (page_at self.old.tables place number)) }
        ensures read { IsTrue result
            → into.new ≡ bytes_at (view self.old place) (4096 * number + offset) (length into.old) }
        ensures touched { IsTrue result
            → self.new ≡ record self.old { touched = put self.old.touched place number true } }
        ensures unchanged { IsFalse result → self.new ≡ self.old }
        ensures left { IsFalse result → into.new ≡ into.old }
    {
        let page = self.tables.page(place, number);
        if !read_page(&self.pool, page, offset, into) {
            return false;
        }
        self.tables.touch(place, number);
        true
    }

    // Whether the page is untouched or resident.
    pub(crate) fn is_at_hand(&self, place: usize, number: u32) -> bool
        requires { number < length (get_or self.now.tables place []) }
        ensures { MatchBool result (IsAtHand (page_at self.now.tables place number))
            (¬ IsAtHand (page_at self.now.tables place number)) }
    {
        is_near(self.tables.page(place, number))
    }

    // Reads bytes of a page and the next.
    fn load_over(&mut self, place: usize, at: u64, into: &mut [u8]) -> Got
        requires few { length into.old ≤ 4096 }
        requires over { 4096 < at % 4096 + length into.old }
        requires fits { at + length into.old ≤ 4096 * length (get_or self.old.tables place []) }
        requires pages { length (get_or self.old.tables place []) < 2 ^ 32 }
        ensures loads { Loads (Ready self.old place) (view self.old place)
            at into.old result into.new }
        ensures leaves { LeavesLoad self.old place at (length into.old) result self.new }
    {
        let _ = &self.tax;
        let need = Need {
            at,
            length: into.len(),
            writes: false,
        };
        let number = (at / 4096) as u32;
        let offset = (at % 4096) as usize;
        let (here, there) = into.split_at_mut(4096 - offset);
        if !self.is_at_hand(place, number) {
            return Got::NotReady(need);
        }
        if !self.load_inside(place, number + 1, 0, there) {
            return Got::NotReady(need);
        }
        let _ = self.load_inside(place, number, offset, here);
        Got::Value
    }

    // Reads bytes as `load` does, and looks at all that may be in the way.
    #[inline(never)]
    fn load_slowly(&mut self, place: usize, at: u64, into: &mut [u8]) -> Got
        requires few { length into.old ≤ 4096 }
        ensures loads { Loads (Ready self.old place) (view self.old place)
            at into.old result into.new }
        ensures leaves { LeavesLoad self.old place at (length into.old) result self.new }
    {
        let _ = &self.tax;
        if !self.fits(place, at, into.len()) {
            return Got::Trap;
        }
        if into.is_empty() {
            return Got::Value;
        }
        let offset = (at % 4096) as usize;
        if offset + into.len() > 4096 {
            return self.load_over(place, at, into);
        }
        if self.load_inside(place, (at / 4096) as u32, offset, into) {
            Got::Value
        } else {
            Got::NotReady(Need {
                at,
                length: into.len(),
                writes: false,
            })
        }
    }

    /// Reads bytes of the instance at this place, from this one on, and marks their pages as touched.
    ///
    /// It answers `Trap` where they aren't all in its memory, and `NotReady` where a page of them is in a slot or on the
    /// way from one. Then nothing is done. It takes no frame.
    #[inline(always)]
    pub fn load(&mut self, place: usize, at: u64, into: &mut [u8]) -> Got
        requires few { length into.old ≤ 4096 }
        ensures loads { Loads (Ready self.old place) (view self.old place)
            at into.old result into.new }
        ensures leaves { LeavesLoad self.old place at (length into.old) result self.new }
    {
        if self.quick_load(place, at, into) {
            return Got::Value;
        }
        self.load_slowly(place, at, into)
    }

    // Whether a page of this number is in the memory of the instance.
    #[inline(always)]
    pub(crate) fn has_page(&self, place: usize, number: u64) -> bool
        ensures has { IsTrue result ↔ (number < length (get_or self.now.tables place [])) }
        ensures few { length (get_or self.now.tables place []) < 2 ^ 32 }
    {
        number < u64::from(self.tables.len_at(place))
    }

    // Reads bytes of a resident page that was touched in this epoch. Returns `false`, with nothing done, for any other
    // page.
    #[inline(always)]
    fn load_touched(&self, place: usize, number: u32, offset: usize, into: &mut [u8]) -> bool
        requires page { number < length (get_or self.now.tables place []) }
        requires inside { offset + length into.old ≤ 4096 }
        ensures hand { IsTrue result → IsAtHand (page_at self.now.tables place number) }
        ensures read { IsTrue result
            → into.new ≡ bytes_at (view self.now place) (4096 * number + offset) (length into.old) }
        ensures touched { IsTrue result
            → self.now ≡ record self.now { touched = put self.now.touched place number true } }
        ensures left { IsFalse result → into.new ≡ into.old }
    {
        let Some(frame) = self.tables.touched_frame(place, number) else {
            return false;
        };
        read_frame(&self.pool, frame, offset, into);
        true
    }

    /// Reads bytes as `load` does, if they are on one resident page that was touched in this epoch. Returns `false`,
    /// with nothing done, if they aren't.
    #[inline(always)]
    pub fn quick_load(&mut self, place: usize, at: u64, into: &mut [u8]) -> bool
        requires few { length into.old ≤ 4096 }
        ensures loads { IsTrue result → Loads (Ready self.old place) (view self.old place)
            at into.old Value into.new }
        ensures leaves { IsTrue result → Touches self.old place at (length into.old) self.new }
        ensures unchanged { IsFalse result → self.new ≡ self.old }
        ensures left { IsFalse result → into.new ≡ into.old }
    {
        let offset = (at % 4096) as usize;
        if into.is_empty() || offset + into.len() > 4096 {
            return false;
        }
        if !self.has_page(place, at / 4096) {
            return false;
        }
        self.load_touched(place, (at / 4096) as u32, offset, into)
    }
}
