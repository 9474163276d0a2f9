// Pages that are read beside others, who read them too.

ghost use Rattle.std.specs.Prelude.{◌≡◌, ◌+◌, ◌*◌, ◌<◌, ◌≤◌, ℕ, [], IsTrue, IsFalse, IfSome, IfNone, MatchBool, Some, get_or, length};
ghost use Rattle.wh_space_model.specs.Parts.{view};
ghost use Rattle.wh_space_model.specs.Ready.{IsAtHand};
ghost use Rattle.wh_space_model.specs.States.{page_at};
ghost use Rattle.wh_space_model.specs.declared.states.Page.TheVariants.{Private};
ghost use Rattle.wh_model.specs.Execution.Store.{bytes_at};
ghost use Rattle.wh_space.specs.Merges.{IsNotPrivate};
ghost use Rattle.wh_space.specs.SlotReads.{LiesInSlot};

use crate::loads::read_page;
use crate::memory::Memory;
use wh_space_model::Page;

impl Memory {
    /// Returns the size of the instance at this place in pages of 4096 bytes.
    #[inline(always)]
    pub fn pages_at(&self, place: usize) -> u32
        ensures { result ≡ length (get_or self.now.tables place []) }
    {
        let _ = &self.tax;
        self.tables.len_at(place)
    }

    /// Reads bytes of a page of the instance at this place, from this one of it on, and doesn't mark it as touched. Where there
    /// is no such page, or it is in a slot or on the way from one, nothing is done, and the answer is false.
    #[inline(always)]
    pub fn peek(&self, place: usize, number: u32, offset: usize, into: &mut [u8]) -> bool
        requires { offset + length into.old ≤ 4096 }
        ensures hand { MatchBool result (IsAtHand (page_at self.now.tables place number))
            (¬ IsAtHand (page_at self.now.tables place number)) }
        ensures read { IsTrue result → into.new
            ≡ bytes_at (view self.now place) (4096 * number + offset) (length into.old) }
        ensures left { IsFalse result → into.new ≡ into.old }
    {
        if number >= self.tables.len_at(place) {
            return false;
        }
        read_page(&self.pool, self.tables.page(place, number), offset, into)
    }

    /// Returns the slot that has the bytes of a page of the instance at this place: the one in which the page is, or from which it is
    /// on its way. Returns `None` where there is no such page, or its bytes are at hand.
    pub fn slot_at(&self, place: usize, number: u32) -> Option<u32>
        ensures slot { IfSome result (LiesInSlot self.now place number) }
        ensures hand { IfNone result (number < length (get_or self.now.tables place [])
            → IsAtHand (page_at self.now.tables place number)) }
    {
        if number >= self.tables.len_at(place) {
            return None;
        }
        match self.tables.page(place, number) {
            Page::Swapped(slot) | Page::Coming(slot) => Some(slot),
            _ => None,
        }
    }

    /// Returns the bytes of a page of the instance at this place that has a frame of its own, and isn't leaving it.
    /// Returns `None` for any other page.
    pub fn private_page(&self, place: usize, number: u32) -> Option<&[u8; 4096]>
        ensures some { IfSome result (λ bytes. bytes.now
            ≡ bytes_at (view self.now place) (4096 * number) 4096) }
        ensures private { IfSome result (λ _. (frame : ℕ)
            × (page_at self.now.tables place number ≡ Some (Private frame))) }
        ensures none { IfNone result (IsNotPrivate self.now place number) }
    {
        if number >= self.tables.len_at(place) {
            return None;
        }
        match self.tables.page(place, number) {
            Page::Private(frame) => Some(self.pool.bytes(frame)),
            _ => None,
        }
    }
}
