// Copy-on-write: pages that get a frame of their own, to be written.

ghost use Rattle.std.specs.Prelude.{◌≡◌, ◌<◌, ◌≤◌, [], Some, IfSome, IfNone, length, get_or};
ghost use Rattle.wh_space_model.specs.Parts.{sharers};
ghost use Rattle.wh_space_model.specs.States.{at, owns, page_at, shares};
ghost use Rattle.wh_space_model.specs.declared.states.Page.TheVariants.{Untouched};
ghost use Rattle.wh_space.specs.Steps.{Owns};

use crate::frames::clear_frame;
use crate::memory::Memory;
use crate::pages::stand_alone;
use crate::pins::take_frame;
use crate::slotting::{leaver_at, void_written};
use wh_space_model::{Mark, Page};

impl Memory {
    // How many pages share a frame.
    pub(crate) fn sharers_of(&self, frame: u32) -> u32
        requires { frame < length self.now.pool.frames }
        ensures { result ≡ sharers self.now frame }
    {
        match self.content.mark(frame) {
            Mark::Plain => 0,
            Mark::Hint { .. } => 0,
            Mark::Sharers { count, .. } | Mark::Unlisted { count } => count,
        }
    }

    // The page has this frame already.
    fn keep_own(&mut self, place: usize, number: u32, frame: u32)
        requires { at (owns frame) (page_at self.old.tables place number) ≡ 1 }
        ensures { Owns self.old place number (Some frame) self.new }
    {
        let page = self.tables.page(place, number);
        void_written(
            &mut self.slots,
            leaver_at(&self.occupant_entries, place),
            page,
        );
        stand_alone(&mut self.tables, place, number, frame);
    }

    // Gives an untouched page a frame of zeros.
    fn take_zeros(&mut self, place: usize, number: u32) -> Option<u32>
        requires { page_at self.old.tables place number ≡ Some Untouched }
        ensures { Owns self.old place number result self.new }
    {
        let frame = take_frame(&mut self.pool, &mut self.pins, place)?;
        clear_frame(&mut self.pool, frame);
        stand_alone(&mut self.tables, place, number, frame);
        Some(frame)
    }

    // Gives the last sharer of a frame the frame.
    fn keep_last(&mut self, place: usize, number: u32, frame: u32)
        requires shares { at (shares frame) (page_at self.old.tables place number) ≡ 1 }
        requires last { sharers self.old frame ≡ 1 }
        ensures { Owns self.old place number (Some frame) self.new }
    {
        self.content.drop_sharer(frame);
        let page = self.tables.page(place, number);
        void_written(
            &mut self.slots,
            leaver_at(&self.occupant_entries, place),
            page,
        );
        stand_alone(&mut self.tables, place, number, frame);
    }

    // Gives one of several sharers of a frame a copy of it.
    fn take_copy(&mut self, place: usize, number: u32, frame: u32) -> Option<u32>
        requires shares { at (shares frame) (page_at self.old.tables place number) ≡ 1 }
        requires several { 2 ≤ sharers self.old frame }
        ensures { Owns self.old place number result self.new }
    {
        let fresh = take_frame(&mut self.pool, &mut self.pins, place)?;
        self.pool.copy(frame, fresh);
        self.content.drop_sharer(frame);
        let page = self.tables.page(place, number);
        void_written(
            &mut self.slots,
            leaver_at(&self.occupant_entries, place),
            page,
        );
        stand_alone(&mut self.tables, place, number, fresh);
        Some(fresh)
    }

    // Takes a page off the sharers of a frame. Returns the frame that it has then: one with a copy of the bytes, if there
    // is a frame for it; or as the last sharer the same one.
    fn leave_sharers(&mut self, place: usize, number: u32, frame: u32) -> Option<u32>
        requires { at (shares frame) (page_at self.old.tables place number) ≡ 1 }
        ensures { Owns self.old place number result self.new }
    {
        let _ = &self.tax;
        if self.sharers_of(frame) > 1 {
            self.take_copy(place, number, frame)
        } else {
            self.keep_last(place, number, frame);
            Some(frame)
        }
    }

    // Gives a page a frame of its own (copy-on-write), and returns it; or returns `None`, with nothing done, if there
    // is no frame for it, or the page is in a slot or coming from one.
    pub(crate) fn own(&mut self, place: usize, number: u32) -> Option<u32>
        requires { number < length (get_or self.old.tables place []) }
        ensures { Owns self.old place number result self.new }
    {
        match self.tables.page(place, number) {
            Page::Private(frame) => {
                self.keep_own(place, number, frame);
                Some(frame)
            }
            Page::Leaving(frame) => {
                self.keep_own(place, number, frame);
                Some(frame)
            }
            Page::Untouched => self.take_zeros(place, number),
            Page::Shared(frame) => self.leave_sharers(place, number, frame),
            Page::LeavingShared(frame) => self.leave_sharers(place, number, frame),
            Page::Coming(_) => None,
            Page::Swapped(_) => None,
        }
    }

    // The frame of its own that a page has already, if it was touched in this epoch too.
    #[inline(always)]
    pub(crate) fn own_quickly(&self, place: usize, number: u32) -> Option<u32>
        requires { number < length (get_or self.now.tables place []) }
        ensures { IfSome result (λ frame. Owns self.now place number (Some frame) self.now) }
    {
        self.tables.touched_own_frame(place, number)
    }
}
