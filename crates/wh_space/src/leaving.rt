// How an instance goes from its place.

ghost use Rattle.std.specs.Prelude.{◌≡◌, ◌<◌, [], None, true, length, get_or, slice_set};
ghost use Rattle.wh_space_model.specs.Frames.{IsTaken};
ghost use Rattle.wh_space_model.specs.Parts.{Occupant, occupant_at};
ghost use Rattle.wh_space_model.specs.Places.{Exits};
ghost use Rattle.wh_space.specs.Slotting.{CanLeaveSlots, slots_gone};
ghost use Rattle.wh_space.specs.Leaving.{CanAllGo, CanGo, owner_gone, page_gone, pages_gone, sharer_gone};
ghost use Rattle.wh_space.specs.UnchangedTables.{fixed_in};

use crate::memory::Memory;
use crate::pins::end_pins;
use crate::slotting::{leave_slot, leaver_at, void_slot};
use wh_content::Table;
use wh_frames::FramePool;
use wh_space_model::{Mark, Page};
use wh_swap::Slots;
use wh_tables::Tables;

// A page goes that was alone on a frame. The frame is free then.
fn let_owner_go(frame: u32, content: &mut Table, pool: &mut FramePool)
    requires taken { IsTaken pool.old frame }
    requires entry { frame < length content.old }
    ensures { record { pool = pool.new; marks = content.new }
        ≡ owner_gone frame (record { pool = pool.old; marks = content.old }) }
{
    content.forget_frame(frame);
    pool.give(frame);
}

// Takes one sharer off a frame. With the last one the frame is free.
fn let_sharer_go(frame: u32, content: &mut Table, pool: &mut FramePool)
    requires taken { IsTaken pool.old frame }
    requires entry { frame < length content.old }
    ensures { record { pool = pool.new; marks = content.new }
        ≡ sharer_gone frame (record { pool = pool.old; marks = content.old }) }
{
    content.drop_sharer(frame);
    if matches!(content.mark(frame), Mark::Plain) {
        pool.give(frame);
    }
}

// A page goes from its frame.
fn let_page_go(page: Page, content: &mut Table, pool: &mut FramePool)
    requires { CanGo page (record { pool = pool.old; marks = content.old }) }
    ensures { record { pool = pool.new; marks = content.new }
        ≡ page_gone page (record { pool = pool.old; marks = content.old }) }
{
    match page {
        Page::Private(frame) => let_owner_go(frame, content, pool),
        Page::Leaving(frame) => let_owner_go(frame, content, pool),
        Page::Shared(frame) => let_sharer_go(frame, content, pool),
        Page::LeavingShared(frame) => let_sharer_go(frame, content, pool),
        Page::Untouched => {}
        Page::Coming(_) => {}
        Page::Swapped(_) => {}
    }
}

// All pages of the instance at a place go, one after the other.
fn let_pages_go(
    tables: &Tables,
    place: usize,
    content: &mut Table,
    pool: &mut FramePool,
    slots: &mut Slots,
)
    requires frames { CanAllGo (get_or tables.now.pages place [])
        (record { pool = pool.old; marks = content.old }) }
    requires slots { CanLeaveSlots (get_or tables.now.pages place []) slots.old }
    ensures frames { record { pool = pool.new; marks = content.new }
        ≡ pages_gone (get_or tables.now.pages place [])
        (record { pool = pool.old; marks = content.old }) }
    ensures slots { slots.new
        ≡ slots_gone (get_or tables.now.pages place []) slots.old }
{
    for number in 0..tables.len_at(place) {
        let page = tables.page(place, number);
        let_page_go(page, content, pool);
        leave_slot(page, slots);
    }
}

impl Memory {
    /// Releases the instance at this place. Its own frames become free, and so do the shared ones whose last sharers
    /// were its pages, and their entries of the content table are removed; the reference counts of the others are
    /// lowered. Its slots become vacant, its pins and earmarks end, and its tickets become void. The place becomes
    /// free, with the last ticket if some are out. Goes over all pages of the instance.
    ///
    /// It takes no memory, and gives none back: the room of the page table stays until another one comes to the place.
    pub fn exit(&mut self, place: usize)
        requires { (t : Occupant) × occupant_at self.old place t × (t.live ≡ true) }
        ensures { Exits self.old place self.new }
    {
        let _ = &self.tax;
        end_pins(&mut self.pins, &mut self.pool, place);
        let_pages_go(
            &self.tables,
            place,
            &mut self.content,
            &mut self.pool,
            &mut self.slots,
        );
        void_slot(&mut self.slots, leaver_at(&self.occupant_entries, place));
        self.tables.clear(place);
        self.occupant_entries.let_occupant_go(place);
    }
}
