// How pages in transit end.

ghost use Rattle.std.specs.Prelude.{◌≡◌, ◌<◌, ◌≤◌, ◌≢◌, ◌++◌, [], ◌∷◌, Some, None, true, false, cond, nat_lt, IfSome, length, get_or, slice_get, slice_set};
ghost use Rattle.wh_space_model.specs.Frames.{IsTaken};
ghost use Rattle.wh_space_model.specs.declared.states.Mark.TheVariants.{Plain};
ghost use Rattle.wh_space_model.specs.declared.states.Page.TheVariants.{Swapped};
ghost use Rattle.wh_space_model.specs.Breaks.{fewer_sharers};
ghost use Rattle.wh_space_model.specs.declared.states.Slot.TheVariants.{Evicting, EvictVoid, Fetching, FetchVoid};
ghost use Rattle.wh_space_model.specs.Moves.{frame_of};
ghost use Rattle.wh_space_model.specs.Parts.{frame_bytes};
ghost use Rattle.wh_space_model.specs.States.{page_at, put};
ghost use Rattle.wh_space_model.specs.Tickets.{CommitsEvict, CommitsFetch, IsEvicting, IsWritten, has_come, not_come, not_sent, sent_off, settled, with_free, with_leaving, without_slot};
ghost use Rattle.wh_space.specs.UnchangedTables.{fixed_in};
ghost use Rattle.wh_space.specs.Transits.{IsFetching, back_again};

use crate::frames::set_frame;
use crate::memory::Memory;
use crate::pages::{put_page, swap_page};
use crate::pins::unpin_page;
use wh_content::Table;
use wh_frames::FramePool;
use wh_space_model::{EvictEnd, FetchEnd, Page, Slot};
use wh_tables::Tables;

// A page as it was before it began to leave.
fn as_it_was(page: Page) -> Page
    ensures { result ≡ back_again page }
{
    match page {
        Page::Leaving(frame) => Page::Private(frame),
        Page::LeavingShared(frame) => Page::Shared(frame),
        other => other,
    }
}

/// Takes one sharer off a frame that `sharers` pages shared: lowers its reference count, or frees it if that was the
/// last.
pub fn leave_frame(content: &mut Table, pool: &mut FramePool, frame: u32, sharers: u32)
    requires taken { IsTaken pool.old frame }
    requires entry { frame < length content.old }
    ensures marks { content.new ≡ slice_set content.old frame
        (cond (nat_lt 1 sharers) (fewer_sharers 1 (get_or content.old frame Plain)) Plain) }
    ensures pool { pool.new ≡ record pool.old {
      free = cond (nat_lt 1 sharers) pool.old.free (pool.old.free ++ frame ∷ []);
    } }
{
    if sharers > 1 {
        content.drop_sharer(frame);
    } else {
        content.forget_frame(frame);
        pool.give(frame);
    }
}

impl Memory {
    /// Records that the device was called to write these bytes to a slot whose eviction ticket is out, and whether it
    /// did.
    pub fn written(&mut self, slot: u32, bytes: &[u8; 4096], wrote: bool)
        requires { IsEvicting self.old slot }
        ensures { IsWritten self.old slot bytes.now wrote self.new }
    {
        let _ = &self.tax;
        self.slots.write(slot, bytes, wrote);
    }

    // A void ticket of a page that was to leave comes back.
    fn end_void_evict(&mut self, slot: u32, place: u32)
        requires { slice_get self.old.slots.uses slot ≡ Some (EvictVoid place) }
        ensures { self.new
            ≡ settled (with_leaving (without_slot self.old slot) place None) place }
    {
        self.slots.give(slot);
        self.occupant_entries.end_leaving(place as usize);
        self.occupant_entries.settle(place as usize);
    }

    // The ticket of a page comes back that stays as it was.
    fn stay(&mut self, slot: u32, place: u32, page: u32)
        requires { slice_get self.old.slots.uses slot ≡ Some (Evicting place page) }
        ensures { IfSome (page_at self.old.tables place page) (λ was.
            self.new ≡ not_sent self.old place page slot (back_again was)) }
    {
        let was = self.tables.page(place as usize, page);
        self.slots.give(slot);
        self.occupant_entries.end_leaving(place as usize);
        put_page(&mut self.tables, place as usize, page, as_it_was(was));
    }

    // The ticket of a page comes back that is in its slot, and was on this frame.
    fn leave(&mut self, slot: u32, place: u32, page: u32, frame: u32)
        requires out { slice_get self.old.slots.uses slot ≡ Some (Evicting place page) }
        requires frame { IfSome (page_at self.old.tables place page) (λ was.
            frame_of was ≡ Some frame) }
        requires held { get_or self.old.slots.held slot [] ≡ frame_bytes self.old frame }
        ensures { self.new ≡ sent_off self.old place page frame slot }
    {
        let _ = &self.tax;
        let sharers = self.sharers_of(frame);
        leave_frame(&mut self.content, &mut self.pool, frame, sharers);
        self.slots.set(slot, Slot::Taken);
        self.occupant_entries.end_leaving(place as usize);
        swap_page(&mut self.tables, place as usize, page, slot);
        unpin_page(&mut self.pins, place as usize, page);
    }

    // A void ticket of a page that was to come comes back: its frame is free.
    fn end_void_fetch(&mut self, slot: u32, place: u32, frame: u32)
        requires { slice_get self.old.slots.uses slot ≡ Some (FetchVoid place frame) }
        ensures { self.new
            ≡ settled (with_free (without_slot self.old slot) frame) place }
    {
        self.slots.give(slot);
        self.pool.give(frame);
        self.occupant_entries.end_coming(place as usize);
        self.occupant_entries.settle(place as usize);
    }

    // The ticket of a page comes back that has come, with these bytes.
    fn come(&mut self, slot: u32, place: u32, page: u32, frame: u32, bytes: &[u8; 4096])
        requires { slice_get self.old.slots.uses slot ≡ Some (Fetching place page frame) }
        ensures { self.new ≡ has_come self.old place page frame slot bytes.now }
    {
        set_frame(&mut self.pool, frame, bytes);
        self.slots.give(slot);
        self.occupant_entries.end_coming(place as usize);
        put_page(&mut self.tables, place as usize, page, Page::Private(frame));
    }

    // The ticket of a page comes back that hasn't come.
    fn stay_away(&mut self, slot: u32, place: u32, page: u32, frame: u32)
        requires { slice_get self.old.slots.uses slot ≡ Some (Fetching place page frame) }
        ensures { self.new ≡ not_come self.old place page frame slot }
    {
        self.pool.give(frame);
        self.slots.set(slot, Slot::Taken);
        self.occupant_entries.end_coming(place as usize);
        put_page(&mut self.tables, place as usize, page, Page::Swapped(slot));
    }

    // The ticket of a page that isn't void comes back.
    fn end_of_page(
        &mut self,
        slot: u32,
        place: u32,
        page: u32,
        wrote: bool,
        bytes: &[u8; 4096],
    ) -> EvictEnd
        requires out { slice_get self.old.slots.uses slot ≡ Some (Evicting place page) }
        requires held { wrote ≡ true → get_or self.old.slots.held slot [] ≡ bytes.now }
        ensures { CommitsEvict self.old slot wrote bytes.now result self.new }
    {
        let _ = &self.tax;
        if !wrote {
            self.stay(slot, place, page);
            return EvictEnd::Failed;
        }
        let Some(frame) = self.tables.page(place as usize, page).frame() else {
            unreachable!()
        };
        if self.pool.bytes(frame) != bytes {
            self.stay(slot, place, page);
            return EvictEnd::Void;
        }
        self.leave(slot, place, page, frame);
        EvictEnd::Evicted
    }

    /// Ends an eviction: takes back the slot's ticket, with whether the device wrote the slot and the bytes that it was
    /// given, which the slot then holds.
    pub fn evict_commit(&mut self, slot: u32, wrote: bool, bytes: &[u8; 4096]) -> EvictEnd
        requires out { IsEvicting self.old slot }
        requires held { wrote ≡ true → get_or self.old.slots.held slot [] ≡ bytes.now }
        ensures { CommitsEvict self.old slot wrote bytes.now result self.new }
    {
        let _ = &self.tax;
        match self.slots.get(slot) {
            Slot::EvictVoid { place } => {
                self.end_void_evict(slot, place);
                EvictEnd::Void
            }
            Slot::Evicting { place, page } => self.end_of_page(slot, place, page, wrote, bytes),
            _ => unreachable!(),
        }
    }

    /// Ends a fetch: takes back the slot's ticket, with whether the device read the slot and the bytes that it read.
    pub fn fetch_commit(&mut self, slot: u32, read: bool, bytes: &[u8; 4096]) -> FetchEnd
        requires { IsFetching self.old slot }
        ensures { CommitsFetch self.old slot read bytes.now result self.new }
    {
        let _ = &self.tax;
        match self.slots.get(slot) {
            Slot::FetchVoid { place, frame } => {
                self.end_void_fetch(slot, place, frame);
                FetchEnd::Void
            }
            Slot::Fetching { place, page, frame } => {
                if read {
                    self.come(slot, place, page, frame, bytes);
                    return FetchEnd::Fetched;
                }
                self.stay_away(slot, place, page, frame);
                FetchEnd::Failed
            }
            _ => unreachable!(),
        }
    }
}
