// What may become of a page on a frame that is shared and has no entry.

ghost use Rattle.std.specs.Prelude.{◌≡◌, ◌≢◌, ℕ, IfSome, IfNone, Some, false, slice_get};
ghost use Rattle.wh_space_model.specs.Frames.{IsTaken};
ghost use Rattle.wh_space_model.specs.Pages.{zero_page};
ghost use Rattle.wh_space_model.specs.Offers.{FindsHint, FindsNone, FindsShared, MayBeListed, listed_under, listed_for, moved_to};
ghost use Rattle.wh_space_model.specs.Parts.{frame_bytes};
ghost use Rattle.wh_space_model.specs.States.{page_at};
ghost use Rattle.wh_space_model.specs.declared.states.Mark.TheVariants.{Unlisted};
ghost use Rattle.wh_space_model.specs.declared.states.Page.TheVariants.{Shared};
ghost use Rattle.wh_space.specs.Listing.{IsNotUnlisted, zeros_left};
ghost use Rattle.wh_space.specs.Merges.{HasFewPages};

use crate::ending::leave_frame;
use crate::memory::Memory;
use crate::pages::{empty_page, put_page};
use wh_space_model::{Mark, Page};

/// A frame that pages share and that has no entry: its number, and how many they are.
#[derive(Clone, Copy, Debug)]
pub struct UnlistedFrame {
    /// The number of the frame.
    pub frame: u32,
    /// How many pages share it.
    pub sharers: u32,
}

impl Memory {
    /// Returns the frame that a page of the instance at this place shares, and isn't leaving, if that frame has no
    /// entry in the content table. Returns `None` for any other page.
    pub fn unlisted_frame(&self, place: u32, page: u32) -> Option<UnlistedFrame>
        ensures on { IfSome result (λ found.
            page_at self.now.tables place page ≡ Some (Shared found.frame)) }
        ensures unlisted { IfSome result (λ found.
            slice_get self.now.marks found.frame ≡ Some (Unlisted found.sharers)) }
        ensures taken { IfSome result (λ found. IsTaken self.now.pool found.frame) }
        ensures none { IfNone result (IsNotUnlisted self.now place page) }
    {
        let place = place as usize;
        if page >= self.tables.len_at(place) {
            return None;
        }
        let Page::Shared(frame) = self.tables.page(place, page) else {
            return None;
        };
        match self.content.mark(frame) {
            Mark::Unlisted { count } => Some(UnlistedFrame {
                frame,
                sharers: count,
            }),
            _ => None,
        }
    }

    /// Enters a frame, which `sharers` pages share and whose bytes aren't all zero, in the content table under this
    /// hash, under which there was nothing.
    pub fn list(&mut self, frame: u32, sharers: u32, hash: u64)
        requires unlisted { slice_get self.old.marks frame ≡ Some (Unlisted sharers) }
        requires some { frame_bytes self.old frame ≢ zero_page }
        requires none { FindsNone self.old hash }
        ensures { self.new ≡ listed_under self.old frame hash sharers }
    {
        let _ = &self.tax;
        self.content.share(frame, hash, sharers);
    }

    /// Enters such a frame in place of the hint of another frame.
    pub fn list_for(&mut self, frame: u32, sharers: u32, hash: u64, hinted: u32)
        requires unlisted { slice_get self.old.marks frame ≡ Some (Unlisted sharers) }
        requires some { frame_bytes self.old frame ≢ zero_page }
        requires found { (j q : ℕ) × FindsHint self.old hash hinted j q }
        ensures { self.new ≡ listed_for self.old hinted frame hash sharers }
    {
        let _ = &self.tax;
        self.content.forget_frame(hinted);
        self.content.share(frame, hash, sharers);
    }

    /// Takes a page, which may be merged, off a shared frame without an entry: it becomes a page of zeros without a
    /// frame. With its last sharer the frame becomes free.
    pub fn leave_zeros(&mut self, place: u32, page: u32, frame: u32, sharers: u32)
        requires { MayBeListed self.old place page frame sharers }
        ensures { self.new ≡ zeros_left self.old place page frame }
    {
        let _ = &self.tax;
        empty_page(&mut self.tables, place as usize, page);
        leave_frame(&mut self.content, &mut self.pool, frame, sharers);
    }

    /// Moves a page from such a frame to another one, which has equal bytes, and which `sharers` pages share under this
    /// hash.
    pub fn move_to(
        &mut self,
        place: u32,
        page: u32,
        from: UnlistedFrame,
        hash: u64,
        shared: u32,
        sharers: u32,
    )
        requires few { HasFewPages self.old }
        requires may { MayBeListed self.old place page from.frame from.sharers }
        requires found { FindsShared self.old hash shared sharers }
        ensures { self.new ≡ moved_to self.old place page from.frame shared hash sharers }
    {
        let _ = &self.tax;
        put_page(&mut self.tables, place as usize, page, Page::Shared(shared));
        leave_frame(&mut self.content, &mut self.pool, from.frame, from.sharers);
        self.content.share(shared, hash, sharers + 1);
    }
}
