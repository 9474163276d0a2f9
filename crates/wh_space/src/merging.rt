// What may become of a page that is offered for sharing.

ghost use Rattle.std.specs.Bool.{MatchBool};
ghost use Rattle.std.specs.Prelude.{◌≡◌, ◌≢◌, ◌↔◌, ◌<◌, ◌^◌, ℕ, IsTrue, IfSome, IfNone, [], Some, None, false, length, get_or, slice_get};
ghost use Rattle.wh_content.specs.Marks.{frame_of_entry, mark_of_entry};
ghost use Rattle.wh_space_model.specs.Frames.{IsTaken};
ghost use Rattle.wh_space_model.specs.Pages.{zero_page};
ghost use Rattle.wh_space_model.specs.Offers.{FindsHint, FindsNone, FindsShared, IsOffered, IsPinned, hinted, joined_to, paired_with};
ghost use Rattle.wh_space_model.specs.Parts.{frame_bytes, has_number};
ghost use Rattle.wh_space_model.specs.States.{page_at, put};
ghost use Rattle.wh_space_model.specs.declared.states.Page.TheVariants.{Private, Untouched};
ghost use Rattle.wh_space.specs.Merges.{HasFewPages, IsNotPrivate, emptied, rehinted};
ghost use Rattle.wh_space.specs.Numbered.{ComesAfter, IsNextInstance};
ghost use Rattle.wh_space.specs.UnchangedTables.{fixed_in};

use crate::memory::Memory;
use crate::pages::{empty_page, put_page};
use crate::pins::has_page_pinned;
use wh_content::ContentEntry;
use wh_space_model::{InstId, Page};
use wh_tables::Tables;

impl Memory {
    /// Tells whether frames and slots are fewer than 2^32 together, so that the reference count of a frame fits in 32
    /// bits.
    pub fn has_few_pages(&self) -> bool
        ensures { IsTrue result ↔ HasFewPages self.now }
    {
        let frames = u64::from(self.pool.used()) + u64::from(self.pool.free());
        frames + u64::from(self.slots.len()) < 1 << 32
    }

    /// Returns, of the instances with pages, the one with the lowest number, or with the lowest number above `after`.
    /// Skips places without pages, by a list in the order of numbers, and looks at no page.
    pub fn next_instance(&self, after: Option<u64>) -> Option<InstId>
        ensures some { IfSome result (λ id. IsNextInstance self.now after id) }
        ensures small { IfSome result (λ id. id.place < 2 ^ 32) }
        ensures none { IfNone result ((i : ℕ) → ¬ ComesAfter self.now after i) }
    {
        let _ = &self.tax;
        self.tables.next_instance(after)
    }

    /// Tells whether the instance of this number is at this place.
    pub fn is_at(&self, place: u32, number: u64) -> bool
        ensures { result ≡ has_number (get_or self.now.occupants place None) number }
    {
        let place = place as usize;
        if place >= self.occupant_entries.len() {
            return false;
        }
        match self.occupant_entries.at(place) {
            Some(occupant_entry) => occupant_entry.live && occupant_entry.number == number,
            None => false,
        }
    }

    /// Returns the frame of its own to which a page of the instance at this place maps, unless the page is leaving it.
    /// Returns `None` for any other page.
    pub fn private_frame(&self, place: u32, page: u32) -> Option<u32>
        ensures some { IfSome result (λ frame.
            page_at self.now.tables place page ≡ Some (Private frame)) }
        ensures taken { IfSome result (λ frame. IsTaken self.now.pool frame) }
        ensures none { IfNone result (IsNotPrivate self.now place page) }
    {
        let place = place as usize;
        if page >= self.tables.len_at(place) {
            return None;
        }
        match self.tables.page(place, page) {
            Page::Private(frame) => Some(frame),
            _ => None,
        }
    }

    /// Tells whether a page of the instance at this place is pinned.
    pub fn is_pinned(&self, place: u32, page: u32) -> bool
        ensures { MatchBool result (IsPinned self.now place page)
            (¬ IsPinned self.now place page) }
    {
        has_page_pinned(self.pins, place as usize, page)
    }

    /// Returns the 4096 bytes of a frame that isn't free.
    pub fn bytes_of(&self, frame: u32) -> &[u8; 4096]
        requires { IsTaken self.now.pool frame }
        ensures { result.now ≡ frame_bytes self.now frame }
    {
        self.pool.bytes(frame)
    }

    /// Returns what the content table has under this hash; the entry's frame isn't free.
    pub fn entry(&self, hash: u64) -> Option<ContentEntry>
        ensures found { IfSome result (λ entry.
            slice_get self.now.marks (frame_of_entry entry) ≡ Some (mark_of_entry hash entry)) }
        ensures taken { IfSome result (λ entry. IsTaken self.now.pool (frame_of_entry entry)) }
        ensures none { IfNone result (FindsNone self.now hash) }
    {
        let _ = &self.tax;
        self.content.look(hash)
    }

    /// Makes a page with a frame of its own, which may be merged, a page of zeros without a frame. The frame becomes
    /// free.
    pub fn empty(&mut self, place: u32, page: u32, frame: u32)
        requires { IsOffered self.old place page frame }
        ensures { self.new ≡ emptied self.old place page frame }
    {
        let _ = &self.tax;
        empty_page(&mut self.tables, place as usize, page);
        self.pool.give(frame);
        self.content.forget_frame(frame);
    }

    /// Enters a page with a frame of its own, which may be merged, as the hint of this hash, under which there was
    /// nothing.
    pub fn hint(&mut self, place: u32, page: u32, frame: u32, hash: u64)
        requires offered { IsOffered self.old place page frame }
        requires none { FindsNone self.old hash }
        ensures { self.new ≡ hinted self.old place page frame hash }
    {
        let _ = &self.tax;
        self.content.set_hint(frame, hash, place, page);
    }

    /// Enters such a page as the hint of this hash in place of another page, on another frame.
    pub fn rehint(&mut self, place: u32, page: u32, frame: u32, hash: u64, stale: u32)
        requires offered { IsOffered self.old place page frame }
        requires found { (j q : ℕ) × FindsHint self.old hash stale j q }
        ensures { self.new ≡ rehinted self.old place page frame stale hash }
    {
        let _ = &self.tax;
        self.content.forget_frame(stale);
        self.content.set_hint(frame, hash, place, page);
    }

    /// Moves a page from a frame of its own, which becomes free, to a frame that `sharers` pages share under this hash,
    /// with equal bytes, not all zero.
    pub fn join(&mut self, place: u32, page: u32, frame: u32, hash: u64, shared: u32, sharers: u32)
        requires few { HasFewPages self.old }
        requires offered { IsOffered self.old place page frame }
        requires some { frame_bytes self.old frame ≢ zero_page }
        requires same { frame_bytes self.old frame ≡ frame_bytes self.old shared }
        requires found { FindsShared self.old hash shared sharers }
        ensures { self.new ≡ joined_to self.old place page frame shared hash sharers }
    {
        let _ = &self.tax;
        put_page(&mut self.tables, place as usize, page, Page::Shared(shared));
        self.pool.give(frame);
        self.content.forget_frame(frame);
        self.content.share(shared, hash, sharers + 1);
    }

    /// Moves a page from a frame of its own, which becomes free, to the frame of a hint's page, with equal bytes, not
    /// all zero. The two pages share that frame then.
    pub fn pair(
        &mut self,
        place: u32,
        page: u32,
        frame: u32,
        hash: u64,
        shared: u32,
        other_place: u32,
        other_page: u32,
    )
        requires offered { IsOffered self.old place page frame }
        requires some { frame_bytes self.old frame ≢ zero_page }
        requires same { frame_bytes self.old frame ≡ frame_bytes self.old shared }
        requires apart { shared ≢ frame }
        requires found { FindsHint self.old hash shared other_place other_page }
        requires hinted { IsOffered self.old other_place other_page shared }
        ensures { self.new
            ≡ paired_with self.old place page frame shared hash other_place other_page }
    {
        let _ = &self.tax;
        put_page(&mut self.tables, place as usize, page, Page::Shared(shared));
        self.pool.give(frame);
        self.content.forget_frame(frame);
        self.content.share(shared, hash, 2);
        put_page(
            &mut self.tables,
            other_place as usize,
            other_page,
            Page::Shared(shared),
        );
    }
}
