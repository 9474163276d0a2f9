// An entry of the table: a page with its mark, in 8 bytes.

ghost use Rattle.std.specs.Bool.{MatchBool};
ghost use Rattle.std.specs.Prelude.{◌≡◌, ◌≤◌, None, false, cond};
ghost use Rattle.wh_space_model.specs.declared.states.Page.TheVariants.{Untouched as UntouchedPage};
ghost use Rattle.wh_space_model.specs.Moves.{frame_of};
ghost use Rattle.wh_space_model.specs.States.{resident, swapped};
ghost use Rattle.wh_pages.specs.Leaves.{IsSoughtEntry};
ghost use Rattle.wh_pages.specs.Parts.{page_of};
ghost use Rattle.wh_pages.specs.Table.{own_frame_of};

use wh_space_model::Page;

// Which state a page is in.
#[derive(Clone, Copy)]
pub enum EntryKind {
    Untouched,
    Private,
    Shared,
    Leaving,
    LeavingShared,
    Coming,
    Swapped,
}

// The state of a page, the number of its frame or slot, and whether it was touched in this epoch.
#[derive(Clone, Copy)]
pub struct PageEntry {
    pub number: u32,
    pub kind: EntryKind,
    pub touched: bool,
}

const _: () = prove!(size_of::<PageEntry>() <= 8);

impl PageEntry {
    /// Returns the entry of a page of zeros without a frame and without a mark.
    pub fn blank() -> PageEntry
        ensures page { page_of result ≡ UntouchedPage }
        ensures touched { result.touched ≡ false }
    {
        PageEntry {
            number: 0,
            kind: EntryKind::Untouched,
            touched: false,
        }
    }

    /// Returns the entry of this page with this mark of touch.
    pub fn new(page: Page, touched: bool) -> PageEntry
        ensures page { page_of result ≡ page }
        ensures touched { result.touched ≡ touched }
    {
        let (kind, number) = match page {
            Page::Untouched => (EntryKind::Untouched, 0),
            Page::Private(frame) => (EntryKind::Private, frame),
            Page::Shared(frame) => (EntryKind::Shared, frame),
            Page::Leaving(frame) => (EntryKind::Leaving, frame),
            Page::LeavingShared(frame) => (EntryKind::LeavingShared, frame),
            Page::Coming(slot) => (EntryKind::Coming, slot),
            Page::Swapped(slot) => (EntryKind::Swapped, slot),
        };
        PageEntry {
            number,
            kind,
            touched,
        }
    }

    /// Returns 1 if the page is resident, else 0.
    #[inline(always)]
    pub fn residents(self) -> u32
        ensures is { result ≡ resident (page_of self) }
        ensures one { result ≤ 1 }
    {
        match self.kind {
            EntryKind::Private
            | EntryKind::Shared
            | EntryKind::Leaving
            | EntryKind::LeavingShared => 1,
            EntryKind::Untouched | EntryKind::Coming | EntryKind::Swapped => 0,
        }
    }

    /// Returns 1 if the page is swapped, else 0.
    #[inline(always)]
    pub fn swaps(self) -> u32
        ensures is { result ≡ swapped (page_of self) }
        ensures one { result ≤ 1 }
    {
        match self.kind {
            EntryKind::Swapped => 1,
            EntryKind::Untouched
            | EntryKind::Private
            | EntryKind::Shared
            | EntryKind::Leaving
            | EntryKind::LeavingShared
            | EntryKind::Coming => 0,
        }
    }

    /// Returns 1 if the page is resident and was touched in this epoch, else 0.
    #[inline(always)]
    pub fn actives(self) -> u32
        ensures is { result ≡ cond self.touched (resident (page_of self)) 0 }
        ensures one { result ≤ 1 }
    {
        if self.touched { self.residents() } else { 0 }
    }

    /// Returns the frame of the page, if it was touched in this epoch.
    #[inline(always)]
    pub fn touched_frame(self) -> Option<u32>
        ensures { result ≡ cond self.touched (frame_of (page_of self)) None }
    {
        if !self.touched {
            return None;
        }
        match self.kind {
            EntryKind::Private
            | EntryKind::Shared
            | EntryKind::Leaving
            | EntryKind::LeavingShared => Some(self.number),
            EntryKind::Untouched | EntryKind::Coming | EntryKind::Swapped => None,
        }
    }

    /// Returns the frame of its own, if the page is `Private` and was touched in this epoch.
    #[inline(always)]
    pub fn touched_own_frame(self) -> Option<u32>
        ensures { result ≡ cond self.touched (own_frame_of (page_of self)) None }
    {
        match self.kind {
            EntryKind::Private if self.touched => Some(self.number),
            _ => None,
        }
    }

    /// Tells whether the page is resident, and with `idle` also wasn't touched in this epoch.
    #[inline(always)]
    pub fn is_sought(self, idle: bool) -> bool
        ensures { MatchBool result (IsSoughtEntry idle self) (¬ IsSoughtEntry idle self) }
    {
        self.residents() == 1 && !(idle && self.touched)
    }

    /// Returns the page.
    #[inline(always)]
    pub fn page(self) -> Page
        ensures { result ≡ page_of self }
    {
        match self.kind {
            EntryKind::Untouched => Page::Untouched,
            EntryKind::Private => Page::Private(self.number),
            EntryKind::Shared => Page::Shared(self.number),
            EntryKind::Leaving => Page::Leaving(self.number),
            EntryKind::LeavingShared => Page::LeavingShared(self.number),
            EntryKind::Coming => Page::Coming(self.number),
            EntryKind::Swapped => Page::Swapped(self.number),
        }
    }
}
