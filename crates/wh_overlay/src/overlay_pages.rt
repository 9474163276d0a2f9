// What an instance writes in an overlay on the memory of all.

ghost use Rattle.std.specs.Prelude.{◌≡◌, ◌+◌, ◌-◌, ◌^◌, ◌<◌, ◌≤◌, ◌++◌, ◌∷◌, ℕ, [], cond, false, Some, IfOk, IfSome, IfNone, MatchBool, length, get_or, slice_get, slice_set, vec_capacity};
ghost use Rattle.wh_model.specs.Execution.Store.{written as overwritten};
ghost use Rattle.wh_overlay.specs.LaidPages.{AreNoted, AreWrittenOnce, AreWhole, IsMarked, IsAmong, IsNoted, IsWrittenAt, NotesRead, OverlayPagesState};

use std::alloc::{AllocError, Global};
use std::marker::Model;

// The mark of a page that was read, and not written.
const READ: u32 = 1;

// How much more than its place among the written ones is the mark of a page that was written.
const WRITTEN: u32 = 2;

/// A page of 4096 bytes that was written.
#[derive(Drop)]
pub struct WrittenPage {
    /// Which page of its memory it is.
    pub number: u32,
    /// Its bytes.
    pub bytes: [u8; 4096],
}

/// The overlay itself: the pages that an instance has written, those that it has read in the memory of all, and by how
/// much its memory has grown. All room is reserved before.
#[derive(Drop)]
pub struct OverlayPages {
    pub(crate) pages: Vec<WrittenPage>,
    // How many may be written.
    most_written: usize,
    // The numbers of pages that were read before they were written.
    pub(crate) reads: Vec<u32>,
    // By page: 0 where it was neither read nor written.
    pub(crate) marks: Vec<u32>,
    pub(crate) grown: u32,
    // How many frames are lent for pages that have none of their own, and how many such pages were written.
    lent: u32,
    taken: u32,
}

impl Model for OverlayPages {
    ghost use Rattle.std.specs.Prelude.{◌-◌, ◌≤◌, length, vec_capacity};
    ghost use Rattle.wh_overlay.specs.LaidPages.{AreNoted, IsMarked, OverlayPagesState as State};
    ghost use Rattle.wh_overlay.specs.Stored.{stored_upper};

    ghost Value = { State };

    ghost coded = { stored_upper };

    ghost view = { λ u. record {
      pages = u.pages.items;
      reads = u.reads.items;
      grown = u.grown;
      room = u.most_written - length u.pages.items;
      most = length u.marks.items;
      lent = u.lent;
      taken = u.taken;
    } };

    ghost invariant = { λ u. IsMarked u.pages.items u.marks.items
        × (u.most_written ≤ vec_capacity u.pages) × (u.most_written ≤ 65535)
        × (length u.pages.items ≤ u.most_written)
        × AreNoted u.reads.items u.marks.items × (length u.marks.items ≤ vec_capacity u.reads) };
}

// The mark of a page.
#[inline(always)]
fn mark_of(marks: &Vec<u32>, number: u32) -> u32
    ensures { result ≡ get_or marks.now.items number 0 }
{
    match marks.get(number as usize) {
        Some(mark) => *mark,
        None => 0,
    }
}

// Writes over bytes of a page, from this one on.
#[inline(always)]
fn overwrite(bytes: &mut [u8; 4096], offset: usize, given: &[u8])
    requires { offset + length given.now ≤ 4096 }
    ensures { bytes.new ≡ overwritten bytes.old offset given.now }
{
    bytes[offset..offset + given.len()].copy_from_slice(given);
}

// Keeps the number of a page that was read for the first time.
#[inline(never)]
fn keep_read(reads: &mut Vec<u32>, marks: &mut Vec<u32>, number: u32)
    requires new { (number < length marks.old.items) × (get_or marks.old.items number 0 ≡ 0) }
    requires noted { AreNoted reads.old.items marks.old.items }
    requires room { length marks.old.items ≤ vec_capacity reads.old }
    ensures reads { reads.new.items ≡ reads.old.items ++ number ∷ [] }
    ensures marks { marks.new.items ≡ slice_set marks.old.items number 1 }
    ensures room { vec_capacity reads.new ≡ vec_capacity reads.old }
{
    reads.push_reserved(number);
    marks[number as usize] = READ;
}

// Takes the marks of these pages away.
fn clear_written(marks: &mut Vec<u32>, pages: &[WrittenPage])
    requires { IsMarked pages.now marks.old.items }
    ensures marks { IsMarked [] marks.new.items }
    ensures reads { (number : ℕ) → get_or marks.new.items number 0 ≡ 1 → get_or marks.old.items number 0 ≡ 1 }
    ensures long { length marks.new.items ≡ length marks.old.items }
{
    for page in pages {
        if let Some(mark) = marks.get_mut(page.number as usize) {
            *mark = 0;
        }
    }
}

// Takes those of pages away that were read, where none was written.
fn clear_read(marks: &mut Vec<u32>, reads: &[u32])
    requires marks { IsMarked [] marks.old.items }
    requires reads { (number : ℕ) → get_or marks.old.items number 0 ≡ 1 → IsNoted reads.now number }
    ensures marks { IsMarked [] marks.new.items }
    ensures noted { AreNoted [] marks.new.items }
    ensures long { length marks.new.items ≡ length marks.old.items }
{
    for number in reads {
        if let Some(mark) = marks.get_mut(*number as usize) {
            *mark = 0;
        }
    }
}

impl OverlayPages {
    /// Reserves room for `written` written pages, of a memory of at most `pages` pages of 4096 bytes.
    ///
    /// # Errors
    /// `AllocError` if an allocation fails.
    pub fn new(alloc: Global, written: u16, pages: usize) -> Result<OverlayPages, AllocError>
        ensures { IfOk result (λ u.
            u ≡ record { pages = []; reads = []; grown = 0; room = written; most = pages; lent = 0; taken = 0 }) }
    {
        let most_written = written as usize;
        Ok(OverlayPages {
            pages: Vec::with_capacity(alloc, most_written)?,
            most_written,
            reads: Vec::with_capacity(alloc, pages)?,
            marks: vec![in alloc; 0u32; pages]?,
            grown: 0,
            lent: 0,
            taken: 0,
        })
    }

    /// States what always holds of the written pages: each is there once, and has 4096 bytes. Does nothing when run.
    #[inline(always)]
    pub fn invariant(&self)
        ensures once { AreWrittenOnce self.now.pages }
        ensures whole { AreWhole self.now.pages }
    {
        let _ = &self.grown;
    }

    /// Returns the place of a page among the written ones, if it was written.
    #[inline(always)]
    pub fn find(&self, number: u32) -> Option<usize>
        ensures some { IfSome result (λ k. IsWrittenAt self.now.pages number k) }
        ensures none { IfNone result (¬ (IsAmong self.now.pages number)) }
    {
        let mark = mark_of(&self.marks, number);
        if mark < WRITTEN {
            return None;
        }
        Some((mark - WRITTEN) as usize)
    }

    /// Returns the bytes of the written page at this place.
    #[inline(always)]
    pub fn bytes(&self, at: usize) -> &[u8; 4096]
        requires { at < length self.now.pages }
        ensures { (x : WrittenPage) × (slice_get self.now.pages at ≡ Some x)
            × (result.now ≡ x.bytes) }
    {
        &self.pages[at].bytes
    }

    /// Returns the number of pages of 65536 bytes by which the memory has grown.
    #[inline(always)]
    pub fn grown(&self) -> u32
        ensures { result ≡ self.now.grown }
    {
        self.grown
    }

    /// Lends `frames` frames for pages that have none of their own, in place of those that were lent before.
    pub fn lend(&mut self, frames: u32)
        ensures { self.new ≡ record self.old { lent = frames; taken = 0 } }
    {
        self.lent = frames;
        self.taken = 0;
    }

    /// Tells whether a lent frame is left.
    pub fn has_frame(&self) -> bool
        ensures { MatchBool result (self.now.taken < self.now.lent) (¬ (self.now.taken < self.now.lent)) }
    {
        self.taken < self.lent
    }

    /// Tells whether one more page, of this number, may be written.
    pub fn has_room_for(&self, number: u32) -> bool
        ensures { MatchBool result ((number < self.now.most) × (1 ≤ self.now.room))
            (¬ ((number < self.now.most) × (1 ≤ self.now.room))) }
    {
        (number as usize) < self.marks.len() && self.pages.len() < self.most_written
    }

    /// Tells whether a page of this number can be noted as read.
    #[inline(always)]
    pub fn has_mark_for(&self, number: u64) -> bool
        ensures { MatchBool result (number < self.now.most) (¬ (number < self.now.most)) }
    {
        number < self.marks.len() as u64
    }

    /// Keeps that a page was read, so that it is marked as touched in the memory of all when what is written here is
    /// written back.
    #[inline(always)]
    pub fn note_read(&mut self, number: u32)
        requires { number < self.old.most }
        ensures { NotesRead self.old number self.new }
    {
        if self.marks[number as usize] == 0 {
            keep_read(&mut self.reads, &mut self.marks, number);
        }
    }

    /// Adds a page with these bytes to the written ones, as the last one; returns its place. Unless the page has a
    /// frame of its own, it takes one of those that are lent.
    pub fn add(&mut self, number: u32, bytes: &[u8; 4096], is_alone: bool) -> usize
        requires new { ¬ (IsAmong self.old.pages number) }
        requires room { (number < self.old.most) × (1 ≤ self.old.room) }
        requires frame { is_alone ≡ false → self.old.taken < self.old.lent }
        ensures place { result ≡ length self.old.pages }
        ensures added { self.new ≡ record self.old {
          pages = self.old.pages ++ record { number = number; bytes = bytes.now } ∷ [];
          room = self.old.room - 1;
          taken = self.old.taken + cond is_alone 0 1;
        } }
    {
        let place = self.pages.len();
        self.pages.push_reserved(WrittenPage {
            number,
            bytes: *bytes,
        });
        self.marks[number as usize] = place as u32 + WRITTEN;
        self.taken += u32::from(!is_alone);
        place
    }

    /// Writes these bytes over a written page, from this one on.
    #[inline(always)]
    pub fn write(&mut self, at: usize, offset: usize, given: &[u8])
        requires there { at < length self.old.pages }
        requires inside { offset + length given.now ≤ 4096 }
        ensures { (x : WrittenPage) × (slice_get self.old.pages at ≡ Some x)
            × (self.new ≡ record self.old {
              pages = slice_set self.old.pages at
                  (record x { bytes = overwritten x.bytes offset given.now });
            }) }
    {
        overwrite(&mut self.pages[at].bytes, offset, given);
    }

    /// Grows by `pages` pages of 65536 bytes.
    pub fn grow(&mut self, pages: u32)
        requires { self.old.grown + pages < 2 ^ 32 }
        ensures { self.new ≡ record self.old { grown = self.old.grown + pages } }
    {
        self.grown += pages;
    }

    /// Forgets all that was written and read.
    pub fn clear(&mut self)
        ensures { self.new ≡ record self.old {
          pages = [];
          reads = [];
          grown = 0;
          room = self.old.room + length self.old.pages;
          taken = 0;
        } }
    {
        clear_written(&mut self.marks, &self.pages);
        clear_read(&mut self.marks, &self.reads);
        self.pages.clear();
        self.reads.clear();
        self.grown = 0;
        self.taken = 0;
    }
}
