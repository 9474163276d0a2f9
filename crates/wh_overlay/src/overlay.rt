// The memory of an instance while others compute.

ghost use Rattle.std.specs.Prelude.{◌≡◌, ◌+◌, ◌*◌, ◌^◌, ◌<◌, ◌≤◌, [], IsTrue, IsFalse, IfSome, IfNone, MatchBool, length, min, replicate};
ghost use Rattle.wh_space_model.specs.Parts.{view};
ghost use Rattle.wh_space_model.specs.Ready.{IsAtHand};
ghost use Rattle.wh_space_model.specs.States.{page_at};
ghost use Rattle.wh_model.specs.Execution.Store.{bytes_at, written};
ghost use Rattle.wh_space.specs.Steps.{page_limit};
ghost use Rattle.wh_overlay.specs.LaidPages.{IsAmong, IsWrittenAt, grown_by};
ghost use Rattle.wh_overlay.specs.Over.{AreAtHand, CanRead, CanWrite, HasFrameFor, HasGrown, IsOverSame, IsWholeOver, NotesOver, frames_lacking, sees};

use crate::overlay_pages::OverlayPages;
use std::marker::Model;
use wh_space::Memory;

/// The memory of the instance at one place, of which others read at the same time: what it writes goes to an overlay.
///
/// It reads and writes bytes that are on one page. A page that was read is noted, if there is a mark for it. A page is
/// copied to the overlay when it is written for the first time, if there is room and it has a frame of its own, or it
/// is resident or a page of zeros and a frame is lent for it. All else waits until what was written is written back.
#[derive(Drop)]
pub struct Overlay<'a> {
    lower: &'a Memory,
    place: usize,
    page_limit: u32,
    upper: OverlayPages,
}

impl<'a> Model for Overlay<'a> {
    ghost use Rattle.wh_overlay.specs.Over.{IsOver, OverlayState as State};

    ghost Value = { State };

    ghost view = { λ o. record {
      lower = o.lower.now;
      place = o.place;
      page_limit = o.page_limit;
      upper = o.upper;
    } };

    ghost invariant = { λ o. IsOver o.lower.now o.place o.upper };
}

// Makes all bytes 0.
fn clear(into: &mut [u8])
    ensures { into.new ≡ replicate (length into.old) 0 }
{
    into.fill(0);
}

// Copies bytes of a page, from this one on.
#[inline(always)]
fn copy_from(bytes: &[u8; 4096], offset: usize, into: &mut [u8])
    requires { offset + length into.old ≤ 4096 }
    ensures { into.new ≡ bytes_at bytes.now offset (length into.old) }
{
    into.copy_from_slice(&bytes[offset..offset + into.len()]);
}

impl<'a> Overlay<'a> {
    /// Creates an overlay on the memory of the instance at this place, with nothing written, that may grow to
    /// `page_limit` pages of 65536 bytes.
    pub fn new(lower: &'a Memory, place: usize, page_limit: u32, upper: OverlayPages) -> Overlay<'a>
        requires pages { upper.pages ≡ [] }
        requires reads { upper.reads ≡ [] }
        requires grown { upper.grown ≡ 0 }
        requires taken { upper.taken ≡ 0 }
        ensures { result ≡ record {
          lower = lower.now;
          place = place;
          page_limit = page_limit;
          upper = upper;
        } }
    {
        lower.invariant();
        let _ = lower.pages_at(place);
        Overlay {
            lower,
            place,
            page_limit,
            upper,
        }
    }

    /// Returns what was written in the overlay. Each page of it is resident in the memory below, or a page of zeros
    /// there, and it takes no more frames than are lent.
    pub fn into_upper(self) -> OverlayPages
        ensures upper { result ≡ self.entry.upper }
        ensures hand { AreAtHand self.entry.lower self.entry.place result.pages }
        ensures frames { frames_lacking self.entry.lower self.entry.place result.pages ≤ result.lent }
        ensures limited { HasGrown self.entry.lower self.entry.place result }
        ensures over { IsWholeOver self.entry.lower self.entry.place result }
    {
        let Overlay {
            lower: _,
            place: _,
            page_limit: _,
            upper,
        } = self;
        upper.invariant();
        upper
    }

    // How many bytes the memory has.
    fn bytes(&self) -> u64
        ensures long { length (sees self.now) ≡ result }
        ensures few { result < 2 ^ 44 }
    {
        self.upper.invariant();
        self.lower.invariant();
        let below = 65536 * u64::from(self.lower.size(self.place));
        below + 65536 * u64::from(self.upper.grown())
    }

    // How many pages of 65536 bytes it has.
    pub(crate) fn pages(&self) -> u32
        ensures { length (sees self.now) ≡ result * 65536 }
    {
        self.upper.invariant();
        self.lower.invariant();
        self.lower.size(self.place) + self.upper.grown()
    }

    // How many pages of 65536 bytes it may have at most.
    pub(crate) fn most_pages(&self) -> u32
        ensures most { result
            ≡ min self.now.page_limit (page_limit self.now.lower self.now.place) }
        ensures few { result < 2 ^ 28 }
    {
        self.page_limit.min(self.lower.limit(self.place))
    }

    // Adds `pages` pages of 65536 zeros.
    pub(crate) fn grow_by(&mut self, pages: u32)
        requires few { length (sees self.old) + pages * 65536 < 2 ^ 44 }
        requires limit { length (sees self.old) + pages * 65536
            ≤ page_limit self.old.lower self.old.place * 65536 }
        ensures grown { sees self.new ≡ grown_by (sees self.old) pages }
        ensures lower { IsOverSame self.old self.new }
    {
        self.upper.invariant();
        self.lower.invariant();
        self.upper.grow(pages);
        self.upper.invariant();
    }

    // Whether a page of this number can be read.
    pub(crate) fn can_read(&self, number: u64) -> bool
        ensures { MatchBool result (CanRead self.now.lower self.now.place self.now.upper number)
            (¬ (CanRead self.now.lower self.now.place self.now.upper number)) }
    {
        let below = u64::from(self.lower.pages_at(self.place));
        if number >= below {
            return number < below + 16 * u64::from(self.upper.grown())
                && self.upper.has_mark_for(number);
        }
        if let Some(_) = self.upper.find(number as u32) {
            return true;
        }
        self.upper.has_mark_for(number) && self.lower.peek(self.place, number as u32, 0, &mut [])
    }

    // Whether a page of this number can be written.
    pub(crate) fn can_write(&self, number: u64) -> bool
        ensures { MatchBool result (CanWrite self.now.lower self.now.place self.now.upper number)
            (¬ (CanWrite self.now.lower self.now.place self.now.upper number)) }
    {
        if number >= u64::from(self.lower.pages_at(self.place)) {
            return false;
        }
        let number = number as u32;
        if let Some(_) = self.upper.find(number) {
            return true;
        }
        if !self.upper.has_room_for(number) {
            return false;
        }
        if let Some(_) = self.lower.private_page(self.place, number) {
            return true;
        }
        self.upper.has_frame() && self.lower.peek(self.place, number, 0, &mut [])
    }

    // Whether `count` bytes from a place on are in the memory.
    #[inline(always)]
    pub(crate) fn has(&self, at: u64, count: usize) -> bool
        ensures within { MatchBool result (at + count ≤ length (sees self.now))
            (length (sees self.now) < at + count) }
        ensures few { IsTrue result → at + count < 2 ^ 44 }
    {
        at.saturating_add(count as u64) <= self.bytes()
    }

    // Reads bytes of a page, where that can be read, and notes that; else the answer is false, and nothing is done.
    #[inline(always)]
    pub(crate) fn read(&mut self, number: u32, offset: usize, into: &mut [u8]) -> bool
        requires some { 1 ≤ length into.old }
        requires inside { offset + length into.old ≤ 4096 }
        requires within { 4096 * number + offset + length into.old ≤ length (sees self.old) }
        ensures hand { MatchBool result (CanRead self.old.lower self.old.place self.old.upper number)
            (¬ (CanRead self.old.lower self.old.place self.old.upper number)) }
        ensures read { IsTrue result → into.new
            ≡ bytes_at (sees self.old) (4096 * number + offset) (length into.old) }
        ensures left { IsFalse result → into.new ≡ into.old }
        ensures noted { IsTrue result → NotesOver self.old number self.new }
        ensures same { IsFalse result → self.new ≡ self.old }
        ensures sees { sees self.new ≡ sees self.old }
        ensures lower { IsOverSame self.old self.new }
    {
        self.upper.invariant();
        self.lower.invariant();
        if let Some(at) = self.upper.find(number) {
            copy_from(self.upper.bytes(at), offset, into);
            return true;
        }
        if !self.upper.has_mark_for(u64::from(number)) {
            return false;
        }
        if number >= self.lower.pages_at(self.place) {
            clear(into);
            self.upper.note_read(number);
            self.upper.invariant();
            return true;
        }
        if !self.lower.peek(self.place, number, offset, into) {
            return false;
        }
        self.upper.note_read(number);
        self.upper.invariant();
        true
    }

    // Copies a page that has no frame of its own to the overlay, if it is resident or a page of zeros and a frame is
    // lent for it; returns its place among the written ones; else none, and nothing is done.
    #[inline(never)]
    fn copy(&mut self, number: u32) -> Option<usize>
        requires new { ¬ (IsAmong self.old.upper.pages number) }
        requires room { (number < self.old.upper.most) × (1 ≤ self.old.upper.room) }
        ensures some { IfSome result (λ at. IsWrittenAt self.new.upper.pages number at) }
        ensures can { IfSome result (λ _. HasFrameFor self.old.lower self.old.place self.old.upper number) }
        ensures sees { sees self.new ≡ sees self.old }
        ensures lower { IsOverSame self.old self.new }
        ensures none { IfNone result ((self.new ≡ self.old)
            × (¬ (IsAtHand (page_at self.old.lower.tables self.old.place number) × (self.old.upper.taken < self.old.upper.lent)))) }
    {
        self.upper.invariant();
        self.lower.invariant();
        let mut bytes = [0; 4096];
        if !self.upper.has_frame() || !self.lower.peek(self.place, number, 0, &mut bytes) {
            return None;
        }
        let at = self.upper.add(number, &bytes, false);
        self.upper.invariant();
        Some(at)
    }

    // The place of a page among the written ones, where it can be written; else none, and nothing is done.
    fn own(&mut self, number: u32) -> Option<usize>
        ensures some { IfSome result (λ at. IsWrittenAt self.new.upper.pages number at) }
        ensures can { IfSome result (λ _.
            CanWrite self.old.lower self.old.place self.old.upper number) }
        ensures sees { sees self.new ≡ sees self.old }
        ensures lower { IsOverSame self.old self.new }
        ensures none { IfNone result ((self.new ≡ self.old)
            × (¬ (CanWrite self.old.lower self.old.place self.old.upper number))) }
    {
        self.upper.invariant();
        self.lower.invariant();
        if let Some(at) = self.upper.find(number) {
            return Some(at);
        }
        if !self.upper.has_room_for(number) {
            return None;
        }
        let Some(bytes) = self.lower.private_page(self.place, number) else {
            return self.copy(number);
        };
        let at = self.upper.add(number, bytes, true);
        self.upper.invariant();
        Some(at)
    }

    // Writes bytes to a page, where that can be written; else the answer is false, and nothing is done.
    #[inline(always)]
    pub(crate) fn write(&mut self, number: u32, offset: usize, given: &[u8]) -> bool
        requires inside { offset + length given.now ≤ 4096 }
        ensures hand { MatchBool result (CanWrite self.old.lower self.old.place self.old.upper number)
            (¬ (CanWrite self.old.lower self.old.place self.old.upper number)) }
        ensures wrote { IsTrue result → sees self.new
            ≡ written (sees self.old) (4096 * number + offset) given.now }
        ensures lower { IsOverSame self.old self.new }
        ensures left { IsFalse result → self.new ≡ self.old }
    {
        let Some(at) = self.own(number) else {
            return false;
        };
        self.upper.invariant();
        self.lower.invariant();
        self.upper.write(at, offset, given);
        self.upper.invariant();
        true
    }
}
