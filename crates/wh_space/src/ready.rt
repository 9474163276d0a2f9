// Whether a step can be taken at once.

ghost use Rattle.std.specs.Prelude.{◌≡◌, ◌↔◌, ◌+◌, ◌^◌, ◌<◌, ◌≤◌, [], ◌∷◌, Some, true, IsTrue, MatchBool, length, get_or};
ghost use Rattle.wh_space_model.specs.Ready.{Ready, frames_for, may_take};
ghost use Rattle.wh_space.specs.Steps.{CanStep, SharesAlone, frame_shared};

use crate::memory::Memory;
use crate::pins::frames_kept;
use wh_model::Need;
use wh_space_model::Page;

/// Returns the frame that a page shares, if it shares one.
pub fn shared_under(page: Page) -> Option<u32>
    ensures { result ≡ frame_shared page }
{
    match page {
        Page::Untouched => None,
        Page::Private(_) => None,
        Page::Shared(frame) => Some(frame),
        Page::Leaving(_) => None,
        Page::LeavingShared(frame) => Some(frame),
        Page::Coming(_) => None,
        Page::Swapped(_) => None,
    }
}

impl Memory {
    // How many frames a write to this page wants.
    pub(crate) fn wanted(&self, place: usize, number: u32) -> u32
        requires { number < length (get_or self.now.tables place []) }
        ensures count { result ≡ frames_for self.now place (number ∷ []) }
        ensures few { result ≤ 1 }
    {
        let page = self.tables.page(place, number);
        if let Some(frame) = shared_under(page) {
            if self.sharers_of(frame) > 1 {
                return 1;
            }
            return 0;
        }
        if let Page::Untouched = page {
            return 1;
        }
        0
    }

    // Whether two pages share a frame with nobody else.
    fn share_alone(&self, place: usize, number: u32) -> bool
        requires page { number + 1 < length (get_or self.now.tables place []) }
        requires few { number + 1 < 2 ^ 32 }
        ensures { IsTrue result ↔ SharesAlone self.now place number (number + 1) }
    {
        let Some(frame) = shared_under(self.tables.page(place, number)) else {
            return false;
        };
        let Some(other) = shared_under(self.tables.page(place, number + 1)) else {
            return false;
        };
        if frame != other {
            return false;
        }
        self.sharers_of(frame) == 2
    }

    // How many frames a write to this page and the next wants.
    pub(crate) fn wanted_by_both(&self, place: usize, number: u32) -> u32
        requires page { number + 1 < length (get_or self.now.tables place []) }
        requires few { number + 1 < 2 ^ 32 }
        ensures { result ≡ frames_for self.now place (number ∷ (number + 1) ∷ []) }
    {
        let _ = &self.tax;
        let each = self.wanted(place, number) + self.wanted(place, number + 1);
        if self.share_alone(place, number) {
            each - 1
        } else {
            each
        }
    }

    // How many frames the instance may take: the free ones, and those that are earmarked for it.
    pub(crate) fn frames_for_it(&self, place: usize) -> u64
        ensures { result ≡ may_take self.now place }
    {
        u64::from(self.pool.free()) + u64::from(frames_kept(self.pins, place))
    }

    // Whether a step on one page can be taken.
    fn can_step(&self, place: usize, number: u32, writes: bool) -> bool
        requires { number < length (get_or self.now.tables place []) }
        ensures { MatchBool result (CanStep self.now place writes (number ∷ []))
            (¬ CanStep self.now place writes (number ∷ [])) }
    {
        let _ = &self.tax;
        self.is_at_hand(place, number)
            && (!writes || u64::from(self.wanted(place, number)) <= self.frames_for_it(place))
    }

    // Whether a step on this page and the next can be taken.
    fn can_step_over(&self, place: usize, number: u32, writes: bool) -> bool
        requires page { number + 1 < length (get_or self.now.tables place []) }
        requires few { number + 1 < 2 ^ 32 }
        ensures { MatchBool result (CanStep self.now place writes (number ∷ (number + 1) ∷ []))
            (¬ CanStep self.now place writes (number ∷ (number + 1) ∷ [])) }
    {
        let _ = &self.tax;
        self.is_at_hand(place, number)
            && self.is_at_hand(place, number + 1)
            && (!writes
                || u64::from(self.wanted_by_both(place, number)) <= self.frames_for_it(place))
    }

    /// Tells whether the instance at this place can take a step that reads or writes these bytes at once: their pages
    /// are in its memory and have frames, or have never been written and need none, and there are frames for what it
    /// writes.
    pub fn is_ready(&self, place: usize, need: Need) -> bool
        ensures { MatchBool result (Ready self.now place need) (¬ Ready self.now place need) }
    {
        if need.length == 0 {
            return true;
        }
        let pages = u64::from(self.tables.len_at(place));
        let first = need.at / 4096;
        if need.length > 4096 - (need.at % 4096) as usize {
            if first + 1 >= pages {
                return false;
            }
            return self.can_step_over(place, first as u32, need.writes);
        }
        if first >= pages {
            return false;
        }
        self.can_step(place, first as u32, need.writes)
    }
}
