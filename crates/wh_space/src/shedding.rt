// A sharer of a frame that leaves, so that a write to the frame needs no copy.

ghost use Rattle.std.specs.Prelude.{◌≡◌, ◌+◌, ◌*◌, ◌<◌, ◌≤◌, ℕ, [], true, MatchBool, MatchOption, length, get_or};
ghost use Rattle.wh_space_model.specs.Frames.{one_if, tally};
ghost use Rattle.wh_space_model.specs.Charges.{IsOnFrame, frame_charge};
ghost use Rattle.wh_space_model.specs.Claims.{IsBeside, IsShed, NobodyIsShed};
ghost use Rattle.wh_space_model.specs.Ready.{among, pages_of_need};
ghost use Rattle.wh_space_model.specs.States.{shares};
ghost use Rattle.wh_space_model.specs.Tickets.{WaitsForBytes};
ghost use Rattle.wh_space.specs.Shedding.{IsLastBeside, IsNoneBeside, IsShedOf, ShedsNone};

use crate::memory::Memory;
use crate::ready::shared_under;
use wh_model::Need;
use wh_space_model::Page;
use wh_tables::PageId;

// Whether a page is one of those of a step.
fn is_of_step(need: Need, page: u32) -> bool
    requires { need.length ≤ 4096 }
    ensures { MatchBool result (1 ≤ tally (one_if page) (pages_of_need need))
        (tally (one_if page) (pages_of_need need) ≡ 0) }
{
    if need.length == 0 {
        return false;
    }
    let first = need.at / 4096;
    if need.length > 4096 - (need.at % 4096) as usize {
        return u64::from(page) == first || u64::from(page) == first + 1;
    }
    u64::from(page) == first
}

// 1 where the page shares this frame.
fn one_if_sharing(page: Page, frame: u32) -> u32
    ensures is { result ≡ shares frame page }
    ensures one { result ≤ 1 }
{
    match shared_under(page) {
        Some(its) => u32::from(its == frame),
        None => 0,
    }
}

impl Memory {
    // How many pages of these bytes share a frame.
    fn sharing_among(&self, place: usize, need: Need, frame: u32) -> u32
        requires within { need.at + need.length ≤ 4096 * length (get_or self.now.tables place []) }
        requires few { need.length ≤ 4096 }
        ensures { result ≡ among (shares frame) self.now place (pages_of_need need) }
    {
        let _ = &self.tax;
        if need.length == 0 {
            return 0;
        }
        let _ = self.fits(place, need.at, need.length);
        let first = (need.at / 4096) as u32;
        let here = one_if_sharing(self.tables.page(place, first), frame);
        if need.length > 4096 - (need.at % 4096) as usize {
            let there = one_if_sharing(self.tables.page(place, first + 1), frame);
            return here + there;
        }
        here
    }

    // Whether a frame is charged to the instance at a place.
    fn is_charged_with(&self, place: usize, frame: u32) -> bool
        requires { frame < length self.now.pool.frames }
        ensures { MatchBool result (frame_charge self.now place frame ≡ 1)
            (frame_charge self.now place frame ≡ 0) }
    {
        let _ = &self.tax;
        match self.tables.first_on(frame) {
            Some(first) => first.place as usize == place,
            None => false,
        }
    }

    // Whether a page on a frame shares it, is none of this step of the instance at this place, and can leave.
    fn is_beside(&self, place: usize, need: Need, frame: u32, id: PageId) -> bool
        requires few { need.length ≤ 4096 }
        requires on { IsOnFrame self.now.tables id.place id.page frame }
        ensures { MatchBool result (IsBeside self.now place need frame id.place id.page)
            (¬ IsBeside self.now place need frame id.place id.page) }
    {
        let _ = &self.tax;
        if one_if_sharing(self.tables.page(id.place as usize, id.page), frame) == 0 {
            return false;
        }
        if id.place as usize == place && is_of_step(need, id.page) {
            return false;
        }
        self.can_leave(id.place as usize, id.page)
    }

    // The last page on a frame, by the numbers of instances and then of pages, for which `is_beside` holds.
    fn last_beside(&self, place: usize, need: Need, frame: u32) -> Option<PageId>
        requires few { need.length ≤ 4096 }
        requires frame { frame < length self.now.pool.frames }
        ensures { MatchOption result (IsNoneBeside self.now place need frame)
            (λ id. IsLastBeside self.now place need frame id.place id.page) }
    {
        let _ = &self.tax;
        let mut at = self.tables.last_on(frame);
        while let Some(id) = at {
            if self.is_beside(place, need, frame, id) {
                return Some(id);
            }
            at = self.tables.prior_on(frame, id);
        }
        None
    }

    // The page that is shed for this page of a step that writes it: of a frame that is charged to the instance and has
    // more sharers than the step writes of it.
    fn shed_for(&self, place: usize, need: Need, number: u32) -> Option<PageId>
        requires within { need.at + need.length ≤ 4096 * length (get_or self.now.tables place []) }
        requires few { need.length ≤ 4096 }
        requires writes { need.writes ≡ true }
        requires page { 1 ≤ tally (one_if number) (pages_of_need need) }
        requires there { number < length (get_or self.now.tables place []) }
        ensures { MatchOption result (ShedsNone self.now place need number)
            (λ id. IsShedOf self.now place need number id.place id.page) }
    {
        let _ = &self.tax;
        let Some(frame) = shared_under(self.tables.page(place, number)) else {
            return None;
        };
        if !self.is_charged_with(place, frame) {
            return None;
        }
        if self.sharers_of(frame) <= self.sharing_among(place, need, frame) {
            return None;
        }
        self.last_beside(place, need, frame)
    }

    // The same for the first page of these bytes for which there is one.
    fn shed_among(&self, place: usize, need: Need) -> Option<PageId>
        requires within { need.at + need.length ≤ 4096 * length (get_or self.now.tables place []) }
        requires few { need.length ≤ 4096 }
        ensures { MatchOption result (NobodyIsShed self.now place need)
            (λ id. IsShed self.now place need id.place id.page) }
    {
        let _ = &self.tax;
        if !need.writes || need.length == 0 {
            return None;
        }
        let _ = self.fits(place, need.at, need.length);
        let first = (need.at / 4096) as u32;
        if let Some(id) = self.shed_for(place, need, first) {
            return Some(id);
        }
        if need.length > 4096 - (need.at % 4096) as usize {
            return self.shed_for(place, need, first + 1);
        }
        None
    }

    /// Returns the page to evict for the step on which the instance at this place is blocked, if nobody pays: where the
    /// step writes a page whose frame is charged to the instance and has more sharers than the step has pages on it,
    /// the greatest other sharer, by numbers of instances and then of pages, that can leave; for the lower such page of
    /// the step first. Returns `None` if there is none.
    pub fn shed_page(&self, place: usize, need: Need) -> Option<PageId>
        requires { WaitsForBytes self.now place need }
        ensures { MatchOption result (NobodyIsShed self.now place need)
            (λ id. IsShed self.now place need id.place id.page) }
    {
        let _ = &self.tax;
        self.shed_among(place, need)
    }
}
