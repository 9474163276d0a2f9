// Pages that are pinned and frames that are earmarked, of one instance.

ghost use Rattle.std.specs.Prelude.{◌≡◌, ◌↔◌, ℕ, ◌+◌, ◌<◌, ◌≤◌, ◌++◌, [], ◌∷◌, cond, IsTrue, IfSome, IfNone, None, length};
ghost use Rattle.wh_space_model.specs.Frames.{tally, one_if};
ghost use Rattle.wh_space_model.specs.Moves.{has_pins};
ghost use Rattle.wh_space_model.specs.Parts.{kept, kept_by, pinned_by};
ghost use Rattle.wh_space_model.specs.Tickets.{unpinned_page, without};
ghost use Rattle.wh_space.specs.Pinning.{FrameGoes, TakesEarmark, numbers_in, pins_of};

use wh_frames::FramePool;

// Up to two numbers.
#[derive(Clone, Copy)]
pub enum Few {
    Zero,
    One(u32),
    Two(u32, u32),
}

impl Few {
    /// Returns how many they are.
    pub fn len(self) -> u32
        ensures { result ≡ length (numbers_in self) }
    {
        match self {
            Few::Zero => 0,
            Few::One(_) => 1,
            Few::Two(_, _) => 2,
        }
    }

    /// Tells whether this number is among them.
    pub fn has(self, number: u32) -> bool
        ensures { IsTrue result ↔ (1 ≤ tally (one_if number) (numbers_in self)) }
    {
        match self {
            Few::Zero => false,
            Few::One(only) => only == number,
            Few::Two(first, second) => first == number || second == number,
        }
    }
}

/// Returns those of two numbers that are wanted, in this order.
pub fn chosen(first: u32, here: bool, second: u32, there: bool) -> Few
    ensures { numbers_in result ≡ cond here (first ∷ cond there (second ∷ []) [])
        (cond there (second ∷ []) []) }
{
    match (here, there) {
        (true, true) => Few::Two(first, second),
        (true, false) => Few::One(first),
        (false, true) => Few::One(second),
        (false, false) => Few::Zero,
    }
}

/// Returns the numbers without this one.
pub fn leave_out(number: u32, numbers: Few) -> Few
    ensures { numbers_in result ≡ without number (numbers_in numbers) }
{
    match numbers {
        Few::Zero => Few::Zero,
        Few::One(only) => chosen(only, only != number, only, false),
        Few::Two(first, second) => chosen(first, first != number, second, second != number),
    }
}

// Pages of the instance at this place that may neither leave nor be merged, and frames that are earmarked for its next
// step.
#[derive(Clone, Copy)]
pub struct Pinned {
    pub place: usize,
    pub pages: Few,
    pub frames: Few,
}

/// Returns the number of frames that are earmarked for the instance at this place.
pub fn frames_kept(pins: Option<Pinned>, place: usize) -> u32
    ensures { result ≡ length (kept_by (pins_of pins) place) }
{
    match pins {
        Some(pinned) => {
            if pinned.place == place {
                pinned.frames.len()
            } else {
                0
            }
        }
        None => 0,
    }
}

/// Tells whether a page of the instance at this place is pinned.
pub fn has_page_pinned(pins: Option<Pinned>, place: usize, page: u32) -> bool
    ensures { IsTrue result ↔ (1 ≤ tally (one_if page) (pinned_by (pins_of pins) place)) }
{
    match pins {
        Some(pinned) => {
            if pinned.place == place {
                pinned.pages.has(page)
            } else {
                false
            }
        }
        None => false,
    }
}

/// Returns the pinned pages of the instance at this place.
pub fn pages_pinned(pins: Option<Pinned>, place: usize) -> Few
    ensures { numbers_in result ≡ pinned_by (pins_of pins) place }
{
    match pins {
        Some(pinned) => {
            if pinned.place == place {
                pinned.pages
            } else {
                Few::Zero
            }
        }
        None => Few::Zero,
    }
}

/// Unpins a page of the instance at this place.
pub fn unpin_page(pins: &mut Option<Pinned>, place: usize, page: u32)
    ensures { pins_of pins.new ≡ unpinned_page (pins_of pins.old) place page }
{
    if let Some(pinned) = *pins
        && pinned.place == place
    {
        *pins = Some(Pinned {
            pages: leave_out(page, pinned.pages),
            ..pinned
        });
    }
}

/// Takes the last frame that is earmarked for the instance at this place, if one is.
pub fn take_earmark(pins: &mut Option<Pinned>, place: usize) -> Option<u32>
    ensures some { IfSome result (λ frame. TakesEarmark place frame (pins_of pins.old)
        (pins_of pins.new)) }
    ensures none { IfNone result (length (kept_by (pins_of pins.old) place) ≡ 0) }
    ensures same { IfNone result (pins.new ≡ pins.old) }
{
    let Some(pinned) = *pins else {
        return None;
    };
    if pinned.place != place {
        return None;
    }
    match pinned.frames {
        Few::Zero => None,
        Few::One(frame) => {
            *pins = Some(Pinned {
                frames: Few::Zero,
                ..pinned
            });
            Some(frame)
        }
        Few::Two(first, frame) => {
            *pins = Some(Pinned {
                frames: Few::One(first),
                ..pinned
            });
            Some(frame)
        }
    }
}

/// Takes a frame for the instance at this place: the last one that is earmarked for it, or else a free one.
pub fn take_frame(pool: &mut FramePool, pins: &mut Option<Pinned>, place: usize) -> Option<u32>
    ensures some { IfSome result (λ frame.
        FrameGoes place frame pool.old (pins_of pins.old) pool.new (pins_of pins.new)) }
    ensures none { IfNone result
        (length pool.old.free + length (kept_by (pins_of pins.old) place) ≡ 0) }
    ensures pool { IfNone result (pool.new ≡ pool.old) }
    ensures pins { IfNone result (pins.new ≡ pins.old) }
{
    if let Some(frame) = take_earmark(pins, place) {
        return Some(frame);
    }
    let Ok(frame) = pool.take() else {
        return None;
    };
    Some(frame)
}

// Gives frames back that are taken.
fn give_back(pool: &mut FramePool, frames: Few)
    requires once { (f : ℕ) → tally (one_if f) pool.old.free + tally (one_if f) (numbers_in frames)
        ≤ 1 }
    requires there { (f : ℕ) → 1 ≤ tally (one_if f) (numbers_in frames)
        → f < length pool.old.frames }
    ensures { pool.new ≡ record pool.old { free = pool.old.free ++ numbers_in frames } }
{
    match frames {
        Few::Zero => {}
        Few::One(only) => pool.give(only),
        Few::Two(first, second) => {
            pool.give(first);
            pool.give(second);
        }
    }
}

/// Ends the pins and earmarks of the instance at this place: its earmarked frames become free.
pub fn end_pins(pins: &mut Option<Pinned>, pool: &mut FramePool, place: usize)
    requires once { (f : ℕ) → tally (one_if f) pool.old.free
        + tally (one_if f) (kept_by (pins_of pins.old) place) ≤ 1 }
    requires there { (f : ℕ) → 1 ≤ tally (one_if f) (kept_by (pins_of pins.old) place)
        → f < length pool.old.frames }
    ensures pins { pins_of pins.new
        ≡ cond (has_pins (pins_of pins.old) place) None (pins_of pins.old) }
    ensures pool { pool.new
        ≡ record pool.old { free = pool.old.free ++ kept_by (pins_of pins.old) place } }
{
    if let Some(pinned) = *pins
        && pinned.place == place
    {
        give_back(pool, pinned.frames);
        *pins = None;
    }
}

/// Ends all pins and earmarks: the earmarked frames become free.
pub fn end_all_pins(pins: &mut Option<Pinned>, pool: &mut FramePool)
    requires once { (f : ℕ) → tally (one_if f) pool.old.free
        + tally (one_if f) (kept (pins_of pins.old)) ≤ 1 }
    requires there { (f : ℕ) → 1 ≤ tally (one_if f) (kept (pins_of pins.old))
        → f < length pool.old.frames }
    ensures pins { pins.new ≡ None }
    ensures pool { pool.new
        ≡ record pool.old { free = pool.old.free ++ kept (pins_of pins.old) } }
{
    if let Some(pinned) = *pins {
        give_back(pool, pinned.frames);
        *pins = None;
    }
}

/// Takes `count` free frames, at most 2.
pub fn take_frames(pool: &mut FramePool, count: u32) -> Few
    requires few { count ≤ 2 }
    requires free { count ≤ length pool.old.free }
    ensures many { length (numbers_in result) ≡ count }
    ensures frames { pool.new.frames ≡ pool.old.frames }
    ensures free { pool.old.free ≡ pool.new.free ++ numbers_in result }
{
    if count == 0 {
        return Few::Zero;
    }
    let Ok(last) = pool.take() else {
        unreachable!()
    };
    if count == 1 {
        return Few::One(last);
    }
    let Ok(first) = pool.take() else {
        unreachable!()
    };
    Few::Two(first, last)
}
