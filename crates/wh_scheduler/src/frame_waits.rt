//! When threads that run calls would only wake each other, since every call waits for a frame again and again.

// How many turns between two times at which each call waits are few.
const FEW_TURNS: u64 = 31;

// How many times in a row are too many.
const MANY_TIMES: u32 = 8;

/// Counts how often in a row each call waits for a frame after few turns. Where that goes on the owner makes their
/// steps ready itself, as no thread has anything else to do.
#[derive(Drop)]
pub struct FrameWaits {
    // How often in a row.
    times: u32,
    // How many turns were dispatched when it was so last.
    turns: u64,
}

impl FrameWaits {
    /// Returns a count of none.
    pub fn new() -> FrameWaits {
        FrameWaits { times: 0, turns: 0 }
    }

    /// Notes that each call waits for a frame, when `turns` turns were dispatched. Returns whether that goes on too
    /// often.
    pub fn note(&mut self, turns: u64) -> bool {
        if turns == self.turns {
            return false;
        }
        let few = turns.wrapping_sub(self.turns) <= FEW_TURNS;
        self.times = if few { self.times.saturating_add(1) } else { 0 };
        self.turns = turns;
        self.times >= MANY_TIMES
    }
}
