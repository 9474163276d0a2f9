//! What room a host has left.

/// What room a host has left for one more instance.
#[derive(Clone, Copy, Debug, PartialEq, Eq)]
pub struct Room {
    /// How many of its frames are left by the minima of all who have a place.
    pub frames: u64,
    /// How many of its slots are left by the spreads, `max - min + 1`, of all who have a place.
    pub slots: u64,
    /// How many instances are live.
    pub live: usize,
}
