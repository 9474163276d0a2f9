//! What the owner of an instance gives it: as a line of a script or a caller of a library says it, and as an admission takes it.
#![tactic(auto)]

/// How much of a host's memory an instance may have.
#[derive(Clone, Copy, Debug, PartialEq, Eq)]
pub struct Quota {
    /// Its shares of memory, against those of the other instances; 1 to 1000000 are admitted.
    pub shares: u64,
    /// How many frames of 4096 bytes it may keep in any case; 2 to `max_frames` are admitted.
    pub min_frames: u64,
    /// To how many frames of 4096 bytes its memory may come; up to 65536 are admitted. 16 of them are one page of 65536
    /// bytes, and what is left over gives none.
    pub max_frames: u64,
}

/// What the owner of an instance gives it.
#[derive(Debug, Drop)]
pub struct Params {
    /// How much memory it may have.
    pub quota: Quota,
    /// How many charges its start may take.
    pub fuel: u64,
    /// The value of the host's global `base`.
    pub base: u32,
    /// The value of the host's global `salt`.
    pub salt: u64,
    /// The words that the host's function `input` reads.
    pub inputs: Vec<u64>,
}
