//! What the owner of an instance gives it.

/// What the owner of an instance gives it.
#[derive(Drop)]
pub struct Parameters {
    /// The value of the host's global `base`.
    pub base: u32,
    /// The value of the host's global `salt`.
    pub salt: u64,
    /// The words that the host's function `input` reads.
    pub inputs: Vec<u64>,
    /// How many pages of 65536 bytes its memory may have at most.
    pub page_limit: u32,
}
