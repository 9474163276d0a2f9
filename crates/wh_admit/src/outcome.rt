//! What is handed out.

use wh_initial::Instantiated;
use wh_machine::Machine;

/// A quota that is admitted.
#[derive(Clone, Copy, Debug, PartialEq, Eq)]
pub struct AdmittedQuota {
    /// Shares of memory, 1 to 1000000.
    pub shares: u32,
    /// How many frames of 4096 bytes an instance may keep in any case, 2 to `max_frames`.
    pub min_frames: u32,
    /// To how many frames of 4096 bytes its memory may come, at most 65536.
    pub max_frames: u32,
}

/// What an instance that is admitted begins with. All memory that it will ever need is reserved in it, but for its page
/// table and its place among the instances.
#[derive(Drop)]
pub struct Admitted {
    /// Its store, the sizes of its linear memory, and where its data segments belong.
    pub begun: Instantiated,
    /// The machine of its calls, which runs none.
    pub machine: Machine,
    /// Its shares of memory, 1 to 1000000.
    pub shares: u32,
    /// How many frames of 4096 bytes it may keep in any case, 2 to `max`.
    pub min: u32,
    /// To how many frames of 4096 bytes its memory may come, at most 65536.
    pub max: u32,
    /// How many charges its start may take.
    pub fuel: u64,
}
