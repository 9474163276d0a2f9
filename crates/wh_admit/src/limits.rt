//! Limits of what a host admits.

/// The most shares of an instance.
pub const MOST_SHARES: u64 = 1_000_000;

/// The least number of frames that an instance may keep in any case: a step touches two pages at most.
pub const LEAST_FRAMES: u64 = 2;

/// The most frames of an instance: those of a memory of 4096 pages of 65536 bytes.
pub const MOST_FRAMES: u64 = 65536;

/// How many frames are one page of 65536 bytes.
pub const FRAMES_OF_PAGE: u64 = 16;

/// How many instances may be live.
pub const MOST_INSTANCES: usize = 4096;
