//! The pool of frames, each of 4096 bytes, on which all linear memories lie.
#![tactic(auto)]

ghost use Rattle.std.specs.Prelude.{◌≡◌};
ghost use Rattle.wh_frames.specs.FrameFaults.{frame_number};

use thiserror::Error;

mod pool;

pub use pool::FramePool;

/// Why there is no frame.
#[derive(Clone, Copy, Debug, PartialEq, Eq, Error)]
pub enum FrameError {
    /// No frame is free.
    #[error("no frame is free")]
    NoFrame,
    /// A growth of memory was refused.
    #[error("a growth of memory was refused")]
    Memory,
}

impl FrameError {
    /// Returns the number by which replies name the fault, 1 or 2.
    pub fn number(self) -> u8
        ensures { result ≡ frame_number self }
    {
        match self {
            FrameError::NoFrame => 1,
            FrameError::Memory => 2,
        }
    }
}
