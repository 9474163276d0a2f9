//! Why a stream has no frame to come, or a frame can't be taken.

use std::io::Error;
use thiserror::Error;

/// Why the next frame can't be read.
#[derive(Debug, Drop, Error)]
pub enum StreamFault {
    /// There is no kind of this number.
    #[error("no frame is of kind {0}")]
    UnknownKind(u8),
    /// The frame carries so many bytes, which are more than `LONGEST_FRAME`.
    #[error("a frame carries at most 65536 bytes, and not {0}")]
    TooLong(u32),
    /// The stream has ended amid a frame.
    #[error("the stream ended amid a frame")]
    CutOff,
    /// The memory for what the frame carries was refused.
    #[error("no memory for a frame")]
    Memory,
    /// A read failed.
    #[error("the stream can't be read: {0}")]
    Read(Error),
}

/// Why a frame can't be taken.
#[derive(Clone, Copy, Debug, PartialEq, Eq, Error)]
pub enum TakeFault {
    /// The connection is open already.
    #[error("a connection was opened twice")]
    OpenedTwice,
    /// The memory for what is to be sent was refused.
    #[error("no memory for what is to be sent")]
    Memory,
}
