//! Why a module has no instance.

ghost use Rattle.std.specs.Prelude.{◌≡◌};
ghost use Rattle.wh_initial.specs.declared.error.InstantiateError.TheVariants.{Memory};

use std::alloc::{AllocError, AllocFailed};
use thiserror::Error;

/// Why a module has no instance with what its owner gives.
#[derive(Clone, Copy, Debug, PartialEq, Eq, Error)]
pub enum InstantiateError {
    /// The first size of the memory is above the page limit.
    #[error("the memory begins with more pages than it may have")]
    MemoryMin,
    /// A segment passes the end of the table or of the memory.
    #[error("a segment passes the end of the table or of the memory")]
    SegmentBounds,
    /// A growth of memory was refused.
    #[error("a growth of memory was refused")]
    Memory,
}

// A growth that was refused.
impl<T: Drop> From<AllocFailed<T>> for InstantiateError {
    ghost from_gives = { λ failed error. error ≡ Memory };

    fn from(_failed: AllocFailed<T>) -> InstantiateError {
        InstantiateError::Memory
    }
}

impl From<AllocError> for InstantiateError {
    ghost from_gives = { λ failed error. error ≡ Memory };

    fn from(_failed: AllocError) -> InstantiateError {
        InstantiateError::Memory
    }
}
