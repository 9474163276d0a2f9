//! Why an instance isn't admitted.

ghost use Rattle.std.specs.Prelude.{◌≡◌};
ghost use Rattle.wh_admit.specs.declared.error.AdmitError.TheVariants.{Memory};
ghost use Rattle.wh_admit.specs.AdmitErrors.{admit_number, begin_error};

use std::alloc::AllocError;
use thiserror::Error;
use wh_initial::InstantiateError;

/// Why an instance isn't admitted.
#[derive(Clone, Copy, Debug, PartialEq, Eq, Error)]
pub enum AdmitError {
    /// No module has this number.
    #[error("no module has this number")]
    NoModule,
    /// The shares aren't 1 to 1000000.
    #[error("the shares aren't 1 to 1000000")]
    Shares,
    /// The least number of frames is below 2 or above the greatest, or the greatest is above 65536.
    #[error("the numbers of frames aren't 2 to 65536, the least before the greatest")]
    MinMax,
    /// Fewer frames are left than the least number.
    #[error("too few frames are left")]
    Frames,
    /// Fewer slots are left than the instance may have pages beyond its least number of frames, and one more.
    #[error("too few slots are left")]
    Swap,
    /// 4096 instances are live.
    #[error("4096 instances are live")]
    Instances,
    /// The first size of the module's memory is above the greatest number of frames.
    #[error("the memory begins with more pages than it may have")]
    MemoryMin,
    /// A segment passes the end of the table or of the memory.
    #[error("a segment passes the end of the table or of the memory")]
    SegmentBounds,
    /// A growth of memory was refused.
    #[error("a growth of memory was refused")]
    Memory,
}

impl AdmitError {
    /// Returns the number by which replies name the fault, after an A: 1 to 9. An admission is checked for faults in
    /// this order.
    pub fn number(self) -> u8
        ensures { result ≡ admit_number self }
    {
        match self {
            AdmitError::NoModule => 1,
            AdmitError::Shares => 2,
            AdmitError::MinMax => 3,
            AdmitError::Frames => 4,
            AdmitError::Swap => 5,
            AdmitError::Instances => 6,
            AdmitError::MemoryMin => 7,
            AdmitError::SegmentBounds => 8,
            AdmitError::Memory => 9,
        }
    }
}

// What instantiation refuses.
impl From<InstantiateError> for AdmitError {
    ghost from_gives = { λ refused error. error ≡ begin_error refused };

    fn from(refused: InstantiateError) -> AdmitError {
        match refused {
            InstantiateError::MemoryMin => AdmitError::MemoryMin,
            InstantiateError::SegmentBounds => AdmitError::SegmentBounds,
            InstantiateError::Memory => AdmitError::Memory,
        }
    }
}

// A growth that was refused.
impl From<AllocError> for AdmitError {
    ghost from_gives = { λ refused error. error ≡ Memory };

    fn from(_refused: AllocError) -> AdmitError {
        AdmitError::Memory
    }
}
