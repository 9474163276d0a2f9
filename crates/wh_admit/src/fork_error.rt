//! Why an instance isn't copied.

use crate::error::AdmitError;
use thiserror::Error;

/// Why an instance isn't copied.
#[derive(Clone, Copy, Debug, PartialEq, Eq, Error)]
pub enum ForkError {
    /// No instance of this number lies at this place.
    #[error("no such instance is there")]
    NoInstance,
    /// A call of it is open.
    #[error("a call of it is open")]
    CallOpen,
    /// Its start has trapped or was cancelled.
    #[error("its start has failed")]
    StartFailed,
    /// An instance with this quota isn't admitted.
    #[error("{0}")]
    NotAdmitted(AdmitError),
    /// With this quota the memory of the copy could grow to fewer pages or to more than that of the instance may; or it
    /// has more pages of 4096 bytes than the quota's `max_frames`.
    #[error("the memory of the copy could not grow just as far")]
    OtherLimit,
    /// A page of it is in swap, on its way to swap or back, or leaving.
    #[error("a page of it is in swap or on its way")]
    PageAway,
    /// A growth of memory was refused.
    #[error("a growth of memory was refused")]
    Memory,
}
