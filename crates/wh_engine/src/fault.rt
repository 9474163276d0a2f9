// Why calls don't run to their ends.

use thiserror::Error;

/// Why a drain stops.
#[derive(Clone, Copy, Debug, PartialEq, Eq, Error)]
pub enum RunFault {
    /// Room was refused.
    #[error("memory")]
    Memory,
    /// A call can go on that should have run.
    #[error("transcript")]
    Transcript,
}
