//! Why a module can't be linked.

ghost use Rattle.std.specs.Prelude.{◌≡◌};
ghost use Rattle.wh_imports.specs.declared.error.LinkError.TheVariants.{Memory};

use std::alloc::AllocFailed;
use thiserror::Error;
use wh_model::ImportFault;

/// Why a module can't be linked.
#[derive(Clone, Copy, Debug, PartialEq, Eq, Error)]
pub enum LinkError {
    /// The first import without an item of the host: why it has none, and its place among the imports.
    #[error("import {1}: {0}")]
    NoItem(ImportFault, usize),
    /// A growth of memory was refused.
    #[error("a growth of memory was refused")]
    Memory,
}

// A growth that was refused.
impl<T: Drop> From<AllocFailed<T>> for LinkError {
    ghost from_gives = { λ failed error. error ≡ Memory };

    fn from(_failed: AllocFailed<T>) -> LinkError {
        LinkError::Memory
    }
}
