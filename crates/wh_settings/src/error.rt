//! Why a document has no settings.

use thiserror::Error;

/// Why a document has no settings.
#[derive(Clone, Copy, Debug, PartialEq, Eq, Error)]
pub enum SettingsError {
    /// It is no TOML, has a key that isn't known, or a value of another type or out of its range.
    #[error("the document spells no settings")]
    Invalid,
    /// A growth of memory was refused.
    #[error("a growth of memory was refused")]
    Memory,
}
