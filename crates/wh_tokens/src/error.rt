//! Why a file of tokens isn't taken.

use thiserror::Error;

/// Why a file of tokens isn't taken. Lines count from 1.
#[derive(Clone, Copy, Debug, PartialEq, Eq, Error)]
pub enum GrantsError {
    /// The line at this number is the first that spells no grant.
    #[error("line {0} is no grant")]
    Line(usize),
    /// The line at this number is the first whose digest stands in a line before.
    #[error("line {0} has a digest that was there before")]
    Twice(usize),
    /// A growth of memory was refused.
    #[error("a growth of memory was refused")]
    Memory,
}
