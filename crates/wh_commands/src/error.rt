//! Why no command is read from a line.

use thiserror::Error;

/// Why no command is read from a line.
#[derive(Clone, Copy, Debug, PartialEq, Eq, Error)]
pub enum ParseError {
    /// The line holds a byte above 127, or has not the shape of a command.
    #[error("the line is no command")]
    Syntax,
    /// A growth of memory was refused.
    #[error("a growth of memory was refused")]
    Memory,
}
