// Why a desk doesn't tell what it is asked, where the host has no such error.

use thiserror::Error;
use wh_host::ReadError;

/// Why a desk doesn't tell what a module exports.
#[derive(Clone, Copy, Debug, PartialEq, Eq, Error)]
pub enum ExportsError {
    /// No module of this number is there.
    #[error("no such module is there")]
    NoModule,
    /// A growth of memory was refused.
    #[error("a growth of memory was refused")]
    Memory,
}

/// Why a desk doesn't read bytes of an instance.
#[derive(Clone, Copy, Debug, PartialEq, Eq, Error)]
pub enum DeskReadError {
    /// The host doesn't.
    #[error("{0}")]
    Host(ReadError),
    /// More than 65536 bytes are asked for.
    #[error("more than 65536 bytes are asked for")]
    TooMany,
    /// A growth of memory was refused.
    #[error("a growth of memory was refused")]
    Memory,
}
