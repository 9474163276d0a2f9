//! What the host says of settings, and of a line.

/// What the host says of settings, or of a line.
#[derive(Clone, Copy, Debug, PartialEq, Eq)]
pub enum Answer {
    /// It takes them.
    Accepted,
    /// It refuses them.
    Refused,
    /// There was no memory to look.
    Memory,
}
