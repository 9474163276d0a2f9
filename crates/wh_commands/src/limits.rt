//! How long what a script says may be.

/// How many bytes a line has at most, without its end.
pub const LONGEST_LINE: usize = 2_200_000;

/// How many bytes a name has at most.
pub const LONGEST_NAME: usize = 32;

/// How many digits a number has at most.
pub const MOST_DIGITS: usize = 20;
