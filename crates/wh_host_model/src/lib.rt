//! The plain type that the definitions of the host and its code share, and their laws.
//!
//! The definitions themselves are in `specs/`.
#![tactic(auto)]

mod moves;
mod plain;
mod runs;

pub use moves::moves_hold;
pub use plain::TurnEnd;
pub use runs::{every_misread_run, every_run};
