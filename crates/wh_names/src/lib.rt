//! Names in the order in which they were added, each once, in little memory.
#![tactic(auto)]

mod chains;
mod hash;
mod names;
mod texts;

pub use names::Names;
