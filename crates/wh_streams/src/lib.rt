//! Readers and writers that keep whether a call of them has failed.
#![tactic(auto)]

mod reader;
mod writer;

pub use reader::WatchedRead;
pub use writer::WatchedWrite;
