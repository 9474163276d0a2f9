//! The journal of one instance of a host: the calls that have ended, and the open ones, the first of which is the
//! present call.
#![tactic(auto)]

mod calls;
mod journal;

pub use calls::{CallEnd, JournalCall};
pub use journal::Journal;
