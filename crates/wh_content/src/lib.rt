//! The content table: which frame has the bytes of a hash.
#![tactic(auto)]

mod chains;
mod counted_marks;
mod entry;
mod table;

pub use entry::ContentEntry;
pub use table::Table;
