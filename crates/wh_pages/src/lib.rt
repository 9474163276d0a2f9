//! The page table of one instance.
#![tactic(auto)]

mod entry;
mod leaf;
mod rows;
mod table;

pub use table::PageTable;
