//! The page tables of all instances, with an index of the frames on which their pages stand.
#![tactic(auto)]

mod index;
mod line;
mod order;
mod page_id;
mod tables;

pub use page_id::PageId;
pub use tables::Tables;
