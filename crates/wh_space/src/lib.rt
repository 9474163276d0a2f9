//! The memory on which all instances lie: their pages on one pool of frames.
//!
//! Some functions begin with `let _ = &self.field;`. It does nothing when run. Who reads a field knows what always holds of the
//! memory; a function that reads none itself learns it so.
#![tactic(auto)]

mod arrivals;
mod breaks;
mod claims;
mod counts;
mod departing;
mod ending;
mod epochs;
mod errands;
mod forks;
mod frames;
mod growth;
mod lacking;
mod leaving;
mod listing;
mod loads;
mod memory;
mod merging;
mod occupant_entries;
mod occupant_entry;
mod pages;
mod pins;
mod ready;
mod reporting;
mod reserving;
mod room;
mod serving;
mod shedding;
mod slotting;
mod standing;
mod stores;
mod view;
mod whole;

pub use listing::UnlistedFrame;
pub use memory::Memory;
pub use occupant_entry::Promise;
pub use view::View;
pub use wh_tables::PageId;
