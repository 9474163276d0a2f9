//! The reclaimer: pages leave for the swap device and come from it.
#![tactic(auto)]

mod begin;
mod choice;
mod commit;
mod reading;
mod ready;
mod tax;
mod tickets;

pub use begin::{evict_begin, fetch_begin};
pub use choice::{PageOf, page_to_take};
pub use commit::{evict_commit, fetch_commit};
pub use reading::read_bytes;
pub use ready::{PagesMoved, provide};
pub use tax::{cmp_rho, weight};
pub use tickets::{Buf, EvictTicket, FetchTicket};
