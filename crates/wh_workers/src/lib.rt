//! Workers, a scanner and a reclaimer: threads that run turns, offer pages and evict them, while the calling thread hands the
//! turns out. It runs none itself.
#![tactic(auto)]

mod crew;
mod feed;
mod helpers;
mod serving;
mod sweeping;

pub use crew::{ServeError, Served};
pub use feed::{Next, Supply};
pub use serving::{Jobs, TURNS_FOR_AN_OFFER, WorkerSetup, serve, serve_on};
pub use sweeping::serve_sweep;
