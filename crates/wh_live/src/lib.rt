//! Calls that run for as long as the host lives: instances join, leave and are woken while others run, and new calls don't wait for
//! long ones.
#![tactic(auto)]

mod live_queue;
mod live_scans;
mod live_supply;
mod living;
mod passes;

pub use live_queue::LiveQueue;
pub use live_scans::LiveScanJob;
pub use live_supply::LiveSupply;
pub use living::run_live;
pub use passes::{PassReport, Passes};
