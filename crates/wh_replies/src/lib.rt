//! Replies to a script as values, and the one place that writes their texts.
#![tactic(auto)]

mod call;
mod released;
mod reply;
mod report;
mod value;

pub use call::{Call, Caller, Status};
pub use released::write_released;
pub use reply::{FaultPlace, ModuleRefusal, Reply, write_reply};
pub use report::write_report;
pub use value::signed_value;
