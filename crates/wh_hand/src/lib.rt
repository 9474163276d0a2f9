//! A single-threaded host: instances of many modules on one memory, with a swap device in memory.
//!
//! `Hand` holds a host, its device, and the queue of instances that can make progress. Nothing is required of whoever
//! calls it: modules are loaded, instances admitted and calls asked for in whatever order, and `run` runs them for a
//! number of charges.
#![tactic(auto)]

mod asking;
mod coming;
mod going;
mod hand;
mod line;
mod offer_pace;
mod reading;
mod releasing;
mod running;
mod sharing;
mod telling;

pub use hand::Hand;
pub use reading::BytesError;
pub use running::Ran;
pub use wh_host::{
    AdmitError, CallRequest, CallStatus, CallValue, Cancel, ExportedFunc, ForkError, HostCounts,
    HostError, HostUsage, InstanceReport, Invoke, InvokeAt, ModuleError, ModuleId, Params, Quota,
    Refuel, Report, Retry, Suspension, Transcript, UnloadError,
};
pub use wh_space_model::{InstId, Tax};
