//! A host of many instances on one memory.
//!
//! Modules are loaded, instances of them are admitted, and their owners ask for calls of them, which run by turns of a
//! limited number of charges. All linear memories (2.5.5 of the W3C WebAssembly Core Specification 1.0) share one pool
//! of frames.
#![tactic(auto)]

mod admitting;
mod asking;
mod beside;
mod bytes;
mod call_request;
mod counting;
mod counts;
mod epochs;
mod error;
mod exporting;
mod fork_request;
mod forking;
mod host;
mod instance_refs;
mod invoke_at_request;
mod invoking;
mod joining;
mod loading;
mod module_refs;
mod parts;
mod providing;
mod releasing;
mod report;
mod reporting;
mod request;
mod rolling;
mod rounds;
mod sampling;
mod scanning;
mod showing;
mod telling;
mod transit;
mod turning;
mod unload_request;
mod unloading;

pub use call_request::CallRequest;
pub use counts::HostCounts;
pub use error::{HostError, ModuleError, ReadError, UnloadError};
pub use exporting::ExportedFunc;
pub use fork_request::Fork;
pub use host::Host;
pub use invoke_at_request::InvokeAt;
pub use loading::MOST_MODULES;
pub use parts::ModuleId;
pub use report::{HostUsage, InstanceReport, Report};
pub use request::{Admit, BeginEpoch, Cancel, Invoke, Load, Refuel, Release, Request, Retry};
pub use rolling::{Roll, RollInstance};
pub use rounds::{InOrder, Round, RoundRunner, Runner, SeriesEnd};
pub use transit::{Eviction, Fetch};
pub use turning::turn_at;
pub use unload_request::Unload;
pub use wh_admit::{AdmitError, ForkError, Params, Quota};
pub use wh_instance::{Burst, CallStatus, CallValue, Leave, Suspension};
pub use wh_scan::Sample;
pub use wh_transcript::Transcript;
