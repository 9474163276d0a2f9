//! An instance of a host of many, over any linear memory: its journal, its turns, and what its owner asks of it.
//!
//! In a turn its present call runs: the data segments of its start are written (4.5.4 of the W3C WebAssembly Core
//! Specification 1.0), its function is invoked (4.5.5), and a limited number of charges of its execution are taken. No
//! turn allocates; creating an instance does, and so does queueing a call.
#![tactic(auto)]

mod advancing;
mod asking;
mod beginning;
mod burst;
mod computing;
mod copying;
mod error;
mod exports;
mod host_instance;
mod invoking;
mod leave;
mod numbers;
mod reading;
mod seen;
mod settling;
mod stages;
mod starting;
mod telling;
mod turning;
mod writing;

pub use burst::{Burst, BurstEnd, compute_burst};
pub use computing::{TurnOutcome, compute};
pub use error::InvokeError;
pub use exports::own_export;
pub use host_instance::HostInstance;
pub use invoking::{MOST_CALLS, MOST_OPEN_CALLS};
pub use leave::Leave;
pub use numbers::{takes, words_of};
pub use stages::{CallStage, CallStatus, CallValue, Suspension, TurnResult};
pub use starting::turn_start;
pub use turning::{turn_first, turn_on};
pub use writing::{Cursor, write_pieces};
