//! The admission of an instance to a host: whether it may come, and what it begins with.
//!
//! [`admit`] takes the module that is meant, what the owner of the instance gives it, and what room the host has left.
//! It looks at the faults of an admission one after the other, as the host's definitions order them, and answers the
//! first one. Only where there is none does it ask for memory: it makes what the instance begins with (section 4.5.4 of
//! the W3C WebAssembly Core Specification 1.0) and reserves all that the calls of the instance will ever need. Its page
//! table and its place among the instances are the host's to make.
#![tactic(auto)]

mod admission;
mod error;
mod fork_error;
mod laws;
mod limits;
mod outcome;
mod quotas;
mod room;
mod words;

pub use admission::admit;
pub use error::AdmitError;
pub use fork_error::ForkError;
pub use laws::standing_holds;
pub use limits::{LEAST_FRAMES, MOST_FRAMES, MOST_INSTANCES, MOST_SHARES};
pub use outcome::{Admitted, AdmittedQuota};
pub use quotas::check_quota;
pub use room::Room;
pub use wh_params::{Params, Quota};
