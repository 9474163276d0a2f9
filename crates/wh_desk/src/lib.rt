//! Answers whoever may ask of a host, while its calls run: an operator, and tenants, none of whom reaches what is another's.
#![tactic(auto)]

mod copying;
mod desk;
mod error;
mod laws;
mod ownership;
mod principal;
mod reading;
mod record;
mod request;
mod respond;
mod trace;

pub use copying::DeskExport;
pub use desk::HostDesk;
pub use error::{DeskReadError, ExportsError};
pub use laws::strangers_find_none;
pub use ownership::{OwnedInstance, OwnedModule};
pub use principal::Principal;
pub use request::{DeskReply, DeskRequest};
pub use trace::{Question, Trace, TraceEntry};
