//! Scripts: lines of requests in, lines of replies out, on a host of many instances.
#![tactic(auto)]

mod answering;
mod fault;
mod files;
mod line_error;
mod lines;
mod obeying;
mod run;
mod session;
mod writing;

pub use fault::ScriptFault;
pub use files::{FileError, Source};
pub use run::run_script;
pub use session::SessionConfig;
