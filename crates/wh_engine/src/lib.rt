//! What a script has made on a host: one command after the other, and runs of all calls between them.
#![tactic(auto)]

mod asked_instances;
mod asking;
mod ending;
mod fault;
mod finding;
mod instances;
mod modules;
mod naming;
mod parts;
mod printing;
mod releasing;
mod running;
mod script_host;
mod sharing;

pub use fault::RunFault;
pub use script_host::ScriptHost;
