//! The validator (section 3 of the W3C WebAssembly Core Specification 1.0), and the limits that this host sets besides it
//! (section 7.2).
//!
//! `validate` takes a module that was decoded, and gives it back as a `ValidModule`, or the first fault. Proved: what
//! passes is valid, in the standard's terms, and passes no limit; what is refused isn't valid or passes a limit, unless
//! memory was refused; a function that a fault names has a body at fault; a `ValidModule` carries that its bodies are
//! typed and that its tables of branch targets are theirs.
#![tactic(auto)]

mod bodies;
mod constants;
mod error;
mod exports;
mod indices;
mod laws;
mod segments;
mod sizes;
mod types;
mod whole;

pub use error::ValidError;
pub use laws::one_context;
pub use whole::{ValidModule, validate};
