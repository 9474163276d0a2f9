//! One call of a module, over a flat memory: from bytes to a result.
//!
//! `call_module` decodes, validates and links a module, makes an instance of it, runs its start function, and then calls one
//! of its functions. Proved, by the public contracts of the crates beneath alone: what it answers is what the definitions
//! of sections 4.4 and 4.5 of the W3C WebAssembly Core Specification 1.0 say, charge by charge.
#![tactic(auto)]

mod alone;
mod calling;
mod instance;
mod outcome;
mod segments;
mod words;

pub use alone::call_module;
pub use instance::Instance;
pub use outcome::{CallError, CallRefusal, CallResult, Outcome, Stage};
