//! Calls of an instance over any linear memory: which function an export names, whether it takes these arguments, and how
//! a run of it ends (4.4 and 4.5.5 of the W3C WebAssembly Core Specification 1.0).
#![tactic(auto)]

mod arguments;
mod calling;
mod exports;

pub use arguments::{can_call, own_type};
pub use calling::{RunEnd, call, run_on};
pub use exports::exported;
