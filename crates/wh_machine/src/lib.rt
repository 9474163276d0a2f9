//! The machine: configurations of sections 4.2.12 and 4.2.13 of the W3C WebAssembly Core Specification 1.0 on words and
//! frames, over any linear memory.
#![tactic(auto)]

mod accesses;
mod asking;
mod branching;
mod bytes;
mod calling;
mod control;
mod dispatch;
mod hosts;
mod immediates;
mod instructions;
mod machine;
mod opening;
mod operands;
mod quick;
mod stepping;
mod tries;
mod variables;

pub use asking::asks;
pub use machine::{Machine, Stepped};
pub use opening::begin;
pub use stepping::{run, step};
pub use wh_control::Store;
pub use wh_linmem::LinearMem;
