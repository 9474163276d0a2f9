//! Modules as the decoder makes them: plain data, with instructions in binary order.
//!
//! Section numbers are those of the W3C WebAssembly Core Specification 1.0. `specs/View.antt` says which abstract syntax
//! each type represents.
#![tactic(auto)]

mod expr;
mod instr;
mod module;

pub use expr::{Expr, Flat};
pub use instr::Instr;
pub use module::{
    Body, Data, Element, Export, FuncType, Global, GlobalType, Import, ImportDesc, Limits, Module,
    TableType,
};
