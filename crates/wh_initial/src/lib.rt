//! What an instance begins with (section 4.5.4 of the W3C WebAssembly Core Specification 1.0).
//!
//! `instantiate` takes a linked module and what the owner of an instance gives it, and sets the globals, writes the elements
//! into the table, and finds where the data segments belong. Proved: it begins as the definition of instantiation says,
//! or refuses for the cause that the definition has; what it hands out is the store of that definition.
#![tactic(auto)]

mod basis;
mod beginning;
mod constants;
mod error;
mod globals;
mod outcome;
mod parameters;
mod segments;
mod sizes;
mod table;

pub use beginning::instantiate;
pub use error::InstantiateError;
pub use outcome::Instantiated;
pub use parameters::Parameters;
pub use sizes::{first_pages, last_pages};
