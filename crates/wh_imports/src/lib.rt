//! Linking with the host's module (section 4.5.4 of the W3C WebAssembly Core Specification 1.0, steps 2 to 4).
//!
//! The host offers one module, `host`, with three functions and two constant globals; an instance imports nothing else.
//! `link` takes a valid module and finds what each of its imports is, or the first one that the host doesn't offer, and makes
//! a record of each function, by which a machine finds the way from one instruction to the next. Proved:
//! it links exactly the modules each of whose imports has its item, and names the first import that has none, with its
//! cause; what is resolved is what the definitions of instantiation say.
#![tactic(auto)]

mod error;
mod items;
mod linked;
mod records;
mod tags;

pub use error::LinkError;
pub use items::is_signature;
pub use linked::{Linked, link};
pub use records::FuncRecord;
pub use tags::Tag;
