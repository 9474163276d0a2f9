//! Expressions of the binary format (section 5.4 of the standard): the instructions from a place on up to the end that
//! belongs to the expression, and the place after it, or the first fault.
#![tactic(auto)]

mod labels;
mod opcodes;
mod operands;
mod reader;

pub use reader::read_expr;
