//! The check of one function body (sections 3.3 and 3.4.3 of the W3C WebAssembly Core Specification 1.0, by the forward
//! algorithm of its appendix 7.3), and where its branches lead.
//!
//! A body that is checked is typed as `wh_model` defines it, and no more than 256 operands stand in it at any place. One
//! that is refused isn't, or doesn't fit, unless memory was refused.
#![tactic(auto)]

mod body;
mod branches;
mod context;
mod fault;
mod labels;
mod marks;
mod operands;
mod steps;
mod straight;
mod table;

pub use body::check_body;
pub use context::Context;
pub use fault::BodyFault;
pub use table::{BranchEntry, SideTable};
