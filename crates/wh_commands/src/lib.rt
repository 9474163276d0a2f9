//! The language of scripts: what a line asks for.
#![tactic(auto)]

mod command;
mod error;
mod laws;
mod limits;
mod numbers;
mod reading;
mod shapes;
mod words;

pub use command::{CallAction, Command, InvokeCommand, ParsedLine};
pub use error::ParseError;
pub use laws::one_command;
pub use limits::{LONGEST_LINE, LONGEST_NAME, MOST_DIGITS};
pub use reading::parse;
