//! Who may ask, by tokens.
#![tactic(auto)]

mod bearer;
mod error;
mod grants;
mod parsing;

pub use bearer::bearer_token;
pub use error::GrantsError;
pub use grants::{Grant, Who, who_has};
pub use parsing::parse_grants;
