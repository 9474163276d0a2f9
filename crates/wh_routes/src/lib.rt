//! Which resource of a service a path names, and what a query says.
#![tactic(auto)]

mod finding;
mod laws;
mod names;
mod pieces;
mod query;
mod route;

pub use finding::find_route;
pub use laws::one_resource;
pub use names::{LONGEST_NAME, digest_in, is_name, number_in};
pub use pieces::cut;
pub use query::{NotNumber, query_number, query_value};
pub use route::{InstancePart, Route};
