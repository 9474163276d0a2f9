//! The front of a service: requests by the resource that their path names, and by who asks.
#![tactic(auto)]

mod access;
mod asking;
mod faults;
mod front;
mod methods;
mod resources;
mod serving;

pub use access::{is_for_operators, is_open};
pub use asking::who_asks;
pub use faults::{NO_METHOD, NO_RESOURCE, NO_TOKEN, OTHER_TOKEN, fill_fault};
pub use front::Front;
pub use methods::{Methods, methods_of};
pub use resources::Resources;
pub use serving::{answer_received, serve_front};
