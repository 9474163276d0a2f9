//! A host under a lock that threads share: what they count beside it, and what its owner knows of it.
#![tactic(auto)]

mod agreements;
mod backing;
mod cell;
mod locked;
mod moving;
mod own_work;
mod owner;
mod reading;
mod requests;
mod rounding;
mod showing;
mod taken;
mod ticket_record;

pub use agreements::{CellAgreements, ToDevice, ToOwner};
pub use backing::Backing;
pub use cell::{CellParts, HostCell};
pub use locked::{Locked, Parts};
pub use moving::Moved;
pub use owner::{AgreedHost, Owner};
pub use ticket_record::{AgreedDevice, TicketRecord};
