//! Many connections over one stream of bytes in each direction.
#![tactic(auto)]

mod connections;
mod fault;
mod frame;
mod laws;
mod moving;
mod queueing;
mod reading;
mod service;
mod writing;

pub use connections::{Connections, REFUSAL};
pub use fault::{StreamFault, TakeFault};
pub use frame::{LONGEST_FRAME, StreamFrame, StreamKind};
pub use laws::bytes_tell_frames;
pub use reading::read_stream_frame;
pub use service::ConnectionService;
pub use writing::write_stream_frame;
