//! What a host shows of one of its instances, so that its owner can compare it with what was asked.
#![tactic(auto)]

mod checking;
mod requests;
mod transcript;

pub use checking::{TranscriptFault, check_transcript};
pub use requests::{Ending, RequestedCall, Requests};
pub use transcript::Transcript;
