//! The sharing scan: pages with equal bytes come to share one frame.
#![tactic(auto)]

mod offers;
mod pass;
mod sample;

pub use offers::{offer, offer_at};
pub use pass::{Scanned, scan_all, scan_page};
pub use sample::{Sample, take};
