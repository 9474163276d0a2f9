//! A host that its owner has alone, and whose calls threads run: who has the next turn, whose page is offered, and
//! whose step is made ready.
#![tactic(auto)]

mod at_once;
mod draining;
mod frame_waits;
mod here;
mod jobs;
mod owned;
mod paging;
mod round_room;
mod run_queue;
mod scan_job;
mod scanning;
mod serving;
mod spin_backoff;
mod turn_job;
mod turn_lock;

pub use at_once::AtOnce;
pub use draining::WorkHere;
pub use frame_waits::FrameWaits;
pub use here::{HereEnd, TurnsHere};
pub use jobs::{ReclaimJob, Schedule, TurnSupply};
pub use owned::OwnedHost;
pub use round_room::{Aim, RoundRoom};
pub use run_queue::{Choice, QueueEntry, RunQueue, Series};
pub use scan_job::{Look, ScanJob};
pub use serving::{RunConfig, run_calls};
pub use spin_backoff::SpinBackoff;
pub use turn_job::TurnJob;
pub use turn_lock::TurnLock;
