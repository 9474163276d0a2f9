//! Threads that count what they do: books and shares, a channel of series of turns, what starts a worker, a scanner or a reclaimer and
//! joins it, and a value on which two locks agree. What a thread has counted comes back by its join alone.
#![tactic(auto)]

mod agreement;
mod books;
mod changes;
mod channel;
mod count;
mod gate;
mod help;
mod helper;
mod joins;
mod known;
mod own_count;
mod received_turns;
mod series_room;
mod shares;
mod start;
mod sweep;
mod tally;
mod thread_counts;
mod work;
mod worker;

pub use agreement::{Agreement, AgreementHalf, AgreementId, BlankAgreement};
pub use books::Books;
pub use changes::Change;
pub use channel::{
    Balance, Message, MessagePass, Traffic, TurnReceiver, TurnSender, dispatch, left_over,
    open_channel, pass_for, put_back, receive, receive_at_once,
};
pub use count::Count;
pub use gate::{Gate, Sign, SignReceiver, SignSender, SignSlip};
pub use help::{Help, HelpOutcome, Helped, Helps, LONGEST_SLEEP_SECONDS, start_helper};
pub use helper::Helper;
pub use known::AgreedValue;
pub use own_count::OwnCount;
pub use received_turns::ReceivedTurns;
pub use series_room::SeriesRoom;
pub use shares::Shares;
pub use start::{Equipment, Unstarted, start_worker, stop};
pub use sweep::{Sweep, Sweeps, Swept, start_sweep};
pub use tally::Tally;
pub use thread_counts::ThreadCounts;
pub use work::{Turns, WorkerResult, Works, receive_turns};
pub use worker::Worker;
