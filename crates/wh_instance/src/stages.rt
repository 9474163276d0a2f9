//! Where the present call of an instance is, what it is blocked on, and the outcome of a turn.

use wh_model::{Need, Trap, ValType};
use wh_space_model::SwapError;

/// Where the present call of an instance is.
#[derive(Clone, Copy, Debug, PartialEq, Eq)]
pub enum CallStage {
    /// It is a start, and has data segments left to write.
    Writing,
    /// It is at its invocation. So is the next call where none is open.
    Faced,
    /// It is under way: the machine represents it.
    UnderWay,
}

/// What the present call of an instance is blocked on.
#[derive(Clone, Copy, Debug, PartialEq, Eq)]
pub enum Suspension {
    /// All its fuel is used.
    Fuel,
    /// The bytes of its next step aren't ready.
    Frame,
    /// Such bytes are wanted, and a call of the swap device failed.
    Device(SwapError),
}

/// The outcome of a turn of an instance.
#[derive(Clone, Copy)]
pub enum TurnResult {
    /// The call has ended.
    Ended,
    /// All its fuel is used, and what comes next has a charge.
    Fuel,
    /// Bytes that its next step reads or writes aren't ready.
    Frame {
        /// These bytes.
        need: Need,
        /// Whether no step was taken.
        is_still: bool,
    },
    /// The turn's charges are taken, and the call can go on.
    Again {
        /// Whether no step was taken: it was a turn without charges.
        is_still: bool,
    },
    /// It was a turn without charges of a call for which a device call failed: nothing was done, and the fault is kept.
    Kept,
}

/// A value that a call has returned.
#[derive(Clone, Copy, Debug, PartialEq, Eq)]
pub struct CallValue {
    /// Its type.
    pub of: ValType,
    /// Its bits, as a number below 2^32 or 2^64.
    pub word: u64,
}

/// How far a call is.
#[derive(Clone, Copy, Debug, PartialEq, Eq)]
pub enum CallStatus {
    /// It has returned a value, or none.
    Returned {
        value: Option<CallValue>,
        charges: u64,
    },
    /// It has trapped.
    Trapped {
        trap: Trap,
        charges: u64,
    },
    /// Its owner has cancelled it.
    Cancelled {
        charges: u64,
    },
    /// It was queued after a start that trapped or was cancelled, and did nothing.
    Dead,
    /// It waits behind another open call.
    Waiting,
    /// It is the present call, and blocked on this, if it is.
    Present {
        waiting_for: Option<Suspension>,
        charges: u64,
    },
}
