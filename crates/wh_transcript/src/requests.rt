//! What an owner asked of an instance.

use std::sync::Arc;
use wh_admit::Params;
use wh_journal::CallEnd;

/// How a call was said to have ended.
#[derive(Clone, Copy, Debug, PartialEq, Eq)]
pub struct Ending {
    /// How many pieces of data segments it had written.
    pub pieces: u64,
    /// How many charges it had taken.
    pub charges: u64,
    /// How it had ended.
    pub end: CallEnd,
}

/// A call that was asked for.
#[derive(Drop)]
pub struct RequestedCall {
    /// The index of its function. A start may have none.
    pub func: Option<u32>,
    /// Its arguments, as they were given.
    pub given: Vec<i128>,
    /// The fuel that it was given in all.
    pub fuel: u64,
    /// How it has ended, where that was said.
    pub ending: Option<Ending>,
}

/// What an owner asked of one instance.
#[derive(Drop)]
pub struct Requests {
    /// The bytes of its module.
    pub bytes: Arc<Vec<u8>>,
    /// What it was given.
    pub params: Params,
    /// The calls in order, the first of which is its start.
    pub calls: Vec<RequestedCall>,
}
