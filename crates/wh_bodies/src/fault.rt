//! What is wrong with a body.

use thiserror::Error;
use wh_model::ValidKind;

/// A fault of a function's body, and the instruction at which it is found.
#[derive(Clone, Copy, Debug, PartialEq, Eq, Error)]
#[error("{kind} at instruction {instr}")]
pub struct BodyFault {
    /// The instruction in binary order, where opcodes count from 0, `else` and `end` included.
    pub instr: u32,
    /// What is wrong.
    pub kind: ValidKind,
}
