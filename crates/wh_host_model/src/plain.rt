//! The plain type that the host's definitions and its code share.

/// The end of a turn.
#[derive(Clone, Copy, Debug, PartialEq, Eq)]
pub enum TurnEnd {
    /// Nothing was run: there is no such instance, or no call of it that could be run.
    Idle,
    /// The turn's charges were taken, and the call can go on.
    Again,
    /// All fuel is used, and what comes next has a charge.
    Fuel,
    /// The bytes that the next step reads or writes aren't ready.
    Frame,
    /// The call has ended.
    Ended,
}
