// What a script has made.

ghost use Rattle.std.specs.Prelude.{◌≡◌};

use wh_replies::Status;
use wh_space_model::InstId;

/// An instance that was admitted.
#[derive(Drop)]
pub struct NamedInstance {
    pub name: String,
    pub id: InstId,
    /// Whether its start has pieces to write or a function to call, so that lines are printed for it.
    pub has_start: bool,
    pub is_released: bool,
    /// The status of its start printed last.
    pub last_printed: Option<Status>,
}

/// The outcome of an `invoke`.
#[derive(Clone, Copy, Debug, PartialEq, Eq)]
pub enum InvokeOutcome {
    /// It was refused, with this number after the H.
    Rejected(u8),
    /// It is the call at a place of the journal of the instance of this number.
    Accepted { instance: usize, place: u32 },
}

/// An `invoke`, and the status of its call printed last.
#[derive(Clone, Copy, Debug, PartialEq, Eq)]
pub struct Invoked {
    /// The number by which lines name it.
    pub number: u64,
    pub outcome: InvokeOutcome,
    pub last_printed: Option<Status>,
}
