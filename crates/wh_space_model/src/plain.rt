//! Which instance is meant, and how a call of a swap device fails.

ghost use Rattle.std.specs.Prelude.{◌≡◌};
ghost use Rattle.wh_space_model.specs.SwapFaults.{swap_number};

/// How a call of a swap device failed.
#[derive(Clone, Copy, Debug, PartialEq, Eq)]
pub enum SwapError {
    /// A slot wasn't read.
    Read,
    /// A slot wasn't written.
    Write,
    /// A slot holds other bytes than were written to it.
    Damaged,
}

impl SwapError {
    /// Returns the number by which replies name the fault, 1 to 3.
    pub fn number(self) -> u8
        ensures { result ≡ swap_number self }
    {
        match self {
            SwapError::Read => 1,
            SwapError::Write => 2,
            SwapError::Damaged => 3,
        }
    }
}

/// Which instance is meant.
#[derive(Clone, Copy, Debug, PartialEq, Eq)]
pub struct InstId {
    /// Its place.
    pub place: usize,
    /// How many instances were admitted before it.
    pub number: u64,
}
