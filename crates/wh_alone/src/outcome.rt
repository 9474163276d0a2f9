//! The outcome of a call, and why there is no instance.

ghost use Rattle.std.specs.Prelude.{◌≡◌};
ghost use Rattle.wh_alone.specs.declared.outcome.CallError.TheVariants.{Load};

use thiserror::Error;
use wh_initial::InstantiateError;
use wh_load::LoadError;
use wh_model::Trap;

/// How a call has ended, or that it hasn't.
#[derive(Clone, Copy, Debug, PartialEq, Eq)]
pub enum Outcome {
    /// It has returned, with a result where its type has one; an i32 in the low 32 bits.
    Returned(Option<u64>),
    /// It has trapped.
    Trapped(Trap),
    /// All its fuel was taken, and it runs on.
    OutOfFuel,
}

/// Where an instance is.
#[derive(Clone, Copy, Debug, PartialEq, Eq)]
pub enum Stage {
    /// Its start function is to be called.
    Fresh,
    /// Its start function is under way.
    Starting,
    /// It has started, and no call is under way.
    Idle,
    /// A call is under way.
    Calling,
    /// Its start function has trapped, or was given up: nothing is called any more.
    Dead,
}

/// Why a function isn't called. Nothing has changed.
#[derive(Clone, Copy, Debug, PartialEq, Eq, Error)]
pub enum CallRefusal {
    /// The start function, or another call, hasn't ended.
    #[error("a call hasn't ended")]
    Busy,
    /// The start function has trapped, or was given up.
    #[error("the start function has failed")]
    Dead,
    /// The module has no function of its own with this index, or these words aren't arguments of it.
    #[error("there is no such function with such arguments")]
    NoCall,
}

/// What came of one call of a module.
#[derive(Clone, Copy, Debug, PartialEq, Eq)]
pub enum CallResult {
    /// The start function hasn't returned: how it has ended, and its charges. Nothing else was called.
    Start(Outcome, u64),
    /// The start function, if there is one, has returned after this many charges; the module has no function of its own
    /// with this index, or these words aren't arguments of it.
    NoCall(u64),
    /// The start function, if there is one, has returned, and the call has come to this.
    Call {
        /// The charges of the start function, 0 where there is none.
        started: u64,
        /// How the call has ended.
        outcome: Outcome,
        /// Its charges, that of a trap included.
        charges: u64,
    },
}

/// Why bytes have no instance.
#[derive(Clone, Copy, Debug, PartialEq, Eq, Error)]
pub enum CallError {
    /// They aren't accepted as a module.
    #[error("{0}")]
    Load(LoadError),
    /// The module has no instance with these parameters.
    #[error("there is no such instance")]
    Instantiate(InstantiateError),
    /// A growth of memory was refused.
    #[error("a growth of memory was refused")]
    Memory,
}

impl From<LoadError> for CallError {
    ghost from_gives = { λ error result. result ≡ Load error };

    fn from(error: LoadError) -> CallError {
        CallError::Load(error)
    }
}
