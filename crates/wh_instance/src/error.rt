//! Why a call isn't taken.

ghost use Rattle.std.specs.Prelude.{◌≡◌};
ghost use Rattle.wh_instance.specs.declared.error.InvokeError.TheVariants.{Memory};
ghost use Rattle.wh_instance.specs.Invoked.{invoke_number};

use std::alloc::AllocError;
use thiserror::Error;

/// Why an instance doesn't take a call.
#[derive(Clone, Copy, Debug, PartialEq, Eq, Error)]
pub enum InvokeError {
    /// Its module exports no function by this name, or one of the host's.
    #[error("no function of the module's own is exported by this name")]
    NoExport,
    /// The arguments aren't as many as the function has parameters, or one is out of the range of its type.
    #[error("the arguments aren't those of the function")]
    Arguments,
    /// 1024 calls are open, its start not counted.
    #[error("1024 calls are open")]
    QueueFull,
    /// Its start has trapped or was cancelled.
    #[error("the instance is dead")]
    Dead,
    /// Its journal has 65536 calls, its start counted.
    #[error("the journal has 65536 calls")]
    JournalFull,
    /// A growth of memory was refused.
    #[error("a growth of memory was refused")]
    Memory,
}

impl InvokeError {
    /// Returns the number by which replies name the fault, after an H: 2 to 7. An invocation is checked for faults in
    /// this order.
    pub fn number(self) -> u8
        ensures { result ≡ invoke_number self }
    {
        match self {
            InvokeError::NoExport => 2,
            InvokeError::Arguments => 3,
            InvokeError::QueueFull => 4,
            InvokeError::Dead => 5,
            InvokeError::JournalFull => 6,
            InvokeError::Memory => 7,
        }
    }
}

// A growth that was refused.
impl From<AllocError> for InvokeError {
    ghost from_gives = { λ refused error. error ≡ Memory };

    fn from(_refused: AllocError) -> InvokeError {
        InvokeError::Memory
    }
}
