//! Why a host doesn't do what is asked of an instance.

ghost use Rattle.std.specs.Prelude.{◌≡◌};
ghost use Rattle.wh_host.specs.CallRequests.{host_number};

use thiserror::Error;
use wh_instance::InvokeError;
use wh_load::LoadError;
use wh_space_model::SwapError;

/// Why a host doesn't do what is asked of an instance.
#[derive(Clone, Copy, Debug, PartialEq, Eq, Error)]
pub enum HostError {
    /// No instance of this number lies at this place.
    #[error("no such instance is there")]
    NoInstance,
    /// It doesn't take the call.
    #[error("{0}")]
    Invoke(InvokeError),
    /// No call of it is open; or, where it is to be tried again, the present one doesn't wait for a device.
    #[error("no call is there for which this can be asked")]
    NoCall,
    /// A growth of memory was refused, where no call was asked for.
    #[error("a growth of memory was refused")]
    Memory,
}

impl HostError {
    /// Returns the number by which replies name it, after an H: 1 to 8.
    pub fn number(self) -> u8
        ensures { result ≡ host_number self }
    {
        match self {
            HostError::NoInstance => 1,
            HostError::Invoke(error) => error.number(),
            HostError::NoCall => 8,
            HostError::Memory => 7,
        }
    }
}

/// Why a host doesn't read bytes of an instance.
#[derive(Clone, Copy, Debug, PartialEq, Eq, Error)]
pub enum ReadError {
    /// No instance of this number lies at this place.
    #[error("no such instance is there")]
    NoInstance,
    /// Its memory has fewer bytes.
    #[error("its memory has fewer bytes")]
    Outside,
    /// The swap device failed.
    #[error("the swap device failed: {0:?}")]
    Device(SwapError),
}

/// Why a host doesn't let a module go.
#[derive(Clone, Copy, Debug, PartialEq, Eq, Error)]
pub enum UnloadError {
    /// No module of this number is there.
    #[error("no such module is there")]
    NoModule,
    /// An instance that is there is of it.
    #[error("an instance of the module is there")]
    InUse,
}

/// Why a host doesn't keep a module.
#[derive(Clone, Copy, Debug, PartialEq, Eq, Error)]
pub enum ModuleError {
    /// The bytes aren't accepted as a module.
    #[error("{0}")]
    Bytes(LoadError),
    /// 1024 modules are kept. Replies name it M1.
    #[error("1024 modules are kept")]
    ModulesFull,
    /// A growth of memory was refused, or 2^64 - 1 modules were loaded. Replies name it M2.
    #[error("a growth of memory was refused")]
    Memory,
}
