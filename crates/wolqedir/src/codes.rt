//! The codes that exports answer: 0 where it was done; else a number below 256 of the library's own, or a family in
//! steps of 256 and the number that scripts show after the family's letter.

ghost use Rattle.std.specs.Prelude.{◌≡◌};
ghost use Rattle.wolqedir.specs.Codes.{admit_error_code, bytes_error_code, fork_error_code, host_error_code, link_error_code, module_error_code, swap_code, trap_code, unload_error_code};

use wh_hand::{AdmitError, BytesError, ForkError, HostError, ModuleError, UnloadError};
use wh_imports::LinkError;
use wh_load::LoadError;
use wh_model::Trap;
use wh_space_model::SwapError;

/// It was done.
pub const DONE: u32 = 0;
/// There is no host in the handle.
pub const NONE: u32 = 1;
/// Room was refused, where no family has a number for it.
pub const MEMORY: u32 = 2;
/// The handle holds a host already.
pub const FULL: u32 = 3;
/// The tax isn't a fraction below one with a denominator of 1 to 1000.
pub const TAX: u32 = 4;
/// A name isn't UTF-8.
pub const NAME: u32 = 5;
/// There is no such instance, no such call of it, or no such code.
pub const UNKNOWN: u32 = 6;
/// Frames and slots are 2^32 together or more.
pub const LARGE: u32 = 7;
/// An instance of the module is there.
pub const IN_USE: u32 = 8;
/// The instance's memory has fewer bytes.
pub const OUTSIDE: u32 = 9;

// Why a module isn't linked: L and the number of its fault.
fn of_link(error: LinkError) -> u32
    ensures { result ≡ link_error_code error }
{
    match error {
        LinkError::NoItem(fault, _) => 0x300 + u32::from(fault.number()),
        LinkError::Memory => 0x303,
    }
}

/// Returns the code for why a module isn't kept: that of D, V, L or M and the number of its fault.
pub fn of_module(error: ModuleError) -> u32
    ensures { result ≡ module_error_code error }
{
    match error {
        ModuleError::Bytes(LoadError::Decode(error)) => 0x100 + u32::from(error.kind.number()),
        ModuleError::Bytes(LoadError::Valid(error)) => 0x200 + u32::from(error.kind.number()),
        ModuleError::Bytes(LoadError::Link(error)) => of_link(error),
        ModuleError::ModulesFull => 0x401,
        ModuleError::Memory => 0x402,
    }
}

/// Returns the code for why a module isn't let go: A1, as for an admission, where it isn't there; IN_USE.
pub fn of_unload(error: UnloadError) -> u32
    ensures { result ≡ unload_error_code error }
{
    match error {
        UnloadError::NoModule => of_admit(AdmitError::NoModule),
        UnloadError::InUse => IN_USE,
    }
}

/// Returns the code for why an instance isn't admitted: that of A and the number of its fault.
pub fn of_admit(error: AdmitError) -> u32
    ensures { result ≡ admit_error_code error }
{
    0x500 + u32::from(error.number())
}

/// Returns the code for why a host doesn't do what is asked of it: that of H and the number of its fault.
pub fn of_host(error: HostError) -> u32
    ensures { result ≡ host_error_code error }
{
    0x600 + u32::from(error.number())
}

/// Returns the code for why bytes of an instance aren't read: that of H for an instance that isn't there; OUTSIDE.
pub fn of_bytes(error: BytesError) -> u32
    ensures { result ≡ bytes_error_code error }
{
    match error {
        BytesError::NoInstance => of_host(HostError::NoInstance),
        BytesError::Outside => OUTSIDE,
    }
}

/// Returns the code for why an instance isn't copied: that of F and the number of its fault; that of H for an instance that
/// isn't there; that of A for a quota with which none is admitted, and for memory that is refused.
pub fn of_fork(error: ForkError) -> u32
    ensures { result ≡ fork_error_code error }
{
    match error {
        ForkError::NoInstance => of_host(HostError::NoInstance),
        ForkError::CallOpen => 0x901,
        ForkError::StartFailed => 0x902,
        ForkError::NotAdmitted(error) => of_admit(error),
        ForkError::OtherLimit => 0x903,
        ForkError::PageAway => 0x904,
        ForkError::Memory => of_admit(AdmitError::Memory),
    }
}

/// Returns the code for why a call has trapped: that of T and its number.
pub fn of_trap(trap: Trap) -> u32
    ensures { result ≡ trap_code trap }
{
    0x700 + u32::from(trap.number())
}

/// Returns the code for why a call is blocked on the swap device: that of S and its number.
pub fn of_swap(error: SwapError) -> u32
    ensures { result ≡ swap_code error }
{
    0x800 + u32::from(error.number())
}
