//! What is wrong with a module, and where.

ghost use Rattle.std.specs.Prelude.{◌≡◌, ◌+◌, ◌-◌, ◌^◌, min, None, Some};
ghost use Rattle.wh_model.specs.declared.faults.ValidKind.TheVariants.{Memory};

use std::alloc::AllocFailed;
use thiserror::Error;
use wh_bodies::BodyFault;
use wh_model::ValidKind;

/// Why a module isn't valid, or passes a limit.
#[derive(Clone, Copy, Debug, PartialEq, Eq, Error)]
#[error("{kind}")]
pub struct ValidError {
    /// The function in whose body the fault is, if it is in one. Imported functions count first.
    pub func: Option<u32>,
    /// The instruction of that body, where opcodes count from 0, `else` and `end` included; 0 without a function.
    pub instr: u32,
    /// What is wrong.
    pub kind: ValidKind,
}

impl ValidError {
    /// Returns a fault that is in no function.
    pub fn of_module(kind: ValidKind) -> ValidError
        ensures { result ≡ record { func = None; instr = 0; kind = kind } }
    {
        ValidError {
            func: None,
            instr: 0,
            kind,
        }
    }

    /// Returns a fault in the body of the function that is at place `at` after the imported ones.
    pub fn in_body(imported: usize, at: usize, fault: BodyFault) -> ValidError
        ensures { result
            ≡ record {
              func = Some (min (imported + at) (2 ^ 32 - 1));
              instr = fault.instr;
              kind = fault.kind;
            } }
    {
        let func = u32::try_from(imported.saturating_add(at)).unwrap_or(u32::MAX);
        ValidError {
            func: Some(func),
            instr: fault.instr,
            kind: fault.kind,
        }
    }
}

// A failed allocation. It is in no function.
impl<T: Drop> From<AllocFailed<T>> for ValidError {
    ghost from_gives = { λ failed error. error.kind ≡ Memory };

    fn from(_failed: AllocFailed<T>) -> ValidError {
        ValidError::of_module(ValidKind::Memory)
    }
}
