//! What tests ask of a host.

use std::alloc::Global;
use wh_host::{Admit, Invoke, Load, ModuleId, Params, Quota};
use wh_space_model::InstId;

/// Asks for the module that these bytes spell.
pub fn loading(alloc: Global, bytes: &[u8]) -> Load<'_> {
    Load { alloc, bytes }
}

/// Returns what an owner gives: two frames at least, and 16 at most.
pub fn given(alloc: Global) -> Params {
    Params {
        quota: Quota {
            shares: 100,
            min_frames: 2,
            max_frames: 16,
        },
        fuel: 0,
        base: 0,
        salt: 0,
        inputs: Vec::new(alloc),
    }
}

/// Asks for an instance of a module.
pub fn admission(alloc: Global, of: ModuleId) -> Admit {
    let params = given(alloc);
    Admit { alloc, of, params }
}

/// Asks for a call of the function of this name, with `fuel` charges.
pub fn invocation<'a>(
    alloc: Global,
    id: InstId,
    name: &'a str,
    given: &'a [i128],
    fuel: u64,
) -> Invoke<'a> {
    Invoke {
        alloc,
        id,
        name,
        given,
        fuel,
    }
}
