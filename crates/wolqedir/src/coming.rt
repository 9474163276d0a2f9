//! How modules and instances come to a host, and how modules go.

ghost use Rattle.std.specs.Prelude.{◌≡◌, IfOk, OnErr, Result, ⊤};
ghost use Rattle.wh_params.specs.View.{view_params, view_quota};
ghost use Rattle.wolqedir.specs.Codes.{code_by, admit_error_code, fork_error_code, module_error_code, unload_error_code};
ghost use Rattle.wolqedir.specs.ExportContracts.{ExportAdmits, ExportForks, ExportLoads, ExportUnloads, ServesHandle, ServesWithRoom, TellsCaller};
ghost use Rattle.wolqedir.specs.Shapes.{given_by, id_of, instance_of, quota_by};

use crate::codes::{DONE, MEMORY, NONE, of_admit, of_fork, of_module, of_unload};
use crate::handle::Handle;
use crate::shapes::{RawInstance, RawParams, RawQuota, name_of, named};
use std::alloc::{AllocError, Global};
use wh_hand::{AdmitError, ForkError, InstId, ModuleError, ModuleId, Quota, UnloadError};

// What its owner gives an instance, with a copy of these words as its input.
fn given(alloc: Global, params: &RawParams, inputs: &[u64]) -> Result<wh_hand::Params, AllocError>
    ensures { IfOk result (λ given. view_params given ≡ given_by params.now inputs.now) }
{
    let inputs = Vec::from_slice(alloc, inputs)?;
    Ok(wh_hand::Params {
        quota: Quota {
            shares: params.shares,
            min_frames: params.min,
            max_frames: params.max,
        },
        fuel: params.fuel,
        base: params.base,
        salt: params.salt,
        inputs,
    })
}

// Tells the number of a module that was kept, or says why it wasn't.
fn tell_module(answer: Result<ModuleId, ModuleError>, number: &mut usize) -> u32
    ensures code { result ≡ code_by module_error_code answer }
    ensures told { TellsCaller (λ id. id.number) answer number.old number.new }
{
    match answer {
        Ok(id) => {
            *number = id.number;
            DONE
        }
        Err(error) => of_module(error),
    }
}

// The code of what was answered where a module was to go.
fn unload_code(answer: Result<(), UnloadError>) -> u32
    ensures { result ≡ code_by unload_error_code answer }
{
    match answer {
        Ok(()) => DONE,
        Err(error) => of_unload(error),
    }
}

// Tells the name of an instance that was admitted, or says why it wasn't.
fn tell_instance(answer: Result<InstId, AdmitError>, instance: &mut RawInstance) -> u32
    ensures code { result ≡ code_by admit_error_code answer }
    ensures told { TellsCaller instance_of answer instance.old instance.new }
{
    match answer {
        Ok(id) => {
            *instance = name_of(id);
            DONE
        }
        Err(error) => of_admit(error),
    }
}

// Tells the name of a copy that was made, or says why none was.
fn tell_copy(answer: Result<InstId, ForkError>, instance: &mut RawInstance) -> u32
    ensures code { result ≡ code_by fork_error_code answer }
    ensures told { TellsCaller instance_of answer instance.old instance.new }
{
    match answer {
        Ok(id) => {
            *instance = name_of(id);
            DONE
        }
        Err(error) => of_fork(error),
    }
}

// Converts a quota from C.
fn quota_of(quota: &RawQuota) -> Quota
    ensures { view_quota result ≡ quota_by quota.now }
{
    Quota {
        shares: quota.shares,
        min_frames: quota.min,
        max_frames: quota.max,
    }
}

/// Keeps the module that these bytes spell: its number, counted from 0.
///
/// It answers NONE, or a code of the families D, V, L and M.
#[unsafe(no_mangle)]
pub extern "C" fn wq_load(
    alloc: Global,
    handle: &mut Handle,
    bytes: &[u8],
    number: &mut usize,
) -> u32
    ensures { ServesHandle handle.old.slot.held
        (ExportLoads bytes.now number.old number.new result) result handle.new.slot.held
        (number.new ≡ number.old) }
{
    let Some(mut hand) = handle.take(alloc) else {
        return NONE;
    };
    let answer = hand.load(alloc, bytes);
    handle.put(hand);
    tell_module(answer, number)
}

/// Lets a module go that no instance is of: its memory is free, and its number is never given again.
///
/// It answers NONE; A1 where no module has this number; IN_USE where an instance of it is there.
#[unsafe(no_mangle)]
pub extern "C" fn wq_unload(alloc: Global, handle: &mut Handle, of: usize) -> u32
    ensures { ServesHandle handle.old.slot.held (ExportUnloads of result) result
        handle.new.slot.held ⊤ }
{
    let Some(mut hand) = handle.take(alloc) else {
        return NONE;
    };
    let answer = hand.unload(ModuleId { number: of });
    handle.put(hand);
    unload_code(answer)
}

/// Admits an instance of a module, with what its owner gives it. Its start runs by `wq_run`, before its calls.
///
/// It answers MEMORY where there is no room for a copy of the inputs, NONE, or a code of the family A; A1 where no module has
/// this number.
#[unsafe(no_mangle)]
pub extern "C" fn wq_admit(
    alloc: Global,
    handle: &mut Handle,
    of: usize,
    params: &RawParams,
    inputs: &[u64],
    instance: &mut RawInstance,
) -> u32
    ensures { ServesWithRoom handle.old.slot.held
        (ExportAdmits of (given_by params.now inputs.now) instance.old instance.new result) result
        handle.new.slot.held (instance.new ≡ instance.old) }
{
    let Ok(params) = given(alloc, params, inputs) else {
        return MEMORY;
    };
    let Some(mut hand) = handle.take(alloc) else {
        return NONE;
    };
    let answer = hand.admit(alloc, ModuleId { number: of }, params);
    handle.put(hand);
    tell_instance(answer, instance)
}

/// Copies an instance without an open call: the copy begins as the instance is, with its memory, globals, table, output and
/// ended calls, and has this quota. No frame is taken, and no byte copied.
///
/// It answers NONE; H1 where no such instance is there; F1 where a call of it is open; F2 where its start has failed; A2 to A7
/// where an instance with this quota isn't admitted; F3 where the memory of the copy could not grow just as far, or has more
/// pages than the quota's `max`; F4 where a page of it is in swap or on its way; the first of them that holds. Where none does:
/// A9 where room is refused, where frames and slots are 2^32 together or more, or where 2^64 - 1 instances were admitted.
#[unsafe(no_mangle)]
pub extern "C" fn wq_fork(
    alloc: Global,
    handle: &mut Handle,
    of: &RawInstance,
    quota: &RawQuota,
    instance: &mut RawInstance,
) -> u32
    ensures { ServesHandle handle.old.slot.held
        (ExportForks (id_of of.now) (quota_by quota.now) instance.old instance.new result) result
        handle.new.slot.held (instance.new ≡ instance.old) }
{
    let Some(mut hand) = handle.take(alloc) else {
        return NONE;
    };
    let answer = hand.fork(alloc, named(of), quota_of(quota));
    handle.put(hand);
    tell_copy(answer, instance)
}
