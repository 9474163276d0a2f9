//! What owners ask of their instances.

ghost use Rattle.std.specs.Prelude.{◌≡◌, IfOk, ⊤};
ghost use Rattle.wh_host_model.specs.Host.Happens.{IsCancel, IsRefuel, IsRetry};
ghost use Rattle.wolqedir.specs.Codes.{code_by, host_error_code};
ghost use Rattle.wh_host.specs.HostCounting.{counts_after_cancel};
ghost use Rattle.wolqedir.specs.ExportContracts.{ExportAsks, ExportInvokes, ExportInvokesAt, ExportReleases, ServesHandle, ServesNamed, ServesWithRoom, TellsCaller};
ghost use Rattle.wolqedir.specs.Shapes.{id_of};

use crate::codes::{DONE, MEMORY, NAME, NONE, of_host};
use crate::handle::Handle;
use crate::shapes::{RawInstance, named};
use std::alloc::{AllocError, Global};
use std::str;
use wh_hand::{Cancel, HostError, Invoke, InvokeAt, Refuel, Retry};

// The code of what was answered.
fn code_of(answer: Result<(), HostError>) -> u32
    ensures { result ≡ code_by host_error_code answer }
{
    match answer {
        Ok(()) => DONE,
        Err(error) => of_host(error),
    }
}

// Tells the place of a call that was taken, or says why it wasn't.
fn tell_place(answer: Result<u32, HostError>, call: &mut u32) -> u32
    ensures code { result ≡ code_by host_error_code answer }
    ensures told { TellsCaller (λ at. at) answer call.old call.new }
{
    match answer {
        Ok(at) => {
            *call = at;
            DONE
        }
        Err(error) => of_host(error),
    }
}

// Tells how many bytes an instance had put out that was let go, or says why it wasn't.
fn tell_length(answer: Result<(), HostError>, count: usize, len: &mut usize) -> u32
    ensures code { result ≡ code_by host_error_code answer }
    ensures told { TellsCaller (λ _. count) answer len.old len.new }
{
    match answer {
        Ok(()) => {
            *len = count;
            DONE
        }
        Err(error) => of_host(error),
    }
}

// These arguments, as a host takes them.
fn widened(alloc: Global, args: &[i64]) -> Result<Vec<i128>, AllocError>
    ensures { IfOk result (λ wide. wide.items ≡ args.now) }
{
    let mut wide = Vec::with_capacity(alloc, args.len())?;
    for arg in args {
        wide.push(i128::from(*arg))?;
    }
    Ok(wide)
}

/// Queues a call of the function that an instance exports by this name, with these arguments and `fuel` charges; gives
/// its place among the instance's calls, where the start is 0. `wq_run` runs it, after the open calls.
///
/// An argument is a number in the bits of its type, signed or unsigned; an i64 above 2^63 - 1 is given by its signed
/// reading.
///
/// It answers NAME where the name isn't UTF-8, MEMORY where there is no room for a copy of the arguments, NONE, or a
/// code of the family H.
#[unsafe(no_mangle)]
pub extern "C" fn wq_invoke(
    alloc: Global,
    handle: &mut Handle,
    instance: &RawInstance,
    name: &[u8],
    args: &[i64],
    fuel: u64,
    call: &mut u32,
) -> u32
    ensures { ServesNamed name.now handle.old.slot.held
        (ExportInvokes (id_of instance.now) name.now args.now fuel call.old call.new result)
        result handle.new.slot.held (call.new ≡ call.old) }
{
    let Ok(name) = str::from_utf8(name) else {
        return NAME;
    };
    let Ok(args) = widened(alloc, args) else {
        return MEMORY;
    };
    let Some(mut hand) = handle.take(alloc) else {
        return NONE;
    };
    let answer = hand.ask(Invoke {
        alloc,
        id: named(instance),
        name,
        given: &args,
        fuel,
    });
    handle.put(hand);
    tell_place(answer, call)
}

/// Queues a call as `wq_invoke` does, of the function at place `at` of those that the instance's module exports: that by the name
/// which `wq_export_at` tells.
///
/// It answers MEMORY where there is no room for a copy of the arguments, NONE, or a code of the family H; H2 where there is no
/// such place.
#[unsafe(no_mangle)]
pub extern "C" fn wq_invoke_at(
    alloc: Global,
    handle: &mut Handle,
    instance: &RawInstance,
    at: usize,
    args: &[i64],
    fuel: u64,
    call: &mut u32,
) -> u32
    ensures { ServesWithRoom handle.old.slot.held
        (ExportInvokesAt (id_of instance.now) at args.now fuel call.old call.new result)
        result handle.new.slot.held (call.new ≡ call.old) }
{
    let Ok(args) = widened(alloc, args) else {
        return MEMORY;
    };
    let Some(mut hand) = handle.take(alloc) else {
        return NONE;
    };
    let answer = hand.ask(InvokeAt {
        alloc,
        id: named(instance),
        at,
        given: &args,
        fuel,
    });
    handle.put(hand);
    tell_place(answer, call)
}

/// Adds `fuel` charges to the present call of an instance, up to 2^64 - 1 in all. A call that waits for fuel can then
/// make progress, if it was given any.
///
/// It answers NONE, H1, or H8 where no call is open.
#[unsafe(no_mangle)]
pub extern "C" fn wq_refuel(
    alloc: Global,
    handle: &mut Handle,
    instance: &RawInstance,
    fuel: u64,
) -> u32
    ensures { ServesHandle handle.old.slot.held
        (ExportAsks (λ w answer w2. IsRefuel w (id_of instance.now) fuel answer w2) (λ h h2. h.counts) result) result
        handle.new.slot.held ⊤ }
{
    let Some(mut hand) = handle.take(alloc) else {
        return NONE;
    };
    let id = named(instance);
    let answer = hand.ask(Refuel { id, fuel });
    handle.put(hand);
    code_of(answer)
}

/// Retries the present call of an instance, if it is blocked on a fault of the swap device. A device in memory has
/// none.
///
/// It answers NONE, H1, or H8 where it isn't blocked on one.
#[unsafe(no_mangle)]
pub extern "C" fn wq_retry(alloc: Global, handle: &mut Handle, instance: &RawInstance) -> u32
    ensures { ServesHandle handle.old.slot.held
        (ExportAsks (λ w answer w2. IsRetry w (id_of instance.now) answer w2) (λ h h2. h.counts) result) result
        handle.new.slot.held ⊤ }
{
    let Some(mut hand) = handle.take(alloc) else {
        return NONE;
    };
    let id = named(instance);
    let answer = hand.ask(Retry { id });
    handle.put(hand);
    code_of(answer)
}

/// Ends the present call of an instance where it is; what it has written stays. A start that is cancelled leaves the
/// instance dead, and the calls after it end as dead.
///
/// It answers NONE, H1, or H8 where no call is open.
#[unsafe(no_mangle)]
pub extern "C" fn wq_cancel(alloc: Global, handle: &mut Handle, instance: &RawInstance) -> u32
    ensures { ServesHandle handle.old.slot.held
        (ExportAsks (λ w answer w2. IsCancel w (id_of instance.now) answer w2)
        (λ h h2. counts_after_cancel h (id_of instance.now) h2) result) result
        handle.new.slot.held ⊤ }
{
    let Some(mut hand) = handle.take(alloc) else {
        return NONE;
    };
    let id = named(instance);
    let answer = hand.ask(Cancel { id });
    handle.put(hand);
    code_of(answer)
}

/// Releases an instance, whatever its calls are; gives the number of bytes that it had put out. They stay in the host
/// until the next release, and `wq_taken` copies them from there.
///
/// It answers NONE or H1.
#[unsafe(no_mangle)]
pub extern "C" fn wq_release(
    alloc: Global,
    handle: &mut Handle,
    instance: &RawInstance,
    len: &mut usize,
) -> u32
    ensures { ServesHandle handle.old.slot.held
        (ExportReleases (id_of instance.now) len.old len.new result) result handle.new.slot.held
        (len.new ≡ len.old) }
{
    let Some(mut hand) = handle.take(alloc) else {
        return NONE;
    };
    let answer = hand.release(alloc, named(instance));
    let count = hand.output().len();
    handle.put(hand);
    tell_length(answer, count, len)
}
