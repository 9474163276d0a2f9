//! What a host shows of instances while they live, and of the functions that modules export.

ghost use Rattle.std.specs.Prelude.{◌≡◌, ◌≢◌, ◌+◌, ◌-◌, ◌<◌, ◌++◌, ℕ, Some, drop, length, map, min, slice_get};
ghost use Rattle.wh_host.specs.Telling.{CountsEnded};
ghost use Rattle.wolqedir.specs.Codes.{bytes_error_code, code_by};
ghost use Rattle.wolqedir.specs.ExportContracts.{ServesHandle};
ghost use Rattle.wolqedir.specs.LiveContracts.{ExportReads, ExportShows, HasStatuses, IsShownAt, IsUntold, TellsEnded, TellsExport, TellsExportCount, TellsOutput};
ghost use Rattle.wolqedir.specs.Rooms.{laid_in};
ghost use Rattle.wolqedir.specs.Shapes.{id_of, type_bits};

use crate::codes::{DONE, NONE, UNKNOWN, of_bytes, of_host};
use crate::handle::Handle;
use crate::rooms::lay;
use crate::shapes::{RawExport, RawInstance, RawStatus, bits_of_type, named, shown};
use std::alloc::Global;
use wh_hand::{BytesError, Hand, HostError, InstId, ModuleId};
use wh_model::ValType;

// These from this place on.
fn from_place(items: &[u8], from: usize) -> &[u8]
    ensures { result.now ≡ drop from items.now }
{
    if from >= items.len() {
        return &items[items.len()..];
    }
    &items[from..]
}

// Tells what an instance has put out, or says that it isn't there.
fn tell_output(hand: &Hand, id: InstId, from: usize, room: &mut [u8], len: &mut usize) -> u32
    ensures told { TellsOutput id from room.old room.new len.old len.new result hand.now.host }
    ensures left { result ≢ 0 → (room.new ≡ room.old) × (len.new ≡ len.old) }
{
    match hand.output_of(id) {
        Ok(output) => {
            lay(from_place(output, from), room, len);
            *len = output.len();
            DONE
        }
        Err(error) => of_host(error),
    }
}

/// Copies as many bytes as there is room for of what an instance has put out so far, from place `from` on, and tells how many
/// bytes it has put out in all. These are what its journal gives, and what `wq_release` would keep.
///
/// It answers NONE or H1.
#[unsafe(no_mangle)]
pub extern "C" fn wq_output_of(
    alloc: Global,
    handle: &mut Handle,
    instance: &RawInstance,
    from: usize,
    room: &mut [u8],
    len: &mut usize,
) -> u32
    ensures { ServesHandle handle.old.slot.held
        (ExportShows (TellsOutput (id_of instance.now) from room.old room.new len.old len.new result)) result
        handle.new.slot.held ((room.new ≡ room.old) × (len.new ≡ len.old)) }
{
    let Some(hand) = handle.take(alloc) else {
        return NONE;
    };
    let code = tell_output(&hand, named(instance), from, room, len);
    handle.put(hand);
    code
}

// The code of what was answered where bytes were to be read.
fn bytes_code(answer: Result<(), BytesError>) -> u32
    ensures { result ≡ code_by bytes_error_code answer }
{
    match answer {
        Ok(()) => DONE,
        Err(error) => of_bytes(error),
    }
}

/// Copies the bytes of an instance's memory from this address on into the whole room, as the instance sees them between two of its
/// turns. Nothing changes; a page in swap stays there.
///
/// It answers NONE, H1, or OUTSIDE where its memory has fewer bytes.
#[unsafe(no_mangle)]
pub extern "C" fn wq_read(
    alloc: Global,
    handle: &mut Handle,
    instance: &RawInstance,
    address: u64,
    room: &mut [u8],
) -> u32
    ensures { ServesHandle handle.old.slot.held
        (ExportReads (id_of instance.now) address room.old room.new result) result
        handle.new.slot.held (room.new ≡ room.old) }
{
    let Some(mut hand) = handle.take(alloc) else {
        return NONE;
    };
    let answer = hand.read(named(instance), address, room);
    handle.put(hand);
    bytes_code(answer)
}

// The status of a call that has ended, at this place of the instance's journal.
fn ended_status(hand: &Hand, id: InstId, at: usize) -> RawStatus
    requires { (ended : ℕ) × CountsEnded hand.now.host id (Some ended) × (at < ended) }
    ensures { IsShownAt hand.now.host id at result }
{
    hand.invariant();
    let Some((far, charges)) = hand.status(id, at as u32) else {
        unreachable!();
    };
    shown(far, charges)
}

// Puts the statuses of the calls from this place on into the room.
fn lay_ended(hand: &Hand, id: InstId, from: usize, ended: usize, room: &mut [RawStatus])
    requires { CountsEnded hand.now.host id (Some ended) }
    ensures { HasStatuses hand.now.host id from (min (ended - from) (length room.old)) room.old room.new }
{
    let many = ended.saturating_sub(from).min(room.len());
    for at in 0..many {
        room[at] = ended_status(hand, id, from + at);
    }
}

// Tells the ends of the calls of an instance, or says that it isn't there.
fn tell_ended(
    hand: &Hand,
    id: InstId,
    from: usize,
    room: &mut [RawStatus],
    count: &mut usize,
) -> u32
    ensures told { TellsEnded id from room.old room.new count.old count.new result hand.now.host }
    ensures left { result ≢ 0 → (room.new ≡ room.old) × (count.new ≡ count.old) }
{
    match hand.ended_calls(id) {
        Some(ended) => {
            lay_ended(hand, id, from, ended, room);
            *count = ended.saturating_sub(from);
            DONE
        }
        None => of_host(HostError::NoInstance),
    }
}

/// Gives as many as there is room for of the statuses of an instance's calls that have ended, from place `from` of its journal
/// on, each as `wq_status_of` tells it, and tells how many there are from there on.
///
/// It answers NONE or H1.
#[unsafe(no_mangle)]
pub extern "C" fn wq_ended(
    alloc: Global,
    handle: &mut Handle,
    instance: &RawInstance,
    from: usize,
    room: &mut [RawStatus],
    count: &mut usize,
) -> u32
    ensures { ServesHandle handle.old.slot.held
        (ExportShows (TellsEnded (id_of instance.now) from room.old room.new count.old count.new result)) result
        handle.new.slot.held ((room.new ≡ room.old) × (count.new ≡ count.old)) }
{
    let Some(hand) = handle.take(alloc) else {
        return NONE;
    };
    let code = tell_ended(&hand, named(instance), from, room, count);
    handle.put(hand);
    code
}

// Tells how many functions a module exports, or says that it isn't there.
fn tell_export_count(hand: &Hand, of: usize, count: &mut usize) -> u32
    ensures told { TellsExportCount of count.old count.new result hand.now.host }
    ensures left { result ≢ 0 → count.new ≡ count.old }
{
    match hand.export_count(ModuleId { number: of }) {
        Some(many) => {
            *count = many;
            DONE
        }
        None => UNKNOWN,
    }
}

/// Tells how many functions a module exports.
///
/// It answers NONE, or UNKNOWN where there is no such module.
#[unsafe(no_mangle)]
pub extern "C" fn wq_export_count(
    alloc: Global,
    handle: &mut Handle,
    of: usize,
    count: &mut usize,
) -> u32
    ensures { ServesHandle handle.old.slot.held
        (ExportShows (TellsExportCount of count.old count.new result)) result handle.new.slot.held
        (count.new ≡ count.old) }
{
    let Some(hand) = handle.take(alloc) else {
        return NONE;
    };
    let code = tell_export_count(&hand, of, count);
    handle.put(hand);
    code
}

// The bits of the type at this place of these parameters and then these results.
fn bits_at(params: &[ValType], results: &[ValType], at: usize) -> u8
    requires { at < length params.now + length results.now }
    ensures { slice_get (map type_bits params.now ++ map type_bits results.now) at ≡ Some result }
{
    if at < params.len() {
        return bits_of_type(params[at]);
    }
    bits_of_type(results[at - params.len()])
}

// Puts the bits of these parameters, and then of these results, into the room, as many as there is room for.
fn lay_bits(params: &[ValType], results: &[ValType], room: &mut [u8])
    ensures { room.new ≡ laid_in (map type_bits params.now ++ map type_bits results.now) room.old }
{
    let count = params.len() + results.len();
    for at in 0..count.min(room.len()) {
        room[at] = bits_at(params, results, at);
    }
}

// Tells which function a module exports at this place, or says that there is none.
fn tell_export(
    hand: &Hand,
    of: usize,
    at: usize,
    export: &mut RawExport,
    name: &mut [u8],
    types: &mut [u8],
) -> u32
    ensures told { TellsExport of at export.old export.new name.old name.new types.old types.new result hand.now.host }
    ensures left { result ≢ 0
        → IsUntold export.old export.new name.old name.new types.old types.new }
{
    let Some(found) = hand.export_at(ModuleId { number: of }, at) else {
        return UNKNOWN;
    };
    let mut len = 0;
    lay(found.name.as_bytes(), name, &mut len);
    lay_bits(found.params, found.results, types);
    *export = RawExport {
        name_len: found.name.len(),
        params: found.params.len(),
        results: found.results.len(),
    };
    DONE
}

/// Tells which function a module exports at place `at` of those that it exports, in the module's order: how many bytes its name
/// has, and how many parameters and results there are. Copies as many bytes as there is room for of its name; and of the numbers
/// of bits, 32 or 64, of its parameters and then of its results.
///
/// It answers NONE, or UNKNOWN where there is no such module or place.
#[unsafe(no_mangle)]
pub extern "C" fn wq_export_at(
    alloc: Global,
    handle: &mut Handle,
    of: usize,
    at: usize,
    export: &mut RawExport,
    name: &mut [u8],
    types: &mut [u8],
) -> u32
    ensures { ServesHandle handle.old.slot.held
        (ExportShows (TellsExport of at export.old export.new name.old name.new types.old types.new result)) result
        handle.new.slot.held (IsUntold export.old export.new name.old name.new types.old types.new) }
{
    let Some(hand) = handle.take(alloc) else {
        return NONE;
    };
    let code = tell_export(&hand, of, at, export, name, types);
    handle.put(hand);
    code
}
