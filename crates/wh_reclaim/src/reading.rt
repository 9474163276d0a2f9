// What an instance has in its memory, read through the device where it is in a slot.

ghost use Rattle.std.specs.Prelude.{◌≡◌, ◌+◌, ◌*◌, ◌^◌, ◌<◌, ◌≤◌, [], OnOk, get_or, length};
ghost use Rattle.wh_model.specs.Execution.Store.{bytes_at};
ghost use Rattle.wh_space_model.specs.Parts.{view};
ghost use Rattle.wh_swap.specs.DeviceCalls.{ServesOn, call_faults};

use crate::tickets::Buf;
use std::cmp::min;
use wh_space::Memory;
use wh_space_model::SwapError;
use wh_swap::SwapDev;

// Copies bytes of a page, from this offset on.
fn copy_part(page: &[u8; 4096], offset: usize, into: &mut [u8])
    requires { offset + length into.old ≤ 4096 }
    ensures { into.new ≡ bytes_at page.now offset (length into.old) }
{
    into.copy_from_slice(&page[offset..offset + into.len()]);
}

// Reads bytes of a page, wherever it is, and moves it nowhere.
fn read_there<D: SwapDev>(
    memory: &Memory,
    device: &mut D,
    place: usize,
    number: u32,
    offset: usize,
    into: &mut [u8],
    buf: &mut Buf,
) -> Result<(), SwapError>
    requires agrees { memory.now.slots.held ≡ D.held device.old }
    requires there { number < length (get_or memory.now.tables place []) }
    requires inside { offset + length into.old ≤ 4096 }
    ensures read { OnOk result (D.honest device.new → into.new
        ≡ bytes_at (view memory.now place) (4096 * number + offset) (length into.old)) }
    ensures held { D.held device.new ≡ D.held device.old }
    ensures writes { D.writes device.new ≡ D.writes device.old }
    ensures serves { ServesOn D.keeps D.honest D.faults device.old (call_faults result) device.new }
{
    memory.invariant();
    if memory.peek(place, number, offset, into) {
        return Ok(());
    }
    let Some(slot) = memory.slot_at(place, number) else {
        unreachable!();
    };
    match device.read(slot, buf) {
        Ok(()) => {
            copy_part(buf, offset, into);
            Ok(())
        }
        Err(fault) => Err(fault),
    }
}

/// Reads `into.len()` bytes of the memory of the instance at this place, from the one at this address on. A page in a slot is read
/// through the device, and stays there. No mark of touch is set. `buf` is used while the call lasts.
///
/// # Errors
/// That of the device's call that failed. What `into` holds is left open then.
pub fn read_bytes<D: SwapDev>(
    memory: &Memory,
    device: &mut D,
    place: usize,
    at: u64,
    into: &mut [u8],
    buf: &mut Buf,
) -> Result<(), SwapError>
    requires agrees { memory.now.slots.held ≡ D.held device.old }
    requires within { at + length into.old ≤ 4096 * length (get_or memory.now.tables place []) }
    requires few { length (get_or memory.now.tables place []) < 2 ^ 32 }
    ensures read { OnOk result (D.honest device.new
        → into.new ≡ bytes_at (view memory.now place) at (length into.old)) }
    ensures held { D.held device.new ≡ D.held device.old }
    ensures writes { D.writes device.new ≡ D.writes device.old }
    ensures serves { ServesOn D.keeps D.honest D.faults device.old (call_faults result) device.new }
{
    let mut done = 0;
    while done < into.len() {
        let from = at + done as u64;
        let offset = (from % 4096) as usize;
        let end = done + min(4096 - offset, into.len() - done);
        let number = (from / 4096) as u32;
        let part = &mut into[done..end];
        match read_there(memory, device, place, number, offset, part, buf) {
            Ok(()) => done = end,
            Err(fault) => return Err(fault),
        }
    }
    Ok(())
}
