// How an instance comes to a place, and how a memory ends.

ghost use Rattle.std.specs.Prelude.{◌≡◌};

use std::alloc::Global;
use wh_space::{Memory, Promise};

/// Gives an instance a place, with `size` pages of 65536 bytes, if the place and its number are free, and there are
/// frames, slots and room for it; tells whether it did.
pub fn enter(memory: &mut Memory, alloc: Global, place: usize, promise: Promise, size: u32) -> bool
    ensures { memory.new.slots ≡ memory.old.slots }
{
    let Promise {
        number,
        shares,
        min,
        max,
    } = promise;
    if shares < 1 || shares > 1000000 || min < 2 || max < min || max > 65536 {
        return false;
    }
    if size > max / 16 {
        return false;
    }
    if !memory.is_free(place) || !memory.is_fresh(number) {
        return false;
    }
    if u64::from(min) > memory.frames_left() || u64::from(max - min) >= memory.slots_left() {
        return false;
    }
    memory.enter(alloc, place, promise, size).is_ok()
}

/// Drops a memory. It is dropped here alone, and what holds one isn't `Drop`: each function that may drop one on some
/// of its ways takes half a minute more to prove.
pub fn let_go(memory: Memory) {
    drop(memory);
}
