//! Data segments, written to a memory.

ghost use Rattle.std.specs.Prelude.{◌≡◌, ◌<◌, List, length, slice_get, Some};
ghost use Rattle.wh_model.specs.Execution.Instance.{Piece, Within};
ghost use Rattle.wh_syntax.specs.declared.module.Data.{Data};
ghost use Rattle.wh_alone.specs.ModuleCalls.{ArePieces, written_over};

use wh_flatmem::FlatMemory;
use wh_syntax::Data;

fn place_at(places: &[u32], at: usize) -> usize
    requires { at < length places.now }
    ensures { slice_get places.now at ≡ Some result }
{
    places[at] as usize
}

fn segment_at(segments: &[Data], at: usize) -> &Data
    requires { at < length segments.now }
    ensures { slice_get segments.now at ≡ Some result.now }
{
    &segments[at]
}

/// Writes data segments, in order, each from its place on. They end within the memory.
pub fn write_segments(segments: &[Data], places: &[u32], memory: &mut FlatMemory)
    requires { (ps : List Piece) × ArePieces ps places.now segments.now
        × Within (length memory.old.bytes) ps }
    ensures bytes { (ps : List Piece) → ArePieces ps places.now segments.now
        → Within (length memory.old.bytes) ps
        → memory.new.bytes ≡ written_over memory.old.bytes ps }
    ensures limit { memory.new.limit ≡ memory.old.limit }
{
    for at in 0..segments.len() {
        let segment = segment_at(segments, at);
        memory.write(place_at(places, at), segment.init.as_slice());
    }
}
