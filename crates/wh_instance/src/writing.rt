//! The data segments of an instance's start, written a fragment at a time.

ghost use Rattle.std.specs.Prelude.{◌≡◌, ◌+◌, ◌*◌, ◌<◌, ◌≤◌, ◌^◌, ◌∷◌, ℕ, List, [], length, min, slice_get, Some, IfSome, IfNone};
ghost use Rattle.std.specs.Bool.{MatchBool};
ghost use Rattle.wh_model.specs.Execution.Instance.{Within, fragments};
ghost use Rattle.wh_model.specs.Execution.Memory.{writing};
ghost use Rattle.wh_model.specs.Execution.Store.{written};
ghost use Rattle.wh_syntax.specs.declared.module.Data.{Data};
ghost use Rattle.wh_instance.specs.Pieces.{placed_data, pieces_left, IsAtByte, HasWritten, NextWaits};

use wh_linmem::LinearMem;
use wh_model::{Got, Need};
use wh_syntax::Data;

/// How far the data segments of a module are written: up to this byte of this segment.
#[derive(Clone, Copy)]
pub struct Cursor {
    /// The index of the segment.
    pub segment: usize,
    /// How many of its bytes are written.
    pub at: usize,
}

impl Cursor {
    /// Returns the cursor with which a start begins: nothing is written, and all fragments of the segments are left. If
    /// these end within `size` bytes of memory, each segment has no more fragments than that.
    pub fn first() -> Cursor
        ensures all { (segments : List Data) (places : List ℕ)
            → pieces_left segments places result ≡ fragments (placed_data segments places) }
        ensures few { (segments : List Data) (places : List ℕ) (size : ℕ)
            → Within size (placed_data segments places)
            → length (pieces_left segments places result) ≤ size * length segments }
    {
        Cursor { segment: 0, at: 0 }
    }

    /// Tells whether any piece is left from the cursor on.
    pub fn has_pieces(self, segments: &[Data], places: &[u32]) -> bool
        ensures { MatchBool result (¬ (pieces_left segments.now places.now self ≡ []))
            (pieces_left segments.now places.now self ≡ []) }
    {
        match next_byte(segments, places, self) {
            Some(_) => true,
            None => false,
        }
    }
}

/// A piece as it is written.
#[derive(Clone, Copy)]
struct Fragment<'a> {
    /// The place of its first byte.
    at: u64,
    /// Its bytes, 1 to 4096.
    bytes: &'a [u8],
    /// The cursor after it.
    after: Cursor,
}

fn segment_at(segments: &[Data], at: usize) -> &Data
    requires { at < length segments.now }
    ensures { slice_get segments.now at ≡ Some result.now }
{
    &segments[at]
}

fn bytes_of(segment: &Data) -> &[u8]
    ensures { result.now ≡ segment.now.init.items }
{
    segment.init.as_slice()
}

fn place_at(places: &[u32], at: usize) -> u64
    requires { at < length places.now }
    ensures { slice_get places.now at ≡ Some result }
{
    places[at] as u64
}

fn least(a: usize, b: usize) -> usize
    ensures { result ≡ min a b }
{
    if a < b { a } else { b }
}

/// Where the next byte to be written is, if there is one: segments that are written in full, or have no bytes, are passed
/// over.
fn next_byte(segments: &[Data], places: &[u32], from: Cursor) -> Option<Cursor>
    ensures some { IfSome result (λ c. IsAtByte segments.now places.now c
        × (pieces_left segments.now places.now c ≡ pieces_left segments.now places.now from)) }
    ensures none { IfNone result (pieces_left segments.now places.now from ≡ []) }
{
    let mut at = from.at;
    for segment in from.segment..least(segments.len(), places.len()) {
        let bytes = bytes_of(segment_at(segments, segment));
        if at < bytes.len() {
            return Some(Cursor { segment, at });
        }
        at = 0;
    }
    None
}

/// The piece that begins at this byte: it ends with the segment, or before the next multiple of 4096.
fn fragment_at<'a>(segments: &'a [Data], places: &[u32], cursor: Cursor) -> Fragment<'a>
    requires { IsAtByte segments.now places.now cursor }
    ensures next { pieces_left segments.now places.now cursor
        ≡ record { at = result.at; items = result.bytes.now }
        ∷ pieces_left segments.now places.now result.after }
    ensures few { length result.bytes.now ≤ 4096 }
{
    let segment = segment_at(segments, cursor.segment);
    let bytes = bytes_of(segment);
    let place = place_at(places, cursor.segment);
    let at = place + cursor.at as u64;
    let count = least(bytes.len() - cursor.at, 4096 - (at % 4096) as usize);
    Fragment {
        at,
        bytes: &bytes[cursor.at..cursor.at + count],
        after: Cursor {
            segment: cursor.segment,
            at: cursor.at + count,
        },
    }
}

/// The bytes that a piece writes.
fn need_of(piece: Fragment<'_>) -> Need
    ensures { result ≡ writing piece.entry.at (length piece.entry.bytes.now) }
{
    Need {
        at: piece.at,
        length: piece.bytes.len(),
        writes: true,
    }
}

/// Writes a piece that is ready.
fn write_piece<M: LinearMem>(piece: Fragment<'_>, memory: &mut M)
    requires at_hand { M.ready memory.old (writing piece.at (length piece.bytes.now)) }
    requires within { piece.at + length piece.bytes.now ≤ length (M.bytes memory.old) }
    requires few { length piece.bytes.now ≤ 4096 }
    ensures bytes { M.bytes memory.new
        ≡ written (M.bytes memory.old) piece.entry.at piece.entry.bytes.now }
    ensures keeps { M.keeps memory.old memory.new }
{
    match memory.store(piece.at, piece.bytes) {
        Got::Value => {}
        Got::Trap | Got::NotReady(_) => unreachable!(),
    }
}

/// Writes data segments from the cursor on, each from its place on, as the fragments into which multiples of 4096 cut
/// it. Each is ready when it is written, and none is written twice. Returns how many were written, and what the next
/// one wants, if one is left: that isn't ready.
pub fn write_pieces<M: LinearMem>(
    segments: &[Data],
    places: &[u32],
    cursor: &mut Cursor,
    memory: &mut M,
) -> (u64, Option<Need>)
    requires within { Within (length (M.bytes memory.old))
        (pieces_left segments.now places.now cursor.old) }
    requires few { length (pieces_left segments.now places.now cursor.old) < 2 ^ 64 }
    ensures written { HasWritten M.bytes M.ready M.keeps
        (pieces_left segments.now places.now cursor.old) memory.old result.0
        (pieces_left segments.now places.now cursor.new) memory.new }
    ensures waits { NextWaits (M.ready memory.new)
        (pieces_left segments.now places.now cursor.new) result.1 }
    ensures size { length (M.bytes memory.new) ≡ length (M.bytes memory.old) }
    ensures keeps { M.keeps memory.old memory.new }
    ensures limit { M.limit memory.new ≡ M.limit memory.old }
{
    let mut count = 0;
    loop {
        let Some(next) = next_byte(segments, places, *cursor) else {
            return (count, None);
        };
        let piece = fragment_at(segments, places, next);
        let need = need_of(piece);
        if !memory.is_ready(need) {
            return (count, Some(need));
        }
        write_piece(piece, memory);
        *cursor = piece.after;
        count += 1;
    }
}
