//! Custom sections (5.5.3), which stand anywhere and leave nothing, and the beginnings of the others (5.5.2).

ghost use Rattle.std.specs.Prelude.{◌≡◌, ◌≤◌, length, drop, IfOk};
ghost use Rattle.wh_leb.specs.Reading.{Gives};
ghost use Rattle.wh_decode.specs.ReadingModule.{custom_at, begins_with, skip_at};
ghost use Rattle.wh_decode.specs.Beginnings.{LeavesPlace, section_start_at};

use crate::parts::name;
use crate::types::expect_byte;
use crate::windows::{outer, window};
use wh_leb::{fault, read_u32};
use wh_model::{DecodeError, FaultKind};

/// The place after a custom section.
#[tactic(auto, unfolding(crate::specs::ReadingModule::custom_at))]
fn custom(bytes: &[u8], at: usize) -> Result<usize, DecodeError>
    requires { at ≤ length bytes.now }
    ensures exact { LeavesPlace result (custom_at bytes.now at) }
    ensures inside { IfOk result (λ next. next ≤ length bytes.now) }
{
    let next = expect_byte(bytes, at, 0, FaultKind::UnknownByte)?;
    let (size, start) = read_u32(bytes, next)?;
    let end = start + size as usize;
    let whole = end <= bytes.len();
    match name(window(bytes, end), start) {
        Ok(_) => {
            if whole {
                Ok(end)
            } else {
                fault(FaultKind::Truncated, bytes.len())
            }
        }
        Err(inner) => Err(outer(whole, inner)),
    }
}

/// Tells whether the byte at this offset is `byte`.
pub fn stands_at(bytes: &[u8], at: usize, byte: u8) -> bool
    requires { at ≤ length bytes.now }
    ensures { result ≡ begins_with byte (drop at bytes.now) }
{
    if at == bytes.len() {
        return false;
    }
    bytes[at] == byte
}

/// Skips the custom sections at this offset; returns the offset after them.
pub fn skip(bytes: &[u8], at: usize) -> Result<usize, DecodeError>
    requires { at ≤ length bytes.now }
    ensures exact { Gives (λ next. next) result (skip_at bytes.now at) }
    ensures inside { IfOk result (λ next. next ≤ length bytes.now) }
{
    let mut place = at;
    while stands_at(bytes, place, 0) {
        place = custom(bytes, place)?;
    }
    Ok(place)
}

/// Reads the id, which has to be this one, and the size of a section; returns the size in bytes and the offset of its
/// contents.
pub fn section_start(bytes: &[u8], at: usize, id: u8) -> Result<(u32, usize), DecodeError>
    requires { at ≤ length bytes.now }
    ensures exact { Gives (λ x. x) result (section_start_at id bytes.now at) }
    ensures inside { IfOk result (λ found. found.1 ≤ length bytes.now) }
{
    let next = expect_byte(bytes, at, id, FaultKind::UnknownByte)?;
    read_u32(bytes, next)
}
