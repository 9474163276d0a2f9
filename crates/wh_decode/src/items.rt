//! Items that stand one after the other.

ghost use Rattle.std.specs.Prelude.{◌≡◌, ℕ, ◌≤◌, ◌^◌, ◌<◌, ◌++◌, ◌∷◌, [], List, length, IfOk, IfErr, OnOk, Result};
ghost use Rattle.wh_model.specs.declared.faults.DecodeError.{DecodeError};
ghost use Rattle.wh_leb.specs.Reading.{limited_at, u32_at};
ghost use Rattle.wh_decode.specs.Items.{GivesItems, seen};

use std::alloc::Global;
use wh_leb::{fault, read_u32};
use wh_model::{DecodeError, FaultKind};

/// Something that can be read from a place of a module's bytes.
pub trait Item: Sized {
    /// What reading it from a place of bytes may give.
    ghost gift: { List ℕ → ℕ → Result (Self × ℕ) DecodeError → Type 0 };

    /// Reads it, and gives the place after it.
    fn read(alloc: Global, bytes: &[u8], at: usize) -> Result<(Self, usize), DecodeError>
        requires inside { at ≤ length bytes.now }
        requires short { length bytes.now < 2 ^ 32 }
        ensures exact { gift bytes.now at result }
        ensures inside { IfOk result (λ found. found.1 ≤ length bytes.now) };
}

/// Puts a value at the end of a list; the place is that of a fault.
pub fn keep<T>(list: &mut Vec<T>, value: T, at: usize) -> Result<(), DecodeError>
where
    T: Drop,
    ensures ok { OnOk result (list.new.items ≡ list.old.items ++ value ∷ []) }
    ensures err { IfErr result (λ e. e.kind ≡ FaultKind.Memory) }
{
    match list.push(value) {
        Ok(()) => Ok(()),
        Err(_) => fault(FaultKind::Memory, at),
    }
}

/// Reads `count` items; returns them and the offset after them. The list grows as items are read: the count itself
/// allocates nothing.
pub fn items<T: Item + Drop>(
    alloc: Global,
    count: u32,
    bytes: &[u8],
    at: usize,
) -> Result<(Vec<T>, usize), DecodeError>
    requires inside { at ≤ length bytes.now }
    requires short { length bytes.now < 2 ^ 32 }
    ensures exact { GivesItems T.gift count bytes.now at
        (seen (λ found. (found.0.items, found.1)) result) }
    ensures inside { IfOk result (λ found. found.1 ≤ length bytes.now) }
{
    let mut list = Vec::new(alloc);
    let mut place = at;
    for index in 0..count {
        let (item, next) = T::read(alloc, bytes, place)?;
        keep(&mut list, item, place)?;
        place = next;
    }
    Ok((list, place))
}

/// Reads the count of a vector, at most `limit`, before any of its items; returns it and the offset after it.
pub fn count_up_to(bytes: &[u8], at: usize, limit: u32) -> Result<(u32, usize), DecodeError>
    requires { at ≤ length bytes.now }
    ensures exact { result ≡ limited_at limit u32_at bytes.now at }
    ensures few { IfOk result (λ found. found.0 ≤ limit) }
    ensures inside { IfOk result (λ found. found.1 ≤ length bytes.now) }
{
    let (count, next) = read_u32(bytes, at)?;
    if limit < count {
        return fault(FaultKind::Limit, at);
    }
    Ok((count, next))
}
