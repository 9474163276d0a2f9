//! The labels of `br_table`, which are in a pool of the expression.

ghost use Rattle.std.specs.Prelude.{◌≡◌, ◌+◌, ◌<◌, ◌≤◌, ◌^◌, ◌++◌, ◌∷◌, [], length, IfOk, IfErr, OnOk};
ghost use Rattle.wh_leb.specs.Reading.{u32_at, times_at, limited_at, Gives};
ghost use Rattle.wh_syntax.specs.Shown.{instr_of, InPool};
ghost use Rattle.wh_expr.specs.ReadingCode.{table_at};
ghost use Rattle.wh_expr.specs.Stack.{AddsRead, Extends};

use wh_leb::{fault, read_u32};
use wh_model::{DecodeError, FaultKind};
use wh_syntax::Instr;

const MOST_LABELS: u32 = 4096;

/// Puts a label at the end of the pool; the place is that of a fault.
fn keep_label(labels: &mut Vec<u32>, label: u32, at: usize) -> Result<(), DecodeError>
    ensures ok { OnOk result (labels.new.items ≡ labels.old.items ++ label ∷ []) }
    ensures err { IfErr result (λ e. e.kind ≡ FaultKind.Memory) }
{
    match labels.push(label) {
        Ok(()) => Ok(()),
        Err(_) => fault(FaultKind::Memory, at),
    }
}

/// Reads `count` labels into the pool; returns the offset after them.
fn keep_labels(
    count: u32,
    bytes: &[u8],
    at: usize,
    labels: &mut Vec<u32>,
) -> Result<usize, DecodeError>
    requires { at ≤ length bytes.now }
    ensures exact { AddsRead labels.old.items labels.new.items result
        (times_at count u32_at bytes.now at) }
    ensures grows { IfOk result
        (λ next. length labels.new.items ≡ length labels.old.items + count) }
    ensures paid { IfOk result (λ next. at + count ≤ next) }
    ensures inside { IfOk result (λ next. next ≤ length bytes.now) }
{
    let mut place = at;
    for index in 0..count {
        let (label, next) = read_u32(bytes, place)?;
        keep_label(labels, label, place)?;
        place = next;
    }
    Ok(place)
}

/// The count of the labels besides the default one.
fn label_count(bytes: &[u8], at: usize) -> Result<(u32, usize), DecodeError>
    requires { at ≤ length bytes.now }
    ensures exact { result ≡ limited_at 4096 u32_at bytes.now at }
    ensures beyond { IfOk result (λ found. at < found.1) }
    ensures inside { IfOk result (λ found. found.1 ≤ length bytes.now) }
{
    let (count, next) = read_u32(bytes, at)?;
    if MOST_LABELS < count {
        return fault(FaultKind::Limit, at);
    }
    Ok((count, next))
}

/// Reads a `br_table` after its opcode, and appends its labels to the pool; returns it and the offset after it.
pub fn label_table(
    bytes: &[u8],
    at: usize,
    labels: &mut Vec<u32>,
) -> Result<(Instr, usize), DecodeError>
    requires inside { at ≤ length bytes.now }
    requires short { length bytes.now < 2 ^ 32 }
    requires paid { length labels.old.items ≤ at }
    ensures exact { Gives (λ found. (instr_of labels.new.items found.0, found.1)) result
        (table_at bytes.now at) }
    ensures in_pool { IfOk result (λ found. InPool labels.new.items found.0) }
    ensures grows { IfOk result (λ found. Extends labels.old.items labels.new.items) }
    ensures paid { IfOk result (λ found. length labels.new.items ≤ found.1) }
    ensures inside { IfOk result (λ found. found.1 ≤ length bytes.now) }
{
    let first = labels.len() as u32;
    let (count, next) = label_count(bytes, at)?;
    let next = keep_labels(count, bytes, next, labels)?;
    let (last, end) = read_u32(bytes, next)?;
    keep_label(labels, last, next)?;
    Ok((Instr::BrTable { first, count }, end))
}
