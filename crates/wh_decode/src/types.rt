//! Types (section 5.3 of the standard).

ghost use Rattle.std.specs.Prelude.{◌≡◌, ◌<◌, ◌≤◌, ◌++◌, ◌∷◌, [], length, IfOk, IfErr, OnOk};
ghost use Rattle.wh_model.specs.Format.Grammar.{exact_byte};
ghost use Rattle.wh_model.specs.Format.Opcodes.{value_type, mutability, limits_flag};
ghost use Rattle.wh_leb.specs.Reading.{one_at, times_at, u32_at, Gives};
ghost use Rattle.wh_syntax.specs.View.{view_type, view_limits, view_table, view_global_type};
ghost use Rattle.wh_decode.specs.ReadingModule.{functype_at, limits_by_at, limits_at, tabletype_at, globaltype_at};

use crate::items::{Item, count_up_to};
use smallvec::SmallVec;
use std::alloc::Global;
use wh_leb::{fault, read_u32};
use wh_model::{DecodeError, FaultKind, Mutability, ValType};
use wh_syntax::{FuncType, GlobalType, Limits, TableType};

const MOST_PARAMS: u32 = 256;

fn value_type_of(byte: u8) -> Result<ValType, FaultKind>
    ensures { result ≡ value_type byte }
{
    match byte {
        0x7f => Ok(ValType::I32),
        0x7e => Ok(ValType::I64),
        0x7d | 0x7c => Err(FaultKind::Float),
        _ => Err(FaultKind::UnknownByte),
    }
}

/// Reads a value type; returns it and the offset after it.
pub fn val_type(bytes: &[u8], at: usize) -> Result<(ValType, usize), DecodeError>
    requires { at ≤ length bytes.now }
    ensures exact { result ≡ one_at value_type bytes.now at }
    ensures inside { IfOk result (λ found. found.1 ≤ length bytes.now) }
{
    if at == bytes.len() {
        return fault(FaultKind::Truncated, at);
    }
    match value_type_of(bytes[at]) {
        Ok(t) => Ok((t, at + 1)),
        Err(kind) => fault(kind, at),
    }
}

fn mutability_of(byte: u8) -> Result<Mutability, FaultKind>
    ensures { result ≡ mutability byte }
{
    match byte {
        0 => Ok(Mutability::Const),
        1 => Ok(Mutability::Var),
        _ => Err(FaultKind::UnknownByte),
    }
}

fn mutability(bytes: &[u8], at: usize) -> Result<(Mutability, usize), DecodeError>
    requires { at ≤ length bytes.now }
    ensures exact { result ≡ one_at mutability bytes.now at }
    ensures inside { IfOk result (λ found. found.1 ≤ length bytes.now) }
{
    if at == bytes.len() {
        return fault(FaultKind::Truncated, at);
    }
    match mutability_of(bytes[at]) {
        Ok(m) => Ok((m, at + 1)),
        Err(kind) => fault(kind, at),
    }
}

fn limits_flag_of(byte: u8) -> Result<bool, FaultKind>
    ensures { result ≡ limits_flag byte }
{
    match byte {
        0 => Ok(false),
        1 => Ok(true),
        _ => Err(FaultKind::UnknownByte),
    }
}

/// Whether a maximum stands in the limits.
fn limits_flag(bytes: &[u8], at: usize) -> Result<(bool, usize), DecodeError>
    requires { at ≤ length bytes.now }
    ensures exact { result ≡ one_at limits_flag bytes.now at }
    ensures inside { IfOk result (λ found. found.1 ≤ length bytes.now) }
{
    if at == bytes.len() {
        return fault(FaultKind::Truncated, at);
    }
    match limits_flag_of(bytes[at]) {
        Ok(flag) => Ok((flag, at + 1)),
        Err(kind) => fault(kind, at),
    }
}

/// Reads a byte that has to be `byte`, with fault `kind` if it isn't; returns the offset after it.
pub fn expect_byte(bytes: &[u8], at: usize, byte: u8, kind: FaultKind) -> Result<usize, DecodeError>
    requires { at ≤ length bytes.now }
    ensures exact { Gives (λ next. (tt, next)) result (one_at (exact_byte kind byte) bytes.now at) }
    ensures inside { IfOk result (λ next. next ≤ length bytes.now) }
{
    if at == bytes.len() {
        return fault(FaultKind::Truncated, at);
    }
    if bytes[at] == byte {
        Ok(at + 1)
    } else {
        fault(kind, at)
    }
}

/// Puts a type at the end of a short list; the place is that of a fault.
pub fn keep_type<const N: usize>(
    list: &mut SmallVec<ValType, N>,
    t: ValType,
    at: usize,
) -> Result<(), DecodeError>
    ensures ok { OnOk result (list.new.items ≡ list.old.items ++ t ∷ []) }
    ensures err { IfErr result (λ e. e.kind ≡ FaultKind.Memory) }
{
    match list.push(t) {
        Ok(()) => Ok(()),
        Err(_) => fault(FaultKind::Memory, at),
    }
}

/// Reads `count` value types.
fn val_types<const N: usize>(
    alloc: Global,
    count: u32,
    bytes: &[u8],
    at: usize,
) -> Result<(SmallVec<ValType, N>, usize), DecodeError>
    requires { at ≤ length bytes.now }
    ensures exact { Gives (λ found. (found.0.items, found.1)) result
        (times_at count (one_at value_type) bytes.now at) }
    ensures inside { IfOk result (λ found. found.1 ≤ length bytes.now) }
{
    let mut types = SmallVec::new(alloc);
    let mut place = at;
    for index in 0..count {
        let (t, next) = val_type(bytes, place)?;
        keep_type(&mut types, t, place)?;
        place = next;
    }
    Ok((types, place))
}

#[tactic(auto, unfolding(crate::specs::ReadingModule::functype_at))]
fn func_type(alloc: Global, bytes: &[u8], at: usize) -> Result<(FuncType, usize), DecodeError>
    requires { at ≤ length bytes.now }
    ensures exact { Gives (λ found. (view_type found.0, found.1)) result
        (functype_at bytes.now at) }
    ensures inside { IfOk result (λ found. found.1 ≤ length bytes.now) }
{
    let next = expect_byte(bytes, at, 0x60, FaultKind::UnknownByte)?;
    let (count, next) = count_up_to(bytes, next, MOST_PARAMS)?;
    let (params, next) = val_types(alloc, count, bytes, next)?;
    let (count, next) = read_u32(bytes, next)?;
    let (results, next) = val_types(alloc, count, bytes, next)?;
    Ok((FuncType { params, results }, next))
}

fn limits_by(bytes: &[u8], at: usize, bounded: bool) -> Result<(Limits, usize), DecodeError>
    requires { at ≤ length bytes.now }
    ensures exact { Gives (λ found. (view_limits found.0, found.1)) result
        (limits_by_at bounded bytes.now at) }
    ensures inside { IfOk result (λ found. found.1 ≤ length bytes.now) }
{
    let (min, next) = read_u32(bytes, at)?;
    if !bounded {
        return Ok((Limits { min, max: None }, next));
    }
    let (max, next) = read_u32(bytes, next)?;
    Ok((
        Limits {
            min,
            max: Some(max),
        },
        next,
    ))
}

#[tactic(auto, unfolding(crate::specs::ReadingModule::limits_at))]
fn limits(bytes: &[u8], at: usize) -> Result<(Limits, usize), DecodeError>
    requires { at ≤ length bytes.now }
    ensures exact { Gives (λ found. (view_limits found.0, found.1)) result
        (limits_at bytes.now at) }
    ensures inside { IfOk result (λ found. found.1 ≤ length bytes.now) }
{
    let (bounded, next) = limits_flag(bytes, at)?;
    limits_by(bytes, next, bounded)
}

#[tactic(auto, unfolding(crate::specs::ReadingModule::tabletype_at))]
fn table_type(bytes: &[u8], at: usize) -> Result<(TableType, usize), DecodeError>
    requires { at ≤ length bytes.now }
    ensures exact { Gives (λ found. (view_table found.0, found.1)) result
        (tabletype_at bytes.now at) }
    ensures inside { IfOk result (λ found. found.1 ≤ length bytes.now) }
{
    let next = expect_byte(bytes, at, 0x70, FaultKind::UnknownByte)?;
    let (limits, next) = limits(bytes, next)?;
    Ok((TableType { limits }, next))
}

/// Reads the type of a global; returns it and the offset after it.
#[tactic(auto, unfolding(crate::specs::ReadingModule::globaltype_at))]
pub fn global_type(bytes: &[u8], at: usize) -> Result<(GlobalType, usize), DecodeError>
    requires { at ≤ length bytes.now }
    ensures exact { Gives (λ found. (view_global_type found.0, found.1)) result
        (globaltype_at bytes.now at) }
    ensures inside { IfOk result (λ found. found.1 ≤ length bytes.now) }
{
    let (value, next) = val_type(bytes, at)?;
    let (mutability, next) = mutability(bytes, next)?;
    Ok((GlobalType { value, mutability }, next))
}

impl Item for FuncType {
    ghost gift = { λ b at r. Gives (λ found. (view_type found.0, found.1)) r (functype_at b at) };

    fn read(alloc: Global, bytes: &[u8], at: usize) -> Result<(FuncType, usize), DecodeError> {
        func_type(alloc, bytes, at)
    }
}

impl Item for Limits {
    ghost gift = { λ b at r. Gives (λ found. (view_limits found.0, found.1)) r (limits_at b at) };

    fn read(_alloc: Global, bytes: &[u8], at: usize) -> Result<(Limits, usize), DecodeError> {
        limits(bytes, at)
    }
}

impl Item for TableType {
    ghost gift = { λ b at r. Gives (λ found. (view_table found.0, found.1)) r (tabletype_at b at) };

    fn read(_alloc: Global, bytes: &[u8], at: usize) -> Result<(TableType, usize), DecodeError> {
        table_type(bytes, at)
    }
}

impl Item for u32 {
    ghost gift = { λ b at r. r ≡ u32_at b at };

    fn read(_alloc: Global, bytes: &[u8], at: usize) -> Result<(u32, usize), DecodeError> {
        read_u32(bytes, at)
    }
}
