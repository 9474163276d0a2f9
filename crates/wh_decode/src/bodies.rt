//! The code of functions (5.5.13): runs of locals, and instructions.

ghost use Rattle.std.specs.Prelude.{◌≡◌, ◌<◌, ◌≤◌, ◌^◌, ◌+◌, ◌-◌, ◌++◌, length, map, IfOk, IfErr, OnOk, nat_eq, Some};
ghost use Rattle.std.proofs.Math.ListN.{replicate};
ghost use Rattle.wh_leb.specs.Reading.{only_at, u32_at, times_at, Gives};
ghost use Rattle.wh_syntax.specs.View.{view_body};
ghost use Rattle.wh_decode.specs.ReadingModule.{runs_at, locals_at, func_at, body_at, bodies_at};

use crate::items::{Item, count_up_to, items};
use crate::types::{keep_type, val_type};
use crate::windows::{close, window};
use smallvec::SmallVec;
use std::alloc::Global;
use wh_expr::read_expr;
use wh_leb::{fault, read_u32};
use wh_model::{DecodeError, FaultKind, ValType};
use wh_syntax::Body;

const MOST_LOCALS: u32 = 256;

const MOST_INSTRUCTIONS: usize = 65536;

/// Appends `count` equal types; `at` is the offset of a fault.
fn repeat(
    list: &mut SmallVec<ValType, 8>,
    count: u32,
    t: ValType,
    at: usize,
) -> Result<(), DecodeError>
    ensures ok { OnOk result (list.new.items ≡ list.old.items ++ replicate count t) }
    ensures err { IfErr result (λ e. e.kind ≡ FaultKind.Memory) }
{
    for index in 0..count {
        keep_type(list, t, at)?;
    }
    Ok(())
}

/// Reads `count` runs of locals of one type.
fn runs(
    alloc: Global,
    count: u32,
    bytes: &[u8],
    at: usize,
) -> Result<(SmallVec<ValType, 8>, usize), DecodeError>
    requires { at ≤ length bytes.now }
    ensures exact { Gives (λ found. (found.0.items, found.1)) result
        (runs_at count 0 bytes.now at) }
    ensures inside { IfOk result (λ found. found.1 ≤ length bytes.now) }
{
    let mut locals = SmallVec::new(alloc);
    let mut declared = 0u32;
    let mut place = at;
    for index in 0..count {
        let (number, next) = count_up_to(bytes, place, MOST_LOCALS - declared)?;
        let (t, next) = val_type(bytes, next)?;
        repeat(&mut locals, number, t, place)?;
        declared += number;
        place = next;
    }
    Ok((locals, place))
}

#[tactic(auto, unfolding(crate::specs::ReadingModule::locals_at))]
fn locals(
    alloc: Global,
    bytes: &[u8],
    at: usize,
) -> Result<(SmallVec<ValType, 8>, usize), DecodeError>
    requires { at ≤ length bytes.now }
    ensures exact { Gives (λ found. (found.0.items, found.1)) result (locals_at bytes.now at) }
    ensures inside { IfOk result (λ found. found.1 ≤ length bytes.now) }
{
    let (count, next) = read_u32(bytes, at)?;
    runs(alloc, count, bytes, next)
}

#[tactic(auto, unfolding(crate::specs::ReadingModule::func_at))]
fn func(alloc: Global, bytes: &[u8], at: usize) -> Result<(Body, usize), DecodeError>
    requires inside { at ≤ length bytes.now }
    requires short { length bytes.now < 2 ^ 32 }
    ensures exact { Gives (λ found. (view_body found.0, found.1)) result (func_at bytes.now at) }
    ensures inside { IfOk result (λ found. found.1 ≤ length bytes.now) }
{
    let (locals, next) = locals(alloc, bytes, at)?;
    let (code, next) = read_expr(alloc, bytes, next, Some(MOST_INSTRUCTIONS))?;
    Ok((Body { locals, code }, next))
}

#[tactic(auto, unfolding(crate::specs::ReadingModule::body_at), using(crate::proofs::Closed::closed_gives))]
fn body(alloc: Global, bytes: &[u8], at: usize) -> Result<(Body, usize), DecodeError>
    requires inside { at ≤ length bytes.now }
    requires short { length bytes.now < 2 ^ 32 }
    ensures exact { Gives (λ found. (view_body found.0, found.1)) result (body_at bytes.now at) }
    ensures inside { IfOk result (λ found. found.1 ≤ length bytes.now) }
{
    let (size, start) = read_u32(bytes, at)?;
    let end = start + size as usize;
    let read = func(alloc, window(bytes, end), start);
    close(end <= bytes.len(), end, read)
}

impl Item for Body {
    ghost gift = { λ b at r. Gives (λ found. (view_body found.0, found.1)) r (body_at b at) };

    fn read(alloc: Global, bytes: &[u8], at: usize) -> Result<(Body, usize), DecodeError> {
        body(alloc, bytes, at)
    }
}

/// The count of the bodies, which has to be that of the functions.
fn body_count(bytes: &[u8], at: usize, functions: usize) -> Result<(u32, usize), DecodeError>
    requires { at ≤ length bytes.now }
    ensures exact { result
        ≡ only_at (λ k. nat_eq k functions) FaultKind.CountMismatch u32_at bytes.now at }
    ensures inside { IfOk result (λ found. found.1 ≤ length bytes.now) }
{
    let (count, next) = read_u32(bytes, at)?;
    if count as usize != functions {
        return fault(FaultKind::CountMismatch, at);
    }
    Ok((count, next))
}

/// Reads `count` bodies; returns them and the offset after them.
fn body_list(
    alloc: Global,
    count: u32,
    bytes: &[u8],
    at: usize,
) -> Result<(Vec<Body>, usize), DecodeError>
    requires inside { at ≤ length bytes.now }
    requires short { length bytes.now < 2 ^ 32 }
    ensures exact { Gives (λ found. (map view_body found.0.items, found.1)) result
        (times_at count body_at bytes.now at) }
    ensures inside { IfOk result (λ found. found.1 ≤ length bytes.now) }
{
    items(alloc, count, bytes, at)
}

/// Reads the bodies of `functions` functions; returns them and the offset after them.
#[tactic(auto, unfolding(crate::specs::ReadingModule::bodies_at))]
pub fn bodies(
    alloc: Global,
    bytes: &[u8],
    at: usize,
    functions: usize,
) -> Result<(Vec<Body>, usize), DecodeError>
    requires inside { at ≤ length bytes.now }
    requires short { length bytes.now < 2 ^ 32 }
    ensures exact { Gives (λ found. (map view_body found.0.items, found.1)) result
        (bodies_at functions bytes.now at) }
    ensures inside { IfOk result (λ found. found.1 ≤ length bytes.now) }
{
    let (count, next) = body_count(bytes, at, functions)?;
    body_list(alloc, count, bytes, next)
}
