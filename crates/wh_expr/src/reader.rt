//! Instructions one after the other, up to the end of the expression.

ghost use Rattle.std.specs.Prelude.{◌≡◌, ◌≢◌, ℕ, ◌<◌, ◌≤◌, ◌+◌, ◌-◌, ◌^◌, ◌++◌, ◌∷◌, [], List, length, drop, reverse, map, IfOk, IfErr, Ok, Err, OnOk, Option, Some};
ghost use Rattle.std.specs.List.{AllByRecursion};
ghost use Rattle.wh_model.specs.Format.Syntax.{Code};
ghost use Rattle.wh_model.specs.Format.Syntax as model;
ghost use Rattle.wh_model.specs.Format.Opcodes.{opcode};
ghost use Rattle.wh_model.specs.Format.Instructions.{allowed, may_come, expr};
ghost use Rattle.wh_leb.specs.Reading.{one_at, head_of, Gives, IsFound, Broken};
ghost use Rattle.wh_syntax.specs.Shown.{instr_of, InPool};
ghost use Rattle.wh_expr.specs.ReadingCode.{instr_at, operands_at, after_instr, code_from, most_from, code_at};
ghost use Rattle.wh_expr.specs.Stack.{Advances, Extends};

use crate::labels::label_table;
use crate::opcodes::opcode_of;
use crate::operands::operands;
use std::alloc::{AllocError, Global};
use wh_leb::fault;
use wh_model::{DecodeError, FaultKind, Opcode, Open};
use wh_syntax::{Expr, Instr};

const MOST_NESTED: usize = 256;

/// What the opcode may begin inside these constructs, the innermost last.
#[inline(always)]
fn allowed(stack: &[Open], opcode: Opcode) -> Result<Opcode, FaultKind>
    ensures { result ≡ allowed (reverse stack.now) opcode }
{
    match opcode {
        Opcode::Block | Opcode::Loop | Opcode::If => {
            if stack.len() < MOST_NESTED {
                Ok(opcode)
            } else {
                Err(FaultKind::Limit)
            }
        }
        Opcode::Else => match stack.last() {
            Some(Open::Then) => Ok(opcode),
            _ => Err(FaultKind::UnknownByte),
        },
        _ => Ok(opcode),
    }
}

#[inline(always)]
fn opcode_at(bytes: &[u8], at: usize, stack: &[Open]) -> Result<(Opcode, usize), DecodeError>
    requires { at ≤ length bytes.now }
    ensures exact { result ≡ one_at (λ n. may_come (reverse stack.now) (opcode n)) bytes.now at }
    ensures beyond { IfOk result (λ found. at < found.1) }
    ensures inside { IfOk result (λ found. found.1 ≤ length bytes.now) }
{
    if at == bytes.len() {
        return fault(FaultKind::Truncated, at);
    }
    let opcode = match opcode_of(bytes[at]) {
        Ok(opcode) => allowed(stack, opcode),
        Err(kind) => Err(kind),
    };
    match opcode {
        Ok(opcode) => Ok((opcode, at + 1)),
        Err(kind) => fault(kind, at),
    }
}

/// What stands after an opcode; labels go to the end of the pool.
#[inline(always)]
#[tactic(auto, unfolding(crate::specs::ReadingCode::operands_at))]
fn immediates(
    opcode: Opcode,
    bytes: &[u8],
    at: usize,
    labels: &mut Vec<u32>,
) -> Result<(Instr, usize), DecodeError>
    requires inside { at ≤ length bytes.now }
    requires short { length bytes.now < 2 ^ 32 }
    requires paid { length labels.old.items ≤ at }
    ensures exact { Gives (λ found. (instr_of labels.new.items found.0, found.1)) result
        (operands_at opcode bytes.now at) }
    ensures in_pool { IfOk result (λ found. InPool labels.new.items found.0) }
    ensures grows { IfOk result (λ found. Extends labels.old.items labels.new.items) }
    ensures paid { IfOk result (λ found. length labels.new.items ≤ found.1) }
    ensures inside { IfOk result (λ found. found.1 ≤ length bytes.now) }
{
    if opcode == Opcode::BrTable {
        return label_table(bytes, at, labels);
    }
    operands(opcode, bytes, at)
}

/// One instruction inside these constructs, the innermost last.
#[inline(always)]
#[tactic(auto, unfolding(crate::specs::ReadingCode::instr_at))]
fn instruction(
    bytes: &[u8],
    at: usize,
    stack: &[Open],
    labels: &mut Vec<u32>,
) -> Result<(Instr, usize), DecodeError>
    requires inside { at ≤ length bytes.now }
    requires short { length bytes.now < 2 ^ 32 }
    requires paid { length labels.old.items ≤ at }
    ensures exact { Gives (λ found. (instr_of labels.new.items found.0, found.1)) result
        (instr_at (reverse stack.now) bytes.now at) }
    ensures in_pool { IfOk result (λ found. InPool labels.new.items found.0) }
    ensures grows { IfOk result (λ found. Extends labels.old.items labels.new.items) }
    ensures paid { IfOk result (λ found. length labels.new.items ≤ found.1) }
    ensures inside { IfOk result (λ found. found.1 ≤ length bytes.now) }
{
    let (opcode, next) = opcode_at(bytes, at, stack)?;
    immediates(opcode, bytes, next, labels)
}

/// The constructs that are open after an instruction; true where it ends the expression.
#[inline(always)]
fn advance(stack: &mut Vec<Open>, instr: Instr) -> Result<bool, AllocError>
    ensures { IfOk result
        (λ ended. (labels : List ℕ)
        → Advances ended (after_instr (reverse stack.old.items) (instr_of labels instr))
        (reverse stack.new.items)) }
{
    match instr {
        Instr::Block(_) | Instr::Loop(_) => stack.push(Open::Other)?,
        Instr::If(_) => stack.push(Open::Then)?,
        Instr::Else => {
            if stack.pop().is_some() {
                stack.push(Open::Other)?;
            }
        }
        Instr::End => return Ok(stack.pop().is_none()),
        _ => {}
    }
    Ok(false)
}

/// The same; the place is that of a fault.
#[inline(always)]
fn advance_at(stack: &mut Vec<Open>, instr: Instr, at: usize) -> Result<bool, DecodeError>
    ensures ok { IfOk result
        (λ ended. (labels : List ℕ)
        → Advances ended (after_instr (reverse stack.old.items) (instr_of labels instr))
        (reverse stack.new.items)) }
    ensures err { IfErr result (λ e. e.kind ≡ FaultKind.Memory) }
{
    match advance(stack, instr) {
        Ok(ended) => Ok(ended),
        Err(_) => fault(FaultKind::Memory, at),
    }
}

/// Keeps an instruction that was read before this place.
#[inline(always)]
fn keep(instrs: &mut Vec<Instr>, instr: Instr, at: usize) -> Result<(), DecodeError>
    ensures ok { OnOk result (instrs.new.items ≡ instrs.old.items ++ instr ∷ []) }
    ensures err { IfErr result (λ e. e.kind ≡ FaultKind.Memory) }
{
    match instrs.push(instr) {
        Ok(()) => Ok(()),
        Err(_) => fault(FaultKind::Memory, at),
    }
}

/// No instruction may stand here any more.
fn too_many(bytes: &[u8], at: usize) -> DecodeError
    requires { at ≤ length bytes.now }
    ensures { head_of {A = List model.Instr} (λ _. Err FaultKind.Limit) (drop at bytes.now) at
        ≡ Err result }
{
    let kind = if at == bytes.len() {
        FaultKind::Truncated
    } else {
        FaultKind::Limit
    };
    DecodeError { kind, offset: at }
}

/// An empty list. Where instructions are limited there is room for as many as there may be, if memory isn't refused, so that
/// it doesn't grow; what is left of it goes in the end. Without a limit there is room for a constant and an end.
fn room(alloc: Global, bytes: &[u8], at: usize, most: Option<usize>) -> Vec<Instr>
    requires { at ≤ length bytes.now }
    ensures { result.items ≡ [] }
{
    let count = match most {
        Some(most) => most.min(bytes.len() - at),
        None => 2,
    };
    match Vec::with_capacity(alloc, count) {
        Ok(instrs) => instrs,
        Err(_) => Vec::new(alloc),
    }
}

/// Reads the instructions up to the end of the expression, at most `most`, into this list, and the pool of their
/// labels.
fn instructions(
    alloc: Global,
    mut instrs: Vec<Instr>,
    bytes: &[u8],
    at: usize,
    most: usize,
) -> Result<(Vec<Instr>, Vec<u32>, usize), DecodeError>
    requires empty { instrs.items ≡ [] }
    requires inside { at ≤ length bytes.now }
    requires short { length bytes.now < 2 ^ 32 }
    ensures exact { Gives (λ found. (map (instr_of found.1.items) found.0.items, found.2)) result
        (code_from most [] bytes.now at) }
    ensures in_pool { IfOk result (λ found. AllByRecursion (InPool found.1.items) found.0.items) }
    ensures inside { IfOk result (λ found. found.2 ≤ length bytes.now) }
{
    let mut labels = Vec::new(alloc);
    let mut stack = Vec::new(alloc);
    let mut place = at;
    for count in 0..most {
        let (instr, next) = instruction(bytes, place, &stack, &mut labels)?;
        keep(&mut instrs, instr, next)?;
        place = next;
        let ended = advance_at(&mut stack, instr, next)?;
        if ended {
            return Ok((instrs, labels, place));
        }
    }
    Err(too_many(bytes, place))
}

/// The greatest number of instructions: without a limit they are no more than the bytes.
fn most_instructions(bytes: &[u8], at: usize, most: Option<usize>) -> usize
    requires { at ≤ length bytes.now }
    ensures { result ≡ most_from most bytes.now at }
{
    most.unwrap_or(bytes.len() - at)
}

#[tactic(auto, unfolding(crate::specs::ReadingCode::code_at))]
fn whole(
    alloc: Global,
    bytes: &[u8],
    at: usize,
    most: Option<usize>,
) -> Result<(Expr, usize), DecodeError>
    requires inside { at ≤ length bytes.now }
    requires short { length bytes.now < 2 ^ 32 }
    ensures exact { Gives (λ x. x) result (code_at most bytes.now at) }
    ensures inside { IfOk result (λ found. found.1 ≤ length bytes.now) }
{
    let empty = room(alloc, bytes, at, most);
    let most = most_instructions(bytes, at, most);
    let (mut instrs, labels, next) = instructions(alloc, empty, bytes, at, most)?;
    instrs.shrink_to_fit();
    Ok((Expr::new(instrs, labels), next))
}

/// Reads the expression at offset `at`; returns it and the offset after its end.
///
/// `most` limits its instructions, each opcode counted, `else` and `end` included; with `None` there may be as many as
/// the bytes hold. Constructs may be nested 256 deep, and a `br_table` may have 4096 labels besides the default one.
///
/// # Errors
/// The first fault of the bytes, at its byte: `Truncated` where they end, `Leb`, `UnknownByte`, `Float`, `Limit`; and
/// `Memory` where a growth of the lists was refused.
pub fn read_expr(
    alloc: Global,
    bytes: &[u8],
    at: usize,
    most: Option<usize>,
) -> Result<(Expr, usize), DecodeError>
    requires inside { at ≤ length bytes.now }
    requires short { length bytes.now < 2 ^ 32 }
    // The bytes up to the next place spell the expression, within the limits.
    ensures found { IfOk result (λ x. IsFound (expr most) bytes.now at x.0 x.1) }
    // What spells an expression within the limits is read, whatever follows it, unless memory runs out.
    ensures only { (c : Code) (t u : List ℕ) → drop at bytes.now ≡ t ++ u → (expr most).within c t
        → Gives (λ x. x) result (Ok (c, at + length t)) }
    // Where the bytes break, and in which way.
    ensures fault { IfErr result
        (λ e. e.kind ≢ FaultKind.Memory → Broken (expr most) bytes.now at e) }
    ensures exact { Gives (λ x. x) result (code_at most bytes.now at) }
    ensures inside { IfOk result (λ found. found.1 ≤ length bytes.now) }
{
    whole(alloc, bytes, at, most)
}
