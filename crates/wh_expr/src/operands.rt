//! What stands after an opcode.

ghost use Rattle.std.specs.Prelude.{◌≡◌, ◌≢◌, ℕ, ◌≤◌, List, length, IfOk};
ghost use Rattle.wh_model.specs.Format.Grammar.{exact_byte};
ghost use Rattle.wh_model.specs.Format.Opcodes.{block_type};
ghost use Rattle.wh_leb.specs.Reading.{one_at, Gives};
ghost use Rattle.wh_syntax.specs.Shown.{instr_of, InPool};
ghost use Rattle.wh_expr.specs.ReadingCode.{operands_at};

use wh_leb::{fault, read_s32, read_s64, read_u32};
use wh_model::{DecodeError, FaultKind, Opcode, ValType};
use wh_syntax::Instr;

#[inline(always)]
fn block_type_of(byte: u8) -> Result<Option<ValType>, FaultKind>
    ensures { result ≡ block_type byte }
{
    match byte {
        0x40 => Ok(None),
        0x7f => Ok(Some(ValType::I32)),
        0x7e => Ok(Some(ValType::I64)),
        0x7d | 0x7c => Err(FaultKind::Float),
        _ => Err(FaultKind::UnknownByte),
    }
}

#[inline(always)]
fn result_type(bytes: &[u8], at: usize) -> Result<(Option<ValType>, usize), DecodeError>
    requires { at ≤ length bytes.now }
    ensures exact { result ≡ one_at block_type bytes.now at }
    ensures further { IfOk result (λ found. at ≤ found.1) }
    ensures inside { IfOk result (λ found. found.1 ≤ length bytes.now) }
{
    if at == bytes.len() {
        return fault(FaultKind::Truncated, at);
    }
    match block_type_of(bytes[at]) {
        Ok(t) => Ok((t, at + 1)),
        Err(kind) => fault(kind, at),
    }
}

/// The place after a byte that has to be 0.
#[inline(always)]
fn reserved(bytes: &[u8], at: usize) -> Result<usize, DecodeError>
    requires { at ≤ length bytes.now }
    ensures exact { Gives (λ next. (tt, next)) result
        (one_at (exact_byte FaultKind.UnknownByte 0) bytes.now at) }
    ensures further { IfOk result (λ next. at ≤ next) }
    ensures inside { IfOk result (λ next. next ≤ length bytes.now) }
{
    if at == bytes.len() {
        return fault(FaultKind::Truncated, at);
    }
    if bytes[at] == 0 {
        Ok(at + 1)
    } else {
        fault(FaultKind::UnknownByte, at)
    }
}

/// Reads what follows an opcode, other than `br_table`; returns the instruction and the offset after it.
#[inline(always)]
#[tactic(auto, unfolding(crate::specs::ReadingCode::operands_at))]
pub fn operands(opcode: Opcode, bytes: &[u8], at: usize) -> Result<(Instr, usize), DecodeError>
    requires inside { at ≤ length bytes.now }
    requires other { opcode ≢ Opcode.BrTable }
    ensures exact { (labels : List ℕ)
        → Gives (λ found. (instr_of labels found.0, found.1)) result
        (operands_at opcode bytes.now at) }
    ensures in_pool { IfOk result (λ found. (labels : List ℕ) → InPool labels found.0) }
    ensures further { IfOk result (λ found. at ≤ found.1) }
    ensures inside { IfOk result (λ found. found.1 ≤ length bytes.now) }
{
    match opcode {
        Opcode::Unreachable => Ok((Instr::Unreachable, at)),
        Opcode::Nop => Ok((Instr::Nop, at)),
        Opcode::Block => {
            let (result_type, next) = result_type(bytes, at)?;
            Ok((Instr::Block(result_type), next))
        }
        Opcode::Loop => {
            let (result_type, next) = result_type(bytes, at)?;
            Ok((Instr::Loop(result_type), next))
        }
        Opcode::If => {
            let (result_type, next) = result_type(bytes, at)?;
            Ok((Instr::If(result_type), next))
        }
        Opcode::Else => Ok((Instr::Else, at)),
        Opcode::End => Ok((Instr::End, at)),
        Opcode::Br => {
            let (label, next) = read_u32(bytes, at)?;
            Ok((Instr::Br(label), next))
        }
        Opcode::BrIf => {
            let (label, next) = read_u32(bytes, at)?;
            Ok((Instr::BrIf(label), next))
        }
        Opcode::BrTable => unreachable!(),
        Opcode::Return => Ok((Instr::Return, at)),
        Opcode::Call => {
            let (function, next) = read_u32(bytes, at)?;
            Ok((Instr::Call(function), next))
        }
        Opcode::CallIndirect => {
            let (type_index, next) = read_u32(bytes, at)?;
            let next = reserved(bytes, next)?;
            Ok((Instr::CallIndirect(type_index), next))
        }
        Opcode::Drop => Ok((Instr::Drop, at)),
        Opcode::Select => Ok((Instr::Select, at)),
        Opcode::LocalGet => {
            let (local, next) = read_u32(bytes, at)?;
            Ok((Instr::LocalGet(local), next))
        }
        Opcode::LocalSet => {
            let (local, next) = read_u32(bytes, at)?;
            Ok((Instr::LocalSet(local), next))
        }
        Opcode::LocalTee => {
            let (local, next) = read_u32(bytes, at)?;
            Ok((Instr::LocalTee(local), next))
        }
        Opcode::GlobalGet => {
            let (global, next) = read_u32(bytes, at)?;
            Ok((Instr::GlobalGet(global), next))
        }
        Opcode::GlobalSet => {
            let (global, next) = read_u32(bytes, at)?;
            Ok((Instr::GlobalSet(global), next))
        }
        Opcode::Load(op) => {
            let (align, next) = read_u32(bytes, at)?;
            let (offset, next) = read_u32(bytes, next)?;
            Ok((Instr::Load { op, align, offset }, next))
        }
        Opcode::Store(op) => {
            let (align, next) = read_u32(bytes, at)?;
            let (offset, next) = read_u32(bytes, next)?;
            Ok((Instr::Store { op, align, offset }, next))
        }
        Opcode::MemorySize => {
            let next = reserved(bytes, at)?;
            Ok((Instr::MemorySize, next))
        }
        Opcode::MemoryGrow => {
            let next = reserved(bytes, at)?;
            Ok((Instr::MemoryGrow, next))
        }
        Opcode::I32Const => {
            let (value, next) = read_s32(bytes, at)?;
            Ok((Instr::I32Const(value), next))
        }
        Opcode::I64Const => {
            let (value, next) = read_s64(bytes, at)?;
            Ok((Instr::I64Const(value), next))
        }
        Opcode::Test(t, op) => Ok((Instr::Test(t, op), at)),
        Opcode::Compare(t, op) => Ok((Instr::Compare(t, op), at)),
        Opcode::Unary(t, op) => Ok((Instr::Unary(t, op), at)),
        Opcode::Binary(t, op) => Ok((Instr::Binary(t, op), at)),
        Opcode::Convert(op) => Ok((Instr::Convert(op), at)),
    }
}
