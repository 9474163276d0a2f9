//! Instructions that name no label (3.3.1 to 3.3.5).

ghost use Rattle.std.specs.Prelude.{◌≡◌, ◌+◌, ◌<◌, ◌++◌, ℕ, List, length, slice_get, Ok, ◌∷◌, []};
ghost use Rattle.std.specs.List.{AllByRecursion};
ghost use Rattle.wh_model.specs.Validity.Typing.{Context, load_type, store_type, conversion_type};
ghost use Rattle.wh_model.specs.declared.ValType.TheVariants.{I32};
ghost use Rattle.wh_model.specs.Format.Syntax.{return, call, call_indirect, conversion, drop_operand, local_get, local_set, local_tee, global_get, global_set, load, store};
ghost use Rattle.wh_syntax.specs.Shown.{instr_of};
ghost use Rattle.wh_bodies.specs.Known.{known, pass};
ghost use Rattle.wh_bodies.specs.CheckSteps.{found, straight, straight_instr, load_exponent, store_exponent};
ghost use Rattle.wh_bodies.specs.View.{view_around};
ghost use Rattle.wh_bodies.specs.BodyFaults.{Checks};

use crate::context::Around;
use crate::labels::take_operand;
use crate::operands::{Operands, fall, pass, select, take, take_any};
use wh_model::{ConvertOp, LoadOp, Mutability, StoreOp, ValType, ValidKind};
use wh_syntax::{GlobalType, Instr};

/// The types that a conversion takes and gives.
#[inline(always)]
fn conversion_type(op: ConvertOp) -> (ValType, ValType)
    ensures { result ≡ conversion_type op }
{
    match op {
        ConvertOp::WrapI64 => (ValType::I64, ValType::I32),
        ConvertOp::ExtendI32S => (ValType::I32, ValType::I64),
        ConvertOp::ExtendI32U => (ValType::I32, ValType::I64),
    }
}

/// The type of a local.
#[inline(always)]
fn local_type(around: &Around, local: u32) -> Result<ValType, ValidKind>
    ensures { result
        ≡ found (slice_get (around.now.params.now ++ around.now.locals.now) local) (λ t. Ok t) }
{
    let local = local as usize;
    let found = if local < around.params.len() {
        Some(around.params[local])
    } else {
        around.locals.get(local - around.params.len()).copied()
    };
    match found {
        Some(of) => Ok(of),
        None => Err(ValidKind::Index),
    }
}

/// `local.get`
#[inline(always)]
fn get_local(around: &Around, operands: &mut Operands, local: u32) -> Result<(), ValidKind>
    ensures { Checks result (known operands.new)
        (straight (view_around around.now) (local_get local) (known operands.old)) }
{
    let of = local_type(around, local)?;
    pass(operands, &[], &[of])
}

/// `local.set`
#[inline(always)]
fn set_local(around: &Around, operands: &mut Operands, local: u32) -> Result<(), ValidKind>
    ensures { Checks result (known operands.new)
        (straight (view_around around.now) (local_set local) (known operands.old)) }
{
    let of = local_type(around, local)?;
    pass(operands, &[of], &[])
}

/// `local.tee`
#[inline(always)]
fn tee_local(around: &Around, operands: &mut Operands, local: u32) -> Result<(), ValidKind>
    ensures { Checks result (known operands.new)
        (straight (view_around around.now) (local_tee local) (known operands.old)) }
{
    let of = local_type(around, local)?;
    pass(operands, &[of], &[of])
}

/// The type of a global.
fn global_type(around: &Around, global: u32) -> Result<GlobalType, ValidKind>
    ensures { result ≡ found (slice_get around.now.context.globals.now global) (λ g. Ok g) }
{
    match around.context.globals.get(global as usize) {
        Some(&global) => Ok(global),
        None => Err(ValidKind::Index),
    }
}

/// `global.get`
fn get_global(around: &Around, operands: &mut Operands, global: u32) -> Result<(), ValidKind>
    ensures { Checks result (known operands.new)
        (straight (view_around around.now) (global_get global) (known operands.old)) }
{
    let global = global_type(around, global)?;
    pass(operands, &[], &[global.value])
}

/// `global.set`
fn set_global(around: &Around, operands: &mut Operands, global: u32) -> Result<(), ValidKind>
    ensures { Checks result (known operands.new)
        (straight (view_around around.now) (global_set global) (known operands.old)) }
{
    let global = global_type(around, global)?;
    match global.mutability {
        Mutability::Const => Err(ValidKind::ConstImmutable),
        Mutability::Var => pass(operands, &[global.value], &[]),
    }
}

/// The type of what is loaded, and the exponent of the bytes that are read.
#[inline(always)]
fn load_access(op: LoadOp) -> (ValType, u32)
    ensures { result ≡ ((load_type op).0, load_exponent op) }
{
    match op {
        LoadOp::I32Load => (ValType::I32, 2),
        LoadOp::I64Load => (ValType::I64, 3),
        LoadOp::I32Load8S | LoadOp::I32Load8U => (ValType::I32, 0),
        LoadOp::I32Load16S | LoadOp::I32Load16U => (ValType::I32, 1),
        LoadOp::I64Load8S | LoadOp::I64Load8U => (ValType::I64, 0),
        LoadOp::I64Load16S | LoadOp::I64Load16U => (ValType::I64, 1),
        LoadOp::I64Load32S | LoadOp::I64Load32U => (ValType::I64, 2),
    }
}

/// The type of what is stored, and the exponent of the bytes that are written.
#[inline(always)]
fn store_access(op: StoreOp) -> (ValType, u32)
    ensures { result ≡ ((store_type op).0, store_exponent op) }
{
    match op {
        StoreOp::I32Store => (ValType::I32, 2),
        StoreOp::I64Store => (ValType::I64, 3),
        StoreOp::I32Store8 => (ValType::I32, 0),
        StoreOp::I32Store16 => (ValType::I32, 1),
        StoreOp::I64Store8 => (ValType::I64, 0),
        StoreOp::I64Store16 => (ValType::I64, 1),
        StoreOp::I64Store32 => (ValType::I64, 2),
    }
}

/// `load`
#[inline(always)]
fn load(around: &Around, operands: &mut Operands, op: LoadOp, align: u32) -> Result<(), ValidKind>
    ensures { Checks result (known operands.new)
        (straight (view_around around.now) (load op align 0) (known operands.old)) }
{
    let (of, most) = load_access(op);
    if around.context.memories.is_empty() {
        return Err(ValidKind::Index);
    }
    if align > most {
        return Err(ValidKind::Align);
    }
    pass(operands, &[ValType::I32], &[of])
}

/// `store`
#[inline(always)]
fn store(around: &Around, operands: &mut Operands, op: StoreOp, align: u32) -> Result<(), ValidKind>
    ensures { Checks result (known operands.new)
        (straight (view_around around.now) (store op align 0) (known operands.old)) }
{
    let (of, most) = store_access(op);
    if around.context.memories.is_empty() {
        return Err(ValidKind::Index);
    }
    if align > most {
        return Err(ValidKind::Align);
    }
    pass(operands, &[ValType::I32, of], &[])
}

/// `memory.size` and `memory.grow`, which take this and give a size.
fn pages(around: &Around, operands: &mut Operands, params: &[ValType]) -> Result<(), ValidKind>
    ensures { Checks result (known operands.new)
        (found (slice_get (view_around around.now).memories 0)
        (λ _. pass (known operands.old) params.now (I32 ∷ []))) }
{
    if around.context.memories.is_empty() {
        return Err(ValidKind::Index);
    }
    pass(operands, params, &[ValType::I32])
}

/// `call`
fn call(around: &Around, operands: &mut Operands, func: u32) -> Result<(), ValidKind>
    requires { AllByRecursion (λ x. x < length around.now.context.types.now)
        around.now.context.funcs.now }
    ensures { Checks result (known operands.new)
        (straight (view_around around.now) (call func) (known operands.old)) }
{
    let Some(&index) = around.context.funcs.get(func as usize) else {
        return Err(ValidKind::Index);
    };
    let callee = &around.context.types[index as usize];
    pass(operands, &callee.params, &callee.results)
}

/// `call_indirect`
fn call_indirect(around: &Around, operands: &mut Operands, index: u32) -> Result<(), ValidKind>
    ensures { Checks result (known operands.new)
        (straight (view_around around.now) (call_indirect index) (known operands.old)) }
{
    if around.context.tables.is_empty() {
        return Err(ValidKind::Index);
    }
    let Some(callee) = around.context.types.get(index as usize) else {
        return Err(ValidKind::Index);
    };
    take(operands, ValType::I32)?;
    pass(operands, &callee.params, &callee.results)
}

/// `return`
fn leave(around: &Around, operands: &mut Operands) -> Result<(), ValidKind>
    ensures { Checks result (known operands.new)
        (straight (view_around around.now) return (known operands.old)) }
{
    take_operand(operands, around.result)?;
    fall(operands);
    Ok(())
}

/// `drop`
#[inline(always)]
fn discard(operands: &mut Operands) -> Result<(), ValidKind>
    ensures { (c : Context)
        → Checks result (known operands.new) (straight c drop_operand (known operands.old)) }
{
    take_any(operands)?;
    Ok(())
}

/// A conversion.
#[inline(always)]
fn convert(operands: &mut Operands, op: ConvertOp) -> Result<(), ValidKind>
    ensures { (c : Context)
        → Checks result (known operands.new) (straight c (conversion op) (known operands.old)) }
{
    let (from, to) = conversion_type(op);
    pass(operands, &[from], &[to])
}

/// Checks an instruction that names no label.
///
/// # Errors
/// `Index` if what it names isn't there; `Arity` or `BadType` if an operand is missing or of another type; `Align` if
/// its alignment is above the access width; `ConstImmutable` if it writes an immutable global; `Height` if there are
/// more than 256 operands then; `Memory` if an allocation fails.
#[inline(always)]
pub fn straight(around: &Around, operands: &mut Operands, instr: Instr) -> Result<(), ValidKind>
    requires { AllByRecursion (λ x. x < length around.now.context.types.now)
        around.now.context.funcs.now }
    ensures { (labels : List ℕ)
        → Checks result (known operands.new)
        (straight_instr (view_around around.now) (instr_of labels instr) (known operands.old)) }
{
    match instr {
        Instr::I32Const(_) => pass(operands, &[], &[ValType::I32]),
        Instr::I64Const(_) => pass(operands, &[], &[ValType::I64]),
        Instr::Test(of, _) => pass(operands, &[of], &[ValType::I32]),
        Instr::Compare(of, _) => pass(operands, &[of, of], &[ValType::I32]),
        Instr::Unary(of, _) => pass(operands, &[of], &[of]),
        Instr::Binary(of, _) => pass(operands, &[of, of], &[of]),
        Instr::Convert(op) => convert(operands, op),
        Instr::LocalGet(local) => get_local(around, operands, local),
        Instr::LocalSet(local) => set_local(around, operands, local),
        Instr::LocalTee(local) => tee_local(around, operands, local),
        Instr::GlobalGet(global) => get_global(around, operands, global),
        Instr::GlobalSet(global) => set_global(around, operands, global),
        Instr::Load { op, align, .. } => load(around, operands, op, align),
        Instr::Store { op, align, .. } => store(around, operands, op, align),
        Instr::MemorySize => pages(around, operands, &[]),
        Instr::MemoryGrow => pages(around, operands, &[ValType::I32]),
        Instr::Unreachable => {
            fall(operands);
            Ok(())
        }
        Instr::Return => leave(around, operands),
        Instr::Call(func) => call(around, operands, func),
        Instr::CallIndirect(index) => call_indirect(around, operands, index),
        Instr::Drop => discard(operands),
        Instr::Select => select(operands),
        _ => Ok(()),
    }
}
