//! Constant expressions (3.3.7): one constant, or one global that is never written.

ghost use Rattle.std.specs.Prelude.{◌≡◌, ◌≢◌, map, take, slice_get, Some, IfErr};
ghost use Rattle.wh_model.specs.Validity.Valid.{ConstantOf};
ghost use Rattle.wh_syntax.specs.View.{view_global_type};
ghost use Rattle.wh_validate.specs.Deciding.{Decides};
ghost use Rattle.wh_validate.specs.ConstantInstructions.{IsConstant};

use wh_model::{Mutability, ValType, ValidKind};
use wh_syntax::{Expr, GlobalType, Instr};

/// Checks that an expression is constant and of this type. It may read the first `seen` globals.
///
/// # Errors
/// `Const` if the expression is no constant, or its global is mutable or not among these; `Index` if there is no such
/// global; `BadType` if the type is another.
pub fn check_constant(
    expr: &Expr,
    wanted: ValType,
    globals: &[GlobalType],
    seen: usize,
) -> Result<(), ValidKind>
    ensures decides { Decides result
        (ConstantOf (map view_global_type (take seen globals.now)) expr.now wanted) }
    ensures err { IfErr result (λ k. k ≢ ValidKind.Memory) }
{
    let instrs = expr.flat().instrs;
    if instrs.len() != 2 {
        return Err(ValidKind::Const);
    }
    check_instr(instrs[0], wanted, globals, seen)
}

fn check_instr(
    instr: Instr,
    wanted: ValType,
    globals: &[GlobalType],
    seen: usize,
) -> Result<(), ValidKind>
    ensures decides { Decides result
        (IsConstant (map view_global_type (take seen globals.now)) instr wanted) }
    ensures err { IfErr result (λ k. k ≢ ValidKind.Memory) }
{
    match instr {
        Instr::I32Const(_) => same_type(ValType::I32, wanted),
        Instr::I64Const(_) => same_type(ValType::I64, wanted),
        Instr::GlobalGet(index) => check_global(index, wanted, globals, seen),
        _ => Err(ValidKind::Const),
    }
}

fn same_type(found: ValType, wanted: ValType) -> Result<(), ValidKind>
    ensures decides { Decides result (wanted ≡ found) }
    ensures err { IfErr result (λ k. k ≡ ValidKind.BadType) }
{
    if found == wanted {
        Ok(())
    } else {
        Err(ValidKind::BadType)
    }
}

fn check_global(
    index: u32,
    wanted: ValType,
    globals: &[GlobalType],
    seen: usize,
) -> Result<(), ValidKind>
    ensures decides { Decides result
        (slice_get (map view_global_type (take seen globals.now)) index
        ≡ Some (record { value = wanted; mutability = Mutability.Const })) }
    ensures err { IfErr result (λ k. k ≢ ValidKind.Memory) }
{
    let index = index as usize;
    if index >= globals.len() {
        return Err(ValidKind::Index);
    }
    let global = globals[index];
    if index >= seen || global.mutability == Mutability::Var {
        return Err(ValidKind::Const);
    }
    same_type(global.value, wanted)
}
