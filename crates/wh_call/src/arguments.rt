//! Which type a function of the module's own has, and whether it can be called with some words.

ghost use Rattle.std.specs.Prelude.{◌≡◌, ◌<◌, ◌^◌, length, slice_get, Some, IfSome, IfNone};
ghost use Rattle.std.specs.Bool.{MatchBool};
ghost use Rattle.wh_model.specs.Execution.Numbers.{bits};
ghost use Rattle.wh_model.specs.Validity.Typing.{Context};
ghost use Rattle.wh_model.specs.Execution.Store.{Instance};
ghost use Rattle.wh_syntax.specs.View.{view_type};
ghost use Rattle.wh_call.specs.Arguments.{Arguments, HasCall, IsOwnType, LacksOwn};
ghost use Rattle.wh_machine.specs.MachineRuns.{IsInstanceOf};

use wh_imports::Linked;
use wh_model::ValType;
use wh_syntax::FuncType;

/// Whether a word is a number of the bits of a type.
fn fits(val_type: ValType, word: u64) -> bool
    ensures { MatchBool result (word < 2 ^ bits val_type) (¬ (word < 2 ^ bits val_type)) }
{
    match val_type {
        ValType::I32 => word <= 0xFFFF_FFFF,
        ValType::I64 => true,
    }
}

fn type_at(params: &[ValType], at: usize) -> ValType
    requires { at < length params.now }
    ensures { slice_get params.now at ≡ Some result }
{
    params[at]
}

fn word_at(args: &[u64], at: usize) -> u64
    requires { at < length args.now }
    ensures { slice_get args.now at ≡ Some result }
{
    args[at]
}

/// Whether there is one word for each parameter, a number of the bits of its type.
fn are_arguments(params: &[ValType], args: &[u64]) -> bool
    ensures { MatchBool result (Arguments params.now args.now) (¬ (Arguments params.now args.now)) }
{
    if params.len() != args.len() {
        return false;
    }
    for at in 0..params.len() {
        if !fits(type_at(params, at), word_at(args, at)) {
            return false;
        }
    }
    true
}

fn index_at(funcs: &[u32], at: usize) -> usize
    requires { at < length funcs.now }
    ensures { slice_get funcs.now at ≡ Some result }
{
    funcs[at] as usize
}

fn func_type_at(types: &[FuncType], at: usize) -> &FuncType
    requires { at < length types.now }
    ensures { slice_get types.now at ≡ Some result.now }
{
    &types[at]
}

/// Returns the type of the function of this index, if it is one of the module's own.
pub fn own_type(linked: &Linked, func: u32) -> Option<&FuncType>
    ensures some { IfSome result
        (λ found. IsOwnType linked.now func (view_type found.now)) }
    ensures none { IfNone result (LacksOwn linked.now func) }
{
    let module = linked.module();
    let place = (func as usize).checked_sub(linked.funcs().len())?;
    if place >= module.funcs.len() {
        return None;
    }
    Some(func_type_at(&module.types, index_at(&module.funcs, place)))
}

/// Tells whether the function of this index is one of the module's own, and these words are arguments of it.
pub fn can_call(linked: &Linked, func: u32, args: &[u64]) -> bool
    ensures { (c : Context) (inst : Instance) → IsInstanceOf linked.now c inst
        → MatchBool result (HasCall inst func args.now) (¬ (HasCall inst func args.now)) }
{
    match own_type(linked, func) {
        Some(func_type) => are_arguments(func_type.params.as_slice(), args),
        None => false,
    }
}
