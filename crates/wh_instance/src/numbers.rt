//! Numbers that are given as arguments, signed or unsigned, and the words that they are.

ghost use Rattle.std.specs.Prelude.{◌≡◌, ◌<◌, List, length, slice_get, false, Some, IfOk};
ghost use Rattle.std.specs.Bool.{MatchBool};
ghost use Rattle.wh_model.specs.Execution.Numbers.{bits, unsigned};
ghost use Rattle.wh_model.specs.Execution.Store.{Value, own, Instance};
ghost use Rattle.wh_model.specs.Format.Syntax.{FuncType as ModelType, Body};
ghost use Rattle.wh_model.specs.Validity.Typing.{Context};
ghost use Rattle.wh_host_model.specs.Owners.{IsArgument, AreArguments};
ghost use Rattle.wh_call.specs.Arguments.{HasNoOwn};
ghost use Rattle.wh_instance.specs.CallsByName.{CanTake, WordsAre, AreWords};
ghost use Rattle.wh_machine.specs.MachineRuns.{IsInstanceOf};

use std::alloc::{AllocError, Global};
use wh_call::own_type;
use wh_imports::Linked;
use wh_model::ValType;

/// Whether a number may be given for a parameter of this type: one that is signed or unsigned in its bits.
fn fits(val_type: ValType, number: i128) -> bool
    ensures { MatchBool result
        ((v : Value) × IsArgument val_type number v)
        ((v : Value) → ¬ (IsArgument val_type number v)) }
{
    match val_type {
        ValType::I32 => -0x8000_0000 <= number && number <= 0xFFFF_FFFF,
        ValType::I64 => -0x8000_0000_0000_0000 <= number && number <= 0xFFFF_FFFF_FFFF_FFFF,
    }
}

/// The number modulo 2^32 or 2^64, by the type.
fn word_of(val_type: ValType, number: i128) -> u64
    ensures { result ≡ unsigned (bits val_type) number }
{
    match val_type {
        ValType::I32 => number.rem_euclid(1 << 32) as u64,
        ValType::I64 => number.rem_euclid(1 << 64) as u64,
    }
}

fn type_at(params: &[ValType], at: usize) -> ValType
    requires { at < length params.now }
    ensures { slice_get params.now at ≡ Some result }
{
    params[at]
}

fn number_at(given: &[i128], at: usize) -> i128
    requires { at < length given.now }
    ensures { slice_get given.now at ≡ Some result }
{
    given[at]
}

/// Whether there is one number for each parameter, that may be given for its type.
fn are_given(params: &[ValType], given: &[i128]) -> bool
    ensures { MatchBool result
        ((vs : List Value) × AreArguments params.now given.now vs)
        ((vs : List Value) → ¬ (AreArguments params.now given.now vs)) }
{
    if params.len() != given.len() {
        return false;
    }
    for at in 0..params.len() {
        if !fits(type_at(params, at), number_at(given, at)) {
            return false;
        }
    }
    true
}

/// The words of the values that these numbers are.
fn words_for(alloc: Global, params: &[ValType], given: &[i128]) -> Result<Vec<u64>, AllocError>
    requires { length params.now ≡ length given.now }
    ensures { IfOk result (λ words. AreWords params.now given.now words.items) }
{
    let mut words = Vec::new(alloc);
    for at in 0..given.len() {
        words.push(word_of(type_at(params, at), number_at(given, at)))?;
    }
    Ok(words)
}

/// Tells whether these numbers are arguments of the function of this index, which has to be one of the module's own.
pub fn takes(linked: &Linked, func: u32, given: &[i128]) -> bool
    ensures own { (c : Context) (inst : Instance) (type : ModelType) (body : Body)
        → IsInstanceOf linked.now c inst
        → slice_get inst.funcs func ≡ Some (own type body)
        → MatchBool result
        ((vs : List Value) × AreArguments type.params given.now vs)
        ((vs : List Value) → ¬ (AreArguments type.params given.now vs)) }
    ensures other { (c : Context) (inst : Instance) → IsInstanceOf linked.now c inst
        → HasNoOwn inst func → result ≡ false }
{
    match own_type(linked, func) {
        Some(func_type) => are_given(func_type.params.as_slice(), given),
        None => false,
    }
}

/// Returns the words of these arguments, in order: an i32 modulo 2^32, in the low 32 bits, and an i64 modulo 2^64.
///
/// # Errors
/// `AllocError` if the allocation fails.
pub fn words_of(
    alloc: Global,
    linked: &Linked,
    func: u32,
    given: &[i128],
) -> Result<Vec<u64>, AllocError>
    requires { CanTake linked.now func given.now }
    ensures { IfOk result (λ words. WordsAre linked.now func given.now words.items) }
{
    match own_type(linked, func) {
        Some(func_type) => words_for(alloc, func_type.params.as_slice(), given),
        None => unreachable!(),
    }
}
