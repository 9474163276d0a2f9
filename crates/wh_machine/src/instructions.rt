//! What the machine does at each instruction of words and frames alone.

ghost use Rattle.std.specs.Prelude.{◌≡◌, ◌+◌, ◌^◌, ◌<◌};
ghost use Rattle.wh_model.specs.Execution.Numbers.{unsigned};
ghost use Rattle.wh_control.specs.ControlSteps.{moved};
ghost use Rattle.wh_syntax.specs.declared.instr.Instr.TheVariants.{Nop, Block, Loop, Drop, Select, LocalGet, LocalSet, LocalTee, I32Const, I64Const, Test, Compare, Unary, Binary, Convert, End};
ghost use Rattle.wh_machine.specs.declared.machine.Exec.TheVariants.{Free, Charged};
ghost use Rattle.wh_machine.specs.Alone.{ComesNextAnywhere, IsExecAnywhere};
ghost use Rattle.wh_machine.specs.Total.{IsTotal};

use crate::bytes::{word_of, word_of_i32};
use crate::machine::{Exec, Stack};
use crate::operands::{binary, compare, conversion, drop_top, select, test, unary};
use crate::variables::{local_get, local_set, local_tee};
use wh_model::{BinaryOp, CompareOp, ConvertOp, TestOp, UnaryOp, ValType};

/// Moves to the next instruction.
#[inline(always)]
pub fn advance(stack: &mut Stack)
    requires { stack.old.frame.place + 1 < 2 ^ 64 }
    ensures { stack.new
        ≡ record stack.old { frame = moved stack.old.frame (stack.old.frame.place + 1) } }
{
    stack.frame.place += 1;
}

/// Moves to the next instruction, whose place is known.
#[inline(always)]
pub fn advance_to(stack: &mut Stack, behind: usize)
    requires { behind ≡ stack.old.frame.place + 1 }
    ensures { stack.new
        ≡ record stack.old { frame = moved stack.old.frame (stack.old.frame.place + 1) } }
{
    stack.frame.place = behind;
}

/// Executes `drop`.
#[inline(always)]
pub fn exec_drop(stack: &mut Stack)
    requires { ComesNextAnywhere stack.old Drop }
    ensures { IsExecAnywhere stack.old Drop Charged stack.new }
{
    drop_top(&mut stack.words);
    advance(stack);
}

/// Executes `select`.
#[inline(always)]
pub fn exec_select(stack: &mut Stack)
    requires { ComesNextAnywhere stack.old Select }
    ensures { IsExecAnywhere stack.old Select Charged stack.new }
{
    select(&mut stack.words);
    advance(stack);
}

/// Executes a test (`eqz`) of this type.
#[inline(always)]
pub fn exec_test(stack: &mut Stack, width: ValType, op: TestOp)
    requires { ComesNextAnywhere stack.old (Test width op) }
    ensures { IsExecAnywhere stack.old (Test width op) Charged stack.new }
{
    let _ = width;
    test(&mut stack.words, op);
    advance(stack);
}

/// Executes a comparison of this type.
#[inline(always)]
pub fn exec_compare(stack: &mut Stack, width: ValType, op: CompareOp)
    requires { ComesNextAnywhere stack.old (Compare width op) }
    ensures { IsExecAnywhere stack.old (Compare width op) Charged stack.new }
{
    compare(&mut stack.words, width, op);
    advance(stack);
}

/// Executes a unary operator of this type.
#[inline(always)]
pub fn exec_unary(stack: &mut Stack, width: ValType, op: UnaryOp)
    requires { ComesNextAnywhere stack.old (Unary width op) }
    ensures { IsExecAnywhere stack.old (Unary width op) Charged stack.new }
{
    unary(&mut stack.words, width, op);
    advance(stack);
}

/// Executes a binary operator of this type, or traps as it does.
#[inline(always)]
pub fn exec_binary(stack: &mut Stack, width: ValType, op: BinaryOp) -> Exec
    requires { ComesNextAnywhere stack.old (Binary width op) }
    ensures { IsExecAnywhere stack.old (Binary width op) result stack.new }
{
    match binary(&mut stack.words, width, op) {
        Ok(()) => {
            advance(stack);
            Exec::Charged
        }
        Err(trap) => Exec::Trapped(trap),
    }
}

/// Executes a binary operator of this type that never traps, and goes on at the place behind it.
#[inline(always)]
pub fn exec_total(stack: &mut Stack, width: ValType, op: BinaryOp, behind: usize)
    requires next { ComesNextAnywhere stack.old (Binary width op) }
    requires total { IsTotal op }
    requires place { behind ≡ stack.old.frame.place + 1 }
    ensures { IsExecAnywhere stack.old (Binary width op) Charged stack.new }
{
    match binary(&mut stack.words, width, op) {
        Ok(()) => advance_to(stack, behind),
        Err(_) => unreachable!(),
    }
}

/// Executes a conversion.
#[inline(always)]
pub fn exec_convert(stack: &mut Stack, op: ConvertOp)
    requires { ComesNextAnywhere stack.old (Convert op) }
    ensures { IsExecAnywhere stack.old (Convert op) Charged stack.new }
{
    conversion(&mut stack.words, op);
    advance(stack);
}

/// Executes `local.get`.
#[inline(always)]
pub fn exec_local_get(stack: &mut Stack, local: u32)
    requires { ComesNextAnywhere stack.old (LocalGet local) }
    ensures { IsExecAnywhere stack.old (LocalGet local) Charged stack.new }
{
    let place = stack.frame.base + local as usize;
    local_get(&mut stack.words, place);
    advance(stack);
}

/// Executes `local.set`.
#[inline(always)]
pub fn exec_local_set(stack: &mut Stack, local: u32)
    requires { ComesNextAnywhere stack.old (LocalSet local) }
    ensures { IsExecAnywhere stack.old (LocalSet local) Charged stack.new }
{
    let place = stack.frame.base + local as usize;
    local_set(&mut stack.words, place);
    advance(stack);
}

/// Executes `local.tee`.
#[inline(always)]
pub fn exec_local_tee(stack: &mut Stack, local: u32)
    requires { ComesNextAnywhere stack.old (LocalTee local) }
    ensures { IsExecAnywhere stack.old (LocalTee local) Charged stack.new }
{
    let place = stack.frame.base + local as usize;
    local_tee(&mut stack.words, place);
    advance(stack);
}

/// Executes `nop`.
#[inline(always)]
pub fn exec_nop(stack: &mut Stack)
    requires { ComesNextAnywhere stack.old Nop }
    ensures { IsExecAnywhere stack.old Nop Charged stack.new }
{
    advance(stack);
}

/// Executes `block`.
#[inline(always)]
pub fn exec_block(stack: &mut Stack, result_type: Option<ValType>)
    requires { ComesNextAnywhere stack.old (Block result_type) }
    ensures { IsExecAnywhere stack.old (Block result_type) Charged stack.new }
{
    let _ = result_type;
    advance(stack);
}

/// Executes `loop`.
#[inline(always)]
pub fn exec_loop(stack: &mut Stack, result_type: Option<ValType>)
    requires { ComesNextAnywhere stack.old (Loop result_type) }
    ensures { IsExecAnywhere stack.old (Loop result_type) Charged stack.new }
{
    let _ = result_type;
    advance(stack);
}

/// Executes `end`.
#[inline(always)]
pub fn exec_end(stack: &mut Stack)
    requires { ComesNextAnywhere stack.old End }
    ensures { IsExecAnywhere stack.old End Free stack.new }
{
    advance(stack);
}

/// Executes `i32.const`.
#[inline(always)]
pub fn exec_i32_const(stack: &mut Stack, number: i32)
    requires { ComesNextAnywhere stack.old (I32Const number) }
    ensures { IsExecAnywhere stack.old (I32Const number) Free stack.new }
{
    stack.words.push(word_of_i32(number));
    advance(stack);
}

/// Executes `i32.const` of a number with this word.
#[inline(always)]
pub fn exec_i32_word(stack: &mut Stack, number: i32, word: u32)
    requires next { ComesNextAnywhere stack.old (I32Const number) }
    requires word { word ≡ unsigned 32 number }
    ensures { IsExecAnywhere stack.old (I32Const number) Free stack.new }
{
    let _ = number;
    stack.words.push(u64::from(word));
    advance(stack);
}

/// Executes `i64.const`.
#[inline(always)]
pub fn exec_i64_const(stack: &mut Stack, number: i64)
    requires { ComesNextAnywhere stack.old (I64Const number) }
    ensures { IsExecAnywhere stack.old (I64Const number) Free stack.new }
{
    stack.words.push(word_of(ValType::I64, number));
    advance(stack);
}
