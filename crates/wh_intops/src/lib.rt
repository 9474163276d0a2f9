//! The integer operators of WebAssembly 1.0, on machine words.
//!
//! They are those of the W3C WebAssembly Core Specification 1.0, sections 4.3.2, "Integer Operations", and 4.3.4,
//! "Conversions", which `specs/Numbers.antt` of `wh_model` restates. A type has N bits, 32 or 64; an operand is a `u64`
//! below 2^N, and so is a result, so an i32 stands in the low half of its word. Each function returns exactly what the
//! definition says, traps included.
//!
//! They take no memory, and branch on the operator and the traps. Inlined where the caller has branched on the width,
//! most operators are one machine instruction; elsewhere the width costs a conditional move or two.
#![tactic(auto)]

ghost use Rattle.std.specs.Prelude.{◌≡◌, ◌-◌, ◌<◌, ◌^◌, ◌%◌, IfOk, pos, neg_ℤ};
ghost use Rattle.wh_model.specs.Execution.Numbers.{bits, signed, unsigned, unary, binary, test, compare, convert, operand_type, result_type};
ghost use Rattle.wh_model.specs.Execution.Numbers.{iadd, isub, imul, idiv_s, idiv_u, irem_s, irem_u, ishl, ishr_s, ishr_u, irotl, irotr, iclz, ictz};

use wh_model::{BinaryOp, CompareOp, ConvertOp, TestOp, Trap, UnaryOp, ValType};

/// Counts bits of an operand (`iclz`, `ictz` and `ipopcnt` of the standard, 4.3.2), which gives 0 to N, or extends its
/// low bits by their sign (`iextend8_s` and so on of version 2.0, 4.3.2).
///
/// The operand is below 2^N at the type's N, and so is the result.
#[inline(always)]
#[tactic(auto, using(crate::proofs::Words::unary_results), unfolding(wh_model::specs::Execution::Numbers::unary))]
pub fn unop(width: ValType, op: UnaryOp, operand: u64) -> u64
    requires { operand < 2 ^ bits width }
    ensures value { result ≡ unary width op operand }
    ensures fits { result < 2 ^ bits width }
{
    match op {
        UnaryOp::Clz => clz(width, operand),
        UnaryOp::Ctz => ctz(width, operand),
        UnaryOp::Popcnt => u64::from(operand.count_ones()),
        UnaryOp::Extend8S => from_signed(width, low_8(operand)),
        UnaryOp::Extend16S => from_signed(width, low_16(operand)),
        UnaryOp::Extend32S => from_signed(width, to_signed(ValType::I32, operand % 0x1_0000_0000)),
    }
}

/// Computes an operator on two integers of one type (`iadd`, `isub` and so on of the standard, 4.3.2).
///
/// The operands are below 2^N at the type's N, and so is the result. Counts of shifts and rotations are taken modulo N.
/// A division or a remainder by 0 is [`Trap::DivideByZero`], whatever the dividend, and the signed division of the
/// least number by -1 is [`Trap::Overflow`]; the remainder of that division is 0. The other operators never trap.
#[inline(always)]
#[tactic(auto, using(crate::proofs::Words::results), unfolding(wh_model::specs::Execution::Numbers::binary))]
pub fn binop(width: ValType, op: BinaryOp, left: u64, right: u64) -> Result<u64, Trap>
    requires left_fits { left < 2 ^ bits width }
    requires right_fits { right < 2 ^ bits width }
    ensures value { result ≡ binary width op left right }
    ensures fits { IfOk result (λ word. word < 2 ^ bits width) }
{
    match op {
        BinaryOp::Add => Ok(add(width, left, right)),
        BinaryOp::Sub => Ok(sub(width, left, right)),
        BinaryOp::Mul => Ok(mul(width, left, right)),
        BinaryOp::DivS => div_s(width, left, right),
        BinaryOp::DivU => div_u(left, right),
        BinaryOp::RemS => rem_s(width, left, right),
        BinaryOp::RemU => rem_u(left, right),
        BinaryOp::And => Ok(left & right),
        BinaryOp::Or => Ok(left | right),
        BinaryOp::Xor => Ok(left ^ right),
        BinaryOp::Shl => Ok(shl(width, left, right)),
        BinaryOp::ShrS => Ok(shr_s(width, left, right)),
        BinaryOp::ShrU => Ok(shr_u(width, left, right)),
        BinaryOp::Rotl => Ok(rotl(width, left, right)),
        BinaryOp::Rotr => Ok(rotr(width, left, right)),
    }
}

/// Tests an integer of either type (`ieqz` of the standard, 4.3.2); returns an i32: 1 if the test holds, else 0.
#[inline(always)]
#[tactic(auto, using(crate::proofs::Words::tests_zero), unfolding(wh_model::specs::Execution::Numbers::truth))]
pub fn testop(op: TestOp, operand: u64) -> u64
    ensures value { result ≡ test op operand }
    ensures fits { result < 2 ^ 32 }
{
    match op {
        TestOp::Eqz => u64::from(operand == 0),
    }
}

/// Compares two integers of one type (`ieq`, `ilt_s` and so on of the standard, 4.3.2); returns an i32: 1 if the
/// comparison holds, else 0.
///
/// The operands are below 2^N at the type's N.
#[inline(always)]
#[tactic(auto, unfolding(wh_model::specs::Execution::Numbers::compare, wh_model::specs::Execution::Numbers::holds, wh_model::specs::Execution::Numbers::truth))]
pub fn relop(width: ValType, op: CompareOp, left: u64, right: u64) -> u64
    requires left_fits { left < 2 ^ bits width }
    requires right_fits { right < 2 ^ bits width }
    ensures value { result ≡ compare width op left right }
    ensures fits { result < 2 ^ 32 }
{
    u64::from(match op {
        CompareOp::Eq => left == right,
        CompareOp::Ne => left != right,
        CompareOp::LtS => to_signed(width, left) < to_signed(width, right),
        CompareOp::LtU => left < right,
        CompareOp::GtS => to_signed(width, left) > to_signed(width, right),
        CompareOp::GtU => left > right,
        CompareOp::LeS => to_signed(width, left) <= to_signed(width, right),
        CompareOp::LeU => left <= right,
        CompareOp::GeS => to_signed(width, left) >= to_signed(width, right),
        CompareOp::GeU => left >= right,
    })
}

/// Converts an integer to the other type (`wrap`, `extend_u` and `extend_s` of the standard, 4.3.4).
///
/// The operand is below 2^N at the N of the type that the conversion takes, and the result at that of the type that
/// it gives.
#[inline(always)]
#[tactic(auto, unfolding(wh_model::specs::Execution::Numbers::convert, wh_model::specs::Execution::Numbers::wrap, wh_model::specs::Execution::Numbers::extend_s, wh_model::specs::Execution::Numbers::extend_u))]
pub fn convert(op: ConvertOp, operand: u64) -> u64
    requires { operand < 2 ^ bits (operand_type op) }
    ensures value { result ≡ convert op operand }
    ensures fits { result < 2 ^ bits (result_type op) }
{
    match op {
        ConvertOp::WrapI64 => wrap(ValType::I32, operand),
        ConvertOp::ExtendI32S => from_signed(ValType::I64, to_signed(ValType::I32, operand)),
        ConvertOp::ExtendI32U => operand,
    }
}

#[inline(always)]
#[tactic(auto, using(crate::proofs::Words::sums))]
fn add(width: ValType, left: u64, right: u64) -> u64
    ensures { result ≡ iadd (bits width) left right }
{
    wrap(width, left.wrapping_add(right))
}

#[inline(always)]
#[tactic(auto, using(crate::proofs::Words::sums))]
fn sub(width: ValType, left: u64, right: u64) -> u64
    requires { right < 2 ^ bits width }
    ensures { result ≡ isub (bits width) left right }
{
    wrap(width, left.wrapping_sub(right))
}

#[inline(always)]
#[tactic(auto, using(crate::proofs::Words::sums))]
fn mul(width: ValType, left: u64, right: u64) -> u64
    ensures { result ≡ imul (bits width) left right }
{
    wrap(width, left.wrapping_mul(right))
}

#[inline(always)]
#[tactic(auto, unfolding(wh_model::specs::Execution::Numbers::idiv_u))]
fn div_u(left: u64, right: u64) -> Result<u64, Trap>
    ensures { result ≡ idiv_u left right }
{
    if right == 0 {
        return Err(Trap::DivideByZero);
    }
    Ok(left / right)
}

#[inline(always)]
#[tactic(auto, using(crate::proofs::Quotients::quotients))]
fn div_s(width: ValType, left: u64, right: u64) -> Result<u64, Trap>
    requires left_fits { left < 2 ^ bits width }
    requires right_fits { right < 2 ^ bits width }
    ensures { result ≡ idiv_s (bits width) left right }
{
    if right == 0 {
        return Err(Trap::DivideByZero);
    }
    let dividend = to_signed(width, left);
    let divisor = to_signed(width, right);
    if dividend == least(width) && divisor == -1 {
        return Err(Trap::Overflow);
    }
    Ok(from_signed(width, dividend / divisor))
}

#[inline(always)]
#[tactic(auto, using(crate::proofs::Quotients::remainders))]
fn rem_u(left: u64, right: u64) -> Result<u64, Trap>
    ensures { result ≡ irem_u left right }
{
    if right == 0 {
        return Err(Trap::DivideByZero);
    }
    Ok(left % right)
}

// The least number by -1 leaves 0, where the machine's own instruction would stop.
#[inline(always)]
#[tactic(auto, using(crate::proofs::Quotients::remainders))]
fn rem_s(width: ValType, left: u64, right: u64) -> Result<u64, Trap>
    requires left_fits { left < 2 ^ bits width }
    requires right_fits { right < 2 ^ bits width }
    ensures { result ≡ irem_s (bits width) left right }
{
    if right == 0 {
        return Err(Trap::DivideByZero);
    }
    let dividend = to_signed(width, left);
    let divisor = to_signed(width, right);
    Ok(from_signed(width, dividend.wrapping_rem(divisor)))
}

#[inline(always)]
#[tactic(auto, using(crate::proofs::Shifts::shifts))]
fn shl(width: ValType, left: u64, right: u64) -> u64
    ensures { result ≡ ishl (bits width) left right }
{
    wrap(width, left << shift_count(width, right))
}

#[inline(always)]
#[tactic(auto, using(crate::proofs::Shifts::shifts))]
fn shr_s(width: ValType, left: u64, right: u64) -> u64
    requires { left < 2 ^ bits width }
    ensures { result ≡ ishr_s (bits width) left right }
{
    from_signed(width, to_signed(width, left) >> shift_count(width, right))
}

#[inline(always)]
#[tactic(auto, unfolding(wh_model::specs::Execution::Numbers::ishr_u))]
fn shr_u(width: ValType, left: u64, right: u64) -> u64
    ensures { result ≡ ishr_u (bits width) left right }
{
    left >> shift_count(width, right)
}

#[inline(always)]
#[tactic(auto, using(crate::proofs::Shifts::rotations))]
fn rotl(width: ValType, left: u64, right: u64) -> u64
    requires { left < 2 ^ bits width }
    ensures { result ≡ irotl (bits width) left right }
{
    let count = shift_count(width, right);
    match width {
        ValType::I32 => u64::from((left as u32).rotate_left(count)),
        ValType::I64 => left.rotate_left(count),
    }
}

#[inline(always)]
#[tactic(auto, using(crate::proofs::Shifts::rotations))]
fn rotr(width: ValType, left: u64, right: u64) -> u64
    requires { left < 2 ^ bits width }
    ensures { result ≡ irotr (bits width) left right }
{
    let count = shift_count(width, right);
    match width {
        ValType::I32 => u64::from((left as u32).rotate_right(count)),
        ValType::I64 => left.rotate_right(count),
    }
}

#[inline(always)]
#[tactic(auto, using(crate::proofs::Counts::counts))]
fn clz(width: ValType, word: u64) -> u64
    requires { word < 2 ^ bits width }
    ensures { result ≡ iclz (bits width) word }
{
    match width {
        ValType::I32 => u64::from((word as u32).leading_zeros()),
        ValType::I64 => u64::from(word.leading_zeros()),
    }
}

#[inline(always)]
#[tactic(auto, using(crate::proofs::Counts::counts))]
fn ctz(width: ValType, word: u64) -> u64
    requires { word < 2 ^ bits width }
    ensures { result ≡ ictz (bits width) word }
{
    match width {
        ValType::I32 => u64::from((word as u32).trailing_zeros()),
        ValType::I64 => u64::from(word.trailing_zeros()),
    }
}

/// The low bits of a word, as many as the type has.
#[inline(always)]
fn wrap(width: ValType, word: u64) -> u64
    ensures { result ≡ word % 2 ^ bits width }
{
    match width {
        ValType::I32 => word & 0xFFFF_FFFF,
        ValType::I64 => word,
    }
}

/// The signed number that a word represents.
#[inline(always)]
#[tactic(auto, using(crate::proofs::Words::signs))]
fn to_signed(width: ValType, word: u64) -> i64
    requires { word < 2 ^ bits width }
    ensures { result ≡ signed (bits width) word }
{
    match width {
        ValType::I32 => i64::from((word as u32).cast_signed()),
        ValType::I64 => word.cast_signed(),
    }
}

/// The signed number that a word's low 8 bits represent.
#[inline(always)]
#[tactic(auto, using(crate::proofs::Words::narrow_signs))]
fn low_8(word: u64) -> i64
    ensures { result ≡ signed 8 (word % 2 ^ 8) }
{
    i64::from(((word % 0x100) as u8).cast_signed())
}

/// The signed number that a word's low 16 bits represent.
#[inline(always)]
#[tactic(auto, using(crate::proofs::Words::narrow_signs))]
fn low_16(word: u64) -> i64
    ensures { result ≡ signed 16 (word % 2 ^ 16) }
{
    i64::from(((word % 0x1_0000) as u16).cast_signed())
}

/// The word that represents a signed number.
#[inline(always)]
#[tactic(auto, using(crate::proofs::Words::signs))]
fn from_signed(width: ValType, number: i64) -> u64
    ensures { result ≡ unsigned (bits width) number }
{
    wrap(width, number.cast_unsigned())
}

/// The least signed number of the type.
#[inline(always)]
fn least(width: ValType) -> i64
    ensures { result ≡ neg_ℤ (pos (2 ^ (bits width - 1))) }
{
    match width {
        ValType::I32 => i64::from(i32::MIN),
        ValType::I64 => i64::MIN,
    }
}

/// The count of a shift or a rotation, modulo the number of bits.
#[inline(always)]
fn shift_count(width: ValType, count: u64) -> u32
    ensures { result ≡ count % bits width }
{
    match width {
        ValType::I32 => (count % 32) as u32,
        ValType::I64 => (count % 64) as u32,
    }
}
