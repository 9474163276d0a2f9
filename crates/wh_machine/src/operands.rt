//! Instructions on operands alone (4.4.1, 4.4.2).

ghost use Rattle.std.specs.Prelude.{◌≡◌, ◌≢◌, ℕ, ◌^◌, ◌<◌, ◌⊎◌, List, ◌∷◌, Ok, Err, IfOk, IfErr, IsTrue, IsFalse};
ghost use Rattle.wh_model.specs.Execution.Numbers as numbers;
ghost use Rattle.wh_model.specs.Execution.Numbers.{bits};

use wh_control::ValueStack;
use wh_intops::{binop, convert, relop, testop, unop};
use wh_model::{BinaryOp, CompareOp, ConvertOp, TestOp, Trap, UnaryOp, ValType};

/// Pops the top word, as `drop` does.
#[inline(always)]
pub fn drop_top(words: &mut ValueStack)
    requires { (x : ℕ) × (rest : List ℕ) × (words.old ≡ x ∷ rest) }
    ensures { (x : ℕ) (rest : List ℕ) → words.old ≡ x ∷ rest → words.new ≡ rest }
{
    let _ = words.pop();
}

/// Pops a condition and two words, and pushes the lower of the words if the condition isn't zero, else the upper, as
/// `select` does.
#[inline(always)]
pub fn select(words: &mut ValueStack)
    requires { (i w v : ℕ) × (rest : List ℕ) × (words.old ≡ i ∷ w ∷ v ∷ rest) }
    ensures { (i w v : ℕ) (rest : List ℕ) → words.old ≡ i ∷ w ∷ v ∷ rest
        → ((i ≢ 0) × (words.new ≡ v ∷ rest)) ⊎ ((i ≡ 0) × (words.new ≡ w ∷ rest)) }
{
    let condition = words.pop();
    let second = words.pop();
    let first = words.pop();
    words.push(if condition == 0 { second } else { first });
}

/// Replaces the top word by what a unary operator of this type makes of it.
#[inline(always)]
pub fn unary(words: &mut ValueStack, width: ValType, op: UnaryOp)
    requires { (x : ℕ) × (rest : List ℕ) × (words.old ≡ x ∷ rest) × (x < 2 ^ bits width) }
    ensures { (x : ℕ) (rest : List ℕ) → words.old ≡ x ∷ rest
        → (r : ℕ) × (words.new ≡ r ∷ rest) × (r ≡ numbers.unary width op x) × (r < 2 ^ bits width) }
{
    let operand = words.pop();
    words.push(unop(width, op, operand));
}

/// Replaces the top word by the result of a test: 1 or 0.
#[inline(always)]
pub fn test(words: &mut ValueStack, op: TestOp)
    requires { (x : ℕ) × (rest : List ℕ) × (words.old ≡ x ∷ rest) }
    ensures { (x : ℕ) (rest : List ℕ) → words.old ≡ x ∷ rest
        → (r : ℕ) × (words.new ≡ r ∷ rest) × (r ≡ numbers.test op x) × (r < 2 ^ 32) }
{
    let operand = words.pop();
    words.push(testop(op, operand));
}

/// Replaces the two top words by the result of a comparison of this type: 1 or 0.
#[inline(always)]
pub fn compare(words: &mut ValueStack, width: ValType, op: CompareOp)
    requires { (y x : ℕ) × (rest : List ℕ) × (words.old ≡ y ∷ x ∷ rest) × (y < 2 ^ bits width)
        × (x < 2 ^ bits width) }
    ensures { (y x : ℕ) (rest : List ℕ) → words.old ≡ y ∷ x ∷ rest
        → (r : ℕ) × (words.new ≡ r ∷ rest) × (r ≡ numbers.compare width op x y) × (r < 2 ^ 32) }
{
    let right = words.pop();
    let left = words.pop();
    words.push(relop(width, op, left, right));
}

/// Replaces the two top words by the result of a binary operator of this type.
///
/// # Errors
/// The operator's trap: a division by zero, or a quotient or an integer out of range; the words are popped
/// nevertheless.
#[inline(always)]
pub fn binary(words: &mut ValueStack, width: ValType, op: BinaryOp) -> Result<(), Trap>
    requires { (y x : ℕ) × (rest : List ℕ) × (words.old ≡ y ∷ x ∷ rest) × (y < 2 ^ bits width)
        × (x < 2 ^ bits width) }
    ensures ok { IfOk result
        (λ _. (y x : ℕ) (rest : List ℕ) → words.old ≡ y ∷ x ∷ rest
        → (r : ℕ) × (words.new ≡ r ∷ rest) × (numbers.binary width op x y ≡ Ok r)
        × (r < 2 ^ bits width)) }
    ensures err { IfErr result
        (λ trap. (y x : ℕ) (rest : List ℕ) → words.old ≡ y ∷ x ∷ rest
        → numbers.binary width op x y ≡ Err trap) }
{
    let right = words.pop();
    let left = words.pop();
    match binop(width, op, left, right) {
        Ok(value) => {
            words.push(value);
            Ok(())
        }
        Err(trap) => Err(trap),
    }
}

/// Replaces the two top words by the result of a binary operator of this type. Returns `false`, and leaves the words as
/// they were, if it traps.
#[inline(always)]
pub fn try_operator(words: &mut ValueStack, width: ValType, op: BinaryOp) -> bool
    requires { (y x : ℕ) × (rest : List ℕ) × (words.old ≡ y ∷ x ∷ rest) × (y < 2 ^ bits width)
        × (x < 2 ^ bits width) }
    ensures done { IsTrue result
        → (y x : ℕ) (rest : List ℕ) → words.old ≡ y ∷ x ∷ rest
        → (r : ℕ) × (words.new ≡ r ∷ rest) × (numbers.binary width op x y ≡ Ok r)
        × (r < 2 ^ bits width) }
    ensures same { IsFalse result → words.new ≡ words.old }
{
    let second = words.pop();
    let first = words.pop();
    match binop(width, op, first, second) {
        Ok(value) => {
            words.push(value);
            true
        }
        Err(_) => {
            words.push(first);
            words.push(second);
            false
        }
    }
}

/// Replaces the top word by its conversion.
#[inline(always)]
pub fn conversion(words: &mut ValueStack, op: ConvertOp)
    requires { (x : ℕ) × (rest : List ℕ) × (words.old ≡ x ∷ rest)
        × (x < 2 ^ bits (numbers.operand_type op)) }
    ensures { (x : ℕ) (rest : List ℕ) → words.old ≡ x ∷ rest
        → (r : ℕ) × (words.new ≡ r ∷ rest) × (r ≡ numbers.convert op x)
        × (r < 2 ^ bits (numbers.result_type op)) }
{
    let operand = words.pop();
    words.push(convert(op, operand));
}
