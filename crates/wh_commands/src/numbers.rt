//! The numbers among the words of a line.

ghost use Rattle.std.specs.Prelude.{◌≡◌, ℕ, ℤ, IfSome, IfNone};
ghost use Rattle.std.specs.Bool.{MatchBool};
ghost use Rattle.wh_model.specs.declared.ValType.TheVariants.{I32, I64};
ghost use Rattle.wh_script_model.specs.Words as spec;
ghost use Rattle.wh_script_model.specs.Words.{AreDigits, IsNumber, IsCount, IsBits};

use crate::limits::MOST_DIGITS;
use crate::shapes::text_of;

/// Whether a word is 1 to 20 decimal digits.
fn is_numeral(word: &[u8]) -> bool
    ensures { MatchBool result (AreDigits word.now) (¬ (AreDigits word.now)) }
{
    !word.is_empty() && word.len() <= MOST_DIGITS && word.iter().all(|b| b.is_ascii_digit())
}

/// The word without its `-`, if it has one.
fn without_minus(word: &[u8]) -> &[u8]
    ensures { result.now ≡ spec.without_minus word.now }
{
    match word {
        [b'-', digits @ ..] => digits,
        _ => word,
    }
}

/// Parses a number: 1 to 20 decimal digits, with a `-` before them or none.
pub fn number_in(word: &[u8]) -> Option<i128>
    ensures some { IfSome result (λ n. IsNumber word.now n) }
    ensures none { IfNone result ((n : ℤ) → ¬ (IsNumber word.now n)) }
{
    if !is_numeral(without_minus(word)) {
        return None;
    }
    match text_of(word).parse::<i128>() {
        Ok(number) => Some(number),
        Err(_) => unreachable!(),
    }
}

/// Parses a number of 64 bits without a sign.
pub fn count_in(word: &[u8]) -> Option<u64>
    ensures some { IfSome result (λ n. IsCount word.now n) }
    ensures none { IfNone result ((n : ℕ) → ¬ (IsCount word.now n)) }
{
    let number = number_in(word)?;
    if number < 0 || number > 0xFFFF_FFFF_FFFF_FFFF {
        return None;
    }
    Some(number as u64)
}

/// Parses a number in the range of an i32, signed or unsigned, and returns it modulo 2^32.
pub fn i32_bits_in(word: &[u8]) -> Option<u32>
    ensures some { IfSome result (λ bits. IsBits I32 word.now bits) }
    ensures none { IfNone result ((bits : ℕ) → ¬ (IsBits I32 word.now bits)) }
{
    let number = number_in(word)?;
    if number < -0x8000_0000 || number > 0xFFFF_FFFF {
        return None;
    }
    Some(number.rem_euclid(1 << 32) as u32)
}

/// Parses a number in the range of an i64, signed or unsigned, and returns it modulo 2^64.
pub fn i64_bits_in(word: &[u8]) -> Option<u64>
    ensures some { IfSome result (λ bits. IsBits I64 word.now bits) }
    ensures none { IfNone result ((bits : ℕ) → ¬ (IsBits I64 word.now bits)) }
{
    let number = number_in(word)?;
    if number < -0x8000_0000_0000_0000 || number > 0xFFFF_FFFF_FFFF_FFFF {
        return None;
    }
    Some(number.rem_euclid(1 << 64) as u64)
}
