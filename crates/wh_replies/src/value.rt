//! The value of a call as a reply shows it.

ghost use Rattle.std.specs.Prelude.{◌≡◌, ◌<◌, ◌^◌, Some};
ghost use Rattle.wh_model.specs.Execution.Numbers.{bits, signed};

use wh_model::ValType;

/// Returns the signed number that a word represents as a value of this type: an i32 is a word below 2^32. Returns
/// `None` if the word is none of this type.
#[tactic(auto, using(crate::proofs::Signed::signs))]
pub fn signed_value(of: ValType, word: u64) -> Option<i64>
    ensures { word < 2 ^ bits of → result ≡ Some (signed (bits of) word) }
{
    match of {
        ValType::I32 => Some(i64::from(u32::try_from(word).ok()?.cast_signed())),
        ValType::I64 => Some(word.cast_signed()),
    }
}
