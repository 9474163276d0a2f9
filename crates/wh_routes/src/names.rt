//! NamesRoute, numbers and digests, as texts spell them.

ghost use Rattle.std.specs.Prelude.{◌≡◌, ℕ, List, IfSome, IfNone};
ghost use Rattle.std.specs.Bool.{MatchBool};
ghost use Rattle.wh_routes.specs.Readings.{SpellsNumber, SpellsDigest, IsInstanceName, IsPlainNumeral, is_instance_name_byte};

use crate::pieces::is_same;
use hex::FromHex;

/// Most bytes of an instance's name.
pub const LONGEST_NAME: usize = 64;

const MOST_DIGITS: usize = 20;

// Whether a byte may stand in a name.
fn may_stand(byte: u8) -> bool
    ensures { result ≡ is_instance_name_byte byte }
{
    byte.is_ascii_alphanumeric() || byte == b'.' || byte == b'_' || byte == b'-'
}

/// Returns whether a text may name an instance.
pub fn is_name(text: &[u8]) -> bool
    ensures { MatchBool result (IsInstanceName text.now) (¬ (IsInstanceName text.now)) }
{
    let Some(first) = text.first() else {
        return false;
    };
    text.len() <= LONGEST_NAME
        && first.is_ascii_alphanumeric()
        && text.iter().all(|b| may_stand(*b))
}

// Whether a text is 1 to 20 decimal digits, without zeros in front.
fn is_numeral(text: &[u8]) -> bool
    ensures { MatchBool result (IsPlainNumeral text.now) (¬ (IsPlainNumeral text.now)) }
{
    let Some(first) = text.first() else {
        return false;
    };
    if text.len() > MOST_DIGITS || (*first == b'0' && text.len() > 1) {
        return false;
    }
    text.iter().all(|b| b.is_ascii_digit())
}

/// Reads a decimal number below 2^64 without zeros in front; `None` where the text spells none.
pub fn number_in(text: &[u8]) -> Option<u64>
    ensures some { IfSome result (λ n. SpellsNumber text.now n) }
    ensures none { IfNone result ((n : ℕ) → ¬ (SpellsNumber text.now n)) }
{
    if !is_numeral(text) {
        return None;
    }
    let Ok(text) = str::from_utf8(text) else {
        return None;
    };
    match text.parse::<u64>() {
        Ok(number) => Some(number),
        Err(_) => None,
    }
}

/// Reads a digest of 64 hexadecimal digits, whose letters are small; `None` where the text spells none.
pub fn digest_in(text: &[u8]) -> Option<[u8; 32]>
    ensures some { IfSome result (λ digest. SpellsDigest text.now digest) }
    ensures none { IfNone result ((digest : List ℕ) → ¬ (SpellsDigest text.now digest)) }
{
    let Ok(digest) = <[u8; 32] as FromHex>::from_hex(text) else {
        return None;
    };
    // Written again, capital letters are small.
    let mut again = [0; 64];
    let Ok(()) = hex::encode_to_slice(digest, &mut again) else {
        return None;
    };
    if !is_same(text, &again) {
        return None;
    }
    Some(digest)
}
