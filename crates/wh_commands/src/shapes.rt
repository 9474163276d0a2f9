//! Shapes of words.

ghost use Rattle.std.specs.Prelude.{◌≡◌, ℕ, List};
ghost use Rattle.std.specs.Bool.{MatchBool};
ghost use Rattle.std.specs.Char.{is_ascii_hexdigit};
ghost use Rattle.std.specs.List.{AllPass};
ghost use Rattle.wh_script_model.specs.Lines as spec;
ghost use Rattle.wh_script_model.specs.Lines.{IsName, IsWord};
ghost use Rattle.wh_script_model.specs.Hex.{IsHex};

use crate::limits::LONGEST_NAME;
use memchr::memchr;

fn is_name_byte(byte: u8) -> bool
    ensures { result ≡ spec.is_name_byte byte }
{
    matches!(byte, b'a'..=b'z' | b'0'..=b'9' | b'_')
}

/// Tells whether a word is a name: 1 to 32 of `a` to `z`, `0` to `9` and `_`.
pub fn is_name(word: &[u8]) -> bool
    ensures { MatchBool result (IsName word.now) (¬ (IsName word.now)) }
{
    !word.is_empty() && word.len() <= LONGEST_NAME && word.iter().all(|b| is_name_byte(*b))
}

/// Tells whether bytes are a word: not empty, all below 128, and none a space.
pub fn is_word(bytes: &[u8]) -> bool
    ensures { MatchBool result (IsWord bytes.now) (¬ (IsWord bytes.now)) }
{
    !bytes.is_empty() && bytes.is_ascii() && memchr(b' ', bytes).is_none()
}

/// Returns a word as text.
pub fn text_of(word: &[u8]) -> &str
    requires { IsWord word.now }
    ensures { result.now ≡ word.now }
{
    match str::from_utf8(word) {
        Ok(text) => text,
        Err(_) => unreachable!(),
    }
}

/// Returns a name as text.
pub fn name_text(name: &[u8]) -> &str
    requires { IsName name.now }
    ensures { result.now ≡ name.now }
{
    text_of(name)
}

/// Tells whether a word is bytes in hexadecimal: two digits each, in either case.
pub fn is_hex(word: &[u8]) -> bool
    ensures { MatchBool result ((bytes : List ℕ) × IsHex word.now bytes)
        ((bytes : List ℕ) → IsHex word.now bytes → ⊥) }
{
    if word.len() % 2 != 0 {
        return false;
    }
    has_digits_alone(word)
}

/// Whether all of the bytes are digits in hexadecimal.
fn has_digits_alone(word: &[u8]) -> bool
    ensures { MatchBool result (AllPass is_ascii_hexdigit word.now)
        (¬ (AllPass is_ascii_hexdigit word.now)) }
{
    word.iter().all(|b| b.is_ascii_hexdigit())
}
