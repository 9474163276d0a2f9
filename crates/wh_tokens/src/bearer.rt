//! Tokens in requests.

ghost use Rattle.std.specs.Prelude.{◌≡◌, ◌≢◌, ℕ, ◌<◌, List, length, take, slice_index, IfSome, IfNone, All};
ghost use Rattle.std.specs.Bool.{MatchBool};
ghost use Rattle.wh_tokens.specs.Bearer.{is_token_byte, without_spaces, IsToken, CarriesToken};

use wh_routes::cut;

// Whether a byte may stand in a token before its `=`.
fn may_stand(byte: u8) -> bool
    ensures { result ≡ is_token_byte byte }
{
    byte.is_ascii_alphanumeric() || matches!(byte, b'-' | b'.' | b'_' | b'~' | b'+' | b'/')
}

// Whether a text is a token: some bytes that may stand in one, and any number of `=`.
fn is_token(text: &[u8]) -> bool
    ensures { MatchBool result (IsToken text.now) (¬ (IsToken text.now)) }
{
    let (body, behind) = cut(text, b'=');
    if body.is_empty() || !body.iter().all(|b| may_stand(*b)) {
        return false;
    }
    match behind {
        Some(rest) => rest.iter().all(|b| *b == b'='),
        None => true,
    }
}

// Where a text has its first byte that is no space.
fn first_other(text: &[u8]) -> Option<usize>
    ensures some { IfSome result (λ at. (at < length text.now)
        × All (λ b. b ≡ 32) (take at text.now) × (slice_index text.now at ≢ 32)) }
    ensures none { IfNone result (All (λ b. b ≡ 32) text.now) }
{
    text.iter().position(|b| *b != b' ')
}

// A text without the spaces that it begins with.
fn behind_spaces(text: &[u8]) -> &[u8]
    ensures { result.now ≡ without_spaces text.now }
{
    match first_other(text) {
        Some(at) => &text[at..],
        None => b"",
    }
}

/// Returns the token of an `Authorization` field's value, `Bearer TOKEN`; the scheme's case is of no matter. `None` where
/// it carries none.
pub fn bearer_token(field: &[u8]) -> Option<&[u8]>
    ensures some { IfSome result (λ token. CarriesToken field.now token.now) }
    ensures none { IfNone result ((token : List ℕ) → ¬ (CarriesToken field.now token)) }
{
    let (scheme, rest) = cut(field, b' ');
    if !scheme.eq_ignore_ascii_case(b"bearer") {
        return None;
    }
    let Some(rest) = rest else {
        return None;
    };
    let token = behind_spaces(rest);
    if !is_token(token) {
        return None;
    }
    Some(token)
}
