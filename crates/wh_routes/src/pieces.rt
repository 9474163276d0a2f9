//! The pieces of a text between its separators.

ghost use Rattle.std.specs.Prelude.{◌≡◌, ◌≢◌, ℕ, List, [], ◌∷◌, ◌++◌, ◌<◌, length, IfSome, IfNone};
ghost use Rattle.std.specs.Bool.{MatchBool};
ghost use Rattle.std.specs.List.{All};
ghost use Rattle.wh_routes.specs.Separators.{pieces_at, pieces_behind, piece_before, text_behind, rest_text};

// The two parts of a text at the first separator.
fn at_first(text: &[u8], separator: u8) -> Option<(&[u8], &[u8])>
    ensures some { IfSome result
        (λ parts. (text.now ≡ parts.0.now ++ separator ∷ parts.1.now) × All (λ b. b ≢ separator) parts.0.now) }
    ensures none { IfNone result (All (λ b. b ≢ separator) text.now) }
{
    let at = text.iter().position(|b| *b == separator)?;
    Some((&text[..at], &text[at + 1..]))
}

/// Cuts a text at the first separator: the piece before it, and what lies behind it, if it is there.
pub fn cut(text: &[u8], separator: u8) -> (&[u8], Option<&[u8]>)
    ensures pieces { pieces_at separator text.now ≡ result.0.now ∷ pieces_behind separator result.1 }
    ensures before { result.0.now ≡ piece_before separator text.now }
    ensures joined { IfSome result.1
        (λ rest. text.now ≡ result.0.now ++ separator ∷ rest.now) }
    ensures shorter { IfSome result.1 (λ rest. length rest.now < length text.now) }
    ensures behind { rest_text result.1 ≡ text_behind separator text.now }
{
    match at_first(text, separator) {
        Some((first, rest)) => (first, Some(rest)),
        None => (text, None),
    }
}

/// Returns whether two texts are the same.
pub fn is_same(text: &[u8], other: &[u8]) -> bool
    ensures { MatchBool result (text.now ≡ other.now) (text.now ≢ other.now) }
{
    text == other
}
