//! What a query says.

ghost use Rattle.std.specs.Prelude.{◌≡◌, IfOk, IfErr};
ghost use Rattle.wh_routes.specs.Queries.{value_in, text_in, SaysNumber, SaysNoNumber};

use crate::names::number_in;
use crate::pieces::{cut, is_same};
use thiserror::Error;

/// The value of a key is no number below 2^64 without zeros in front.
#[derive(Clone, Copy, Debug, PartialEq, Eq, Error)]
#[error("not a number")]
pub struct NotNumber;

/// Returns the value of the first pair `key=value` with this key, of pairs that `&` divides; a pair without `=` has an
/// empty value, and a pair's key ends at its first `=`. No escapes are decoded. `None` where no pair has the key.
pub fn query_value<'a>(query: &'a [u8], key: &[u8]) -> Option<&'a [u8]>
    ensures { text_in result ≡ value_in query.now key.now }
{
    let mut rest = Some(query);
    while let Some(text) = rest {
        let (pair, behind) = cut(text, b'&');
        let (its, value) = cut(pair, b'=');
        if is_same(its, key) {
            return Some(value.unwrap_or(b""));
        }
        rest = behind;
    }
    None
}

/// Reads the value of the first pair with this key as a number; `None` where no pair has the key.
///
/// # Errors
/// [`NotNumber`] where there is a value that is no number.
pub fn query_number(query: &[u8], key: &[u8]) -> Result<Option<u64>, NotNumber>
    ensures ok { IfOk result (λ found. SaysNumber (value_in query.now key.now) found) }
    ensures err { IfErr result (λ _. SaysNoNumber (value_in query.now key.now)) }
{
    match query_value(query, key) {
        Some(value) => match number_in(value) {
            Some(number) => Ok(Some(number)),
            None => Err(NotNumber),
        },
        None => Ok(None),
    }
}
