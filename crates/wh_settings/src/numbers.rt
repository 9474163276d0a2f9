//! The numbers of a document.

ghost use Rattle.std.specs.Prelude.{ℕ, IfSome, IfNone};
ghost use Rattle.toml.specs.View.{table_view};
ghost use Rattle.wh_settings.specs.Spelled.{HasNumber, SetsNumber, SetsTax};

use crate::words::value_at;
use toml::Table;
use wh_space_model::Tax;

/// Returns the number at a key, or `otherwise` if there is no such key; `None` if the value is no number, or not from
/// `least` to `most`.
pub fn number_at(table: &Table, key: &str, otherwise: u64, least: u64, most: u64) -> Option<u64>
    ensures some { IfSome result
        (SetsNumber (table_view table.now) key.now otherwise least most) }
    ensures none { IfNone result
        ((n : ℕ) → ¬ (SetsNumber (table_view table.now) key.now otherwise least most n)) }
{
    let Some(number) = spelled(table, key, otherwise) else {
        return None;
    };
    if number < least || number > most {
        return None;
    }
    Some(number)
}

/// The number at a key, or `otherwise` where the key isn't there; none where it is no number.
fn spelled(table: &Table, key: &str, otherwise: u64) -> Option<u64>
    ensures some { IfSome result (HasNumber (table_view table.now) key.now otherwise) }
    ensures none { IfNone result
        ((n : ℕ) → ¬ (HasNumber (table_view table.now) key.now otherwise n)) }
{
    let Some(value) = value_at(table, key) else {
        return Some(otherwise);
    };
    match value.as_integer() {
        Some(number) if number >= 0 => Some(number as u64),
        _ => None,
    }
}

/// Returns the tax; `None` if it isn't below 1, or a part of it is out of range.
pub fn tax_at(table: &Table) -> Option<Tax>
    ensures some { IfSome result (λ tax. SetsTax (table_view table.now) tax.num tax.den) }
    ensures none { IfNone result
        ((num den : ℕ) → ¬ (SetsTax (table_view table.now) num den)) }
{
    let Some(num) = number_at(table, "tax_num", 3, 0, 999) else {
        return None;
    };
    let Some(den) = number_at(table, "tax_den", 4, 1, 1000) else {
        return None;
    };
    if num >= den {
        return None;
    }
    Some(Tax {
        num: num as u32,
        den: den as u32,
    })
}
