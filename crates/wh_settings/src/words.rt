//! The words of a document: its keys, the hash, and the path.

ghost use Rattle.std.specs.Prelude.{◌≡◌, option_map, IfSome, IfNone};
ghost use Rattle.std.specs.Bool.{MatchBool};
ghost use Rattle.toml.specs.Data.{get_member};
ghost use Rattle.toml.specs.View.{view, table_view};
ghost use Rattle.wh_script_model.specs.Settings.{PageHashing, by_fnv64};
ghost use Rattle.wh_settings.specs.Spelled.{IsKnownKey, HasKnownKeys, SetsHash};
ghost use Rattle.wh_settings.specs.View.{hashing_of};

use crate::settings::HashKind;
use toml::{Table, Value};

/// Returns what a document has at a key, if anything.
pub fn value_at<'a>(table: &'a Table, key: &str) -> Option<&'a Value>
    ensures { option_map (λ v. view v.now) result ≡ get_member key.now (table_view table.now) }
{
    table.get(key)
}

/// Whether there is such a key.
fn is_known(key: &str) -> bool
    ensures { MatchBool result (IsKnownKey key.now) (¬ (IsKnownKey key.now)) }
{
    matches!(
        key,
        "frames" | "slots" | "tax_num" | "tax_den" | "quantum" | "hash" | "swap"
    )
}

/// Tells whether the document has no keys but those of settings.
pub fn has_known_keys(table: &Table) -> bool
    ensures { let document = table_view table.now in
        MatchBool result (HasKnownKeys document) (¬ (HasKnownKeys document)) }
{
    for (key, _) in table.iter() {
        if !is_known(key.as_str()) {
            return false;
        }
    }
    true
}

/// Returns the hash that the document names, or FNV-1a if it names none; `None` if it names an unknown one.
pub fn hash_at(table: &Table, key: &str) -> Option<HashKind>
    ensures some { IfSome result
        (λ hash. SetsHash (table_view table.now) key.now by_fnv64 (hashing_of hash)) }
    ensures none { IfNone result
        ((hash : PageHashing) → ¬ (SetsHash (table_view table.now) key.now by_fnv64 hash)) }
{
    let Some(value) = value_at(table, key) else {
        return Some(HashKind::Fnv64);
    };
    match value.as_str()? {
        "fnv64" => Some(HashKind::Fnv64),
        "constant" => Some(HashKind::Constant),
        _ => None,
    }
}
