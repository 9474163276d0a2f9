//! Settings from a document.

ghost use Rattle.std.specs.Prelude.{◌≡◌, ℕ, List, Option, IfOk, IfErr, option_map, string_bytes};
ghost use Rattle.toml.specs.View.{table_view};
ghost use Rattle.wh_script_model.specs.Settings as host;
ghost use Rattle.wh_settings.specs.Spelled.{HasSettings, SpellsSettings, SetsPath};
ghost use Rattle.wh_settings.specs.View.{settings_of};

use crate::error::SettingsError;
use crate::numbers::{number_at, tax_at};
use crate::settings::Settings;
use crate::words::{has_known_keys, hash_at, value_at};
use std::alloc::Global;
use toml::Table;

/// The path at a key, if the key is there. It isn't empty.
fn path_at(alloc: Global, table: &Table, key: &str) -> Result<Option<String>, SettingsError>
    ensures ok { IfOk result
        (λ path. SetsPath (table_view table.now) key.now (option_map string_bytes path)) }
    ensures err { IfErr result (λ e. e ≡ SettingsError.Invalid
        → (path : Option (List ℕ)) → ¬ (SetsPath (table_view table.now) key.now path)) }
{
    let Some(value) = value_at(table, key) else {
        return Ok(None);
    };
    let Some(path) = value.as_str() else {
        return Err(SettingsError::Invalid);
    };
    if path.is_empty() {
        return Err(SettingsError::Invalid);
    }
    match String::from_str(alloc, path) {
        Ok(path) => Ok(Some(path)),
        Err(_) => Err(SettingsError::Memory),
    }
}

/// The settings that a document spells.
fn settings_in(alloc: Global, table: &Table) -> Result<Settings, SettingsError>
    ensures ok { IfOk result (λ s. HasSettings (table_view table.now) (settings_of s)) }
    ensures err { IfErr result (λ e. e ≡ SettingsError.Invalid
        → (s : host.Settings) → ¬ (HasSettings (table_view table.now) s)) }
{
    if !has_known_keys(table) {
        return Err(SettingsError::Invalid);
    }
    let Some(frames) = number_at(table, "frames", 1024, 2, 262144) else {
        return Err(SettingsError::Invalid);
    };
    let Some(slots) = number_at(table, "slots", 4096, 1, 1048576) else {
        return Err(SettingsError::Invalid);
    };
    let Some(tax) = tax_at(table) else {
        return Err(SettingsError::Invalid);
    };
    let Some(quantum) = number_at(table, "quantum", 1000, 1, 1000000) else {
        return Err(SettingsError::Invalid);
    };
    let Some(hash) = hash_at(table, "hash") else {
        return Err(SettingsError::Invalid);
    };
    let swap = path_at(alloc, table, "swap")?;
    Ok(Settings {
        frames: frames as u32,
        slots: slots as u32,
        tax,
        quantum,
        hash,
        swap,
    })
}

/// Parses settings from a document in TOML: the keys are `frames`, `slots`, `tax_num`, `tax_den`, `quantum`, `hash` and
/// `swap`, whose path isn't empty; what isn't there is as in [`Settings::default`].
///
/// # Errors
/// `Invalid` if the document spells none: it is no UTF-8 or no TOML, has another key, or a value of another type or out
/// of its range. Else `Memory` if an allocation fails.
pub fn read_settings(alloc: Global, bytes: &[u8]) -> Result<Settings, SettingsError>
    ensures ok { IfOk result (λ s. SpellsSettings bytes.now (settings_of s)) }
    ensures err { IfErr result (λ e. e ≡ SettingsError.Invalid
        → (s : host.Settings) → ¬ (SpellsSettings bytes.now s)) }
{
    let table = match toml::table_from_slice(alloc, bytes) {
        Ok(table) => table,
        Err(error) if error.is_memory() => return Err(SettingsError::Memory),
        Err(_) => return Err(SettingsError::Invalid),
    };
    settings_in(alloc, &table)
}
