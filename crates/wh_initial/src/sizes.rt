//! The sizes of the table and of the memory (2.3.4, 4.5.3).

ghost use Rattle.std.specs.Prelude.{◌≡◌, map};
ghost use Rattle.wh_model.specs.Execution.Instance as model;
ghost use Rattle.wh_syntax.specs.View.{view_limits, view_table};

use wh_model::MOST_WASM_PAGES;
use wh_syntax::{Limits, TableType};

/// Returns the initial number of entries of the table; 0 if there is none.
pub fn first_entries(tables: &[TableType]) -> u32
    ensures { result ≡ model.first_size (map view_table tables.now) }
{
    match tables.first() {
        Some(table) => table.limits.min,
        None => 0,
    }
}

/// Returns the initial size of the memory in pages of 65536 bytes; 0 if there is none.
pub fn first_pages(memories: &[Limits]) -> u32
    ensures { result ≡ model.first_size (map view_limits memories.now) }
{
    match memories.first() {
        Some(limits) => limits.min,
        None => 0,
    }
}

/// Returns the size in pages of 65536 bytes to which the memory may grow: the lesser of what it declares and what its
/// owner allows; 0 if there is none.
pub fn last_pages(memories: &[Limits], page_limit: u32) -> u32
    ensures { result ≡ model.last_size (map view_limits memories.now) page_limit }
{
    match memories.first() {
        Some(limits) => limits.max.unwrap_or(MOST_WASM_PAGES).min(page_limit),
        None => 0,
    }
}
