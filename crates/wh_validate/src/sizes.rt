//! Tables and memories (3.2.1, 3.4.2, 3.4.3), and the limit on a table's first size.

ghost use Rattle.std.specs.Prelude.{◌≡◌, ◌≤◌, length, IfErr};
ghost use Rattle.std.specs.Bool.{MatchBool};
ghost use Rattle.std.specs.List.{All};
ghost use Rattle.wh_model.specs.Validity.Valid.{WithinBound, most_pages};
ghost use Rattle.wh_validate.specs.Sizing.{IsTable};
ghost use Rattle.wh_syntax.specs.View.{view_limits, view_table};
ghost use Rattle.wh_validate.specs.Deciding.{Decides};

use wh_model::{MOST_WASM_PAGES, ValidKind};
use wh_syntax::{Limits, TableType};

const MOST_FIRST_ENTRIES: u32 = 4096;

/// Checks that there is at most one table, of at most 4096 entries initially, and of no more than its maximum.
///
/// # Errors
/// `Limits` if not.
pub fn check_tables(tables: &[TableType]) -> Result<(), ValidKind>
    ensures decides { Decides result
        ((length tables.now ≤ 1) × All (λ t. IsTable (view_table t)) tables.now) }
    ensures err { IfErr result (λ k. k ≡ ValidKind.Limits) }
{
    match tables {
        [] => Ok(()),
        [table] if is_table(table.limits) => Ok(()),
        _ => Err(ValidKind::Limits),
    }
}

fn is_table(limits: Limits) -> bool
    ensures { MatchBool result (IsTable (view_limits limits)) (¬ (IsTable (view_limits limits))) }
{
    match limits.max {
        None => limits.min <= MOST_FIRST_ENTRIES,
        Some(last) => limits.min <= MOST_FIRST_ENTRIES && limits.min <= last,
    }
}

/// Checks that there is at most one memory, of at most 65536 pages of 65536 bytes, initially no more than its maximum.
///
/// # Errors
/// `Limits` if not.
pub fn check_memories(memories: &[Limits]) -> Result<(), ValidKind>
    ensures decides { Decides result
        ((length memories.now ≤ 1)
        × All (λ l. WithinBound most_pages (view_limits l)) memories.now) }
    ensures err { IfErr result (λ k. k ≡ ValidKind.Limits) }
{
    match memories {
        [] => Ok(()),
        [memory] if is_memory(*memory) => Ok(()),
        _ => Err(ValidKind::Limits),
    }
}

fn is_memory(limits: Limits) -> bool
    ensures { MatchBool result (WithinBound most_pages (view_limits limits))
        (¬ (WithinBound most_pages (view_limits limits))) }
{
    match limits.max {
        None => limits.min <= MOST_WASM_PAGES,
        Some(last) => limits.min <= last && last <= MOST_WASM_PAGES,
    }
}
