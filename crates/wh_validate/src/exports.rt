//! Exports (3.4.8, 3.4.10).

ghost use Rattle.std.specs.Prelude.{◌≡◌, ◌≢◌, ◌||◌, ℕ, List, true, false, map, OnOk, IfErr};
ghost use Rattle.std.specs.Str.{bytes_eq};
ghost use Rattle.std.specs.List.{All};
ghost use Rattle.wh_model.specs.Validity.Valid.{DifferentNames};
ghost use Rattle.wh_syntax.specs.View.{view_export};
ghost use Rattle.wh_bodies.specs.View.{view_context};
ghost use Rattle.wh_validate.specs.Deciding.{Decides};
ghost use Rattle.wh_validate.specs.Parts.{IsExport};
ghost use Rattle.wh_validate.specs.SeenNames.{has_name};

use crate::indices::check_index;
use std::alloc::Global;
use std::collections::BTreeMap;
use wh_bodies::Context;
use wh_model::{ExternKind, ValidKind};
use wh_syntax::Export;

/// Whether what is exported is there.
///
/// # Errors
/// `Index` where it isn't.
#[tactic(auto, unfolding(crate::specs::Parts::IsExport))]
fn check_export(context: &Context<'_>, export: &Export) -> Result<(), ValidKind>
    ensures decides { Decides result (IsExport (view_context context.now) export.now) }
    ensures err { IfErr result (λ k. k ≡ ValidKind.Index) }
{
    match export.kind {
        ExternKind::Func => check_index(context.funcs, export.index),
        ExternKind::Table => check_index(context.tables, export.index),
        ExternKind::Memory => check_index(context.memories, export.index),
        ExternKind::Global => check_index(context.globals, export.index),
    }
}

/// Keeps one more name.
///
/// # Errors
/// `DuplicateExport` where it is among those that were kept.
fn add_name<'a>(names: &mut BTreeMap<&'a str, ()>, name: &'a str) -> Result<(), ValidKind>
    ensures new { OnOk result (has_name names.old name.now ≡ false) }
    ensures added { OnOk result
        ((q : List ℕ) → has_name names.new q ≡ (bytes_eq name.now q || has_name names.old q)) }
    ensures err { IfErr result
        (λ k. k ≢ ValidKind.Memory
        → (k ≡ ValidKind.DuplicateExport) × (has_name names.old name.now ≡ true)) }
{
    match names.insert(name, ()) {
        Ok(None) => Ok(()),
        Ok(Some(())) => Err(ValidKind::DuplicateExport),
        Err(_) => Err(ValidKind::Memory),
    }
}

/// Checks that all exports name something that the module has, and have different names.
///
/// # Errors
/// Of the first that fails: `Index` if it names nothing, else `DuplicateExport`. `Memory` if an allocation fails.
pub fn check_exports(
    alloc: Global,
    context: &Context<'_>,
    exports: &[Export],
) -> Result<(), ValidKind>
    ensures decides { Decides result
        (All (IsExport (view_context context.now)) exports.now
        × DifferentNames (map view_export exports.now)) }
{
    let mut names = BTreeMap::new(alloc);
    for export in exports {
        check_export(context, export)?;
        if let Err(kind) = add_name(&mut names, &export.name) {
            return Err(kind);
        }
    }
    Ok(())
}
