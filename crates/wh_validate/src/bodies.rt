//! The bodies of a module's functions (3.4.1).

ghost use Rattle.std.specs.Prelude.{◌≡◌, ◌≢◌, ◌<◌, map, length, IfOk, IfErr};
ghost use Rattle.std.specs.List.{All, AllByRecursion};
ghost use Rattle.wh_syntax.specs.View.{view_body, view_type};
ghost use Rattle.wh_model.specs.Validity.Valid.{ValidType, ValidBodies};
ghost use Rattle.wh_model.specs.Validity.Heights.{FitBodies};
ghost use Rattle.wh_bodies.specs.View.{view_context, view_side};
ghost use Rattle.wh_validate.specs.Blaming.{Blames};
ghost use Rattle.wh_validate.specs.CheckedBodies.{Checked};

use crate::error::ValidError;
use std::alloc::Global;
use wh_bodies::{Context, SideTable, check_body};
use wh_model::ValidKind;
use wh_syntax::Body;

/// Checks each function's body, and finds where its branches lead. The first `imported` functions are imported.
///
/// # Errors
/// The fault of the first body that has one, with the index of its function.
pub fn check_bodies(
    alloc: Global,
    context: &Context<'_>,
    imported: usize,
    funcs: &[u32],
    bodies: &[Body],
) -> Result<Vec<SideTable>, ValidError>
    requires named { AllByRecursion (λ x. x < length context.now.types.now) context.now.funcs.now }
    requires own { All (λ x. x < length context.now.types.now) funcs.now }
    requires results { All (λ t. ValidType (view_type t)) context.now.types.now }
    requires same_count { length bodies.now ≡ length funcs.now }
    ensures checked { IfOk result
        (λ tables. Checked (view_context context.now) funcs.now (map view_body bodies.now)
        (map view_side tables.items)) }
    ensures complete { IfErr result
        (λ e. e.kind ≢ ValidKind.Memory
        → ¬
        (ValidBodies (view_context context.now) funcs.now (map view_body bodies.now)
        × FitBodies (view_context context.now) funcs.now
        (map view_body bodies.now))) }
    ensures blames { IfErr result
        (λ e. e.kind ≢ ValidKind.Memory
        → Blames (view_context context.now) imported funcs.now (map view_body bodies.now)
        e.func e.instr e.kind) }
{
    let mut tables = Vec::new(alloc);
    for at in 0..funcs.len() {
        let func_type = &context.types[funcs[at] as usize];
        match check_body(alloc, context, func_type, &bodies[at]) {
            Ok(table) => tables.push(table)?,
            Err(fault) => return Err(ValidError::in_body(imported, at, fault)),
        }
    }
    Ok(tables)
}
