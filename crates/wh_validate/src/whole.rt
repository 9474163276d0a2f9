//! Whole modules (3.4.10).

ghost use Rattle.std.specs.Prelude.{◌≡◌, ◌≢◌, ◌<◌, map, take, length, OnOk, IfOk, IfErr};
ghost use Rattle.std.specs.List.{AllByRecursion};
ghost use Rattle.wh_model.specs.Validity.Valid.{Valid, imported_funcs, imported_globals};
ghost use Rattle.wh_model.specs.Validity.Heights.{Fits};
ghost use Rattle.wh_syntax.specs.View.{view_module, view_global_type};
ghost use Rattle.wh_bodies.specs.View.{view_context, view_side};
ghost use Rattle.wh_validate.specs.Blaming.{BlamesRightly};
ghost use Rattle.wh_validate.specs.CheckedBodies.{IsChecked};
ghost use Rattle.wh_validate.specs.ValidModuleState.{ValidModuleState, stored_valid};
ghost use Rattle.wh_validate.specs.Gathering.{HasValidOutline, IsGathered, IsAround};
ghost use Rattle.wh_validate.specs.Deciding.{Decides};

use crate::bodies::check_bodies;
use crate::error::ValidError;
use crate::exports::check_exports;
use crate::indices::{Indices, add_funcs, add_globals, check_indices, imported};
use crate::segments::{check_elements, check_globals, check_segments, check_start};
use crate::sizes::{check_memories, check_tables};
use crate::types::check_types;
use std::alloc::Global;
use std::marker::Model;
use wh_bodies::{Context, SideTable};
use wh_model::ValidKind;
use wh_syntax::Module;

/// A module that is valid and passes no limit, with the places that branches of its bodies lead to. Contracts see these
/// two; `module` says what is known of them.
#[derive(Drop)]
pub struct ValidModule {
    decoded: Module,
    tables: Vec<SideTable>,
}

impl Model for ValidModule {
    ghost Value = { ValidModuleState };

    ghost coded = { stored_valid };

    ghost view = { λ v. record { decoded = v.decoded; tables = v.tables.items } };

    ghost invariant = { λ v. IsChecked (view_module v.decoded) (map view_side v.tables.items) };
}

impl ValidModule {
    /// Returns the module.
    pub fn module(&self) -> &Module
        ensures same { result.now ≡ self.now.decoded }
        // It is valid, it fits, and its bodies have their tables.
        ensures sound { IsChecked (view_module result.now) (map view_side self.now.tables) }
    {
        &self.decoded
    }

    /// Returns the branch targets of each body, in the order of the functions that the module defines.
    pub fn tables(&self) -> &[SideTable]
        ensures { result.now ≡ self.now.tables }
    {
        &self.tables
    }
}

/// What stands around the bodies of a module.
#[derive(Drop)]
struct Gathered {
    indices: Indices,
    imported_funcs: usize,
    imported_globals: usize,
}

/// Types, functions, sizes, and what indices name.
fn gather(alloc: Global, decoded: &Module) -> Result<Gathered, ValidKind>
    ensures decides { Decides result (HasValidOutline decoded.now) }
    ensures gathered { IfOk result (λ g. IsGathered decoded.now g) }
{
    check_types(&decoded.types)?;
    let mut indices = imported(alloc, &decoded.types, &decoded.imports)?;
    check_indices(decoded.types.len(), &decoded.funcs)?;
    check_tables(&decoded.tables)?;
    check_memories(&decoded.memories)?;
    let imported_funcs = indices.funcs.len();
    let imported_globals = indices.globals.len();
    add_funcs(&mut indices.funcs, &decoded.funcs)?;
    add_globals(&mut indices.globals, &decoded.globals)?;
    Ok(Gathered {
        indices,
        imported_funcs,
        imported_globals,
    })
}

/// Everything but bodies: constants, exports, the start function and segments.
fn check_around(
    alloc: Global,
    decoded: &Module,
    context: &Context<'_>,
    imported_globals: usize,
) -> Result<(), ValidKind>
    requires named { AllByRecursion (λ x. x < length context.now.types.now) context.now.funcs.now }
    ensures decides { Decides result
        (IsAround decoded.now (view_context context.now)
        (map view_global_type (take imported_globals context.now.globals.now))) }
{
    check_globals(&decoded.globals, context.globals, imported_globals)?;
    check_exports(alloc, context, &decoded.exports)?;
    check_start(context, decoded.start)?;
    check_elements(context, &decoded.elements)?;
    check_segments(context, &decoded.segments)
}

/// Everything, and where the branches of each body lead.
fn check_whole(alloc: Global, decoded: &Module) -> Result<Vec<SideTable>, ValidError>
    ensures sound { IfOk result
        (λ tables. IsChecked (view_module decoded.now) (map view_side tables.items)) }
    ensures complete { IfErr result
        (λ e. e.kind ≢ ValidKind.Memory
        → ¬ (Valid (view_module decoded.now) × Fits (view_module decoded.now))) }
    ensures blames { IfErr result
        (λ e. e.kind ≢ ValidKind.Memory
        → BlamesRightly (view_module decoded.now) e.func e.instr e.kind) }
{
    let gathered = match gather(alloc, decoded) {
        Ok(gathered) => gathered,
        Err(kind) => return Err(ValidError::of_module(kind)),
    };
    if decoded.bodies.len() != decoded.funcs.len() {
        return Err(ValidError::of_module(ValidKind::Index));
    }
    let context = Context {
        types: &decoded.types,
        funcs: &gathered.indices.funcs,
        tables: &decoded.tables,
        memories: &decoded.memories,
        globals: &gathered.indices.globals,
    };
    if let Err(kind) = check_around(alloc, decoded, &context, gathered.imported_globals) {
        return Err(ValidError::of_module(kind));
    }
    check_bodies(
        alloc,
        &context,
        gathered.imported_funcs,
        &decoded.funcs,
        &decoded.bodies,
    )
}

/// Checks a module.
///
/// # Errors
/// The first fault, in this order: types, imports, functions, tables, memories, globals, exports, the start function,
/// element segments and data segments, all of these without a function; then bodies by function, in each the first
/// instruction at which the check fails. `Memory` where a growth was refused.
pub fn validate(alloc: Global, decoded: Module) -> Result<ValidModule, ValidError>
    // What passes is valid.
    ensures valid { OnOk result (Valid (view_module decoded)) }
    // It passes no limit.
    ensures fits { OnOk result (Fits (view_module decoded)) }
    // Unless memory was refused, a module that is refused isn't valid, or passes a limit.
    ensures complete { IfErr result
        (λ e. e.kind ≢ ValidKind.Memory
        → ¬ (Valid (view_module decoded) × Fits (view_module decoded))) }
    // A fault that names a function names one whose body isn't valid or passes a limit, and one of its instructions, and is
    // one that bodies have. Where a fault names no function, no bodies would make the module valid and within the limits.
    ensures blames { IfErr result
        (λ e. e.kind ≢ ValidKind.Memory
        → BlamesRightly (view_module decoded) e.func e.instr e.kind) }
    // It is the module that was given.
    ensures same { IfOk result (λ v. v.decoded ≡ decoded) }
{
    let tables = check_whole(alloc, &decoded)?;
    Ok(ValidModule { decoded, tables })
}
