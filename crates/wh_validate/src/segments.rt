//! Globals, segments and the start function (3.4.4 to 3.4.7).

ghost use Rattle.std.specs.Prelude.{◌≡◌, ◌≢◌, ◌<◌, map, take, length, IfErr};
ghost use Rattle.std.specs.List.{All, AllByRecursion};
ghost use Rattle.wh_model.specs.Validity.Valid.{ValidStart};
ghost use Rattle.wh_syntax.specs.View.{view_global_type, view_type};
ghost use Rattle.wh_model.specs.Validity.Heights.{no_type};
ghost use Rattle.std.specs.Bool.{MatchBool};
ghost use Rattle.wh_bodies.specs.View.{view_context};
ghost use Rattle.wh_validate.specs.Deciding.{Decides};
ghost use Rattle.wh_validate.specs.Parts.{IsGlobal, IsValidElement, IsSegment};

use crate::constants::check_constant;
use crate::indices::{check_index, check_indices};
use wh_bodies::Context;
use wh_model::{ValType, ValidKind};
use wh_syntax::{Data, Element, FuncType, Global, GlobalType};

/// Whether a global's own expression is a constant of its type. It may read the imported globals, which are the first
/// `imported` of all.
///
/// # Errors
/// As `check_constant`'s.
#[tactic(auto, unfolding(crate::specs::Parts::IsGlobal))]
fn check_global(global: &Global, globals: &[GlobalType], imported: usize) -> Result<(), ValidKind>
    ensures decides { Decides result
        (IsGlobal (map view_global_type (take imported globals.now)) global.now) }
    ensures err { IfErr result (λ k. k ≢ ValidKind.Memory) }
{
    check_constant(&global.init, global.global_type.value, globals, imported)
}

/// Whether an element segment names a table and functions that are there, and its offset is an i32 constant.
///
/// # Errors
/// `Index` where it names another; else as `check_constant`'s.
#[tactic(auto, unfolding(crate::specs::Parts::IsValidElement))]
fn check_element(context: &Context<'_>, element: &Element) -> Result<(), ValidKind>
    ensures decides { Decides result (IsValidElement (view_context context.now) element.now) }
    ensures err { IfErr result (λ k. k ≢ ValidKind.Memory) }
{
    check_index(context.tables, element.table)?;
    check_constant(
        &element.offset,
        ValType::I32,
        context.globals,
        context.globals.len(),
    )?;
    check_indices(context.funcs.len(), &element.init)
}

/// Whether a data segment names a memory that is there, and its offset is an i32 constant.
///
/// # Errors
/// `Index` where it names another; else as `check_constant`'s.
#[tactic(auto, unfolding(crate::specs::Parts::IsSegment))]
fn check_segment(context: &Context<'_>, segment: &Data) -> Result<(), ValidKind>
    ensures decides { Decides result (IsSegment (view_context context.now) segment.now) }
    ensures err { IfErr result (λ k. k ≢ ValidKind.Memory) }
{
    check_index(context.memories, segment.memory)?;
    check_constant(
        &segment.offset,
        ValType::I32,
        context.globals,
        context.globals.len(),
    )
}

/// Checks that all globals are valid.
///
/// # Errors
/// As `check_constant`'s, of the first that isn't.
pub fn check_globals(
    own: &[Global],
    globals: &[GlobalType],
    imported: usize,
) -> Result<(), ValidKind>
    ensures decides { Decides result
        (All (IsGlobal (map view_global_type (take imported globals.now))) own.now) }
    ensures err { IfErr result (λ k. k ≢ ValidKind.Memory) }
{
    for global in own {
        check_global(global, globals, imported)?;
    }
    Ok(())
}

/// Checks that all element segments are valid.
///
/// # Errors
/// As `check_element`'s, of the first that isn't.
pub fn check_elements(context: &Context<'_>, elements: &[Element]) -> Result<(), ValidKind>
    ensures decides { Decides result
        (All (IsValidElement (view_context context.now)) elements.now) }
    ensures err { IfErr result (λ k. k ≢ ValidKind.Memory) }
{
    for element in elements {
        check_element(context, element)?;
    }
    Ok(())
}

/// Checks that all data segments are valid.
///
/// # Errors
/// As `check_segment`'s, of the first that isn't.
pub fn check_segments(context: &Context<'_>, segments: &[Data]) -> Result<(), ValidKind>
    ensures decides { Decides result (All (IsSegment (view_context context.now)) segments.now) }
    ensures err { IfErr result (λ k. k ≢ ValidKind.Memory) }
{
    for segment in segments {
        check_segment(context, segment)?;
    }
    Ok(())
}

/// Checks that the start function, if any, is there, and has no parameters and no result.
///
/// # Errors
/// `Index` if it isn't there; `Start` if it has parameters or a result.
pub fn check_start(context: &Context<'_>, start: Option<u32>) -> Result<(), ValidKind>
    requires named { AllByRecursion (λ x. x < length context.now.types.now) context.now.funcs.now }
    ensures decides { Decides result (ValidStart (view_context context.now) start) }
    ensures err { IfErr result (λ k. k ≢ ValidKind.Memory) }
{
    let Some(index) = start else {
        return Ok(());
    };
    check_index(context.funcs, index)?;
    if takes_nothing(&context.types[context.funcs[index as usize] as usize]) {
        Ok(())
    } else {
        Err(ValidKind::Start)
    }
}

/// Whether a function of this type takes and gives nothing.
fn takes_nothing(func_type: &FuncType) -> bool
    ensures { MatchBool result (view_type func_type.now ≡ no_type)
        (view_type func_type.now ≢ no_type) }
{
    func_type.params.is_empty() && func_type.results.is_empty()
}
