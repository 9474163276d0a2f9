//! Sections (5.5.2), each with the custom ones in front of it.

ghost use Rattle.std.specs.Prelude.{◌<◌, ◌≤◌, ◌^◌, ◌+◌, length, map, IfOk, Ok, Some, None, option_map};
ghost use Rattle.wh_leb.specs.Reading.{Gives};
ghost use Rattle.wh_syntax.specs.View.{view_type, view_import, view_table, view_limits, view_global, view_export, view_element, view_body, view_data};
ghost use Rattle.wh_decode.specs.ReadingModule.{part_at, type_list_at, import_list_at, function_list_at, table_list_at, memory_list_at, global_list_at, export_list_at, start_function_at, element_list_at, codes_at, segments_at};

use crate::bodies::bodies;
use crate::customs::{section_start, skip, stands_at};
use crate::lists::{
    element_contents, export_contents, function_contents, global_contents, import_contents,
    memory_contents, segment_contents, table_contents, type_contents,
};
use crate::windows::{close, window};
use std::alloc::Global;
use wh_leb::read_u32;
use wh_model::DecodeError;
use wh_syntax::{
    Body, Data, Element, Export, FuncType, Global as GlobalVariable, Import, Limits, TableType,
};

/// Skips custom sections, and reads the section of this id, if it comes next: its contents have to fill it.
macro_rules! section {
    ($bytes:expr, $at:expr, $id:expr, |$window:ident, $start:ident| $contents:expr) => {{
        let place = skip($bytes, $at)?;
        if !stands_at($bytes, place, $id) {
            return Ok((None, place));
        }
        let (size, $start) = section_start($bytes, place, $id)?;
        let end = $start + size as usize;
        let $window = window($bytes, end);
        let read = $contents;
        let (contents, next) = close(end <= $bytes.len(), end, read)?;
        Ok((Some(contents), next))
    }};
}

/// Reads the type section, if it is at this offset.
#[tactic(auto, unfolding(crate::specs::ReadingModule::part_at, crate::specs::ReadingModule::type_list_at), using(crate::proofs::Closed::closed_gives))]
pub fn type_section(
    alloc: Global,
    bytes: &[u8],
    at: usize,
) -> Result<(Option<Vec<FuncType>>, usize), DecodeError>
    requires inside { at ≤ length bytes.now }
    requires short { length bytes.now < 2 ^ 32 }
    ensures exact { Gives (λ found. (option_map (λ xs. map view_type xs.items) found.0, found.1))
        result (type_list_at bytes.now at) }
    ensures inside { IfOk result (λ found. found.1 ≤ length bytes.now) }
{
    section!(
        bytes,
        at,
        1,
        |window, start| type_contents(alloc, window, start)
    )
}

/// Reads the import section, if it is at this offset.
#[tactic(auto, unfolding(crate::specs::ReadingModule::part_at, crate::specs::ReadingModule::import_list_at), using(crate::proofs::Closed::closed_gives))]
pub fn import_section(
    alloc: Global,
    bytes: &[u8],
    at: usize,
) -> Result<(Option<Vec<Import>>, usize), DecodeError>
    requires inside { at ≤ length bytes.now }
    requires short { length bytes.now < 2 ^ 32 }
    ensures exact { Gives (λ found. (option_map (λ xs. map view_import xs.items) found.0, found.1))
        result (import_list_at bytes.now at) }
    ensures inside { IfOk result (λ found. found.1 ≤ length bytes.now) }
{
    section!(
        bytes,
        at,
        2,
        |window, start| import_contents(alloc, window, start)
    )
}

/// Reads the function section, if it is at this offset.
#[tactic(auto, unfolding(crate::specs::ReadingModule::part_at, crate::specs::ReadingModule::function_list_at), using(crate::proofs::Closed::closed_gives))]
pub fn function_section(
    alloc: Global,
    bytes: &[u8],
    at: usize,
) -> Result<(Option<Vec<u32>>, usize), DecodeError>
    requires inside { at ≤ length bytes.now }
    requires short { length bytes.now < 2 ^ 32 }
    ensures exact { Gives (λ found. (option_map (λ xs. xs.items) found.0, found.1)) result
        (function_list_at bytes.now at) }
    ensures inside { IfOk result (λ found. found.1 ≤ length bytes.now) }
{
    section!(
        bytes,
        at,
        3,
        |window, start| function_contents(alloc, window, start)
    )
}

/// Reads the table section, if it is at this offset.
#[tactic(auto, unfolding(crate::specs::ReadingModule::part_at, crate::specs::ReadingModule::table_list_at), using(crate::proofs::Closed::closed_gives))]
pub fn table_section(
    alloc: Global,
    bytes: &[u8],
    at: usize,
) -> Result<(Option<Vec<TableType>>, usize), DecodeError>
    requires inside { at ≤ length bytes.now }
    requires short { length bytes.now < 2 ^ 32 }
    ensures exact { Gives (λ found. (option_map (λ xs. map view_table xs.items) found.0, found.1))
        result (table_list_at bytes.now at) }
    ensures inside { IfOk result (λ found. found.1 ≤ length bytes.now) }
{
    section!(
        bytes,
        at,
        4,
        |window, start| table_contents(alloc, window, start)
    )
}

/// Reads the memory section, if it is at this offset.
#[tactic(auto, unfolding(crate::specs::ReadingModule::part_at, crate::specs::ReadingModule::memory_list_at), using(crate::proofs::Closed::closed_gives))]
pub fn memory_section(
    alloc: Global,
    bytes: &[u8],
    at: usize,
) -> Result<(Option<Vec<Limits>>, usize), DecodeError>
    requires inside { at ≤ length bytes.now }
    requires short { length bytes.now < 2 ^ 32 }
    ensures exact { Gives (λ found. (option_map (λ xs. map view_limits xs.items) found.0, found.1))
        result (memory_list_at bytes.now at) }
    ensures inside { IfOk result (λ found. found.1 ≤ length bytes.now) }
{
    section!(
        bytes,
        at,
        5,
        |window, start| memory_contents(alloc, window, start)
    )
}

/// Reads the global section, if it is at this offset.
#[tactic(auto, unfolding(crate::specs::ReadingModule::part_at, crate::specs::ReadingModule::global_list_at), using(crate::proofs::Closed::closed_gives))]
pub fn global_section(
    alloc: Global,
    bytes: &[u8],
    at: usize,
) -> Result<(Option<Vec<GlobalVariable>>, usize), DecodeError>
    requires inside { at ≤ length bytes.now }
    requires short { length bytes.now < 2 ^ 32 }
    ensures exact { Gives (λ found. (option_map (λ xs. map view_global xs.items) found.0, found.1))
        result (global_list_at bytes.now at) }
    ensures inside { IfOk result (λ found. found.1 ≤ length bytes.now) }
{
    section!(
        bytes,
        at,
        6,
        |window, start| global_contents(alloc, window, start)
    )
}

/// Reads the export section, if it is at this offset.
#[tactic(auto, unfolding(crate::specs::ReadingModule::part_at, crate::specs::ReadingModule::export_list_at), using(crate::proofs::Closed::closed_gives))]
pub fn export_section(
    alloc: Global,
    bytes: &[u8],
    at: usize,
) -> Result<(Option<Vec<Export>>, usize), DecodeError>
    requires inside { at ≤ length bytes.now }
    requires short { length bytes.now < 2 ^ 32 }
    ensures exact { Gives (λ found. (option_map (λ xs. map view_export xs.items) found.0, found.1))
        result (export_list_at bytes.now at) }
    ensures inside { IfOk result (λ found. found.1 ≤ length bytes.now) }
{
    section!(
        bytes,
        at,
        7,
        |window, start| export_contents(alloc, window, start)
    )
}

/// Reads the start section, if it is at this offset: the index of the start function.
#[tactic(auto, unfolding(crate::specs::ReadingModule::part_at, crate::specs::ReadingModule::start_function_at), using(crate::proofs::Closed::closed_gives))]
pub fn start_section(bytes: &[u8], at: usize) -> Result<(Option<u32>, usize), DecodeError>
    requires inside { at ≤ length bytes.now }
    ensures exact { Gives (λ found. found) result (start_function_at bytes.now at) }
    ensures inside { IfOk result (λ found. found.1 ≤ length bytes.now) }
{
    section!(bytes, at, 8, |window, start| read_u32(window, start))
}

/// Reads the element section, if it is at this offset.
#[tactic(auto, unfolding(crate::specs::ReadingModule::part_at, crate::specs::ReadingModule::element_list_at), using(crate::proofs::Closed::closed_gives))]
pub fn element_section(
    alloc: Global,
    bytes: &[u8],
    at: usize,
) -> Result<(Option<Vec<Element>>, usize), DecodeError>
    requires inside { at ≤ length bytes.now }
    requires short { length bytes.now < 2 ^ 32 }
    ensures exact { Gives (λ found. (option_map (λ xs. map view_element xs.items) found.0, found.1))
        result (element_list_at bytes.now at) }
    ensures inside { IfOk result (λ found. found.1 ≤ length bytes.now) }
{
    section!(
        bytes,
        at,
        9,
        |window, start| element_contents(alloc, window, start)
    )
}

/// Reads the code section, of `functions` functions, if it is at this offset.
#[tactic(auto, unfolding(crate::specs::ReadingModule::part_at, crate::specs::ReadingModule::codes_at), using(crate::proofs::Closed::closed_gives))]
pub fn code_section(
    alloc: Global,
    bytes: &[u8],
    at: usize,
    functions: usize,
) -> Result<(Option<Vec<Body>>, usize), DecodeError>
    requires inside { at ≤ length bytes.now }
    requires short { length bytes.now < 2 ^ 32 }
    ensures exact { Gives (λ found. (option_map (λ xs. map view_body xs.items) found.0, found.1))
        result (codes_at functions bytes.now at) }
    ensures inside { IfOk result (λ found. found.1 ≤ length bytes.now) }
{
    section!(
        bytes,
        at,
        10,
        |window, start| bodies(alloc, window, start, functions)
    )
}

/// Reads the data section, if it is at this offset.
#[tactic(auto, unfolding(crate::specs::ReadingModule::part_at, crate::specs::ReadingModule::segments_at), using(crate::proofs::Closed::closed_gives))]
pub fn data_section(
    alloc: Global,
    bytes: &[u8],
    at: usize,
) -> Result<(Option<Vec<Data>>, usize), DecodeError>
    requires inside { at ≤ length bytes.now }
    requires short { length bytes.now < 2 ^ 32 }
    ensures exact { Gives (λ found. (option_map (λ xs. map view_data xs.items) found.0, found.1))
        result (segments_at bytes.now at) }
    ensures inside { IfOk result (λ found. found.1 ≤ length bytes.now) }
{
    section!(
        bytes,
        at,
        11,
        |window, start| segment_contents(alloc, window, start)
    )
}
