//! The vectors that sections hold: a count, which is looked at before its items, and that many items.

ghost use Rattle.std.specs.Prelude.{◌<◌, ◌≤◌, ◌^◌, length, map, IfOk};
ghost use Rattle.wh_leb.specs.Reading.{times_at, u32_at, vec_at, vec_up_to_at, Gives};
ghost use Rattle.wh_syntax.specs.View.{view_type, view_import, view_table, view_limits, view_global, view_export, view_element, view_data};
ghost use Rattle.wh_decode.specs.ReadingModule.{functype_at, import_at, tabletype_at, limits_at, global_at, export_at, element_at, segment_at};

use crate::items::{count_up_to, items};
use crate::parts::index_list;
use std::alloc::Global;
use wh_leb::read_u32;
use wh_model::DecodeError;
use wh_syntax::{
    Data, Element, Export, FuncType, Global as GlobalVariable, Import, Limits, TableType,
};

const MOST_TYPES: u32 = 1024;

const MOST_IMPORTS: u32 = 256;

const MOST_FUNCTIONS: u32 = 4096;

const MOST_GLOBALS: u32 = 1024;

const MOST_EXPORTS: u32 = 1024;

const MOST_ELEMENTS: u32 = 256;

const MOST_SEGMENTS: u32 = 1024;

fn type_items(
    alloc: Global,
    count: u32,
    bytes: &[u8],
    at: usize,
) -> Result<(Vec<FuncType>, usize), DecodeError>
    requires inside { at ≤ length bytes.now }
    requires short { length bytes.now < 2 ^ 32 }
    ensures exact { Gives (λ found. (map view_type found.0.items, found.1)) result
        (times_at count functype_at bytes.now at) }
    ensures inside { IfOk result (λ found. found.1 ≤ length bytes.now) }
{
    items(alloc, count, bytes, at)
}

/// Reads the contents of a type section: at most 1024 function types.
pub fn type_contents(
    alloc: Global,
    bytes: &[u8],
    at: usize,
) -> Result<(Vec<FuncType>, usize), DecodeError>
    requires inside { at ≤ length bytes.now }
    requires short { length bytes.now < 2 ^ 32 }
    ensures exact { Gives (λ found. (map view_type found.0.items, found.1)) result
        (vec_up_to_at 1024 functype_at bytes.now at) }
    ensures inside { IfOk result (λ found. found.1 ≤ length bytes.now) }
{
    let (count, next) = count_up_to(bytes, at, MOST_TYPES)?;
    type_items(alloc, count, bytes, next)
}

fn import_items(
    alloc: Global,
    count: u32,
    bytes: &[u8],
    at: usize,
) -> Result<(Vec<Import>, usize), DecodeError>
    requires inside { at ≤ length bytes.now }
    requires short { length bytes.now < 2 ^ 32 }
    ensures exact { Gives (λ found. (map view_import found.0.items, found.1)) result
        (times_at count import_at bytes.now at) }
    ensures inside { IfOk result (λ found. found.1 ≤ length bytes.now) }
{
    items(alloc, count, bytes, at)
}

/// Reads the contents of an import section: at most 256 imports.
pub fn import_contents(
    alloc: Global,
    bytes: &[u8],
    at: usize,
) -> Result<(Vec<Import>, usize), DecodeError>
    requires inside { at ≤ length bytes.now }
    requires short { length bytes.now < 2 ^ 32 }
    ensures exact { Gives (λ found. (map view_import found.0.items, found.1)) result
        (vec_up_to_at 256 import_at bytes.now at) }
    ensures inside { IfOk result (λ found. found.1 ≤ length bytes.now) }
{
    let (count, next) = count_up_to(bytes, at, MOST_IMPORTS)?;
    import_items(alloc, count, bytes, next)
}

fn table_items(
    alloc: Global,
    count: u32,
    bytes: &[u8],
    at: usize,
) -> Result<(Vec<TableType>, usize), DecodeError>
    requires inside { at ≤ length bytes.now }
    requires short { length bytes.now < 2 ^ 32 }
    ensures exact { Gives (λ found. (map view_table found.0.items, found.1)) result
        (times_at count tabletype_at bytes.now at) }
    ensures inside { IfOk result (λ found. found.1 ≤ length bytes.now) }
{
    items(alloc, count, bytes, at)
}

/// Reads the contents of a table section: table types.
pub fn table_contents(
    alloc: Global,
    bytes: &[u8],
    at: usize,
) -> Result<(Vec<TableType>, usize), DecodeError>
    requires inside { at ≤ length bytes.now }
    requires short { length bytes.now < 2 ^ 32 }
    ensures exact { Gives (λ found. (map view_table found.0.items, found.1)) result
        (vec_at tabletype_at bytes.now at) }
    ensures inside { IfOk result (λ found. found.1 ≤ length bytes.now) }
{
    let (count, next) = read_u32(bytes, at)?;
    table_items(alloc, count, bytes, next)
}

fn memory_items(
    alloc: Global,
    count: u32,
    bytes: &[u8],
    at: usize,
) -> Result<(Vec<Limits>, usize), DecodeError>
    requires inside { at ≤ length bytes.now }
    requires short { length bytes.now < 2 ^ 32 }
    ensures exact { Gives (λ found. (map view_limits found.0.items, found.1)) result
        (times_at count limits_at bytes.now at) }
    ensures inside { IfOk result (λ found. found.1 ≤ length bytes.now) }
{
    items(alloc, count, bytes, at)
}

/// Reads the contents of a memory section: limits of memories.
pub fn memory_contents(
    alloc: Global,
    bytes: &[u8],
    at: usize,
) -> Result<(Vec<Limits>, usize), DecodeError>
    requires inside { at ≤ length bytes.now }
    requires short { length bytes.now < 2 ^ 32 }
    ensures exact { Gives (λ found. (map view_limits found.0.items, found.1)) result
        (vec_at limits_at bytes.now at) }
    ensures inside { IfOk result (λ found. found.1 ≤ length bytes.now) }
{
    let (count, next) = read_u32(bytes, at)?;
    memory_items(alloc, count, bytes, next)
}

fn global_items(
    alloc: Global,
    count: u32,
    bytes: &[u8],
    at: usize,
) -> Result<(Vec<GlobalVariable>, usize), DecodeError>
    requires inside { at ≤ length bytes.now }
    requires short { length bytes.now < 2 ^ 32 }
    ensures exact { Gives (λ found. (map view_global found.0.items, found.1)) result
        (times_at count global_at bytes.now at) }
    ensures inside { IfOk result (λ found. found.1 ≤ length bytes.now) }
{
    items(alloc, count, bytes, at)
}

/// Reads the contents of a global section: at most 1024 globals.
pub fn global_contents(
    alloc: Global,
    bytes: &[u8],
    at: usize,
) -> Result<(Vec<GlobalVariable>, usize), DecodeError>
    requires inside { at ≤ length bytes.now }
    requires short { length bytes.now < 2 ^ 32 }
    ensures exact { Gives (λ found. (map view_global found.0.items, found.1)) result
        (vec_up_to_at 1024 global_at bytes.now at) }
    ensures inside { IfOk result (λ found. found.1 ≤ length bytes.now) }
{
    let (count, next) = count_up_to(bytes, at, MOST_GLOBALS)?;
    global_items(alloc, count, bytes, next)
}

fn export_items(
    alloc: Global,
    count: u32,
    bytes: &[u8],
    at: usize,
) -> Result<(Vec<Export>, usize), DecodeError>
    requires inside { at ≤ length bytes.now }
    requires short { length bytes.now < 2 ^ 32 }
    ensures exact { Gives (λ found. (map view_export found.0.items, found.1)) result
        (times_at count export_at bytes.now at) }
    ensures inside { IfOk result (λ found. found.1 ≤ length bytes.now) }
{
    items(alloc, count, bytes, at)
}

/// Reads the contents of an export section: at most 1024 exports.
pub fn export_contents(
    alloc: Global,
    bytes: &[u8],
    at: usize,
) -> Result<(Vec<Export>, usize), DecodeError>
    requires inside { at ≤ length bytes.now }
    requires short { length bytes.now < 2 ^ 32 }
    ensures exact { Gives (λ found. (map view_export found.0.items, found.1)) result
        (vec_up_to_at 1024 export_at bytes.now at) }
    ensures inside { IfOk result (λ found. found.1 ≤ length bytes.now) }
{
    let (count, next) = count_up_to(bytes, at, MOST_EXPORTS)?;
    export_items(alloc, count, bytes, next)
}

fn element_items(
    alloc: Global,
    count: u32,
    bytes: &[u8],
    at: usize,
) -> Result<(Vec<Element>, usize), DecodeError>
    requires inside { at ≤ length bytes.now }
    requires short { length bytes.now < 2 ^ 32 }
    ensures exact { Gives (λ found. (map view_element found.0.items, found.1)) result
        (times_at count element_at bytes.now at) }
    ensures inside { IfOk result (λ found. found.1 ≤ length bytes.now) }
{
    items(alloc, count, bytes, at)
}

/// Reads the contents of an element section: at most 256 element segments.
pub fn element_contents(
    alloc: Global,
    bytes: &[u8],
    at: usize,
) -> Result<(Vec<Element>, usize), DecodeError>
    requires inside { at ≤ length bytes.now }
    requires short { length bytes.now < 2 ^ 32 }
    ensures exact { Gives (λ found. (map view_element found.0.items, found.1)) result
        (vec_up_to_at 256 element_at bytes.now at) }
    ensures inside { IfOk result (λ found. found.1 ≤ length bytes.now) }
{
    let (count, next) = count_up_to(bytes, at, MOST_ELEMENTS)?;
    element_items(alloc, count, bytes, next)
}

fn segment_items(
    alloc: Global,
    count: u32,
    bytes: &[u8],
    at: usize,
) -> Result<(Vec<Data>, usize), DecodeError>
    requires inside { at ≤ length bytes.now }
    requires short { length bytes.now < 2 ^ 32 }
    ensures exact { Gives (λ found. (map view_data found.0.items, found.1)) result
        (times_at count segment_at bytes.now at) }
    ensures inside { IfOk result (λ found. found.1 ≤ length bytes.now) }
{
    items(alloc, count, bytes, at)
}

/// Reads the contents of a data section: at most 1024 data segments.
pub fn segment_contents(
    alloc: Global,
    bytes: &[u8],
    at: usize,
) -> Result<(Vec<Data>, usize), DecodeError>
    requires inside { at ≤ length bytes.now }
    requires short { length bytes.now < 2 ^ 32 }
    ensures exact { Gives (λ found. (map view_data found.0.items, found.1)) result
        (vec_up_to_at 1024 segment_at bytes.now at) }
    ensures inside { IfOk result (λ found. found.1 ≤ length bytes.now) }
{
    let (count, next) = count_up_to(bytes, at, MOST_SEGMENTS)?;
    segment_items(alloc, count, bytes, next)
}

/// Reads the contents of a function section: the type indices of at most 4096 functions.
pub fn function_contents(
    alloc: Global,
    bytes: &[u8],
    at: usize,
) -> Result<(Vec<u32>, usize), DecodeError>
    requires inside { at ≤ length bytes.now }
    requires short { length bytes.now < 2 ^ 32 }
    ensures exact { Gives (λ found. (found.0.items, found.1)) result
        (vec_up_to_at 4096 u32_at bytes.now at) }
    ensures inside { IfOk result (λ found. found.1 ≤ length bytes.now) }
{
    let (count, next) = count_up_to(bytes, at, MOST_FUNCTIONS)?;
    index_list(alloc, count, bytes, next)
}
