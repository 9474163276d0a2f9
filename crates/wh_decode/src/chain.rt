//! Modules (5.5.15), from each section on. What is read goes into one module that is handed on, so that no step knows of
//! the sections before it.

ghost use Rattle.std.specs.Prelude.{◌≡◌, ◌<◌, ◌≤◌, ◌^◌, length, drop, IfOk, nat_eq};
ghost use Rattle.wh_model.specs.Format.Syntax.{empty_module};
ghost use Rattle.wh_leb.specs.Reading.{Gives};
ghost use Rattle.wh_syntax.specs.View.{view_module};
ghost use Rattle.wh_decode.specs.ReadingModule.{preamble_at, types_at, imports_at, functions_at, tables_at, memories_at, globals_at, exports_at, start_at, elements_at, code_section_at, data_at, end_at, end_of};

use crate::customs::skip;
use crate::sections::{
    code_section, data_section, element_section, export_section, function_section, global_section,
    import_section, memory_section, start_section, table_section, type_section,
};
use crate::types::expect_byte;
use std::alloc::Global;
use wh_leb::fault;
use wh_model::{DecodeError, FaultKind};
use wh_syntax::Module;

const GREATEST_ID: u8 = 11;

/// Reads the magic bytes and the version; returns the offset after them.
#[tactic(auto, unfolding(crate::specs::ReadingModule::preamble_at))]
pub fn preamble(bytes: &[u8], at: usize) -> Result<usize, DecodeError>
    requires { at ≤ length bytes.now }
    ensures exact { Gives (λ next. (tt, next)) result (preamble_at bytes.now at) }
    ensures inside { IfOk result (λ next. next ≤ length bytes.now) }
{
    let next = expect_byte(bytes, at, 0x00, FaultKind::Magic)?;
    let next = expect_byte(bytes, next, 0x61, FaultKind::Magic)?;
    let next = expect_byte(bytes, next, 0x73, FaultKind::Magic)?;
    let next = expect_byte(bytes, next, 0x6d, FaultKind::Magic)?;
    let next = expect_byte(bytes, next, 0x01, FaultKind::Version)?;
    let next = expect_byte(bytes, next, 0x00, FaultKind::Version)?;
    let next = expect_byte(bytes, next, 0x00, FaultKind::Version)?;
    expect_byte(bytes, next, 0x00, FaultKind::Version)
}

/// Returns a module without any part.
pub fn empty(alloc: Global) -> Module
    ensures { view_module result ≡ empty_module }
{
    Module {
        types: Vec::new(alloc),
        imports: Vec::new(alloc),
        funcs: Vec::new(alloc),
        tables: Vec::new(alloc),
        memories: Vec::new(alloc),
        globals: Vec::new(alloc),
        exports: Vec::new(alloc),
        start: None,
        elements: Vec::new(alloc),
        bodies: Vec::new(alloc),
        segments: Vec::new(alloc),
    }
}

/// The end of the bytes, where as many bodies as functions were read.
fn ends(bytes: &[u8], at: usize, partial: Module) -> Result<(Module, usize), DecodeError>
    requires { at ≤ length bytes.now }
    ensures exact { Gives (λ found. (view_module found.0, found.1)) result
        (end_of (nat_eq (length (view_module partial).bodies) (length (view_module partial).funcs))
        (view_module partial) (drop at bytes.now) at) }
{
    if at < bytes.len() {
        let kind = if bytes[at] > GREATEST_ID {
            FaultKind::UnknownByte
        } else {
            FaultKind::SectionOrder
        };
        return fault(kind, at);
    }
    if partial.bodies.len() == partial.funcs.len() {
        Ok((partial, at))
    } else {
        fault(FaultKind::CountMismatch, at)
    }
}

#[tactic(auto, unfolding(crate::specs::ReadingModule::end_at))]
fn from_end(
    _alloc: Global,
    bytes: &[u8],
    at: usize,
    partial: Module,
) -> Result<(Module, usize), DecodeError>
    requires inside { at ≤ length bytes.now }
    requires short { length bytes.now < 2 ^ 32 }
    ensures exact { Gives (λ found. (view_module found.0, found.1)) result
        (end_at (view_module partial) bytes.now at) }
{
    let next = skip(bytes, at)?;
    ends(bytes, next, partial)
}

#[tactic(auto, unfolding(crate::specs::ReadingModule::data_at))]
fn from_data(
    alloc: Global,
    bytes: &[u8],
    at: usize,
    mut partial: Module,
) -> Result<(Module, usize), DecodeError>
    requires inside { at ≤ length bytes.now }
    requires short { length bytes.now < 2 ^ 32 }
    ensures exact { Gives (λ found. (view_module found.0, found.1)) result
        (data_at (view_module partial) bytes.now at) }
{
    let (segments, next) = data_section(alloc, bytes, at)?;
    if let Some(segments) = segments {
        partial.segments = segments;
    }
    from_end(alloc, bytes, next, partial)
}

#[tactic(auto, unfolding(crate::specs::ReadingModule::code_section_at))]
fn from_code(
    alloc: Global,
    bytes: &[u8],
    at: usize,
    mut partial: Module,
) -> Result<(Module, usize), DecodeError>
    requires inside { at ≤ length bytes.now }
    requires short { length bytes.now < 2 ^ 32 }
    ensures exact { Gives (λ found. (view_module found.0, found.1)) result
        (code_section_at (view_module partial) bytes.now at) }
{
    let (bodies, next) = code_section(alloc, bytes, at, partial.funcs.len())?;
    if let Some(bodies) = bodies {
        partial.bodies = bodies;
    }
    from_data(alloc, bytes, next, partial)
}

#[tactic(auto, unfolding(crate::specs::ReadingModule::elements_at))]
fn from_elements(
    alloc: Global,
    bytes: &[u8],
    at: usize,
    mut partial: Module,
) -> Result<(Module, usize), DecodeError>
    requires inside { at ≤ length bytes.now }
    requires short { length bytes.now < 2 ^ 32 }
    ensures exact { Gives (λ found. (view_module found.0, found.1)) result
        (elements_at (view_module partial) bytes.now at) }
{
    let (elements, next) = element_section(alloc, bytes, at)?;
    if let Some(elements) = elements {
        partial.elements = elements;
    }
    from_code(alloc, bytes, next, partial)
}

#[tactic(auto, unfolding(crate::specs::ReadingModule::start_at))]
fn from_start(
    alloc: Global,
    bytes: &[u8],
    at: usize,
    mut partial: Module,
) -> Result<(Module, usize), DecodeError>
    requires inside { at ≤ length bytes.now }
    requires short { length bytes.now < 2 ^ 32 }
    ensures exact { Gives (λ found. (view_module found.0, found.1)) result
        (start_at (view_module partial) bytes.now at) }
{
    let (start, next) = start_section(bytes, at)?;
    if start.is_some() {
        partial.start = start;
    }
    from_elements(alloc, bytes, next, partial)
}

#[tactic(auto, unfolding(crate::specs::ReadingModule::exports_at))]
fn from_exports(
    alloc: Global,
    bytes: &[u8],
    at: usize,
    mut partial: Module,
) -> Result<(Module, usize), DecodeError>
    requires inside { at ≤ length bytes.now }
    requires short { length bytes.now < 2 ^ 32 }
    ensures exact { Gives (λ found. (view_module found.0, found.1)) result
        (exports_at (view_module partial) bytes.now at) }
{
    let (exports, next) = export_section(alloc, bytes, at)?;
    if let Some(exports) = exports {
        partial.exports = exports;
    }
    from_start(alloc, bytes, next, partial)
}

#[tactic(auto, unfolding(crate::specs::ReadingModule::globals_at))]
fn from_globals(
    alloc: Global,
    bytes: &[u8],
    at: usize,
    mut partial: Module,
) -> Result<(Module, usize), DecodeError>
    requires inside { at ≤ length bytes.now }
    requires short { length bytes.now < 2 ^ 32 }
    ensures exact { Gives (λ found. (view_module found.0, found.1)) result
        (globals_at (view_module partial) bytes.now at) }
{
    let (globals, next) = global_section(alloc, bytes, at)?;
    if let Some(globals) = globals {
        partial.globals = globals;
    }
    from_exports(alloc, bytes, next, partial)
}

#[tactic(auto, unfolding(crate::specs::ReadingModule::memories_at))]
fn from_memories(
    alloc: Global,
    bytes: &[u8],
    at: usize,
    mut partial: Module,
) -> Result<(Module, usize), DecodeError>
    requires inside { at ≤ length bytes.now }
    requires short { length bytes.now < 2 ^ 32 }
    ensures exact { Gives (λ found. (view_module found.0, found.1)) result
        (memories_at (view_module partial) bytes.now at) }
{
    let (memories, next) = memory_section(alloc, bytes, at)?;
    if let Some(memories) = memories {
        partial.memories = memories;
    }
    from_globals(alloc, bytes, next, partial)
}

#[tactic(auto, unfolding(crate::specs::ReadingModule::tables_at))]
fn from_tables(
    alloc: Global,
    bytes: &[u8],
    at: usize,
    mut partial: Module,
) -> Result<(Module, usize), DecodeError>
    requires inside { at ≤ length bytes.now }
    requires short { length bytes.now < 2 ^ 32 }
    ensures exact { Gives (λ found. (view_module found.0, found.1)) result
        (tables_at (view_module partial) bytes.now at) }
{
    let (tables, next) = table_section(alloc, bytes, at)?;
    if let Some(tables) = tables {
        partial.tables = tables;
    }
    from_memories(alloc, bytes, next, partial)
}

#[tactic(auto, unfolding(crate::specs::ReadingModule::functions_at))]
fn from_functions(
    alloc: Global,
    bytes: &[u8],
    at: usize,
    mut partial: Module,
) -> Result<(Module, usize), DecodeError>
    requires inside { at ≤ length bytes.now }
    requires short { length bytes.now < 2 ^ 32 }
    ensures exact { Gives (λ found. (view_module found.0, found.1)) result
        (functions_at (view_module partial) bytes.now at) }
{
    let (funcs, next) = function_section(alloc, bytes, at)?;
    if let Some(funcs) = funcs {
        partial.funcs = funcs;
    }
    from_tables(alloc, bytes, next, partial)
}

#[tactic(auto, unfolding(crate::specs::ReadingModule::imports_at))]
fn from_imports(
    alloc: Global,
    bytes: &[u8],
    at: usize,
    mut partial: Module,
) -> Result<(Module, usize), DecodeError>
    requires inside { at ≤ length bytes.now }
    requires short { length bytes.now < 2 ^ 32 }
    ensures exact { Gives (λ found. (view_module found.0, found.1)) result
        (imports_at (view_module partial) bytes.now at) }
{
    let (imports, next) = import_section(alloc, bytes, at)?;
    if let Some(imports) = imports {
        partial.imports = imports;
    }
    from_functions(alloc, bytes, next, partial)
}

/// Reads a module from its type section on, adding to `partial`; returns it and the offset after it.
#[tactic(auto, unfolding(crate::specs::ReadingModule::types_at))]
pub fn from_types(
    alloc: Global,
    bytes: &[u8],
    at: usize,
    mut partial: Module,
) -> Result<(Module, usize), DecodeError>
    requires inside { at ≤ length bytes.now }
    requires short { length bytes.now < 2 ^ 32 }
    ensures exact { Gives (λ found. (view_module found.0, found.1)) result
        (types_at (view_module partial) bytes.now at) }
{
    let (types, next) = type_section(alloc, bytes, at)?;
    if let Some(types) = types {
        partial.types = types;
    }
    from_imports(alloc, bytes, next, partial)
}
