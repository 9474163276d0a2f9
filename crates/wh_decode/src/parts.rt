//! Names, imports, globals, exports and segments (section 5.5 of the standard).

ghost use Rattle.std.specs.Prelude.{◌≡◌, ◌<◌, ◌≤◌, ◌^◌, ◌+◌, length, IfOk, IfErr, None};
ghost use Rattle.std.specs.Prelude.{string_bytes};
ghost use Rattle.std.specs.Str.{is_utf8};
ghost use Rattle.wh_model.specs.Format.Opcodes.{imported_mutability, export_kind, import_kind};
ghost use Rattle.wh_leb.specs.Reading.{one_at, only_at, read_bytes_at, times_at, vec_at, u32_at, Gives};
ghost use Rattle.wh_syntax.specs.View.{view_desc, view_import, view_global, view_export, view_element, view_data};
ghost use Rattle.wh_decode.specs.ReadingModule.{name_at, importdesc_by_at, importdesc_at, import_at, global_at, export_at, element_at, byte_vector_at, segment_at};

use crate::items::{Item, items};
use crate::types::{global_type, val_type};
use simdutf8::compat::from_utf8;
use std::alloc::Global;
use wh_expr::read_expr;
use wh_leb::{fault, read_u32};
use wh_model::{DecodeError, ExternKind, FaultKind, Mutability};
use wh_syntax::{Data, Element, Export, Global as GlobalVariable, Import, ImportDesc};

/// Reads `count` bytes that are text; returns it and the offset after it.
fn text(bytes: &[u8], at: usize, count: u32) -> Result<(&str, usize), DecodeError>
    requires { at ≤ length bytes.now }
    ensures exact { Gives (λ found. (found.0.now, found.1)) result
        (only_at is_utf8 FaultKind.Utf8 (read_bytes_at count) bytes.now at) }
    ensures inside { IfOk result (λ found. found.1 ≤ length bytes.now) }
{
    let end = at + count as usize;
    if bytes.len() < end {
        return fault(FaultKind::Truncated, bytes.len());
    }
    match from_utf8(&bytes[at..end]) {
        Ok(text) => Ok((text, end)),
        Err(_) => fault(FaultKind::Utf8, at),
    }
}

/// Reads a name (5.2.4); returns it and the offset after it.
#[tactic(auto, unfolding(crate::specs::ReadingModule::name_at))]
pub fn name(bytes: &[u8], at: usize) -> Result<(&str, usize), DecodeError>
    requires { at ≤ length bytes.now }
    ensures exact { Gives (λ found. (found.0.now, found.1)) result (name_at bytes.now at) }
    ensures inside { IfOk result (λ found. found.1 ≤ length bytes.now) }
{
    let (count, next) = read_u32(bytes, at)?;
    text(bytes, next, count)
}

/// A text as a string of its own; the place is that of a fault.
fn own(alloc: Global, text: &str, at: usize) -> Result<String, DecodeError>
    ensures ok { IfOk result (λ s. string_bytes s ≡ text.now) }
    ensures err { IfErr result (λ e. e.kind ≡ FaultKind.Memory) }
{
    match String::from_str(alloc, text) {
        Ok(text) => Ok(text),
        Err(_) => fault(FaultKind::Memory, at),
    }
}

/// A name that is kept.
fn owned_name(alloc: Global, bytes: &[u8], at: usize) -> Result<(String, usize), DecodeError>
    requires { at ≤ length bytes.now }
    ensures exact { Gives (λ found. (string_bytes found.0, found.1)) result (name_at bytes.now at) }
    ensures inside { IfOk result (λ found. found.1 ≤ length bytes.now) }
{
    let (text, next) = name(bytes, at)?;
    let name = own(alloc, text, at)?;
    Ok((name, next))
}

fn import_kind_of(byte: u8) -> Result<bool, FaultKind>
    ensures { result ≡ import_kind byte }
{
    match byte {
        0 => Ok(true),
        1 | 2 => Err(FaultKind::Unsupported),
        3 => Ok(false),
        _ => Err(FaultKind::UnknownByte),
    }
}

/// Whether a function is imported, and not a global.
fn import_kind(bytes: &[u8], at: usize) -> Result<(bool, usize), DecodeError>
    requires { at ≤ length bytes.now }
    ensures exact { result ≡ one_at import_kind bytes.now at }
    ensures inside { IfOk result (λ found. found.1 ≤ length bytes.now) }
{
    if at == bytes.len() {
        return fault(FaultKind::Truncated, at);
    }
    match import_kind_of(bytes[at]) {
        Ok(kind) => Ok((kind, at + 1)),
        Err(kind) => fault(kind, at),
    }
}

fn imported_mutability_of(byte: u8) -> Result<Mutability, FaultKind>
    ensures { result ≡ imported_mutability byte }
{
    match byte {
        0 => Ok(Mutability::Const),
        1 => Err(FaultKind::Unsupported),
        _ => Err(FaultKind::UnknownByte),
    }
}

fn imported_mutability(bytes: &[u8], at: usize) -> Result<(Mutability, usize), DecodeError>
    requires { at ≤ length bytes.now }
    ensures exact { result ≡ one_at imported_mutability bytes.now at }
    ensures inside { IfOk result (λ found. found.1 ≤ length bytes.now) }
{
    if at == bytes.len() {
        return fault(FaultKind::Truncated, at);
    }
    match imported_mutability_of(bytes[at]) {
        Ok(m) => Ok((m, at + 1)),
        Err(kind) => fault(kind, at),
    }
}

fn import_desc_by(
    bytes: &[u8],
    at: usize,
    is_function: bool,
) -> Result<(ImportDesc, usize), DecodeError>
    requires { at ≤ length bytes.now }
    ensures exact { Gives (λ found. (view_desc found.0, found.1)) result
        (importdesc_by_at is_function bytes.now at) }
    ensures inside { IfOk result (λ found. found.1 ≤ length bytes.now) }
{
    if is_function {
        let (type_index, next) = read_u32(bytes, at)?;
        return Ok((ImportDesc::Func(type_index), next));
    }
    let (value, next) = val_type(bytes, at)?;
    let (_, next) = imported_mutability(bytes, next)?;
    Ok((ImportDesc::Global(value), next))
}

#[tactic(auto, unfolding(crate::specs::ReadingModule::importdesc_at))]
fn import_desc(bytes: &[u8], at: usize) -> Result<(ImportDesc, usize), DecodeError>
    requires { at ≤ length bytes.now }
    ensures exact { Gives (λ found. (view_desc found.0, found.1)) result
        (importdesc_at bytes.now at) }
    ensures inside { IfOk result (λ found. found.1 ≤ length bytes.now) }
{
    let (is_function, next) = import_kind(bytes, at)?;
    import_desc_by(bytes, next, is_function)
}

#[tactic(auto, unfolding(crate::specs::ReadingModule::import_at))]
fn import(alloc: Global, bytes: &[u8], at: usize) -> Result<(Import, usize), DecodeError>
    requires { at ≤ length bytes.now }
    ensures exact { Gives (λ found. (view_import found.0, found.1)) result
        (import_at bytes.now at) }
    ensures inside { IfOk result (λ found. found.1 ≤ length bytes.now) }
{
    let (from, next) = owned_name(alloc, bytes, at)?;
    let (name, next) = owned_name(alloc, bytes, next)?;
    let (desc, next) = import_desc(bytes, next)?;
    Ok((Import { from, name, desc }, next))
}

#[tactic(auto, unfolding(crate::specs::ReadingModule::global_at))]
fn global(alloc: Global, bytes: &[u8], at: usize) -> Result<(GlobalVariable, usize), DecodeError>
    requires inside { at ≤ length bytes.now }
    requires short { length bytes.now < 2 ^ 32 }
    ensures exact { Gives (λ found. (view_global found.0, found.1)) result
        (global_at bytes.now at) }
    ensures inside { IfOk result (λ found. found.1 ≤ length bytes.now) }
{
    let (global_type, next) = global_type(bytes, at)?;
    let (init, next) = read_expr(alloc, bytes, next, None)?;
    Ok((GlobalVariable { global_type, init }, next))
}

fn export_kind_of(byte: u8) -> Result<ExternKind, FaultKind>
    ensures { result ≡ export_kind byte }
{
    match byte {
        0 => Ok(ExternKind::Func),
        1 => Ok(ExternKind::Table),
        2 => Ok(ExternKind::Memory),
        3 => Ok(ExternKind::Global),
        _ => Err(FaultKind::UnknownByte),
    }
}

fn export_kind(bytes: &[u8], at: usize) -> Result<(ExternKind, usize), DecodeError>
    requires { at ≤ length bytes.now }
    ensures exact { result ≡ one_at export_kind bytes.now at }
    ensures inside { IfOk result (λ found. found.1 ≤ length bytes.now) }
{
    if at == bytes.len() {
        return fault(FaultKind::Truncated, at);
    }
    match export_kind_of(bytes[at]) {
        Ok(kind) => Ok((kind, at + 1)),
        Err(kind) => fault(kind, at),
    }
}

#[tactic(auto, unfolding(crate::specs::ReadingModule::export_at))]
fn export(alloc: Global, bytes: &[u8], at: usize) -> Result<(Export, usize), DecodeError>
    requires { at ≤ length bytes.now }
    ensures exact { Gives (λ found. (view_export found.0, found.1)) result
        (export_at bytes.now at) }
    ensures inside { IfOk result (λ found. found.1 ≤ length bytes.now) }
{
    let (name, next) = owned_name(alloc, bytes, at)?;
    let (kind, next) = export_kind(bytes, next)?;
    let (index, next) = read_u32(bytes, next)?;
    Ok((Export { name, kind, index }, next))
}

/// A vector of indices, and the place after it.
fn indices(alloc: Global, bytes: &[u8], at: usize) -> Result<(Vec<u32>, usize), DecodeError>
    requires inside { at ≤ length bytes.now }
    requires short { length bytes.now < 2 ^ 32 }
    ensures exact { Gives (λ found. (found.0.items, found.1)) result (vec_at u32_at bytes.now at) }
    ensures inside { IfOk result (λ found. found.1 ≤ length bytes.now) }
{
    let (count, next) = read_u32(bytes, at)?;
    index_list(alloc, count, bytes, next)
}

/// Reads `count` indices; returns them and the offset after them.
pub fn index_list(
    alloc: Global,
    count: u32,
    bytes: &[u8],
    at: usize,
) -> Result<(Vec<u32>, usize), DecodeError>
    requires inside { at ≤ length bytes.now }
    requires short { length bytes.now < 2 ^ 32 }
    ensures exact { Gives (λ found. (found.0.items, found.1)) result
        (times_at count u32_at bytes.now at) }
    ensures inside { IfOk result (λ found. found.1 ≤ length bytes.now) }
{
    items(alloc, count, bytes, at)
}

#[tactic(auto, unfolding(crate::specs::ReadingModule::element_at))]
fn element(alloc: Global, bytes: &[u8], at: usize) -> Result<(Element, usize), DecodeError>
    requires inside { at ≤ length bytes.now }
    requires short { length bytes.now < 2 ^ 32 }
    ensures exact { Gives (λ found. (view_element found.0, found.1)) result
        (element_at bytes.now at) }
    ensures inside { IfOk result (λ found. found.1 ≤ length bytes.now) }
{
    let (table, next) = read_u32(bytes, at)?;
    let (offset, next) = read_expr(alloc, bytes, next, None)?;
    let (init, next) = indices(alloc, bytes, next)?;
    Ok((
        Element {
            table,
            offset,
            init,
        },
        next,
    ))
}

/// Copies `count` bytes; returns them and the offset after them.
fn byte_list(
    alloc: Global,
    bytes: &[u8],
    at: usize,
    count: u32,
) -> Result<(Vec<u8>, usize), DecodeError>
    requires { at ≤ length bytes.now }
    ensures exact { Gives (λ found. (found.0.items, found.1)) result
        (read_bytes_at count bytes.now at) }
    ensures inside { IfOk result (λ found. found.1 ≤ length bytes.now) }
{
    let end = at + count as usize;
    if bytes.len() < end {
        return fault(FaultKind::Truncated, bytes.len());
    }
    match Vec::from_slice(alloc, &bytes[at..end]) {
        Ok(list) => Ok((list, end)),
        Err(_) => fault(FaultKind::Memory, at),
    }
}

#[tactic(auto, unfolding(crate::specs::ReadingModule::byte_vector_at))]
fn byte_vector(alloc: Global, bytes: &[u8], at: usize) -> Result<(Vec<u8>, usize), DecodeError>
    requires { at ≤ length bytes.now }
    ensures exact { Gives (λ found. (found.0.items, found.1)) result (byte_vector_at bytes.now at) }
    ensures inside { IfOk result (λ found. found.1 ≤ length bytes.now) }
{
    let (count, next) = read_u32(bytes, at)?;
    byte_list(alloc, bytes, next, count)
}

#[tactic(auto, unfolding(crate::specs::ReadingModule::segment_at))]
fn segment(alloc: Global, bytes: &[u8], at: usize) -> Result<(Data, usize), DecodeError>
    requires inside { at ≤ length bytes.now }
    requires short { length bytes.now < 2 ^ 32 }
    ensures exact { Gives (λ found. (view_data found.0, found.1)) result (segment_at bytes.now at) }
    ensures inside { IfOk result (λ found. found.1 ≤ length bytes.now) }
{
    let (memory, next) = read_u32(bytes, at)?;
    let (offset, next) = read_expr(alloc, bytes, next, None)?;
    let (init, next) = byte_vector(alloc, bytes, next)?;
    Ok((
        Data {
            memory,
            offset,
            init,
        },
        next,
    ))
}

impl Item for Import {
    ghost gift = { λ b at r. Gives (λ found. (view_import found.0, found.1)) r (import_at b at) };

    fn read(alloc: Global, bytes: &[u8], at: usize) -> Result<(Import, usize), DecodeError> {
        import(alloc, bytes, at)
    }
}

impl Item for GlobalVariable {
    ghost gift = { λ b at r. Gives (λ found. (view_global found.0, found.1)) r (global_at b at) };

    fn read(
        alloc: Global,
        bytes: &[u8],
        at: usize,
    ) -> Result<(GlobalVariable, usize), DecodeError> {
        global(alloc, bytes, at)
    }
}

impl Item for Export {
    ghost gift = { λ b at r. Gives (λ found. (view_export found.0, found.1)) r (export_at b at) };

    fn read(alloc: Global, bytes: &[u8], at: usize) -> Result<(Export, usize), DecodeError> {
        export(alloc, bytes, at)
    }
}

impl Item for Element {
    ghost gift = { λ b at r. Gives (λ found. (view_element found.0, found.1)) r (element_at b at) };

    fn read(alloc: Global, bytes: &[u8], at: usize) -> Result<(Element, usize), DecodeError> {
        element(alloc, bytes, at)
    }
}

impl Item for Data {
    ghost gift = { λ b at r. Gives (λ found. (view_data found.0, found.1)) r (segment_at b at) };

    fn read(alloc: Global, bytes: &[u8], at: usize) -> Result<(Data, usize), DecodeError> {
        segment(alloc, bytes, at)
    }
}
