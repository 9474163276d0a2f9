//! Modules and the types that stand in them (2.3, 2.5).

use crate::expr::Expr;
use smallvec::SmallVec;
use wh_model::{ExternKind, Mutability, ValType};

/// A function type (2.3.3).
#[derive(Drop)]
pub struct FuncType {
    /// The types of the parameters, in order.
    pub params: SmallVec<ValType, 4>,
    /// The types of the results.
    pub results: SmallVec<ValType, 1>,
}

/// The size range of a table, in entries, or of a memory, in pages of 65536 bytes (2.3.4).
#[derive(Clone, Copy, Debug, PartialEq, Eq)]
pub struct Limits {
    /// The least size, with which it begins.
    pub min: u32,
    /// The greatest size, if there is one.
    pub max: Option<u32>,
}

/// The type of a table (2.3.5); its elements are functions.
#[derive(Clone, Copy, Debug, PartialEq, Eq)]
pub struct TableType {
    /// How many entries it may have.
    pub limits: Limits,
}

/// The type of a global (2.3.6).
#[derive(Clone, Copy, Debug, PartialEq, Eq)]
pub struct GlobalType {
    /// The type of its value.
    pub value: ValType,
    /// Whether it may be written.
    pub mutability: Mutability,
}

/// What is imported (2.5.11). Tables, memories and globals that may be written are left out.
#[derive(Clone, Copy, Debug, PartialEq, Eq)]
pub enum ImportDesc {
    /// A function of the type at this index.
    Func(u32),
    /// A global of this type that is never written.
    Global(ValType),
}

/// An import (2.5.11).
#[derive(Drop)]
pub struct Import {
    /// The name of the module that it comes from.
    pub from: String,
    /// Its name there.
    pub name: String,
    /// What it is.
    pub desc: ImportDesc,
}

/// A global (2.5.6).
#[derive(Drop)]
pub struct Global {
    /// Its type.
    pub global_type: GlobalType,
    /// Its first value.
    pub init: Expr,
}

/// An export (2.5.10).
#[derive(Drop)]
pub struct Export {
    /// Its name.
    pub name: String,
    /// What is exported.
    pub kind: ExternKind,
    /// Its index among those of its kind.
    pub index: u32,
}

/// An element segment (2.5.7): functions for the table from an offset on.
#[derive(Drop)]
pub struct Element {
    /// The index of the table.
    pub table: u32,
    /// The place of the first function in the table.
    pub offset: Expr,
    /// The indices of the functions.
    pub init: Vec<u32>,
}

/// A data segment (2.5.8): bytes for the memory from an offset on.
#[derive(Drop)]
pub struct Data {
    /// The index of the memory.
    pub memory: u32,
    /// The place of the first byte in the memory.
    pub offset: Expr,
    /// The bytes.
    pub init: Vec<u8>,
}

/// What a function does (2.5.3).
#[derive(Drop)]
pub struct Body {
    /// The types of its locals besides the parameters.
    pub locals: SmallVec<ValType, 8>,
    /// Its instructions.
    pub code: Expr,
}

/// A module (2.5).
#[derive(Drop)]
pub struct Module {
    /// The function types.
    pub types: Vec<FuncType>,
    /// The imports.
    pub imports: Vec<Import>,
    /// The index of the type of each function that the module defines.
    pub funcs: Vec<u32>,
    /// The types of the tables.
    pub tables: Vec<TableType>,
    /// The sizes of the memories.
    pub memories: Vec<Limits>,
    /// The globals that the module defines.
    pub globals: Vec<Global>,
    /// The exports.
    pub exports: Vec<Export>,
    /// The index of the start function, if there is one.
    pub start: Option<u32>,
    /// The element segments.
    pub elements: Vec<Element>,
    /// What each function does, in the order of `funcs`.
    pub bodies: Vec<Body>,
    /// The data segments.
    pub segments: Vec<Data>,
}
