//! The limits of this host on modules.

use crate::extents::{MOST_MODULE_BYTES, section_at};
use crate::place::FaultLocation;
use crate::section::Section;
use std::fmt;
use wh_model::{DecodeError, FaultKind, MOST_HEIGHT, MOST_LOCALS, MOST_WASM_PAGES};
use wh_syntax::{Limits, Module};

const MOST_INSTRUCTIONS: u32 = 65536;

const MOST_FIRST_ENTRIES: u32 = 4096;

/// A limit of this host on modules.
#[derive(Clone, Copy, Debug, PartialEq, Eq)]
pub enum Limit {
    /// The bytes of a module.
    Bytes,
    /// The function types.
    Types,
    /// The parameters of a function type.
    Parameters,
    /// The results of a function type.
    Results,
    /// The imports.
    Imports,
    /// The functions that the module defines.
    Functions,
    /// The tables.
    Tables,
    /// The entries with which a table begins.
    Entries,
    /// The memories.
    Memories,
    /// The pages of a memory.
    Pages,
    /// A least size beside a greatest one.
    Least,
    /// The globals that the module defines.
    Globals,
    /// The exports.
    Exports,
    /// The element segments.
    Elements,
    /// The data segments.
    Segments,
    /// The locals that a function declares besides its parameters.
    Locals,
    /// The parameters and locals of a function.
    ParametersAndLocals,
    /// The instructions of a function.
    Instructions,
    /// The constructs that are open inside one another.
    Nesting,
    /// The labels of a `br_table` beside its default one.
    Labels,
    /// The operands at any place of a function.
    Operands,
}

impl Limit {
    /// Gives the greatest number that is accepted; none where it is another number of the module.
    pub fn most(self) -> Option<usize> {
        match self {
            Limit::Bytes => Some(MOST_MODULE_BYTES),
            Limit::Instructions => Some(MOST_INSTRUCTIONS as usize),
            Limit::Pages => Some(MOST_WASM_PAGES as usize),
            Limit::Functions | Limit::Labels => Some(4096),
            Limit::Entries => Some(MOST_FIRST_ENTRIES as usize),
            Limit::Types | Limit::Globals | Limit::Exports | Limit::Segments => Some(1024),
            Limit::Imports | Limit::Elements | Limit::Parameters | Limit::Nesting => Some(256),
            Limit::Locals | Limit::ParametersAndLocals => Some(MOST_LOCALS),
            Limit::Operands => Some(MOST_HEIGHT),
            Limit::Results | Limit::Tables | Limit::Memories => Some(1),
            Limit::Least => None,
        }
    }

    /// Names what is limited.
    pub fn name(self) -> &'static str {
        match self {
            Limit::Bytes => "bytes of a module",
            Limit::Types => "function types",
            Limit::Parameters => "parameters of a function type",
            Limit::Results => "results of a function type",
            Limit::Imports => "imports",
            Limit::Functions => "functions",
            Limit::Tables => "tables",
            Limit::Entries => "entries at first of a table",
            Limit::Memories => "memories",
            Limit::Pages => "pages of a memory",
            Limit::Least => "the greatest size beside the least one",
            Limit::Globals => "globals",
            Limit::Exports => "exports",
            Limit::Elements => "element segments",
            Limit::Segments => "data segments",
            Limit::Locals => "declared locals of a function",
            Limit::ParametersAndLocals => "parameters and locals of a function",
            Limit::Instructions => "instructions of a function",
            Limit::Nesting => "nested constructs of an expression",
            Limit::Labels => "labels of a br_table",
            Limit::Operands => "operands at a place of a function",
        }
    }

    /// Finds the limit that the decoder found passed at a place; none where the bytes pass none there.
    pub fn of_fault(bytes: &[u8], fault: DecodeError, place: FaultLocation) -> Option<Limit> {
        if fault.kind != FaultKind::Limit {
            return None;
        }
        if bytes.len() > MOST_MODULE_BYTES {
            return Some(Limit::Bytes);
        }
        let (_, extent) = section_at(bytes, fault)?;
        if fault.offset == extent.start {
            return counted(place.section?);
        }
        match place.section? {
            Section::Type => Some(Limit::Parameters),
            Section::FaultCode if place.instruction.is_none() => Some(Limit::Locals),
            Section::FaultCode if place.instruction == Some(MOST_INSTRUCTIONS) => {
                Some(Limit::Instructions)
            }
            _ => Some(of_expression(*bytes.get(fault.offset)?)),
        }
    }

    /// Tells whether it is a rule of WebAssembly 1.0, and not one that this host adds.
    pub fn is_rule(self) -> bool {
        matches!(
            self,
            Limit::Results | Limit::Tables | Limit::Memories | Limit::Pages | Limit::Least
        )
    }

    /// Finds the limit that the tables of a module pass.
    pub fn of_tables(module: &Module) -> Option<Limit> {
        match module.tables.as_slice() {
            [] => None,
            [table] if table.limits.min > MOST_FIRST_ENTRIES => Some(Limit::Entries),
            [table] => of_order(table.limits),
            _ => Some(Limit::Tables),
        }
    }

    /// Finds the limit that the memories pass.
    pub fn of_memories(memories: &[Limits]) -> Option<Limit> {
        match memories {
            [] => None,
            [memory] if memory.max.unwrap_or(memory.min) > MOST_WASM_PAGES => Some(Limit::Pages),
            [memory] => of_order(*memory),
            _ => Some(Limit::Memories),
        }
    }
}

/// Gives the limit on the count at which a section begins.
fn counted(section: Section) -> Option<Limit> {
    match section {
        Section::Type => Some(Limit::Types),
        Section::Import => Some(Limit::Imports),
        Section::Function => Some(Limit::Functions),
        Section::Global => Some(Limit::Globals),
        Section::Export => Some(Limit::Exports),
        Section::Element => Some(Limit::Elements),
        Section::Data => Some(Limit::Segments),
        _ => None,
    }
}

/// Gives the limit that is passed inside an expression, by the byte that stands there: an opcode that opens a construct,
/// or a count above 4096, whose first byte continues.
fn of_expression(byte: u8) -> Limit {
    if byte < 0x80 {
        Limit::Nesting
    } else {
        Limit::Labels
    }
}

/// Tells whether a least size is above the greatest one.
fn of_order(limits: Limits) -> Option<Limit> {
    match limits.max {
        Some(max) if limits.min > max => Some(Limit::Least),
        _ => None,
    }
}

impl fmt::Display for Limit {
    fn fmt<W: fmt::Write>(&self, f: &mut fmt::Formatter<W>) -> fmt::Result {
        match (self, self.most()) {
            (Limit::Results, _) => f.write_str("more than one result of a function type"),
            (Limit::Tables, _) => f.write_str("more than one table"),
            (Limit::Memories, _) => f.write_str("more than one memory"),
            (_, Some(most)) => write!(f, "more than {most} {}", self.name()),
            (_, None) => f.write_str("the least size is above the greatest one"),
        }
    }
}
