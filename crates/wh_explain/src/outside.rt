//! Faults of the validator that are in no function, looked for in the order in which it looks.

use crate::indexed::{IndexSpace, Unnamed, function_type, global_type, imported_globals};
use crate::limit::Limit;
use crate::section::Section;
use wh_model::{Mutability, ValType, ValidKind};
use wh_syntax::{Data, Element, Export, Expr, ImportDesc, Instr, Module};

/// What a fault is about that is in no function.
#[derive(Clone, Copy)]
pub enum About {
    /// Nothing more than its kind.
    Nothing,
    /// A limit that is passed.
    Limit(Limit),
    /// An index.
    Unnamed(Unnamed),
    /// A name that an earlier export has.
    Name,
    /// The type that a constant has to have, and the one that it has.
    Types(ValType, ValType),
}

impl About {
    /// The kind of fault that is about an expression, which has to be constant.
    fn kind(self) -> ValidKind {
        match self {
            About::Nothing => ValidKind::Const,
            About::Limit(_) => ValidKind::Limits,
            About::Unnamed(_) => ValidKind::Index,
            About::Name => ValidKind::DuplicateExport,
            About::Types(_, _) => ValidKind::BadType,
        }
    }
}

/// A fault that is in no function.
#[derive(Clone, Copy)]
pub struct OutsideFault {
    /// The section.
    pub section: Section,
    /// The place among the section's entries.
    pub entry: usize,
    /// What is wrong.
    pub kind: ValidKind,
    /// What it is about.
    pub about: About,
}

/// A fault of an entry of a section, whose kind is that of what it is about.
fn fault_at(section: Section, entry: usize, about: About) -> OutsideFault {
    OutsideFault {
        section,
        entry,
        kind: about.kind(),
        about,
    }
}

/// Finds the first function type with more than one result.
fn of_types(module: &Module) -> Option<OutsideFault> {
    let entry = module.types.iter().position(|t| t.results.len() > 1)?;
    Some(fault_at(Section::Type, entry, About::Limit(Limit::Results)))
}

/// Finds the first import of a function whose type isn't there.
fn of_imports(module: &Module) -> Option<OutsideFault> {
    for (entry, import) in module.imports.iter().enumerate() {
        if let ImportDesc::Func(index) = import.desc
            && let Some(unnamed) = Unnamed::in_module(module, IndexSpace::Type, index)
        {
            return Some(fault_at(Section::Import, entry, About::Unnamed(unnamed)));
        }
    }
    None
}

/// Finds the first function whose type isn't there.
fn of_functions(module: &Module) -> Option<OutsideFault> {
    for (entry, index) in module.funcs.iter().enumerate() {
        if let Some(unnamed) = Unnamed::in_module(module, IndexSpace::Type, *index) {
            return Some(fault_at(Section::Function, entry, About::Unnamed(unnamed)));
        }
    }
    None
}

/// Finds the limit that the tables pass, or else the memories. Of several the second one is at fault.
fn of_sizes(module: &Module) -> Option<OutsideFault> {
    if let Some(limit) = Limit::of_tables(module) {
        let entry = usize::from(limit == Limit::Tables);
        return Some(fault_at(Section::Table, entry, About::Limit(limit)));
    }
    let limit = Limit::of_memories(&module.memories)?;
    let entry = usize::from(limit == Limit::Memories);
    Some(fault_at(Section::Memory, entry, About::Limit(limit)))
}

/// Tells what is wrong with an expression that has to be constant and of a type, and may read the first `seen` globals;
/// none where nothing is.
fn of_constant(module: &Module, expr: &Expr, wanted: ValType, seen: usize) -> Option<About> {
    let instrs = expr.flat().instrs;
    let [instr, _] = instrs else {
        return Some(About::Nothing);
    };
    let found = match *instr {
        Instr::I32Const(_) => ValType::I32,
        Instr::I64Const(_) => ValType::I64,
        Instr::GlobalGet(index) => match global_type(module, index) {
            None => {
                return Unnamed::in_module(module, IndexSpace::Global, index).map(About::Unnamed);
            }
            Some(global) if index as usize >= seen || global.mutability == Mutability::Var => {
                return Some(About::Nothing);
            }
            Some(global) => global.value,
        },
        _ => return Some(About::Nothing),
    };
    if found == wanted {
        return None;
    }
    Some(About::Types(wanted, found))
}

/// Finds the first global whose first value is no constant of its type.
fn of_globals(module: &Module) -> Option<OutsideFault> {
    let seen = imported_globals(module);
    for (entry, global) in module.globals.iter().enumerate() {
        let wanted = global.global_type.value;
        if let Some(about) = of_constant(module, &global.init, wanted, seen) {
            return Some(fault_at(Section::Global, entry, about));
        }
    }
    None
}

/// Tells what is wrong with an export after these; none where nothing is.
fn of_export(module: &Module, before: &[Export], export: &Export) -> Option<About> {
    let space = IndexSpace::of_export(export.kind);
    if let Some(unnamed) = Unnamed::in_module(module, space, export.index) {
        return Some(About::Unnamed(unnamed));
    }
    let name = export.name.as_str();
    if before.iter().any(|e| e.name.as_str() == name) {
        return Some(About::Name);
    }
    None
}

/// Finds the first export of what isn't there, or by a name that an earlier one has.
fn of_exports(module: &Module) -> Option<OutsideFault> {
    let exports = module.exports.as_slice();
    for (entry, export) in exports.iter().enumerate() {
        let before = exports.get(..entry).unwrap_or(&[]);
        if let Some(about) = of_export(module, before, export) {
            return Some(fault_at(Section::Export, entry, about));
        }
    }
    None
}

/// Finds what is wrong with the start function.
fn of_start(module: &Module) -> Option<OutsideFault> {
    let index = module.start?;
    if let Some(unnamed) = Unnamed::in_module(module, IndexSpace::Function, index) {
        return Some(fault_at(Section::Start, 0, About::Unnamed(unnamed)));
    }
    let func_type = function_type(module, index)?;
    if func_type.params.is_empty() && func_type.results.is_empty() {
        return None;
    }
    Some(OutsideFault {
        section: Section::Start,
        entry: 0,
        kind: ValidKind::Start,
        about: About::Nothing,
    })
}

/// Tells what is wrong with where a segment begins; none where nothing is.
fn of_offset(module: &Module, offset: &Expr) -> Option<About> {
    of_constant(module, offset, ValType::I32, usize::MAX)
}

/// Tells what is wrong with an element segment; none where nothing is.
fn of_element(module: &Module, element: &Element) -> Option<About> {
    if let Some(unnamed) = Unnamed::in_module(module, IndexSpace::Table, element.table) {
        return Some(About::Unnamed(unnamed));
    }
    if let Some(about) = of_offset(module, &element.offset) {
        return Some(about);
    }
    for index in &element.init {
        if let Some(unnamed) = Unnamed::in_module(module, IndexSpace::Function, *index) {
            return Some(About::Unnamed(unnamed));
        }
    }
    None
}

/// Tells what is wrong with a data segment; none where nothing is.
fn of_segment(module: &Module, segment: &Data) -> Option<About> {
    match Unnamed::in_module(module, IndexSpace::Memory, segment.memory) {
        Some(unnamed) => Some(About::Unnamed(unnamed)),
        None => of_offset(module, &segment.offset),
    }
}

/// Finds the first element segment, or else data segment, that is at fault.
fn of_segments(module: &Module) -> Option<OutsideFault> {
    for (entry, element) in module.elements.iter().enumerate() {
        if let Some(about) = of_element(module, element) {
            return Some(fault_at(Section::Element, entry, about));
        }
    }
    for (entry, segment) in module.segments.iter().enumerate() {
        if let Some(about) = of_segment(module, segment) {
            return Some(fault_at(Section::Data, entry, about));
        }
    }
    None
}

/// Finds the first fault of a module that is in no function; none where there is none.
pub fn outside_fault(module: &Module) -> Option<OutsideFault> {
    of_types(module)
        .or_else(|| of_imports(module))
        .or_else(|| of_functions(module))
        .or_else(|| of_sizes(module))
        .or_else(|| of_globals(module))
        .or_else(|| of_exports(module))
        .or_else(|| of_start(module))
        .or_else(|| of_segments(module))
}
