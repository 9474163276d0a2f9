//! What the indices of a module name, and those that name nothing.

use std::fmt;
use wh_model::{ExternKind, Mutability};
use wh_syntax::{FuncType, GlobalType, ImportDesc, Module};

/// What an index counts.
#[derive(Clone, Copy, Debug, PartialEq, Eq)]
pub enum IndexSpace {
    /// Function types.
    Type,
    /// Functions, imported ones first.
    Function,
    /// Tables.
    Table,
    /// Memories.
    Memory,
    /// Globals, imported ones first.
    Global,
    /// The parameters and locals of a function.
    Local,
    /// The constructs that are open, the innermost first, and after them the function itself.
    Label,
}

impl IndexSpace {
    /// Finds what the index of an export counts.
    pub fn of_export(kind: ExternKind) -> IndexSpace {
        match kind {
            ExternKind::Func => IndexSpace::Function,
            ExternKind::Table => IndexSpace::Table,
            ExternKind::Memory => IndexSpace::Memory,
            ExternKind::Global => IndexSpace::Global,
        }
    }
}

impl fmt::Display for IndexSpace {
    fn fmt<W: fmt::Write>(&self, f: &mut fmt::Formatter<W>) -> fmt::Result {
        f.write_str(match self {
            IndexSpace::Type => "type",
            IndexSpace::Function => "function",
            IndexSpace::Table => "table",
            IndexSpace::Memory => "memory",
            IndexSpace::Global => "global",
            IndexSpace::Local => "local",
            IndexSpace::Label => "label",
        })
    }
}

/// An index that names nothing.
#[derive(Clone, Copy, Debug, PartialEq, Eq)]
pub struct Unnamed {
    /// What it counts.
    pub space: IndexSpace,
    /// The index.
    pub index: u32,
    /// How many there are of that.
    pub count: usize,
}

impl fmt::Display for Unnamed {
    fn fmt<W: fmt::Write>(&self, f: &mut fmt::Formatter<W>) -> fmt::Result {
        let Unnamed {
            space,
            index,
            count,
        } = self;
        write!(f, "{space} {index}, of {count} in all")
    }
}

impl Unnamed {
    /// Finds that an index names nothing where there are `count`; none where it names something.
    pub fn among(space: IndexSpace, index: u32, count: usize) -> Option<Unnamed> {
        if (index as usize) < count {
            return None;
        }
        Some(Unnamed {
            space,
            index,
            count,
        })
    }

    /// Finds that an index names nothing in a module; none where it names something. A module has no locals and labels.
    pub fn in_module(module: &Module, space: IndexSpace, index: u32) -> Option<Unnamed> {
        let count = match space {
            IndexSpace::Type => module.types.len(),
            IndexSpace::Function => {
                imported_functions(module).saturating_add(module.funcs.len())
            }
            IndexSpace::Table => module.tables.len(),
            IndexSpace::Memory => module.memories.len(),
            IndexSpace::Global => imported_globals(module).saturating_add(module.globals.len()),
            IndexSpace::Local | IndexSpace::Label => 0,
        };
        Unnamed::among(space, index, count)
    }
}

/// Counts the functions that a module imports.
pub fn imported_functions(module: &Module) -> usize {
    let mut count = 0usize;
    for import in &module.imports {
        if let ImportDesc::Func(_) = import.desc {
            count = count.saturating_add(1);
        }
    }
    count
}

/// Counts the globals that a module imports.
pub fn imported_globals(module: &Module) -> usize {
    module
        .imports
        .len()
        .saturating_sub(imported_functions(module))
}

/// Finds the type of a function; none where the function or its type isn't there.
pub fn function_type(module: &Module, index: u32) -> Option<&FuncType> {
    let mut left = index;
    for import in &module.imports {
        if let ImportDesc::Func(func_type) = import.desc {
            if left == 0 {
                return module.types.get(func_type as usize);
            }
            left = left.saturating_sub(1);
        }
    }
    let func_type = module.funcs.get(left as usize)?;
    module.types.get(*func_type as usize)
}

/// Finds the type of a global; none where it isn't there.
pub fn global_type(module: &Module, index: u32) -> Option<GlobalType> {
    let mut left = index;
    for import in &module.imports {
        if let ImportDesc::Global(value) = import.desc {
            if left == 0 {
                let mutability = Mutability::Const;
                return Some(GlobalType { value, mutability });
            }
            left = left.saturating_sub(1);
        }
    }
    module
        .globals
        .get(left as usize)
        .map(|global| global.global_type)
}
