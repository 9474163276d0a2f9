//! What a fault of a module is about, beyond its kind.

use crate::indexed::Unnamed;
use crate::limit::Limit;
use std::fmt;
use wh_model::ValType;

/// What of the imports this host leaves out.
#[derive(Clone, Copy, Debug, PartialEq, Eq)]
pub enum LeftOut {
    /// A table.
    Table,
    /// A memory.
    Memory,
    /// A global that may be written.
    MutableGlobal,
}

/// What a fault is about, beyond its kind.
#[derive(Debug, Drop)]
pub enum Detail {
    /// Nothing more is said.
    None,
    /// A byte, and the later part of WebAssembly that it belongs to.
    Byte(u8, Option<&'static str>),
    /// A type or an instruction of floating point.
    Float(&'static str),
    /// An import of what is left out.
    LeftOut(LeftOut),
    /// A limit that is passed.
    Limit(Limit),
    /// How many functions there are, and how many code entries.
    Counts(u32, u32),
    /// A name that is exported twice.
    Export(String),
    /// An import.
    Import(Asked),
    /// A segment of a later part of WebAssembly, which is what the bytes are, whatever they would be in version 1.0.
    Segment(&'static str),
    /// An index that names nothing.
    Unnamed(Unnamed),
    /// Operands that aren't those that an instruction takes.
    Types(Mismatch),
}

/// What a module asks the host for.
#[derive(Debug, Drop)]
pub struct Asked {
    /// The name of the module that it imports from.
    pub from: String,
    /// The name there.
    pub name: String,
    /// The type of the function or global.
    pub asked_type: String,
}

/// Types that aren't those that stand in their place, where none is one that isn't known.
#[derive(Debug, Drop)]
pub struct Mismatch {
    /// The types that are expected there, the topmost one last.
    pub wanted: Vec<Option<ValType>>,
    /// The types that do: as many as are there of those, and at the end of a construct all that it leaves.
    pub found: Vec<Option<ValType>>,
}

/// Names a value type, or one that isn't known.
pub fn type_name(t: Option<ValType>) -> &'static str {
    match t {
        Some(ValType::I32) => "i32",
        Some(ValType::I64) => "i64",
        None => "any",
    }
}

/// Value types in brackets.
#[derive(Clone, Copy)]
pub struct TypeList<'a>(pub &'a [Option<ValType>]);

impl fmt::Display for TypeList<'_> {
    fn fmt<W: fmt::Write>(&self, f: &mut fmt::Formatter<W>) -> fmt::Result {
        f.write_str("[")?;
        for (at, t) in self.0.iter().enumerate() {
            if at > 0 {
                f.write_str(" ")?;
            }
            f.write_str(type_name(*t))?;
        }
        f.write_str("]")
    }
}

impl fmt::Display for LeftOut {
    fn fmt<W: fmt::Write>(&self, f: &mut fmt::Formatter<W>) -> fmt::Result {
        f.write_str(match self {
            LeftOut::Table => "an imported table",
            LeftOut::Memory => "an imported memory",
            LeftOut::MutableGlobal => "an imported global that may be written",
        })
    }
}

impl fmt::Display for Asked {
    fn fmt<W: fmt::Write>(&self, f: &mut fmt::Formatter<W>) -> fmt::Result {
        let Asked {
            from,
            name,
            asked_type,
        } = self;
        write!(f, "{name:?} of module {from:?}, {asked_type}")
    }
}

/// Writes a byte, and what it belongs to.
fn write_byte<W: fmt::Write>(
    f: &mut fmt::Formatter<W>,
    byte: u8,
    later: Option<&str>,
) -> fmt::Result {
    write!(f, "0x{byte:02x}")?;
    match later {
        Some(part) => write!(f, ", which belongs to {part}"),
        None => Ok(()),
    }
}

impl fmt::Display for Mismatch {
    fn fmt<W: fmt::Write>(&self, f: &mut fmt::Formatter<W>) -> fmt::Result {
        let wanted = TypeList(self.wanted.as_slice());
        let found = TypeList(self.found.as_slice());
        write!(f, "expected {wanted}, found {found}")
    }
}

impl fmt::Display for Detail {
    fn fmt<W: fmt::Write>(&self, f: &mut fmt::Formatter<W>) -> fmt::Result {
        match self {
            Detail::None => Ok(()),
            Detail::Byte(byte, later) => write_byte(f, *byte, *later),
            Detail::Float(name) => f.write_str(name),
            Detail::LeftOut(what) => write!(f, "{what}"),
            Detail::Limit(limit) => write!(f, "{limit}"),
            Detail::Counts(functions, entries) => {
                write!(f, "functions: {functions}, code entries: {entries}")
            }
            Detail::Export(name) => write!(f, "{name:?}"),
            Detail::Import(asked) => write!(f, "{asked}"),
            Detail::Segment(what) => f.write_str(what),
            Detail::Unnamed(unnamed) => write!(f, "{unnamed}"),
            Detail::Types(mismatch) => write!(f, "{mismatch}"),
        }
    }
}
