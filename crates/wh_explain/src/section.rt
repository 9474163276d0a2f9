//! The sections of a module.

use std::fmt;

/// A section of a module (5.5.2), in the order of their ids.
#[derive(Clone, Copy, Debug, PartialEq, Eq)]
pub enum Section {
    /// Bytes for tools alone, such as names.
    Custom,
    /// The function types.
    Type,
    /// The imports.
    Import,
    /// The types of the functions.
    Function,
    /// The tables.
    Table,
    /// The memories.
    Memory,
    /// The globals.
    Global,
    /// The exports.
    Export,
    /// The start function.
    Start,
    /// The element segments.
    Element,
    /// What the functions do.
    FaultCode,
    /// The data segments.
    Data,
}

const BY_ID: [Section; 12] = [
    Section::Custom,
    Section::Type,
    Section::Import,
    Section::Function,
    Section::Table,
    Section::Memory,
    Section::Global,
    Section::Export,
    Section::Start,
    Section::Element,
    Section::FaultCode,
    Section::Data,
];

impl Section {
    /// Finds the section of an id; none above 11.
    pub fn of_id(id: u8) -> Option<Section> {
        BY_ID.get(usize::from(id)).copied()
    }

    /// Gives the name by which the standard speaks of it, as `code`.
    pub fn name(self) -> &'static str {
        match self {
            Section::Custom => "custom",
            Section::Type => "type",
            Section::Import => "import",
            Section::Function => "function",
            Section::Table => "table",
            Section::Memory => "memory",
            Section::Global => "global",
            Section::Export => "export",
            Section::Start => "start",
            Section::Element => "element",
            Section::FaultCode => "code",
            Section::Data => "data",
        }
    }
}

impl fmt::Display for Section {
    fn fmt<W: fmt::Write>(&self, f: &mut fmt::Formatter<W>) -> fmt::Result {
        f.write_str(self.name())
    }
}
