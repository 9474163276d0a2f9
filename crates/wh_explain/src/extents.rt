//! Where sections, bodies and imports stand in the bytes of a module, as far as they can be read.

use crate::reader::Reader;
use crate::section::Section;
use wh_model::{DecodeError, FaultKind};

/// How many bytes a module may have.
pub const MOST_MODULE_BYTES: usize = 1048576;

/// How many bytes stand before the first section.
const PREAMBLE: usize = 8;

/// Gives the bytes up to an offset, or all where there are fewer.
pub fn up_to(bytes: &[u8], end: usize) -> &[u8] {
    bytes.get(..end).unwrap_or(bytes)
}

/// Contents with a size in front of them.
#[derive(Clone, Copy, Debug, PartialEq, Eq)]
pub struct Extent {
    /// The offset of what stands first: a section's id, or the size of a body.
    pub head: usize,
    /// The offset of the contents; `usize::MAX` where the size can't be read.
    pub start: usize,
    /// The offset after the contents by their size, which may be past the end of the input.
    pub end: usize,
}

impl Extent {
    /// Tells whether a fault lies in these contents. One of their size may lie at their end.
    pub fn holds(&self, fault: DecodeError) -> bool {
        let is_inside = fault.offset < self.end
            || (fault.kind == FaultKind::SectionSize && fault.offset == self.end);
        self.head <= fault.offset && is_inside
    }
}

/// Passes a size and as many bytes as it says, or all bytes where there are fewer. What stands first has this offset.
pub fn pass_sized(reader: &mut Reader<'_>, head: usize) -> Extent {
    let Some(size) = reader.number() else {
        reader.pass_all();
        return Extent {
            head,
            start: usize::MAX,
            end: usize::MAX,
        };
    };
    let start = reader.offset();
    if reader.pass(size as usize).is_none() {
        reader.pass_all();
    }
    Extent {
        head,
        start,
        end: start.saturating_add(size as usize),
    }
}

/// Passes a section, and gives its id; none at the end.
fn pass_section(reader: &mut Reader<'_>) -> Option<(u8, Extent)> {
    let head = reader.offset();
    let id = reader.byte()?;
    Some((id, pass_sized(reader, head)))
}

/// Finds the contents of a custom section of this name, after the name.
pub fn custom_section<'a>(bytes: &'a [u8], name: &[u8]) -> Option<Reader<'a>> {
    let mut reader = Reader::at(bytes, PREAMBLE);
    for _ in 0..bytes.len() {
        let (id, extent) = pass_section(&mut reader)?;
        let mut contents = Reader::at(bytes, extent.start);
        if id == 0 && contents.name() == Some(name) {
            return Some(contents);
        }
    }
    None
}

/// Finds the first section of a kind.
pub fn section_extent(bytes: &[u8], section: Section) -> Option<Extent> {
    let mut reader = Reader::at(bytes, PREAMBLE);
    for _ in 0..bytes.len() {
        let (id, extent) = pass_section(&mut reader)?;
        if Section::of_id(id) == Some(section) {
            return Some(extent);
        }
    }
    None
}

/// Finds the section that a fault is one of, and its id; none where there are too many bytes for a module.
pub fn section_at(bytes: &[u8], fault: DecodeError) -> Option<(u8, Extent)> {
    if bytes.len() > MOST_MODULE_BYTES {
        return None;
    }
    let mut reader = Reader::at(bytes, PREAMBLE);
    for _ in 0..bytes.len() {
        let (id, extent) = pass_section(&mut reader)?;
        if extent.holds(fault) {
            return Some((id, extent));
        }
    }
    None
}

/// Reads the count at which a section begins; none where there is no such section.
pub fn count_of(bytes: &[u8], section: Section) -> Option<u32> {
    let extent = section_extent(bytes, section)?;
    Reader::at(bytes, extent.start).number()
}

/// An import as it stands in the bytes.
#[derive(Clone, Copy, Debug, PartialEq, Eq)]
pub struct ImportEntry {
    /// The offset of the byte that says its kind.
    pub kind_offset: usize,
    /// That byte: 0 a function, 1 a table, 2 a memory, 3 a global.
    pub kind: u8,
}

/// Passes an import; none where it can't be read up to its kind.
pub fn pass_import(reader: &mut Reader<'_>) -> Option<ImportEntry> {
    reader.name()?;
    reader.name()?;
    let kind_offset = reader.offset();
    let kind = reader.byte()?;
    let passed = match kind {
        0 => reader.number().map(|_| ()),
        3 => reader.pass(2),
        _ => None,
    };
    if passed.is_none() {
        reader.pass_all();
    }
    Some(ImportEntry { kind_offset, kind })
}

/// The imports of a module's bytes, one after the other.
#[derive(Clone, Copy)]
pub struct Imports<'a> {
    reader: Reader<'a>,
    left: u32,
}

impl<'a> Imports<'a> {
    /// Begins at the first import.
    pub fn of(bytes: &'a [u8]) -> Imports<'a> {
        let start = match section_extent(bytes, Section::Import) {
            Some(extent) => extent.start,
            None => usize::MAX,
        };
        let mut reader = Reader::at(bytes, start);
        let left = reader.number().unwrap_or(0);
        Imports { reader, left }
    }

    /// Gives the next import; none after the last that can be read up to its kind.
    pub fn next(&mut self) -> Option<ImportEntry> {
        self.left = self.left.checked_sub(1)?;
        pass_import(&mut self.reader)
    }
}

/// Counts the functions that are imported.
pub fn imported_functions(bytes: &[u8]) -> u32 {
    let mut imports = Imports::of(bytes);
    let mut count = 0u32;
    for _ in 0..bytes.len() {
        let Some(entry) = imports.next() else {
            return count;
        };
        if entry.kind == 0 {
            count = count.saturating_add(1);
        }
    }
    count
}
