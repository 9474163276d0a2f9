//! Where the entries of a section stand in the bytes of a module, as far as they can be read.

use crate::extents::{pass_import, section_extent, up_to};
use crate::reader::Reader;
use crate::section::Section;
use crate::walk::pass_expression;

/// Passes a function type (5.3.3).
fn pass_type(reader: &mut Reader<'_>) -> Option<()> {
    reader.pass(1)?;
    reader.name()?;
    reader.name().map(|_| ())
}

/// Passes a least size, and a greatest one if there is one (5.3.4).
fn pass_limits(reader: &mut Reader<'_>) -> Option<()> {
    let flags = reader.byte()?;
    reader.number()?;
    if flags == 1 {
        reader.number()?;
    }
    Some(())
}

/// Passes an element segment (5.5.12).
fn pass_element(reader: &mut Reader<'_>) -> Option<()> {
    reader.number()?;
    pass_expression(reader)?;
    for _ in 0..reader.number()? {
        reader.number()?;
    }
    Some(())
}

/// Passes an export (5.5.10).
fn pass_export(reader: &mut Reader<'_>) -> Option<()> {
    reader.name()?;
    reader.pass(1)?;
    reader.number().map(|_| ())
}

/// Passes an entry of a section; none where it can't be read to its end.
fn pass_entry(reader: &mut Reader<'_>, section: Section) -> Option<()> {
    match section {
        Section::Type => pass_type(reader),
        Section::Import => pass_import(reader).map(|_| ()),
        Section::Function => reader.number().map(|_| ()),
        Section::Table => {
            reader.pass(1)?;
            pass_limits(reader)
        }
        Section::Memory => pass_limits(reader),
        Section::Global => {
            reader.pass(2)?;
            pass_expression(reader)
        }
        Section::Export => pass_export(reader),
        Section::Element => pass_element(reader),
        Section::Data => {
            reader.number()?;
            pass_expression(reader)?;
            reader.name().map(|_| ())
        }
        Section::Custom | Section::Start | Section::FaultCode => None,
    }
}

/// Finds the offset of an entry of a section, by its place among them.
pub fn entry_offset(bytes: &[u8], section: Section, entry: u32) -> Option<usize> {
    let extent = section_extent(bytes, section)?;
    let mut reader = Reader::at(up_to(bytes, extent.end), extent.start);
    if section == Section::Start {
        return Some(reader.offset());
    }
    if entry >= reader.number()? {
        return None;
    }
    for _ in 0..entry {
        pass_entry(&mut reader, section)?;
    }
    Some(reader.offset())
}

/// A segment that doesn't begin with 0, as all do that name the first table or memory.
#[derive(Clone, Copy)]
pub struct FlaggedSegment {
    /// Its place among those of its section.
    pub entry: u32,
    /// The number with which it begins.
    pub flag: u32,
}

/// Finds the first segment of a section that doesn't begin with 0; none where it begins after an offset.
pub fn flagged_segment(bytes: &[u8], section: Section, offset: usize) -> Option<FlaggedSegment> {
    let extent = section_extent(bytes, section)?;
    let mut reader = Reader::at(up_to(bytes, extent.end), extent.start);
    for entry in 0..reader.number()? {
        if offset < reader.offset() {
            return None;
        }
        let mut ahead = reader;
        let flag = ahead.number()?;
        if flag != 0 {
            return Some(FlaggedSegment { entry, flag });
        }
        pass_entry(&mut reader, section)?;
    }
    None
}
