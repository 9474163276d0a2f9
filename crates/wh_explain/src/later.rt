//! The later parts of WebAssembly that refused bytes belong to.

use crate::reader::Reader;
use crate::section::Section;

/// Names the later part that a section's id belongs to which isn't one of version 1.0.
pub fn later_section(id: u8) -> Option<&'static str> {
    match id {
        12 => Some("bulk memory"),
        13 => Some("exceptions"),
        _ => None,
    }
}

/// Names the later part that an opcode of two parts belongs to, by the number after `0xfc`.
fn later_numbered(number: u32) -> Option<&'static str> {
    match number {
        0..=7 => Some("saturating conversions"),
        8 => Some("bulk memory (memory.init)"),
        9 => Some("bulk memory (data.drop)"),
        10 => Some("bulk memory (memory.copy)"),
        11 => Some("bulk memory (memory.fill)"),
        12 => Some("bulk memory (table.init)"),
        13 => Some("bulk memory (elem.drop)"),
        14 => Some("bulk memory (table.copy)"),
        15..=17 => Some("reference types"),
        _ => None,
    }
}

/// Names the later part that the opcode at an offset belongs to which isn't one of version 1.0.
fn later_instruction(bytes: &[u8], offset: usize) -> Option<&'static str> {
    let mut reader = Reader::at(bytes, offset);
    match reader.byte()? {
        0x06..=0x0a | 0x18 | 0x19 | 0x1f => Some("exceptions"),
        0x12 | 0x13 => Some("tail calls"),
        0x14 | 0x15 => Some("typed function references"),
        0x1c | 0x25 | 0x26 | 0xd0..=0xd6 => Some("reference types"),
        0xfb => Some("garbage collection"),
        0xfc => later_numbered(reader.number()?),
        0xfd => Some("SIMD"),
        0xfe => Some("threads"),
        _ => None,
    }
}

/// Names the later part that a type belongs to which isn't one of version 1.0.
fn later_type(byte: u8) -> Option<&'static str> {
    match byte {
        0x7b => Some("SIMD (the type v128)"),
        0x70 => Some("reference types (the type funcref)"),
        0x6f => Some("reference types (the type externref)"),
        0x69 => Some("exceptions (the type exnref)"),
        0x63 | 0x64 => Some("typed function references"),
        0x4e..=0x50 | 0x5e | 0x5f | 0x6a..=0x6e | 0x71..=0x73 => Some("garbage collection"),
        _ => None,
    }
}

/// Names the later part that the type of a table or the flags of its size belong to.
fn later_table(byte: u8) -> Option<&'static str> {
    match byte {
        0x04..=0x07 => Some("memory64 (a table of 64-bit indices)"),
        0x40 => Some("typed function references"),
        _ => later_type(byte),
    }
}

/// Names the later part that the flags of a memory's size belong to.
fn later_memory(flags: u8) -> Option<&'static str> {
    match flags {
        0x02 | 0x03 => Some("threads (a shared memory)"),
        0x04..=0x07 => Some("memory64 (a memory of 64-bit addresses)"),
        _ => None,
    }
}

/// Names the later part that the type of a block belongs to.
fn later_block(byte: u8) -> Option<&'static str> {
    match byte {
        0x00..=0x3f => Some("multi-value (a block of a function type)"),
        _ => later_type(byte),
    }
}

/// Names the later part that the byte at an offset belongs to, in the code of a function: in the instruction of this name, or
/// in one that has no name in version 1.0.
fn later_in_code(bytes: &[u8], offset: usize, opcode: Option<&str>) -> Option<&'static str> {
    match opcode {
        Some("block" | "loop" | "if") => later_block(*bytes.get(offset)?),
        Some("memory.size" | "memory.grow") => Some("multiple memories"),
        Some("call_indirect") => Some("reference types (a further table)"),
        _ => later_instruction(bytes, offset),
    }
}

/// Where in a section a byte stands.
#[derive(Clone, Copy)]
pub enum Spot {
    /// In the code of a function, in the instruction of this name or in one without a name.
    Instruction(Option<&'static str>),
    /// Among the locals of a function.
    Locals,
    /// In another section than that of code.
    Entry(Section),
}

/// Names the later part of WebAssembly that the byte at an offset belongs to which has no meaning there in version 1.0.
pub fn later_part(bytes: &[u8], offset: usize, spot: Spot) -> Option<&'static str> {
    let byte = *bytes.get(offset)?;
    match spot {
        Spot::Instruction(opcode) => later_in_code(bytes, offset, opcode),
        Spot::Entry(Section::Import | Section::Export) if byte == 4 => Some("exceptions (a tag)"),
        Spot::Locals | Spot::Entry(Section::Type | Section::Import) => later_type(byte),
        Spot::Entry(Section::Table) => later_table(byte),
        Spot::Entry(Section::Memory) => later_memory(byte),
        Spot::Entry(Section::Global) => {
            later_type(byte).or_else(|| later_instruction(bytes, offset))
        }
        Spot::Entry(Section::Element | Section::Data) => later_instruction(bytes, offset),
        Spot::Entry(_) => None,
    }
}

/// Names what a data segment is that begins with this number, and isn't one of version 1.0.
fn later_data(flag: u32) -> Option<&'static str> {
    match flag {
        1 => Some("a passive data segment, which belongs to bulk memory"),
        2 => Some("a data segment that names its memory, which belongs to bulk memory"),
        _ => None,
    }
}

/// Names what an element segment is that begins with this number, and isn't one of version 1.0.
fn later_element(flag: u32) -> Option<&'static str> {
    match flag {
        1 => Some("a passive element segment, which belongs to bulk memory"),
        2 => Some("an element segment that names its table, which belongs to bulk memory"),
        3 => Some("a declared element segment, which belongs to reference types"),
        4..=7 => Some("an element segment of expressions, which belongs to reference types"),
        _ => None,
    }
}

/// Names what a segment of a section is that begins with this number, and isn't one of version 1.0.
pub fn later_segment(section: Section, flag: u32) -> Option<&'static str> {
    match section {
        Section::Data => later_data(flag),
        Section::Element => later_element(flag),
        _ => None,
    }
}
