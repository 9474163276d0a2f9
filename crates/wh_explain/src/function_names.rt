//! The names of functions, where the bytes of a module have them.

use crate::extents::{custom_section, section_extent};
use crate::reader::Reader;
use crate::section::Section;

/// The part of the custom section `name` that names functions.
const FUNCTIONS: u8 = 1;

/// Finds the name of a function in the custom section `name`, which compilers write for tools.
fn in_name_section(bytes: &[u8], function: u32) -> Option<&[u8]> {
    let mut reader = custom_section(bytes, b"name")?;
    for _ in 0..bytes.len() {
        let part = reader.byte()?;
        let size = reader.number()? as usize;
        if part == FUNCTIONS {
            break;
        }
        reader.pass(size)?;
    }
    for _ in 0..reader.number()? {
        let index = reader.number()?;
        let name = reader.name()?;
        if index == function {
            return Some(name);
        }
    }
    None
}

/// Finds a name by which a function is exported.
fn in_exports(bytes: &[u8], function: u32) -> Option<&[u8]> {
    let extent = section_extent(bytes, Section::Export)?;
    let mut reader = Reader::at(bytes, extent.start);
    for _ in 0..reader.number()? {
        let name = reader.name()?;
        let kind = reader.byte()?;
        let index = reader.number()?;
        if kind == 0 && index == function {
            return Some(name);
        }
    }
    None
}

/// Finds the name of a function: that which a compiler wrote, or one by which the function is exported.
pub fn function_name(bytes: &[u8], function: u32) -> Option<&str> {
    let name = in_name_section(bytes, function).or_else(|| in_exports(bytes, function))?;
    str::from_utf8(name).ok()
}
