//! Where in a module's bytes a fault lies.

use crate::entries::entry_offset;
use crate::extents::{Extent, imported_functions, pass_sized, section_at, section_extent, up_to};
use crate::names::instruction_name;
use crate::reader::Reader;
use crate::section::Section;
use crate::walk::{Step, Walk};
use std::fmt;
use wh_model::{DecodeError, FaultKind};

/// Where in a module's bytes a fault lies, as far as that can be said.
#[derive(Clone, Copy, Debug, Default, PartialEq, Eq)]
pub struct FaultLocation {
    /// The section.
    pub section: Option<Section>,
    /// The place among the section's entries, from 0, of a type, an import, a global, an export, a segment and such.
    pub entry: Option<u32>,
    /// The function in whose entry of the code section it lies. Imported functions count first.
    pub function: Option<u32>,
    /// The instruction of the function, where opcodes count from 0, `else` and `end` included.
    pub instruction: Option<u32>,
    /// The name of that instruction, where the byte that stands there has one.
    pub opcode: Option<&'static str>,
    /// The offset of the byte. At the end of the input it is the number of bytes.
    pub offset: Option<usize>,
}

/// What of a function's body an offset lies in.
#[derive(Clone, Copy)]
enum Part {
    /// Its locals.
    Locals,
    /// This instruction, or the one that is wanted where the bytes end.
    Instruction(Step),
    /// What stands after its last `end`.
    Behind,
}

/// Finds what of the body that begins at `start` an offset lies in. The bytes end where the body does.
fn part_at(window: &[u8], start: usize, offset: usize) -> Part {
    let Some(mut walk) = Walk::behind_locals(window, start) else {
        return Part::Locals;
    };
    if offset < walk.offset() {
        return Part::Locals;
    }
    for _ in 0..=window.len() {
        match walk.next() {
            Some(step) if offset < step.end => return Part::Instruction(step),
            Some(_) => {}
            None => return Part::Behind,
        }
    }
    Part::Behind
}

/// Names the instruction whose opcode stands at an offset.
fn name_at(bytes: &[u8], offset: usize) -> Option<&'static str> {
    instruction_name(*bytes.get(offset)?)
}

impl FaultLocation {
    /// Is the place of an instruction of a function.
    fn of_step(bytes: &[u8], function: u32, step: Step, offset: usize) -> FaultLocation {
        FaultLocation {
            section: Some(Section::FaultCode),
            entry: None,
            function: Some(function),
            instruction: Some(step.number),
            opcode: name_at(bytes, step.offset),
            offset: Some(offset),
        }
    }

    /// Is a place in the entry of a function, but in none of its instructions.
    fn of_entry(function: u32, offset: usize) -> FaultLocation {
        FaultLocation {
            section: Some(Section::FaultCode),
            function: Some(function),
            offset: Some(offset),
            ..FaultLocation::default()
        }
    }

    /// Finds where a fault of the decoder lies, by its offset.
    pub fn of_fault(bytes: &[u8], fault: DecodeError) -> FaultLocation {
        let Some((id, extent)) = section_at(bytes, fault) else {
            return FaultLocation::of_offset(None, fault.offset);
        };
        let section = Section::of_id(id);
        if section == Some(Section::FaultCode)
            && let Some(place) = place_in_code(bytes, extent, fault)
        {
            return place;
        }
        FaultLocation::of_offset(section, fault.offset)
    }

    /// Returns the location of a byte in a section, or in none, and in no function.
    pub fn of_offset(section: Option<Section>, offset: usize) -> FaultLocation {
        FaultLocation {
            section,
            offset: Some(offset),
            ..FaultLocation::default()
        }
    }

    /// Finds where an entry of a section stands, by its place among them. The start section has no entries.
    pub fn of_entry_of(bytes: &[u8], section: Section, entry: usize) -> FaultLocation {
        let entry = u32::try_from(entry).unwrap_or(u32::MAX);
        FaultLocation {
            section: Some(section),
            entry: if section == Section::Start {
                None
            } else {
                Some(entry)
            },
            offset: entry_offset(bytes, section, entry),
            ..FaultLocation::default()
        }
    }

    /// Finds where an instruction of a function stands.
    pub fn of_instruction(bytes: &[u8], function: u32, instruction: u32) -> FaultLocation {
        match step_numbered(bytes, function, instruction) {
            Some(step) => FaultLocation::of_step(bytes, function, step, step.offset),
            None => FaultLocation {
                section: Some(Section::FaultCode),
                function: Some(function),
                instruction: Some(instruction),
                ..FaultLocation::default()
            },
        }
    }
}

/// Finds the function and the instruction in which a fault of the code section lies; none where it lies in no function.
fn place_in_code(bytes: &[u8], code: Extent, fault: DecodeError) -> Option<FaultLocation> {
    let imported = imported_functions(bytes);
    let mut reader = Reader::at(up_to(bytes, code.end), code.start);
    for at in 0..reader.number()? {
        let head = reader.offset();
        if fault.offset < head {
            return None;
        }
        let body = pass_sized(&mut reader, head);
        if body.holds(fault)
            && let Some(place) = place_in_body(bytes, body, imported.saturating_add(at), fault)
        {
            return Some(place);
        }
    }
    None
}

/// Finds the instruction in which a fault of a body lies; none where it lies at the body's end, and the body is whole.
fn place_in_body(
    bytes: &[u8],
    body: Extent,
    function: u32,
    fault: DecodeError,
) -> Option<FaultLocation> {
    let window = up_to(bytes, body.end);
    match part_at(window, body.start, fault.offset) {
        Part::Instruction(step) => Some(FaultLocation::of_step(
            window,
            function,
            step,
            fault.offset,
        )),
        Part::Behind if fault.offset == body.end && fault.kind == FaultKind::SectionSize => None,
        _ => Some(FaultLocation::of_entry(function, fault.offset)),
    }
}

/// Finds an instruction by its number in a function.
fn step_numbered(bytes: &[u8], function: u32, instruction: u32) -> Option<Step> {
    let code = section_extent(bytes, Section::FaultCode)?;
    let at = function.checked_sub(imported_functions(bytes))?;
    let mut reader = Reader::at(up_to(bytes, code.end), code.start);
    reader.number()?;
    for _ in 0..at {
        let head = reader.offset();
        pass_sized(&mut reader, head);
    }
    reader.number()?;
    let mut walk = Walk::behind_locals(bytes, reader.offset())?;
    for _ in 0..instruction {
        walk.next()?;
    }
    walk.next()
}

impl fmt::Display for FaultLocation {
    fn fmt<W: fmt::Write>(&self, f: &mut fmt::Formatter<W>) -> fmt::Result {
        match (self.section, self.offset) {
            (Some(section), _) => write!(f, "the {section} section")?,
            (None, Some(_)) => f.write_str("no section")?,
            (None, None) => f.write_str("the module as a whole")?,
        }
        if let Some(entry) = self.entry {
            write!(f, ", entry {entry}")?;
        }
        if let Some(function) = self.function {
            write!(f, ", function {function}")?;
        }
        if let Some(instruction) = self.instruction {
            write!(f, ", instruction {instruction}")?;
        }
        if let Some(name) = self.opcode {
            write!(f, " ({name})")?;
        }
        match self.offset {
            Some(offset) => write!(f, ", byte {offset}"),
            None => Ok(()),
        }
    }
}
