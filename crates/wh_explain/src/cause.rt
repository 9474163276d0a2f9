//! Where a fault of a module lies, and what it is about.

use crate::detail::{Asked, Detail, LeftOut, Mismatch, TypeList, type_name};
use crate::entries::flagged_segment;
use crate::extents::{Imports, count_of, section_at};
use crate::inside::detail_inside;
use crate::later::{Spot, later_part, later_section, later_segment};
use crate::limit::Limit;
use crate::names::float_name;
use crate::operands::joined;
use crate::outside::{About, OutsideFault, outside_fault};
use crate::place::FaultLocation;
use crate::section::Section;
use std::alloc::{AllocError, Global};
use wh_decode::decode;
use wh_imports::LinkError;
use wh_load::LoadError;
use wh_model::{DecodeError, FaultKind, ValidKind};
use wh_syntax::{FuncType, ImportDesc, Module};
use wh_validate::ValidError;

/// Where a fault lies, and what it is about.
#[derive(Drop)]
pub struct Cause {
    /// Where it lies.
    pub place: FaultLocation,
    /// What it is about, beyond its kind.
    pub detail: Detail,
}

/// Writes the type that an import asks for, as `[i32] -> [i64]`, or `i32` of a global.
fn asked_type(alloc: Global, types: &[FuncType], desc: ImportDesc) -> Result<String, AllocError> {
    let index = match desc {
        ImportDesc::Global(t) => return Ok(String::from_str(alloc, type_name(Some(t)))?),
        ImportDesc::Func(index) => index,
    };
    let Some(func_type) = types.get(index as usize) else {
        return Ok(String::from_str(alloc, "a type that isn't there")?);
    };
    let params = joined(alloc, func_type.params.as_slice(), &[])?;
    let results = joined(alloc, func_type.results.as_slice(), &[])?;
    Ok(format!(in alloc; "{} -> {}", TypeList(&params), TypeList(&results))?)
}

/// Tells what the import at this place asks for.
fn asked_by(alloc: Global, module: &Module, index: usize) -> Result<Detail, AllocError> {
    let Some(import) = module.imports.get(index) else {
        return Ok(Detail::None);
    };
    Ok(Detail::Import(Asked {
        from: import.from.clone()?,
        name: import.name.clone()?,
        asked_type: asked_type(alloc, &module.types, import.desc)?,
    }))
}

/// Tells what an import is that the host doesn't offer.
fn about_import(alloc: Global, bytes: &[u8], index: usize) -> Result<Detail, AllocError> {
    match decode(alloc, bytes) {
        Ok(module) => asked_by(alloc, &module, index),
        Err(_) => Err(AllocError),
    }
}

/// Tells what a fault is about that is in no function.
fn detail_outside(
    alloc: Global,
    module: &Module,
    fault: OutsideFault,
) -> Result<Detail, AllocError> {
    match fault.about {
        About::Nothing => Ok(Detail::None),
        About::Limit(limit) => Ok(Detail::Limit(limit)),
        About::Unnamed(unnamed) => Ok(Detail::Unnamed(unnamed)),
        About::Name => match module.exports.get(fault.entry) {
            Some(export) => Ok(Detail::Export(export.name.clone()?)),
            None => Ok(Detail::None),
        },
        About::Types(wanted, found) => Ok(Detail::Types(Mismatch {
            wanted: Vec::from_slice(alloc, &[Some(wanted)])?,
            found: Vec::from_slice(alloc, &[Some(found)])?,
        })),
    }
}

/// Finds a fault of this kind that is in no function, where it is found here too.
fn cause_outside(
    alloc: Global,
    bytes: &[u8],
    module: &Module,
    kind: ValidKind,
) -> Result<Cause, AllocError> {
    match outside_fault(module) {
        Some(fault) if fault.kind == kind => Ok(Cause {
            place: FaultLocation::of_entry_of(bytes, fault.section, fault.entry),
            detail: detail_outside(alloc, module, fault)?,
        }),
        _ => Ok(Cause {
            place: FaultLocation::default(),
            detail: Detail::None,
        }),
    }
}

/// Finds where a fault of the validator lies, and what it is about.
fn cause_of_validity(alloc: Global, bytes: &[u8], error: ValidError) -> Result<Cause, AllocError> {
    let Ok(module) = decode(alloc, bytes) else {
        return Err(AllocError);
    };
    let ValidError { func, instr, kind } = error;
    match func {
        Some(function) => Ok(Cause {
            place: FaultLocation::of_instruction(bytes, function, instr),
            detail: detail_inside(alloc, &module, function, instr, kind)?,
        }),
        None => cause_outside(alloc, bytes, &module, kind),
    }
}

/// Finds which import is left out whose kind, or whose byte for writing, stands at an offset.
fn left_out(bytes: &[u8], offset: usize) -> LeftOut {
    let mut imports = Imports::of(bytes);
    for _ in 0..bytes.len() {
        match imports.next() {
            Some(entry) if entry.kind_offset == offset && entry.kind == 1 => return LeftOut::Table,
            Some(entry) if entry.kind_offset == offset => return LeftOut::Memory,
            Some(_) => {}
            None => return LeftOut::MutableGlobal,
        }
    }
    LeftOut::MutableGlobal
}

/// Tells where in its section a byte stands that has no meaning there; none where it stands in no section.
fn spot_of(place: FaultLocation) -> Option<Spot> {
    match (place.section?, place.instruction) {
        (Section::FaultCode, Some(_)) => Some(Spot::Instruction(place.opcode)),
        (Section::FaultCode, None) => Some(Spot::Locals),
        (section, _) => Some(Spot::Entry(section)),
    }
}

/// Tells which byte a fault is about.
fn about_byte(bytes: &[u8], fault: DecodeError, place: FaultLocation) -> Detail {
    let Some(byte) = bytes.get(fault.offset).copied() else {
        return Detail::None;
    };
    let is_section_id = match section_at(bytes, fault) {
        Some((_, extent)) => extent.head == fault.offset,
        None => false,
    };
    if is_section_id {
        return Detail::Byte(byte, later_section(byte));
    }
    let later = spot_of(place).and_then(|spot| later_part(bytes, fault.offset, spot));
    Detail::Byte(byte, later)
}

/// Tells what a fault of the decoder is about.
fn about_format(bytes: &[u8], fault: DecodeError, place: FaultLocation) -> Detail {
    match fault.kind {
        FaultKind::Limit => {
            Limit::of_fault(bytes, fault, place).map_or(Detail::None, Detail::Limit)
        }
        FaultKind::Float => match bytes.get(fault.offset) {
            Some(byte) => float_name(*byte).map_or(Detail::None, Detail::Float),
            None => Detail::None,
        },
        FaultKind::Unsupported => Detail::LeftOut(left_out(bytes, fault.offset)),
        FaultKind::CountMismatch => Detail::Counts(
            count_of(bytes, Section::Function).unwrap_or(0),
            count_of(bytes, Section::FaultCode).unwrap_or(0),
        ),
        FaultKind::Magic | FaultKind::Version | FaultKind::UnknownByte => {
            about_byte(bytes, fault, place)
        }
        _ => Detail::None,
    }
}

/// Finds that a fault of the decoder is in a segment of a later version, or after one in its section.
fn cause_in_segment(bytes: &[u8], fault: DecodeError, place: FaultLocation) -> Option<Cause> {
    let section = place.section?;
    if section != Section::Element && section != Section::Data {
        return None;
    }
    let segment = flagged_segment(bytes, section, fault.offset)?;
    Some(Cause {
        place: FaultLocation {
            entry: Some(segment.entry),
            ..place
        },
        detail: Detail::Segment(later_segment(section, segment.flag)?),
    })
}

/// Finds where a fault of the decoder lies, and what it is about.
fn cause_of_format(bytes: &[u8], fault: DecodeError) -> Cause {
    let place = FaultLocation::of_fault(bytes, fault);
    match cause_in_segment(bytes, fault, place) {
        Some(cause) => cause,
        None => Cause {
            place,
            detail: about_format(bytes, fault, place),
        },
    }
}

/// Finds where in the bytes a fault lies, and what it is about.
///
/// # Errors
/// Where a growth of memory is refused.
pub fn cause_of(alloc: Global, bytes: &[u8], error: LoadError) -> Result<Cause, AllocError> {
    match error {
        LoadError::Decode(fault) => Ok(cause_of_format(bytes, fault)),
        LoadError::Valid(error) => cause_of_validity(alloc, bytes, error),
        LoadError::Link(LinkError::NoItem(_, index)) => Ok(Cause {
            place: FaultLocation::of_entry_of(bytes, Section::Import, index),
            detail: about_import(alloc, bytes, index)?,
        }),
        LoadError::Link(LinkError::Memory) => Ok(Cause {
            place: FaultLocation::default(),
            detail: Detail::None,
        }),
    }
}
