//! What is wrong with a module: with its bytes, with what they spell, or with what it imports.

ghost use Rattle.std.specs.Prelude.{◌≡◌};
ghost use Rattle.wh_model.specs.Format.Numbering.{fault_number, valid_number, import_number};
ghost use Rattle.wh_model.specs.declared.faults.ValidKind.TheVariants.{Memory as NoRoom};

use std::alloc::AllocFailed;
use thiserror::Error;

/// What is wrong with the bytes of a module. The standard says only which bytes are a module; these kinds, and
/// which byte each is found at, are this project's own (`docs/definitions.md`, "Faults").
#[derive(Clone, Copy, Debug, PartialEq, Eq, Error)]
pub enum FaultKind {
    /// One of the first four bytes isn't that of `00 61 73 6D`.
    #[error("the module doesn't begin with the magic bytes")]
    Magic,
    /// One of the second four bytes isn't that of `01 00 00 00`.
    #[error("the version isn't 1")]
    Version,
    /// The input ends where a byte must stand.
    #[error("the input ends too early")]
    Truncated,
    /// A section's id is repeated, or doesn't rise.
    #[error("the section is repeated or out of order")]
    SectionOrder,
    /// The contents of a section or of a code entry end before its declared end, or would pass it.
    #[error("the contents don't fill the declared size")]
    SectionSize,
    /// The last byte that a LEB128 number may have continues, or has wrong unused bits.
    #[error("the number has too many bits")]
    Leb,
    /// A name isn't UTF-8.
    #[error("the name isn't UTF-8")]
    Utf8,
    /// A byte that has no meaning where it is.
    #[error("the byte has no meaning here")]
    UnknownByte,
    /// A floating-point type or opcode, which this host leaves out.
    #[error("floating point is left out")]
    Float,
    /// A part of the standard that this host leaves out, or that isn't there yet.
    #[error("this part of the standard is left out")]
    Unsupported,
    /// A limit of this host is passed.
    #[error("a limit of this host is passed")]
    Limit,
    /// There aren't as many code entries as functions.
    #[error("there aren't as many code entries as functions")]
    CountMismatch,
    /// A growth of memory was refused.
    #[error("a growth of memory was refused")]
    Memory,
}

impl FaultKind {
    /// Returns the number by which replies name the kind, 1 to 13.
    pub fn number(self) -> u8
        ensures { result ≡ fault_number self }
    {
        match self {
            FaultKind::Magic => 1,
            FaultKind::Version => 2,
            FaultKind::Truncated => 3,
            FaultKind::SectionOrder => 4,
            FaultKind::SectionSize => 5,
            FaultKind::Leb => 6,
            FaultKind::Utf8 => 7,
            FaultKind::UnknownByte => 8,
            FaultKind::Float => 9,
            FaultKind::Unsupported => 10,
            FaultKind::Limit => 11,
            FaultKind::CountMismatch => 12,
            FaultKind::Memory => 13,
        }
    }
}

/// A fault of the binary format, and the offset of the byte that it is found at.
#[derive(Clone, Copy, Debug, PartialEq, Eq, Error)]
#[error("{kind} at byte {offset}")]
pub struct DecodeError {
    /// What is wrong.
    pub kind: FaultKind,
    /// The offset in the module's bytes. At the end of the input it is their number.
    pub offset: usize,
}

/// Why a module isn't valid (section 3 of the standard), or passes a limit of this host (section 7.2). The standard
/// says only which modules are valid; these kinds, and which of them is named, are this project's own.
#[derive(Clone, Copy, Debug, PartialEq, Eq, Error)]
pub enum ValidKind {
    /// An operand, a result, a local, a label of a `br_table` or a constant has another type than it must have.
    #[error("the type is another one than it must be")]
    BadType,
    /// A type, function, table, memory, global, local or label that isn't there.
    #[error("the index names nothing")]
    Index,
    /// An access is aligned to more bytes than it has.
    #[error("the alignment is above the access width")]
    Align,
    /// An operand is missing, or operands are left at an `else` or an `end`.
    #[error("an operand is missing or left over")]
    Arity,
    /// An expression that must be constant isn't.
    #[error("the expression isn't constant")]
    Const,
    /// Two exports have one name.
    #[error("two exports have one name")]
    DuplicateExport,
    /// The start function takes or gives something.
    #[error("the start function has parameters or results")]
    Start,
    /// A limit on sizes, on results or on locals is passed.
    #[error("a limit of this host is passed")]
    Limits,
    /// There are more than 256 operands.
    #[error("there are more than 256 operands")]
    Height,
    /// A global that keeps its first value is written.
    #[error("the global is immutable")]
    ConstImmutable,
    /// A growth of memory was refused.
    #[error("a growth of memory was refused")]
    Memory,
}

impl ValidKind {
    /// Returns the number by which replies name the kind, 1 to 11.
    pub fn number(self) -> u8
        ensures { result ≡ valid_number self }
    {
        match self {
            ValidKind::BadType => 1,
            ValidKind::Index => 2,
            ValidKind::Align => 3,
            ValidKind::Arity => 4,
            ValidKind::Const => 5,
            ValidKind::DuplicateExport => 6,
            ValidKind::Start => 7,
            ValidKind::Limits => 8,
            ValidKind::Height => 9,
            ValidKind::ConstImmutable => 10,
            ValidKind::Memory => 11,
        }
    }
}

// A growth that was refused.
impl<T: Drop> From<AllocFailed<T>> for ValidKind {
    ghost from_gives = { λ failed kind. kind ≡ NoRoom };

    fn from(_failed: AllocFailed<T>) -> ValidKind {
        ValidKind::Memory
    }
}

/// Why an import has no item of the host (4.5.4, steps 2 to 4). The standard leaves to the host what it offers.
#[derive(Clone, Copy, Debug, PartialEq, Eq, Error)]
pub enum ImportFault {
    /// The host has nothing of its module name and name.
    #[error("the host has nothing of its name")]
    UnknownImport,
    /// What the host has of these names is of another kind or type.
    #[error("the host has another kind or type than it asks for")]
    ImportType,
}

impl ImportFault {
    /// Returns the number by which replies name the fault, 1 or 2.
    pub fn number(self) -> u8
        ensures { result ≡ import_number self }
    {
        match self {
            ImportFault::UnknownImport => 1,
            ImportFault::ImportType => 2,
        }
    }
}
