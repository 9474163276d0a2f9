//! Whether a module is accepted, and why it isn't.

ghost use Rattle.std.specs.Prelude.{◌≡◌, IfOk, IfNone, IfSome, MatchOption};
ghost use Rattle.std.specs.Bool.{MatchBool};
ghost use Rattle.wh_model.specs.Format.Syntax as model;
ghost use Rattle.wh_model.specs.Linking.Accepting.{IsAccepted};
ghost use Rattle.wh_load.specs.Refusing.{RefusesBytes};
ghost use Rattle.wh_explain.specs.ModuleVerdicts.{IsWantOfMemory, IsFaultOf};

use crate::advice::advice_of;
use crate::cause::{Cause, cause_of};
use crate::detail::Detail;
use crate::function_names::function_name;
use crate::limit::Limit;
use crate::place::FaultLocation;
use std::alloc::{AllocError, Global};
use std::fmt;
use wh_imports::LinkError;
use wh_load::{LoadError, load};
use wh_model::{FaultKind, ValidKind};

/// Why the host refuses a module.
#[derive(Debug, Drop)]
pub struct Refusal {
    /// What the host answers.
    pub error: LoadError,
    /// Where that lies.
    pub place: FaultLocation,
    /// The name of the function in which it lies, where the bytes have one.
    pub function_name: Option<String>,
    /// What it is about, beyond its kind.
    pub detail: Detail,
}

/// Whether the host accepts a module.
#[derive(Debug, Drop)]
pub struct ModuleVerdict {
    /// Why it refuses the module; none where it accepts it.
    pub refusal: Option<Refusal>,
}

/// The letter and the number by which replies name a fault, as `D9`.
#[derive(Clone, Copy)]
pub struct FaultCode(pub LoadError);

impl fmt::Display for FaultCode {
    fn fmt<W: fmt::Write>(&self, f: &mut fmt::Formatter<W>) -> fmt::Result {
        match self.0 {
            LoadError::Decode(fault) => write!(f, "D{}", fault.kind.number()),
            LoadError::Valid(error) => write!(f, "V{}", error.kind.number()),
            LoadError::Link(LinkError::NoItem(fault, _)) => write!(f, "L{}", fault.number()),
            LoadError::Link(LinkError::Memory) => f.write_str("L3"),
        }
    }
}

/// The name of a fault, as `Float`.
#[derive(Clone, Copy)]
pub struct Name(pub LoadError);

impl fmt::Display for Name {
    fn fmt<W: fmt::Write>(&self, f: &mut fmt::Formatter<W>) -> fmt::Result {
        match self.0 {
            LoadError::Decode(fault) => write!(f, "{:?}", fault.kind),
            LoadError::Valid(error) => write!(f, "{:?}", error.kind),
            LoadError::Link(LinkError::NoItem(fault, _)) => write!(f, "{fault:?}"),
            LoadError::Link(LinkError::Memory) => f.write_str("Memory"),
        }
    }
}

/// What the host answers where it refuses the bytes.
fn error_of(alloc: Global, bytes: &[u8]) -> Option<LoadError>
    ensures none { IfNone result ((m : model.Module) × IsAccepted bytes.now m) }
    ensures some { IfSome result (RefusesBytes bytes.now) }
{
    match load(alloc, bytes) {
        Ok(_) => None,
        Err(error) => Some(error),
    }
}

/// Whether there was no memory to look.
fn is_want_of_memory(error: LoadError) -> bool
    ensures { MatchBool result (IsWantOfMemory error) (¬ (IsWantOfMemory error)) }
{
    match error {
        LoadError::Decode(fault) => fault.kind == FaultKind::Memory,
        LoadError::Valid(error) => error.kind == ValidKind::Memory,
        LoadError::Link(LinkError::NoItem(_, _)) => false,
        LoadError::Link(LinkError::Memory) => true,
    }
}

/// Finds the name of the function of a place.
fn name_of(
    alloc: Global,
    bytes: &[u8],
    place: FaultLocation,
) -> Result<Option<String>, AllocError> {
    let Some(function) = place.function else {
        return Ok(None);
    };
    match function_name(bytes, function) {
        Some(name) => Ok(Some(String::from_str(alloc, name)?)),
        None => Ok(None),
    }
}

/// Tells all that is to be said of a fault.
fn refusal_by(alloc: Global, bytes: &[u8], error: LoadError) -> Result<Refusal, AllocError>
    ensures { IfOk result (λ refusal. refusal.error ≡ error) }
{
    let Cause { place, detail } = cause_of(alloc, bytes, error)?;
    Ok(Refusal {
        error,
        place,
        function_name: name_of(alloc, bytes, place)?,
        detail,
    })
}

/// Tells whether the host accepts the bytes as a module, and if not, why: which fault it names, where that lies, and what it
/// is about.
///
/// # Errors
/// Where a growth of memory is refused, in the host's own look at the bytes too.
pub fn explain_module(alloc: Global, bytes: &[u8]) -> Result<ModuleVerdict, AllocError>
    // Without a refusal the host accepts the bytes; else the bytes have the fault that is named.
    ensures verdict { IfOk result (λ verdict. MatchOption verdict.refusal
        ((m : model.Module) × IsAccepted bytes.now m)
        (λ refusal. IsFaultOf bytes.now refusal.error)) }
{
    let Some(error) = error_of(alloc, bytes) else {
        return Ok(ModuleVerdict { refusal: None });
    };
    if is_want_of_memory(error) {
        return Err(AllocError);
    }
    let refusal = refusal_by(alloc, bytes, error)?;
    Ok(ModuleVerdict {
        refusal: Some(refusal),
    })
}

impl Refusal {
    /// Gives the limit that the module passes, if that is the fault.
    pub fn limit(&self) -> Option<Limit> {
        match self.detail {
            Detail::Limit(limit) => Some(limit),
            _ => None,
        }
    }

    /// Says what to do about it.
    pub fn advice(&self) -> &'static str {
        advice_of(self.error, &self.detail)
    }

    /// Writes what the kind of fault is.
    fn write_kind<W: fmt::Write>(&self, f: &mut fmt::Formatter<W>) -> fmt::Result {
        match self.error {
            _ if matches!(self.detail, Detail::Segment(_)) => {
                f.write_str("this isn't of WebAssembly 1.0")
            }
            LoadError::Decode(fault) => write!(f, "{}", fault.kind),
            LoadError::Valid(_) if self.limit().is_some_and(|limit| limit.is_rule()) => {
                f.write_str("a rule of WebAssembly 1.0 is broken")
            }
            LoadError::Valid(error) => write!(f, "{}", error.kind),
            LoadError::Link(LinkError::NoItem(fault, _)) => write!(f, "{fault}"),
            LoadError::Link(LinkError::Memory) => write!(f, "{}", LinkError::Memory),
        }
    }
}

impl fmt::Display for Refusal {
    fn fmt<W: fmt::Write>(&self, f: &mut fmt::Formatter<W>) -> fmt::Result {
        self.write_kind(f)?;
        match &self.detail {
            Detail::None => Ok(()),
            detail => write!(f, ": {detail}"),
        }
    }
}
