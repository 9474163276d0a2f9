//! What a line of a script is answered.

ghost use Rattle.std.specs.Prelude.{◌≡◌, ◌++◌, Some, OnOk, string_bytes};
ghost use Rattle.wh_script_model.specs.Texts.{place_text, refusal_text, reply_text};
ghost use Rattle.wh_replies.specs.View.{reply_place, why_of, reply_of};

use crate::call::Call;
use std::alloc::AllocError;
use std::fmt;

/// Where a fault of the validator lies.
#[derive(Clone, Copy, Debug, PartialEq, Eq)]
pub enum FaultPlace {
    /// In no function.
    Module,
    /// At an instruction of a function.
    Instr {
        /// The index of the function.
        func: u32,
        /// The place of the instruction.
        instr: u32,
    },
}

impl fmt::Display for FaultPlace {
    ghost output = { λ place. Some (place_text (reply_place place)) };

    fn fmt<W: fmt::Write>(&self, f: &mut fmt::Formatter<W>) -> fmt::Result {
        match *self {
            FaultPlace::Module => write!(f, "module"),
            FaultPlace::Instr { func, instr } => write!(f, "func {func} instr {instr}"),
        }
    }
}

/// Why a module isn't kept, by the numbers that replies show.
#[derive(Clone, Copy, Debug, PartialEq, Eq)]
pub enum ModuleRefusal {
    /// The decoder's fault.
    Broken {
        /// The number after the D.
        kind: u8,
        /// Where it lies in the bytes.
        offset: usize,
    },
    /// The validator's fault.
    Invalid {
        /// The number after the V.
        kind: u8,
        /// Where it lies.
        place: FaultPlace,
    },
    /// The linker's fault.
    Unlinked {
        /// The number after the L.
        kind: u8,
        /// The place of the import.
        import: usize,
    },
    /// No memory to link it: L3.
    NoLinkMemory,
    /// As many modules as may be are kept: M1.
    ModulesFull,
    /// No memory to keep it: M2.
    NoRoom,
}

impl fmt::Display for ModuleRefusal {
    ghost output = { λ why. Some (refusal_text (why_of why)) };

    fn fmt<W: fmt::Write>(&self, f: &mut fmt::Formatter<W>) -> fmt::Result {
        match *self {
            ModuleRefusal::Broken { kind, offset } => write!(f, "D{kind} at {offset}"),
            ModuleRefusal::Invalid { kind, place } => write!(f, "V{kind} {place}"),
            ModuleRefusal::Unlinked { kind, import } => write!(f, "L{kind} import {import}"),
            ModuleRefusal::NoLinkMemory => write!(f, "L3"),
            ModuleRefusal::ModulesFull => write!(f, "M1"),
            ModuleRefusal::NoRoom => write!(f, "M2"),
        }
    }
}

/// What a line is answered.
#[derive(Clone, Copy, PartialEq, Eq)]
pub enum Reply<'a> {
    /// A line that can't be obeyed.
    Error {
        /// The number after the C.
        cause: u8,
        /// The number of the line, from 1.
        line: u64,
    },
    /// The module is kept.
    ModuleOk {
        /// Its name.
        name: &'a str,
    },
    /// The module isn't kept.
    ModuleRefused {
        /// The name.
        name: &'a str,
        /// Why.
        why: ModuleRefusal,
    },
    /// The instance is admitted.
    AdmitOk {
        /// Its name.
        inst: &'a str,
        /// Its number.
        number: u64,
    },
    /// The instance isn't admitted.
    AdmitRefused {
        /// The name.
        inst: &'a str,
        /// The number after the A.
        fault: u8,
    },
    /// A `refuel` was obeyed.
    RefuelOk {
        /// The name of the instance.
        inst: &'a str,
    },
    /// A `refuel` was refused.
    RefuelRefused {
        /// The name of the instance.
        inst: &'a str,
        /// The number after the H.
        fault: u8,
    },
    /// A `cancel` was obeyed.
    CancelOk {
        /// The name of the instance.
        inst: &'a str,
    },
    /// A `cancel` was refused.
    CancelRefused {
        /// The name of the instance.
        inst: &'a str,
        /// The number after the H.
        fault: u8,
    },
    /// A `retry` was obeyed.
    RetryOk {
        /// The name of the instance.
        inst: &'a str,
    },
    /// A `retry` was refused.
    RetryRefused {
        /// The name of the instance.
        inst: &'a str,
        /// The number after the H.
        fault: u8,
    },
    /// A `scan` was done.
    ScanOk,
    /// A `release` was refused.
    ReleaseRefused {
        /// The name of the instance.
        inst: &'a str,
        /// The number after the H.
        fault: u8,
    },
    /// How far a call is.
    Call {
        /// The call.
        call: Call<'a>,
    },
}

impl fmt::Display for Reply<'_> {
    ghost output = { λ reply. Some (reply_text (reply_of reply)) };

    fn fmt<W: fmt::Write>(&self, f: &mut fmt::Formatter<W>) -> fmt::Result {
        match *self {
            Reply::Error { cause, line } => writeln!(f, "error C{cause} line {line}"),
            Reply::ModuleOk { name } => writeln!(f, "module {name} ok"),
            Reply::ModuleRefused { name, why } => writeln!(f, "module {name} refused {why}"),
            Reply::AdmitOk { inst, number } => writeln!(f, "admit {inst} ok {number}"),
            Reply::AdmitRefused { inst, fault } => writeln!(f, "admit {inst} refused A{fault}"),
            Reply::RefuelOk { inst } => writeln!(f, "refuel {inst} ok"),
            Reply::RefuelRefused { inst, fault } => writeln!(f, "refuel {inst} refused H{fault}"),
            Reply::CancelOk { inst } => writeln!(f, "cancel {inst} ok"),
            Reply::CancelRefused { inst, fault } => writeln!(f, "cancel {inst} refused H{fault}"),
            Reply::RetryOk { inst } => writeln!(f, "retry {inst} ok"),
            Reply::RetryRefused { inst, fault } => writeln!(f, "retry {inst} refused H{fault}"),
            Reply::ScanOk => writeln!(f, "scan ok"),
            Reply::ReleaseRefused { inst, fault } => writeln!(f, "release {inst} refused H{fault}"),
            Reply::Call { call } => writeln!(f, "{call}"),
        }
    }
}

/// Appends the text of a reply to a text.
///
/// # Errors
/// A growth of memory was refused; a beginning of the reply may have been appended.
pub fn write_reply(text: &mut String, reply: Reply<'_>) -> Result<(), AllocError>
    ensures { OnOk result
        (string_bytes text.new ≡ string_bytes text.old ++ reply_text (reply_of reply.entry)) }
{
    write!(text, "{reply}")
}
