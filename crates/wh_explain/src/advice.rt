//! What a person can do about a fault of a module.

use crate::detail::{Asked, Detail};
use crate::limit::Limit;
use wh_load::LoadError;
use wh_model::{FaultKind, ValidKind};

const WRITTEN_WRONG: &str =
    "A compiler doesn't write this: build the module again, and mend the tool that made or changed it.";

const OFFERED: &str =
    "Import what the host offers alone: host.input [i32] -> [i64], host.put [i64] -> [], host.emit [i32 i32] -> [], and the constant globals host.base i32 and host.salt i64.";

/// Says what to do about a limit.
fn about_limit(limit: Limit) -> &'static str {
    match limit {
        Limit::Bytes => {
            "Strip custom sections and names, by the linker's -Wl,--strip-all or by wasm-strip; if it is still too large, compile with -Os, or split it."
        }
        Limit::Instructions | Limit::Locals | Limit::ParametersAndLocals | Limit::Operands => {
            "Split the function into several, and compile it with -O1 or more."
        }
        Limit::Nesting => "Split the function into several: a large switch nests a block a case.",
        Limit::Labels => "Split the switch, or look its cases up in a table in memory.",
        Limit::Parameters => "Pass the address of a struct in place of so many parameters.",
        Limit::Results =>
            "Compile without multi-value, which this host leaves out: -mno-multivalue.",
        Limit::Types | Limit::Imports | Limit::Functions | Limit::Globals => {
            "Leave out what isn't called, by -Wl,--gc-sections, or split the module."
        }
        Limit::Exports => "Export what the owner calls alone, without -Wl,--export-all.",
        Limit::Elements | Limit::Segments =>
            "Let the linker join the segments, or split the module.",
        Limit::Tables | Limit::Memories => "Let the module have one table and one memory at most.",
        Limit::Entries => "Take the addresses of fewer functions.",
        Limit::Pages => "Let the memory have 65536 pages at most, by -Wl,--max-memory.",
        Limit::Least => "Let the least size be no more than the greatest one.",
    }
}

/// Says what to do about a fault of the format.
fn about_format(kind: FaultKind) -> &'static str {
    match kind {
        FaultKind::Magic => {
            "Give a binary module, which begins with 00 61 73 6d; a text module has to be assembled first, as by wat2wasm."
        }
        FaultKind::Version => {
            "Give a core module of version 1, with 01 00 00 00 behind the magic bytes; a component is none."
        }
        FaultKind::Truncated => "The file isn't whole: build or copy it again.",
        FaultKind::SectionOrder => {
            "Sections stand once each, in the order type, import, function, table, memory, global, export, start, element, code, data, and custom ones anywhere: mend the tool that wrote them."
        }
        FaultKind::SectionSize => {
            "A size isn't that of its contents: build the module again, and mend the tool that made or changed it."
        }
        FaultKind::Utf8 => "Give the import, the export or the custom section a name in UTF-8.",
        FaultKind::UnknownByte => {
            "Compile for WebAssembly 1.0, with the sign extensions of 2.0 at most: -mcpu=mvp -msign-ext."
        }
        FaultKind::Float => {
            "Compute with integers: no float or double may be left, in libraries that are linked in either."
        }
        FaultKind::Unsupported => {
            "Let the module define its own table and memory, and import constant globals alone: link without --import-memory and --import-table."
        }
        FaultKind::CountMismatch => {
            "Each function of the function section has one entry in the code section: mend the tool that wrote them."
        }
        FaultKind::Leb | FaultKind::Limit | FaultKind::Memory => WRITTEN_WRONG,
    }
}

/// Says what to do about a fault of the validator.
fn about_validity(kind: ValidKind) -> &'static str {
    match kind {
        ValidKind::Const => {
            "Let a global begin with a constant or an imported global, and a segment at a constant or a constant global."
        }
        ValidKind::DuplicateExport => "Export each name once.",
        ValidKind::Start => "Let the start function take nothing and give nothing.",
        ValidKind::ConstImmutable =>
            "Declare the global as one that may be written, or don't write it.",
        _ => WRITTEN_WRONG,
    }
}

/// Says what to do about an import that the host doesn't offer. Linkers import from `env` what is defined nowhere.
fn about_import(asked: &Asked) -> &'static str {
    match asked.from.as_str() {
        "wasi_snapshot_preview1" | "wasi_unstable" => {
            "There is no WASI here: docs/guide/compiling-libc.md says how C is built without it, compiling-cpp.md C++, and compiling-rust.md Rust."
        }
        "env" => {
            "Define it in the module, or link a library that does: docs/guide/compiling-c.md and compiling-libc.md say how."
        }
        _ => OFFERED,
    }
}

/// Says what to do about a fault of a module, which is about this.
pub fn advice_of(error: LoadError, detail: &Detail) -> &'static str {
    match detail {
        Detail::Limit(limit) => return about_limit(*limit),
        Detail::Segment(_) => return about_format(FaultKind::UnknownByte),
        Detail::Import(asked) => return about_import(asked),
        _ => {}
    }
    match error {
        LoadError::Decode(fault) => about_format(fault.kind),
        LoadError::Valid(error) => about_validity(error.kind),
        LoadError::Link(_) => OFFERED,
    }
}
