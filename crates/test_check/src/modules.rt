//! Modules, and what is said of each.

use anyhow::{Result, ensure};
use std::alloc::Global;
use wh_explain::{FaultCode, Name, Refusal, explain_module};

// Modules written by hand, each with the fault, what is wrong, and where.
const MODULES: [(&[u8], &str); 51] = [
    // An empty module.
    (b"\x00asm\x01\x00\x00\x00", "accepted"),
    // Another magic byte.
    (
        b"\x00asn\x01\x00\x00\x00",
        "D1 Magic; the module doesn't begin with the magic bytes: 0x6e; no section, byte 3",
    ),
    // Another version.
    (
        b"\x00asm\x02\x00\x00\x00",
        "D2 Version; the version isn't 1: 0x02; no section, byte 4",
    ),
    // An end in the magic bytes.
    (
        b"\x00as",
        "D3 Truncated; the input ends too early; no section, byte 3",
    ),
    // An end in the types.
    (
        b"\x00asm\x01\x00\x00\x00\x01\x05\x01",
        "D3 Truncated; the input ends too early; the type section, byte 11",
    ),
    // Types after functions.
    (
        b"\x00asm\x01\x00\x00\x00\x03\x01\x00\x01\x01\x00",
        "D4 SectionOrder; the section is repeated or out of order; the type section, byte 11",
    ),
    // Types that end before their section.
    (
        b"\x00asm\x01\x00\x00\x00\x01\x02\x00\x00",
        "D5 SectionSize; the contents don't fill the declared size; the type section, byte 11",
    ),
    // Types that would pass their section.
    (
        b"\x00asm\x01\x00\x00\x00\x01\x01\x01\x03\x01\x00",
        "D5 SectionSize; the contents don't fill the declared size; the type section, byte 11",
    ),
    // An instruction that would pass its body.
    (
        b"\x00asm\x01\x00\x00\x00\x01\x04\x01`\x00\x00\x03\x02\x01\x00\x0A\x05\x01\x03\x00\x00A\x00",
        "D5 SectionSize; the contents don't fill the declared size; the code section, function 0, instruction 1 (i32.const), byte 25",
    ),
    // A body that isn't there.
    (
        b"\x00asm\x01\x00\x00\x00\x01\x04\x01`\x00\x00\x03\x03\x02\x00\x00\x0A\x04\x02\x02\x00\x0B",
        "D5 SectionSize; the contents don't fill the declared size; the code section, function 1, byte 25",
    ),
    // Bytes after a body's end.
    (
        b"\x00asm\x01\x00\x00\x00\x01\x04\x01`\x00\x00\x03\x02\x01\x00\x0A\x05\x01\x03\x00\x0B\x01",
        "D5 SectionSize; the contents don't fill the declared size; the code section, function 0, byte 24",
    ),
    // A count of too many bits.
    (
        b"\x00asm\x01\x00\x00\x00\x01\x06\x80\x80\x80\x80\x10\x00",
        "D6 Leb; the number has too many bits; the type section, byte 14",
    ),
    // A name that is no text.
    (
        b"\x00asm\x01\x00\x00\x00\x02\x07\x01\x01\xFF\x01a\x00\x00",
        "D7 Utf8; the name isn't UTF-8; the import section, byte 12",
    ),
    // An opcode of bulk memory.
    (
        b"\x00asm\x01\x00\x00\x00\x01\x04\x01`\x00\x00\x03\x02\x01\x00\x0A\x05\x01\x03\x00\xFC\x0B",
        "D8 UnknownByte; the byte has no meaning here: 0xfc, which belongs to bulk memory (memory.fill); the code section, function 0, instruction 0, byte 23",
    ),
    // An opcode of nothing.
    (
        b"\x00asm\x01\x00\x00\x00\x01\x04\x01`\x00\x00\x03\x02\x01\x00\x0A\x05\x01\x03\x00'\x0B",
        "D8 UnknownByte; the byte has no meaning here: 0x27; the code section, function 0, instruction 0, byte 23",
    ),
    // A section of bulk memory.
    (
        b"\x00asm\x01\x00\x00\x00\x0C\x01\x00",
        "D8 UnknownByte; the byte has no meaning here: 0x0c, which belongs to bulk memory; no section, byte 8",
    ),
    // An instruction of floating point after an import.
    (
        b"\x00asm\x01\x00\x00\x00\x01\x09\x02`\x01\x7F\x01~`\x00\x00\x02\x0E\x01\x04host\x05input\x00\x00\x03\x02\x01\x01\x0A\x07\x01\x05\x00\x01\x01\x92\x0B",
        "D9 Float; floating point is left out: f32.add; the code section, function 1, instruction 2 (f32.add), byte 46",
    ),
    // A parameter of floating point.
    (
        b"\x00asm\x01\x00\x00\x00\x01\x05\x01`\x01}\x00",
        "D9 Float; floating point is left out: the type f32; the type section, byte 13",
    ),
    // A block of floating point.
    (
        b"\x00asm\x01\x00\x00\x00\x01\x04\x01`\x00\x00\x03\x02\x01\x00\x0A\x07\x01\x05\x00\x02|\x0B\x0B",
        "D9 Float; floating point is left out: the type f64; the code section, function 0, instruction 0 (block), byte 24",
    ),
    // An imported memory.
    (
        b"\x00asm\x01\x00\x00\x00\x02\x0F\x01\x03env\x06memory\x02\x00\x01",
        "D10 Unsupported; this part of the standard is left out: an imported memory; the import section, byte 22",
    ),
    // An imported table.
    (
        b"\x00asm\x01\x00\x00\x00\x02\x0F\x01\x03env\x05table\x01p\x00\x01",
        "D10 Unsupported; this part of the standard is left out: an imported table; the import section, byte 21",
    ),
    // An imported global to be written.
    (
        b"\x00asm\x01\x00\x00\x00\x02\x0E\x01\x04host\x04base\x03\x7F\x01",
        "D10 Unsupported; this part of the standard is left out: an imported global that may be written; the import section, byte 23",
    ),
    // 1025 types.
    (
        b"\x00asm\x01\x00\x00\x00\x01\x02\x81\x08",
        "D11 Limit; a limit of this host is passed: more than 1024 function types; the type section, byte 10",
    ),
    // 257 parameters.
    (
        b"\x00asm\x01\x00\x00\x00\x01\x04\x01`\x81\x02",
        "D11 Limit; a limit of this host is passed: more than 256 parameters of a function type; the type section, byte 12",
    ),
    // 257 imports.
    (
        b"\x00asm\x01\x00\x00\x00\x02\x02\x81\x02",
        "D11 Limit; a limit of this host is passed: more than 256 imports; the import section, byte 10",
    ),
    // 4097 functions.
    (
        b"\x00asm\x01\x00\x00\x00\x01\x04\x01`\x00\x00\x03\x02\x81 ",
        "D11 Limit; a limit of this host is passed: more than 4096 functions; the function section, byte 16",
    ),
    // 1025 globals.
    (
        b"\x00asm\x01\x00\x00\x00\x06\x02\x81\x08",
        "D11 Limit; a limit of this host is passed: more than 1024 globals; the global section, byte 10",
    ),
    // 1025 exports.
    (
        b"\x00asm\x01\x00\x00\x00\x07\x02\x81\x08",
        "D11 Limit; a limit of this host is passed: more than 1024 exports; the export section, byte 10",
    ),
    // 257 element segments.
    (
        b"\x00asm\x01\x00\x00\x00\x09\x02\x81\x02",
        "D11 Limit; a limit of this host is passed: more than 256 element segments; the element section, byte 10",
    ),
    // 1025 data segments.
    (
        b"\x00asm\x01\x00\x00\x00\x0B\x02\x81\x08",
        "D11 Limit; a limit of this host is passed: more than 1024 data segments; the data section, byte 10",
    ),
    // 257 locals.
    (
        b"\x00asm\x01\x00\x00\x00\x01\x04\x01`\x00\x00\x03\x02\x01\x00\x0A\x07\x01\x05\x01\x81\x02\x7F\x0B",
        "D11 Limit; a limit of this host is passed: more than 256 declared locals of a function; the code section, function 0, byte 23",
    ),
    // 4097 labels.
    (
        b"\x00asm\x01\x00\x00\x00\x01\x04\x01`\x00\x00\x03\x02\x01\x00\x0A\x09\x01\x07\x00A\x00\x0E\x81 \x0B",
        "D11 Limit; a limit of this host is passed: more than 4096 labels of a br_table; the code section, function 0, instruction 1 (br_table), byte 26",
    ),
    // A function without code.
    (
        b"\x00asm\x01\x00\x00\x00\x01\x04\x01`\x00\x00\x03\x02\x01\x00",
        "D12 CountMismatch; there aren't as many code entries as functions: functions: 1, code entries: 0; no section, byte 18",
    ),
    // Another number of code entries.
    (
        b"\x00asm\x01\x00\x00\x00\x01\x04\x01`\x00\x00\x03\x02\x01\x00\x0A\x04\x02\x02\x00\x0B",
        "D12 CountMismatch; there aren't as many code entries as functions: functions: 1, code entries: 2; the code section, byte 20",
    ),
    // An operand of another type.
    (
        b"\x00asm\x01\x00\x00\x00\x01\x04\x01`\x00\x00\x03\x02\x01\x00\x0A\x08\x01\x06\x00B\x00E\x1A\x0B",
        "V1 BadType; the type is another one than it must be: expected [i32], found [i64]; the code section, function 0, instruction 1 (i32.eqz), byte 25",
    ),
    // A local that isn't there.
    (
        b"\x00asm\x01\x00\x00\x00\x01\x04\x01`\x00\x00\x03\x02\x01\x00\x0A\x07\x01\x05\x00 \x00\x1A\x0B",
        "V2 Index; the index names nothing: local 0, of 0 in all; the code section, function 0, instruction 0 (local.get), byte 23",
    ),
    // A load aligned too far.
    (
        b"\x00asm\x01\x00\x00\x00\x01\x04\x01`\x00\x00\x03\x02\x01\x00\x05\x03\x01\x00\x01\x0A\x0A\x01\x08\x00A\x00(\x03\x00\x1A\x0B",
        "V3 Align; the alignment is above the access width; the code section, function 0, instruction 1 (i32.load), byte 30",
    ),
    // An operand that is missing.
    (
        b"\x00asm\x01\x00\x00\x00\x01\x04\x01`\x00\x00\x03\x02\x01\x00\x0A\x05\x01\x03\x00\x1A\x0B",
        "V4 Arity; an operand is missing or left over: expected [any], found []; the code section, function 0, instruction 0 (drop), byte 23",
    ),
    // A global that begins with a defined one.
    (
        b"\x00asm\x01\x00\x00\x00\x06\x0B\x02\x7F\x00A\x00\x0B\x7F\x00#\x00\x0B",
        "V5 Const; the expression isn't constant; the global section, entry 1, byte 16",
    ),
    // A name exported twice.
    (
        b"\x00asm\x01\x00\x00\x00\x01\x04\x01`\x00\x00\x03\x02\x01\x00\x07\x09\x02\x01a\x00\x00\x01a\x00\x00\x0A\x04\x01\x02\x00\x0B",
        "V6 DuplicateExport; two exports have one name: \"a\"; the export section, entry 1, byte 25",
    ),
    // A start function with a parameter.
    (
        b"\x00asm\x01\x00\x00\x00\x01\x05\x01`\x01\x7F\x00\x03\x02\x01\x00\x08\x01\x00\x0A\x04\x01\x02\x00\x0B",
        "V7 Start; the start function has parameters or results; the start section, byte 21",
    ),
    // A memory that ends before it begins.
    (
        b"\x00asm\x01\x00\x00\x00\x05\x04\x01\x01\x02\x01",
        "V8 Limits; a rule of WebAssembly 1.0 is broken: the least size is above the greatest one; the memory section, entry 0, byte 11",
    ),
    // Two results.
    (
        b"\x00asm\x01\x00\x00\x00\x01\x06\x01`\x00\x02\x7F\x7F",
        "V8 Limits; a rule of WebAssembly 1.0 is broken: more than one result of a function type; the type section, entry 0, byte 11",
    ),
    // Two memories.
    (
        b"\x00asm\x01\x00\x00\x00\x05\x05\x02\x00\x01\x00\x01",
        "V8 Limits; a rule of WebAssembly 1.0 is broken: more than one memory; the memory section, entry 1, byte 13",
    ),
    // 65537 pages.
    (
        b"\x00asm\x01\x00\x00\x00\x05\x05\x01\x00\x81\x80\x04",
        "V8 Limits; a rule of WebAssembly 1.0 is broken: more than 65536 pages of a memory; the memory section, entry 0, byte 11",
    ),
    // 4097 table entries.
    (
        b"\x00asm\x01\x00\x00\x00\x04\x05\x01p\x00\x81 ",
        "V8 Limits; a limit of this host is passed: more than 4096 entries at first of a table; the table section, entry 0, byte 11",
    ),
    // A parameter and 256 locals.
    (
        b"\x00asm\x01\x00\x00\x00\x01\x05\x01`\x01\x7F\x00\x03\x02\x01\x00\x0A\x07\x01\x05\x01\x80\x02\x7F\x0B",
        "V8 Limits; a limit of this host is passed: more than 256 parameters and locals of a function; the code section, function 0, instruction 0 (end), byte 27",
    ),
    // A constant global that is written.
    (
        b"\x00asm\x01\x00\x00\x00\x01\x04\x01`\x00\x00\x03\x02\x01\x00\x06\x06\x01\x7F\x00A\x00\x0B\x0A\x08\x01\x06\x00A\x00$\x00\x0B",
        "V10 ConstImmutable; the global is immutable; the code section, function 0, instruction 1 (global.set), byte 33",
    ),
    // An import that isn't offered.
    (
        b"\x00asm\x01\x00\x00\x00\x01\x06\x01`\x01\x7F\x01\x7F\x02\x0E\x01\x03env\x06printf\x00\x00",
        "L1 UnknownImport; the host has nothing of its name: \"printf\" of module \"env\", [i32] -> [i32]; the import section, entry 0, byte 19",
    ),
    // A global that isn't offered.
    (
        b"\x00asm\x01\x00\x00\x00\x02\x0D\x01\x04host\x03spi\x03\x7F\x00",
        "L1 UnknownImport; the host has nothing of its name: \"spi\" of module \"host\", i32; the import section, entry 0, byte 11",
    ),
    // An import of another type.
    (
        b"\x00asm\x01\x00\x00\x00\x01\x05\x01`\x01\x7F\x00\x02\x0C\x01\x04host\x03put\x00\x00",
        "L2 ImportType; the host has another kind or type than it asks for: \"put\" of module \"host\", [i32] -> []; the import section, entry 0, byte 18",
    ),
];

/// What is said of a refusal: the fault, what is wrong, and where.
fn told(alloc: Global, refusal: &Refusal) -> Result<String> {
    let error = refusal.error;
    let place = refusal.place;
    Ok(format!(in alloc; "{} {}; {refusal}; {place}", FaultCode(error), Name(error))?)
}

/// What is said of a module.
fn said_of(alloc: Global, bytes: &[u8]) -> Result<String> {
    match &explain_module(alloc, bytes)?.refusal {
        Some(refusal) => told(alloc, refusal),
        None => Ok(String::from_str(alloc, "accepted")?),
    }
}

/// Fails where another thing is said of a module.
pub fn expect(alloc: Global, bytes: &[u8], wanted: &str) -> Result<()> {
    let said = said_of(alloc, bytes)?;
    ensure!(said.as_str() == wanted, "said: {said}, wanted: {wanted}");
    Ok(())
}

/// Looks at each module: how many they are.
pub fn check(alloc: Global) -> Result<usize> {
    for (bytes, wanted) in MODULES.iter() {
        expect(alloc, bytes, wanted)?;
    }
    Ok(MODULES.len())
}
