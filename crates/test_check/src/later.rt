//! Modules of later parts of WebAssembly.

use crate::modules::expect;
use anyhow::Result;
use std::alloc::Global;

// Modules that `wat2wasm` wrote with those parts, each with the part.
const LATER: [(&[u8], &str); 19] = [
    // A passive data segment, whose length is the opcode of `f64.eq`.
    (
        b"\x00asm\x01\x00\x00\x00\x05\x03\x01\x00\x01\x0Bj\x02\x00A\x00\x0B\x01z\x01aaaaaaaaaaaaaaaaaaaaaaaaaaaaaaaaaaaaaaaaaaaaaaaaaaaaaaaaaaaaaaaaaaaaaaaaaaaaaaaaaaaaaaaaaaaaaaaaaa",
        "D9 Float; this isn't of WebAssembly 1.0: a passive data segment, which belongs to bulk memory; the data section, entry 1, byte 23",
    ),
    // A passive element segment.
    (
        b"\x00asm\x01\x00\x00\x00\x01\x04\x01`\x00\x00\x03\x02\x01\x00\x04\x04\x01p\x00\x01\x09\x05\x01\x01\x00\x01\x00\x0A\x04\x01\x02\x00\x0B",
        "D5 SectionSize; this isn't of WebAssembly 1.0: a passive element segment, which belongs to bulk memory; the element section, entry 0, byte 31",
    ),
    // An element segment that names its table.
    (
        b"\x00asm\x01\x00\x00\x00\x01\x04\x01`\x00\x00\x03\x02\x01\x00\x04\x07\x02p\x00\x01p\x00\x01\x09\x09\x01\x02\x01A\x00\x0B\x00\x01\x00\x0A\x04\x01\x02\x00\x0B",
        "D5 SectionSize; this isn't of WebAssembly 1.0: an element segment that names its table, which belongs to bulk memory; the element section, entry 0, byte 36",
    ),
    // A declared element segment.
    (
        b"\x00asm\x01\x00\x00\x00\x01\x04\x01`\x00\x00\x03\x02\x01\x00\x09\x05\x01\x03\x00\x01\x00\x0A\x04\x01\x02\x00\x0B",
        "D5 SectionSize; this isn't of WebAssembly 1.0: a declared element segment, which belongs to reference types; the element section, entry 0, byte 25",
    ),
    // An element segment of expressions.
    (
        b"\x00asm\x01\x00\x00\x00\x01\x04\x01`\x00\x00\x03\x02\x01\x00\x04\x04\x01p\x00\x01\x09\x09\x01\x04A\x00\x0B\x01\xD2\x00\x0B\x0A\x04\x01\x02\x00\x0B",
        "D5 SectionSize; this isn't of WebAssembly 1.0: an element segment of expressions, which belongs to reference types; the element section, entry 0, byte 34",
    ),
    // A memory of 64-bit addresses.
    (
        b"\x00asm\x01\x00\x00\x00\x05\x03\x01\x04\x01",
        "D8 UnknownByte; the byte has no meaning here: 0x04, which belongs to memory64 (a memory of 64-bit addresses); the memory section, byte 11",
    ),
    // A shared memory.
    (
        b"\x00asm\x01\x00\x00\x00\x05\x04\x01\x03\x01\x02",
        "D8 UnknownByte; the byte has no meaning here: 0x03, which belongs to threads (a shared memory); the memory section, byte 11",
    ),
    // A parameter that is a reference.
    (
        b"\x00asm\x01\x00\x00\x00\x01\x05\x01`\x01o\x00\x03\x02\x01\x00\x0A\x04\x01\x02\x00\x0B",
        "D8 UnknownByte; the byte has no meaning here: 0x6f, which belongs to reference types (the type externref); the type section, byte 13",
    ),
    // A table of other references.
    (
        b"\x00asm\x01\x00\x00\x00\x04\x04\x01o\x00\x01",
        "D8 UnknownByte; the byte has no meaning here: 0x6f, which belongs to reference types (the type externref); the table section, byte 11",
    ),
    // A local that is a vector.
    (
        b"\x00asm\x01\x00\x00\x00\x01\x04\x01`\x00\x00\x03\x02\x01\x00\x0A\x06\x01\x04\x01\x01{\x0B",
        "D8 UnknownByte; the byte has no meaning here: 0x7b, which belongs to SIMD (the type v128); the code section, function 0, byte 24",
    ),
    // A global that is a vector.
    (
        b"\x00asm\x01\x00\x00\x00\x06\x16\x01{\x00\xFD\x0C\x00\x00\x00\x00\x00\x00\x00\x00\x00\x00\x00\x00\x00\x00\x00\x00\x0B",
        "D8 UnknownByte; the byte has no meaning here: 0x7b, which belongs to SIMD (the type v128); the global section, byte 11",
    ),
    // A block with a parameter.
    (
        b"\x00asm\x01\x00\x00\x00\x01\x08\x02`\x01\x7F\x00`\x00\x00\x03\x02\x01\x01\x0A\x0A\x01\x08\x00A\x00\x02\x00\x1A\x0B\x0B",
        "D8 UnknownByte; the byte has no meaning here: 0x00, which belongs to multi-value (a block of a function type); the code section, function 0, instruction 1 (block), byte 30",
    ),
    // The size of a second memory.
    (
        b"\x00asm\x01\x00\x00\x00\x01\x04\x01`\x00\x00\x03\x02\x01\x00\x05\x05\x02\x00\x01\x00\x01\x0A\x07\x01\x05\x00?\x01\x1A\x0B",
        "D8 UnknownByte; the byte has no meaning here: 0x01, which belongs to multiple memories; the code section, function 0, instruction 0 (memory.size), byte 31",
    ),
    // A section of tags.
    (
        b"\x00asm\x01\x00\x00\x00\x01\x04\x01`\x00\x00\x0D\x03\x01\x00\x00",
        "D8 UnknownByte; the byte has no meaning here: 0x0d, which belongs to exceptions; no section, byte 14",
    ),
    // An imported tag.
    (
        b"\x00asm\x01\x00\x00\x00\x01\x04\x01`\x00\x00\x02\x08\x01\x01a\x01b\x04\x00\x00",
        "D8 UnknownByte; the byte has no meaning here: 0x04, which belongs to exceptions (a tag); the import section, byte 21",
    ),
    // A copy of memory.
    (
        b"\x00asm\x01\x00\x00\x00\x01\x04\x01`\x00\x00\x03\x02\x01\x00\x05\x03\x01\x00\x01\x0A\x0E\x01\x0C\x00A\x00A\x00A\x00\xFC\x0A\x00\x00\x0B",
        "D8 UnknownByte; the byte has no meaning here: 0xfc, which belongs to bulk memory (memory.copy); the code section, function 0, instruction 3, byte 34",
    ),
    // An entry of a table.
    (
        b"\x00asm\x01\x00\x00\x00\x01\x04\x01`\x00\x00\x03\x02\x01\x00\x04\x04\x01p\x00\x01\x0A\x09\x01\x07\x00A\x00%\x00\x1A\x0B",
        "D8 UnknownByte; the byte has no meaning here: 0x25, which belongs to reference types; the code section, function 0, instruction 1, byte 31",
    ),
    // A tail call.
    (
        b"\x00asm\x01\x00\x00\x00\x01\x04\x01`\x00\x00\x03\x02\x01\x00\x0A\x06\x01\x04\x00\x12\x00\x0B",
        "D8 UnknownByte; the byte has no meaning here: 0x12, which belongs to tail calls; the code section, function 0, instruction 0, byte 23",
    ),
    // A load for threads.
    (
        b"\x00asm\x01\x00\x00\x00\x01\x04\x01`\x00\x00\x03\x02\x01\x00\x05\x04\x01\x01\x01\x01\x0A\x0B\x01\x09\x00A\x00\xFE\x10\x02\x00\x1A\x0B",
        "D8 UnknownByte; the byte has no meaning here: 0xfe, which belongs to threads; the code section, function 0, instruction 1, byte 31",
    ),
];

/// Looks at each module: how many they are.
pub fn check(alloc: Global) -> Result<usize> {
    for (bytes, wanted) in LATER.iter() {
        expect(alloc, bytes, wanted)?;
    }
    Ok(LATER.len())
}
