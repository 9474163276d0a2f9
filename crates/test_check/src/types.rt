//! Modules with operands of other types, and with indices that name nothing.

use crate::modules::expect;
use anyhow::Result;
use std::alloc::Global;

// Modules that `wat2wasm --no-check` wrote, each with what `wasm-validate` blames in them: the types, the index and its place.
const TYPED: [(&[u8], &str); 44] = [
    // An operand of another type.
    (
        b"\x00asm\x01\x00\x00\x00\x01\x04\x01`\x00\x00\x03\x02\x01\x00\x0A\x0A\x01\x08\x00B\x00A\x01j\x1A\x0B",
        "V1 BadType; the type is another one than it must be: expected [i32 i32], found [i64 i32]; the code section, function 0, instruction 2 (i32.add), byte 27",
    ),
    // A result of another type.
    (
        b"\x00asm\x01\x00\x00\x00\x01\x05\x01`\x00\x01\x7F\x03\x02\x01\x00\x0A\x06\x01\x04\x00B\x00\x0B",
        "V1 BadType; the type is another one than it must be: expected [i32], found [i64]; the code section, function 0, instruction 1 (end), byte 26",
    ),
    // A branch that takes another type along.
    (
        b"\x00asm\x01\x00\x00\x00\x01\x04\x01`\x00\x00\x03\x02\x01\x00\x0A\x0C\x01\x0A\x00\x02\x7FB\x05\x0C\x00\x0B\x1A\x0B",
        "V1 BadType; the type is another one than it must be: expected [i32], found [i64]; the code section, function 0, instruction 2 (br), byte 27",
    ),
    // A condition of another type, after what a branch takes along.
    (
        b"\x00asm\x01\x00\x00\x00\x01\x04\x01`\x00\x00\x03\x02\x01\x00\x0A\x0E\x01\x0C\x00\x02~B\x05B\x01\x0D\x00\x0B\x1A\x0B",
        "V1 BadType; the type is another one than it must be: expected [i64 i32], found [i64 i64]; the code section, function 0, instruction 3 (br_if), byte 29",
    ),
    // A return of another type.
    (
        b"\x00asm\x01\x00\x00\x00\x01\x05\x01`\x00\x01~\x03\x02\x01\x00\x0A\x07\x01\x05\x00A\x01\x0F\x0B",
        "V1 BadType; the type is another one than it must be: expected [i64], found [i32]; the code section, function 0, instruction 1 (return), byte 26",
    ),
    // An argument of another type.
    (
        b"\x00asm\x01\x00\x00\x00\x01\x09\x02`\x02\x7F~\x00`\x00\x00\x03\x03\x02\x00\x01\x0A\x0D\x02\x02\x00\x0B\x08\x00A\x01A\x02\x10\x00\x0B",
        "V1 BadType; the type is another one than it must be: expected [i32 i64], found [i32 i32]; the code section, function 1, instruction 2 (call), byte 36",
    ),
    // An argument of another type, by a table.
    (
        b"\x00asm\x01\x00\x00\x00\x01\x08\x02`\x01~\x00`\x00\x00\x03\x02\x01\x01\x04\x04\x01p\x00\x01\x0A\x0B\x01\x09\x00A\x07A\x00\x11\x00\x00\x0B",
        "V1 BadType; the type is another one than it must be: expected [i64 i32], found [i32 i32]; the code section, function 0, instruction 2 (call_indirect), byte 37",
    ),
    // A choice between two types.
    (
        b"\x00asm\x01\x00\x00\x00\x01\x04\x01`\x00\x00\x03\x02\x01\x00\x0A\x0C\x01\x0A\x00A\x01B\x02A\x03\x1B\x1A\x0B",
        "V1 BadType; the type is another one than it must be: expected [i64 i64 i32], found [i32 i64 i32]; the code section, function 0, instruction 3 (select), byte 29",
    ),
    // A choice by another type.
    (
        b"\x00asm\x01\x00\x00\x00\x01\x04\x01`\x00\x00\x03\x02\x01\x00\x0A\x0C\x01\x0A\x00A\x01A\x02B\x03\x1B\x1A\x0B",
        "V1 BadType; the type is another one than it must be: expected [i32 i32 i32], found [i32 i32 i64]; the code section, function 0, instruction 3 (select), byte 29",
    ),
    // An if by another type.
    (
        b"\x00asm\x01\x00\x00\x00\x01\x04\x01`\x00\x00\x03\x02\x01\x00\x0A\x09\x01\x07\x00B\x01\x04@\x0B\x0B",
        "V1 BadType; the type is another one than it must be: expected [i32], found [i64]; the code section, function 0, instruction 1 (if), byte 25",
    ),
    // The first part of an if with another type.
    (
        b"\x00asm\x01\x00\x00\x00\x01\x04\x01`\x00\x00\x03\x02\x01\x00\x0A\x0F\x01\x0D\x00A\x01\x04~A\x02\x05B\x01\x0B\x1A\x0B",
        "V1 BadType; the type is another one than it must be: expected [i64], found [i32]; the code section, function 0, instruction 3 (else), byte 29",
    ),
    // An if that leaves something without an else.
    (
        b"\x00asm\x01\x00\x00\x00\x01\x04\x01`\x00\x00\x03\x02\x01\x00\x0A\x0C\x01\x0A\x00A\x01\x04\x7FA\x02\x0B\x1A\x0B",
        "V4 Arity; an operand is missing or left over: expected [i32], found []; the code section, function 0, instruction 3 (end), byte 29",
    ),
    // Labels that carry different types.
    (
        b"\x00asm\x01\x00\x00\x00\x01\x04\x01`\x00\x00\x03\x02\x01\x00\x0A\x13\x01\x11\x00\x02@\x02\x7FA\x01A\x00\x0E\x01\x00\x01\x0B\x1A\x0B\x0B",
        "V1 BadType; the type is another one than it must be: expected [], found [i32]; the code section, function 0, instruction 4 (br_table), byte 31",
    ),
    // A table of labels by another type.
    (
        b"\x00asm\x01\x00\x00\x00\x01\x04\x01`\x00\x00\x03\x02\x01\x00\x0A\x0D\x01\x0B\x00\x02@B\x00\x0E\x01\x00\x00\x0B\x0B",
        "V1 BadType; the type is another one than it must be: expected [i32], found [i64]; the code section, function 0, instruction 2 (br_table), byte 27",
    ),
    // A stored value of another type.
    (
        b"\x00asm\x01\x00\x00\x00\x01\x04\x01`\x00\x00\x03\x02\x01\x00\x05\x03\x01\x00\x01\x0A\x0B\x01\x09\x00A\x00A\x017\x03\x00\x0B",
        "V1 BadType; the type is another one than it must be: expected [i32 i64], found [i32 i32]; the code section, function 0, instruction 2 (i64.store), byte 32",
    ),
    // An address of another type.
    (
        b"\x00asm\x01\x00\x00\x00\x01\x04\x01`\x00\x00\x03\x02\x01\x00\x05\x03\x01\x00\x01\x0A\x0A\x01\x08\x00B\x00(\x02\x00\x1A\x0B",
        "V1 BadType; the type is another one than it must be: expected [i32], found [i64]; the code section, function 0, instruction 1 (i32.load), byte 30",
    ),
    // A size of another type.
    (
        b"\x00asm\x01\x00\x00\x00\x01\x04\x01`\x00\x00\x03\x02\x01\x00\x05\x03\x01\x00\x01\x0A\x09\x01\x07\x00B\x00@\x00\x1A\x0B",
        "V1 BadType; the type is another one than it must be: expected [i32], found [i64]; the code section, function 0, instruction 1 (memory.grow), byte 30",
    ),
    // A local of another type.
    (
        b"\x00asm\x01\x00\x00\x00\x01\x04\x01`\x00\x00\x03\x02\x01\x00\x0A\x0A\x01\x08\x01\x01~A\x00!\x00\x0B",
        "V1 BadType; the type is another one than it must be: expected [i64], found [i32]; the code section, function 0, instruction 1 (local.set), byte 27",
    ),
    // A parameter of another type.
    (
        b"\x00asm\x01\x00\x00\x00\x01\x05\x01`\x01\x7F\x00\x03\x02\x01\x00\x0A\x09\x01\x07\x00B\x00\"\x00\x1A\x0B",
        "V1 BadType; the type is another one than it must be: expected [i32], found [i64]; the code section, function 0, instruction 1 (local.tee), byte 26",
    ),
    // A global of another type.
    (
        b"\x00asm\x01\x00\x00\x00\x01\x04\x01`\x00\x00\x03\x02\x01\x00\x06\x06\x01\x7F\x01A\x00\x0B\x0A\x08\x01\x06\x00B\x00$\x00\x0B",
        "V1 BadType; the type is another one than it must be: expected [i32], found [i64]; the code section, function 0, instruction 1 (global.set), byte 33",
    ),
    // A conversion of another type.
    (
        b"\x00asm\x01\x00\x00\x00\x01\x04\x01`\x00\x00\x03\x02\x01\x00\x0A\x08\x01\x06\x00A\x00\xA7\x1A\x0B",
        "V1 BadType; the type is another one than it must be: expected [i64], found [i32]; the code section, function 0, instruction 1 (i32.wrap_i64), byte 25",
    ),
    // An operand of another type in code that is never reached.
    (
        b"\x00asm\x01\x00\x00\x00\x01\x04\x01`\x00\x00\x03\x02\x01\x00\x0A\x09\x01\x07\x00\x00B\x01j\x1A\x0B",
        "V1 BadType; the type is another one than it must be: expected [i32 i32], found [i64]; the code section, function 0, instruction 2 (i32.add), byte 26",
    ),
    // An operand that is left over.
    (
        b"\x00asm\x01\x00\x00\x00\x01\x04\x01`\x00\x00\x03\x02\x01\x00\x0A\x06\x01\x04\x00A\x01\x0B",
        "V4 Arity; an operand is missing or left over: expected [], found [i32]; the code section, function 0, instruction 1 (end), byte 25",
    ),
    // One operand of two.
    (
        b"\x00asm\x01\x00\x00\x00\x01\x04\x01`\x00\x00\x03\x02\x01\x00\x0A\x08\x01\x06\x00A\x01j\x1A\x0B",
        "V4 Arity; an operand is missing or left over: expected [i32 i32], found [i32]; the code section, function 0, instruction 1 (i32.add), byte 25",
    ),
    // A global that begins with another type.
    (
        b"\x00asm\x01\x00\x00\x00\x06\x0B\x02\x7F\x00A\x00\x0B\x7F\x00B\x00\x0B",
        "V1 BadType; the type is another one than it must be: expected [i32], found [i64]; the global section, entry 1, byte 16",
    ),
    // Functions at a place of another type.
    (
        b"\x00asm\x01\x00\x00\x00\x01\x04\x01`\x00\x00\x03\x02\x01\x00\x04\x04\x01p\x00\x02\x09\x07\x01\x00B\x00\x0B\x01\x00\x0A\x04\x01\x02\x00\x0B",
        "V1 BadType; the type is another one than it must be: expected [i32], found [i64]; the element section, entry 0, byte 27",
    ),
    // Bytes at a place of another type.
    (
        b"\x00asm\x01\x00\x00\x00\x05\x03\x01\x00\x01\x0B\x0D\x02\x00A\x00\x0B\x01a\x00B\x01\x0B\x01b",
        "V1 BadType; the type is another one than it must be: expected [i32], found [i64]; the data section, entry 1, byte 22",
    ),
    // A function that isn't there.
    (
        b"\x00asm\x01\x00\x00\x00\x01\x04\x01`\x00\x00\x03\x02\x01\x00\x0A\x06\x01\x04\x00\x10\x07\x0B",
        "V2 Index; the index names nothing: function 7, of 1 in all; the code section, function 0, instruction 0 (call), byte 23",
    ),
    // A global that isn't there.
    (
        b"\x00asm\x01\x00\x00\x00\x01\x04\x01`\x00\x00\x03\x02\x01\x00\x0A\x07\x01\x05\x00#\x03\x1A\x0B",
        "V2 Index; the index names nothing: global 3, of 0 in all; the code section, function 0, instruction 0 (global.get), byte 23",
    ),
    // A local after the last one.
    (
        b"\x00asm\x01\x00\x00\x00\x01\x05\x01`\x01\x7F\x00\x03\x02\x01\x00\x0A\x09\x01\x07\x01\x01~ \x02\x1A\x0B",
        "V2 Index; the index names nothing: local 2, of 2 in all; the code section, function 0, instruction 0 (local.get), byte 26",
    ),
    // A label that isn't there.
    (
        b"\x00asm\x01\x00\x00\x00\x01\x04\x01`\x00\x00\x03\x02\x01\x00\x0A\x09\x01\x07\x00\x02@\x0C\x02\x0B\x0B",
        "V2 Index; the index names nothing: label 2, of 2 in all; the code section, function 0, instruction 1 (br), byte 25",
    ),
    // A label of a table that isn't there.
    (
        b"\x00asm\x01\x00\x00\x00\x01\x04\x01`\x00\x00\x03\x02\x01\x00\x0A\x0E\x01\x0C\x00\x02@A\x00\x0E\x02\x00\x04\x00\x0B\x0B",
        "V2 Index; the index names nothing: label 4, of 2 in all; the code section, function 0, instruction 2 (br_table), byte 27",
    ),
    // A type that isn't there.
    (
        b"\x00asm\x01\x00\x00\x00\x01\x04\x01`\x00\x00\x03\x02\x01\x00\x04\x04\x01p\x00\x01\x0A\x09\x01\x07\x00A\x00\x11\x05\x00\x0B",
        "V2 Index; the index names nothing: type 5, of 1 in all; the code section, function 0, instruction 1 (call_indirect), byte 31",
    ),
    // A table that isn't there.
    (
        b"\x00asm\x01\x00\x00\x00\x01\x04\x01`\x00\x00\x03\x02\x01\x00\x0A\x09\x01\x07\x00A\x00\x11\x00\x00\x0B",
        "V2 Index; the index names nothing: table 0, of 0 in all; the code section, function 0, instruction 1 (call_indirect), byte 25",
    ),
    // A memory that isn't there.
    (
        b"\x00asm\x01\x00\x00\x00\x01\x04\x01`\x00\x00\x03\x02\x01\x00\x0A\x0A\x01\x08\x00A\x00(\x02\x00\x1A\x0B",
        "V2 Index; the index names nothing: memory 0, of 0 in all; the code section, function 0, instruction 1 (i32.load), byte 25",
    ),
    // A global that begins with one that isn't there.
    (
        b"\x00asm\x01\x00\x00\x00\x06\x06\x01\x7F\x00#\x05\x0B",
        "V2 Index; the index names nothing: global 5, of 1 in all; the global section, entry 0, byte 11",
    ),
    // An export of a function that isn't there.
    (
        b"\x00asm\x01\x00\x00\x00\x01\x04\x01`\x00\x00\x03\x02\x01\x00\x07\x09\x02\x01a\x00\x00\x01b\x00\x01\x0A\x04\x01\x02\x00\x0B",
        "V2 Index; the index names nothing: function 1, of 1 in all; the export section, entry 1, byte 25",
    ),
    // An export of a memory that isn't there.
    (
        b"\x00asm\x01\x00\x00\x00\x07\x05\x01\x01m\x02\x00",
        "V2 Index; the index names nothing: memory 0, of 0 in all; the export section, entry 0, byte 11",
    ),
    // A start function that isn't there.
    (
        b"\x00asm\x01\x00\x00\x00\x01\x04\x01`\x00\x00\x03\x02\x01\x00\x08\x01\x03\x0A\x04\x01\x02\x00\x0B",
        "V2 Index; the index names nothing: function 3, of 1 in all; the start section, byte 20",
    ),
    // A function for a table that isn't there.
    (
        b"\x00asm\x01\x00\x00\x00\x01\x04\x01`\x00\x00\x03\x02\x01\x00\x04\x04\x01p\x00\x02\x09\x0E\x02\x00A\x00\x0B\x01\x00\x00A\x01\x0B\x02\x00\x09\x0A\x04\x01\x02\x00\x0B",
        "V2 Index; the index names nothing: function 9, of 1 in all; the element section, entry 1, byte 33",
    ),
    // A table for functions that isn't there.
    (
        b"\x00asm\x01\x00\x00\x00\x01\x04\x01`\x00\x00\x03\x02\x01\x00\x09\x07\x01\x00A\x00\x0B\x01\x00\x0A\x04\x01\x02\x00\x0B",
        "V2 Index; the index names nothing: table 0, of 0 in all; the element section, entry 0, byte 21",
    ),
    // A memory for bytes that isn't there.
    (
        b"\x00asm\x01\x00\x00\x00\x0B\x07\x01\x00A\x00\x0B\x01a",
        "V2 Index; the index names nothing: memory 0, of 0 in all; the data section, entry 0, byte 11",
    ),
    // An import of a type that isn't there.
    (
        b"\x00asm\x01\x00\x00\x00\x02\x07\x01\x01a\x01b\x00\x03",
        "V2 Index; the index names nothing: type 3, of 0 in all; the import section, entry 0, byte 11",
    ),
    // A function of a type that isn't there.
    (
        b"\x00asm\x01\x00\x00\x00\x01\x04\x01`\x00\x00\x03\x03\x02\x00\x02\x0A\x07\x02\x02\x00\x0B\x02\x00\x0B",
        "V2 Index; the index names nothing: type 2, of 1 in all; the function section, entry 1, byte 18",
    ),
];

/// Looks at each module: how many they are.
pub fn check(alloc: Global) -> Result<usize> {
    for (bytes, wanted) in TYPED.iter() {
        expect(alloc, bytes, wanted)?;
    }
    Ok(TYPED.len())
}
