//! Modules that pass a limit by many bytes, made here.

use crate::modules::expect;
use anyhow::Result;
use std::alloc::{AllocError, Global};

// What stands in front of a body: a type, and a function of it.
const BEFORE_CODE: &[u8] = b"\x00asm\x01\x00\x00\x00\x01\x04\x01\x60\x00\x00\x03\x02\x01\x00";

/// A module made of a beginning, of a number of equal pieces, and of an end.
#[derive(Clone, Copy)]
struct Repeated {
    begins: &'static [u8],
    piece: &'static [u8],
    times: usize,
    ends: &'static [u8],
}

const NESTED: Repeated = Repeated {
    begins: b"\x0a\x88\x06\x01\x85\x06\x00",
    piece: b"\x02\x40",
    times: 257,
    ends: b"",
};

const LONG: Repeated = Repeated {
    begins: b"\x0a\x86\x80\x04\x01\x82\x80\x04\x00",
    piece: b"\x01",
    times: 65536,
    ends: b"\x0b",
};

const HIGH: Repeated = Repeated {
    begins: b"\x0a\x88\x06\x01\x85\x06\x00",
    piece: b"\x41\x00",
    times: 257,
    ends: &[0x1a; 257],
};

// Code, and what is said of a module of it.
const CODE: [(Repeated, &str); 2] = [
    (
        NESTED,
        "D11 Limit; a limit of this host is passed: more than 256 nested constructs of an expression; the code section, function 0, instruction 256 (block), byte 537",
    ),
    (
        LONG,
        "D11 Limit; a limit of this host is passed: more than 65536 instructions of a function; the code section, function 0, instruction 65536 (end), byte 65563",
    ),
];

const TOO_HIGH: &str =
    "V9 Height; there are more than 256 operands: more than 256 operands at a place of a function; the code section, function 0, instruction 256 (i32.const), byte 537";

const TOO_LONG: &str =
    "D11 Limit; a limit of this host is passed: more than 1048576 bytes of a module; no section, byte 1048576";

/// The bytes of a module with this code.
fn with_code(alloc: Global, code: Repeated) -> Result<Vec<u8>, AllocError> {
    let mut bytes = Vec::from_slice(alloc, BEFORE_CODE)?;
    bytes.extend_from_slice(code.begins)?;
    for _ in 0..code.times {
        bytes.extend_from_slice(code.piece)?;
    }
    bytes.extend_from_slice(code.ends)?;
    Ok(bytes)
}

/// Looks at each module: how many they are.
pub fn check(alloc: Global) -> Result<usize> {
    for (code, wanted) in CODE.iter() {
        expect(alloc, &with_code(alloc, *code)?, wanted)?;
    }
    let mut high = with_code(alloc, HIGH)?;
    high.push(0x0b)?;
    expect(alloc, &high, TOO_HIGH)?;
    let long = vec![in alloc; 0u8; 1048577]?;
    expect(alloc, &long, TOO_LONG)?;
    Ok(CODE.len() + 2)
}
