//! The plain types that the definitions and the code share.
//!
//! The definitions themselves, in the terms of the W3C WebAssembly Core Specification 1.0, are in `specs/`;
//! `docs/definitions.md` leads through them.
#![tactic(auto)]

ghost use Rattle.std.specs.Prelude.{◌≡◌};
ghost use Rattle.wh_model.specs.Format.Numbering.{trap_number};

mod faults;
mod host;
mod laws;
mod limits;
mod memory;

pub use faults::{DecodeError, FaultKind, ImportFault, ValidKind};
pub use host::{HostFunc, HostGlobal, HostItem};
pub use laws::{execution_holds, focus_holds, journals_hold, linking_holds, soundness_holds};
pub use limits::{
    CALL_DEPTH, MOST_EMITTED, MOST_HEIGHT, MOST_LOCALS, MOST_WASM_PAGES, OUTPUT_ROOM, WASM_PAGE,
};
pub use memory::{Got, Grown, Need};
use thiserror::Error;

/// Why a computation stops without a result (section 4.2.2 of the standard, "Trap"). The last three are this
/// host's own.
#[derive(Clone, Copy, Debug, PartialEq, Eq, Error)]
pub enum Trap {
    /// The instruction `unreachable`.
    #[error("unreachable")]
    Unreachable,
    /// A division or a remainder by 0.
    #[error("integer division by zero")]
    DivideByZero,
    /// The least number divided by -1.
    #[error("integer overflow")]
    Overflow,
    /// An access past the end of the memory.
    #[error("out of bounds memory access")]
    OutOfBounds,
    /// An index past the end of the table.
    #[error("undefined element")]
    TableBounds,
    /// A table entry that holds no function.
    #[error("uninitialized element")]
    EmptyElement,
    /// A function of another type than the indirect call names.
    #[error("indirect call type mismatch")]
    IndirectType,
    /// More bytes than a host function takes at a time.
    #[error("too many bytes for one host call")]
    HostTooLong,
    /// The output has no room for the bytes.
    #[error("the output is full")]
    HostFull,
    /// A call at the greatest depth.
    #[error("call stack exhausted")]
    CallDepth,
}

impl Trap {
    /// Returns the number by which replies name the trap, 1 to 10.
    pub fn number(self) -> u8
        ensures { result ≡ trap_number self }
    {
        match self {
            Trap::Unreachable => 1,
            Trap::DivideByZero => 2,
            Trap::Overflow => 3,
            Trap::OutOfBounds => 4,
            Trap::TableBounds => 5,
            Trap::EmptyElement => 6,
            Trap::IndirectType => 7,
            Trap::HostTooLong => 8,
            Trap::HostFull => 9,
            Trap::CallDepth => 10,
        }
    }
}

/// A value type (2.3.1), and the width of an integer operator. Floating point is left out.
#[derive(Clone, Copy, Debug, Default, PartialEq, Eq)]
pub enum ValType {
    /// An integer of 32 bits.
    #[default]
    I32,
    /// An integer of 64 bits.
    I64,
}

/// Whether a global variable may be written (2.3.6).
#[derive(Clone, Copy, Debug, PartialEq, Eq)]
pub enum Mutability {
    /// It keeps its first value.
    Const,
    /// It may be written.
    Var,
}

/// An operator on one integer, with a result of its type (2.4.1, `iunop`).
#[derive(Clone, Copy, Debug, PartialEq, Eq)]
pub enum UnaryOp {
    /// The number of zero bits at the high end.
    Clz,
    /// The number of zero bits at the low end.
    Ctz,
    /// The number of bits that are 1.
    Popcnt,
    /// The low 8 bits as a signed number (of version 2.0, `extend8_s`).
    Extend8S,
    /// The low 16 bits as a signed number (of version 2.0, `extend16_s`).
    Extend16S,
    /// The low 32 bits as a signed number (of version 2.0, `extend32_s`, for i64 alone).
    Extend32S,
}

/// An operator on two integers, with a result of their type (2.4.1, `ibinop`).
#[derive(Clone, Copy, Debug, PartialEq, Eq)]
pub enum BinaryOp {
    /// Sum.
    Add,
    /// Difference.
    Sub,
    /// Product.
    Mul,
    /// Signed quotient, towards zero.
    DivS,
    /// Unsigned quotient.
    DivU,
    /// Signed remainder, with the dividend's sign.
    RemS,
    /// Unsigned remainder.
    RemU,
    /// Bitwise and.
    And,
    /// Bitwise or.
    Or,
    /// Bitwise exclusive or.
    Xor,
    /// Shift to the left.
    Shl,
    /// Shift to the right that copies the sign bit.
    ShrS,
    /// Shift to the right that brings in zeros.
    ShrU,
    /// Rotation to the left.
    Rotl,
    /// Rotation to the right.
    Rotr,
}

/// A test of one integer (2.4.1, `itestop`), with an i32 result that is 1 or 0.
#[derive(Clone, Copy, Debug, PartialEq, Eq)]
pub enum TestOp {
    /// Whether it is 0.
    Eqz,
}

/// A comparison of two integers (2.4.1, `irelop`), with an i32 result that is 1 or 0.
#[derive(Clone, Copy, Debug, PartialEq, Eq)]
pub enum CompareOp {
    /// Equal.
    Eq,
    /// Not equal.
    Ne,
    /// Less, signed.
    LtS,
    /// Less, unsigned.
    LtU,
    /// Greater, signed.
    GtS,
    /// Greater, unsigned.
    GtU,
    /// Less or equal, signed.
    LeS,
    /// Less or equal, unsigned.
    LeU,
    /// Greater or equal, signed.
    GeS,
    /// Greater or equal, unsigned.
    GeU,
}

/// A conversion between the integer types (2.4.1, `cvtop`).
#[derive(Clone, Copy, Debug, PartialEq, Eq)]
pub enum ConvertOp {
    /// `i32.wrap_i64`: the low 32 bits.
    WrapI64,
    /// `i64.extend_i32_s`: the same signed number.
    ExtendI32S,
    /// `i64.extend_i32_u`: the same unsigned number.
    ExtendI32U,
}

/// A load from memory (2.4.4): the type of its result, and the bits read with how they extend where they are fewer.
#[derive(Clone, Copy, Debug, PartialEq, Eq)]
pub enum LoadOp {
    /// `i32.load`
    I32Load,
    /// `i64.load`
    I64Load,
    /// `i32.load8_s`
    I32Load8S,
    /// `i32.load8_u`
    I32Load8U,
    /// `i32.load16_s`
    I32Load16S,
    /// `i32.load16_u`
    I32Load16U,
    /// `i64.load8_s`
    I64Load8S,
    /// `i64.load8_u`
    I64Load8U,
    /// `i64.load16_s`
    I64Load16S,
    /// `i64.load16_u`
    I64Load16U,
    /// `i64.load32_s`
    I64Load32S,
    /// `i64.load32_u`
    I64Load32U,
}

/// A store to memory (2.4.4): the type of its operand, and how many of its low bits are written where not all are.
#[derive(Clone, Copy, Debug, PartialEq, Eq)]
pub enum StoreOp {
    /// `i32.store`
    I32Store,
    /// `i64.store`
    I64Store,
    /// `i32.store8`
    I32Store8,
    /// `i32.store16`
    I32Store16,
    /// `i64.store8`
    I64Store8,
    /// `i64.store16`
    I64Store16,
    /// `i64.store32`
    I64Store32,
}

/// What the first byte of an instruction encodes (5.4), before its immediates.
#[derive(Clone, Copy, Debug, PartialEq, Eq)]
pub enum Opcode {
    /// `unreachable`
    Unreachable,
    /// `nop`
    Nop,
    /// `block`
    Block,
    /// `loop`
    Loop,
    /// `if`
    If,
    /// `else`
    Else,
    /// `end`
    End,
    /// `br`
    Br,
    /// `br_if`
    BrIf,
    /// `br_table`
    BrTable,
    /// `return`
    Return,
    /// `call`
    Call,
    /// `call_indirect`
    CallIndirect,
    /// `drop`
    Drop,
    /// `select`
    Select,
    /// `local.get`
    LocalGet,
    /// `local.set`
    LocalSet,
    /// `local.tee`
    LocalTee,
    /// `global.get`
    GlobalGet,
    /// `global.set`
    GlobalSet,
    /// A load.
    Load(LoadOp),
    /// A store.
    Store(StoreOp),
    /// `memory.size`
    MemorySize,
    /// `memory.grow`
    MemoryGrow,
    /// `i32.const`
    I32Const,
    /// `i64.const`
    I64Const,
    /// A test of this type.
    Test(ValType, TestOp),
    /// A comparison of this type.
    Compare(ValType, CompareOp),
    /// A unary operator of this type.
    Unary(ValType, UnaryOp),
    /// A binary operator of this type.
    Binary(ValType, BinaryOp),
    /// A conversion.
    Convert(ConvertOp),
}

/// A construct that is open while instructions are read, by whether an `else` may come directly in it.
#[derive(Clone, Copy, Debug, PartialEq, Eq)]
pub enum Open {
    /// The first part of an `if`.
    Then,
    /// A block, a loop, or the second part of an `if`.
    Other,
}

/// What an export names (2.5.10), by the index that stands beside it.
#[derive(Clone, Copy, Debug, PartialEq, Eq)]
pub enum ExternKind {
    /// A function.
    Func,
    /// A table.
    Table,
    /// A memory.
    Memory,
    /// A global.
    Global,
}
