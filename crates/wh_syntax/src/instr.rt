//! Instructions with their immediates.

use wh_model::{BinaryOp, CompareOp, ConvertOp, LoadOp, StoreOp, TestOp, UnaryOp, ValType};

/// An instruction in binary order, with its immediates (5.4). It takes 16 bytes: the labels of a `br_table` are in a
/// pool of the expression.
#[derive(Clone, Copy, Debug, PartialEq, Eq)]
pub enum Instr {
    /// `unreachable`
    Unreachable,
    /// `nop`
    Nop,
    /// `block`, with its result type
    Block(Option<ValType>),
    /// `loop`, with its result type
    Loop(Option<ValType>),
    /// `if`, with its result type
    If(Option<ValType>),
    /// `else`
    Else,
    /// `end`
    End,
    /// `br`, with its label
    Br(u32),
    /// `br_if`, with its label
    BrIf(u32),
    /// `br_table`: `count` labels of the pool from `first` on, and after them the default label
    BrTable {
        /// The place of the first label in the pool.
        first: u32,
        /// How many labels there are besides the default one.
        count: u32,
    },
    /// `return`
    Return,
    /// `call`, with its function
    Call(u32),
    /// `call_indirect`, with its type
    CallIndirect(u32),
    /// `drop`
    Drop,
    /// `select`
    Select,
    /// `local.get`, with its local
    LocalGet(u32),
    /// `local.set`, with its local
    LocalSet(u32),
    /// `local.tee`, with its local
    LocalTee(u32),
    /// `global.get`, with its global
    GlobalGet(u32),
    /// `global.set`, with its global
    GlobalSet(u32),
    /// A load
    Load {
        /// Which load it is.
        op: LoadOp,
        /// The exponent of the alignment.
        align: u32,
        /// What is added to the address, in bytes.
        offset: u32,
    },
    /// A store
    Store {
        /// Which store it is.
        op: StoreOp,
        /// The exponent of the alignment.
        align: u32,
        /// What is added to the address, in bytes.
        offset: u32,
    },
    /// `memory.size`
    MemorySize,
    /// `memory.grow`
    MemoryGrow,
    /// `i32.const`
    I32Const(i32),
    /// `i64.const`
    I64Const(i64),
    /// A test of this type
    Test(ValType, TestOp),
    /// A comparison of this type
    Compare(ValType, CompareOp),
    /// A unary operator of this type
    Unary(ValType, UnaryOp),
    /// A binary operator of this type
    Binary(ValType, BinaryOp),
    /// A conversion
    Convert(ConvertOp),
}

const _: () = prove!(size_of::<Instr>() <= 16);
