//! What there is around a body (3.1.1).

use wh_model::ValType;
use wh_syntax::{FuncType, GlobalType, Limits, TableType};

/// What a module gives its bodies, in the order of the indices: what is imported comes first.
#[derive(Clone, Copy)]
pub struct Context<'a> {
    /// The function types.
    pub types: &'a [FuncType],
    /// The index of the type of each function. It is below the number of types.
    pub funcs: &'a [u32],
    /// The types of the tables.
    pub tables: &'a [TableType],
    /// The sizes of the memories.
    pub memories: &'a [Limits],
    /// The types of the globals.
    pub globals: &'a [GlobalType],
}

/// What there is around the instructions of one body.
#[derive(Clone, Copy)]
pub struct Around<'a> {
    pub context: Context<'a>,
    pub params: &'a [ValType],
    pub locals: &'a [ValType],
    pub result: Option<ValType>,
}
