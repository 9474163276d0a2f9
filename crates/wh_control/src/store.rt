//! What an instance has besides its memory.

/// The store of an instance (4.2.3) but for its memory: globals, table, and what host functions read and write.
#[derive(Drop)]
pub struct Store {
    /// The globals, imported ones first; an i32 in the low 32 bits.
    pub globals: Vec<u64>,
    /// The table, with the index of a function in each entry that has one.
    pub table: Vec<Option<u32>>,
    /// The words that `input` reads.
    pub inputs: Vec<u64>,
    /// The bytes that `put` and `emit` have written, at most 65536, for which room is reserved.
    pub output: Vec<u8>,
}
