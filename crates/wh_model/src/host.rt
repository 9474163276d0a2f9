//! What the host offers for import, in its module `host`. These items are this host's own.

/// A function that the host offers for import.
#[derive(Clone, Copy, Debug, PartialEq, Eq)]
pub enum HostFunc {
    /// `input`, `[i32] -> [i64]`: the input word at that place.
    Input,
    /// `put`, `[i64] -> []`: appends the 8 bytes of the operand to the output, the lowest first.
    Put,
    /// `emit`, `[i32 i32] -> []`: appends bytes of the memory, given by address and length, to the output.
    Emit,
}

/// A global that the host offers for import. It is never written; the owner of an instance gives its
/// value.
#[derive(Clone, Copy, Debug, PartialEq, Eq)]
pub enum HostGlobal {
    /// `base`, an i32.
    Base,
    /// `salt`, an i64.
    Salt,
}

/// An item that the host offers for import.
#[derive(Clone, Copy, Debug, PartialEq, Eq)]
pub enum HostItem {
    /// A function.
    Func(HostFunc),
    /// A global.
    Global(HostGlobal),
}
