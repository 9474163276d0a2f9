//! What a linear memory is asked, and what it answers.

/// Bytes that an instruction wants to read or to write.
#[derive(Clone, Copy, Debug, PartialEq, Eq)]
pub struct Need {
    /// The first byte.
    pub at: u64,
    /// How many bytes.
    pub length: usize,
    /// Whether they are to be written.
    pub writes: bool,
}

/// How a read or a write of bytes ended.
#[derive(Clone, Copy, Debug, PartialEq, Eq)]
pub enum Got {
    /// It was done.
    Value,
    /// The bytes aren't all in the memory (4.4.4).
    Trap,
    /// The bytes can't be had now, and nothing changed.
    NotReady(Need),
}

/// How a growth ended (4.4.4).
#[derive(Clone, Copy, Debug, PartialEq, Eq)]
pub enum Grown {
    /// It was done; before it there were this many pages of 65536 bytes.
    Done(u32),
    /// It would have passed the greatest size.
    Refused,
}
