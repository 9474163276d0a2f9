//! Sizes and limits that several crates look at. What they mean is in the definitions, which have their numbers; that code
//! and definitions mean the same is proved where they are used.

/// The bytes of a page of WebAssembly (4.2.8).
pub const WASM_PAGE: usize = 65536;

/// How many pages of WebAssembly a memory may have, 4 GiB (3.2.1).
pub const MOST_WASM_PAGES: u32 = 65536;

/// How many parameters and locals a function may have. This and what follows are this host's own limits (7.2).
pub const MOST_LOCALS: usize = 256;

/// How many operands there may be at any place of a function.
pub const MOST_HEIGHT: usize = 256;

/// How many calls run at once at most.
pub const CALL_DEPTH: usize = 128;

/// How many bytes the host keeps as output of an instance.
pub const OUTPUT_ROOM: usize = 65536;

/// How many bytes one `emit` may append.
pub const MOST_EMITTED: u64 = 4096;
