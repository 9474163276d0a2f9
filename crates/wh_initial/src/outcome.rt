//! What is handed out.

use wh_control::Store;

/// What an instance begins with.
#[derive(Drop)]
pub struct Instantiated {
    /// The globals, the table with the elements written into it, and no output yet, with room for 65536 bytes.
    pub store: Store,
    /// The first size of the memory, in pages of 65536 bytes.
    pub pages: u32,
    /// To how many pages the memory may grow.
    pub page_limit: u32,
    /// Where the first byte of each data segment of the module belongs in the memory, in order.
    pub places: Vec<u32>,
}
