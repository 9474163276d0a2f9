// What is done to one linear memory, and what has to come of it.

use wh_linmem::LinearMem;
use wh_model::{Got, Grown, Need};

/// The outcome of a load or a store.
#[derive(Clone, Copy)]
pub enum End {
    /// It is done.
    Done,
    /// It traps.
    Traps,
    /// It waits for these very bytes.
    Waits,
}

impl End {
    /// Returns the answer of that load or store.
    pub fn answer(self, need: Need) -> Got {
        match self {
            End::Done => Got::Value,
            End::Traps => Got::Trap,
            End::Waits => Got::NotReady(need),
        }
    }
}

/// What is done to a linear memory, and what has to come of it. Loads read into bytes that are 9, so that those are wanted where
/// nothing is read.
#[derive(Clone, Copy)]
pub enum Access {
    /// A load at an address: the bytes that are there then.
    Load(u64, &'static [u8], End),
    /// A store of these bytes at an address.
    Store(u64, &'static [u8], End),
    /// A quick load, and whether it is done.
    QuickLoad(u64, &'static [u8], bool),
    /// A quick store, and whether it is done.
    QuickStore(u64, &'static [u8], bool),
    /// Whether this many bytes from an address on are ready to be written.
    Ready(u64, usize, bool),
    /// The size in pages of 65536 bytes.
    Size(u32),
    /// A growth by this many pages of 65536 bytes.
    Grow(u32, Grown),
}

// Whether a load of as many bytes as wanted at an address ends so, and these bytes are there then.
fn load<M: LinearMem>(memory: &mut M, at: u64, wanted: &[u8], end: End) -> bool {
    let length = wanted.len();
    if length > 8 {
        return false;
    }
    let mut bytes = [9; 8];
    let got = memory.load(at, &mut bytes[..length]);
    let need = Need {
        at,
        length,
        writes: false,
    };
    got == end.answer(need) && &bytes[..length] == wanted
}

fn quick_load<M: LinearMem>(memory: &mut M, at: u64, wanted: &[u8], is_done: bool) -> bool {
    let length = wanted.len();
    if length > 8 {
        return false;
    }
    let mut bytes = [9; 8];
    let was_done = memory.quick_load(at, &mut bytes[..length]);
    was_done == is_done && &bytes[..length] == wanted
}

fn store<M: LinearMem>(memory: &mut M, at: u64, given: &[u8], end: End) -> bool {
    let length = given.len();
    if length > 4096 {
        return false;
    }
    let need = Need {
        at,
        length,
        writes: true,
    };
    memory.store(at, given) == end.answer(need)
}

fn quick_store<M: LinearMem>(memory: &mut M, at: u64, given: &[u8], is_done: bool) -> bool {
    given.len() <= 4096 && memory.quick_store(at, given) == is_done
}

fn is_ready<M: LinearMem>(memory: &M, at: u64, length: usize) -> bool {
    memory.is_ready(Need {
        at,
        length,
        writes: true,
    })
}

/// Tells whether the access came out as it says.
pub fn agrees<M: LinearMem>(memory: &mut M, access: Access) -> bool {
    match access {
        Access::Load(at, wanted, end) => load(memory, at, wanted, end),
        Access::Store(at, given, end) => store(memory, at, given, end),
        Access::QuickLoad(at, wanted, is_done) => quick_load(memory, at, wanted, is_done),
        Access::QuickStore(at, given, is_done) => quick_store(memory, at, given, is_done),
        Access::Ready(at, length, is) => is_ready(memory, at, length) == is,
        Access::Size(pages) => memory.size() == pages,
        Access::Grow(pages, grown) => memory.grow(pages) == grown,
    }
}
