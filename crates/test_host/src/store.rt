// Where the swap device of the tests keeps its pages.

ghost use Rattle.std.specs.Prelude.{⊤, [], get_or};

use std::cell::Cell;
use std::io;
use std::rc::Rc;
use wh_swap::Pages;

/// Pages in memory. One of the coming calls fails, if that was asked for: the one of this number, from 1 on.
pub struct Store {
    pages: Vec<[u8; 4096]>,
    failing: Rc<Cell<u32>>,
    // How many pages were put and got.
    put: Rc<Cell<u64>>,
    got: Rc<Cell<u64>>,
}

impl Drop for Store {
    fn drop(self) {
        let Store {
            pages: _,
            failing: _,
            put: _,
            got: _,
        } = self;
    }
}

impl Store {
    /// Creates a store of these pages, whose call that the first cell numbers fails. The others count the pages that are put
    /// and got.
    pub fn new(
        pages: Vec<[u8; 4096]>,
        failing: Rc<Cell<u32>>,
        put: Rc<Cell<u64>>,
        got: Rc<Cell<u64>>,
    ) -> Store {
        Store {
            pages,
            failing,
            put,
            got,
        }
    }

    // Whether the present call fails.
    fn fails(&self) -> bool {
        let left = self.failing.get();
        self.failing.set(left.saturating_sub(1));
        left == 1
    }
}

impl Pages for Store {
    ghost tells = { λ _. ⊤ };

    ghost page = { λ store k. get_or store.pages.items k [] };

    fn get(&mut self, at: u32, into: &mut [u8; 4096]) -> io::Result<()> {
        if self.fails() {
            return Err(io::ErrorKind::InvalidInput.into());
        }
        let Some(bytes) = self.pages.get(at as usize) else {
            return Err(io::ErrorKind::InvalidInput.into());
        };
        *into = *bytes;
        self.got.set(self.got.get().wrapping_add(1));
        Ok(())
    }

    fn put(&mut self, at: u32, from: &[u8; 4096]) -> io::Result<()> {
        if self.fails() {
            return Err(io::ErrorKind::InvalidInput.into());
        }
        if at as usize >= self.pages.len() {
            return Err(io::ErrorKind::InvalidInput.into());
        }
        self.pages[at as usize] = *from;
        self.put.set(self.put.get().wrapping_add(1));
        Ok(())
    }
}
