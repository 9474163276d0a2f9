//! A linear memory as one list of bytes: the plain form of what section 4.2.8 of the W3C WebAssembly Core Specification
//! 1.0 describes, for the plain program and for tests.
//!
//! [`FlatMemory`] is proved to be a `LinearMem` whose bytes are always ready: a load reads exactly the bytes that it
//! names, a store changes exactly those, each traps exactly where they aren't all in the memory, and a growth adds
//! zeros exactly up to the limit. Only creating it allocates, so nothing else can fail for want of memory.
//!
//! Inlined where the count of bytes is known, as for numbers, a load or a store is one test of the bounds and one
//! machine move. The quick ones refuse the few numbers whose first byte is one of the last seven, so that their test is
//! a single comparison.
#![tactic(auto)]

ghost use Rattle.std.specs.Prelude.{◌≡◌, ◌+◌, ◌-◌, ◌*◌, ◌<◌, ◌≤◌, length, replicate, IfOk, IsTrue, IsFalse, vec_capacity, refl};
ghost use Rattle.std.proofs.Common.{◌∙◌};
ghost use Rattle.wh_flatmem.specs.FlatMemoryState.{FlatMemoryState, StartsAt};
ghost use Rattle.wh_model.specs.Execution.Store.{bytes_at, written};

use std::alloc::{AllocError, Global};
use std::marker::Model;
use wh_linmem::{LinearMem, copy_bytes};
use wh_model::{Got, Grown, Need, WASM_PAGE};

// How many bytes a quick load or store takes at most: those of the widest number.
const MOST_QUICK: usize = 8;

/// A linear memory that is one list of bytes, all of them always ready.
///
/// Contracts see its bytes, and the number of pages to which it may grow.
#[derive(Drop)]
pub struct FlatMemory {
    pages: u32,
    limit: u32,
    // Before this place as many bytes begin as a quick load or store takes at most, all of them in the memory.
    quick_end: usize,
    bytes: Vec<u8>,
}

impl Model for FlatMemory {
    ghost Value = { FlatMemoryState };

    ghost view = { λ m. record { bytes = m.bytes.items; limit = m.limit } };

    ghost invariant = { λ m. (length m.bytes.items ≡ m.pages * 65536) × (m.pages ≤ m.limit)
        × (m.limit ≤ 65536) × (m.limit * 65536 ≤ vec_capacity m.bytes)
        × (m.quick_end ≡ length m.bytes.items - 7) };
}

// The place before which each quick load or store, of at most 8 bytes, begins in a memory of this length.
fn quick_end_of(length: usize) -> usize
    ensures { result ≡ length - 7 }
{
    length.saturating_sub(MOST_QUICK - 1)
}

impl FlatMemory {
    /// Creates a memory of `pages` pages of 65536 zero bytes, that may grow to `limit` pages, at most 65536. Reserves
    /// the room for them all, so that growing allocates nothing.
    ///
    /// # Errors
    /// `AllocError` if the allocation fails.
    pub fn new(alloc: Global, pages: u32, limit: u32) -> Result<FlatMemory, AllocError>
        requires within { pages ≤ limit }
        requires most { limit ≤ 65536 }
        ensures bytes { IfOk result (λ m. m.bytes ≡ replicate (pages * 65536) 0) }
        ensures limit { IfOk result (λ m. m.limit ≡ limit) }
    {
        let mut bytes = Vec::with_capacity(alloc, limit as usize * WASM_PAGE)?;
        bytes.resize(pages as usize * WASM_PAGE, 0)?;
        Ok(FlatMemory {
            pages,
            limit,
            quick_end: quick_end_of(bytes.len()),
            bytes,
        })
    }

    /// Returns all its bytes.
    pub fn bytes(&self) -> &[u8]
        ensures { result.now ≡ self.now.bytes }
    {
        self.bytes.as_slice()
    }

    /// Writes these bytes from a place on. They have to end within the memory.
    #[inline(always)]
    pub fn write(&mut self, at: usize, given: &[u8])
        requires { at + length given.now ≤ length self.old.bytes }
        ensures { self.new ≡ record self.old { bytes = written self.old.bytes at given.now } }
    {
        copy_bytes(&mut self.bytes[at..at + given.len()], given);
    }

    // Where `count` bytes begin, if all of them are in the memory.
    #[inline(always)]
    fn place(&self, at: u64, count: usize) -> Option<usize>
        ensures { StartsAt self.now.bytes at count result }
    {
        if at.saturating_add(count as u64) > self.bytes.len() as u64 {
            return None;
        }
        Some(at as usize)
    }

    // Whether a quick load or store takes `count` bytes from this place on. They are in the memory then.
    #[inline(always)]
    fn is_quick(&self, at: u64, count: usize) -> bool
        ensures { IsTrue result → at + count ≤ length self.now.bytes }
    {
        at < self.quick_end as u64 && count <= MOST_QUICK
    }

    // Reads as many bytes as `into` takes, if all of them are in the memory, and says whether it did.
    #[inline(always)]
    fn read(&self, at: u64, into: &mut [u8]) -> bool
        ensures within { IsTrue result → at + length into.old ≤ length self.now.bytes }
        ensures read { IsTrue result → into.new ≡ bytes_at self.now.bytes at (length into.old) }
        ensures beyond { IsFalse result → length self.now.bytes < at + length into.old }
        ensures left { IsFalse result → into.new ≡ into.old }
    {
        let Some(start) = self.place(at, into.len()) else {
            return false;
        };
        into.copy_from_slice(&self.bytes[start..start + into.len()]);
        true
    }

    // Writes these bytes, if all that they replace are in the memory, and says whether it did.
    #[inline(always)]
    fn replace(&mut self, at: u64, given: &[u8]) -> bool
        ensures within { IsTrue result → at + length given.now ≤ length self.old.bytes }
        ensures written { IsTrue result
            → self.new ≡ record self.old { bytes = written self.old.bytes at given.now } }
        ensures beyond { IsFalse result → length self.old.bytes < at + length given.now }
        ensures left { IsFalse result → self.new ≡ self.old }
    {
        let Some(start) = self.place(at, given.len()) else {
            return false;
        };
        self.write(start, given);
        true
    }
}

impl LinearMem for FlatMemory {
    ghost bytes = { λ m. m.bytes };

    ghost limit = { λ m. m.limit };

    ghost ready = { λ _ _. Unit {0} };

    ghost keeps = { λ m n. n.limit ≡ m.limit };

    #[inline(always)]
    fn is_ready(&self, _: Need) -> bool {
        true
    }

    #[inline(always)]
    fn load(&mut self, at: u64, into: &mut [u8]) -> Got {
        if self.read(at, into) {
            Got::Value
        } else {
            Got::Trap
        }
    }

    #[inline(always)]
    fn store(&mut self, at: u64, given: &[u8]) -> Got {
        if self.replace(at, given) {
            Got::Value
        } else {
            Got::Trap
        }
    }

    #[inline(always)]
    fn quick_load(&mut self, at: u64, into: &mut [u8]) -> bool {
        if !self.is_quick(at, into.len()) {
            return false;
        }
        let start = at as usize;
        into.copy_from_slice(&self.bytes[start..start + into.len()]);
        true
    }

    #[inline(always)]
    fn quick_store(&mut self, at: u64, given: &[u8]) -> bool {
        if !self.is_quick(at, given.len()) {
            return false;
        }
        self.write(at as usize, given);
        true
    }

    fn size(&self) -> u32 {
        self.pages
    }

    fn grow(&mut self, pages: u32) -> Grown {
        if pages > self.limit - self.pages {
            return Grown::Refused;
        }
        let before = self.pages;
        let Ok(()) = self.bytes.resize((before + pages) as usize * WASM_PAGE, 0) else {
            unreachable!()
        };
        self.pages = before + pages;
        self.quick_end = quick_end_of(self.bytes.len());
        Grown::Done(before)
    }

    ghost keeps_same = { λ _. refl };

    ghost keeps_more = { λ _ _ _ p q. q ∙ p };

    ghost keeps_limit = { λ _ _ p. p };
}
