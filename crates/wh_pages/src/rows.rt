// The entries in a directory of two levels: leaves of 256 entries.

ghost use Rattle.std.specs.Prelude.{◌≡◌, ℕ, ◌<◌, ◌≤◌, ◌+◌, ◌*◌, IsFalse, Some, IfOk, length, slice_get, slice_set};
ghost use Rattle.wh_pages.specs.declared.entry.PageEntry.{PageEntry};
ghost use Rattle.wh_pages.specs.Leaves.{IsSoughtEntry};

use crate::entry::PageEntry;
use crate::leaf::{LEAF, Leaf};
use std::alloc::{AllocError, Global};
use std::marker::Model;

// Entries, whose number stays.
#[derive(Drop)]
pub struct Rows {
    leaves: Vec<Leaf>,
}

impl Model for Rows {
    ghost use Rattle.std.specs.Prelude.{List};
    ghost use Rattle.wh_pages.specs.declared.entry.PageEntry.{PageEntry};

    ghost Value = { List PageEntry };

    ghost use Rattle.wh_pages.specs.Leaves.{joined_leaves, HasWholeLeaves};

    ghost view = { λ a. joined_leaves a.leaves.items };

    ghost invariant = { λ a. HasWholeLeaves a.leaves.items };
}

impl Rows {
    /// Creates `leaves` leaves of blank entries.
    pub fn new(alloc: Global, leaves: u32) -> Result<Rows, AllocError>
        ensures { IfOk result (λ rows. length rows ≡ 256 * leaves) }
    {
        let mut directory = Vec::with_capacity(alloc, leaves as usize)?;
        for _ in 0..leaves {
            directory.push(Leaf::new(alloc)?)?;
        }
        Ok(Rows { leaves: directory })
    }

    /// Returns the entry at this place.
    #[inline(always)]
    pub fn get(&self, at: u32) -> PageEntry
        requires { at < length self.now }
        ensures { slice_get self.now at ≡ Some result }
    {
        self.leaves[(at / LEAF) as usize].get(at % LEAF)
    }

    /// Tells whether some page of a leaf is resident, and with `idle` also wasn't touched in this epoch.
    pub fn has_sought(&self, leaf: u32, idle: bool) -> bool
        requires { 256 * leaf < length self.now }
        ensures { IsFalse result → (q : ℕ) (entry : PageEntry) → 256 * leaf ≤ q → q < 256 * leaf + 256
            → slice_get self.now q ≡ Some entry → ¬ IsSoughtEntry idle entry }
    {
        self.leaves[leaf as usize].has_sought(idle)
    }

    /// Replaces the entry at this place.
    #[inline(always)]
    pub fn set(&mut self, at: u32, entry: PageEntry)
        requires { at < length self.old }
        ensures { self.new ≡ slice_set self.old at entry }
    {
        self.leaves[(at / LEAF) as usize].set(at % LEAF, entry);
    }
}
