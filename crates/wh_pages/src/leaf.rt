// A leaf of the directory: entries with counts of them.

ghost use Rattle.std.specs.Prelude.{◌≡◌, ◌<◌, IsFalse, IfOk, Some, length, slice_get};
ghost use Rattle.std.specs.List.{All};
ghost use Rattle.std.specs.Vec.{with_item};
ghost use Rattle.wh_pages.specs.Leaves.{IsSoughtEntry};

use crate::entry::PageEntry;
use std::alloc::{AllocError, Global};
use std::marker::Model;

// How many entries a leaf has.
pub const LEAF: u32 = 256;

// Entries, with how many of their pages are resident, and how many of these were touched in this epoch.
#[derive(Drop)]
pub struct Leaf {
    entries: Vec<PageEntry>,
    residents: u32,
    actives: u32,
}

impl Model for Leaf {
    ghost use Rattle.std.specs.Global.{Vec as Items};
    ghost use Rattle.wh_pages.specs.declared.entry.PageEntry.{PageEntry as OneEntry};

    ghost Value = { Items OneEntry };

    ghost use Rattle.wh_pages.specs.Leaves.{AreCountsOf};

    ghost view = { λ a. a.entries };

    ghost invariant = { λ a. AreCountsOf a.entries.items a.residents a.actives };
}

impl Leaf {
    /// Creates a leaf of 256 blank entries.
    pub fn new(alloc: Global) -> Result<Leaf, AllocError>
        ensures { IfOk result (λ leaf. length leaf.items ≡ 256) }
    {
        let entries = vec![in alloc; PageEntry::blank(); LEAF as usize]?;
        Ok(Leaf {
            entries,
            residents: 0,
            actives: 0,
        })
    }

    /// Returns the entry at this place.
    #[inline(always)]
    pub fn get(&self, at: u32) -> PageEntry
        requires { at < 256 }
        ensures { slice_get self.now.items at ≡ Some result }
    {
        self.entries[at as usize]
    }

    /// Replaces the entry at this place.
    #[inline(always)]
    pub fn set(&mut self, at: u32, entry: PageEntry)
        requires { at < 256 }
        ensures { self.new ≡ with_item self.old at entry }
    {
        let old = self.entries[at as usize];
        self.residents = self.residents - old.residents() + entry.residents();
        self.actives = self.actives - old.actives() + entry.actives();
        self.entries[at as usize] = entry;
    }

    /// Tells whether some page is resident, and with `idle` also wasn't touched in this epoch.
    pub fn has_sought(&self, idle: bool) -> bool
        ensures { IsFalse result → All (λ entry. ¬ IsSoughtEntry idle entry) self.now.items }
    {
        let others = if idle { self.actives } else { 0 };
        self.residents > others
    }
}
