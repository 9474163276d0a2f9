// What the owner has counted itself.

ghost use Rattle.std.specs.Prelude.{◌≡◌, ◌+◌, ◌*◌, ◌^◌, ◌<◌, ◌≤◌};

/// What the owner itself has done where no thread worked, since the books were opened.
#[derive(Clone, Copy, Debug, PartialEq, Eq)]
pub struct OwnCount {
    /// Turns that it ran.
    pub turns: u64,
    /// Their charges. A turn takes fewer than 2^32.
    pub charges: u128,
    /// Pages that it offered.
    pub offers: u64,
    /// Pages that it evicted.
    pub evictions: u64,
}

impl OwnCount {
    // Nothing.
    pub(crate) fn none() -> OwnCount
        ensures { result ≡ record { turns = 0; charges = 0; offers = 0; evictions = 0 } }
    {
        OwnCount {
            turns: 0,
            charges: 0,
            offers: 0,
            evictions: 0,
        }
    }

    // The count with one more turn, which took `taken` charges.
    pub(crate) fn with_turn(self, taken: u32) -> OwnCount
        requires room { self.turns + 1 < 2 ^ 64 }
        requires few { self.charges ≤ self.turns * 2 ^ 32 }
        ensures turned { result
            ≡ record self { turns = self.turns + 1; charges = self.charges + taken } }
        ensures few { result.charges ≤ result.turns * 2 ^ 32 }
    {
        OwnCount {
            turns: self.turns + 1,
            charges: self.charges + u128::from(taken),
            ..self
        }
    }
}
