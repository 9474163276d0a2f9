// What a worker has counted.

ghost use Rattle.std.specs.Prelude.{◌≡◌, ◌+◌, ◌-◌, ◌*◌, ◌^◌, ◌<◌, ◌≤◌, ◌↔◌, IsTrue};

// After more turns there is no room for 64 series of any length.
const MOST_TURNS_BEFORE_SERIES: u64 = 0xffff_ffc0_0000_0000;

/// How many turns a worker has run, and how many charges these took, since the books were opened.
#[derive(Clone, Copy, Debug, PartialEq, Eq)]
pub struct Tally {
    /// Its turns.
    pub turns: u64,
    /// Their charges. A turn takes fewer than 2^32.
    pub charges: u128,
    pub ghost few: { charges ≤ turns * 2 ^ 32 },
}

impl Tally {
    // No turn.
    pub(crate) fn none() -> Tally
        ensures { (result.turns ≡ 0) × (result.charges ≡ 0) }
    {
        Tally {
            turns: 0,
            charges: 0,
        }
    }

    /// Tells whether there is no room for 64 series of any length: it has more than 2^64 - 2^38 turns.
    pub fn is_full(&self) -> bool
        ensures { IsTrue result ↔ (2 ^ 64 - 2 ^ 38 < self.now.turns) }
    {
        self.turns > MOST_TURNS_BEFORE_SERIES
    }

    // The count with `turns` more turns, which took `taken` charges.
    pub(crate) fn with_turns(self, turns: u64, taken: u64) -> Tally
        requires room { self.turns + turns < 2 ^ 64 }
        requires few { taken ≤ turns * 2 ^ 32 }
        ensures { (result.turns ≡ self.turns + turns) × (result.charges ≡ self.charges + taken) }
    {
        Tally {
            turns: self.turns + turns,
            charges: self.charges + u128::from(taken),
        }
    }
}
