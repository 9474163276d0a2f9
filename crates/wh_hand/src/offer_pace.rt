// When pages are offered for sharing, and when epochs begin.

// For how many turns a page is offered.
const TURNS_FOR_AN_OFFER: u32 = 32;

// For how many charges an epoch begins at most.
const CHARGES_OF_AN_EPOCH: u64 = 1_000_000;

// An odd number, by the multiples of which instances are chosen whose page is offered: it is 2^64 over the golden ratio.
const STRIDE: u64 = 0x9E37_79B9_7F4A_7C15;

/// What was done since pages were offered, and since an epoch began.
#[derive(Clone, Copy, Debug, PartialEq, Eq)]
pub struct OfferPace {
    // Turns since the last offer.
    turns: u32,
    // Charges since the last epoch began.
    charges: u64,
    // How many pages were offered, modulo 2^64.
    offered: u64,
}

impl OfferPace {
    /// Creates the pace of a host that had no turn yet: its first turn begins an epoch.
    pub fn new() -> OfferPace {
        OfferPace {
            turns: 0,
            charges: CHARGES_OF_AN_EPOCH,
            offered: 0,
        }
    }

    /// Counts a turn that took `charges` charges; tells whether a page is to be offered now, as one is every 32 turns.
    pub fn count(&mut self, charges: u64) -> bool {
        self.charges = self.charges.saturating_add(charges);
        self.turns = self.turns.wrapping_add(1);
        if self.turns < TURNS_FOR_AN_OFFER {
            return false;
        }
        self.turns = 0;
        true
    }

    /// Returns the next offer: which of the instances it is, from 0 on, and a number by which its page is chosen.
    /// Returns `None` if there are no instances.
    pub fn next_offer(&mut self, instances: usize) -> Option<(usize, u64)> {
        if instances == 0 {
            return None;
        }
        let number = self.offered;
        self.offered = number.wrapping_add(1);
        let mixed = number.wrapping_mul(STRIDE) >> 32;
        Some(((mixed % instances as u64) as usize, number))
    }

    /// Begins an epoch if 1000000 charges were counted in this one; tells whether it did.
    pub fn begins_epoch(&mut self) -> bool {
        if self.charges < CHARGES_OF_AN_EPOCH {
            return false;
        }
        self.charges = 0;
        true
    }
}
