//! The plain types that the definitions of the shared memory and code share.
//!
//! The definitions themselves are in `specs/`.
#![tactic(auto)]

ghost use Rattle.std.specs.Prelude.{◌≤◌, ◌<◌};

mod laws;
mod plain;
mod states;

pub use laws::space_holds;
pub use plain::{InstId, SwapError};
pub use states::{EvictEnd, FetchEnd, Mark, Offer, Page, Slot};

/// The tax on idle memory: the fraction `num / den` of a frame on which no page was touched is taken from its owner, so
/// that an idle frame costs its owner as much as `den / (den - num)` active ones.
#[derive(Clone, Copy, Debug, PartialEq, Eq)]
pub struct Tax {
    /// The numerator, below the denominator. 0 is no tax.
    pub num: u32,
    /// The denominator, 1 to 1000.
    pub den: u32,
    ghost below_one: { num < den },
    ghost den_within: { den ≤ 1000 },
}

/// What one instance brings to the choice of the one that has to give up a page.
#[derive(Clone, Copy, Debug, PartialEq, Eq)]
pub struct Claim {
    /// The share of memory that its owner has, 1 to 1000000, against the shares of the other instances.
    pub shares: u32,
    /// How many frames it may keep in any case.
    pub min: u32,
    /// How many frames are charged to it, at most 65536: a frame that several share is charged to the first of them alone.
    pub pages: u32,
    /// On how many of these a page of any instance was touched in this epoch.
    pub active: u32,
    /// Whether one of its charged pages can leave now.
    pub can_leave: bool,
    ghost shares_above: { 1 ≤ shares },
    ghost shares_within: { shares ≤ 1000000 },
    ghost pages_within: { pages ≤ 65536 },
    ghost active_within: { active ≤ pages },
}
