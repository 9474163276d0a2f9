//! Who gives up a page when a frame is wanted: shares of memory under a tax on idle pages.
//!
//! An instance with `S` shares, to which `P` frames are charged, on `A` of which a page was touched, weighs
//! `w = A * (den - num) + (P - A) * den`, and its fraction is `S * (den - num) / w`. The instance with the least fraction pays.

ghost use Rattle.std.specs.Prelude.{◌≡◌, ◌↔◌, ◌≤◌};
ghost use Rattle.wh_space_model.specs.Tax.{weight, RhoLess, RhoEqual};

use std::cmp::Ordering;
use wh_space_model::{Claim, Tax};

/// Returns the weight of the claim's frames: `den - num` for each active one, and `den` for each other one.
pub fn weight(tax: Tax, claim: &Claim) -> u64
    ensures exact { result ≡ weight tax claim.now }
    ensures within { result ≤ 65536000 }
{
    let idle = claim.pages - claim.active;
    u64::from(claim.active) * u64::from(tax.den - tax.num) + u64::from(idle) * u64::from(tax.den)
}

/// Compares the fractions (shares by weight) of two claims. The comparison is exact: nothing is divided.
pub fn cmp_rho(tax: Tax, first: &Claim, second: &Claim) -> Ordering
    ensures less { (result ≡ Ordering.Less) ↔ RhoLess tax first.now second.now }
    ensures equal { (result ≡ Ordering.Equal) ↔ RhoEqual tax first.now second.now }
    ensures greater { (result ≡ Ordering.Greater) ↔ RhoLess tax second.now first.now }
{
    let here = u64::from(first.shares) * weight(tax, second);
    let there = u64::from(second.shares) * weight(tax, first);
    here.cmp(&there)
}
