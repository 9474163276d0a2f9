//! Who gives up a page by `wh_reclaim`: worked examples.

ghost use Rattle.std.specs.Prelude.{◌≤◌};

use crate::tables::{agree, first_other};
use anyhow::Result;
use std::cmp::Ordering;
use wh_reclaim::{cmp_rho, weight};
use wh_space_model::{Claim, Tax};

// What a busy instance and an idle one weigh under a tax.
const WEIGHTS: [u64; 2] = [100, 200];

// How claims of one share more, of one less and of as many stand to each other.
const ORDERS: [Ordering; 3] = [Ordering::Greater, Ordering::Less, Ordering::Equal];

// A claim with 100 shares and a page that can leave.
fn claim(min: u32, pages: u32, active: u32) -> Claim
    requires pages { pages ≤ 65536 }
    requires active { active ≤ pages }
{
    Claim {
        shares: 100,
        min,
        pages,
        active,
        can_leave: true,
    }
}

fn weights() -> [u64; 2] {
    let taxed = Tax { num: 3, den: 4 };
    [
        weight(taxed, &claim(2, 100, 100)),
        weight(taxed, &claim(2, 50, 0)),
    ]
}

// A claim of `shares` shares, at the ends of the ranges.
fn greatest(shares: u32) -> Claim
    requires above { 1 ≤ shares }
    requires within { shares ≤ 1000000 }
{
    Claim {
        shares,
        min: 2,
        pages: 65536,
        active: 0,
        can_leave: true,
    }
}

fn orders() -> [Ordering; 3] {
    let tax = Tax {
        num: 999,
        den: 1000,
    };
    let most = greatest(1000000);
    let one_less = greatest(999999);
    [
        cmp_rho(tax, &most, &one_less),
        cmp_rho(tax, &one_less, &most),
        cmp_rho(tax, &most, &most),
    ]
}

/// Looks at each answer: how many they are.
pub fn check() -> Result<usize> {
    agree("weights", first_other(&weights(), &WEIGHTS))?;
    agree("claims compared", first_other(&orders(), &ORDERS))?;
    Ok(WEIGHTS.len() + ORDERS.len())
}
