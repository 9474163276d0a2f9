// Which page leaves.

ghost use Rattle.std.specs.Prelude.{◌≡◌, ◌+◌, ◌<◌, None, Some, MatchBool, MatchOption, length};
ghost use Rattle.wh_space_model.specs.Claims.{MustLeave, NobodyPays, NoneMustLeave};
ghost use Rattle.wh_space_model.specs.Tickets.{WaitsForBytes};
ghost use Rattle.wh_reclaim.specs.Choosing.{IsPayerBelow, PaysBefore};

use crate::tax::cmp_rho;
use std::cmp::Ordering;
use wh_model::Need;
use wh_space::Memory;
use wh_space_model::{Claim, Tax};

/// A page of the instance at a place.
#[derive(Clone, Copy, Debug, PartialEq, Eq)]
pub struct PageOf {
    /// The place.
    pub place: usize,
    /// The number of the page.
    pub page: u32,
}

// An instance that may have to pay.
#[derive(Clone, Copy)]
pub struct Payer {
    pub place: usize,
    // How many instances came before it.
    pub number: u64,
    pub claim: Claim,
}

// Whether the instance may have to pay if a charged page of it can leave: more frames are charged to it than its minimum.
fn is_above(claim: &Claim) -> bool
    ensures { MatchBool result (claim.now.min < claim.now.pages)
        (¬ (claim.now.min < claim.now.pages)) }
{
    claim.min < claim.pages
}

// Whether the first of two pays before the second: it has less to claim, or as little and the lower number.
fn pays_before(tax: Tax, first: Payer, second: Payer) -> bool
    ensures { MatchBool result (PaysBefore tax first second) (¬ PaysBefore tax first second) }
{
    match cmp_rho(tax, &first.claim, &second.claim) {
        Ordering::Less => true,
        Ordering::Equal => first.number < second.number,
        Ordering::Greater => false,
    }
}

// Whether the first pays before this one, if there is one.
fn pays_before_any(tax: Tax, first: Payer, payer: Option<Payer>) -> bool
    ensures { MatchBool result
        ((best : Payer) → payer ≡ Some best → PaysBefore tax first best)
        ((best : Payer) × (payer ≡ Some best) × ¬ PaysBefore tax first best) }
{
    match payer {
        Some(best) => pays_before(tax, first, best),
        None => true,
    }
}

// The one that pays, of those at the places below and the one at this place. At the pages of that one it looks where it pays
// before the others.
fn next_payer(memory: &Memory, place: usize, payer: Option<Payer>) -> Option<Payer>
    requires { IsPayerBelow memory.now place payer }
    ensures { IsPayerBelow memory.now (place + 1) result }
{
    let Some((number, claim)) = memory.claim_at(place) else {
        return payer;
    };
    if !is_above(&claim) {
        return payer;
    }
    let next = Payer {
        place,
        number,
        claim,
    };
    if !pays_before_any(memory.tax(), next, payer) {
        return payer;
    }
    if !memory.has_page_to_take(place) {
        return payer;
    }
    Some(next)
}

// The one that pays, or none where nobody has to. It looks at each instance, once.
fn payer_of(memory: &Memory) -> Option<Payer>
    ensures { IsPayerBelow memory.now (length memory.now.occupants) result }
{
    let mut payer = None;
    for place in 0..memory.places() {
        payer = next_payer(memory, place, payer);
    }
    payer
}

/// Returns the page to evict if a step of the instance at this place lacks a frame: that of the instance that pays; if
/// nobody pays, a sharer of a frame that the step writes, so that the write needs no copy; if there is none, one of its
/// own; or none. Looks at each instance once, and allocates nothing.
pub fn page_to_take(memory: &Memory, place: usize, need: Need) -> Option<PageOf>
    requires { WaitsForBytes memory.now place need }
    ensures { MatchOption result (NoneMustLeave memory.now place need)
        (λ taken. MustLeave memory.now place need taken.place taken.page) }
{
    let Some(payer) = payer_of(memory) else {
        return page_unpaid(memory, place, need);
    };
    let Some(page) = memory.taken_page(payer.place) else {
        unreachable!()
    };
    Some(PageOf {
        place: payer.place,
        page,
    })
}

// The same where nobody has to pay.
fn page_unpaid(memory: &Memory, place: usize, need: Need) -> Option<PageOf>
    requires stands { WaitsForBytes memory.now place need }
    requires nobody { NobodyPays memory.now }
    ensures { MatchOption result (NoneMustLeave memory.now place need)
        (λ taken. MustLeave memory.now place need taken.place taken.page) }
{
    if let Some(shed) = memory.shed_page(place, need) {
        return Some(PageOf {
            place: shed.place as usize,
            page: shed.page,
        });
    }
    let page = memory.given_page(place)?;
    Some(PageOf { place, page })
}
