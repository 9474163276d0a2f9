//! Runs of all calls by the owner of a host, where no thread works: turns, provisions for those that wait for frames, and offers.

ghost use Rattle.std.specs.Prelude.{◌≡◌, ◌+◌, ◌-◌, ◌/◌, ◌^◌, ◌<◌, ◌≤◌, ◌⊎◌, ℕ, Some, length, slice_get, false, true};
ghost use Rattle.wh_cell.specs.Owning.{ComesOn};
ghost use Rattle.wh_scheduler.specs.InHand.{EachCanOffer, EachIs, Rests, RunsHere, WorksHere, left_of};

use crate::owned::OwnedHost;
use crate::scan_job::page_in_round;
use std::sync::ledger::Ledger;
use wh_cell::CellAgreements;
use wh_kernels::PageHash;
use wh_space_model::InstId;
use wh_swap::SwapDev;
use wh_workers::TURNS_FOR_AN_OFFER;

/// What the owner of a host did itself until no call could go on.
#[derive(Clone, Copy, Debug, PartialEq, Eq)]
pub struct WorkHere {
    /// How many turns it ran.
    pub turns: u64,
    /// How many pages it offered.
    pub offers: u64,
    /// Whether no call can go on.
    pub rests: bool,
}

// Runs a turn of `quantum` charges of an instance. If its call waits for a frame, makes its step ready before; if the
// device fails then, the call is blocked on that fault, and the turn is `Idle`.
fn turn_ready<D: SwapDev, T: Ledger, C: Ledger, O: Ledger, E: Ledger, B: CellAgreements>(
    host: &mut OwnedHost<D, T, C, O, E, B>,
    id: InstId,
    quantum: u32,
)
    requires room { host.old.own.turns < 2 ^ 64 - 1 }
    ensures came { ComesOn D.keeps D.honest D.faults (left_of host.old) (left_of host.new) }
    ensures works { WorksHere host.old.books host.old.own 1 0 host.new.books host.new.own }
{
    let _ = host.provide_here(id);
    let _ = host.turn_here(id, quantum);
}

// Runs a turn of each of these instances, one after the other, whose call can make progress, while fewer than `most`
// were run; returns how many were.
fn turn_each<D: SwapDev, T: Ledger, C: Ledger, O: Ledger, E: Ledger, B: CellAgreements>(
    host: &mut OwnedHost<D, T, C, O, E, B>,
    ids: &[InstId],
    most: u64,
    quantum: u32,
) -> u64
    requires some { 0 < most }
    requires room { host.old.own.turns + most < 2 ^ 64 }
    ensures came { ComesOn D.keeps D.honest D.faults (left_of host.old) (left_of host.new) }
    ensures few { result ≤ most }
    ensures works { WorksHere host.old.books host.old.own result 0 host.new.books host.new.own }
    ensures rests { result ≡ 0 → EachIs Rests host.new.host ids.now }
    ensures some { 0 < result → 0 < length ids.now }
{
    host.invariant();
    let mut turns: u64 = 0;
    for at in 0..ids.len() {
        if turns >= most {
            break;
        }
        let id = ids[at];
        if host.host().can_go_on(id) {
            turn_ready(host, id, quantum);
            turns += 1;
        }
    }
    turns
}

// The one of these instances whose page is offered after `count` offers.
fn next_of(ids: &[InstId], count: u64) -> InstId
    requires some { 0 < length ids.now }
    ensures { (i : ℕ) × (slice_get ids.now i ≡ Some result) }
{
    ids[(count % ids.len() as u64) as usize]
}

// Offers the page of these instances whose turn it is, under the hash of its bytes. Whether it was offered.
fn offer_next<
    D: SwapDev,
    T: Ledger,
    C: Ledger,
    O: Ledger,
    E: Ledger,
    B: CellAgreements,
    H: PageHash,
>(host: &mut OwnedHost<D, T, C, O, E, B>, ids: &[InstId], hasher: &H) -> bool
    requires some { 0 < length ids.now }
    ensures came { ComesOn D.keeps D.honest D.faults (left_of host.old) (left_of host.new) }
    ensures works { result ≡ true
        → WorksHere host.old.books host.old.own 0 1 host.new.books host.new.own }
    ensures none { result ≡ false → ((¬ EachCanOffer host.old.host ids.now)
        ⊎ (host.old.own.offers ≡ 2 ^ 64 - 1)) × (host.new.host ≡ host.old.host)
        × (host.new.books ≡ host.old.books) × (host.new.own ≡ host.old.own) }
{
    let count = host.own_count().offers;
    let id = next_of(ids, count);
    let round = count / ids.len() as u64;
    let page = page_in_round(round, host.host().size_at(id.place));
    let hash = match host.host().sample(id, page) {
        Some(sample) => hasher.hash(&sample.bytes),
        None => 0,
    };
    host.offer_here(hasher, id, page, hash).is_some()
}

/// Offers `wanted` pages of these instances, or as many as can be offered; returns how many were.
pub fn offer_some<
    D: SwapDev,
    T: Ledger,
    C: Ledger,
    O: Ledger,
    E: Ledger,
    B: CellAgreements,
    H: PageHash,
>(host: &mut OwnedHost<D, T, C, O, E, B>, ids: &[InstId], hasher: &H, wanted: u64) -> u64
    requires some { 0 < length ids.now }
    ensures came { ComesOn D.keeps D.honest D.faults (left_of host.old) (left_of host.new) }
    ensures few { result ≤ wanted }
    ensures works { WorksHere host.old.books host.old.own 0 result host.new.books host.new.own }
    ensures all { EachCanOffer host.old.host ids.now → (result ≡ wanted)
        ⊎ (host.new.own.offers ≡ 2 ^ 64 - 1) }
{
    host.invariant();
    let mut offers: u64 = 0;
    while offers < wanted {
        if !offer_next(host, ids, hasher) {
            return offers;
        }
        offers += 1;
    }
    offers
}

impl<D: SwapDev, T: Ledger, C: Ledger, O: Ledger, E: Ledger, B: CellAgreements> OwnedHost<
    D,
    T,
    C,
    O,
    E,
    B,
> {
    /// Runs the calls of `ids` until none can make progress, in turns of at most `quantum` charges, in that order again
    /// and again, and in the calling thread: under no lock and through no channel. Before the turn of a call that waits
    /// for a frame its step is made ready; for each 64 turns a page of these instances is offered under its hash.
    /// Allocates nothing.
    ///
    /// Returns what was done. The owner's own count has it, and so do the books; no thread's count changes.
    pub fn drain_here<H: PageHash>(&mut self, ids: &[InstId], quantum: u32, hasher: &H) -> WorkHere
        ensures came { ComesOn D.keeps D.honest D.faults (left_of self.old) (left_of self.new) }
        ensures works { WorksHere self.old.books self.old.own result.turns result.offers
            self.new.books self.new.own }
        ensures rests { result.rests ≡ true → EachIs Rests self.new.host ids.now }
        ensures most { result.rests ≡ false → self.new.own.turns ≡ 2 ^ 64 - 1 }
        ensures owed { EachCanOffer self.old.host ids.now → (result.turns / 64 ≤ result.offers)
            ⊎ (self.new.own.offers ≡ 2 ^ 64 - 1) }
    {
        self.invariant();
        let most = u64::MAX - self.own_count().turns;
        let mut turns: u64 = 0;
        let mut offers: u64 = 0;
        while turns < most {
            let more = turn_each(self, ids, most - turns, quantum);
            if more == 0 {
                return WorkHere {
                    turns,
                    offers,
                    rests: true,
                };
            }
            turns += more;
            let owed = (turns / TURNS_FOR_AN_OFFER).saturating_sub(offers);
            offers += offer_some(self, ids, hasher, owed);
        }
        WorkHere {
            turns,
            offers,
            rests: false,
        }
    }
}
