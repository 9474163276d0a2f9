//! Runs of calls by the owner of a host while each that can go on waits for a frame: threads would only wake each other.

ghost use Rattle.std.specs.Prelude.{◌≡◌, ◌+◌, ◌-◌, ◌*◌, ◌/◌, ◌^◌, ◌<◌, ◌≤◌, ◌⊎◌, length, true};
ghost use Rattle.wh_cell.specs.Owning.{ComesOn};
ghost use Rattle.wh_scheduler.specs.declared.here.Outlook.TheVariants.{Rests as rests};
ghost use Rattle.wh_scheduler.specs.InHand.{EachCanOffer, EachIs, Rests, RunsHere, WorksHere, left_of};

use crate::draining::{WorkHere, offer_some};
use crate::here::{Outlook, outlook_of};
use crate::owned::OwnedHost;
use std::sync::ledger::Ledger;
use wh_cell::CellAgreements;
use wh_host::Host;
use wh_kernels::PageHash;
use wh_space_model::InstId;
use wh_swap::SwapDev;
use wh_workers::TURNS_FOR_AN_OFFER;

// How many turns the owner runs at most for each page that it evicts.
const MOST_TURNS_FOR_A_PAGE: u64 = 4096;

// How many charges it runs for each, in the long run: about as many as are taken while threads wake each other.
const CHARGES_FOR_A_PAGE: u32 = 16384;

// How many times these it runs at most for one step that it makes ready.
const MOST_AT_ONCE: u64 = 8;

// How many steps of an instance are made ready in a row.
const STEPS_IN_A_ROW: u32 = 16;

// How these instances stand: one can go on at once; or each that can go on waits for a frame; or none can.
fn outlook_of_all(host: &Host, ids: &[InstId]) -> Outlook
    ensures { result ≡ rests → EachIs Rests host.now ids.now }
{
    let mut all = Outlook::Rests;
    for at in 0..ids.len() {
        match outlook_of(host, ids[at]) {
            Outlook::Goes => return Outlook::Goes,
            Outlook::Waits => all = Outlook::Waits,
            Outlook::Rests => {}
        }
    }
    all
}

// How many turns the owner runs for each page that it evicts.
fn turns_for_a_page(quantum: u32) -> u64
    ensures { result ≤ 4096 }
{
    u64::from(CHARGES_FOR_A_PAGE / quantum.max(1)).clamp(1, MOST_TURNS_FOR_A_PAGE)
}

/// Turns of the owner, and how many more it may run before it evicts the next page.
#[derive(Clone, Copy)]
struct Spent {
    turns: u64,
    spare: u64,
}

// Gives an instance turns until it waits for a frame or can't go on, `most` at most. How many they were.
fn turns_until_frame<D: SwapDev, T: Ledger, C: Ledger, O: Ledger, E: Ledger, B: CellAgreements>(
    host: &mut OwnedHost<D, T, C, O, E, B>,
    id: InstId,
    most: u64,
    quantum: u32,
) -> u64
    requires room { host.old.own.turns + most < 2 ^ 64 }
    ensures came { ComesOn D.keeps D.honest D.faults (left_of host.old) (left_of host.new) }
    ensures few { result ≤ most }
    ensures runs { RunsHere host.old.books host.old.own result host.new.books host.new.own }
{
    host.invariant();
    let mut turns: u64 = 0;
    while turns < most {
        host.turn_here(id, quantum);
        turns += 1;
        if outlook_of(host.host(), id) != Outlook::Goes {
            break;
        }
    }
    turns
}

// Makes the step of an instance ready that waits for a frame, and gives it turns until it waits again: no more than are given, and
// `each` for each page that leaves.
fn turns_behind_page<D: SwapDev, T: Ledger, C: Ledger, O: Ledger, E: Ledger, B: CellAgreements>(
    host: &mut OwnedHost<D, T, C, O, E, B>,
    id: InstId,
    given: u64,
    each: u64,
    quantum: u32,
) -> Spent
    requires few { each ≤ 4096 }
    ensures came { ComesOn D.keeps D.honest D.faults (left_of host.old) (left_of host.new) }
    ensures few { result.turns + result.spare + 4096 * host.old.own.evictions
        ≤ given + 4096 * host.new.own.evictions }
    ensures works { WorksHere host.old.books host.old.own result.turns 0 host.new.books
        host.new.own }
    ensures fits { 0 < result.turns → host.new.own.turns < 2 ^ 64 }
{
    let before = host.own_count().evictions;
    if host.provide_here(id).is_err() {
        return Spent {
            turns: 0,
            spare: given,
        };
    }
    let count = host.own_count();
    let gone = count.evictions - before;
    let spare = given.saturating_add(gone.saturating_mul(each));
    let most = spare.min(each * MOST_AT_ONCE).min(u64::MAX - count.turns);
    let turns = turns_until_frame(host, id, most, quantum);
    Spent {
        turns,
        spare: spare - turns,
    }
}

// Makes steps of an instance ready, and gives it turns, while it waits for a frame again and again.
fn turns_behind_pages<D: SwapDev, T: Ledger, C: Ledger, O: Ledger, E: Ledger, B: CellAgreements>(
    host: &mut OwnedHost<D, T, C, O, E, B>,
    id: InstId,
    given: u64,
    each: u64,
    quantum: u32,
) -> Spent
    requires few { each ≤ 4096 }
    ensures came { ComesOn D.keeps D.honest D.faults (left_of host.old) (left_of host.new) }
    ensures few { result.turns + result.spare + 4096 * host.old.own.evictions
        ≤ given + 4096 * host.new.own.evictions }
    ensures works { WorksHere host.old.books host.old.own result.turns 0 host.new.books
        host.new.own }
    ensures fits { 0 < result.turns → host.new.own.turns < 2 ^ 64 }
{
    host.invariant();
    let mut turns: u64 = 0;
    let mut spare = given;
    for _ in 0..STEPS_IN_A_ROW {
        if !host.host().awaits_frame(id) {
            break;
        }
        let more = turns_behind_page(host, id, spare, each, quantum);
        turns += more.turns;
        spare = more.spare;
    }
    Spent { turns, spare }
}

// Makes steps of each of these instances ready that waits for a frame, and gives it turns.
fn turns_behind_each<D: SwapDev, T: Ledger, C: Ledger, O: Ledger, E: Ledger, B: CellAgreements>(
    host: &mut OwnedHost<D, T, C, O, E, B>,
    ids: &[InstId],
    given: u64,
    quantum: u32,
) -> Spent
    ensures came { ComesOn D.keeps D.honest D.faults (left_of host.old) (left_of host.new) }
    ensures few { result.turns + result.spare + 4096 * host.old.own.evictions
        ≤ given + 4096 * host.new.own.evictions }
    ensures works { WorksHere host.old.books host.old.own result.turns 0 host.new.books
        host.new.own }
    ensures fits { 0 < result.turns → host.new.own.turns < 2 ^ 64 }
    ensures some { 0 < result.turns → 0 < length ids.now }
{
    host.invariant();
    let each = turns_for_a_page(quantum);
    let mut turns: u64 = 0;
    let mut spare = given;
    for at in 0..ids.len() {
        let more = turns_behind_pages(host, ids[at], spare, each, quantum);
        turns += more.turns;
        spare = more.spare;
    }
    Spent { turns, spare }
}

impl<D: SwapDev, T: Ledger, C: Ledger, O: Ledger, E: Ledger, B: CellAgreements> OwnedHost<
    D,
    T,
    C,
    O,
    E,
    B,
> {
    /// Runs the calls of `ids` in the calling thread while each that can make progress waits for a frame, under no lock
    /// and through no channel: makes the step of one ready, runs turns of at most `quantum` charges of its instance
    /// until it waits again, and so on, one after the other. These are 4096 at most for each page that is evicted. For
    /// each 64 turns a page of these instances is offered under its hash. Allocates nothing.
    ///
    /// Returns what was done: it ends where a call can go on at once, where none can, or where no page that left allowed a turn. The
    /// owner's own count has it, and so do the books; no thread's count changes.
    pub fn page_here<H: PageHash>(&mut self, ids: &[InstId], quantum: u32, hasher: &H) -> WorkHere
        ensures came { ComesOn D.keeps D.honest D.faults (left_of self.old) (left_of self.new) }
        ensures works { WorksHere self.old.books self.old.own result.turns result.offers
            self.new.books self.new.own }
        ensures few { result.turns + 4096 * self.old.own.evictions ≤ 4096 * self.new.own.evictions }
        ensures rests { result.rests ≡ true → EachIs Rests self.new.host ids.now }
        ensures owed { EachCanOffer self.old.host ids.now → (result.turns / 64 ≤ result.offers)
            ⊎ (self.new.own.offers ≡ 2 ^ 64 - 1) }
    {
        self.invariant();
        let mut turns: u64 = 0;
        let mut spare: u64 = 0;
        let mut offers: u64 = 0;
        let mut outlook = outlook_of_all(self.host(), ids);
        while outlook == Outlook::Waits {
            let more = turns_behind_each(self, ids, spare, quantum);
            if more.turns == 0 {
                break;
            }
            turns += more.turns;
            spare = more.spare;
            let owed = (turns / TURNS_FOR_AN_OFFER).saturating_sub(offers);
            offers += offer_some(self, ids, hasher, owed);
            outlook = outlook_of_all(self.host(), ids);
        }
        WorkHere {
            turns,
            offers,
            rests: outlook == Outlook::Rests,
        }
    }
}
