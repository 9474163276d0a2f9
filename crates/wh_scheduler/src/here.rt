//! What the owner of a host does itself, where no thread works: turns, offers and passes, under no lock and through no
//! channel.

ghost use Rattle.std.specs.Prelude.{◌≡◌, ◌-◌, ◌+◌, ◌^◌, ◌<◌, ◌≤◌, ◌⊎◌, IfNone, IfSome, Ok, OnOk, false, true};
ghost use Rattle.wh_model.specs.declared.memory.Need.{Need};
ghost use Rattle.wh_host_model.specs.Host.Happens.{AwaitsFrame};
ghost use Rattle.wh_host_model.specs.Host.Worlds.{World};
ghost use Rattle.wh_space_model.specs.Offers.{OffersOf};
ghost use Rattle.wh_host.specs.Backing.{KeepsBacking};
ghost use Rattle.wh_host.specs.Hosting.{IsHost};
ghost use Rattle.wh_host.specs.Paging.{IsAwaiting, IsGoing, MovesAnyhow, MovesOnly, MovesWith, Tells, WaitsFor, provide_fault};
ghost use Rattle.wh_host.specs.Sharing.{CanOffer};
ghost use Rattle.wh_swap.specs.DeviceCalls.{ServesOn, call_faults};
ghost use Rattle.wh_cell.specs.Calling.{IsMadeReady};
ghost use Rattle.wh_cell.specs.Counted.{countable, evictions_of, offers_of};
ghost use Rattle.wh_cell.specs.Going.{TurnsIfGoing};
ghost use Rattle.wh_cell.specs.Knowing.{known_of};
ghost use Rattle.wh_cell.specs.Scanned.{IsScanned};
ghost use Rattle.wh_scheduler.specs.declared.here.Outlook.TheVariants.{Rests as rests, Waits};
ghost use Rattle.wh_scheduler.specs.declared.here.HereEnd.TheVariants.{Frame, Most, Rest};
ghost use Rattle.wh_scheduler.specs.InHand.{EachIs, Rests, RestsOrWaits, RunsHere, WorksHere};

use std::sync::ledger::Ledger;
use wh_cell::{Backing, CellAgreements, Locked};
use wh_host::Host;
use wh_host_model::TurnEnd;
use wh_kernels::PageHash;
use wh_space_model::{InstId, Offer, SwapError};
use wh_swap::SwapDev;
use wh_threads::Shares;

/// Why the owner ran no further turn.
#[derive(Clone, Copy, Debug, PartialEq, Eq)]
pub enum HereEnd {
    /// No call can go on.
    Rest,
    /// Each call that can go on waits for a frame.
    Frame,
    /// As many turns were run as were asked for, or the owner can count no further one in 64 bits.
    Most,
}

/// Turns that the owner of a host ran itself.
#[derive(Clone, Copy, Debug, PartialEq, Eq)]
pub struct TurnsHere {
    /// How many.
    pub turns: u64,
    /// Why there were no more.
    pub end: HereEnd,
}

// How an instance stands before it gets a turn.
#[derive(Clone, Copy, PartialEq, Eq)]
pub enum Outlook {
    // A call of it can go on at once.
    Goes,
    // It waits for a frame.
    Waits,
    // No call of it can go on.
    Rests,
}

/// Returns whether this instance can make progress, and whether it lacks a frame for it.
pub fn outlook_of(host: &Host, id: InstId) -> Outlook
    ensures waits { result ≡ Waits → Tells host.now true (λ w. IsAwaiting w id) }
    ensures rests { result ≡ rests → Tells host.now false (λ w. IsGoing w id) }
{
    if !host.can_go_on(id) {
        return Outlook::Rests;
    }
    if host.awaits_frame(id) {
        return Outlook::Waits;
    }
    Outlook::Goes
}

/// Runs a turn of an instance, counted as the owner's.
pub fn turn_in_hand<D: SwapDev, T: Ledger, C: Ledger, O: Ledger, E: Ledger, B: CellAgreements>(
    locked: &mut Locked<D, T, C, O, E, B>,
    shares: &mut Shares<T, C, O, E>,
    id: InstId,
    quantum: u32,
) -> TurnEnd
    requires room { shares.old.owner.turns < 2 ^ 64 - 1 }
    ensures turns { (w : World) → IsHost locked.old.host w
        → (w2 : World) × TurnsIfGoing w id quantum result w2 × IsHost locked.new.host w2 }
    ensures runs { RunsHere locked.old.books shares.old.owner 1 locked.new.books
        shares.new.owner }
    ensures only { shares.new ≡ record shares.old { owner = shares.new.owner } }
    ensures known { locked.new.known ≡ locked.old.known }
{
    locked.own_turn(shares, id, quantum)
}

/// Offers a page for merging, counted as the owner's, unless the owner can't count one more.
pub fn offer_in_hand<
    D: SwapDev,
    T: Ledger,
    C: Ledger,
    O: Ledger,
    E: Ledger,
    B: CellAgreements,
    H: PageHash,
>(
    locked: &mut Locked<D, T, C, O, E, B>,
    shares: &mut Shares<T, C, O, E>,
    hasher: &H,
    id: InstId,
    page: u32,
    hash: u64,
) -> Option<Offer>
    ensures moves { MovesOnly locked.old.host locked.new.host }
    ensures some { IfSome result (λ answer. OffersOf (H.hashes hasher.now) locked.old.host.space
        id.place id.number page hash answer locked.new.host.space) }
    ensures works { IfSome result (λ _. WorksHere locked.old.books shares.old.owner 0 1
        locked.new.books shares.new.owner) }
    ensures none { IfNone result (((¬ CanOffer locked.old.host.space id.place)
        ⊎ (shares.old.owner.offers ≡ 2 ^ 64 - 1)) × (locked.new.host ≡ locked.old.host)
        × (locked.new.books ≡ locked.old.books) × (shares.new ≡ shares.old)) }
    ensures only { shares.new ≡ record shares.old { owner = shares.new.owner } }
    ensures backing { KeepsBacking locked.old.host.space locked.new.host.space }
    ensures known { locked.new.known ≡ locked.old.known }
{
    if shares.owner().offers == u64::MAX {
        return None;
    }
    locked.own_offer(hasher, id, page, hash, shares)
}

/// Offers all pages for merging, counted as the owner's.
pub fn scan_in_hand<
    D: SwapDev,
    T: Ledger,
    C: Ledger,
    O: Ledger,
    E: Ledger,
    B: CellAgreements,
    H: PageHash,
>(locked: &mut Locked<D, T, C, O, E, B>, shares: &mut Shares<T, C, O, E>, hasher: &H) -> Option<u64>
    ensures moves { MovesOnly locked.old.host locked.new.host }
    ensures scans { IsScanned (H.hashes hasher.now) locked.old.host result locked.new.host }
    ensures books { locked.new.books ≡ record locked.old.books {
      offers = locked.old.books.offers + countable shares.old.owner.offers (offers_of result);
    } }
    ensures own { shares.new.owner ≡ record shares.old.owner {
      offers = shares.old.owner.offers + countable shares.old.owner.offers (offers_of result);
    } }
    ensures only { shares.new ≡ record shares.old { owner = shares.new.owner } }
    ensures backing { KeepsBacking locked.old.host.space locked.new.host.space }
    ensures known { locked.new.known ≡ locked.old.known }
{
    locked.own_scan(hasher, shares)
}

/// Makes the next step of an instance ready, with evictions counted as the owner's.
pub fn provide_in_hand<D: SwapDev, T: Ledger, C: Ledger, O: Ledger, E: Ledger, B: CellAgreements>(
    locked: &mut Locked<D, T, C, O, E, B>,
    backing: &mut Backing<D, B>,
    shares: &mut Shares<T, C, O, E>,
    id: InstId,
) -> Result<u64, SwapError>
    ensures serves { ServesOn D.keeps D.honest D.faults backing.old.device (call_faults result)
        backing.new.device }
    ensures moves { D.honest backing.new.device
        → MovesWith locked.old.host id AwaitsFrame (provide_fault result) locked.new.host }
    ensures anyhow { MovesAnyhow locked.old.host id AwaitsFrame (provide_fault result)
        locked.new.host }
    ensures ready { OnOk result (IsMadeReady id locked.old.host locked.new.host) }
    ensures idle { ((need : Need) → ¬ WaitsFor locked.old.host id need)
        → (locked.new.host ≡ locked.old.host) × (backing.new.device ≡ backing.old.device)
        × (result ≡ Ok 0) }
    ensures books { locked.new.books ≡ record locked.old.books {
      evictions = locked.old.books.evictions
          + countable shares.old.owner.evictions (evictions_of result);
    } }
    ensures own { shares.new.owner ≡ record shares.old.owner {
      evictions = shares.old.owner.evictions
          + countable shares.old.owner.evictions (evictions_of result);
    } }
    ensures only { shares.new ≡ record shares.old { owner = shares.new.owner } }
    ensures knows { locked.new.known ≡ known_of backing.new }
{
    locked.own_provide(backing, id, shares)
}

// The outcome of one pass over the instances.
#[derive(Clone, Copy)]
struct Pass {
    // How many of them had a turn.
    turns: u64,
    // Whether one waits for a frame.
    waits: bool,
}

// Runs a turn of each of these instances, one after the other, whose call can make progress and doesn't wait for a
// frame; while fewer than `most` turns were run.
fn turn_once_each<D: SwapDev, T: Ledger, C: Ledger, O: Ledger, E: Ledger, B: CellAgreements>(
    locked: &mut Locked<D, T, C, O, E, B>,
    shares: &mut Shares<T, C, O, E>,
    ids: &[InstId],
    most: u64,
    quantum: u32,
) -> Pass
    requires some { 0 < most }
    requires room { shares.old.owner.turns + most < 2 ^ 64 }
    ensures few { result.turns ≤ most }
    ensures runs { RunsHere locked.old.books shares.old.owner result.turns locked.new.books
        shares.new.owner }
    ensures only { shares.new ≡ record shares.old { owner = shares.new.owner } }
    ensures known { locked.new.known ≡ locked.old.known }
    ensures waits { result.turns ≡ 0 → EachIs RestsOrWaits locked.new.host ids.now }
    ensures rests { result.turns ≡ 0 → result.waits ≡ false → EachIs Rests locked.new.host
        ids.now }
{
    let mut turns: u64 = 0;
    let mut waits = false;
    for at in 0..ids.len() {
        if turns >= most {
            break;
        }
        let id = ids[at];
        match outlook_of(locked.host(), id) {
            Outlook::Goes => {
                locked.own_turn(shares, id, quantum);
                turns += 1;
            }
            Outlook::Waits => waits = true,
            Outlook::Rests => {}
        }
    }
    Pass { turns, waits }
}

/// Runs turns of at most `quantum` charges of these instances in order, again and again, until none of their calls can
/// make progress without a frame, or `most` turns were run, or the owner's count is 2^64 - 1.
pub fn turns_here<D: SwapDev, T: Ledger, C: Ledger, O: Ledger, E: Ledger, B: CellAgreements>(
    locked: &mut Locked<D, T, C, O, E, B>,
    shares: &mut Shares<T, C, O, E>,
    ids: &[InstId],
    most: u64,
    quantum: u32,
) -> TurnsHere
    ensures few { result.turns ≤ most }
    ensures runs { RunsHere locked.old.books shares.old.owner result.turns locked.new.books
        shares.new.owner }
    ensures only { shares.new ≡ record shares.old { owner = shares.new.owner } }
    ensures known { locked.new.known ≡ locked.old.known }
    ensures rest { result.end ≡ Rest → EachIs Rests locked.new.host ids.now }
    ensures frame { result.end ≡ Frame → EachIs RestsOrWaits locked.new.host ids.now }
    ensures most { result.end ≡ Most → (result.turns ≡ most)
        ⊎ (shares.new.owner.turns ≡ 2 ^ 64 - 1) }
{
    let most = most.min(u64::MAX - shares.owner().turns);
    let mut turns: u64 = 0;
    while turns < most {
        let pass = turn_once_each(locked, shares, ids, most - turns, quantum);
        if pass.turns == 0 {
            let end = if pass.waits {
                HereEnd::Frame
            } else {
                HereEnd::Rest
            };
            return TurnsHere { turns, end };
        }
        turns += pass.turns;
    }
    TurnsHere {
        turns,
        end: HereEnd::Most,
    }
}
