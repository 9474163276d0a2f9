// The next turn, and what belongs to it.

ghost use Rattle.std.specs.Prelude.{◌≡◌, ◌≤◌, IfNone, IfSome};
ghost use Rattle.std.specs.VecDeque.{deque_capacity};
ghost use Rattle.wh_reclaim.specs.Together.{AreTogether};
ghost use Rattle.wh_reclaim.specs.Whole.{IsAsWhole};
ghost use Rattle.wh_swap.specs.MemorySwaps.{memory_held};
ghost use Rattle.wh_host.specs.Backing.{KeepsBacking};
ghost use Rattle.wh_host.specs.Hosting.{IsHost};
ghost use Rattle.wh_host_model.specs.Host.Worlds.{World};
ghost use Rattle.wh_hand.specs.Lining.{MayGoOn, IsReadyFor, KeepsGoing, KeepsOthersGoing, Lists};
ghost use Rattle.wh_hand.specs.Running.{AnyGoesOn};
ghost use Rattle.wh_hand.specs.Moved.{IsMoved};
ghost use Rattle.wh_hand.specs.RunCounting.{CountsRun};
ghost use Rattle.wh_hand.specs.RunParts.{RunsPart, quantum};

use crate::line::settle;
use crate::offer_pace::OfferPace;
use std::collections::VecDeque;
use wh_host::Host;
use wh_kernels::{FnvHash, PageHash};
use wh_reclaim::Buf;
use wh_space_model::InstId;
use wh_swap::MemSwap;

// How many charges a turn has at most.
const QUANTUM: u64 = 1000;

// Gives an instance that can go on a turn of q charges: how many were taken.
fn counted_turn(host: &mut Host, id: InstId, q: u64) -> u64
    requires charges { 1 ≤ q }
    requires within { q ≤ quantum }
    requires goes { MayGoOn host.old id }
    requires ready { IsReadyFor host.old id }
    ensures runs { RunsPart host.old result 1 host.new }
    ensures counts { CountsRun host.old.counts result host.new.counts }
    ensures few { result ≤ q }
    ensures others { KeepsOthersGoing host.old id host.new }
    ensures live { host.new.live ≡ host.old.live }
    ensures backing { KeepsBacking host.old.space host.new.space }
{
    host.invariant();
    host.turn(id, q).1
}

// Makes the next step of an instance ready, where its present call waits for a frame.
fn make_ready(host: &mut Host, device: &mut MemSwap, page: &mut Buf, id: InstId)
    requires together { AreTogether host.old.space (memory_held device.old) }
    ensures runs { RunsPart host.old 0 0 host.new }
    ensures counts { CountsRun host.old.counts 0 host.new.counts }
    ensures others { KeepsGoing host.old host.new }
    ensures live { host.new.live ≡ host.old.live }
    ensures together { AreTogether host.new.space (memory_held device.new) }
    ensures whole { IsAsWhole host.old.space host.new.space }
    ensures ready { IsReadyFor host.new id }
{
    host.invariant();
    let _ = host.provide(device, id, page);
}

// The page to offer by this number of an instance of `size` pages of 65536 bytes, if it has one.
fn page_of(number: u64, size: u32) -> Option<u32> {
    let pages = u64::from(size) * 16;
    if pages == 0 || pages > u64::from(u32::MAX) {
        return None;
    }
    Some((number % pages) as u32)
}

// Offers for sharing the page of this instance that goes with this number, if it has a frame of its own, or shares one that
// has no entry.
fn offer_one(host: &mut Host, id: InstId, number: u64)
    ensures moves { IsMoved host.old host.new }
    ensures counts { CountsRun host.old.counts 0 host.new.counts }
{
    host.invariant();
    let Some(page) = page_of(number, host.size_at(id.place)) else {
        return;
    };
    let Some(sample) = host.sample(id, page) else {
        return;
    };
    let hash = FnvHash.hash(&sample.bytes);
    let _ = host.offer(&FnvHash, id, page, hash);
}

// Counts a turn that took `taken` charges. Offers the next page of one of those that can make progress, if it is time
// for that.
fn offer_next(host: &mut Host, line: &VecDeque<InstId>, pace: &mut OfferPace, taken: u64)
    ensures moves { IsMoved host.old host.new }
    ensures counts { CountsRun host.old.counts 0 host.new.counts }
{
    host.invariant();
    if !pace.count(taken) {
        return;
    }
    let Some((at, number)) = pace.next_offer(line.len()) else {
        return;
    };
    let Some(id) = line.get(at) else {
        return;
    };
    offer_one(host, *id, number);
}

/// Runs a turn of at most `most` charges of the instance that is first in the line; returns how many were taken. Before
/// that makes its next step ready, if it waits for a frame; it goes to the end of the line, if it can make progress;
/// and for each 32 turns a page is offered. Returns `None`, and does nothing, if no instance can make progress.
pub fn advance(
    host: &mut Host,
    device: &mut MemSwap,
    page: &mut Buf,
    line: &mut VecDeque<InstId>,
    pace: &mut OfferPace,
    most: u64,
) -> Option<u64>
    requires most { 1 ≤ most }
    requires together { AreTogether host.old.space (memory_held device.old) }
    requires lists { Lists host.old line.old.items }
    requires few { host.old.live ≤ 4096 }
    requires room { 4096 ≤ deque_capacity line.old }
    ensures none { IfNone result ((w : World) → IsHost host.old w → ¬ AnyGoesOn w) }
    ensures same { IfNone result (host.new ≡ host.old) }
    ensures runs { IfSome result (λ taken. RunsPart host.old taken 1 host.new) }
    ensures counts { IfSome result (λ taken. CountsRun host.old.counts taken host.new.counts) }
    ensures within { IfSome result (λ taken. taken ≤ most) }
    ensures together { AreTogether host.new.space (memory_held device.new) }
    ensures lists { Lists host.new line.new.items }
    ensures live { host.new.live ≡ host.old.live }
    ensures room { 4096 ≤ deque_capacity line.new }
    ensures whole { IsAsWhole host.old.space host.new.space }
{
    let Some(id) = line.pop_front() else {
        return None;
    };
    host.invariant();
    make_ready(host, device, page, id);
    let taken = counted_turn(host, id, most.min(QUANTUM));
    settle(line, host, id, false);
    offer_next(host, line, pace, taken);
    Some(taken)
}

/// Begins a new epoch, where it is time for one.
pub fn begin_epoch(host: &mut Host, pace: &mut OfferPace)
    ensures moves { IsMoved host.old host.new }
    ensures counts { CountsRun host.old.counts 0 host.new.counts }
{
    host.invariant();
    if !pace.begins_epoch() {
        return;
    }
    host.epoch();
}
