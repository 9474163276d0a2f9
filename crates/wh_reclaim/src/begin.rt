// Pages that begin to leave, and to come.

ghost use Rattle.std.specs.Prelude.{◌≡◌, IfErr, IfOk};
ghost use Rattle.wh_space_model.specs.Tickets.{BeginsEvict, BeginsFetch, IsEvicting, Reserves, WaitsForBytes};
ghost use Rattle.wh_reclaim.specs.TicketViews.{bytes_begun, slot_begun};
ghost use Rattle.wh_space.specs.Transits.{IsFetching};

use crate::choice::page_to_take;
use crate::tickets::{Buf, EvictTicket, FetchTicket};
use wh_model::Need;
use wh_space::Memory;

// The resident pages of the step are pinned for which the instance at a place waits, and frames earmarked for it: as many as
// it wants, or all that are free.
fn reserve(memory: &mut Memory, place: usize, need: Need)
    requires { WaitsForBytes memory.old place need }
    ensures reserves { Reserves memory.old place need memory.new }
    ensures stands { WaitsForBytes memory.new place need }
{
    memory.pin(place, need);
    let wanted = memory.frames_in_all(place, need);
    let free = memory.free();
    memory.earmark(place, free.min(wanted));
}

/// Begins to evict a page for the step on which the instance at this place is blocked: the page that `page_to_take`
/// returns. Before that it ends all pins and earmarks, pins the step's resident pages, and earmarks frames for the
/// step. No byte of any page changes.
///
/// # Errors
/// The buffer, if the instance isn't blocked on a frame, its step lacks no frame, no slot is vacant, or no page has to
/// leave.
pub fn evict_begin(memory: &mut Memory, place: usize, buf: Buf) -> Result<EvictTicket, Buf>
    ensures begins { BeginsEvict memory.old place (slot_begun result) (bytes_begun result)
        memory.new }
    ensures out { IfOk result (λ ticket. IsEvicting memory.new ticket.slot) }
    ensures back { IfErr result (λ back. back ≡ buf) }
{
    let Some(need) = memory.wanted_step(place) else {
        return Err(buf);
    };
    reserve(memory, place, need);
    if u64::from(memory.frames_in_all(place, need)) <= memory.may_take(place) {
        return Err(buf);
    }
    if memory.vacant() == 0 {
        return Err(buf);
    }
    let Some(taken) = page_to_take(memory, place, need) else {
        return Err(buf);
    };
    let mut bytes = buf;
    memory.invariant();
    let slot = memory.evict_begin(taken.place, taken.page, &mut bytes);
    Ok(EvictTicket { slot, bytes })
}

/// Begins to fetch the first swapped page of the step on which the instance at this place is blocked, into a frame that
/// is earmarked for it. Before that it ends all pins and earmarks, pins the step's resident pages, and earmarks frames
/// for the step. No byte of any page changes.
///
/// # Errors
/// The buffer, if the instance isn't blocked on a frame, no page of its step is in a slot, or no frame is free or
/// earmarked for it.
pub fn fetch_begin(memory: &mut Memory, place: usize, buf: Buf) -> Result<FetchTicket, Buf>
    ensures begins { BeginsFetch memory.old place (slot_begun result) memory.new }
    ensures out { IfOk result (λ ticket. IsFetching memory.new ticket.slot) }
    ensures back { IfErr result (λ back. back ≡ buf) }
{
    let Some(need) = memory.wanted_step(place) else {
        return Err(buf);
    };
    reserve(memory, place, need);
    let Some((page, slot)) = memory.swapped_page(place, need) else {
        return Err(buf);
    };
    if memory.may_take(place) == 0 {
        return Err(buf);
    }
    memory.invariant();
    memory.fetch_begin(place, page, slot);
    Ok(FetchTicket { slot, bytes: buf })
}
