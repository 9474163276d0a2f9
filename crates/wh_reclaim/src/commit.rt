// Tickets that come back.

ghost use Rattle.std.specs.Prelude.{◌≡◌, [], OnOk, get_or, is_ok};
ghost use Rattle.wh_space_model.specs.Tickets.{CommitsEvict, CommitsFetch, IsEvicting};
ghost use Rattle.wh_space.specs.Transits.{IsFetching};

use crate::tickets::{Buf, EvictTicket, FetchTicket};
use wh_space::Memory;
use wh_space_model::{EvictEnd, FetchEnd, SwapError};

/// Ends an eviction: takes back its ticket, with what the device answered to the write, and gives back the buffer. If
/// the answer was `Ok`, the memory has been told what the slot holds (`Memory::written`). Returns
///
/// - `Void` if the page was written meanwhile or its instance released,
/// - `Failed` if the device failed,
/// - `Evicted`, and the page is in its slot, if its frame has the bytes that were written, by full comparison,
/// - `Void` otherwise.
///
/// Unless it returns `Evicted`, a page that is still there is as before, and the slot is vacant. No byte of any page
/// changes.
pub fn evict_commit(
    memory: &mut Memory,
    ticket: EvictTicket,
    device: Result<(), SwapError>,
) -> (EvictEnd, Buf)
    requires out { IsEvicting memory.old ticket.slot }
    requires held { OnOk device (get_or memory.old.slots.held ticket.slot [] ≡ ticket.bytes) }
    ensures commits { CommitsEvict memory.old ticket.slot (is_ok device) ticket.bytes result.0
        memory.new }
    ensures back { result.1.value ≡ ticket.bytes }
{
    let EvictTicket { slot, bytes } = ticket;
    let end = memory.evict_commit(slot, device.is_ok(), &bytes);
    (end, bytes)
}

/// Ends a fetch: takes back its ticket, with what the device answered to the read, and gives back the buffer. Returns
///
/// - `Void` if its instance was released,
/// - `Fetched`, and the page has a frame of its own, with the bytes in the buffer, if the device answered `Ok`,
/// - `Failed` otherwise, and the page is in its slot as before.
///
/// Unless it returns `Fetched`, the frame is free.
pub fn fetch_commit(
    memory: &mut Memory,
    ticket: FetchTicket,
    device: Result<(), SwapError>,
) -> (FetchEnd, Buf)
    requires { IsFetching memory.old ticket.slot }
    ensures commits { CommitsFetch memory.old ticket.slot (is_ok device) ticket.bytes result.0
        memory.new }
    ensures back { result.1.value ≡ ticket.bytes }
{
    let FetchTicket { slot, bytes } = ticket;
    let end = memory.fetch_commit(slot, device.is_ok(), &bytes);
    (end, bytes)
}
