//! Pages that leave and come by tickets, with a device call between for which nobody waits.

ghost use Rattle.std.specs.Prelude.{◌≡◌, ◌≢◌, ℕ, [], None, Some, IfErr, IfOk, IsErr, OnOk, MatchOption, get_or, is_ok};
ghost use Rattle.wh_host_model.specs.Host.Happens.{AwaitsFrameFor};
ghost use Rattle.wh_space_model.specs.Errands.{to_read, to_write};
ghost use Rattle.wh_space_model.specs.Places.{IsFreePlace};
ghost use Rattle.wh_space_model.specs.Tickets.{BeginsEvict, BeginsFetch, CommitsFetch};
ghost use Rattle.wh_model.specs.declared.memory.Need.{Need};
ghost use Rattle.wh_space.specs.TicketOwners.{ticket_place};
ghost use Rattle.wh_host.specs.TicketsOut.{EndsEvict, IsOut, IsPresentCall, KeepsFault, OnlyReleasedGo, bytes_to_write, evict_fault, fetch_fault, slot_to_read, slot_to_write};
ghost use Rattle.wh_host.specs.HostCounting.{with_evict_end, with_fetch_end};
ghost use Rattle.wh_host.specs.Hosting.{entry_at};
ghost use Rattle.wh_host.specs.Paging.{MovesAnyhow, MovesOnly, MovesWith, WaitsFor};
ghost use Rattle.wh_host.specs.declared.parts.InstanceEntry.{InstanceEntry as OneEntry};

use crate::host::Host;
use crate::parts::InstanceEntry;
use slab::Slab;
use wh_reclaim::{
    Buf, EvictTicket, FetchTicket, evict_begin, evict_commit, fetch_begin, fetch_commit,
};
use wh_space::Memory;
use wh_space_model::{EvictEnd, FetchEnd, InstId, SwapError};

/// A page is leaving for the next step of an instance. Its bytes are to be written to the ticket's slot, and it is to be
/// brought back to `evict_commit`: it can't be copied, and not be let go.
pub struct Eviction {
    /// For whom it was begun.
    pub id: InstId,
    /// The place in its journal of the call for which it was.
    pub call: usize,
    /// The slot that is to be written, and the bytes.
    pub ticket: EvictTicket,
}

/// A page is coming for the next step of an instance. The ticket's slot is to be read into its buffer, and it is to be
/// brought back to `fetch_commit`: it can't be copied, and not be let go.
pub struct Fetch {
    /// For whom it was begun.
    pub id: InstId,
    /// The place in its journal of the call for which it was.
    pub call: usize,
    /// The slot that is to be read, and the buffer.
    pub ticket: FetchTicket,
}

// The device's fault, if that is the outcome of the ticket.
fn fault_of_evict(end: EvictEnd, device: Result<(), SwapError>) -> Option<SwapError>
    ensures { result ≡ evict_fault end device }
{
    match (end, device) {
        (EvictEnd::Failed, Err(fault)) => Some(fault),
        _ => None,
    }
}

fn fault_of_fetch(end: FetchEnd, device: Result<(), SwapError>) -> Option<SwapError>
    ensures { result ≡ fetch_fault end device }
{
    match (end, device) {
        (FetchEnd::Failed, Err(fault)) => Some(fault),
        _ => None,
    }
}

// Keeps the fault with this call of the instance, while that is its present one and waits for a frame.
fn keep_fault(entries: &mut Slab<InstanceEntry>, id: InstId, call: usize, fault: Option<SwapError>)
    ensures { KeepsFault entries.old.slots id call fault entries.new.slots }
{
    let Some(fault) = fault else {
        return;
    };
    let Some(entry) = entries.get_mut(id.place) else {
        return;
    };
    if !entry.has_number(id.number) {
        return;
    }
    if !entry.tenant.awaits_frame() {
        return;
    }
    if entry.tenant.present_call() != call {
        return;
    }
    let _ = entry.tenant.fail(fault);
}

// Gives up the place of an instance that was released, where the memory has it free.
fn leave_released(entries: &mut Slab<InstanceEntry>, memory: &Memory, place: Option<u32>)
    ensures stays { OnlyReleasedGo entries.old.slots entries.new.slots }
    ensures leaves { (at : ℕ) → place ≡ Some at → IsFreePlace memory.now at → (x : OneEntry)
        → entry_at entries.new.slots at ≡ Some x → x.number ≢ None }
{
    let Some(place) = place else {
        return;
    };
    let place = place as usize;
    if !memory.is_free(place) {
        return;
    }
    let Some(entry) = entries.get(place) else {
        return;
    };
    if entry.number.is_some() {
        return;
    }
    let _ = entries.try_remove(place);
}

// The device has been called for the ticket, and it comes back to the memory.
fn commit_written(
    memory: &mut Memory,
    ticket: EvictTicket,
    device: Result<(), SwapError>,
) -> (EvictEnd, Buf)
    requires { IsOut memory.old ticket.slot to_write }
    ensures ends { EndsEvict memory.old ticket.slot (is_ok device) ticket.bytes result.0
        memory.new }
    ensures back { result.1.value ≡ ticket.bytes }
{
    memory.invariant();
    memory.written(ticket.slot(), ticket.bytes(), device.is_ok());
    evict_commit(memory, ticket, device)
}

impl Host {
    // The place in its journal of the present call of the instance, where that waits for a frame.
    fn waiting_call(&self, id: InstId) -> Option<usize>
        ensures { MatchOption result ((need : Need) → ¬ WaitsFor self.now id need)
            (λ call. ((need : Need) × WaitsFor self.now id need) × IsPresentCall self.now id call) }
    {
        let Some(entry) = self.entries.get(id.place) else {
            return None;
        };
        if !entry.has_number(id.number) {
            return None;
        }
        if !entry.tenant.awaits_frame() {
            return None;
        }
        Some(entry.tenant.present_call())
    }

    /// Begins to evict a page for the next step of the instance, if its present call is blocked on a frame: a page of
    /// the instance that pays; if nobody pays, that of a sharer of a frame that the step writes; if there is none, one
    /// of its own. No byte of any page changes.
    ///
    /// # Errors
    /// The buffer, if the call isn't blocked on a frame, its step lacks no frame, no slot is vacant or no page has to
    /// leave.
    pub fn evict_begin(&mut self, id: InstId, buf: Buf) -> Result<Eviction, Buf>
        ensures moves { MovesOnly self.old self.new }
        ensures counts { self.new.counts ≡ self.old.counts }
        ensures begins { (need : Need) → WaitsFor self.old id need
            → BeginsEvict self.old.space id.place
            (slot_to_write result) (bytes_to_write result) self.new.space }
        ensures idle { ((need : Need) → ¬ WaitsFor self.old id need)
            → (self.new ≡ self.old) × IsErr result }
        ensures whom { IfOk result (λ eviction. eviction.id ≡ id) }
        ensures call { IfOk result (λ eviction. IsPresentCall self.old id eviction.call) }
        ensures out { IfOk result (λ eviction. IsOut self.new.space eviction.ticket.slot to_write) }
        ensures back { IfErr result (λ back. back ≡ buf) }
    {
        let Some(call) = self.waiting_call(id) else {
            return Err(buf);
        };
        let ticket = match evict_begin(&mut self.memory, id.place, buf) {
            Ok(ticket) => ticket,
            Err(buf) => return Err(buf),
        };
        Ok(Eviction { id, call, ticket })
    }

    /// Begins to fetch the first page of the next step of the instance that is in a slot, where its present call waits
    /// for a frame. No byte of any page changes.
    ///
    /// # Errors
    /// The buffer, where the call doesn't wait for a frame, no page of its step is in a slot, or no frame is free or
    /// earmarked for it.
    pub fn fetch_begin(&mut self, id: InstId, buf: Buf) -> Result<Fetch, Buf>
        ensures moves { MovesOnly self.old self.new }
        ensures counts { self.new.counts ≡ self.old.counts }
        ensures begins { (need : Need) → WaitsFor self.old id need
            → BeginsFetch self.old.space id.place
            (slot_to_read result) self.new.space }
        ensures idle { ((need : Need) → ¬ WaitsFor self.old id need)
            → (self.new ≡ self.old) × IsErr result }
        ensures whom { IfOk result (λ fetched. fetched.id ≡ id) }
        ensures call { IfOk result (λ fetched. IsPresentCall self.old id fetched.call) }
        ensures out { IfOk result (λ fetched. IsOut self.new.space fetched.ticket.slot to_read) }
        ensures back { IfErr result (λ back. back ≡ buf) }
    {
        let Some(call) = self.waiting_call(id) else {
            return Err(buf);
        };
        let ticket = match fetch_begin(&mut self.memory, id.place, buf) {
            Ok(ticket) => ticket,
            Err(buf) => return Err(buf),
        };
        Ok(Fetch { id, call, ticket })
    }

    /// Ends an eviction, by what the device answered to its write. Returns the buffer, and `Void` where the page was written
    /// meanwhile or its instance released, `Failed` where the device failed, `Evicted` where the page is in its slot, and
    /// `Void` else. At `Failed` the fault is kept with the call for which it was begun, while that is there and waits for a
    /// frame. The place of an instance that was released is given up with its last ticket.
    pub fn evict_commit(
        &mut self,
        eviction: Eviction,
        device: Result<(), SwapError>,
    ) -> (EvictEnd, Buf)
        requires { IsOut self.old.space eviction.ticket.slot to_write }
        ensures moves { MovesWith self.old eviction.id (AwaitsFrameFor eviction.call)
            (evict_fault result.0 device) self.new }
        ensures ends { EndsEvict self.old.space eviction.ticket.slot (is_ok device)
            eviction.ticket.bytes result.0 self.new.space }
        ensures leaves { (at : ℕ) → ticket_place self.old.space eviction.ticket.slot ≡ Some at
            → IsFreePlace self.new.space at → entry_at self.new.entries at ≡ None }
        ensures back { result.1.value ≡ eviction.ticket.bytes }
        ensures counts { self.new.counts ≡ with_evict_end self.old.counts result.0 }
    {
        let Eviction { id, call, ticket } = eviction;
        let place = self.memory.ticket_place(ticket.slot());
        let (end, buf) = commit_written(&mut self.memory, ticket, device);
        self.counts.count_evict_end(end);
        keep_fault(&mut self.entries, id, call, fault_of_evict(end, device));
        leave_released(&mut self.entries, &self.memory, place);
        (end, buf)
    }

    /// Ends a fetch, by what the device answered to its read. Where the buffer has what the slot holds no byte of any
    /// page changes. Returns it, and `Void` where the instance was released, `Fetched`, and the page has these bytes,
    /// where the device answered Ok, and `Failed` else, and it is in its slot as before. At `Failed` the fault is kept
    /// with the call for which it was begun, while that is there and waits for a frame. The place of an instance that
    /// was released is given up with its last ticket.
    pub fn fetch_commit(&mut self, fetched: Fetch, device: Result<(), SwapError>) -> (FetchEnd, Buf)
        requires out { IsOut self.old.space fetched.ticket.slot to_read }
        ensures moves { OnOk device (get_or self.old.space.slots.held fetched.ticket.slot []
            ≡ fetched.ticket.bytes) → MovesWith self.old fetched.id
            (AwaitsFrameFor fetched.call) (fetch_fault result.0 device) self.new }
        ensures anyhow { MovesAnyhow self.old fetched.id (AwaitsFrameFor fetched.call)
            (fetch_fault result.0 device) self.new }
        ensures ends { CommitsFetch self.old.space fetched.ticket.slot (is_ok device)
            fetched.ticket.bytes result.0 self.new.space }
        ensures leaves { (at : ℕ) → ticket_place self.old.space fetched.ticket.slot ≡ Some at
            → IsFreePlace self.new.space at → entry_at self.new.entries at ≡ None }
        ensures back { result.1.value ≡ fetched.ticket.bytes }
        ensures counts { self.new.counts ≡ with_fetch_end self.old.counts result.0 }
    {
        let Fetch { id, call, ticket } = fetched;
        let place = self.memory.ticket_place(ticket.slot());
        let (end, buf) = fetch_commit(&mut self.memory, ticket, device);
        self.counts.count_fetch_end(end);
        keep_fault(&mut self.entries, id, call, fault_of_fetch(end, device));
        leave_released(&mut self.entries, &self.memory, place);
        (end, buf)
    }
}
