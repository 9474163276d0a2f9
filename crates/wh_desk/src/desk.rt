//! The desk: answers whoever may ask of a host that lies under a lock.

ghost use Rattle.std.specs.Prelude.{◌≡◌, ◌+◌, ◌<◌, ℕ, IfOk, IsSome, length};
ghost use Rattle.wh_space_model.specs.declared.Tax.{Tax};
ghost use Rattle.wh_host.specs.Hosting.{IsNewHost};
ghost use Rattle.wh_desk.specs.Permits.{Permits, ownership_of};
ghost use Rattle.wh_desk.specs.Questions.{AsksForBytes, question_of};
ghost use Rattle.wh_desk.specs.Tracing.{IsTrace, Replies, left_by, trace_from};

use crate::ownership::Ownership;
use crate::principal::Principal;
use crate::record::{Enters, TraceRecord};
use crate::request::{DeskReply, DeskRequest};
use crate::respond::respond;
use crate::trace::Trace;
use std::alloc::{AllocError, Global};
use std::marker::Model;
use std::snapshot::Snapshot;
use std::sync::ledger::{Blank, Book, Ledger, Share};
use std::sync::{MutexGuard, Wait};
use wh_cell::{Backing, CellAgreements, HostCell, Owner};
use wh_swap::SwapDev;
use wh_threads::{AgreementId, BlankAgreement};

/// Answers whoever may ask of a host that lies under a lock, while its calls run or not. It has the owner's right, so nobody else
/// asks.
///
/// Contracts see its trace: all that it has replied, the last reply first. Its type keeps that there is this one order of all
/// replies in which each is right, and that between any two only work happened (`IsTrace`).
pub struct HostDesk<
    D: SwapDev,
    T: Ledger,
    C: Ledger,
    O: Ledger,
    E: Ledger,
    B: CellAgreements,
    N: Ledger + AgreementId,
> {
    alloc: Global,
    cell: HostCell<D, T, C, O, E, B>,
    owner: Owner<D, B>,
    ownership: Ownership,
    record: TraceRecord<D, N>,
    replies: Book<N>,
}

// The lock of the device, where who asks may have bytes read through it: it is taken before that of the host.
fn lock_device<
    'a,
    D: SwapDev,
    T: Ledger,
    C: Ledger,
    O: Ledger,
    E: Ledger,
    B: CellAgreements,
    R: Wait,
>(
    rt: &R,
    cell: &'a HostCell<D, T, C, O, E, B>,
    ownership: &Ownership,
    who: Principal,
    request: &DeskRequest<'_>,
) -> Option<MutexGuard<'a, Backing<D, B>>>
    ensures { Permits (ownership_of ownership.now) who (question_of request.now)
        → AsksForBytes (question_of request.now) → IsSome result }
{
    if !ownership.permits(who, request) {
        return None;
    }
    match request {
        DeskRequest::Read { .. } => Some(cell.lock_device(rt)),
        _ => None,
    }
}

impl<
    D: SwapDev + Drop,
    T: Ledger,
    C: Ledger,
    O: Ledger,
    E: Ledger,
    B: CellAgreements,
    N: Ledger + AgreementId,
> Drop for HostDesk<D, T, C, O, E, B, N> {
    fn drop(self) {
        let HostDesk {
            alloc: _,
            cell: _,
            owner: _,
            ownership: _,
            record: _,
            replies: _,
        } = self;
    }
}

impl<
    D: SwapDev,
    T: Ledger,
    C: Ledger,
    O: Ledger,
    E: Ledger,
    B: CellAgreements,
    N: Ledger + AgreementId,
> Model for HostDesk<D, T, C, O, E, B, N> {
    ghost use Rattle.std.specs.Prelude.{◌≡◌, length};
    ghost use Rattle.wh_desk.specs.declared.trace.Trace.{Trace};
    ghost use Rattle.wh_desk.specs.Bounded.{HasRoomToOwn, OwnsAll};
    ghost use Rattle.wh_desk.specs.Permits.{ownership_of};
    ghost use Rattle.wh_desk.specs.Tracing.{IsTrace, left_by, owned_in};

    ghost Value = { Trace D };

    ghost use Rattle.wh_desk.specs.Stored.{stored_trace};

    ghost coded = { stored_trace D.code };

    ghost view = { λ d. d.record };

    ghost invariant = { λ d. IsTrace D.keeps D.honest D.faults d.record
        × (d.owner ≡ left_by d.record.first d.record.entries)
        × (ownership_of d.ownership ≡ owned_in d.record.entries)
        × (d.replies.total ≡ length d.record.entries)
        × OwnsAll (ownership_of d.ownership) d.owner.host × HasRoomToOwn d.ownership };
}

impl<
    D: SwapDev + Drop,
    T: Ledger,
    C: Ledger,
    O: Ledger,
    E: Ledger,
    B: CellAgreements,
    N: Ledger + AgreementId,
> HostDesk<D, T, C, O, E, B, N> {
    /// Opens a desk for a host that is new, of which `cell` is a handle and `owner` the right; and returns the share of its ledger
    /// with all parts. `alloc` is where requests take memory from; the desk takes all that it needs itself now.
    ///
    /// # Errors
    /// Where room was refused. The right is gone then.
    pub fn new(
        alloc: Global,
        cell: HostCell<D, T, C, O, E, B>,
        owner: Owner<D, B>,
        trace: BlankAgreement<Trace<D>>,
        replies: Blank,
    ) -> Result<(HostDesk<D, T, C, O, E, B, N>, Share<N>), AllocError>
        requires new { (frames slots : ℕ) × (tax : Tax) × IsNewHost owner.host frames slots tax }
        requires trace { trace ≡ N.AgreementId.table }
        requires replies { (replies.name ≡ N.Ledger.name) × (replies.parts ≡ N.Ledger.parts) }
        ensures trace { IfOk result (λ r. r.0 ≡ trace_from owner) }
        ensures share { IfOk result (λ r. (r.1.parts ≡ N.Ledger.parts) × (r.1.amount ≡ 0)) }
    {
        let ownership = Ownership::new(alloc)?;
        let record = TraceRecord::open(trace, &owner);
        let (replies, share) = replies.open::<N>();
        let desk = HostDesk {
            alloc,
            cell,
            owner,
            ownership,
            record,
            replies,
        };
        Ok((desk, share))
    }
}

impl<
    D: SwapDev,
    T: Ledger,
    C: Ledger,
    O: Ledger,
    E: Ledger,
    B: CellAgreements,
    N: Ledger + AgreementId,
> HostDesk<D, T, C, O, E, B, N> {
    /// States what holds of every desk: there is one order of all its replies in which each is right, and between any two only work
    /// happened. Does nothing when run.
    #[inline(always)]
    pub fn invariant(&self)
        ensures { IsTrace D.keeps D.honest D.faults self.now }
    {
        let _ = &self.alloc;
    }

    /// Replies to a request of somebody's, while calls run or not: waits for the host's lock. The reply is entered in the trace, of
    /// reads too, and counted in `mine`.
    pub fn answer<R: Wait>(
        &mut self,
        rt: &R,
        who: Principal,
        request: DeskRequest<'_>,
        mine: &mut Share<N>,
    ) -> DeskReply
        requires part { 0 < mine.old.parts }
        ensures replies { Replies D.keeps D.honest D.faults self.old who (question_of request.entry) result
            self.new }
        ensures counted { mine.new.amount ≡ mine.old.amount + 1 }
        ensures parts { mine.new.parts ≡ mine.old.parts }
    {
        let asked = Snapshot::of(&request);
        let device = lock_device(rt, &self.cell, &self.ownership, who, &request);
        let mut guard = self.cell.lock(rt);
        let locked = &mut *guard;
        locked.sync_owner(&mut self.owner);
        let at = Snapshot::of(&self.owner);
        let reply = respond(
            locked,
            device,
            &mut self.owner,
            &mut self.ownership,
            who,
            self.alloc,
            request,
        );
        let by = Enters {
            who,
            asked,
            reply: Snapshot::of(&reply),
            at,
            left: Snapshot::of(&self.owner),
        };
        self.record.change(&by);
        self.replies.add(mine, 1);
        reply
    }

    /// Shows whoever has all shares that as many replies are in the trace as these have counted. Changes nothing.
    pub fn agree(&mut self, all: &mut Share<N>)
        requires parts { all.old.parts ≡ N.Ledger.parts }
        ensures counted { length self.old.entries ≡ all.old.amount }
        ensures same { self.new ≡ self.old }
        ensures share { (all.new.parts ≡ all.old.parts) × (all.new.amount ≡ all.old.amount) }
    {
        self.replies.audit(all);
    }

    /// Closes the desk. Returns the handle of the cell and the owner's right, who knows how the last reply left the host.
    pub fn close(self) -> (HostCell<D, T, C, O, E, B>, Owner<D, B>)
        ensures left { result.1 ≡ left_by self.first self.entries }
    {
        let HostDesk {
            alloc: _,
            cell,
            owner,
            ownership: _,
            record: _,
            replies: _,
        } = self;
        (cell, owner)
    }
}
