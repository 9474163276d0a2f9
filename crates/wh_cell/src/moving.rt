//! Pages that move with device calls for which nobody waits: a page begins to come or to leave under the host's lock, the
//! device is called without it, and the host is told under it again.

ghost use Rattle.std.specs.Prelude.{◌≡◌, ◌≢◌, ◌<◌, ◌≤◌, [], Some, MatchResult, get_or, length, slice_get};
ghost use Rattle.wh_space_model.specs.Errands.{to_read, to_write};
ghost use Rattle.wh_cell.specs.Calling.{GoesOut, HasBegun, HasContent, HasRead, HasWritten};
ghost use Rattle.wh_cell.specs.Counted.{CountsEvictions, evictions_at};
ghost use Rattle.wh_cell.specs.Knowing.{NoneOut, known_of, without_ticket};
ghost use Rattle.wh_cell.specs.declared.moving.Moved.TheVariants.{Ready};

use crate::agreements::CellAgreements;
use crate::backing::Backing;
use crate::locked::{Locked, count_evictions};
use crate::ticket_record::TicketRecord;
use std::sync::ledger::Ledger;
use std::sync::{Mutex, Wait};
use wh_host::{Eviction, Fetch};
use wh_reclaim::{Buf, EvictTicket, FetchTicket};
use wh_space_model::{EvictEnd, FetchEnd, InstId, SwapError};
use wh_swap::SwapDev;
use wh_threads::Helper;

/// The outcome of a move for the next step of an instance.
#[derive(Clone, Copy, Debug, PartialEq, Eq)]
pub enum Moved {
    /// A page has come, or has left.
    PageMoved,
    /// A page was to leave, and was written meanwhile: it stays.
    Void,
    /// The device failed. The fault is kept with the call that waits.
    Failed,
    /// The step is ready.
    Ready,
}

// What has begun for the next step of an instance.
enum Begun {
    // A page comes.
    Coming(Fetch),
    // A page leaves.
    Leaving(Eviction),
    // None can: the buffer is back.
    Neither(Buf),
}

// The outcome of an eviction.
fn moved_by_eviction(end: EvictEnd) -> Moved
    ensures { result ≢ Ready }
{
    match end {
        EvictEnd::Evicted => Moved::PageMoved,
        EvictEnd::Void => Moved::Void,
        EvictEnd::Failed => Moved::Failed,
    }
}

// The outcome of a fetch.
fn moved_by_fetch(end: FetchEnd) -> Moved
    ensures { result ≢ Ready }
{
    match end {
        FetchEnd::Fetched => Moved::PageMoved,
        FetchEnd::Void => Moved::Void,
        FetchEnd::Failed => Moved::Failed,
    }
}

// The device is asked to read a page that comes.
fn read<D: SwapDev>(device: &mut D, ticket: &mut FetchTicket) -> Result<(), SwapError>
    requires there { ticket.old.slot < length (D.held device.old) }
    requires content { get_or (D.held device.old) ticket.old.slot [] ≢ [] }
    ensures slot { ticket.new.slot ≡ ticket.old.slot }
    ensures read { HasRead D.held D.keeps D.honest D.faults device.old ticket.old.slot
        ticket.new.bytes result device.new }
{
    let slot = ticket.slot();
    device.read(slot, ticket.bytes_mut())
}

// It is asked to write a page that leaves.
fn write<D: SwapDev>(device: &mut D, ticket: &EvictTicket) -> Result<(), SwapError>
    requires there { ticket.now.slot < length (D.held device.old) }
    ensures wrote { HasWritten D.held D.keeps D.honest D.faults device.old ticket.now.slot
        ticket.now.bytes result device.new }
{
    device.write(ticket.slot(), ticket.bytes())
}

impl<D: SwapDev, T: Ledger, C: Ledger, O: Ledger, E: Ledger, B: CellAgreements> Locked<
    D,
    T,
    C,
    O,
    E,
    B,
> {
    // Begins to fetch the first swapped page of the next step of an instance, if its present call is blocked on a
    // frame; else the buffer is back.
    fn fetch_begin(
        &mut self,
        keeper: &mut TicketRecord<D, B>,
        id: InstId,
        buf: Buf,
    ) -> Result<Fetch, Buf>
        requires agree { self.old.known ≡ keeper.old }
        ensures begun { MatchResult result
            (λ fetched. GoesOut D.held keeper.old fetched.ticket.slot to_read keeper.new
            × HasContent D.held keeper.old fetched.ticket.slot)
            (λ _. keeper.new ≡ keeper.old) }
        ensures known { self.new.known ≡ keeper.new }
    {
        if !self.host.awaits_frame(id) {
            return Err(buf);
        }
        match self.host.fetch_begin(id, buf) {
            Ok(fetched) => {
                keeper.begin_read(&mut self.known, fetched.ticket.slot());
                Ok(fetched)
            }
            Err(buf) => Err(buf),
        }
    }

    // A page begins to leave for the next step of an instance, where its present call waits for a frame and lacks one; or the
    // buffer is back.
    fn evict_begin(
        &mut self,
        keeper: &mut TicketRecord<D, B>,
        id: InstId,
        buf: Buf,
    ) -> Result<Eviction, Buf>
        requires agree { self.old.known ≡ keeper.old }
        ensures begun { MatchResult result
            (λ eviction. GoesOut D.held keeper.old eviction.ticket.slot to_write keeper.new)
            (λ _. keeper.new ≡ keeper.old) }
        ensures known { self.new.known ≡ keeper.new }
    {
        if !self.host.awaits_frame(id) {
            return Err(buf);
        }
        match self.host.evict_begin(id, buf) {
            Ok(eviction) => {
                keeper.begin_write(&mut self.known, eviction.ticket.slot());
                Ok(eviction)
            }
            Err(buf) => Err(buf),
        }
    }

    // A page begins to come, or one to leave where none can come.
    fn begin_move(&mut self, keeper: &mut TicketRecord<D, B>, id: InstId, buf: Buf) -> Begun
        ensures { HasBegun D.held keeper.old result keeper.new }
    {
        keeper.agree(&mut self.known);
        let buf = match self.fetch_begin(keeper, id, buf) {
            Ok(fetched) => return Begun::Coming(fetched),
            Err(buf) => buf,
        };
        match self.evict_begin(keeper, id, buf) {
            Ok(eviction) => Begun::Leaving(eviction),
            Err(buf) => Begun::Neither(buf),
        }
    }

    // A page that was coming: the device has answered to its read.
    fn fetch_commit(
        &mut self,
        device: &D,
        keeper: &mut TicketRecord<D, B>,
        fetched: Fetch,
        answer: Result<(), SwapError>,
    ) -> (FetchEnd, Buf)
        requires out { slice_get keeper.old.out fetched.ticket.slot ≡ Some (Some to_read) }
        requires called { (d : _) → keeper.old.device ≡ Some d → HasRead D.held D.keeps D.honest
            D.faults d fetched.ticket.slot fetched.ticket.bytes answer device.now }
        ensures keeper { keeper.new ≡ without_ticket keeper.old fetched.ticket.slot device.now }
    {
        keeper.agree(&mut self.known);
        let slot = fetched.ticket.slot();
        let (end, buf) = self.host.fetch_commit(fetched, answer);
        keeper.commit(&mut self.known, slot, device);
        (end, buf)
    }

    // A page that was leaving: the device has answered to its write. Where the page has left, reclaimer and books count it.
    fn evict_commit(
        &mut self,
        device: &D,
        keeper: &mut TicketRecord<D, B>,
        eviction: Eviction,
        answer: Result<(), SwapError>,
        reclaimer: &mut Helper<E>,
    ) -> (EvictEnd, Buf)
        requires out { slice_get keeper.old.out eviction.ticket.slot ≡ Some (Some to_write) }
        requires called { (d : _) → keeper.old.device ≡ Some d → HasWritten D.held D.keeps D.honest
            D.faults d eviction.ticket.slot eviction.ticket.bytes answer device.now }
        ensures keeper { keeper.new ≡ without_ticket keeper.old eviction.ticket.slot device.now }
        ensures counted { CountsEvictions (evictions_at result.0) reclaimer.old
            self.old.books.evictions reclaimer.new self.new.books.evictions }
    {
        keeper.agree(&mut self.known);
        let slot = eviction.ticket.slot();
        let (end, buf) = self.host.evict_commit(eviction, answer);
        keeper.commit(&mut self.known, slot, device);
        if end == EvictEnd::Evicted {
            count_evictions(&mut self.books, reclaimer, Ok(1));
        }
        (end, buf)
    }
}

// A page begins to come, or to leave, under the host's lock.
fn begin_under<D: SwapDev, T: Ledger, C: Ledger, O: Ledger, E: Ledger, B: CellAgreements, R: Wait>(
    rt: &R,
    locked: &Mutex<Locked<D, T, C, O, E, B>>,
    keeper: &mut TicketRecord<D, B>,
    id: InstId,
    buf: Buf,
) -> Begun
    ensures { HasBegun D.held keeper.old result keeper.new }
{
    let mut host = locked.lock(rt);
    host.begin_move(keeper, id, buf)
}

// A page that comes: the device is called under its own lock alone.
fn fetch<D: SwapDev, T: Ledger, C: Ledger, O: Ledger, E: Ledger, B: CellAgreements, R: Wait>(
    rt: &R,
    locked: &Mutex<Locked<D, T, C, O, E, B>>,
    device: &mut D,
    keeper: &mut TicketRecord<D, B>,
    fetched: Fetch,
) -> (Moved, Buf)
    requires knows { keeper.old.device ≡ Some device.old }
    requires out { slice_get keeper.old.out fetched.ticket.slot ≡ Some (Some to_read) }
    requires there { fetched.ticket.slot < length (D.held device.old) }
    requires content { get_or (D.held device.old) fetched.ticket.slot [] ≢ [] }
    ensures keeper { keeper.new ≡ without_ticket keeper.old fetched.ticket.slot device.new }
    ensures moved { result.0 ≢ Ready }
{
    let mut fetched = fetched;
    let answer = read(device, &mut fetched.ticket);
    let mut host = locked.lock(rt);
    let (end, buf) = host.fetch_commit(device, keeper, fetched, answer);
    (moved_by_fetch(end), buf)
}

// A page that leaves: the device is called under its own lock alone.
fn evict<D: SwapDev, T: Ledger, C: Ledger, O: Ledger, E: Ledger, B: CellAgreements, R: Wait>(
    rt: &R,
    locked: &Mutex<Locked<D, T, C, O, E, B>>,
    device: &mut D,
    keeper: &mut TicketRecord<D, B>,
    eviction: Eviction,
    reclaimer: &mut Helper<E>,
) -> (Moved, Buf)
    requires knows { keeper.old.device ≡ Some device.old }
    requires out { slice_get keeper.old.out eviction.ticket.slot ≡ Some (Some to_write) }
    requires there { eviction.ticket.slot < length (D.held device.old) }
    ensures keeper { keeper.new ≡ without_ticket keeper.old eviction.ticket.slot device.new }
    ensures from { reclaimer.new.from ≡ reclaimer.old.from }
    ensures grown { reclaimer.old.count ≤ reclaimer.new.count }
    ensures moved { result.0 ≢ Ready }
{
    let answer = write(device, &eviction.ticket);
    let mut host = locked.lock(rt);
    let (end, buf) = host.evict_commit(device, keeper, eviction, answer, reclaimer);
    (moved_by_eviction(end), buf)
}

// One move for the next step of an instance, if a page can begin to come or to leave.
fn move_page<D: SwapDev, T: Ledger, C: Ledger, O: Ledger, E: Ledger, B: CellAgreements, R: Wait>(
    rt: &R,
    locked: &Mutex<Locked<D, T, C, O, E, B>>,
    device: &mut D,
    keeper: &mut TicketRecord<D, B>,
    id: InstId,
    buf: Buf,
    reclaimer: &mut Helper<E>,
) -> (Option<Moved>, Buf)
    requires knows { keeper.old.device ≡ Some device.old }
    requires none { NoneOut keeper.old.out }
    ensures knows { keeper.new.device ≡ Some device.new }
    ensures none { NoneOut keeper.new.out }
    ensures from { reclaimer.new.from ≡ reclaimer.old.from }
    ensures grown { reclaimer.old.count ≤ reclaimer.new.count }
    ensures moved { result.0 ≢ Some Ready }
{
    match begin_under(rt, locked, keeper, id, buf) {
        Begun::Coming(fetched) => {
            let (moved, buf) = fetch(rt, locked, device, keeper, fetched);
            (Some(moved), buf)
        }
        Begun::Leaving(eviction) => {
            let (moved, buf) = evict(rt, locked, device, keeper, eviction, reclaimer);
            (Some(moved), buf)
        }
        Begun::Neither(buf) => (None, buf),
    }
}

impl<D: SwapDev, B: CellAgreements> Backing<D, B> {
    // One move for the next step of an instance, if a page can begin to come or to leave. Its device call is made under this
    // lock alone.
    pub(crate) fn move_for<T: Ledger, C: Ledger, O: Ledger, E: Ledger, R: Wait>(
        &mut self,
        rt: &R,
        locked: &Mutex<Locked<D, T, C, O, E, B>>,
        id: InstId,
        reclaimer: &mut Helper<E>,
    ) -> Option<Moved>
        ensures from { reclaimer.new.from ≡ reclaimer.old.from }
        ensures grown { reclaimer.old.count ≤ reclaimer.new.count }
        ensures moved { result ≢ Some Ready }
    {
        let Some(buf) = self.buf.take() else {
            unreachable!();
        };
        let (moved, buf) = move_page(
            rt,
            locked,
            &mut self.device,
            &mut self.keeper,
            id,
            buf,
            reclaimer,
        );
        self.buf = Some(buf);
        moved
    }
}
