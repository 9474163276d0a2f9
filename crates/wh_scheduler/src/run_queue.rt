//! Which instances have turns: who can go on and has none out.

ghost use Rattle.std.specs.Prelude.{◌≡◌, ◌≢◌, ◌<◌, ◌≤◌, ◌⊎◌, ◌++◌, ◌∷◌, ◌+◌, ◌-◌, ◌^◌, ◌%◌, [], false, true, Some, None, IfOk, IfNone, IfSome, IsTrue, OnErr, OnOk, ◌↔◌, length, map, max, min, vec_len};
ghost use Rattle.wh_space_model.specs.declared.plain.InstId.{InstId};
ghost use Rattle.wh_host.specs.Paging.{IsAwaiting, IsGoing, Tells};
ghost use Rattle.wh_scheduler.specs.RunQueues.{ChoosesTurn, CompletesTurn, HasQueueEntry, HasNoEntry, HasTurnOut, IsQueueEntryOf, JoinsQueue, KeepsReady, LeavesQueue, OutOrDoneBetween, RestBetween, RestsAll, WantsFrame, idle_entry, ends_service};
ghost use Rattle.wh_cell.specs.declared.moving.Moved.TheVariants.{Ready};
ghost use Rattle.wh_scheduler.specs.declared.run_queue.Choice.TheVariants.{Turn, Wait, Frame, Rest};
ghost use Rattle.wh_scheduler.specs.declared.run_queue.Prospect.TheVariants.{Now, Out, Later, Never};

use std::alloc::{AllocError, Global};
use std::mem;
use wh_cell::Moved;
use wh_host::Host;
use wh_space_model::InstId;

/// An instance whose calls are run.
#[derive(Clone, Copy, Debug, PartialEq, Eq)]
pub struct QueueEntry {
    /// Which it is.
    pub id: InstId,
    /// Whether a worker has a turn of it.
    pub is_dispatched: bool,
}

/// The next turns of an instance, which it has one after the other.
#[derive(Clone, Copy, Debug, PartialEq, Eq)]
pub struct Series {
    /// Whose they are.
    pub id: InstId,
    /// How many.
    pub count: u32,
}

/// What comes next.
#[derive(Clone, Copy, Debug, PartialEq, Eq)]
pub enum Choice {
    /// A turn of this instance.
    Turn(InstId),
    /// A turn has to come back before: nobody else can go on.
    Wait,
    /// A step has to be made ready: an instance waits for a frame.
    Frame,
    /// Nothing: no instance can go on, and no turn is dispatched.
    Rest,
}

// Whether an instance has a turn next.
#[derive(Clone, Copy, Debug, PartialEq, Eq)]
pub enum Prospect {
    // It can go on, and none is out.
    Now,
    // Its turn is out.
    Out,
    // It waits for a frame: its step has to be made ready.
    Later,
    // It can't go on, and none is out.
    Never,
}

// How often the page that is to leave may be written meanwhile before a step is made ready at once, under both locks.
const MOST_VOIDS: u32 = 8;

// How many turns behind an arrival series stay short: for a second or some, where turns have a thousand charges.
const TURNS_UNTIL_CALM: u64 = 1 << 20;

/// An instance whose step is made ready.
#[derive(Clone, Copy, Debug, PartialEq, Eq)]
pub struct Waiter {
    /// Which it is.
    pub id: InstId,
    /// Whether that is done at once, under both locks: pages that were to leave were written meanwhile too often.
    pub at_once: bool,
}

/// Queues the instances whose calls are run: which of them have a dispatched turn, and whose step is ready and waits for its
/// turn.
///
/// An instance whose series came back, and whose call goes on, still has its turn out: its next series is queued, and dispatched
/// without a look at the host.
pub struct RunQueue {
    /// The instances, in the order in which they are looked at.
    pub entries: Vec<QueueEntry>,
    /// Whose step was made ready, and has had no turn since.
    pub ready: Option<InstId>,
    /// How many turns were dispatched.
    pub turns: u64,
    /// The next series that are queued, in the order in which their instances' last ones completed.
    pub queued: Vec<Series>,
    /// Whether the host has to be looked at: one that has no turn may go on, or none may any more.
    pub needs_rescan: bool,
    /// How many instances have joined or were woken, modulo 2^64.
    pub arrivals: u64,
    /// How many turns are to be dispatched before the last arrival is long past.
    pub calm_from: u64,
    // How many instances have their turn out, those that are queued among them.
    dispatched: usize,
    // Whose step is made ready, page by page.
    served: Option<InstId>,
    // How often in a row a page that was to leave for it was written meanwhile.
    voids: u32,
    // Whether a page is being moved for it.
    is_moving: bool,
    // Whether no further step is made ready.
    is_closed: bool,
    // After which entry the next one is looked for whose step is made ready.
    from: usize,
    // After which entry the next turn is looked for.
    next: usize,
    // After which entry the one is looked for whose turn comes back.
    back: usize,
}

impl Drop for RunQueue {
    fn drop(self) {
        let RunQueue {
            entries: _,
            ready: _,
            turns: _,
            queued: _,
            needs_rescan: _,
            arrivals: _,
            calm_from: _,
            dispatched: _,
            served: _,
            voids: _,
            is_moving: _,
            is_closed: _,
            from: _,
            next: _,
            back: _,
        } = self;
    }
}

// Whether this one has a turn next.
fn prospect_of(host: &Host, entry: QueueEntry, ready: Option<InstId>) -> Prospect
    ensures now { result ≡ Now → (entry.is_dispatched ≡ false)
        × Tells host.now true (λ w. IsGoing w entry.id) }
    ensures dispatched { result ≡ Out → entry.is_dispatched ≡ true }
    ensures later { result ≡ Later → (entry.is_dispatched ≡ false)
        × Tells host.now true (λ w. IsAwaiting w entry.id) × (ready ≢ Some entry.id) }
    ensures never { result ≡ Never → (entry.is_dispatched ≡ false)
        × Tells host.now false (λ w. IsGoing w entry.id) }
{
    if entry.is_dispatched {
        return Prospect::Out;
    }
    if !host.can_go_on(entry.id) {
        return Prospect::Never;
    }
    if host.awaits_frame(entry.id) && ready != Some(entry.id) {
        return Prospect::Later;
    }
    Prospect::Now
}

// Which of the entries from the one on, up to the other, is this instance's, if one is.
fn entry_between(entries: &[QueueEntry], id: InstId, from: usize, to: usize) -> Option<usize>
    requires { (from ≤ to) × (to ≤ length entries.now) }
    ensures some { IfSome result (IsQueueEntryOf id entries.now) }
    ensures none { IfNone result (HasNoEntry id entries.now from to) }
{
    for at in from..to {
        if entries[at].id == id {
            return Some(at);
        }
    }
    None
}

impl RunQueue {
    /// Returns a run queue of `ids`, of which none has a turn.
    ///
    /// # Errors
    /// `AllocError` if an allocation fails.
    pub fn new(alloc: Global, ids: &[InstId]) -> Result<RunQueue, AllocError>
        ensures { IfOk result (λ r. r.entries.items ≡ map idle_entry ids.now) }
    {
        let mut entries = Vec::with_capacity(alloc, ids.len())?;
        let queued = Vec::with_capacity(alloc, ids.len())?;
        for id in ids {
            entries.push(QueueEntry {
                id: *id,
                is_dispatched: false,
            })?;
        }
        Ok(RunQueue {
            entries,
            ready: None,
            turns: 0,
            queued,
            needs_rescan: true,
            arrivals: 0,
            calm_from: 0,
            dispatched: 0,
            served: None,
            voids: 0,
            is_moving: false,
            is_closed: false,
            from: 0,
            next: 0,
            back: 0,
        })
    }

    /// Chooses the next instance, after the one chosen last, that can make progress and has no turn, and dispatches its
    /// turn: one that waits for a frame only if its step is ready. If there is none, returns `Frame` if one waits for a
    /// frame, whose step isn't ready; else `Wait` if a turn is dispatched, and `Rest` if no instance can make progress.
    pub fn choose(&mut self, host: &Host) -> Choice
        ensures turn { ChoosesTurn host.now self.old.entries.items result self.new.entries.items }
        ensures wait { result ≡ Wait → HasTurnOut self.old.entries.items
            × OutOrDoneBetween host.now self.old.entries.items 0 (length self.old.entries.items) }
        ensures frame { result ≡ Frame → WantsFrame host.now self.old.entries.items self.old.ready }
        ensures rest { result ≡ Rest → RestsAll host.now self.old.entries.items }
        ensures rescan { (id : InstId) → result ≡ Turn id
            → self.new.needs_rescan ≡ self.old.needs_rescan }
        ensures arrivals { (self.new.arrivals ≡ self.old.arrivals)
            × (self.new.calm_from ≡ self.old.calm_from) × (self.new.turns ≡ self.old.turns) }
    {
        let many = self.entries.len();
        let next = self.next.min(many);
        let later = self.choose_between(host, next, many);
        if let Choice::Turn(_) = later {
            return later;
        }
        let earlier = self.choose_between(host, 0, next);
        if let Choice::Turn(_) = earlier {
            return earlier;
        }
        self.needs_rescan = false;
        if later == Choice::Rest || earlier == Choice::Frame {
            return earlier;
        }
        later
    }

    // What comes next among the entries from the one on, up to the other.
    fn choose_between(&mut self, host: &Host, from: usize, to: usize) -> Choice
        requires { (from ≤ to) × (to ≤ vec_len self.old.entries) }
        ensures turn { ChoosesTurn host.now self.old.entries.items result self.new.entries.items }
        ensures wait { result ≡ Wait → HasTurnOut self.old.entries.items }
        ensures frame { result ≡ Frame → WantsFrame host.now self.old.entries.items self.old.ready }
        ensures rest { result ≡ Rest → RestBetween host.now self.old.entries.items from to }
        ensures others { (result ≡ Wait) ⊎ (result ≡ Rest)
            → OutOrDoneBetween host.now self.old.entries.items from to }
        ensures ready { self.new.ready ≡ self.old.ready }
        ensures len { vec_len self.new.entries ≡ vec_len self.old.entries }
        ensures rescan { self.new.needs_rescan ≡ self.old.needs_rescan }
        ensures arrivals { (self.new.arrivals ≡ self.old.arrivals)
            × (self.new.calm_from ≡ self.old.calm_from) × (self.new.turns ≡ self.old.turns) }
    {
        let mut is_dispatched = false;
        let mut waits = false;
        for at in from..to {
            let entry = self.entries[at];
            match prospect_of(host, entry, self.ready) {
                Prospect::Now => {
                    self.entries[at] = QueueEntry {
                        id: entry.id,
                        is_dispatched: true,
                    };
                    self.dispatched = self.dispatched.saturating_add(1);
                    self.next = at + 1;
                    return Choice::Turn(entry.id);
                }
                Prospect::Out => is_dispatched = true,
                Prospect::Later => waits = true,
                Prospect::Never => {}
            }
        }
        if waits {
            return Choice::Frame;
        }
        if is_dispatched {
            Choice::Wait
        } else {
            Choice::Rest
        }
    }

    /// Tells whether nothing is under way: no turn is out, no step is ready, and none is being made ready.
    pub fn is_idle(&self) -> bool {
        self.dispatched == 0 && self.ready.is_none() && !self.is_moving
    }

    /// Closes the queue: no further step is made ready.
    pub fn close(&mut self)
        ensures { (self.new.entries ≡ self.old.entries) × (self.new.ready ≡ self.old.ready) }
    {
        self.is_closed = true;
    }

    /// Completes the turns of an instance whose call can make progress, and queues its next series. Returns whether at
    /// least half of those instances that have their turn out are queued.
    ///
    /// # Errors
    /// Where there was no room: nothing has changed. There is room for all instances.
    pub fn requeue(&mut self, series: Series) -> Result<bool, AllocError>
        ensures entries { self.new.entries ≡ self.old.entries }
        ensures queued { IfOk result (λ _.
            self.new.queued.items ≡ self.old.queued.items ++ series ∷ []) }
        ensures rescan { self.new.needs_rescan ≡ self.old.needs_rescan }
    {
        self.queued.push(series)?;
        if self.ready == Some(series.id) {
            self.ready = None;
        }
        Ok(self.queued.len() >= self.dispatched.saturating_sub(self.queued.len()))
    }

    /// Swaps the queued series with `list`.
    pub fn take_queued(&mut self, list: &mut Vec<Series>)
        ensures queued { (self.new.queued ≡ list.old) × (list.new ≡ self.old.queued) }
        ensures entries { self.new.entries ≡ self.old.entries }
        ensures rescan { self.new.needs_rescan ≡ self.old.needs_rescan }
    {
        mem::swap(&mut self.queued, list);
    }

    // An entry of this instance, looked for after the one whose turn came back last.
    fn entry_of(&self, id: InstId) -> Option<usize>
        ensures some { IfSome result (IsQueueEntryOf id self.now.entries.items) }
        ensures none { IfNone result
            (HasNoEntry id self.now.entries.items 0 (length self.now.entries.items)) }
    {
        let many = self.entries.len();
        let back = self.back.min(many);
        match entry_between(&self.entries, id, back, many) {
            Some(at) => Some(at),
            None => entry_between(&self.entries, id, 0, back),
        }
    }

    /// Completes the turn of `id`: it has none then, and the host has to be looked at.
    pub fn complete(&mut self, id: InstId)
        ensures completes { CompletesTurn id self.old.entries.items self.new.entries.items }
        ensures rescan { self.new.needs_rescan ≡ true }
    {
        if let Some(at) = self.entry_of(id) {
            self.entries[at] = QueueEntry {
                id,
                is_dispatched: false,
            };
            self.back = at + 1;
        }
        self.dispatched = self.dispatched.saturating_sub(1);
        self.needs_rescan = true;
        if self.ready == Some(id) {
            self.ready = None;
        }
    }

    /// Returns whose step is to be made ready: the one for which a page was moved last, while it still waits for a
    /// frame; else the next one after it that waits and has no turn. Returns `None` while a step is ready that waits
    /// for its turn, and once the queue is closed. A step that was made ready is given up if its call waits no more.
    pub fn next_waiter(&mut self, host: &Host) -> Option<Waiter>
        ensures some { IfSome result (λ waiter. (self.new.ready ≡ None)
            × Tells host.now true (λ w. IsAwaiting w waiter.id)) }
        ensures ready { KeepsReady host.now self.old.ready self.new.ready }
        ensures same { (self.new.entries ≡ self.old.entries)
            × (self.new.needs_rescan ≡ self.old.needs_rescan) }
    {
        if self.is_closed || self.waits_for_turn(host) {
            return None;
        }
        self.ready = None;
        if !self.still_waits(host) {
            self.begin_with_next(host);
        }
        let id = self.served?;
        self.is_moving = true;
        Some(Waiter {
            id,
            at_once: self.voids >= MOST_VOIDS,
        })
    }

    // Whether a step is ready whose call still waits: for its turn now.
    fn waits_for_turn(&self, host: &Host) -> bool
        ensures none { result ≡ false → (id : InstId) → self.now.ready ≡ Some id
            → Tells host.now false (λ w. IsAwaiting w id) }
    {
        match self.ready {
            Some(id) => host.awaits_frame(id),
            None => false,
        }
    }

    // Whether the one that is served still waits for a frame.
    fn still_waits(&self, host: &Host) -> bool
        ensures { result ≡ true → (id : InstId) × (self.now.served ≡ Some id)
            × Tells host.now true (λ w. IsAwaiting w id) }
    {
        match self.served {
            Some(id) => host.awaits_frame(id),
            None => false,
        }
    }

    // The next entry is served whose instance waits, or none.
    fn begin_with_next(&mut self, host: &Host)
        ensures served { (id : InstId) → self.new.served ≡ Some id
            → Tells host.now true (λ w. IsAwaiting w id) }
        ensures same { (self.new.entries ≡ self.old.entries) × (self.new.ready ≡ self.old.ready)
            × (self.new.needs_rescan ≡ self.old.needs_rescan) }
    {
        self.served = None;
        self.voids = 0;
        let many = self.entries.len();
        for step in 0..many {
            let at = (self.from % many + step) % many;
            let entry = self.entries[at];
            if !entry.is_dispatched && host.awaits_frame(entry.id) {
                self.served = Some(entry.id);
                self.from = at + 1;
                return;
            }
        }
    }

    // One has come: the host has to be looked at, and series are short for a while.
    fn note_arrival(&mut self)
        ensures rescan { self.new.needs_rescan ≡ true }
        ensures short { self.new.calm_from ≡ min (self.old.turns + 2 ^ 20) (2 ^ 64 - 1) }
        ensures arrivals { self.new.arrivals ≡ (self.old.arrivals + 1) % 2 ^ 64 }
        ensures turns { self.new.turns ≡ self.old.turns }
        ensures entries { (self.new.entries ≡ self.old.entries) × (self.new.ready ≡ self.old.ready)
            × (self.new.queued ≡ self.old.queued) }
    {
        self.needs_rescan = true;
        self.arrivals = self.arrivals.wrapping_add(1);
        self.calm_from = self.turns.saturating_add(TURNS_UNTIL_CALM);
    }

    /// Adds an instance, whose calls are run from now on, behind all others. If it is there, it is woken.
    ///
    /// # Errors
    /// `AllocError` if an allocation fails: no entry has changed.
    pub fn join(&mut self, id: InstId) -> Result<(), AllocError>
        ensures ok { OnOk result (JoinsQueue id self.old.entries.items self.new.entries.items) }
        ensures err { OnErr result (self.new.entries.items ≡ self.old.entries.items) }
        ensures rescan { OnOk result (self.new.needs_rescan ≡ true) }
        ensures short { OnOk result (self.new.calm_from ≡ min (self.old.turns + 2 ^ 20) (2 ^ 64 - 1)) }
        ensures arrivals { OnOk result (self.new.arrivals ≡ (self.old.arrivals + 1) % 2 ^ 64) }
        ensures same { (self.new.turns ≡ self.old.turns) × (self.new.ready ≡ self.old.ready)
            × (self.new.queued.items ≡ self.old.queued.items) }
    {
        if self.entry_of(id).is_none() {
            self.queued.reserve(1)?;
            self.entries.push(QueueEntry {
                id,
                is_dispatched: false,
            })?;
        }
        self.note_arrival();
        Ok(())
    }

    /// Notes that an instance may go on that couldn't before, as it was asked for something. Changes nothing if it isn't
    /// there. Returns whether its step was made ready: whoever makes steps ready has to look whether it still waits.
    pub fn wake(&mut self, id: InstId) -> bool
        ensures some { HasQueueEntry id self.old.entries.items → (self.new.needs_rescan ≡ true)
            × (self.new.calm_from ≡ min (self.old.turns + 2 ^ 20) (2 ^ 64 - 1))
            × (self.new.arrivals ≡ (self.old.arrivals + 1) % 2 ^ 64) }
        ensures none { HasNoEntry id self.old.entries.items 0 (length self.old.entries.items)
            → self.new ≡ self.old }
        ensures same { (self.new.entries ≡ self.old.entries) × (self.new.turns ≡ self.old.turns)
            × (self.new.ready ≡ self.old.ready) × (self.new.queued ≡ self.old.queued) }
        ensures ready { IsTrue result ↔ (self.old.ready ≡ Some id) }
    {
        if self.entry_of(id).is_some() {
            self.note_arrival();
        }
        self.ready == Some(id)
    }

    /// Removes an instance, whose calls are run no more: it has no entry then, and a step that was made ready for it is given
    /// up, so that another one's can be. A turn of it that is out comes back, and `complete` finds no entry. Returns whether a
    /// step was given up.
    pub fn leave(&mut self, id: InstId) -> bool
        ensures leaves { LeavesQueue id self.old.entries.items self.new.entries.items }
        ensures gives_up { self.old.ready ≡ Some id → self.new.ready ≡ None }
        ensures ready { self.old.ready ≢ Some id → self.new.ready ≡ self.old.ready }
        ensures given_up { IsTrue result ↔ (self.old.ready ≡ Some id) }
        ensures same { (self.new.turns ≡ self.old.turns) × (self.new.queued ≡ self.old.queued)
            × (self.new.arrivals ≡ self.old.arrivals) × (self.new.calm_from ≡ self.old.calm_from) }
        ensures rescan { self.new.needs_rescan ≡ true }
    {
        if let Some(at) = self.entry_of(id) {
            let _ = self.entries.remove(at);
        }
        self.needs_rescan = true;
        let was_ready = self.ready == Some(id);
        if was_ready {
            self.ready = None;
        }
        was_ready
    }

    /// Returns how many turns a series has at most that is dispatched now: any number where the last arrival is long past; else
    /// all that are out together have about `short`.
    pub fn most_turns(&self, short: u32) -> u32
        ensures calm { self.now.calm_from ≤ self.now.turns → result ≡ 2 ^ 32 - 1 }
        ensures short { self.now.turns < self.now.calm_from → result ≤ max short 1 }
        ensures some { 0 < result }
    {
        if self.calm_from <= self.turns {
            return u32::MAX;
        }
        let out = u32::try_from(self.dispatched).unwrap_or(u32::MAX);
        (short / out.max(1)).max(1)
    }

    /// Returns the instance whose page is the one of this number: they take turns, in order. Returns `None` if there is none.
    pub fn offers_at(&self, number: u64) -> Option<InstId>
        ensures some { IfSome result (λ id. IsQueueEntryOf id self.now.entries.items
            (number % length self.now.entries.items)) }
        ensures none { IfNone result (self.now.entries.items ≡ []) }
    {
        let many = self.entries.len() as u64;
        if many == 0 {
            return None;
        }
        Some(self.entries[(number % many) as usize].id)
    }

    /// Notes the outcome of a move for the instance served. Returns whether it may go on now, or not at all.
    pub fn note(&mut self, id: InstId, moved: Moved) -> bool
        ensures ends { result ≡ ends_service moved }
        ensures ready { moved ≡ Ready → self.new.ready ≡ Some id }
        ensures left { moved ≢ Ready → self.new.ready ≡ self.old.ready }
        ensures entries { self.new.entries ≡ self.old.entries }
        ensures rescan { (self.old.needs_rescan ≡ true) ⊎ (result ≡ true)
            → self.new.needs_rescan ≡ true }
    {
        self.is_moving = false;
        match moved {
            Moved::PageMoved => {
                self.voids = 0;
                return false;
            }
            Moved::Void => {
                self.voids = self.voids.saturating_add(1);
                return false;
            }
            Moved::Ready => self.ready = Some(id),
            Moved::Failed => {}
        }
        self.served = None;
        self.needs_rescan = true;
        true
    }
}
