//! A host that its owner has alone: what is asked of it between two runs of its calls, and the runs.

ghost use Rattle.std.specs.Prelude.{◌≡◌, ◌+◌, ◌-◌, ◌/◌, ◌^◌, ◌≤◌, ◌<◌, ◌⊎◌, Ok, Some, IfErr, IfNone, IfOk, IfSome, OnErr, OnOk, length};
ghost use Rattle.crossbeam_channel.specs.Claims.{view};
ghost use Rattle.wh_model.specs.declared.memory.Need.{Need};
ghost use Rattle.wh_host_model.specs.Host.Happens.{AwaitsFrame};
ghost use Rattle.wh_host_model.specs.Host.Worlds.{World};
ghost use Rattle.wh_space_model.specs.Offers.{OffersOf};
ghost use Rattle.wh_space_model.specs.Stores.{Epochs};
ghost use Rattle.wh_reclaim.specs.Together.{AreTogether};
ghost use Rattle.wh_host.specs.Backing.{KeepsBacking};
ghost use Rattle.wh_host.specs.HostReads.{ReadsBytes, RefusesRead, read_faults};
ghost use Rattle.wh_host.specs.Hosting.{IsHost};
ghost use Rattle.wh_host.specs.Paging.{MovesAnyhow, MovesOnly, MovesWith, WaitsFor, provide_fault};
ghost use Rattle.wh_host.specs.Rolls.{IsRollOf};
ghost use Rattle.wh_host.specs.Sharing.{CanOffer};
ghost use Rattle.wh_host.specs.Showing.{ShowsInstance, RepresentsReached};
ghost use Rattle.wh_swap.specs.DeviceCalls.{ServesOn, call_faults};
ghost use Rattle.wh_transcript.specs.Transcripts.{IsReplayable};
ghost use Rattle.wh_threads.specs.Counting.{turns_of};
ghost use Rattle.wh_threads.specs.Handover.{SameMessages};
ghost use Rattle.wh_workers.specs.Serving.{AreRun, AreTurns};
ghost use Rattle.wh_cell.specs.Calling.{IsMadeReady};
ghost use Rattle.wh_cell.specs.Counted.{countable, evictions_of, offers_of};
ghost use Rattle.wh_cell.specs.Going.{TurnsIfGoing};
ghost use Rattle.wh_cell.specs.Knowing.{known_of};
ghost use Rattle.wh_cell.specs.Ledgers.{HasLedgers};
ghost use Rattle.wh_cell.specs.LeftByOwner.{HasNoCharge, left_as};
ghost use Rattle.wh_cell.specs.Locking.{now_of};
ghost use Rattle.wh_cell.specs.Owning.{ComesOn};
ghost use Rattle.wh_cell.specs.Scanned.{IsScanned};
ghost use Rattle.wh_scheduler.specs.InHand.{AreSums, EachIs, IsSoundInHand, Rests, RestsOrWaits, RunsHere, WorksHere, by_scanners, left_of};
ghost use Rattle.wh_scheduler.specs.declared.here.HereEnd.TheVariants.{Frame, Most, Rest};

use crate::here::{
    TurnsHere, offer_in_hand, provide_in_hand, scan_in_hand, turn_in_hand, turns_here,
};
use crate::scanning::scan_there;
use crate::serving::{RunConfig, run_calls};
use std::alloc::{AllocError, Global};
use std::marker::Model;
use std::sync::Wait;
use std::sync::ledger::Ledger;
use std::thread::Threads;
use wh_cell::{Backing, CellAgreements, CellParts, HostCell, Locked, Owner, Parts};
use wh_host::{BeginEpoch, Host, HostError, ReadError, Request, Roll, Transcript};
use wh_host_model::TurnEnd;
use wh_kernels::PageHash;
use wh_space_model::{InstId, Offer, SwapError};
use wh_swap::SwapDev;
use wh_threads::{Books, OwnCount, Shares};
use wh_workers::{ServeError, Served};

/// Owns a host with its device, its books and all shares of them. Contracts see the host, the device and the books.
///
/// It lies under no lock, so that requests wait for nobody. While calls run it lies under one, and threads share it; then the
/// owner has it again, and knows by its right that nothing but work has befallen it.
pub struct OwnedHost<D: SwapDev, T: Ledger, C: Ledger, O: Ledger, E: Ledger, B: CellAgreements> {
    // There is always one of each, but while calls run.
    locked: Option<Locked<D, T, C, O, E, B>>,
    backing: Option<Backing<D, B>>,
    owner: Owner<D, B>,
    shares: Shares<T, C, O, E>,
}

impl<D: SwapDev + Drop, T: Ledger, C: Ledger, O: Ledger, E: Ledger, B: CellAgreements> Drop
    for OwnedHost<D, T, C, O, E, B> {
    fn drop(self) {
        let OwnedHost {
            locked: _,
            backing: _,
            owner: _,
            shares: _,
        } = self;
    }
}

impl<D: SwapDev, T: Ledger, C: Ledger, O: Ledger, E: Ledger, B: CellAgreements> Model
    for OwnedHost<D, T, C, O, E, B> {
    ghost use Rattle.wh_scheduler.specs.InHand.{IsInHand, OwnedState, owned_of};

    ghost Value = { OwnedState D };

    ghost use Rattle.wh_scheduler.specs.Stored.{stored_owned};

    ghost coded = { stored_owned D.code };

    ghost view = { λ o. owned_of o.locked o.owner o.shares };

    ghost invariant = { λ o. IsInHand o.locked o.backing o.owner o.shares };
}

impl<D: SwapDev + Drop, T: Ledger, C: Ledger, O: Ledger, E: Ledger, B: CellAgreements> OwnedHost<
    D,
    T,
    C,
    O,
    E,
    B,
> {
    /// Creates an owned host of `host`, none of whose calls took a charge yet. Allocates all that the counts need.
    ///
    /// # Errors
    /// `AllocError` if an allocation fails.
    pub fn new(
        alloc: Global,
        host: Host,
        cell_parts: CellParts<D>,
    ) -> Result<OwnedHost<D, T, C, O, E, B>, AllocError>
        requires uncharged { HasNoCharge host }
        requires together { AreTogether host.space (D.held cell_parts.device) }
        requires led { D.honest cell_parts.device → RepresentsReached host }
        requires owned { cell_parts.to_owner ≡ B.to_owner }
        requires backed { cell_parts.to_device ≡ B.to_device }
        requires ledgers { HasLedgers T.Ledger C.Ledger O.Ledger E.Ledger cell_parts }
        ensures host { IfOk result (λ owned. left_of owned ≡ left_as host cell_parts.device) }
        ensures books { IfOk result (λ owned. owned.books
            ≡ record { turns = 0; charges = 0; offers = 0; evictions = 0 }) }
    {
        let Parts {
            locked,
            backing,
            owner,
            shares,
        } = Locked::new(alloc, host, cell_parts)?;
        Ok(OwnedHost {
            locked: Some(locked),
            backing: Some(backing),
            owner,
            shares,
        })
    }

    /// Returns the device, when the host is done.
    pub fn into_device(self) -> D
        ensures { self.device ≡ Some result }
    {
        let OwnedHost {
            locked: _,
            backing,
            owner: _,
            shares: _,
        } = self;
        let Some(backing) = backing else {
            unreachable!();
        };
        backing.into_device()
    }
}

impl<D: SwapDev, T: Ledger, C: Ledger, O: Ledger, E: Ledger, B: CellAgreements> OwnedHost<
    D,
    T,
    C,
    O,
    E,
    B,
> {
    /// States what always holds: the host was reached by events, and by reads of a swap device that gave other bytes,
    /// if there were any; no ticket is out, device and slots agree, and the charges in the books fit the journals. Does
    /// nothing when run.
    #[inline(always)]
    pub fn invariant(&self)
        ensures { IsSoundInHand D.held D.honest self.now }
    {
        let (locked, backing) = self.both();
        locked.invariant();
        backing.invariant();
    }

    // What the owner has.
    #[inline(always)]
    fn both(&self) -> (&Locked<D, T, C, O, E, B>, &Backing<D, B>)
        ensures now { left_of self.now ≡ now_of result.0.now }
        ensures books { self.now.books ≡ result.0.now.books }
        ensures agree { result.0.now.known ≡ known_of result.1.now }
    {
        let Some(locked) = &self.locked else {
            unreachable!();
        };
        let Some(backing) = &self.backing else {
            unreachable!();
        };
        (locked, backing)
    }

    /// Returns the host.
    #[inline(always)]
    pub fn host(&self) -> &Host
        ensures { result.now ≡ self.now.host }
    {
        let (locked, _) = self.both();
        locked.host()
    }

    /// Returns the books, and what each thread has counted so far: the books are its sums, by kind.
    pub fn counts(&self) -> (&Books<T, C, O, E>, &Shares<T, C, O, E>)
        ensures books { (result.0.now.turns ≡ self.now.books.turns)
            × (result.0.now.charges ≡ self.now.books.charges)
            × (result.0.now.offers ≡ self.now.books.offers)
            × (result.0.now.evictions ≡ self.now.books.evictions) }
        ensures sums { AreSums self.now.books result.1.now }
        ensures own { result.1.now.owner ≡ self.now.own }
    {
        let (locked, _) = self.both();
        (locked.books(), &self.shares)
    }

    // What the owner itself has counted.
    pub(crate) fn own_count(&self) -> OwnCount
        ensures { result ≡ self.now.own }
    {
        self.shares.owner()
    }

    /// Returns the host's modules, and each live instance with its calls.
    ///
    /// # Errors
    /// `Memory` where room was refused.
    pub fn roll(&self, alloc: Global) -> Result<Roll, HostError>
        ensures { IfOk result (IsRollOf self.now.host) }
    {
        self.host().roll(alloc)
    }

    /// Returns the transcript of an instance. Its calls replay where the device has read right.
    ///
    /// # Errors
    /// `NoInstance`; `Memory` where room was refused.
    pub fn transcript(&self, alloc: Global, id: InstId) -> Result<Transcript, HostError>
        ensures shows { ShowsInstance self.now.host id result }
        ensures replays { IfSome self.now.device (λ device. D.honest device)
            → IfOk result (λ shown. IsReplayable shown) }
    {
        self.invariant();
        self.host().transcript(alloc, id)
    }

    /// Asks something of the host, as `Host` itself would be asked.
    ///
    /// # Errors
    /// Those of the request. The host is as it was then.
    pub fn ask<Q: Request>(&mut self, request: Q) -> Result<Q::Answer, Q::Error>
        ensures asks { Q.asks request self.old.host result self.new.host }
        ensures err { OnErr result (self.new.host ≡ self.old.host) }
        ensures backing { KeepsBacking self.old.host.space self.new.host.space }
        ensures device { self.new.device ≡ self.old.device }
        ensures books { self.new.books ≡ self.old.books }
        ensures own { self.new.own ≡ self.old.own }
    {
        let Some(locked) = &mut self.locked else {
            unreachable!();
        };
        locked.ask(&mut self.owner, request)
    }

    /// Reads `into.len()` bytes of an instance's memory, from the one at address `at` on, as the instance sees them between two of
    /// its turns. A page in swap is read through the device, and stays there: the host is as it was, and nothing is counted. Takes
    /// no memory.
    ///
    /// # Errors
    /// `NoInstance`; `Outside` if the memory has fewer bytes; `Device` with the fault of the device's call that failed, and what
    /// `into` holds is left open then.
    pub fn read(&mut self, id: InstId, at: u64, into: &mut [u8]) -> Result<(), ReadError>
        ensures reads { OnOk result (IfSome self.new.device (λ after. D.honest after
            → ReadsBytes self.old.host id at into.new)) }
        ensures err { IfErr result (RefusesRead self.old.host id at (length into.old)) }
        ensures length { length into.new ≡ length into.old }
        ensures host { self.new.host ≡ self.old.host }
        ensures serves { (before : _) → self.old.device ≡ Some before → IfSome self.new.device
            (λ after. ServesOn D.keeps D.honest D.faults before (read_faults result) after) }
        ensures books { self.new.books ≡ self.old.books }
        ensures own { self.new.own ≡ self.old.own }
    {
        let Some(locked) = &mut self.locked else {
            unreachable!();
        };
        let Some(backing) = &mut self.backing else {
            unreachable!();
        };
        let read = locked.read(backing, id, at, into);
        locked.sync_owner(&mut self.owner);
        read
    }

    /// Begins a new epoch: no page is marked as touched. It goes over all pages.
    pub fn epoch(&mut self)
        ensures moves { MovesOnly self.old.host self.new.host }
        ensures clears { Epochs self.old.host.space self.new.host.space }
        ensures backing { KeepsBacking self.old.host.space self.new.host.space }
        ensures device { self.new.device ≡ self.old.device }
        ensures books { self.new.books ≡ self.old.books }
        ensures own { self.new.own ≡ self.old.own }
    {
        let _ = self.ask(BeginEpoch);
    }

    /// Runs at most `most` turns of the calls of `ids`, in that order again and again, each of at most `quantum`
    /// charges, and in the calling thread: under no lock and through no channel. No page is offered for them, and none
    /// is moved.
    ///
    /// Returns how many were run, and why there were no more. The owner's own count has them, and so do the books; no worker's count
    /// changes.
    pub fn run_here(&mut self, ids: &[InstId], most: u64, quantum: u32) -> TurnsHere
        ensures came { ComesOn D.keeps D.honest D.faults (left_of self.old) (left_of self.new) }
        ensures few { result.turns ≤ most }
        ensures runs { RunsHere self.old.books self.old.own result.turns self.new.books
            self.new.own }
        ensures rest { result.end ≡ Rest → EachIs Rests self.new.host ids.now }
        ensures frame { result.end ≡ Frame → EachIs RestsOrWaits self.new.host ids.now }
        ensures most { result.end ≡ Most → (result.turns ≡ most)
            ⊎ (self.new.own.turns ≡ 2 ^ 64 - 1) }
        ensures device { self.new.device ≡ self.old.device }
    {
        let Some(locked) = &mut self.locked else {
            unreachable!();
        };
        let ran = turns_here(locked, &mut self.shares, ids, most, quantum);
        locked.sync_owner(&mut self.owner);
        ran
    }

    /// Runs a turn of at most `quantum` charges of an instance in the calling thread, under no lock. If its call can't
    /// make progress, it is `Idle`. The owner's own count has the turn, and so do the books; no thread's count changes.
    pub fn turn_here(&mut self, id: InstId, quantum: u32) -> TurnEnd
        requires room { self.old.own.turns < 2 ^ 64 - 1 }
        ensures came { ComesOn D.keeps D.honest D.faults (left_of self.old) (left_of self.new) }
        ensures turns { (w : World) → IsHost self.old.host w
            → (w2 : World) × TurnsIfGoing w id quantum result w2 × IsHost self.new.host w2 }
        ensures runs { RunsHere self.old.books self.old.own 1 self.new.books self.new.own }
        ensures device { self.new.device ≡ self.old.device }
    {
        let Some(locked) = &mut self.locked else {
            unreachable!();
        };
        let end = turn_in_hand(locked, &mut self.shares, id, quantum);
        locked.sync_owner(&mut self.owner);
        end
    }

    /// Offers a page of an instance for sharing, under any hash at all, in the calling thread, under no lock. Returns
    /// the outcome. The owner's own count has the offer, and so do the books; no thread's count changes, and no byte of
    /// any page.
    ///
    /// `None`, and nothing has changed, where frames and slots are 2^32 together or more, the place isn't below 2^32, or the owner can
    /// count no further offer in 64 bits.
    pub fn offer_here<H: PageHash>(
        &mut self,
        hasher: &H,
        id: InstId,
        page: u32,
        hash: u64,
    ) -> Option<Offer>
        ensures came { ComesOn D.keeps D.honest D.faults (left_of self.old) (left_of self.new) }
        ensures moves { MovesOnly self.old.host self.new.host }
        ensures some { IfSome result (λ answer. OffersOf (H.hashes hasher.now) self.old.host.space
            id.place id.number page hash answer self.new.host.space) }
        ensures works { IfSome result (λ _.
            WorksHere self.old.books self.old.own 0 1 self.new.books self.new.own) }
        ensures none { IfNone result (((¬ CanOffer self.old.host.space id.place)
            ⊎ (self.old.own.offers ≡ 2 ^ 64 - 1)) × (self.new.host ≡ self.old.host)
            × (self.new.books ≡ self.old.books) × (self.new.own ≡ self.old.own)) }
        ensures backing { KeepsBacking self.old.host.space self.new.host.space }
        ensures device { self.new.device ≡ self.old.device }
    {
        let Some(locked) = &mut self.locked else {
            unreachable!();
        };
        let offered = offer_in_hand(locked, &mut self.shares, hasher, id, page, hash);
        locked.sync_owner(&mut self.owner);
        offered
    }

    /// Offers all pages of all instances for sharing, as `scan` does, in the calling thread, under no lock. Returns how
    /// many pages were offered. The owner's own count has these, and so do the books, as far as the owner can count
    /// them in 64 bits; no thread's count changes.
    ///
    /// `None`, and nothing has changed, where frames and slots are 2^32 together or more.
    pub fn scan_here<H: PageHash>(&mut self, hasher: &H) -> Option<u64>
        ensures came { ComesOn D.keeps D.honest D.faults (left_of self.old) (left_of self.new) }
        ensures moves { MovesOnly self.old.host self.new.host }
        ensures scans { IsScanned (H.hashes hasher.now) self.old.host result self.new.host }
        ensures books { self.new.books ≡ record self.old.books {
          offers = self.old.books.offers + countable self.old.own.offers (offers_of result);
        } }
        ensures own { self.new.own ≡ record self.old.own {
          offers = self.old.own.offers + countable self.old.own.offers (offers_of result);
        } }
        ensures backing { KeepsBacking self.old.host.space self.new.host.space }
        ensures device { self.new.device ≡ self.old.device }
    {
        let Some(locked) = &mut self.locked else {
            unreachable!();
        };
        let offered = scan_in_hand(locked, &mut self.shares, hasher);
        locked.sync_owner(&mut self.owner);
        offered
    }

    /// Makes the next step of an instance ready, if its present call is blocked on a frame, in the calling thread, with
    /// calls of the swap device. Else does nothing. Returns how many pages were evicted. The owner's own count has
    /// these, and so do the books, as far as the owner can count them in 64 bits; no thread's count changes.
    ///
    /// # Errors
    /// That of the device's call that failed, which is kept with the present call. Nothing is counted then.
    pub fn provide_here(&mut self, id: InstId) -> Result<u64, SwapError>
        ensures came { ComesOn D.keeps D.honest D.faults (left_of self.old) (left_of self.new) }
        ensures serves { (before : _) → self.old.device ≡ Some before → IfSome self.new.device
            (λ after. ServesOn D.keeps D.honest D.faults before (call_faults result) after) }
        ensures moves { IfSome self.new.device (λ after. D.honest after
            → MovesWith self.old.host id AwaitsFrame (provide_fault result) self.new.host) }
        ensures anyhow { MovesAnyhow self.old.host id AwaitsFrame (provide_fault result)
            self.new.host }
        ensures ready { OnOk result (IsMadeReady id self.old.host self.new.host) }
        ensures idle { ((need : Need) → ¬ WaitsFor self.old.host id need)
            → (self.new.host ≡ self.old.host) × (self.new.device ≡ self.old.device)
            × (result ≡ Ok 0) }
        ensures books { self.new.books ≡ record self.old.books {
          evictions = self.old.books.evictions
              + countable self.old.own.evictions (evictions_of result);
        } }
        ensures own { self.new.own ≡ record self.old.own {
          evictions = self.old.own.evictions
              + countable self.old.own.evictions (evictions_of result);
        } }
    {
        let Some(locked) = &mut self.locked else {
            unreachable!();
        };
        let Some(backing) = &mut self.backing else {
            unreachable!();
        };
        let provided = provide_in_hand(locked, backing, &mut self.shares, id);
        locked.sync_owner(&mut self.owner);
        provided
    }
}

impl<
    D: SwapDev + Drop + Send + 'static,
    T: Ledger + Send + 'static,
    C: Ledger + Send + 'static,
    O: Ledger + Send + 'static,
    E: Ledger + Send + 'static,
    B: CellAgreements + Send + 'static,
> OwnedHost<D, T, C, O, E, B> {
    /// Offers all pages of all instances for sharing, in the order of the instances' numbers, and those of each in
    /// order, each under the hash of its bytes as they are. Then as many frames are in use as there are distinct
    /// contents that aren't all zero, if the hash tells contents apart and was the hash before. No byte of any page
    /// changes. A scanner does it, in a thread that this call starts and joins.
    ///
    /// Returns how many pages were offered: the book of offers has grown by that number, as far as they can be counted
    /// in 64 bits; or `None`, and nothing has changed, if frames and slots are 2^32 together or more.
    ///
    /// # Errors
    /// `Memory` if an allocation fails, and `NoThread` if the scanner can't be started. Nothing was done then.
    pub fn scan<H: PageHash + Drop + Send + 'static, R: Threads + Wait + Copy + Send + 'static>(
        &mut self,
        rt: &R,
        alloc: Global,
        hasher: H,
    ) -> Result<Option<u64>, ServeError>
        ensures moves { OnOk result (MovesOnly self.old.host self.new.host) }
        ensures scans { IfOk result (λ offered.
            IsScanned (H.hashes hasher) self.old.host offered self.new.host) }
        ensures books { IfOk result (λ offered. self.new.books ≡ record self.old.books {
          offers = self.old.books.offers
              + countable (by_scanners self.old.books self.old.own) (offers_of offered);
        }) }
        ensures err { OnErr result (self.new ≡ self.old) }
        ensures backing { KeepsBacking self.old.host.space self.new.host.space }
        ensures device { self.new.device ≡ self.old.device }
        ensures own { self.new.own ≡ self.old.own }
    {
        let Some(locked) = self.locked.take() else {
            unreachable!();
        };
        let (answer, back) = scan_there(*rt, alloc, locked, hasher, &mut self.shares);
        let mut back = back;
        back.sync_owner(&mut self.owner);
        self.locked = Some(back);
        answer
    }

    /// Runs the calls of `ids` until none can make progress, as `run_calls` does, on a cell that holds the host
    /// meanwhile: workers do, in threads of their own, and the owner's own count doesn't change. Whatever it returns,
    /// the host came by work from the one before.
    ///
    /// # Errors
    /// Those of `run_calls`.
    pub fn run<
        H: PageHash + Copy + Send + 'static,
        R: Threads + Wait + Copy + Send + Sync + 'static,
    >(
        &mut self,
        rt: R,
        alloc: Global,
        ids: &[InstId],
        run_config: RunConfig<H>,
    ) -> Result<Served, ServeError>
        requires { (0 < run_config.workers) × (run_config.workers ≤ 64) }
        ensures came { ComesOn D.keeps D.honest D.faults (left_of self.old) (left_of self.new) }
        ensures dispatched { IfOk result (λ s. AreTurns s.turns run_config.quantum (view s.slip).sent) }
        ensures once { IfOk result (λ s. OnOk s.end
            (SameMessages (view s.slip).sent (view s.slip).received)) }
        ensures grown { IfOk result (λ s. AreRun self.old.books.turns s.left
            (view s.slip).received self.new.books.turns) }
        ensures turns { IfOk result (λ s. OnOk s.end
            (self.new.books.turns ≡ self.old.books.turns + s.turns)) }
        ensures owed { IfOk result (λ s. OnOk s.end
            (self.old.books.offers + s.turns / 64 ≤ self.new.books.offers)) }
        ensures err { OnErr result (self.new.books.turns ≡ self.old.books.turns) }
        ensures offers { self.old.books.offers ≤ self.new.books.offers }
        ensures evictions { self.old.books.evictions ≤ self.new.books.evictions }
        ensures own { self.new.own ≡ self.old.own }
    {
        let Some(locked) = self.locked.take() else {
            unreachable!();
        };
        let Some(backing) = self.backing.take() else {
            unreachable!();
        };
        let (served, parts) = run_between(
            rt,
            alloc,
            (locked, backing),
            &mut self.shares,
            ids,
            run_config,
        );
        let (mut locked, mut backing) = parts;
        locked.sync_device(&mut backing);
        locked.agree(&mut self.shares);
        locked.sync_owner(&mut self.owner);
        self.locked = Some(locked);
        self.backing = Some(backing);
        served
    }
}

// Runs the calls on a cell that holds these parts meanwhile, and gives them back.
fn run_between<
    D: SwapDev + Drop + Send + 'static,
    T: Ledger + Send + 'static,
    C: Ledger + Send + 'static,
    O: Ledger + Send + 'static,
    E: Ledger + Send + 'static,
    B: CellAgreements + Send + 'static,
    H: PageHash + Copy + Send + 'static,
    R: Threads + Wait + Copy + Send + Sync + 'static,
>(
    rt: R,
    alloc: Global,
    parts: (Locked<D, T, C, O, E, B>, Backing<D, B>),
    shares: &mut Shares<T, C, O, E>,
    ids: &[InstId],
    run_config: RunConfig<H>,
) -> (
    Result<Served, ServeError>,
    (Locked<D, T, C, O, E, B>, Backing<D, B>),
)
    requires { (0 < run_config.workers) × (run_config.workers ≤ 64) }
    ensures dispatched { IfOk result.0 (λ s. AreTurns s.turns run_config.quantum (view s.slip).sent) }
    ensures once { IfOk result.0 (λ s. OnOk s.end
        (SameMessages (view s.slip).sent (view s.slip).received)) }
    ensures grown { IfOk result.0 (λ s. AreRun (turns_of shares.old.tallies) s.left
        (view s.slip).received (turns_of shares.new.tallies)) }
    ensures turns { IfOk result.0 (λ s. OnOk s.end
        (turns_of shares.new.tallies ≡ turns_of shares.old.tallies + s.turns)) }
    ensures owed { IfOk result.0 (λ s. OnOk s.end
        (shares.old.offers + s.turns / 64 ≤ shares.new.offers)) }
    ensures err { OnErr result.0 (shares.new.tallies ≡ shares.old.tallies) }
    ensures offers { shares.old.offers ≤ shares.new.offers }
    ensures evictions { shares.old.evictions ≤ shares.new.evictions }
    ensures owner { shares.new.owner ≡ shares.old.owner }
{
    let (locked, backing) = parts;
    match HostCell::from_parts(alloc, locked, backing) {
        Ok(cell) => {
            let served = run_calls(rt, alloc, &cell, shares, ids, run_config);
            (served, cell.into_parts(&rt))
        }
        Err(parts) => (Err(ServeError::Memory), parts),
    }
}
