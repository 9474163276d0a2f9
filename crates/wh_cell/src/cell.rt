//! The cell: a host under a lock that threads share.

ghost use Rattle.std.specs.Prelude.{◌≡◌, ◌≤◌, IfOk};
ghost use Rattle.std.specs.Sync.Mutex.{mutex_guard_value};
ghost use Rattle.wh_reclaim.specs.Together.{AreTogether};
ghost use Rattle.wh_host.specs.Rolls.{IsRollOf};
ghost use Rattle.wh_host.specs.Showing.{RepresentsReached};
ghost use Rattle.wh_threads.specs.Counting.{IsZero};
ghost use Rattle.wh_cell.specs.Calling.{IsMadeReady};
ghost use Rattle.wh_cell.specs.Knowing.{NoneOut};
ghost use Rattle.wh_cell.specs.Ledgers.{HasLedgers};
ghost use Rattle.wh_cell.specs.LeftByOwner.{HasNoCharge, left_as};
ghost use Rattle.wh_cell.specs.Locking.{IsInStep};
ghost use Rattle.wh_cell.specs.declared.moving.Moved.TheVariants.{Ready};

use crate::agreements::CellAgreements;
use crate::backing::Backing;
use crate::locked::{Locked, Parts};
use crate::moving::Moved;
use crate::owner::{AgreedHost, Owner};
use crate::ticket_record::AgreedDevice;
use std::alloc::{AllocError, Global};
use std::sync::atomic::{AtomicU64, Ordering};
use std::sync::ledger::{Blank, Ledger};
use std::sync::{Arc, Mutex, MutexGuard, Wait};
use std::thread;
use wh_host::{Host, HostError, Roll};
use wh_reclaim::Buf;
use wh_space_model::InstId;
use wh_swap::SwapDev;
use wh_threads::{BlankAgreement, Helper, Shares};

// What the handles of a cell share. Whoever takes both locks takes the device's first.
#[derive(Drop)]
struct SharedLocks<D: SwapDev, T: Ledger, C: Ledger, O: Ledger, E: Ledger, B: CellAgreements> {
    locked: Mutex<Locked<D, T, C, O, E, B>>,
    backing: Mutex<Backing<D, B>>,
    wanted: AtomicU64,
}

/// Holds a host under a lock, with the books of what threads count, and its swap device under another. Each thread has its
/// handle.
pub struct HostCell<D: SwapDev, T: Ledger, C: Ledger, O: Ledger, E: Ledger, B: CellAgreements> {
    both: Arc<SharedLocks<D, T, C, O, E, B>, Global>,
}

impl<D: SwapDev + Drop, T: Ledger, C: Ledger, O: Ledger, E: Ledger, B: CellAgreements> Drop
    for HostCell<D, T, C, O, E, B> {
    fn drop(self) {
        let HostCell { both: _ } = self;
    }
}

/// What a cell is built from besides its host: its device, a buffer for pages that come, and what is to name its ledgers and its
/// agreements.
#[derive(Drop)]
pub struct CellParts<D> {
    /// The swap device.
    pub device: D,
    /// A buffer for a page.
    pub buf: Buf,
    /// That between the lock and the host's owner.
    pub to_owner: BlankAgreement<AgreedHost<D>>,
    /// That between the locks of host and device.
    pub to_device: BlankAgreement<AgreedDevice<D>>,
    /// The ledger of turns.
    pub turns: Blank,
    /// The ledger of charges.
    pub charges: Blank,
    /// The ledger of offers.
    pub offers: Blank,
    /// The ledger of evictions.
    pub evictions: Blank,
}

impl<D: Drop> CellParts<D> {
    /// Returns the parts with `device`: new blanks with as many parts as 64 workers, a scanner and a reclaimer take.
    ///
    /// # Errors
    /// Where room was refused. The device is gone then.
    pub fn new(alloc: Global, device: D) -> Result<CellParts<D>, AllocError>
        ensures device { IfOk result (λ f. f.device ≡ device) }
        ensures parts { IfOk result (λ f. (f.turns.parts ≡ 65) × (f.charges.parts ≡ 65)
            × (f.offers.parts ≡ 2) × (f.evictions.parts ≡ 2)) }
    {
        Ok(CellParts {
            device,
            buf: Box::new(alloc, [0; 4096])?,
            to_owner: BlankAgreement::new(alloc)?,
            to_device: BlankAgreement::new(alloc)?,
            turns: Blank::new(65),
            charges: Blank::new(65),
            offers: Blank::new(2),
            evictions: Blank::new(2),
        })
    }
}

impl<D: SwapDev + Drop, T: Ledger, C: Ledger, O: Ledger, E: Ledger, B: CellAgreements> HostCell<
    D,
    T,
    C,
    O,
    E,
    B,
> {
    /// Puts a host under a lock, none of whose calls took a charge yet. Returns the cell, its owner's right, and shares that
    /// are all zero. All memory for the cell is taken here.
    ///
    /// # Errors
    /// `AllocError` if an allocation fails.
    pub fn new(
        alloc: Global,
        host: Host,
        cell_parts: CellParts<D>,
    ) -> Result<(HostCell<D, T, C, O, E, B>, Owner<D, B>, Shares<T, C, O, E>), AllocError>
        requires uncharged { HasNoCharge host }
        requires together { AreTogether host.space (D.held cell_parts.device) }
        requires led { D.honest cell_parts.device → RepresentsReached host }
        requires owned { cell_parts.to_owner ≡ B.to_owner }
        requires backed { cell_parts.to_device ≡ B.to_device }
        requires ledgers { HasLedgers T.Ledger C.Ledger O.Ledger E.Ledger cell_parts }
        ensures owner { IfOk result (λ r. r.1 ≡ left_as host cell_parts.device) }
        ensures shares { IfOk result (λ r. IsZero r.2) }
    {
        let Parts {
            locked,
            backing,
            owner,
            shares,
        } = Locked::new(alloc, host, cell_parts)?;
        let Ok(cell) = HostCell::from_parts(alloc, locked, backing) else {
            return Err(AllocError);
        };
        Ok((cell, owner, shares))
    }

    /// Puts both parts under the locks of a cell.
    ///
    /// # Errors
    /// Where room was refused: returns both. As with whatever has lain under a lock, whoever has both learns by `sync_device`
    /// that they agree, and its owner by `sync_owner` what has become of it.
    pub fn from_parts(
        alloc: Global,
        locked: Locked<D, T, C, O, E, B>,
        backing: Backing<D, B>,
    ) -> Result<HostCell<D, T, C, O, E, B>, (Locked<D, T, C, O, E, B>, Backing<D, B>)> {
        let both = SharedLocks {
            locked: Mutex::new(locked),
            backing: Mutex::new(backing),
            wanted: AtomicU64::new(0),
        };
        match Arc::new(alloc, both) {
            Ok(both) => Ok(HostCell { both }),
            Err(failed) => {
                let SharedLocks {
                    locked,
                    backing,
                    wanted: _,
                } = failed.value;
                Err((locked.into_inner(), backing.into_inner()))
            }
        }
    }

    /// Returns both parts, once this is the only handle: waits for that.
    pub fn into_parts<R: Wait>(self, rt: &R) -> (Locked<D, T, C, O, E, B>, Backing<D, B>) {
        let HostCell { mut both } = self;
        for _ in rt.forever() {
            match Arc::try_unwrap(both) {
                Ok(last) => {
                    let SharedLocks {
                        locked,
                        backing,
                        wanted: _,
                    } = last;
                    return (locked.into_inner(), backing.into_inner());
                }
                Err(shared) => {
                    both = shared;
                    thread::yield_now();
                }
            }
        }
        unreachable!()
    }
}

impl<D: SwapDev, T: Ledger, C: Ledger, O: Ledger, E: Ledger, B: CellAgreements> HostCell<
    D,
    T,
    C,
    O,
    E,
    B,
> {
    /// Returns another handle, for another thread.
    ///
    /// # Errors
    /// Where there are as many handles as can be counted.
    pub fn share(&self) -> Result<HostCell<D, T, C, O, E, B>, AllocError> {
        let both = Arc::try_clone(&self.both)?;
        Ok(HostCell { both })
    }

    /// Returns how many want the lock, or call the device for a move, besides those who lock it to work. While there are some, whoever
    /// runs turns under the lock begins no further one, and a round ends.
    pub fn wanted(&self) -> &AtomicU64 {
        &self.both.wanted
    }

    /// Returns whether somebody wants the lock.
    pub fn is_wanted(&self) -> bool {
        self.both.wanted.load(Ordering::SeqCst) > 0
    }

    /// Acquires the lock, and is counted among those who want it until it has it. Whoever gets it finds a host to which events lead,
    /// and reads of a swap device that gave other bytes, if there were any; books whose charges fit its journals; that it agrees with
    /// its device as that was when its last call was settled; and that it came by work from the one that its owner left.
    pub fn lock<R: Wait>(&self, rt: &R) -> MutexGuard<'_, Locked<D, T, C, O, E, B>>
        ensures { IsInStep D.held D.keeps D.honest D.faults (mutex_guard_value result) }
    {
        let _ = self.both.wanted.fetch_add(1, Ordering::SeqCst);
        let guard = self.lock_to_work(rt);
        let _ = self.both.wanted.fetch_sub(1, Ordering::SeqCst);
        guard
    }

    /// Acquires the lock for turns or offers: nobody gives way to it, as they do to whoever calls `lock`.
    pub fn lock_to_work<R: Wait>(&self, rt: &R) -> MutexGuard<'_, Locked<D, T, C, O, E, B>>
        ensures { IsInStep D.held D.keeps D.honest D.faults (mutex_guard_value result) }
    {
        let guard = self.both.locked.lock(rt);
        guard.invariant();
        guard
    }

    /// Acquires the lock of the swap device, whose calls are made by whoever has it: waits for one that is under way. No ticket is out
    /// then. Whoever takes both locks takes this one first.
    pub fn lock_device<R: Wait>(&self, rt: &R) -> MutexGuard<'_, Backing<D, B>>
        ensures { NoneOut (mutex_guard_value result).out }
    {
        let guard = self.both.backing.lock(rt);
        guard.invariant();
        guard
    }

    /// Moves one page toward making `id`'s next step ready, if its present call is blocked on a frame: fetches or
    /// evicts it, and while the device is called for that the host's lock is free. If none has to be moved, or at
    /// `at_once`, makes the step ready under both locks. It is counted among those who want the host's lock meanwhile.
    /// The reclaimer counts the evictions. Returns `Ready` only if a provision has made it so.
    pub fn bring_nearer<R: Wait>(
        &self,
        rt: &R,
        id: InstId,
        at_once: bool,
        reclaimer: &mut Helper<E>,
    ) -> Moved
        ensures from { reclaimer.new.from ≡ reclaimer.old.from }
        ensures grown { reclaimer.old.count ≤ reclaimer.new.count }
        ensures ready { result ≡ Ready → (l l2 : _) × IsInStep D.held D.keeps D.honest D.faults l
            × IsInStep D.held D.keeps D.honest D.faults l2 × IsMadeReady id l.host l2.host }
    {
        let _ = self.both.wanted.fetch_add(1, Ordering::SeqCst);
        let moved = self.move_nearer(rt, id, at_once, reclaimer);
        let _ = self.both.wanted.fetch_sub(1, Ordering::SeqCst);
        moved
    }

    // The same, counted among nobody.
    fn move_nearer<R: Wait>(
        &self,
        rt: &R,
        id: InstId,
        at_once: bool,
        reclaimer: &mut Helper<E>,
    ) -> Moved
        ensures from { reclaimer.new.from ≡ reclaimer.old.from }
        ensures grown { reclaimer.old.count ≤ reclaimer.new.count }
        ensures ready { result ≡ Ready → (l l2 : _) × IsInStep D.held D.keeps D.honest D.faults l
            × IsInStep D.held D.keeps D.honest D.faults l2 × IsMadeReady id l.host l2.host }
    {
        let mut backing = self.both.backing.lock(rt);
        if !at_once {
            if let Some(moved) = backing.move_for(rt, &self.both.locked, id, reclaimer) {
                return moved;
            }
        }
        let mut locked = self.lock_to_work(rt);
        let provided = locked.provide(&mut backing, id, reclaimer);
        locked.invariant();
        match provided {
            Ok(_) => Moved::Ready,
            Err(_) => Moved::Failed,
        }
    }

    /// Acquires the lock, and returns it with the roll of the host that it finds there: what is there until the lock is released.
    ///
    /// # Errors
    /// Where memory was refused.
    pub fn roll<R: Wait>(
        &self,
        rt: &R,
        alloc: Global,
    ) -> (
        MutexGuard<'_, Locked<D, T, C, O, E, B>>,
        Result<Roll, HostError>,
    )
        ensures step { IsInStep D.held D.keeps D.honest D.faults (mutex_guard_value result.0) }
        ensures roll { IfOk result.1 (IsRollOf (mutex_guard_value result.0).host) }
    {
        let guard = self.lock(rt);
        let roll = guard.roll(alloc);
        (guard, roll)
    }
}
