//! What the lock lends.

ghost use Rattle.std.specs.Prelude.{◌≡◌, ◌+◌, ◌-◌, ◌^◌, ◌<◌, ℕ, min, Ok, IfOk, IfSome, IfNone, OnErr};
ghost use Rattle.wh_model.specs.declared.memory.Need.{Need};
ghost use Rattle.wh_host_model.specs.Host.Happens.{AwaitsFrame};
ghost use Rattle.wh_host_model.specs.Host.Worlds.{World};
ghost use Rattle.wh_space_model.specs.Laws.{IsProvided};
ghost use Rattle.wh_space_model.specs.Offers.{OffersOf};
ghost use Rattle.wh_space_model.specs.Provide.{FailsToProvide, FailsTruly, OthersKeepMinimum, Provides, ProvidesTruly};
ghost use Rattle.wh_host.specs.Backing.{KeepsBacking};
ghost use Rattle.wh_host.specs.Hosting.{IsHost};
ghost use Rattle.wh_host.specs.Left.{LeavesTurned};
ghost use Rattle.wh_host.specs.Paging.{MovesAnyhow, MovesOnly, MovesWith, WaitsFor, provide_fault};
ghost use Rattle.wh_host.specs.Sharing.{CanOffer};
ghost use Rattle.wh_host.specs.Showing.{RepresentsReached};
ghost use Rattle.wh_swap.specs.DeviceCalls.{ServesOn, call_faults};
ghost use Rattle.wh_reclaim.specs.Together.{AreTogether};
ghost use Rattle.wh_threads.specs.Counting.{IsZero, RanOwnTurn, RanTurn, all_charges, all_evictions, all_offers, all_turns};
ghost use Rattle.wh_cell.specs.Counted.{CountsEvictions, CountsOn, evictions_of};
ghost use Rattle.wh_cell.specs.Going.{TurnsIfGoing};
ghost use Rattle.wh_cell.specs.Knowing.{known_of};
ghost use Rattle.wh_cell.specs.Ledgers.{HasLedgers};
ghost use Rattle.wh_cell.specs.LeftByOwner.{HasNoCharge, HasTakenOn, left_as};
ghost use Rattle.wh_cell.specs.Locking.{IsInStep, now_of};
ghost use Rattle.wh_cell.specs.Owning.{ComesOn};
ghost use Rattle.wh_cell.specs.Scanned.{ScansLocked};

use crate::agreements::{CellAgreements, ToDevice, ToOwner};
use crate::backing::Backing;
use crate::cell::CellParts;
use crate::owner::{AgreedHost, LeavesAs, Owner};
use crate::taken::counted_turn;
use crate::ticket_record::{Begins, DeviceHalf, TicketRecord};
use std::alloc::{AllocError, Global};
use std::marker::Model;
use std::snapshot::Snapshot;
use std::sync::ledger::Ledger;
use wh_host::Host;
use wh_host_model::TurnEnd;
use wh_kernels::PageHash;
use wh_space_model::{InstId, Offer, SwapError};
use wh_swap::SwapDev;
use wh_threads::{AgreementHalf, Books, Helper, ReceivedTurns, Shares, Worker};

/// Counts the evictions that a provision has made, as far as the reclaimer can count them in 64 bits.
pub fn count_evictions<T: Ledger, C: Ledger, O: Ledger, E: Ledger>(
    books: &mut Books<T, C, O, E>,
    reclaimer: &mut Helper<E>,
    provided: Result<u64, SwapError>,
)
    ensures counted { CountsEvictions (evictions_of provided) reclaimer.old books.old.evictions
        reclaimer.new books.new.evictions }
    ensures books { books.new ≡ record books.old { evictions = books.new.evictions } }
{
    let Ok(gone) = provided else {
        return;
    };
    let room = u64::MAX - reclaimer.count();
    books.evict(reclaimer, gone.min(room));
}

/// Counts the pages that were offered in a pass, if it was made, as far as the scanner can count them in 64 bits.
pub fn count_offers<T: Ledger, C: Ledger, O: Ledger, E: Ledger>(
    books: &mut Books<T, C, O, E>,
    scanner: &mut Helper<O>,
    offered: Option<u64>,
)
    ensures from { scanner.new.from ≡ scanner.old.from }
    ensures counted { CountsOn offered scanner.old.count books.old.offers scanner.new.count
        books.new.offers }
    ensures books { books.new ≡ record books.old { offers = books.new.offers } }
{
    let Some(pages) = offered else {
        return;
    };
    let room = u64::MAX - scanner.count();
    books.offers(scanner, pages.min(room));
}

/// What a cell is put together from.
#[derive(Drop)]
pub struct Parts<D: SwapDev, T: Ledger, C: Ledger, O: Ledger, E: Ledger, B: CellAgreements> {
    /// What is to lie under the host's lock.
    pub locked: Locked<D, T, C, O, E, B>,
    /// What is to lie under the device's.
    pub backing: Backing<D, B>,
    /// The right to ask.
    pub owner: Owner<D, B>,
    /// The counts of all threads.
    pub shares: Shares<T, C, O, E>,
}

/// Lent by the lock: a host, what it knows of its swap device, the books of what threads count, and how the host's owner left
/// it.
///
/// Its type keeps that events lead to the host; that the charges in the books fit the journals; that it agrees with its device
/// on what each slot holds and which tickets are out, as that was when its last call was settled; and that the host came by
/// work alone from the one that its owner left: turns, offers, pages that move.
pub struct Locked<D: SwapDev, T: Ledger, C: Ledger, O: Ledger, E: Ledger, B: CellAgreements> {
    pub(crate) host: Host,
    pub(crate) books: Books<T, C, O, E>,
    pub(crate) known: DeviceHalf<D, B>,
    pub(crate) left: AgreementHalf<ToOwner<B>, AgreedHost<D>>,
}

impl<D: SwapDev, T: Ledger, C: Ledger, O: Ledger, E: Ledger, B: CellAgreements> Drop
    for Locked<D, T, C, O, E, B> {
    fn drop(self) {
        let Locked {
            host: _,
            books: _,
            known: _,
            left: _,
        } = self;
    }
}

impl<D: SwapDev, T: Ledger, C: Ledger, O: Ledger, E: Ledger, B: CellAgreements> Model
    for Locked<D, T, C, O, E, B> {
    ghost use Rattle.wh_cell.specs.Locking.{IsInStep, LockedState};

    ghost Value = { LockedState D };

    ghost use Rattle.wh_cell.specs.Stored.{stored_locked};

    ghost coded = { stored_locked D.code };

    ghost view = { λ l. record {
      host = l.host;
      known = l.known;
      books = record {
        turns = l.books.turns;
        charges = l.books.charges;
        offers = l.books.offers;
        evictions = l.books.evictions;
      };
      left = l.left;
    } };

    ghost invariant = { λ l. IsInStep D.held D.keeps D.honest D.faults (record {
      host = l.host;
      known = l.known;
      books = record {
        turns = l.books.turns;
        charges = l.books.charges;
        offers = l.books.offers;
        evictions = l.books.evictions;
      };
      left = l.left;
    }) };
}

impl<D: SwapDev + Drop, T: Ledger, C: Ledger, O: Ledger, E: Ledger, B: CellAgreements> Locked<
    D,
    T,
    C,
    O,
    E,
    B,
> {
    /// Returns the parts of a cell: a host, none of whose calls took a charge yet, and its device; its owner's right; and
    /// shares that are all zero. All memory for the counts is taken here.
    ///
    /// # Errors
    /// `AllocError` if an allocation fails.
    pub fn new(
        alloc: Global,
        host: Host,
        cell_parts: CellParts<D>,
    ) -> Result<Parts<D, T, C, O, E, B>, AllocError>
        requires uncharged { HasNoCharge host }
        requires together { AreTogether host.space (D.held cell_parts.device) }
        requires led { D.honest cell_parts.device → RepresentsReached host }
        requires owned { cell_parts.to_owner ≡ B.to_owner }
        requires backed { cell_parts.to_device ≡ B.to_device }
        requires ledgers { HasLedgers T.Ledger C.Ledger O.Ledger E.Ledger cell_parts }
        ensures host { IfOk result (λ parts. parts.locked.host ≡ host) }
        ensures device { IfOk result (λ parts. parts.backing.device ≡ cell_parts.device) }
        ensures agree { IfOk result (λ parts. parts.locked.known ≡ known_of parts.backing) }
        ensures books { IfOk result (λ parts. parts.locked.books
            ≡ record { turns = 0; charges = 0; offers = 0; evictions = 0 }) }
        ensures owner { IfOk result (λ parts. parts.owner ≡ left_as host cell_parts.device) }
        ensures shares { IfOk result (λ parts. IsZero parts.shares) }
    {
        let CellParts {
            device,
            buf,
            to_owner,
            to_device,
            turns,
            charges,
            offers,
            evictions,
        } = cell_parts;
        let (books, shares) = Books::open(alloc, turns, charges, offers, evictions)?;
        let begins = Begins {
            host: Snapshot::of(&host),
            device: Snapshot::of(&device),
        };
        let (agreement, keeps, known) = to_device.open::<ToDevice<B>, Begins<D>>(&begins);
        let keeper = TicketRecord::with(agreement, keeps);
        let leaves = LeavesAs {
            host: Snapshot::of(&host),
            known: Snapshot::of(&known),
        };
        let (agreement, mine, left) = to_owner.open::<ToOwner<B>, LeavesAs<D, B>>(&leaves);
        let locked = Locked {
            host,
            books,
            known,
            left,
        };
        let backing = Backing {
            device,
            buf: Some(buf),
            keeper,
        };
        Ok(Parts {
            locked,
            backing,
            owner: Owner::with(agreement, mine),
            shares,
        })
    }
}

impl<D: SwapDev, T: Ledger, C: Ledger, O: Ledger, E: Ledger, B: CellAgreements> Locked<
    D,
    T,
    C,
    O,
    E,
    B,
> {
    /// States what always holds of what the lock protects. Does nothing when run.
    #[inline(always)]
    pub fn invariant(&self)
        ensures { IsInStep D.held D.keeps D.honest D.faults self.now }
    {
        let _ = &self.host;
    }

    /// Returns the host.
    pub fn host(&self) -> &Host
        ensures { result.now ≡ self.now.host }
    {
        &self.host
    }

    /// Returns the books.
    pub fn books(&self) -> &Books<T, C, O, E>
        ensures turns { result.now.turns ≡ self.now.books.turns }
        ensures charges { result.now.charges ≡ self.now.books.charges }
        ensures offers { result.now.offers ≡ self.now.books.offers }
        ensures evictions { result.now.evictions ≡ self.now.books.evictions }
    {
        &self.books
    }

    /// Runs the next of the dispatched turns: of their instance, and of as many charges at most as they say. The worker
    /// counts it, and so do the books: one turn, and the charges by which the journal grew. One less is to be run then.
    /// If the instance's call can't make progress, it has no turn: the outcome is `Idle`, and no charge is counted; so
    /// a call that is blocked on a fault of the device stays so.
    pub fn turn(&mut self, order: &mut ReceivedTurns, worker: &mut Worker<T, C>) -> TurnEnd
        requires room { worker.old.tally.turns < 2 ^ 64 - 1 }
        requires due { 0 < order.old.count }
        ensures order { order.new ≡ record order.old { count = order.old.count - 1 } }
        ensures turns { (w : World) → IsHost self.old.host w
            → (w2 : World) × TurnsIfGoing w order.old.instance order.old.quantum result w2
            × IsHost self.new.host w2 }
        ensures counted { (taken : ℕ) × HasTakenOn self.old.host taken self.new.host
            × RanTurn worker.old taken worker.new
            × (self.new.books ≡ record self.old.books {
              turns = self.old.books.turns + 1;
              charges = self.old.books.charges + taken;
            }) }
        ensures backing { KeepsBacking self.old.host.space self.new.host.space }
        ensures memory { LeavesTurned order.old.instance.place result self.old.host.space
            self.new.host.space }
        ensures known { self.new.known ≡ self.old.known }
        ensures left { self.new.left ≡ self.old.left }
    {
        let (instance, quantum) = (order.instance(), order.quantum());
        let (end, taken) = counted_turn(&mut self.host, instance, quantum);
        self.books.turn(worker, order, taken);
        end
    }

    /// Runs a turn of at most `quantum` charges of an instance, by the owner, which has the counts of all threads: no
    /// thread works meanwhile. Adds it to the owner's own count and to the books: one turn, and the charges by which
    /// the journal grew. The counts of workers don't change.
    pub fn own_turn(&mut self, shares: &mut Shares<T, C, O, E>, id: InstId, quantum: u32) -> TurnEnd
        requires room { shares.old.owner.turns < 2 ^ 64 - 1 }
        ensures turns { (w : World) → IsHost self.old.host w
            → (w2 : World) × TurnsIfGoing w id quantum result w2 × IsHost self.new.host w2 }
        ensures counted { (taken : ℕ) × HasTakenOn self.old.host taken self.new.host
            × RanOwnTurn shares.old taken shares.new
            × (self.new.books ≡ record self.old.books {
              turns = self.old.books.turns + 1;
              charges = self.old.books.charges + taken;
            }) }
        ensures backing { KeepsBacking self.old.host.space self.new.host.space }
        ensures memory { LeavesTurned id.place result self.old.host.space self.new.host.space }
        ensures known { self.new.known ≡ self.old.known }
        ensures left { self.new.left ≡ self.old.left }
    {
        let (end, taken) = counted_turn(&mut self.host, id, quantum);
        self.books.own_turn(shares, taken);
        end
    }

    /// Offers a page of an instance for sharing, under any hash at all. Returns the outcome. The scanner counts it, and so do
    /// the books. No byte of any page changes.
    ///
    /// `None`, and nothing is done and nothing counted, where frames and slots are 2^32 together or more, or the place isn't
    /// below 2^32.
    pub fn offer<H: PageHash>(
        &mut self,
        hasher: &H,
        id: InstId,
        page: u32,
        hash: u64,
        scanner: &mut Helper<O>,
    ) -> Option<Offer>
        requires room { scanner.old.count < 2 ^ 64 - 1 }
        ensures moves { MovesOnly self.old.host self.new.host }
        ensures some { IfSome result (λ answer. OffersOf (H.hashes hasher.now) self.old.host.space
            id.place id.number page hash answer self.new.host.space) }
        ensures counted { IfSome result (λ _.
            (self.new.books ≡ record self.old.books { offers = self.old.books.offers + 1 })
            × (scanner.new ≡ record scanner.old { count = scanner.old.count + 1 })) }
        ensures none { IfNone result ((¬ CanOffer self.old.host.space id.place)
            × (self.new.host ≡ self.old.host) × (self.new.books ≡ self.old.books)
            × (scanner.new ≡ scanner.old)) }
        ensures backing { KeepsBacking self.old.host.space self.new.host.space }
        ensures known { self.new.known ≡ self.old.known }
        ensures left { self.new.left ≡ self.old.left }
    {
        let offered = self.host.offer(hasher, id, page, hash);
        if offered.is_some() {
            self.books.offer(scanner);
        }
        offered
    }

    /// Offers all pages of all instances for sharing, in the order of the instances' numbers, and those of each in order, each
    /// under the hash of its bytes as they are. Then as many frames are in use as there are distinct contents that aren't all
    /// zero, if the hash tells contents apart and was the hash before. No byte of any page changes.
    ///
    /// Returns how many pages were offered. The scanner counts these, and so do the books, as far as they can be counted in 64
    /// bits. Returns `None`, and nothing has changed, where frames and slots are 2^32 together or more.
    pub fn scan<H: PageHash>(&mut self, hasher: &H, scanner: &mut Helper<O>) -> Option<u64>
        ensures scans { ScansLocked (H.hashes hasher.now) self.old scanner.old.count result self.new
            scanner.new.count }
        ensures from { scanner.new.from ≡ scanner.old.from }
    {
        let offered = self.host.scan(hasher);
        count_offers(&mut self.books, scanner, offered);
        offered
    }

    /// Makes the next step of an instance ready where its present call waits for a frame, with calls of the swap device.
    /// Returns how many pages left. Whoever calls it has both locks. The reclaimer counts these pages, and so do the books, as
    /// far as they can be counted in 64 bits.
    ///
    /// # Errors
    /// That of the device's call that failed, which is kept with the present call. Nothing is counted then.
    pub fn provide(
        &mut self,
        backing: &mut Backing<D, B>,
        id: InstId,
        reclaimer: &mut Helper<E>,
    ) -> Result<u64, SwapError>
        ensures agreed { self.old.known ≡ known_of backing.old }
        ensures serves { ServesOn D.keeps D.honest D.faults backing.old.device (call_faults result)
            backing.new.device }
        ensures moves { D.honest backing.new.device
            → MovesWith self.old.host id AwaitsFrame (provide_fault result) self.new.host }
        ensures anyhow { MovesAnyhow self.old.host id AwaitsFrame (provide_fault result)
            self.new.host }
        ensures idle { ((need : Need) → ¬ WaitsFor self.old.host id need)
            → (self.new.host ≡ self.old.host) × (backing.new.device ≡ backing.old.device)
            × (result ≡ Ok 0) }
        ensures provides { (need : Need) → WaitsFor self.old.host id need
            → D.honest backing.new.device → IfOk result (λ gone.
            ProvidesTruly self.old.host.space id.place need gone self.new.host.space) }
        ensures right { (need : Need) → WaitsFor self.old.host id need → IfOk result (λ gone.
            IsProvided self.old.host.space id.place need gone self.new.host.space) }
        ensures fails { (need : Need) → WaitsFor self.old.host id need
            → D.honest backing.new.device → OnErr result
            (FailsTruly self.old.host.space id.place need self.new.host.space) }
        ensures provides_anyhow { (need : Need) → WaitsFor self.old.host id need → IfOk result
            (λ gone. Provides self.old.host.space id.place need gone self.new.host.space) }
        ensures fails_anyhow { (need : Need) → WaitsFor self.old.host id need → OnErr result
            (FailsToProvide self.old.host.space id.place need self.new.host.space) }
        ensures others { OthersKeepMinimum self.old.host.space id.place self.new.host.space }
        ensures writes { IfOk result (λ gone.
            D.writes backing.new.device ≡ D.writes backing.old.device + gone) }
        ensures counted { CountsEvictions (evictions_of result) reclaimer.old
            self.old.books.evictions reclaimer.new self.new.books.evictions }
        ensures books { self.new.books
            ≡ record self.old.books { evictions = self.new.books.evictions } }
        ensures knows { self.new.known ≡ known_of backing.new }
        ensures left { self.new.left ≡ self.old.left }
    {
        backing.keeper.agree(&mut self.known);
        let Some(buf) = &mut backing.buf else {
            unreachable!();
        };
        let provided = self.host.provide(&mut backing.device, id, buf);
        count_evictions(&mut self.books, reclaimer, provided);
        backing.keeper.settle(&mut self.known, &backing.device);
        provided
    }

    /// Shows whoever has both locks that the host knows the device as it is, and no ticket is out. Changes nothing.
    pub fn sync_device(&mut self, backing: &mut Backing<D, B>)
        ensures agreed { self.old.known ≡ known_of backing.old }
        ensures same { (self.new ≡ self.old) × (backing.new ≡ backing.old) }
    {
        backing.keeper.agree(&mut self.known);
    }

    /// Shows whoever has the shares of all threads that the books are the sums of their counts, by kind. Changes nothing.
    pub fn agree(&mut self, shares: &mut Shares<T, C, O, E>)
        ensures turns { self.old.books.turns ≡ all_turns shares.old }
        ensures charges { self.old.books.charges ≡ all_charges shares.old }
        ensures offers { self.old.books.offers ≡ all_offers shares.old }
        ensures evictions { self.old.books.evictions ≡ all_evictions shares.old }
        ensures same { (self.new.host ≡ self.old.host) × (self.new.known ≡ self.old.known)
            × (self.new.books ≡ self.old.books) × (self.new.left ≡ self.old.left)
            × (shares.new ≡ shares.old) }
    {
        self.books.agree(shares);
    }

    /// Shows the owner that the host came from the one that it left, which it then knows as it is.
    pub fn sync_owner(&mut self, owner: &mut Owner<D, B>)
        ensures came { ComesOn D.keeps D.honest D.faults owner.old (now_of self.old) }
        ensures knows { owner.new ≡ now_of self.new }
        ensures host { self.new.host ≡ self.old.host }
        ensures known { self.new.known ≡ self.old.known }
        ensures books { self.new.books ≡ self.old.books }
    {
        owner.leave(&mut self.left, &self.host, &self.known);
    }
}
