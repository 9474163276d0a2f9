//! What the owner of a host does itself, where no thread works: it has the counts of all threads, and counts in its own.

ghost use Rattle.std.specs.Prelude.{◌≡◌, ◌+◌, ◌-◌, ◌^◌, ◌<◌, Ok, IfOk, IfSome, IfNone, OnErr};
ghost use Rattle.wh_model.specs.declared.memory.Need.{Need};
ghost use Rattle.wh_host_model.specs.Host.Happens.{AwaitsFrame};
ghost use Rattle.wh_space_model.specs.Laws.{IsProvided};
ghost use Rattle.wh_space_model.specs.Offers.{OffersOf};
ghost use Rattle.wh_space_model.specs.Provide.{FailsToProvide, FailsTruly, OthersKeepMinimum, Provides, ProvidesTruly};
ghost use Rattle.wh_host.specs.Backing.{KeepsBacking};
ghost use Rattle.wh_host.specs.Paging.{MovesAnyhow, MovesOnly, MovesWith, WaitsFor, provide_fault};
ghost use Rattle.wh_host.specs.Sharing.{CanOffer};
ghost use Rattle.wh_swap.specs.DeviceCalls.{ServesOn, call_faults};
ghost use Rattle.wh_threads.specs.Counting.{MadeOwnEvictions, MadeOwnOffers};
ghost use Rattle.wh_cell.specs.Counted.{countable, evictions_of, offers_of};
ghost use Rattle.wh_cell.specs.Knowing.{known_of};
ghost use Rattle.wh_cell.specs.Scanned.{ScansLocked};

use crate::agreements::CellAgreements;
use crate::backing::Backing;
use crate::locked::Locked;
use std::sync::ledger::Ledger;
use wh_kernels::PageHash;
use wh_space_model::{InstId, Offer, SwapError};
use wh_swap::SwapDev;
use wh_threads::{Books, Shares};

/// Adds the evictions that a provision has made to the owner's count and to the book, as far as the owner can count
/// them in 64 bits.
pub fn count_own_evictions<T: Ledger, C: Ledger, O: Ledger, E: Ledger>(
    books: &mut Books<T, C, O, E>,
    shares: &mut Shares<T, C, O, E>,
    provided: Result<u64, SwapError>,
)
    ensures shares { MadeOwnEvictions shares.old
        (countable shares.old.owner.evictions (evictions_of provided)) shares.new }
    ensures books { books.new ≡ record books.old {
      evictions = books.old.evictions
          + countable shares.old.owner.evictions (evictions_of provided);
    } }
{
    let gone = provided.unwrap_or(0);
    let room = u64::MAX - shares.owner().evictions;
    books.own_evictions(shares, gone.min(room));
}

/// Adds the pages that were offered in a pass, if it was made, to the owner's count and to the book, as far as the
/// owner can count them in 64 bits.
pub fn count_own_offers<T: Ledger, C: Ledger, O: Ledger, E: Ledger>(
    books: &mut Books<T, C, O, E>,
    shares: &mut Shares<T, C, O, E>,
    offered: Option<u64>,
)
    ensures shares { MadeOwnOffers shares.old
        (countable shares.old.owner.offers (offers_of offered)) shares.new }
    ensures books { books.new ≡ record books.old {
      offers = books.old.offers + countable shares.old.owner.offers (offers_of offered);
    } }
{
    let pages = offered.unwrap_or(0);
    let room = u64::MAX - shares.owner().offers;
    books.own_offers(shares, pages.min(room));
}

impl<D: SwapDev, T: Ledger, C: Ledger, O: Ledger, E: Ledger, B: CellAgreements> Locked<
    D,
    T,
    C,
    O,
    E,
    B,
> {
    /// Offers a page of an instance for sharing, under any hash at all, by the owner, which has the counts of all threads: none works
    /// meanwhile. Returns the outcome. The owner's own count has the offer, and so do the books; the scanners' count stays. No byte
    /// of any page changes.
    ///
    /// `None`, and nothing is done and nothing counted, where frames and slots are 2^32 together or more, or the place isn't
    /// below 2^32.
    pub fn own_offer<H: PageHash>(
        &mut self,
        hasher: &H,
        id: InstId,
        page: u32,
        hash: u64,
        shares: &mut Shares<T, C, O, E>,
    ) -> Option<Offer>
        requires room { shares.old.owner.offers < 2 ^ 64 - 1 }
        ensures moves { MovesOnly self.old.host self.new.host }
        ensures some { IfSome result (λ answer. OffersOf (H.hashes hasher.now) self.old.host.space
            id.place id.number page hash answer self.new.host.space) }
        ensures counted { IfSome result (λ _.
            (self.new.books ≡ record self.old.books { offers = self.old.books.offers + 1 })
            × MadeOwnOffers shares.old 1 shares.new) }
        ensures none { IfNone result ((¬ CanOffer self.old.host.space id.place)
            × (self.new.host ≡ self.old.host) × (self.new.books ≡ self.old.books)
            × (shares.new ≡ shares.old)) }
        ensures backing { KeepsBacking self.old.host.space self.new.host.space }
        ensures known { self.new.known ≡ self.old.known }
        ensures left { self.new.left ≡ self.old.left }
    {
        let offered = self.host.offer(hasher, id, page, hash);
        if offered.is_some() {
            self.books.own_offers(shares, 1);
        }
        offered
    }

    /// Offers all pages of all instances for sharing, as `scan` does, by the owner, which has the counts of all threads: none works
    /// meanwhile. The owner's own count has the offers, and so do the books, as far as the owner can count them in 64 bits; the
    /// scanners' count stays.
    ///
    /// Returns how many pages were offered; `None`, and nothing has changed, where frames and slots are 2^32 together or more.
    pub fn own_scan<H: PageHash>(
        &mut self,
        hasher: &H,
        shares: &mut Shares<T, C, O, E>,
    ) -> Option<u64>
        ensures scans { ScansLocked (H.hashes hasher.now) self.old shares.old.owner.offers result
            self.new shares.new.owner.offers }
        ensures counted { MadeOwnOffers shares.old
            (countable shares.old.owner.offers (offers_of result)) shares.new }
    {
        let offered = self.host.scan(hasher);
        count_own_offers(&mut self.books, shares, offered);
        offered
    }

    /// Makes the next step of an instance ready where its present call waits for a frame, with calls of the swap device, by the owner,
    /// which has both host and device, and the counts of all threads: none works meanwhile. Returns how many pages left. The owner's
    /// own count has these, and so do the books, as far as the owner can count them in 64 bits; the reclaimers' count stays.
    ///
    /// # Errors
    /// That of the device's call that failed, which is kept with the present call. Nothing is counted then.
    pub fn own_provide(
        &mut self,
        backing: &mut Backing<D, B>,
        id: InstId,
        shares: &mut Shares<T, C, O, E>,
    ) -> Result<u64, SwapError>
        ensures agreed { self.old.known ≡ known_of backing.old }
        ensures serves { ServesOn D.keeps D.honest D.faults backing.old.device (call_faults result)
            backing.new.device }
        ensures moves { D.honest backing.new.device
            → MovesWith self.old.host id AwaitsFrame (provide_fault result) self.new.host }
        ensures anyhow { MovesAnyhow self.old.host id AwaitsFrame (provide_fault result)
            self.new.host }
        ensures idle { ((need : Need) → ¬ WaitsFor self.old.host id need)
            → (self.new.host ≡ self.old.host) × (backing.new.device ≡ backing.old.device)
            × (result ≡ Ok 0) }
        ensures provides { (need : Need) → WaitsFor self.old.host id need
            → D.honest backing.new.device → IfOk result (λ gone.
            ProvidesTruly self.old.host.space id.place need gone self.new.host.space) }
        ensures right { (need : Need) → WaitsFor self.old.host id need → IfOk result (λ gone.
            IsProvided self.old.host.space id.place need gone self.new.host.space) }
        ensures fails { (need : Need) → WaitsFor self.old.host id need
            → D.honest backing.new.device → OnErr result
            (FailsTruly self.old.host.space id.place need self.new.host.space) }
        ensures provides_anyhow { (need : Need) → WaitsFor self.old.host id need → IfOk result
            (λ gone. Provides self.old.host.space id.place need gone self.new.host.space) }
        ensures fails_anyhow { (need : Need) → WaitsFor self.old.host id need → OnErr result
            (FailsToProvide self.old.host.space id.place need self.new.host.space) }
        ensures others { OthersKeepMinimum self.old.host.space id.place self.new.host.space }
        ensures writes { IfOk result (λ gone.
            D.writes backing.new.device ≡ D.writes backing.old.device + gone) }
        ensures counted { MadeOwnEvictions shares.old
            (countable shares.old.owner.evictions (evictions_of result)) shares.new }
        ensures books { self.new.books ≡ record self.old.books {
          evictions = self.old.books.evictions
              + countable shares.old.owner.evictions (evictions_of result);
        } }
        ensures knows { self.new.known ≡ known_of backing.new }
        ensures left { self.new.left ≡ self.old.left }
    {
        backing.keeper.agree(&mut self.known);
        let Some(buf) = &mut backing.buf else {
            unreachable!();
        };
        let provided = self.host.provide(&mut backing.device, id, buf);
        count_own_evictions(&mut self.books, shares, provided);
        backing.keeper.settle(&mut self.known, &backing.device);
        provided
    }
}
