//! Pages with equal bytes come to share one frame.

ghost use Rattle.std.specs.Prelude.{◌≡◌, ◌+◌, ℕ, List, IfSome, IfNone, IsSome, length};
ghost use Rattle.wh_space_model.specs.Offers.{OffersOf};
ghost use Rattle.wh_space_model.specs.Scanning.{IsDistinct};
ghost use Rattle.wh_scan.specs.Pass.{HasSoManyPages, MayPass, PassesOverAll, ScansAll};
ghost use Rattle.wh_host.specs.Backing.{KeepsBacking};
ghost use Rattle.wh_host.specs.HostCounting.{CountsScan, with_offer};
ghost use Rattle.wh_host.specs.Paging.{MovesOnly};
ghost use Rattle.wh_host.specs.Sharing.{CanOffer, CanScan};

use crate::host::Host;
use wh_kernels::PageHash;
use wh_scan::{offer, scan_all};
use wh_space_model::{InstId, Offer};

impl Host {
    /// Offers all pages of all instances for sharing, in the order of the instances' numbers, and those of each in order, each
    /// under the hash of its bytes as they are. Then as many frames are in use as there are distinct contents that aren't all
    /// zero, if the hash tells contents apart and was the hash before. No byte of any page changes, and it takes no memory.
    ///
    /// Returns how many pages were offered; or `None`, and nothing has changed, where frames and slots are 2^32 together or
    /// more.
    pub fn scan<H: PageHash>(&mut self, hasher: &H) -> Option<u64>
        ensures moves { MovesOnly self.old self.new }
        ensures backing { KeepsBacking self.old.space self.new.space }
        ensures done { CanScan self.old.space → IsSome result }
        ensures none { IfNone result (self.new ≡ self.old) }
        ensures offers { IfSome result (HasSoManyPages self.old.space) }
        ensures scans { IfSome result (λ _.
            ScansAll (H.hashes hasher.now) self.old.space self.new.space) }
        ensures full { IfSome result (λ _. MayPass (H.hashes hasher.now) self.old.space
            → PassesOverAll (H.hashes hasher.now) self.old.space self.new.space) }
        ensures counts { IfSome result (λ _. MayPass (H.hashes hasher.now) self.old.space
            → (all : List (List ℕ)) → IsDistinct self.new.space all
            → length all + length self.new.space.pool.free ≡ length self.new.space.pool.frames) }
        ensures counted { IfSome result (λ offered.
            CountsScan (H.hashes hasher.now) self.old offered self.new) }
    {
        if !self.memory.has_few_pages() {
            return None;
        }
        let scanned = scan_all(&mut self.memory, hasher);
        self.counts.count_scan(scanned);
        Some(scanned.offered)
    }

    /// Offers a page of an instance for sharing, under any hash at all. Returns the outcome. Where the instance is gone, though
    /// another may be at its place, it is `Skipped`. No byte of any page changes.
    ///
    /// `None`, and nothing is done, where frames and slots are 2^32 together or more, or the place isn't below 2^32.
    pub fn offer<H: PageHash>(
        &mut self,
        hasher: &H,
        id: InstId,
        page: u32,
        hash: u64,
    ) -> Option<Offer>
        ensures moves { MovesOnly self.old self.new }
        ensures backing { KeepsBacking self.old.space self.new.space }
        ensures some { IfSome result (λ answer. OffersOf (H.hashes hasher.now) self.old.space
            id.place id.number page hash answer self.new.space) }
        ensures none { IfNone result ((¬ CanOffer self.old.space id.place)
            × (self.new ≡ self.old)) }
        ensures counts { IfSome result (λ answer. self.new.counts ≡ with_offer self.old.counts answer) }
    {
        if !self.memory.has_few_pages() {
            return None;
        }
        let place = id.place;
        if place > u32::MAX as usize {
            return None;
        }
        let answer = offer(
            &mut self.memory,
            hasher,
            place as u32,
            id.number,
            page,
            hash,
        );
        self.counts.count_offer(answer);
        Some(answer)
    }
}
