//! Pages with equal bytes that come to share one frame, and the epochs in which pages are touched.

ghost use Rattle.std.specs.Prelude.{◌≡◌, ◌+◌, List, ℕ, IfNone, IfSome, IsSome, length};
ghost use Rattle.wh_space_model.specs.Hash.{fnv64};
ghost use Rattle.wh_space_model.specs.Scanning.{IsDistinct};
ghost use Rattle.wh_space_model.specs.Stores.{Epochs};
ghost use Rattle.wh_scan.specs.Pass.{HasSoManyPages, MayPass, PassesOverAll, ScansAll};
ghost use Rattle.wh_host.specs.Backing.{KeepsBacking};
ghost use Rattle.wh_host.specs.HostCounting.{CountsScan};
ghost use Rattle.wh_host.specs.Paging.{MovesOnly};
ghost use Rattle.wh_host.specs.Sharing.{CanScan};

use crate::hand::Hand;
use wh_kernels::FnvHash;

impl Hand {
    /// Offers all pages of all instances for sharing, in the order of the instances' numbers, and those of each in order, each
    /// under the FNV-1a hash of its bytes as they are. Then as many frames are in use as there are distinct contents that aren't
    /// all zero, if the hash tells contents apart. No byte of any page changes, and it takes no memory.
    ///
    /// How many pages were offered. It is done where frames and slots are fewer than 2^32 together; else the answer is `None`,
    /// and nothing has changed.
    pub fn scan(&mut self) -> Option<u64>
        ensures moves { MovesOnly self.old.host self.new.host }
        ensures backing { KeepsBacking self.old.host.space self.new.host.space }
        ensures done { CanScan self.old.host.space → IsSome result }
        ensures none { IfNone result (self.new ≡ self.old) }
        ensures offers { IfSome result (HasSoManyPages self.old.host.space) }
        ensures scans { IfSome result (λ _.
            ScansAll fnv64 self.old.host.space self.new.host.space) }
        ensures full { IfSome result (λ _. MayPass fnv64 self.old.host.space
            → PassesOverAll fnv64 self.old.host.space self.new.host.space) }
        ensures counts { IfSome result (λ _. MayPass fnv64 self.old.host.space
            → (all : List (List ℕ)) → IsDistinct self.new.host.space all
            → length all + length self.new.host.space.pool.free
            ≡ length self.new.host.space.pool.frames) }
        ensures output { self.new.output ≡ self.old.output }
        ensures counted { IfSome result (λ offered.
            CountsScan fnv64 self.old.host offered self.new.host) }
    {
        self.host.scan(&FnvHash)
    }

    /// Begins a new epoch: no page is marked as touched. It goes over all pages. `run` does so by itself, as often as it says.
    pub fn epoch(&mut self)
        ensures moves { MovesOnly self.old.host self.new.host }
        ensures clears { Epochs self.old.host.space self.new.host.space }
        ensures backing { KeepsBacking self.old.host.space self.new.host.space }
        ensures output { self.new.output ≡ self.old.output }
        ensures counts { self.new.host.counts ≡ self.old.host.counts }
    {
        self.host.epoch();
    }
}
