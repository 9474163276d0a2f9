//! New epochs.

ghost use Rattle.std.specs.Prelude.{◌≡◌};
ghost use Rattle.wh_host_model.specs.Host.Happens.{OnlyMoves};
ghost use Rattle.wh_host_model.specs.Host.Worlds.{World};
ghost use Rattle.wh_space_model.specs.Stores.{Epochs};
ghost use Rattle.wh_host.specs.Backing.{KeepsBacking};
ghost use Rattle.wh_host.specs.Hosting.{IsHost};

use crate::host::Host;

impl Host {
    /// Begins a new epoch: no page is marked as touched. It goes over all pages.
    pub fn epoch(&mut self)
        ensures moves { (w : World) → IsHost self.old w
            → (w2 : World) × OnlyMoves w w2 × IsHost self.new w2 }
        ensures clears { Epochs self.old.space self.new.space }
        ensures backing { KeepsBacking self.old.space self.new.space }
        ensures counts { self.new.counts ≡ self.old.counts }
    {
        self.memory.invariant();
        self.memory.new_epoch();
    }
}
