//! The host.

ghost use Rattle.std.specs.Option.{option_copied};
ghost use Rattle.std.specs.Prelude.{◌≡◌, ◌≤◌, IfErr, IfOk};
ghost use Rattle.wh_host_model.specs.Host.Worlds.{World};
ghost use Rattle.wh_host_model.specs.Host.Happens.{IsTurn};
ghost use Rattle.wh_host.specs.Backing.{KeepsBacking};
ghost use Rattle.wh_host.specs.HostCounting.{counts_after_turn, no_counts};
ghost use Rattle.wh_host.specs.Hosting.{IsHost, IsNewHost, module_in};
ghost use Rattle.wh_host.specs.Left.{LeavesTurned};
ghost use Rattle.wh_host.specs.Reporting.{all_sharers};
ghost use Rattle.wh_host.specs.Series.{HasSpent};

use crate::counting::sharers_of;
use crate::counts::HostCounts;
use crate::parts::{InstanceEntry, LoadedModule, ModuleRef};
use crate::turning::turn_at;
use slab::Slab;
use std::alloc::Global;
use std::marker::Model;
use wh_frames::FrameError;
use wh_host_model::TurnEnd;
use wh_space::Memory;
use wh_space_model::{InstId, Tax};

// The module at this place.
pub(crate) fn module_at(modules: &Slab<LoadedModule>, place: usize) -> Option<&LoadedModule>
    ensures { option_copied result ≡ module_in modules.now.slots place }
{
    modules.get(place)
}

/// Hosts many instances on one memory.
pub struct Host {
    pub(crate) modules: Slab<LoadedModule>,
    // Those that are there, by number.
    pub(crate) module_refs: Vec<ModuleRef>,
    pub(crate) entries: Slab<InstanceEntry>,
    // How many instances there are.
    pub(crate) live: usize,
    pub(crate) memory: Memory,
    pub(crate) next: u64,
    // How many modules were loaded.
    pub(crate) next_module: usize,
    pub(crate) counts: HostCounts,
}

impl Drop for Host {
    fn drop(self) {
        let Host {
            modules: _,
            module_refs: _,
            entries: _,
            live: _,
            memory: _,
            next: _,
            next_module: _,
            counts: _,
        } = self;
    }
}

impl Model for Host {
    ghost use Rattle.wh_host_model.specs.Host.Worlds.{World as OneWorld};
    ghost use Rattle.wh_host.specs.Hosting.{HostState, IsHost as Represents};

    ghost Value = { HostState };

    ghost use Rattle.wh_host.specs.Stored.{stored_host};

    ghost coded = { stored_host };

    ghost view = { λ h. record {
      modules = h.modules.slots;
      module_refs = h.module_refs.items;
      entries = h.entries.slots;
      live = h.live;
      space = h.memory;
      next = h.next;
      next_module = h.next_module;
      counts = h.counts;
    } };

    ghost invariant = { λ h. (w : OneWorld) × Represents (record {
      modules = h.modules.slots;
      module_refs = h.module_refs.items;
      entries = h.entries.slots;
      live = h.live;
      space = h.memory;
      next = h.next;
      next_module = h.next_module;
      counts = h.counts;
    }) w };
}

impl Host {
    /// Returns a host with `frames` of 4096 bytes and `slots`, without modules and instances. Room for all frames is reserved
    /// now.
    ///
    /// # Errors
    /// `Memory` where room is refused.
    pub fn new(alloc: Global, frames: u32, slots: u32, tax: Tax) -> Result<Host, FrameError>
        ensures ok { IfOk result (λ host. IsNewHost host frames slots tax) }
        ensures counts { IfOk result (λ host. host.counts ≡ no_counts) }
        ensures refused { IfErr result (λ error. error ≡ FrameError.Memory) }
    {
        let memory = match Memory::new(alloc, frames, slots, tax) {
            Ok(memory) => memory,
            Err(error) => return Err(error),
        };
        memory.invariant();
        Ok(Host {
            modules: Slab::new(alloc),
            module_refs: Vec::new(alloc),
            entries: Slab::new(alloc),
            live: 0,
            memory,
            next: 0,
            next_module: 0,
            counts: HostCounts::none(),
        })
    }

    /// States what holds of every host: it represents one that was reached by events, and by reads of a swap device
    /// that gave other bytes, if there were any. Does nothing when run.
    #[inline(always)]
    pub fn invariant(&self)
        ensures { (w : World) × IsHost self.now w }
    {
        let _ = &self.live;
    }

    /// Returns what was counted since the host was created. Takes O(1), and allocates nothing.
    pub fn counts(&self) -> HostCounts
        ensures { result ≡ self.now.counts }
    {
        self.counts
    }

    /// Runs a turn of at most `q` charges of an instance. The memory of all changes by its own loads, stores and growth
    /// alone, and by what it is blocked on then. Returns the turn's end, and how many charges it took; `Idle` and 0 if
    /// there is no such instance, or no call of it is open.
    pub fn turn(&mut self, id: InstId, q: u64) -> (TurnEnd, u64)
        ensures turns { (w : World) → IsHost self.old w
            → (w2 : World) × IsTurn w id q result.0 w2 × HasSpent w id result.1 w2
            × IsHost self.new w2 }
        ensures few { result.1 ≤ q }
        ensures backing { KeepsBacking self.old.space self.new.space }
        ensures memory { LeavesTurned id.place result.0 self.old.space self.new.space }
        ensures counts { self.new.counts ≡ counts_after_turn self.old id result.0 result.1 self.new }
        ensures shares { all_sharers self.new.space ≤ all_sharers self.old.space }
    {
        let Some(entry) = self.entries.get_mut(id.place) else {
            return (TurnEnd::Idle, 0);
        };
        if !entry.has_number(id.number) {
            return (TurnEnd::Idle, 0);
        }
        let Some(module) = module_at(&self.modules, entry.module_place) else {
            return (TurnEnd::Idle, 0);
        };
        let before = entry.tenant.journal().ended_len();
        let sharers = sharers_of(&self.memory);
        let turned = turn_at(
            &mut entry.tenant,
            &module.linked,
            &mut self.memory,
            id.place,
            entry.page_limit,
            q,
        );
        let breaks = sharers.saturating_sub(sharers_of(&self.memory));
        self.counts
            .count_turn(turned, entry.tenant.journal(), before, breaks);
        turned
    }
}
