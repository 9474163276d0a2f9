//! How the next step of an instance is made ready, and who waits for that.

ghost use Rattle.std.specs.Prelude.{◌≡◌, ◌+◌, Ok, IfOk, OnErr};
ghost use Rattle.wh_host_model.specs.Host.Happens.{AwaitsFrame};
ghost use Rattle.wh_space_model.specs.Errands.{tickets};
ghost use Rattle.wh_space_model.specs.Laws.{IsProvided};
ghost use Rattle.wh_space_model.specs.Provide.{FailsToProvide, FailsTruly, OthersKeepMinimum, Provides, ProvidesTruly};
ghost use Rattle.wh_model.specs.declared.memory.Need.{Need};
ghost use Rattle.wh_reclaim.specs.Whole.{IsAsWhole};
ghost use Rattle.wh_swap.specs.DeviceCalls.{ServesOn, call_faults};
ghost use Rattle.wh_host.specs.HostCounting.{AddsMovesAlone, CountsProvision};
ghost use Rattle.wh_host.specs.Paging.{IsAwaiting, IsGoing, MovesAnyhow, MovesWith, Tells, WaitsFor, provide_fault};

use crate::host::Host;
use wh_reclaim::{Buf, PagesMoved, provide};
use wh_space_model::{InstId, SwapError};
use wh_swap::SwapDev;

impl Host {
    /// Returns whether a turn or a provision can make the instance progress: a call of it is open, and isn't blocked on
    /// fuel or a device fault.
    pub fn can_go_on(&self, id: InstId) -> bool
        ensures { Tells self.now result (λ w. IsGoing w id) }
    {
        let Some(entry) = self.entries.get(id.place) else {
            return false;
        };
        if !entry.has_number(id.number) {
            return false;
        }
        entry.tenant.can_go_on()
    }

    /// Returns whether the present call of the instance is blocked on a frame: `provide` makes its step ready.
    pub fn awaits_frame(&self, id: InstId) -> bool
        ensures { Tells self.now result (λ w. IsAwaiting w id) }
    {
        let Some(entry) = self.entries.get(id.place) else {
            return false;
        };
        if !entry.has_number(id.number) {
            return false;
        }
        entry.tenant.awaits_frame()
    }

    /// Makes the next step of the instance ready, if its present call is blocked on a frame: fetches pages from the
    /// device, and evicts others to it as long as that is needed. Returns how many pages were evicted, each by one
    /// write of the device. Else does nothing, as for a call that is blocked on a device fault, until `retry`.
    /// Allocates nothing: `buf` is used while the call lasts.
    ///
    /// The device holds what the slots hold; no ticket is out. Where it has read right, no byte of any page changes. Where it
    /// gave other bytes as Ok, those are what the pages that came have, and nothing else differs.
    ///
    /// # Errors
    /// That of the device's call that failed. It is kept with the present call. The moves so far stay, and nothing is pinned
    /// or earmarked.
    pub fn provide<D: SwapDev>(
        &mut self,
        device: &mut D,
        id: InstId,
        buf: &mut Buf,
    ) -> Result<u64, SwapError>
        requires none_out { tickets self.old.space ≡ 0 }
        requires agrees { self.old.space.slots.held ≡ D.held device.old }
        ensures none_out { tickets self.new.space ≡ 0 }
        ensures agrees { self.new.space.slots.held ≡ D.held device.new }
        ensures serves { ServesOn D.keeps D.honest D.faults device.old (call_faults result)
            device.new }
        ensures moves { D.honest device.new
            → MovesWith self.old id AwaitsFrame (provide_fault result) self.new }
        ensures anyhow { MovesAnyhow self.old id AwaitsFrame (provide_fault result) self.new }
        ensures idle { ((need : Need) → ¬ WaitsFor self.old id need)
            → (self.new ≡ self.old) × (device.new ≡ device.old) × (result ≡ Ok 0) }
        ensures provides { (need : Need) → WaitsFor self.old id need → D.honest device.new
            → IfOk result (λ left. ProvidesTruly self.old.space id.place need left self.new.space) }
        ensures right { (need : Need) → WaitsFor self.old id need → IfOk result (λ left.
            IsProvided self.old.space id.place need left self.new.space) }
        ensures fails { (need : Need) → WaitsFor self.old id need → D.honest device.new
            → OnErr result (FailsTruly self.old.space id.place need self.new.space) }
        ensures provides_anyhow { (need : Need) → WaitsFor self.old id need
            → IfOk result (λ left. Provides self.old.space id.place need left self.new.space) }
        ensures fails_anyhow { (need : Need) → WaitsFor self.old id need
            → OnErr result (FailsToProvide self.old.space id.place need self.new.space) }
        ensures others { OthersKeepMinimum self.old.space id.place self.new.space }
        ensures whole { IsAsWhole self.old.space self.new.space }
        ensures writes { IfOk result (λ left. D.writes device.new ≡ D.writes device.old + left) }
        ensures counts { (need : Need) → WaitsFor self.old id need
            → CountsProvision self.old id need result self.new }
        ensures adds { AddsMovesAlone self.old.counts result self.new.counts }
    {
        let Some(entry) = self.entries.get_mut(id.place) else {
            return Ok(0);
        };
        if !entry.has_number(id.number) {
            return Ok(0);
        }
        if !entry.tenant.awaits_frame() {
            return Ok(0);
        }
        let mut moved = PagesMoved { left: 0, came: 0 };
        let fault = match provide(&mut self.memory, device, id.place, buf, &mut moved) {
            Ok(left) => {
                self.counts.count_moves(moved);
                return Ok(left);
            }
            Err(fault) => fault,
        };
        self.counts.count_moves(moved);
        self.counts.count_fault();
        let _ = entry.tenant.fail(fault);
        Err(fault)
    }
}
