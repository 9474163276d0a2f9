//! What a host sees of an instance.

ghost use Rattle.wh_instance.specs.Seen.{CanTurn, HasOutput, IsComputingNow, IsIdle, IsPresent, WaitsForFrame};

use crate::host_instance::HostInstance;
use crate::settling::is_frame;
use crate::stages::{CallStage, Suspension};
use std::alloc::Global;
use std::mem;

impl HostInstance {
    /// Tells whether no call is open, so that there is nothing to run.
    pub fn is_idle(&self) -> bool
        ensures { IsIdle self.now result }
    {
        self.journal.is_idle()
    }

    /// Tells whether a turn can make progress: a call is open, and isn't blocked on fuel or a device fault.
    pub fn can_go_on(&self) -> bool
        ensures { CanTurn self.now result }
    {
        if self.journal.is_idle() {
            return false;
        }
        match self.waiting_for {
            None | Some(Suspension::Frame) => true,
            Some(Suspension::Fuel | Suspension::Device(_)) => false,
        }
    }

    /// Tells whether its present call computes: one is open and isn't blocked, and it is no start with data segments
    /// left to write.
    pub fn computes(&self) -> bool
        ensures { IsComputingNow self.now result }
    {
        if self.journal.is_idle() {
            return false;
        }
        if let Some(_) = self.waiting_for {
            return false;
        }
        match self.progress {
            CallStage::Writing => false,
            CallStage::Faced | CallStage::UnderWay => true,
        }
    }

    /// Tells whether its present call is blocked on a frame.
    pub fn awaits_frame(&self) -> bool
        ensures { WaitsForFrame self.now result }
    {
        is_frame(self.waiting_for)
    }

    /// Returns the place of its present call in its journal, which is the number of ended calls.
    pub fn present_call(&self) -> usize
        ensures { IsPresent self.now result }
    {
        self.journal.ended_len()
    }

    /// Returns the bytes that the host functions `put` and `emit` have written for it. Takes O(1), and allocates nothing.
    pub fn output(&self) -> &[u8]
        ensures { HasOutput self.now result.now }
    {
        &self.store.output
    }

    /// Takes out the bytes that the host functions `put` and `emit` have written for it, when it is released. Allocates
    /// nothing.
    pub fn take_output(&mut self, alloc: Global) -> Vec<u8>
        ensures { HasOutput self.old result.items }
    {
        mem::replace(&mut self.store.output, Vec::new(alloc))
    }
}
