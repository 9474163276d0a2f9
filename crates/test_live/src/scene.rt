// A live host, and what a scene asks of it.

use crate::guests::{BYTES, LOOPS, admission, invocation, loading};
use anyhow::{Result, anyhow};
use std::alloc::Global;
use std::sync::Wait;
use std::sync::ledger::Ledger;
use std::thread;
use wh_cell::{CellAgreements, HostCell, Owner};
use wh_host::{CallStatus, Cancel, ModuleId, Release};
use wh_kernels::FnvHash;
use wh_live::{LiveQueue, Passes};
use wh_space_model::InstId;
use wh_swap::MemSwap;

// How often it looks before it gives up: for minutes.
const MOST_LOOKS: u32 = 1_000_000_000;

/// A host whose calls threads run while it is asked, and its owner's right.
#[derive(Drop)]
pub struct Scene<T: Ledger, C: Ledger, O: Ledger, E: Ledger, B: CellAgreements> {
    pub alloc: Global,
    pub cell: HostCell<MemSwap, T, C, O, E, B>,
    pub owner: Owner<MemSwap, B>,
    pub queue: LiveQueue,
    pub passes: Passes<MemSwap, FnvHash>,
}

impl<T: Ledger, C: Ledger, O: Ledger, E: Ledger, B: CellAgreements> Scene<T, C, O, E, B> {
    /// Loads both modules: the one of bytes, and the one that loops.
    pub fn load<R: Wait>(&mut self, rt: &R) -> Result<(ModuleId, ModuleId)> {
        let mut locked = self.cell.lock(rt);
        let bytes = locked.ask(&mut self.owner, loading(self.alloc, &BYTES))?;
        let loops = locked.ask(&mut self.owner, loading(self.alloc, &LOOPS))?;
        Ok((bytes, loops))
    }

    /// Admits an instance, which joins.
    pub fn admit<R: Wait>(&mut self, rt: &R, of: ModuleId) -> Result<InstId> {
        let id = {
            let mut locked = self.cell.lock(rt);
            locked.ask(&mut self.owner, admission(self.alloc, of))?
        };
        self.queue.join(rt, id)?;
        Ok(id)
    }

    /// Invokes a function, and wakes the instance.
    pub fn invoke<R: Wait>(
        &mut self,
        rt: &R,
        id: InstId,
        name: &str,
        given: &[i128],
    ) -> Result<u32> {
        let at = {
            let mut locked = self.cell.lock(rt);
            locked.ask(
                &mut self.owner,
                invocation(self.alloc, id, name, given, u64::MAX),
            )?
        };
        self.queue.wake(rt, id);
        Ok(at)
    }

    /// Cancels the present call of an instance, and wakes it.
    pub fn cancel<R: Wait>(&mut self, rt: &R, id: InstId) -> Result<()> {
        {
            let mut locked = self.cell.lock(rt);
            locked.ask(&mut self.owner, Cancel { id })?;
        }
        self.queue.wake(rt, id);
        Ok(())
    }

    /// Releases an instance, which leaves.
    pub fn release<R: Wait>(&mut self, rt: &R, id: InstId) -> Result<()> {
        {
            let mut locked = self.cell.lock(rt);
            let release = Release {
                alloc: self.alloc,
                id,
            };
            let _ = locked.ask(&mut self.owner, release)?;
        }
        self.queue.leave(rt, id);
        Ok(())
    }

    /// Returns how far a call is.
    pub fn status<R: Wait>(&self, rt: &R, id: InstId, at: u32) -> Option<CallStatus> {
        let locked = self.cell.lock(rt);
        locked.host().call_status(id, at)
    }

    /// Waits until a call has ended, and returns how.
    pub fn ended<R: Wait>(&self, rt: &R, id: InstId, at: u32) -> Result<CallStatus> {
        for _ in 0..MOST_LOOKS {
            match self.status(rt, id, at) {
                Some(CallStatus::Waiting | CallStatus::Present { .. }) => thread::yield_now(),
                Some(end) => return Ok(end),
                None => return Err(anyhow!("there is no such call")),
            }
        }
        Err(anyhow!("a call hasn't ended"))
    }

    /// Waits until the present call of an instance has taken some charges.
    pub fn computes<R: Wait>(&self, rt: &R, id: InstId, at: u32) -> Result<()> {
        for _ in 0..MOST_LOOKS {
            if let Some(CallStatus::Present { charges, .. }) = self.status(rt, id, at) {
                if charges > 0 {
                    return Ok(());
                }
            }
            thread::yield_now();
        }
        Err(anyhow!("a call takes no charges"))
    }

    /// Waits until all threads were started.
    pub fn begun(&self) -> Result<()> {
        for _ in 0..MOST_LOOKS {
            if self.queue.has_begun() {
                return Ok(());
            }
            if self.queue.is_over() {
                break;
            }
            thread::yield_now();
        }
        Err(anyhow!("the threads weren't started"))
    }

    /// Asks for a pass, and waits for it. Returns how many pages were offered.
    pub fn pass<R: Wait>(&self, rt: &R) -> Result<Option<u64>> {
        let number = self.passes.ask(rt);
        for _ in 0..MOST_LOOKS {
            if let Some(report) = self.passes.report(rt, number) {
                return Ok(report.offered());
            }
            thread::yield_now();
        }
        Err(anyhow!("no pass was made"))
    }
}
