// An instance of the host, and what it would be alone.

use crate::flat::{Call, Flat};
use crate::rig::Rig;
use crate::views::{PAGES, difference};
use anyhow::{Context, Result, bail, ensure};
use std::alloc::Global;
use wh_flatmem::FlatMemory;
use wh_host::{CallStatus, Suspension};
use wh_space_model::InstId;

/// An instance, and the same on a flat memory, which goes as far as the instance has come.
pub struct Pair {
    pub id: InstId,
    pub flat: Flat,
}

impl Drop for Pair {
    fn drop(self) {
        let Pair { id: _, flat: _ } = self;
    }
}

impl Pair {
    /// Creates the pair of a new instance and a flat memory of zeros.
    pub fn new(alloc: Global, id: InstId, memory: FlatMemory) -> Pair {
        Pair {
            id,
            flat: Flat::over(alloc, memory),
        }
    }

    /// Returns its memory, zeroed, when the instance is gone.
    pub fn cleared(self) -> FlatMemory {
        let Pair { id: _, flat } = self;
        flat.cleared()
    }

    /// Takes another instance, and zeroes the flat memory.
    pub fn renew(&mut self, id: InstId) {
        self.id = id;
        self.flat.clear();
    }

    /// Asks both for a call.
    pub fn ask(&mut self, rig: &mut Rig, alloc: Global, call: Call, fuel: u64) -> Result<()> {
        let (name, given, count) = call.asked();
        let given = given.get(..count).context("it has fewer arguments")?;
        let at = rig.invoke(alloc, self.id, name, given, fuel)?;
        self.flat.ask(call, fuel)?;
        ensure!(
            usize::try_from(at)? == self.flat.len(),
            "a call stands elsewhere"
        );
        Ok(())
    }

    /// Runs the flat one as far as the other has come, and compares the outcomes of its calls.
    pub fn follow(&mut self, rig: &Rig) -> Result<()> {
        for _ in 0..10 {
            let at = self.flat.present_at()?;
            match rig.status(self.id, at) {
                None => {
                    ensure!(self.flat.open() == 0, "a call is lost");
                    return Ok(());
                }
                Some(CallStatus::Present { charges, .. }) => return self.flat.go_on(charges),
                Some(CallStatus::Returned { charges, .. } | CallStatus::Trapped { charges, .. }) =>
                    self.end(rig, at, charges)?,
                Some(other) => bail!("a call came to {other:?}"),
            }
        }
        bail!("there are too many calls")
    }

    // The present call has ended after `charges` charges: so it has on the flat memory, in the same way.
    fn end(&mut self, rig: &Rig, at: u32, charges: u64) -> Result<()> {
        self.flat.go_on(charges)?;
        ensure!(self.flat.present_at()? > at, "a call ends early");
        self.is_same(rig, at)
    }

    // Whether the call at a place of the journal has come to the same.
    fn is_same(&self, rig: &Rig, at: u32) -> Result<()> {
        let status = rig.status(self.id, at);
        let place = at.checked_sub(1).context("it is the start")?;
        ensure!(
            self.flat.is_status(place as usize, status),
            "call {at} came to {status:?}"
        );
        Ok(())
    }

    /// Returns what the present call is blocked on.
    pub fn waiting_for(&self, rig: &Rig) -> Result<Option<Suspension>> {
        let at = self.flat.present_at()?;
        match rig.status(self.id, at) {
            Some(CallStatus::Present { waiting_for, .. }) => Ok(waiting_for),
            _ => Ok(None),
        }
    }

    /// Runs all calls to their end, with fuel enough and retries. No ticket may be out.
    pub fn run_out(&mut self, rig: &mut Rig, alloc: Global) -> Result<()> {
        for _ in 0..100 {
            self.follow(rig)?;
            if self.flat.open() == 0 {
                return Ok(());
            }
            match self.waiting_for(rig)? {
                Some(Suspension::Fuel) => {
                    rig.refuel(self.id, 6)?;
                    ensure!(self.flat.refuel(6), "fuel is for a call");
                }
                Some(Suspension::Device(_)) => rig.retry(self.id)?,
                _ => {}
            }
            let fault = rig.run_out(alloc, self.id)?;
            ensure!(fault.is_none(), "a device call failed");
        }
        bail!("its calls don't end")
    }

    /// Cancels the present call, if there is one.
    pub fn break_off(&mut self, rig: &mut Rig) -> Result<()> {
        if self.flat.cancel() {
            rig.cancel(self.id)?;
        }
        Ok(())
    }

    /// Compares the outcomes of all calls and all bytes, and releases the instance. Its first pages, which may be
    /// swapped, are compared last: while others are, tickets stay out.
    pub fn compare(&self, rig: &mut Rig, alloc: Global) -> Result<()> {
        for at in 0..self.flat.len() {
            self.is_same(rig, u32::try_from(at)?.saturating_add(1))?;
        }
        let mut pages = PAGES;
        pages.reverse();
        let seen = rig.emitted(alloc, self.id, &pages)?;
        let other = difference(&pages, &seen, self.flat.bytes());
        ensure!(other.is_none(), "other bytes are seen at {other:?}");
        Ok(())
    }
}
