// A host beside its swap device, with the tickets that are out.

ghost use Rattle.std.specs.Prelude.{◌≡◌, [], true, IfOk, replicate, vec_len};
ghost use Rattle.wh_space_model.specs.Errands.{tickets};
ghost use Rattle.wh_swap.specs.Written.{page_held};
ghost use Rattle.test_host.specs.Carried.{IsCarried, IsSomeHost, coming_slots, leaving_slots};

use crate::guest::PAGER;
use crate::seen::{Seen, look};
use crate::store::Store;
use anyhow::{Context, Result};
use std::alloc::Global;
use std::cell::Cell;
use std::rc::Rc;
use wh_host::{
    AdmitError, CallStatus, Eviction, Fetch, ForkError, Host, HostError, ModuleError, ModuleId,
    Params, Quota, ReadError, UnloadError,
};
use wh_host_model::TurnEnd;
use wh_kernels::PageHash;
use wh_replies::write_report;
use wh_space_model::{InstId, Offer, SwapError, Tax};
use wh_swap::PageSwap;

/// A host with one module, its swap device, and the tickets that are out, of each kind the oldest one first.
pub struct Rig {
    pub host: Host,
    pub module: ModuleId,
    pub device: PageSwap<Store>,
    pub failing: Rc<Cell<u32>>,
    pub seen: Seen,
    pub leaving: Vec<Eviction>,
    pub coming: Vec<Fetch>,
    ghost stands: { IsSomeHost host },
    ghost carried: { IsCarried host.space (page_held device) (leaving_slots leaving.items)
        (coming_slots coming.items) },
}

// A host with `frames` frames and `slots` slots, and the pager as its first module.
fn host_with_pager(alloc: Global, frames: u32, slots: u32, tax: Tax) -> Result<Host>
    ensures { IfOk result (λ host. IsSomeHost host × (host.space.slots.held ≡ replicate slots [])) }
{
    let mut host = Host::new(alloc, frames, slots, tax)?;
    let module = host.load(alloc, &PAGER)?;
    let _ = module;
    Ok(host)
}

impl Rig {
    /// Creates a rig with this number of frames and slots, and without instances.
    pub fn new(alloc: Global, frames: u32, slots: u32, tax: Tax) -> Result<Rig> {
        let failing = Rc::new(alloc, Cell::new(0))?;
        let pages = vec![in alloc; [0; 4096]; slots as usize]?;
        let taken = Rc::new(alloc, Cell::new(0))?;
        let given = Rc::new(alloc, Cell::new(0))?;
        let store = Store::new(pages, failing.clone()?, taken.clone()?, given.clone()?);
        let device = PageSwap::over(alloc, store, slots)?;
        let host = host_with_pager(alloc, frames, slots, tax)?;
        Ok(Rig {
            host,
            module: ModuleId { number: 0 },
            device,
            failing,
            seen: Seen::new(taken, given),
            leaving: Vec::new(alloc),
            coming: Vec::new(alloc),
        })
    }

    /// Loads another module.
    pub fn load(&mut self, alloc: Global, bytes: &[u8]) -> Result<ModuleId, ModuleError> {
        self.host.load(alloc, bytes)
    }

    /// Lets a module go.
    pub fn unload(&mut self, id: ModuleId) -> Result<(), UnloadError> {
        self.host.unload(id)
    }

    /// Admits an instance of a module with 100 shares, this minimum and maximum of frames, and fuel for its start.
    pub fn admit_of(
        &mut self,
        alloc: Global,
        module: ModuleId,
        min: u64,
        max: u64,
        fuel: u64,
    ) -> Result<InstId, AdmitError> {
        let params = Params {
            quota: Quota {
                shares: 100,
                min_frames: min,
                max_frames: max,
            },
            fuel,
            base: 0,
            salt: 0,
            inputs: Vec::new(alloc),
        };
        self.host.admit(alloc, module, params)
    }

    /// Admits an instance of the first module with this minimum of frames, and 16 at most.
    pub fn admit(&mut self, alloc: Global, min: u64) -> Result<InstId, AdmitError> {
        self.admit_of(alloc, self.module, min, 16, 0)
    }

    /// Copies an instance, with this quota.
    pub fn fork(&mut self, alloc: Global, id: InstId, quota: Quota) -> Result<InstId, ForkError> {
        self.host.fork(alloc, id, quota)
    }

    /// Queues a call of an instance, with this fuel; returns its place in the journal.
    pub fn invoke(
        &mut self,
        alloc: Global,
        id: InstId,
        name: &str,
        given: &[i128],
        fuel: u64,
    ) -> Result<u32, HostError> {
        self.host.invoke(alloc, id, name, given, fuel)
    }

    /// Queues a call of the function at this place of those that its module exports, without arguments and with this fuel.
    pub fn invoke_at(
        &mut self,
        alloc: Global,
        id: InstId,
        at: usize,
        fuel: u64,
    ) -> Result<u32, HostError> {
        self.host.invoke_at(alloc, id, at, &[], fuel)
    }

    /// Runs a turn of at most `charges` charges.
    pub fn turn(&mut self, id: InstId, charges: u64) -> TurnEnd {
        let before = look(&self.host, id);
        let (end, _) = self.host.turn(id, charges);
        self.seen.note_turn(&self.host, id, before, end);
        end
    }

    /// Offers a page for merging under this hash.
    pub fn offer<H: PageHash>(
        &mut self,
        hasher: &H,
        id: InstId,
        page: u32,
        hash: u64,
    ) -> Option<Offer> {
        let outcome = self.host.offer(hasher, id, page, hash);
        self.seen.note_offer(outcome);
        outcome
    }

    /// Offers all pages for merging under their own hash.
    pub fn scan<H: PageHash>(&mut self, hasher: &H) -> bool {
        let offered = self.host.scan(hasher);
        self.seen.note_scan(&self.host, offered);
        offered.is_some()
    }

    /// Begins an epoch.
    pub fn epoch(&mut self) {
        self.host.epoch();
    }

    /// Adds fuel to the present call.
    pub fn refuel(&mut self, id: InstId, fuel: u64) -> Result<(), HostError> {
        self.host.refuel(id, fuel)
    }

    /// Cancels the present call.
    pub fn cancel(&mut self, id: InstId) -> Result<(), HostError> {
        let before = self.host.ended_calls(id).unwrap_or(0);
        let answer = self.host.cancel(id);
        self.seen.note_ended(&self.host, id, before);
        answer
    }

    /// Retries the present call, if it is blocked on a device fault.
    pub fn retry(&mut self, id: InstId) -> Result<(), HostError> {
        self.host.retry(id)
    }

    /// Releases the instance; returns its output.
    pub fn release(&mut self, alloc: Global, id: InstId) -> Result<Vec<u8>, HostError> {
        self.host.release(alloc, id)
    }

    /// Returns the status of a call.
    pub fn status(&self, id: InstId, at: u32) -> Option<CallStatus> {
        self.host.call_status(id, at)
    }

    /// Tells whether the present call is blocked on a frame.
    pub fn awaits_frame(&self, id: InstId) -> bool {
        self.host.awaits_frame(id)
    }

    /// Returns the report, as a script has it.
    pub fn report(&self, alloc: Global) -> Result<String> {
        let report = self.host.report(alloc)?;
        let mut text = String::new(alloc);
        write_report(&mut text, &report)?;
        Ok(text)
    }

    /// Returns the number of tickets that are out, as the host says it.
    pub fn tickets(&self, alloc: Global) -> Result<u32, HostError>
        ensures { IfOk result (λ out. out ≡ tickets self.now.host.space) }
    {
        let roll = self.host.roll(alloc)?;
        Ok(roll.tickets())
    }

    /// Tells whether the host has counted what was seen.
    pub fn counts_right(&self) -> bool {
        self.host.counts() == self.seen.counts()
    }

    // Whether no ticket is kept here.
    fn keeps_none(&self) -> bool
        ensures leaving { result ≡ true → vec_len self.now.leaving ≡ 0 }
        ensures coming { result ≡ true → vec_len self.now.coming ≡ 0 }
    {
        self.leaving.is_empty() && self.coming.is_empty()
    }

    /// Returns the number of tickets of evictions and of fetches that are kept here.
    pub fn kept(&self) -> (usize, usize) {
        (self.leaving.len(), self.coming.len())
    }

    /// Returns the first byte of the page whose eviction is the oldest.
    pub fn leaving_byte(&self) -> Option<u8> {
        let eviction = self.leaving.first()?;
        Some(eviction.ticket.bytes()[0])
    }

    /// Makes the next step of an instance ready, while the device's call of this number fails. Returns `None`, and does
    /// nothing, if a ticket is out.
    pub fn provide(
        &mut self,
        alloc: Global,
        id: InstId,
        failing: u32,
    ) -> Result<Option<Result<u64, SwapError>>> {
        let mut buf = Box::new(alloc, [0; 4096])?;
        if !self.keeps_none() {
            return Ok(None);
        }
        let out = self.tickets(alloc)?;
        if out != 0 {
            return Ok(None);
        }
        self.failing.set(failing);
        let before = (self.seen.taken.get(), self.seen.given.get());
        let answer = self.host.provide(&mut self.device, id, &mut buf);
        self.seen.note_provision(before, answer.is_err());
        self.failing.set(0);
        Ok(Some(answer))
    }

    /// Reads bytes of an instance's memory, while the device's call of this number fails.
    pub fn read(
        &mut self,
        alloc: Global,
        id: InstId,
        at: u64,
        into: &mut [u8],
        failing: u32,
    ) -> Result<Result<(), ReadError>> {
        let mut buf = Box::new(alloc, [0; 4096])?;
        self.failing.set(failing);
        let answer = self.host.read(&mut self.device, id, at, into, &mut buf);
        self.failing.set(0);
        Ok(answer)
    }

    /// Runs turns and provisions until the instance can't go on; returns the fault, if the device failed.
    pub fn run_out(&mut self, alloc: Global, id: InstId) -> Result<Option<SwapError>> {
        for _ in 0..1000 {
            if !self.host.can_go_on(id) {
                return Ok(None);
            }
            if let Err(fault) = self.provide(alloc, id, 0)?.context("a ticket is out")? {
                return Ok(Some(fault));
            }
            let _ = self.turn(id, 1000);
        }
        anyhow::bail!("it goes on for ever")
    }
}
