//! How instances come to a host.

ghost use Rattle.std.specs.Prelude.{◌≡◌, ◌≤◌, ◌*◌, ℕ, IfOk, OnErr, length};
ghost use Rattle.wh_model.specs.Format.Limits.{most_segments};
ghost use Rattle.wh_params.specs.View.{view_params};
ghost use Rattle.wh_space.specs.Arrivals.{claimed};
ghost use Rattle.wh_host_model.specs.Host.Worlds.{promised};
ghost use Rattle.wh_space_model.specs.Places.{Enters, HasRoomFor as HasMemoryFor};
ghost use Rattle.wh_host.specs.Backing.{KeepsBacking};
ghost use Rattle.wh_host.specs.Admitting.{AnswersAdmit, BeginsEntry, EntersNext};

use crate::host::{Host, module_at};
use crate::module_refs::find_ref;
use crate::parts::{InstanceEntry, ModuleId, ModuleRef, StoredParams};
use slab::Slab;
use std::alloc::{AllocError, Global};
use wh_admit::{AdmitError, Admitted, Params, Room, admit};
use wh_imports::Linked;
use wh_instance::HostInstance;
use wh_space::{Memory, Promise};
use wh_space_model::InstId;

// The instance that begins so, of this module.
fn new_entry_for(
    alloc: Global,
    linked: &Linked,
    admitted: Admitted,
    number: u64,
    of: ModuleRef,
    words: (u32, u64),
) -> Result<InstanceEntry, AllocError>
    requires few { length linked.now.valid.decoded.segments.items ≤ most_segments }
    ensures { IfOk result (BeginsEntry linked.now admitted number of words) }
{
    let Admitted {
        begun,
        machine,
        shares,
        min,
        max,
        fuel,
    } = admitted;
    let (base, salt) = words;
    let page_limit = begun.page_limit;
    let tenant = HostInstance::new(alloc, linked, begun, machine, fuel)?;
    Ok(InstanceEntry {
        number: Some(number),
        of: of.number,
        module_place: of.place,
        given: StoredParams {
            shares,
            min,
            max,
            fuel,
            base,
            salt,
        },
        page_limit,
        copied: 0,
        tenant,
    })
}

// Makes room for one more instance, and for its memory at the place that it will have: that place.
fn enter_next(
    entries: &mut Slab<InstanceEntry>,
    memory: &mut Memory,
    alloc: Global,
    promise: Promise,
    size: u32,
) -> Result<usize, AllocError>
    requires room { HasMemoryFor memory.old (claimed promise) }
    requires shares { (1 ≤ promise.shares) × (promise.shares ≤ 1000000) }
    requires bounds { (2 ≤ promise.min) × (promise.min ≤ promise.max) × (promise.max ≤ 65536) }
    requires fits { 16 * size ≤ promise.max }
    ensures ok { IfOk result (λ place.
        EntersNext entries.old memory.old promise size place entries.new memory.new) }
    ensures entries { OnErr result (entries.new.slots ≡ entries.old.slots) }
    ensures memory { OnErr result (memory.new ≡ memory.old) }
{
    entries.reserve(1)?;
    let place = entries.vacant_key();
    if !memory.is_free(place) {
        return Err(AllocError);
    }
    if !memory.is_fresh(promise.number) {
        return Err(AllocError);
    }
    memory.enter(alloc, place, promise, size)?;
    Ok(place)
}

impl Host {
    /// Admits an instance of a module with `params`. All that it will ever need is reserved now.
    ///
    /// # Errors
    /// The first fault, in the order of their numbers; `Memory` where room is refused, or where 2^64 - 1 instances were
    /// admitted. The host is as it was then.
    pub fn admit(
        &mut self,
        alloc: Global,
        of: ModuleId,
        params: Params,
    ) -> Result<InstId, AdmitError>
        ensures admits { AnswersAdmit self.old of.number (view_params params) result self.new }
        ensures err { OnErr result (self.new ≡ self.old) }
        ensures backing { KeepsBacking self.old.space self.new.space }
        ensures memory { IfOk result (λ id. (size : ℕ) × Enters self.old.space id.place
            (promised id.number (view_params params)) size self.new.space) }
        ensures counts { self.new.counts ≡ self.old.counts }
    {
        let Some(module_ref) = find_ref(&self.module_refs, of.number) else {
            return Err(AdmitError::NoModule);
        };
        let Some(module) = module_at(&self.modules, module_ref.place) else {
            return Err(AdmitError::NoModule);
        };
        let room = Room {
            frames: self.memory.frames_left(),
            slots: self.memory.slots_left(),
            live: self.live,
        };
        let words = (params.base, params.salt);
        let admitted = match admit(alloc, Some(&module.linked), params, room) {
            Ok(admitted) => admitted,
            Err(error) => return Err(error),
        };
        let number = self.next;
        let Some(next) = number.checked_add(1) else {
            return Err(AdmitError::Memory);
        };
        let size = admitted.begun.pages;
        let promise = Promise {
            number,
            shares: admitted.shares,
            min: admitted.min,
            max: admitted.max,
        };
        let made = new_entry_for(alloc, &module.linked, admitted, number, module_ref, words);
        let Ok(entry) = made else {
            return Err(AdmitError::Memory);
        };
        let entered = enter_next(&mut self.entries, &mut self.memory, alloc, promise, size);
        let Ok(place) = entered else {
            return Err(AdmitError::Memory);
        };
        self.entries.insert_reserved(entry);
        self.live += 1;
        self.next = next;
        Ok(InstId { place, number })
    }
}
