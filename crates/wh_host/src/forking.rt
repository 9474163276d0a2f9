//! How instances are copied.

ghost use Rattle.std.specs.Prelude.{◌≡◌, ◌≤◌, [], IfErr, IfOk, IsSome, OnErr, get_or, length};
ghost use Rattle.wh_params.specs.View.{view_quota};
ghost use Rattle.wh_space_model.specs.Forks.{Copies, IsAway};
ghost use Rattle.wh_space_model.specs.Places.{HasRoomFor as HasMemoryFor};
ghost use Rattle.wh_space.specs.Arrivals.{claimed};
ghost use Rattle.wh_host.specs.Backing.{KeepsBacking};
ghost use Rattle.wh_host.specs.ForkAnswers.{AnswersFork, CopiesEntry, CopiesNext, GrantsFork, RefusesFork, claim_by};
ghost use Rattle.wh_host.specs.Hosting.{entry_at};

use crate::host::{Host, module_at};
use crate::parts::{InstanceEntry, LoadedModule, StoredParams};
use slab::Slab;
use std::alloc::{AllocError, Global};
use wh_admit::{AdmittedQuota, ForkError, Quota, Room, check_quota};
use wh_space::{Memory, Promise};
use wh_space_model::InstId;

// Decides whether the instance with this entry, of this module, is copied with this quota. `live` instances are there.
fn grant(
    entry: &InstanceEntry,
    module: &LoadedModule,
    memory: &Memory,
    live: usize,
    place: usize,
    quota: Quota,
) -> Result<AdmittedQuota, ForkError>
    ensures ok { IfOk result
        (GrantsFork entry.now module.now memory.now live place (view_quota quota)) }
    ensures err { IfErr result
        (RefusesFork entry.now module.now memory.now live place (view_quota quota)) }
{
    if !entry.tenant.is_idle() {
        return Err(ForkError::CallOpen);
    }
    if entry.tenant.is_dead() {
        return Err(ForkError::StartFailed);
    }
    let room = Room {
        frames: memory.frames_left(),
        slots: memory.slots_left(),
        live,
    };
    let pages = memory.pages_at(place);
    let granted = match check_quota(&module.linked, quota, room, entry.page_limit, pages) {
        Ok(granted) => granted,
        Err(error) => return Err(error),
    };
    if memory.is_away(place) {
        return Err(ForkError::PageAway);
    }
    Ok(granted)
}

// A copy of the instance with this entry, under this number and with this quota.
fn copied_entry(
    alloc: Global,
    entry: &InstanceEntry,
    number: u64,
    quota: AdmittedQuota,
) -> Result<InstanceEntry, AllocError>
    requires idle { entry.now.tenant.journal.open_calls ≡ [] }
    ensures { IfOk result (CopiesEntry entry.now number quota) }
{
    let tenant = entry.tenant.copy(alloc)?;
    let given = StoredParams {
        shares: quota.shares,
        min: quota.min_frames,
        max: quota.max_frames,
        fuel: entry.given.fuel,
        base: entry.given.base,
        salt: entry.given.salt,
    };
    Ok(InstanceEntry {
        number: Some(number),
        of: entry.of,
        module_place: entry.module_place,
        given,
        page_limit: entry.page_limit,
        copied: entry.tenant.present_call(),
        tenant,
    })
}

// What an instance of this number is promised by this quota.
fn promise_by(number: u64, quota: AdmittedQuota) -> Promise
    ensures { result ≡ record {
      number = number;
      shares = quota.shares;
      min = quota.min_frames;
      max = quota.max_frames;
    } }
{
    Promise {
        number,
        shares: quota.shares,
        min: quota.min_frames,
        max: quota.max_frames,
    }
}

// Makes room for one more instance, and lends it the memory of the one at `from`, at the place that it will have: that
// place.
fn copy_next(
    entries: &mut Slab<InstanceEntry>,
    memory: &mut Memory,
    alloc: Global,
    from: usize,
    promise: Promise,
) -> Result<usize, AllocError>
    requires there { IsSome (entry_at entries.old.slots from) }
    requires here { ¬ IsAway memory.old from }
    requires room { HasMemoryFor memory.old (claimed promise) }
    requires shares { (1 ≤ promise.shares) × (promise.shares ≤ 1000000) }
    requires bounds { (2 ≤ promise.min) × (promise.min ≤ promise.max) × (promise.max ≤ 65536) }
    requires fits { length (get_or memory.old.tables from []) ≤ promise.max }
    ensures ok { IfOk result (λ place.
        CopiesNext entries.old memory.old from promise place entries.new memory.new) }
    ensures entries { OnErr result (entries.new.slots ≡ entries.old.slots) }
    ensures memory { OnErr result (memory.new ≡ memory.old) }
{
    entries.reserve(1)?;
    let place = entries.vacant_key();
    if !memory.has_few_pages() {
        return Err(AllocError);
    }
    if !memory.is_free(place) {
        return Err(AllocError);
    }
    if !memory.is_fresh(promise.number) {
        return Err(AllocError);
    }
    memory.copy(alloc, from, place, promise)?;
    Ok(place)
}

impl Host {
    /// Copies an instance without an open call: the copy begins as the instance is, with the same memory, globals, table,
    /// output and ended calls, and with its own quota. The two share all frames of the memory, copy-on-write: no frame is
    /// taken, and no page copied. All else that the copy will ever need is reserved now.
    ///
    /// # Errors
    /// `NoInstance`; `CallOpen`; `StartFailed`; `NotAdmitted` with the first fault that an admission with this quota meets,
    /// out of memory aside; `OtherLimit`; `PageAway`; the first of them that holds. Where none does: `Memory` where room is
    /// refused, where frames and slots are 2^32 together or more, or where 2^64 - 1 instances were admitted. The host is
    /// as it was then.
    pub fn fork(&mut self, alloc: Global, id: InstId, quota: Quota) -> Result<InstId, ForkError>
        ensures forks { AnswersFork self.old id (view_quota quota) result self.new }
        ensures err { OnErr result (self.new ≡ self.old) }
        ensures backing { KeepsBacking self.old.space self.new.space }
        ensures memory { IfOk result (λ copy. Copies self.old.space id.place copy.place
            (claim_by copy.number (view_quota quota)) self.new.space) }
        ensures counts { self.new.counts ≡ self.old.counts }
    {
        let Some(entry) = self.entries.get(id.place) else {
            return Err(ForkError::NoInstance);
        };
        if !entry.has_number(id.number) {
            return Err(ForkError::NoInstance);
        }
        let Some(module) = module_at(&self.modules, entry.module_place) else {
            return Err(ForkError::NoInstance);
        };
        let granted = match grant(entry, module, &self.memory, self.live, id.place, quota) {
            Ok(granted) => granted,
            Err(error) => return Err(error),
        };
        let number = self.next;
        let Some(next) = number.checked_add(1) else {
            return Err(ForkError::Memory);
        };
        let Ok(copy) = copied_entry(alloc, entry, number, granted) else {
            return Err(ForkError::Memory);
        };
        let promise = promise_by(number, granted);
        let copied = copy_next(
            &mut self.entries,
            &mut self.memory,
            alloc,
            id.place,
            promise,
        );
        let Ok(place) = copied else {
            return Err(ForkError::Memory);
        };
        self.entries.insert_reserved(copy);
        self.live += 1;
        self.next = next;
        Ok(InstId { place, number })
    }
}
