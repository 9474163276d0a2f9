//! What is there in a host.

ghost use Rattle.std.specs.Prelude.{◌≡◌, ◌<◌, Some, IfErr, IfOk, length, map, slice_get};
ghost use Rattle.wh_host.specs.Rolls.{IsRollOf, listed_by, listed_modules, listed_refs, module_by, view_listed, view_listed_module};

use crate::error::HostError;
use crate::host::Host;
use crate::instance_refs::ref_at;
use crate::module_refs::module_ref_at;
use crate::parts::{InstanceEntry, LoadedModule, ModuleId, ModuleRef};
use crate::showing::params_of;
use slab::Slab;
use std::alloc::{AllocError, Global};
use std::marker::Model;
use std::sync::Arc;
use wh_admit::Params;
use wh_instance::Suspension;
use wh_space_model::InstId;

/// What a roll says of a module.
#[derive(Drop)]
pub struct RollModule {
    /// Which it is.
    pub id: ModuleId,
    /// Its bytes, which the host has too.
    pub bytes: Arc<Vec<u8>>,
}

/// What a roll says of an instance.
#[derive(Drop)]
pub struct RollInstance {
    /// Which it is.
    pub id: InstId,
    /// Of which module it is.
    pub of: ModuleId,
    /// What its owner gave it.
    pub params: Params,
    /// How many calls there are, its start among them.
    pub calls: usize,
    /// How many of these were copied with it.
    pub copied: usize,
    /// How many of these are open.
    pub open_calls: usize,
    /// Whether its start has trapped or was cancelled.
    pub dead: bool,
    /// What its first open call waits for, if it does.
    pub waiting_for: Option<Suspension>,
}

/// What is there in a host: its modules by number, the number of the next instance, how many tickets are out, and its
/// instances by number.
///
/// Its type keeps that events lead from an empty host to one of which it is the roll.
#[derive(Drop)]
pub struct Roll {
    modules: Vec<RollModule>,
    next: u64,
    tickets: u32,
    instances: Vec<RollInstance>,
}

impl Model for Roll {
    ghost use Rattle.std.specs.Prelude.{map as each};
    ghost use Rattle.wh_host.specs.Rolls.{IsRollOfSome, RollState, view_listed as listed, view_listed_module as listed_module};

    ghost Value = { RollState };

    ghost view = { λ r. record {
      modules = each listed_module r.modules.items;
      next = r.next;
      tickets_out = r.tickets;
      instances = each listed r.instances.items;
    } };

    ghost invariant = { λ r. IsRollOfSome (record {
      modules = each listed_module r.modules.items;
      next = r.next;
      tickets_out = r.tickets;
      instances = each listed r.instances.items;
    }) };
}

impl Roll {
    /// Returns the modules by number. Numbers of those that are gone are left out.
    pub fn modules(&self) -> &[RollModule]
        ensures { map view_listed_module result.now ≡ self.now.modules }
    {
        &self.modules
    }

    /// Returns how many instances were admitted: the number of the next.
    pub fn next(&self) -> u64
        ensures { result ≡ self.now.next }
    {
        self.next
    }

    /// Counts the tickets out.
    pub fn tickets(&self) -> u32
        ensures { result ≡ self.now.tickets_out }
    {
        self.tickets
    }

    /// Returns them by number.
    pub fn instances(&self) -> &[RollInstance]
        ensures { map view_listed result.now ≡ self.now.instances }
    {
        &self.instances
    }
}

// What the roll says of the module that has this place.
fn loaded_by(module_ref: ModuleRef, module: &LoadedModule) -> Result<RollModule, AllocError>
    ensures { IfOk result (λ loaded. view_listed_module loaded ≡ module_by module_ref module.now) }
{
    let bytes = Arc::try_clone(&module.bytes)?;
    Ok(RollModule {
        id: ModuleId {
            number: module_ref.number,
        },
        bytes,
    })
}

// What the roll says of these modules.
fn all_loaded(
    alloc: Global,
    modules: &Slab<LoadedModule>,
    module_refs: &[ModuleRef],
) -> Result<Vec<RollModule>, AllocError>
    ensures { IfOk result (λ list.
        map view_listed_module list.items ≡ listed_modules modules.now.slots module_refs.now) }
{
    let mut list = Vec::with_capacity(alloc, module_refs.len())?;
    for at in 0..module_refs.len() {
        let module_ref = module_ref_at(module_refs, at);
        if let Some(module) = modules.get(module_ref.place) {
            list.push(loaded_by(module_ref, module)?)?;
        }
    }
    Ok(list)
}

// What the roll says of who has this place.
fn enrolled_by(
    alloc: Global,
    instance_ref: InstId,
    entry: &InstanceEntry,
) -> Result<RollInstance, AllocError>
    ensures { IfOk result (λ enrolled. view_listed enrolled ≡ listed_by instance_ref entry.now) }
{
    let tenant = &entry.tenant;
    let params = params_of(alloc, entry.given, tenant.inputs())?;
    let journal = tenant.journal();
    Ok(RollInstance {
        id: InstId {
            place: instance_ref.place,
            number: instance_ref.number,
        },
        of: ModuleId { number: entry.of },
        params,
        calls: journal.len(),
        copied: entry.copied,
        open_calls: journal.open_len(),
        dead: tenant.is_dead(),
        waiting_for: tenant.waiting_for(),
    })
}

// What it says of these instances.
fn all_enrolled(
    alloc: Global,
    entries: &Slab<InstanceEntry>,
    instance_refs: &[InstId],
) -> Result<Vec<RollInstance>, AllocError>
    ensures { IfOk result (λ list.
        map view_listed list.items ≡ listed_refs entries.now.slots instance_refs.now) }
{
    let mut list = Vec::with_capacity(alloc, instance_refs.len())?;
    for at in 0..instance_refs.len() {
        let instance_ref = ref_at(instance_refs, at);
        if let Some(entry) = entries.get(instance_ref.place) {
            list.push(enrolled_by(alloc, instance_ref, entry)?)?;
        }
    }
    Ok(list)
}

impl Host {
    // The roll, or no memory for it.
    fn make_roll(&self, alloc: Global) -> Result<Roll, AllocError>
        ensures { IfOk result (λ roll. IsRollOf self.now roll) }
    {
        let instance_refs = self.instance_refs(alloc)?;
        let modules = all_loaded(alloc, &self.modules, &self.module_refs)?;
        let instances = all_enrolled(alloc, &self.entries, &instance_refs)?;
        Ok(Roll {
            modules,
            next: self.next,
            tickets: self.memory.tickets(),
            instances,
        })
    }

    /// Returns what is there. The bytes of modules are shared with it. It goes over all modules, instances and slots.
    ///
    /// # Errors
    /// `Memory` where room is refused.
    pub fn roll(&self, alloc: Global) -> Result<Roll, HostError>
        ensures ok { IfOk result (λ roll. IsRollOf self.now roll) }
        ensures err { IfErr result (λ error. error ≡ HostError.Memory) }
    {
        match self.make_roll(alloc) {
            Ok(roll) => Ok(roll),
            Err(_) => Err(HostError::Memory),
        }
    }
}
