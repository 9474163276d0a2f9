//! How modules come to a host.

ghost use Rattle.std.specs.Prelude.{◌≡◌, IfOk, OnErr, OnOk};
ghost use Rattle.wh_host.specs.Backing.{KeepsBacking};
ghost use Rattle.wh_host.specs.Loading.{AnswersLoad, KeepsModule};

use crate::error::ModuleError;
use crate::host::Host;
use crate::parts::{LoadedModule, ModuleId, ModuleRef};
use slab::Slab;
use std::alloc::{AllocError, Global};
use std::sync::Arc;
use wh_imports::Linked;
use wh_load::load;

/// How many modules a host keeps at most.
pub const MOST_MODULES: usize = 1024;

// These bytes, to be shared.
fn shared_bytes(alloc: Global, bytes: &[u8]) -> Result<Arc<Vec<u8>>, AllocError>
    ensures { IfOk result (λ shared. shared.value.items ≡ bytes.now) }
{
    let copy = Vec::from_slice(alloc, bytes)?;
    match Arc::new(alloc, copy) {
        Ok(shared) => Ok(shared),
        Err(_) => Err(AllocError),
    }
}

// Puts a module of this number, and its bytes, at a free place; it is listed after the others.
fn keep(
    modules: &mut Slab<LoadedModule>,
    module_refs: &mut Vec<ModuleRef>,
    alloc: Global,
    number: usize,
    linked: Linked,
    bytes: &[u8],
) -> Result<(), AllocError>
    ensures ok { OnOk result (KeepsModule modules.old.slots module_refs.old.items number linked
        bytes.now modules.new.slots module_refs.new.items) }
    ensures modules { OnErr result (modules.new.slots ≡ modules.old.slots) }
    ensures refs { OnErr result (module_refs.new.items ≡ module_refs.old.items) }
{
    let bytes = shared_bytes(alloc, bytes)?;
    module_refs.reserve(1)?;
    modules.reserve(1)?;
    let place = modules.insert_reserved(LoadedModule {
        number,
        linked,
        bytes,
    });
    module_refs.push_reserved(ModuleRef { number, place });
    Ok(())
}

impl Host {
    /// Keeps the module that `bytes` spell, and these. Returns its number, from 0, which no other module gets.
    ///
    /// # Errors
    /// `Bytes` with the fault of the bytes, or of an allocation that failed while they were read; `ModulesFull` if 1024
    /// modules are there; `Memory` if there is no room to keep this one, or 2^64 - 1 were loaded; the first of them that
    /// holds. The host is as it was then.
    pub fn load(&mut self, alloc: Global, bytes: &[u8]) -> Result<ModuleId, ModuleError>
        ensures loads { AnswersLoad self.old bytes.now result self.new }
        ensures err { OnErr result (self.new ≡ self.old) }
        ensures backing { KeepsBacking self.old.space self.new.space }
        ensures counts { self.new.counts ≡ self.old.counts }
    {
        let linked = match load(alloc, bytes) {
            Ok(linked) => linked,
            Err(error) => return Err(ModuleError::Bytes(error)),
        };
        if self.module_refs.len() >= MOST_MODULES {
            return Err(ModuleError::ModulesFull);
        }
        let number = self.next_module;
        let Some(next) = number.checked_add(1) else {
            return Err(ModuleError::Memory);
        };
        let kept = keep(
            &mut self.modules,
            &mut self.module_refs,
            alloc,
            number,
            linked,
            bytes,
        );
        let Ok(()) = kept else {
            return Err(ModuleError::Memory);
        };
        self.next_module = next;
        Ok(ModuleId { number })
    }
}
