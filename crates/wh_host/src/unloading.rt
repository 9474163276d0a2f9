//! How modules go.

ghost use Rattle.std.specs.Prelude.{◌≡◌, ◌<◌, OnErr, Some, slice_get, vec_len};
ghost use Rattle.std.specs.Bool.{MatchBool};
ghost use Rattle.wh_host.specs.declared.parts.ModuleRef.{ModuleRef as OneRef};
ghost use Rattle.wh_host.specs.Backing.{KeepsBacking};
ghost use Rattle.wh_host.specs.Unloading.{AnswersUnload, HasUser, LeavesModule, Uses};

use crate::error::UnloadError;
use crate::host::Host;
use crate::module_refs::index_of;
use crate::parts::{InstanceEntry, LoadedModule, ModuleId, ModuleRef};
use slab::Slab;

// Whether an instance of the module of this number has this place.
fn uses(entries: &Slab<InstanceEntry>, number: usize, place: usize) -> bool
    ensures { MatchBool result (Uses entries.now.slots number place)
        (¬ (Uses entries.now.slots number place)) }
{
    let Some(entry) = entries.get(place) else {
        return false;
    };
    entry.is_of(number)
}

// Whether an instance of the module of this number is there.
fn is_used(entries: &Slab<InstanceEntry>, number: usize) -> bool
    ensures { MatchBool result (HasUser entries.now.slots number)
        (¬ (HasUser entries.now.slots number)) }
{
    for place in 0..entries.capacity() {
        if uses(entries, number, place) {
            return true;
        }
    }
    false
}

// Lets the module go that is listed at this index.
fn let_go(modules: &mut Slab<LoadedModule>, module_refs: &mut Vec<ModuleRef>, at: usize)
    requires { at < vec_len module_refs.old }
    ensures { (module_ref : OneRef) → slice_get module_refs.old.items at ≡ Some module_ref
        → LeavesModule modules.old.slots module_refs.old.items at module_ref modules.new.slots
        module_refs.new.items }
{
    let module_ref = module_refs.remove(at);
    let _ = modules.try_remove(module_ref.place);
}

impl Host {
    /// Lets a module go that no instance is of: its memory is free, and its number never used again.
    ///
    /// # Errors
    /// `NoModule`; `InUse` if an instance of it is there. Nothing is done then.
    pub fn unload(&mut self, id: ModuleId) -> Result<(), UnloadError>
        ensures unloads { AnswersUnload self.old id.number result self.new }
        ensures err { OnErr result (self.new ≡ self.old) }
        ensures backing { KeepsBacking self.old.space self.new.space }
        ensures memory { self.new.space ≡ self.old.space }
        ensures counts { self.new.counts ≡ self.old.counts }
    {
        let Some(at) = index_of(&self.module_refs, id.number) else {
            return Err(UnloadError::NoModule);
        };
        if is_used(&self.entries, id.number) {
            return Err(UnloadError::InUse);
        }
        let_go(&mut self.modules, &mut self.module_refs, at);
        Ok(())
    }
}
