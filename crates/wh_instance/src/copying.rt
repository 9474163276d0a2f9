//! A copy of an instance.

ghost use Rattle.std.specs.Prelude.{◌≡◌, [], IfOk};
ghost use Rattle.wh_instance.specs.CopiedInstances.{CopiesInstance, HasSameItems};

use crate::host_instance::HostInstance;
use crate::writing::Cursor;
use std::alloc::{AllocError, Global};
use wh_machine::{Machine, Store};
use wh_model::OUTPUT_ROOM;

// A store with the same globals, table, inputs and output, and with room for all output.
fn copy_store(alloc: Global, store: &Store) -> Result<Store, AllocError>
    ensures { IfOk result (HasSameItems store.now) }
{
    let globals = Vec::from_slice(alloc, &store.globals)?;
    let table = Vec::from_slice(alloc, &store.table)?;
    let inputs = Vec::from_slice(alloc, &store.inputs)?;
    let mut output = Vec::with_capacity(alloc, OUTPUT_ROOM)?;
    output.extend_from_slice(&store.output)?;
    Ok(Store {
        globals,
        table,
        inputs,
        output,
    })
}

impl HostInstance {
    /// Makes a copy of an instance without an open call: it has the same globals, table, inputs and output, and the same
    /// ended calls, and is dead where the other one is. Its machine is its own, and reserves all that its calls will ever
    /// need. Since its start has ended, it knows no places of data segments.
    ///
    /// # Errors
    /// `AllocError` if an allocation fails. Nothing is left then.
    pub fn copy(&self, alloc: Global) -> Result<HostInstance, AllocError>
        requires idle { self.now.journal.open_calls ≡ [] }
        ensures { IfOk result (CopiesInstance self.now) }
    {
        let store = copy_store(alloc, &self.store)?;
        let machine = Machine::new(alloc)?;
        let journal = self.journal.copy_ended(alloc)?;
        Ok(HostInstance {
            store,
            machine,
            places: Vec::new(alloc),
            cursor: Cursor::first(),
            progress: self.progress,
            journal,
            waiting_for: None,
            dead: self.dead,
        })
    }
}
