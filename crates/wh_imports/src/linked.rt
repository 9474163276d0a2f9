//! Whole modules, linked.

ghost use Rattle.std.specs.Prelude.{◌≡◌, map, OnOk, IfOk, IfErr};
ghost use Rattle.wh_model.specs.Linking.Imports.{Links};
ghost use Rattle.wh_syntax.specs.View.{view_module};
ghost use Rattle.wh_bodies.specs.View.{view_side};
ghost use Rattle.wh_validate.specs.CheckedBodies.{IsChecked};
ghost use Rattle.wh_imports.specs.Records.{AreRecords};
ghost use Rattle.wh_imports.specs.Resolving.{IsResolved, Adds};
ghost use Rattle.wh_imports.specs.LinkedState.{LinkedState, stored_linked};
ghost use Rattle.wh_imports.specs.LinkRefusals.{RefusesLink};

use crate::error::LinkError;
use crate::items::item_of;
use crate::records::{FuncRecord, records_of};
use std::alloc::Global;
use std::marker::Model;
use wh_bodies::SideTable;
use wh_model::{HostFunc, HostGlobal, HostItem};
use wh_syntax::Module;
use wh_validate::ValidModule;

/// A valid module, with what its imports are. Contracts see these; `module` says what is known of them.
#[derive(Drop)]
pub struct Linked {
    valid: ValidModule,
    funcs: Vec<HostFunc>,
    globals: Vec<HostGlobal>,
    records: Vec<FuncRecord>,
}

impl Model for Linked {
    ghost Value = { LinkedState };

    ghost coded = { stored_linked };

    ghost view = { λ l. record {
      valid = l.valid;
      funcs = l.funcs.items;
      globals = l.globals.items;
    } };

    ghost invariant = { λ l. IsChecked (view_module l.valid.decoded) (map view_side l.valid.tables)
        × IsResolved (view_module l.valid.decoded) l.funcs.items l.globals.items
        × AreRecords (view_module l.valid.decoded) l.records.items };
}

impl Linked {
    /// Returns the module.
    pub fn module(&self) -> &Module
        ensures same { result.now ≡ self.now.valid.decoded }
        // It is valid, it fits, and its bodies have their tables.
        ensures sound { IsChecked (view_module result.now) (map view_side self.now.valid.tables) }
        // Its imports are what they are linked to.
        ensures resolved { IsResolved (view_module result.now) self.now.funcs self.now.globals }
    {
        self.valid.module()
    }

    /// Returns the branch targets of each body, in the order of the functions that the module defines.
    pub fn tables(&self) -> &[SideTable]
        ensures { result.now ≡ self.now.valid.tables }
    {
        self.valid.tables()
    }

    /// Returns the record of each function that the module defines, in order.
    pub fn records(&self) -> &[FuncRecord]
        ensures { AreRecords (view_module self.now.valid.decoded) result.now }
    {
        &self.records
    }

    /// Returns the imported functions, in order: those that the first function indices name.
    pub fn funcs(&self) -> &[HostFunc]
        ensures { result.now ≡ self.now.funcs }
    {
        &self.funcs
    }

    /// Returns the imported globals, in order: those that the first global indices name.
    pub fn globals(&self) -> &[HostGlobal]
        ensures { result.now ≡ self.now.globals }
    {
        &self.globals
    }
}

/// What imports are.
#[derive(Drop)]
struct Resolved {
    funcs: Vec<HostFunc>,
    globals: Vec<HostGlobal>,
}

impl Resolved {
    /// Adds what one more import is.
    fn add(&mut self, item: HostItem) -> Result<(), LinkError>
        ensures ok { OnOk result
            (Adds item self.old.funcs.items self.old.globals.items self.new.funcs.items
            self.new.globals.items) }
        ensures err { IfErr result (λ e. e ≡ LinkError.Memory) }
    {
        match item {
            HostItem::Func(func) => self.funcs.push(func)?,
            HostItem::Global(global) => self.globals.push(global)?,
        }
        Ok(())
    }
}

/// What each import of a module is.
fn resolve(alloc: Global, decoded: &Module) -> Result<Resolved, LinkError>
    ensures ok { OnOk result (Links (view_module decoded.now)) }
    ensures resolved { IfOk result
        (λ r. IsResolved (view_module decoded.now) r.funcs.items r.globals.items) }
    ensures err { IfErr result (RefusesLink (view_module decoded.now)) }
{
    let mut resolved = Resolved {
        funcs: Vec::new(alloc),
        globals: Vec::new(alloc),
    };
    for at in 0..decoded.imports.len() {
        match item_of(&decoded.types, &decoded.imports[at], at) {
            Ok(item) => resolved.add(item)?,
            Err(error) => return Err(error),
        }
    }
    Ok(resolved)
}

/// Finds what each import of a module is.
///
/// # Errors
/// `NoItem` of the first import that the host doesn't offer, with the cause and its place. `Memory` where a growth was refused.
pub fn link(alloc: Global, valid: ValidModule) -> Result<Linked, LinkError>
    // Each import of what is linked has its item.
    ensures ok { OnOk result (Links (view_module valid.decoded)) }
    // It is the module that was given.
    ensures same { IfOk result (λ linked. linked.valid ≡ valid) }
    // The first import without its item is named, with its cause.
    ensures err { IfErr result (RefusesLink (view_module valid.decoded)) }
{
    let resolved = resolve(alloc, valid.module())?;
    let records = records_of(alloc, valid.module())?;
    Ok(Linked {
        valid,
        funcs: resolved.funcs,
        globals: resolved.globals,
        records,
    })
}
