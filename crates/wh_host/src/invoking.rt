//! Calls that owners ask of their instances.

ghost use Rattle.std.specs.Prelude.{◌≡◌, OnErr};
ghost use Rattle.wh_host.specs.Backing.{KeepsBacking};
ghost use Rattle.wh_host.specs.CallRequests.{AnswersInvoke, AnswersInvokeAt};

use crate::error::HostError;
use crate::exporting::func_export;
use crate::host::{Host, module_at};
use std::alloc::Global;
use wh_instance::InvokeError;
use wh_space_model::InstId;

impl Host {
    /// Queues a call of the function that an instance's module exports as `name`, with arguments `given` and `fuel`,
    /// after the open calls; turns run it. Returns its place in the instance's journal, where the start is 0.
    ///
    /// An argument is a number, signed or unsigned, in the bits of its type.
    ///
    /// # Errors
    /// `NoInstance`, or the first fault of the call, in the order of their numbers. The host is as it was then.
    pub fn invoke(
        &mut self,
        alloc: Global,
        id: InstId,
        name: &str,
        given: &[i128],
        fuel: u64,
    ) -> Result<u32, HostError>
        ensures asks { AnswersInvoke self.old id name.now given.now fuel result self.new }
        ensures err { OnErr result (self.new ≡ self.old) }
        ensures backing { KeepsBacking self.old.space self.new.space }
        ensures counts { self.new.counts ≡ self.old.counts }
    {
        let Some(entry) = self.entries.get_mut(id.place) else {
            return Err(HostError::NoInstance);
        };
        if !entry.has_number(id.number) {
            return Err(HostError::NoInstance);
        }
        let Some(module) = module_at(&self.modules, entry.module_place) else {
            return Err(HostError::NoInstance);
        };
        let linked = &module.linked;
        let at = match entry.tenant.invoke(alloc, linked, name, given, fuel) {
            Ok(at) => at,
            Err(error) => return Err(HostError::Invoke(error)),
        };
        Ok(at)
    }

    /// Queues a call as `invoke` does, of the function at place `at`, from 0 on, of those that the instance's module exports:
    /// that by the name which `export_at` tells.
    ///
    /// # Errors
    /// `NoInstance`, or the first fault of the call, in the order of their numbers: where there is no such place, that there is
    /// no such export. The host is as it was then.
    pub fn invoke_at(
        &mut self,
        alloc: Global,
        id: InstId,
        at: usize,
        given: &[i128],
        fuel: u64,
    ) -> Result<u32, HostError>
        ensures asks { AnswersInvokeAt self.old id at given.now fuel result self.new }
        ensures err { OnErr result (self.new ≡ self.old) }
        ensures backing { KeepsBacking self.old.space self.new.space }
        ensures counts { self.new.counts ≡ self.old.counts }
    {
        let Some(entry) = self.entries.get_mut(id.place) else {
            return Err(HostError::NoInstance);
        };
        if !entry.has_number(id.number) {
            return Err(HostError::NoInstance);
        }
        let Some(module) = module_at(&self.modules, entry.module_place) else {
            return Err(HostError::NoInstance);
        };
        let linked = &module.linked;
        let Some(export) = func_export(&linked.module().exports, at) else {
            return Err(HostError::Invoke(InvokeError::NoExport));
        };
        let name = export.name.as_str();
        let place = match entry.tenant.invoke(alloc, linked, name, given, fuel) {
            Ok(place) => place,
            Err(error) => return Err(HostError::Invoke(error)),
        };
        Ok(place)
    }
}
