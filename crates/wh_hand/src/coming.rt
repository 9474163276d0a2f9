//! How modules and instances come to a hand, and how modules go.

ghost use Rattle.std.specs.Prelude.{◌≡◌, ℕ, IfOk, OnErr};
ghost use Rattle.wh_params.specs.View.{view_params, view_quota};
ghost use Rattle.wh_host_model.specs.Host.Worlds.{promised};
ghost use Rattle.wh_space_model.specs.Forks.{Copies};
ghost use Rattle.wh_space_model.specs.Places.{Enters};
ghost use Rattle.wh_host.specs.Admitting.{AnswersAdmit};
ghost use Rattle.wh_host.specs.Backing.{KeepsBacking};
ghost use Rattle.wh_host.specs.ForkAnswers.{AnswersFork, claim_by};
ghost use Rattle.wh_host.specs.Loading.{AnswersLoad};
ghost use Rattle.wh_host.specs.Unloading.{AnswersUnload};

use crate::hand::Hand;
use crate::line::settle;
use std::alloc::Global;
use wh_host::{AdmitError, ForkError, ModuleError, ModuleId, Params, Quota, UnloadError};
use wh_space_model::InstId;

impl Hand {
    /// Keeps the module that these bytes spell, and the bytes; returns its number, from 0.
    ///
    /// # Errors
    /// Those of `Host::load`: `Bytes` with the fault of the bytes, or of an allocation that failed while they were
    /// read; `ModulesFull` if 1024 modules are kept; `Memory` if there is no room to keep this one; the first of them
    /// that holds. The host is as it was then.
    pub fn load(&mut self, alloc: Global, bytes: &[u8]) -> Result<ModuleId, ModuleError>
        ensures loads { AnswersLoad self.old.host bytes.now result self.new.host }
        ensures err { OnErr result (self.new ≡ self.old) }
        ensures backing { KeepsBacking self.old.host.space self.new.host.space }
        ensures output { self.new.output ≡ self.old.output }
        ensures counts { self.new.host.counts ≡ self.old.host.counts }
    {
        self.host.load(alloc, bytes)
    }

    /// Lets a module go that no instance is of: its memory is free, and its number never used again.
    ///
    /// # Errors
    /// Those of `Host::unload`: `NoModule`; `InUse` if an instance of it is there. Nothing is done then.
    pub fn unload(&mut self, id: ModuleId) -> Result<(), UnloadError>
        ensures unloads { AnswersUnload self.old.host id.number result self.new.host }
        ensures err { OnErr result (self.new ≡ self.old) }
        ensures backing { KeepsBacking self.old.host.space self.new.host.space }
        ensures memory { self.new.host.space ≡ self.old.host.space }
        ensures output { self.new.output ≡ self.old.output }
        ensures counts { self.new.host.counts ≡ self.old.host.counts }
    {
        self.host.unload(id)
    }

    /// Admits an instance of a module, with what its owner gives it. All that it will ever need is reserved now. Its start runs
    /// by `run`, before its calls.
    ///
    /// # Errors
    /// Those of `Host::admit`: the first fault, in the order of their numbers; `Memory` where room is refused, or where
    /// 2^64 - 1 instances were admitted. The host is as it was then.
    pub fn admit(
        &mut self,
        alloc: Global,
        of: ModuleId,
        params: Params,
    ) -> Result<InstId, AdmitError>
        ensures admits { AnswersAdmit self.old.host of.number (view_params params) result
            self.new.host }
        ensures err { OnErr result (self.new ≡ self.old) }
        ensures backing { KeepsBacking self.old.host.space self.new.host.space }
        ensures memory { IfOk result (λ id. (size : ℕ) × Enters self.old.host.space id.place
            (promised id.number (view_params params)) size self.new.host.space) }
        ensures output { self.new.output ≡ self.old.output }
        ensures counts { self.new.host.counts ≡ self.old.host.counts }
    {
        let id = match self.host.admit(alloc, of, params) {
            Ok(id) => id,
            Err(error) => return Err(error),
        };
        settle(&mut self.line, &self.host, id, false);
        Ok(id)
    }

    /// Copies an instance without an open call: the copy begins as the instance is, with the same memory, globals, table,
    /// output and ended calls, and with its own quota. The two share all frames of the memory, copy-on-write: no frame is
    /// taken, and no page copied. All else that the copy will ever need is reserved now.
    ///
    /// # Errors
    /// Those of `Host::fork`: `NoInstance`; `CallOpen`; `StartFailed`; `NotAdmitted` with the first fault that an admission
    /// with this quota meets, out of memory aside; `OtherLimit`; `PageAway`; the first of them that holds. Where none does:
    /// `Memory` where room is refused, where frames and slots are 2^32 together or more, or where 2^64 - 1 instances were
    /// admitted. The host is as it was then.
    pub fn fork(&mut self, alloc: Global, id: InstId, quota: Quota) -> Result<InstId, ForkError>
        ensures forks { AnswersFork self.old.host id (view_quota quota) result self.new.host }
        ensures err { OnErr result (self.new ≡ self.old) }
        ensures backing { KeepsBacking self.old.host.space self.new.host.space }
        ensures memory { IfOk result (λ copy. Copies self.old.host.space id.place copy.place
            (claim_by copy.number (view_quota quota)) self.new.host.space) }
        ensures output { self.new.output ≡ self.old.output }
        ensures counts { self.new.host.counts ≡ self.old.host.counts }
    {
        let copy = match self.host.fork(alloc, id, quota) {
            Ok(copy) => copy,
            Err(error) => return Err(error),
        };
        settle(&mut self.line, &self.host, copy, false);
        Ok(copy)
    }
}
