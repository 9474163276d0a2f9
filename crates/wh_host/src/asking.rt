//! What owners ask of the present calls of their instances.

ghost use Rattle.std.specs.Prelude.{◌≡◌, OnErr, OnOk};
ghost use Rattle.wh_host_model.specs.Host.Happens.{IsCancel, IsRefuel, IsRetry};
ghost use Rattle.wh_space_model.specs.Stores.{ended};
ghost use Rattle.wh_host.specs.Backing.{KeepsBacking};
ghost use Rattle.wh_host.specs.CallRequests.{AnswersCall};
ghost use Rattle.wh_host.specs.HostCounting.{counts_after_cancel};

use crate::error::HostError;
use crate::host::Host;
use wh_space_model::InstId;

impl Host {
    /// Adds `fuel` charges to the present call of an instance, up to 2^64 - 1 in all. A call that waits for fuel can
    /// then make progress, if it was given any.
    ///
    /// # Errors
    /// `NoInstance`; `NoCall` if no call is open. Nothing is done then.
    pub fn refuel(&mut self, id: InstId, fuel: u64) -> Result<(), HostError>
        ensures asks { AnswersCall self.old (λ w answer w2. IsRefuel w id fuel answer w2)
            result self.new }
        ensures err { OnErr result (self.new ≡ self.old) }
        ensures backing { KeepsBacking self.old.space self.new.space }
        ensures memory { self.new.space ≡ self.old.space }
        ensures counts { self.new.counts ≡ self.old.counts }
    {
        let Some(entry) = self.entries.get_mut(id.place) else {
            return Err(HostError::NoInstance);
        };
        if !entry.has_number(id.number) {
            return Err(HostError::NoInstance);
        }
        if !entry.tenant.refuel(fuel) {
            return Err(HostError::NoCall);
        }
        Ok(())
    }

    /// Retries the present call of an instance, if it is blocked on a device fault: then it waits for a frame.
    ///
    /// # Errors
    /// `NoInstance`; `NoCall` if it isn't blocked on one. Nothing is done then.
    pub fn retry(&mut self, id: InstId) -> Result<(), HostError>
        ensures asks { AnswersCall self.old (λ w answer w2. IsRetry w id answer w2)
            result self.new }
        ensures err { OnErr result (self.new ≡ self.old) }
        ensures backing { KeepsBacking self.old.space self.new.space }
        ensures memory { self.new.space ≡ self.old.space }
        ensures counts { self.new.counts ≡ self.old.counts }
    {
        let Some(entry) = self.entries.get_mut(id.place) else {
            return Err(HostError::NoInstance);
        };
        if !entry.has_number(id.number) {
            return Err(HostError::NoInstance);
        }
        if !entry.tenant.retry() {
            return Err(HostError::NoCall);
        }
        Ok(())
    }

    /// Cancels the present call of an instance where it is; what it has written stays. A start that is cancelled leaves
    /// the instance dead, and the calls after it end as dead.
    ///
    /// # Errors
    /// `NoInstance`; `NoCall` where no call is open. Nothing is done then.
    pub fn cancel(&mut self, id: InstId) -> Result<(), HostError>
        ensures asks { AnswersCall self.old (λ w answer w2. IsCancel w id answer w2)
            result self.new }
        ensures err { OnErr result (self.new ≡ self.old) }
        ensures backing { KeepsBacking self.old.space self.new.space }
        ensures memory { OnOk result (self.new.space ≡ ended self.old.space id.place) }
        ensures counts { OnOk result (self.new.counts ≡ counts_after_cancel self.old id self.new) }
    {
        let Some(entry) = self.entries.get_mut(id.place) else {
            return Err(HostError::NoInstance);
        };
        if !entry.has_number(id.number) {
            return Err(HostError::NoInstance);
        }
        let before = entry.tenant.journal().ended_len();
        if !entry.tenant.cancel() {
            return Err(HostError::NoCall);
        }
        self.counts.count_ended(entry.tenant.journal(), before);
        self.memory.invariant();
        self.memory.end(id.place);
        Ok(())
    }
}
