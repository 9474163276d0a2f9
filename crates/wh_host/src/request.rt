//! What an owner asks of a host.

ghost use Rattle.std.specs.Prelude.{◌≡◌, ℕ, IfOk, IsOk, OnErr, OnOk, Result};
ghost use Rattle.wh_params.specs.View.{view_params};
ghost use Rattle.wh_host_model.specs.Host.Events.{admit, cancel, epoch, invoke, load, refuel, release, retry};
ghost use Rattle.wh_host_model.specs.Host.Happens.{IsCancel, IsRefuel, IsRetry};
ghost use Rattle.wh_host_model.specs.Host.Worlds.{promised};
ghost use Rattle.wh_space_model.specs.Places.{Enters, Exits};
ghost use Rattle.wh_space_model.specs.Stores.{Epochs, ended};
ghost use Rattle.wh_host.specs.Admitting.{AnswersAdmit};
ghost use Rattle.wh_host.specs.Backing.{KeepsBacking};
ghost use Rattle.wh_host.specs.CallRequests.{AnswersCall, AnswersInvoke};
ghost use Rattle.wh_host.specs.declared.counts.HostCounts.{HostCounts};
ghost use Rattle.wh_host.specs.HostCounting.{counts_after_cancel};
ghost use Rattle.wh_host.specs.Hosting.{HostState};
ghost use Rattle.wh_host.specs.Loading.{AnswersLoad};
ghost use Rattle.wh_host.specs.Paging.{MovesOnly};
ghost use Rattle.wh_host.specs.Releasing.{AnswersRelease};
ghost use Rattle.wh_host.specs.Requests.{LeadsByRequest};

use crate::error::{HostError, ModuleError};
use crate::host::Host;
use crate::parts::ModuleId;
use std::alloc::Global;
use wh_admit::{AdmitError, Params};
use wh_space_model::InstId;

// Names what only this crate can name, so that no other implements `Request`.
pub(crate) mod sealed {
    /// Is a request of this crate.
    pub trait Sealed {}
}

/// Is what an owner asks of a host. Nobody outside this crate implements it: whoever may ask is lent the host.
pub trait Request: sealed::Sealed {
    /// What the host answers.
    type Answer;

    /// Why it doesn't do what is asked.
    type Error;

    /// What the answer says of the host before and of the one after.
    ghost asks: { Self → HostState → Result Self.Answer Self.Error → HostState → Type 0 };

    /// What is counted then, by the host before and the one after.
    ghost counted: { Self → HostState → HostState → HostCounts };

    /// Asks it of a host.
    ///
    /// # Errors
    /// Those of the request. The host is as it was then.
    fn ask(self, host: &mut Host) -> Result<Self::Answer, Self::Error>
        ensures asks { asks self host.old result host.new }
        ensures err { OnErr result (host.new ≡ host.old) }
        ensures backing { KeepsBacking host.old.space host.new.space }
        ensures counts { OnOk result (host.new.counts ≡ counted self host.old host.new) };

    /// It is a request that the definitions know.
    ghost leads: { (request : Self) (h : HostState) (answer : Result Self.Answer Self.Error)
        (h2 : HostState) → asks request h answer h2 → LeadsByRequest h h2 };
}

/// Asks for the module that `bytes` spell to be kept, and these. The answer is its number, from 0.
#[derive(Clone, Copy)]
pub struct Load<'a> {
    /// Where memory comes from.
    pub alloc: Global,
    /// The module's bytes.
    pub bytes: &'a [u8],
}

impl sealed::Sealed for Load<'_> {}

impl Request for Load<'_> {
    type Answer = ModuleId;

    type Error = ModuleError;

    ghost asks = { λ r h answer h2. AnswersLoad h r.bytes.now answer h2 };

    ghost counted = { λ r h h2. h.counts };

    fn ask(self, host: &mut Host) -> Result<ModuleId, ModuleError> {
        host.load(self.alloc, self.bytes)
    }

    ghost leads = { λ r h answer h2 asked w is.
        let x = asked w is in (load r.bytes.now, x.1, tt, (x.0, x.3), x.4) };
}

/// Asks for an instance of a module to be admitted with `params`. All that it will ever need is reserved then.
#[derive(Drop)]
pub struct Admit {
    /// Where memory comes from.
    pub alloc: Global,
    /// The module.
    pub of: ModuleId,
    /// What the instance is given.
    pub params: Params,
}

impl sealed::Sealed for Admit {}

impl Request for Admit {
    type Answer = InstId;

    type Error = AdmitError;

    ghost asks = { λ r h answer h2. AnswersAdmit h r.of.number (view_params r.params) answer h2
        × IfOk answer (λ id. (size : ℕ) × Enters h.space id.place
        (promised id.number (view_params r.params)) size h2.space) };

    ghost counted = { λ r h h2. h.counts };

    fn ask(self, host: &mut Host) -> Result<InstId, AdmitError> {
        host.admit(self.alloc, self.of, self.params)
    }

    ghost leads = { λ r h answer h2 asked w is. let x = asked.0 w is in
        (admit r.of.number (view_params r.params), x.1, tt, (x.0, x.3), x.4) };
}

/// Asks for a call of the function that an instance's module exports as `name`, after the open calls. The answer is its
/// place in the instance's journal, where the start is 0.
#[derive(Clone, Copy)]
pub struct Invoke<'a> {
    /// Where memory comes from.
    pub alloc: Global,
    /// The instance.
    pub id: InstId,
    /// The function's name.
    pub name: &'a str,
    /// The arguments: each a number, signed or unsigned, in the bits of its type.
    pub given: &'a [i128],
    /// How many charges the call may take.
    pub fuel: u64,
}

impl sealed::Sealed for Invoke<'_> {}

impl Request for Invoke<'_> {
    type Answer = u32;

    type Error = HostError;

    ghost asks = { λ r h answer h2.
        AnswersInvoke h r.id r.name.now r.given.now r.fuel answer h2 };

    ghost counted = { λ r h h2. h.counts };

    fn ask(self, host: &mut Host) -> Result<u32, HostError> {
        host.invoke(self.alloc, self.id, self.name, self.given, self.fuel)
    }

    ghost leads = { λ r h answer h2 asked w is. let x = asked w is in
        (invoke r.id r.name.now r.given.now r.fuel, x.1, tt, (x.0, x.3), x.4) };
}

/// Asks for `fuel` to be added to the present call of an instance.
#[derive(Clone, Copy)]
pub struct Refuel {
    /// The instance.
    pub id: InstId,
    /// How many charges more the call may take.
    pub fuel: u64,
}

impl sealed::Sealed for Refuel {}

impl Request for Refuel {
    type Answer = ();

    type Error = HostError;

    ghost asks = { λ r h answer h2.
        AnswersCall h (λ w a w2. IsRefuel w r.id r.fuel a w2) answer h2 × (h2.space ≡ h.space) };

    ghost counted = { λ r h h2. h.counts };

    fn ask(self, host: &mut Host) -> Result<(), HostError> {
        host.refuel(self.id, self.fuel)
    }

    ghost leads = { λ r h answer h2 asked w is.
        let x = asked.0 w is in (refuel r.id r.fuel, x.1, tt, (x.0, x.3), x.4) };
}

/// Asks for the present call of an instance to be cancelled where it is; what it has written stays.
#[derive(Clone, Copy)]
pub struct Cancel {
    /// The instance.
    pub id: InstId,
}

impl sealed::Sealed for Cancel {}

impl Request for Cancel {
    type Answer = ();

    type Error = HostError;

    ghost asks = { λ r h answer h2. AnswersCall h (λ w a w2. IsCancel w r.id a w2) answer h2
        × OnOk answer (h2.space ≡ ended h.space r.id.place) };

    ghost counted = { λ r h h2. counts_after_cancel h r.id h2 };

    fn ask(self, host: &mut Host) -> Result<(), HostError> {
        host.cancel(self.id)
    }

    ghost leads = { λ r h answer h2 asked w is.
        let x = asked.0 w is in (cancel r.id, x.1, tt, (x.0, x.3), x.4) };
}

/// Asks for the present call of an instance to be tried again, if it waits for a device: then it waits for a frame.
#[derive(Clone, Copy)]
pub struct Retry {
    /// The instance.
    pub id: InstId,
}

impl sealed::Sealed for Retry {}

impl Request for Retry {
    type Answer = ();

    type Error = HostError;

    ghost asks = { λ r h answer h2.
        AnswersCall h (λ w a w2. IsRetry w r.id a w2) answer h2 × (h2.space ≡ h.space) };

    ghost counted = { λ r h h2. h.counts };

    fn ask(self, host: &mut Host) -> Result<(), HostError> {
        host.retry(self.id)
    }

    ghost leads = { λ r h answer h2 asked w is.
        let x = asked.0 w is in (retry r.id, x.1, tt, (x.0, x.3), x.4) };
}

/// Asks for an instance to be released, whatever its calls are. The answer is its output.
#[derive(Clone, Copy)]
pub struct Release {
    /// Where memory comes from.
    pub alloc: Global,
    /// The instance.
    pub id: InstId,
}

impl sealed::Sealed for Release {}

impl Request for Release {
    type Answer = Vec<u8>;

    type Error = HostError;

    ghost asks = { λ r h answer h2. AnswersRelease h r.id answer h2
        × OnOk answer (Exits h.space r.id.place h2.space) };

    ghost counted = { λ r h h2. h.counts };

    fn ask(self, host: &mut Host) -> Result<Vec<u8>, HostError> {
        host.release(self.alloc, self.id)
    }

    ghost leads = { λ r h answer h2 asked w is.
        let x = asked.0 w is in (release r.id, x.1, tt, (x.0, x.3), x.4) };
}

/// Asks for a new epoch to begin: no page is marked as touched then. It is never refused.
#[derive(Clone, Copy)]
pub struct BeginEpoch;

impl sealed::Sealed for BeginEpoch {}

impl Request for BeginEpoch {
    type Answer = ();

    type Error = HostError;

    ghost asks = { λ _ h answer h2. IsOk answer × MovesOnly h h2 × Epochs h.space h2.space };

    ghost counted = { λ r h h2. h.counts };

    fn ask(self, host: &mut Host) -> Result<(), HostError> {
        host.epoch();
        Ok(())
    }

    ghost leads = { λ _ h answer h2 asked w is.
        let x = asked.1 w is in (epoch, x.0, tt, x.1, x.2) };
}
