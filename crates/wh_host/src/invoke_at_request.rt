//! What an owner asks of a host to have a function called by its place among the exports.

ghost use Rattle.std.specs.Prelude.{◌≡◌, refl};
ghost use Rattle.wh_host_model.specs.Host.Events.{invoke};
ghost use Rattle.wh_space_model.specs.declared.plain.InstId.{InstId};
ghost use Rattle.wh_host.specs.CallRequests.{AnswersInvokeAt};

use crate::call_request::CallRequest;
use crate::error::HostError;
use crate::host::Host;
use crate::request::{Request, sealed};
use std::alloc::Global;
use wh_space_model::InstId;

/// Asks for a call as `Invoke` does, of the function at a place of those that an instance's module exports. The answer is the
/// call's place in the instance's journal, where the start is 0.
#[derive(Clone, Copy)]
pub struct InvokeAt<'a> {
    /// Where memory comes from.
    pub alloc: Global,
    /// The instance.
    pub id: InstId,
    /// The function's place, from 0 on.
    pub at: usize,
    /// The arguments: each a number, signed or unsigned, in the bits of its type.
    pub given: &'a [i128],
    /// How many charges the call may take.
    pub fuel: u64,
}

impl sealed::Sealed for InvokeAt<'_> {}

impl Request for InvokeAt<'_> {
    type Answer = u32;

    type Error = HostError;

    ghost asks = { λ r h answer h2. AnswersInvokeAt h r.id r.at r.given.now r.fuel answer h2 };

    ghost counted = { λ r h h2. h.counts };

    fn ask(self, host: &mut Host) -> Result<u32, HostError> {
        host.invoke_at(self.alloc, self.id, self.at, self.given, self.fuel)
    }

    ghost leads = { λ r h answer h2 asked w is. let x = asked w is in
        (invoke r.id x.0 r.given.now r.fuel, x.3, tt, (x.2, x.5), x.6) };
}

impl CallRequest for InvokeAt<'_> {
    ghost instance = { λ r. r.id };

    fn id(&self) -> InstId {
        self.id
    }

    ghost concerns = { λ r h answer h2 asked w is. let x = asked w is in
        (invoke r.id x.0 r.given.now r.fuel, x.3, refl, (x.2, x.5), x.6) };
}
