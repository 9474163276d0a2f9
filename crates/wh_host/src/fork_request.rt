//! What an owner asks of a host to have an instance copied.

ghost use Rattle.std.specs.Prelude.{IfOk, OnErr};
ghost use Rattle.wh_params.specs.View.{view_quota};
ghost use Rattle.wh_host_model.specs.Host.Events.{fork};
ghost use Rattle.wh_space_model.specs.Forks.{Copies};
ghost use Rattle.wh_host.specs.ForkAnswers.{AnswersFork, claim_by};

use crate::host::Host;
use crate::request::{Request, sealed};
use std::alloc::Global;
use wh_admit::{ForkError, Quota};
use wh_space_model::InstId;

/// Asks for an instance without an open call to be copied, with a quota of its own. The answer is the copy.
#[derive(Clone, Copy)]
pub struct Fork {
    /// Where memory comes from.
    pub alloc: Global,
    /// The instance.
    pub id: InstId,
    /// How much of the host's memory the copy may have.
    pub quota: Quota,
}

impl sealed::Sealed for Fork {}

impl Request for Fork {
    type Answer = InstId;

    type Error = ForkError;

    ghost asks = { λ r h answer h2. AnswersFork h r.id (view_quota r.quota) answer h2
        × IfOk answer (λ copy. Copies h.space r.id.place copy.place
        (claim_by copy.number (view_quota r.quota)) h2.space) };

    ghost counted = { λ r h h2. h.counts };

    fn ask(self, host: &mut Host) -> Result<InstId, ForkError> {
        host.fork(self.alloc, self.id, self.quota)
    }

    ghost leads = { λ r h answer h2 asked w is. let x = asked.0 w is in
        (fork r.id (view_quota r.quota), x.1, tt, (x.0, x.3), x.4) };
}
