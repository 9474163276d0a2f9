//! What an owner asks about the calls of one instance.

ghost use Rattle.std.specs.Prelude.{◌≡◌, Result, refl};
ghost use Rattle.wh_host_model.specs.Host.Events.{cancel, invoke, refuel, retry};
ghost use Rattle.wh_space_model.specs.declared.plain.InstId.{InstId};
ghost use Rattle.wh_host.specs.Hosting.{HostState};
ghost use Rattle.wh_host.specs.Requests.{LeadsByCallRequest};

use crate::request::{Cancel, Invoke, Refuel, Request, Retry};
use wh_space_model::InstId;

/// Is what an owner asks about the calls of one instance: no other instance is changed, none comes and none goes.
pub trait CallRequest: Request {
    /// The instance.
    ghost instance: { Self → InstId };

    /// Returns the instance.
    fn id(&self) -> InstId
        ensures { result ≡ instance self.now };

    /// It is such a request for the definitions.
    ghost concerns: { (request : Self) (h : HostState) (answer : Result Self.Answer Self.Error)
        (h2 : HostState) → Self.asks request h answer h2
        → LeadsByCallRequest h (instance request) h2 };
}

impl CallRequest for Invoke<'_> {
    ghost instance = { λ r. r.id };

    fn id(&self) -> InstId {
        self.id
    }

    ghost concerns = { λ r h answer h2 asked w is. let x = asked w is in
        (invoke r.id r.name.now r.given.now r.fuel, x.1, refl, (x.0, x.3), x.4) };
}

impl CallRequest for Refuel {
    ghost instance = { λ r. r.id };

    fn id(&self) -> InstId {
        self.id
    }

    ghost concerns = { λ r h answer h2 asked w is.
        let x = asked.0 w is in (refuel r.id r.fuel, x.1, refl, (x.0, x.3), x.4) };
}

impl CallRequest for Cancel {
    ghost instance = { λ r. r.id };

    fn id(&self) -> InstId {
        self.id
    }

    ghost concerns = { λ r h answer h2 asked w is.
        let x = asked.0 w is in (cancel r.id, x.1, refl, (x.0, x.3), x.4) };
}

impl CallRequest for Retry {
    ghost instance = { λ r. r.id };

    fn id(&self) -> InstId {
        self.id
    }

    ghost concerns = { λ r h answer h2 asked w is.
        let x = asked.0 w is in (retry r.id, x.1, refl, (x.0, x.3), x.4) };
}
