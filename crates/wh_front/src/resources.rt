//! What answers behind the front.

ghost use Rattle.std.specs.Prelude.{◌≡◌, ℕ, List, Option, OnErr, OnOk};
ghost use Rattle.http.specs.declared.request.Request.{Request};
ghost use Rattle.http_server.specs.declared.response.Response.{Response};
ghost use Rattle.http_server.specs.Response.{IsBlank};
ghost use Rattle.wh_routes.specs.declared.route.Route.{Route};
ghost use Rattle.wh_tokens.specs.declared.grants.Who.{Who};

use bytes::Bytes;
use http::Request;
use http_server::Response;
use std::alloc::AllocError;
use wh_routes::Route;
use wh_tokens::Who;

/// Answers requests for the resources of a service.
pub trait Resources {
    // From the first state, the response answers the request of who asks for the resource, and leaves the second state.
    ghost answers: { Self → Option Who → Route → Request (List ℕ) → Response → Self → Type 0 };

    /// Fills the response, which comes as a 200 with no field and no body. The method is one of the resource's; who asks
    /// is told where the resource wants a token, and may ask for it.
    ///
    /// # Errors
    /// For memory alone. Nothing has changed then.
    fn answer(
        &mut self,
        who: Option<Who>,
        to: Route<'_>,
        request: &Request<Bytes>,
        response: &mut Response,
    ) -> Result<(), AllocError>
        requires { IsBlank response.old }
        ensures ok { OnOk result (answers self.old who to.entry request.now response.new self.new) }
        ensures err { OnErr result (self.new ≡ self.old) };
}
