//! Who asks.

ghost use Rattle.std.specs.Prelude.{IfSome, IfNone};
ghost use Rattle.wh_tokens.specs.declared.grants.Who.{Who};
ghost use Rattle.wh_front.specs.Askers.{IsFrom};

use bytes::Bytes;
use http::Request;
use wh_tokens::{Grant, Who, bearer_token, who_has};

/// Returns who asks: whose the token is that the request's first `Authorization` field carries. `None` where it has no
/// such field, the field carries no token, or nobody has the token.
pub fn who_asks(grants: &[Grant], request: &Request<Bytes>) -> Option<Who>
    ensures some { IfSome result (λ who. IsFrom grants.now request.now who) }
    ensures none { IfNone result ((who : Who) → ¬ (IsFrom grants.now request.now who)) }
{
    let Some(field) = request.headers().get("authorization") else {
        return None;
    };
    let Some(token) = bearer_token(field.as_bytes()) else {
        return None;
    };
    who_has(grants, token)
}
