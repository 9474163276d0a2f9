//! What the front answers by itself.

ghost use Rattle.std.specs.Prelude.{◌≡◌, [], OnOk};
ghost use Rattle.http_server.specs.Response.{fields_of};
ghost use Rattle.wh_front.specs.Faults.{IsFrontFault};

use bytes::Bytes;
use http::{HeaderName, HeaderValue, StatusCode};
use http_server::Response;
use std::alloc::AllocError;

/// The body where the path names no resource.
pub const NO_RESOURCE: &str = "{\"fault\":\"R1\",\"message\":\"no such resource\"}";

/// The body where the resource wants a token, and none that is good was given.
pub const NO_TOKEN: &str = "{\"fault\":\"R2\",\"message\":\"no good token\"}";

/// The body where the resource is for operators, and a tenant asks.
pub const OTHER_TOKEN: &str = "{\"fault\":\"R3\",\"message\":\"not for this token\"}";

/// The body where the method isn't one of the resource's.
pub const NO_METHOD: &str = "{\"fault\":\"R4\",\"message\":\"no such method\"}";

/// Fills a response that has no body: the status, a field that says the body is JSON, and the body.
///
/// # Errors
/// For memory alone. The response may have a part of it then.
pub fn fill_fault(
    response: &mut Response,
    status: StatusCode,
    body: &'static str,
) -> Result<(), AllocError>
    requires { response.old.body.items ≡ [] }
    ensures { OnOk result (IsFrontFault status (fields_of response.old) body.now response.new) }
{
    let kind = HeaderValue::from_static("application/json");
    response.add_header(HeaderName::from_static("content-type"), kind)?;
    response.status = status;
    response.body.push(Bytes::from_static(body.as_bytes()))
}
