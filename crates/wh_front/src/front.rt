//! The front: what it answers by itself, and what it hands on.

ghost use Rattle.std.specs.Prelude.{◌≡◌, OnErr, OnOk};
ghost use Rattle.http_server.specs.Response.{IsBlank};
ghost use Rattle.wh_front.specs.Access.{is_a_tenant};
ghost use Rattle.wh_front.specs.Faults.{IsFrontFault, bearer_fields, allow_fields};
ghost use Rattle.wh_front.specs.FrontAnswers.{ServesMethod, ServesPath};

use crate::access::{is_for_operators, is_open};
use crate::asking::who_asks;
use crate::faults::{NO_METHOD, NO_RESOURCE, NO_TOKEN, OTHER_TOKEN, fill_fault};
use crate::methods::{Methods, methods_of};
use crate::resources::Resources;
use bytes::Bytes;
use http::{HeaderName, HeaderValue, Request, StatusCode};
use http_server::{Response, Service};
use std::alloc::AllocError;
use wh_routes::{Route, find_route};
use wh_tokens::{Grant, Who};

/// Hands requests on to the resources that their paths name; answers those by itself that name none, have no good token,
/// ask for what isn't theirs, or have no method of the resource's. Tokens stay as they are.
#[derive(Drop)]
pub struct Front<R> {
    /// Whose tokens are good.
    pub grants: Vec<Grant>,
    /// What answers.
    pub resources: R,
}

// Whether who asks isn't an operator.
fn is_tenant(who: Who) -> bool
    ensures { result ≡ is_a_tenant who }
{
    match who {
        Who::Operator => false,
        Who::Tenant(_) => true,
    }
}

// Answers that no good token was given.
fn refuse_token(response: &mut Response) -> Result<(), AllocError>
    requires { IsBlank response.old }
    ensures { OnOk result (IsFrontFault 401 bearer_fields NO_TOKEN.now response.new) }
{
    let scheme = HeaderValue::from_static("Bearer");
    response.add_header(HeaderName::from_static("www-authenticate"), scheme)?;
    fill_fault(response, StatusCode::UNAUTHORIZED, NO_TOKEN)
}

// Answers that the resource has other methods.
fn refuse_method(response: &mut Response, methods: Methods) -> Result<(), AllocError>
    requires { IsBlank response.old }
    ensures { OnOk result (IsFrontFault 405 (allow_fields methods) NO_METHOD.now response.new) }
{
    response.add_header(HeaderName::from_static("allow"), methods.value())?;
    fill_fault(response, StatusCode::METHOD_NOT_ALLOWED, NO_METHOD)
}

// Hands a request on, if its method is one of the resource's.
fn answer_method<R: Resources>(
    resources: &mut R,
    who: Option<Who>,
    to: Route<'_>,
    request: &Request<Bytes>,
    response: &mut Response,
) -> Result<(), AllocError>
    requires { IsBlank response.old }
    ensures ok { OnOk result
        (ServesMethod R.answers resources.old who to.entry request.now response.new resources.new) }
    ensures err { OnErr result (resources.new ≡ resources.old) }
{
    let methods = methods_of(&to);
    if methods.has(request.method().as_str().as_bytes()) {
        return resources.answer(who, to, request, response);
    }
    refuse_method(response, methods)
}

impl<R: Resources> Service for Front<R> {
    ghost answers = { λ old request response new. (new.grants ≡ old.grants)
        × ServesPath R.answers old.grants.items old.resources request response new.resources };

    fn call(
        &mut self,
        request: &Request<Bytes>,
        response: &mut Response,
    ) -> Result<(), AllocError> {
        let Some(to) = find_route(request.uri().path().as_bytes()) else {
            return fill_fault(response, StatusCode::NOT_FOUND, NO_RESOURCE);
        };
        if is_open(&to) {
            return answer_method(&mut self.resources, None, to, request, response);
        }
        let Some(who) = who_asks(&self.grants, request) else {
            return refuse_token(response);
        };
        if is_for_operators(&to) && is_tenant(who) {
            return fill_fault(response, StatusCode::FORBIDDEN, OTHER_TOKEN);
        }
        answer_method(&mut self.resources, Some(who), to, request, response)
    }
}
