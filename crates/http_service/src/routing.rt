//! Finds what a request asks for by its method and its target.
ghost use Rattle.std.specs.Prelude.{◌≡◌, [], IfOk, OnErr, IsTrue, bytes_eq};
ghost use Rattle.percent_encoding.specs.Percent.{percent_decode};
ghost use Rattle.http_replies.specs.site.Inputs.{input_of};
ghost use Rattle.http_service.specs.Routes.{asked_by, has_id, only, plain_route, policy_route, route_stated};

use crate::path::{path_of, segment_of};
use crate::route::Route;
use http::{Method, StatusCode};
use http_replies::Input;
use percent_encoding::percent_decode;
use plain::NoMemory;

/// Returns whether `bytes` are the method `method`.
fn is_method(bytes: &[u8], method: &Method) -> bool
    ensures { result ≡ bytes_eq bytes.now method.now }
{
    bytes == method.as_str().as_bytes()
}

/// Returns the route with `input` if `method` is `wanted`, the only method of its path, else 405.
#[tactic(auto, unfolding(crate::specs::Routes::only))]
fn only<'a>(wanted: &Method, method: &[u8], input: Input<'a>) -> Route<'a>
    ensures { asked_by result ≡ only wanted.now method.now (input_of input.entry) }
{
    if is_method(method, wanted) {
        Route::Input(input)
    } else {
        Route::Status(StatusCode::METHOD_NOT_ALLOWED)
    }
}

/// Returns the route of a path that does not name a policy.
#[tactic(auto, unfolding(crate::specs::Routes::plain_route))]
fn plain_route<'a>(method: &[u8], path: &[u8], body: &'a [u8]) -> Route<'a>
    ensures { asked_by result ≡ plain_route method.now path.now body.now }
{
    if path == b"/v1/authorize".as_slice() {
        return only(&Method::POST, method, Input::Authorize(body));
    }
    if path == b"/v1/entities".as_slice() {
        return only(&Method::PUT, method, Input::PutEntity(body));
    }
    if path == b"/v1/entities/delete".as_slice() {
        return only(&Method::POST, method, Input::DeleteEntity(body));
    }
    if path == b"/v1/state".as_slice() {
        return only(&Method::GET, method, Input::State);
    }
    if path == b"/v1/summary".as_slice() {
        return only(&Method::GET, method, Input::Summary);
    }
    if path == b"/v1/delta".as_slice() {
        return only(&Method::POST, method, Input::Delta(body));
    }
    if path == b"/v1/merge".as_slice() {
        return only(&Method::POST, method, Input::Take(body));
    }
    Route::Status(StatusCode::NOT_FOUND)
}

/// Appends the percent-decoded id of a segment to `id`, which is empty, and returns all of it.
fn decoded<'a>(id: &'a mut Vec<u8>, segment: &[u8]) -> Result<&'a [u8], NoMemory>
    requires { id.old.items ≡ [] }
    ensures { IfOk result (λ bytes. bytes.now ≡ percent_decode segment.now) }
{
    id.reserve(segment.len())?;
    percent_decode(segment).append_to(id)?;
    Ok(id.as_slice())
}

/// Returns the route of a method for the policy that a segment names. Allocates only for a method that the path of a
/// policy has.
#[tactic(auto, unfolding(crate::specs::Routes::policy_route))]
fn policy_route<'a>(
    method: &[u8],
    segment: &[u8],
    body: &'a [u8],
    id: &'a mut Vec<u8>,
) -> Result<Route<'a>, NoMemory>
    requires { id.old.items ≡ [] }
    ensures route { IfOk result
        (λ r. asked_by r ≡ policy_route method.now (percent_decode segment.now) body.now) }
    ensures memory { OnErr result
        (IsTrue (has_id (policy_route method.now (percent_decode segment.now) body.now))) }
{
    if is_method(method, &Method::GET) {
        let id = decoded(id, segment)?;
        return Ok(Route::Input(Input::GetPolicy(id)));
    }
    if is_method(method, &Method::PUT) {
        let id = decoded(id, segment)?;
        return Ok(Route::Input(Input::PutPolicy(id, body)));
    }
    if is_method(method, &Method::DELETE) {
        let id = decoded(id, segment)?;
        return Ok(Route::Input(Input::DeletePolicy(id)));
    }
    Ok(Route::Status(StatusCode::METHOD_NOT_ALLOWED))
}

/// Returns what a request with this method, this target and this body asks for. The id of a policy is decoded into
/// `id`, which is empty before.
///
/// The path is the target up to its first question mark. The id of a policy is one segment, possibly empty, and is the
/// only part that is decoded. A percent sign with two hexadecimal digits is the byte of these digits; any other percent
/// sign is itself (RFC 3986, section 2.1). Methods are compared by their exact bytes (RFC 9110, section 9.1).
///
/// # Errors
///
/// - `NoMemory`: the id of a policy could not be allocated. For a route without an id nothing is allocated.
#[tactic(auto, unfolding(crate::specs::Routes::route_stated))]
pub fn route_of<'a>(
    method: &[u8],
    target: &[u8],
    body: &'a [u8],
    id: &'a mut Vec<u8>,
) -> Result<Route<'a>, NoMemory>
    requires { id.old.items ≡ [] }
    ensures route { IfOk result (λ r. asked_by r ≡ route_stated method.now target.now body.now) }
    ensures memory { OnErr result (IsTrue (has_id (route_stated method.now target.now body.now))) }
{
    let path = path_of(target);
    match segment_of(path) {
        Some(segment) => policy_route(method, segment, body, id),
        None => Ok(plain_route(method, path, body)),
    }
}
