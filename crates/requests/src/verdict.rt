ghost use Rattle.std.specs.Prelude.{◌≡◌, ◌⊎◌, length, map, All, IsTrue, IfOk, IfErr, false};
ghost use Rattle.httparse.specs.Spans.{IsHeaderWithin, header_bytes};
ghost use Rattle.labels.specs.Tenants.{is_tenant};
ghost use Rattle.requests.specs.Fields.{values_of};
ghost use Rattle.requests.specs.Verdicts.{is_json_type, path_of, verdict_of_content, verdict_of_tenants, tenants_of, IsFoundVerdict, IsVerdict, asks_close};

use crate::fields::{Found, before, find, has_field, has_word, is_same_word, trim_spaces};
use crate::fixed::FixedAnswer;
use crate::route::{Endpoint, Route};
use httparse::spans::HeaderSpan;
use labels::{LabelFault, Tenant};
use std::alloc::Global;
use std::str;

/// What a whole request is.
#[derive(Drop)]
pub enum Verdict {
    /// It has a fixed answer.
    Fixed(FixedAnswer),
    /// It asks for calls of this tenant.
    Call(Route, Tenant),
    /// It asks for calls, and there was no memory for its tenant.
    NoMemory,
}

fn is_json_type(value: &[u8]) -> bool
    ensures { result ≡ is_json_type value.now }
{
    is_same_word(trim_spaces(before(value, b';')), b"application/json")
}

/// The tests after those of the tenant.
fn verdict_of_content(bytes: &[u8], fields: &[HeaderSpan], call: Verdict) -> Verdict
    requires { All (IsHeaderWithin (length bytes.now)) fields.now }
    ensures { result ≡ verdict_of_content call (map (header_bytes bytes.now) fields.now) }
{
    if has_field(bytes, fields, b"content-encoding") {
        return Verdict::Fixed(FixedAnswer::ContentEncoding);
    }
    match find(bytes, fields, b"content-type") {
        Found::One(value) if is_json_type(value) => call,
        _ => Verdict::Fixed(FixedAnswer::ContentType),
    }
}

/// The tenant of this name, where it is lawful.
fn tenant_of(alloc: Global, name: &[u8]) -> Result<Tenant, LabelFault>
    ensures ok { IfOk result (λ tenant. (tenant ≡ name.now) × IsTrue (is_tenant name.now)) }
    ensures bad { IfErr result (λ e. ((e ≡ LabelFault.BadTenant) × (is_tenant name.now ≡ false))
        ⊎ ((e ≡ LabelFault.Memory) × IsTrue (is_tenant name.now))) }
{
    match str::from_utf8(name) {
        Ok(text) => Tenant::new(alloc, text),
        Err(_) => Err(LabelFault::BadTenant),
    }
}

/// The tests from the tenant's on.
fn verdict_of_tenants(alloc: Global, bytes: &[u8], fields: &[HeaderSpan], route: Route) -> Verdict
    requires { All (IsHeaderWithin (length bytes.now)) fields.now }
    ensures { let all = map (header_bytes bytes.now) fields.now in IsFoundVerdict
        (verdict_of_tenants route (tenants_of all) all) result }
{
    let name = match find(bytes, fields, b"x-scope-orgid") {
        Found::Nothing => return Verdict::Fixed(FixedAnswer::NoOrgId),
        Found::Many => return Verdict::Fixed(FixedAnswer::BadTenant),
        Found::One(name) => name,
    };
    if name.is_empty() {
        return Verdict::Fixed(FixedAnswer::NoOrgId);
    }
    match tenant_of(alloc, name) {
        Ok(tenant) => verdict_of_content(bytes, fields, Verdict::Call(route, tenant)),
        Err(LabelFault::Memory) => verdict_of_content(bytes, fields, Verdict::NoMemory),
        Err(_) => Verdict::Fixed(FixedAnswer::BadTenant),
    }
}

/// What a request is that has this method, this target and these fields of the head in `bytes`.
pub(crate) fn verdict_of(
    alloc: Global,
    bytes: &[u8],
    fields: &[HeaderSpan],
    method: &[u8],
    target: &[u8],
) -> Verdict
    requires { All (IsHeaderWithin (length bytes.now)) fields.now }
    ensures { IsVerdict method.now target.now (map (header_bytes bytes.now) fields.now) result }
{
    let Some(endpoint) = Endpoint::find(before(target, b'?')) else {
        return Verdict::Fixed(FixedAnswer::NotFound);
    };
    let allowed = endpoint.method();
    if method != allowed.text() {
        return Verdict::Fixed(FixedAnswer::MethodNotAllowed(allowed));
    }
    match endpoint {
        Endpoint::Ready => Verdict::Fixed(FixedAnswer::Ready),
        Endpoint::Call(route) => verdict_of_tenants(alloc, bytes, fields, route),
    }
}

/// Whether the connection is to end after the answer to a request of this version and these fields.
pub(crate) fn asks_close(bytes: &[u8], fields: &[HeaderSpan], minor: u8) -> bool
    requires { All (IsHeaderWithin (length bytes.now)) fields.now }
    ensures { result ≡ asks_close minor (map (header_bytes bytes.now) fields.now) }
{
    minor == 0 || has_word(bytes, fields, b"connection", b"close")
}
