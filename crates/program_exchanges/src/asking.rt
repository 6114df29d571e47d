//! The calls of an exchange: one request each, and its reply.
ghost use Rattle.std.specs.Prelude.{◌≡◌, ◌≢◌, ◌≤◌, Err, IfOk, OnErr, IsTrue};
ghost use Rattle.http_streams.specs.Parts.{is_host};
ghost use Rattle.schema_decisions.specs.answer_lines.declared.refusal.Refusal.{Refusal};
ghost use Rattle.schema_decisions.specs.answer_lines.Refusals.{no_memory};
ghost use Rattle.program_exchanges.specs.declared.fault.NetworkFault.{NetworkFault};
ghost use Rattle.program_exchanges.specs.Requests.{call_body, call_method, call_path, call_request, call_size};
ghost use Rattle.program_exchanges.specs.Exchanges.{IsAnswered, IsUnanswered, IsRequestBegun, ReportsNoHost};
ghost use Rattle.program_exchanges.specs.Exchanges.{ReportsTooLarge};
ghost use Rattle.program_exchanges.specs.inner.Faults.{pull_fault};

use crate::fault::{NetworkFault, PullFault};
use http::{Method, StatusCode};
use http_streams::fetch::{FetchFault, fetch};
use http_streams::{Ask, MAX_BODY, Sink, Source, is_host};
use plain::NoMemory;
use schema_decisions::Refusal;
use std::alloc::Global;

/// Returns the error of a fetch as the error of a pull.
fn pull_fault(fault: FetchFault) -> PullFault
    ensures { result ≡ pull_fault fault }
{
    match fault {
        FetchFault::NoMemory => PullFault::from(NoMemory),
        _ => PullFault::Network(NetworkFault::Fetch(fault)),
    }
}

/// A call of an exchange.
#[derive(Clone, Copy)]
pub enum ExchangeCall {
    /// The site's summary: `GET /v1/summary`.
    Summary,
    /// A delta against a summary: `POST /v1/delta`.
    Delta,
    /// The merge of a message: `POST /v1/merge`.
    Merge,
}

/// Returns the method of a call.
fn call_method(call: ExchangeCall) -> Method
    ensures { result ≡ call_method call }
{
    match call {
        ExchangeCall::Summary => Method::GET,
        ExchangeCall::Delta => Method::POST,
        ExchangeCall::Merge => Method::POST,
    }
}

/// Returns the path of a call.
fn call_path(call: ExchangeCall) -> &'static [u8]
    ensures { result.now ≡ call_path call }
{
    match call {
        ExchangeCall::Summary => b"/v1/summary",
        ExchangeCall::Delta => b"/v1/delta",
        ExchangeCall::Merge => b"/v1/merge",
    }
}

/// Returns the body that a call sends: `body`, or `None` if the call asks for a summary.
fn call_body(call: ExchangeCall, body: &[u8]) -> Option<&[u8]>
    ensures { result ≡ call_body call body.entry }
{
    match call {
        ExchangeCall::Summary => None,
        ExchangeCall::Delta => Some(body),
        ExchangeCall::Merge => Some(body),
    }
}

/// Returns the length in bytes of the body that a call sends: 0 if the call sends none.
fn call_size(call: ExchangeCall, body: &[u8]) -> usize
    ensures { result ≡ call_size call body.now }
{
    match call {
        ExchangeCall::Summary => 0,
        ExchangeCall::Delta => body.len(),
        ExchangeCall::Merge => body.len(),
    }
}

/// Makes one call to a site over a reader and a writer, and returns the body of the reply, whose status is 200.
///
/// `host` is the value of the field `Host`. `body` is the summary or the message that the call sends; a call for a
/// summary sends no body. After an error a prefix of the request was sent, possibly empty or whole.
///
/// # Errors
///
/// - `Network(NoHost)` (75): `host` is not a host. Nothing was sent.
/// - `Network(TooLarge)` (77): the body is longer than the 8,388,608 bytes that a site accepts. Nothing was sent.
/// - `Refused` with code 1: out of memory, at any point.
/// - `Network` (70 to 74): the network failed, or the reply has a status other than 200.
pub fn ask<R: Source, W: Sink>(
    alloc: Global,
    call: ExchangeCall,
    host: &[u8],
    body: &[u8],
    reader: &mut R,
    writer: &mut W,
) -> Result<Vec<u8>, PullFault>
    ensures answered { IfOk result (λ reply. IsAnswered R.left R.reads W.holds (call_request call host.now body.now)
        reader.old reader.new writer.old writer.new 200 reply.items) }
    ensures refused { (r : Refusal) → result ≡ Err (PullFault.Refused r) → r ≡ no_memory }
    ensures network { (f : NetworkFault) → result ≡ Err (PullFault.Network f)
        → IsUnanswered R.left R.reads R.failed R.fails W.holds W.failed W.fails (call_request call host.now body.now)
        reader.old reader.new writer.old writer.new f }
    ensures err { OnErr result (IsRequestBegun R.left W.holds (call_request call host.now body.now) reader.old
        reader.new writer.old writer.new) }
    ensures host { IfOk result (λ _. IsTrue (is_host host.now)) }
    ensures no_host { (f : NetworkFault) → result ≡ Err (PullFault.Network f) → ReportsNoHost host.now f }
    ensures fits { IfOk result (λ _. call_size call body.now ≤ MAX_BODY) }
    ensures too_large { (f : NetworkFault) → result ≡ Err (PullFault.Network f)
        → ReportsTooLarge host.now (call_size call body.now) f }
    ensures reads { result ≢ Err (PullFault.Network (NetworkFault.Fetch FetchFault.Read))
        → R.failed reader.new ≡ R.failed reader.old }
    ensures writes { result ≢ Err (PullFault.Network (NetworkFault.Fetch FetchFault.Write))
        → W.failed writer.new ≡ W.failed writer.old }
{
    if !is_host(host) {
        return Err(PullFault::Network(NetworkFault::NoHost));
    }
    let size = call_size(call, body);
    if size > MAX_BODY {
        return Err(PullFault::Network(NetworkFault::TooLarge));
    }
    let method = call_method(call);
    let ask = Ask {
        method: &method,
        host,
        path: call_path(call),
        body: call_body(call, body),
    };
    match fetch(alloc, reader, writer, &ask) {
        Ok((status, reply)) => {
            if status == StatusCode::OK.as_u16() {
                return Ok(reply);
            }
            Err(PullFault::Network(NetworkFault::OtherStatus(status)))
        }
        Err(fault) => Err(pull_fault(fault)),
    }
}
