//! The command `exchange`: one round between two running sites, in both directions.
ghost use Rattle.std.specs.Prelude.{◌≡◌, ◌<◌, Err, IfErr, IfOk, MatchResult, Ok, OnOk, string_bytes, true};
ghost use Rattle.std.specs.Process.{exit_status};
ghost use Rattle.program_exchanges.specs.Counts.{IsTakenLine};
ghost use Rattle.program_exchanges.specs.declared.fault.PullFault.{PullFault};
ghost use Rattle.program.specs.declared.device.Stream.TheVariants.{Answers};
ghost use Rattle.program.specs.Events.{Runs, wrote};
ghost use Rattle.program.specs.Exchanging.{CallsOver, Calls, Direction, IsCallErrorReported, IsCallReported};
ghost use Rattle.program.specs.Exchanging.{IsExchanged, IsExchangeRun, IsRound, WritesTaken, call_report, call_text};
ghost use Rattle.program.specs.Exchanging.{fault_text};
ghost use Rattle.program.specs.Exchanging.{status_text};
ghost use Rattle.program.specs.Reports.{ended};
ghost use Rattle.program.specs.inner.ExchangeEvents.{IsReplied, IsRepliedOver, Never, NoCourse, WasExchanged};

use crate::device::{Link, NetworkFailed, Stream, StreamFailed};
use crate::host::Host;
use crate::reading::read_file;
use crate::report::{ANSWERED, FAILED, report_failure, report_memory, report_refusal};
use plain::NoMemory;
use program_exchanges::{ExchangeCall, FetchFault, NetworkFault, PullFault, ask, is_taken_line};
use program_lines::ExchangeOptions;
use site_loading::parse_schema;
use std::alloc::Global;
use std::process::ExitCode;

/// One of the six calls of a round.
#[derive(Clone, Copy)]
pub(crate) struct RoundCall<'a> {
    /// The number of the call in the round, 1 to 6.
    pub(crate) number: u8,
    /// The kind of the request.
    pub(crate) call: ExchangeCall,
    /// The address of the called site.
    pub(crate) address: &'a str,
}

/// The reason why a call of a round failed.
#[derive(Clone, Copy)]
pub(crate) enum CallFault {
    /// No connection could be opened.
    NotReached,
    /// No reply of status 200 was received.
    Network(NetworkFault),
    /// The reply to a merge is not a count of updates, `{"taken":n}`.
    NoCount,
}

/// The status of the reply to a request that is larger than a site accepts.
const TOO_LARGE: u16 = 413;

/// Returns the method and the path of a call.
fn call_text(call: ExchangeCall) -> &'static str
    ensures { result.now ≡ call_text call }
{
    match call {
        ExchangeCall::Summary => "GET /v1/summary",
        ExchangeCall::Delta => "POST /v1/delta",
        ExchangeCall::Merge => "POST /v1/merge",
    }
}

/// Returns a copy of a text.
fn owned(alloc: Global, text: &str) -> Result<String, NoMemory>
    ensures { IfOk result (λ line. string_bytes line ≡ text.now) }
{
    format!(in alloc; "{text}")
}

/// Returns the text that reports a status other than 200 as the cause of a failed call.
#[tactic(auto, unfolding(crate::specs::Exchanging::status_text))]
fn status_text(alloc: Global, status: u16) -> Result<String, NoMemory>
    ensures { IfOk result (λ line. string_bytes line ≡ status_text status) }
{
    if status == TOO_LARGE {
        return owned(
            alloc,
            "status 413, larger than a site takes: merge both state files",
        );
    }
    format!(in alloc; "status {status}")
}

/// Returns the text that reports the cause of a failed call.
fn fault_text(alloc: Global, fault: CallFault) -> Result<String, NoMemory>
    ensures { IfOk result (λ line. string_bytes line ≡ fault_text fault) }
{
    match fault {
        CallFault::NotReached => owned(alloc, "no connection"),
        CallFault::NoCount => owned(alloc, "no count of updates"),
        CallFault::Network(NetworkFault::Fetch(FetchFault::Read)) => owned(alloc, "reading failed"),
        CallFault::Network(NetworkFault::Fetch(FetchFault::Write)) => owned(
            alloc,
            "writing failed",
        ),
        CallFault::Network(NetworkFault::Fetch(FetchFault::BadReply)) => owned(
            alloc,
            "no HTTP reply",
        ),
        CallFault::Network(NetworkFault::Fetch(FetchFault::Ended)) => owned(
            alloc,
            "closed before the reply ended",
        ),
        CallFault::Network(NetworkFault::Fetch(FetchFault::NoMemory)) => owned(
            alloc,
            "out of memory",
        ),
        CallFault::Network(NetworkFault::NoHost) => owned(alloc, "no host"),
        CallFault::Network(NetworkFault::TooLarge) => {
            owned(alloc, "larger than a site takes: merge both state files")
        }
        CallFault::Network(NetworkFault::OtherStatus(status)) => status_text(alloc, status),
    }
}

/// Returns the address, number and request of a failed call, and the cause.
#[tactic(auto, unfolding(crate::specs::Exchanging::call_report))]
fn call_report(alloc: Global, round_call: &RoundCall<'_>, why: &str) -> Result<String, NoMemory>
    ensures { IfOk result (λ line. string_bytes line ≡ call_report round_call.now why.now) }
{
    let address = round_call.address;
    let number = round_call.number;
    let asked = call_text(round_call.call);
    format!(in alloc; "{address}: call {number} of 6, {asked}: {why}")
}

/// Reports a failed call: writes a line with its address, number and request, and the cause, to standard error; if
/// memory runs out, writes the line of error 1 instead. Returns the status of the run.
fn report_call<H: Host>(
    alloc: Global,
    host: &mut H,
    round_call: &RoundCall<'_>,
    fault: CallFault,
) -> ExitCode
    ensures { Runs H.does host.old host.new (λ events.
        IsCallReported round_call.now fault events (exit_status result)) }
{
    let Ok(why) = fault_text(alloc, fault) else {
        return report_memory(host);
    };
    match call_report(alloc, round_call, why.as_str()) {
        Ok(line) => report_failure(host, line.as_str()),
        Err(_) => report_memory(host),
    }
}

/// Returns the body of the reply to a call. If there is no reply of status 200, reports why, and returns the status of
/// the run as the error. `Refused`, which [`ask`] returns only for out of memory, is reported as out of memory.
fn reply_or_end<H: Host>(
    alloc: Global,
    host: &mut H,
    round_call: &RoundCall<'_>,
    outcome: Result<Vec<u8>, PullFault>,
) -> Result<Vec<u8>, ExitCode>
    ensures reply { IfOk result (λ reply. outcome ≡ Ok reply) }
    ensures same { OnOk result (host.new ≡ host.old) }
    ensures told { IfErr result (λ end. (fault : PullFault) × (outcome ≡ Err fault)
        × Runs H.does host.old host.new (λ events. IsCallErrorReported round_call.now fault events (exit_status end))) }
{
    match outcome {
        Ok(reply) => Ok(reply),
        Err(PullFault::Network(fault)) => {
            Err(report_call(alloc, host, round_call, CallFault::Network(fault)))
        }
        Err(PullFault::Refused(_)) => Err(report_memory(host)),
    }
}

/// Makes a call over an open connection, closes the connection, and returns the body of the reply. If there is no reply
/// of status 200, reports why, and returns the status of the run as the error.
fn call_over<H: Host>(
    alloc: Global,
    host: &mut H,
    round_call: &RoundCall<'_>,
    body: &[u8],
    mut link: Link<H::Reader, H::Writer>,
) -> Result<Vec<u8>, ExitCode>
    ensures { MatchResult result
        (λ reply. Runs H.does host.old host.new
        (IsRepliedOver H.Reader.Source H.Writer.Sink round_call.now body.now link reply.items))
        (λ end. Runs H.does host.old host.new (λ events.
        CallsOver H.Reader.Source H.Writer.Sink round_call.now body.now Never link events (exit_status end))) }
{
    let address = round_call.address.as_bytes();
    let outcome = ask(
        alloc,
        round_call.call,
        address,
        body,
        &mut link.reader,
        &mut link.writer,
    );
    host.close(link);
    reply_or_end(alloc, host, round_call, outcome)
}

/// Makes a call over a new connection, and returns the body of the reply. If there is no reply of status 200, reports
/// why, and returns the status of the run as the error.
fn make_call<H: Host>(
    alloc: Global,
    host: &mut H,
    round_call: &RoundCall<'_>,
    body: &[u8],
) -> Result<Vec<u8>, ExitCode>
    ensures { MatchResult result
        (λ reply. Runs H.does host.old host.new
        (IsReplied H.Reader.Source H.Writer.Sink round_call.now body.now reply.items))
        (λ end. Runs H.does host.old host.new (λ events.
        Calls H.Reader.Source H.Writer.Sink round_call.now body.now Never events (exit_status end))) }
{
    match host.connect(round_call.address) {
        Ok(link) => call_over(alloc, host, round_call, body, link),
        Err(NetworkFailed) => Err(report_call(alloc, host, round_call, CallFault::NotReached)),
    }
}

/// Writes `line`, the reply to a merge, to standard output. If `line` is not `{"taken":n}`, reports an error instead.
/// In this case, and if writing fails, returns the status of the run as the error.
fn write_taken<H: Host>(
    alloc: Global,
    host: &mut H,
    round_call: &RoundCall<'_>,
    line: &[u8],
) -> Result<(), ExitCode>
    ensures { MatchResult result
        (λ _. IsTakenLine line.now × H.does host.old (wrote Answers (ended line.now) true) host.new)
        (λ end. Runs H.does host.old host.new (λ events.
        WritesTaken round_call.now line.now NoCourse events (exit_status end))) }
{
    if !is_taken_line(line) {
        return Err(report_call(alloc, host, round_call, CallFault::NoCount));
    }
    match host.write_line(Stream::Answers, "", line) {
        Ok(()) => Ok(()),
        Err(StreamFailed) => Err(ExitCode::from(FAILED)),
    }
}

/// Brings the site at `to` up to date from the one at `from` by three calls, numbered from `first`. Writes the last
/// reply, with its count of updates, to standard output. If a call fails, reports why. In this case, and if writing
/// fails, returns the status of the run as the error.
fn exchange<H: Host>(
    alloc: Global,
    host: &mut H,
    first: u8,
    to: &str,
    from: &str,
) -> Result<(), ExitCode>
    requires { first < 5 }
    ensures { MatchResult result
        (λ _. Runs H.does host.old host.new
        (WasExchanged H.Reader.Source H.Writer.Sink first to.entry from.entry))
        (λ end. Runs H.does host.old host.new (λ events.
        Direction H.Reader.Source H.Writer.Sink first to.entry from.entry NoCourse events (exit_status end))) }
{
    let summary_call = RoundCall {
        number: first,
        call: ExchangeCall::Summary,
        address: to,
    };
    let summary = match make_call(alloc, host, &summary_call, b"") {
        Ok(reply) => reply,
        Err(end) => return Err(end),
    };
    let delta_call = RoundCall {
        number: first + 1,
        call: ExchangeCall::Delta,
        address: from,
    };
    let delta = match make_call(alloc, host, &delta_call, &summary) {
        Ok(reply) => reply,
        Err(end) => return Err(end),
    };
    let merge_call = RoundCall {
        number: first + 2,
        call: ExchangeCall::Merge,
        address: to,
    };
    let line = match make_call(alloc, host, &merge_call, &delta) {
        Ok(reply) => reply,
        Err(end) => return Err(end),
    };
    write_taken(alloc, host, &merge_call, &line)
}

/// Brings each of two sites up to date from the other.
fn exchange_both<H: Host>(alloc: Global, host: &mut H, one: &str, other: &str) -> ExitCode
    ensures { Runs H.does host.old host.new (λ events.
        IsRound H.Reader.Source H.Writer.Sink one.entry other.entry events (exit_status result)) }
{
    if let Err(end) = exchange(alloc, host, 1, one, other) {
        return end;
    }
    match exchange(alloc, host, 4, other, one) {
        Ok(()) => ExitCode::from(ANSWERED),
        Err(end) => end,
    }
}

/// Checks the schema, and then brings each of the two sites up to date from the other.
fn exchange_under<H: Host>(
    alloc: Global,
    host: &mut H,
    options: &ExchangeOptions<'_>,
    schema: &[u8],
) -> ExitCode
    ensures { Runs H.does host.old host.new (λ events.
        IsExchanged H.Reader.Source H.Writer.Sink options.now schema.now events (exit_status result)) }
{
    match parse_schema(alloc, schema) {
        Ok(schema) => {
            drop(schema);
            exchange_both(alloc, host, options.between, options.and)
        }
        Err(refusal) => report_refusal(alloc, host, refusal),
    }
}

/// Reads the schema, and then brings each of two running sites up to date from the other.
pub(crate) fn run_exchange<H: Host>(
    alloc: Global,
    host: &mut H,
    options: &ExchangeOptions<'_>,
) -> ExitCode
    ensures { Runs H.does host.old host.new (λ events.
        IsExchangeRun H.Reader.Source H.Writer.Sink options.now events (exit_status result)) }
{
    match read_file(host, options.schema) {
        Ok(schema) => exchange_under(alloc, host, options, &schema),
        Err(end) => end,
    }
}
