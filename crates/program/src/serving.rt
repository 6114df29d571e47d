//! The command `serve`: a served site, many connections at once.
ghost use Rattle.std.specs.Prelude.{◌≡◌, ◌∷◌, [], MatchResult, Ok, Err, Some, true, option_map};
ghost use Rattle.std.specs.Process.{exit_status};
ghost use Rattle.program_lines.specs.stamped_store.Stamping.{has_stamps_of};
ghost use Rattle.site_loading.specs.site.SiteViews.{store_in};
ghost use Rattle.program.specs.Events.{Runs};
ghost use Rattle.program.specs.Courses.{ClosesAfter, closing};
ghost use Rattle.program.specs.Serving.{AreServed, IsEnded, IsNotListening, IsServeRun, IsServedAt, IsServedFrom};
ghost use Rattle.program.specs.Serving.{IsServedIfListening, announced, clients_of, idle_of, limits_of, listening};
ghost use Rattle.program.specs.Serving.{own_stamps_line};
ghost use Rattle.program.specs.inner.Served.{IsWarned};

use crate::device::{NetworkFailed, Stream, StreamFailed};
use crate::host::Host;
use crate::initial_site::initial_site;
use crate::reading::{lent, read_file, read_if_named};
use crate::rejecting::{report_rejected, schema_given};
use crate::report::{ANSWERED, FAILED, report_failure, report_memory};
use connection_loop::limits::Limits;
use connection_loop::turn::LoopFault;
use program_drills::{ServingMemory, Site, serve_connections};
use program_lines::{ServeOptions, SiteName};
use std::alloc::Global;
use std::process::ExitCode;

/// The warning that the initial state has stamps of the site's name; the name follows it.
const OWN_STAMPS: &str = "warning: the state has stamps of this name, which is to be used once: ";

/// The greatest number of connections at once, if no other is given.
const CLIENTS: u16 = 64;

/// The time without a byte after which a connection is closed, in milliseconds, if no other is given.
const IDLE_MILLIS: u64 = 60_000;

/// Warns if the initial site has stamps of its own name: a name is to be used once, since stamps issued again under it
/// would identify other updates.
fn warn_of_own_stamps<H: Host>(host: &mut H, site: &Site, name: SiteName)
    ensures { Runs H.does host.old host.new (λ events.
        IsWarned (has_stamps_of name (store_in site.now)) (own_stamps_line name) events) }
{
    if !site.has_stamps_of(name) {
        return;
    }
    let _ = host.write_line(Stream::Faults, OWN_STAMPS, name.as_bytes());
}

/// Serves the initial site: warns if the site has stamps of its own name, opens the log, if one is named, and then
/// listens and serves.
fn serve_initial_site<H: Host>(
    alloc: Global,
    host: &mut H,
    options: &ServeOptions<'_>,
    site: Site,
) -> ExitCode
    ensures { Runs H.does host.old host.new (λ events.
        IsServedAt H.Log.Sink H.Sockets.Sockets options.now site events (exit_status result)) }
{
    warn_of_own_stamps(host, &site, options.site);
    match options.log {
        Some(name) => match host.open_log(name) {
            Ok(log) => serve_and_close(alloc, host, options, site, Some(log)),
            Err(_) => report_failure(host, name),
        },
        None => serve_and_close(alloc, host, options, site, None),
    }
}

/// Listens and serves, and then closes the log, if there is one.
fn serve_and_close<H: Host>(
    alloc: Global,
    host: &mut H,
    options: &ServeOptions<'_>,
    mut site: Site,
    mut log: Option<H::Log>,
) -> ExitCode
    ensures { Runs H.does host.old host.new (λ events.
        ClosesAfter (IsServedIfListening H.Log.Sink H.Sockets.Sockets options.now
        (record { site = site; log = log })) events (exit_status result)) }
{
    let end = serve_listening(alloc, host, options, &mut site, &mut log);
    close_log(host, log);
    end
}

/// Closes a log, if there is one.
fn close_log<H: Host>(host: &mut H, log: Option<H::Log>)
    ensures { Runs H.does host.old host.new (λ events. events ≡ closing log) }
{
    match log {
        Some(log) => host.close_log(log),
        None => {}
    }
}

/// Returns the greatest number of connections at once.
fn clients_of(given: Option<u16>) -> usize
    ensures { result ≡ clients_of given }
{
    usize::from(given.unwrap_or(CLIENTS))
}

/// Returns the milliseconds without a byte after which a connection is closed, of the seconds `given`; 0 seconds are no
/// limit.
fn idle_of(given: Option<u32>) -> Option<u64>
    ensures { result ≡ idle_of given }
{
    match given {
        None => Some(IDLE_MILLIS),
        Some(0) => None,
        Some(seconds) => Some(1_000 * u64::from(seconds)),
    }
}

/// Returns the limits that the options give.
fn limits_of(options: &ServeOptions<'_>) -> Limits
    ensures { result ≡ limits_of options.now }
{
    Limits {
        connections: options.connections.map(u64::from),
        idle: idle_of(options.idle),
    }
}

/// Allocates the memory for the connections, listens, prints the address, and serves as many connections as
/// `--connections` gives, if that option is present.
fn serve_listening<H: Host>(
    alloc: Global,
    host: &mut H,
    options: &ServeOptions<'_>,
    site: &mut Site,
    log: &mut Option<H::Log>,
) -> ExitCode
    ensures { Runs H.does host.old host.new (λ events.
        IsServedIfListening H.Log.Sink H.Sockets.Sockets options.now
        (record { site = site.old; log = log.old }) log.new events (exit_status result)) }
{
    let Ok(memory) = ServingMemory::new(alloc, clients_of(options.clients)) else {
        return report_memory(host);
    };
    let mut sockets = match listen(host, options) {
        Ok(sockets) => sockets,
        Err(end) => return end,
    };
    let end = serve_connections(alloc, site, log, &mut sockets, memory, &limits_of(options));
    host.close_sockets(sockets);
    report_end(host, options.listen, end)
}

/// Returns the status of a run whose serving ended so; reports an error.
fn report_end<H: Host>(host: &mut H, address: &str, end: Result<(), LoopFault>) -> ExitCode
    ensures { Runs H.does host.old host.new (λ events. IsEnded address.now end events (exit_status result)) }
{
    match end {
        Ok(()) => ExitCode::from(ANSWERED),
        Err(LoopFault::Network | LoopFault::Commit) => report_failure(host, address),
    }
}

/// Listens, and prints the address. Returns the sockets, or the status of the run if either failed.
fn listen<H: Host>(host: &mut H, options: &ServeOptions<'_>) -> Result<H::Sockets, ExitCode>
    ensures { MatchResult result
        (λ sockets. Runs H.does host.old host.new (λ events.
        events ≡ listening options.now (Some sockets) ∷ announced options.now true ∷ []))
        (λ end. Runs H.does host.old host.new (λ events. IsNotListening options.now events (exit_status end))) }
{
    let address = options.listen;
    let sockets = match host.listen(address, clients_of(options.clients)) {
        Ok(sockets) => sockets,
        Err(NetworkFailed) => return Err(report_failure(host, address)),
    };
    match host.write_line(Stream::Answers, "listening ", address.as_bytes()) {
        Ok(()) => Ok(sockets),
        Err(StreamFailed) => {
            host.close_sockets(sockets);
            Err(ExitCode::from(FAILED))
        }
    }
}

/// Creates the initial site from the contents of files and serves it, or reports the error.
fn serve_contents<H: Host>(
    alloc: Global,
    host: &mut H,
    options: &ServeOptions<'_>,
    schema: &[u8],
    state: Option<&[u8]>,
) -> ExitCode
    ensures { Runs H.does host.old host.new (λ events.
        IsServedFrom H.Log.Sink H.Sockets.Sockets options.now schema.now
        (option_map (λ s. s.now) state.entry) events (exit_status result)) }
{
    match initial_site(alloc, schema, options.site, state) {
        Ok(site) => serve_initial_site(alloc, host, options, site),
        Err(refusal) => {
            let given = schema_given(options.schema, schema);
            report_rejected(alloc, host, refusal, options.explain, &given, options.state)
        }
    }
}

/// Reads the schema and then the state, if one is named; then creates the site and serves it.
pub(crate) fn run_serve<H: Host>(
    alloc: Global,
    host: &mut H,
    options: &ServeOptions<'_>,
) -> ExitCode
    ensures { Runs H.does host.old host.new (λ events.
        IsServeRun H.Log.Sink H.Sockets.Sockets options.now events (exit_status result)) }
{
    let schema = match read_file(host, options.schema) {
        Ok(bytes) => bytes,
        Err(end) => return end,
    };
    let state = match read_if_named(host, options.state) {
        Ok(found) => found,
        Err(end) => return end,
    };
    serve_contents(alloc, host, options, &schema, lent(&state))
}
