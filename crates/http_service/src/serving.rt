//! Streams of requests to a site.
ghost use Rattle.std.specs.Prelude.{◌≡◌, ◌≤◌};
ghost use Rattle.std.specs.Vec.{vec_capacity};
ghost use Rattle.http_service.specs.LogLines.{IsLogLine, unread_line};
ghost use Rattle.http_streams.specs.Logs.{IsLogged};
ghost use Rattle.http_streams.specs.Serving.{as_logged};
ghost use Rattle.http_service.specs.Serving.{IsServed};

use crate::MOST_UNREAD_LINE;
use crate::site_service::{LoggedService, SiteService};
use http_replies::{Site, runs_leave_what_they_took};
use http_streams::serve::{
    LoggedFault, StreamFault, serve as serve_stream, serve_logged as serve_stream_logged,
};
use http_streams::{Sink, Source};
use json_words::Scratch;
use std::alloc::Global;

/// Answers the requests of a stream at a borrowed site.
fn serve_borrowed<R: Source, W: Sink>(
    alloc: Global,
    service: &mut SiteService<'_>,
    reader: &mut R,
    writer: &mut W,
) -> Result<(), StreamFault>
    ensures same_reference { service.new.site.ghost_name ≡ service.old.site.ghost_name }
    ensures served { IsServed R.left R.failed R.reads R.fails W.holds W.failed W.fails reader.old reader.new writer.old
        writer.new service.old.site.now service.new.site.now (as_logged result) }
{
    runs_leave_what_they_took();
    serve_stream(alloc, service, reader, writer)
}

/// Answers each whole request of the stream in order, before it reads on.
///
/// A request makes at most one step of the site; the status and the body of the reply report the outcome. The call ends
/// at the end of the input or after a reply that ends the stream. An incomplete request changes nothing. The site's
/// errors, an unknown path (404), another method (405), and out of memory for one request (503) are replies, after
/// which the stream goes on. The schema and the name of the site are unchanged.
///
/// # Errors
///
/// - [`StreamFault::NoMemory`] (1): an allocation failed, before anything was read or before the next read.
/// - [`StreamFault::Read`] (70): the reader failed, or gave `u64::MAX` bytes or more.
/// - [`StreamFault::Write`] (71): the writer failed; perhaps a part of the last reply was sent.
///
/// Changes that were made before the failure remain, also if the reply to a change was not sent whole.
pub fn serve<R: Source, W: Sink>(
    alloc: Global,
    site: &mut Site,
    reader: &mut R,
    writer: &mut W,
) -> Result<(), StreamFault>
    ensures { IsServed R.left R.failed R.reads R.fails W.holds W.failed W.fails reader.old reader.new writer.old
        writer.new site.old site.new (as_logged result) }
{
    let mut scratch = Scratch::new(alloc);
    let mut service = SiteService {
        alloc,
        kept: &mut scratch,
        site,
    };
    serve_borrowed(alloc, &mut service, reader, writer)
}

/// Answers the requests of a stream at a borrowed site, with a log.
fn serve_borrowed_logged<R: Source, W: Sink, L: Sink>(
    alloc: Global,
    logged: &mut LoggedService<'_>,
    reader: &mut R,
    writer: &mut W,
    log: &mut L,
    line: &mut Vec<u8>,
) -> Result<(), LoggedFault>
    requires { MOST_UNREAD_LINE ≤ vec_capacity line.old }
    ensures same_reference { logged.new.service.site.ghost_name ≡ logged.old.service.site.ghost_name }
    ensures served { IsServed R.left R.failed R.reads R.fails W.holds W.failed W.fails reader.old reader.new writer.old
        writer.new logged.old.service.site.now logged.new.service.site.now result }
    ensures logged { IsLogged IsLogLine unread_line L.holds L.failed L.fails R.left W.holds reader.old reader.new
        writer.old writer.new log.old log.new result }
{
    runs_leave_what_they_took();
    serve_stream_logged(alloc, logged, reader, writer, log, line)
}

/// Serves like [`serve`], with a log: the line of each reply is written to `log` before anything of the reply is sent
/// (docs/formats.md).
///
/// # Errors
///
/// - [`LoggedFault::Stream`]: an error of [`serve`].
/// - [`LoggedFault::Log`] (76), checked before `Write`: the line of a reply was not written whole. Nothing of that
///   reply was sent; a change that its request made remains.
pub fn serve_logged<R: Source, W: Sink, L: Sink>(
    alloc: Global,
    site: &mut Site,
    reader: &mut R,
    writer: &mut W,
    log: &mut L,
) -> Result<(), LoggedFault>
    ensures served { IsServed R.left R.failed R.reads R.fails W.holds W.failed W.fails reader.old reader.new writer.old
        writer.new site.old site.new result }
    ensures logged { IsLogged IsLogLine unread_line L.holds L.failed L.fails R.left W.holds reader.old reader.new
        writer.old writer.new log.old log.new result }
{
    runs_leave_what_they_took();
    let Ok(mut line) = Vec::with_capacity(alloc, MOST_UNREAD_LINE) else {
        return Err(LoggedFault::Stream(StreamFault::NoMemory));
    };
    let mut kept = Scratch::new(alloc);
    let mut logged = LoggedService {
        service: SiteService {
            alloc,
            kept: &mut kept,
            site,
        },
    };
    serve_borrowed_logged(alloc, &mut logged, reader, writer, log, &mut line)
}
