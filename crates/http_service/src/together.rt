//! A site served over many connections.
ghost use Rattle.std.specs.Prelude.{◌≡◌, ◌≤◌, IfOk, OnErr, OnOk, is_some, true, false};
ghost use Rattle.connections.specs.Steps.{Notes, Steps};
ghost use Rattle.connections.specs.declared.TheConstants.{LINE_ROOM};
ghost use Rattle.http_service.specs.Together.{AreConnectionsServed, AreServed, IsCutOff, IsWritten};
ghost use Rattle.http_streams.specs.FramedRequests.{AnswersBytes, IsLineOf};

use crate::site_service::{LoggedService, SiteService};
use connection_loop::limits::Limits;
use connection_loop::serving::serve_all;
use connection_loop::sockets::Sockets;
use connection_loop::turn::LoopFault;
use connections::MAX_READ;
use connections::logging::{LineCutOff, Log};
use connections::slot::Slot;
use connections::table::new_table;
use http_replies::{Site, runs_leave_what_they_took};
use http_streams::devices::write_all;
use http_streams::framed::Framed;
use http_streams::service::Service;
use http_streams::{Sink, room_for_heads};
use httparse::spans::HeaderSpan;
use json_words::Scratch;
use std::alloc::{AllocError, Global};
use std::marker::Model;

/// Memory to serve at most so many connections at once: all that is allocated before the first of them. Contracts see
/// that number.
#[derive(Drop)]
pub struct ServingMemory {
    slots: Vec<Slot>,
    // for one read
    chunk: Vec<u8>,
    // for the fields of a head
    heads: Vec<HeaderSpan>,
}

impl Model for ServingMemory {
    ghost use Rattle.std.specs.Prelude.{◌≤◌, ◌<◌, ℕ, length, vec_len};
    ghost use Rattle.connections.specs.Stories.{AreFree};
    ghost use Rattle.connections.specs.declared.TheConstants.{MAX_READ};
    ghost use Rattle.http_streams.specs.declared.TheConstants.{MAX_HEAD};

    ghost Value = { ℕ };

    ghost view = { λ m. length m.slots.items };

    ghost invariant = { λ m. AreFree m.slots.items × (0 < vec_len m.chunk) × (vec_len m.chunk ≤ MAX_READ)
        × (MAX_HEAD ≤ vec_len m.heads) };
}

impl ServingMemory {
    /// Allocates the memory for at most `clients` connections at once.
    ///
    /// # Errors
    ///
    /// - `AllocError`: an allocation failed.
    pub fn new(alloc: Global, clients: usize) -> Result<ServingMemory, AllocError>
        ensures { IfOk result (λ memory. memory ≡ clients) }
    {
        let slots = new_table(alloc, clients)?;
        let chunk = vec![in alloc; 0u8; MAX_READ]?;
        let heads = room_for_heads(alloc)?;
        Ok(ServingMemory {
            slots,
            chunk,
            heads,
        })
    }
}

/// The lines of a borrowed log, if there is one.
#[derive(Drop)]
struct Lines<'a, L> {
    log: &'a mut Option<L>,
}

impl<L: Sink> Log for Lines<'_, L> {
    ghost use Rattle.http_service.specs.Together.{IsCutOff, IsWritten};

    ghost writes = { λ old line new. IsWritten L.holds L.failed old.log.now line new.log.now
        × (new.log.ghost_name ≡ old.log.ghost_name) };

    ghost cuts = { λ old line new. IsCutOff L.holds L.failed L.fails old.log.now line new.log.now
        × (new.log.ghost_name ≡ old.log.ghost_name) };

    fn write_line(&mut self, line: &[u8]) -> Result<(), LineCutOff> {
        put_line(self.log, line)
    }
}

/// Writes a line to the log, if there is one.
fn put_line<L: Sink>(log: &mut Option<L>, line: &[u8]) -> Result<(), LineCutOff>
    ensures ok { OnOk result (IsWritten L.holds L.failed log.old line.now log.new) }
    ensures err { OnErr result (IsCutOff L.holds L.failed L.fails log.old line.now log.new) }
{
    match log {
        Some(sink) => match write_all(sink, line) {
            Ok(()) => Ok(()),
            Err(_) => Err(LineCutOff),
        },
        None => Ok(()),
    }
}

/// Serves connections by a service, and returns it.
fn serve_framed<S: Service, L: Log, N: Sockets>(
    service: S,
    log: &mut L,
    sockets: &mut N,
    memory: ServingMemory,
    limits: &Limits,
) -> (Result<(), LoopFault>, S)
    requires { S.line_room ≤ LINE_ROOM }
    ensures { AreServed (Steps (AnswersBytes S.answers) (IsLineOf S.lines S.refusal_line) S.commits
        S.commit_fails) (Notes L.writes L.cuts) N.does memory limits.now service result.1 log.old log.new sockets.old
        sockets.new result.0 }
{
    let ServingMemory {
        mut slots,
        mut chunk,
        heads,
    } = memory;
    let mut framed = Framed::new(service, heads);
    let end = serve_all(&mut slots, &mut framed, log, sockets, limits, &mut chunk);
    (end, framed.into_service())
}

/// Serves a borrowed site with a log; returns what borrows the site.
fn serve_logged<'a, L: Sink, N: Sockets>(
    logged: LoggedService<'a>,
    lines: &mut Lines<'_, L>,
    sockets: &mut N,
    memory: ServingMemory,
    limits: &Limits,
) -> (Result<(), LoopFault>, LoggedService<'a>)
    requires { is_some lines.old.log.now ≡ true }
    ensures same_site { result.1.service.site.ghost_name ≡ logged.entry.service.site.ghost_name }
    ensures same_log { lines.new.log.ghost_name ≡ lines.old.log.ghost_name }
    ensures served { AreConnectionsServed L.holds L.failed L.fails N.does memory limits.now
        logged.entry.service.site.now result.1.service.site.now lines.old.log.now lines.new.log.now sockets.old
        sockets.new result.0 }
{
    runs_leave_what_they_took();
    serve_framed(logged, lines, sockets, memory, limits)
}

/// Serves a borrowed site without a log, and makes no lines; returns what borrows the site.
fn serve_unlogged<'a, L: Sink, N: Sockets>(
    service: SiteService<'a>,
    lines: &mut Lines<'_, L>,
    sockets: &mut N,
    memory: ServingMemory,
    limits: &Limits,
) -> (Result<(), LoopFault>, SiteService<'a>)
    requires { is_some lines.old.log.now ≡ false }
    ensures same_site { result.1.site.ghost_name ≡ service.entry.site.ghost_name }
    ensures same_log { lines.new.log.ghost_name ≡ lines.old.log.ghost_name }
    ensures served { AreConnectionsServed L.holds L.failed L.fails N.does memory limits.now service.entry.site.now
        result.1.site.now lines.old.log.now lines.new.log.now sockets.old sockets.new result.0 }
{
    runs_leave_what_they_took();
    serve_framed(service, lines, sockets, memory, limits)
}

/// Serves as many connections at once as there is `memory` for, in one thread, until as many as the limits give were
/// accepted, and are gone. If there is a log, it gets the line of each reply before anything of the reply is sent
/// (docs/formats.md).
///
/// A request, of whatever connection, makes at most one step of the site; the replies to a connection are those of its
/// own requests, in order. The schema and the name of the site are unchanged. The site's errors, an unknown path (404),
/// another method (405), and out of memory for one request (503) are replies, after which the connection goes on. A
/// connection that fails, or for which no memory can be had, is closed; so is one whose line the log did not get whole,
/// and nothing of that reply is sent. The others go on, and changes that were made remain.
///
/// # Errors
///
/// - [`LoopFault::Network`]: a wait failed, or there were 2^64 - 1 turns. Changes that were made remain.
/// - [`LoopFault::Commit`]: the changes of a round could not be recorded. Without a journal this does not occur.
pub fn serve_connections<L: Sink, N: Sockets>(
    alloc: Global,
    site: &mut Site,
    log: &mut Option<L>,
    sockets: &mut N,
    memory: ServingMemory,
    limits: &Limits,
) -> Result<(), LoopFault>
    ensures { AreConnectionsServed L.holds L.failed L.fails N.does memory limits.now site.old site.new log.old log.new
        sockets.old sockets.new result }
{
    let mut kept = Scratch::new(alloc);
    let service = SiteService {
        alloc,
        kept: &mut kept,
        site,
    };
    let mut lines = Lines { log };
    if lines.log.is_some() {
        let logged = LoggedService { service };
        let served = serve_logged(logged, &mut lines, sockets, memory, limits);
        return served.0;
    }
    let served = serve_unlogged(service, &mut lines, sockets, memory, limits);
    served.0
}
