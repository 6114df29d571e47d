//! One turn of a loop.
ghost use Rattle.std.specs.Prelude.{◌≡◌, ◌≤◌, ◌<◌, ℕ, length};
ghost use Rattle.connections.specs.Rounds.{AreReady};
ghost use Rattle.connections.specs.Steps.{Notes, Steps};
ghost use Rattle.connections.specs.declared.TheConstants.{MAX_READ};
ghost use Rattle.connection_loop.specs.Phases.{Goes, Moves};
ghost use Rattle.connection_loop.specs.Turns.{IsAnswering, IsIncoming, IsLimiting, IsOutgoing, IsTurn, is_lost};

use crate::accepting::{accept_each, make_room};
use crate::closing::{clear, expire, relieve};
use crate::course::Course;
use crate::limits::Limits;
use crate::reading::read_each;
use crate::sockets::Sockets;
use crate::waiting::wait_of;
use crate::writing::write_each;
use connections::laws::tables_are_ready;
use connections::logging::Log;
use connections::service::Service;
use connections::slot::Slot;
use connections::table::{Outcome, round};

/// The error of a turn, and of a loop.
#[derive(Clone, Copy)]
pub enum LoopFault {
    /// A wait failed, or there were 2^64 - 1 turns.
    Network,
    /// The service failed to commit its replies, so its state is not what is recorded.
    Commit,
}

/// Reads the clock, accepts, and reads once from each connection.
fn receive_all<N: Sockets>(
    slots: &mut [Slot],
    limits: &Limits,
    sockets: &mut N,
    course: &mut Course,
    chunk: &mut [u8],
)
    requires some { 0 < length chunk.old }
    requires most { length chunk.old ≤ MAX_READ }
    ensures { Moves N.does (IsIncoming limits.now) course.old slots.old sockets.old
        course.new slots.new sockets.new }
{
    course.clock = sockets.now();
    accept_each(slots, limits, sockets, course);
    read_each(slots, sockets, course, chunk);
}

/// Returns whether a round with this outcome lost its replies.
fn is_lost(outcome: Outcome) -> bool
    ensures { result ≡ is_lost outcome }
{
    match outcome {
        Outcome::Quiet | Outcome::Answered => false,
        Outcome::Uncommitted => true,
    }
}

/// Makes one round of answers, from the slot on at which the last one stopped; returns whether it lost its replies.
fn answer_round<S: Service, L: Log, N: Sockets>(
    slots: &mut [Slot],
    service: &mut S,
    log: &mut L,
    sockets: &N,
    course: &mut Course,
) -> bool
    requires { AreReady S.is_unfinished slots.old }
    ensures goes { Goes (Steps S.answers S.lines S.commits S.commit_fails) (Notes L.writes L.cuts) N.does
        (IsAnswering S.is_unfinished result)
        (record { course = course.old; table = slots.old; service = service.old; log = log.old; sockets = sockets.now })
        (record {
          course = course.new;
          table = slots.new;
          service = service.new;
          log = log.new;
          sockets = sockets.now;
        }) }
    ensures ready { AreReady S.is_unfinished slots.new }
{
    let rounded = round(slots, course.from, service, log);
    course.note_round(rounded.outcome, rounded.next(slots));
    is_lost(rounded.outcome)
}

/// Closes each connection that is over a limit of time, then the reader that is longest too slow if the table is
/// crowded, and then the one that makes room for a client that waits.
fn limit_all<N: Sockets>(slots: &mut [Slot], limits: &Limits, sockets: &mut N, course: &mut Course)
    ensures { Moves N.does (IsLimiting limits.now) course.old slots.old sockets.old
        course.new slots.new sockets.new }
{
    expire(slots, limits, sockets, course);
    relieve(slots, limits, sockets, course);
    make_room(slots, limits, sockets, course);
}

/// Reads the clock, writes once to each connection, and closes what is over, and what is over a limit of time.
fn send_all<N: Sockets>(slots: &mut [Slot], limits: &Limits, sockets: &mut N, course: &mut Course)
    ensures { Moves N.does (IsOutgoing limits.now) course.old slots.old sockets.old
        course.new slots.new sockets.new }
{
    course.clock = sockets.now();
    write_each(slots, sockets, course);
    clear(slots, sockets, course);
    limit_all(slots, limits, sockets, course);
}

/// Does what can be done at once, after a wait: accepts, reads once from each connection, makes one round of answers,
/// writes once to each connection, and closes what is over, and what is over a limit of time.
///
/// # Errors
///
/// - `LoopFault::Network`: the wait failed; nothing else happened.
/// - `LoopFault::Commit`: the commit of the round failed; the connections that lost a reply are closed, and nothing is
///   written. No other turn is to follow.
pub fn turn<S: Service, L: Log, N: Sockets>(
    slots: &mut [Slot],
    service: &mut S,
    log: &mut L,
    sockets: &mut N,
    course: &mut Course,
    limits: &Limits,
    chunk: &mut [u8],
) -> Result<(), LoopFault>
    requires ready { AreReady S.is_unfinished slots.old }
    requires some { 0 < length chunk.old }
    requires most { length chunk.old ≤ MAX_READ }
    ensures goes { Goes (Steps S.answers S.lines S.commits S.commit_fails) (Notes L.writes L.cuts) N.does
        (IsTurn limits.now S.is_unfinished result)
        (record { course = course.old; table = slots.old; service = service.old; log = log.old; sockets = sockets.old })
        (record {
          course = course.new;
          table = slots.new;
          service = service.new;
          log = log.new;
          sockets = sockets.new;
        }) }
    ensures ready { AreReady S.is_unfinished slots.new }
{
    tables_are_ready::<S>();
    let millis = wait_of(slots, limits, course);
    course.busy = false;
    course.nobody = false;
    course.failed = false;
    course.sought = false;
    match sockets.wait(millis) {
        Ok(()) => {}
        Err(_) => return Err(LoopFault::Network),
    }
    receive_all(slots, limits, sockets, course, chunk);
    if answer_round(slots, service, log, sockets, course) {
        clear(slots, sockets, course);
        return Err(LoopFault::Commit);
    }
    send_all(slots, limits, sockets, course);
    Ok(())
}
