//! Serving many connections.
ghost use Rattle.std.specs.Prelude.{◌≡◌, ◌≤◌, ◌<◌, ℕ, length, IsTrue, IsFalse};
ghost use Rattle.connections.specs.Steps.{Notes, Steps};
ghost use Rattle.connections.specs.Stories.{AreFree};
ghost use Rattle.connections.specs.declared.TheConstants.{MAX_READ};
ghost use Rattle.connection_loop.specs.Serving.{AreAllGone, IsEmpty, IsServedTogether, beginning};
ghost use Rattle.connection_loop.specs.declared.course.Course as remembered;

use crate::MOST;
use crate::course::Course;
use crate::limits::Limits;
use crate::sockets::Sockets;
use crate::turn::{LoopFault, turn};
use connections::laws::{stories_fit, tables_are_bounded, tables_are_ready};
use connections::logging::Log;
use connections::service::Service;
use connections::slot::Slot;

/// Returns whether no slot has a connection.
fn is_empty(slots: &[Slot]) -> bool
    ensures empty { IsTrue result → IsEmpty slots.now }
    ensures not_empty { IsFalse result → IsEmpty slots.now → ⊥ }
{
    for slot in slots {
        if slot.is_open() {
            return false;
        }
    }
    true
}

/// Returns whether as many connections as the limits give were accepted, and are gone.
fn are_all_gone(slots: &[Slot], limits: &Limits, course: &Course) -> bool
    ensures gone { IsTrue result → AreAllGone limits.now course.now slots.now }
    ensures not_gone { IsFalse result → AreAllGone limits.now course.now slots.now → ⊥ }
{
    limits.are_reached(course.accepted) && is_empty(slots)
}

/// Serves as many connections at once as the table has slots, until as many as the limits give were accepted, and are
/// gone. `chunk` is memory for one read.
///
/// # Errors
///
/// - `LoopFault::Network`: a wait failed, or there were 2^64 - 1 turns.
/// - `LoopFault::Commit`: the commit of a round failed. Nothing of the replies of this round was written or logged.
pub fn serve_all<S: Service, L: Log, N: Sockets>(
    slots: &mut [Slot],
    service: &mut S,
    log: &mut L,
    sockets: &mut N,
    limits: &Limits,
    chunk: &mut [u8],
) -> Result<(), LoopFault>
    requires free { AreFree slots.old }
    requires some { 0 < length chunk.old }
    requires most { length chunk.old ≤ MAX_READ }
    ensures { (course : remembered.Course) × IsServedTogether (Steps S.answers S.lines S.commits S.commit_fails)
        (Notes L.writes L.cuts) N.does S.is_unfinished limits.now
        (record { course = beginning; table = slots.old; service = service.old; log = log.old; sockets = sockets.old })
        (record { course = course; table = slots.new; service = service.new; log = log.new; sockets = sockets.new })
        result }
{
    stories_fit();
    tables_are_bounded();
    tables_are_ready::<S>();
    let mut course = Course::beginning();
    for turns in 0..MOST {
        if are_all_gone(slots, limits, &course) {
            return Ok(());
        }
        match turn(slots, service, log, sockets, &mut course, limits, chunk) {
            Ok(()) => {}
            Err(fault) => return Err(fault),
        }
    }
    Err(LoopFault::Network)
}
