//! Closing connections.
ghost use Rattle.std.specs.Prelude.{ℕ};
ghost use Rattle.connection_loop.specs.Phases.{Each, Moves};
ghost use Rattle.connection_loop.specs.Turns.{IsClearing, IsClosedAt, IsExpiring, IsRelief};

use crate::course::Course;
use crate::limits::{Limits, is_crowded, is_limited};
use crate::sockets::Sockets;
use connections::limits::slowest;
use connections::slot::{Reason, Slot};
use connections::table::close;

/// Closes the connection at the slot `at`, and its socket, if it may be closed for the reason `why`.
pub fn close_at<N: Sockets>(
    slots: &mut [Slot],
    at: usize,
    why: Reason,
    sockets: &mut N,
    course: &mut Course,
)
    ensures { Moves N.does (IsClosedAt why at) course.old slots.old sockets.old course.new slots.new sockets.new }
{
    if close(slots, at, why) {
        sockets.close(at, why);
        course.busy = true;
    }
}

/// Closes each connection that may be closed for the reason `why`.
pub fn close_each<N: Sockets>(slots: &mut [Slot], why: Reason, sockets: &mut N, course: &mut Course)
    ensures { Moves N.does (Each (IsClosedAt why)) course.old slots.old sockets.old course.new slots.new sockets.new }
{
    for at in 0..slots.len() {
        close_at(slots, at, why, sockets, course);
    }
}

/// Closes each connection that is over a limit of time, if one may be closed for the sake of others.
pub fn expire<N: Sockets>(slots: &mut [Slot], limits: &Limits, sockets: &mut N, course: &mut Course)
    ensures { Moves N.does (IsExpiring limits.now) course.old slots.old sockets.old course.new slots.new sockets.new }
{
    if !is_limited(slots, limits) {
        return;
    }
    close_each(slots, Reason::Expired(limits.idle), sockets, course);
}

/// Closes the reader that is longest too slow, if the table is crowded.
pub fn relieve<N: Sockets>(
    slots: &mut [Slot],
    limits: &Limits,
    sockets: &mut N,
    course: &mut Course,
)
    ensures { Moves N.does (IsRelief limits.now) course.old slots.old sockets.old course.new slots.new sockets.new }
{
    if !is_crowded(slots, limits) {
        return;
    }
    match slowest(slots) {
        Some(at) => close_at(slots, at, Reason::Crowded, sockets, course),
        None => {}
    }
}

/// Closes each connection that is over, whose line was cut off, or whose commit failed.
pub fn clear<N: Sockets>(slots: &mut [Slot], sockets: &mut N, course: &mut Course)
    ensures { Moves N.does IsClearing course.old slots.old sockets.old course.new slots.new sockets.new }
{
    close_each(slots, Reason::Over, sockets, course);
    close_each(slots, Reason::Unlogged, sockets, course);
    close_each(slots, Reason::Uncommitted, sockets, course);
}
