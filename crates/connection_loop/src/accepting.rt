//! Accepting connections, and making room for them.
ghost use Rattle.std.specs.Prelude.{◌≡◌, ◌<◌, ◌⊎◌, ℕ, length, IsTrue, IsFalse};
ghost use Rattle.connection_loop.specs.Phases.{Each, Moves};
ghost use Rattle.connections.specs.Made.{IsFree};
ghost use Rattle.connection_loop.specs.Turns.{IsAcceptedAt, IsFull, IsRoom, IsSomeAt, MakesRoom};
ghost use Rattle.connection_loop.specs.declared.TheConstants.{MOST};
ghost use Rattle.connection_loop.specs.inner.Tries.{IsAFailure, IsATry};

use crate::course::Course;
use crate::limits::{Limits, is_limited};
use crate::sockets::Sockets;
use connections::limits::victim;
use connections::slot::{Reason, Slot};
use connections::table::{close, open};

/// Returns whether each slot has a connection.
pub(crate) fn is_full(slots: &[Slot]) -> bool
    ensures yes { IsTrue result → IsFull slots.now }
    ensures no { IsFalse result → IsFull slots.now → ⊥ }
{
    for slot in slots {
        if !slot.is_open() {
            return false;
        }
    }
    true
}

/// Returns whether it is to be asked whether a client waits that could not be accepted.
fn makes_room(slots: &[Slot], limits: &Limits, course: &Course) -> bool
    ensures yes { IsTrue result → MakesRoom limits.now course.now slots.now }
    ensures no { IsFalse result → MakesRoom limits.now course.now slots.now → ⊥ }
{
    if !is_limited(slots, limits) {
        return false;
    }
    if course.failed {
        return true;
    }
    if !course.may_accept(limits) {
        return false;
    }
    is_full(slots)
}

/// Makes room if a client waits and no slot is free, or accepting it failed: closes the connection idle longest; or the
/// one late longest, or slow longest; or none.
pub fn make_room<N: Sockets>(
    slots: &mut [Slot],
    limits: &Limits,
    sockets: &mut N,
    course: &mut Course,
)
    ensures { Moves N.does (IsRoom limits.now) course.old slots.old sockets.old course.new slots.new sockets.new }
{
    if !makes_room(slots, limits, course) {
        return;
    }
    course.sought = sockets.is_waiting();
    if !course.sought {
        return;
    }
    let Some(at) = victim(slots) else {
        return;
    };
    close(slots, at, Reason::MadeRoom);
    sockets.close(at, Reason::MadeRoom);
    course.busy = true;
}

/// Notes that accepting failed: warns if this is the first of consecutive failures, and begins a pause.
fn note_failure<N: Sockets>(sockets: &mut N, course: &mut Course)
    ensures { IsAFailure N.does course.old sockets.old course.new sockets.new }
{
    let first = course.pause == 0;
    course.begin_pause();
    if first {
        sockets.warn();
    }
}

/// Accepts a connection at the free slot `at`, if a client waits.
fn try_accept<N: Sockets>(slots: &mut [Slot], at: usize, sockets: &mut N, course: &mut Course)
    requires here { IsSomeAt at IsFree slots.old }
    requires fits { course.old.accepted < MOST }
    ensures { Moves N.does (IsATry at) course.old slots.old sockets.old course.new slots.new sockets.new }
{
    match sockets.accept(at) {
        Ok(true) => {
            open(slots, at, course.clock);
            course.busy = true;
            course.pause = 0;
            course.accepted += 1;
        }
        Ok(false) => course.nobody = true,
        Err(_) => note_failure(sockets, course),
    }
}

/// Accepts a connection at the slot `at`, if it is free and one may be accepted.
fn accept_at<N: Sockets>(
    slots: &mut [Slot],
    at: usize,
    limits: &Limits,
    sockets: &mut N,
    course: &mut Course,
)
    requires { at < length slots.old }
    ensures { Moves N.does (IsAcceptedAt limits.now at) course.old slots.old sockets.old
        course.new slots.new sockets.new }
{
    if !course.may_accept(limits) {
        return;
    }
    if slots[at].is_open() {
        return;
    }
    try_accept(slots, at, sockets, course);
}

/// Accepts connections at the free slots, while they may be accepted and clients wait.
pub fn accept_each<N: Sockets>(
    slots: &mut [Slot],
    limits: &Limits,
    sockets: &mut N,
    course: &mut Course,
)
    ensures { Moves N.does (Each (IsAcceptedAt limits.now)) course.old slots.old sockets.old
        course.new slots.new sockets.new }
{
    for at in 0..slots.len() {
        accept_at(slots, at, limits, sockets, course);
    }
}
