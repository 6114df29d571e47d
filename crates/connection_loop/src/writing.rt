//! Writing to connections.
ghost use Rattle.std.specs.Prelude.{◌≡◌, ◌<◌, ℕ, length, IsTrue, IsFalse};
ghost use Rattle.connections.specs.Connections.{MayOffer};
ghost use Rattle.connection_loop.specs.Phases.{Each, Moves};
ghost use Rattle.connection_loop.specs.Turns.{IsSentAt};

use crate::course::Course;
use crate::sockets::{Sockets, Writing};
use connections::slot::{Reason, Slot};
use connections::table::{ask, close, take};

/// Returns whether something of the last reply may go out.
fn may_send(slot: &Slot) -> bool
    ensures may { IsTrue result → MayOffer slot.now }
    ensures may_not { IsFalse result → MayOffer slot.now → ⊥ }
{
    if !slot.may_take() {
        return false;
    }
    !slot.is_drained()
}

/// Writes once what is unsent at the slot `at`, if it may go out.
fn write_at<N: Sockets>(slots: &mut [Slot], at: usize, sockets: &mut N, course: &mut Course)
    requires { at < length slots.old }
    ensures { Moves N.does (IsSentAt at) course.old slots.old sockets.old course.new slots.new sockets.new }
{
    let slot = &slots[at];
    if !may_send(slot) {
        return;
    }
    match sockets.write(at, slot.output()) {
        Writing::Bytes(n) => {
            take(slots, at, n, course.clock);
            course.busy = true;
        }
        Writing::NotYet => {
            ask(slots, at, course.clock);
        }
        Writing::Broken => {
            close(slots, at, Reason::Broken);
            sockets.close(at, Reason::Broken);
            course.busy = true;
        }
    }
}

/// Writes once to each connection of which something may go out.
pub fn write_each<N: Sockets>(slots: &mut [Slot], sockets: &mut N, course: &mut Course)
    ensures { Moves N.does (Each IsSentAt) course.old slots.old sockets.old course.new slots.new sockets.new }
{
    for at in 0..slots.len() {
        write_at(slots, at, sockets, course);
    }
}
