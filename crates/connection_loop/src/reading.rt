//! Reading from connections.
ghost use Rattle.std.specs.Prelude.{◌≡◌, ◌≤◌, ◌<◌, ℕ, length};
ghost use Rattle.connections.specs.declared.TheConstants.{MAX_READ};
ghost use Rattle.connection_loop.specs.Phases.{Each, Moves};
ghost use Rattle.connection_loop.specs.Turns.{IsReadAt};
ghost use Rattle.connection_loop.specs.inner.Tries.{IsReserved, IsARead};

use crate::closing::close_at;
use crate::course::Course;
use crate::sockets::{Reading, Sockets};
use connections::slot::{Reason, Slot};
use connections::table::{arrive, ask, close, end, reserve};

/// Reads once from the connection at the slot `at`, for which memory is reserved.
fn receive<N: Sockets>(
    slots: &mut [Slot],
    at: usize,
    sockets: &mut N,
    course: &mut Course,
    chunk: &mut [u8],
)
    requires reserved { IsReserved at slots.old }
    requires some { 0 < length chunk.old }
    requires most { length chunk.old ≤ MAX_READ }
    ensures { Moves N.does (IsARead at) course.old slots.old sockets.old course.new slots.new sockets.new }
{
    match sockets.read(at, chunk) {
        Reading::Bytes(n) => {
            arrive(slots, at, &chunk[..n], course.clock);
            course.busy = true;
        }
        Reading::End => {
            end(slots, at);
            course.busy = true;
        }
        Reading::NotYet => {
            ask(slots, at, course.clock);
        }
        Reading::Broken => {
            close(slots, at, Reason::Broken);
            sockets.close(at, Reason::Broken);
            course.busy = true;
        }
    }
}

/// Reads once from the connection at the slot `at`, if it may be read from. If memory for this is refused, the
/// connection is closed: this frees memory for the others.
fn read_at<N: Sockets>(
    slots: &mut [Slot],
    at: usize,
    sockets: &mut N,
    course: &mut Course,
    chunk: &mut [u8],
)
    requires some { 0 < length chunk.old }
    requires most { length chunk.old ≤ MAX_READ }
    ensures { Moves N.does (IsReadAt at) course.old slots.old sockets.old course.new slots.new sockets.new }
{
    match reserve(slots, at, course.clock) {
        Ok(true) => receive(slots, at, sockets, course, chunk),
        Ok(false) => {}
        Err(_) => close_at(slots, at, Reason::NoMemory, sockets, course),
    }
}

/// Reads once from each connection that may be read from.
pub fn read_each<N: Sockets>(
    slots: &mut [Slot],
    sockets: &mut N,
    course: &mut Course,
    chunk: &mut [u8],
)
    requires some { 0 < length chunk.old }
    requires most { length chunk.old ≤ MAX_READ }
    ensures { Moves N.does (Each IsReadAt) course.old slots.old sockets.old course.new slots.new sockets.new }
{
    for at in 0..slots.len() {
        read_at(slots, at, sockets, course, chunk);
    }
}
