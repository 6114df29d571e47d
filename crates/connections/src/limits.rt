//! Limits of time over a whole table: which connections are closed, how long a caller may wait, which one makes room.
ghost use Rattle.std.specs.Prelude.{◌≡◌, List, Some, None};
ghost use Rattle.connections.specs.Connections.{AreChanges, Entry};
ghost use Rattle.connections.specs.Limits.{AreClosed, IsEarliest, IsFirstAfter, IsLatest, IsOneOver, IsVictim};
ghost use Rattle.connections.specs.inner.Earliest.{first_claim};

use crate::slot::{Claim, Limit, Reason, Slot};
use crate::table::close;
use crate::times::sooner;

/// Closes each connection that may be closed for the reason `why` while the table gives this reason: with
/// [`Reason::Expired`] those over their limits, with [`Reason::Crowded`] slow readers until the table is not crowded.
pub fn close_all(slots: &mut [Slot], why: Reason)
    ensures { (entries : List Entry) × AreChanges entries slots.old slots.new
        × AreClosed why slots.old entries slots.new }
{
    for at in 0..slots.len() {
        close(slots, at, why);
    }
}

/// Returns the milliseconds from `now` until a connection whose client was asked is over the limit, if none of these
/// sends or takes a byte, or `None` if none will be. The result is at most `MAX_WAIT`. A connection is closed only if
/// its client, asked again at or after that time, still sends or takes nothing: what it did in time is never
/// overlooked.
pub fn next_wait(slots: &[Slot], limit: Limit, now: u64) -> Option<u64>
    ensures { IsFirstAfter now (IsOneOver limit slots.now) result }
{
    let mut wait = None;
    for slot in slots {
        wait = sooner(wait, slot.wait(limit, now));
    }
    wait
}

/// Returns the slot of the connection that makes room for another: the one that is idle longest, for a second at least;
/// if none is, the one whose request is late longest; if none is, the one that is longest too slow in taking its reply;
/// if none is either, `None`.
pub fn victim(slots: &[Slot]) -> Option<usize>
    ensures { IsVictim slots.now result }
{
    match earliest(slots, Claim::Idle) {
        Some(at) => Some(at),
        None => latest(slots),
    }
}

/// Returns the slot of the connection whose request is late longest; if none is, of the one that is longest too slow in
/// taking its reply.
fn latest(slots: &[Slot]) -> Option<usize>
    ensures { IsLatest slots.now result }
{
    match earliest(slots, Claim::Late) {
        Some(at) => Some(at),
        None => earliest(slots, Claim::Slow),
    }
}

/// Returns the slot of the reader that is longest too slow for a crowded table, which may be closed as
/// [`Reason::Crowded`] if the table is crowded; `None` if no reader is too slow.
pub fn slowest(slots: &[Slot]) -> Option<usize>
    ensures { IsEarliest Claim.Crowding slots.now result }
{
    earliest(slots, Claim::Crowding)
}

/// Returns the slot of the connection that has the claim longest.
fn earliest(slots: &[Slot], claim: Claim) -> Option<usize>
    ensures { IsEarliest claim slots.now result }
{
    let mut best = None;
    for at in 0..slots.len() {
        best = first_of(best, at, slots[at].claimed_since(claim));
    }
    match best {
        Some(found) => Some(found.0),
        None => None,
    }
}

/// Returns the one of two slots that has its claim longer: the first, with the time of its claim, unless that of the
/// other is earlier.
fn first_of(best: Option<(usize, u64)>, at: usize, time: Option<u64>) -> Option<(usize, u64)>
    ensures { result ≡ first_claim best at time }
{
    let Some(time) = time else {
        return best;
    };
    match best {
        None => Some((at, time)),
        Some(found) => {
            if time < found.1 {
                Some((at, time))
            } else {
                best
            }
        }
    }
}
