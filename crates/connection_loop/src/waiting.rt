//! How long a loop waits.
ghost use Rattle.std.specs.Prelude.{◌≡◌, true, IsTrue, IsFalse};
ghost use Rattle.connections.specs.Limits.{IsFirstAfter, IsOneOver};
ghost use Rattle.connections.specs.declared.slot.Limit.TheVariants.{Crowd, Expiry, Room};
ghost use Rattle.connection_loop.specs.Turns.{HasMore, IsCrowded, IsLimited, IsWait};

use crate::accepting::is_full;
use crate::course::Course;
use crate::limits::{Limits, is_crowded, is_limited};
use connections::limits::next_wait;
use connections::slot::{Limit, Slot};
use connections::table::is_one_unasked;
use connections::times::sooner;

/// Returns the most milliseconds that the loop may wait: none if there is something to do at once, else those until the
/// next thing is due, or any number if nothing will be.
pub fn wait_of(slots: &[Slot], limits: &Limits, course: &Course) -> Option<u64>
    ensures { IsWait limits.now course.now slots.now result }
{
    if has_more(slots, limits, course) {
        return Some(0);
    }
    let expiry = expiry_wait(slots, limits, course.clock);
    let first = sooner(expiry, room_wait(slots, course));
    let relief = relief_wait(slots, limits, course.clock);
    sooner(first, sooner(relief, course.pause_wait()))
}

/// Returns whether there is something to do at once: the last turn moved bytes, answered or closed; or a client may be
/// asked, and was not since its last byte; or a connection may be accepted at a free slot.
fn has_more(slots: &[Slot], limits: &Limits, course: &Course) -> bool
    ensures more { IsTrue result → HasMore limits.now course.now slots.now }
    ensures none { IsFalse result → HasMore limits.now course.now slots.now → ⊥ }
{
    if course.busy || is_one_unasked(slots) {
        return true;
    }
    if !course.may_accept(limits) {
        return false;
    }
    !is_full(slots)
}

/// Returns the milliseconds until a connection is over a limit of time, if one may be closed for the sake of others.
fn expiry_wait(slots: &[Slot], limits: &Limits, now: u64) -> Option<u64>
    ensures { IsFirstAfter now
        (λ t. IsLimited limits.now slots.now × IsOneOver (Expiry limits.now.idle) slots.now t) result }
{
    if !is_limited(slots, limits) {
        return None;
    }
    next_wait(slots, Limit::Expiry(limits.idle), now)
}

/// Returns the milliseconds until a reader is too slow for a crowded table, if the table is crowded.
fn relief_wait(slots: &[Slot], limits: &Limits, now: u64) -> Option<u64>
    ensures { IsFirstAfter now (λ t. IsCrowded limits.now slots.now × IsOneOver Crowd slots.now t) result }
{
    if !is_crowded(slots, limits) {
        return None;
    }
    next_wait(slots, Limit::Crowd, now)
}

/// Returns the milliseconds until a connection may make room, if a client waits for room.
fn room_wait(slots: &[Slot], course: &Course) -> Option<u64>
    ensures { IsFirstAfter course.now.clock (λ t. (course.now.sought ≡ true) × IsOneOver Room slots.now t) result }
{
    if !course.sought {
        return None;
    }
    next_wait(slots, Limit::Room, course.clock)
}
