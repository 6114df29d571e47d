//! A table of connections over one service and one log: the slots of a slice.
ghost use Rattle.std.specs.Prelude.{◌≡◌, ◌≤◌, ◌<◌, ◌↔◌, ℕ, Bool, List, [], length, map, take, Some, slice_get};
ghost use Rattle.std.specs.Prelude.{IfOk, IsTrue, IsFalse, OnErr};
ghost use Rattle.connections.specs.Connections.{Answered, Asked, Came, Ended, Gone, Opened, Reserved, Took};
ghost use Rattle.connections.specs.Connections.{AreChanges, AwaitsAnswer, ChangesAt, Connection, Entry};
ghost use Rattle.connections.specs.Connections.{HasOne, IsCalledFor, IsCrowded, MayAsk, MayRead};
ghost use Rattle.connections.specs.Connections.{committed, is_long, longs, uncommitted, unsent};
ghost use Rattle.connections.specs.Made.{IsFree, IsMade, IsNoneAt, IsOneUnasked, IsUnasked};
ghost use Rattle.connections.specs.Made.{MayEnd, MayReadBytes, MayReserve, MayTakeSome};
ghost use Rattle.connections.specs.Rounds.{AreAll, AreLacking, AreNeeded, AreReady};
ghost use Rattle.connections.specs.Rounds.{AreSettled, IsALack, IsALine, IsATurn};
ghost use Rattle.connections.specs.Rounds.{IsOrdered, IsQuiet, IsRound, next_slot};
ghost use Rattle.connections.specs.Steps.{AreLogged, IsChain, Leads, Notes, Steps, StepsAt};
ghost use Rattle.connections.specs.Stories.{AreFree};
ghost use Rattle.connections.specs.inner.Turns.{IsIdleAt};
ghost use Rattle.connections.specs.inner.Waiting.{AreAllCommitted, AreMadeOrSettled, IsNoted, waiting};

use crate::logging::Log;
use crate::service::Service;
use crate::slot::{Reason, Slot};
use crate::{MAX_LONG, MAX_UNSENT};
use std::alloc::{AllocError, Global};

/// What a round did.
#[derive(Clone, Copy)]
pub enum Outcome {
    /// It answered no request.
    Quiet,
    /// Requests were answered; the replies are committed, and the log got their lines.
    Answered,
    /// Requests were answered, and the commit of the replies failed.
    Uncommitted,
}

/// How a round ended.
#[derive(Clone, Copy)]
pub struct Rounded {
    /// What it did.
    pub outcome: Outcome,
    /// The slot at which it stopped, since too many bytes of replies and lines are unsent; or the number of slots.
    pub end: usize,
}

impl Rounded {
    /// Returns the slot at which the next round is to begin.
    pub fn next(&self, slots: &[Slot]) -> usize
        ensures { result ≡ next_slot self.now.end (length slots.now) }
    {
        if self.end < slots.len() { self.end } else { 0 }
    }
}

/// The requests of a round that were answered.
#[derive(Clone, Copy)]
struct Turns {
    /// Whether there were any.
    any: bool,
    /// The slot at which the round stopped, or the number of slots.
    end: usize,
}

/// Creates a table of `count` free slots.
///
/// # Errors
///
/// - `AllocError`: an allocation failed.
pub fn new_table(alloc: Global, count: usize) -> Result<Vec<Slot>, AllocError>
    ensures free { IfOk result (λ table. AreFree table.items) }
    ensures count { IfOk result (λ table. length table.items ≡ count) }
{
    let mut slots = Vec::new(alloc);
    for _ in 0..count {
        let slot = Slot::new(alloc)?;
        match slots.push(slot) {
            Ok(()) => {}
            Err(_) => return Err(AllocError),
        }
    }
    Ok(slots)
}

/// Opens a connection in the slot `at`, at the time `now`; returns whether the slot was free.
pub fn open(slots: &mut [Slot], at: usize, now: u64) -> bool
    ensures { IsMade result at (Opened now) IsFree slots.old slots.new }
{
    if at >= slots.len() {
        return false;
    }
    let slot = &mut slots[at];
    if slot.is_open() {
        return false;
    }
    slot.open(now);
    true
}

/// Reserves memory for one read at the slot `at`, at the time `now`; returns whether its connection may be read from,
/// and the table has room for this: at most `MAX_LONG` connections hold more than `MAX_SHORT` bytes.
///
/// # Errors
///
/// - `AllocError`: an allocation failed; the table is unchanged.
pub fn reserve(slots: &mut [Slot], at: usize, now: u64) -> Result<bool, AllocError>
    ensures ok { IfOk result (λ done. IsMade done at (Reserved now) (MayReserve slots.old) slots.old slots.new) }
    ensures err { OnErr result (slots.new ≡ slots.old) }
{
    if at >= slots.len() {
        return Ok(false);
    }
    if !may_reserve(slots, at) {
        return Ok(false);
    }
    let slot = &mut slots[at];
    slot.reserve(now)?;
    Ok(true)
}

/// Returns whether the connection at the slot `at` may be read from, and the table has room for this.
fn may_reserve(slots: &[Slot], at: usize) -> bool
    requires { at < length slots.now }
    ensures yes { IsTrue result → (c : Connection) → slice_get slots.now at ≡ Some c → MayReserve slots.now c }
    ensures no { IsFalse result → (c : Connection) → slice_get slots.now at ≡ Some c → MayReserve slots.now c → ⊥ }
{
    let slot = &slots[at];
    if !slot.may_read() {
        return false;
    }
    if slot.stays_short() {
        return true;
    }
    if slot.is_long() {
        return true;
    }
    count_longs(slots) < MAX_LONG
}

/// Counts the connections that hold more than `MAX_SHORT` bytes.
fn count_longs(slots: &[Slot]) -> usize
    ensures { result ≡ longs slots.now }
{
    slots.iter().filter(|slot| slot.is_long()).count()
}

/// Returns whether more than `MAX_UNSENT` bytes of replies and lines are unsent.
pub fn is_full(slots: &[Slot]) -> bool
    ensures yes { IsTrue result → MAX_UNSENT < unsent slots.now }
    ensures no { IsFalse result → unsent slots.now ≤ MAX_UNSENT }
{
    let mut left = MAX_UNSENT;
    for slot in slots {
        let size = slot.unsent();
        if size > left {
            return true;
        }
        left -= size;
    }
    false
}

/// Returns whether more than `MAX_UNSENT` bytes of replies and lines are unsent, and a connection awaits an answer.
pub fn is_crowded(slots: &[Slot]) -> bool
    ensures yes { IsTrue result → IsCrowded slots.now }
    ensures no { IsFalse result → IsCrowded slots.now → ⊥ }
{
    if !is_full(slots) {
        return false;
    }
    is_one_awaiting(slots)
}

/// Returns whether a connection awaits an answer.
fn is_one_awaiting(slots: &[Slot]) -> bool
    ensures yes { IsTrue result → HasOne AwaitsAnswer slots.now }
    ensures no { IsFalse result → HasOne AwaitsAnswer slots.now → ⊥ }
{
    for slot in slots {
        if slot.awaits_answer() {
            return true;
        }
    }
    false
}

/// Returns whether a client may be asked now, to send more or to take more of a reply, and was not since it last sent
/// or took a byte.
pub fn is_one_unasked(slots: &[Slot]) -> bool
    ensures yes { IsTrue result → IsOneUnasked slots.now }
    ensures no { IsFalse result → IsOneUnasked slots.now → ⊥ }
{
    for at in 0..slots.len() {
        if is_unasked(slots, at) {
            return true;
        }
    }
    false
}

/// Returns whether the client at the slot `at` may be asked now, and was not since it last sent or took a byte.
fn is_unasked(slots: &[Slot], at: usize) -> bool
    requires { at < length slots.now }
    ensures yes { IsTrue result → (c : Connection) → slice_get slots.now at ≡ Some c → IsUnasked slots.now c }
    ensures no { IsFalse result → (c : Connection) → slice_get slots.now at ≡ Some c → IsUnasked slots.now c → ⊥ }
{
    let slot = &slots[at];
    if slot.is_asked() {
        return false;
    }
    if slot.may_offer() {
        return true;
    }
    may_reserve(slots, at)
}

/// Adds bytes that came at the slot `at`, at the time `now`; returns whether its connection may be read from, and there
/// are bytes, for which memory is reserved.
pub fn arrive(slots: &mut [Slot], at: usize, bytes: &[u8], now: u64) -> bool
    ensures { IsMade result at (Came bytes.now now) (MayReadBytes bytes.now) slots.old slots.new }
{
    if at >= slots.len() {
        return false;
    }
    let slot = &mut slots[at];
    if !slot.may_read_bytes(bytes) {
        return false;
    }
    slot.arrive(bytes, now);
    true
}

/// Notes that the client at the slot `at` will send no more; returns whether its connection may be read from.
pub fn end(slots: &mut [Slot], at: usize) -> bool
    ensures { IsMade result at Ended MayRead slots.old slots.new }
{
    if at >= slots.len() {
        return false;
    }
    let slot = &mut slots[at];
    if !slot.may_read() {
        return false;
    }
    slot.end();
    true
}

/// Notes that the client at the slot `at` was asked at the time `now`, and sent or took nothing; returns whether its
/// connection may be read from, or has a reply under way that may go out.
pub fn ask(slots: &mut [Slot], at: usize, now: u64) -> bool
    ensures { IsMade result at (Asked now) MayAsk slots.old slots.new }
{
    if at >= slots.len() {
        return false;
    }
    let slot = &mut slots[at];
    if !slot.may_ask() {
        return false;
    }
    slot.ask(now);
    true
}

/// Notes that the writer at the slot `at` took the first `count` bytes of the reply, or all if there are fewer, at the
/// time `now`; returns whether it took any.
pub fn take(slots: &mut [Slot], at: usize, count: usize, now: u64) -> bool
    ensures took { IsTrue result → (c : Connection) × (slice_get slots.old at ≡ Some c)
        × ChangesAt at (Took (take count c.output) now) slots.old slots.new }
    ensures none { IsFalse result → (slots.new ≡ slots.old) × IsNoneAt at (MayTakeSome count) slots.old }
{
    if at >= slots.len() {
        return false;
    }
    let slot = &mut slots[at];
    if !slot.may_take_some(count) {
        return false;
    }
    slot.take(count, now);
    true
}

/// Returns whether the table gives the reason `why` to close a connection.
fn is_called_for(slots: &[Slot], why: Reason) -> bool
    ensures yes { IsTrue result → IsCalledFor why slots.now }
    ensures no { IsFalse result → IsCalledFor why slots.now → ⊥ }
{
    match why {
        Reason::Crowded => is_crowded(slots),
        Reason::Over
        | Reason::Broken
        | Reason::NoMemory
        | Reason::Unlogged
        | Reason::Uncommitted
        | Reason::Expired(_)
        | Reason::MadeRoom => true,
    }
}

/// Closes the connection at the slot `at` for the reason `why`; returns whether one is there that this is true of.
pub fn close(slots: &mut [Slot], at: usize, why: Reason) -> bool
    ensures { IsMade result at (Gone why) (MayEnd why slots.old) slots.old slots.new }
{
    if at >= slots.len() {
        return false;
    }
    if !is_called_for(slots, why) {
        return false;
    }
    let slot = &mut slots[at];
    if !slot.may_close(why) {
        return false;
    }
    slot.close();
    true
}

/// Answers the next request at the slot `at` if it is whole and one may be answered; returns whether it did.
fn turn_at<S: Service>(slots: &mut [Slot], at: usize, service: &mut S) -> bool
    requires here { at < length slots.old }
    requires needs { AreNeeded S.is_unfinished slots.old }
    requires room { unsent slots.old ≤ MAX_UNSENT }
    ensures answered { IsTrue result →
        (request : List ℕ) × (closes : Bool) × (reply : List ℕ) × (line : List ℕ)
        × ChangesAt at (Answered request closes reply line) slots.old slots.new
        × StepsAt S.answers S.lines S.commits S.commit_fails
        service.old (Answered request closes reply line) service.new }
    ensures idle { IsFalse result →
        ((c : Connection) × IsIdleAt S.is_unfinished c at slots.old slots.new) × (service.new ≡ service.old) }
{
    let slot = &mut slots[at];
    slot.turn(service)
}

/// Answers one request of each connection, from the slot `from` on, that has a whole one, and whose last reply was
/// taken; stops where too many bytes of replies are unsent.
fn answer_all<S: Service>(slots: &mut [Slot], from: usize, service: &mut S) -> Turns
    requires { AreReady S.is_unfinished slots.old }
    ensures turns { (entries : List Entry) × AreChanges entries slots.old slots.new
        × IsChain (Steps S.answers S.lines S.commits S.commit_fails) entries service.old service.new
        × AreAll IsATurn entries × IsRound S.is_unfinished from result.end slots.old entries
        × AreLogged entries [] (waiting 0 slots.new) × (IsFalse result.any → AreAll IsALack entries)
        × (IsTrue result.any → AreAll IsALack entries → ⊥) }
    ensures made { AreMadeOrSettled slots.new }
    ensures needs { AreNeeded S.is_unfinished slots.new }
    ensures settled { IsFalse result.any → AreSettled slots.new }
    ensures quiet { IsFalse result.any → from ≡ 0 → result.end ≡ length slots.new
        → IsQuiet S.is_unfinished slots.new × AreLacking slots.new }
{
    let mut any = false;
    let mut full = is_full(slots);
    for at in from..slots.len() {
        if full {
            return Turns { any, end: at };
        }
        if turn_at(slots, at, service) {
            any = true;
            full = is_full(slots);
        }
    }
    Turns {
        any,
        end: slots.len(),
    }
}

/// Notes at each slot that the service committed its replies.
fn commit_all(slots: &mut [Slot])
    ensures { slots.new ≡ map committed slots.old }
{
    for at in 0..slots.len() {
        let slot = &mut slots[at];
        slot.commit();
    }
}

/// Notes at each slot that the service failed to commit its replies.
fn fail_all(slots: &mut [Slot])
    ensures { slots.new ≡ map uncommitted slots.old }
{
    for at in 0..slots.len() {
        let slot = &mut slots[at];
        slot.fail_commit();
    }
}

/// Writes the line of the slot `at` to the log if its reply is committed.
fn log_at<L: Log>(slots: &mut [Slot], at: usize, log: &mut L)
    requires { at < length slots.old }
    ensures { IsNoted L.writes L.cuts at slots.old log.old slots.new log.new }
{
    let slot = &mut slots[at];
    if slot.is_committed() {
        slot.write_line(log);
    }
}

/// Writes the lines of all committed replies to the log.
fn log_all<L: Log>(slots: &mut [Slot], log: &mut L)
    requires { AreAllCommitted slots.old }
    ensures lines { (entries : List Entry) × AreChanges entries slots.old slots.new
        × IsChain (Notes L.writes L.cuts) entries log.old log.new
        × AreAll IsALine entries × AreLogged entries (waiting 0 slots.old) [] }
    ensures settled { AreSettled slots.new }
{
    for at in 0..slots.len() {
        log_at(slots, at, log);
    }
}

/// Answers one request of each connection, from the slot `from` on, that has a whole one, and whose last reply was
/// taken; then commits the replies, and writes their lines to the log. If the commit fails, the log gets no line, and
/// nothing of these replies goes out; if a line is cut off, nothing of its reply goes out. Stops at the slot at which
/// more than `MAX_UNSENT` bytes of replies and lines are unsent.
pub fn round<S: Service, L: Log>(
    slots: &mut [Slot],
    from: usize,
    service: &mut S,
    log: &mut L,
) -> Rounded
    requires { AreReady S.is_unfinished slots.old }
    ensures turns { (entries : List Entry)
        × Leads (Steps S.answers S.lines S.commits S.commit_fails) (Notes L.writes L.cuts) entries
        slots.old service.old log.old slots.new service.new log.new
        × IsOrdered result.outcome entries × IsRound S.is_unfinished from result.end slots.old entries }
    ensures ready { AreReady S.is_unfinished slots.new }
    ensures quiet { result.outcome ≡ Outcome.Quiet → from ≡ 0 → result.end ≡ length slots.new
        → IsQuiet S.is_unfinished slots.new × AreLacking slots.new }
{
    let turns = answer_all(slots, from, service);
    let end = turns.end;
    if !turns.any {
        return Rounded {
            outcome: Outcome::Quiet,
            end,
        };
    }
    let Ok(()) = service.commit() else {
        fail_all(slots);
        return Rounded {
            outcome: Outcome::Uncommitted,
            end,
        };
    };
    commit_all(slots);
    log_all(slots, log);
    Rounded {
        outcome: Outcome::Answered,
        end,
    }
}
