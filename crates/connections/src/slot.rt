//! One slot of the table, and the connection in it.
ghost use Rattle.std.specs.Prelude.{◌≡◌, ◌≤◌, ◌<◌, ◌+◌, ◌-◌, ◌/◌, ◌↔◌, ◌⊎◌, ℕ, true, false, []};
ghost use Rattle.std.specs.Prelude.{length, take, drop, vec_len};
ghost use Rattle.std.specs.Prelude.{IfOk, IsTrue, IsFalse, MatchOption, OnOk, OnErr};
ghost use Rattle.std.specs.Vec.{vec_capacity};
ghost use Rattle.connections.specs.Connections.{Asked, Came, CutOff, Ended, Logged, Opened, Reserved, Took};
ghost use Rattle.connections.specs.Connections.{AwaitsAnswer, IsChange, IsExpired, IsIdleFor, IsLacking};
ghost use Rattle.connections.specs.Connections.{IsLate, IsOver, IsOverdue, IsSilent, IsSlow};
ghost use Rattle.connections.specs.Connections.{MayAnswer, MayAsk, MayMakeRoom, MayOffer, MayRead};
ghost use Rattle.connections.specs.Connections.{committed, fresh, is_long, reply_due, takes_permit};
ghost use Rattle.connections.specs.Connections.{uncommitted, unsent_of};
ghost use Rattle.connections.specs.Framing.{StaysUnfinished};
ghost use Rattle.connections.specs.Limits.{HasClaim, IsDue, IsFirstAfter, claimed};
ghost use Rattle.connections.specs.Made.{MayClose, MayReadBytes, MayTake, MayTakeSome};
ghost use Rattle.connections.specs.Steps.{IsIdle, IsTurn};

use crate::logging::Log;
use crate::service::{Outcome, Service};
use crate::times::{sooner, until, until_both};
use crate::{
    BYTES_PER_MILLI, CROWDED_PER_MILLI, LINE_ROOM, MAX_READ, MAX_REQUEST, MAX_SHORT, REPLY_ROOM,
    REQUEST_MILLIS, ROOM_MILLIS,
};
use std::alloc::{AllocError, Global};
use std::marker::Model;

/// How far the last reply of a connection has come.
#[derive(Clone, Copy)]
pub enum Stage {
    /// The service made it, and has not committed it.
    Made,
    /// It is committed, and the log is to get its line.
    Committed,
    /// The log has its whole line, so it may go out; or there was no reply yet.
    Logged,
    /// Its commit failed: nothing of it goes out.
    Uncommitted,
    /// The log got only a proper prefix of its line: nothing of it goes out.
    Unlogged,
}

/// Why a connection is closed.
#[derive(Clone, Copy)]
pub enum Reason {
    /// Its last reply was taken, and that reply or its client ended it.
    Over,
    /// A read or a write failed, and such a call may be made.
    Broken,
    /// Memory for a read was refused, and it may be read from.
    NoMemory,
    /// The log got only a proper prefix of the line of its last reply.
    Unlogged,
    /// The commit of its last reply failed.
    Uncommitted,
    /// Its client was asked, and for so many milliseconds no byte came or was taken, if there is such a limit; or its
    /// request is late; or too few bytes of its reply are taken.
    Expired(Option<u64>),
    /// Its client was asked, and it is idle, or its request is late, or too few bytes of its reply are taken; and
    /// another connection needs its slot.
    MadeRoom,
    /// Its client was asked, and takes its reply too slowly while the table is crowded: more than `MAX_UNSENT` bytes
    /// are unsent, and another connection awaits its answer.
    Crowded,
}

/// A limit of time.
#[derive(Clone, Copy)]
pub enum Limit {
    /// Connections are closed as [`Reason::Expired`], after so many milliseconds without a byte, if there is such a
    /// limit.
    Expiry(Option<u64>),
    /// Another connection needs a slot: one is closed as [`Reason::MadeRoom`].
    Room,
    /// The table is crowded: one is closed as [`Reason::Crowded`].
    Crowd,
}

/// Why a connection may be closed before others.
#[derive(Clone, Copy)]
pub enum Claim {
    /// It is idle.
    Idle,
    /// Its request is late.
    Late,
    /// Too few bytes of its reply are taken.
    Slow,
    /// Too few bytes of its reply are taken for a crowded table.
    Crowding,
}

/// A slot for a connection, with its bytes in both directions.
///
/// Contracts see a `Connection`: its flags and stage, the bytes that came and are not answered, the bytes of its last
/// reply that its writer has not taken, and the line that the log is to get.
#[derive(Drop)]
pub struct Slot {
    open: bool,
    ended: bool,
    closing: bool,
    stage: Stage,
    input: Vec<u8>,
    // The number of bytes of `input` that are answered.
    done: usize,
    output: Vec<u8>,
    // The number of bytes of `output` that are taken.
    sent: usize,
    // The line for the log; what it holds once the log got it has no meaning.
    line: Vec<u8>,
    // Fewer bytes of input than this are less than a request.
    needed: usize,
    // The number of bytes for which `input` has memory.
    spare: usize,
    // The time of the last byte in either direction, or of the first offer of the last reply, or of the permit to hold
    // more than `MAX_SHORT` bytes, if that is later.
    since: u64,
    // The time when the request under way began, or of that permit.
    began: u64,
    // The number of bytes of the last reply in whole.
    reply_size: usize,
    // Whether the last reply was offered to its client, and when first.
    offered: bool,
    offered_at: u64,
    // Whether the client was asked, and sent or took nothing since, and when last.
    asked: bool,
    asked_at: u64,
}

impl Model for Slot {
    ghost use Rattle.std.specs.Prelude.{◌≤◌, ◌+◌, drop, vec_len};
    ghost use Rattle.std.specs.Vec.{vec_capacity};
    ghost use Rattle.connections.specs.declared.TheConstants.{LINE_ROOM, REPLY_ROOM};
    ghost use Rattle.connections.specs.Connections.{Connection, kept};

    ghost Value = { Connection };

    ghost view = { λ s. record {
      is_open = s.open;
      ended = s.ended;
      closing = s.closing;
      stage = s.stage;
      input = drop s.done s.input.items;
      output = drop s.sent s.output.items;
      line = kept s.stage s.line.items;
      needed = s.needed;
      spare = s.spare;
      since = s.since;
      began = s.began;
      reply_size = s.reply_size;
      offered = s.offered;
      offered_at = s.offered_at;
      asked = s.asked;
      asked_at = s.asked_at;
    } };

    ghost invariant = { λ s. (s.done ≤ vec_len s.input) × (s.sent ≤ vec_len s.output)
        × (vec_len s.input + s.spare ≤ vec_capacity s.input)
        × (REPLY_ROOM ≤ vec_capacity s.output) × (LINE_ROOM ≤ vec_capacity s.line) };
}

impl Slot {
    /// Creates a slot without a connection.
    ///
    /// # Errors
    ///
    /// - `AllocError`: an allocation failed.
    pub fn new(alloc: Global) -> Result<Slot, AllocError>
        ensures { IfOk result (λ slot. slot ≡ fresh false 0) }
    {
        let output = Vec::with_capacity(alloc, REPLY_ROOM)?;
        let line = Vec::with_capacity(alloc, LINE_ROOM)?;
        Ok(Slot {
            open: false,
            ended: false,
            closing: false,
            stage: Stage::Logged,
            input: Vec::new(alloc),
            done: 0,
            output,
            sent: 0,
            line,
            needed: 0,
            spare: 0,
            since: 0,
            began: 0,
            reply_size: 0,
            offered: true,
            offered_at: 0,
            asked: false,
            asked_at: 0,
        })
    }

    /// Returns whether the slot has a connection.
    pub fn is_open(&self) -> bool
        ensures { result ≡ self.now.is_open }
    {
        self.open
    }

    /// Opens a connection in this free slot, at the time `now`.
    pub fn open(&mut self, now: u64)
        requires { self.old.is_open ≡ false }
        ensures { IsChange (Opened now) self.old self.new }
    {
        self.clear(true, now);
    }

    /// Removes all bytes.
    fn clear(&mut self, is_open: bool, now: u64)
        ensures { self.new ≡ fresh is_open now }
    {
        self.open = is_open;
        self.ended = false;
        self.closing = false;
        self.stage = Stage::Logged;
        self.input.clear();
        self.done = 0;
        self.output.clear();
        self.sent = 0;
        self.line.clear();
        self.needed = 0;
        self.spare = 0;
        self.since = now;
        self.began = now;
        self.reply_size = 0;
        self.offered = true;
        self.offered_at = now;
        self.asked = false;
        self.asked_at = now;
    }

    /// Returns how far the last reply has come.
    pub fn stage(&self) -> Stage
        ensures { result ≡ self.now.stage }
    {
        self.stage
    }

    /// Returns whether the whole line of the last reply is in the log, or there was no reply yet.
    pub fn is_logged(&self) -> bool
        ensures { IsTrue result ↔ (self.now.stage ≡ Stage.Logged) }
    {
        match self.stage {
            Stage::Logged => true,
            Stage::Made | Stage::Committed | Stage::Uncommitted | Stage::Unlogged => false,
        }
    }

    /// Returns the bytes of the last reply that the writer has not taken. They may go out only if the reply
    /// [`Slot::is_logged`].
    pub fn output(&self) -> &[u8]
        ensures { result.now ≡ self.now.output }
    {
        &self.output[self.sent..]
    }

    /// Returns whether the writer has taken the whole reply.
    pub fn is_drained(&self) -> bool
        ensures { IsTrue result ↔ (self.now.output ≡ []) }
    {
        self.output().is_empty()
    }

    /// Returns whether a request may be answered.
    pub fn may_answer(&self) -> bool
        ensures may { IsTrue result → MayAnswer self.now }
        ensures may_not { IsFalse result → MayAnswer self.now → ⊥ }
    {
        if !self.open {
            return false;
        }
        if self.closing {
            return false;
        }
        if !self.is_logged() {
            return false;
        }
        self.is_drained()
    }

    /// Returns whether a request may be answered, and the bytes that wait are not known to be less than one.
    pub fn awaits_answer(&self) -> bool
        ensures yes { IsTrue result → AwaitsAnswer self.now }
        ensures no { IsFalse result → AwaitsAnswer self.now → ⊥ }
    {
        if !self.may_answer() {
            return false;
        }
        !self.is_lacking()
    }

    /// Returns whether bytes may be read.
    pub fn may_read(&self) -> bool
        ensures may { IsTrue result → MayRead self.now }
        ensures may_not { IsFalse result → MayRead self.now → ⊥ }
    {
        if self.ended {
            return false;
        }
        if self.input.len() - self.done > MAX_REQUEST {
            return false;
        }
        if !self.is_lacking() {
            return false;
        }
        self.may_answer()
    }

    /// Returns whether the bytes that wait are known to be less than a request.
    fn is_lacking(&self) -> bool
        ensures yes { IsTrue result → IsLacking self.now }
        ensures no { IsFalse result → IsLacking self.now → ⊥ }
    {
        self.input.len() == self.done || self.lacks_bytes()
    }

    /// Returns whether the connection is over: its last reply was taken, and that reply ended it; or its client ended
    /// it with less than a request left.
    pub fn is_over(&self) -> bool
        ensures over { IsTrue result → IsOver self.now }
        ensures not_over { IsFalse result → IsOver self.now → ⊥ }
    {
        if !self.closing && !self.is_cut_short() {
            return false;
        }
        if !self.is_logged() {
            return false;
        }
        self.is_drained()
    }

    /// Returns whether the client will send no more, and less than a request is left.
    fn is_cut_short(&self) -> bool
        ensures yes { IsTrue result → (self.now.ended ≡ true) × IsLacking self.now }
        ensures no { IsFalse result → (self.now.ended ≡ true) × IsLacking self.now → ⊥ }
    {
        if !self.ended {
            return false;
        }
        self.is_lacking()
    }

    /// Returns whether there are fewer bytes of input than a request is known to need.
    fn lacks_bytes(&self) -> bool
        ensures yes { IsTrue result → length self.now.input < self.now.needed }
        ensures no { IsFalse result → length self.now.input < self.now.needed → ⊥ }
    {
        self.input.len() - self.done < self.needed
    }

    /// Returns whether a connection is here that may be closed for the reason `why`.
    pub fn may_close(&self, why: Reason) -> bool
        ensures may { IsTrue result → MayClose why self.now }
        ensures may_not { IsFalse result → MayClose why self.now → ⊥ }
    {
        if !self.open {
            return false;
        }
        match why {
            Reason::Over => self.is_over(),
            Reason::Broken => self.may_ask(),
            Reason::NoMemory => self.may_read(),
            Reason::Unlogged => self.is_unlogged(),
            Reason::Uncommitted => self.is_uncommitted(),
            Reason::Expired(idle) => self.is_awaited() && self.is_expired(idle, self.asked_at),
            Reason::MadeRoom => self.is_awaited() && self.may_make_room(self.asked_at),
            Reason::Crowded => {
                self.is_awaited() && self.is_slow(ROOM_MILLIS, CROWDED_PER_MILLI, self.asked_at)
            }
        }
    }

    /// Returns whether the last reply may go out, and the client was asked and sent or took nothing.
    fn is_awaited(&self) -> bool
        ensures yes { IsTrue result → (self.now.stage ≡ Stage.Logged) × (self.now.asked ≡ true) }
        ensures no { IsFalse result → (self.now.stage ≡ Stage.Logged) × (self.now.asked ≡ true) → ⊥ }
    {
        if !self.asked {
            return false;
        }
        self.is_logged()
    }

    /// Returns whether at the time `now` no byte came or was taken for `idle` milliseconds, if there is such a limit.
    fn is_silent(&self, idle: Option<u64>, now: u64) -> bool
        ensures yes { IsTrue result → IsSilent idle now self.now }
        ensures no { IsFalse result → IsSilent idle now self.now → ⊥ }
    {
        match idle {
            None => false,
            Some(millis) => self.is_silent_for(millis, now),
        }
    }

    /// Returns whether at the time `now` no byte came or was taken for `millis` milliseconds.
    fn is_silent_for(&self, millis: u64, now: u64) -> bool
        ensures yes { IsTrue result → self.now.since + millis ≤ now }
        ensures no { IsFalse result → self.now.since + millis ≤ now → ⊥ }
    {
        now >= self.since && now - self.since >= millis
    }

    /// Returns whether a request is under way, and is not whole when it is due.
    fn is_late(&self, now: u64) -> bool
        ensures yes { IsTrue result → IsLate now self.now }
        ensures no { IsFalse result → IsLate now self.now → ⊥ }
    {
        if !self.has_request() {
            return false;
        }
        now >= self.began && now - self.began >= self.time_of_request()
    }

    /// Returns whether a request is under way.
    fn has_request(&self) -> bool
        ensures yes { IsTrue result → (0 < length self.now.input) × (self.now.output ≡ []) }
        ensures no { IsFalse result → (0 < length self.now.input) × (self.now.output ≡ []) → ⊥ }
    {
        if self.input.len() == self.done {
            return false;
        }
        self.is_drained()
    }

    /// Returns the milliseconds that the request under way has in all.
    fn time_of_request(&self) -> u64
        ensures { result ≡ REQUEST_MILLIS + (length self.now.input - MAX_READ) / BYTES_PER_MILLI }
    {
        let size = self.input.len() - self.done;
        let more = (size.saturating_sub(MAX_READ) / BYTES_PER_MILLI) as u64;
        REQUEST_MILLIS + more
    }

    /// Returns whether too few bytes of the reply under way are taken at the time `now`: it has `least` milliseconds,
    /// and one more for each `rate` bytes that are taken.
    fn is_slow(&self, least: u64, rate: usize, now: u64) -> bool
        requires { 0 < rate }
        ensures yes { IsTrue result → IsSlow least rate now self.now }
        ensures no { IsFalse result → IsSlow least rate now self.now → ⊥ }
    {
        if !self.has_offer() {
            return false;
        }
        if now < self.offered_at {
            return false;
        }
        let spent = now - self.offered_at;
        spent >= least && spent - least >= self.earned(rate)
    }

    /// Returns whether a reply is under way, and was offered.
    fn has_offer(&self) -> bool
        ensures yes { IsTrue result → (self.now.offered ≡ true) × (0 < length self.now.output) }
        ensures no { IsFalse result → (self.now.offered ≡ true) × (0 < length self.now.output) → ⊥ }
    {
        if !self.offered {
            return false;
        }
        self.output.len() > self.sent
    }

    /// Returns the milliseconds that the bytes of the reply that are taken give it, one for each `rate` bytes.
    fn earned(&self, rate: usize) -> u64
        requires { 0 < rate }
        ensures { result ≡ (self.now.reply_size - length self.now.output) / rate }
    {
        (self
            .reply_size
            .saturating_sub(self.output.len() - self.sent)
            / rate) as u64
    }

    /// Returns the milliseconds from `now` until too few bytes of the reply under way are taken, if there is one.
    fn wait_slow(&self, least: u64, rate: usize, now: u64) -> Option<u64>
        requires { 0 < rate }
        ensures { IsFirstAfter now (λ t. IsSlow least rate t self.now) result }
    {
        if !self.has_offer() {
            return None;
        }
        Some(until_both(self.offered_at, least, self.earned(rate), now))
    }

    /// Returns whether the request under way is late, or too few bytes of the reply under way are taken.
    fn is_overdue(&self, now: u64) -> bool
        ensures yes { IsTrue result → IsOverdue now self.now }
        ensures no { IsFalse result → IsOverdue now self.now → ⊥ }
    {
        self.is_late(now) || self.is_slow(REQUEST_MILLIS, BYTES_PER_MILLI, now)
    }

    /// Returns the milliseconds from `now` until the connection is overdue.
    fn wait_overdue(&self, now: u64) -> Option<u64>
        ensures { IsFirstAfter now (λ t. IsOverdue t self.now) result }
    {
        sooner(
            self.wait_late(now),
            self.wait_slow(REQUEST_MILLIS, BYTES_PER_MILLI, now),
        )
    }

    /// Returns the milliseconds from `now` until the request under way is late, if there is one.
    fn wait_late(&self, now: u64) -> Option<u64>
        ensures { IsFirstAfter now (λ t. IsLate t self.now) result }
    {
        if !self.has_request() {
            return None;
        }
        Some(until(self.began, self.time_of_request(), now))
    }

    /// Returns the milliseconds from `now` until the connection is idle for long enough to make room, if it is idle.
    fn wait_idle(&self, now: u64) -> Option<u64>
        ensures { IsFirstAfter now (λ t. IsIdleFor ROOM_MILLIS t self.now) result }
    {
        if !self.has_nothing() {
            return None;
        }
        Some(until(self.since, ROOM_MILLIS, now))
    }

    /// Returns the milliseconds from `now` until no byte came or was taken for `idle` milliseconds, if there is such a
    /// limit.
    fn wait_silent(&self, idle: Option<u64>, now: u64) -> Option<u64>
        ensures { IsFirstAfter now (λ t. IsSilent idle t self.now) result }
    {
        match idle {
            None => None,
            Some(millis) => Some(until(self.since, millis, now)),
        }
    }

    /// Returns the milliseconds from `now` until the connection is expired, with the limit of silence `idle`.
    fn wait_expired(&self, idle: Option<u64>, now: u64) -> Option<u64>
        ensures { IsFirstAfter now (λ t. IsExpired idle t self.now) result }
    {
        sooner(self.wait_silent(idle, now), self.wait_overdue(now))
    }

    /// Returns the milliseconds from `now` until the connection may make room for another.
    fn wait_room(&self, now: u64) -> Option<u64>
        ensures { IsFirstAfter now (λ t. MayMakeRoom t self.now) result }
    {
        sooner(self.wait_idle(now), self.wait_overdue(now))
    }

    /// Returns the milliseconds from `now` until the connection is over the limit, if its client goes on sending and
    /// taking nothing. Then it is to be asked again, and closed if it still does.
    pub fn wait(&self, limit: Limit, now: u64) -> Option<u64>
        ensures { IsFirstAfter now (λ t. IsDue limit t self.now) result }
    {
        if !self.open {
            return None;
        }
        if !self.is_awaited() {
            return None;
        }
        match limit {
            Limit::Expiry(idle) => self.wait_expired(idle, now),
            Limit::Room => self.wait_room(now),
            Limit::Crowd => self.wait_slow(ROOM_MILLIS, CROWDED_PER_MILLI, now),
        }
    }

    /// Returns the time since which the connection has the claim, if it has it.
    pub fn claimed_since(&self, claim: Claim) -> Option<u64>
        ensures { MatchOption result (HasClaim claim self.now → ⊥)
            (λ time. HasClaim claim self.now × (time ≡ claimed claim self.now)) }
    {
        match claim {
            Claim::Idle => {
                if !self.may_close(Reason::MadeRoom) || !self.is_idle(ROOM_MILLIS, self.asked_at) {
                    return None;
                }
                Some(self.since)
            }
            Claim::Late => {
                if !self.may_close(Reason::MadeRoom) || !self.is_late(self.asked_at) {
                    return None;
                }
                Some(self.began + self.time_of_request())
            }
            Claim::Slow => {
                if !self.may_close(Reason::MadeRoom) {
                    return None;
                }
                self.slow_since(REQUEST_MILLIS, BYTES_PER_MILLI)
            }
            Claim::Crowding => {
                if !self.may_close(Reason::Crowded) {
                    return None;
                }
                self.slow_since(ROOM_MILLIS, CROWDED_PER_MILLI)
            }
        }
    }

    /// Returns the time since which too few bytes of the reply under way are taken, if that was so when the client was
    /// asked last.
    fn slow_since(&self, least: u64, rate: usize) -> Option<u64>
        requires { 0 < rate }
        ensures { MatchOption result (IsSlow least rate self.now.asked_at self.now → ⊥)
            (λ time. IsSlow least rate self.now.asked_at self.now × (time ≡ reply_due least rate self.now)) }
    {
        if !self.is_slow(least, rate, self.asked_at) {
            return None;
        }
        Some(self.offered_at + least + self.earned(rate))
    }

    /// Returns whether at the time `now` no byte came or was taken for `idle` milliseconds, if there is such a limit,
    /// or the connection is overdue.
    fn is_expired(&self, idle: Option<u64>, now: u64) -> bool
        ensures yes { IsTrue result → IsExpired idle now self.now }
        ensures no { IsFalse result → IsExpired idle now self.now → ⊥ }
    {
        self.is_silent(idle, now) || self.is_overdue(now)
    }

    /// Returns whether nothing is under way, and at the time `now` no byte came or was taken for `millis` milliseconds.
    pub fn is_idle(&self, millis: u64, now: u64) -> bool
        ensures yes { IsTrue result → IsIdleFor millis now self.now }
        ensures no { IsFalse result → IsIdleFor millis now self.now → ⊥ }
    {
        if !self.has_nothing() {
            return false;
        }
        self.is_silent_for(millis, now)
    }

    /// Returns whether neither a request nor a reply is under way.
    fn has_nothing(&self) -> bool
        ensures yes { IsTrue result → (length self.now.input ≡ 0) × (self.now.output ≡ []) }
        ensures no { IsFalse result → (length self.now.input ≡ 0) × (self.now.output ≡ []) → ⊥ }
    {
        if self.input.len() > self.done {
            return false;
        }
        self.is_drained()
    }

    /// Returns whether the connection may make room for another at the time `now`.
    fn may_make_room(&self, now: u64) -> bool
        ensures yes { IsTrue result → MayMakeRoom now self.now }
        ensures no { IsFalse result → MayMakeRoom now self.now → ⊥ }
    {
        self.is_idle(ROOM_MILLIS, now) || self.is_overdue(now)
    }

    /// Returns whether the log got only a proper prefix of the line of the last reply.
    fn is_unlogged(&self) -> bool
        ensures { IsTrue result ↔ (self.now.stage ≡ Stage.Unlogged) }
    {
        match self.stage {
            Stage::Unlogged => true,
            Stage::Made | Stage::Committed | Stage::Logged | Stage::Uncommitted => false,
        }
    }

    /// Returns whether the commit of the last reply failed.
    fn is_uncommitted(&self) -> bool
        ensures { IsTrue result ↔ (self.now.stage ≡ Stage.Uncommitted) }
    {
        match self.stage {
            Stage::Uncommitted => true,
            Stage::Made | Stage::Committed | Stage::Logged | Stage::Unlogged => false,
        }
    }

    /// Returns the number of bytes for which memory is reserved.
    pub fn spare(&self) -> usize
        ensures { result ≡ self.now.spare }
    {
        self.spare
    }

    /// Reserves memory for one read at the time `now`. If by this read the connection comes to hold more than
    /// `MAX_SHORT` bytes, its times begin at `now`, since the read may have been withheld before.
    ///
    /// # Errors
    ///
    /// - `AllocError`: an allocation failed; the connection is unchanged.
    pub fn reserve(&mut self, now: u64) -> Result<(), AllocError>
        requires { MayRead self.old }
        ensures ok { OnOk result (IsChange (Reserved now) self.old self.new) }
        ensures err { OnErr result (self.new ≡ self.old) }
    {
        if self.done > 0 {
            drop_front(&mut self.input, self.done);
            self.done = 0;
        }
        let more = self.missing();
        self.input.reserve(more.saturating_add(MAX_READ))?;
        if self.takes_permit() {
            self.since = now;
            self.began = now;
        }
        self.spare = MAX_READ;
        Ok(())
    }

    /// Returns whether the connection holds at most `MAX_SHORT` bytes, and more with memory for one more read.
    fn takes_permit(&self) -> bool
        ensures { result ≡ takes_permit self.now }
    {
        if self.is_long() {
            return false;
        }
        !self.stays_short()
    }

    /// Returns how many bytes are missing of a long request, if its size is known, so that it is allocated once.
    fn missing(&self) -> usize {
        if self.stays_short() {
            return 0;
        }
        self.needed.saturating_sub(self.input.len())
    }

    /// Returns whether the connection, with memory for one more read, holds at most `MAX_SHORT` bytes.
    pub fn stays_short(&self) -> bool
        ensures { IsTrue result ↔ (length self.now.input + MAX_READ ≤ MAX_SHORT) }
    {
        self.input.len() - self.done <= MAX_SHORT - MAX_READ
    }

    /// Returns whether the connection holds more than `MAX_SHORT` bytes, with those for which memory is reserved.
    pub fn is_long(&self) -> bool
        ensures { result ≡ is_long self.now }
    {
        self.input.len() - self.done + self.spare > MAX_SHORT
    }

    /// Frees the memory of a long request that is answered. Does nothing while one is read, so its bytes are not moved.
    fn free_input(&mut self)
        ensures { self.new ≡ self.old }
    {
        if self.done == 0 || self.input.capacity() <= MAX_SHORT {
            return;
        }
        drop_front(&mut self.input, self.done);
        self.done = 0;
        self.input.shrink_to(self.input.len() + self.spare);
    }

    /// Frees the memory of a long line that the log got, or is never to get.
    fn free_line(&mut self)
        ensures { self.new ≡ self.old }
    {
        if self.line.capacity() <= MAX_SHORT || self.line_size() > 0 {
            return;
        }
        self.line.clear();
        self.line.shrink_to(LINE_ROOM);
    }

    /// Returns the number of bytes of the line that the log is to get.
    fn line_size(&self) -> usize
        ensures { result ≡ length self.now.line }
    {
        match self.stage {
            Stage::Made | Stage::Committed => self.line.len(),
            Stage::Logged | Stage::Uncommitted | Stage::Unlogged => 0,
        }
    }

    /// Returns the number of bytes of the last reply that the writer has not taken, and of the line that the log is to
    /// get for it.
    pub fn unsent(&self) -> usize
        ensures { result ≡ unsent_of self.now }
    {
        self.output.len() - self.sent + self.line_size()
    }

    /// Frees the memory of a long reply that is taken.
    fn free_output(&mut self)
        ensures { self.new ≡ self.old }
    {
        if self.output.capacity() <= MAX_SHORT || self.sent < self.output.len() {
            return;
        }
        self.output.clear();
        self.sent = 0;
        self.output.shrink_to(REPLY_ROOM);
    }

    /// Returns whether the connection may be read from, and there are bytes, for which memory is reserved.
    pub fn may_read_bytes(&self, bytes: &[u8]) -> bool
        ensures may { IsTrue result → MayReadBytes bytes.now self.now }
        ensures may_not { IsFalse result → MayReadBytes bytes.now self.now → ⊥ }
    {
        if !self.may_read() {
            return false;
        }
        !bytes.is_empty() && bytes.len() <= self.spare
    }

    /// Adds bytes that came at the time `now`.
    pub fn arrive(&mut self, bytes: &[u8], now: u64)
        requires may { MayReadBytes bytes.now self.old }
        ensures { IsChange (Came bytes.now now) self.old self.new }
    {
        if self.input.len() == self.done {
            self.began = now;
        }
        self.since = now;
        self.asked = false;
        self.spare -= bytes.len();
        self.input.extend_from_slice(bytes).unwrap();
    }

    /// Notes that the client will send no more.
    pub fn end(&mut self)
        requires { MayRead self.old }
        ensures { IsChange Ended self.old self.new }
    {
        self.ended = true;
        self.asked = false;
    }

    /// Returns whether the client was asked since it last sent or took a byte, ended its side or had a request
    /// answered.
    pub fn is_asked(&self) -> bool
        ensures { result ≡ self.now.asked }
    {
        self.asked
    }

    /// Returns whether the client may be asked: to send more, or to take more of a reply.
    pub fn may_ask(&self) -> bool
        ensures may { IsTrue result → MayAsk self.now }
        ensures may_not { IsFalse result → MayAsk self.now → ⊥ }
    {
        self.may_read() || self.may_offer()
    }

    /// Returns whether a reply is under way that may go out.
    pub fn may_offer(&self) -> bool
        ensures may { IsTrue result → MayOffer self.now }
        ensures may_not { IsFalse result → MayOffer self.now → ⊥ }
    {
        if !self.may_take() {
            return false;
        }
        self.output.len() > self.sent
    }

    /// Notes that the client was asked at the time `now`, and sent or took nothing.
    pub fn ask(&mut self, now: u64)
        requires { MayAsk self.old }
        ensures { IsChange (Asked now) self.old self.new }
    {
        if !self.offered {
            self.since = now;
            self.began = now;
            self.offered_at = now;
        }
        self.offered = true;
        self.asked = true;
        self.asked_at = now;
    }

    /// Answers the request at the front of the input if it is whole and one may be answered; returns whether it did.
    /// Does not ask the service while there are fewer bytes than it said to need.
    pub fn turn<S: Service>(&mut self, service: &mut S) -> bool
        requires { StaysUnfinished S.is_unfinished self.old.input self.old.needed }
        ensures answered { IsTrue result → IsTurn S.answers S.lines S.commits S.commit_fails
            self.old service.old self.new service.new }
        ensures idle { IsFalse result → IsIdle S.is_unfinished self.old self.new × (service.new ≡ service.old) }
    {
        if !self.may_answer() {
            return false;
        }
        if self.lacks_bytes() {
            return false;
        }
        self.output.clear();
        self.sent = 0;
        self.line.clear();
        match service.answer(&self.input[self.done..], &mut self.output, &mut self.line) {
            Outcome::Answered(size, closes) => {
                self.done += size;
                self.closing = closes;
                self.stage = Stage::Made;
                self.needed = 0;
                self.began = self.since;
                self.reply_size = self.output.len();
                self.offered = false;
                self.asked = false;
                true
            }
            Outcome::Unfinished(needed) => {
                self.needed = needed;
                false
            }
        }
    }

    /// Notes that the service committed its replies.
    pub fn commit(&mut self)
        ensures { self.new ≡ committed self.old }
    {
        match self.stage {
            Stage::Made => {
                self.stage = Stage::Committed;
                self.free_input();
            }
            Stage::Committed | Stage::Logged | Stage::Uncommitted | Stage::Unlogged => {}
        }
    }

    /// Notes that the service failed to commit its replies.
    pub fn fail_commit(&mut self)
        ensures { self.new ≡ uncommitted self.old }
    {
        match self.stage {
            Stage::Made => {
                self.stage = Stage::Uncommitted;
                self.free_line();
            }
            Stage::Committed | Stage::Logged | Stage::Uncommitted | Stage::Unlogged => {}
        }
    }

    /// Returns whether the log is to get the line of the last reply.
    pub fn is_committed(&self) -> bool
        ensures { IsTrue result ↔ (self.now.stage ≡ Stage.Committed) }
    {
        match self.stage {
            Stage::Committed => true,
            Stage::Made | Stage::Logged | Stage::Uncommitted | Stage::Unlogged => false,
        }
    }

    /// Writes the line of the committed reply to the log; returns whether the log got the whole line.
    pub fn write_line<L: Log>(&mut self, log: &mut L) -> bool
        requires { self.old.stage ≡ Stage.Committed }
        ensures written { IsTrue result → IsChange (Logged self.old.line) self.old self.new
            × L.writes log.old self.old.line log.new }
        ensures cut_off { IsFalse result → IsChange (CutOff self.old.line) self.old self.new
            × L.cuts log.old self.old.line log.new }
    {
        match log.write_line(self.line.as_slice()) {
            Ok(()) => {
                self.stage = Stage::Logged;
                self.free_line();
                true
            }
            Err(_) => {
                self.stage = Stage::Unlogged;
                self.free_line();
                false
            }
        }
    }

    /// Returns whether the last reply may go out.
    pub fn may_take(&self) -> bool
        ensures may { IsTrue result → MayTake self.now }
        ensures may_not { IsFalse result → MayTake self.now → ⊥ }
    {
        if !self.open {
            return false;
        }
        self.is_logged()
    }

    /// Returns whether a writer that takes the first `count` bytes of the reply, or all if there are fewer, takes any.
    pub fn may_take_some(&self, count: usize) -> bool
        ensures may { IsTrue result → MayTakeSome count self.now }
        ensures may_not { IsFalse result → MayTakeSome count self.now → ⊥ }
    {
        if !self.may_take() {
            return false;
        }
        if count == 0 {
            return false;
        }
        !self.is_drained()
    }

    /// Notes that the writer took the first `count` bytes of the reply, or all if there are fewer, at the time `now`.
    pub fn take(&mut self, count: usize, now: u64)
        requires { MayTakeSome count self.old }
        ensures { IsChange (Took (take count self.old.output) now) self.old self.new }
    {
        let left = self.output.len() - self.sent;
        self.sent += count.min(left);
        self.since = now;
        self.began = now;
        if !self.offered {
            self.offered_at = now;
        }
        self.offered = true;
        self.asked = false;
        self.free_output();
    }

    /// Closes the connection, and frees its memory.
    pub fn close(&mut self)
        ensures { self.new ≡ fresh false 0 }
    {
        self.clear(false, 0);
        self.input.shrink_to(0);
        self.free_output();
        self.free_line();
    }
}

/// Removes the first `count` bytes.
fn drop_front(bytes: &mut Vec<u8>, count: usize)
    requires { count ≤ vec_len bytes.old }
    ensures items { bytes.new.items ≡ drop count bytes.old.items }
    ensures len { vec_len bytes.new + count ≡ vec_len bytes.old }
    ensures capacity { vec_capacity bytes.new ≡ vec_capacity bytes.old }
{
    let left = bytes.len() - count;
    bytes.copy_within(count.., 0);
    bytes.truncate(left);
}
