//! What a loop remembers from turn to turn.
ghost use Rattle.std.specs.Prelude.{◌≡◌, ◌<◌, ◌≤◌, IsTrue, IsFalse};
ghost use Rattle.connections.specs.Limits.{IsFirstAfter};
ghost use Rattle.connection_loop.specs.Happenings.{Rounded, after, after_act, is_left, longer};
ghost use Rattle.connection_loop.specs.Acts.{NotAccepted};
ghost use Rattle.connection_loop.specs.Serving.{beginning};
ghost use Rattle.connection_loop.specs.Turns.{MayAccept};
ghost use Rattle.connection_loop.specs.declared.TheConstants.{MOST};

use crate::LONGEST_PAUSE;
use crate::limits::Limits;
use connections::table::Outcome;

/// What a loop remembers from turn to turn.
#[derive(Clone, Copy)]
pub struct Course {
    /// The time that the clock told last.
    pub clock: u64,
    /// Whether bytes were moved, a request answered or a connection closed since the last wait.
    pub busy: bool,
    /// Whether an attempt to accept found no client, since the last wait.
    pub nobody: bool,
    /// Whether an attempt to accept failed, since the last wait.
    pub failed: bool,
    /// Whether a client waits that could not be accepted, as far as was asked since the last wait.
    pub sought: bool,
    /// The slot at which the next round of answers begins.
    pub from: usize,
    /// The pause after the last failure to accept, in milliseconds; 0 if a connection was accepted since.
    pub pause: u64,
    /// The time before which no connection is accepted.
    pub resume: u64,
    /// The number of connections that were accepted.
    pub accepted: u64,
}

impl Course {
    /// Returns what a loop remembers before its first turn, which does not sleep.
    pub fn beginning() -> Course
        ensures { result ≡ beginning }
    {
        Course {
            clock: 0,
            busy: true,
            nobody: false,
            failed: false,
            sought: false,
            from: 0,
            pause: 0,
            resume: 0,
            accepted: 0,
        }
    }

    /// Returns whether a connection may be accepted.
    pub fn may_accept(&self, limits: &Limits) -> bool
        ensures may { IsTrue result → MayAccept limits.now self.now }
        ensures may_not { IsFalse result → MayAccept limits.now self.now → ⊥ }
        ensures fits { IsTrue result → self.now.accepted < MOST }
    {
        if self.nobody {
            return false;
        }
        if self.clock < self.resume {
            return false;
        }
        self.accepted < limits.most()
    }

    /// Begins a pause, after a failure to accept: of 1 millisecond after the first of consecutive failures, and twice
    /// as long after each further one, up to `LONGEST_PAUSE`.
    pub fn begin_pause(&mut self)
        ensures { self.new ≡ after_act self.old NotAccepted }
    {
        let pause = longer(self.pause);
        self.failed = true;
        self.pause = pause;
        self.resume = self.clock.saturating_add(pause);
    }

    /// Notes that a round ended with this outcome, and that the next one begins at the slot `next`.
    pub fn note_round(&mut self, outcome: Outcome, next: usize)
        ensures { self.new ≡ after self.old (Rounded outcome next) }
    {
        if is_left(outcome) || next < self.from {
            self.busy = true;
        }
        self.from = next;
    }

    /// Returns the milliseconds until the pause is over, if one runs.
    pub fn pause_wait(&self) -> Option<u64>
        ensures { IsFirstAfter self.now.clock (λ t. (self.now.clock < self.now.resume) × (self.now.resume ≤ t)) result }
    {
        if self.clock >= self.resume {
            return None;
        }
        Some(self.resume - self.clock)
    }
}

/// Returns whether a round with this outcome may leave more to do.
fn is_left(outcome: Outcome) -> bool
    ensures { result ≡ is_left outcome }
{
    match outcome {
        Outcome::Quiet => false,
        Outcome::Answered | Outcome::Uncommitted => true,
    }
}

/// Returns the pause after a failure to accept that follows the pause `pause`, 0 if it follows none.
fn longer(pause: u64) -> u64
    ensures { result ≡ longer pause }
{
    if pause == 0 {
        return 1;
    }
    LONGEST_PAUSE.min(pause.saturating_mul(2))
}
