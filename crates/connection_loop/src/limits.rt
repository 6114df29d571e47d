//! The limits of a loop.
ghost use Rattle.std.specs.Prelude.{◌≡◌, IsFalse, IsTrue, Some};
ghost use Rattle.connection_loop.specs.Turns.{IsCrowded, IsLimited, most_of};

use crate::MOST;
use connections::slot::Slot;
use connections::table;

/// How many connections a loop accepts, and how long they may be silent.
#[derive(Clone, Copy)]
pub struct Limits {
    /// The number of connections to accept; none for any number.
    pub connections: Option<u64>,
    /// The milliseconds without a byte after which a connection is closed; none for no limit of silence. Without it,
    /// one slot alone has no limit of time; with more slots, a request and a reply keep theirs.
    pub idle: Option<u64>,
}

/// Returns whether a connection may be closed for the sake of others.
pub fn is_limited(slots: &[Slot], limits: &Limits) -> bool
    ensures yes { IsTrue result → IsLimited limits.now slots.now }
    ensures no { IsFalse result → IsLimited limits.now slots.now → ⊥ }
{
    match limits.idle {
        Some(_) => true,
        None => slots.len() > 1,
    }
}

/// Returns whether the reader that is longest too slow is to be closed: too many bytes are unsent, and another
/// connection waits for its answer.
pub fn is_crowded(slots: &[Slot], limits: &Limits) -> bool
    ensures yes { IsTrue result → IsCrowded limits.now slots.now }
    ensures no { IsFalse result → IsCrowded limits.now slots.now → ⊥ }
{
    if !is_limited(slots, limits) {
        return false;
    }
    table::is_crowded(slots)
}

impl Limits {
    /// Returns the number of connections to accept; if none is given, more than any run can reach.
    pub fn most(&self) -> u64
        ensures { result ≡ most_of self.now.connections }
    {
        match self.connections {
            Some(number) => number,
            None => MOST,
        }
    }

    /// Returns whether a number of connections is given, and is `accepted`.
    pub fn are_reached(&self, accepted: u64) -> bool
        ensures reached { IsTrue result → self.now.connections ≡ Some accepted }
        ensures not_reached { IsFalse result → self.now.connections ≡ Some accepted → ⊥ }
    {
        match self.connections {
            Some(number) => number == accepted,
            None => false,
        }
    }
}
