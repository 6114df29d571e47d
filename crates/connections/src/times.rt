//! Times and waits, in milliseconds.
ghost use Rattle.std.specs.Prelude.{◌≡◌, ◌+◌, ◌-◌, min};
ghost use Rattle.connections.specs.Times.{first_of_both};

use crate::MAX_WAIT;

/// Returns the milliseconds from `now` until `millis` after `start`; 0 if that is over, at most `MAX_WAIT`.
pub fn until(start: u64, millis: u64, now: u64) -> u64
    ensures { result ≡ min (start + millis - now) MAX_WAIT }
{
    if now >= start {
        return millis.saturating_sub(now - start);
    }
    millis.saturating_add(start - now)
}

/// Returns the milliseconds from `now` until `least` and `more` after `start`; 0 if that is over, at most `MAX_WAIT`.
pub fn until_both(start: u64, least: u64, more: u64, now: u64) -> u64
    ensures { result ≡ min (start + least + more - now) MAX_WAIT }
{
    if now < start {
        return more.saturating_add(least).saturating_add(start - now);
    }
    let spent = now - start;
    if spent < least {
        return more.saturating_add(least - spent);
    }
    more.saturating_sub(spent - least)
}

/// Returns the shorter of two waits, if there is one.
pub fn sooner(one: Option<u64>, other: Option<u64>) -> Option<u64>
    ensures { result ≡ first_of_both one other }
{
    match one {
        None => other,
        Some(a) => match other {
            None => one,
            Some(b) => Some(a.min(b)),
        },
    }
}
