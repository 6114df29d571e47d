//! Events from outside, and runs over lists of them.
ghost use Rattle.std.specs.Prelude.{◌≡◌, ◌++◌, ◌∷◌, ℕ, List, OnOk, OnErr};
ghost use Rattle.connections.specs.Rounds.{AreReady};
ghost use Rattle.connections.specs.Runs.{IsHandled, IsServed};
ghost use Rattle.connections.specs.Steps.{Notes, Steps};
ghost use Rattle.connections.specs.declared.event.Event.TheVariants.{Readied};

use crate::laws::{stories_fit, tables_are_bounded, tables_are_ready};
use crate::limits::close_all;
use crate::logging::Log;
use crate::service::Service;
use crate::slot::{Reason, Slot};
use crate::table::{arrive, ask, close, end, open, reserve, round, take};
use std::alloc::AllocError;

/// What happens outside at a slot of the table, or a round of answers.
#[derive(Drop)]
pub enum Event {
    /// A connection is accepted, and gets this slot, at this time.
    Accepted(usize, u64),
    /// The connection is to be read from, at this time.
    Readied(usize, u64),
    /// These bytes came, at this time.
    Arrived(usize, Vec<u8>, u64),
    /// The client will send no more.
    Finished(usize),
    /// The client was asked at this time, and sent or took nothing: a read found no byte, or a write took none.
    Waited(usize, u64),
    /// The writer takes this many bytes, or all if there are fewer, at this time.
    Writable(usize, usize, u64),
    /// The connection is closed for this reason.
    Closed(usize, Reason),
    /// Each connection that may be closed for this reason is closed.
    ClosedAll(Reason),
    /// Each connection has its turn, from this slot on.
    Round(usize),
}

/// Handles one event. An event for which its connection is not ready has no effect.
///
/// # Errors
///
/// - `AllocError`: an allocation failed, at [`Event::Readied`]; the table, the service and the log are unchanged.
pub fn handle<S: Service, L: Log>(
    slots: &mut [Slot],
    service: &mut S,
    log: &mut L,
    event: &Event,
) -> Result<(), AllocError>
    requires { AreReady S.is_unfinished slots.old }
    ensures ok { OnOk result (IsHandled (Steps S.answers S.lines S.commits S.commit_fails) (Notes L.writes L.cuts)
        S.is_unfinished event.now slots.old service.old log.old slots.new service.new log.new) }
    ensures err { OnErr result ((slots.new ≡ slots.old) × (service.new ≡ service.old) × (log.new ≡ log.old)) }
    ensures reading { OnErr result ((at now : ℕ) × (event.now ≡ Readied at now)) }
    ensures ready { AreReady S.is_unfinished slots.new }
{
    tables_are_ready::<S>();
    match event {
        Event::Accepted(at, now) => {
            open(slots, *at, *now);
        }
        Event::Readied(at, now) => {
            reserve(slots, *at, *now)?;
        }
        Event::Arrived(at, bytes, now) => {
            arrive(slots, *at, bytes.as_slice(), *now);
        }
        Event::Finished(at) => {
            end(slots, *at);
        }
        Event::Waited(at, now) => {
            ask(slots, *at, *now);
        }
        Event::Writable(at, count, now) => {
            take(slots, *at, *count, *now);
        }
        Event::Closed(at, why) => {
            close(slots, *at, *why);
        }
        Event::ClosedAll(why) => {
            close_all(slots, *why);
        }
        Event::Round(from) => {
            round(slots, *from, service, log);
        }
    }
    Ok(())
}

/// Handles events, one after another.
///
/// # Errors
///
/// - `AllocError`: an allocation failed, at an [`Event::Readied`]; exactly the events before it are handled.
pub fn run<S: Service, L: Log>(
    slots: &mut [Slot],
    service: &mut S,
    log: &mut L,
    events: &[Event],
) -> Result<(), AllocError>
    requires { AreReady S.is_unfinished slots.old }
    ensures ok { OnOk result (IsServed (Steps S.answers S.lines S.commits S.commit_fails) (Notes L.writes L.cuts)
        S.is_unfinished events.now slots.old service.old log.old slots.new service.new log.new) }
    ensures err { OnErr result ((front rest : List Event) × (at now : ℕ) × (events.now ≡ front ++ Readied at now ∷ rest)
        × IsServed (Steps S.answers S.lines S.commits S.commit_fails) (Notes L.writes L.cuts)
        S.is_unfinished front slots.old service.old log.old slots.new service.new log.new) }
    ensures ready { AreReady S.is_unfinished slots.new }
{
    stories_fit();
    tables_are_bounded();
    for event in events {
        handle(slots, service, log, event)?;
    }
    Ok(())
}
