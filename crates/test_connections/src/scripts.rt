//! Tables for the service of these tests, and scripts of events.
ghost use Rattle.std.specs.Prelude.{◌≡◌, ◌≤◌, IfOk, length};
ghost use Rattle.connections.specs.Rounds.{AreReady};
ghost use Rattle.test_connections.specs.Pairs.{IsLess};

use crate::counter::Counter;
use crate::lines::Lines;
use connections::event::{Event, run};
use connections::laws::tables_are_ready;
use connections::slot::{Reason, Slot};
use connections::table::new_table;
use std::alloc::{AllocError, Global};

/// Creates a table of `count` free slots.
pub fn ready_table(alloc: Global, count: usize) -> Result<Vec<Slot>, AllocError>
    ensures ready { IfOk result (λ table. AreReady IsLess table.items) }
    ensures count { IfOk result (λ table. length table.items ≡ count) }
{
    tables_are_ready::<Counter>();
    new_table(alloc, count)
}

/// Returns the event that four bytes stand for: what happens, at which slot, with which byte, at which second.
pub fn event_of(alloc: Global, code: &[u8]) -> Result<Event, AllocError>
    requires { 4 ≤ length code.now }
{
    let at = code[1].wrapping_sub(b'0') as usize;
    let byte = code[2];
    let now = code[3].wrapping_sub(b'0') as u64 * 1_000;
    let event = match code[0] {
        b'o' => Event::Accepted(at, now),
        b'r' => Event::Readied(at, now),
        b'f' => Event::Finished(at),
        b'w' => Event::Waited(at, now),
        b'>' => Event::Writable(at, byte.wrapping_sub(b'0') as usize, now),
        b'*' => Event::Writable(at, usize::MAX, now),
        b'c' => Event::Closed(at, Reason::Over),
        b'O' => Event::ClosedAll(Reason::Over),
        b'C' => Event::ClosedAll(Reason::Uncommitted),
        b'L' => Event::ClosedAll(Reason::Unlogged),
        b'M' => Event::ClosedAll(Reason::NoMemory),
        b'e' => Event::ClosedAll(Reason::Expired(None)),
        b'E' => Event::ClosedAll(Reason::Expired(Some(5_000))),
        b'R' => Event::ClosedAll(Reason::MadeRoom),
        b'K' => Event::ClosedAll(Reason::Crowded),
        b'.' => Event::Round(at),
        b'=' => return arrived(alloc, at, &[b'e', byte], now),
        b'q' => return arrived(alloc, at, &[b'q', byte], now),
        b'2' => return arrived(alloc, at, &[b'e', byte, b'e', byte.wrapping_add(1)], now),
        _ => return arrived(alloc, at, &[byte], now),
    };
    Ok(event)
}

/// Returns the event of bytes that came.
fn arrived(alloc: Global, at: usize, bytes: &[u8], now: u64) -> Result<Event, AllocError> {
    let bytes = Vec::from_slice(alloc, bytes)?;
    Ok(Event::Arrived(at, bytes, now))
}

/// Returns the events of a script, four bytes each.
fn events_of(alloc: Global, script: &[u8]) -> Result<Vec<Event>, AllocError> {
    let mut events = Vec::new(alloc);
    for code in script.chunks_exact(4) {
        let event = event_of(alloc, code)?;
        match events.push(event) {
            Ok(()) => {}
            Err(_) => return Err(AllocError),
        }
    }
    Ok(events)
}

/// Handles the events of a script.
pub fn play(
    alloc: Global,
    slots: &mut [Slot],
    service: &mut Counter,
    log: &mut Lines,
    script: &[u8],
) -> Result<(), AllocError>
    requires { AreReady IsLess slots.old }
    ensures { AreReady IsLess slots.new }
{
    let events = events_of(alloc, script)?;
    run(slots, service, log, &events)
}
