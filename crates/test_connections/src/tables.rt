//! Scripts of events, and what a table of three slots then holds.
ghost use Rattle.std.specs.Prelude.{◌≡◌, IfOk, length};
ghost use Rattle.connections.specs.Rounds.{AreReady};
ghost use Rattle.test_connections.specs.Long.{IsShort};
ghost use Rattle.test_connections.specs.Pairs.{IsLess};

use crate::counter::Counter;
use crate::hungry::Hungry;
use crate::lines::Lines;
use crate::scripts::{play, ready_table};
use connections::event::{Event, handle};
use connections::laws::tables_are_ready;
use connections::limits::{next_wait, slowest, victim};
use connections::slot::{Limit, Reason, Slot};
use connections::table::{
    arrive, ask, close, end, is_crowded, is_one_unasked, new_table, open, reserve, round, take,
};
use connections::{MAX_LONG, MAX_READ};
use std::alloc::{AllocError, Global};
use std::test::Fail;

/// Appends bytes if memory suffices.
fn put(out: &mut Vec<u8>, bytes: &[u8]) {
    match out.extend_from_slice(bytes) {
        Ok(()) | Err(_) => {}
    }
}

/// Appends what each slot holds: whether a connection is there, and what is unsent.
fn show(slots: &[Slot], out: &mut Vec<u8>) {
    for slot in slots {
        put(out, if slot.is_open() { b"+" } else { b"-" });
        put(
            out,
            if slot.output().len() > 9 {
                b"L"
            } else {
                slot.output()
            },
        );
    }
}

/// Plays a script in a table, and shows it, with the lines of the log.
fn shown(
    alloc: Global,
    slots: &mut [Slot],
    mut service: Counter,
    lines: usize,
    script: &[u8],
) -> Result<Vec<u8>, AllocError>
    requires { AreReady IsLess slots.old }
{
    let mut log = Lines::new(alloc, lines);
    play(alloc, slots, &mut service, &mut log, script)?;
    let mut out = Vec::new(alloc);
    show(slots, &mut out);
    put(&mut out, b" ");
    put(&mut out, log.text());
    Ok(out)
}

/// Plays a script in a new table of three slots.
fn outcome(
    alloc: Global,
    commits: usize,
    lines: usize,
    script: &[u8],
) -> Result<Vec<u8>, AllocError> {
    let mut slots = ready_table(alloc, 3)?;
    shown(alloc, &mut slots, Counter::new(commits), lines, script)
}

#[test]
fn scripts_have_their_outcomes(rt: HostRuntime) -> Result<(), Fail> {
    let alloc = rt.alloc();
    let rows = [
        // pieces of one byte, of two connections; the lower slot is answered first
        (
            9,
            9,
            &b"o0.0o2.0r0.0r2.0<0e0<2e0.0.0<2b0<0a0.0.0"[..],
            &b"+a1-+b2 a;b;"[..],
        ),
        // a byte for which no memory is reserved, and one at a free slot, have no effect
        (9, 9, &b"o0.0<0e0<1e0r0.0<0a0.0.0"[..], &b"+-- "[..]),
        // nothing is read while a whole request may wait, and nothing before the service was asked
        (9, 9, &b"o0.0r0.0=0a0=0b0.0.0*0.0.0.0"[..], &b"+-- a;"[..]),
        // the second request waits until the first reply is taken; a part of it is taken
        (9, 9, &b"o0.0r0.020a0.0.0.0.0>011.0.0"[..], &b"+1-- a;"[..]),
        (9, 9, &b"o0.0r0.020a0.0.0>091.0.0"[..], &b"+b2-- a;b;"[..]),
        // nothing is answered after a reply that ends, and it is taken before the connection closes
        (9, 9, &b"o0.0r0.0q0a0.0.0c0.0>011.0.0"[..], &b"+1-- a;"[..]),
        (9, 9, &b"o0.0r0.0q0a0.0.0>021c0.0"[..], &b"--- a;"[..]),
        // a half-closed client is served to its end
        (
            9,
            9,
            &b"o0.0r0.020a0.0.0>021.0.0>021.0.0f0.0.0.0O0.0"[..],
            &b"--- a;b;"[..],
        ),
        // the next client of a slot gets no byte of the last
        (
            9,
            9,
            &b"o0.0r0.0<0e0.0.0f0.0O0.0o0.0r0.0=0b0.0.0"[..],
            &b"+b1-- b;"[..],
        ),
        // a failed commit: no line, nothing goes out, and the connections end for that reason alone
        (0, 9, &b"o0.0r0.0=0a0.0.0>021O0.0L0.0"[..], &b"+a1-- "[..]),
        (0, 9, &b"o0.0o1.0r0.0=0a0.0.0C0.0"[..], &b"-+- "[..]),
        // the second commit fails: the first reply is out, with its line
        (
            1,
            9,
            &b"o0.0r0.0=0a0.0.0>021.0.0r0.0=0b0.0.0C0.0"[..],
            &b"--- a;"[..],
        ),
        // lines have the order of the answers: a round goes from the slot where the last one stopped
        (
            9,
            9,
            &b"o0.0o1.0o2.0r0.0r1.0r2.0=2c0=0a0=1b0.1.0.0.0"[..],
            &b"+a3+b1+c2 b;c;a;"[..],
        ),
        // a line that is cut off holds up its own reply alone
        (
            9,
            1,
            &b"o0.0o1.0r0.0r1.0=0a0=1b0.0.0>021>121"[..],
            &b"++b2- a;b"[..],
        ),
        (
            9,
            1,
            &b"o0.0o1.0r0.0r1.0=0a0=1b0.0.0L0.0"[..],
            &b"+a1-- a;b"[..],
        ),
        // five seconds without a byte, as far as the clients were asked: at the limit, and before it
        (9, 9, &b"o0.0o1.0o2.1w0.5w2.5r1.0<1e1E0.5"[..], &b"-++ "[..]),
        (9, 9, &b"o0.0w0.4E0.9"[..], &b"+-- "[..]),
        // the time that the server takes closes nobody: a reply is offered eight seconds after its request came
        (9, 9, &b"o0.0r0.0=0a0.0.0w0.8E0.0"[..], &b"+a1-- a;"[..]),
        (9, 9, &b"o0.0r0.0=0a0.0.0w0.3w0.8E0.0"[..], &b"--- a;"[..]),
        // nor is one closed whose client ended its side
        (9, 9, &b"o0.0r0.0<0e0.0.0w0.6f0.9E0.9"[..], &b"+-- "[..]),
        // which is over at once, before a round, if nothing waits
        (9, 9, &b"o0.0f0.0O0.0"[..], &b"--- "[..]),
        // with no limit of silence a connection stays, and a request still has its time
        (9, 9, &b"o0.0o1.0r1.0<1e0.0.0w0.;w1.;e0.0"[..], &b"+-- "[..]),
        // memory is refused for a read alone
        (9, 9, &b"o0.0o1.0r1.0=1a0.0.0M0.0"[..], &b"-+a1- a;"[..]),
        // nor is a connection idle that has taken its reply and was not asked since
        (9, 9, &b"o0.0w0.1r0.0=0a1.0.0*0.1R0.9"[..], &b"+-- a;"[..]),
        (
            9,
            9,
            &b"o0.0w0.1r0.0=0a1.0.0*0.1w0.2R0.9"[..],
            &b"--- a;"[..],
        ),
        // a slow reader stays while few bytes are unsent
        (9, 9, &b"o0.0r0.0=0a0.0.0w0.1w0.9K0.9"[..], &b"+a1-- a;"[..]),
    ];
    for (commits, lines, script, wanted) in rows {
        assert_eq!(rt; outcome(alloc, commits, lines, script)?.as_slice(), wanted);
    }
    Ok(())
}

#[test]
fn calls_have_their_answers(rt: HostRuntime) -> Result<(), Fail> {
    let mut slots = ready_table(rt.alloc(), 2)?;
    assert_eq!(rt; opened(&mut slots), [true, false, false]);
    assert_eq!(rt;
        read(&mut slots)?,
        [true, false, true, false, false, true, false]
    );
    assert_eq!(rt;
        closed(&mut slots),
        [false, false, false, true, true, false]
    );
    Ok(())
}

/// Opens connections in a new table of two slots: in a free slot, in the same one, and behind the last.
fn opened(slots: &mut [Slot]) -> [bool; 3] {
    [open(slots, 0, 0), open(slots, 0, 0), open(slots, 2, 0)]
}

/// Reads at the first slot of that table: with and without a connection, memory, and less than a request.
fn read(slots: &mut [Slot]) -> Result<[bool; 7], AllocError> {
    let asked = ask(slots, 0, 1);
    let free = ask(slots, 1, 1);
    let reserved = reserve(slots, 0, 1)?;
    let unreserved = reserve(slots, 1, 1)?;
    let nothing = arrive(slots, 0, b"", 1);
    let some = arrive(slots, 0, b"e", 1);
    Ok([
        asked,
        free,
        reserved,
        unreserved,
        nothing,
        some,
        ask(slots, 0, 1),
    ])
}

/// Closes connections as broken: not one whose request may be whole, which is neither read from nor written to; a new
/// one once.
fn closed(slots: &mut [Slot]) -> [bool; 6] {
    [
        take(slots, 0, 1, 2),
        end(slots, 0),
        close(slots, 0, Reason::Broken),
        open(slots, 1, 0),
        close(slots, 1, Reason::Broken),
        close(slots, 1, Reason::Broken),
    ]
}

/// Returns whether memory is reserved for a read at the first slot; if an allocation fails, whether the table is as it
/// was, and the next try reserves it.
fn reserves_again(slots: &mut [Slot]) -> Result<bool, AllocError> {
    match reserve(slots, 0, 0) {
        Ok(done) => Ok(done),
        Err(_) => {
            let unchanged = slots.len() > 0 && slots[0].is_open() && slots[0].spare() == 0;
            Ok(reserve(slots, 0, 0)? && unchanged)
        }
    }
}

#[test]
fn a_refused_reserve_changes_nothing(rt: HostRuntime) -> Result<(), Fail> {
    let mut slots = ready_table(rt.alloc(), 1)?;
    open(&mut slots, 0, 0);
    assert!(rt; reserves_again(&mut slots)?);
    assert!(rt; arrive(&mut slots, 0, b"e", 0));
    Ok(())
}

/// Returns where a round of a new table ends.
fn end_of(alloc: Global, script: &[u8]) -> Result<usize, AllocError> {
    let mut slots = ready_table(alloc, 3)?;
    ended(alloc, &mut slots, script)
}

/// Returns where a round ends after a script.
fn ended(alloc: Global, slots: &mut [Slot], script: &[u8]) -> Result<usize, AllocError>
    requires { AreReady IsLess slots.old }
{
    let mut service = Counter::new(9);
    let mut log = Lines::new(alloc, 9);
    play(alloc, slots, &mut service, &mut log, script)?;
    Ok(round(slots, 0, &mut service, &mut log).end)
}

/// Opens a connection, and reads as much as is permitted, up to more than a short request, one piece each second;
/// returns whether more may be read.
fn filled(alloc: Global, slots: &mut [Slot], at: usize, piece: &[u8]) -> Result<bool, AllocError>
    requires { AreReady IsShort slots.old }
    ensures { AreReady IsShort slots.new }
{
    let mut service = Hungry {};
    let mut log = Lines::new(alloc, 0);
    handle(slots, &mut service, &mut log, &Event::Accepted(at, 0))?;
    for turn in 0..6 {
        let now = turn * 1_000;
        handle(slots, &mut service, &mut log, &Event::Readied(at, now))?;
        let bytes = Vec::from_slice(alloc, piece)?;
        handle(
            slots,
            &mut service,
            &mut log,
            &Event::Arrived(at, bytes, now),
        )?;
        handle(slots, &mut service, &mut log, &Event::Round(0))?;
    }
    handle(slots, &mut service, &mut log, &Event::Readied(at, 5_000))?;
    Ok(at < slots.len() && slots[at].spare() > 0)
}

/// Creates a table of `count` free slots for the service that waits for the longest request.
fn hungry_table(alloc: Global, count: usize) -> Result<Vec<Slot>, AllocError>
    ensures { IfOk result (λ table. AreReady IsShort table.items) }
{
    tables_are_ready::<Hungry>();
    new_table(alloc, count)
}

#[test]
fn few_connections_hold_many_bytes(rt: HostRuntime) -> Result<(), Fail> {
    let alloc = rt.alloc();
    let mut slots = hungry_table(alloc, MAX_LONG + 1)?;
    let piece = [b'e'; MAX_READ];
    for at in 0..MAX_LONG + 1 {
        assert!(rt;
            filled(alloc, &mut slots, at, &piece)? == (at < MAX_LONG),
            "at {at}"
        );
    }
    assert_eq!(rt; end_of(alloc, b"o0.0")?, 3);
    Ok(())
}

#[test]
fn a_permit_restarts_the_time(rt: HostRuntime) -> Result<(), Fail> {
    let alloc = rt.alloc();
    let mut slots = hungry_table(alloc, 1)?;
    assert!(rt; filled(alloc, &mut slots, 0, &[b'e'; MAX_READ])?);
    assert!(rt; ask(&mut slots, 0, 6_000));
    // the sixth read, at five seconds, needs a permit; the request has 10 s from then, and a millisecond for each four
    // bytes beyond those of one read
    assert!(rt; next_wait(&slots, Limit::Room, 6_000) == Some(29_480));
    Ok(())
}

/// Returns a slot as a number.
fn slot_of(at: Option<usize>) -> Option<u64> {
    match at {
        Some(at) => Some(at as u64),
        None => None,
    }
}

/// Answers a question about the times of a table.
fn asked(slots: &[Slot], what: u8, now: u64) -> Option<u64> {
    match what {
        b'e' => next_wait(slots, Limit::Expiry(Some(60_000)), now),
        b's' => next_wait(slots, Limit::Expiry(Some(5_000)), now),
        b'0' => next_wait(slots, Limit::Expiry(None), now),
        b'r' => next_wait(slots, Limit::Room, now),
        b'k' => next_wait(slots, Limit::Crowd, now),
        b'l' => slot_of(slowest(slots)),
        b'u' => Some(is_one_unasked(slots) as u64),
        b'c' => Some(is_crowded(slots) as u64),
        _ => slot_of(victim(slots)),
    }
}

/// Answers a question about the times of a new table after a script.
fn answer(alloc: Global, script: &[u8], what: u8, now: u64) -> Result<Option<u64>, AllocError> {
    let mut slots = ready_table(alloc, 3)?;
    ended(alloc, &mut slots, script)?;
    Ok(asked(&slots, what, now))
}

#[test]
fn connections_expire_and_make_room(rt: HostRuntime) -> Result<(), Fail> {
    let alloc = rt.alloc();
    let idle = b"o0.2o2.1o1.1r1.0<1e1.0.0w0.2w1.2w2.2".as_slice();
    let rows = [
        (&b"o0.0"[..], b'e', 0, None),
        // the request at slot 1 is late at 11 s, before its connection is silent for a minute
        (idle, b'e', 1_600, Some(9_400)),
        (idle, b's', 1_600, Some(4_400)),
        (idle, b'0', 1_600, Some(9_400)),
        (idle, b'r', 1_600, Some(400)),
        (idle, b'r', 9_600, Some(0)),
        // the one idle longest, of two the lower; then the one that is late; each as far as it was asked
        (idle, b'v', 0, Some(2)),
        (b"o2.1o0.1w0.2w2.2".as_slice(), b'v', 0, Some(0)),
        (b"o2.1o0.1".as_slice(), b'v', 0, None),
        (b"o1.1r1.0<1e1.0.0w1.:".as_slice(), b'v', 0, None),
        (b"o1.1r1.0<1e1.0.0w1.;".as_slice(), b'v', 0, Some(1)),
        // a reply is offered at 2 s: it has ten seconds, one in a crowded table
        (b"o1.0r1.0=1a0.0.0w1.2".as_slice(), b'e', 0, Some(12_000)),
        (b"o1.0r1.0=1a0.0.0w1.2".as_slice(), b'k', 0, Some(3_000)),
        (b"o1.0r1.0=1a0.0.0w1.2w1.;".as_slice(), b'v', 0, None),
        (b"o1.0r1.0=1a0.0.0w1.2w1.<".as_slice(), b'v', 0, Some(1)),
        (b"o1.0r1.0=1a0.0.0w1.2".as_slice(), b'l', 0, None),
        (b"o1.0r1.0=1a0.0.0w1.2w1.3".as_slice(), b'l', 0, Some(1)),
        // a client is unasked until a read or a write gave nothing, and again after a byte
        (b"o0.0".as_slice(), b'u', 0, Some(1)),
        (b"o0.0w0.1".as_slice(), b'u', 0, Some(0)),
        (b"o0.0w0.1r0.0<0e0.0.0".as_slice(), b'u', 0, Some(1)),
        (b"o0.0w0.1f0.1".as_slice(), b'u', 0, Some(0)),
        (b"o0.0r0.0=0a0.0.0".as_slice(), b'u', 0, Some(1)),
        (b"o0.0r0.0=0a0.0.0w0.1".as_slice(), b'u', 0, Some(0)),
        // few bytes are unsent
        (b"o0.0r0.0=0a0.0.0".as_slice(), b'c', 0, Some(0)),
    ];
    for (script, what, now, wanted) in rows {
        assert!(rt; answer(alloc, script, what, now)? == wanted, "at {now}");
    }
    Ok(())
}
