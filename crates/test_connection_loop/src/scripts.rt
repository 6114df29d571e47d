//! Scripts, and what the sockets note: `+0` a connection at slot 0, `!` accepting failed, `W` a warning, `[0ab]` these
//! bytes were written, `-0E` the connection was closed, and why; `~00500` a wait of at most so many milliseconds, `~.`
//! one without an end; last `.` if the loop ended as it should, `?` if its wait failed, or `U` if a commit did.
use crate::played::Played;
use connection_loop::limits::Limits;
use connection_loop::serving::serve_all;
use connection_loop::turn::LoopFault;
use connections::table::new_table;
use std::alloc::{AllocError, Global};
use std::test::Fail;
use test_connections::{Counter, Lines};

/// How a script is served.
#[derive(Clone, Copy)]
struct Setting {
    /// The number of slots.
    slots: usize,
    /// The most bytes of a read.
    read: usize,
    /// The number of commits before those that fail.
    commits: usize,
    limits: Limits,
}

impl Setting {
    /// Returns a setting without limits.
    fn of(slots: usize) -> Setting {
        Setting {
            slots,
            read: 64,
            commits: 99,
            limits: Limits {
                connections: None,
                idle: None,
            },
        }
    }
}

/// Returns the note of the end of a loop.
fn note_of(end: Result<(), LoopFault>) -> u8 {
    match end {
        Ok(()) => b'.',
        Err(LoopFault::Network) => b'?',
        Err(LoopFault::Commit) => b'U',
    }
}

/// Serves a script; returns the notes.
fn served(alloc: Global, setting: Setting, script: &[u8]) -> Result<Vec<u8>, AllocError> {
    let mut slots = new_table(alloc, setting.slots)?;
    let mut sockets = Played::new(alloc, setting.slots, script)?;
    let mut service = Counter::new(setting.commits);
    let mut log = Lines::new(alloc, 99);
    let mut chunk = [0; 64];
    let end = serve_all(
        &mut slots,
        &mut service,
        &mut log,
        &mut sockets,
        &setting.limits,
        &mut chunk[..setting.read.clamp(1, 64)],
    );
    let mut notes = Vec::from_slice(alloc, sockets.notes())?;
    notes.push(note_of(end))?;
    Ok(notes)
}

#[test]
fn connections_are_served_together(rt: HostRuntime) -> Result<(), Fail> {
    let rows = [
        // two requests at once beside one that comes byte by byte
        (
            &b"+..+..|..<0e<0a<0e<0b<1e|..<1c|.."[..],
            &b"~.+0+1~.[0a1][0b2]~10000[1c3]~.?"[..],
        ),
        // a client that takes a byte at a time holds up its own replies alone
        (
            &b"+..+..|..>00<0e<0a<0e<0b<1e<1c|..>01|..<1e<1d>01|..>09|.."[..],
            &b"~.+0+1~.[1c2]~10000[0a]~10000[01][1d3]~10000[0b4]~.?"[..],
        ),
        // a client that sends no more is served to its end, and its slot is free for the next
        (
            &b"+..|..<0e<0ae0.|..+..|..<0e<0b|.."[..],
            &b"~.+0~.[0a1]-0O~.+0~.[0b2]~.?"[..],
        ),
        // a read that fails, and a write that fails, end their own connections
        (
            &b"+..+..+..|..x0.>10<1e<1a|..x1.|..<2e<2b|.."[..],
            &b"~.+0+1+2~.-0B~10000-1B~.[2b2]~.?"[..],
        ),
    ];
    for (script, wanted) in rows {
        assert_eq!(rt;
            served(rt.alloc(), Setting::of(3), script)?.as_slice(),
            wanted
        );
    }
    Ok(())
}

#[test]
fn limits_of_time_act(rt: HostRuntime) -> Result<(), Fail> {
    let rows = [
        // five seconds without a byte; a byte in time gives five more
        (3, &b"+..|..T..|.."[..], &b"~.+0~05000-0E~.?"[..]),
        (
            3,
            &b"+..|..t.9t.9t.9<0e|..T..|.."[..],
            &b"~.+0~05000~05000-0E~.?"[..],
        ),
        // a client that waits for a slot gets that of the one idle longest, after a second
        (
            2,
            &b"+..|..t.2+..|..t.3+..|..T..|.."[..],
            &b"~.+0~05000+1~04800~00500-0R+0~04200?"[..],
        ),
        // a request that is under way makes no room until it is late
        (
            1,
            &b"+..|..<0e|..t.9+..|..t.9<0a|..T..|.."[..],
            &b"~.+0~05000~05000~04100[0a1]~01000-0R+0~05000?"[..],
        ),
    ];
    for (slots, script, wanted) in rows {
        let mut setting = Setting::of(slots);
        setting.limits.idle = Some(5_000);
        assert_eq!(rt; served(rt.alloc(), setting, script)?.as_slice(), wanted);
    }
    Ok(())
}

#[test]
fn requests_have_a_limit_without_a_limit_of_silence(rt: HostRuntime) -> Result<(), Fail> {
    let rows = [
        // a silent client stays, and one whose request is late is closed
        (
            2,
            &b"+..|..t.9|..<0e|..T..|.."[..],
            &b"~.+0~.~.~10000-0E~.?"[..],
        ),
        // one slot alone serves one client after another, and closes none for the sake of others
        (
            1,
            &b"+..+..|..<0e|..t.9t.9|..e0.|.."[..],
            &b"~.+0~.~.~.-0O+0~.?"[..],
        ),
    ];
    for (slots, script, wanted) in rows {
        assert_eq!(rt;
            served(rt.alloc(), Setting::of(slots), script)?.as_slice(),
            wanted
        );
    }
    Ok(())
}

#[test]
fn requests_that_came_in_one_piece_are_answered_without_another(
    rt: HostRuntime,
) -> Result<(), Fail> {
    let mut setting = Setting::of(1);
    setting.read = 3;
    let script = b"+..|..<0e<0a<0e<0b|..".as_slice();
    let wanted = b"~.+0~.[0a1][0b2]~.?".as_slice();
    assert_eq!(rt; served(rt.alloc(), setting, script)?.as_slice(), wanted);
    Ok(())
}

#[test]
fn the_first_commit_that_fails_ends_the_loop(rt: HostRuntime) -> Result<(), Fail> {
    let mut setting = Setting::of(3);
    setting.commits = 1;
    let script = b"+..+..|..<0e<0a|..<0e<0b<1e<1c|..+..|..".as_slice();
    let wanted = b"~.+0+1~.[0a1]~.-0U-1UU".as_slice();
    assert_eq!(rt; served(rt.alloc(), setting, script)?.as_slice(), wanted);
    Ok(())
}

#[test]
fn accepting_fails_and_ends(rt: HostRuntime) -> Result<(), Fail> {
    let rows = [
        // one warning for consecutive failures, and longer pauses; one more after a success
        (
            3,
            &b"!..!..!..+..|..T..|..T..|..T..|..!..|..T..|.."[..],
            &b"~.!W~00001!~00002!~00004+0~.!W~00001~.?"[..],
        ),
        // others are served during a pause
        (
            3,
            &b"+..|..!..!..|..T..|..<0e<0a|..T..+..|.."[..],
            &b"~.+0~.!W~00001!~00002[0a1]~00002+1~.?"[..],
        ),
        // a pause that ends while the loop works, between two readings of the clock, is not slept over
        (3, &b"+..!..k.1|..|.."[..], &b"~.!W+0~.~.?"[..]),
        // where accepting fails, one that is idle for a second makes room, although slots are free
        (
            3,
            &b"+..|..t.9t.9!..+..|..T..|.."[..],
            &b"~.+0~.!W-0R~00001+0~.?"[..],
        ),
        // two connections are accepted, and no third; the loop ends when they are gone
        (
            2,
            &b"+..!..|..T..+..+..|..e0.|..e1.|..+..|.."[..],
            &b"~.!W~00001+0+1~.-0O~.-1O."[..],
        ),
    ];
    for (connections, script, wanted) in rows {
        let mut setting = Setting::of(3);
        setting.limits.connections = Some(connections);
        assert_eq!(rt; served(rt.alloc(), setting, script)?.as_slice(), wanted);
    }
    Ok(())
}
