//! Sockets that are closed, but whose clients may still be sending.
//!
//! If such a socket were dropped with bytes unread, or if bytes came afterwards, the system would reset the connection,
//! and the client might lose the end of the last reply. So its write side is shut down, and what its client still sends
//! is discarded for a while (RFC 9112, section 9.6).

use crate::peers::Peer;
use connection_loop::sockets::Reading;
use connections::times::sooner;
use mio::event::Event;
use std::alloc::{AllocError, Global};
use std::io::{Read, Write};

/// The milliseconds for which what a client sends is discarded.
const LINGER_MILLIS: u64 = 1_000;

/// The most reads by which what came at one socket is discarded at a time.
const MOST_READS: usize = 64;

/// A place for a socket of which what comes is discarded until the time `until`.
#[derive(Drop)]
struct Leaver<S> {
    peer: Peer<S>,
    until: u64,
}

/// A fixed number of places for sockets of which what comes is discarded. If no place is free, a new socket takes that
/// of the one whose time is up first.
#[derive(Drop)]
pub(crate) struct Lingering<S> {
    leavers: Vec<Leaver<S>>,
}

impl<S: Read + Write + Drop> Leaver<S> {
    /// Creates a free place.
    fn new() -> Leaver<S> {
        Leaver {
            peer: Peer::new(),
            until: 0,
        }
    }

    /// Returns the milliseconds until there is something to do here, if there is a socket: bytes to discard, or its
    /// time is up.
    fn wait(&self, now: u64) -> Option<u64> {
        if !self.peer.is_here() {
            return None;
        }
        if self.peer.is_readable() {
            return Some(0);
        }
        Some(self.until.saturating_sub(now))
    }

    /// Discards what came, and drops the socket if its client sends no more, it failed, or its time is up.
    fn discard(&mut self, now: u64) {
        if drain(&mut self.peer) || now >= self.until {
            drop(self.peer.take());
        }
    }
}

/// Discards what came, in at most [`MOST_READS`] reads; returns whether no more will come.
fn drain<S: Read + Write + Drop>(peer: &mut Peer<S>) -> bool {
    for _ in 0..MOST_READS {
        if !peer.is_readable() {
            return false;
        }
        match peer.read(&mut [0u8; 16_384]) {
            Reading::Bytes(_) | Reading::NotYet => {}
            Reading::End | Reading::Broken => return true,
        }
    }
    false
}

impl<S: Read + Write + Drop> Lingering<S> {
    /// Creates so many free places.
    pub(crate) fn new(alloc: Global, count: usize) -> Result<Lingering<S>, AllocError> {
        let mut leavers = Vec::with_capacity(alloc, count)?;
        for _ in 0..count {
            match leavers.push(Leaver::new()) {
                Ok(()) => {}
                Err(_) => return Err(AllocError),
            }
        }
        Ok(Lingering { leavers })
    }

    /// Returns the place of the next socket: the first that is free; if none is, that of the socket whose time is up
    /// first.
    pub(crate) fn place(&self) -> usize {
        let mut place = 0;
        let mut least = u64::MAX;
        for at in 0..self.leavers.len() {
            let leaver = &self.leavers[at];
            if !leaver.peer.is_here() {
                return at;
            }
            if leaver.until < least {
                least = leaver.until;
                place = at;
            }
        }
        place
    }

    /// Puts a socket at a place, at the time `now`. If one is still there, what came at it is discarded, and it is
    /// dropped.
    pub(crate) fn put(&mut self, at: usize, stream: S, now: u64) {
        if let Some(leaver) = self.leavers.get_mut(at) {
            drain(&mut leaver.peer);
            leaver.peer.put(stream);
            leaver.until = now.saturating_add(LINGER_MILLIS);
        }
    }

    /// Notes what the system reported of the socket at a place.
    pub(crate) fn note(&mut self, at: usize, event: &Event) {
        if let Some(leaver) = self.leavers.get_mut(at) {
            leaver.peer.note(event);
        }
    }

    /// Returns the milliseconds until there is something to do, if there is a socket.
    pub(crate) fn wait(&self, now: u64) -> Option<u64> {
        let mut first = None;
        for leaver in &self.leavers {
            first = sooner(first, leaver.wait(now));
        }
        first
    }

    /// Discards what came at each socket, and drops those of which no more will come or whose time is up at `now`.
    pub(crate) fn discard(&mut self, now: u64) {
        for leaver in &mut self.leavers {
            leaver.discard(now);
        }
    }
}
