//! What the system reports of the sockets: which are ready, and which clients wait.
ghost use Rattle.std.specs.Prelude.{◌≡◌};
ghost use Rattle.machine.specs.Streams.{streams};

use crate::lingering::Lingering;
use crate::peers::Peer;
use connections::times::sooner;
use mio::unix::SourceFd;
use mio::{Events, Interest, Poll, Token};
use std::alloc::Global;
use std::io;
use std::io::ErrorKind;
use std::net::{Net, OpenListener, OpenStream, Shutdown};
use std::os::fd::{AsRawFd, RawFd};
use std::time::{Clock, Duration};

/// The token of the listener. No socket has it.
const LISTENER: usize = usize::MAX;

/// The most events that one call of the system reports; the next call reports the others.
const MOST_EVENTS: usize = 256;

/// The most calls of the system in one look at the sockets: enough for 16,384 sockets that are ready at once.
const MOST_POLLS: usize = 64;

/// The most connections that are gone when they are accepted, in one call.
const MOST_GONE: usize = 64;

/// The most waits for closed sockets at the end.
const MOST_WAITS: u32 = 1_000_000;

/// A listener, and what the system reported of it; closed sockets whose clients may still be sending; and a clock.
///
/// The token of a socket is its slot; that of a closed one is its place, counted on from the number of slots.
#[derive(Drop)]
pub(crate) struct Watch<'a, R: Net> {
    system: &'a R,
    poll: Poll,
    events: Events,
    listener: R::Listener,
    /// Whether a client may wait to be accepted.
    acceptable: bool,
    /// Whether something was reported, or is left to do, for which no wait has returned.
    fresh: bool,
    lingering: Lingering<R::Stream>,
    /// The greatest time that the clock told.
    now: u64,
    /// The last time that was told. A complete look at the sockets followed it.
    told: u64,
}

/// Has the system report under a token when a socket becomes ready, also if it is ready now.
fn register(poll: &Poll, descriptor: RawFd, token: usize, interest: Interest) -> io::Result<()> {
    poll.registry()
        .register(&mut SourceFd(&descriptor), Token(token), interest)
}

/// Has the system report under this token from now on when a socket becomes ready, also if it is ready now.
fn register_again(
    poll: &Poll,
    descriptor: RawFd,
    token: usize,
    interest: Interest,
) -> io::Result<()> {
    poll.registry()
        .reregister(&mut SourceFd(&descriptor), Token(token), interest)
}

/// Returns whether an error of accepting a connection says that this one is gone, or that a signal came: the next call
/// may give another. By accept(2), these are Linux's EINTR, ENONET, EPROTO, ENOPROTOOPT, EOPNOTSUPP, ENETDOWN,
/// ENETUNREACH, ECONNABORTED, EHOSTDOWN and EHOSTUNREACH.
fn is_gone(error: &io::Error) -> bool {
    match error.raw_os_error() {
        Some(4 | 64 | 71 | 92 | 95 | 100 | 101 | 103 | 112 | 113) => true,
        _ => false,
    }
}

impl<'a, R: Net + Clock> Watch<'a, R> {
    /// Watches a listener, and the sockets at so many slots.
    ///
    /// # Errors
    ///
    /// - `io::Error`: the system cannot wait for sockets, or an allocation failed.
    pub(crate) fn new(
        system: &'a R,
        alloc: Global,
        listener: R::Listener,
        slots: usize,
    ) -> io::Result<Watch<'a, R>> {
        listener.set_nonblocking(true)?;
        let poll = Poll::new(system)?;
        register(&poll, listener.as_raw_fd(), LISTENER, Interest::READABLE)?;
        Ok(Watch {
            system,
            poll,
            events: Events::with_capacity(alloc, MOST_EVENTS)?,
            listener,
            acceptable: true,
            fresh: false,
            lingering: Lingering::new(alloc, slots)?,
            now: 0,
            told: 0,
        })
    }

    /// Returns the milliseconds since some moment by the clock; the greatest ones so far if it fails or goes back.
    fn time(&mut self) -> u64 {
        if let Ok(time) = self.system.monotonic() {
            let now = u64::try_from(time.as_millis()).unwrap_or(u64::MAX);
            self.now = self.now.max(now);
        }
        self.now
    }

    /// Returns the milliseconds since some moment, a time that a complete look at the sockets followed: all that the
    /// system had to report at this time is noted. If the clock gives another time than was told last, it is told only
    /// after a look; if the look fails or is not complete, the time that was told last is told again.
    ///
    /// What is noted here ends the next wait at once.
    pub(crate) fn tell(&mut self, peers: &mut [Peer<R::Stream>]) -> u64
        ensures { streams peers.new ≡ streams peers.old }
    {
        let now = self.time();
        if now == self.told {
            return now;
        }
        let known = self.acceptable;
        if let Ok(true) = self.look(peers) {
            self.told = now;
        }
        if self.acceptable && !known {
            self.fresh = true;
        }
        self.told
    }

    /// Waits until something is reported, or for so many milliseconds; then notes all that there is to report, and
    /// discards what came at closed sockets.
    ///
    /// # Errors
    ///
    /// - `io::Error`: the system cannot wait.
    pub(crate) fn wait(
        &mut self,
        peers: &mut [Peer<R::Stream>],
        millis: Option<u64>,
    ) -> io::Result<()>
        ensures { streams peers.new ≡ streams peers.old }
    {
        let before = self.time();
        let limit = if self.fresh {
            Some(0)
        } else {
            sooner(millis, self.lingering.wait(before))
        };
        self.poll_once(peers, limit)?;
        let after = self.tell(peers);
        self.fresh = false;
        self.lingering.discard(after);
        Ok(())
    }

    /// Waits until no closed socket is left.
    pub(crate) fn finish(&mut self, peers: &mut [Peer<R::Stream>])
        ensures { streams peers.new ≡ streams peers.old }
    {
        for _ in 0..MOST_WAITS {
            let now = self.time();
            if self.lingering.wait(now).is_none() || self.wait(peers, None).is_err() {
                return;
            }
        }
    }

    /// Looks at the sockets: notes what the system has to report, without waiting; returns whether this was complete.
    ///
    /// # Errors
    ///
    /// - `io::Error`: the system cannot report.
    fn look(&mut self, peers: &mut [Peer<R::Stream>]) -> io::Result<bool>
        ensures { streams peers.new ≡ streams peers.old }
    {
        for _ in 0..MOST_POLLS {
            if self.poll_once(peers, Some(0))? < MOST_EVENTS {
                return Ok(true);
            }
        }
        Ok(false)
    }

    /// Waits for at most so many milliseconds, and notes what is reported; returns the number of reports. If there are
    /// [`MOST_EVENTS`], there may be more.
    ///
    /// # Errors
    ///
    /// - `io::Error`: the system cannot wait.
    fn poll_once(&mut self, peers: &mut [Peer<R::Stream>], millis: Option<u64>) -> io::Result<usize>
        ensures { streams peers.new ≡ streams peers.old }
    {
        let limit = millis.map(|millis| Duration::from_millis(millis));
        self.poll.poll(&mut self.events, limit)?;
        for event in &self.events {
            let at = event.token().0;
            if at == LISTENER {
                self.acceptable = true;
                continue;
            }
            self.fresh = true;
            if at < peers.len() {
                peers[at].note(event);
            } else {
                self.lingering.note(at - peers.len(), event);
            }
        }
        Ok(self.events.iter().len())
    }

    /// Returns whether a client waits to be accepted. What was reported may be stale, so the listener is registered
    /// again: it is then reported if and only if it is ready now.
    pub(crate) fn has_client(&mut self, peers: &mut [Peer<R::Stream>]) -> bool
        ensures { streams peers.new ≡ streams peers.old }
    {
        if !self.acceptable {
            return false;
        }
        let descriptor = self.listener.as_raw_fd();
        if register_again(&self.poll, descriptor, LISTENER, Interest::READABLE).is_err() {
            return false;
        }
        self.acceptable = false;
        self.look(peers).is_ok() && self.acceptable
    }

    /// Returns the socket of the next client that waits, if there is one, which is reported under the token `at` from
    /// now on.
    ///
    /// # Errors
    ///
    /// - `io::Error`: accepting it failed; or the system has no memory to report its socket, or reports as many as it
    ///   may (epoll_ctl's ENOMEM and ENOSPC), and its connection is closed.
    pub(crate) fn accept(&mut self, at: usize) -> io::Result<Option<R::Stream>> {
        let Some(stream) = self.next_client()? else {
            return Ok(None);
        };
        stream.set_nonblocking(true)?;
        let both = Interest::READABLE | Interest::WRITABLE;
        register(&self.poll, stream.as_raw_fd(), at, both)?;
        Ok(Some(stream))
    }

    /// Returns the socket of the next client that waits, if there is one. What is written to it is sent without delay.
    /// Clients that are gone are passed over: those of which accepting says so, and those whose socket does not take
    /// this setting, since they reset the connection while they waited.
    ///
    /// # Errors
    ///
    /// - `io::Error`: accepting it failed.
    fn next_client(&mut self) -> io::Result<Option<R::Stream>> {
        if !self.acceptable {
            return Ok(None);
        }
        for _ in 0..MOST_GONE {
            match self.listener.accept() {
                Ok((stream, _)) => {
                    if stream.set_nodelay(true).is_ok() {
                        return Ok(Some(stream));
                    }
                }
                Err(error) => {
                    if error.kind() == ErrorKind::WouldBlock {
                        self.acceptable = false;
                        return Ok(None);
                    }
                    if !is_gone(&error) {
                        return Err(error);
                    }
                }
            }
        }
        self.fresh = true;
        Ok(None)
    }

    /// Shuts down the write side of a socket that was at one of so many slots, and keeps it to discard what its client
    /// still sends.
    pub(crate) fn part_from(&mut self, slots: usize, stream: R::Stream) {
        if stream.shutdown(Shutdown::Write).is_err() {
            return;
        }
        let at = self.lingering.place();
        let token = slots.saturating_add(at);
        let _ = register_again(&self.poll, stream.as_raw_fd(), token, Interest::READABLE);
        let now = self.time();
        self.lingering.put(at, stream, now);
    }
}
