//! The socket at a slot of the table, and what the system reported of it.
ghost use Rattle.std.specs.Prelude.{◌≡◌, ◌<◌, None, Some, length, MatchOption};
ghost use Rattle.machine.specs.Calls.{GivesNothing, IsReadHere, IsReadOnce, IsWrittenHere, IsWrittenOnce, TakesNothing};

use connection_loop::sockets::{Reading, Writing};
use mio::event::Event;
use std::io::{ErrorKind, Read, Write};

/// The most calls of one read or write that signals interrupt. No read or write reaches it.
const MOST_CALLS: u64 = u64::MAX;

/// A place for a socket, and whether a read or a write of it may give more than the last one did. The system reports
/// each change once, so a call clears its flag only if the socket answers that there is nothing yet.
#[derive(Drop)]
pub(crate) struct Peer<S> {
    stream: Option<S>,
    readable: bool,
    writable: bool,
}

impl<S: Read + Write + Drop> Peer<S> {
    /// Creates a place without a socket.
    pub(crate) fn new() -> Peer<S>
        ensures { result.stream ≡ None }
    {
        Peer {
            stream: None,
            readable: false,
            writable: false,
        }
    }

    /// Puts a socket here, of which nothing is known: each call is tried.
    pub(crate) fn put(&mut self, stream: S)
        ensures { self.new.stream ≡ Some stream }
    {
        self.stream = Some(stream);
        self.readable = true;
        self.writable = true;
    }

    /// Removes the socket, and returns it if there was one.
    pub(crate) fn take(&mut self) -> Option<S>
        ensures { self.new.stream ≡ None }
    {
        self.stream.take()
    }

    /// Notes what the system reported. A socket that failed is ready for both: the next call gives its error.
    pub(crate) fn note(&mut self, event: &Event)
        ensures { self.new.stream ≡ self.old.stream }
    {
        let failed = event.is_error();
        if failed || event.is_readable() || event.is_read_closed() {
            self.readable = true;
        }
        if failed || event.is_writable() || event.is_write_closed() {
            self.writable = true;
        }
    }

    /// Returns whether there is a socket.
    pub(crate) fn is_here(&self) -> bool {
        self.stream.is_some()
    }

    /// Returns whether there is a socket of which a read may give more than the last one did.
    pub(crate) fn is_readable(&self) -> bool {
        self.stream.is_some() && self.readable
    }

    /// Reads once, unless a read would give nothing. A place without a socket is broken.
    pub(crate) fn read(&mut self, buf: &mut [u8]) -> Reading
        requires { 0 < length buf.old }
        ensures { IsReadHere S.remaining result buf.new self.old.stream self.new.stream }
    {
        if !self.readable {
            return Reading::NotYet;
        }
        let Some(stream) = &mut self.stream else {
            return Reading::Broken;
        };
        let reading = read_once(stream, buf);
        self.readable = !is_nothing_read(reading);
        reading
    }

    /// Writes once, unless a write would take nothing. A place without a socket is broken.
    pub(crate) fn write(&mut self, bytes: &[u8]) -> Writing
        ensures { IsWrittenHere S.contents result bytes.now self.old.stream self.new.stream }
    {
        if !self.writable {
            return Writing::NotYet;
        }
        let Some(stream) = &mut self.stream else {
            return Writing::Broken;
        };
        let writing = write_once(stream, bytes);
        self.writable = !is_nothing_written(writing);
        writing
    }
}

/// Returns whether the read gave nothing yet.
fn is_nothing_read(reading: Reading) -> bool {
    match reading {
        Reading::NotYet => true,
        Reading::Bytes(_) | Reading::End | Reading::Broken => false,
    }
}

/// Returns whether the write took nothing yet.
fn is_nothing_written(writing: Writing) -> bool {
    match writing {
        Writing::NotYet => true,
        Writing::Bytes(_) | Writing::Broken => false,
    }
}

/// Reads once into `buf`. A read that a signal interrupts is made again.
fn read_once<S: Read>(stream: &mut S, buf: &mut [u8]) -> Reading
    requires { 0 < length buf.old }
    ensures { IsReadOnce S.remaining result buf.new stream.old stream.new }
{
    for _ in 0..MOST_CALLS {
        if let Some(reading) = try_read(stream, buf) {
            return reading;
        }
    }
    Reading::Broken
}

/// Reads once into `buf`, unless a signal interrupts the call.
fn try_read<S: Read>(stream: &mut S, buf: &mut [u8]) -> Option<Reading>
    requires { 0 < length buf.old }
    ensures { MatchOption result (GivesNothing S.remaining stream.old stream.new)
        (λ reading. IsReadOnce S.remaining reading buf.new stream.old stream.new) }
{
    match stream.read(buf) {
        Ok(0) => Some(Reading::End),
        Ok(count) => Some(Reading::Bytes(count)),
        Err(error) => match error.kind() {
            ErrorKind::Interrupted => None,
            ErrorKind::WouldBlock => Some(Reading::NotYet),
            _ => Some(Reading::Broken),
        },
    }
}

/// Writes once. A write that a signal interrupts is made again.
fn write_once<S: Write>(stream: &mut S, bytes: &[u8]) -> Writing
    ensures { IsWrittenOnce S.contents result bytes.now stream.old stream.new }
{
    for _ in 0..MOST_CALLS {
        if let Some(writing) = try_write(stream, bytes) {
            return writing;
        }
    }
    Writing::Broken
}

/// Writes once, unless a signal interrupts the call. A socket that takes no byte is broken.
fn try_write<S: Write>(stream: &mut S, bytes: &[u8]) -> Option<Writing>
    ensures { MatchOption result (TakesNothing S.contents stream.old stream.new)
        (λ writing. IsWrittenOnce S.contents writing bytes.now stream.old stream.new) }
{
    match stream.write(bytes) {
        Ok(0) => Some(Writing::Broken),
        Ok(count) => Some(Writing::Bytes(count)),
        Err(error) => match error.kind() {
            ErrorKind::Interrupted => None,
            ErrorKind::WouldBlock => Some(Writing::NotYet),
            _ => Some(Writing::Broken),
        },
    }
}
