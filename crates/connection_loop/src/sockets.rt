//! Sockets, one at each slot of a table of connections.
ghost use Rattle.std.specs.Prelude.{◌≡◌, ◌<◌, length, is_ok};
ghost use Rattle.connection_loop.specs.Acts.{Act, Queued, Closed, IsRead, IsTried, IsWritten, Told, Waited, Warned};

use connections::slot::Reason;

/// The error of a wait, or of accepting a connection.
#[derive(Clone, Copy)]
pub struct NetworkFailed;

/// What a read gave.
#[derive(Clone, Copy)]
pub enum Reading {
    /// So many bytes, at least one.
    Bytes(usize),
    /// The client sends no more.
    End,
    /// Nothing yet.
    NotYet,
    /// The read failed.
    Broken,
}

/// What a write took.
#[derive(Clone, Copy)]
pub enum Writing {
    /// So many bytes from the front, at least one.
    Bytes(usize),
    /// Nothing yet.
    NotYet,
    /// The write failed.
    Broken,
}

/// Sockets, one at each slot of a table of connections, and a listener. No call but [`Sockets::wait`] blocks.
pub trait Sockets {
    // `does old act new` holds if `act` may happen in the state `old` and lead to `new`.
    ghost does: { Self → Act → Self → Type 0 };

    /// Waits until a call that gave nothing when it was last made may give more, or for so many milliseconds, if any
    /// are given. What changed before the wait, and since that call, ends it at once.
    ///
    /// A wait may sleep over anything else that a call would give, so the caller first makes each call that it wants
    /// until it gives nothing. Nor is a wait to end again and again for a call that the caller does not want: a client
    /// whose reply is under way may send, and one may wait to be accepted while no slot is free.
    ///
    /// # Errors
    ///
    /// - `NetworkFailed`: the system cannot wait.
    fn wait(&mut self, millis: Option<u64>) -> Result<(), NetworkFailed>
        ensures { does self.old (Waited millis (is_ok result)) self.new };

    /// Returns the milliseconds since some moment.
    fn now(&mut self) -> u64
        ensures { does self.old (Told result) self.new };

    /// Returns whether a client waits to be accepted. If so, another connection may be closed to make room for it, so
    /// the next [`Sockets::accept`] should give it.
    fn is_waiting(&mut self) -> bool
        ensures { does self.old (Queued result) self.new };

    /// Accepts the next connection at the free slot `at`; returns whether there was one.
    ///
    /// # Errors
    ///
    /// - `NetworkFailed`: accepting failed. A later call tries again.
    fn accept(&mut self, at: usize) -> Result<bool, NetworkFailed>
        ensures { IsTried does at self.old result self.new };

    /// Reads once at the slot `at`.
    fn read(&mut self, at: usize, buf: &mut [u8]) -> Reading
        requires { 0 < length buf.old }
        ensures { IsRead does at self.old result buf.new self.new };

    /// Writes once at the slot `at`.
    fn write(&mut self, at: usize, bytes: &[u8]) -> Writing
        requires { 0 < length bytes.now }
        ensures { IsWritten does at self.old bytes.now result self.new };

    /// Closes the socket at the slot `at` for the reason `why`.
    fn close(&mut self, at: usize, why: Reason)
        ensures { does self.old (Closed at why) self.new };

    /// Warns that accepting fails; returns whether the warning was written.
    fn warn(&mut self) -> bool
        ensures { does self.old (Warned result) self.new };
}
