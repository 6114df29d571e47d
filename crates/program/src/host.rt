//! The machine that a run needs: files, two streams, connections, sockets and logs.
ghost use Rattle.std.specs.Prelude.{◌++◌, Ok, Err, Some, None, MatchResult, is_ok};
ghost use Rattle.program.specs.declared.device.Link.{Link};
ghost use Rattle.program.specs.Events.{Event, closed, connected, listened, log_closed, opened};
ghost use Rattle.program.specs.Events.{printed, read, sockets_closed, stored, wrote};
ghost use Rattle.program.specs.Reports.{ended};

use crate::device::{FileFault, Link, NetworkFailed, Stream, StreamFailed};
use connection_loop::sockets::Sockets;
use program_exchanges::{Sink, Source};
use program_lines::LineFault;

/// A machine with files, two streams, connections, sockets and logs.
pub trait Host {
    /// The reader of a connection.
    type Reader: Source + Drop;

    /// The writer of a connection.
    type Writer: Sink + Drop;

    /// The sockets of a served site: a listener, and one for each connection at once.
    type Sockets: Sockets + Drop;

    /// A log, which gets a line for each reply.
    type Log: Sink + Drop;

    // `does old event new` holds if `event` may happen in the state `old` and lead to `new`.
    ghost does: { Self → Event (Link Self.Reader Self.Writer) Self.Log Self.Sockets → Self → Type 0 };

    /// Returns the bytes of a file.
    ///
    /// # Errors
    ///
    /// - `FileFault::Missing`: the file does not exist.
    /// - `FileFault::Failed`: the file cannot be read.
    /// - `FileFault::NoMemory`: an allocation failed.
    fn read(&mut self, name: &str) -> Result<Vec<u8>, FileFault>
        ensures { MatchResult result (λ bytes. does self.old (read name.now (Ok bytes.items)) self.new)
            (λ fault. does self.old (read name.now (Err fault)) self.new) };

    /// Replaces the content of a file. The old content stays until all bytes are written.
    ///
    /// # Errors
    ///
    /// - `FileFault`: the file cannot be written, or an allocation failed.
    fn store(&mut self, name: &str, bytes: &[u8]) -> Result<(), FileFault>
        ensures { does self.old (stored name.now bytes.now result) self.new };

    /// Opens the log of this name; `-` is standard output. A file is appended to, and created if it is missing.
    ///
    /// # Errors
    ///
    /// - `FileFault`: the log cannot be opened.
    fn open_log(&mut self, name: &str) -> Result<Self::Log, FileFault>
        ensures { MatchResult result (λ log. does self.old (opened name.now (Some log)) self.new)
            (λ fault. does self.old (opened name.now None) self.new) };

    /// Closes a log.
    fn close_log(&mut self, log: Self::Log)
        ensures { does self.old (log_closed log) self.new };

    /// Writes a label, a line and a line feed to a stream.
    ///
    /// # Errors
    ///
    /// - `StreamFailed`: the stream did not accept all bytes.
    fn write_line(&mut self, stream: Stream, label: &str, line: &[u8]) -> Result<(), StreamFailed>
        ensures { does self.old (wrote stream (ended (label.now ++ line.now)) (is_ok result)) self.new };

    /// Writes the text of an error of the command line, or the requested help, to a stream.
    ///
    /// # Errors
    ///
    /// - `StreamFailed`: the stream did not accept all bytes.
    fn print(&mut self, stream: Stream, fault: &LineFault) -> Result<(), StreamFailed>
        ensures { does self.old (printed stream fault.now (is_ok result)) self.new };

    /// Opens a connection to an address.
    ///
    /// # Errors
    ///
    /// - `NetworkFailed`: the address cannot be reached.
    fn connect(&mut self, address: &str) -> Result<Link<Self::Reader, Self::Writer>, NetworkFailed>
        ensures { MatchResult result (λ link. does self.old (connected address.now (Some link)) self.new)
            (λ failed. does self.old (connected address.now None) self.new) };

    /// Listens at an address, for at most `clients` connections at once.
    ///
    /// # Errors
    ///
    /// - `NetworkFailed`: the address cannot be listened at.
    fn listen(&mut self, address: &str, clients: usize) -> Result<Self::Sockets, NetworkFailed>
        ensures { MatchResult result (λ sockets. does self.old (listened address.now clients (Some sockets)) self.new)
            (λ failed. does self.old (listened address.now clients None) self.new) };

    /// Closes the sockets of a served site.
    fn close_sockets(&mut self, sockets: Self::Sockets)
        ensures { does self.old (sockets_closed sockets) self.new };

    /// Closes a connection.
    fn close(&mut self, link: Link<Self::Reader, Self::Writer>)
        ensures { does self.old (closed link) self.new };
}
