//! The machine of a run: the files, standard streams, network and clock of the operating system.
ghost use Rattle.std.specs.Prelude.{◌++◌, OnOk};
ghost use Rattle.std.specs.Io.KnownBytes.{Appends};
ghost use Rattle.program.specs.Events.{Changes, closed, log_closed, sockets_closed};
ghost use Rattle.program.specs.Reports.{ended};

use crate::device::{FileFault, Link, NetworkFailed, Stream, StreamFailed};
use crate::host::Host;
use machine::SystemSockets;
use program_exchanges::Counted;
use program_lines::LineFault;
use std::fs::{File, Files, OpenFile, OpenOptions};
use std::io::{ErrorKind, Read, Seek, SeekFrom, Write};
use std::net::{Net, OpenStream, TcpStream};
use std::time::Clock;
use std::{fs, io};

/// The files, the network and the clock of the system, and writers of standard output and standard error.
#[derive(Drop)]
pub struct SystemHost<'a, R, O, E> {
    /// The files, the network and the clock.
    pub files: &'a R,
    /// The writer of standard output.
    pub answers: O,
    /// The writer of standard error.
    pub faults: E,
    /// A second writer of standard output, for a log that goes there; `None` once such a log was opened.
    pub lines: Option<O>,
    /// A second writer of standard error, for warnings of sockets; `None` once there are sockets.
    pub warnings: Option<E>,
}

/// Where the lines of a log go: a file, or standard output.
#[derive(Drop)]
pub enum LogDevice<F, O> {
    File(F),
    Output(O),
}

impl<F: Write, O: Write> Write for LogDevice<F, O> {
    fn write(&mut self, buf: &[u8]) -> io::Result<usize> {
        match self {
            LogDevice::File(file) => file.write(buf),
            LogDevice::Output(output) => output.write(buf),
        }
    }

    fn flush(&mut self) -> io::Result<()> {
        match self {
            LogDevice::File(file) => file.flush(),
            LogDevice::Output(output) => output.flush(),
        }
    }
}

/// A writer of a log, which begins each line on a line of its own: if a failure cut off the previous line, in this run
/// or an earlier one, a line feed is written before the next line.
#[derive(Drop)]
pub struct LogLines<D> {
    device: D,
    /// Whether a line is open: the last accepted write was accepted in part, or does not end in a line feed. Before the
    /// first write: whether the file ended in a line that was cut off.
    open: bool,
    /// Whether the next write first ends the open line, since a write of that line failed or, when the log was opened,
    /// the file ended in a line that was cut off.
    torn: bool,
}

impl From<io::Error> for StreamFailed {
    fn from(_error: io::Error) -> StreamFailed {
        StreamFailed
    }
}

impl From<io::Error> for NetworkFailed {
    fn from(_error: io::Error) -> NetworkFailed {
        NetworkFailed
    }
}

impl From<io::Error> for FileFault {
    fn from(error: io::Error) -> FileFault {
        match error.kind() {
            ErrorKind::NotFound => FileFault::Missing,
            ErrorKind::OutOfMemory => FileFault::NoMemory,
            _ => FileFault::Failed,
        }
    }
}

/// Writes a label, a line and a line feed.
fn write_line<W: Write>(out: &mut W, label: &str, line: &[u8]) -> Result<(), StreamFailed>
    ensures { OnOk result (Appends (W.contents out.old) (W.contents out.new) (ended (label.now ++ line.now))) }
{
    out.write_all(label.as_bytes())?;
    out.write_all(line)?;
    out.write_all(b"\n")?;
    Ok(())
}

/// Creates the file of this name with these bytes, and waits until it is on the disk.
fn write_new<R: Files>(files: &R, name: &str, bytes: &[u8]) -> Result<(), FileFault> {
    let mut file = File::create(files, name)?;
    file.write_all(bytes)?;
    file.sync_all()?;
    Ok(())
}

/// Returns the name of the file that is written first and then renamed to `name`: `name` with `.new` appended.
fn new_name<R: AllocGlobal>(rt: &R, name: &str) -> Result<String, FileFault> {
    match format!(in rt.alloc(); "{name}.new") {
        Ok(new) => Ok(new),
        Err(_) => Err(FileFault::NoMemory),
    }
}

/// Returns the reader and the writer of a connection; what is written is sent without delay.
fn link<S: Read + Write + OpenStream + Drop>(
    stream: S,
) -> Result<Link<Counted<S>, Counted<S>>, NetworkFailed> {
    stream.set_nodelay(true)?;
    let writer = stream.try_clone()?;
    Ok(Link {
        reader: Counted::new(stream),
        writer: Counted::new(writer),
    })
}

/// Opens a file to append to, and creates it if it is missing.
fn append_to<R: Files>(files: &R, name: &str) -> io::Result<R::File> {
    let mut options = OpenOptions::new();
    options.append(true).create(true);
    options.open(files, name)
}

/// Returns the last byte of a file, or a line feed if it is not a regular file. Fails for an empty file.
fn last_byte<R: Files>(files: &R, name: &str) -> io::Result<u8> {
    let mut last = [b'\n'];
    if fs::metadata(files, name)?.is_file() {
        let mut file = File::open(files, name)?;
        file.seek(SeekFrom::End(-1))?;
        file.read(&mut last)?;
    }
    Ok(last[0])
}

/// Returns whether the log of this name is a regular file that can be read and ends in a line that was cut off.
fn ends_cut<R: Files>(files: &R, name: &str) -> bool {
    if name == "-" {
        return false;
    }
    match last_byte(files, name) {
        Ok(last) => last != b'\n',
        Err(_) => false,
    }
}

/// Returns where the lines of the log of this name go: for `-` standard output, else a file. Fails if the file cannot
/// be opened or, for `-`, if `lines` is `None` (a log on standard output was opened before).
fn log_device<R: Files, O: Write>(
    files: &R,
    lines: &mut Option<O>,
    name: &str,
) -> Result<LogDevice<R::File, O>, FileFault> {
    if name != "-" {
        return Ok(LogDevice::File(append_to(files, name)?));
    }
    match lines.take() {
        Some(output) => Ok(LogDevice::Output(output)),
        None => Err(FileFault::Failed),
    }
}

impl<D: Write> Write for LogLines<D> {
    fn write(&mut self, buf: &[u8]) -> io::Result<usize> {
        if self.torn {
            self.device.write_all(b"\n")?;
            self.torn = false;
            self.open = false;
        }
        match self.device.write(buf) {
            Ok(count) if count > 0 => {
                self.open = count < buf.len() || buf[count - 1] != b'\n';
                Ok(count)
            }
            failed => {
                self.torn = self.open;
                failed
            }
        }
    }

    fn flush(&mut self) -> io::Result<()> {
        self.device.flush()
    }
}

impl<'a, R: Files + Net + Clock + AllocGlobal, O: Write + Drop, E: Write + Drop> Host
    for SystemHost<'a, R, O, E> {
    type Reader = Counted<R::Stream>;

    type Writer = Counted<R::Stream>;

    type Sockets = SystemSockets<'a, R, E>;

    type Log = Counted<LogLines<LogDevice<R::File, O>>>;

    ghost does = { λ old event new.
        Changes O.contents E.contents old.answers old.faults event new.answers new.faults };

    fn read(&mut self, name: &str) -> Result<Vec<u8>, FileFault> {
        match fs::read(self.files, name) {
            Ok(bytes) => Ok(bytes),
            Err(error) => Err(FileFault::from(error)),
        }
    }

    fn store(&mut self, name: &str, bytes: &[u8]) -> Result<(), FileFault> {
        let new = new_name(self.files, name)?;
        write_new(self.files, new.as_str(), bytes)?;
        match fs::rename(self.files, new.as_str(), name) {
            Ok(()) => Ok(()),
            Err(error) => Err(FileFault::from(error)),
        }
    }

    fn open_log(&mut self, name: &str) -> Result<Self::Log, FileFault> {
        let cut = ends_cut(self.files, name);
        match log_device(self.files, &mut self.lines, name) {
            Ok(device) => Ok(Counted::new(LogLines {
                device,
                open: cut,
                torn: cut,
            })),
            Err(fault) => Err(fault),
        }
    }

    fn close_log(&mut self, log: Self::Log)
        ensures { Changes {L = Unit {0}} {N = Unit {0}} O.contents E.contents self.old.answers self.old.faults
            (log_closed log) self.new.answers self.new.faults }
    {
        drop(log);
    }

    fn write_line(&mut self, stream: Stream, label: &str, line: &[u8]) -> Result<(), StreamFailed> {
        match stream {
            Stream::Answers => write_line(&mut self.answers, label, line),
            Stream::Faults => write_line(&mut self.faults, label, line),
        }
    }

    fn print(&mut self, stream: Stream, fault: &LineFault) -> Result<(), StreamFailed> {
        match stream {
            Stream::Answers => write!(self.answers, "{fault}")?,
            Stream::Faults => write!(self.faults, "{fault}")?,
        }
        Ok(())
    }

    fn connect(
        &mut self,
        address: &str,
    ) -> Result<Link<Self::Reader, Self::Writer>, NetworkFailed> {
        match TcpStream::connect(self.files, address) {
            Ok(stream) => link(stream),
            Err(_) => Err(NetworkFailed),
        }
    }

    fn listen(&mut self, address: &str, clients: usize) -> Result<Self::Sockets, NetworkFailed> {
        let Some(warnings) = self.warnings.take() else {
            return Err(NetworkFailed);
        };
        match SystemSockets::listen(self.files, self.files.alloc(), address, clients, warnings) {
            Ok(sockets) => Ok(sockets),
            Err(_) => Err(NetworkFailed),
        }
    }

    fn close_sockets(&mut self, mut sockets: Self::Sockets)
        ensures { Changes {L = Unit {0}} {G = Unit {0}} O.contents E.contents self.old.answers self.old.faults
            (sockets_closed sockets) self.new.answers self.new.faults }
    {
        sockets.finish();
        drop(sockets);
    }

    fn close(&mut self, link: Link<Self::Reader, Self::Writer>)
        ensures { Changes {G = Unit {0}} {N = Unit {0}} O.contents E.contents self.old.answers self.old.faults
            (closed link) self.new.answers self.new.faults }
    {
        drop(link);
    }
}
