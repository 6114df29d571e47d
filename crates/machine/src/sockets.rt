//! The sockets at the slots of a table of connections.
ghost use Rattle.std.specs.Prelude.{◌≡◌, IfOk, None, OnOk, length, replicate, string_bytes};
ghost use Rattle.std.specs.Io.KnownBytes.{Appends};
ghost use Rattle.machine.specs.Changes.{IsDone, IsWarned, ended, failing_line};
ghost use Rattle.machine.specs.Streams.{streams};

use crate::peers::Peer;
use crate::watch::Watch;
use connection_loop::sockets::{NetworkFailed, Reading, Sockets, Writing};
use connections::slot::Reason;
use std::alloc::{AllocError, Global};
use std::io;
use std::io::{ErrorKind, Read, Write};
use std::net::{Net, TcpListener};
use std::time::Clock;

/// The warning that accepting a connection failed at an address; the address follows it.
const FAILING: &str = "warning: accept failed, trying again: ";

/// The error of listening.
#[derive(Clone, Copy)]
pub enum ListenFault {
    /// The address cannot be listened at, or the system cannot wait for sockets.
    Failed,
    /// An allocation failed.
    NoMemory,
}

impl From<io::Error> for ListenFault {
    fn from(error: io::Error) -> ListenFault {
        match error.kind() {
            ErrorKind::OutOfMemory => ListenFault::NoMemory,
            _ => ListenFault::Failed,
        }
    }
}

impl From<AllocError> for ListenFault {
    fn from(_error: AllocError) -> ListenFault {
        ListenFault::NoMemory
    }
}

/// A listener, and a socket at each slot of a table of connections.
///
/// By the contracts of std, which are all that [`Sockets`] is proved from here: a read or a write is one of the socket
/// at its slot, and reports what that call gave or took; no other call but accepting and closing changes a socket; what
/// is written to `faults` are the warnings.
///
/// No contract says what the system does. Assumed of it, and shown by tests alone: it reports each socket that becomes
/// ready, once (epoll, through `mio`), so that a wait ends when a call may give more than it last did; a socket gives
/// what its client sent, in order, and its client gets what the socket took; a client waits if and only if the listener
/// is reported; the clock does not stand still. That a closed socket still discards what comes, so that its client gets
/// the last reply whole, is shown by tests too.
///
/// Nor does a contract say the order in which the code does this: [`Sockets::now`] reads the clock, then looks until
/// the system has nothing more to report, and only then tells the time. So what had come at the time that it tells is
/// found by the calls that follow, though a call at a socket of which nothing was reported does not ask the system. If
/// a look fails, or does not end, the time that was told last is told again.
#[derive(Drop)]
pub struct SystemSockets<'a, R: Net, E> {
    watch: Watch<'a, R>,
    peers: Vec<Peer<R::Stream>>,
    /// The address, for a warning.
    address: String,
    /// The writer of warnings.
    faults: E,
}

/// Creates so many slots without sockets.
fn free_slots<S: Read + Write + Drop>(
    alloc: Global,
    count: usize,
) -> Result<Vec<Peer<S>>, AllocError>
    ensures { IfOk result (λ peers. streams peers.items ≡ replicate count None) }
{
    let mut peers = Vec::with_capacity(alloc, count)?;
    for _ in 0..count {
        match peers.push(Peer::new()) {
            Ok(()) => {}
            Err(_) => return Err(AllocError),
        }
    }
    Ok(peers)
}

/// Writes a label, a line and a line feed.
///
/// # Errors
///
/// - `io::Error`: the writer did not accept all bytes.
fn write_line<E: Write>(out: &mut E, label: &str, line: &str) -> io::Result<()>
    ensures { OnOk result (Appends (E.contents out.old) (E.contents out.new)
        (ended label.now line.now)) }
{
    out.write_all(label.as_bytes())?;
    out.write_all(line.as_bytes())?;
    out.write_all(b"\n")?;
    Ok(())
}

impl<'a, R: Net + Clock, E: Write + Drop> SystemSockets<'a, R, E> {
    /// Listens at an address, with so many slots, all without sockets. Warnings go to `faults`; nothing is written yet.
    ///
    /// # Errors
    ///
    /// - `ListenFault::Failed`: the address cannot be listened at, or the system cannot wait for sockets.
    /// - `ListenFault::NoMemory`: an allocation failed.
    pub fn listen(
        system: &'a R,
        alloc: Global,
        address: &str,
        slots: usize,
        faults: E,
    ) -> Result<SystemSockets<'a, R, E>, ListenFault>
        ensures slots { IfOk result (λ sockets. streams sockets.peers.items ≡ replicate slots None) }
        ensures faults { IfOk result (λ sockets. sockets.faults ≡ faults) }
        ensures address { IfOk result (λ sockets. string_bytes sockets.address ≡ address.now) }
    {
        let peers = free_slots(alloc, slots)?;
        let Ok(named) = format!(in alloc; "{address}") else {
            return Err(ListenFault::NoMemory);
        };
        let Ok(listener) = TcpListener::bind(system, address) else {
            return Err(ListenFault::Failed);
        };
        let watch = Watch::new(system, alloc, listener, slots)?;
        Ok(SystemSockets {
            watch,
            peers,
            address: named,
            faults,
        })
    }
}

impl<R: Net + Clock, E: Write> SystemSockets<'_, R, E> {
    /// Waits, at most about a second, until each client of a closed socket sends no more. A program calls this before
    /// it ends, so that these clients get all of their last reply.
    pub fn finish(&mut self)
        ensures slots { streams self.new.peers.items ≡ streams self.old.peers.items }
        ensures faults { self.new.faults ≡ self.old.faults }
    {
        self.watch.finish(&mut self.peers);
    }
}

impl<R: Net + Clock, E: Write> Sockets for SystemSockets<'_, R, E> {
    ghost does = { λ old act new. IsDone R.Stream.remaining R.Stream.contents act (streams old.peers.items)
        (streams new.peers.items)
        × IsWarned E.contents (failing_line (string_bytes old.address)) act old.faults new.faults
        × (new.address ≡ old.address) };

    fn wait(&mut self, millis: Option<u64>) -> Result<(), NetworkFailed> {
        match self.watch.wait(&mut self.peers, millis) {
            Ok(()) => Ok(()),
            Err(_) => Err(NetworkFailed),
        }
    }

    fn now(&mut self) -> u64 {
        self.watch.tell(&mut self.peers)
    }

    fn is_waiting(&mut self) -> bool {
        self.watch.has_client(&mut self.peers)
    }

    fn accept(&mut self, at: usize) -> Result<bool, NetworkFailed> {
        let Some(peer) = self.peers.get_mut(at) else {
            return Err(NetworkFailed);
        };
        match self.watch.accept(at) {
            Ok(Some(stream)) => {
                peer.put(stream);
                Ok(true)
            }
            Ok(None) => Ok(false),
            Err(_) => Err(NetworkFailed),
        }
    }

    fn read(&mut self, at: usize, buf: &mut [u8]) -> Reading {
        match self.peers.get_mut(at) {
            Some(peer) => peer.read(buf),
            None => Reading::Broken,
        }
    }

    fn write(&mut self, at: usize, bytes: &[u8]) -> Writing {
        match self.peers.get_mut(at) {
            Some(peer) => peer.write(bytes),
            None => Writing::Broken,
        }
    }

    fn close(&mut self, at: usize, why: Reason) {
        let slots = self.peers.len();
        let Some(peer) = self.peers.get_mut(at) else {
            return;
        };
        let Some(stream) = peer.take() else {
            return;
        };
        match why {
            Reason::Broken => drop(stream),
            _ => self.watch.part_from(slots, stream),
        }
    }

    fn warn(&mut self) -> bool {
        write_line(&mut self.faults, FAILING, self.address.as_str()).is_ok()
    }
}
