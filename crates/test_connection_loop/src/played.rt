//! Sockets in memory.
ghost use Rattle.std.specs.Prelude.{⊤};

use connection_loop::sockets::{NetworkFailed, Reading, Sockets, Writing};
use connections::slot::Reason;
use std::alloc::{AllocError, Global};

/// A socket.
#[derive(Drop)]
struct Peer {
    came: Vec<u8>,
    ended: bool,
    broken: bool,
    /// How many bytes its client still takes.
    room: usize,
}

/// Sockets that play a script: each wait of more than no time plays the next part of it, up to a `|`.
#[derive(Drop)]
pub struct Played {
    script: Vec<u8>,
    at: usize,
    clock: u64,
    /// How many milliseconds pass before the second reading of the clock after a wait.
    drift: u64,
    /// How often the clock was read since the last wait.
    readings: u8,
    peers: Vec<Peer>,
    queue: u8,
    failures: u8,
    notes: Vec<u8>,
}

/// Appends bytes if memory suffices.
fn put(out: &mut Vec<u8>, bytes: &[u8]) {
    match out.extend_from_slice(bytes) {
        Ok(()) | Err(_) => {}
    }
}

/// Returns a byte that stands for a slot.
fn digit(at: usize) -> u8 {
    b"0123456789".get(at).copied().unwrap_or(b'?')
}

/// Returns a byte that stands for a reason.
fn letter(why: Reason) -> u8 {
    match why {
        Reason::Over => b'O',
        Reason::Broken => b'B',
        Reason::NoMemory => b'M',
        Reason::Unlogged => b'L',
        Reason::Uncommitted => b'U',
        Reason::Expired(_) => b'E',
        Reason::MadeRoom => b'R',
        Reason::Crowded => b'C',
    }
}

impl Played {
    /// Creates sockets without a connection, at so many slots.
    pub fn new(alloc: Global, slots: usize, script: &[u8]) -> Result<Played, AllocError> {
        let mut peers = Vec::new(alloc);
        for _ in 0..slots {
            let peer = Peer {
                came: Vec::new(alloc),
                ended: false,
                broken: false,
                room: 0,
            };
            match peers.push(peer) {
                Ok(()) => {}
                Err(_) => return Err(AllocError),
            }
        }
        let script = Vec::from_slice(alloc, script)?;
        Ok(Played {
            script,
            at: 0,
            clock: 0,
            drift: 0,
            readings: 0,
            peers,
            queue: 0,
            failures: 0,
            notes: Vec::new(alloc),
        })
    }

    /// Returns the notes.
    pub fn notes(&self) -> &[u8] {
        &self.notes
    }

    /// Notes a wait: its milliseconds in five digits, or that it has no end.
    fn note_wait(&mut self, millis: Option<u64>) {
        put(&mut self.notes, b"~");
        let Some(millis) = millis else {
            put(&mut self.notes, b".");
            return;
        };
        for unit in [10_000u64, 1_000, 100, 10, 1] {
            put(&mut self.notes, &[digit((millis / unit % 10) as usize)]);
        }
    }

    /// Plays one instruction: three bytes.
    fn play(&mut self, what: u8, slot: u8, byte: u8, millis: Option<u64>) {
        let number = byte.wrapping_sub(b'0');
        match what {
            b'+' => self.queue = self.queue.wrapping_add(1),
            b'!' => self.failures = self.failures.wrapping_add(1),
            b't' => self.clock = self.clock.wrapping_add(number as u64 * 100),
            b'k' => self.drift = number as u64,
            b'T' => self.clock = self.clock.wrapping_add(millis.unwrap_or(0)),
            _ => {
                if let Some(peer) = self.peers.get_mut(slot.wrapping_sub(b'0') as usize) {
                    peer.play(what, byte);
                }
            }
        }
    }
}

impl Peer {
    /// Plays one instruction.
    fn play(&mut self, what: u8, byte: u8) {
        match what {
            b'<' => put(&mut self.came, &[byte]),
            b'>' => self.room = byte.wrapping_sub(b'0') as usize,
            b'e' => self.ended = true,
            _ => self.broken = true,
        }
    }

    /// Begins a connection, whose client takes as many bytes as it is offered.
    fn begin(&mut self) {
        self.came.clear();
        self.ended = false;
        self.broken = false;
        self.room = usize::MAX;
    }
}

impl Sockets for Played {
    ghost does = { λ old act new. ⊤ };

    fn wait(&mut self, millis: Option<u64>) -> Result<(), NetworkFailed> {
        self.readings = 0;
        if millis == Some(0) {
            return Ok(());
        }
        self.note_wait(millis);
        for _ in 0..u8::MAX {
            let Some([what, slot, byte]) = self.script.get(self.at..self.at.saturating_add(3))
            else {
                return Err(NetworkFailed);
            };
            let (what, slot, byte) = (*what, *slot, *byte);
            self.at = self.at.saturating_add(3);
            if what == b'|' {
                return Ok(());
            }
            self.play(what, slot, byte, millis);
        }
        Err(NetworkFailed)
    }

    fn now(&mut self) -> u64 {
        self.readings = self.readings.wrapping_add(1);
        if self.readings == 2 {
            self.clock = self.clock.wrapping_add(self.drift);
            self.drift = 0;
        }
        self.clock
    }

    fn is_waiting(&mut self) -> bool {
        self.queue > 0
    }

    fn accept(&mut self, at: usize) -> Result<bool, NetworkFailed> {
        if self.failures > 0 {
            self.failures -= 1;
            put(&mut self.notes, b"!");
            return Err(NetworkFailed);
        }
        if self.queue == 0 {
            return Ok(false);
        }
        self.queue -= 1;
        if let Some(peer) = self.peers.get_mut(at) {
            peer.begin();
        }
        put(&mut self.notes, &[b'+', digit(at)]);
        Ok(true)
    }

    fn read(&mut self, at: usize, buf: &mut [u8]) -> Reading {
        let Some(peer) = self.peers.get_mut(at) else {
            return Reading::Broken;
        };
        if peer.broken {
            return Reading::Broken;
        }
        let n = peer.came.len().min(buf.len());
        if n > 0 {
            buf[..n].copy_from_slice(&peer.came[..n]);
            peer.came.copy_within(n.., 0);
            let left = peer.came.len() - n;
            peer.came.truncate(left);
            return Reading::Bytes(n);
        }
        if peer.ended {
            return Reading::End;
        }
        Reading::NotYet
    }

    fn write(&mut self, at: usize, bytes: &[u8]) -> Writing {
        let Some(peer) = self.peers.get_mut(at) else {
            return Writing::Broken;
        };
        if peer.broken {
            return Writing::Broken;
        }
        let n = peer.room.min(bytes.len());
        if n == 0 {
            return Writing::NotYet;
        }
        peer.room -= n;
        put(&mut self.notes, &[b'[', digit(at)]);
        put(&mut self.notes, &bytes[..n]);
        put(&mut self.notes, b"]");
        Writing::Bytes(n)
    }

    fn close(&mut self, at: usize, why: Reason) {
        put(&mut self.notes, &[b'-', digit(at), letter(why)]);
    }

    fn warn(&mut self) -> bool {
        put(&mut self.notes, b"W");
        true
    }
}
