//! A log in memory.
ghost use Rattle.std.specs.Prelude.{⊤};

use connections::logging::{LineCutOff, Log};
use std::alloc::Global;

/// The lines that were written, one after another.
#[derive(Drop)]
pub struct Lines {
    text: Vec<u8>,
    /// The number of lines before those that are cut off, each after its first byte.
    left: usize,
}

impl Lines {
    /// Creates a log that cuts off each line after so many.
    pub fn new(alloc: Global, left: usize) -> Lines {
        Lines {
            text: Vec::new(alloc),
            left,
        }
    }

    /// Appends bytes; returns whether memory sufficed.
    fn put(&mut self, bytes: &[u8]) -> bool {
        match self.text.extend_from_slice(bytes) {
            Ok(()) => true,
            Err(_) => false,
        }
    }

    /// Returns the lines.
    pub fn text(&self) -> &[u8] {
        &self.text
    }
}

impl Log for Lines {
    ghost writes = { λ old line new. ⊤ };

    ghost cuts = { λ old line new. ⊤ };

    fn write_line(&mut self, line: &[u8]) -> Result<(), LineCutOff> {
        if self.left == 0 {
            self.put(&line[..line.len().min(1)]);
            return Err(LineCutOff);
        }
        self.left -= 1;
        if self.put(line) {
            Ok(())
        } else {
            Err(LineCutOff)
        }
    }
}
