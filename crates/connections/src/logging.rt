//! Logs, which get the line of each reply.
ghost use Rattle.std.specs.Prelude.{ℕ, List, OnOk, OnErr};

/// The error of a log that got only a proper prefix of a line, perhaps none of it.
#[derive(Clone, Copy)]
pub struct LineCutOff;

/// A log of lines.
pub trait Log {
    // `writes old line new` holds if a call that wrote the whole line led from the state `old` to `new`.
    ghost writes: { Self → List ℕ → Self → Type 0 };

    // `cuts old line new` holds if a call that wrote only a proper prefix of the line led from `old` to `new`.
    ghost cuts: { Self → List ℕ → Self → Type 0 };

    /// Writes one line.
    ///
    /// # Errors
    ///
    /// - `LineCutOff`: the log got only a proper prefix of the line.
    fn write_line(&mut self, line: &[u8]) -> Result<(), LineCutOff>
        ensures ok { OnOk result (writes self.old line.now self.new) }
        ensures err { OnErr result (cuts self.old line.now self.new) };
}
