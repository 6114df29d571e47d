//! A writer that accepts and discards all bytes: the log of a stream without a log.
ghost use Rattle.std.specs.Prelude.{None};

use crate::devices::{DeviceFailed, Sink};

/// A writer that discards all bytes.
#[derive(Drop)]
pub(crate) struct Nowhere;

impl Sink for Nowhere {
    ghost holds = { λ _. None };

    ghost failed = { λ _. 0 };

    ghost writes = { λ _ _ _ _. Unit {0} };

    ghost fails = { λ _ _. Unit {0} };

    fn write(&mut self, bytes: &[u8]) -> Result<usize, DeviceFailed> {
        Ok(bytes.len())
    }

    fn failures(&self) -> u64 {
        0
    }
}
