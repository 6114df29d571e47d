//! Readers and writers that count their failures.
ghost use Rattle.std.specs.Prelude.{◌≡◌, ◌≤◌, ◌<◌, ℕ, List, Option, IfOk, OnOk, OnErr, ◌++◌, length, take};
ghost use Rattle.std.specs.Io.KnownBytes.{Appends, Consumes, Keeps, ReadConsumes, WriteAppends};
ghost use Rattle.http_streams.specs.Devices.{CountsFailure, FailsAtLast, counted};

use std::io::{Read, Write};
use std::marker::Model;

/// The error of a device's call. The device has counted the failure.
#[derive(Clone, Copy)]
pub struct DeviceFailed;

/// A reader that counts its failures.
pub trait Source {
    // The bytes left to read, if they are known.
    ghost left: { Self → Option (List ℕ) };

    // The number of failures, at most `u64::MAX`.
    ghost failed: { Self → ℕ };

    // `reads old room bytes new` holds if a call of `read` with a buffer of length `room` led from the state `old` to
    // `new`, and gave `bytes`.
    ghost reads: { Self → ℕ → List ℕ → Self → Type 0 };

    // `fails old new` holds if a call of `read` led from the state `old` to `new`, and failed.
    ghost fails: { Self → Self → Type 0 };

    /// Reads once into `buf`; returns the number of bytes. Zero bytes into a nonempty buffer mean the end of the input.
    ///
    /// # Errors
    ///
    /// - `DeviceFailed`: the call failed, and was counted.
    fn read(&mut self, buf: &mut [u8]) -> Result<usize, DeviceFailed>
        ensures bound { IfOk result (λ n. n ≤ length buf.new) }
        ensures bytes { ReadConsumes (left self.old) (left self.new) result buf.new }
        ensures call { IfOk result (λ n. reads self.old (length buf.old) (take n buf.new) self.new) }
        ensures failure { OnErr result (fails self.old self.new) }
        ensures failures { CountsFailure result (failed self.old) (failed self.new) };

    /// Returns the number of failures.
    fn failures(&self) -> u64
        ensures { result ≡ failed self.now };
}

/// A writer that counts its failures. A call that accepts no byte is a failure.
pub trait Sink {
    // The accepted bytes, if they are known.
    ghost holds: { Self → Option (List ℕ) };

    // The number of failures, at most `u64::MAX`.
    ghost failed: { Self → ℕ };

    // `writes old bytes n new` holds if a call of `write` with `bytes` led from the state `old` to `new`, and accepted
    // the first `n` of them.
    ghost writes: { Self → List ℕ → ℕ → Self → Type 0 };

    // `fails old new` holds if a call of `write` led from the state `old` to `new`, and failed.
    ghost fails: { Self → Self → Type 0 };

    /// Writes once; returns how many of the bytes were accepted. `bytes` must not be empty.
    ///
    /// # Errors
    ///
    /// - `DeviceFailed`: the call failed or accepted no byte, and was counted.
    fn write(&mut self, bytes: &[u8]) -> Result<usize, DeviceFailed>
        requires { 0 < length bytes.now }
        ensures bound { IfOk result (λ n. (0 < n) × (n ≤ length bytes.now)) }
        ensures bytes { WriteAppends (holds self.old) (holds self.new) result bytes.now }
        ensures call { IfOk result (λ n. writes self.old bytes.now n self.new) }
        ensures failure { OnErr result (fails self.old self.new) }
        ensures failures { CountsFailure result (failed self.old) (failed self.new) };

    /// Returns the number of failures.
    fn failures(&self) -> u64
        ensures { result ≡ failed self.now };
}

/// Any reader or writer, with a count of failures. An interrupted call is a failure like any other.
#[derive(Drop)]
pub struct Counted<T> {
    inner: T,
    failures: u64,
}

impl<T> Model for Counted<T> {
    ghost use Rattle.http_streams.specs.Devices.{Watched};

    ghost Value = { Watched T };

    ghost view = { λ c. record { device = c.inner; failures = c.failures } };
}

impl<T> Counted<T> {
    /// Creates a device that has not failed yet.
    pub fn new(inner: T) -> Counted<T>
        ensures { result ≡ record { device = inner; failures = 0 } }
    {
        Counted { inner, failures: 0 }
    }
}

impl<R: Read> Source for Counted<R> {
    ghost left = { λ s. R.remaining s.device };

    ghost failed = { λ s. s.failures };

    ghost reads = { λ old room bytes new. Consumes (R.remaining old.device) (R.remaining new.device) bytes
        × (length bytes ≤ room) × (new.failures ≡ old.failures) };

    ghost fails = { λ old new. Keeps (R.remaining old.device) (R.remaining new.device)
        × (new.failures ≡ counted old.failures) };

    fn read(&mut self, buf: &mut [u8]) -> Result<usize, DeviceFailed> {
        match self.inner.read(buf) {
            Ok(n) => Ok(n),
            Err(_) => {
                self.failures = self.failures.saturating_add(1);
                Err(DeviceFailed)
            }
        }
    }

    fn failures(&self) -> u64 {
        self.failures
    }
}

impl<W: Write> Sink for Counted<W> {
    ghost holds = { λ s. W.contents s.device };

    ghost failed = { λ s. s.failures };

    ghost writes = { λ old bytes n new. Appends (W.contents old.device) (W.contents new.device) (take n bytes)
        × (new.failures ≡ old.failures) };

    ghost fails = { λ old new. Keeps (W.contents old.device) (W.contents new.device)
        × (new.failures ≡ counted old.failures) };

    fn write(&mut self, bytes: &[u8]) -> Result<usize, DeviceFailed> {
        match self.inner.write(bytes) {
            Ok(n) if n > 0 => Ok(n),
            _ => {
                self.failures = self.failures.saturating_add(1);
                Err(DeviceFailed)
            }
        }
    }

    fn failures(&self) -> u64 {
        self.failures
    }
}

/// Writes all the bytes, in as many calls as needed.
///
/// # Errors
///
/// - `DeviceFailed`: a call failed, and no call was made after it. The writer accepted only a proper prefix of the
///   bytes.
pub fn write_all<W: Sink>(writer: &mut W, bytes: &[u8]) -> Result<(), DeviceFailed>
    ensures ok { OnOk result (Appends (W.holds writer.old) (W.holds writer.new) bytes.now) }
    ensures err { OnErr result ((front : List ℕ) × (rest : List ℕ) × (0 < length rest) × (bytes.now ≡ front ++ rest)
        × Appends (W.holds writer.old) (W.holds writer.new) front) }
    ensures failed { OnErr result (FailsAtLast W.failed W.fails writer.old writer.new) }
    ensures count { OnOk result (W.failed writer.new ≡ W.failed writer.old) }
{
    let mut done = 0;
    while done < bytes.len() {
        match writer.write(&bytes[done..]) {
            Ok(n) => done += n,
            Err(failed) => return Err(failed),
        }
    }
    Ok(())
}
