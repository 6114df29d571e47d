//! The streams, files and connections of a run.

use thiserror::Error;

/// One of the two standard streams.
#[derive(Clone, Copy)]
pub enum Stream {
    /// Standard output, for answers and for help.
    Answers,
    /// Standard error, for errors, warnings, and explanations of errors.
    Faults,
}

/// The error of a stream that did not accept all bytes.
#[derive(Clone, Copy, Debug, Error)]
#[error("stream did not take all that was written")]
pub struct StreamFailed;

/// The reason why a file was not read or written.
#[derive(Clone, Copy, Debug, Error)]
pub enum FileFault {
    /// The file does not exist.
    #[error("file does not exist")]
    Missing,
    /// The file can't be read or written.
    #[error("file cannot be read or written")]
    Failed,
    /// An allocation failed.
    #[error("out of memory")]
    NoMemory,
}

/// The error of the network: an address can't be listened at or reached, or accepting a connection failed.
#[derive(Clone, Copy)]
pub struct NetworkFailed;

/// A connection: its reader and its writer.
#[derive(Drop)]
pub struct Link<R, W> {
    pub reader: R,
    pub writer: W,
}
