//! How a stream is split, and the devices over memory that split it so.
use http_streams::memory::{Fed, Kept, Plan};
use std::alloc::Global;

/// How a stream is split: the sizes of the reads and of the writes.
#[derive(Clone, Copy)]
pub(crate) struct StreamSplit<'a> {
    pub(crate) reads: &'a [usize],
    pub(crate) writes: &'a [usize],
}

/// The stream is not split: reads and writes have any size.
pub(crate) const PLAIN: StreamSplit<'static> = StreamSplit {
    reads: &[],
    writes: &[],
};

/// The stream is read byte by byte, and written in pieces of 3 bytes.
pub(crate) const SLOW: StreamSplit<'static> = StreamSplit {
    reads: &[1],
    writes: &[3],
};

/// The stream is read in pieces of 7 bytes.
pub(crate) const IN_SEVENS: StreamSplit<'static> = StreamSplit {
    reads: &[7],
    writes: &[],
};

/// Returns the split with reads of these sizes, and writes of any size.
pub(crate) fn by_reads(reads: &[usize]) -> StreamSplit<'_> {
    StreamSplit { reads, writes: &[] }
}

/// Returns a reader of the bytes, split in this way.
pub(crate) fn reader_of<'a>(way: StreamSplit<'a>, bytes: &'a [u8]) -> Fed<'a> {
    Fed::new(bytes, Plan::new(way.reads, None))
}

/// Returns a writer, split in this way.
pub(crate) fn writer_of<'a>(way: StreamSplit<'a>, alloc: Global) -> Kept<'a> {
    Kept::new(alloc, Plan::new(way.writes, None))
}
