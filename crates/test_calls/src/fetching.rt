//! Runs the test cases `fetch` and `far`: outcomes of fetching a reply, as main.rt describes them.
use crate::ways::{IN_SEVENS, PLAIN, SLOW, StreamSplit, by_reads, reader_of, writer_of};
use crate::written::shown;
use http::Method;
use http_streams::devices::Source;
use http_streams::fetch::{FetchFault, fetch};
use http_streams::parts::Ask;
use plain::NoMemory;
use std::alloc::Global;

/// The outcome of a fetch.
#[derive(Drop)]
struct Fetched {
    /// The status, or the error.
    status: Result<u16, FetchFault>,
    /// The body; empty after an error.
    body: Vec<u8>,
    /// The number of unread bytes.
    left: usize,
}

/// Returns the status and the body separately.
fn apart(
    alloc: Global,
    reply: Result<(u16, Vec<u8>), FetchFault>,
) -> (Result<u16, FetchFault>, Vec<u8>) {
    match reply {
        Ok((status, body)) => (Ok(status), body),
        Err(fault) => (Err(fault), Vec::new(alloc)),
    }
}

/// Fetches from a peer that sends these bytes, split in this way.
fn run(alloc: Global, bytes: &[u8], way: StreamSplit<'_>) -> Fetched {
    let mut reader = reader_of(way, bytes);
    let mut writer = writer_of(way, alloc);
    let get = Ask {
        method: &Method::GET,
        host: b"h",
        path: b"/",
        body: None,
    };
    let (status, body) = apart(alloc, fetch(alloc, &mut reader, &mut writer, &get));
    let left = reader.left().len();
    Fetched { status, body, left }
}

/// Returns the word of a test case for an error. A write fails here only if out of memory.
fn fault_word(fault: FetchFault) -> &'static str {
    match fault {
        FetchFault::BadReply => "bad reply",
        FetchFault::Ended => "ended",
        FetchFault::NoMemory | FetchFault::Write => "refused",
        FetchFault::Read => "fault",
    }
}

/// Returns a status and a body as a test case shows them.
fn status_and_body(alloc: Global, status: u16, body: &[u8]) -> Result<String, NoMemory> {
    let body = shown(alloc, body)?;
    format!(in alloc; "{status} {body}")
}

/// Returns the status and the body, or the error.
fn outcome_text(alloc: Global, fetched: &Fetched) -> Result<String, NoMemory> {
    match fetched.status {
        Ok(status) => status_and_body(alloc, status, fetched.body.as_slice()),
        Err(fault) => String::from_str(alloc, fault_word(fault)),
    }
}

/// Returns the outcome for the bytes, split in this way.
fn outcome_in(alloc: Global, bytes: &[u8], way: StreamSplit<'_>) -> Result<String, NoMemory> {
    let fetched = run(alloc, bytes, way);
    outcome_text(alloc, &fetched)
}

/// Returns whether the outcome for the bytes, split in this way, is `said`.
fn is_outcome_in(
    alloc: Global,
    bytes: &[u8],
    said: &str,
    way: StreamSplit<'_>,
) -> Result<bool, NoMemory> {
    let found = outcome_in(alloc, bytes, way)?;
    Ok(found.as_str() == said)
}

/// Returns whether the outcome is `said` for each split of the reply into two pieces.
fn is_outcome(alloc: Global, bytes: &[u8], said: &str) -> Result<bool, NoMemory> {
    for at in 0..bytes.len() {
        let reads = [at, usize::MAX];
        if !is_outcome_in(alloc, bytes, said, by_reads(&reads))? {
            return Ok(false);
        }
    }
    Ok(true)
}

/// Returns the number of unread bytes of a reply that is read in pieces of 7 bytes.
fn left(alloc: Global, bytes: &[u8]) -> usize {
    let fetched = run(alloc, bytes, IN_SEVENS);
    fetched.left
}

/// Returns the outcome `said` with the number of unread bytes, if it is the same however the reply is split in two;
/// else `differs`.
fn outcome_and_left(alloc: Global, bytes: &[u8], said: &str) -> Result<String, NoMemory> {
    if !is_outcome(alloc, bytes, said)? {
        return String::from_str(alloc, "differs");
    }
    let left = left(alloc, bytes);
    format!(in alloc; "{said}, {left} left")
}

/// Returns the outcome for a reply, with the number of bytes that are left unread when it is read in pieces of 7 bytes;
/// `differs` if the outcome depends on how the reply is split.
fn fetched_all(alloc: Global, bytes: &[u8]) -> Result<String, NoMemory> {
    let said = outcome_in(alloc, bytes, SLOW)?;
    outcome_and_left(alloc, bytes, said.as_str())
}

/// Returns the outcome of fetching a long reply that is not split: its status and the size of its body, or the error.
fn far(alloc: Global, bytes: &[u8]) -> Result<String, NoMemory> {
    let fetched = run(alloc, bytes, PLAIN);
    match fetched.status {
        Ok(status) => format!(in alloc; "{status}, {} bytes", fetched.body.len()),
        Err(fault) => String::from_str(alloc, fault_word(fault)),
    }
}

/// Returns the outcome of the test case `word` for the reply `bytes`.
pub(crate) fn row_outcome(alloc: Global, word: &str, bytes: &[u8]) -> Result<String, NoMemory> {
    match word {
        "fetch" => fetched_all(alloc, bytes),
        _ => far(alloc, bytes),
    }
}
